// The values of all views' attributes, apart from the engine.
ghost use Rattle.std.specs.Prelude.{◌≡◌, ◌++◌, All, IfOk, OnOk, map};
ghost use Rattle.problem_core.specs.Gaps.{value_of};
ghost use Rattle.problem_core.specs.Layout.{HasStay};
ghost use Rattle.held_items.specs.Attributes.{all_attributes};

use crate::scene::frames::value_of;
use corner_view::Tableau;
use frac_core::{Frac, OutOfMemory};
use held_items::view_attributes;
use layout_solver::Engine;
use problem_core::Values;
use std::alloc::Global;
use view_tree::Tree;

// Appends the values of these attributes.
fn push_values<T: Tableau>(
    out: &mut Vec<(u32, Frac)>,
    engine: &Engine<T>,
    attrs: &[u32],
) -> Result<(), OutOfMemory>
    requires { All (HasStay engine.now.problem.stays) attrs.now }
    ensures { OnOk result (out.new.items
        ≡ out.old.items ++ map (λ a. (a, value_of engine.now.values a)) attrs.now) }
{
    for attr in attrs {
        out.push((*attr, value_of(engine, *attr)))?;
    }
    Ok(())
}

/// The best values of the views' attributes, by number.
pub(crate) fn values_of<T: Tableau>(
    alloc: Global,
    tree: &Tree,
    engine: &Engine<T>,
) -> Result<Values, OutOfMemory>
    requires { All (HasStay engine.now.problem.stays) (all_attributes tree.now.views) }
    ensures { IfOk result (λ values. values
        ≡ map (λ a. (a, value_of engine.now.values a)) (all_attributes tree.now.views)) }
{
    let mut pairs = Vec::new(alloc);
    for place in 0..tree.len() {
        if let Some(view) = tree.at(place) {
            push_values(&mut pairs, engine, &view_attributes(view.id.0))?;
        }
    }
    Values::of(alloc, &pairs)
}
