// The parts of its addends that a row keeps.
ghost use Rattle.std.specs.Prelude.{◌≡◌, ℕ, ◌≤◌, List, [], length, map, slice_index_or, IfOk};
ghost use Rattle.std.specs.String.{string_bytes};
ghost use Rattle.compile_parts.specs.Addends.{addend_view, addends_view};
ghost use Rattle.compile_parts.specs.Keeps as keeps;
ghost use Rattle.compile_parts.specs.Keeps.{part_view, steps_view, metric_name, HaveNames};
ghost use Rattle.compile_parts.specs.declared.limits.TheConstants.{ADDEND_LIMIT};

use compile_parts::{Addend, Part, Step};
use frac_core::OutOfMemory;
use std::alloc::Global;

// The metric a multiple of which the addend is, or an empty name.
fn metric_of(alloc: Global, addend: &Addend<'_>) -> Result<String, OutOfMemory>
    ensures { IfOk result (λ name. string_bytes name ≡ metric_name (addend_view addend.now)) }
{
    match *addend {
        Addend::Multiple { by: _, name } => Ok(String::from_str(alloc, name)?),
        Addend::Attr(_) => Ok(String::new(alloc)),
        Addend::Number(_) => Ok(String::new(alloc)),
        Addend::Nothing => Ok(String::new(alloc)),
    }
}

fn is_metric(addend: &Addend<'_>) -> bool
    ensures { result ≡ keeps.is_metric (addend_view addend.now).part }
{
    match *addend {
        Addend::Multiple { by: _, name: _ } => true,
        Addend::Attr(_) => false,
        Addend::Number(_) => false,
        Addend::Nothing => false,
    }
}

fn any_names_metric(added: &[Addend<'_>]) -> bool
    ensures { result ≡ keeps.any_names_metric (addends_view added.now) }
{
    for addend in added {
        if is_metric(addend) {
            return true;
        }
    }
    false
}

// For each addend the metric a multiple of which it is, or an empty name.
fn all_names(alloc: Global, added: &[Addend<'_>]) -> Result<Vec<String>, OutOfMemory>
    ensures { IfOk result (λ names. map string_bytes names.items ≡ map metric_name (addends_view added.now)) }
{
    let mut names = Vec::with_capacity(alloc, added.len())?;
    for addend in added {
        names.push(metric_of(alloc, addend)?)?;
    }
    Ok(names)
}

/// At the place of each addend the metric a multiple of which it is. Most lines name none, and for these
/// there is no list.
pub(crate) fn metric_names(alloc: Global, added: &[Addend<'_>]) -> Result<Vec<String>, OutOfMemory>
    ensures { IfOk result (λ names. HaveNames (map string_bytes names.items) (addends_view added.now)) }
{
    if !any_names_metric(added) {
        return Ok(Vec::new(alloc));
    }
    let names = all_names(alloc, added)?;
    Ok(names)
}

// The contribution of the addend at a place to the constant.
fn part_at(addend: &Addend<'_>, place: u32) -> Part
    ensures { (names : List (List ℕ)) → slice_index_or names place [] ≡ metric_name (addend_view addend.now)
        → part_view names result ≡ (addend_view addend.now).part }
{
    match *addend {
        Addend::Multiple { by, name: _ } => Part::Multiple { by, place },
        Addend::Attr(_) => Part::Nothing,
        Addend::Number(by) => Part::Number(by),
        Addend::Nothing => Part::Nothing,
    }
}

/// The scale after each addend, and the addend's contribution.
pub(crate) fn steps_of(
    alloc: Global,
    added: &[Addend<'_>],
    scales: &[u32],
) -> Result<Vec<Step>, OutOfMemory>
    requires long { length scales.now ≡ length added.now }
    requires few { length added.now ≤ ADDEND_LIMIT }
    ensures long { IfOk result (λ steps. length steps.items ≡ length added.now) }
    ensures scales { IfOk result (λ steps. map (λ s. s.scale) steps.items ≡ scales.now) }
    ensures parts { IfOk result (λ steps. (names : List (List ℕ)) → HaveNames names (addends_view added.now)
        → map (λ s. s.part) (steps_view names steps.items) ≡ map (λ a. a.part) (addends_view added.now)) }
{
    let mut steps = Vec::with_capacity(alloc, added.len())?;
    for place in 0..added.len() {
        let step = Step {
            scale: scales[place],
            part: part_at(&added[place], place as u32),
        };
        steps.push(step)?;
    }
    Ok(steps)
}
