// The attributes that have stays in a text.
ghost use Rattle.std.specs.Prelude.{IfOk, IsTrue, ◌↔◌, List, ℕ, ◌∷◌, [], ◌++◌, Contains};
ghost use Rattle.std.specs.Str.Lines.{lines};
ghost use Rattle.problem_reading.specs.Problems.{AreStayAttributes};
ghost use Rattle.problem_reading.specs.Sets.{HaveSame};

use crate::problem::stay_lines::read_stay;
use frac_core::OutOfMemory;
use span_text::lines;
use std::alloc::Global;
use std::marker::Model;

/// A set of attributes.
#[derive(Drop)]
pub(crate) struct Attributes {
    sorted: Vec<u32>,
}

impl Model for Attributes {
    ghost use Rattle.std.specs.Prelude.{List, ℕ};
    ghost use Rattle.std.specs.List.Sorted.{IsSorted};
    ghost use Rattle.std.specs.Ordering.{nat_cmp};

    ghost Value = { List ℕ };

    ghost view = { λ a. a.sorted.items };

    ghost invariant = { λ a. IsSorted nat_cmp a.sorted.items };
}

impl Attributes {
    // The set of these attributes.
    fn of(mut attrs: Vec<u32>) -> Result<Attributes, OutOfMemory>
        ensures { IfOk result (λ a. HaveSame attrs.items a) }
    {
        attrs.sort()?;
        Ok(Attributes { sorted: attrs })
    }

    /// Whether the attribute is in the set.
    pub(crate) fn contains(&self, attr: u32) -> bool
        ensures { IsTrue result ↔ Contains self.now attr }
    {
        self.sorted.binary_search(&attr).is_ok()
    }
}

// Adds the attribute of a line that is a stay.
fn add_attribute(attrs: &mut Vec<u32>, line: &[u8]) -> Result<(), OutOfMemory>
    ensures { IfOk result (λ _. (before : List (List ℕ)) → AreStayAttributes before attrs.old.items
        → AreStayAttributes (before ++ line.now ∷ []) attrs.new.items) }
{
    match read_stay(line) {
        Some(stay) => Ok(attrs.push(stay.attr)?),
        None => Ok(()),
    }
}

// The attributes of the lines that are stays, in their order.
fn attributes_in_order(alloc: Global, text: &[u8]) -> Result<Vec<u32>, OutOfMemory>
    ensures { IfOk result (λ v. AreStayAttributes (lines text.now) v.items) }
{
    let mut attrs = Vec::new(alloc);
    for line in lines(text) {
        add_attribute(&mut attrs, line.bytes)?;
    }
    Ok(attrs)
}

/// The attributes that have stays in the text.
pub(crate) fn stay_attributes(alloc: Global, text: &[u8]) -> Result<Attributes, OutOfMemory>
    ensures { IfOk result (λ a. AreStayAttributes (lines text.now) a) }
{
    Attributes::of(attributes_in_order(alloc, text)?)
}
