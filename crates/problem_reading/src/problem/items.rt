// What a line of a problem says by itself.
ghost use Rattle.std.specs.Prelude.{◌≡◌, ◌∷◌, List, ℕ, All, true, IfOk, IfSome, IfNone, IsTrue, ◌↔◌};
ghost use Rattle.span_text.specs.Bytes.{hash};
ghost use Rattle.span_text.specs.Classes.{is_space};
ghost use Rattle.problem_reading.specs.declared.problem.items.Item as item;
ghost use Rattle.problem_reading.specs.Problems.{IsPassedOver, Says};

use crate::problem::row_lines::read_row;
use crate::problem::stay_lines::read_stay;
use frac_core::OutOfMemory;
use problem_core::{Row, Stay};
use std::alloc::Global;

/// What a line says.
#[derive(Drop)]
pub(crate) enum Item {
    Nothing,
    OfRow(Row),
    OfStay(Stay),
}

// Whether the line has nothing but spaces and tabs.
fn is_blank(line: &[u8]) -> bool
    ensures { IsTrue result ↔ All (λ b. is_space b ≡ true) line.now }
{
    line.iter().all(|b| *b == b' ' || *b == b'\t')
}

fn is_comment(line: &[u8]) -> bool
    ensures { IsTrue result ↔ ((more : List ℕ) × (line.now ≡ hash ∷ more)) }
{
    match line {
        [b'#', ..] => true,
        _ => false,
    }
}

fn is_passed_over(line: &[u8]) -> bool
    ensures { IsTrue result ↔ IsPassedOver line.now }
{
    is_blank(line) || is_comment(line)
}

/// What a line says, if it is in the form.
pub(crate) fn read_item(alloc: Global, line: &[u8]) -> Result<Option<Item>, OutOfMemory>
    ensures some { IfOk result (λ found. IfSome found (Says line.now)) }
    ensures none { IfOk result (λ found. IfNone found ((i : item.Item) → Says line.now i → ⊥)) }
{
    if is_passed_over(line) {
        return Ok(Some(Item::Nothing));
    }
    if let Some(stay) = read_stay(line) {
        return Ok(Some(Item::OfStay(stay)));
    }
    let Some(row) = read_row(alloc, line)? else {
        return Ok(None);
    };
    Ok(Some(Item::OfRow(row)))
}
