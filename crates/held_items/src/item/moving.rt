// The rows whose constants change with the value of a metric.
ghost use Rattle.std.specs.Prelude.{◌≡◌, ◌≢◌, ◌<◌, true, false, length, All, AllPairs, Any};
ghost use Rattle.std.specs.Prelude.{IfOk, IfErr, IfSome, IfNone};
ghost use Rattle.constraint_compile.specs.Naming.{naming, AreConstantsOf};
ghost use Rattle.constraint_compile.specs.Stops.{IsConstantStop};
ghost use Rattle.layout_solver.specs.Shifts.{AreKept};
ghost use Rattle.held_items.specs.Kept.{item_of, items_of};
ghost use Rattle.held_items.specs.Moving.{forms_in, forms_of, AreMoves, IsFar, IsPushed};

use crate::changes::fits_after;
use crate::item::Item;
use compile_parts::LargeConstant;
use constraint_compile::RowConstant;
use frac_core::{OutOfMemory, Stop};
use layout_solver::Change;
use name_tables::Metrics;
use problem_core::{Row, row_place};
use std::alloc::Global;

// The constants, for these metrics, of the item's rows that name the metric.
fn item_constants(
    alloc: Global,
    item: &Item,
    metrics: &Metrics,
    name: &str,
) -> Result<Vec<RowConstant>, Stop<LargeConstant>>
    ensures constants { IfOk result (λ constants. AreConstantsOf metrics.now
        (naming name.now (forms_in (item_of item.now))) constants.items) }
    ensures stop { IfErr result (IsConstantStop metrics.now (naming name.now (forms_in (item_of item.now)))) }
{
    match item {
        Item::OfLine { line, .. } => line.constants_naming(alloc, metrics, name),
        Item::OfWindow | Item::OfView { .. } | Item::Sized { .. } => Ok(Vec::new(alloc)),
        Item::Suggested(_) | Item::Intrinsic(_) => Ok(Vec::new(alloc)),
    }
}

/// The constants, for these metrics, of all rows that name the metric. It stops if such a constant isn't
/// small after some term.
pub fn constants_naming(
    alloc: Global,
    items: &[Item],
    metrics: &Metrics,
    name: &str,
) -> Result<Vec<RowConstant>, Stop<LargeConstant>>
    ensures constants { IfOk result (λ constants. AreConstantsOf metrics.now
        (naming name.now (forms_of (items_of items.now))) constants.items) }
    ensures stop { IfErr result
        (IsConstantStop metrics.now (naming name.now (forms_of (items_of items.now)))) }
{
    let mut constants = Vec::new(alloc);
    for item in items {
        let mut more = item_constants(alloc, item, metrics, name)?;
        if constants.append(&mut more).is_err() {
            return Err(Stop::OutOfMemory);
        }
    }
    Ok(constants)
}

// Appends the change to this constant, unless its row already has it. Returns whether the constant is near.
fn push_change(
    rows: &[Row],
    constant: &RowConstant,
    to: &mut Vec<Change>,
) -> Result<bool, OutOfMemory>
    requires { AllPairs (λ r s. r.id < s.id) rows.now }
    ensures near { IfOk result
        (λ near. near ≡ true → IsPushed rows.now constant.now to.old.items to.new.items) }
    ensures far { IfOk result (λ near. near ≡ false → IsFar rows.now constant.now) }
    ensures kept { IfOk result (λ _. AreKept to.old.items → AreKept to.new.items) }
{
    let _num = constant.constant.num(); // for the proof: what a fraction keeps
    let Some(place) = row_place(rows, constant.row) else {
        return Ok(true);
    };
    let from = rows[place].constant();
    if !fits_after(from, constant.constant) {
        return Ok(false);
    }
    if from != constant.constant {
        to.push(Change {
            row: constant.row,
            constant: constant.constant,
        })?;
    }
    Ok(true)
}

/// The changes to those constants that their rows don't have yet. `None` if one is too far from its row's.
pub fn moves(
    alloc: Global,
    rows: &[Row],
    constants: &[RowConstant],
) -> Result<Option<Vec<Change>>, OutOfMemory>
    requires { AllPairs (λ r s. r.id < s.id) rows.now }
    ensures some { IfOk result (λ o. IfSome o (λ to. AreMoves rows.now constants.now to.items)) }
    ensures kept { IfOk result (λ o. IfSome o (λ to. AreKept to.items)) }
    ensures none { IfOk result (λ o. IfNone o (Any (IsFar rows.now) constants.now)) }
{
    let mut to = Vec::new(alloc);
    for constant in constants {
        if !push_change(rows, constant, &mut to)? {
            return Ok(None);
        }
    }
    Ok(Some(to))
}
