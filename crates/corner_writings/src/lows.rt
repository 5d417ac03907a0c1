// The lines whose marks have negative values.
ghost use Rattle.std.specs.Prelude.{◌≡◌, ◌↔◌, ◌<◌, length, true, All, OnOk};
ghost use Rattle.corner_table.specs.Kept.{AreSlots, IsKept};
ghost use Rattle.corner_writings.specs.Lows.{IsLowSlot, ListsSlot, ListsSlots};
ghost use Rattle.corner_view.specs.Lows.{ListsLow};
ghost use Rattle.corner_table.specs.Tables.{lists_of, marks_at, problem_of};
ghost use Rattle.corner_view.specs.Seen.{IsNamed};

use crate::writings::{moved, nth};
use corner_table::{Table, line_slot, name_at, side_at, value_at};
use frac_core::OutOfMemory;
use problem_core::RowName;

// Whether the slot has an inside mark whose value is negative.
fn is_low(table: &Table, w: u32) -> bool
    requires slots { AreSlots (lists_of table.now) }
    requires within { w < length table.now.slots.items }
    ensures { (result ≡ true) ↔ IsLowSlot (lists_of table.now) w }
{
    side_at(table, w).is_some() && value_at(table, w).num() < 0
}

// Lists the line of a slot whose mark has a negative value.
fn list_slot(table: &Table, w: u32, low: &mut Vec<RowName>) -> Result<(), OutOfMemory>
    requires slots { AreSlots (lists_of table.now) }
    requires within { w < length table.now.slots.items }
    ensures { OnOk result (ListsSlot (lists_of table.now) w low.old.items low.new.items) }
{
    if is_low(table, w) {
        low.push(name_at(table, w))?;
    }
    Ok(())
}

// Lists the lines of the slots whose marks have negative values.
fn list_slots(table: &Table, slots: &[u32], low: &mut Vec<RowName>) -> Result<(), OutOfMemory>
    requires slots { AreSlots (lists_of table.now) }
    requires within { All (λ w. w < length table.now.slots.items) slots.now }
    ensures { OnOk result (ListsSlots (lists_of table.now) slots.now low.old.items low.new.items) }
{
    for i in 0..slots.len() {
        let w = nth(slots, i);
        list_slot(table, w, low)?;
    }
    Ok(())
}

/// Lists the line if its inside mark has a negative value; where it is outside, those of the inside marks
/// that move with it and have negative values.
pub fn list_low(table: &Table, row: RowName, low: &mut Vec<RowName>) -> Result<(), OutOfMemory>
    requires kept { IsKept (lists_of table.now) }
    requires row { IsNamed (problem_of (lists_of table.now)) row }
    ensures { OnOk result (ListsLow (problem_of (lists_of table.now)) (marks_at (lists_of table.now)) row
        low.old.items low.new.items) }
{
    let line = line_slot(table, row);
    if side_at(table, line).is_some() {
        list_slot(table, line, low)?;
        return Ok(());
    }
    list_slots(table, moved(table, line), low)?;
    Ok(())
}
