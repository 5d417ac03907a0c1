// The stays' targets where they are moved to the values of now.
ghost use Rattle.std.specs.Prelude.{◌≡◌, ◌<◌, ◌≤◌, ℕ, false, length, OnOk};
ghost use Rattle.problem_core.specs.Layout.{HasStay};
ghost use Rattle.corner_shifts.specs.Astray.{IsAstray};
ghost use Rattle.corner_shifts.specs.Stood.{AreFirstStood, IsAtRest, IsStoodAt, with_present};
ghost use Rattle.corner_table.specs.Histories.{HasSameHistory};
ghost use Rattle.corner_table.specs.Kept.{AreSlots, IsKept};
ghost use Rattle.corner_table.specs.Tables.{lists_of};

mod listed;

use crate::astray::Astray;
use corner_table::{Standing, Table, attr_slot, line_slot, side_at, value_at};
use frac_core::{Frac, OutOfMemory};
use listed::stand_listed;
use problem_core::{RowName, Stay};

// Gives a stay its attribute's value as target.
fn move_stay(table: &mut Table, i: usize, attr: u32) -> Result<(), OutOfMemory>
    requires slots { AreSlots (lists_of table.old) }
    requires within { i < length table.old.stays.items }
    requires attr { HasStay table.old.stays.items attr }
    ensures past { HasSameHistory table.old table.new }
    ensures lists { OnOk result (lists_of table.new ≡ with_present (lists_of table.old) i attr) }
{
    let line = line_slot(table, RowName::Stay(attr));
    let side = side_at(table, line);
    let target = value_at(table, attr_slot(table, attr));
    table.stays.put(i, Stay { attr, target })?;
    let value = Frac::zero();
    table.standings.put(line as usize, Standing { side, value })
}

// Gives the stay in a place its attribute's value as target.
fn stand_stay(table: &mut Table, i: usize) -> Result<(), OutOfMemory>
    requires slots { AreSlots (lists_of table.old) }
    requires within { i < length table.old.stays.items }
    ensures past { HasSameHistory table.old table.new }
    ensures lists { OnOk result (IsStoodAt i (lists_of table.old) (lists_of table.new)) }
{
    let attr = table.stays.get(i).attr;
    move_stay(table, i, attr)
}

// Whether the stay in a place has moved.
fn has_moved(table: &Table, i: usize) -> bool
    requires slots { AreSlots (lists_of table.now) }
    requires within { i < length table.now.stays.items }
    ensures { result ≡ false → IsAtRest (lists_of table.now) i }
{
    let attr = table.stays.get(i).attr;
    let line = line_slot(table, RowName::Stay(attr));
    value_at(table, line).num() != 0
}

// The place of the first stay from this one on that has moved, or how many stays there are.
fn next_moved(table: &Table, from: usize) -> usize
    requires slots { AreSlots (lists_of table.now) }
    ensures rest { (i : ℕ) → from ≤ i → i < result → IsAtRest (lists_of table.now) i }
    ensures within { from ≤ length table.now.stays.items → from ≤ result }
    ensures most { result ≤ length table.now.stays.items }
{
    let count = table.stays.len();
    for i in from..count {
        if has_moved(table, i) {
            return i;
        }
    }
    count
}

/// Gives each stay that has moved its attribute's value as target.
pub(crate) fn stand_stays(table: &mut Table) -> Result<(), OutOfMemory>
    requires kept { IsKept (lists_of table.old) }
    ensures past { HasSameHistory table.old table.new }
    ensures lists { OnOk result (AreFirstStood (length table.old.stays.items) (lists_of table.old)
        (lists_of table.new)) }
{
    let count = table.stays.len();
    let mut i = next_moved(table, 0);
    while i < count {
        stand_stay(table, i)?;
        i = next_moved(table, i + 1);
    }
    Ok(())
}

/// Gives the stays that may be astray the attributes' values as targets.
pub fn stand_astray(table: &mut Table, astray: &Astray) -> Result<(), OutOfMemory>
    requires kept { IsKept (lists_of table.old) }
    requires astray { IsAstray (lists_of table.old) astray.now }
    ensures past { HasSameHistory table.old table.new }
    ensures lists { OnOk result (AreFirstStood (length table.old.stays.items) (lists_of table.old)
        (lists_of table.new)) }
{
    if astray.is_known {
        stand_listed(table, &astray.lines)
    } else {
        stand_stays(table)
    }
}
