// The stays that may not stand at their targets.
ghost use Rattle.std.specs.Prelude.{◌≡◌, ◌<◌, [], false, length, All, OnOk};
ghost use Rattle.corner_table.specs.Kept.{AreSlots};
ghost use Rattle.corner_table.specs.Tables.{Lists, lists_of};
ghost use Rattle.corner_shifts.specs.Astray.{AreAstray, AreStaysListed, IsAstray, IsStayListed, ListsAstray};
ghost use Rattle.corner_shifts.specs.Astray.{ListsExchanged};

use corner_table::{Listed, Table, is_stay};
use frac_core::OutOfMemory;
use std::alloc::Global;

/// The slots of the stays' lines that may not stand at their targets, where they are known.
#[derive(Drop)]
pub struct Astray {
    pub is_known: bool,
    pub lines: Listed,
}

/// No stay's line.
pub fn none_astray(alloc: Global) -> Astray
    ensures { (t : Lists) → t.stays ≡ [] → IsAstray t result }
{
    Astray {
        is_known: true,
        lines: Listed::new(alloc),
    }
}

/// Lets it be unknown which they are.
pub fn forget_astray(astray: &mut Astray)
    ensures { astray.new.is_known ≡ false }
{
    astray.is_known = false;
}

/// Takes all off: each stay stands at its target.
pub fn all_stand(astray: &mut Astray)
    ensures { (t : Lists) → AreAstray t [] → IsAstray t astray.new }
{
    astray.lines.clear();
    astray.is_known = true;
}

// Lists the slot if it is of a stay's line.
fn list_slot(table: &Table, lines: &mut Listed, w: u32) -> Result<(), OutOfMemory>
    requires { w < length table.now.slots.items }
    ensures { OnOk result (IsStayListed (lists_of table.now) w lines.old lines.new) }
{
    if is_stay(table, w) {
        lines.push(w)?;
    }
    Ok(())
}

// Lists those of the slots that are of stays' lines.
fn list_slots(table: &Table, lines: &mut Listed, slots: &[u32]) -> Result<(), OutOfMemory>
    requires { All (λ w. w < length table.now.slots.items) slots.now }
    ensures { OnOk result (AreStaysListed (lists_of table.now) slots.now lines.old lines.new) }
{
    for i in 0..slots.len() {
        list_slot(table, lines, slots[i])?;
    }
    Ok(())
}

// A look at one listed line takes as long as a look at so many stays.
const LISTED_PRICE: usize = 4;

// Whether it takes no longer to look at all stays than at the lines of so many slots.
fn are_many(table: &Table, slots: usize) -> bool {
    slots > table.stays.len() / LISTED_PRICE
}

/// Lists the stays' lines in whose rows the line stands. Where these are many, or memory is wanting, they are
/// no longer known.
pub fn list_astray(table: &Table, astray: &mut Astray, line: u32)
    requires slots { AreSlots (lists_of table.now) }
    requires within { line < length table.now.slots.items }
    ensures { ListsAstray (lists_of table.now) line astray.old astray.new }
{
    if !astray.is_known {
        return;
    }
    let slots = table.matrix.column(line);
    if are_many(table, slots.len()) || list_slots(table, &mut astray.lines, slots).is_err() {
        forget_astray(astray);
    }
}

/// Lists the stays' lines that an exchange may move, before it is made: the line that enters, and those in
/// whose rows it stands.
pub fn list_exchanged(table: &Table, astray: &mut Astray, line: u32)
    requires slots { AreSlots (lists_of table.now) }
    requires within { line < length table.now.slots.items }
    ensures { ListsExchanged (lists_of table.now) line astray.old astray.new }
{
    list_astray(table, astray, line);
    match list_slot(table, &mut astray.lines, line) {
        Ok(()) => {}
        Err(OutOfMemory) => forget_astray(astray),
    }
}
