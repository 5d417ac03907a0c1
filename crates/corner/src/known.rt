// What is known of the lists, so that it is not looked up again.
ghost use Rattle.std.specs.Prelude.{◌≡◌, [], length, true, IfErr, OnOk};
ghost use Rattle.frac_core.specs.Fraction as fraction;
ghost use Rattle.corner_table.specs.Histories.{AreAlike, HasSameHistory, lists_before};
ghost use Rattle.corner_table.specs.Kept.{HasSlotsLeft, IsKept};
ghost use Rattle.corner_table.specs.Tables.{Lists, lists_of, problem_of};
ghost use Rattle.corner.specs.Known.{AreKnown};
ghost use Rattle.corner.specs.Safe.{AreSafe};
ghost use Rattle.corner_view.specs.Changes.{IsNear};
ghost use Rattle.corner_shifts.specs.Astray.{IsAstray};
ghost use Rattle.corner_shifts.specs.Shifting.{IsShifted, IsShiftedStop};
ghost use Rattle.corner_shifts.specs.Stood.{AreFirstStood};

use crate::safe::{Safe, clear_safe, no_safe};
use corner_shifts::{
    Astray, all_stand, forget_astray, list_astray, none_astray, shift_row, stand_astray,
};
use corner_table::{Table, is_crowded, line_slot};
use frac_core::{Frac, OutOfMemory};
use problem_core::{RowName, TableStop};
use std::alloc::Global;

/// The lines that are known to be safe to turn, and the stays that may not stand at their targets.
#[derive(Drop)]
pub(crate) struct Known {
    pub(crate) safe: Safe,
    pub(crate) astray: Astray,
}

/// No line is safe to turn, and no stay is astray.
pub(crate) fn nothing_known(alloc: Global) -> Known
    ensures { (t : Lists) → t.stays ≡ [] → AreKnown t result }
{
    Known {
        safe: no_safe(alloc),
        astray: none_astray(alloc),
    }
}

/// Lets all be unknown.
pub(crate) fn forget_known(known: &mut Known)
    ensures { (t : Lists) → AreKnown t known.new }
{
    clear_safe(&mut known.safe);
    forget_astray(&mut known.astray);
}

/// Lets be unknown what a join may change: which lines are safe to turn, and where slots of nothing go first,
/// which stays are astray.
pub(crate) fn forget_for_join(table: &Table, known: &mut Known)
    requires kept { IsKept (lists_of table.now) }
    requires known { AreKnown (lists_of table.now) known.old }
    ensures safe { (t : Lists) → AreSafe t known.new.safe }
    ensures left { known.new.astray.is_known ≡ true → HasSlotsLeft (lists_of table.now) }
    ensures astray { IsAstray (lists_of table.now) known.new.astray }
{
    clear_safe(&mut known.safe);
    if is_crowded(table) {
        forget_astray(&mut known.astray);
    }
}

/// Gives a row this constant, and lists the stays that move.
pub(crate) fn shift_known(
    table: &mut Table,
    known: &mut Known,
    id: u32,
    to: Frac,
) -> Result<(), TableStop>
    requires kept { IsKept (lists_of table.old) }
    requires near { IsNear (problem_of (lists_of table.old)) id to }
    requires known { AreKnown (lists_of table.old) known.old }
    ensures ok { OnOk result (IsShifted id to (lists_of table.old) (lists_of table.new)) }
    ensures known { OnOk result (AreKnown (lists_of table.new) known.new) }
    ensures stop { IfErr result (IsShiftedStop id to (lists_of table.old)) }
    ensures value { fraction.IsKept to }
    ensures before { lists_before table.new ≡ lists_before table.old }
    ensures alike { AreAlike table.old → AreAlike table.new }
{
    let line = line_slot(table, RowName::Held(id));
    list_astray(table, &mut known.astray, line);
    shift_row(table, id, to)
}

/// Gives each stay that has moved its attribute's value as target.
pub(crate) fn stand_known(table: &mut Table, known: &mut Known) -> Result<(), OutOfMemory>
    requires kept { IsKept (lists_of table.old) }
    requires known { AreKnown (lists_of table.old) known.old }
    ensures past { HasSameHistory table.old table.new }
    ensures lists { OnOk result (AreFirstStood (length table.old.stays.items) (lists_of table.old)
        (lists_of table.new)) }
    ensures known { OnOk result (AreKnown (lists_of table.new) known.new) }
{
    stand_astray(table, &known.astray)?;
    all_stand(&mut known.astray);
    Ok(())
}
