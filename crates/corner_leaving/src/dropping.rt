// A row whose mark is inside, or an attribute that no row names, is taken out.
ghost use Rattle.std.specs.Prelude.{◌≡◌, ◌<◌, length, slice_index_or, OnOk};
ghost use Rattle.version_lists.specs.Matrices.{IsBelow};
ghost use Rattle.problem_core.specs.Layout as layout;
ghost use Rattle.problem_core.specs.Layout.{HasStay};
ghost use Rattle.problem_core.specs.declared.parts.Stay as stay_type;
ghost use Rattle.corner_lines.specs.Removals.{IsFree, without_attr};
ghost use Rattle.corner_table.specs.declared.table.TheConstants.{LEVELS};
ghost use Rattle.corner_leaving.specs.Dropping.{AreLeftListed, dropped, dropped_attr, with_left};
ghost use Rattle.corner_table.specs.Histories.{AreAlike, lists_before};
ghost use Rattle.corner_table.specs.Kept.{AreSlots, IsKept};
ghost use Rattle.corner_leaving.specs.Leaving.{IsLeaver, IsLevelLeft};
ghost use Rattle.corner_table.specs.Invariants.{IsConsistent};
ghost use Rattle.corner_table.specs.Tables.{lists_of, marks_at, problem_of};

use crate::freeing::free_slot;
use crate::leaving::{Leaver, Left};
use corner_exchange::put_change;
use corner_joins::costs_at;
use corner_table::{Listed, Priority, Table, attr_slot, line_slot, list_row, row_place};
use frac_core::OutOfMemory;
use problem_core::RowName;

// Puts what is left of a level.
fn put_level(table: &mut Table, left: Left) -> Result<(), OutOfMemory>
    requires slots { AreSlots (lists_of table.old) }
    requires level { left.change.at < LEVELS }
    requires below { IsBelow (length table.old.slots.items) left.change.row }
    ensures ok { OnOk result (lists_of table.new ≡ with_left (lists_of table.old) left) }
    ensures before { lists_before table.new ≡ lists_before table.old }
    ensures alike { AreAlike table.old → AreAlike table.new }
{
    let Left { change, unit, rows } = left;
    let at = change.at;
    put_change(table, change)?;
    table.priorities.put(at as usize, Priority { unit, rows })
}

// Takes a leaving line off the list, and lists the lines of its row if it costs.
fn list_left(table: &Table, line: u32, listed: &mut Listed) -> Result<(), OutOfMemory>
    requires kept { IsKept (lists_of table.now) }
    requires within { line < length table.now.slots.items }
    ensures { OnOk result (AreLeftListed (lists_of table.now) line listed.old listed.new) }
{
    listed.leave(line);
    if !costs_at(table, line) {
        return Ok(());
    }
    list_row(table, line, listed)
}

// Takes a row out of whose level this is left.
fn drop_line(table: &mut Table, leaver: Leaver, left: Left) -> Result<(), OutOfMemory>
    requires kept { IsKept (lists_of table.old) }
    requires leaver { (r : layout.Row) × IsLeaver (lists_of table.old) r leaver }
    requires left { IsLevelLeft (lists_of table.old) leaver left }
    ensures ok { OnOk result (lists_of table.new ≡ dropped (lists_of table.old) leaver left) }
    ensures before { lists_before table.new ≡ lists_before table.old }
    ensures alike { AreAlike table.old → AreAlike table.new }
{
    let at = row_place(table, leaver.id);
    put_level(table, left)?;
    free_slot(table, leaver.line)?;
    table.rows.remove(at)
}

// The place of an attribute's stay among the stays.
fn stay_place(table: &Table, attr: u32) -> usize
    requires held { HasStay table.now.stays.items attr }
    ensures within { result < length table.now.stays.items }
    ensures is { (s : stay_type.Stay) → (slice_index_or table.now.stays.items result s).attr ≡ attr }
{
    for i in 0..table.stays.len() {
        if table.stays.get(i).attr == attr {
            return i;
        }
    }
    unreachable!()
}

// Takes an attribute out that no row names, and its stay.
fn drop_stay(table: &mut Table, attr: u32) -> Result<(), OutOfMemory>
    requires kept { IsKept (lists_of table.old) }
    requires free { IsFree (problem_of (lists_of table.old)) attr }
    ensures ok { OnOk result (lists_of table.new ≡ dropped_attr (lists_of table.old) attr) }
    ensures before { lists_before table.new ≡ lists_before table.old }
    ensures alike { AreAlike table.old → AreAlike table.new }
{
    let i = stay_place(table, attr);
    let at = attr_slot(table, attr);
    let line = line_slot(table, RowName::Stay(attr));
    free_slot(table, at)?;
    free_slot(table, line)?;
    table.stays.remove(i)
}

/// Takes a row out of whose level this is left.
pub fn put_left(
    table: &mut Table,
    listed: &mut Listed,
    leaver: Leaver,
    left: Left,
) -> Result<(), OutOfMemory>
    requires consistent { IsConsistent table.old listed.old }
    requires leaver { (r : layout.Row) × IsLeaver (lists_of table.old) r leaver }
    requires left { IsLevelLeft (lists_of table.old) leaver left }
    ensures lists { OnOk result (lists_of table.new ≡ dropped (lists_of table.old) leaver left) }
    ensures listed { OnOk result
        (AreLeftListed (lists_of table.old) leaver.line listed.old listed.new) }
    ensures before { lists_before table.new ≡ lists_before table.old }
    ensures alike { AreAlike table.new }
{
    list_left(table, leaver.line, listed)?;
    drop_line(table, leaver, left)
}

/// Takes an attribute out that no row names, and its stay.
pub fn take_attr(table: &mut Table, listed: &mut Listed, attr: u32) -> Result<(), OutOfMemory>
    requires consistent { IsConsistent table.old listed.old }
    requires free { IsFree (problem_of (lists_of table.old)) attr }
    ensures consistent { OnOk result (IsConsistent table.new listed.new) }
    ensures problem { OnOk result (problem_of (lists_of table.new)
        ≡ without_attr attr (problem_of (lists_of table.old))) }
    ensures marks { OnOk result (marks_at (lists_of table.new) ≡ marks_at (lists_of table.old)) }
    ensures before { lists_before table.new ≡ lists_before table.old }
    ensures alike { AreAlike table.new }
{
    listed.leave(attr_slot(table, attr));
    listed.leave(line_slot(table, RowName::Stay(attr)));
    drop_stay(table, attr)
}
