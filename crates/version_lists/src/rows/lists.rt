// The lists of an index, when a row is changed.
ghost use Rattle.std.specs.Prelude.{◌≡◌, ◌<◌, ◌≤◌, ◌+◌, ◌⊎◌, length, IfOk, OnOk};
ghost use Rattle.row_core.specs.Rows.{IsRising};
ghost use Rattle.version_lists.specs.Indexes.{IsRisingList, list_at};
ghost use Rattle.version_lists.specs.Lists.{IsWith, IsWithout, IsChangedAt, IsListedAt};
ghost use Rattle.version_lists.specs.Lists.{IsSameBut};
ghost use Rattle.version_lists.specs.Matrices.{IsBelow};
ghost use Rattle.version_lists.specs.Walks.{IsNext, IsNextInBoth, IsRelisted};
ghost use Rattle.version_lists.specs.declared.rows.lists.Turn.TheVariants.{Old, New, Both};

use crate::rows::list::{Column, put_in, take_out};
use crate::versions::VersionList;
use frac_core::OutOfMemory;
use row_core::{Col, Entry};

// Puts w into the list of the column.
fn list_one(lists: &mut VersionList<Column>, col: Col, w: u32) -> Result<(), OutOfMemory>
    requires within { col.0 < length lists.old.items }
    requires rising { IsRisingList (list_at lists.old.items col.0) }
    ensures ok { OnOk result (IsChangedAt (IsWith w) col.0 lists.old.items lists.new.items) }
    ensures before { lists.new.before ≡ lists.old.before }
{
    let list = lists.edit(col.0 as usize)?;
    put_in(&mut list.slots, w)
}

// Takes w out of the list of the column.
fn unlist_one(lists: &mut VersionList<Column>, col: Col, w: u32) -> Result<(), OutOfMemory>
    requires within { col.0 < length lists.old.items }
    requires rising { IsRisingList (list_at lists.old.items col.0) }
    ensures ok { OnOk result (IsChangedAt (IsWithout w) col.0 lists.old.items lists.new.items) }
    ensures before { lists.new.before ≡ lists.old.before }
{
    let list = lists.edit(col.0 as usize)?;
    take_out(&mut list.slots, w);
    Ok(())
}

/// The entries of a slot's row, and those of the row that takes its place.
#[derive(Clone, Copy)]
pub(crate) struct RowChange<'a> {
    pub w: u32,
    pub old: &'a [Entry],
    pub new: &'a [Entry],
}

// How many entries of the old and the new row have been read.
#[derive(Clone, Copy)]
struct Place {
    old: usize,
    new: usize,
}

// The row that has the next column.
#[derive(Clone, Copy)]
enum Turn {
    Old,
    New,
    Both,
}

// Which of the rows, one of which is not at its end, has the next column.
fn next_turn(change: &RowChange<'_>, at: Place) -> Turn
    requires old { at.old ≤ length change.now.old.now }
    requires new { at.new ≤ length change.now.new.now }
    requires more { at.old < length change.now.old.now ⊎ at.new < length change.now.new.now }
    ensures old { result ≡ Old → IsNext change.now.old.now at.old change.now.new.now at.new }
    ensures new { result ≡ New → IsNext change.now.new.now at.new change.now.old.now at.old }
    ensures both { result ≡ Both → IsNextInBoth change.now.old.now at.old change.now.new.now at.new }
{
    if at.new == change.new.len() {
        return Turn::Old;
    }
    if at.old == change.old.len() {
        return Turn::New;
    }
    let (left, right) = (change.old[at.old], change.new[at.new]);
    if left.col.0 < right.col.0 {
        Turn::Old
    } else if right.col.0 < left.col.0 {
        Turn::New
    } else {
        Turn::Both
    }
}

// Reads what the two rows have at the next column, and changes its list where one of them lacks it.
fn step(
    lists: &mut VersionList<Column>,
    change: &RowChange<'_>,
    at: Place,
) -> Result<Place, OutOfMemory>
    requires old { IsRising change.now.old.now }
    requires new { IsRising change.now.new.now }
    requires below { IsBelow (length lists.old.items) change.now.new.now }
    requires more { at.old < length change.now.old.now ⊎ at.new < length change.now.new.now }
    requires relisted { IsRelisted change.now at.old at.new lists.old.items }
    ensures relisted { IfOk result (λ next. IsRelisted change.now next.old next.new lists.new.items) }
    ensures same { OnOk result (IsSameBut change.now.w lists.old.items lists.new.items) }
    ensures further { IfOk result (λ next. at.old + at.new < next.old + next.new) }
    ensures before { lists.new.before ≡ lists.old.before }
{
    let mut next = at;
    match next_turn(change, at) {
        Turn::Old => {
            let entry = change.old[at.old];
            unlist_one(lists, entry.col, change.w)?;
            next.old += 1;
        }
        Turn::New => {
            let entry = change.new[at.new];
            list_one(lists, entry.col, change.w)?;
            next.new += 1;
        }
        Turn::Both => {
            next.old += 1;
            next.new += 1;
        }
    }
    Ok(next)
}

/// Takes the slot out of the lists of the columns that only the old row has, and puts it into those that
/// only the new row has.
pub(crate) fn relist(
    lists: &mut VersionList<Column>,
    change: &RowChange<'_>,
) -> Result<(), OutOfMemory>
    requires old { IsRising change.now.old.now }
    requires new { IsRising change.now.new.now }
    requires below { IsBelow (length lists.old.items) change.now.new.now }
    requires listed { IsListedAt change.now.w change.now.old.now lists.old.items }
    ensures listed { OnOk result (IsListedAt change.now.w change.now.new.now lists.new.items) }
    ensures same { OnOk result (IsSameBut change.now.w lists.old.items lists.new.items) }
    ensures before { lists.new.before ≡ lists.old.before }
{
    let mut at = Place { old: 0, new: 0 };
    while at.old < change.old.len() || at.new < change.new.len() {
        at = step(lists, change, at)?;
    }
    Ok(())
}
