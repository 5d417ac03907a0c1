// What the outside marks cost with which an inside one grows.
ghost use Rattle.std.specs.Prelude.{◌≡◌, ◌≢◌, ◌<◌, ◌^◌, length, true};
ghost use Rattle.problem_core.specs.Corners as corners;
ghost use Rattle.problem_core.specs.Corners.{IsIn};
ghost use Rattle.corner_writings.specs.Growing as growing;
ghost use Rattle.corner_view.specs.Growing.{AreGrowersDear};
ghost use Rattle.corner_writings.specs.Growing.{IsEntryDear, IsRowDear};
ghost use Rattle.corner_writings.specs.Walks.{IsLevelRead};
ghost use Rattle.corner_table.specs.Kept.{IsKept};
ghost use Rattle.corner_table.specs.Reads.LevelNumbers.{IsLevelSlot, IsSlotOfLine};
ghost use Rattle.corner_table.specs.Tables.{lists_of, marks_at, problem_of, row_at};
ghost use Rattle.corner_view.specs.Seen.{IsLevelOf};

use crate::levels::{LevelRead, level_read, reduced_by};
use corner_table::{Table, level_slot, line_slot, other};
use problem_core::{Level, Mark, Side};
use row_core::Entry;

// The side of the mark with which an inside one of this side grows, where its line has this number in the row
// of the inside one's.
fn growing_side(by: i64, side: Side) -> Side
    ensures { result ≡ growing.growing_side by side }
{
    if by < 0 { side } else { other(side) }
}

// Whether the mark of an entry's line costs at the level with which the inside one of w grows.
fn is_entry_dear(table: &Table, w: u32, side: Side, read: LevelRead, e: Entry) -> bool
    requires kept { IsKept (lists_of table.now) }
    requires read { IsLevelRead (lists_of table.now) read }
    requires line { e.col ≢ w → IsSlotOfLine (lists_of table.now) e.col }
    requires fits { e.col < 2 ^ 32 }
    ensures { result ≡ true → IsEntryDear (lists_of table.now) w side read.l e }
{
    let line = e.col.0 as u32;
    line == w || reduced_by(table, read, line, growing_side(e.by, side)) > 0
}

/// Whether those of all entries of a slot's row do but of its own.
pub fn is_row_dear(table: &Table, w: u32, side: Side, l: u32) -> bool
    requires kept { IsKept (lists_of table.now) }
    requires within { w < length table.now.slots.items }
    requires level { IsLevelSlot (lists_of table.now) l }
    ensures { result ≡ true → IsRowDear (lists_of table.now) w side l (row_at (lists_of table.now) w) }
{
    let read = level_read(table, l);
    for e in table.matrix.row(w).entries() {
        if !is_entry_dear(table, w, side, read, *e) {
            return false;
        }
    }
    true
}

/// Whether all outside marks of other lines cost at the level with which an inside one grows.
pub fn are_growers_dear(table: &Table, mark: Mark, level: Level) -> bool
    requires kept { IsKept (lists_of table.now) }
    requires inside { IsIn (corners.place mark) (marks_at (lists_of table.now)) }
    requires level { IsLevelOf (problem_of (lists_of table.now)) level }
    ensures { result ≡ true
        → AreGrowersDear (problem_of (lists_of table.now)) (marks_at (lists_of table.now)) mark level }
{
    let w = line_slot(table, mark.row);
    is_row_dear(table, w, mark.side, level_slot(table, level))
}
