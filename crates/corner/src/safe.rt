// Which lines are safe to turn: where their inside mark grows, the required rows cost.
ghost use Rattle.std.specs.Prelude.{◌≡◌, ◌↔◌, ◌<◌, length, true, Contains, OnOk};
ghost use Rattle.problem_core.specs.Corners as corners;
ghost use Rattle.problem_core.specs.Corners.{IsIn};
ghost use Rattle.problem_core.specs.declared.limits.TheConstants.{REQUIRED as MOST};
ghost use Rattle.problem_core.specs.declared.parts.Level.TheVariants.{Priority as PriorityOf};
ghost use Rattle.corner_table.specs.Kept.{IsKept};
ghost use Rattle.corner_table.specs.Tables.{Lists, lists_of, marks_at, problem_of, row_at};
ghost use Rattle.corner_view.specs.Growing.{AreGrowersDear};
ghost use Rattle.corner_writings.specs.Growing.{IsRowDear};
ghost use Rattle.corner.specs.Safe.{AreSafe, IsNoted, ListsNone, listed_at};

use corner_table::{Listed, Table, level_slot, line_slot};
use corner_writings::is_row_dear;
use frac_core::OutOfMemory;
use problem_core::{Level, Mark, REQUIRED, Side};
use std::alloc::Global;

/// The slots of lines that are listed with the one side or the other.
#[derive(Drop)]
pub(crate) struct Sides {
    under: Listed,
    over: Listed,
}

/// The lines that were looked at from a side, and of these the dear ones: their inside mark grows with marks
/// of other lines alone that cost at the required rows' level. Nothing is proved of `seen`, since it says no
/// more than that another look would find the same.
#[derive(Drop)]
pub(crate) struct Safe {
    dear: Sides,
    seen: Sides,
}

// No line with either side.
fn no_sides(alloc: Global) -> Sides
    ensures { ListsNone result }
{
    Sides {
        under: Listed::new(alloc),
        over: Listed::new(alloc),
    }
}

/// No line.
pub(crate) fn no_safe(alloc: Global) -> Safe
    ensures { (t : Lists) → AreSafe t result }
{
    Safe {
        dear: no_sides(alloc),
        seen: no_sides(alloc),
    }
}

// Takes all lines off.
fn clear_sides(sides: &mut Sides)
    ensures { ListsNone sides.new }
{
    sides.under.clear();
    sides.over.clear();
}

/// Takes all lines off.
pub(crate) fn clear_safe(safe: &mut Safe)
    ensures { (t : Lists) → AreSafe t safe.new }
{
    clear_sides(&mut safe.dear);
    clear_sides(&mut safe.seen);
}

// Whether the line is listed with this side.
fn has(sides: &Sides, line: u32, side: Side) -> bool
    ensures { result ≡ true → Contains (listed_at sides.now side) line }
{
    match side {
        Side::Under => sides.under.has(line),
        Side::Over => sides.over.has(line),
    }
}

// Lists the line with this side.
fn push(sides: &mut Sides, line: u32, side: Side) -> Result<(), OutOfMemory>
    ensures { OnOk result (IsNoted line side sides.old sides.new) }
{
    match side {
        Side::Under => sides.under.push(line),
        Side::Over => sides.over.push(line),
    }
}

// Whether the mark of the line grows with marks of other lines alone that cost at the required rows' level.
fn is_dear(table: &Table, line: u32, side: Side) -> bool
    requires kept { IsKept (lists_of table.now) }
    requires within { line < length table.now.slots.items }
    ensures { result ≡ true
        → IsRowDear (lists_of table.now) line side 0 (row_at (lists_of table.now) line) }
{
    is_row_dear(
        table,
        line,
        side,
        level_slot(table, Level::Priority(REQUIRED)),
    )
}

// Looks at the line from this side, and lists it.
fn look(table: &Table, safe: &mut Safe, line: u32, side: Side) -> Result<(), OutOfMemory>
    requires kept { IsKept (lists_of table.now) }
    requires within { line < length table.now.slots.items }
    requires safe { AreSafe (lists_of table.now) safe.old }
    ensures { OnOk result (AreSafe (lists_of table.now) safe.new) }
{
    push(&mut safe.seen, line, side)?;
    if !is_dear(table, line, side) {
        return Ok(());
    }
    push(&mut safe.dear, line, side)
}

/// Looks whether the line is safe to turn from this side, unless it was looked at. Where memory is wanting no
/// line is listed.
pub(crate) fn note(table: &Table, safe: &mut Safe, line: u32, side: Side)
    requires kept { IsKept (lists_of table.now) }
    requires within { line < length table.now.slots.items }
    requires safe { AreSafe (lists_of table.now) safe.old }
    ensures { AreSafe (lists_of table.now) safe.new }
{
    if has(&safe.seen, line, side) {
        return;
    }
    if look(table, safe, line, side).is_err() {
        clear_safe(safe);
    }
}

/// Whether the level is that of the required rows.
pub(crate) fn is_required(level: Level) -> bool
    ensures { (result ≡ true) ↔ (level ≡ PriorityOf MOST) }
{
    level == Level::Priority(REQUIRED)
}

// Whether the line is safe to turn from this side. One that was looked at isn't looked at again.
fn is_line_safe(table: &Table, safe: &Safe, line: u32, side: Side) -> bool
    requires kept { IsKept (lists_of table.now) }
    requires within { line < length table.now.slots.items }
    requires safe { AreSafe (lists_of table.now) safe.now }
    ensures { result ≡ true
        → IsRowDear (lists_of table.now) line side 0 (row_at (lists_of table.now) line) }
{
    if has(&safe.seen, line, side) {
        has(&safe.dear, line, side)
    } else {
        is_dear(table, line, side)
    }
}

/// Whether the inside mark grows with marks of other lines alone that cost at the required rows' level.
pub(crate) fn is_safe(table: &Table, safe: &Safe, mark: Mark) -> bool
    requires kept { IsKept (lists_of table.now) }
    requires inside { IsIn (corners.place mark) (marks_at (lists_of table.now)) }
    requires safe { AreSafe (lists_of table.now) safe.now }
    ensures { result ≡ true → AreGrowersDear (problem_of (lists_of table.now))
        (marks_at (lists_of table.now)) mark (PriorityOf MOST) }
{
    is_line_safe(table, safe, line_slot(table, mark.row), mark.side)
}
