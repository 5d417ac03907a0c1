// What is read of the writings of attributes and inside marks.
ghost use Rattle.std.specs.Prelude.{◌≡◌, ◌↔◌, ◌*ℤ◌, ◌+◌, ◌^◌, ◌<◌, ◌≤◌, ℕ, List, neg_ℤ, length};
ghost use Rattle.std.specs.Prelude.{slice_get};
ghost use Rattle.row_core.specs.Rows.{IsRising};
ghost use Rattle.version_lists.specs.Lists.{HasColumn};
ghost use Rattle.version_lists.specs.Matrices.{IsBelow};
ghost use Rattle.std.specs.Prelude.{slice_index_or, true, All, AllPairs, Some};
ghost use Rattle.corner_table.specs.declared.table.TheConstants.{LEVELS};
ghost use Rattle.problem_core.specs.declared.stops.What as what_type;
ghost use Rattle.problem_core.specs.declared.parts.RowName as row_type;
ghost use Rattle.frac_core.specs.Fraction.{IsFitting};
ghost use Rattle.problem_core.specs.Layout.{HasStay};
ghost use Rattle.problem_core.specs.Corners as corners;
ghost use Rattle.problem_core.specs.Corners.{attr_column, IsIn};
ghost use Rattle.corner_lines.specs.LineEquations.{sign_of};
ghost use Rattle.corner_table.specs.Tables as tables;
ghost use Rattle.corner_table.specs.Tables.{AreMoved, IsOfLine, IsSign, entry, lists_of, marks_at};
ghost use Rattle.corner_writings.specs.Entries.{columns_but};
ghost use Rattle.corner_table.specs.Tables.{problem_of};
ghost use Rattle.corner_table.specs.Tables.{sign_of_what};
ghost use Rattle.corner_table.specs.Kept.{AreSlots, IsKept};
ghost use Rattle.corner_table.specs.Invariants.{seen_of};
ghost use Rattle.corner_view.specs.Seen.{AreMovers, HasValueAt, IsCoefficientOf, IsMarkOf, IsNamed};
ghost use Rattle.corner_view.specs.Seen.{IsOutside, IsScaleOf, IsWritten};
ghost use Rattle.corner_view.specs.Entries.{AreEntries};

use corner_table::{
    LEVELS, Table, attr_slot, line_slot, name_at, other, own_of, side_at, side_in, sign, value_at,
    what_at, what_slot,
};
use frac_core::Frac;
use problem_core::{Mark, RowName, Side, What};
use row_core::Entry;

// Whether this is the side.
fn is_side(side: Option<Side>, at: Side) -> bool
    ensures { result ≡ tables.is_side side at }
{
    match (side, at) {
        (Some(Side::Under), Side::Under) | (Some(Side::Over), Side::Over) => true,
        _ => false,
    }
}

// Whether the lists have the mark inside.
fn stands_in(table: &Table, mark: Mark) -> bool
    requires slots { AreSlots (lists_of table.now) }
    requires row { IsNamed (problem_of (lists_of table.now)) mark.row }
    ensures { result ≡ tables.stands_in (lists_of table.now) mark }
{
    is_side(side_at(table, line_slot(table, mark.row)), mark.side)
}

/// Whether the mark is inside.
pub fn is_inside(table: &Table, mark: Mark) -> bool
    requires kept { IsKept (lists_of table.now) }
    requires mark { IsMarkOf (problem_of (lists_of table.now)) mark }
    ensures { (result ≡ true) ↔ IsIn (corners.place mark) (marks_at (lists_of table.now)) }
{
    stands_in(table, mark)
}

/// The value of a mark, which is 0 outside.
pub fn mark_value(table: &Table, mark: Mark) -> Frac
    requires kept { IsKept (lists_of table.now) }
    requires mark { IsMarkOf (problem_of (lists_of table.now)) mark }
    ensures { HasValueAt (problem_of (lists_of table.now)) (marks_at (lists_of table.now))
        (corners.place mark) result }
{
    if stands_in(table, mark) {
        value_at(table, line_slot(table, mark.row))
    } else {
        Frac::zero()
    }
}

/// The value of an attribute.
pub fn attr_value(table: &Table, attr: u32) -> Frac
    requires kept { IsKept (lists_of table.now) }
    requires attr { HasStay table.now.stays.items attr }
    ensures { HasValueAt (problem_of (lists_of table.now)) (marks_at (lists_of table.now))
        (attr_column attr) result }
{
    value_at(table, attr_slot(table, attr))
}

// How many of the slots are those of levels.
fn level_count(column: &[u32]) -> usize
    requires rising { AllPairs (λ v w. v < w) column.now }
    ensures within { result ≤ length column.now }
    ensures before { (k : ℕ) → k < result → slice_index_or column.now k 0 < LEVELS }
    ensures behind { (k : ℕ) → result ≤ k → k < length column.now → LEVELS ≤ slice_index_or column.now k 0 }
{
    column.partition_point(|w| *w < LEVELS)
}

/// The slots of attributes and lines in whose rows a line stands.
pub(crate) fn moved(table: &Table, line: u32) -> &[u32]
    requires { line < length table.now.matrix.rows }
    ensures moved { AreMoved (lists_of table.now) line result.now }
    ensures slots { All (λ w. w < length table.now.matrix.rows) result.now }
{
    let column = table.matrix.column(line);
    &column[level_count(column)..]
}

/// One of the slots.
pub(crate) fn nth(slots: &[u32], i: usize) -> u32
    requires { i < length slots.now }
    ensures { result ≡ slice_index_or slots.now i 0 }
{
    slots[i]
}

/// How many attributes and inside marks move with an outside mark.
pub fn movers(table: &Table, mark: Mark) -> usize
    requires kept { IsKept (lists_of table.now) }
    requires outside { IsOutside (problem_of (lists_of table.now)) (marks_at (lists_of table.now)) mark }
    ensures { (whats : List what_type.What) × AreMovers (seen_of (lists_of table.now)) mark whats
        × (length whats ≡ result) }
{
    let line = line_slot(table, mark.row);
    if side_at(table, line).is_some() {
        return 1;
    }
    moved(table, line).len()
}

/// One of the attributes and inside marks that move with an outside mark.
pub fn mover(table: &Table, mark: Mark, i: usize) -> What
    requires kept { IsKept (lists_of table.now) }
    requires outside { IsOutside (problem_of (lists_of table.now)) (marks_at (lists_of table.now)) mark }
    requires within { (whats : List what_type.What) × AreMovers (seen_of (lists_of table.now)) mark whats
        × (i < length whats) }
    ensures { (whats : List what_type.What) → AreMovers (seen_of (lists_of table.now)) mark whats
        → slice_get whats i ≡ Some result }
{
    let line = line_slot(table, mark.row);
    if side_at(table, line).is_some() {
        return What::Mark(Mark {
            row: mark.row,
            side: other(mark.side),
        });
    }
    let w = nth(moved(table, line), i);
    what_at(table, w, side_in(table, w))
}

// The column of one of the entries but that of w.
fn column_but(entries: &[Entry], w: u32, i: usize) -> u32
    requires within { i + 1 < length entries.now }
    requires rising { IsRising entries.now }
    requires has { HasColumn w entries.now }
    requires below { IsBelow (2 ^ 32) entries.now }
    ensures { result ≡ slice_index_or (columns_but w entries.now) i 0 }
{
    let (at, next) = (entries[i], entries[i + 1]);
    if at.col.0 < u64::from(w) {
        at.col.0 as u32
    } else {
        next.col.0 as u32
    }
}

/// How many outside lines have a number in the row of an inside mark's line.
pub fn entries_in(table: &Table, mark: Mark) -> usize
    requires kept { IsKept (lists_of table.now) }
    requires inside { IsIn (corners.place mark) (marks_at (lists_of table.now)) }
    ensures { (names : List row_type.RowName) × AreEntries (seen_of (lists_of table.now)) mark names
        × (length names ≡ result) }
{
    table.matrix.row(line_slot(table, mark.row)).entries().len() - 1
}

/// One of the outside lines that have a number in the row of an inside mark's line.
pub fn entry_in(table: &Table, mark: Mark, i: usize) -> RowName
    requires kept { IsKept (lists_of table.now) }
    requires inside { IsIn (corners.place mark) (marks_at (lists_of table.now)) }
    requires within { (names : List row_type.RowName) × AreEntries (seen_of (lists_of table.now)) mark names
        × (i < length names) }
    ensures { (names : List row_type.RowName) → AreEntries (seen_of (lists_of table.now)) mark names
        → slice_get names i ≡ Some result }
{
    let w = line_slot(table, mark.row);
    name_at(table, column_but(table.matrix.row(w).entries(), w, i))
}

/// The sign of a mark, 1 of an attribute.
pub fn what_sign(what: What) -> i64
    ensures value { result ≡ sign_of_what what }
    ensures sign { IsSign result }
{
    match what {
        What::Mark(mark) => sign(mark.side),
        _ => 1,
    }
}

// Whether it is a mark of this line.
fn is_of_line(what: What, row: RowName) -> bool
    ensures { (result ≡ true) ↔ IsOfLine what row }
{
    match what {
        What::Mark(mark) => mark.row == row,
        _ => false,
    }
}

// The number, with the other sign where the two signs are the same.
fn turned(by: i64, a: i64, b: i64) -> i64
    requires by { IsFitting by }
    requires a { IsSign a }
    requires b { IsSign b }
    ensures { result ≡ neg_ℤ (by *ℤ (a *ℤ b)) }
{
    if a == b { -by } else { by }
}

// What a mark's line counts in the row of a slot of this sign.
fn signed_entry(table: &Table, w: u32, mark: Mark, way: i64) -> i64
    requires slots { AreSlots (lists_of table.now) }
    requires within { w < length table.now.slots.items }
    requires row { IsNamed (problem_of (lists_of table.now)) mark.row }
    requires way { IsSign way }
    ensures { result ≡ neg_ℤ (entry (lists_of table.now) w (tables.line_slot (lists_of table.now) mark.row) *ℤ
        (sign_of mark.side *ℤ way)) }
{
    let by = table.matrix.entry(w, line_slot(table, mark.row));
    turned(by, sign(mark.side), way)
}

/// The coefficient of an outside mark in the writing of an attribute or an inside mark.
pub fn coefficient(table: &Table, what: What, mark: Mark) -> i64
    requires kept { IsKept (lists_of table.now) }
    requires what { IsWritten (problem_of (lists_of table.now)) (marks_at (lists_of table.now)) what }
    requires outside { IsOutside (problem_of (lists_of table.now)) (marks_at (lists_of table.now)) mark }
    ensures { IsCoefficientOf (problem_of (lists_of table.now))
        (marks_at (lists_of table.now)) what mark result }
{
    let w = what_slot(table, what);
    if is_of_line(what, mark.row) {
        return own_of(table, w);
    }
    signed_entry(table, w, mark, what_sign(what))
}

/// The scale of the writing of an attribute or an inside mark.
pub fn denominator(table: &Table, what: What) -> i64
    requires kept { IsKept (lists_of table.now) }
    requires what { IsWritten (problem_of (lists_of table.now)) (marks_at (lists_of table.now)) what }
    ensures { IsScaleOf (problem_of (lists_of table.now)) (marks_at (lists_of table.now)) what result }
{
    own_of(table, what_slot(table, what))
}
