// Whether the numbers of a level's cost fit.
ghost use Rattle.std.specs.Prelude.{◌≡◌, ◌↔◌, ◌<◌, ◌<ℤ◌, ◌*ℤ◌, ◌^◌, neg_ℤ, pos, true, false, length};
ghost use Rattle.std.specs.Prelude.{unsigned_abs, All};
ghost use Rattle.frac_core.specs.Fraction.{IsFitting};
ghost use Rattle.row_core.specs.Rows.{IsKeptRow, coefficient};
ghost use Rattle.problem_core.specs.Kept.{IsRow, IsWhole};
ghost use Rattle.problem_core.specs.Layout.{rank_level};
ghost use Rattle.corner_laws.specs.LevelLaws.{small_number};
ghost use Rattle.corner_table.specs.declared.table.TheConstants.{LEVELS};
ghost use Rattle.corner_writings.specs.Fitting as fitting;
ghost use Rattle.corner_writings.specs.Fitting.{AreFittingCosts, AreFittingLines, HasFittingRow};
ghost use Rattle.corner_writings.specs.Fitting.{HasNoFittingRow};
ghost use Rattle.corner_writings.specs.Fitting.{IsFittingLine};
ghost use Rattle.corner_table.specs.Kept.{AreSlots};
ghost use Rattle.corner_table.specs.Reads.LevelNumbers.{IsCounted};
ghost use Rattle.corner_table.specs.Tables as tables;
ghost use Rattle.corner_table.specs.Tables.{lists_of, problem_of};

use crate::levels::{Pair, side_after};
use corner_table::{Table, costs, line_slot, share, slot_at};
use frac_core::PART_BOUND;
use problem_core::{COEFFICIENT_LIMIT, REQUIRED, Rel, Row, RowName, Side};
use row_core::{Col, Entry, IntRow};

/// A level whose row is new: in what unit its cost is, and where its lines stand then.
#[derive(Clone, Copy, Debug, PartialEq, Eq)]
pub struct Draft {
    pub level: u32,
    pub unit: i64,
    pub pair: Pair,
    /// How many rows of the level have joined, the first ones.
    pub rows: u32,
}

/// A scale below it, and multipliers below half the bound, leave room for each reduced cost.
pub const SMALL_SCALE: i128 = COEFFICIENT_LIMIT as i128;

/// Whether the number fits.
pub fn is_fitting(x: i128) -> bool
    ensures { (result ≡ true) ↔ IsFitting x }
{
    x.unsigned_abs() < PART_BOUND
}

/// The scale of the level.
pub fn scale_of(draft: Draft, row: &IntRow) -> i128
    requires { IsFitting draft.unit }
    ensures value { result ≡ coefficient draft.level row.now *ℤ draft.unit }
    ensures kept { IsKeptRow row.now }
{
    let own = row.entry(Col(u64::from(draft.level)));
    i128::from(own) * i128::from(draft.unit)
}

/// Whether the numbers are below half the bound.
pub fn are_small(entries: &[Entry]) -> bool
    ensures { result ≡ true → All (λ t. unsigned_abs t.by < small_number) entries.now }
{
    entries
        .iter()
        .all(|e| e.by.unsigned_abs() < (PART_BOUND as u64) / 2)
}

// A line of the level, and how many times what it counts the level's own number is.
#[derive(Clone, Copy)]
struct Line {
    at: u32,
    rel: Rel,
    size: i128,
}

// What the line counts on this side.
fn part(line: Line, side: Side) -> i128
    ensures value { result ≡ fitting.counted line.rel side line.size }
    ensures small { unsigned_abs line.size < 2 ^ 100 → unsigned_abs result < 2 ^ 100 }
{
    if costs(line.rel, side) { line.size } else { 0 }
}

// Its number in the level's row.
fn number_of(line: Line, side: Option<Side>, row: &IntRow) -> i128
    requires { unsigned_abs line.size < 2 ^ 100 }
    ensures value { result ≡ fitting.number_by line.rel side (neg_ℤ (coefficient line.at row.now)) line.size }
    ensures small { unsigned_abs result < 2 ^ 101 }
{
    match side {
        None => -i128::from(row.entry(Col(u64::from(line.at)))),
        Some(Side::Under) => part(line, Side::Under),
        Some(Side::Over) => -part(line, Side::Over),
    }
}

// Whether both reduced costs of a line with this number fit.
fn do_costs_fit(line: Line, number: i128) -> bool
    requires size { unsigned_abs line.size < 2 ^ 100 }
    requires number { unsigned_abs number < 2 ^ 101 }
    ensures fit { result ≡ true → AreFittingCosts line.rel line.size number }
    ensures unfit { result ≡ false → AreFittingCosts line.rel line.size number → ⊥ }
{
    is_fitting(part(line, Side::Over) + number) && is_fitting(part(line, Side::Under) - number)
}

// The line of a slot.
fn line_at(table: &Table, draft: Draft, row: &IntRow, at: u32) -> Line
    requires within { at < length table.now.slots.items }
    requires counted { IsCounted (tables.slot_at (lists_of table.now) at) draft.unit }
    ensures slot { result.at ≡ at }
    ensures rel { result.rel ≡ (tables.slot_at (lists_of table.now) at).rel }
    ensures size { result.size ≡ fitting.line_size (lists_of table.now) draft row.now at }
    ensures small { unsigned_abs result.size < 2 ^ 100 }
{
    let slot = slot_at(table, at);
    let own = row.entry(Col(u64::from(draft.level)));
    Line {
        at,
        rel: slot.rel,
        size: i128::from(own) * i128::from(share(slot, draft.unit)),
    }
}

/// Whether both reduced costs of a line of the level fit.
pub fn does_line_fit(table: &Table, draft: Draft, row: &IntRow, at: u32) -> bool
    requires slots { AreSlots (lists_of table.now) }
    requires within { at < length table.now.slots.items }
    requires counted { IsCounted (tables.slot_at (lists_of table.now) at) draft.unit }
    ensures fit { result ≡ true → IsFittingLine (lists_of table.now) draft row.now at }
    ensures unfit { result ≡ false → IsFittingLine (lists_of table.now) draft row.now at → ⊥ }
{
    let line = line_at(table, draft, row, at);
    let number = number_of(line, side_after(table, draft.pair, at), row);
    do_costs_fit(line, number)
}

/// The level of a row, by its slot.
pub fn level_at(row: &Row) -> u32
    requires { IsRow row.now }
    ensures { result ≡ rank_level row.now.rank }
{
    u32::from(REQUIRED - row.rank())
}

// Whether the reduced costs of the level's rows that have joined fit.
fn do_lines_fit(table: &Table, draft: Draft, new: &IntRow) -> bool
    requires slots { AreSlots (lists_of table.now) }
    requires whole { IsWhole (problem_of (lists_of table.now)) }
    requires unit { pos 0 <ℤ draft.unit }
    requires unit_fits { IsFitting draft.unit }
    ensures fit { result ≡ true
        → AreFittingLines (lists_of table.now) draft new.now draft.rows table.now.rows.items }
    ensures unfit { result ≡ false
        → AreFittingLines (lists_of table.now) draft new.now draft.rows table.now.rows.items → ⊥ }
{
    let mut joined = 0;
    for row in table.rows.as_slice() {
        if level_at(row) == draft.level {
            if joined == draft.rows {
                return true;
            }
            joined += 1;
            let line = line_slot(table, RowName::Held(row.id()));
            if !does_line_fit(table, draft, new, line) {
                return false;
            }
        }
    }
    true
}

/// Whether the scale, the multipliers and the reduced costs of the level fit.
pub fn does_level_fit(table: &Table, draft: Draft, row: &IntRow) -> bool
    requires slots { AreSlots (lists_of table.now) }
    requires whole { IsWhole (problem_of (lists_of table.now)) }
    requires level { draft.level < LEVELS }
    requires unit { pos 0 <ℤ draft.unit }
    requires unit_fits { IsFitting draft.unit }
    ensures fits { result ≡ true → HasFittingRow (lists_of table.now) draft row.now }
    ensures unfit { result ≡ false → HasNoFittingRow (lists_of table.now) draft row.now }
{
    let scale = scale_of(draft, row);
    if !is_fitting(scale) {
        return false;
    }
    if scale < SMALL_SCALE && are_small(row.entries()) {
        return true;
    }
    do_lines_fit(table, draft, row)
}
