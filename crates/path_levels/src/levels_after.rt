// The rows of levels after an exchange.
ghost use Rattle.std.specs.Prelude.{◌≡◌, ◌<◌, ◌^◌, ◌*ℤ◌, ◌↔◌};
ghost use Rattle.std.specs.Prelude.{length, false, IfOk, IfErr, IfSome, IfNone, IsTrue};
ghost use Rattle.std.specs.Prelude.{◌<ℤ◌, pos, unsigned_abs};
ghost use Rattle.frac_core.specs.Stops.{IsRefused};
ghost use Rattle.frac_core.specs.Fraction.{IsFitting};
ghost use Rattle.path_lines.specs.Numbers.{IsFactor};
ghost use Rattle.path_levels.specs.Corners.{HasOutline, IsSizedExchange};
ghost use Rattle.path_levels.specs.Outlines.{IsPriced};
ghost use Rattle.path_levels.specs.Levels.{AreLevels, AreSizedLevels, HasUnfitLevel};
ghost use Rattle.path_levels.specs.Levels.{HasNoSumAt, IsSizedLevel, IsSumAt};
ghost use Rattle.path_levels.specs.Shares.{IsScaled, entering_of, shown_of};
ghost use Rattle.path_levels.specs.Exchanges.Pivots.{IsPivotFor, IsSizedPivot};
ghost use Rattle.path_levels.specs.Exchanges.FitsAfter.{IsCostStop, IsFitLevel, IsFitLine, IsMadeLevel};
ghost use Rattle.path_levels.specs.Exchanges.FitsAfter.{IsMovedCost};
ghost use Rattle.path_levels.specs.Exchanges.FitsAfter.{side_of_after};
ghost use Rattle.path_levels.specs.Kept.{AfterStep, WithLevels, WithRow};

use crate::carried::{entering_number, next_level_numbers, product};
use crate::moved::moved_value;
use crate::outline::LineFacts;
use crate::pivots::pivot_of;
use crate::shares::{has_fitting_cost, stood_number};
use crate::sums::{LevelRow, LevelSum};
use crate::tableau::CornerLines;
use frac_core::{Frac, PART_BOUND, Stop, Unfit};
use path_lines::{Inside, Lowest, Pivot, Ratio, Step, SumStop, in_lowest_terms, number_of};
use problem_core::Side;
use std::alloc::Global;

/// An exchange at a corner, by the places of its lines.
#[derive(Clone, Copy)]
pub struct LineExchange<'a> {
    pub corner: CornerLines<'a>,
    pub step: Step,
}

// Which mark of the line at a place is inside after the exchange.
fn side_after(lines: &[Option<Inside>], pivot: &Pivot, at: usize) -> Option<Side>
    requires { at < length lines.now }
    ensures { result ≡ side_of_after lines.now pivot.now at }
{
    if at == pivot.step.enter.at {
        return Some(pivot.step.enter.side);
    }
    if at == pivot.step.leave.at {
        return None;
    }
    let inside = lines[at].as_ref()?;
    Some(inside.side)
}

// The line's number in the level's row: the number kept, or its count if a mark of this side is inside.
fn shown_number(line: &LineFacts, inside: Option<Side>, row: LevelRow<'_>, number: i64) -> i64
    requires line { IsPriced line.now }
    requires sum { IsScaled row.sum.now }
    requires number { IsFitting number }
    ensures value { result ≡ shown_of line.now inside row.entry.place row.entry.sum.now number }
    ensures small { unsigned_abs result < 2 ^ 52 }
{
    match inside {
        Some(side) => stood_number(line, side, row),
        None => number,
    }
}

// Whether both reduced costs of the line fit, if it is of the level.
fn line_fits(line: &LineFacts, inside: Option<Side>, row: LevelRow<'_>, number: i64) -> bool
    requires line { IsPriced line.now }
    requires sum { IsScaled row.sum.now }
    requires number { IsFitting number }
    ensures { IsTrue result ↔ IsFitLine line.now inside row.entry.place row.entry.sum.now number }
{
    if line.level != row.place {
        return true;
    }
    let shown = shown_number(line, inside, row, number);
    has_fitting_cost(line, Side::Under, row, shown)
        && has_fitting_cost(line, Side::Over, row, shown)
}

// Whether the scale fits.
fn scale_fits(sum: &LevelSum) -> bool
    requires own { IsFitting sum.now.own }
    requires unit { IsFitting sum.now.unit }
    ensures { IsTrue result ↔ IsFitting (sum.now.own *ℤ sum.now.unit) }
{
    product(sum.own, sum.unit).unsigned_abs() < PART_BOUND
}

// Whether the row fits after the exchange.
fn level_fits(corner: CornerLines<'_>, pivot: &Pivot, row: LevelRow<'_>) -> bool
    requires corner { HasOutline corner }
    requires sum { IsMadeLevel (length corner.lines.now) row.sum.now }
    ensures { IsTrue result
        ↔ IsFitLevel corner.entry.outline.now corner.entry.lines.now pivot.now row.entry.place
        row.entry.sum.now }
{
    if !scale_fits(row.sum) {
        return false;
    }
    for (at, line) in corner.outline.lines.iter().enumerate() {
        let inside = side_after(corner.lines, pivot, at);
        if !line_fits(line, inside, row, row.sum.by[at]) {
            return false;
        }
    }
    true
}

// The number, if it fits.
fn fitting(number: i64) -> Option<i64>
    ensures some { IfSome result (λ n. (n ≡ number) × IsFitting n) }
    ensures none { IfNone result (IsFitting number → ⊥) }
{
    if u128::from(number.unsigned_abs()) >= PART_BOUND {
        return None;
    }
    Some(number)
}

// By which multiple of the pivot's value the level's cost moves, if the entering line has this number.
fn ratio_of(n: i64, pivot: &Pivot, sum: &LevelSum) -> Ratio
    requires n { IsFitting n }
    requires pivot { IsSizedPivot (length sum.now.by.items) pivot.now }
    requires sum { IsSizedLevel (length sum.now.by.items) sum.now }
    ensures times { result.times ≡ n *ℤ pivot.now.times }
    ensures over { result.over ≡ (sum.now.own *ℤ sum.now.unit) *ℤ pivot.now.size }
    ensures times_fit { IsFactor result.times }
    ensures over_fit { IsFactor result.over }
    ensures above { pos 0 <ℤ result.over }
{
    Ratio {
        times: product(n, pivot.times),
        over: product(sum.own * sum.unit, pivot.size),
    }
}

// The level's cost after the exchange. These are the facts of the entering line.
fn cost_after(line: &LineFacts, pivot: &Pivot, row: LevelRow<'_>) -> Result<Frac, SumStop>
    requires line { IsPriced line.now }
    requires pivot { IsSizedPivot (length row.sum.now.by.items) pivot.now }
    requires sum { IsSizedLevel (length row.sum.now.by.items) row.sum.now }
    ensures cost { IfOk result (IsMovedCost
        (entering_of line.now pivot.now row.entry.place row.entry.sum.now) pivot.now row.entry.sum.now) }
    ensures stop { IfErr result (IsCostStop
        (entering_of line.now pivot.now row.entry.place row.entry.sum.now) pivot.now row.entry.sum.now) }
{
    let Some(n) = fitting(entering_number(line, pivot, row)) else {
        return Err(Stop::Refused(Unfit));
    };
    Ok(moved_value(row.sum.cost, ratio_of(n, pivot, row.sum), pivot.value)?)
}

// A row in lowest terms with its cost.
fn level_with(unit: i64, numbers: Lowest, cost: Frac) -> LevelSum
    ensures unit { result.unit ≡ unit }
    ensures own { result.own ≡ numbers.own }
    ensures by { result.by.items ≡ numbers.by.items }
    ensures cost { result.cost ≡ cost }
{
    LevelSum {
        unit,
        own: numbers.own,
        by: numbers.by,
        cost,
    }
}

// The row of the level at a place after an exchange with this pivot, unless its cost does not fit there.
fn level_by(
    alloc: Global,
    exchange: LineExchange<'_>,
    pivot: &Pivot,
    row: LevelRow<'_>,
) -> Result<LevelSum, SumStop>
    requires exchange { IsSizedExchange exchange }
    requires pivot { IsPivotFor exchange pivot.now }
    requires place { row.place < length exchange.corner.outline.now.levels.items }
    requires sum { IsSizedLevel (length exchange.corner.lines.now) row.sum.now }
    ensures sized { IfOk result (IsSizedLevel (length exchange.entry.corner.lines.now)) }
    ensures next { IfOk result (λ next. WithRow exchange.entry.corner row.entry
        (AfterStep exchange.entry.step
        (λ p at. IsSumAt p at exchange.entry.corner.outline.now row.entry.place next))) }
    ensures unfit { IfErr result (λ stop. IsRefused stop
        → WithRow exchange.entry.corner row.entry
        (AfterStep exchange.entry.step (HasNoSumAt exchange.entry.corner.outline.now row.entry.place))) }
{
    let wide = next_level_numbers(alloc, exchange.corner.outline, pivot, row)?;
    let numbers = in_lowest_terms(alloc, &wide)?;
    let cost = cost_after(
        &exchange.corner.outline.lines[exchange.step.enter.at],
        pivot,
        row,
    )?;
    let next = level_with(row.sum.unit, numbers, cost);
    let next_row = LevelRow {
        place: row.place,
        sum: &next,
    };
    if !level_fits(exchange.corner, pivot, next_row) {
        return Err(Stop::Refused(Unfit));
    }
    Ok(next)
}

/// The row of the level at a place after an exchange, unless its cost does not fit there.
pub fn next_level(
    alloc: Global,
    exchange: LineExchange<'_>,
    row: LevelRow<'_>,
) -> Result<LevelSum, SumStop>
    requires exchange { IsSizedExchange exchange }
    requires place { row.place < length exchange.corner.outline.now.levels.items }
    requires sum { IsSizedLevel (length exchange.corner.lines.now) row.sum.now }
    ensures sized { IfOk result (IsSizedLevel (length exchange.entry.corner.lines.now)) }
    ensures next { IfOk result (λ next. WithRow exchange.entry.corner row.entry
        (AfterStep exchange.entry.step
        (λ p at. IsSumAt p at exchange.entry.corner.outline.now row.entry.place next))) }
    ensures unfit { IfErr result (λ stop. IsRefused stop
        → WithRow exchange.entry.corner row.entry
        (AfterStep exchange.entry.step (HasNoSumAt exchange.entry.corner.outline.now row.entry.place))) }
{
    let pivot = pivot_of(alloc, exchange.corner.lines, exchange.step)?;
    level_by(alloc, exchange, &pivot, row)
}

// Whether an exchange with this pivot may change the row of the level at a place.
fn is_touched(exchange: LineExchange<'_>, pivot: &Pivot, row: LevelRow<'_>) -> bool
    requires exchange { IsSizedExchange exchange }
    requires pivot { IsPivotFor exchange pivot.now }
    requires place { row.place < length exchange.corner.outline.now.levels.items }
    requires sum { IsSizedLevel (length exchange.corner.lines.now) row.sum.now }
    ensures { result ≡ false → WithRow exchange.entry.corner row.entry (AfterStep exchange.entry.step
        (λ p at. IsSumAt p at exchange.entry.corner.outline.now row.entry.place row.entry.sum.now)) }
{
    let step = pivot.step;
    let lines = &exchange.corner.outline.lines;
    if lines[step.enter.at].level == row.place {
        return true;
    }
    if lines[step.leave.at].level == row.place {
        return true;
    }
    number_of(&row.sum.by, step.enter.at) != 0
}

// The rows of all levels after an exchange with this pivot. Rows that it doesn't touch stay as they are.
fn levels_by(
    alloc: Global,
    exchange: LineExchange<'_>,
    pivot: &Pivot,
    levels: Vec<LevelSum>,
) -> Result<Vec<LevelSum>, SumStop>
    requires exchange { IsSizedExchange exchange }
    requires pivot { IsPivotFor exchange pivot.now }
    requires levels { AreSizedLevels (length exchange.corner.lines.now) levels.items }
    requires level_count { length levels.items ≡ length exchange.corner.outline.now.levels.items }
    ensures sized { IfOk result (λ next. AreSizedLevels (length exchange.entry.corner.lines.now) next.items) }
    ensures level_count { IfOk result
        (λ next. length next.items ≡ length exchange.entry.corner.outline.now.levels.items) }
    ensures next { IfOk result (λ next. WithLevels exchange.entry.corner levels.items
        (AfterStep exchange.entry.step
        (λ p at. AreLevels p at exchange.entry.corner.outline.now next.items))) }
    ensures unfit { IfErr result (λ stop. IsRefused stop
        → WithLevels exchange.entry.corner levels.items
        (AfterStep exchange.entry.step HasUnfitLevel)) }
{
    let mut out = levels;
    for place in 0..out.len() {
        let row = LevelRow {
            place,
            sum: &out[place],
        };
        if is_touched(exchange, pivot, row) {
            out[place] = level_by(alloc, exchange, pivot, row)?;
        }
    }
    Ok(out)
}

/// The rows of all levels after an exchange, unless the cost of one of them does not fit there.
pub fn next_levels(
    alloc: Global,
    exchange: LineExchange<'_>,
    levels: Vec<LevelSum>,
) -> Result<Vec<LevelSum>, SumStop>
    requires exchange { IsSizedExchange exchange }
    requires levels { AreSizedLevels (length exchange.corner.lines.now) levels.items }
    requires level_count { length levels.items ≡ length exchange.corner.outline.now.levels.items }
    ensures sized { IfOk result (λ next. AreSizedLevels (length exchange.entry.corner.lines.now) next.items) }
    ensures level_count { IfOk result
        (λ next. length next.items ≡ length exchange.entry.corner.outline.now.levels.items) }
    ensures next { IfOk result (λ next. WithLevels exchange.entry.corner levels.items
        (AfterStep exchange.entry.step
        (λ p at. AreLevels p at exchange.entry.corner.outline.now next.items))) }
    ensures unfit { IfErr result (λ stop. IsRefused stop
        → WithLevels exchange.entry.corner levels.items
        (AfterStep exchange.entry.step HasUnfitLevel)) }
{
    let pivot = pivot_of(alloc, exchange.corner.lines, exchange.step)?;
    levels_by(alloc, exchange, &pivot, levels)
}
