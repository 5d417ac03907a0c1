// The signs of columns after an exchange at which not everything has to fit.
ghost use Rattle.std.specs.Prelude.{◌≡◌, ◌↔◌, ◌<◌, ℕ, length, get_or, IfOk, IsTrue, [], false, true};
ghost use Rattle.std.specs.Prelude.{All};
ghost use Rattle.problem_core.specs.Corners.{IsIn, NoNegativeColumn, place_of};
ghost use Rattle.corner_lines.specs.LineEquations.{IsOutsideLine};
ghost use Rattle.path_lines.specs.Sides.{IsWithin};
ghost use Rattle.path_lines.specs.Tables.{name_at};
ghost use Rattle.path_levels.specs.Outlines.{IsPriced, IsSizedOutline};
ghost use Rattle.path_levels.specs.Corners.{HasOutline, IsSizedExchange};
ghost use Rattle.path_levels.specs.Levels.{AreSizedLevels};
ghost use Rattle.path_levels.specs.Costs.{HasNegative, IsNegativeFirst};
ghost use Rattle.path_levels.specs.Exchanges.Pivots.{IsSizedPivot};
ghost use Rattle.path_levels.specs.Exchanges.WideCosts.{AreWideAt, HasWideLine, IsSizedWide, IsWideNegative};
ghost use Rattle.path_levels.specs.Exchanges.WideCosts.{AreNextWide, wide_cost};
ghost use Rattle.path_levels.specs.declared.columns_after.WideLevel.{WideLevel as KeptWide};
ghost use Rattle.path_levels.specs.Kept.{AfterStep, WithLevels, WithLines, WithOutline};

use crate::carried::next_level_numbers;
use crate::columns::{Units, cost};
use crate::levels_after::LineExchange;
use crate::outline::{LineFacts, Outline};
use crate::pivots::pivot_of;
use crate::sums::{LevelRow, LevelSum};
use frac_core::{OutOfMemory, Stop};
use path_lines::{Inside, Pivot, Spot, Step, Wide};
use problem_core::Side;
use std::alloc::Global;

// A level's row before it is divided, and its unit.
#[derive(Drop)]
struct WideLevel {
    unit: i64,
    wide: Wide,
}

// The rows of all levels after an exchange, before they are divided.
fn wide_levels(
    alloc: Global,
    outline: &Outline,
    pivot: &Pivot,
    levels: &[LevelSum],
) -> Result<Vec<WideLevel>, OutOfMemory>
    requires outline { IsSizedOutline outline.now }
    requires pivot { IsSizedPivot (length outline.now.lines.items) pivot.now }
    requires levels { AreSizedLevels (length outline.now.lines.items) levels.now }
    requires count { length levels.now ≡ length outline.now.levels.items }
    ensures sized { IfOk result (λ next. All (IsSizedWide (length outline.now.lines.items)) next.items) }
    ensures next { IfOk result (λ next. AreNextWide outline.now pivot.now levels.now next.items) }
{
    let mut out = Vec::with_capacity(alloc, levels.len())?;
    for (place, sum) in levels.iter().enumerate() {
        let wide = next_level_numbers(alloc, outline, pivot, LevelRow { place, sum })?;
        let unit = sum.unit;
        out.push(WideLevel { unit, wide })?;
    }
    Ok(out)
}

// The reduced cost of a line's mark at the level at a place, times a number above 0, if it is outside.
fn wide_cost_at(facts: &LineFacts, spot: Spot, place: usize, level: &WideLevel) -> i128
    requires facts { IsPriced facts.now }
    requires level { HasWideLine spot.at level.now }
    ensures { result ≡ wide_cost spot.side facts.now spot.at place level.now }
{
    let units = Units {
        unit: level.unit,
        own: level.wide.own.unsigned_abs(),
    };
    cost(facts, spot.side, place, units, level.wide.by[spot.at])
}

// Whether the first of the mark's reduced costs that isn't 0 is below 0.
fn is_negative_first_after(facts: &LineFacts, next: &[WideLevel], spot: Spot) -> bool
    requires facts { IsPriced facts.now }
    requires next { (k : ℕ) (d : KeptWide) → k < length next.now → HasWideLine spot.at (get_or next.now k d) }
    ensures none { next.now ≡ [] → result ≡ false }
    ensures first { (d : KeptWide) → IsTrue result ↔ IsNegativeFirst (length next.now)
        (λ k. wide_cost spot.side facts.now spot.at k (get_or next.now k d)) }
{
    for (place, level) in next.iter().enumerate() {
        let cost = wide_cost_at(facts, spot, place, level);
        if cost != 0 {
            return cost < 0;
        }
    }
    false
}

// Whether one of the line's marks has such a cost.
fn has_negative_first_after(facts: &LineFacts, next: &[WideLevel], at: usize) -> bool
    requires facts { IsPriced facts.now }
    requires next { (k : ℕ) (d : KeptWide) → k < length next.now → HasWideLine at (get_or next.now k d) }
    ensures none { next.now ≡ [] → result ≡ false }
    ensures first { (d : KeptWide) → IsTrue result ↔ IsWideNegative facts.now at next.now d }
{
    let (under, over) = (Side::Under, Side::Over);
    is_negative_first_after(facts, next, Spot { at, side: under })
        || is_negative_first_after(facts, next, Spot { at, side: over })
}

// Whether the line is outside after the exchange.
fn is_outside_after(lines: &[Option<Inside>], step: Step, at: usize) -> bool
    requires at { at < length lines.now }
    requires step { IsWithin (length lines.now) step }
    ensures outside { result ≡ true → WithLines lines.now
        (AfterStep step (λ p marks. IsOutsideLine marks (name_at p at))) }
    ensures inside { result ≡ false → WithLines lines.now
        (AfterStep step (λ p marks. (side : Side) × IsIn (place_of (name_at p at) side) marks)) }
{
    if at == step.enter.at {
        return false;
    }
    if at == step.leave.at {
        return true;
    }
    match &lines[at] {
        Some(_) => false,
        None => true,
    }
}

// Whether the column of a mark of the line is negative after the exchange, at which these are the levels'
// rows.
fn has_negative_after(exchange: LineExchange<'_>, next: &[WideLevel], at: usize) -> bool
    requires corner { HasOutline exchange.corner }
    requires step { IsWithin (length exchange.corner.lines.now) exchange.step }
    requires next { All (IsSizedWide (length exchange.corner.lines.now)) next.now }
    requires at { at < length exchange.corner.lines.now }
    ensures { WithOutline exchange.entry.corner (AfterStep exchange.entry.step
        (λ p marks. AreWideAt p marks exchange.entry.corner.outline.now next.now
        → IsTrue result ↔ HasNegative p marks at)) }
{
    if is_outside_after(exchange.corner.lines, exchange.step, at) {
        has_negative_first_after(&exchange.corner.outline.lines[at], next, at)
    } else {
        false
    }
}

// Whether no column is negative after the exchange, at which these are the levels' rows.
fn has_no_negative_after(exchange: LineExchange<'_>, next: &[WideLevel]) -> bool
    requires corner { HasOutline exchange.corner }
    requires step { IsWithin (length exchange.corner.lines.now) exchange.step }
    requires next { All (IsSizedWide (length exchange.corner.lines.now)) next.now }
    ensures { WithOutline exchange.entry.corner (AfterStep exchange.entry.step
        (λ p at. AreWideAt p at exchange.entry.corner.outline.now next.now
        → IsTrue result ↔ NoNegativeColumn p at)) }
{
    for at in 0..exchange.corner.lines.len() {
        if has_negative_after(exchange, next, at) {
            return false;
        }
    }
    true
}

/// Whether no column is negative after an exchange, even if not everything fits there.
pub fn has_no_negative_column_after(
    alloc: Global,
    exchange: LineExchange<'_>,
    levels: &[LevelSum],
) -> Result<bool, OutOfMemory>
    requires exchange { IsSizedExchange exchange }
    requires levels { AreSizedLevels (length exchange.corner.lines.now) levels.now }
    requires level_count { length levels.now ≡ length exchange.corner.outline.now.levels.items }
    ensures { IfOk result (λ holds. WithLevels exchange.entry.corner levels.now
        (AfterStep exchange.entry.step (λ p at. IsTrue holds ↔ NoNegativeColumn p at))) }
{
    let pivot = match pivot_of(alloc, exchange.corner.lines, exchange.step) {
        Ok(pivot) => pivot,
        // the step is no exchange, and the clause asks nothing
        Err(Stop::Refused(_)) => return Ok(true),
        Err(Stop::OutOfMemory) => return Err(OutOfMemory),
    };
    let next = wide_levels(alloc, exchange.corner.outline, &pivot, levels)?;
    Ok(has_no_negative_after(exchange, &next))
}
