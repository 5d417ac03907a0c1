// A line that joins the row of its level.
ghost use Rattle.std.specs.Prelude.{◌≡◌, ◌*◌, ◌/◌, ◌<◌, ◌≤◌, ◌^◌, pos, ◌*ℤ◌, ◌<ℤ◌, ◌≤ℤ◌};
ghost use Rattle.std.specs.Prelude.{◌+ℤ◌, ◌-ℤ◌, ◌↔◌, IsTrue, unsigned_abs, length, IfOk, IfErr};
ghost use Rattle.frac_core.specs.Stops.{IsRefused};
ghost use Rattle.frac_core.specs.Fraction.{IsFitting};
ghost use Rattle.path_lines.specs.Numbers.{IsCombined, IsFactor};
ghost use Rattle.path_lines.specs.Tables.{IsSized, IsSizedLine};
ghost use Rattle.path_levels.specs.Outlines.{IsPriced};
ghost use Rattle.path_levels.specs.Levels.{IsSizedLevel};
ghost use Rattle.path_levels.specs.Joins.{HasNoDraft, IsDraft, IsJoinedCost, IsJoinedList, IsRise};
ghost use Rattle.path_levels.specs.Joins.{AreFittingCosts, AreFittingTo, IsFittingAt, IsFittingTo};
ghost use Rattle.path_levels.specs.Joins.{IsMadeDraft};
ghost use Rattle.path_levels.specs.Joins.{IsUnfitJoinedCost, IsWeightOf};
ghost use Rattle.path_levels.specs.Joins.{IsJoinedWide, cost_number, counted_number};
ghost use Rattle.path_levels.specs.Corners.{HasOutline};
ghost use Rattle.problem_core.specs.declared.limits.TheConstants.{COEFFICIENT_LIMIT, WEIGHT_LIMIT};
ghost use Rattle.problem_core.specs.declared.parts.Side.TheVariants.{Under, Over};

use crate::carried;
use crate::outline::LineFacts;
use crate::sums::LevelSum;
use crate::tableau::CornerLines;
use frac_core::{Frac, OutOfMemory, PART_BOUND, common_divisor};
use path_lines::{Inside, Lowest, SumStop, Wide, combined, in_lowest_terms};
use problem_core::Side;
use std::alloc::Global;

/// A level's row with one more line, in lowest terms. Its unit may not fit.
#[derive(Drop)]
pub(crate) struct Draft {
    pub unit: i128,
    pub own: i64,
    pub by: Vec<i64>,
    pub cost: Frac,
}

// The number over one of its divisors, both above 0.
fn over(a: i64, divisor: i64) -> i64
    requires a { pos 0 <ℤ a }
    requires divisor { pos 0 <ℤ divisor }
    ensures value { result ≡ pos (unsigned_abs a / unsigned_abs divisor) }
{
    a / divisor
}

// The line's weight.
fn weight(line: LineFacts) -> i64
    ensures { IsWeightOf line result }
{
    if line.under == 0 {
        line.over
    } else {
        line.under
    }
}

// By how many times the unit grows when the line joins.
fn times(unit: i64, line: LineFacts) -> i64
    requires unit { pos 0 <ℤ unit }
    requires scale { pos 0 <ℤ line.scale }
    requires small { line.scale ≤ℤ pos COEFFICIENT_LIMIT }
    ensures rise { IsRise line (unsigned_abs unit) (unsigned_abs result) }
    ensures above { pos 0 <ℤ result }
{
    let part = over(line.scale, common_divisor(line.scale, weight(line)));
    over(part, common_divisor(part, unit))
}

// The count of a deviation with this cost, in this unit.
fn share(unit: i128, cost: i64, scale: i64) -> i128
    requires unit { pos 0 <ℤ unit }
    requires small { unsigned_abs unit < 2 ^ 72 }
    requires cost { (pos 0 ≤ℤ cost) × (cost ≤ℤ pos WEIGHT_LIMIT) }
    requires scale { pos 0 <ℤ scale }
    ensures { result ≡ pos (unsigned_abs unit * unsigned_abs cost / unsigned_abs scale) }
{
    unit * i128::from(cost) / i128::from(scale)
}

// A product that has 128 bits.
fn product(a: i128, b: i128) -> i128
    requires { unsigned_abs (a *ℤ b) < 2 ^ 126 }
    ensures { result ≡ a *ℤ b }
{
    a * b
}

// The count times the row's own number.
fn count(unit: i128, own: i64, cost: i64, scale: i64) -> i128
    requires unit { pos 0 <ℤ unit }
    requires own { pos 0 <ℤ own }
    requires small { unsigned_abs (own *ℤ unit) < 2 ^ 72 }
    requires cost { (pos 0 ≤ℤ cost) × (cost ≤ℤ pos WEIGHT_LIMIT) }
    requires scale { pos 0 <ℤ scale }
    ensures value { result
        ≡ pos (unsigned_abs own * (unsigned_abs unit * unsigned_abs cost / unsigned_abs scale)) }
    ensures factor { unsigned_abs result < 2 ^ 83 }
{
    product(i128::from(own), share(unit, cost, scale))
}

// The count of the line's deviation in the level's row if this mark is inside, with the other sign.
fn counted(side: Side, line: LineFacts, unit: i128, own: i64) -> i128
    requires facts { IsPriced line }
    requires unit { pos 0 <ℤ unit }
    requires own { pos 0 <ℤ own }
    requires scale { unsigned_abs (own *ℤ unit) < 2 ^ 72 }
    ensures value { result ≡ counted_number side line (unsigned_abs unit) (unsigned_abs own) }
    ensures factor { IsFactor result }
{
    match side {
        Side::Under => -count(unit, own, line.under, line.scale),
        Side::Over => count(unit, own, line.over, line.scale),
    }
}

// The numbers of a level in the new unit.
fn grown(alloc: Global, old: &LevelSum, times: i64) -> Result<Wide, OutOfMemory>
    requires old { IsSizedLevel (length old.now.by.items) old.now }
    requires above { pos 0 <ℤ times }
    requires times { unsigned_abs times ≤ COEFFICIENT_LIMIT }
    ensures own { IfOk result (λ w. w.own ≡ old.now.own) }
    ensures by { IfOk result (λ w. IsCombined times old.now.by.items (pos 0) old.now.by.items w.by.items) }
{
    Ok(Wide {
        own: i128::from(old.own),
        by: combined(alloc, i128::from(times), &old.by, 0, &old.by)?,
    })
}

// The numbers of a level in the new unit, with an inside line's sum times its count.
fn with_sum(
    alloc: Global,
    old: &LevelSum,
    times: i64,
    line: LineFacts,
    inside: &Inside,
) -> Result<Wide, OutOfMemory>
    requires old { IsSizedLevel (length old.now.by.items) old.now }
    requires above { pos 0 <ℤ times }
    requires times { unsigned_abs times ≤ COEFFICIENT_LIMIT }
    requires facts { IsPriced line }
    requires inside { IsSized (length old.now.by.items) inside.now.sum }
    ensures own { IfOk result (λ w. w.own ≡ inside.now.sum.own *ℤ old.now.own) }
    ensures by { IfOk result (IsJoinedWide old.now line inside.now times) }
{
    let unit = carried::product(times, old.unit);
    let number = counted(inside.side, line, unit, old.own);
    let factor = carried::product(inside.sum.own, times);
    Ok(Wide {
        own: carried::product(inside.sum.own, old.own),
        by: combined(alloc, factor, &old.by, number, &inside.sum.by)?,
    })
}

// The numbers of the level with the line.
fn joined_numbers(
    alloc: Global,
    old: &LevelSum,
    times: i64,
    line: LineFacts,
    kept: &Option<Inside>,
) -> Result<Wide, OutOfMemory>
    requires old { IsSizedLevel (length old.now.by.items) old.now }
    requires above { pos 0 <ℤ times }
    requires times { unsigned_abs times ≤ COEFFICIENT_LIMIT }
    requires facts { IsPriced line }
    requires kept { IsSizedLine (length old.now.by.items) kept.now }
    ensures list { IfOk result
        (λ w. IsJoinedList old.now line kept.now (unsigned_abs times) w.own w.by.items) }
    ensures above { IfOk result (λ w. pos 0 <ℤ w.own) }
{
    match kept {
        Some(inside) => with_sum(alloc, old, times, line, inside),
        None => grown(alloc, old, times),
    }
}

// The cost of the line's deviation if this mark is inside.
fn cost_of(side: Side, line: LineFacts) -> i64
    requires { IsPriced line }
    ensures value { result ≡ cost_number side line }
    ensures fits { IsFitting result }
{
    match side {
        Side::Under => -line.under,
        Side::Over => line.over,
    }
}

// The cost with a deviation of the line.
fn joined_cost(old: Frac, line: LineFacts, kept: &Option<Inside>) -> Result<Frac, SumStop>
    requires facts { IsPriced line }
    ensures ok { IfOk result (IsJoinedCost old line kept.now) }
    ensures unfit { IfErr result (λ stop. IsRefused stop → IsUnfitJoinedCost old line kept.now) }
{
    let Some(inside) = kept else {
        return Ok(old);
    };
    let cost = cost_of(inside.side, line);
    Ok(Frac::mul_add(old, cost, line.scale, inside.sum.value)?)
}

// The row with these numbers and this cost.
fn with_numbers(unit: i64, times: i64, numbers: Lowest, cost: Frac) -> Draft
    requires unit { IsFitting unit }
    requires above { pos 0 <ℤ unit }
    requires times { pos 0 <ℤ times }
    requires small { unsigned_abs times ≤ COEFFICIENT_LIMIT }
    ensures unit { result.unit ≡ pos (unsigned_abs times * unsigned_abs unit) }
    ensures own { result.own ≡ numbers.own }
    ensures by { result.by.items ≡ numbers.by.items }
    ensures cost { result.cost ≡ cost }
{
    Draft {
        unit: carried::product(times, unit),
        own: numbers.own,
        by: numbers.by,
        cost,
    }
}

/// The level's row with the line, unless a part of it does not fit.
pub(crate) fn joined(
    alloc: Global,
    old: &LevelSum,
    line: LineFacts,
    kept: &Option<Inside>,
) -> Result<Draft, SumStop>
    requires old { IsSizedLevel (length old.now.by.items) old.now }
    requires facts { IsPriced line }
    requires kept { IsSizedLine (length old.now.by.items) kept.now }
    ensures ok { IfOk result (IsDraft old.now line kept.now) }
    ensures unfit { IfErr result (λ stop. IsRefused stop → HasNoDraft old.now line kept.now) }
{
    let times = times(old.unit, line);
    let cost = joined_cost(old.cost, line, kept)?;
    let wide = joined_numbers(alloc, old, times, line, kept)?;
    let numbers = in_lowest_terms(alloc, &wide)?;
    Ok(with_numbers(old.unit, times, numbers, cost))
}

/// Whether a number fits.
pub(crate) fn is_fitting(number: i128) -> bool
    ensures { IsTrue result ↔ IsFitting number }
{
    number.unsigned_abs() < PART_BOUND
}

// The sum of two numbers.
fn sum(a: i128, b: i128) -> i128
    requires a { unsigned_abs a < 2 ^ 83 }
    requires b { unsigned_abs b < 2 ^ 83 }
    ensures { result ≡ a +ℤ b }
{
    a + b
}

// The difference of two numbers.
fn difference(a: i128, b: i128) -> i128
    requires a { unsigned_abs a < 2 ^ 83 }
    requires b { unsigned_abs b < 2 ^ 83 }
    ensures { result ≡ a -ℤ b }
{
    a - b
}

// Whether `under` less the number, and `over` with it, fit.
fn are_both_fitting(under: i128, over: i128, number: i64) -> bool
    requires under { unsigned_abs under < 2 ^ 83 }
    requires over { unsigned_abs over < 2 ^ 83 }
    requires number { IsFitting number }
    ensures { IsTrue result ↔ (IsFitting (under -ℤ number) × IsFitting (over +ℤ number)) }
{
    let number = i128::from(number);
    is_fitting(difference(under, number)) && is_fitting(sum(over, number))
}

// Whether both reduced costs of the line fit. If it is outside, it has this number.
fn are_fitting(line: LineFacts, kept: &Option<Inside>, unit: i128, own: i64, number: i64) -> bool
    requires facts { IsPriced line }
    requires unit { pos 0 <ℤ unit }
    requires own { pos 0 <ℤ own }
    requires small { unsigned_abs (own *ℤ unit) < 2 ^ 72 }
    requires number { IsFitting number }
    ensures { IsTrue result ↔ AreFittingCosts line kept.now (unsigned_abs unit) (unsigned_abs own) number }
{
    let under = count(unit, own, line.under, line.scale);
    let over = count(unit, own, line.over, line.scale);
    match kept {
        Some(_) => is_fitting(sum(under, over)),
        None => are_both_fitting(under, over, number),
    }
}

// Whether the scale of the row fits.
fn is_scale_fitting(draft: &Draft) -> bool
    requires own { IsFitting draft.now.own }
    requires unit { unsigned_abs draft.now.unit < 2 ^ 72 }
    ensures { IsTrue result ↔ IsFitting (draft.now.own *ℤ draft.now.unit) }
{
    is_fitting(product(i128::from(draft.own), draft.unit))
}

// Whether the reduced costs of the line at a place fit, if it is of the level.
fn is_line_fitting(corner: CornerLines<'_>, place: usize, draft: &Draft, at: usize) -> bool
    requires corner { HasOutline corner }
    requires at { at < length corner.lines.now }
    requires draft { IsMadeDraft (length corner.lines.now) draft.now }
    requires scale { IsFitting (draft.now.own *ℤ draft.now.unit) }
    ensures { IsTrue result
        ↔ IsFittingAt corner.entry.outline.now corner.entry.lines.now place draft.now at }
{
    let CornerLines { outline, lines } = corner;
    let line = outline.lines[at];
    if line.level != place {
        return true;
    }
    are_fitting(line, &lines[at], draft.unit, draft.own, draft.by[at])
}

// Whether the reduced costs of the level's lines before the place fit.
fn are_lines_fitting(corner: CornerLines<'_>, place: usize, draft: &Draft, upto: usize) -> bool
    requires corner { HasOutline corner }
    requires upto { upto ≤ length corner.lines.now }
    requires draft { IsMadeDraft (length corner.lines.now) draft.now }
    requires scale { IsFitting (draft.now.own *ℤ draft.now.unit) }
    ensures { IsTrue result
        ↔ AreFittingTo corner.entry.outline.now corner.entry.lines.now place upto draft.now }
{
    for at in 0..upto {
        if !is_line_fitting(corner, place, draft, at) {
            return false;
        }
    }
    true
}

/// Whether the row fits, if the level has its lines before the place.
pub(crate) fn does_fit(corner: CornerLines<'_>, place: usize, draft: &Draft, upto: usize) -> bool
    requires corner { HasOutline corner }
    requires upto { upto ≤ length corner.lines.now }
    requires draft { IsMadeDraft (length corner.lines.now) draft.now }
    requires small { unsigned_abs draft.now.unit < 2 ^ 72 }
    requires own { IsFitting draft.now.own }
    ensures { IsTrue result
        ↔ IsFittingTo corner.entry.outline.now corner.entry.lines.now place upto draft.now }
{
    is_scale_fitting(draft) && are_lines_fitting(corner, place, draft, upto)
}
