// The sum of a quantity after an exchange, whatever else fits there.
ghost use Rattle.std.specs.Prelude.{◌≡◌, length, IfOk, IfErr, OnErr};
ghost use Rattle.frac_core.specs.Stops.{IsRefused};
ghost use Rattle.frac_core.specs.Fraction.{IsKept, IsRatio, IsUnfitRatio};
ghost use Rattle.corner_lines.specs.LineEquations.{deviation};
ghost use Rattle.path_lines.specs.Tables.{IsLineAt, IsSized, IsSizedLine, name_at};
ghost use Rattle.path_fits.specs.Sums.{IsCopy, HasFittingValue, IsQuantitySum, IsSumAfter, IsUnfitAfter};
ghost use Rattle.path_fits.specs.Sums.{IsUnfitLineAt, IsUnitList, IsUnitSum, next_den, next_num};
ghost use Rattle.path_levels.specs.Exchanges.Pivots.{IsSizedPivot};
ghost use Rattle.path_fits.specs.After.{AfterWithLine, WithLine};

use crate::last::after::{LineAt, own_number, ratio_of, side_after};
use frac_core::{Frac, OutOfMemory, Unfit};
use path_levels::moved_value;
use path_lines::{Inside, Pivot, Sum, SumStop, carried, in_lowest_terms, number_of, sum_of};
use std::alloc::Global;

fn copied(alloc: Global, numbers: &[i64]) -> Result<Vec<i64>, OutOfMemory>
    ensures { IfOk result (λ out. out.items ≡ numbers.now) }
{
    let mut out = Vec::with_capacity(alloc, numbers.len())?;
    for number in numbers {
        out.push(*number)?;
    }
    Ok(out)
}

/// The numbers of a sum, with another value.
pub(crate) fn with_value(alloc: Global, sum: &Sum, value: Frac) -> Result<Sum, OutOfMemory>
    ensures copy { IfOk result (IsCopy sum.now value) }
    ensures kept { IfOk result (λ next. IsKept next.value) }
{
    let _ = value.num(); // for the proof: what a fraction keeps
    let by = copied(alloc, &sum.by)?;
    let own = sum.own;
    Ok(Sum { own, by, value })
}

// The numbers of an outside line by itself.
fn unit_numbers(alloc: Global, count: usize, at: usize) -> Result<Vec<i64>, OutOfMemory>
    ensures { IfOk result (λ out. IsUnitList count at out.items) }
{
    let mut out = Vec::with_capacity(alloc, count)?;
    for place in 0..count {
        out.push(own_number(place, at))?;
    }
    Ok(out)
}

/// The deviation of the outside line at a place, plus this value.
pub(crate) fn unit_sum(
    alloc: Global,
    count: usize,
    at: usize,
    value: Frac,
) -> Result<Sum, OutOfMemory>
    ensures { IfOk result (IsUnitSum count at value) }
{
    let by = unit_numbers(alloc, count, at)?;
    Ok(Sum { own: 1, by, value })
}

// The value of a sum after an exchange of two lines.
fn next_value(pivot: &Pivot, sum: &Sum) -> Result<Frac, Unfit>
    requires pivot { IsSizedPivot (length sum.now.by.items) pivot.now }
    requires sum { IsSized (length sum.now.by.items) sum.now }
    ensures value { IfOk result
        (λ f. IsRatio f (next_num pivot.now sum.now) (next_den pivot.now sum.now)) }
    ensures kept { IfOk result IsKept }
    ensures unfit { OnErr result (IsUnfitRatio (next_num pivot.now sum.now) (next_den pivot.now sum.now)) }
{
    let number = number_of(&sum.by, pivot.step.enter.at);
    let ratio = ratio_of(pivot, number, sum.own);
    moved_value(sum.value, ratio, pivot.value)
}

/// The sum of a quantity after an exchange.
pub(crate) fn next_sum(alloc: Global, pivot: &Pivot, sum: &Sum) -> Result<Sum, SumStop>
    requires pivot { IsSizedPivot (length sum.now.by.items) pivot.now }
    requires sum { IsSized (length sum.now.by.items) sum.now }
    ensures sized { IfOk result (IsSized (length sum.now.by.items)) }
    ensures kept { IfOk result (λ next. IsKept next.value) }
    ensures next { IfOk result (IsSumAfter pivot.now sum.now) }
    ensures unfit { IfErr result (λ stop. IsRefused stop → IsUnfitAfter pivot.now sum.now) }
{
    if pivot.is_turn {
        return Ok(with_value(alloc, sum, sum.value)?);
    }
    let wide = carried(alloc, pivot, sum)?;
    let numbers = in_lowest_terms(alloc, &wide)?;
    let value = next_value(pivot, sum)?;
    Ok(sum_of(numbers, value))
}

/// The sum of a line's deviation before an exchange. An outside line's is the line itself.
pub(crate) fn line_before(alloc: Global, line: LineAt<'_>) -> Result<Sum, OutOfMemory>
    requires { IsSizedLine line.count line.inside.now }
    ensures sized { IfOk result (IsSized line.entry.count) }
    ensures sum { IfOk result (λ sum. WithLine line.entry
        (λ p marks. IsQuantitySum p marks (deviation (name_at p line.entry.at)) sum)) }
{
    match line.inside {
        Some(inside) => with_value(alloc, &inside.sum, inside.sum.value),
        None => unit_sum(alloc, line.count, line.at, Frac::zero()),
    }
}

/// A line after an exchange.
pub(crate) fn line_after(
    alloc: Global,
    line: LineAt<'_>,
    pivot: &Pivot,
) -> Result<Option<Inside>, SumStop>
    requires line { IsSizedLine line.count line.inside.now }
    requires pivot { IsSizedPivot line.count pivot.now }
    ensures sized { IfOk result (IsSizedLine line.entry.count) }
    ensures kept { IfOk result HasFittingValue }
    ensures line { IfOk result (λ next. AfterWithLine pivot.now line.entry
        (λ p marks. IsLineAt p marks (name_at p line.entry.at) next)) }
    ensures unfit { IfErr result (λ stop. IsRefused stop → AfterWithLine pivot.now line.entry
        (λ p marks. IsUnfitLineAt p marks (name_at p line.entry.at))) }
{
    let Some(side) = side_after(line.inside, pivot.step, line.at) else {
        return Ok(None);
    };
    let before = line_before(alloc, line)?;
    let sum = next_sum(alloc, pivot, &before)?;
    Ok(Some(Inside { side, sum }))
}
