// Sums that an exchange changes in place, at few places.
ghost use Rattle.std.specs.Prelude.{◌≡◌, ◌<◌, ◌≤◌, ◌<ℤ◌, ◌+ℤ◌, ◌*ℤ◌, pos, length, unsigned_abs, true};
ghost use Rattle.std.specs.Prelude.{false, All, IfOk, IfErr, IfSome, IfNone};
ghost use Rattle.frac_core.specs.Fraction.{IsFitting};
ghost use Rattle.frac_core.specs.declared.frac.TheConstants.{PART_BOUND as bound};
ghost use Rattle.path_lines.specs.Numbers.{IsCombined, number_at};
ghost use Rattle.path_lines.specs.Adding.{ArePlaces, HasLargeSum};
ghost use Rattle.path_lines.specs.Tables.{IsSized};
ghost use Rattle.path_lines.specs.Exchanges.Pivots.{IsNextSum, IsUnfitNextSum};

use crate::exchange::{Pivot, number_of, pair_product};
use crate::table::Sum;
use frac_core::{Frac, OutOfMemory, PART_BOUND, Unfit};
use std::alloc::Global;

/// The places of the numbers that aren't 0, in order.
pub(crate) fn places_of(alloc: Global, numbers: &[i64]) -> Result<Vec<usize>, OutOfMemory>
    ensures { IfOk result (λ places. ArePlaces numbers.now places.items) }
{
    let mut out = Vec::new(alloc);
    for (at, number) in numbers.iter().enumerate() {
        if *number != 0 {
            out.push(at)?;
        }
    }
    Ok(out)
}

// The number and `factor` times the other, if that fits.
fn added(number: i64, factor: i64, other: i64) -> Option<i64>
    requires number { IsFitting number }
    requires factor { IsFitting factor }
    requires other { IsFitting other }
    ensures sum { IfSome result (λ z. z ≡ number +ℤ factor *ℤ other) }
    ensures fits { IfSome result IsFitting }
    ensures unfit { IfNone result (bound ≤ unsigned_abs (number +ℤ factor *ℤ other)) }
{
    let sum = i128::from(number) + pair_product(factor, other);
    if sum.unsigned_abs() >= PART_BOUND {
        return None;
    }
    Some(sum as i64)
}

// Adds `factor` times the others, which are 0 but for these places, if all fits then.
fn add_at(by: &mut [i64], factor: i64, others: &[i64], places: &[usize]) -> bool
    requires by { All IsFitting by.old }
    requires factor { IsFitting factor }
    requires others { All IsFitting others.now }
    requires count { length by.old ≡ length others.now }
    requires places { ArePlaces others.now places.now }
    ensures sum { result ≡ true → IsCombined (pos 1) by.old factor others.now by.new }
    ensures fits { result ≡ true → All IsFitting by.new }
    ensures unfit { result ≡ false → HasLargeSum by.old factor others.now }
{
    for at in places {
        let Some(next) = added(by[*at], factor, others[*at]) else {
            return false;
        };
        by[*at] = next;
    }
    true
}

/// Makes a sum whose own number is 1 the sum after an exchange of two lines whose pivot has the size 1: only
/// its numbers at these places change.
pub(crate) fn add_pivot(
    pivot: &Pivot,
    places: &[usize],
    sum: &mut Sum,
    enters: Frac,
) -> Result<(), Unfit>
    requires size { pivot.now.size ≡ pos 1 }
    requires fits { All IsFitting pivot.now.by.items }
    requires places { ArePlaces pivot.now.by.items places.now }
    requires enter { pivot.now.step.enter.at < length pivot.now.by.items }
    requires own { sum.old.own ≡ pos 1 }
    requires sized { IsSized (length pivot.now.by.items) sum.old }
    ensures sized { IfOk result (λ _. IsSized (length pivot.now.by.items) sum.new) }
    ensures sum { IfOk result (λ _. IsNextSum pivot.now enters sum.old sum.new) }
    ensures unfit { IfErr result (λ _. IsUnfitNextSum pivot.now enters sum.old) }
{
    let number = number_of(&sum.by, pivot.step.enter.at);
    let Ok(value) = Frac::mul_add(sum.value, number, sum.own, enters) else {
        return Err(Unfit);
    };
    if !add_at(&mut sum.by, number, &pivot.by, places) {
        return Err(Unfit);
    }
    sum.value = value;
    Ok(())
}
