// Numbers in lowest terms.
ghost use Rattle.std.specs.Prelude.{◌≡◌, ℕ, ◌*◌, ◌<◌, ◌≤◌, ◌^◌, ◌+ℤ◌, ◌*ℤ◌, ◌<ℤ◌, pos, length};
ghost use Rattle.std.specs.Prelude.{unsigned_abs, All, IfOk, IfErr, IfSome, IfNone, map};
ghost use Rattle.std.specs.Int.{◌∣◌};
ghost use Rattle.std.specs.Ordering.{int_cmp};
ghost use Rattle.frac_core.specs.Stops.{IsRefused};
ghost use Rattle.frac_core.specs.Fraction.{IsFitting, sum_num};
ghost use Rattle.path_lines.specs.Numbers.{AreFitting, AreLowest, AreUnfit, DividesAll, HasTooLarge};
ghost use Rattle.path_lines.specs.Numbers.{IsCombined, IsCommonDivisor, IsFactor, IsSmallProduct};

use crate::stop::SumStop;
use frac_core::{Frac, OutOfMemory, PART_BOUND, Stop, Unfit, cmp_wide, gcd, quotient};
use std::alloc::Global;
use std::cmp::Ordering;

/// A number above 0 and others. Only their ratios matter.
#[derive(Drop)]
pub struct Wide {
    pub own: i128,
    pub by: Vec<i128>,
}

/// The same in lowest terms. All of them fit.
#[derive(Drop)]
pub struct Lowest {
    pub own: i64,
    pub by: Vec<i64>,
}

fn common_divisor(own: i128, by: &[i128]) -> u128
    requires { pos 0 <ℤ own }
    ensures above { 0 < result }
    ensures divides { DividesAll result own by.now }
    ensures greatest { (k : ℕ) → DividesAll k own by.now → k ∣ result }
    ensures small { result < 2 ^ 127 }
{
    let mut divisor = own.unsigned_abs();
    for number in by {
        if divisor == 1 {
            return 1;
        }
        divisor = gcd(number.unsigned_abs(), divisor);
    }
    divisor
}

// The greatest common divisor, as a signed number.
fn divisor_of(own: i128, by: &[i128]) -> i128
    requires { pos 0 <ℤ own }
    ensures { IsCommonDivisor own by.now result }
{
    common_divisor(own, by) as i128
}

// The quotient, if it fits.
fn fitting_quotient(number: i128, divisor: i128) -> Option<i64>
    requires above { pos 0 <ℤ divisor }
    requires divides { unsigned_abs divisor ∣ unsigned_abs number }
    ensures same { IfSome result (λ q. divisor *ℤ q ≡ number) }
    ensures fits { IfSome result IsFitting }
    ensures unfit { IfNone result (unsigned_abs divisor * PART_BOUND ≤ unsigned_abs number) }
{
    let part = quotient(number, divisor);
    if part.unsigned_abs() >= PART_BOUND {
        return None;
    }
    Some(part as i64)
}

// The quotients, unless one of them does not fit.
fn quotients(alloc: Global, numbers: &[i128], divisor: i128) -> Result<Vec<i64>, SumStop>
    requires above { pos 0 <ℤ divisor }
    requires divides { All (λ z. unsigned_abs divisor ∣ unsigned_abs z) numbers.now }
    ensures same { IfOk result (λ v. map (λ z. divisor *ℤ z) v.items ≡ numbers.now) }
    ensures fits { IfOk result (λ v. All IsFitting v.items) }
    ensures unfit { IfErr result (λ stop. IsRefused stop → HasTooLarge divisor numbers.now) }
{
    let mut out = Vec::with_capacity(alloc, numbers.len())?;
    for number in numbers {
        let Some(part) = fitting_quotient(*number, divisor) else {
            return Err(Stop::Refused(Unfit));
        };
        out.push(part)?;
    }
    Ok(out)
}

/// The numbers in lowest terms, unless one of them does not fit.
pub fn in_lowest_terms(alloc: Global, wide: &Wide) -> Result<Lowest, SumStop>
    requires { pos 0 <ℤ wide.now.own }
    ensures lowest { IfOk result (λ l. AreLowest wide.now.own wide.now.by.items l.own l.by.items) }
    ensures above { IfOk result (λ l. pos 0 <ℤ l.own) }
    ensures fits { IfOk result (λ l. AreFitting l.own l.by.items) }
    ensures unfit { IfErr result (λ stop. IsRefused stop → AreUnfit wide.now.own wide.now.by.items) }
{
    let divisor = divisor_of(wide.own, &wide.by);
    let Some(own) = fitting_quotient(wide.own, divisor) else {
        return Err(Stop::Refused(Unfit));
    };
    let by = quotients(alloc, &wide.by, divisor)?;
    Ok(Lowest { own, by })
}

fn product(k: i128, by: i64) -> i128
    requires { IsSmallProduct k by }
    ensures value { result ≡ k *ℤ by }
    ensures small { unsigned_abs result < 2 ^ 126 }
{
    k * i128::from(by)
}

// The sum of two products. Most are of two zeros.
fn both(k: i128, left: i64, m: i128, right: i64) -> i128
    requires left { IsSmallProduct k left }
    requires right { IsSmallProduct m right }
    ensures { result ≡ k *ℤ left +ℤ m *ℤ right }
{
    if left == 0 && right == 0 {
        return 0;
    }
    product(k, left) + product(m, right)
}

/// `k` times `left` and `m` times `right`.
pub fn combined(
    alloc: Global,
    k: i128,
    left: &[i64],
    m: i128,
    right: &[i64],
) -> Result<Vec<i128>, OutOfMemory>
    requires k { IsFactor k }
    requires left { All IsFitting left.now }
    requires m { IsFactor m }
    requires right { All IsFitting right.now }
    requires count { length left.now ≡ length right.now }
    ensures { IfOk result (λ out. IsCombined k left.now m right.now out.items) }
{
    let mut out = Vec::with_capacity(alloc, left.len())?;
    for (at, number) in left.iter().enumerate() {
        out.push(both(k, *number, m, right[at]))?;
    }
    Ok(out)
}

/// A factor `times / over`. Its denominator is above 0.
#[derive(Clone, Copy)]
pub struct Ratio {
    pub times: i128,
    pub over: i128,
}

/// The sign of `base + ratio * value`.
pub fn moved_sign(base: Frac, ratio: Ratio, value: Frac) -> Ordering
    requires times { IsFactor ratio.times }
    requires over { IsFactor ratio.over }
    requires above { pos 0 <ℤ ratio.over }
    ensures { result ≡ int_cmp (sum_num base ratio.times ratio.over value) (pos 0) }
{
    let num = product(ratio.times, value.num());
    let den = product(ratio.over, value.den());
    cmp_wide(i128::from(base.num()), i128::from(base.den()), -num, den)
}
