// Sums of terms, over a common scale.
ghost use Rattle.std.specs.Prelude.{◌≡◌, ℕ, ◌<◌, ◌≤◌, ◌*◌, ◌^◌, ◌+ℤ◌, ◌*ℤ◌, ◌<ℤ◌, pos, length, if◌then◌else◌};
ghost use Rattle.std.specs.Prelude.{◌==◌, All, IfOk, IfSome, IfNone, unsigned_abs};
ghost use Prim.Native.Nat.{◌∣◌};
ghost use Rattle.frac_core.specs.declared.frac.TheConstants.{PART_BOUND};
ghost use Rattle.problem_core.specs.Layout.{coefficient};
ghost use Rattle.problem_core.specs.declared.limits.TheConstants.{COEFFICIENT_LIMIT};
ghost use Rattle.compile_parts.specs.Shares.{form, AreHalves};
ghost use Rattle.constraint_compile.specs.Coefficients.Sums.{AreKept, IsSumWithShare, IsPastWithShare};
ghost use Rattle.constraint_compile.specs.Coefficients.Sums.{IsDivisor};
ghost use Rattle.constraint_compile.specs.Coefficients.Sums.{AreDivided, IsPast, AreWhole, attr_at};
ghost use Rattle.constraint_compile.specs.Coefficients.Sums.{number_at};
ghost use Rattle.constraint_compile.specs.Coefficients.Sums.{with_share_number};

use compile_parts::{EdgeAndSize, Share, product, total};
use frac_core::{Frac, OutOfMemory, gcd, quotient};
use problem_core::{COEFFICIENT_LIMIT, Term};
use std::alloc::Global;

/// A sum of terms: each attribute of a list of them has the number at its place, over the scale.
#[derive(Drop)]
pub(crate) struct Sum {
    pub scale: u32,
    pub numbers: Vec<i64>,
}

// How often a term has the attribute.
fn at(term: Term, attr: u32) -> i64
    requires { unsigned_abs term.by ≤ 2 }
    ensures value { result ≡ (if term.attr == attr then term.by else pos 0) }
    ensures small { unsigned_abs result ≤ 2 }
{
    if term.attr == attr { term.by } else { 0 }
}

/// How many halves of an attribute there are.
pub(crate) fn halves(of: &EdgeAndSize, attr: u32) -> i64
    requires { AreHalves of.now }
    ensures value { result ≡ coefficient attr (form of.now) }
    ensures small { unsigned_abs result ≤ 4 }
{
    at(of.edge, attr) + at(of.size, attr)
}

/// A quotient and its rest.
#[derive(Clone, Copy)]
pub(crate) struct Division {
    pub whole: i64,
    pub rest: i64,
}

/// The quotient of a number below 2^45 in size, and the rest, which is below the denominator in size.
pub(crate) fn split(num: i64, den: i64) -> Division
    requires num { unsigned_abs num < 2 ^ 45 }
    requires den { pos 0 <ℤ den }
    ensures value { result.whole *ℤ den +ℤ result.rest ≡ num }
    ensures rest { unsigned_abs result.rest < unsigned_abs den }
    ensures whole { unsigned_abs result.whole ≤ unsigned_abs num }
{
    Division {
        whole: num / den,
        rest: num % den,
    }
}

/// A fraction's numerator times a count of halves of at most 4 in size, which is below 2^44 in size.
pub(crate) fn times_halves(num: i64, halves: i64) -> i64
    requires num { unsigned_abs num < PART_BOUND }
    requires halves { unsigned_abs halves ≤ 4 }
    ensures value { result ≡ num *ℤ halves }
    ensures small { unsigned_abs result < 2 ^ 44 }
{
    num * halves
}

// So many halves over the scale.
fn scaled_halves(of: &EdgeAndSize, attr: u32, scale: u32) -> i64
    requires halves { AreHalves of.now }
    requires scale { scale ≤ COEFFICIENT_LIMIT }
    ensures value { result ≡ pos scale *ℤ coefficient attr (form of.now) }
    ensures small { unsigned_abs result < 2 ^ 44 }
{
    i64::from(scale) * halves(of, attr)
}

pub(crate) fn double_den(f: Frac) -> i64
    ensures value { result ≡ pos (f.den * 2) }
    ensures small { unsigned_abs result < 2 ^ 44 }
    ensures above { 0 < f.den }
{
    f.den() * 2
}

// The number of an attribute over the scale times twice the share's denominator, with the share added.
fn with_more(number: i64, scale: u32, share: &Share, attr: u32) -> i128
    requires number { unsigned_abs number ≤ COEFFICIENT_LIMIT }
    requires scale { scale ≤ COEFFICIENT_LIMIT }
    requires halves { AreHalves share.now.of }
    ensures { result ≡ with_share_number number scale share.now attr }
{
    total(
        product(number, double_den(share.by)),
        product(share.by.num(), scaled_halves(&share.of, attr, scale)),
    )
}

// The numbers with the share added, over the scale times twice the share's denominator.
fn widened(alloc: Global, attrs: &[u32], sum: &Sum, share: &Share) -> Result<Vec<i128>, OutOfMemory>
    requires kept { AreKept attrs.now sum.now.scale sum.now.numbers.items }
    requires halves { AreHalves share.now.of }
    ensures long { IfOk result (λ wide. length wide.items ≡ length attrs.now) }
    ensures each { IfOk result (λ wide. (i : ℕ) → i < length attrs.now
        → number_at wide.items i ≡ with_share_number
        (number_at sum.now.numbers.items i) sum.now.scale share.now (attr_at attrs.now i)) }
{
    let mut wide = Vec::with_capacity(alloc, attrs.len())?;
    for place in 0..attrs.len() {
        let more = with_more(sum.numbers[place], sum.scale, share, attrs[place]);
        wide.push(more)?;
    }
    Ok(wide)
}

// A common divisor of all.
fn common_divisor(whole: u128, numbers: &[i128]) -> u128
    ensures { IsDivisor whole numbers.now result }
{
    let mut divisor = whole;
    for number in numbers {
        divisor = gcd(number.unsigned_abs(), divisor);
    }
    divisor
}

// The exact quotient, unless it is past the limit.
fn small_quotient(number: i128, divisor: i128) -> Option<i64>
    requires above { pos 0 <ℤ divisor }
    requires divides { unsigned_abs divisor ∣ unsigned_abs number }
    ensures value { IfSome result (λ z. divisor *ℤ z ≡ number) }
    ensures small { IfSome result (λ z. unsigned_abs z ≤ COEFFICIENT_LIMIT) }
    ensures past { IfNone result (unsigned_abs divisor * COEFFICIENT_LIMIT < unsigned_abs number) }
{
    let by = quotient(number, divisor);
    if by.unsigned_abs() > u128::from(COEFFICIENT_LIMIT) {
        return None;
    }
    Some(by as i64)
}

// The numbers divided, unless a quotient is past the limit.
fn divided(alloc: Global, wide: &[i128], divisor: i128) -> Result<Option<Vec<i64>>, OutOfMemory>
    requires above { pos 0 <ℤ divisor }
    requires divides { All (λ z. unsigned_abs divisor ∣ unsigned_abs z) wide.now }
    ensures some { IfOk result (λ o. IfSome o (λ out. AreDivided wide.now divisor out.items)) }
    ensures none { IfOk result (λ o. IfNone o (IsPast wide.now divisor)) }
{
    let mut out = Vec::with_capacity(alloc, wide.len())?;
    for number in wide {
        let Some(small) = small_quotient(*number, divisor) else {
            return Ok(None);
        };
        out.push(small)?;
    }
    Ok(Some(out))
}

// The scale times twice the denominator.
fn whole_of(scale: u32, f: Frac) -> u128
    requires above { 0 < scale }
    requires small { scale ≤ COEFFICIENT_LIMIT }
    ensures value { result ≡ scale * (f.den * 2) }
    ensures above { 0 < result }
    ensures small { result < 2 ^ 80 }
    ensures den { 0 < f.den }
{
    u128::from(scale) * (f.den() as u128 * 2)
}

// Half of a number, if that is whole.
fn half(number: i64) -> Option<i64>
    requires { unsigned_abs number < 2 ^ 44 }
    ensures value { IfSome result (λ h. h *ℤ pos 2 ≡ number) }
    ensures small { IfSome result (λ h. unsigned_abs h < 2 ^ 44) }
{
    let parts = split(number, 2);
    if parts.rest != 0 {
        return None;
    }
    Some(parts.whole)
}

// The number over 1 with the share added, if that is whole and within the limit.
fn whole_more(number: i64, share: &Share, attr: u32) -> Option<i64>
    requires number { unsigned_abs number ≤ COEFFICIENT_LIMIT }
    requires halves { AreHalves share.now.of }
    requires den { share.now.by.den ≡ 1 }
    ensures value { IfSome result (λ z. pos 2 *ℤ z ≡ with_share_number number 1 share.now attr) }
    ensures small { IfSome result (λ z. unsigned_abs z ≤ COEFFICIENT_LIMIT) }
{
    let more = half(times_halves(share.by.num(), halves(&share.of, attr)))?;
    let next = number + more;
    if next.unsigned_abs() > COEFFICIENT_LIMIT {
        return None;
    }
    Some(next)
}

// The numbers over 1 with the share added, if each is whole and within the limit.
fn whole_numbers(
    alloc: Global,
    attrs: &[u32],
    numbers: &[i64],
    share: &Share,
) -> Result<Option<Vec<i64>>, OutOfMemory>
    requires kept { AreKept attrs.now 1 numbers.now }
    requires halves { AreHalves share.now.of }
    requires den { share.now.by.den ≡ 1 }
    ensures { IfOk result (λ o. IfSome o (λ next. AreWhole attrs.now numbers.now share.now next.items)) }
{
    let mut out = Vec::with_capacity(alloc, attrs.len())?;
    for place in 0..attrs.len() {
        let Some(next) = whole_more(numbers[place], share, attrs[place]) else {
            return Ok(None);
        };
        out.push(next)?;
    }
    Ok(Some(out))
}

// The numbers with the share added, if the scale is 1 and stays so. Most sums need no other.
fn unscaled(
    alloc: Global,
    attrs: &[u32],
    sum: &Sum,
    share: &Share,
) -> Result<Option<Vec<i64>>, OutOfMemory>
    requires kept { AreKept attrs.now sum.now.scale sum.now.numbers.items }
    requires halves { AreHalves share.now.of }
    ensures scale { IfOk result (λ o. IfSome o (λ _. (sum.now.scale ≡ 1) × (share.now.by.den ≡ 1))) }
    ensures whole { IfOk result (λ o. IfSome o (λ next.
        AreWhole attrs.now sum.now.numbers.items share.now next.items)) }
{
    if sum.scale == 1 && share.by.den() == 1 {
        whole_numbers(alloc, attrs, &sum.numbers, share)
    } else {
        Ok(None)
    }
}

// The sum with one more share, over its least scale, unless that or a number would be past the limit.
fn rescaled(
    alloc: Global,
    attrs: &[u32],
    sum: &Sum,
    share: &Share,
) -> Result<Option<Sum>, OutOfMemory>
    requires kept { AreKept attrs.now sum.now.scale sum.now.numbers.items }
    requires halves { AreHalves share.now.of }
    ensures kept { IfOk result (λ o. IfSome o (λ next. AreKept attrs.now next.scale next.numbers.items)) }
    ensures sum { IfOk result (λ o. IfSome o (λ next. IsSumWithShare attrs.now share.now
        sum.now.scale sum.now.numbers.items next.scale next.numbers.items)) }
    ensures past { IfOk result (λ o. IfNone o (IsPastWithShare attrs.now share.now
        sum.now.scale sum.now.numbers.items)) }
{
    let wide = widened(alloc, attrs, sum, share)?;
    let whole = whole_of(sum.scale, share.by);
    let divisor = common_divisor(whole, &wide);
    let scale = whole / divisor;
    if scale > u128::from(COEFFICIENT_LIMIT) {
        return Ok(None);
    }
    let Some(numbers) = divided(alloc, &wide, divisor as i128)? else {
        return Ok(None);
    };
    Ok(Some(Sum {
        scale: scale as u32,
        numbers,
    }))
}

/// The sum with one more share, unless the scale or a number would be past the limit.
pub(crate) fn added(
    alloc: Global,
    attrs: &[u32],
    sum: &Sum,
    share: &Share,
) -> Result<Option<Sum>, OutOfMemory>
    requires kept { AreKept attrs.now sum.now.scale sum.now.numbers.items }
    requires halves { AreHalves share.now.of }
    ensures kept { IfOk result (λ o. IfSome o (λ next. AreKept attrs.now next.scale next.numbers.items)) }
    ensures sum { IfOk result (λ o. IfSome o (λ next. IsSumWithShare attrs.now share.now
        sum.now.scale sum.now.numbers.items next.scale next.numbers.items)) }
    ensures past { IfOk result (λ o. IfNone o (IsPastWithShare attrs.now share.now
        sum.now.scale sum.now.numbers.items)) }
{
    match unscaled(alloc, attrs, sum, share)? {
        Some(numbers) => Ok(Some(Sum { scale: 1, numbers })),
        None => rescaled(alloc, attrs, sum, share),
    }
}
