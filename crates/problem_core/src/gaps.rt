// The sign of a row's gap.
ghost use Rattle.std.specs.Prelude.{◌≡◌, ℕ, ◌<◌, ◌≤◌, ◌^◌, ◌+◌, ◌+ℤ◌, ◌*ℤ◌, pos, length, All, IfOk};
ghost use Rattle.std.specs.Prelude.{OnOk, OnErr, unsigned_abs};
ghost use Rattle.std.specs.Int.{◌∣◌};
ghost use Rattle.std.specs.Ordering.{int_cmp};
ghost use Rattle.frac_core.specs.declared.frac.TheConstants.{PART_BOUND};
ghost use Rattle.problem_core.specs.Common.{IsLeastCommon};
ghost use Rattle.problem_core.specs.Layout.{Assignment, Gives, gap, line_of_row};
ghost use Rattle.problem_core.specs.Gaps.{HasGapRoom, HasValue, scaled_sum, times_common};
ghost use Rattle.problem_core.specs.Gaps.{value_dens, value_of};
ghost use Rattle.problem_core.specs.declared.limits.TheConstants.{COEFFICIENT_LIMIT, GAP_ROOM, TERM_LIMIT};

use crate::common::least_common;
use crate::limits::GAP_ROOM;
use crate::parts::Term;
use crate::row::Row;
use crate::values::Values;
use frac_core::{Frac, cmp_wide};
use std::cmp::Ordering;
use thiserror::Error;

/// The values of a row's attributes, over one denominator, are too large.
#[derive(Clone, Copy, Debug, PartialEq, Eq, Error)]
#[error("the values of the row's attributes are too large over one denominator")]
pub struct NoRoom;

// The value's denominator.
fn denominator(value: &Frac) -> u128
    ensures value { result ≡ value.now.den }
    ensures above { 0 < result }
    ensures small { result < PART_BOUND }
{
    value.den() as u128
}

// The least common denominator of the values of the terms' attributes, if it is below [`GAP_ROOM`].
fn common_denominator(terms: &[Term], values: &Values) -> Result<u128, NoRoom>
    ensures room { IfOk result (λ d. d < GAP_ROOM) }
    ensures least { IfOk result (IsLeastCommon (value_dens values.now terms.now)) }
    ensures none { OnErr result ((d : ℕ) × (GAP_ROOM ≤ d)
        × ((m : ℕ) → 0 < m → All (λ t. (value_of values.now t.attr).den ∣ m) terms.now → d ≤ m)) }
{
    let mut common = 1;
    for term in terms {
        common = least_common(common, denominator(&values.value(term.attr)));
        if common >= GAP_ROOM {
            return Err(NoRoom);
        }
    }
    Ok(common)
}

// The value times a multiple of its denominator, if it is below [`GAP_ROOM`] in size.
fn scaled(value: &Frac, common: u128) -> Result<i64, NoRoom>
    requires { common < GAP_ROOM }
    ensures value { IfOk result (λ z. z ≡ times_common value.now common) }
    ensures small { IfOk result (λ z. unsigned_abs z < GAP_ROOM) }
    ensures large { OnErr result (GAP_ROOM ≤ unsigned_abs (times_common value.now common)) }
{
    let share = (common / denominator(value)) as i128;
    let product = i128::from(value.num()) * share;
    if product.unsigned_abs() >= GAP_ROOM {
        return Err(NoRoom);
    }
    Ok(product as i64)
}

// A coefficient times a value over the common denominator.
fn product(by: i64, scaled: i64) -> i128
    requires by { unsigned_abs by ≤ COEFFICIENT_LIMIT }
    requires scaled { unsigned_abs scaled < GAP_ROOM }
    ensures value { result ≡ by *ℤ scaled }
    ensures small { unsigned_abs result < 2 ^ 93 }
{
    i128::from(by) * i128::from(scaled)
}

// The sum so far, with one product more.
fn total(x: i128, y: i128) -> i128
    requires x { unsigned_abs x < 2 ^ 126 }
    requires y { unsigned_abs y < 2 ^ 93 }
    ensures value { result ≡ x +ℤ y }
    ensures small { unsigned_abs result ≤ unsigned_abs x + unsigned_abs y }
{
    x + y
}

// The terms' sum where each attribute has its value, over a common denominator of the values.
fn sum_over(terms: &[Term], values: &Values, common: u128) -> Result<i128, NoRoom>
    requires terms { All (λ t. unsigned_abs t.by ≤ COEFFICIENT_LIMIT) terms.now }
    requires count { length terms.now ≤ TERM_LIMIT }
    requires room { common < GAP_ROOM }
    ensures sum { IfOk result (λ s. s ≡ scaled_sum values.now common terms.now) }
    ensures room { OnOk result (All (λ t. unsigned_abs (times_common (value_of values.now t.attr) common)
        < GAP_ROOM) terms.now) }
    ensures none { OnErr result (All (λ t. unsigned_abs (times_common (value_of values.now t.attr) common)
        < GAP_ROOM) terms.now → ⊥) }
{
    let mut sum = 0;
    for term in terms {
        let scaled = scaled(&values.value(term.attr), common)?;
        sum = total(sum, product(term.by, scaled));
    }
    Ok(sum)
}

// The order of sum/common and a fraction.
fn compare(sum: i128, common: u128, constant: &Frac) -> Ordering
    requires above { 0 < common }
    requires room { common < GAP_ROOM }
    ensures { result ≡ int_cmp (sum *ℤ pos constant.now.den) (constant.now.num *ℤ pos common) }
{
    let (num, den) = (constant.num(), constant.den());
    cmp_wide(sum, common as i128, i128::from(num), i128::from(den))
}

/// The order of the row's gap and 0.
///
/// `NoRoom`: the values of the row's attributes have no common denominator below [`GAP_ROOM`], or a value
/// times it is not below that in size.
pub fn gap_sign(row: &Row, values: &Values) -> Result<Ordering, NoRoom>
    requires { All (λ t. HasValue values.now t.attr) row.now.terms }
    ensures sign { IfOk result (λ o. (x : Assignment) → Gives values.now x
        → o ≡ int_cmp (gap x (line_of_row row.now)) (pos 0)) }
    ensures room { OnOk result (HasGapRoom row.now values.now) }
    ensures none { OnErr result (HasGapRoom row.now values.now → ⊥) }
{
    row.show_row(); // for the proof: what a row keeps
    let terms = row.terms();
    let common = common_denominator(terms, values)?;
    let sum = sum_over(terms, values, common)?;
    Ok(compare(sum, common, &row.constant()))
}
