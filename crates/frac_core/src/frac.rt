// A fraction whose parts fit.
ghost use Rattle.std.specs.Prelude.{◌≡◌, ◌<◌, ◌^◌, pos, ◌<ℤ◌, IfOk, OnErr, if◌then◌else◌, neg_ℤ};
ghost use Rattle.std.specs.Prelude.{◌*ℤ◌, ◌/◌, unsigned_abs};
ghost use Rattle.std.specs.Int.{IsGcd};
ghost use Rattle.frac_core.specs.Fraction.{Fraction, IsLowest, Fits, IsFitting, IsKept, IsRatio};
ghost use Rattle.frac_core.specs.Fraction.{IsUnfitRatio, fraction_order, sum_num, sum_den};

use crate::divisor::gcd;
use std::cmp::Ordering;
use std::marker::Model;
use thiserror::Error;

/// A part is not below the bound in size.
#[derive(Clone, Copy, Debug, PartialEq, Eq, Error)]
#[error("a part of the fraction is too large")]
pub struct Unfit;

/// What the parts of a fitting number are below in size.
pub const PART_BOUND: u128 = 1 << 42;

/// A fraction in lowest terms, both of whose parts fit.
#[derive(Clone, Copy, Debug, PartialEq, Eq)]
pub struct Frac {
    num: i64,
    den: u64,
}

impl Model for Frac {
    ghost use Rattle.frac_core.specs.Fraction.{Fraction, IsKept};

    ghost Value = { Fraction };

    ghost view = { λ f. record { num = f.num; den = f.den } };

    ghost inverse = { λ v. record { num = v.num; den = v.den } };

    ghost invariant = { λ f. IsKept (record { num = f.num; den = f.den }) };
}

// The number of this size with its sign.
fn signed(is_negative: bool, size: u64) -> i64
    requires { size < PART_BOUND }
    ensures { result ≡ (if is_negative then neg_ℤ (pos size) else pos size) }
{
    if is_negative {
        -(size as i64)
    } else {
        size as i64
    }
}

// The product of two fitting numbers.
fn pair_product(x: i64, y: i64) -> i128
    requires x { IsFitting x }
    requires y { IsFitting y }
    ensures { result ≡ x *ℤ y }
{
    i128::from(x) * i128::from(y)
}

// The product of three fitting numbers, which fits 128 bits twice over.
fn product(x: i64, y: i64, z: i64) -> i128
    requires x { IsFitting x }
    requires y { IsFitting y }
    requires z { IsFitting z }
    ensures value { result ≡ x *ℤ (y *ℤ z) }
    ensures small { unsigned_abs result < 2 ^ 126 }
{
    i128::from(x) * (i128::from(y) * i128::from(z))
}

// The greatest common divisor, which a denominator of 1 tells at once.
fn divisor_of(size: u128, whole: u128) -> u128
    ensures { IsGcd size whole result }
{
    if whole == 1 { 1 } else { gcd(size, whole) }
}

// The quotient, which a divisor of 1 tells at once.
fn part(size: u128, divisor: u128) -> u128
    requires { 0 < divisor }
    ensures { result ≡ size / divisor }
{
    if divisor == 1 { size } else { size / divisor }
}

impl Frac {
    /// The number 0.
    pub fn zero() -> Frac
        ensures num { result.num ≡ pos 0 }
        ensures den { result.den ≡ 1 }
    {
        Frac { num: 0, den: 1 }
    }

    /// The fraction p over q in lowest terms, unless a part of them does not fit.
    pub fn of(p: i128, q: i128) -> Result<Frac, Unfit>
        requires { pos 0 <ℤ q }
        ensures value { IfOk result (λ f. IsRatio f p q) }
        ensures lowest { IfOk result IsLowest }
        ensures fits { IfOk result Fits }
        ensures unfit { OnErr result (IsUnfitRatio p q) }
    {
        let size = p.unsigned_abs();
        let whole = q.unsigned_abs();
        let divisor = divisor_of(size, whole);
        let num = part(size, divisor);
        let den = part(whole, divisor);
        if num >= PART_BOUND || den >= PART_BOUND {
            return Err(Unfit);
        }
        Ok(Frac {
            num: signed(p < 0, num as u64),
            den: den as u64,
        })
    }

    /// The numerator, which has the fraction's sign.
    pub fn num(&self) -> i64
        ensures value { result ≡ self.now.num }
        ensures fits { IsFitting result }
        ensures kept { IsKept self.now }
    {
        self.num
    }

    /// The denominator, which is above 0.
    pub fn den(&self) -> i64
        ensures value { result ≡ pos self.now.den }
        ensures fits { IsFitting result }
        ensures above { pos 0 <ℤ result }
        ensures kept { IsKept self.now }
    {
        self.den as i64
    }

    /// The order of the two values.
    pub fn compare(&self, other: &Frac) -> Ordering
        ensures { result ≡ fraction_order self.now other.now }
    {
        let left = pair_product(self.num(), other.den());
        let right = pair_product(other.num(), self.den());
        left.cmp(&right)
    }

    /// The fraction `a + (n/d)*t` in lowest terms, unless a part of them does not fit.
    pub fn mul_add(a: Frac, n: i64, d: i64, t: Frac) -> Result<Frac, Unfit>
        requires n { IsFitting n }
        requires d { IsFitting d }
        requires above { pos 0 <ℤ d }
        ensures value { IfOk result (λ f. IsRatio f (sum_num a n d t) (sum_den a d t)) }
        ensures lowest { IfOk result IsLowest }
        ensures fits { IfOk result Fits }
        ensures unfit { OnErr result (IsUnfitRatio (sum_num a n d t) (sum_den a d t)) }
    {
        let first = product(a.num(), d, t.den());
        let second = product(n, t.num(), a.den());
        Frac::of(first + second, product(a.den(), d, t.den()))
    }
}
