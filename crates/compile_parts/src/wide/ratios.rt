// Sums of quotients in 128 bits.
ghost use Rattle.std.specs.Prelude.{◌≡◌, ◌<◌, ◌≤◌, ◌*◌, ◌^◌, ◌+ℤ◌, ◌*ℤ◌, ◌<ℤ◌, pos, false, IsTrue, IfSome};
ghost use Rattle.std.specs.Prelude.{IfNone, unsigned_abs};
ghost use Rattle.std.specs.Int.{IsGcd};
ghost use Rattle.frac_core.specs.Fraction.{Fraction, IsLowest, IsRatio};
ghost use Rattle.compile_parts.specs.Fractions.{HasSmallParts};
ghost use Rattle.compile_parts.specs.Quotients.{IsDivided, IsReduced};
ghost use Rattle.compile_parts.specs.declared.limits.TheConstants.{CONSTANT_LIMIT};
ghost use Rattle.compile_parts.specs.declared.wide.ratios.TheConstants.{PRODUCT_BOUND};

use crate::limits::CONSTANT_LIMIT;
use frac_core::{Frac, gcd, quotient};

/// The products of a sum are below this in size.
pub(crate) const PRODUCT_BOUND: u128 = 1 << 112;

// The greatest size below that.
const PRODUCT_MOST: u128 = PRODUCT_BOUND - 1;

// Two sizes below this have a product below that.
const SHORT: u128 = 1 << 56;

/// A number over another, which is above 0.
#[derive(Clone, Copy)]
pub struct Ratio {
    pub num: i128,
    pub den: i128,
}

// The greatest common divisor. A denominator of 1 needs no computation.
fn divisor_of(size: u128, whole: u128) -> u128
    ensures { IsGcd size whole result }
{
    if whole == 1 { 1 } else { gcd(size, whole) }
}

/// The ratio of two numbers, divided by their greatest common divisor.
pub(crate) fn reduced(p: i128, q: i128) -> Ratio
    requires { pos 0 <ℤ q }
    ensures { IsReduced p q result.num result.den }
{
    let divisor = divisor_of(p.unsigned_abs(), q.unsigned_abs()) as i128;
    Ratio {
        num: quotient(p, divisor),
        den: quotient(q, divisor),
    }
}

// Whether the product of two sizes is below the bound. Most need no division for this.
fn is_bounded(x: u128, y: u128) -> bool
    requires { 0 < y }
    ensures yes { IsTrue result → x * y < PRODUCT_BOUND }
    ensures no { result ≡ false → PRODUCT_BOUND ≤ x * y }
{
    if x < SHORT && y < SHORT {
        return true;
    }
    x <= PRODUCT_MOST / y
}

// The product, if it is below the bound in size.
fn bounded(x: i128, y: i128) -> Option<i128>
    requires { pos 0 <ℤ y }
    ensures value { IfSome result (λ z. z ≡ x *ℤ y) }
    ensures small { IfSome result (λ z. unsigned_abs z < PRODUCT_BOUND) }
    ensures large { IfNone result (PRODUCT_BOUND ≤ unsigned_abs x * unsigned_abs y) }
{
    if !is_bounded(x.unsigned_abs(), y.unsigned_abs()) {
        return None;
    }
    Some(x * y)
}

/// `a/b + x/y`, unless its parts in lowest terms aren't small.
pub(crate) fn common(a: i128, b: i128, x: i128, y: i128) -> Option<Ratio>
    requires a { unsigned_abs a < 2 ^ 70 }
    requires b { unsigned_abs b < 2 ^ 70 }
    requires b_above { pos 0 <ℤ b }
    requires y_above { pos 0 <ℤ y }
    requires apart { IsGcd (unsigned_abs x) (unsigned_abs y) 1 }
    ensures some { IfSome result (λ r. IsDivided (a *ℤ y +ℤ x *ℤ b) (b *ℤ y) r.num r.den) }
    ensures none { IfNone result ((f : Fraction) → IsLowest f → IsRatio f (a *ℤ y +ℤ x *ℤ b) (b *ℤ y)
        → unsigned_abs f.num < CONSTANT_LIMIT → f.den < CONSTANT_LIMIT → ⊥) }
{
    let shares = reduced(b, y);
    let left = bounded(a, shares.den)?;
    let right = bounded(x, shares.num)?;
    let den = bounded(b, shares.den)?;
    Some(Ratio {
        num: left + right,
        den,
    })
}

// Whether both parts are below the limit of constants in size.
fn is_small(constant: Frac) -> bool
    ensures yes { IsTrue result → HasSmallParts constant }
    ensures no { result ≡ false → unsigned_abs constant.num < CONSTANT_LIMIT → constant.den < CONSTANT_LIMIT
        → ⊥ }
{
    constant.num().unsigned_abs() < CONSTANT_LIMIT && constant.den().unsigned_abs() < CONSTANT_LIMIT
}

/// The ratio in lowest terms, if both parts are small.
pub fn small_of(r: Ratio) -> Option<Frac>
    requires { pos 0 <ℤ r.den }
    ensures value { IfSome result (λ f. IsRatio f r.num r.den) }
    ensures lowest { IfSome result IsLowest }
    ensures small { IfSome result HasSmallParts }
    ensures none { IfNone result ((f : Fraction) → IsLowest f → IsRatio f r.num r.den
        → unsigned_abs f.num < CONSTANT_LIMIT → f.den < CONSTANT_LIMIT → ⊥) }
{
    match Frac::of(r.num, r.den) {
        Ok(f) if is_small(f) => Some(f),
        Ok(_) => None,
        Err(_) => None,
    }
}
