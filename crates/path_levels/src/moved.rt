// A value that moves by a multiple of another value.
ghost use Rattle.std.specs.Prelude.{◌≡◌, ◌<◌, ◌≤◌, ◌^◌, ◌+ℤ◌, ◌*ℤ◌, ◌<ℤ◌, pos, unsigned_abs, IfOk, OnErr};
ghost use Rattle.frac_core.specs.declared.frac.TheConstants.{PART_BOUND};
ghost use Rattle.std.specs.Int.{IsGcd};
ghost use Rattle.frac_core.specs.Fraction.{IsKept, IsRatio, IsUnfitRatio, sum_den, sum_num};
ghost use Rattle.path_lines.specs.Numbers.{IsFactor};
ghost use Rattle.path_levels.specs.Exchanges.Moved.{IsLowestPart, joint_den, joint_num};
ghost use Rattle.path_levels.specs.declared.moved.TheConstants.{NUM_ROOM};

use frac_core::{Frac, PART_BOUND, Unfit, gcd, quotient};
use path_lines::Ratio;

// A fraction in lowest terms.
#[derive(Clone, Copy)]
struct Portion {
    num: i128,
    den: i128,
}

// The greatest numerator of a difference of two fitting fractions.
const NUM_ROOM: u128 = 2 * (PART_BOUND - 1) * (PART_BOUND - 1);

// The greatest common divisor of a number and one above 0.
fn common(number: i128, whole: i128) -> i128
    requires { pos 0 <ℤ whole }
    ensures above { pos 0 <ℤ result }
    ensures gcd { IsGcd (unsigned_abs number) (unsigned_abs whole) (unsigned_abs result) }
{
    gcd(number.unsigned_abs(), whole.unsigned_abs()) as i128
}

// The fraction in lowest terms.
fn lowest_part(num: i128, den: i128) -> Portion
    requires { pos 0 <ℤ den }
    ensures { IsLowestPart num den result.num result.den }
{
    let divisor = common(num, den);
    Portion {
        num: quotient(num, divisor),
        den: quotient(den, divisor),
    }
}

// The product with a fitting number.
fn product(k: i128, by: i64) -> i128
    requires { unsigned_abs (k *ℤ by) < 2 ^ 126 }
    ensures { result ≡ k *ℤ by }
{
    k * i128::from(by)
}

// The sum of two fractions, by their denominators divided so and by the second one's numerator.
fn summed(base: Frac, num: i128, rests: Portion) -> Result<Frac, Unfit>
    requires above { pos 0 <ℤ rests.den }
    requires den { unsigned_abs rests.den < PART_BOUND }
    requires share { unsigned_abs rests.num < PART_BOUND }
    requires num { unsigned_abs num ≤ NUM_ROOM }
    ensures value { IfOk result (λ f. IsRatio f (rests.den *ℤ base.num +ℤ num *ℤ rests.num)
        (rests.den *ℤ pos base.den)) }
    ensures kept { IfOk result IsKept }
    ensures unfit { OnErr result (IsUnfitRatio (rests.den *ℤ base.num +ℤ num *ℤ rests.num)
        (rests.den *ℤ pos base.den)) }
{
    let whole = product(rests.den, base.den());
    let left = product(rests.den, base.num());
    Frac::of(left + num * rests.num, whole)
}

// The sum of a fraction and of one in lowest terms, unless it does not fit.
fn joined(base: Frac, part: Portion) -> Result<Frac, Unfit>
    requires den { pos 0 <ℤ part.den }
    requires lowest { IsGcd (unsigned_abs part.num) (unsigned_abs part.den) 1 }
    ensures value { IfOk result (λ f. IsRatio f (joint_num base part.num part.den)
        (joint_den base part.den)) }
    ensures kept { IfOk result IsKept }
    ensures unfit { OnErr result (IsUnfitRatio (joint_num base part.num part.den) (joint_den base part.den)) }
{
    let rests = lowest_part(i128::from(base.den()), part.den);
    if rests.den.unsigned_abs() >= PART_BOUND {
        return Err(Unfit);
    }
    if part.num.unsigned_abs() > NUM_ROOM {
        return Err(Unfit);
    }
    summed(base, part.num, rests)
}

/// `base + ratio * value`, unless it does not fit.
pub fn moved_value(base: Frac, ratio: Ratio, value: Frac) -> Result<Frac, Unfit>
    requires times { IsFactor ratio.times }
    requires over { IsFactor ratio.over }
    requires above { pos 0 <ℤ ratio.over }
    ensures value { IfOk result (λ f. IsRatio f (sum_num base ratio.times ratio.over value)
        (sum_den base ratio.over value)) }
    ensures kept { IfOk result IsKept }
    ensures unfit { OnErr result (IsUnfitRatio (sum_num base ratio.times ratio.over value)
        (sum_den base ratio.over value)) }
{
    let num = product(ratio.times, value.num());
    let den = product(ratio.over, value.den());
    joined(base, lowest_part(num, den))
}
