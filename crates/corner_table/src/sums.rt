// Products, and sums of fractions.
ghost use Rattle.std.specs.Prelude.{◌≡◌, ◌<ℤ◌, ◌*ℤ◌, ◌+ℤ◌, pos, true, IfOk, OnErr};
ghost use Rattle.frac_core.specs.Fraction.{Fits, IsFitting, IsLowest, IsRatio, IsUnfitRatio, sum_den};
ghost use Rattle.frac_core.specs.Fraction.{sum_num};
ghost use Rattle.row_core.specs.Combinations.{IsFactor};

use frac_core::{Frac, Unfit};

/// The product, which takes more room.
pub fn product(a: i64, b: i64) -> i128
    ensures value { result ≡ a *ℤ b }
    ensures factor { IsFitting a → IsFitting b → IsFactor result }
{
    i128::from(a) * i128::from(b)
}

// Whether all are whole.
fn are_whole(a: Frac, d: i64, t: Frac) -> bool
    ensures { result ≡ true → (a.den ≡ 1) × ((d ≡ pos 1) × (t.den ≡ 1)) }
{
    a.den() == 1 && d == 1 && t.den() == 1
}

// The numerator of the sum of whole numbers.
fn whole_sum(a: Frac, n: i64, t: Frac) -> i128
    requires { IsFitting n }
    ensures { result ≡ a.num +ℤ n *ℤ t.num }
{
    i128::from(a.num()) + product(n, t.num())
}

/// The fraction `a + (n/d)*t` in lowest terms, unless a part of it does not fit. Whole numbers have no common
/// divisor to look for.
pub fn sum(a: Frac, n: i64, d: i64, t: Frac) -> Result<Frac, Unfit>
    requires n { IsFitting n }
    requires d { IsFitting d }
    requires above { pos 0 <ℤ d }
    ensures value { IfOk result (λ f. IsRatio f (sum_num a n d t) (sum_den a d t)) }
    ensures lowest { IfOk result IsLowest }
    ensures fits { IfOk result Fits }
    ensures unfit { OnErr result (IsUnfitRatio (sum_num a n d t) (sum_den a d t)) }
{
    if are_whole(a, d, t) {
        return Frac::of(whole_sum(a, n, t), 1);
    }
    Frac::mul_add(a, n, d, t)
}
