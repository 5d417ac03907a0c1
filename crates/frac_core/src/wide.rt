// A fraction for printing, whose parts need not fit.
ghost use Rattle.std.specs.Prelude.{◌≡◌, ◌<◌, ◌^◌, pos, neg_ℤ, ◌<ℤ◌, if◌then◌else◌};
ghost use Rattle.frac_core.specs.Fraction.{Fraction, IsLowest, IsRatio};

use crate::divisor::gcd;
use crate::frac::Frac;
use std::marker::Model;

/// A fraction in lowest terms with parts of up to 128 bits.
#[derive(Clone, Copy, Debug, PartialEq, Eq)]
pub struct Wide {
    num: i128,
    den: u128,
}

impl Model for Wide {
    ghost use Rattle.frac_core.specs.Fraction.{Fraction, IsLowest};

    ghost Value = { Fraction };

    ghost view = { λ f. record { num = f.num; den = f.den } };

    ghost inverse = { λ v. record { num = v.num; den = v.den } };

    ghost invariant = { λ f. IsLowest (record { num = f.num; den = f.den }) };
}

// The number of this size with its sign.
fn signed(is_negative: bool, size: u128) -> i128
    requires { size < 2 ^ 127 }
    ensures { result ≡ (if is_negative then neg_ℤ (pos size) else pos size) }
{
    if is_negative {
        -(size as i128)
    } else {
        size as i128
    }
}

impl Wide {
    /// The fraction p over q in lowest terms.
    pub fn of(p: i128, q: i128) -> Wide
        requires q { pos 0 <ℤ q }
        requires p { neg_ℤ (pos (2 ^ 127)) <ℤ p }
        ensures value { IsRatio result p q }
        ensures lowest { IsLowest result }
    {
        let size = p.unsigned_abs();
        let whole = q.unsigned_abs();
        let divisor = gcd(size, whole);
        Wide {
            num: signed(p < 0, size / divisor),
            den: whole / divisor,
        }
    }

    /// The numerator, which has the fraction's sign.
    pub(crate) fn num(&self) -> i128
        ensures { result ≡ self.now.num }
    {
        self.num
    }

    /// The denominator.
    pub(crate) fn den(&self) -> u128
        ensures { result ≡ self.now.den }
    {
        self.den
    }
}

impl From<Frac> for Wide {
    ghost from_gives = { λ f wide. wide ≡ f };

    fn from(f: Frac) -> Wide {
        Wide {
            num: i128::from(f.num()),
            den: f.den() as u128,
        }
    }
}
