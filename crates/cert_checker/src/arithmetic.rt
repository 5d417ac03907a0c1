// Products and sums of 128 bits that cannot overflow where claims are checked.
ghost use Rattle.std.specs.Prelude.{◌≡◌, ◌^◌, ◌<◌, ◌≤◌, ◌+◌, ◌+ℤ◌, ◌-ℤ◌, ◌*ℤ◌, unsigned_abs};
ghost use Rattle.frac_core.specs.Fraction.{IsFitting};

/// The product of two numbers that fit: below 2^84 in size.
pub(crate) fn product(x: i64, y: i64) -> i128
    requires x { IsFitting x }
    requires y { IsFitting y }
    ensures value { result ≡ x *ℤ y }
    ensures small { unsigned_abs result < 2 ^ 84 }
{
    i128::from(x) * i128::from(y)
}

/// The sum of two numbers below 2^126 in size.
pub(crate) fn total(x: i128, y: i128) -> i128
    requires x { unsigned_abs x < 2 ^ 126 }
    requires y { unsigned_abs y < 2 ^ 126 }
    ensures value { result ≡ x +ℤ y }
    ensures small { unsigned_abs result ≤ unsigned_abs x + unsigned_abs y }
{
    x + y
}

/// The first number less the second, both below 2^126 in size.
pub(crate) fn difference(x: i128, y: i128) -> i128
    requires x { unsigned_abs x < 2 ^ 126 }
    requires y { unsigned_abs y < 2 ^ 126 }
    ensures { result ≡ x -ℤ y }
{
    x - y
}
