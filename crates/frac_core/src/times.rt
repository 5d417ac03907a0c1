// The product of two numbers, and the number with the other sign.
ghost use Rattle.std.specs.Prelude.{◌≡◌, ◌^◌, ◌≤◌, ◌*ℤ◌, neg_ℤ, unsigned_abs};
ghost use Rattle.frac_core.specs.Fraction.{IsFitting};

/// The product of two numbers, in 128 bits.
pub fn product(x: i64, y: i64) -> i128
    ensures value { result ≡ x *ℤ y }
    ensures small { unsigned_abs result ≤ 2 ^ 126 }
{
    i128::from(x) * i128::from(y)
}

/// The number with the other sign, which fits as this one does.
pub fn opposite(z: i64) -> i64
    requires { IsFitting z }
    ensures value { result ≡ neg_ℤ z }
    ensures fits { IsFitting result }
{
    -z
}
