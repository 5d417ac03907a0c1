// Products and sums of 128 bits that cannot overflow when a row is made.
pub(crate) mod ratios;

ghost use Rattle.std.specs.Prelude.{◌≡◌, ◌^◌, ◌<◌, ◌≤◌, ◌+◌, ◌*◌, ◌+ℤ◌, ◌*ℤ◌, unsigned_abs};

/// The product of two numbers below 2^44 in size, which is below 2^88 in size.
pub fn product(x: i64, y: i64) -> i128
    requires x { unsigned_abs x < 2 ^ 44 }
    requires y { unsigned_abs y < 2 ^ 44 }
    ensures value { result ≡ x *ℤ y }
    ensures small { unsigned_abs result < 2 ^ 88 }
{
    i128::from(x) * i128::from(y)
}

/// The sum of two numbers below 2^125 in size.
pub fn total(x: i128, y: i128) -> i128
    requires x { unsigned_abs x < 2 ^ 125 }
    requires y { unsigned_abs y < 2 ^ 125 }
    ensures value { result ≡ x +ℤ y }
    ensures size { unsigned_abs result ≤ unsigned_abs x + unsigned_abs y }
{
    x + y
}
