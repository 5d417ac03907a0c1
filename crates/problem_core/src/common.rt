// The least common multiple, by which fractions come over one denominator.
ghost use Rattle.std.specs.Prelude.{ℕ, ◌*◌, ◌<◌, ◌^◌};
ghost use Rattle.std.specs.Int.{◌∣◌};

use frac_core::gcd;

/// The least common multiple.
pub fn least_common(x: u128, y: u128) -> u128
    requires x { 0 < x }
    requires y { 0 < y }
    requires room { x * y < 2 ^ 128 }
    ensures above { 0 < result }
    ensures x { x ∣ result }
    ensures y { y ∣ result }
    ensures least { (m : ℕ) → x ∣ m → y ∣ m → result ∣ m }
{
    x / gcd(x, y) * y
}
