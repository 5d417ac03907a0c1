// A level's numbers without the factor that they share.
ghost use Rattle.std.specs.Prelude.{◌≡◌, ℕ, ◌<◌, ℤ, pos, ◌*ℤ◌, ◌<ℤ◌, unsigned_abs, All, IfOk};
ghost use Rattle.std.specs.Int.{◌∣◌, IsGcd};
ghost use Rattle.frac_core.specs.Fraction.{IsFitting};
ghost use Rattle.certificates.specs.OwnLevels.{multiplied};

use cert_core::By;
use frac_core::{OutOfMemory, gcd};
use std::alloc::Global;

// The greatest factor that a number shares with a factor.
fn shared(factor: u128, times: i64) -> u128
    ensures { IsGcd factor (unsigned_abs times) result }
{
    gcd(factor, u128::from(times.unsigned_abs()))
}

/// The greatest factor that the scale and all multipliers share.
pub(crate) fn common_factor(scale: i64, by: &[By]) -> i64
    requires above { pos 0 <ℤ scale }
    requires fits { IsFitting scale }
    requires by { All (λ b. IsFitting b.times) by.now }
    ensures above { pos 0 <ℤ result }
    ensures scale { unsigned_abs result ∣ unsigned_abs scale }
    ensures by { All (λ b. unsigned_abs result ∣ unsigned_abs b.times) by.now }
    ensures greatest { (k : ℕ) → k ∣ unsigned_abs scale → All (λ b. k ∣ unsigned_abs b.times) by.now
        → k ∣ unsigned_abs result }
    ensures fits { IsFitting result }
{
    let mut factor = u128::from(scale.unsigned_abs());
    for b in by {
        factor = shared(factor, b.times);
    }
    factor as i64
}

/// A number divided by a factor of it.
pub(crate) fn share(times: i64, factor: i64) -> i64
    requires above { pos 0 <ℤ factor }
    requires times { IsFitting times }
    requires factor { IsFitting factor }
    requires divides { unsigned_abs factor ∣ unsigned_abs times }
    ensures value { factor *ℤ result ≡ times }
    ensures fits { IsFitting result }
{
    times / factor
}

/// The multipliers, each divided by a factor of all.
pub(crate) fn shares(alloc: Global, by: &[By], factor: i64) -> Result<Vec<By>, OutOfMemory>
    requires above { pos 0 <ℤ factor }
    requires fits { IsFitting factor }
    requires by { All (λ b. IsFitting b.times) by.now }
    requires divides { All (λ b. unsigned_abs factor ∣ unsigned_abs b.times) by.now }
    ensures value { IfOk result (λ out. multiplied (unsigned_abs factor) out.items ≡ by.now) }
    ensures fits { IfOk result (λ out. All (λ b. IsFitting b.times) out.items) }
{
    let mut out = Vec::new(alloc);
    for b in by {
        out.push(By {
            row: b.row,
            times: share(b.times, factor),
        })?;
    }
    Ok(out)
}
