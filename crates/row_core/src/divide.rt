// The division of a sum's numbers by their greatest common divisor.
ghost use Rattle.std.specs.Prelude.{◌≡◌, ℕ, ℤ, ◌*◌, ◌<◌, ◌^◌, ◌*ℤ◌, ◌<ℤ◌, pos, unsigned_abs, IfOk};
ghost use Rattle.std.specs.Prelude.{IfErr, IfSome, IfNone};
ghost use Prim.Native.Nat.{◌∣◌};
ghost use Rattle.frac_core.specs.Fraction.{IsFitting};
ghost use Rattle.row_core.specs.Rows.{IsKeptRow, IsReduced, IsUnfit};
ghost use Rattle.row_core.specs.Walks.{CanBeAdded, DividesWhole, IsDivisor, IsPushed};
ghost use Rattle.row_core.specs.Walks.{IsTooLarge, whole};
ghost use Rattle.frac_core.specs.Stops.{IsRefused};

use crate::entry::{Col, Entry, RowStop};
use crate::walk::{Sum, read_wide, start};
use frac_core::{PART_BOUND, Stop, Unfit, gcd, quotient};
use std::alloc::Global;

// The greatest common divisor of the numbers, which is 0 where all are 0.
fn common_divisor(sum: &Sum<'_>) -> u128
    requires { CanBeAdded sum.now }
    ensures divides { DividesWhole result (whole sum.now) }
    ensures greatest { (d : ℕ) → DividesWhole d (whole sum.now) → d ∣ result }
    ensures small { result < 2 ^ 127 }
{
    let mut divisor = 0;
    let mut at = start(sum);
    while let Some(read) = read_wide(sum, at) {
        divisor = gcd(read.by.unsigned_abs(), divisor);
        if divisor == 1 {
            return 1;
        }
        at = read.next;
    }
    divisor
}

/// The number that each number of the sum is to be divided by.
pub(crate) fn divisor_of(sum: &Sum<'_>) -> i128
    requires { CanBeAdded sum.now }
    ensures { IsDivisor result (whole sum.now) }
{
    let divisor = common_divisor(sum);
    if divisor == 0 { 1 } else { divisor as i128 }
}

// The quotient, where it fits.
fn fitting_quotient(by: i128, divisor: i128) -> Option<i64>
    requires above { pos 0 <ℤ divisor }
    requires divides { unsigned_abs divisor ∣ unsigned_abs by }
    ensures same { IfSome result (λ q. divisor *ℤ q ≡ by) }
    ensures fits { IfSome result (λ q. IsFitting q) }
    ensures unfit { IfNone result (IsTooLarge divisor by) }
{
    let q = quotient(by, divisor);
    if q.unsigned_abs() >= PART_BOUND {
        return None;
    }
    Some(q as i64)
}

// Appends the quotient unless it is 0.
fn keep(out: &mut Vec<Entry>, col: u64, by: i128, divisor: i128) -> Result<(), RowStop>
    requires above { pos 0 <ℤ divisor }
    requires divides { unsigned_abs divisor ∣ unsigned_abs by }
    ensures pushed { IfOk result (λ _. IsPushed divisor col by out.old.items out.new.items) }
    ensures unfit { IfErr result (λ stop. IsRefused stop → IsTooLarge divisor by) }
{
    if by == 0 {
        return Ok(());
    }
    let Some(by) = fitting_quotient(by, divisor) else {
        return Err(Stop::Refused(Unfit));
    };
    out.push(Entry { col: Col(col), by })?;
    Ok(())
}

/// The sum's numbers divided by their divisor, unless a quotient does not fit.
pub(crate) fn divided(alloc: Global, sum: &Sum<'_>, divisor: i128) -> Result<Vec<Entry>, RowStop>
    requires sum { CanBeAdded sum.now }
    requires divisor { IsDivisor divisor (whole sum.now) }
    ensures value { IfOk result (λ out. IsReduced out.items (whole sum.now)) }
    ensures kept { IfOk result (λ out. IsKeptRow out.items) }
    ensures unfit { IfErr result (λ stop. IsRefused stop → IsUnfit (whole sum.now)) }
{
    let mut out = Vec::with_capacity(alloc, sum.r.len() + sum.p.len())?;
    let mut at = start(sum);
    while let Some(read) = read_wide(sum, at) {
        keep(&mut out, read.col, read.by, divisor)?;
        at = read.next;
    }
    Ok(out)
}
