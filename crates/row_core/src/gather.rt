// The numbers of a sum of 64 bits in one pass, with their divisor.
ghost use Rattle.std.specs.Prelude.{◌≡◌, ℕ, ◌<◌, ◌≤◌, unsigned_abs, IfOk, IsTrue};
ghost use Prim.Native.Nat.{◌∣◌};
ghost use Rattle.std.specs.Int.{IsGcd};
ghost use Rattle.frac_core.specs.declared.frac.TheConstants.{PART_BOUND};
ghost use Rattle.row_core.specs.Walks.{HasNarrowProducts, HasRisingRows, DividesWhole, IsPut, IsWritten};
ghost use Rattle.row_core.specs.Walks.{whole};

use crate::entry::{Col, Entry};
use crate::walk::{Sum, read_narrow, start};
use frac_core::{OutOfMemory, PART_BOUND, gcd};
use std::alloc::Global;

/// The greatest common divisor of numbers, which is 0 where all are 0, and a size that none is above.
#[derive(Clone, Copy, Debug, PartialEq, Eq)]
pub(crate) struct Tally {
    pub divisor: u64,
    pub most: u64,
}

/// A sum's numbers as they are, and what is known of them.
#[derive(Debug, Drop)]
pub(crate) struct Numbers {
    pub entries: Vec<Entry>,
    pub tally: Tally,
}

// The common divisor with one number more.
fn joined(divisor: u64, size: u64) -> u64
    ensures { IsGcd size divisor result }
{
    if divisor == 1 {
        return 1;
    }
    gcd(u128::from(size), u128::from(divisor)) as u64
}

// The larger one.
fn larger(a: u64, b: u64) -> u64
    ensures left { a ≤ result }
    ensures right { b ≤ result }
{
    if a < b { b } else { a }
}

// The same with one number more.
fn tallied(tally: Tally, by: i64) -> Tally
    ensures divisor { IsGcd (unsigned_abs by) tally.divisor result.divisor }
    ensures before { tally.most ≤ result.most }
    ensures here { unsigned_abs by ≤ result.most }
{
    let size = by.unsigned_abs();
    Tally {
        divisor: joined(tally.divisor, size),
        most: larger(tally.most, size),
    }
}

// Appends the number unless it is 0.
fn put(out: &mut Vec<Entry>, col: u64, by: i64) -> Result<(), OutOfMemory>
    ensures { IfOk result (λ _. IsPut col by out.old.items out.new.items) }
{
    if by != 0 {
        out.push(Entry { col: Col(col), by })?;
    }
    Ok(())
}

/// The sum's numbers in one pass.
pub(crate) fn gathered(alloc: Global, sum: &Sum<'_>) -> Result<Numbers, OutOfMemory>
    requires rising { HasRisingRows sum.now }
    requires products { HasNarrowProducts sum.now }
    ensures divides { IfOk result (λ x. DividesWhole x.tally.divisor (whole sum.now)) }
    ensures greatest { IfOk result (λ x. (d : ℕ) → DividesWhole d (whole sum.now) → d ∣ x.tally.divisor) }
    ensures written { IfOk result
        (λ x. x.tally.most < PART_BOUND → IsWritten x.entries.items (whole sum.now)) }
{
    let mut entries = Vec::with_capacity(alloc, sum.r.len() + sum.p.len())?;
    let mut tally = Tally {
        divisor: 0,
        most: 0,
    };
    let mut at = start(sum);
    while let Some(read) = read_narrow(sum, at) {
        tally = tallied(tally, read.by as i64);
        put(&mut entries, read.col, read.by as i64)?;
        at = read.next;
    }
    Ok(Numbers { entries, tally })
}

impl Tally {
    /// Whether the numbers have no common divisor but 1, and all of them fit.
    pub fn is_lowest(&self) -> bool
        ensures divisor { IsTrue result → self.now.divisor ≤ 1 }
        ensures fits { IsTrue result → self.now.most < PART_BOUND }
    {
        self.divisor <= 1 && u128::from(self.most) < PART_BOUND
    }
}
