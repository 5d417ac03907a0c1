// What each line adds to a conflict: the constants of its rows, each times its row's multiplier. Together the
// lines add up to the gap, a number above 0 that would have to be 0 or less.
ghost use Rattle.std.specs.Prelude.{IsTrue};
ghost use Rattle.frac_core.specs.Fraction.{IsFitting};

use crate::rows::Source;
use frac_core::{Frac, OutOfMemory, PART_BOUND, Wide, gcd};
use problem_core::Row;
use tell_mend::Reader;

/// The share of a line.
#[derive(Clone, Copy)]
pub(crate) struct Share {
    pub source: Source,
    /// The multiplier of its only row, or the greatest common divisor of its rows' multipliers.
    pub times: i64,
    pub count: usize,
    /// The number of its first row.
    pub id: u32,
    sum: Frac,
    // Whether no number grew too large.
    is_known: bool,
}

// The greatest common divisor.
fn common(a: i64, b: i64) -> i64 {
    let common = gcd(u128::from(a.unsigned_abs()), u128::from(b.unsigned_abs()));
    i64::try_from(common).unwrap_or(1)
}

// Whether the number fits.
fn is_fitting(times: i64) -> bool
    ensures { IsTrue result → IsFitting times }
{
    (times.unsigned_abs() as u128) < PART_BOUND
}

// The sum with so many times the number, if it fits.
fn more(sum: Frac, times: i64, number: Frac) -> Option<Frac> {
    if !is_fitting(times) {
        return None;
    }
    match Frac::mul_add(sum, times, 1, number) {
        Ok(all) => Some(all),
        Err(_) => None,
    }
}

// A number divided by the size of a multiplier; 0 if that doesn't fit.
fn part(number: Frac, times: i64) -> Frac {
    let by = times.saturating_abs();
    if by <= 0 || !is_fitting(by) {
        return Frac::zero();
    }
    match Frac::mul_add(Frac::zero(), 1, by, number) {
        Ok(part) => part,
        Err(_) => Frac::zero(),
    }
}

impl Share {
    // Adds a row of this constant.
    fn add(&mut self, times: i64, constant: Frac) {
        self.times = common(self.times, times);
        self.count = self.count.saturating_add(1);
        match more(self.sum, times, constant) {
            Some(sum) => self.sum = sum,
            None => self.is_known = false,
        }
    }
}

// The place of a line's share; the list's length if the line has none.
fn place_of(shares: &[Share], number: usize) -> usize {
    for (place, share) in shares.iter().enumerate() {
        if share.source.number == number {
            return place;
        }
    }
    shares.len()
}

// A share of one row.
fn share_of(source: Source, times: i64, row: &Row) -> Share {
    let sum = more(Frac::zero(), times, row.constant());
    let is_known = sum.is_some();
    Share {
        source,
        times,
        count: 1,
        id: row.id(),
        sum: sum.unwrap_or(Frac::zero()),
        is_known,
    }
}

/// Takes one more row.
pub(crate) fn take_row(
    shares: &mut Vec<Share>,
    source: Source,
    times: i64,
    row: &Row,
) -> Result<(), OutOfMemory> {
    let place = place_of(shares, source.number);
    if place < shares.len() {
        shares[place].add(times, row.constant());
    } else {
        shares.push(share_of(source, times, row))?;
    }
    Ok(())
}

/// The gap; 0 if a number grew too large.
pub(crate) fn gap_of(shares: &[Share]) -> Frac {
    let mut gap = Frac::zero();
    for share in shares {
        match more(gap, 1, share.sum) {
            Some(sum) if share.is_known => gap = sum,
            _ => return Frac::zero(),
        }
    }
    gap
}

// Appends the size of a number.
fn put_size(reader: &mut Reader, out: &mut Vec<u8>, number: Frac) {
    let sign = if number.num() < 0 { -1 } else { 1 };
    let size = more(Frac::zero(), sign, number).unwrap_or(number);
    reader.put_frac(out, Wide::from(size));
}

/// Appends what a line adds, for each time that it counts, and how far that would have to change. Nothing is
/// said if the gap isn't known.
pub(crate) fn put_share(reader: &mut Reader, out: &mut Vec<u8>, share: &Share, gap: Frac) {
    let sum = part(share.sum, share.times);
    let off = part(gap, share.times);
    if sum.num() == 0 || off.num() == 0 {
        return;
    }
    let needs = sum.num() > 0;
    reader.put(
        out,
        if share.source.is_own {
            b"this line "
        } else {
            b", "
        },
    );
    reader.put(out, if needs { b"needs " } else { b"gives " });
    put_size(reader, out, sum);
    reader.put(out, b": ");
    put_size(reader, out, off);
    reader.put(out, if needs { b" too much" } else { b" short" });
}
