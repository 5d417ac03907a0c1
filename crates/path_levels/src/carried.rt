// A level's row after an exchange, before it is divided.
ghost use Rattle.std.specs.Prelude.{◌≡◌, ◌<◌, ◌^◌, ◌*ℤ◌, ◌+ℤ◌, ◌<ℤ◌, pos, length, unsigned_abs};
ghost use Rattle.std.specs.Prelude.{All, IfOk};
ghost use Rattle.std.specs.Int.{◌∣◌};
ghost use Rattle.frac_core.specs.Fraction.{IsFitting};
ghost use Rattle.path_lines.specs.Numbers.{IsFactor, number_at as in_list};
ghost use Rattle.path_levels.specs.Outlines.{IsPriced, IsSizedOutline};
ghost use Rattle.path_levels.specs.Levels.{IsSizedLevel};
ghost use Rattle.path_levels.specs.Shares.{IsScaled, before_of, entering_of, stood_of};
ghost use Rattle.path_levels.specs.Exchanges.Carried.{AreSharing, IsCarriedBy, IsCommonOf};
ghost use Rattle.path_levels.specs.Exchanges.Pivots.{IsNextMultiple, IsSizedPivot, IsWideLevel};

use crate::outline::{LineFacts, Outline};
use crate::shares::stood_number;
use crate::sums::{LevelRow, LevelSum};
use frac_core::{OutOfMemory, gcd};
use path_lines::{Pivot, Wide, combined};
use std::alloc::Global;

// The entering line's number in the level's row before the exchange.
fn number_before(line: &LineFacts, pivot: &Pivot, row: LevelRow<'_>) -> i64
    requires line { IsPriced line.now }
    requires sum { IsScaled row.sum.now }
    requires enter { pivot.now.step.enter.at < length row.sum.now.by.items }
    requires fits { All IsFitting row.sum.now.by.items }
    ensures value { result ≡ before_of line.now pivot.now row.entry.place row.entry.sum.now }
    ensures small { unsigned_abs result < 2 ^ 52 }
{
    if pivot.is_turn {
        return stood_number(line, pivot.step.leave.side, row);
    }
    row.sum.by[pivot.step.enter.at]
}

/// The same less the line's count after the exchange.
pub fn entering_number(line: &LineFacts, pivot: &Pivot, row: LevelRow<'_>) -> i64
    requires line { IsPriced line.now }
    requires sum { IsScaled row.sum.now }
    requires enter { pivot.now.step.enter.at < length row.sum.now.by.items }
    requires fits { All IsFitting row.sum.now.by.items }
    ensures value { result ≡ entering_of line.now pivot.now row.entry.place row.entry.sum.now }
    ensures small { unsigned_abs result < 2 ^ 53 }
{
    let before = number_before(line, pivot, row);
    before - stood_number(line, pivot.step.enter.side, row)
}

// The greatest common divisor.
fn common_of(size: i64, n: i64) -> i64
    requires above { pos 0 <ℤ size }
    requires fits { IsFitting size }
    ensures { IsCommonOf size n result }
{
    gcd(
        u128::from(size.unsigned_abs()),
        u128::from(n.unsigned_abs()),
    ) as i64
}

// The exact quotient.
fn quotient(number: i64, divisor: i64) -> i64
    requires above { pos 0 <ℤ divisor }
    requires divides { unsigned_abs divisor ∣ unsigned_abs number }
    ensures { divisor *ℤ result ≡ number }
{
    number / divisor
}

/// The factors of a row and of a pivot with which the entering line cancels.
#[derive(Clone, Copy)]
pub struct Factors {
    pub row: i64,
    pub pivot: i64,
}

// The factors for a pivot of this size, if the entering line's number changes by n.
fn factors_of(size: i64, n: i64) -> Factors
    requires above { pos 0 <ℤ size }
    requires fits { IsFitting size }
    ensures { AreSharing size n result }
{
    let common = common_of(size, n);
    Factors {
        row: quotient(size, common),
        pivot: quotient(n, common),
    }
}

/// The product.
pub(crate) fn product(small: i64, other: i64) -> i128
    requires small { IsFitting small }
    requires other { unsigned_abs other < 2 ^ 53 }
    ensures value { result ≡ small *ℤ other }
    ensures size { unsigned_abs result < 2 ^ 95 }
    ensures factor { IsFitting other → IsFactor result }
{
    i128::from(small) * i128::from(other)
}

// The leaving line's number after the exchange.
fn leaving_number(line: &LineFacts, pivot: &Pivot, row: LevelRow<'_>, factors: Factors) -> i128
    requires line { IsPriced line.now }
    requires sum { IsScaled row.sum.now }
    requires leave { pivot.now.step.leave.at < length pivot.now.by.items }
    requires fits { All IsFitting pivot.now.by.items }
    requires row { IsFitting factors.row }
    requires pivot { unsigned_abs factors.pivot < 2 ^ 53 }
    ensures value { result ≡ factors.row *ℤ stood_of line.now pivot.now.step.leave.side row.entry.place
        row.entry.sum.now +ℤ in_list pivot.now.by.items pivot.now.step.leave.at *ℤ factors.pivot }
    ensures small { unsigned_abs result < 2 ^ 96 }
{
    let stood = stood_number(line, pivot.step.leave.side, row);
    let number = pivot.by[pivot.step.leave.at];
    product(factors.row, stood) + product(number, factors.pivot)
}

// The row's numbers and the pivot's, each times its factor, with this number at the leaving line.
fn put_together(
    alloc: Global,
    pivot: &Pivot,
    sum: &LevelSum,
    factors: Factors,
    leaving: i128,
) -> Result<Wide, OutOfMemory>
    requires pivot { IsSizedPivot (length sum.now.by.items) pivot.now }
    requires sum { IsSizedLevel (length sum.now.by.items) sum.now }
    requires above { pos 0 <ℤ factors.row }
    requires row { IsFitting factors.row }
    requires factor { unsigned_abs factors.pivot < 2 ^ 53 }
    requires leaving { unsigned_abs leaving < 2 ^ 96 }
    ensures sized { IfOk result (IsWideLevel (length sum.now.by.items) sum.now.unit) }
    ensures carried { IfOk result (IsCarriedBy pivot.now sum.now factors leaving) }
{
    let (row, factor) = (i128::from(factors.row), i128::from(factors.pivot));
    let mut by = combined(alloc, row, &sum.by, factor, &pivot.by)?;
    by[pivot.step.leave.at] = leaving;
    by[pivot.step.enter.at] = 0;
    let own = product(factors.row, sum.own);
    Ok(Wide { own, by })
}

/// The row of the level at a place after an exchange, before it is divided.
pub fn next_level_numbers(
    alloc: Global,
    outline: &Outline,
    pivot: &Pivot,
    row: LevelRow<'_>,
) -> Result<Wide, OutOfMemory>
    requires outline { IsSizedOutline outline.now }
    requires pivot { IsSizedPivot (length outline.now.lines.items) pivot.now }
    requires place { row.place < length outline.now.levels.items }
    requires sum { IsSizedLevel (length outline.now.lines.items) row.sum.now }
    ensures sized { IfOk result (IsWideLevel (length outline.now.lines.items) row.entry.sum.now.unit) }
    ensures next { IfOk result (IsNextMultiple outline.now pivot.now row.entry.place row.entry.sum.now) }
{
    let n = entering_number(&outline.lines[pivot.step.enter.at], pivot, row);
    let factors = factors_of(pivot.size, n);
    let leaves = &outline.lines[pivot.step.leave.at];
    let leaving = leaving_number(leaves, pivot, row, factors);
    put_together(alloc, pivot, row.sum, factors, leaving)
}
