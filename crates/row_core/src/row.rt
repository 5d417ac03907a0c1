// Rows in lowest terms.
ghost use Rattle.std.specs.Prelude.{◌≡◌, ℕ, List, IfOk, IfErr, IfSome, IfNone, IsTrue, ◌<◌, ◌≢◌, pos};
ghost use Rattle.std.specs.Prelude.{neg_ℤ, [], ◌∷◌, length, All};
ghost use Rattle.std.specs.List.{HoldsAt};
ghost use Rattle.frac_core.specs.Fraction.{IsFitting};
ghost use Rattle.row_core.specs.Rows.{IsRising, AllFit, IsKeptRow, IsReduced, IsUnfit, coefficient};
ghost use Rattle.row_core.specs.Rows.{combination};
ghost use Rattle.row_core.specs.Combinations.{IsFactor, combination_but};
ghost use Rattle.row_core.specs.Renames.{AreKeptApart, renamed};
ghost use Rattle.row_core.specs.Walks.{CanBeAdded, HasNarrowProducts, HasSmallProducts};
ghost use Rattle.row_core.specs.Walks.{IsNarrowSum, whole};
ghost use Rattle.frac_core.specs.Stops.{IsRefused};

use crate::divide::{divided, divisor_of};
use crate::entry::{Col, Entry, Factors, Patch, RowStop};
use crate::gather::{Tally, gathered};
use crate::walk::{NARROW_FACTOR, NARROW_PRODUCT, Sum, patched, plain};
use frac_core::OutOfMemory;
use std::alloc::Global;
use std::marker::Model;

/// A row `sum by*col = 0`: its columns rise, its numbers are not 0, fit and have no common divisor.
#[derive(Debug, Drop)]
pub struct IntRow {
    entries: Vec<Entry>,
}

impl Model for IntRow {
    ghost use Rattle.std.specs.Prelude.{List};
    ghost use Rattle.row_core.specs.Rows.{Term, IsKeptRow};

    ghost Value = { List Term };

    ghost view = { λ row. row.entries.items };

    ghost invariant = { λ row. IsKeptRow row.entries.items };
}

// The row in lowest terms with the coefficients of the sum.
fn lowest(alloc: Global, sum: &Sum<'_>) -> Result<IntRow, RowStop>
    requires { CanBeAdded sum.now }
    ensures value { IfOk result (λ row. IsReduced row (whole sum.now)) }
    ensures kept { IfOk result IsKeptRow }
    ensures unfit { IfErr result (λ stop. IsRefused stop → IsUnfit (whole sum.now)) }
{
    let divisor = divisor_of(sum);
    let entries = divided(alloc, sum, divisor)?;
    Ok(IntRow { entries })
}

// What a sum's numbers are to be divided by.
fn divisor_in(tally: Tally) -> i128
    ensures some { 0 < tally.divisor → result ≡ pos tally.divisor }
    ensures none { tally.divisor ≡ 0 → result ≡ pos 1 }
{
    if tally.divisor == 0 {
        1
    } else {
        i128::from(tally.divisor)
    }
}

// The row in lowest terms with the coefficients of a sum of 64 bits, which it writes in one pass and divides
// only where it must.
fn quick(alloc: Global, sum: &Sum<'_>) -> Result<IntRow, RowStop>
    requires sum { CanBeAdded sum.now }
    requires narrow { HasNarrowProducts sum.now }
    ensures value { IfOk result (λ row. IsReduced row (whole sum.now)) }
    ensures kept { IfOk result IsKeptRow }
    ensures unfit { IfErr result (λ stop. IsRefused stop → IsUnfit (whole sum.now)) }
{
    let made = gathered(alloc, sum)?;
    if made.tally.is_lowest() {
        return Ok(IntRow {
            entries: made.entries,
        });
    }
    let entries = divided(alloc, sum, divisor_in(made.tally))?;
    Ok(IntRow { entries })
}

// Whether all numbers of the sum have 64 bits.
fn is_narrow(sum: &Sum<'_>) -> bool
    ensures { IsTrue result → IsNarrowSum sum.now }
{
    sum.k.unsigned_abs() < NARROW_FACTOR
        && sum.n.unsigned_abs() < NARROW_FACTOR
        && sum.extra.unsigned_abs() < NARROW_PRODUCT
}

// The row in lowest terms with the coefficients of the sum, of rows that are in lowest terms.
fn combined(alloc: Global, sum: &Sum<'_>) -> Result<IntRow, RowStop>
    requires r { IsKeptRow sum.now.r.now }
    requires p { IsKeptRow sum.now.p.now }
    requires products { HasSmallProducts sum.now }
    ensures value { IfOk result (λ row. IsReduced row (whole sum.now)) }
    ensures kept { IfOk result IsKeptRow }
    ensures unfit { IfErr result (λ stop. IsRefused stop → IsUnfit (whole sum.now)) }
{
    if is_narrow(sum) {
        quick(alloc, sum)
    } else {
        lowest(alloc, sum)
    }
}

// Of so many entries at most the column is sought one by one.
const FEW: usize = 8;

// The place of the column, sought by halves.
fn place_by_halves(entries: &[Entry], col: Col) -> Option<usize>
    requires { IsRising entries.now }
    ensures within { IfSome result (λ i. i < length entries.now) }
    ensures found { IfSome result (HoldsAt (λ t. t.col ≡ col.0) entries.now) }
    ensures absent { IfNone result (All (λ t. t.col ≢ col.0) entries.now) }
{
    entries.binary_search_by_key(&col.0, |e| e.col.0).ok()
}

// The place of the column, sought one by one.
fn place_in_turn(entries: &[Entry], col: Col) -> Option<usize>
    ensures within { IfSome result (λ i. i < length entries.now) }
    ensures found { IfSome result (HoldsAt (λ t. t.col ≡ col.0) entries.now) }
    ensures absent { IfNone result (All (λ t. t.col ≢ col.0) entries.now) }
{
    for i in 0..entries.len() {
        let e = entries[i];
        if e.col.0 == col.0 {
            return Some(i);
        }
    }
    None
}

// The place of the column.
fn place_of(entries: &[Entry], col: Col) -> Option<usize>
    requires { IsRising entries.now }
    ensures within { IfSome result (λ i. i < length entries.now) }
    ensures found { IfSome result (HoldsAt (λ t. t.col ≡ col.0) entries.now) }
    ensures absent { IfNone result (All (λ t. t.col ≢ col.0) entries.now) }
{
    if entries.len() <= FEW {
        place_in_turn(entries, col)
    } else {
        place_by_halves(entries, col)
    }
}

// The number at the column, or 0.
fn number_at(entries: &[Entry], col: Col) -> i64
    requires rising { IsRising entries.now }
    requires fits { AllFit entries.now }
    ensures value { result ≡ coefficient col.0 entries.now }
    ensures fits { IsFitting result }
{
    let Some(place) = place_of(entries, col) else {
        return 0;
    };
    let e = entries[place];
    e.by
}

impl IntRow {
    /// The row without entries, whose coefficients are all 0.
    pub fn empty(alloc: Global) -> IntRow
        ensures { result ≡ [] }
    {
        IntRow {
            entries: Vec::new(alloc),
        }
    }

    /// The row of the number 1 at the column.
    pub fn unit(alloc: Global, col: Col) -> Result<IntRow, OutOfMemory>
        ensures { IfOk result (λ row. row ≡ (record { col = col.0; by = pos 1 }) ∷ []) }
    {
        let mut entries = Vec::new(alloc);
        entries.push(Entry { col, by: 1 })?;
        Ok(IntRow { entries })
    }

    /// The row of these entries in lowest terms, without those that are 0, unless a part of it does not fit.
    pub fn of(alloc: Global, entries: &[Entry]) -> Result<IntRow, RowStop>
        requires { IsRising entries.now }
        ensures value { IfOk result (λ row. IsReduced row (λ c. coefficient c entries.now)) }
        ensures kept { IfOk result IsKeptRow }
        ensures unfit { IfErr result (λ stop. IsRefused stop → IsUnfit (λ c. coefficient c entries.now)) }
    {
        lowest(alloc, &plain(entries, &[], Factors { k: 1, n: 0 }))
    }

    /// The row with other columns in the places of its own, which rise as they did.
    pub fn renamed(&self, alloc: Global, places: &[u32]) -> Result<IntRow, OutOfMemory>
        requires { AreKeptApart places.now self.now }
        ensures value { IfOk result (λ row. row ≡ renamed places.now self.now) }
        ensures kept { IfOk result IsKeptRow }
    {
        let mut entries = Vec::with_capacity(alloc, self.entries.len())?;
        for e in self.entries.as_slice() {
            let col = Col(u64::from(places[e.col.0 as usize]));
            entries.push(Entry { col, by: e.by })?;
        }
        Ok(IntRow { entries })
    }

    /// The number at a column, which is 0 where the row has none.
    pub fn entry(&self, col: Col) -> i64
        ensures value { result ≡ coefficient col.0 self.now }
        ensures fits { IsFitting result }
        ensures kept { IsKeptRow self.now }
    {
        number_at(&self.entries, col)
    }

    /// The entries by rising columns.
    pub fn entries(&self) -> &[Entry]
        ensures value { result.now ≡ self.now }
        ensures kept { IsKeptRow self.now }
    {
        &self.entries
    }

    /// The row of the opposite numbers.
    pub fn negated(self) -> IntRow
        ensures value { (c : ℕ) → coefficient c result ≡ neg_ℤ (coefficient c self) }
        ensures kept { IsKeptRow result }
    {
        let mut entries = self.entries;
        for i in 0..entries.len() {
            let e = entries[i];
            entries[i] = Entry {
                col: e.col,
                by: -e.by,
            };
        }
        IntRow { entries }
    }

    /// An equal row.
    pub fn copy(&self) -> Result<IntRow, OutOfMemory>
        ensures { IfOk result (λ row. row ≡ self.now) }
    {
        let entries = Vec::from_slice(*self.entries.allocator(), &self.entries)?;
        Ok(IntRow { entries })
    }
}

/// The row `k*r + n*p` in lowest terms, unless a part of it does not fit.
pub fn combine(alloc: Global, r: &IntRow, p: &IntRow, k: i64, n: i64) -> Result<IntRow, RowStop>
    requires k { IsFitting k }
    requires n { IsFitting n }
    ensures value { IfOk result (λ row. IsReduced row (combination k r.now n p.now)) }
    ensures kept { IfOk result IsKeptRow }
    ensures unfit { IfErr result (λ stop. IsRefused stop → IsUnfit (combination k r.now n p.now)) }
{
    combine_wide(alloc, r, p, i128::from(k), i128::from(n))
}

/// The same for factors that need not fit.
pub fn combine_wide(
    alloc: Global,
    r: &IntRow,
    p: &IntRow,
    k: i128,
    n: i128,
) -> Result<IntRow, RowStop>
    requires k { IsFactor k }
    requires n { IsFactor n }
    ensures value { IfOk result (λ row. IsReduced row (combination k r.now n p.now)) }
    ensures kept { IfOk result IsKeptRow }
    ensures unfit { IfErr result (λ stop. IsRefused stop → IsUnfit (combination k r.now n p.now)) }
{
    combined(alloc, &plain(&r.entries, &p.entries, Factors { k, n }))
}

/// The row `k*r + n*p` in lowest terms, without one column and with a number more at another one.
///
/// `Unfit` where a part of it does not fit.
pub fn combine_but(
    alloc: Global,
    r: &IntRow,
    p: &IntRow,
    by: Factors,
    but: Patch,
) -> Result<IntRow, RowStop>
    requires k { IsFactor by.k }
    requires n { IsFactor by.n }
    requires extra { IsFactor but.extra }
    ensures value { IfOk result (λ row. IsReduced row (combination_but by r.now p.now but)) }
    ensures kept { IfOk result IsKeptRow }
    ensures unfit { IfErr result (λ stop. IsRefused stop → IsUnfit (combination_but by r.now p.now but)) }
{
    combined(alloc, &patched(&r.entries, &p.entries, by, but))
}
