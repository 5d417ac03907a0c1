// The sum of a row's first terms after an exchange.
ghost use Rattle.std.specs.Prelude.{◌≡◌, ◌≢◌, ◌+◌, ◌<◌, ◌≤◌, ◌^◌, ◌*ℤ◌, pos, negsuc, true, false};
ghost use Rattle.std.specs.Prelude.{◌↔◌, length, All, IfOk, IfErr, IfSome, IfNone, IsTrue};
ghost use Rattle.std.specs.List.{HoldsAt};
ghost use Rattle.problem_core.specs.Layout.{Problem};
ghost use Rattle.problem_core.specs.declared.stops.Quantity.TheVariants as quantities;
ghost use Rattle.frac_core.specs.Stops.{IsRefused};
ghost use Rattle.frac_core.specs.Fraction.{IsFitting, IsKept, IsUnfitRatio, sum_den, sum_num};
ghost use Rattle.problem_core.specs.Layout.{HasStay};
ghost use Rattle.problem_core.specs.Corners.{IsIn, attr_column, place};
ghost use Rattle.problem_core.specs.declared.parts.Mark.{Mark};
ghost use Rattle.path_lines.specs.Tables.{IsSized};
ghost use Rattle.path_fits.specs.Fits.{IsFitAt};
ghost use Rattle.path_fits.specs.Sums.{IsQuantitySum, IsUnitSum};
ghost use Rattle.path_fits.specs.TermSums.{AreKnownTerms, IsAttrStop, IsMoreStop, IsTermMore, IsTermUnfit};
ghost use Rattle.path_fits.specs.TermSums.{AreOverAt, IsLessFitting, IsRowFit, IsTermsStop, terms_of};
ghost use Rattle.path_fits.specs.declared.last.Fit.TheVariants as fits;
ghost use Rattle.path_lines.specs.Walking.FirstLines.{IsRowOf};
ghost use Rattle.problem_core.specs.Unfit.{over_mark};
ghost use Rattle.problem_core.specs.Window.{zero_fraction};
ghost use Rattle.path_lines.specs.Numbers.{IsCombined};
ghost use Rattle.path_fits.specs.After.{AfterExchange, AfterFittingAttrs, AfterPivot, IsPivotCase};

use crate::last::fits::{attr_after, is_inside_after};
use crate::last::line_sums::unit_sum;
use crate::last::{Fit, PivotCase};
use frac_core::{Frac, OutOfMemory, Stop};
use path_lines::{
    Inside, Pivot, Sum, SumStop, Wide, combined, in_lowest_terms, pair_product, sum_of,
};
use problem_core::{Mark, Problem, Row, RowName, Side, Term};
use std::alloc::Global;

/// Why the sum of terms is not made: an attribute does not fit, the sum of so many of the first terms does
/// not, or memory has run out.
#[derive(Clone, Copy)]
pub(crate) enum TermsStop {
    UnfitAttr(u32),
    UnfitTerms(usize),
    OutOfMemory,
}

impl From<OutOfMemory> for TermsStop {
    ghost use Rattle.path_fits.specs.declared.last.terms.TermsStop.TheVariants.{OutOfMemory};

    ghost from_gives = { λ _ stop. stop ≡ OutOfMemory };

    fn from(_: OutOfMemory) -> TermsStop {
        TermsStop::OutOfMemory
    }
}

// `sum + by * more`, unless a part does not fit.
fn plus_term(alloc: Global, sum: &Sum, by: i64, more: &Sum) -> Result<Sum, SumStop>
    requires sum { IsSized (length sum.now.by.items) sum.now }
    requires more { IsSized (length sum.now.by.items) more.now }
    requires by { IsFitting by }
    ensures sized { IfOk result (IsSized (length sum.now.by.items)) }
    ensures kept { IfOk result (λ next. IsKept next.value) }
    ensures next { IfOk result (IsTermMore sum.now by more.now) }
    ensures unfit { IfErr result (λ stop. IsRefused stop → IsTermUnfit sum.now by more.now) }
{
    let wide = joined_numbers(alloc, sum, by, more)?;
    let numbers = in_lowest_terms(alloc, &wide)?;
    let value = Frac::mul_add(sum.value, by, 1, more.value)?;
    Ok(sum_of(numbers, value))
}

// The numbers of a sum plus `by` times another one.
fn joined_numbers(alloc: Global, sum: &Sum, by: i64, more: &Sum) -> Result<Wide, OutOfMemory>
    requires sum { IsSized (length sum.now.by.items) sum.now }
    requires more { IsSized (length sum.now.by.items) more.now }
    requires by { IsFitting by }
    ensures own { IfOk result (λ w. w.own ≡ more.now.own *ℤ sum.now.own) }
    ensures by { IfOk result (λ w. IsCombined more.now.own sum.now.by.items (sum.now.own *ℤ by)
        more.now.by.items w.by.items) }
{
    let times = pair_product(sum.own, by);
    Ok(Wide {
        own: pair_product(more.own, sum.own),
        by: combined(alloc, i128::from(more.own), &sum.by, times, &more.by)?,
    })
}

// The sum of no terms.
fn no_terms(alloc: Global, count: usize) -> Result<Sum, OutOfMemory>
    ensures kept { IfOk result (λ sum. IsKept sum.value) }
    ensures unit { IfOk result (IsUnitSum count count zero_fraction) }
{
    let zero = Frac::zero();
    let _ = zero.num(); // for the proof: what a fraction keeps
    unit_sum(alloc, count, count, zero)
}

// The sum with one more term, the term at this place.
fn one_more(alloc: Global, sum: &Sum, by: i64, more: &Sum, at: usize) -> Result<Sum, TermsStop>
    requires sum { IsSized (length sum.now.by.items) sum.now }
    requires more { IsSized (length sum.now.by.items) more.now }
    requires by { IsFitting by }
    requires at { at < 2 ^ 63 }
    ensures sized { IfOk result (IsSized (length sum.now.by.items)) }
    ensures kept { IfOk result (λ next. IsKept next.value) }
    ensures next { IfOk result (IsTermMore sum.now by more.now) }
    ensures stop { IfErr result (IsMoreStop sum.now by more.now at) }
{
    match plus_term(alloc, sum, by, more) {
        Ok(next) => Ok(next),
        Err(Stop::Refused(_)) => Err(TermsStop::UnfitTerms(at + 1)),
        Err(Stop::OutOfMemory) => Err(TermsStop::OutOfMemory),
    }
}

// The sum of the attribute, which has a stay.
fn attr_of_term(alloc: Global, case: PivotCase<'_>, attr: u32) -> Result<Sum, TermsStop>
    requires case { IsPivotCase case }
    requires stay { HasStay case.p.now.stays attr }
    ensures sized { IfOk result (IsSized (length case.entry.lines.now)) }
    ensures attr { IfOk result (λ sum. AfterPivot case.entry
        (λ marks. IsQuantitySum case.entry.p.now marks (λ x. x (attr_column attr)) sum)) }
    ensures stop { IfErr result (λ stop. AfterFittingAttrs case.entry
        (λ marks. IsAttrStop case.entry.p.now marks attr stop)) }
{
    match attr_after(alloc, case, attr) {
        Ok(Some(sum)) => Ok(sum),
        Ok(None) => Err(TermsStop::OutOfMemory),
        Err(Stop::Refused(_)) => Err(TermsStop::UnfitAttr(attr)),
        Err(Stop::OutOfMemory) => Err(TermsStop::OutOfMemory),
    }
}

/// The sum of the terms after the exchange, or the term that stops it.
pub(crate) fn terms_after(
    alloc: Global,
    case: PivotCase<'_>,
    terms: &[Term],
) -> Result<Sum, TermsStop>
    requires case { IsPivotCase case }
    requires terms { AreKnownTerms case.p.now terms.now }
    ensures kept { IfOk result (λ sum. IsKept sum.value) }
    ensures sum { IfOk result (λ sum. AfterFittingAttrs case.entry
        (λ marks. IsQuantitySum case.entry.p.now marks (terms_of terms.now) sum)) }
    ensures stop { IfErr result (λ stop. AfterFittingAttrs case.entry
        (λ marks. IsTermsStop case.entry.p.now marks terms.now stop)) }
{
    let mut sum = no_terms(alloc, case.lines.len())?;
    for (at, term) in terms.iter().enumerate() {
        let more = attr_of_term(alloc, case, term.attr)?;
        sum = one_more(alloc, &sum, term.by, &more, at)?;
    }
    Ok(sum)
}

// Whether a value less the constant fits.
fn less_fits(value: Frac, constant: Frac) -> bool
    ensures fits { result ≡ true → IsLessFitting value constant }
    ensures unfit { result ≡ false → IsUnfitRatio (sum_num value (negsuc 0) (pos 1) constant)
        (sum_den value (pos 1) constant) }
{
    let Ok(less) = Frac::mul_add(value, -1, 1, constant) else {
        return false;
    };
    let _ = less.num(); // for the proof: what a fraction keeps
    true
}

// Whether the sum of `first` terms fits, if that of the first `j` does not: with fewer terms it is a part.
fn stopped_fit(j: usize, first: usize) -> Fit
    ensures same { j ≡ first → result ≡ fits.Unfit }
    ensures other { j ≢ first → result ≡ fits.NoRoom }
{
    if j == first { Fit::Unfit } else { Fit::NoRoom }
}

// The first terms of a row, so many.
#[derive(Clone, Copy)]
struct Sought<'a> {
    row: &'a Row,
    first: usize,
}

// Whether the sum of so many of a row's terms fits after the exchange.
fn some_fit(alloc: Global, case: PivotCase<'_>, sought: Sought<'_>) -> Result<Fit, OutOfMemory>
    requires case { IsPivotCase case }
    requires terms { AreKnownTerms case.p.now sought.row.now.terms }
    requires first { sought.first ≤ length sought.row.now.terms }
    ensures { IfOk result (λ fit. AfterFittingAttrs case.entry
        (λ marks. IsRowFit case.entry.p.now marks sought.entry.row.now sought.entry.first fit)) }
{
    let terms = sought.row.terms();
    match terms_after(alloc, case, &terms[..sought.first]) {
        Ok(_) => Ok(Fit::Fits),
        Err(TermsStop::UnfitAttr(_)) => Ok(Fit::NoRoom),
        Err(TermsStop::UnfitTerms(j)) => Ok(stopped_fit(j, sought.first)),
        Err(TermsStop::OutOfMemory) => Err(OutOfMemory),
    }
}

// Whether the sum of all of a row's terms less its constant fits after the exchange, if the row is over.
fn whole_fit(alloc: Global, case: PivotCase<'_>, r: &Row) -> Result<Fit, OutOfMemory>
    requires case { IsPivotCase case }
    requires terms { AreKnownTerms case.p.now r.now.terms }
    requires row { IsRowOf case.p.now r.now }
    ensures { IfOk result (λ fit. AfterFittingAttrs case.entry
        (λ marks. IsIn (place (over_mark r.now.id)) marks
        → IsRowFit case.entry.p.now marks r.now (length r.now.terms + 1) fit)) }
{
    r.show_row(); // for the proof: what a row keeps
    match terms_after(alloc, case, r.terms()) {
        Ok(sum) => {
            if less_fits(sum.value, r.constant()) {
                Ok(Fit::Fits)
            } else {
                Ok(Fit::Unfit)
            }
        }
        Err(TermsStop::UnfitAttr(_)) => Ok(Fit::NoRoom),
        Err(TermsStop::UnfitTerms(_)) => Ok(Fit::NoRoom),
        Err(TermsStop::OutOfMemory) => Err(OutOfMemory),
    }
}

fn over_mark_of(id: u32) -> Mark
    ensures { result ≡ over_mark id }
{
    Mark {
        row: RowName::Held(id),
        side: Side::Over,
    }
}

// The place of the row whose over mark this is.
fn over_row(rows: &[Row], mark: Mark) -> Option<usize>
    ensures within { IfSome result (λ k. k < length rows.now) }
    ensures found { IfSome result (HoldsAt (λ r. over_mark r.id ≡ mark) rows.now) }
    ensures none { IfNone result (All (λ r. over_mark r.id ≢ mark) rows.now) }
{
    rows.iter().position(|r| over_mark_of(r.id()) == mark)
}

// Whether the rows from a place on, of so many, are over after the exchange.
fn are_over_from(lines: &[Option<Inside>], pivot: &Pivot, from: usize, rows: usize) -> bool
    requires rows { rows ≤ length lines.now }
    ensures { (p : Problem) → AfterExchange p pivot.now lines.now
        (λ marks. IsTrue result ↔ AreOverAt p marks from rows) }
{
    for at in from..rows {
        if !is_inside_after(&lines[at], pivot.step, at, Side::Over) {
            return false;
        }
    }
    true
}

/// The first terms of the row whose over mark this is, so many.
#[derive(Clone, Copy)]
pub(crate) struct FirstTerms {
    pub mark: Mark,
    pub first: u32,
}

/// Whether the sum of the first terms of a row fits after the exchange.
pub(crate) fn terms_fit(
    alloc: Global,
    case: PivotCase<'_>,
    sum: FirstTerms,
) -> Result<Fit, OutOfMemory>
    requires { IsPivotCase case }
    ensures { IfOk result (λ fit. AfterFittingAttrs case.entry
        (λ marks. IsFitAt case.entry.p.now marks (quantities.Terms sum.mark sum.first) fit)) }
{
    case.p.show_whole(); // for the proof: what a problem keeps
    let rows = case.p.rows();
    let Some(at) = over_row(rows, sum.mark) else {
        return Ok(Fit::Fits);
    };
    if !are_over_from(case.lines, case.pivot, at, rows.len()) {
        return Ok(Fit::Fits);
    }
    let row = &rows[at];
    let (first, count) = (sum.first as usize, row.terms().len());
    if first < 1 {
        return Ok(Fit::Fits);
    }
    if first <= count {
        return some_fit(alloc, case, Sought { row, first });
    }
    if first > count + 1 {
        return Ok(Fit::Fits);
    }
    whole_fit(alloc, case, row)
}
