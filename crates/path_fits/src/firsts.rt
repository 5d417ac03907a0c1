// The lines of the rows where the route begins, up to the first sum of first terms that does not fit.
ghost use Rattle.std.specs.Prelude.{◌≡◌, ◌+◌, length, IfOk, IfErr, IfSome, IfNone};
ghost use Rattle.problem_core.specs.declared.parts.RowName.TheVariants.{Held};
ghost use Rattle.problem_core.specs.declared.stops.Quantity.TheVariants.{Terms};
ghost use Rattle.problem_core.specs.Unfit.{over_mark};
ghost use Rattle.frac_core.specs.Fraction.{IsKept};
ghost use Rattle.problem_core.specs.Kept.{IsTerm};
ghost use Rattle.problem_core.specs.Layout.{HasStay};
ghost use Rattle.path_lines.specs.Walking.FirstLines.{IsRowOf};
ghost use Rattle.path_lines.specs.Route.{over_marks};
ghost use Rattle.path_lines.specs.Tables.{IsSumOf};
ghost use Rattle.path_fits.specs.FirstSums.{AllSumsFit, AreMadeUntil, DoFitBefore, IsFirstUnfitSum};
ghost use Rattle.path_fits.specs.FirstSums.{IsLineStop, IsNextTooMuch, IsNextValue, IsTarget};

use frac_core::{Frac, OutOfMemory, Stop, Unfit};
use path_lines::{Inside, Sum, first_sum};
use problem_core::{Mark, Problem, Quantity, Row, RowName, Side, Stay, Term};
use std::alloc::Global;
use thiserror::Error;

/// The sum of so many first terms of a row does not fit. If the count is one more than the row has terms, it
/// is the sum of all terms less the constant.
#[derive(Clone, Copy, Debug, Error)]
#[error("the sum of the first {first} terms of a row does not fit")]
pub struct UnfitTerms {
    pub first: u32,
}

/// Why a row's line is not made: a sum of first terms does not fit, or memory has run out.
pub type LineStop = Stop<UnfitTerms>;

/// The lines of the rows where the route begins, and the first sum that does not fit, if there is one. Then
/// the lines end before its row.
#[derive(Drop)]
pub struct RowLines {
    pub lines: Vec<Option<Inside>>,
    pub unfit: Option<Quantity>,
}

// The target of the attribute's stay.
fn target_of(stays: &[Stay], attr: u32) -> Frac
    requires { HasStay stays.now attr }
    ensures { IsTarget stays.now attr result }
{
    match stays.iter().position(|s| s.attr == attr) {
        Some(at) => stays[at].target,
        None => Frac::zero(),
    }
}

// The value of a sum with one more term.
fn with_term(p: &Problem, value: Frac, term: Term) -> Result<Frac, Unfit>
    requires term { IsTerm term }
    requires stay { HasStay p.now.stays term.attr }
    ensures next { IfOk result (IsNextValue p.now term value) }
    ensures kept { IfOk result IsKept }
    ensures unfit { IfErr result (λ stop. IsNextTooMuch p.now term value) }
{
    p.show_whole(); // for the proof: what a problem keeps
    let target = target_of(p.stays(), term.attr);
    Frac::mul_add(value, term.by, 1, target)
}

// The least number of first terms of a row whose sum does not fit where the route begins, unless all such
// sums fit.
fn unfit_terms(p: &Problem, r: &Row) -> Option<u32>
    requires { IsRowOf p.now r.now }
    ensures some { IfSome result (IsFirstUnfitSum p.now r.now) }
    ensures none { IfNone result (DoFitBefore p.now r.now (length r.now.terms + 1)) }
{
    p.show_whole(); // for the proof: what a problem keeps
    r.show_row(); // for the proof: what a row keeps
    let mut value = Frac::zero();
    let mut first = 1;
    for term in r.terms() {
        let Ok(next) = with_term(p, value, *term) else {
            return Some(first);
        };
        value = next;
        first += 1;
    }
    None
}

// The sum of a row where the route begins, unless the sum of some of its first terms does not fit. Then the
// first such sum.
fn first_line(alloc: Global, p: &Problem, r: &Row) -> Result<Sum, LineStop>
    requires { IsRowOf p.now r.now }
    ensures sum { IfOk result (IsSumOf p.now (over_marks p.now) (Held r.now.id)) }
    ensures fit { IfOk result (λ sum. AllSumsFit p.now r.now) }
    ensures stop { IfErr result (IsLineStop p.now r.now) }
{
    p.show_whole(); // for the proof: what a problem keeps
    r.show_row(); // for the proof: what a row keeps
    if let Some(first) = unfit_terms(p, r) {
        return Err(Stop::Refused(UnfitTerms { first }));
    }
    match first_sum(alloc, p, r) {
        Ok(sum) => {
            let _ = sum.value.num(); // for the proof: what a fraction keeps
            Ok(sum)
        }
        Err(Stop::Refused(_)) => {
            let first = r.terms().len() as u32 + 1;
            Err(Stop::Refused(UnfitTerms { first }))
        }
        Err(Stop::OutOfMemory) => Err(Stop::OutOfMemory),
    }
}

// The sum of a row's first terms.
fn terms_sum(r: &Row, first: u32) -> Quantity
    ensures { result ≡ Terms (over_mark r.now.id) first }
{
    let row = RowName::Held(r.id());
    let side = Side::Over;
    let mark = Mark { row, side };
    Quantity::Terms { mark, first }
}

/// The lines of the rows where the route begins, up to the first sum of a row's first terms that does not
/// fit.
pub fn row_lines(alloc: Global, p: &Problem) -> Result<RowLines, OutOfMemory>
    ensures { IfOk result (λ made. AreMadeUntil p.now made.lines.items made.unfit) }
{
    let mut lines = Vec::new(alloc);
    for r in p.rows() {
        let sum = match first_line(alloc, p, r) {
            Ok(sum) => sum,
            Err(Stop::Refused(terms)) => {
                let unfit = Some(terms_sum(r, terms.first));
                return Ok(RowLines { lines, unfit });
            }
            Err(Stop::OutOfMemory) => return Err(OutOfMemory),
        };
        let side = Side::Over;
        lines.push(Some(Inside { side, sum }))?;
    }
    let unfit = None;
    Ok(RowLines { lines, unfit })
}
