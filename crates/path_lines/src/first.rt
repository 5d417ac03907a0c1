// The lines of the corner where the route begins.
ghost use Rattle.std.specs.Prelude.{◌≡◌, ◌≢◌, ◌≤◌, ◌<◌, ◌+◌, ◌+ℤ◌, pos, length, set, unsigned_abs};
ghost use Rattle.std.specs.Prelude.{All, IfOk, IfErr, IfSome, IfNone};
ghost use Rattle.std.specs.List.{HoldsAt};
ghost use Rattle.frac_core.specs.Stops.{IsRefused};
ghost use Rattle.problem_core.specs.Kept.{IsTerm};
ghost use Rattle.problem_core.specs.Layout.{Row};
ghost use Rattle.problem_core.specs.declared.parts.RowName.TheVariants.{Held};
ghost use Rattle.problem_core.specs.declared.limits.TheConstants.{COEFFICIENT_LIMIT};
ghost use Rattle.problem_core.specs.declared.parts.Term.{Term};
ghost use Rattle.path_lines.specs.Walking.FirstLines.{HasUnfitTerms, IsOneTermMore, IsRowOf, IsTermTooMuch};
ghost use Rattle.path_lines.specs.Walking.FirstLines.{AreFirstLines, HasUnfitFirst, HaveRoom, IsTermsSum};
ghost use Rattle.path_lines.specs.Numbers.{number_at};
ghost use Rattle.path_lines.specs.Route.{over_marks};
ghost use Rattle.path_lines.specs.Tables.{AreLines, AreSized, IsSumOf, line_count};

use crate::stop::SumStop;
use crate::table::{Inside, Sum};
use frac_core::{Frac, OutOfMemory, Stop, Unfit};
use problem_core::{Problem, Row, Side, Stay, Term};
use std::alloc::Global;

// A sum of terms: its number for each line, and its value.
#[derive(Drop)]
struct Terms {
    by: Vec<i64>,
    value: Frac,
}

/// The place of the attribute's stay among the stays.
pub fn stay_of(stays: &[Stay], attr: u32) -> Option<usize>
    ensures within { IfSome result (λ k. k < length stays.now) }
    ensures found { IfSome result (HoldsAt (λ s. s.attr ≡ attr) stays.now) }
    ensures none { IfNone result (All (λ s. s.attr ≢ attr) stays.now) }
{
    stays.iter().position(|s| s.attr == attr)
}

// The list with a number added at the place.
fn raised(numbers: Vec<i64>, at: usize, number: i64) -> Vec<i64>
    requires at { at < length numbers.items }
    requires numbers { HaveRoom numbers.items }
    requires number { unsigned_abs number ≤ COEFFICIENT_LIMIT }
    ensures { result.items ≡ set numbers.items at (number_at numbers.items at +ℤ number) }
{
    let mut out = numbers;
    out[at] += number;
    out
}

// The sum with one more term, if that fits.
fn with_term(p: &Problem, sum: Terms, term: Term) -> Result<Terms, SumStop>
    requires count { length sum.by.items ≡ line_count p.now }
    requires small { HaveRoom sum.by.items }
    requires term { IsTerm term }
    ensures next { IfOk result (IsOneTermMore p.now term sum) }
    ensures unfit { IfErr result (λ stop. IsRefused stop → IsTermTooMuch p.now term sum) }
{
    p.show_whole(); // for the proof: what a problem keeps
    let Some(at) = stay_of(p.stays(), term.attr) else {
        return Err(Stop::Refused(Unfit));
    };
    let target = p.stays()[at].target;
    let value = Frac::mul_add(sum.value, term.by, 1, target)?;
    let by = raised(sum.by, p.rows().len() + at, term.by);
    Ok(Terms { by, value })
}

/// So many zeros.
pub fn zeros(alloc: Global, count: usize) -> Result<Vec<i64>, OutOfMemory>
    ensures count { IfOk result (λ out. length out.items ≡ count) }
    ensures zeros { IfOk result (λ out. All (λ z. z ≡ pos 0) out.items) }
{
    let mut out = Vec::with_capacity(alloc, count)?;
    for _ in 0..count {
        out.push(0)?;
    }
    Ok(out)
}

// The sum of a row's terms, unless the sum of its first terms, for some number of them, does not fit.
fn terms_of(alloc: Global, p: &Problem, r: &Row) -> Result<Terms, SumStop>
    requires { IsRowOf p.now r.now }
    ensures sum { IfOk result (λ sum. IsTermsSum p.now r.now (length r.now.terms) sum.by.items sum.value) }
    ensures unfit { IfErr result (λ stop. IsRefused stop → HasUnfitTerms p.now r.now) }
{
    r.show_row(); // for the proof: what a row keeps
    let value = Frac::zero();
    let by = zeros(alloc, p.rows().len() + p.stays().len())?;
    let mut sum = Terms { by, value };
    for term in r.terms() {
        sum = with_term(p, sum, *term)?;
    }
    Ok(sum)
}

/// A row's sum at the corner where the route begins. It is unfit if the sum of its first terms, for some
/// number of them, does not fit there, or the whole sum less the constant.
pub fn first_sum(alloc: Global, p: &Problem, r: &Row) -> Result<Sum, SumStop>
    requires { IsRowOf p.now r.now }
    ensures sum { IfOk result (IsSumOf p.now (over_marks p.now) (Held r.now.id)) }
    ensures unfit { IfErr result (λ stop. IsRefused stop → HasUnfitTerms p.now r.now) }
{
    p.show_whole(); // for the proof: what a problem keeps
    r.show_row(); // for the proof: what a row keeps
    let sum = terms_of(alloc, p, r)?;
    let value = Frac::mul_add(sum.value, -1, 1, r.constant())?;
    let by = sum.by;
    Ok(Sum { own: 1, by, value })
}

// The lines of the rows there.
fn held_lines(alloc: Global, p: &Problem) -> Result<Vec<Option<Inside>>, SumStop>
    ensures lines { IfOk result (λ out. AreFirstLines p.now (length p.now.rows) out.items) }
    ensures unfit { IfErr result (λ stop. IsRefused stop → HasUnfitFirst p.now) }
{
    let mut out = Vec::new(alloc);
    for r in p.rows() {
        let sum = first_sum(alloc, p, r)?;
        let side = Side::Over;
        out.push(Some(Inside { side, sum }))?;
    }
    Ok(out)
}

/// The lines of the rows where the route begins, and then those of the stays, which are outside.
pub fn with_stays(
    lines: Vec<Option<Inside>>,
    p: &Problem,
) -> Result<Vec<Option<Inside>>, OutOfMemory>
    requires { AreFirstLines p.now (length p.now.rows) lines.items }
    ensures sized { IfOk result (λ lines. AreSized lines.items) }
    ensures count { IfOk result (λ lines. length lines.items ≡ line_count p.now) }
    ensures lines { IfOk result (λ lines. AreLines p.now (over_marks p.now) lines.items) }
{
    let mut out = lines;
    for _ in 0..p.stays().len() {
        out.push(None)?;
    }
    Ok(out)
}

/// The lines of the corner where the route begins, unless the sum of some row's first terms does not fit
/// there.
pub fn first_lines(alloc: Global, p: &Problem) -> Result<Vec<Option<Inside>>, SumStop>
    ensures sized { IfOk result (λ lines. AreSized lines.items) }
    ensures count { IfOk result (λ lines. length lines.items ≡ line_count p.now) }
    ensures lines { IfOk result (λ lines. AreLines p.now (over_marks p.now) lines.items) }
    ensures unfit { IfErr result (λ stop. IsRefused stop → HasUnfitFirst p.now) }
{
    let lines = held_lines(alloc, p)?;
    Ok(with_stays(lines, p)?)
}
