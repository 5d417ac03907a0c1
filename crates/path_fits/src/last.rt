// The corner after the last exchange of a path, at which not everything has to fit.
mod after;
pub(crate) mod fits;
mod line_sums;
mod rows_after;
mod sums_after;
mod terms;

ghost use Rattle.std.specs.Prelude.{◌≡◌, ◌↔◌, ℕ, List, IfOk, IsTrue, length};
ghost use Rattle.problem_core.specs.Layout.{Problem};
ghost use Rattle.problem_core.specs.Changes.Paths.{IsSound};
ghost use Rattle.problem_core.specs.declared.parts.Mark.{Mark};
ghost use Rattle.cert_core.specs.Stops.{AreNonnegativeBefore};
ghost use Rattle.problem_core.specs.declared.stops.Quantity.TheVariants as quantities;
ghost use Rattle.path_lines.specs.Exchanges.Pivots.{next_marks};
ghost use Rattle.path_lines.specs.Tables.{AreJudged, line_count};
ghost use Rattle.path_levels.specs.Exchanges.Pivots.{IsExchangePivot, IsSizedPivot};
ghost use Rattle.path_fits.specs.Fits.{IsFitAt, IsLastAfter, IsSizedLast, marks_after};

use crate::last::after::are_up_after;
use crate::last::fits::{attr_fit, mark_fit};
use crate::last::rows_after::rows_fit;
use crate::last::sums_after::level_fit;
use crate::last::terms::{FirstTerms, terms_fit};
use frac_core::{OutOfMemory, Stop};
use path_levels::{LineExchange, Tableau, has_no_negative_column_after, pivot_of};
use path_lines::{Inside, Pivot, Step};
use problem_core::{Problem, Quantity, What};
use std::alloc::Global;

/// Whether a quantity fits at a corner: it fits, it does not, or a part of it does not.
#[derive(Clone, Copy, PartialEq, Eq)]
pub enum Fit {
    Fits,
    Unfit,
    NoRoom,
}

/// The corner after an exchange: the tableau of the corner before it, and the exchange.
#[derive(Clone, Copy)]
pub struct Last<'a> {
    pub tableau: Tableau<'a>,
    pub step: Step,
}

/// An exchange at a corner of a problem: the corner's lines, and its pivot.
#[derive(Clone, Copy)]
pub(crate) struct PivotCase<'a> {
    pub p: &'a Problem,
    pub lines: &'a [Option<Inside>],
    pub pivot: &'a Pivot,
}

// Whether an attribute, a mark or a level fits after the exchange.
fn what_fit(
    alloc: Global,
    p: &Problem,
    last: Last<'_>,
    pivot: &Pivot,
    what: What,
) -> Result<Fit, OutOfMemory>
    requires last { IsSizedLast last }
    requires count { length last.tableau.corner.lines.now ≡ line_count p.now }
    requires pivot { IsSizedPivot (length last.tableau.corner.lines.now) pivot.now }
    requires step { pivot.now.step ≡ last.step }
    ensures { IfOk result (λ fit. (at : List Mark) → IsLastAfter p.now at last.entry
        → IsExchangePivot p.now at pivot.now
        → IsFitAt p.now (next_marks p.now pivot.now at) (quantities.Plain what) fit) }
{
    let lines = last.tableau.corner.lines;
    match what {
        What::Attr(attr) => attr_fit(alloc, PivotCase { p, lines, pivot }, attr),
        What::Mark(mark) => mark_fit(alloc, PivotCase { p, lines, pivot }, mark),
        What::Level(level) => level_fit(alloc, p, last, level),
    }
}

// Whether the quantity fits after the exchange with this pivot.
fn quantity_fit(
    alloc: Global,
    p: &Problem,
    last: Last<'_>,
    pivot: &Pivot,
    named: Quantity,
) -> Result<Fit, OutOfMemory>
    requires last { IsSizedLast last }
    requires count { length last.tableau.corner.lines.now ≡ line_count p.now }
    requires pivot { IsSizedPivot (length last.tableau.corner.lines.now) pivot.now }
    requires step { pivot.now.step ≡ last.step }
    ensures { IfOk result (λ fit. (at : List Mark) → IsLastAfter p.now at last.entry
        → IsExchangePivot p.now at pivot.now → IsFitAt p.now (next_marks p.now pivot.now at) named fit) }
{
    match named {
        Quantity::Plain(what) => what_fit(alloc, p, last, pivot, what),
        Quantity::Shifts { what, .. } => what_fit(alloc, p, last, pivot, what),
        Quantity::Terms { mark, first } => {
            let lines = last.tableau.corner.lines;
            terms_fit(
                alloc,
                PivotCase { p, lines, pivot },
                FirstTerms { mark, first },
            )
        }
        Quantity::Rows { level, first } => rows_fit(alloc, last, pivot, level, first),
    }
}

/// Whether the quantity fits after the exchange.
pub fn fit_after(
    alloc: Global,
    p: &Problem,
    last: Last<'_>,
    named: Quantity,
) -> Result<Fit, OutOfMemory>
    requires { IsSizedLast last }
    ensures { IfOk result (λ fit. (at : List Mark) → IsLastAfter p.now at last.entry
        → IsFitAt p.now (marks_after p.now last.entry at) named fit) }
{
    p.show_whole(); // for the proof: what a problem keeps
    let lines = last.tableau.corner.lines;
    // a kept corner has a line for each row and stay: the clause asks nothing here
    if lines.len() != p.rows().len() + p.stays().len() {
        return Ok(Fit::Fits);
    }
    match pivot_of(alloc, lines, last.step) {
        Ok(pivot) => quantity_fit(alloc, p, last, &pivot, named),
        Err(Stop::OutOfMemory) => Err(OutOfMemory),
        // nor if the step is no exchange
        Err(Stop::Refused(_)) => Ok(Fit::Fits),
    }
}

/// Whether the corner after the exchange is as each corner of a path must be.
pub fn is_sound_after(alloc: Global, dual: bool, last: Last<'_>) -> Result<bool, OutOfMemory>
    requires { IsSizedLast last }
    ensures { IfOk result (λ holds. (p : Problem) (at : List Mark) → IsLastAfter p at last.entry
        → IsTrue holds ↔ IsSound dual p (marks_after p last.entry at)) }
{
    if dual {
        let (corner, step) = (last.tableau.corner, last.step);
        return has_no_negative_column_after(
            alloc,
            LineExchange { corner, step },
            last.tableau.levels,
        );
    }
    let lines = last.tableau.corner.lines;
    match pivot_of(alloc, lines, last.step) {
        Ok(pivot) => Ok(are_up_after(lines, &pivot, lines.len(), lines.len())),
        Err(Stop::OutOfMemory) => Err(OutOfMemory),
        Err(Stop::Refused(_)) => Ok(true),
    }
}

/// Whether no value is negative after the exchange. The marks of the rows from a place on, of so many, are
/// not judged.
pub fn has_no_negative_before_after(
    alloc: Global,
    last: Last<'_>,
    judged: usize,
    rows: usize,
) -> Result<bool, OutOfMemory>
    requires { IsSizedLast last }
    ensures { IfOk result (λ holds. (p : Problem) (at : List Mark) (id : ℕ) → IsLastAfter p at last.entry
        → AreJudged p id judged rows
        → IsTrue holds ↔ AreNonnegativeBefore p (marks_after p last.entry at) id) }
{
    let lines = last.tableau.corner.lines;
    match pivot_of(alloc, lines, last.step) {
        Ok(pivot) => Ok(are_up_after(lines, &pivot, judged, rows)),
        Err(Stop::OutOfMemory) => Err(OutOfMemory),
        Err(Stop::Refused(_)) => Ok(true),
    }
}
