// Whether the sum of a level's first rows fits after an exchange.
ghost use Rattle.std.specs.Prelude.{◌≡◌, ◌<◌, ◌≢◌, cond, nat_eq, true, false, length, take};
ghost use Rattle.std.specs.Prelude.{List, Option, IfOk, IfErr, IfSome, IfNone};
ghost use Rattle.problem_core.specs.Layout.{Problem};
ghost use Rattle.problem_core.specs.declared.parts.Mark.{Mark};
ghost use Rattle.problem_core.specs.declared.parts.Level.{Level};
ghost use Rattle.problem_core.specs.declared.stops.Quantity.TheVariants as quantities;
ghost use Rattle.path_lines.specs.Exchanges.Pivots.{next_marks};
ghost use Rattle.path_lines.specs.Tables.{AreSized, IsLineAt, IsSizedLine, name_at};
ghost use Rattle.frac_core.specs.Stops.{IsRefused};
ghost use Rattle.path_lines.specs.declared.table.Inside.{Inside};
ghost use Rattle.path_fits.specs.FirstLines.{AreFirstAfter, IsFirstAt, IsRowsFit, LeadsToUnfitFirst};
ghost use Rattle.path_fits.specs.FirstLines.{size_in};
ghost use Rattle.path_fits.specs.Fits.{IsFitAt, IsLastAfter, IsSizedLast};
ghost use Rattle.path_levels.specs.Corners.{IsSizedCorner};
ghost use Rattle.path_levels.specs.Exchanges.Pivots.{IsExchangePivot, IsSizedPivot};
ghost use Rattle.path_fits.specs.After.{AfterExchange};
ghost use Rattle.path_fits.specs.declared.last.Fit.TheVariants as fits;

use crate::last::after::LineAt;
use crate::last::line_sums::line_after;
use crate::last::{Fit, Last};
use crate::places::place_of_level;
use frac_core::{OutOfMemory, Stop};
use path_levels::{CornerLines, LineFacts, level_of_lines};
use path_lines::{Inside, Pivot, SumStop};
use problem_core::Level;
use std::alloc::Global;

// 1 for a line of the level at the place, or else 0.
fn one_of(facts: LineFacts, place: usize) -> usize
    ensures { result ≡ cond (nat_eq facts.level place) 1 0 }
{
    if facts.level == place { 1 } else { 0 }
}

// How many lines there are up to the one with this count in the level, if the level has as many.
fn end_of_first(lines: &[LineFacts], place: usize, first: usize) -> Option<usize>
    ensures some { IfSome result (λ end. size_in place (take end lines.now) ≡ first) }
    ensures none { IfNone result (size_in place lines.now < first) }
{
    let mut count = 0;
    for (at, facts) in lines.iter().enumerate() {
        if count == first {
            return Some(at);
        }
        count += one_of(*facts, place);
    }
    if count == first {
        Some(lines.len())
    } else {
        None
    }
}

/// The lines of the level at a place, before an end.
#[derive(Clone, Copy)]
pub(crate) struct FirstLines {
    pub place: usize,
    pub end: usize,
}

// Whether the line at a place is one of them.
fn is_first(lines: &[LineFacts], firsts: FirstLines, at: usize) -> bool
    requires { at < length lines.now }
    ensures yes { result ≡ true → IsFirstAt lines.now firsts at }
    ensures no { result ≡ false → IsFirstAt lines.now firsts at → ⊥ }
{
    at < firsts.end && lines[at].level == firsts.place
}

// The line at a place after the exchange, if it is one of them.
fn first_line(
    alloc: Global,
    last: Last<'_>,
    pivot: &Pivot,
    firsts: FirstLines,
    at: usize,
) -> Result<Option<Inside>, SumStop>
    requires last { IsSizedLast last }
    requires pivot { IsSizedPivot (length last.tableau.corner.lines.now) pivot.now }
    requires at { at < length last.tableau.corner.lines.now }
    ensures sized { IfOk result (IsSizedLine (length last.entry.tableau.corner.lines.now)) }
    ensures line { IfOk result (λ next. IsFirstAt last.entry.tableau.corner.outline.now.lines.items firsts at
        → (p : Problem) → AfterExchange p pivot.now last.entry.tableau.corner.lines.now
        (λ marks. IsLineAt p marks (name_at p at) next)) }
    ensures unfit { IfErr result (λ stop. IsRefused stop → LeadsToUnfitFirst last.entry pivot.now firsts) }
{
    let corner = last.tableau.corner;
    if !is_first(&corner.outline.lines, firsts, at) {
        return Ok(None);
    }
    let line = LineAt {
        inside: &corner.lines[at],
        at,
        count: corner.lines.len(),
    };
    line_after(alloc, line, pivot)
}

// These lines after the exchange.
fn first_lines(
    alloc: Global,
    last: Last<'_>,
    pivot: &Pivot,
    firsts: FirstLines,
) -> Result<Vec<Option<Inside>>, SumStop>
    requires last { IsSizedLast last }
    requires pivot { IsSizedPivot (length last.tableau.corner.lines.now) pivot.now }
    ensures count { IfOk result (λ next. length next.items ≡ length last.entry.tableau.corner.lines.now) }
    ensures sized { IfOk result (λ next. AreSized next.items) }
    ensures lines { IfOk result (λ next. AreFirstAfter last.entry pivot.now firsts next.items) }
    ensures unfit { IfErr result (λ stop. IsRefused stop → LeadsToUnfitFirst last.entry pivot.now firsts) }
{
    let count = last.tableau.corner.lines.len();
    let mut next = Vec::with_capacity(alloc, count)?;
    for at in 0..count {
        next.push(first_line(alloc, last, pivot, firsts, at)?)?;
    }
    Ok(next)
}

// Whether the sum fits, if already so many rows do not: the whole sum of `first` rows, or a part of it.
fn stop_of(count: u32, first: u32) -> Fit
    ensures whole { count ≡ first → result ≡ fits.Unfit }
    ensures part { count ≢ first → result ≡ fits.NoRoom }
{
    if count == first {
        Fit::Unfit
    } else {
        Fit::NoRoom
    }
}

// Whether the sum of a level's first rows fits at a corner at which their lines are kept.
fn rows_at(
    alloc: Global,
    corner: CornerLines<'_>,
    place: usize,
    first: u32,
) -> Result<Fit, OutOfMemory>
    requires corner { IsSizedCorner corner }
    requires place { place < length corner.outline.now.levels.items }
    ensures { IfOk result (IsRowsFit corner.entry place first) }
{
    match level_of_lines(alloc, corner, place, first) {
        Ok(_) => Ok(Fit::Fits),
        Err(Stop::Refused(rows)) => Ok(stop_of(rows.first, first)),
        Err(Stop::OutOfMemory) => Err(OutOfMemory),
    }
}

/// Whether the sum of the first rows of a level fits after the exchange.
pub(crate) fn rows_fit(
    alloc: Global,
    last: Last<'_>,
    pivot: &Pivot,
    level: Level,
    first: u32,
) -> Result<Fit, OutOfMemory>
    requires last { IsSizedLast last }
    requires pivot { IsSizedPivot (length last.tableau.corner.lines.now) pivot.now }
    ensures { IfOk result (λ fit. (p : Problem) (at : List Mark) → IsLastAfter p at last.entry
        → IsExchangePivot p at pivot.now
        → IsFitAt p (next_marks p pivot.now at) (quantities.Rows level first) fit) }
{
    let outline = last.tableau.corner.outline;
    let Some(place) = place_of_level(outline, level) else {
        return Ok(Fit::Fits);
    };
    let Some(end) = end_of_first(&outline.lines, place, first as usize) else {
        return Ok(Fit::Fits);
    };
    match first_lines(alloc, last, pivot, FirstLines { place, end }) {
        Ok(lines) => {
            let lines = &lines;
            rows_at(alloc, CornerLines { outline, lines }, place, first)
        }
        Err(Stop::Refused(_)) => Ok(Fit::NoRoom),
        Err(Stop::OutOfMemory) => Err(OutOfMemory),
    }
}
