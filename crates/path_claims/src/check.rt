// The check of a path.
ghost use Rattle.std.specs.Prelude.{◌≡◌, ◌↔◌, List, Option, IfOk, IsTrue, None, Some, length};
ghost use Rattle.cert_core.specs.Paths.{Path};
ghost use Rattle.problem_core.specs.Layout.{Problem};
ghost use Rattle.problem_core.specs.declared.parts.Mark.{Mark};
ghost use Rattle.problem_core.specs.declared.stops.Quantity.{Quantity};
ghost use Rattle.path_claims.specs.PathClauses.{IsPathVerdict, row_of_terms};
ghost use Rattle.path_lines.specs.Sides.{AreSteps};
ghost use Rattle.path_lines.specs.Tables.{AreJudged};
ghost use Rattle.path_claims.specs.Ways.{IsEnded, IsShortPath};
ghost use Rattle.path_fits.specs.Fits.{IsLastAfter, IsSizedLast, marks_after};
ghost use Rattle.path_claims.specs.Journeys.{IsPathCase};
ghost use Rattle.path_claims.specs.Judging.{IsAtFirst, IsFound, IsSoundLast, IsWalked, unjudged_from};

use crate::along::{Walked, is_sound_there, walk};
use crate::journey::{PathCase, to_first};
use crate::route::{comes_twice, sides_of};
use crate::start::check_at_start;
use crate::stations::{Station, table_now};
use crate::verdict::{
    APART_CLAUSE, CALLED_CLAUSE, CORNER_CLAUSE, EXCHANGES_CLAUSE, PathVerdict, SOUND_CLAUSE,
    UNFIT_CLAUSE,
};
use crate::way::{WayStop, told};
use cert_core::Path;
use frac_core::OutOfMemory;
use path_fits::{Fit, Last, fit_after, has_no_negative_before_after, is_sound_after};
use path_levels::Outline;
use path_lines::{Step, names, steps_of};
use problem_core::{Problem, Quantity, RowName};
use std::alloc::Global;

// The answer if the route ends early: this clause fails, or there is no room.
fn ended(stop: WayStop, clause: u32) -> Result<PathVerdict, OutOfMemory>
    ensures { IfOk result (IsEnded stop clause) }
{
    match stop {
        WayStop::Fails => Ok(PathVerdict::No(clause)),
        WayStop::NoRoom(count) => Ok(PathVerdict::NoRoom(count)),
        WayStop::OutOfMemory => Err(OutOfMemory),
    }
}

// The first clause from SOUND_CLAUSE on that fails, or that there is no room.
fn verdict(is_sound: bool, is_called_for: bool, fit: Fit, count: u32) -> PathVerdict
    ensures { (p : Problem) (path : Path) (unfit : Option Quantity)
        → IsFound p path unfit is_sound is_called_for fit count → IsPathVerdict p path unfit result }
{
    if !is_sound {
        return PathVerdict::No(SOUND_CLAUSE);
    }
    if !is_called_for {
        return PathVerdict::No(CALLED_CLAUSE);
    }
    match fit {
        Fit::Fits => PathVerdict::No(UNFIT_CLAUSE),
        Fit::Unfit => PathVerdict::Yes,
        Fit::NoRoom => PathVerdict::NoRoom(count),
    }
}

// The row of a sum of first terms.
fn row_of(named: Quantity) -> Option<u32>
    ensures { result ≡ row_of_terms (Some named) }
{
    match named {
        Quantity::Terms { mark, .. } => match mark.row {
            RowName::Held(id) => Some(id),
            RowName::Stay(_) => None,
        },
        _ => None,
    }
}

// The row from which on marks are not judged at the path's last corner.
fn unjudged_row(path: &Path, named: Quantity) -> Option<u32>
    ensures { result ≡ unjudged_from path.now.dual path.now.swaps (row_of_terms (Some named)) }
{
    if path.dual() || !path.swaps().is_empty() {
        return None;
    }
    row_of(named)
}

// How many of the rows, in order, have lesser numbers.
fn rows_before(p: &Problem, id: u32) -> usize
    ensures { AreJudged p.now id result (length p.now.rows) }
{
    p.show_whole(); // for the proof: what a problem keeps
    let rows = p.rows();
    for (at, r) in rows.iter().enumerate() {
        if r.id() >= id {
            return at;
        }
    }
    rows.len()
}

// Whether the last corner is sound, if the path is shown with this quantity.
fn is_sound_last(
    alloc: Global,
    case: PathCase<'_>,
    last: Last<'_>,
    named: Quantity,
) -> Result<bool, OutOfMemory>
    requires { IsSizedLast last }
    ensures { IfOk result (λ holds. (at : List Mark) → IsLastAfter case.entry.p.now at last.entry
        → IsTrue holds ↔ IsSoundLast case.entry named (marks_after case.entry.p.now last.entry at)) }
{
    match unjudged_row(case.path, named) {
        Some(id) => {
            let judged = rows_before(case.p, id);
            has_no_negative_before_after(alloc, last, judged, case.p.rows().len())
        }
        None => is_sound_after(alloc, case.path.dual(), last),
    }
}

// The verdict by the last corner, if an exchange leads to it and a quantity is shown.
fn verdict_after(
    alloc: Global,
    case: PathCase<'_>,
    walked: &Walked,
    step: Step,
    named: Quantity,
) -> Result<PathVerdict, OutOfMemory>
    requires case { IsPathCase case }
    requires walked { IsWalked case walked.now }
    requires step { walked.now.station.step ≡ Some step }
    ensures { IfOk result (IsPathVerdict case.entry.p.now case.entry.path.now (Some named)) }
{
    let tableau = walked.station.table.tableau(case.outline);
    let last = Last { tableau, step };
    let is_sound = is_sound_last(alloc, case, last, named)?;
    let fit = fit_after(alloc, case.p, last, named)?;
    let all_sound = walked.is_sound & is_sound;
    Ok(verdict(all_sound, walked.is_called_for, fit, walked.station.count))
}

// The verdict by the last corner, if no quantity is shown.
fn verdict_there(
    alloc: Global,
    case: PathCase<'_>,
    walked: Walked,
) -> Result<PathVerdict, OutOfMemory>
    requires case { IsPathCase case }
    requires walked { IsWalked case walked }
    ensures { IfOk result (IsPathVerdict case.entry.p.now case.entry.path.now None) }
{
    let count = walked.station.count;
    let is_called_for = walked.is_called_for;
    let sound_ahead = walked.is_sound;
    let table = match told(
        table_now(alloc, case.p, case.outline, walked.station),
        count,
    ) {
        Ok(table) => table,
        Err(stop) => return ended(stop, CORNER_CLAUSE),
    };
    let all_sound = sound_ahead & is_sound_there(case, &table);
    Ok(verdict(all_sound, is_called_for, Fit::Unfit, count))
}

// The verdict on a path whose first three clauses hold.
fn last_verdict(
    alloc: Global,
    case: PathCase<'_>,
    walked: Walked,
    unfit: Option<Quantity>,
) -> Result<PathVerdict, OutOfMemory>
    requires case { IsPathCase case }
    requires walked { IsWalked case walked }
    ensures { IfOk result (IsPathVerdict case.entry.p.now case.entry.path.now unfit) }
{
    let Some(named) = unfit else {
        return verdict_there(alloc, case, walked);
    };
    match walked.station.step {
        Some(step) => verdict_after(alloc, case, &walked, step, named),
        None => check_at_start(alloc, case.p, case.outline, case.path, named),
    }
}

// The verdict on a path whose first corner is a corner, and whose swaps are these.
fn along_verdict(
    alloc: Global,
    case: PathCase<'_>,
    steps: &[Step],
    station: Station,
    unfit: Option<Quantity>,
) -> Result<PathVerdict, OutOfMemory>
    requires case { IsPathCase case }
    requires steps { AreSteps case.p.now case.path.now.swaps steps.now }
    requires first { IsAtFirst case station }
    ensures { IfOk result (IsPathVerdict case.entry.p.now case.entry.path.now unfit) }
{
    case.p.show_whole(); // for the proof: what a problem keeps
    let is_twice = comes_twice(alloc, case.wanted, steps)?;
    let walked = match walk(alloc, case, steps, station) {
        Ok(walked) => walked,
        Err(stop) => return ended(stop, EXCHANGES_CLAUSE),
    };
    if is_twice {
        return Ok(PathVerdict::No(APART_CLAUSE));
    }
    last_verdict(alloc, case, walked, unfit)
}

// The verdict on a path with as many different marks as there are rows.
fn judged(
    alloc: Global,
    case: PathCase<'_>,
    unfit: Option<Quantity>,
) -> Result<PathVerdict, OutOfMemory>
    requires { IsPathCase case }
    ensures { IfOk result (IsPathVerdict case.entry.p.now case.entry.path.now unfit) }
{
    let station = match to_first(alloc, case) {
        Ok(station) => station,
        Err(stop) => return ended(stop, CORNER_CLAUSE),
    };
    let Some(steps) = steps_of(alloc, case.names, case.path.swaps())? else {
        return Ok(PathVerdict::No(EXCHANGES_CLAUSE));
    };
    along_verdict(alloc, case, &steps, station, unfit)
}

// The verdict on a path with as many marks as there are rows.
fn check_marks(
    alloc: Global,
    p: &Problem,
    path: &Path,
    unfit: Option<Quantity>,
) -> Result<PathVerdict, OutOfMemory>
    requires count { IsShortPath path.now }
    requires rows { length path.now.corner ≡ length p.now.rows }
    ensures { IfOk result (IsPathVerdict p.now path.now unfit) }
{
    p.show_whole(); // for the proof: what a problem keeps
    let names = names(alloc, p)?;
    let Some(wanted) = sides_of(alloc, &names, path.corner())? else {
        return Ok(PathVerdict::No(CORNER_CLAUSE));
    };
    let outline = Outline::of(alloc, p)?;
    let case = PathCase {
        p,
        outline: &outline,
        path,
        names: &names,
        wanted: &wanted,
    };
    judged(alloc, case, unfit)
}

/// The verdict on a path that is shown with a quantity that does not fit at its last corner, or with none.
///
/// `No(9)`: the marks are no corner. `No(10)`: a swap is no exchange. `No(11)`: a corner comes twice.
/// `No(12)`: on a primal path some value is negative, on a dual one some column. If a primal path without a
/// swap is shown with a sum of first terms, the marks of its row and of rows after it are not judged.
/// `No(13)`: a corner before the last is an end, or an exchange is not called for. `No(14)`: the quantity
/// fits. `NoRoom`: after so many exchanges of the checker's own route a quantity that counts does not fit.
pub fn check_path(
    alloc: Global,
    p: &Problem,
    path: &Path,
    unfit: Option<Quantity>,
) -> Result<PathVerdict, OutOfMemory>
    requires { IsShortPath path.now }
    ensures { IfOk result (IsPathVerdict p.now path.now unfit) }
{
    if path.corner().len() != p.rows().len() {
        return Ok(PathVerdict::No(CORNER_CLAUSE));
    }
    check_marks(alloc, p, path, unfit)
}
