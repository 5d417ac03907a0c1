// A path that is the corner where the route begins, shown with a quantity.
ghost use Rattle.std.specs.Prelude.{◌≡◌, ◌↔◌, ◌≤◌, ℕ, [], length, Option, Some, IfOk};
ghost use Rattle.std.specs.Prelude.{IsTrue, true, false};
ghost use Rattle.problem_core.specs.Layout.{Problem};
ghost use Rattle.problem_core.specs.Corners.{IsCorner, SameMarks};
ghost use Rattle.problem_core.specs.Kept.{IsWhole};
ghost use Rattle.path_lines.specs.Walking.FirstLines.{AreFirstLines};
ghost use Rattle.path_claims.specs.PathClauses.{AreSoundBefore, IsPathVerdict};
ghost use Rattle.path_lines.specs.Route.{over_marks};
ghost use Rattle.path_claims.specs.declared.verdict.PathVerdict.TheVariants.{No};
ghost use Rattle.path_claims.specs.declared.verdict.TheConstants.{SOUND_CLAUSE, UNFIT_CLAUSE};
ghost use Rattle.path_claims.specs.Begun.{IsBegunUntil, IsWholeBegun};
ghost use Rattle.path_levels.specs.Outlines.{IsOutline, IsSizedOutline};
ghost use Rattle.path_levels.specs.Corners.{HasSizedLevels};
ghost use Rattle.path_claims.specs.Orders.{IsJudgedTo};
ghost use Rattle.path_claims.specs.Starts.{AreUpTo, IsAtStart};

use crate::begins::{Begun, begin};
use crate::orders::{fit_before, judged_rows};
use crate::verdict::{PathVerdict, SOUND_CLAUSE, UNFIT_CLAUSE};
use cert_core::Path;
use frac_core::OutOfMemory;
use path_fits::Fit;
use path_levels::{Outline, Tableau, has_no_negative_column};
use path_lines::{Inside, is_up};
use problem_core::{Problem, Quantity};
use std::alloc::Global;

// Whether no value of the inside marks of so many first lines is negative.
fn are_up(lines: &[Option<Inside>], count: usize) -> bool
    requires { count ≤ length lines.now }
    ensures { (p : Problem) → IsWhole p → AreFirstLines p (length lines.now) lines.now
        → IsTrue result ↔ AreUpTo p count }
{
    for at in 0..count {
        if !is_up(&lines[at]) {
            return false;
        }
    }
    true
}

// Whether the corner is sound, if all of it is made and so many rows are judged.
fn is_sound_there(dual: bool, tableau: Tableau<'_>, judged: usize) -> bool
    requires tableau { HasSizedLevels tableau }
    requires judged { judged ≤ length tableau.corner.lines.now }
    ensures { (p : Problem) (row : Option ℕ) → IsWhole p
        → IsWholeBegun p tableau.entry.corner.outline.now tableau.entry.corner.lines.now
        tableau.entry.levels.now
        → IsJudgedTo p row judged → IsTrue result ↔ AreSoundBefore dual p (over_marks p) [] row }
{
    if dual {
        return has_no_negative_column(tableau);
    }
    are_up(tableau.corner.lines, judged)
}

// The verdict on a path whose quantity fits and whose other clauses hold, except perhaps SOUND_CLAUSE.
fn verdict_of_fitting(is_sound: bool) -> PathVerdict
    ensures { (is_sound ≡ true → result ≡ No UNFIT_CLAUSE) × (is_sound ≡ false → result ≡ No SOUND_CLAUSE) }
{
    if is_sound {
        PathVerdict::No(UNFIT_CLAUSE)
    } else {
        PathVerdict::No(SOUND_CLAUSE)
    }
}

// The verdict if a sum does not fit, and the lines before it are made.
fn verdict_until(
    p: &Problem,
    path: &Path,
    named: Quantity,
    lines: &[Option<Inside>],
    unfit: Quantity,
) -> PathVerdict
    requires begun { IsBegunUntil p.now lines.now unfit }
    requires start { IsAtStart p.now path.now }
    ensures { IsPathVerdict p.now path.now (Some named) result }
{
    p.show_whole(); // for the proof: what a problem keeps
    if path.dual() {
        return PathVerdict::NoRoom(0);
    }
    let fit = fit_before(p, named, unfit);
    if fit == Fit::NoRoom {
        return PathVerdict::NoRoom(0);
    }
    if !are_up(lines, judged_rows(p, named)) {
        return PathVerdict::No(SOUND_CLAUSE);
    }
    if fit == Fit::Fits {
        return PathVerdict::No(UNFIT_CLAUSE);
    }
    PathVerdict::Yes
}

/// The verdict on a path without swaps whose marks are the over marks of the held rows.
pub fn check_at_start(
    alloc: Global,
    p: &Problem,
    outline: &Outline,
    path: &Path,
    named: Quantity,
) -> Result<PathVerdict, OutOfMemory>
    requires outline { IsOutline p.now outline.now }
    requires sized { IsSizedOutline outline.now }
    requires swaps { path.now.swaps ≡ [] }
    requires corner { IsCorner p.now path.now.corner }
    requires marks { SameMarks path.now.corner (over_marks p.now) }
    ensures { IfOk result (IsPathVerdict p.now path.now (Some named)) }
{
    p.show_whole(); // for the proof: what a problem keeps
    match begin(alloc, p, outline)? {
        Begun::Whole(table) => {
            let judged = judged_rows(p, named);
            let is_sound = is_sound_there(path.dual(), table.tableau(outline), judged);
            Ok(verdict_of_fitting(is_sound))
        }
        Begun::Until { lines, unfit } => Ok(verdict_until(p, path, named, &lines, unfit)),
    }
}
