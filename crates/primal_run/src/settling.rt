// The run to a corner without negative columns.
ghost use Rattle.std.specs.Prelude.{◌≡◌, ◌<◌, [], length, false, IfOk, IfErr};
ghost use Rattle.std.specs.Prelude.{IfSome, IfNone, None};
ghost use Rattle.problem_core.specs.Corners.{NoNegativeColumn, NoNegativeValue};
ghost use Rattle.problem_core.specs.Levels.{CostsAbove};
ghost use Rattle.cert_core.specs.Stops.{IsStopOf};
ghost use Rattle.corner_ends.specs.Columns.{IsNegative};
ghost use Rattle.corner_ends.specs.Runs.{FromHere, HasEnded, HasRunBetween};
ghost use Rattle.corner_ends.specs.Shares.{IsConflictStop};
ghost use Rattle.primal_run.specs.Entering.{IsChoice, MayEnter};

use crate::entering::{Choice, pick};
use crate::required::{required_of, required_pick};
use crate::runs::exchange;
use cert_core::RunStop;
use corner_ends::{Trail, conflict_stop, is_costly};
use corner_view::{Corner, Tableau};
use problem_core::Mark;
use std::alloc::Global;

// The mark that enters where the required rows cost. A choice is one at the strongest level, so that only
// before a conflict all lines are looked at again.
fn required_entering<T: Tableau>(
    alloc: Global,
    c: &Corner<T>,
    found: Option<Choice>,
) -> Result<Mark, RunStop>
    requires costs { CostsAbove c.now.problem c.now.marks 0 }
    requires found { IfSome found (IsChoice c.now.problem c.now.marks) }
    ensures enters { IfOk result (MayEnter c.now.problem c.now.marks) }
    ensures stop { IfErr result (IsConflictStop c.now.problem) }
{
    c.show_corner(); // for the proof: what a corner keeps
    if let Some(mark) = required_of(c, found) {
        return Ok(mark);
    }
    match required_pick(c) {
        Some(mark) => Ok(mark),
        None => Err(conflict_stop(alloc, c)),
    }
}

// The mark of a choice.
fn mark_of<T: Tableau>(c: &Corner<T>, found: Option<Choice>) -> Option<Mark>
    requires { IfSome found (IsChoice c.now.problem c.now.marks) }
    ensures some { IfSome result (IsNegative c.now.problem c.now.marks) }
    ensures none { result ≡ None → found ≡ None }
{
    let choice = found?;
    Some(choice.mark)
}

// The mark that enters next, and None at the end of the run.
fn entering<T: Tableau>(alloc: Global, c: &mut Corner<T>) -> Result<Option<Mark>, RunStop>
    ensures problem { c.new.problem ≡ c.old.problem }
    ensures marks { c.new.marks ≡ c.old.marks }
    ensures before { c.new.before ≡ c.old.before }
    ensures enters { IfOk result (λ found. IfSome found (MayEnter c.old.problem c.old.marks)) }
    ensures columns { IfOk result (λ found. IfNone found (NoNegativeColumn c.old.problem c.old.marks)) }
    ensures costs { IfOk result (λ found. IfNone found (CostsAbove c.old.problem c.old.marks 0 → ⊥)) }
    ensures listed { IfOk result (λ found. IfNone found (c.new.candidates ≡ [])) }
    ensures stop { IfErr result (IsConflictStop c.old.problem) }
{
    c.show_corner(); // for the proof: what a corner keeps
    let costly = is_costly(c);
    let found = pick(c);
    c.show_corner(); // for the proof: what a corner keeps
    if costly {
        let mark = required_entering(alloc, c, found)?;
        return Ok(Some(mark));
    }
    Ok(mark_of(c, found))
}

// Exchanges marks from the first one that enters to the end.
fn run_on<T: Tableau>(
    alloc: Global,
    c: &mut Corner<T>,
    budget: u64,
    first: Mark,
) -> Result<(), RunStop>
    requires marked { 0 < length c.old.before }
    requires values { NoNegativeValue c.old.problem c.old.marks }
    requires first { MayEnter c.old.problem c.old.marks first }
    ensures problem { IfOk result (λ _. c.new.problem ≡ c.old.problem) }
    ensures before { c.new.before ≡ c.old.before }
    ensures end { IfOk result (λ _. HasEnded c.new) }
    ensures path { IfOk result (λ _. HasRunBetween false c.old.problem c.old.marks budget c.new.marks) }
    ensures stop { IfErr result
        (IsStopOf false c.old.problem c.old.problem.rows (FromHere c.old.marks) budget) }
{
    let mut trail = Trail::of(alloc, false, c);
    let mut enter = first;
    loop {
        if trail.is_spent(budget) {
            return Err(trail.spent(c));
        }
        exchange(&mut trail, c, enter)?;
        let found = entering(alloc, c)?;
        match found {
            Some(next) => enter = next,
            None => return Ok(()),
        }
    }
}

/// Exchanges marks until no column is negative. No value is negative on the way, and no corner comes twice.
///
/// `Conflict`: the required rows have no solution, as the multipliers show. `Unfit`: a quantity does not fit
/// at the path's last corner. `Spent`: the path has as many exchanges as the budget, and its last corner is
/// no end. After a stop the caller goes back to the corner's newest mark. Against cycles stands the
/// lexicographic rule of the simplex method.
pub fn settle<T: Tableau>(alloc: Global, c: &mut Corner<T>, budget: u64) -> Result<(), RunStop>
    requires marked { 0 < length c.old.before }
    requires values { NoNegativeValue c.old.problem c.old.marks }
    ensures problem { IfOk result (λ _. c.new.problem ≡ c.old.problem) }
    ensures before { c.new.before ≡ c.old.before }
    ensures end { IfOk result (λ _. HasEnded c.new) }
    ensures path { IfOk result (λ _. HasRunBetween false c.old.problem c.old.marks budget c.new.marks) }
    ensures stop { IfErr result
        (IsStopOf false c.old.problem c.old.problem.rows (FromHere c.old.marks) budget) }
{
    c.show_corner(); // for the proof: what a corner keeps
    let found = entering(alloc, c)?;
    match found {
        Some(first) => run_on(alloc, c, budget, first),
        None => Ok(()),
    }
}
