// The run to a corner without negative values.
ghost use Rattle.std.specs.Prelude.{◌≡◌, ◌<◌, [], length, true, IfOk, IfErr};
ghost use Rattle.std.specs.Prelude.{IfSome, IfNone};
ghost use Rattle.problem_core.specs.Corners.{NoNegativeColumn, NoNegativeValue};
ghost use Rattle.problem_core.specs.Levels.{CostsAbove};
ghost use Rattle.cert_core.specs.Stops.{IsStopOf};
ghost use Rattle.corner_view.specs.Changes.{scene_of};
ghost use Rattle.corner_ends.specs.Runs.{FromHere, HasEnded, HasRunBetween};
ghost use Rattle.corner_ends.specs.Shares.{IsConflictStop};
ghost use Rattle.dual_run.specs.Leaving.{AreLowLines};
ghost use Rattle.dual_run.specs.Turning.{IsNext};

use crate::leaving::{Leave, leaving};
use crate::runs::step;
use cert_core::RunStop;
use corner_ends::{Trail, conflict_stop, is_costly};
use corner_view::{Corner, Tableau};
use problem_core::RowName;
use std::alloc::Global;

// The mark that leaves next, and None at the end of the run.
fn next<T: Tableau>(
    alloc: Global,
    c: &Corner<T>,
    low: &mut Vec<RowName>,
    left: &mut usize,
) -> Result<Option<Leave>, RunStop>
    requires columns { NoNegativeColumn c.now.problem c.now.marks }
    requires low { AreLowLines c.now.problem c.now.marks low.old.items }
    ensures low { AreLowLines c.now.problem c.now.marks low.new.items }
    ensures leaves { IfOk result (λ found. IfSome found (IsNext c.now.problem c.now.marks)) }
    ensures values { IfOk result (λ found. IfNone found (NoNegativeValue c.now.problem c.now.marks)) }
    ensures costs { IfOk result (λ found. IfNone found (CostsAbove c.now.problem c.now.marks 0 → ⊥)) }
    ensures stop { IfErr result (IsConflictStop c.now.problem) }
{
    c.show_corner(); // for the proof: what a corner keeps
    if is_costly(c) {
        return Err(conflict_stop(alloc, c));
    }
    Ok(leaving(c, low, left))
}

// Takes all lines off the list, where no column is negative.
fn unlist_all<T: Tableau>(c: &mut Corner<T>)
    requires { NoNegativeColumn c.old.problem c.old.marks }
    ensures scene { scene_of c.new ≡ scene_of c.old }
    ensures before { c.new.before ≡ c.old.before }
    ensures listed { c.new.candidates ≡ [] }
{
    c.show_corner(); // for the proof: what a corner keeps
    while c.candidates() > 0 {
        let last = c.candidates() - 1;
        c.unlist(last);
    }
}

/// Exchanges marks until no value is negative. No column is negative on the way, and no corner comes twice.
///
/// `Conflict`: the required rows have no solution, as the multipliers show. `Unfit`: a quantity does not fit
/// at the path's last corner. `Spent`: the path has as many exchanges as the budget, and its last corner is
/// no end. After a stop the caller goes back to the corner's newest mark. Only the given lines and those
/// whose values change on the way are looked at for negative values.
pub fn restore<T: Tableau>(
    alloc: Global,
    c: &mut Corner<T>,
    low: Vec<RowName>,
    budget: u64,
) -> Result<(), RunStop>
    requires marked { 0 < length c.old.before }
    requires columns { NoNegativeColumn c.old.problem c.old.marks }
    requires low { AreLowLines c.old.problem c.old.marks low.items }
    ensures problem { IfOk result (λ _. c.new.problem ≡ c.old.problem) }
    ensures before { c.new.before ≡ c.old.before }
    ensures end { IfOk result (λ _. HasEnded c.new) }
    ensures path { IfOk result (λ _. HasRunBetween true c.old.problem c.old.marks budget c.new.marks) }
    ensures stop { IfErr result
        (IsStopOf true c.old.problem c.old.problem.rows (FromHere c.old.marks) budget) }
{
    c.show_corner(); // for the proof: what a corner keeps
    let mut trail = Trail::with_room(alloc, true, c, low.len())?;
    let mut low = low;
    let mut left = low.len(); // all lines are to be looked at for turns
    loop {
        let found = next(alloc, c, &mut low, &mut left)?;
        match found {
            Some(leave) => {
                if trail.is_spent(budget) {
                    return Err(trail.spent(c));
                }
                step(&mut trail, c, leave, &mut low)?;
            }
            None => {
                unlist_all(c);
                return Ok(());
            }
        }
    }
}
