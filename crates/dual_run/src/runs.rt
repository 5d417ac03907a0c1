// An exchange of a run.
ghost use Rattle.std.specs.Prelude.{◌≡◌, ◌<◌, ◌+◌, List, length, true, IfOk, IfErr};
ghost use Rattle.problem_core.specs.Corners.{NoNegativeColumn};
ghost use Rattle.problem_core.specs.declared.parts.Mark.{Mark as MarkOfLine};
ghost use Rattle.corner_ends.specs.Trails.{IsNoConflict, IsTrailOf, IsTrailStop, StaysTrail};
ghost use Rattle.corner_laws.specs.Runs.{IsDualSwap};
ghost use Rattle.corner_view.specs.Seen.{IsOutside, MovesWith};
ghost use Rattle.problem_core.specs.declared.stops.What.TheVariants.{Mark as MarkOf};
ghost use Rattle.dual_run.specs.Leaving.{AreLowLines, HasSwapped, IsLow, MayLeave};
ghost use Rattle.dual_run.specs.Turning.{IsNext};

use crate::entering::entering;
use crate::leaving::{Leave, list_swapped, other};
use cert_core::{RunStop, Swap};
use corner_ends::Trail;
use corner_view::{Corner, Tableau};
use frac_core::Stop;
use problem_core::{Mark, RowName};

// Exchanges these marks, and lists the lines whose values are negative after it.
fn exchange_with<T: Tableau>(
    trail: &mut Trail,
    c: &mut Corner<T>,
    enter: Mark,
    leave: Mark,
    low: &mut Vec<RowName>,
) -> Result<(), RunStop>
    requires marked { 0 < length c.old.before }
    requires trail { (first : List MarkOfLine) × IsTrailOf true c.old.problem first trail.old c.old.marks }
    requires columns { NoNegativeColumn c.old.problem c.old.marks }
    requires leave { IsLow c.old.problem c.old.marks leave }
    requires outside { IsOutside c.old.problem c.old.marks enter }
    requires moves { MovesWith c.old.problem c.old.marks enter (MarkOf leave) }
    requires swap { IsDualSwap c.old.problem c.old.marks (record { enter = enter; leave = leave }) }
    requires low { AreLowLines c.old.problem c.old.marks low.old.items }
    ensures trail { IfOk result (λ _. StaysTrail true c.old trail.old c.new trail.new) }
    ensures problem { IfOk result (λ _. c.new.problem ≡ c.old.problem) }
    ensures before { c.new.before ≡ c.old.before }
    ensures low { IfOk result (λ _. AreLowLines c.new.problem c.new.marks low.new.items) }
    ensures swap { IfOk result (λ _. HasSwapped trail.old leave trail.new) }
    ensures more { IfOk result (λ _. length trail.new.swaps ≡ length trail.old.swaps + 1) }
    ensures stop { IfErr result (IsTrailStop true c.old trail.old) }
    ensures plain { IfErr result IsNoConflict }
{
    c.show_corner(); // for the proof: what a corner keeps
    match c.swap_settled(enter, leave) {
        Ok(()) => {
            c.show_corner(); // for the proof: what a corner keeps
            list_swapped(c, low, enter.row, leave.row)?;
            trail.push(Swap { enter, leave })?;
            Ok(())
        }
        Err(Stop::Refused(quantity)) => Err(trail.unfit(c, Swap { enter, leave }, quantity)),
        Err(Stop::OutOfMemory) => Err(RunStop::OutOfMemory),
    }
}

/// Exchanges a mark that may leave for that with the least column over its number, and lists the lines
/// whose values are negative after it.
pub fn exchange<T: Tableau>(
    trail: &mut Trail,
    c: &mut Corner<T>,
    leave: Mark,
    low: &mut Vec<RowName>,
) -> Result<(), RunStop>
    requires marked { 0 < length c.old.before }
    requires trail { (first : List MarkOfLine) × IsTrailOf true c.old.problem first trail.old c.old.marks }
    requires columns { NoNegativeColumn c.old.problem c.old.marks }
    requires leave { MayLeave c.old.problem c.old.marks leave }
    requires low { AreLowLines c.old.problem c.old.marks low.old.items }
    ensures trail { IfOk result (λ _. StaysTrail true c.old trail.old c.new trail.new) }
    ensures problem { IfOk result (λ _. c.new.problem ≡ c.old.problem) }
    ensures before { c.new.before ≡ c.old.before }
    ensures low { IfOk result (λ _. AreLowLines c.new.problem c.new.marks low.new.items) }
    ensures swap { IfOk result (λ _. HasSwapped trail.old leave trail.new) }
    ensures more { IfOk result (λ _. length trail.new.swaps ≡ length trail.old.swaps + 1) }
    ensures stop { IfErr result (IsTrailStop true c.old trail.old) }
    ensures plain { IfErr result IsNoConflict }
{
    let enter = entering(c, leave)?;
    exchange_with(trail, c, enter, leave, low)
}

/// Exchanges a mark that may leave, for the other one of its line where this turns.
pub(crate) fn step<T: Tableau>(
    trail: &mut Trail,
    c: &mut Corner<T>,
    leave: Leave,
    low: &mut Vec<RowName>,
) -> Result<(), RunStop>
    requires marked { 0 < length c.old.before }
    requires trail { (first : List MarkOfLine) × IsTrailOf true c.old.problem first trail.old c.old.marks }
    requires columns { NoNegativeColumn c.old.problem c.old.marks }
    requires leave { IsNext c.old.problem c.old.marks leave }
    requires low { AreLowLines c.old.problem c.old.marks low.old.items }
    ensures trail { IfOk result (λ _. StaysTrail true c.old trail.old c.new trail.new) }
    ensures problem { IfOk result (λ _. c.new.problem ≡ c.old.problem) }
    ensures before { c.new.before ≡ c.old.before }
    ensures low { IfOk result (λ _. AreLowLines c.new.problem c.new.marks low.new.items) }
    ensures more { IfOk result (λ _. length trail.new.swaps ≡ length trail.old.swaps + 1) }
    ensures stop { IfErr result (IsTrailStop true c.old trail.old) }
    ensures plain { IfErr result IsNoConflict }
{
    c.show_corner(); // for the proof: what a corner keeps
    if leave.turns {
        let own = other(leave.mark);
        return exchange_with(trail, c, own, leave.mark, low);
    }
    exchange(trail, c, leave.mark, low)
}
