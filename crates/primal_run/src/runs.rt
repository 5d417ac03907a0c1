// An exchange of a run.
ghost use Rattle.std.specs.Prelude.{◌≡◌, ◌<◌, ◌+◌, List, length, false, IfOk, IfErr};
ghost use Rattle.problem_core.specs.declared.parts.Mark.{Mark as MarkOfLine};
ghost use Rattle.corner_ends.specs.Trails.{IsTrailOf, IsTrailStop, StaysTrail};
ghost use Rattle.primal_run.specs.Entering.{MayEnter};

use crate::leaving::leaving;
use cert_core::{RunStop, Swap};
use corner_ends::Trail;
use corner_view::{Corner, Tableau};
use frac_core::Stop;
use problem_core::Mark;

/// Exchanges a mark that may enter for the one that comes to 0 first.
pub(crate) fn exchange<T: Tableau>(
    trail: &mut Trail,
    c: &mut Corner<T>,
    enter: Mark,
) -> Result<(), RunStop>
    requires marked { 0 < length c.old.before }
    requires trail { (first : List MarkOfLine) × IsTrailOf false c.old.problem first trail.old c.old.marks }
    requires enter { MayEnter c.old.problem c.old.marks enter }
    ensures trail { IfOk result (λ _. StaysTrail false c.old trail.old c.new trail.new) }
    ensures problem { IfOk result (λ _. c.new.problem ≡ c.old.problem) }
    ensures before { c.new.before ≡ c.old.before }
    ensures more { IfOk result (λ _. length trail.new.swaps ≡ length trail.old.swaps + 1) }
    ensures stop { IfErr result (IsTrailStop false c.old trail.old) }
{
    c.show_corner(); // for the proof: what a corner keeps
    let leave = leaving(c, trail, enter);
    match c.swap(enter, leave) {
        Ok(()) => {
            trail.push(Swap { enter, leave })?;
            Ok(())
        }
        Err(Stop::Refused(quantity)) => Err(trail.unfit(c, Swap { enter, leave }, quantity)),
        Err(Stop::OutOfMemory) => Err(RunStop::OutOfMemory),
    }
}
