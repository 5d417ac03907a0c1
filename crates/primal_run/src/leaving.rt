// The inside mark that leaves.
ghost use Rattle.std.specs.Prelude.{List, false};
ghost use Rattle.problem_core.specs.Corners as corners;
ghost use Rattle.problem_core.specs.Corners.{IsIn};
ghost use Rattle.problem_core.specs.declared.parts.Mark.{Mark as MarkOfLine};
ghost use Rattle.problem_core.specs.declared.stops.What.TheVariants.{Mark as MarkOf};
ghost use Rattle.corner_laws.specs.Runs.{IsFirstToLeave};
ghost use Rattle.corner_view.specs.Seen.{IsOutside, MovesWith};
ghost use Rattle.corner_ends.specs.Trails.{IsTrailOf};
ghost use Rattle.primal_run.specs.Deciding.{FromTies};
ghost use Rattle.primal_run.specs.Entering.{MayEnter};
ghost use Rattle.primal_run.specs.Leaving.{IsNextFirst, IsRatioOrNone};

use crate::deciding::earlier;
use crate::ties::{Ratio, ratio_of};
use corner_ends::Trail;
use corner_view::{Corner, Tableau};
use problem_core::{Mark, What};

// The ratio of what leaves, where one more is looked at that moves with the entering mark.
fn next_first<T: Tableau>(
    c: &Corner<T>,
    trail: &Trail,
    found: Option<Ratio>,
    what: What,
    enter: Mark,
) -> Option<Ratio>
    requires outside { IsOutside c.now.problem c.now.marks enter }
    requires moves { MovesWith c.now.problem c.now.marks enter what }
    requires found { IsRatioOrNone c.now.problem c.now.marks (corners.place enter) found }
    ensures ratio { IsRatioOrNone c.now.problem c.now.marks (corners.place enter) result }
    ensures first { FromTies c.now trail.now (λ ties.
        IsNextFirst c.now.problem c.now.marks (corners.place enter) ties what found result) }
{
    c.show_corner(); // for the proof: what a corner keeps
    let What::Mark(m) = what else {
        return found;
    };
    let Some(ratio) = ratio_of(c, m, enter) else {
        return found;
    };
    match found {
        Some(other) => Some(earlier(c, trail, ratio, other, enter)),
        None => Some(ratio),
    }
}

/// The inside mark that comes to 0 first where a mark enters.
pub(crate) fn leaving<T: Tableau>(c: &Corner<T>, trail: &Trail, enter: Mark) -> Mark
    requires trail { (first : List MarkOfLine) × IsTrailOf false c.now.problem first trail.now c.now.marks }
    requires enter { MayEnter c.now.problem c.now.marks enter }
    ensures inside { IsIn (corners.place result) c.now.marks }
    ensures moves { MovesWith c.now.problem c.now.marks enter (MarkOf result) }
    ensures first { FromTies c.now trail.now (λ ties.
        IsFirstToLeave c.now.problem ties c.now.marks (record { enter = enter; leave = result })) }
{
    c.show_corner(); // for the proof: what a corner keeps
    let count = c.movers(enter);
    let mut found = None;
    for i in 0..count {
        found = next_first(c, trail, found, c.mover(enter, i), enter);
    }
    match found {
        Some(ratio) => ratio.mark,
        None => unreachable!(),
    }
}
