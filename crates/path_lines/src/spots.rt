// Marks and exchanges by the places of their lines.
ghost use Rattle.std.specs.Prelude.{◌≡◌, ◌≢◌, ◌<◌, ◌⊎◌, length, All, IfSome, IfNone, IfOk};
ghost use Rattle.std.specs.Prelude.{List};
ghost use Rattle.std.specs.List.{HoldsAt};
ghost use Rattle.problem_core.specs.Changes.Begins.{AreExchanges};
ghost use Rattle.problem_core.specs.Corners.{IsCorner};
ghost use Rattle.problem_core.specs.Layout.{Problem};
ghost use Rattle.problem_core.specs.declared.parts.Mark.{Mark};
ghost use Rattle.path_lines.specs.Sides.{AreSteps};
ghost use Rattle.path_lines.specs.Tables.{IsSpotOf, names_of};

use cert_core::Swap;
use frac_core::OutOfMemory;
use problem_core::{Mark, Problem, RowName, Side};
use std::alloc::Global;

/// A mark, by the place of its line.
#[derive(Clone, Copy)]
pub struct Spot {
    pub at: usize,
    pub side: Side,
}

/// An exchange of two marks.
#[derive(Clone, Copy)]
pub struct Step {
    pub enter: Spot,
    pub leave: Spot,
}

/// The names of a problem's lines, held rows before stays.
pub fn names(alloc: Global, p: &Problem) -> Result<Vec<RowName>, OutOfMemory>
    ensures { IfOk result (λ names. names.items ≡ names_of p.now) }
{
    let mut names = Vec::new(alloc);
    for r in p.rows() {
        names.push(RowName::Held(r.id()))?;
    }
    for s in p.stays() {
        names.push(RowName::Stay(s.attr))?;
    }
    Ok(names)
}

// The place of the line with this name.
fn find(names: &[RowName], name: RowName) -> Option<usize>
    ensures within { IfSome result (λ k. k < length names.now) }
    ensures found { IfSome result (HoldsAt (λ n. n ≡ name) names.now) }
    ensures none { IfNone result (All (λ n. n ≢ name) names.now) }
{
    names.iter().position(|n| *n == name)
}

/// The place of the mark's line, unless no line has its name.
pub fn spot_of(names: &[RowName], mark: Mark) -> Option<Spot>
    ensures some { IfSome result (IsSpotOf names.now mark) }
    ensures none { IfNone result (All (λ n. n ≢ mark.row) names.now) }
{
    let at = find(names, mark.row)?;
    let side = mark.side;
    Some(Spot { at, side })
}

// An exchange by places, unless a mark is of no line.
fn step_of(names: &[RowName], swap: Swap) -> Option<Step>
    ensures enter { IfSome result (λ step. IsSpotOf names.now swap.enter step.enter) }
    ensures leave { IfSome result (λ step. IsSpotOf names.now swap.leave step.leave) }
    ensures none { IfNone result (All (λ n. n ≢ swap.enter.row) names.now
        ⊎ All (λ n. n ≢ swap.leave.row) names.now) }
{
    let enter = spot_of(names, swap.enter)?;
    let leave = spot_of(names, swap.leave)?;
    Some(Step { enter, leave })
}

/// The exchanges by places, unless a mark is of no line.
pub fn steps_of(
    alloc: Global,
    names: &[RowName],
    swaps: &[Swap],
) -> Result<Option<Vec<Step>>, OutOfMemory>
    ensures some { IfOk result (λ steps. IfSome steps (λ s. (p : Problem) → names.now ≡ names_of p
        → AreSteps p swaps.now s.items)) }
    ensures none { IfOk result (λ steps. IfNone steps ((p : Problem) (at : List Mark) → names.now ≡ names_of p
        → IsCorner p at → AreExchanges p at swaps.now → ⊥)) }
{
    let mut steps = Vec::new(alloc);
    for swap in swaps {
        let Some(step) = step_of(names, *swap) else {
            return Ok(None);
        };
        steps.push(step)?;
    }
    Ok(Some(steps))
}
