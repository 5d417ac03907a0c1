// The levels of a corner's certificate.
ghost use Rattle.std.specs.Prelude.{All, IfOk, OnOk};
ghost use Rattle.problem_core.specs.Certificates.{IsCertificate};
ghost use Rattle.problem_core.specs.Corners.{Point, StandsAt, assignment_at};
ghost use Rattle.cert_core.specs.Claims.{multipliers_of};
ghost use Rattle.cert_checker.specs.Certifying.{Balances};
ghost use Rattle.corner_view.specs.Seen.{IsInUse, IsStronger};
ghost use Rattle.corner_ends.specs.Runs.{IsBestEnd};
ghost use Rattle.certificates.specs.OwnLevels.{IsOwnBest};
ghost use Rattle.certificates.specs.Reading.{IsPushed};

use crate::shares::{common_factor, share, shares};
use crate::times::{scale, times};
use cert_core::Best;
use corner_view::{Corner, Tableau};
use frac_core::OutOfMemory;
use problem_core::Level;
use std::alloc::Global;

// Puts a level's numbers at the end, where a multiplier is not 0.
fn push_level<T: Tableau>(
    alloc: Global,
    best: &mut Best,
    c: &Corner<T>,
    level: Level,
) -> Result<(), OutOfMemory>
    requires level { IsInUse c.now.problem level }
    requires stronger { All (λ l. IsStronger c.now.problem l.level level) best.old }
    ensures { OnOk result (IsPushed c.now.problem c.now.marks level best.old best.new) }
{
    c.show_corner(); // for the proof: what a corner keeps
    let by = times(alloc, c, level)?;
    if by.is_empty() {
        return Ok(());
    }
    let scale = scale(c, level);
    let factor = common_factor(scale, &by);
    best.push(level, share(scale, factor), &shares(alloc, &by, factor)?)
}

/// The certificate that a corner with the best values is: the multipliers of its levels, strongest first,
/// each level's scale and multipliers divided by the factor that they share. A level whose multipliers are
/// all 0 is left out.
pub fn certificate<T: Tableau>(alloc: Global, c: &Corner<T>) -> Result<Best, OutOfMemory>
    requires end { IsBestEnd c.now.problem c.now.marks }
    ensures own { IfOk result (IsOwnBest c.now.problem c.now.marks) }
    ensures balanced { IfOk result (Balances c.now.problem) }
    ensures certified { IfOk result (λ best. (x : Point) → StandsAt c.now.problem c.now.marks x
        → IsCertificate c.now.problem (assignment_at x) (multipliers_of c.now.problem best)) }
{
    c.show_corner(); // for the proof: what a corner keeps
    let levels = c.levels()?;
    let mut best = Best::new(alloc);
    for level in levels.iter() {
        push_level(alloc, &mut best, c, *level)?;
    }
    Ok(best)
}
