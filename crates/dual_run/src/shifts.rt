// The change of a row's constant, with the lines whose values are negative with it.
ghost use Rattle.std.specs.Prelude.{◌≡◌, ◌<◌, length, IfOk, IfErr, OnErr};
ghost use Rattle.problem_core.specs.Kept.{IsWhole};
ghost use Rattle.problem_core.specs.declared.parts.RowName.TheVariants.{Held};
ghost use Rattle.corner_lines.specs.Shifts.{with_constant};
ghost use Rattle.corner_view.specs.Changes.{IsNear, IsRewound};
ghost use Rattle.corner_view.specs.Stops.{IsUnfitStop};
ghost use Rattle.dual_run.specs.Leaving.{AreLowLines};

use corner_view::{Corner, Tableau};
use frac_core::{Frac, OutOfMemory, Stop};
use problem_core::{RowName, TableStop};

/// Gives a row this constant, as `Corner::shift` does, and lists the lines whose values are negative with it.
pub fn shift<T: Tableau>(
    c: &mut Corner<T>,
    low: &mut Vec<RowName>,
    id: u32,
    to: Frac,
) -> Result<(), TableStop>
    requires marked { 0 < length c.old.before }
    requires near { IsNear c.old.problem id to }
    ensures problem { IfOk result (λ _. c.new.problem ≡ with_constant id to c.old.problem) }
    ensures whole { IfOk result (λ _. IsWhole c.new.problem) }
    ensures marks { IfOk result (λ _. c.new.marks ≡ c.old.marks) }
    ensures before { c.new.before ≡ c.old.before }
    ensures candidates { IfOk result (λ _. c.new.candidates ≡ c.old.candidates) }
    ensures low { IfOk result (λ _. AreLowLines c.old.problem c.old.marks low.old.items
        → AreLowLines c.new.problem c.new.marks low.new.items) }
    ensures stop { IfErr result (IsUnfitStop (with_constant id to c.old.problem) c.old.marks) }
    ensures same { OnErr result (IsRewound c.old c.new) }
{
    c.show_corner(); // for the proof: what a corner keeps
    c.shift(id, to)?;
    c.show_corner(); // for the proof: what a corner keeps
    match c.list_low(RowName::Held(id), low) {
        Ok(()) => Ok(()),
        Err(OutOfMemory) => {
            c.rewind();
            Err(Stop::OutOfMemory)
        }
    }
}
