// All findings about a layout.
ghost use Rattle.std.specs.Prelude.{◌≡◌, IfOk, IfErr};
ghost use Rattle.diagnosis.specs.Diagnoses.{AreFindings, findings_of};
ghost use Rattle.diagnosis.specs.Probes.{CanProbeAll, IsStopAt};

use crate::lacking::unmet;
use crate::moving::all_ambiguous;
use crate::priorities::costs;
use crate::probing::Stopped;
use corner_view::Tableau;
use frac_core::{Frac, Wide};
use layout_solver::Engine;
use std::alloc::Global;

/// What a layout lacks, and what it leaves open.
#[derive(Debug, Drop)]
pub struct Diagnosis {
    /// The priorities below that of required rows at which the sum of the weighted errors is not 0, from the
    /// greatest, with this sum.
    pub errors: Vec<(u16, Frac)>,
    /// The rows that are not required and do not hold, by number, with their errors.
    pub unmet: Vec<(u32, Wide)>,
    /// The attributes that move, by number, with the values that they reach.
    pub moving: Vec<(u32, Frac)>,
}

/// Finds all that a layout lacks and leaves open. The engine does not change.
///
/// A stop has the number of the attribute whose probe stopped. It is 0 if memory ran out before the first
/// probe.
pub fn diagnose<T: Tableau>(
    alloc: Global,
    e: &mut Engine<T>,
    budget: u64,
) -> Result<Diagnosis, Stopped>
    requires can { CanProbeAll e.old }
    ensures found { IfOk result (λ d. AreFindings e.old.problem e.old.values (findings_of d)) }
    ensures stop { IfErr result (λ s. IsStopAt e.old budget s.attr s.stop) }
    ensures same { e.new ≡ e.old }
{
    let errors = costs(alloc, e)?;
    let unmet = unmet(alloc, e)?;
    let moving = all_ambiguous(alloc, e, budget)?;
    Ok(Diagnosis {
        errors,
        unmet,
        moving,
    })
}
