// The attributes that move.
ghost use Rattle.std.specs.Prelude.{◌≡◌, ◌<◌, ◌++◌, ◌∷◌, [], ℕ, List, All, AllPairs, IfOk, IfErr};
ghost use Rattle.problem_core.specs.Layout.{HasStay};
ghost use Rattle.diagnosis.specs.Probes.{AreMoving, AreMovingAmong, CanProbeAll, IsStopAt};
ghost use Rattle.diagnosis.specs.Probes.{listed};

use crate::probing::{Answer, DiagnoseStop, Stopped, ambiguous};
use corner_view::Tableau;
use frac_core::{Frac, OutOfMemory};
use layout_solver::Engine;
use problem_core::numbers_of;
use std::alloc::Global;

// Appends an attribute that moves, with the value that it reaches.
fn push_answer(out: &mut Vec<(u32, Frac)>, attr: u32, answer: Answer) -> Result<(), OutOfMemory>
    ensures { IfOk result (λ _. out.new.items ≡ out.old.items ++ listed attr answer) }
{
    match answer {
        Answer::Fixed => Ok(()),
        Answer::Moves(value) => {
            out.push((attr, value))?;
            Ok(())
        }
    }
}

// Appends the attribute, if it moves, with the value that it reaches.
fn push_moving<T: Tableau>(
    alloc: Global,
    out: &mut Vec<(u32, Frac)>,
    e: &mut Engine<T>,
    attr: u32,
    budget: u64,
) -> Result<(), Stopped>
    requires can { CanProbeAll e.old }
    requires held { HasStay e.old.problem.stays attr }
    ensures moving { IfOk result (λ _. (attrs : List ℕ) → All (λ a. a < attr) attrs
        → AreMovingAmong e.old.problem e.old.values attrs out.old.items
        → AreMovingAmong e.old.problem e.old.values (attrs ++ attr ∷ []) out.new.items) }
    ensures stop { IfErr result (λ s. IsStopAt e.old budget s.attr s.stop) }
    ensures same { e.new ≡ e.old }
{
    e.show_layout(); // for the proof: what an engine keeps
    match ambiguous(alloc, e, attr, budget) {
        Ok(answer) => match push_answer(out, attr, answer) {
            Ok(()) => Ok(()),
            Err(OutOfMemory) => Err(Stopped {
                attr,
                stop: DiagnoseStop::OutOfMemory,
            }),
        },
        Err(stop) => Err(Stopped { attr, stop }),
    }
}

// Those of these attributes that move, by number.
fn moving_among<T: Tableau>(
    alloc: Global,
    e: &mut Engine<T>,
    attrs: &[u32],
    budget: u64,
) -> Result<Vec<(u32, Frac)>, Stopped>
    requires can { CanProbeAll e.old }
    requires held { All (HasStay e.old.problem.stays) attrs.now }
    requires rising { AllPairs (λ a b. a < b) attrs.now }
    ensures moving { IfOk result (λ out. AreMovingAmong e.old.problem e.old.values attrs.now out.items) }
    ensures stop { IfErr result (λ s. IsStopAt e.old budget s.attr s.stop) }
    ensures same { e.new ≡ e.old }
{
    let mut out = Vec::new(alloc);
    for attr in attrs {
        push_moving(alloc, &mut out, e, *attr, budget)?;
    }
    Ok(out)
}

/// The attributes that move among the assignments that are best without the stays, by number, each with the
/// value that it reaches, as [`ambiguous`] answers. The engine does not change.
///
/// A stop has the number of the attribute whose probe stopped. Those of lower numbers were probed.
pub fn all_ambiguous<T: Tableau>(
    alloc: Global,
    e: &mut Engine<T>,
    budget: u64,
) -> Result<Vec<(u32, Frac)>, Stopped>
    requires can { CanProbeAll e.old }
    ensures moving { IfOk result
        (λ out. AreMoving e.old.problem e.old.values e.old.problem.stays out.items) }
    ensures stop { IfErr result (λ s. IsStopAt e.old budget s.attr s.stop) }
    ensures same { e.new ≡ e.old }
{
    e.show_layout(); // for the proof: what an engine keeps
    let attrs = numbers_of(alloc, e.stays())?;
    moving_among(alloc, e, &attrs, budget)
}
