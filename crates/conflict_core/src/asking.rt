// Asks an engine about a request's problem.
ghost use Rattle.std.specs.Prelude.{◌≡◌, ◌<◌, ℕ, length, IfOk};
ghost use Rattle.version_lists.specs.declared.versions.TheConstants.{VERSION_LIMIT};
ghost use Rattle.layout_solver.specs.Layouts as layouts;
ghost use Rattle.layout_solver.specs.declared.request.Request as requests;
ghost use Rattle.layout_solver.specs.Requests.{CanSolve, IsRequestStop, posed_by};
ghost use Rattle.conflict_core.specs.Asking.{IsKnown};

use cert_core::Conflict;
use corner_view::Tableau;
use frac_core::OutOfMemory;
use layout_solver::{Engine, Request, RequestStop};

/// What is known of a problem's required rows: they have a solution, or these multipliers refute them, or
/// neither is known.
#[derive(Drop)]
pub(crate) enum Known {
    Solvable,
    Refuted(Conflict),
    Nothing,
}

// What is known after such a stop of the engine.
fn stopped(stop: RequestStop) -> Result<Known, OutOfMemory>
    ensures { IfOk result (λ known. (l : layouts.Layout) (request : requests.Request) (budget : ℕ)
        → IsRequestStop l request budget stop → IsKnown (posed_by l request) known) }
{
    match stop {
        RequestStop::Conflict(by) => Ok(Known::Refuted(by)),
        RequestStop::Unfit { .. } | RequestStop::Spent(_) => Ok(Known::Nothing),
        RequestStop::OutOfMemory => Err(OutOfMemory),
    }
}

/// What is known of the request's problem after the engine tried to solve it. The engine does not change.
pub(crate) fn asked<T: Tableau>(
    e: &mut Engine<T>,
    request: &Request,
    budget: u64,
) -> Result<Known, OutOfMemory>
    requires room { length e.old.earlier < VERSION_LIMIT }
    requires can { CanSolve e.old request.now }
    ensures known { IfOk result (IsKnown (posed_by e.old request.now)) }
    ensures same { e.new ≡ e.old }
{
    match e.solve(request, budget) {
        Ok(()) => {
            e.show_layout(); // for the proof: what an engine keeps
            e.back();
            Ok(Known::Solvable)
        }
        Err(stop) => stopped(stop),
    }
}
