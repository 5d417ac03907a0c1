// From a corner to the best one of a request's problem.
ghost use Rattle.std.specs.Prelude.{◌≡◌, [], IfOk, IfErr, Ok, Err};
ghost use Rattle.corner_ends.specs.Runs.{HasEnded};
ghost use Rattle.layout_solver.specs.Layouts.{Layout};
ghost use Rattle.layout_solver.specs.Engines.{IsLayoutAt, IsMarkedAs};
ghost use Rattle.layout_solver.specs.Requests.{CanSolve, IsRequestStop, IsSolvedBy, posed_by};
ghost use Rattle.layout_solver.specs.Requests.{run_of, still_of};

use crate::changing::extend;
use crate::keeping::reorder;
use crate::removing::shrink;
use crate::request::{Request, RequestStop, stop_of};
use crate::shifting::alter;
use cert_core::RunStop;
use corner_view::{Corner, Tableau};
use std::alloc::Global;

// The outcome of a run, as that of a request.
fn end_of(alloc: Global, run: Result<(), RunStop>) -> Result<(), RequestStop>
    ensures ok { IfOk result (λ u. run ≡ Ok u) }
    ensures stop { IfErr result (λ stop. (still_of stop ≡ []) × (run ≡ Err (run_of stop))) }
{
    match run {
        Ok(()) => Ok(()),
        Err(stop) => Err(stop_of(alloc, stop)),
    }
}

/// Goes on to the best corner of a request's problem. The corner has just been marked.
pub(crate) fn go<T: Tableau>(
    alloc: Global,
    c: &mut Corner<T>,
    request: &Request,
    budget: u64,
) -> Result<(), RequestStop>
    requires { (l : Layout) × IsMarkedAs c.old l × CanSolve l request.now }
    ensures before { c.new.before ≡ c.old.before }
    ensures end { IfOk result (λ _. HasEnded c.new) }
    ensures problem { IfOk result
        (λ _. (l : Layout) → IsMarkedAs c.old l → c.new.problem ≡ posed_by l request.now) }
    ensures solved { IfOk result (λ _. (l new : Layout) → IsMarkedAs c.old l → IsLayoutAt c.new new
        → IsSolvedBy l request.now budget new) }
    ensures stop { IfErr result
        (λ stop. (l : Layout) → IsMarkedAs c.old l → IsRequestStop l request.now budget stop) }
{
    c.show_corner(); // for the proof: what a corner keeps
    match request {
        Request::Add { attrs, rows } => end_of(alloc, extend(alloc, c, attrs, rows, budget)),
        Request::Shift(to) => end_of(alloc, alter(alloc, c, to, budget)),
        Request::Remove { rows, attrs } => shrink(alloc, c, rows, attrs, budget),
        Request::Keep(attrs) => end_of(alloc, reorder(alloc, c, attrs, budget)),
        Request::Stand => {
            c.stand()?;
            c.show_corner(); // for the proof: what a corner keeps
            Ok(())
        }
    }
}
