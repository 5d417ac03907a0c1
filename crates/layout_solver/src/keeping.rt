// From a corner to the best one of a problem whose stays are in another order.
ghost use Rattle.std.specs.Prelude.{◌≡◌, ◌≢◌, ◌<◌, [], length, false, All, AllPairs, IfOk, IfErr};
ghost use Rattle.problem_core.specs.Layout as layout;
ghost use Rattle.problem_core.specs.Layout.{HasStay, Satisfies};
ghost use Rattle.problem_core.specs.Corners.{NoNegativeValue};
ghost use Rattle.cert_core.specs.Stops.{IsStopOf};
ghost use Rattle.corner_view.specs.AddStops.{FromAdded};
ghost use Rattle.corner_ends.specs.Runs.{HasEnded};
ghost use Rattle.layout_solver.specs.Keeping.{NoConflict};
ghost use Rattle.layout_solver.specs.Starts.{HasAdded, IsMoved};
ghost use Rattle.stay_orders.specs.Orders.{fronted};

use cert_core::RunStop;
use corner_view::{Corner, Tableau};
use primal_run::settle;
use std::alloc::Global;

/// Moves the stays to the present values, puts those of these attributes first, and goes on to the best
/// corner. It begins at the marks that are inside.
pub(crate) fn reorder<T: Tableau>(
    alloc: Global,
    c: &mut Corner<T>,
    attrs: &[u32],
    budget: u64,
) -> Result<(), RunStop>
    requires marked { 0 < length c.old.before }
    requires held { All (HasStay c.old.problem.stays) attrs.now }
    requires apart { AllPairs (λ a b. a ≢ b) attrs.now }
    requires values { NoNegativeValue c.old.problem c.old.marks }
    requires solution { (x : layout.Assignment) × Satisfies c.old.problem x }
    ensures before { c.new.before ≡ c.old.before }
    ensures problem { IfOk result (λ _. (p : layout.Problem) → IsMoved c.old [] c.old.problem.rows p
        → c.new.problem ≡ fronted attrs.now p) }
    ensures end { IfOk result (λ _. HasEnded c.new) }
    ensures path { IfOk result (λ _. (p : layout.Problem) → IsMoved c.old [] c.old.problem.rows p
        → HasAdded (fronted attrs.now p) c.old.marks [] budget c.new.marks) }
    ensures stop { IfErr result (λ stop. (p : layout.Problem) → IsMoved c.old [] c.old.problem.rows p
        → IsStopOf false (fronted attrs.now p) c.old.problem.rows
        (FromAdded (fronted attrs.now p) c.old.marks []) budget stop) }
    ensures free { IfErr result NoConflict }
{
    c.show_corner(); // for the proof: what a corner keeps
    c.stand()?;
    c.show_corner(); // for the proof: what a corner keeps
    c.put_first(attrs)?;
    c.show_corner(); // for the proof: what a corner keeps
    settle(alloc, c, budget)
}
