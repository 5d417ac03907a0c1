// The priorities at which something is lacking.
ghost use Rattle.std.specs.Prelude.{◌≡◌, ◌≢◌, ◌<◌, ◌≤◌, ◌-◌, pos, true, false, IfOk};
ghost use Rattle.frac_core.specs.Fraction.{IsKept};
ghost use Rattle.problem_core.specs.declared.limits.TheConstants.{REQUIRED};
ghost use Rattle.diagnosis.specs.Costs.{AreCosts};

use corner_view::Tableau;
use frac_core::{Frac, OutOfMemory};
use layout_solver::Engine;
use problem_core::{Level, REQUIRED};
use std::alloc::Global;

// Whether the sum is 0.
fn is_zero(sum: Frac) -> bool
    ensures yes { result ≡ true → sum.num ≡ pos 0 }
    ensures no { result ≡ false → sum.num ≢ pos 0 }
    ensures kept { IsKept sum }
{
    sum.num() == 0
}

// Appends the priority below this one with the sum of its weighted errors, if the sum is not 0.
fn push_cost<T: Tableau>(
    out: &mut Vec<(u16, Frac)>,
    e: &Engine<T>,
    above: u16,
) -> Result<(), OutOfMemory>
    requires some { 0 < above }
    requires most { above ≤ REQUIRED }
    ensures { IfOk result (λ _. AreCosts e.now.problem e.now.values above out.old.items
        → AreCosts e.now.problem e.now.values (above - 1) out.new.items) }
{
    let rank = above - 1;
    let cost = e.cost(Level::Priority(rank));
    if !is_zero(cost) {
        out.push((rank, cost))?;
    }
    Ok(())
}

/// The priorities below that of required rows at which the sum of the weighted errors is not 0, from the
/// greatest, each with this sum in points.
pub fn costs<T: Tableau>(alloc: Global, e: &Engine<T>) -> Result<Vec<(u16, Frac)>, OutOfMemory>
    ensures { IfOk result (λ out. AreCosts e.now.problem e.now.values 1 out.items) }
{
    let mut out = Vec::new(alloc);
    let mut rank = REQUIRED;
    while rank > 1 {
        push_cost(&mut out, e, rank)?;
        rank -= 1;
    }
    Ok(out)
}
