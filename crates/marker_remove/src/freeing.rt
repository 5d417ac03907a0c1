// The exchange that brings a mark of a row in.
ghost use Rattle.std.specs.Prelude.{◌≡◌, ◌<◌, [], length, true, false, Any, IfOk, IfErr};
ghost use Rattle.std.specs.Prelude.{IfSome, IfNone};
ghost use Rattle.problem_core.specs.Corners.{IsExchange, NoNegativeValue, exchanged};
ghost use Rattle.frac_core.specs.declared.memory.Stop.TheVariants.{Refused};
ghost use Rattle.corner_view.specs.Stops.{IsUnfitStop};
ghost use Rattle.corner_view.specs.Seen.{in_order};
ghost use Rattle.problem_core.specs.declared.parts.RowName.TheVariants.{Held};
ghost use Rattle.problem_core.specs.Unfit.{over_mark};
ghost use Rattle.marker_remove.specs.Freed.{DoStand, HasMarkIn, HasSameValues, IsFreeStop, IsFreed};
ghost use Rattle.marker_remove.specs.Freed.{IsStayMover};

use crate::leaving::leaving;
use cert_core::{Path, RunStop, Swap, UnfitPath};
use corner_ends::first_marks;
use corner_view::{Corner, Tableau};
use frac_core::{OutOfMemory, Stop};
use problem_core::{Mark, Quantity, RowName, Side};
use std::alloc::Global;

// The row's mark on a side.
fn mark_of(id: u32, side: Side) -> Mark
    ensures { result ≡ record { row = Held id; side = side } }
{
    Mark {
        row: RowName::Held(id),
        side,
    }
}

/// Whether a mark of the row is inside.
pub fn is_free<T: Tableau>(c: &Corner<T>, id: u32) -> bool
    requires { Any (λ r. r.id ≡ id) c.now.problem.rows }
    ensures yes { result ≡ true → HasMarkIn c.now.marks id }
    ensures no { result ≡ false → HasMarkIn c.now.marks id → ⊥ }
{
    c.is_inside(mark_of(id, Side::Under)) || c.is_inside(mark_of(id, Side::Over))
}

// The path of no exchange at the corner after this one.
fn freed_path<T: Tableau>(alloc: Global, c: &Corner<T>, swap: Swap) -> Result<Path, OutOfMemory>
    requires { IsExchange c.now.problem c.now.marks swap }
    ensures { IfOk result (λ path. path ≡ record {
      dual = false;
      corner = in_order c.now.problem (exchanged swap c.now.marks);
      swaps = [];
    }) }
{
    let back = Swap {
        enter: swap.leave,
        leave: swap.enter,
    };
    let marks = first_marks(alloc, c, &[back])?;
    Path::of(alloc, false, &marks, &[])
}

// The stop where a quantity does not fit at the corner after the exchange.
fn unfit<T: Tableau>(
    alloc: Global,
    c: &Corner<T>,
    id: u32,
    swap: Swap,
    quantity: Quantity,
) -> RunStop
    requires fresh { HasMarkIn c.now.marks id → ⊥ }
    requires enter { swap.enter ≡ over_mark id }
    requires stay { IsStayMover c.now.problem c.now.marks swap.enter swap.leave }
    requires exchange { IsExchange c.now.problem c.now.marks swap }
    requires values { NoNegativeValue c.now.problem c.now.marks }
    requires standing { DoStand c.now.problem c.now.marks }
    requires quantity { IsUnfitStop c.now.problem (exchanged swap c.now.marks) (Refused quantity) }
    ensures { IsFreeStop c.now.problem c.now.marks id result }
{
    c.show_corner(); // for the proof: what a corner keeps
    match freed_path(alloc, c, swap) {
        Ok(path) => RunStop::Unfit(UnfitPath { path, quantity }),
        Err(OutOfMemory) => RunStop::OutOfMemory,
    }
}

/// Brings a mark of the row in, against a stay's, where none is inside. The stays stand at the present
/// values, and no value changes.
///
/// `Unfit`: a quantity does not fit at the corner after the exchange, which is the path's. After an error
/// only the earlier corners are said to be as before.
pub fn free_row<T: Tableau>(
    alloc: Global,
    c: &mut Corner<T>,
    id: u32,
) -> Result<Option<Swap>, RunStop>
    requires marked { 0 < length c.old.before }
    requires held { Any (λ r. r.id ≡ id) c.old.problem.rows }
    requires values { NoNegativeValue c.old.problem c.old.marks }
    requires standing { DoStand c.old.problem c.old.marks }
    ensures problem { IfOk result (λ _. c.new.problem ≡ c.old.problem) }
    ensures before { c.new.before ≡ c.old.before }
    ensures some { IfOk result (λ freed. IfSome freed (IsFreed c.old.problem c.old.marks id c.new.marks)) }
    ensures fresh { IfOk result (λ freed. IfSome freed (λ _. HasMarkIn c.old.marks id → ⊥)) }
    ensures none { IfOk result (λ freed. IfNone freed (c.new ≡ c.old)) }
    ensures inside { IfOk result (λ _. HasMarkIn c.new.marks id) }
    ensures same { IfOk result (λ _. HasSameValues c.old.problem c.old.marks c.new.marks) }
    ensures values { IfOk result (λ _. NoNegativeValue c.new.problem c.new.marks) }
    ensures stop { IfErr result (IsFreeStop c.old.problem c.old.marks id) }
{
    c.show_corner(); // for the proof: what a corner keeps
    if is_free(c, id) {
        return Ok(None);
    }
    let enter = mark_of(id, Side::Over);
    let leave = leaving(c, enter);
    match c.swap(enter, leave) {
        Ok(()) => Ok(Some(Swap { enter, leave })),
        Err(Stop::Refused(quantity)) => {
            Err(unfit(alloc, c, id, Swap { enter, leave }, quantity))
        }
        Err(Stop::OutOfMemory) => Err(RunStop::OutOfMemory),
    }
}
