// From a corner to the best one of a problem with other constants.
ghost use Rattle.std.specs.Prelude.{◌≡◌, ◌<◌, ℕ, [], length, true, All, AllPairs, Any, IfOk, IfErr};
ghost use Rattle.problem_core.specs.Layout as layout;
ghost use Rattle.problem_core.specs.Corners.{NoNegativeColumn, NoNegativeValue};
ghost use Rattle.cert_core.specs.Paths as paths;
ghost use Rattle.cert_core.specs.Stops.{IsPlain, IsStopOf};
ghost use Rattle.corner_ends.specs.Runs.{FromHere, HasEnded, IsRun};
ghost use Rattle.dual_run.specs.Leaving.{AreLowLines};
ghost use Rattle.layout_solver.specs.Shifts.{AreKept, CanShift, IsAtMark, IsShiftsStop, shifted};
ghost use Rattle.layout_solver.specs.Shifts.{with_constants};
ghost use Rattle.layout_solver.specs.Starts.{IsMoved};

use crate::engine::Change;
use cert_core::{Path, RunStop, UnfitPath};
use corner_view::{Corner, Tableau};
use dual_run::{restore, shift};
use frac_core::{Frac, OutOfMemory, Stop};
use problem_core::{Quantity, Row, RowName};
use std::alloc::Global;

// Most changes turn fewer values negative.
const LOW_ROOM: usize = 16;

// The constant of a row.
fn constant_of(rows: &[Row], id: u32) -> Frac
    requires held { Any (λ r. r.id ≡ id) rows.now }
    requires rising { AllPairs (λ r s. r.id < s.id) rows.now }
    ensures { All (λ r. r.id ≡ id → r.constant ≡ result) rows.now }
{
    let at = rows.partition_point(|row| row.id() < id);
    rows[at].constant()
}

// The path without an exchange at the corner.
fn path_here<T: Tableau>(alloc: Global, c: &Corner<T>) -> Result<Path, OutOfMemory>
    ensures { IfOk result (λ path. path ≡ record { dual = true; corner = c.now.marks; swaps = [] }) }
{
    Path::of(alloc, true, &c.marks()?, &[])
}

// The stop if a quantity does not fit after so many constants changed.
fn shifts_stop<T: Tableau>(
    alloc: Global,
    c: &Corner<T>,
    quantity: Quantity,
    changed: u32,
) -> RunStop
    requires { IsPlain quantity }
    ensures { IsShiftsStop c.now.marks quantity changed result }
{
    let Quantity::Plain(what) = quantity else {
        unreachable!()
    };
    match path_here(alloc, c) {
        Ok(path) => RunStop::Unfit(UnfitPath {
            path,
            quantity: Quantity::Shifts {
                what,
                first: changed,
            },
        }),
        Err(OutOfMemory) => RunStop::OutOfMemory,
    }
}

// An empty list of lines, with room for some.
fn no_line(alloc: Global) -> Result<Vec<RowName>, OutOfMemory>
    ensures { IfOk result (λ low. low.items ≡ []) }
{
    let low = Vec::with_capacity(alloc, LOW_ROOM)?;
    Ok(low)
}

// Gives rows other constants, one by one, and lists the lines whose values are negative with them. A
// constant that a row has already is no change.
fn shift_all<T: Tableau>(
    alloc: Global,
    c: &mut Corner<T>,
    low: &mut Vec<RowName>,
    to: &[Change],
) -> Result<(), RunStop>
    requires marked { 0 < length c.old.before }
    requires newest { IsAtMark c.old }
    requires columns { NoNegativeColumn c.old.problem c.old.marks }
    requires near { CanShift c.old.problem to.now }
    requires rising { AllPairs (λ a b. a.row < b.row) to.now }
    requires kept { AreKept to.now }
    requires low { AreLowLines c.old.problem c.old.marks low.old.items }
    ensures problem { IfOk result (λ _. c.new.problem ≡ with_constants to.now c.old.problem) }
    ensures marks { IfOk result (λ _. c.new.marks ≡ c.old.marks) }
    ensures before { c.new.before ≡ c.old.before }
    ensures candidates { IfOk result (λ _. c.new.candidates ≡ c.old.candidates) }
    ensures low { IfOk result (λ _. AreLowLines c.new.problem c.new.marks low.new.items) }
    ensures stop { IfErr result (λ stop. (budget : ℕ) → IsStopOf true (with_constants to.now c.old.problem)
        c.old.problem.rows (FromHere c.old.marks) budget stop) }
{
    c.show_corner(); // for the proof: what a corner keeps
    let mut changed = 0;
    for change in to {
        if constant_of(c.rows(), change.row) == change.constant {
            continue;
        }
        changed += 1;
        match shift(c, low, change.row, change.constant) {
            Ok(()) => (),
            Err(Stop::Refused(quantity)) => {
                return Err(shifts_stop(alloc, c, quantity, changed));
            }
            Err(Stop::OutOfMemory) => return Err(RunStop::OutOfMemory),
        }
    }
    Ok(())
}

/// Moves the stays to the present values, gives rows other constants, and goes on to the best corner.
pub(crate) fn alter<T: Tableau>(
    alloc: Global,
    c: &mut Corner<T>,
    to: &[Change],
    budget: u64,
) -> Result<(), RunStop>
    requires marked { 0 < length c.old.before }
    requires newest { IsAtMark c.old }
    requires values { NoNegativeValue c.old.problem c.old.marks }
    requires columns { NoNegativeColumn c.old.problem c.old.marks }
    requires near { CanShift c.old.problem to.now }
    requires rising { AllPairs (λ a b. a.row < b.row) to.now }
    requires kept { AreKept to.now }
    ensures before { c.new.before ≡ c.old.before }
    ensures problem { IfOk result
        (λ _. IsMoved c.old [] (shifted to.now c.old.problem.rows) c.new.problem) }
    ensures end { IfOk result (λ _. HasEnded c.new) }
    ensures path { IfOk result (λ _. (p : layout.Problem)
        → IsMoved c.old [] (shifted to.now c.old.problem.rows) p
        → (path : paths.Path) × IsRun true p (FromHere c.old.marks []) budget c.new.marks path) }
    ensures stop { IfErr result (λ stop. (p : layout.Problem)
        → IsMoved c.old [] (shifted to.now c.old.problem.rows) p
        → IsStopOf true p c.old.problem.rows (FromHere c.old.marks) budget stop) }
{
    c.show_corner(); // for the proof: what a corner keeps
    c.stand()?;
    c.show_corner(); // for the proof: what a corner keeps
    let mut low = no_line(alloc)?;
    shift_all(alloc, c, &mut low, to)?;
    restore(alloc, c, low, budget)
}
