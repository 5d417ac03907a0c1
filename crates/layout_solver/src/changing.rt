// From a corner to the best one of a problem with more attributes and rows.
ghost use Rattle.std.specs.Prelude.{◌≡◌, ◌<◌, ◌++◌, length, false, IfOk, IfErr};
ghost use Rattle.problem_core.specs.Layout as layout;
ghost use Rattle.problem_core.specs.Kept.{IsWhole};
ghost use Rattle.problem_core.specs.Corners.{NoNegativeValue};
ghost use Rattle.cert_core.specs.Stops.{IsStopOf};
ghost use Rattle.corner_laws.specs.Lifts.{with_rows as with_more};
ghost use Rattle.corner_view.specs.AddStops.{FromAdded};
ghost use Rattle.corner_ends.specs.Runs.{HasEnded};
ghost use Rattle.layout_solver.specs.Layouts.{stays_at, zeros};
ghost use Rattle.layout_solver.specs.Starts.{CanTake, HasAdded, IsMoved, attrs_of};

use cert_core::RunStop;
use corner_view::{Corner, Tableau};
use frac_core::{Frac, OutOfMemory};
use primal_run::settle;
use problem_core::Row;
use std::alloc::Global;

// Adds attributes at 0.
fn add_attrs<T: Tableau>(c: &mut Corner<T>, attrs: &[u32]) -> Result<(), OutOfMemory>
    requires marked { 0 < length c.old.before }
    requires room { CanTake (attrs_of c.old.problem) attrs.now }
    ensures problem { IfOk result (λ _. c.new.problem ≡ record {
      rows = c.old.problem.rows;
      stays = c.old.problem.stays ++ stays_at (zeros attrs.now);
    }) }
    ensures marks { IfOk result (λ _. c.new.marks ≡ c.old.marks) }
    ensures before { c.new.before ≡ c.old.before }
    ensures candidates { IfOk result (λ _. c.new.candidates ≡ c.old.candidates) }
{
    for attr in attrs {
        c.add_attr(*attr, Frac::zero())?;
    }
    Ok(())
}

/// Adds rows, and goes on to the best corner.
pub(crate) fn join<T: Tableau>(
    alloc: Global,
    c: &mut Corner<T>,
    rows: &[Row],
    budget: u64,
) -> Result<(), RunStop>
    requires marked { 0 < length c.old.before }
    requires whole { IsWhole (with_more rows.now c.old.problem) }
    requires values { NoNegativeValue c.old.problem c.old.marks }
    ensures problem { IfOk result (λ _. c.new.problem ≡ with_more rows.now c.old.problem) }
    ensures before { c.new.before ≡ c.old.before }
    ensures end { IfOk result (λ _. HasEnded c.new) }
    ensures path { IfOk result
        (λ _. HasAdded (with_more rows.now c.old.problem) c.old.marks rows.now budget c.new.marks) }
    ensures stop { IfErr result (IsStopOf false (with_more rows.now c.old.problem) c.old.problem.rows
        (FromAdded (with_more rows.now c.old.problem) c.old.marks rows.now) budget) }
{
    c.show_corner(); // for the proof: what a corner keeps
    c.add_rows(rows)?;
    c.show_corner(); // for the proof: what a corner keeps
    settle(alloc, c, budget)
}

// Moves the stays to the present values, and adds attributes at 0.
fn widen<T: Tableau>(c: &mut Corner<T>, attrs: &[u32]) -> Result<(), OutOfMemory>
    requires marked { 0 < length c.old.before }
    requires room { CanTake (attrs_of c.old.problem) attrs.now }
    ensures moved { IfOk result (λ _. IsMoved c.old attrs.now c.old.problem.rows c.new.problem) }
    ensures marks { IfOk result (λ _. c.new.marks ≡ c.old.marks) }
    ensures before { c.new.before ≡ c.old.before }
{
    c.stand()?;
    c.show_corner(); // for the proof: what a corner keeps
    add_attrs(c, attrs)
}

/// Moves the stays to the present values, adds attributes at 0 and rows, and goes on to the best corner.
pub(crate) fn extend<T: Tableau>(
    alloc: Global,
    c: &mut Corner<T>,
    attrs: &[u32],
    rows: &[Row],
    budget: u64,
) -> Result<(), RunStop>
    requires marked { 0 < length c.old.before }
    requires room { CanTake (attrs_of c.old.problem) attrs.now }
    requires values { NoNegativeValue c.old.problem c.old.marks }
    requires whole { (p : layout.Problem) → IsMoved c.old attrs.now (c.old.problem.rows ++ rows.now) p
        → IsWhole p }
    ensures before { c.new.before ≡ c.old.before }
    ensures problem { IfOk result
        (λ _. IsMoved c.old attrs.now (c.old.problem.rows ++ rows.now) c.new.problem) }
    ensures end { IfOk result (λ _. HasEnded c.new) }
    ensures path { IfOk result (λ _. (p : layout.Problem)
        → IsMoved c.old attrs.now (c.old.problem.rows ++ rows.now) p
        → HasAdded p c.old.marks rows.now budget c.new.marks) }
    ensures stop { IfErr result (λ stop. (p : layout.Problem)
        → IsMoved c.old attrs.now (c.old.problem.rows ++ rows.now) p
        → IsStopOf false p c.old.problem.rows (FromAdded p c.old.marks rows.now) budget stop) }
{
    c.show_corner(); // for the proof: what a corner keeps
    widen(c, attrs)?;
    c.show_corner(); // for the proof: what a corner keeps
    join(alloc, c, rows, budget)
}
