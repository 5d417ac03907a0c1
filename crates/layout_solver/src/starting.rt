// The best corner of a problem, from nothing.
ghost use Rattle.std.specs.Prelude.{◌≡◌, ◌<◌, ◌+◌, [], length, take, drop, false, IfOk, IfErr};
ghost use Rattle.problem_core.specs.Layout as layout;
ghost use Rattle.problem_core.specs.Kept.{IsWhole};
ghost use Rattle.problem_core.specs.Corners.{NoNegativeValue};
ghost use Rattle.cert_core.specs.Stops.{IsStopOf};
ghost use Rattle.corner_view.specs.AddStops.{FromAdded};
ghost use Rattle.corner_ends.specs.Runs.{HasEnded};
ghost use Rattle.layout_solver.specs.Starts.{HasAdded, IsMarkedHere, as_problem};
ghost use Rattle.layout_solver.specs.Trials.{AreLed, IsEachStop, IsJoinStop, IsLeadStop};

use crate::changing::join;
use cert_core::RunStop;
use corner_view::{Corner, Tableau};
use frac_core::OutOfMemory;
use primal_run::settle;
use problem_core::{Row, Stay};
use std::alloc::Global;

// Adds the attributes of these stays at their targets.
fn add_stays<T: Tableau>(c: &mut Corner<T>, stays: &[Stay]) -> Result<(), OutOfMemory>
    requires marked { 0 < length c.old.before }
    requires new { c.old.problem ≡ as_problem [] [] }
    requires whole { IsWhole (as_problem [] stays.now) }
    ensures problem { IfOk result (λ _. c.new.problem ≡ as_problem [] stays.now) }
    ensures marks { IfOk result (λ _. c.new.marks ≡ c.old.marks) }
    ensures before { c.new.before ≡ c.old.before }
    ensures candidates { IfOk result (λ _. c.new.candidates ≡ c.old.candidates) }
{
    for stay in stays {
        c.add_attr(stay.attr, stay.target)?;
    }
    Ok(())
}

// A corner of these stays at their targets and no row, after a mark.
fn with_stays<T: Tableau>(alloc: Global, stays: &[Stay]) -> Result<Corner<T>, OutOfMemory>
    requires whole { IsWhole (as_problem [] stays.now) }
    ensures problem { IfOk result (λ c. c.problem ≡ as_problem [] stays.now) }
    ensures marks { IfOk result (λ c. c.marks ≡ []) }
    ensures before { IfOk result (λ c. 0 < length c.before) }
    ensures candidates { IfOk result (λ c. c.candidates ≡ []) }
{
    let mut corner = Corner::new(alloc)?;
    corner.mark();
    match add_stays(&mut corner, stays) {
        Ok(()) => Ok(corner),
        Err(OutOfMemory) => {
            drop(corner); // for the proof: moved on
            Err(OutOfMemory)
        }
    }
}

// Adds rows to a corner without rows and marks, goes on to the best corner, and marks it.
fn fill<T: Tableau>(
    alloc: Global,
    c: &mut Corner<T>,
    rows: &[Row],
    budget: u64,
) -> Result<(), RunStop>
    requires marked { 0 < length c.old.before }
    requires new { c.old.problem.rows ≡ [] }
    requires none { c.old.marks ≡ [] }
    requires whole { IsWhole (as_problem rows.now c.old.problem.stays) }
    ensures problem { IfOk result (λ _. c.new.problem ≡ as_problem rows.now c.old.problem.stays) }
    ensures end { IfOk result (λ _. HasEnded c.new) }
    ensures marked { IfOk result (λ _. IsMarkedHere c.new) }
    ensures path { IfOk result
        (λ _. HasAdded (as_problem rows.now c.old.problem.stays) [] rows.now budget c.new.marks) }
    ensures stop { IfErr result (IsStopOf false (as_problem rows.now c.old.problem.stays) []
        (FromAdded (as_problem rows.now c.old.problem.stays) [] rows.now) budget) }
{
    c.show_corner(); // for the proof: what a corner keeps
    join(alloc, c, rows, budget)?;
    c.mark();
    Ok(())
}

/// The best corner of the problem of these stays and rows, marked. All rows join first, each with its mark
/// that isn't negative at the targets of the stays, and one run leads from there.
///
/// The stops are those of `Engine::solve` if the rows are added to an engine that holds only these attributes
/// at the targets.
pub fn started<T: Tableau>(
    alloc: Global,
    stays: &[Stay],
    rows: &[Row],
    budget: u64,
) -> Result<Corner<T>, RunStop>
    requires whole { IsWhole (as_problem rows.now stays.now) }
    ensures problem { IfOk result (λ c. c.problem ≡ as_problem rows.now stays.now) }
    ensures end { IfOk result HasEnded }
    ensures marked { IfOk result IsMarkedHere }
    ensures path { IfOk result
        (λ c. HasAdded (as_problem rows.now stays.now) [] rows.now budget c.marks) }
    ensures stop { IfErr result (IsStopOf false (as_problem rows.now stays.now) []
        (FromAdded (as_problem rows.now stays.now) [] rows.now) budget) }
{
    let mut corner = with_stays(alloc, stays)?;
    match fill(alloc, &mut corner, rows, budget) {
        Ok(()) => Ok(corner),
        Err(stop) => {
            drop(corner); // for the proof: moved on
            Err(stop)
        }
    }
}

// Adds the next row, and goes on to the best corner.
fn join_next<T: Tableau>(
    alloc: Global,
    c: &mut Corner<T>,
    rows: &[Row],
    i: usize,
    budget: u64,
) -> Result<(), RunStop>
    requires marked { 0 < length c.old.before }
    requires within { i < length rows.now }
    requires held { c.old.problem.rows ≡ take i rows.now }
    requires whole { IsWhole (as_problem rows.now c.old.problem.stays) }
    requires values { NoNegativeValue c.old.problem c.old.marks }
    ensures problem { IfOk result
        (λ _. c.new.problem ≡ as_problem (take (i + 1) rows.now) c.old.problem.stays) }
    ensures values { IfOk result (λ _. NoNegativeValue c.new.problem c.new.marks) }
    ensures before { c.new.before ≡ c.old.before }
    ensures path { IfOk result (λ _. HasAdded (as_problem (take (i + 1) rows.now) c.old.problem.stays)
        c.old.marks (take 1 (drop i rows.now)) budget c.new.marks) }
    ensures stop { IfErr result (IsJoinStop c.old.problem.stays rows.now budget i c.old.marks) }
{
    join(alloc, c, &rows[i..i + 1], budget)
}

// Adds rows to a corner without rows, one after another, and goes on to the best corner after each.
fn join_each<T: Tableau>(
    alloc: Global,
    c: &mut Corner<T>,
    rows: &[Row],
    budget: u64,
) -> Result<(), RunStop>
    requires marked { 0 < length c.old.before }
    requires none { c.old.problem.rows ≡ [] }
    requires first { c.old.marks ≡ [] }
    requires whole { IsWhole (as_problem rows.now c.old.problem.stays) }
    requires values { NoNegativeValue c.old.problem c.old.marks }
    ensures problem { IfOk result (λ _. c.new.problem ≡ as_problem rows.now c.old.problem.stays) }
    ensures values { IfOk result (λ _. NoNegativeValue c.new.problem c.new.marks) }
    ensures before { c.new.before ≡ c.old.before }
    ensures led { IfOk result
        (λ _. AreLed c.old.problem.stays rows.now budget (length rows.now) c.new.marks) }
    ensures stop { IfErr result (IsEachStop c.old.problem.stays rows.now budget) }
{
    for i in 0..rows.len() {
        join_next(alloc, c, rows, i, budget)?;
    }
    Ok(())
}

// Adds rows to a corner without rows and marks, one after another, goes on to the best corner, and marks it.
fn fill_by_rows<T: Tableau>(
    alloc: Global,
    c: &mut Corner<T>,
    rows: &[Row],
    budget: u64,
) -> Result<(), RunStop>
    requires marked { 0 < length c.old.before }
    requires new { c.old.problem.rows ≡ [] }
    requires none { c.old.marks ≡ [] }
    requires whole { IsWhole (as_problem rows.now c.old.problem.stays) }
    ensures problem { IfOk result (λ _. c.new.problem ≡ as_problem rows.now c.old.problem.stays) }
    ensures end { IfOk result (λ _. HasEnded c.new) }
    ensures marked { IfOk result (λ _. IsMarkedHere c.new) }
    ensures stop { IfErr result (IsLeadStop c.old.problem.stays rows.now budget) }
{
    c.show_corner(); // for the proof: what a corner keeps
    join_each(alloc, c, rows, budget)?;
    settle(alloc, c, budget)?;
    c.mark();
    Ok(())
}

/// The best corner of the problem of these stays and rows, marked. The rows join one after another, each at
/// the best corner of those before it, which keeps the rows of the tableau short.
///
/// A stop is that of one of the runs, and each run has the whole budget. If one stops, [`started`] takes
/// another path, and may reach the end.
pub fn started_by_rows<T: Tableau>(
    alloc: Global,
    stays: &[Stay],
    rows: &[Row],
    budget: u64,
) -> Result<Corner<T>, RunStop>
    requires whole { IsWhole (as_problem rows.now stays.now) }
    ensures problem { IfOk result (λ c. c.problem ≡ as_problem rows.now stays.now) }
    ensures end { IfOk result HasEnded }
    ensures marked { IfOk result IsMarkedHere }
    ensures stop { IfErr result (IsLeadStop stays.now rows.now budget) }
{
    let mut corner = with_stays(alloc, stays)?;
    match fill_by_rows(alloc, &mut corner, rows, budget) {
        Ok(()) => Ok(corner),
        Err(stop) => {
            drop(corner); // for the proof: moved on
            Err(stop)
        }
    }
}
