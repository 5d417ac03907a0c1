// The value that an attribute would have if rows joined.
ghost use Rattle.std.specs.Prelude.{◌<◌, ◌≡◌, ◌++◌, [], length, false, IfOk, IfErr};
ghost use Rattle.frac_core.specs.declared.memory.Stop.TheVariants.{Refused, OutOfMemory as NoMemory};
ghost use Rattle.problem_core.specs.declared.stops.Quantity as quantities;
ghost use Rattle.problem_core.specs.Layout as layout;
ghost use Rattle.problem_core.specs.Layout.{HasStay};
ghost use Rattle.problem_core.specs.Kept.{IsWhole};
ghost use Rattle.problem_core.specs.Corners.{NoNegativeColumn, NoNegativeValue};
ghost use Rattle.cert_core.specs.Stops.{IsStopOf};
ghost use Rattle.cert_core.specs.declared.stops.RunStop.TheVariants.{OutOfMemory};
ghost use Rattle.corner_lines.specs.Shifts.{with_constant};
ghost use Rattle.corner_view.specs.AddStops.{FromAdded};
ghost use Rattle.corner_view.specs.Changes.{IsNear};
ghost use Rattle.corner_ends.specs.Runs.{HasEnded};
ghost use Rattle.dual_run.specs.Leaving.{AreLowLines};
ghost use Rattle.layout_solver.specs.Layouts.{IsBestValue};
ghost use Rattle.layout_solver.specs.Starts.{CanTake, IsMoved, attrs_of};
ghost use Rattle.layout_solver.specs.Trials.{IsChangeStop, IsDualStop, IsTrialStop};
ghost use Rattle.layout_solver.specs.declared.trying.TrialStop.TheVariants as trial;

use crate::changing::extend;
use crate::engine::Change;
use cert_core::RunStop;
use corner_view::{Corner, Tableau};
use dual_run::{restore, shift};
use frac_core::{Frac, Stop};
use problem_core::{Quantity, Row, RowName, TableStop};
use std::alloc::Global;
use thiserror::Error;

/// Moves the stays to the present values, adds rows, and goes on to the best corner, and returns the
/// attribute's value there.
pub(crate) fn tried<T: Tableau>(
    alloc: Global,
    c: &mut Corner<T>,
    rows: &[Row],
    attr: u32,
    budget: u64,
) -> Result<Frac, RunStop>
    requires marked { 0 < length c.old.before }
    requires room { CanTake (attrs_of c.old.problem) [] }
    requires values { NoNegativeValue c.old.problem c.old.marks }
    requires whole { (p : layout.Problem) → IsMoved c.old [] (c.old.problem.rows ++ rows.now) p → IsWhole p }
    requires attr { HasStay c.old.problem.stays attr }
    ensures before { c.new.before ≡ c.old.before }
    ensures value { IfOk result (λ f. (p : layout.Problem)
        → IsMoved c.old [] (c.old.problem.rows ++ rows.now) p → IsBestValue p attr f) }
    ensures stop { IfErr result (λ stop. (p : layout.Problem)
        → IsMoved c.old [] (c.old.problem.rows ++ rows.now) p
        → IsStopOf false p c.old.problem.rows (FromAdded p c.old.marks rows.now) budget stop) }
{
    c.show_corner(); // for the proof: what a corner keeps
    extend(alloc, c, &[], rows, budget)?;
    c.show_corner(); // for the proof: what a corner keeps
    Ok(c.attr_value(attr))
}

/// Why a trial of another constant finds no value.
#[derive(Debug, Drop, Error)]
pub enum TrialStop {
    /// The rows do not join.
    #[error("the rows don't join: {0}")]
    Joining(RunStop),
    /// After they joined, this quantity does not fit with the other constant.
    #[error("a quantity doesn't fit with the other constant")]
    Changing(Quantity),
    /// The run from there stops.
    #[error("the run with the other constant stops: {0}")]
    Running(RunStop),
}

// The stop if the constant can't change.
fn change_stop(stop: TableStop) -> TrialStop
    ensures refused { (q : quantities.Quantity) → stop ≡ Refused q → result ≡ trial.Changing q }
    ensures memory { stop ≡ NoMemory → result ≡ trial.Running OutOfMemory }
{
    match stop {
        Stop::Refused(quantity) => TrialStop::Changing(quantity),
        Stop::OutOfMemory => TrialStop::Running(RunStop::OutOfMemory),
    }
}

// Goes on to the best corner, where the attribute has this value. `low` lists the lines whose values are
// negative.
fn restored<T: Tableau>(
    alloc: Global,
    c: &mut Corner<T>,
    low: Vec<RowName>,
    attr: u32,
    budget: u64,
) -> Result<Frac, RunStop>
    requires marked { 0 < length c.old.before }
    requires columns { NoNegativeColumn c.old.problem c.old.marks }
    requires low { AreLowLines c.old.problem c.old.marks low.items }
    requires attr { HasStay c.old.problem.stays attr }
    ensures before { c.new.before ≡ c.old.before }
    ensures value { IfOk result (IsBestValue c.old.problem attr) }
    ensures stop { IfErr result (IsDualStop c.old.problem c.old.marks budget) }
{
    restore(alloc, c, low, budget)?;
    c.show_corner(); // for the proof: what a corner keeps
    Ok(c.attr_value(attr))
}

// Gives a row another constant, and goes on to the best corner, and returns the attribute's value there.
fn shifted<T: Tableau>(
    alloc: Global,
    c: &mut Corner<T>,
    to: Change,
    attr: u32,
    budget: u64,
) -> Result<Frac, TrialStop>
    requires marked { 0 < length c.old.before }
    requires end { HasEnded c.old }
    requires near { IsNear c.old.problem to.row to.constant }
    requires attr { HasStay c.old.problem.stays attr }
    ensures before { c.new.before ≡ c.old.before }
    ensures value { IfOk result
        (IsBestValue (with_constant to.row to.constant c.old.problem) attr) }
    ensures stop { IfErr result (IsChangeStop c.old.problem c.old.marks to budget) }
{
    c.show_corner(); // for the proof: what a corner keeps
    let mut low = Vec::new(alloc);
    match shift(c, &mut low, to.row, to.constant) {
        Ok(()) => match restored(alloc, c, low, attr, budget) {
            Ok(value) => Ok(value),
            Err(stop) => Err(TrialStop::Running(stop)),
        },
        Err(stop) => Err(change_stop(stop)),
    }
}

/// Moves the stays to the present values, adds rows, gives a row another constant, and goes on to the best
/// corner, and returns the attribute's value there.
pub(crate) fn pushed<T: Tableau>(
    alloc: Global,
    c: &mut Corner<T>,
    rows: &[Row],
    to: Change,
    attr: u32,
    budget: u64,
) -> Result<Frac, TrialStop>
    requires marked { 0 < length c.old.before }
    requires room { CanTake (attrs_of c.old.problem) [] }
    requires values { NoNegativeValue c.old.problem c.old.marks }
    requires whole { (p : layout.Problem) → IsMoved c.old [] (c.old.problem.rows ++ rows.now) p → IsWhole p }
    requires near { (p : layout.Problem) → IsMoved c.old [] (c.old.problem.rows ++ rows.now) p
        → IsNear p to.row to.constant }
    requires attr { HasStay c.old.problem.stays attr }
    ensures before { c.new.before ≡ c.old.before }
    ensures value { IfOk result (λ f. (p : layout.Problem)
        → IsMoved c.old [] (c.old.problem.rows ++ rows.now) p
        → IsBestValue (with_constant to.row to.constant p) attr f) }
    ensures stop { IfErr result (λ stop. (p : layout.Problem)
        → IsMoved c.old [] (c.old.problem.rows ++ rows.now) p
        → IsTrialStop p c.old.problem.rows c.old.marks rows.now to budget stop) }
{
    c.show_corner(); // for the proof: what a corner keeps
    match extend(alloc, c, &[], rows, budget) {
        Ok(()) => shifted(alloc, c, to, attr, budget),
        Err(stop) => Err(TrialStop::Joining(stop)),
    }
}
