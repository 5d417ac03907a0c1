// Trials: some required rows on an empty engine.
ghost use Rattle.std.specs.Prelude.{◌≡◌, ◌<◌, ℕ, [], ◌∷◌, length, map, All, AllPairs, IfOk, IfErr, OnErr};
ghost use Rattle.problem_core.specs.Gaps.{value_of};
ghost use Rattle.problem_core.specs.Layout as layout;
ghost use Rattle.problem_core.specs.Layout.{HasStay};
ghost use Rattle.layout_solver.specs.Layouts.{solution_of};
ghost use Rattle.layout_solver.specs.Requests.{run_of};
ghost use Rattle.conflict_core.specs.Cores.{AreRequired, trial};
ghost use Rattle.conflict_core.specs.Trials.{IsCoreStop, IsOutcome, IsStopOfTrial, nothing};
ghost use Rattle.conflict_core.specs.Searches.{AreTrials};

use crate::found::CoreStop;
use crate::listing::tried_rows;
use cert_core::Conflict;
use corner_view::Tableau;
use frac_core::{Frac, OutOfMemory};
use layout_solver::{Engine, Request, RequestStop};
use problem_core::{Problem, Values};
use std::alloc::Global;

/// The problem that is tried, its attributes in the order of their stays and by number, the budget of each
/// trial, and the allocator.
#[derive(Drop)]
pub(crate) struct Trials<'a> {
    pub alloc: Global,
    pub problem: &'a Problem,
    pub attrs: &'a [u32],
    pub numbers: &'a [u32],
    pub budget: u64,
}

/// The outcome for some required rows: a solution, or multipliers that refute them.
#[derive(Drop)]
pub(crate) enum Outcome {
    Solved(Values),
    Refuted(Conflict),
}

/// A copy of the numbers.
pub(crate) fn copied(alloc: Global, ids: &[u32]) -> Result<Vec<u32>, OutOfMemory>
    ensures { IfOk result (λ held. held.items ≡ ids.now) }
{
    Ok(Vec::from_slice(alloc, ids)?)
}

// Adds all attributes and the rows of these numbers to an empty engine.
fn add_rows<T: Tableau>(e: &mut Engine<T>, t: &Trials, ids: &[u32]) -> Result<(), RequestStop>
    requires nothing { e.old ≡ nothing }
    requires trials { AreTrials t.now }
    requires rising { AllPairs (λ a b. a < b) ids.now }
    ensures done { IfOk result (λ _. e.new.problem ≡ trial t.now.problem.now ids.now) }
    ensures earlier { IfOk result (λ _. e.new.earlier ≡ solution_of nothing ∷ []) }
    ensures stop { IfErr result
        (λ stop. IsStopOfTrial t.now.problem.now ids.now t.now.budget (run_of stop)) }
    ensures same { OnErr result (e.new ≡ nothing) }
{
    t.problem.show_whole(); // for the proof: what a problem keeps
    let attrs = copied(t.alloc, t.attrs)?;
    let rows = tried_rows(t.alloc, t.problem, ids)?;
    e.solve(&Request::Add { attrs, rows }, t.budget)
}

// The value of an attribute.
fn value_of<T: Tableau>(e: &Engine<T>, attr: u32) -> Frac
    requires { HasStay e.now.problem.stays attr }
    ensures { result ≡ value_of e.now.values attr }
{
    e.show_layout(); // for the proof: what an engine keeps
    e.value_at(attr)
}

/// The values of these attributes, which rise.
pub(crate) fn values_of<T: Tableau>(
    alloc: Global,
    e: &Engine<T>,
    attrs: &[u32],
) -> Result<Values, OutOfMemory>
    requires held { All (HasStay e.now.problem.stays) attrs.now }
    requires rising { AllPairs (λ a b. a < b) attrs.now }
    ensures { IfOk result (λ values. values ≡ map (λ a. (a, value_of e.now.values a)) attrs.now) }
{
    let mut pairs = Vec::new(alloc);
    for attr in attrs {
        pairs.push((*attr, value_of(e, *attr)))?;
    }
    Values::of(alloc, &pairs)
}

// The values of these attributes, which rise, on an engine that goes back to the layout before.
fn taken<T: Tableau>(alloc: Global, e: &mut Engine<T>, attrs: &[u32]) -> Result<Values, OutOfMemory>
    requires marked { 0 < length e.old.earlier }
    requires held { All (HasStay e.old.problem.stays) attrs.now }
    requires rising { AllPairs (λ a b. a < b) attrs.now }
    ensures values { IfOk result (λ values. values ≡ map (λ a. (a, value_of e.old.values a)) attrs.now) }
    ensures back { e.old.earlier ≡ solution_of e.new ∷ e.new.earlier }
{
    let values = values_of(alloc, e, attrs);
    e.back();
    values
}

// The outcome of the trial of these rows after such a stop of the engine.
fn outcome_of(alloc: Global, ids: &[u32], stop: RequestStop) -> Result<Outcome, CoreStop>
    ensures refuted { IfOk result (λ outcome. (p : layout.Problem) (budget : ℕ)
        → IsStopOfTrial p ids.now budget (run_of stop) → IsOutcome p ids.now outcome) }
    ensures stop { IfErr result (λ other. (p : layout.Problem) (budget : ℕ) → AreRequired p ids.now
        → IsStopOfTrial p ids.now budget (run_of stop) → IsCoreStop p budget other) }
{
    match stop {
        RequestStop::Conflict(by) => Ok(Outcome::Refuted(by)),
        RequestStop::Unfit { at, .. } => {
            let held = copied(alloc, ids)?;
            Err(CoreStop::Unfit { held, at })
        }
        RequestStop::Spent(path) => {
            let held = copied(alloc, ids)?;
            Err(CoreStop::Spent { held, path })
        }
        RequestStop::OutOfMemory => Err(CoreStop::OutOfMemory),
    }
}

/// The outcome for these required rows. The engine is empty, and does not change.
///
/// `Unfit` and `Spent` are those of [`Engine::solve`] for adding these rows.
pub(crate) fn tried<T: Tableau>(
    e: &mut Engine<T>,
    t: &Trials,
    ids: &[u32],
) -> Result<Outcome, CoreStop>
    requires nothing { e.old ≡ nothing }
    requires trials { AreTrials t.now }
    requires rows { AreRequired t.now.problem.now ids.now }
    ensures outcome { IfOk result (IsOutcome t.now.problem.now ids.now) }
    ensures stop { IfErr result (IsCoreStop t.now.problem.now t.now.budget) }
    ensures same { e.new ≡ nothing }
{
    match add_rows(e, t, ids) {
        Ok(()) => {
            e.show_layout(); // for the proof: what an engine keeps
            Ok(Outcome::Solved(taken(t.alloc, e, t.numbers)?))
        }
        Err(stop) => outcome_of(t.alloc, ids, stop),
    }
}
