// Whether the required rows of a problem have a solution.
ghost use Rattle.std.specs.Prelude.{◌≡◌, ◌<◌, ℕ, List, length, map, IfOk, IfErr};
ghost use Rattle.version_lists.specs.declared.versions.TheConstants.{VERSION_LIMIT};
ghost use Rattle.problem_core.specs.Certificates.{required};
ghost use Rattle.cert_core.specs.Stops.{IsShownConflict};
ghost use Rattle.layout_solver.specs.Requests.{CanSolve, posed_by};
ghost use Rattle.conflict_core.specs.Cores.{trial};
ghost use Rattle.conflict_core.specs.Shown.{IsFound};
ghost use Rattle.conflict_core.specs.Searches.{AreTrials};
ghost use Rattle.conflict_core.specs.Trials.{IsCoreStop, nothing};

use crate::asking::{Known, asked};
use crate::found::{CoreStop, Found};
use crate::listing::{attributes, required_rows};
use crate::search::{begun, searched};
use crate::trials::{Outcome, Trials, tried};
use crate::yielding::hasten;
use cert_core::Conflict;
use corner_view::Tableau;
use layout_solver::{Engine, Request};
use problem_core::{Problem, numbers_of};
use std::alloc::Global;

// A core of the rows that these multipliers name. They refute some required rows.
fn found_among<T: Tableau>(e: &mut Engine<T>, t: &Trials, by: Conflict) -> Result<Found, CoreStop>
    requires nothing { e.old ≡ nothing }
    requires trials { AreTrials t.now }
    requires refuted { (ids : List ℕ) × IsShownConflict (trial t.now.problem.now ids) by }
    ensures found { IfOk result (IsFound t.now.problem.now) }
    ensures stop { IfErr result (IsCoreStop t.now.problem.now t.now.budget) }
{
    t.problem.show_whole(); // for the proof: what a problem keeps
    let mut s = begun(t.alloc, by)?;
    hasten::<T>(t, &mut s)?;
    searched(e, t, s)
}

// The outcome for all required rows, which are these.
fn found_of<T: Tableau>(e: &mut Engine<T>, t: &Trials, all: &[u32]) -> Result<Found, CoreStop>
    requires nothing { e.old ≡ nothing }
    requires trials { AreTrials t.now }
    requires all { all.now ≡ map (λ r. r.id) (required t.now.problem.now) }
    ensures found { IfOk result (IsFound t.now.problem.now) }
    ensures stop { IfErr result (IsCoreStop t.now.problem.now t.now.budget) }
{
    t.problem.show_whole(); // for the proof: what a problem keeps
    match tried(e, t, all)? {
        Outcome::Solved(_) => Ok(Found::Solvable),
        Outcome::Refuted(by) => found_among(e, t, by),
    }
}

// The same on a new engine.
fn found_anew<T: Tableau>(t: &Trials, all: &[u32]) -> Result<Found, CoreStop>
    requires trials { AreTrials t.now }
    requires all { all.now ≡ map (λ r. r.id) (required t.now.problem.now) }
    ensures found { IfOk result (IsFound t.now.problem.now) }
    ensures stop { IfErr result (IsCoreStop t.now.problem.now t.now.budget) }
{
    let mut engine = Engine::<T>::new(t.alloc)?;
    let found = found_of(&mut engine, t, all);
    drop(engine); // for the proof: moved on, not taken apart here
    found
}

// A core of the rows that these multipliers name, on a new engine.
fn found_anew_among<T: Tableau>(t: &Trials, by: Conflict) -> Result<Found, CoreStop>
    requires trials { AreTrials t.now }
    requires refuted { (ids : List ℕ) × IsShownConflict (trial t.now.problem.now ids) by }
    ensures found { IfOk result (IsFound t.now.problem.now) }
    ensures stop { IfErr result (IsCoreStop t.now.problem.now t.now.budget) }
{
    let mut engine = Engine::<T>::new(t.alloc)?;
    let found = found_among(&mut engine, t, by);
    drop(engine); // for the proof: moved on, not taken apart here
    found
}

/// Whether the required rows have a solution. If they have none, a core of them: rows that clash, each of
/// which is needed for the clash.
///
/// `Unfit` and `Spent` are those of one trial, which adds the rows that are named as held to an empty engine,
/// with the whole budget.
pub fn core<T: Tableau>(alloc: Global, p: &Problem, budget: u64) -> Result<Found, CoreStop>
    ensures found { IfOk result (IsFound p.now) }
    ensures stop { IfErr result (IsCoreStop p.now budget) }
{
    p.show_whole(); // for the proof: what a problem keeps
    let attrs = attributes(alloc, p)?;
    let numbers = numbers_of(alloc, p.stays())?;
    let all = required_rows(alloc, p)?;
    let trials = Trials {
        alloc,
        problem: p,
        attrs: &attrs,
        numbers: &numbers,
        budget,
    };
    found_anew::<T>(&trials, &all)
}

/// A core of the rows that these multipliers name. They refute the problem, which saves the trial of all
/// required rows.
///
/// The stops are those of `core`.
pub fn core_among<T: Tableau>(
    alloc: Global,
    p: &Problem,
    by: Conflict,
    budget: u64,
) -> Result<Found, CoreStop>
    requires shown { IsShownConflict p.now by }
    ensures found { IfOk result (IsFound p.now) }
    ensures stop { IfErr result (IsCoreStop p.now budget) }
{
    p.show_whole(); // for the proof: what a problem keeps
    let attrs = attributes(alloc, p)?;
    let numbers = numbers_of(alloc, p.stays())?;
    let trials = Trials {
        alloc,
        problem: p,
        attrs: &attrs,
        numbers: &numbers,
        budget,
    };
    found_anew_among::<T>(&trials, by)
}

/// The same as `core` for the problem of a request to an engine. The engine is asked first, because its path
/// is short and ends at values, or at multipliers that name few rows. If it stops in another way, the search
/// begins from nothing. The engine does not change.
///
/// The stops are those of `core`.
pub fn core_of<T: Tableau>(
    alloc: Global,
    e: &mut Engine<T>,
    request: Request,
    budget: u64,
) -> Result<Found, CoreStop>
    requires room { length e.old.earlier < VERSION_LIMIT }
    requires can { CanSolve e.old request }
    ensures found { IfOk result (IsFound (posed_by e.old request)) }
    ensures stop { IfErr result (IsCoreStop (posed_by e.old request) budget) }
    ensures same { e.new ≡ e.old }
{
    match asked(e, &request, budget)? {
        Known::Solvable => Ok(Found::Solvable),
        Known::Refuted(by) => core_among::<T>(alloc, &e.posed(request)?, by, budget),
        Known::Nothing => core::<T>(alloc, &e.posed(request)?, budget),
    }
}
