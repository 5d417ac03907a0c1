// From rows that clash to a core: one trial without each of them.
ghost use Rattle.std.specs.Prelude.{◌≡◌, ◌<◌, ℕ, List, length, IfOk, IfErr};
ghost use Rattle.problem_core.specs.Layout as layout;
ghost use Rattle.problem_core.specs.Kept.{IsWhole};
ghost use Rattle.cert_core.specs.Stops.{IsShownConflict};
ghost use Rattle.conflict_core.specs.Cores.{trial};
ghost use Rattle.conflict_core.specs.Cores as cores;
ghost use Rattle.conflict_core.specs.Shown.{IsFound, IsSolution};
ghost use Rattle.conflict_core.specs.Searches.{AreTrials, IsNext, IsSearch, left_of};
ghost use Rattle.conflict_core.specs.Trials.{IsCoreStop, nothing};

use crate::found::{CoreStop, Found};
use crate::listing::{named, without};
use crate::trials::{Outcome, Trials, tried};
use cert_core::Conflict;
use corner_view::Tableau;
use frac_core::OutOfMemory;
use layout_solver::Engine;
use problem_core::{Problem, Values};
use std::alloc::Global;

/// Rows that clash, with multipliers that name just them, and values without each of the first of them.
#[derive(Drop)]
pub(crate) struct Search {
    pub rows: Vec<u32>,
    pub by: Conflict,
    pub without: Vec<(u32, Values)>,
}

/// The search among the rows that these multipliers name. They refute some required rows.
pub(crate) fn begun(alloc: Global, by: Conflict) -> Result<Search, OutOfMemory>
    ensures { IfOk result (λ s. (p : layout.Problem) (ids : List ℕ) → IsWhole p
        → IsShownConflict (trial p ids) by → IsSearch p s) }
{
    Ok(Search {
        rows: named(alloc, &by)?,
        by,
        without: Vec::new(alloc),
    })
}

// The next row is needed: these values satisfy the others.
fn keep(s: &mut Search, id: u32, values: Values) -> Result<(), OutOfMemory>
    ensures { IfOk result (λ _. (p : layout.Problem) → IsNext s.old id → IsSearch p s.old
        → IsSolution (trial p (cores.without id s.old.rows.items)) values
        → IsSearch p s.new × (left_of s.new < left_of s.old)) }
{
    s.without.push((id, values))?;
    Ok(())
}

// The next row is not needed: these multipliers refute the others.
fn narrow(alloc: Global, s: &mut Search, by: Conflict) -> Result<(), OutOfMemory>
    ensures { IfOk result (λ _. (p : layout.Problem) (id : ℕ) → IsWhole p → IsNext s.old id → IsSearch p s.old
        → IsShownConflict (trial p (cores.without id s.old.rows.items)) by
        → IsSearch p s.new × (left_of s.new < left_of s.old)) }
{
    s.rows = named(alloc, &by)?;
    s.by = by;
    Ok(())
}

// Tries the rows without the next one that has no values yet.
fn step<T: Tableau>(e: &mut Engine<T>, t: &Trials, s: &mut Search) -> Result<(), CoreStop>
    requires nothing { e.old ≡ nothing }
    requires trials { AreTrials t.now }
    requires search { IsSearch t.now.problem.now s.old }
    requires next { length s.old.without.items < length s.old.rows.items }
    ensures search { IfOk result (λ _. IsSearch t.now.problem.now s.new) }
    ensures nearer { IfOk result (λ _. left_of s.new < left_of s.old) }
    ensures stop { IfErr result (IsCoreStop t.now.problem.now t.now.budget) }
    ensures same { e.new ≡ nothing }
{
    t.problem.show_whole(); // for the proof: what a problem keeps
    let id = s.rows[s.without.len()];
    let others = without(t.alloc, id, &s.rows)?;
    match tried(e, t, &others)? {
        Outcome::Solved(values) => Ok(keep(s, id, values)?),
        Outcome::Refuted(by) => Ok(narrow(t.alloc, s, by)?),
    }
}

/// The core to which a search comes.
pub(crate) fn searched<T: Tableau>(
    e: &mut Engine<T>,
    t: &Trials,
    mut s: Search,
) -> Result<Found, CoreStop>
    requires nothing { e.old ≡ nothing }
    requires trials { AreTrials t.now }
    requires search { IsSearch t.now.problem.now s }
    ensures found { IfOk result (IsFound t.now.problem.now) }
    ensures stop { IfErr result (IsCoreStop t.now.problem.now t.now.budget) }
{
    while s.without.len() < s.rows.len() {
        step(e, t, &mut s)?;
    }
    let Search { rows, by, without } = s;
    Ok(Found::Core { rows, by, without })
}
