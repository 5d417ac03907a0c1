// The checker's route along the swaps of a path, and the judgement of the corners before the last.
ghost use Rattle.std.specs.Prelude.{◌↔◌, ◌≤◌, [], List, IfOk, IfErr, IsTrue, length};
ghost use Rattle.problem_core.specs.Changes.Begins.{AreExchanges};
ghost use Rattle.problem_core.specs.Corners.{IsCorner, IsExchange};
ghost use Rattle.problem_core.specs.Changes.Paths.{IsSound};
ghost use Rattle.problem_core.specs.declared.parts.Mark.{Mark};
ghost use Rattle.path_claims.specs.PathClauses.{IsCalledFor};
ghost use Rattle.path_lines.specs.Sides.{AreSteps, IsWithin};
ghost use Rattle.path_lines.specs.Tables.{line_count, swap_of};
ghost use Rattle.path_claims.specs.Ways.{IsSwapStop};
ghost use Rattle.path_claims.specs.Journeys.{AreSoundAhead, IsCalledThere, IsOnRoute, IsPathCase};
ghost use Rattle.path_claims.specs.Stations.{IsSizedTable, IsTableAt, IsUsableStation};

use crate::journey::PathCase;
use crate::stations::{Station, Table, station_after, table_now};
use crate::way::{WayStop, told};
use path_levels::{is_end, is_sound, may_swap};
use path_lines::{Step, is_exchange};
use std::alloc::Global;

/// The station of a path's last corner, whether each corner before it is sound, and whether each exchange is
/// called for.
#[derive(Drop)]
pub struct Walked {
    pub station: Station,
    pub is_sound: bool,
    pub is_called_for: bool,
}

/// Whether the corner with this table is as each corner of the path must be.
pub fn is_sound_there(case: PathCase<'_>, table: &Table) -> bool
    requires case { IsPathCase case }
    requires table { IsSizedTable case.outline.now table.now }
    ensures { (at : List Mark) → IsTableAt case.entry.p.now at case.entry.outline.now table.now
        → IsTrue result ↔ IsSound case.entry.path.now.dual case.entry.p.now at }
{
    is_sound(case.path.dual(), table.tableau(case.outline))
}

// Whether the corner with this table is no end, and the exchange is called for there.
fn is_called_for(case: PathCase<'_>, table: &Table, step: Step) -> bool
    requires case { IsPathCase case }
    requires table { IsSizedTable case.outline.now table.now }
    requires step { IsWithin (line_count case.p.now) step }
    ensures { (at : List Mark) → IsTableAt case.entry.p.now at case.entry.outline.now table.now
        → IsExchange case.entry.p.now at (swap_of case.entry.p.now step)
        → IsTrue result ↔ IsCalledThere case.entry step at }
{
    let dual = case.path.dual();
    let tableau = table.tableau(case.outline);
    let is_last = is_end(dual, tableau);
    let may = may_swap(dual, tableau, step);
    !is_last && may
}

/// Along the swaps, by places, from the path's first corner to its last, whose table is not made.
pub fn walk(
    alloc: Global,
    case: PathCase<'_>,
    steps: &[Step],
    station: Station,
) -> Result<Walked, WayStop>
    requires case { IsPathCase case }
    requires corner { IsCorner case.p.now case.path.now.corner }
    requires steps { AreSteps case.p.now case.path.now.swaps steps.now }
    requires usable { IsUsableStation case.outline.now station }
    requires count { station.count ≤ length case.path.now.corner }
    requires arrived { IsOnRoute case.p.now case.path.now case.outline.now [] station }
    ensures usable { IfOk result (λ walked. IsUsableStation case.entry.outline.now walked.station) }
    ensures exchanges { IfOk result
        (λ _. AreExchanges case.entry.p.now case.entry.path.now.corner case.entry.path.now.swaps) }
    ensures arrived { IfOk result (λ walked. IsOnRoute case.entry.p.now case.entry.path.now
        case.entry.outline.now case.entry.path.now.swaps walked.station) }
    ensures sound { IfOk result (λ walked. IsTrue walked.is_sound ↔ AreSoundAhead case.entry.path.now.dual
        case.entry.p.now case.entry.path.now.corner case.entry.path.now.swaps) }
    ensures called { IfOk result (λ walked. IsTrue walked.is_called_for
        ↔ IsCalledFor case.entry.p.now case.entry.path.now) }
    ensures stop { IfErr result (IsSwapStop case.entry.p.now case.entry.path.now) }
{
    let mut station = station;
    let mut sound = true;
    let mut called = true;
    for step in steps {
        let count = station.count;
        let table = told(table_now(alloc, case.p, case.outline, station), count)?;
        if !is_exchange(&table.lines, *step) {
            return Err(WayStop::Fails);
        }
        sound &= is_sound_there(case, &table);
        called &= is_called_for(case, &table, *step);
        station = station_after(table, *step, count);
    }
    Ok(Walked {
        station,
        is_sound: sound,
        is_called_for: called,
    })
}
