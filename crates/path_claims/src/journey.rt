// The checker's route to a path's first corner, with lines and levels.
ghost use Rattle.std.specs.Prelude.{◌≡◌, ◌<◌, ◌≤◌, ◌+◌, ◌^◌, [], IfOk, IfErr, Some, length};
ghost use Rattle.cert_core.specs.Paths.{Path};
ghost use Rattle.problem_core.specs.Corners.{IsCorner};
ghost use Rattle.path_lines.specs.Sides.{moved_sides};
ghost use Rattle.path_lines.specs.Tables.{line_count};
ghost use Rattle.path_claims.specs.Ways.{IsMarkStop};
ghost use Rattle.path_lines.specs.declared.spots.Step.{Step};
ghost use Rattle.path_levels.specs.declared.outline.Outline.{Outline};
ghost use Rattle.path_claims.specs.Journeys.{Brings, BringsNone, HasOneMore, IsJourneyAt, IsPathCase};
ghost use Rattle.path_claims.specs.Journeys.{IsOnRoute};
ghost use Rattle.path_claims.specs.Journeys.{IsUsableJourney, StopsAt};
ghost use Rattle.path_claims.specs.Stations.{IsUsableStation};

use crate::route::{bringing_in, is_one, moved};
use crate::stations::{Station, Table, station_after, table_now};
use crate::way::{WayStop, first_sides, told};
use cert_core::Path;
use frac_core::OutOfMemory;
use path_levels::Outline;
use path_lines::{Spot, spot_of};
use problem_core::{Problem, RowName, Side};
use std::alloc::Global;

/// A path of a problem, with the problem's outline and its lines' names, and which mark of each line is
/// inside at the path's first corner.
#[derive(Clone, Copy)]
pub struct PathCase<'a> {
    pub p: &'a Problem,
    pub outline: &'a Outline,
    pub path: &'a Path,
    pub names: &'a [RowName],
    pub wanted: &'a [Option<Side>],
}

/// A corner on the way to a path's first corner, and which mark of each line is inside there.
#[derive(Drop)]
pub struct Journey {
    pub station: Station,
    pub sides: Vec<Option<Side>>,
}

// The exchange that brings in a mark of the path's first corner, and the station after it.
fn brought(
    alloc: Global,
    case: PathCase<'_>,
    station: Station,
    enter: Spot,
) -> Result<Station, WayStop>
    requires case { IsPathCase case }
    requires usable { IsUsableStation case.outline.now station }
    requires enter { enter.at < line_count case.p.now }
    requires count { station.count + 1 < 2 ^ 32 }
    ensures usable { IfOk result (IsUsableStation case.entry.outline.now) }
    ensures count { IfOk result (λ next. next.count ≡ station.count + 1) }
    ensures brought { IfOk result (Brings case.entry enter station) }
    ensures stop { IfErr result (BringsNone case.entry enter station) }
{
    let count = station.count;
    let table = told(table_now(alloc, case.p, case.outline, station), count)?;
    let Some(step) = bringing_in(&table.lines, case.wanted, enter) else {
        return Err(WayStop::Fails);
    };
    Ok(station_after(table, step, count))
}

// The corner after an exchange, and which mark of each line is inside there.
fn journey_after(sides: Vec<Option<Side>>, station: Station, outline: &Outline) -> Journey
    requires usable { IsUsableStation outline.now station }
    requires sides { length sides.items ≡ length outline.now.lines.items }
    ensures station { result.station ≡ station }
    ensures sides { (step : Step) → station.step ≡ Some step
        → result.sides.items ≡ moved_sides step sides.items }
    ensures count { length result.sides.items ≡ length sides.items }
{
    let mut sides = sides;
    if let Some(step) = station.step {
        moved(&mut sides, step);
    }
    Journey { station, sides }
}

// The route with one more mark of the path's first corner inside. If that mark is inside already, the route
// stays as it is.
fn with_mark(
    alloc: Global,
    case: PathCase<'_>,
    journey: Journey,
    enter: Spot,
) -> Result<Journey, WayStop>
    requires case { IsPathCase case }
    requires usable { IsUsableJourney case.p.now case.outline.now journey }
    requires enter { enter.at < line_count case.p.now }
    requires count { journey.station.count + 1 < 2 ^ 32 }
    ensures usable { IfOk result (IsUsableJourney case.entry.p.now case.entry.outline.now) }
    ensures count { IfOk result (λ next. next.station.count ≤ journey.station.count + 1) }
    ensures next { IfOk result (HasOneMore case.entry journey enter) }
    ensures stop { IfErr result (StopsAt case.entry journey enter) }
{
    if is_one(journey.sides[enter.at], Some(enter.side)) {
        return Ok(journey);
    }
    let sides = journey.sides;
    let station = brought(alloc, case, journey.station, enter)?;
    Ok(journey_after(sides, station, case.outline))
}

// Where the route begins.
fn first_journey(alloc: Global, p: &Problem) -> Result<Journey, OutOfMemory>
    ensures usable { IfOk result (λ journey. (outline : Outline) → IsUsableJourney p.now outline journey) }
    ensures count { IfOk result (λ journey. journey.station.count ≡ 0) }
    ensures journey { IfOk result (λ journey. (path : Path) (outline : Outline)
        → IsJourneyAt p.now path outline [] path.corner journey) }
{
    p.show_whole(); // for the proof: what a problem keeps
    let sides = first_sides(alloc, p)?;
    let lines = Vec::new(alloc);
    let levels = Vec::new(alloc);
    let table = Table { lines, levels };
    let step = None;
    let count = 0;
    let station = Station { table, step, count };
    Ok(Journey { station, sides })
}

/// The station of the path's first corner, unless something that counts does not fit on the way there.
pub fn to_first(alloc: Global, case: PathCase<'_>) -> Result<Station, WayStop>
    requires { IsPathCase case }
    ensures usable { IfOk result (IsUsableStation case.entry.outline.now) }
    ensures count { IfOk result (λ station. station.count ≤ length case.entry.path.now.corner) }
    ensures arrived { IfOk result (IsOnRoute case.entry.p.now case.entry.path.now
        case.entry.outline.now []) }
    ensures corner { IfOk result (λ _. IsCorner case.entry.p.now case.entry.path.now.corner) }
    ensures stop { IfErr result (IsMarkStop case.entry.p.now case.entry.path.now) }
{
    let mut journey = first_journey(alloc, case.p)?;
    for mark in case.path.corner() {
        let Some(enter) = spot_of(case.names, *mark) else {
            return Err(WayStop::Fails);
        };
        journey = with_mark(alloc, case, journey, enter)?;
    }
    Ok(journey.station)
}
