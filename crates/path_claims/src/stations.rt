// The lines and levels of a corner of the route.
ghost use Rattle.std.specs.Prelude.{◌≡◌, ◌<◌, ◌+◌, ◌^◌, List, IfOk, IfErr, Some, length};
ghost use Rattle.problem_core.specs.declared.parts.Mark.{Mark};
ghost use Rattle.path_lines.specs.Route.{over_marks};
ghost use Rattle.path_lines.specs.Sides.{IsWithin};
ghost use Rattle.frac_core.specs.Stops.{IsRefused};
ghost use Rattle.path_levels.specs.Outlines.{IsOutline, IsSizedOutline};
ghost use Rattle.path_levels.specs.Corners.{IsSizedCorner};
ghost use Rattle.path_levels.specs.Levels.{AreLevels, AreSizedLevels};
ghost use Rattle.path_levels.specs.Rows.{AreKept};
ghost use Rattle.path_claims.specs.Stations.{HasUnfitRows, HasUnfitSum, IsSizedTable, IsStation, IsStuckAt};
ghost use Rattle.path_claims.specs.Stations.{IsTableAt, IsUsableStation, LeadsToTable, LeadsToUnfitTable};

use frac_core::{Stop, Unfit};
use path_fits::attrs_fit;
use path_levels::{
    CornerLines, LevelSum, LineExchange, Outline, Tableau, first_levels, next_levels,
};
use path_lines::{Inside, Step, SumStop, after_exchange, first_lines};
use problem_core::Problem;
use std::alloc::Global;

/// The lines and the levels of a corner.
#[derive(Drop)]
pub struct Table {
    pub lines: Vec<Option<Inside>>,
    pub levels: Vec<LevelSum>,
}

impl Table {
    /// The same with the outline of the problem.
    pub fn tableau<'a>(&'a self, outline: &'a Outline) -> Tableau<'a>
        ensures outline { result.corner.outline.now ≡ outline.now }
        ensures lines { result.corner.lines.now ≡ self.now.lines.items }
        ensures levels { result.levels.now ≡ self.now.levels.items }
    {
        let lines = &self.lines;
        let corner = CornerLines { outline, lines };
        let levels = &self.levels;
        Tableau { corner, levels }
    }
}

/// The kept parts of a corner of the route: the table of the corner before and the exchange that leads here,
/// and how many exchanges led here. Where the route begins no table is kept. The corner's own table is made
/// when it is asked for.
#[derive(Drop)]
pub struct Station {
    pub table: Table,
    pub step: Option<Step>,
    pub count: u32,
}

// The levels of the corner where the route begins, unless a sum of first rows does not fit there.
fn begun_levels(
    alloc: Global,
    p: &Problem,
    corner: CornerLines<'_>,
) -> Result<Vec<LevelSum>, SumStop>
    requires corner { IsSizedCorner corner }
    requires kept { AreKept p.now (over_marks p.now) corner.outline.now corner.lines.now }
    ensures sized { IfOk result (λ levels. AreSizedLevels (length corner.entry.lines.now) levels.items) }
    ensures count { IfOk result
        (λ levels. length levels.items ≡ length corner.entry.outline.now.levels.items) }
    ensures levels { IfOk result
        (λ levels. AreLevels p.now (over_marks p.now) corner.entry.outline.now levels.items) }
    ensures unfit { IfErr result (λ stop. IsRefused stop → HasUnfitRows p.now) }
{
    match first_levels(alloc, corner) {
        Ok(levels) => Ok(levels),
        Err(Stop::Refused(_)) => Err(Stop::Refused(Unfit)),
        Err(Stop::OutOfMemory) => Err(Stop::OutOfMemory),
    }
}

/// The table of the corner where the route begins, unless a sum of first terms or rows does not fit there.
pub fn first_table(alloc: Global, p: &Problem, outline: &Outline) -> Result<Table, SumStop>
    requires outline { IsOutline p.now outline.now }
    requires sized { IsSizedOutline outline.now }
    ensures sized { IfOk result (IsSizedTable outline.now) }
    ensures table { IfOk result (IsTableAt p.now (over_marks p.now) outline.now) }
    ensures unfit { IfErr result (λ stop. IsRefused stop → HasUnfitSum p.now) }
{
    p.show_whole(); // for the proof: what a problem keeps
    let lines = first_lines(alloc, p)?;
    let corner = CornerLines {
        outline,
        lines: &lines,
    };
    let levels = begun_levels(alloc, p, corner)?;
    Ok(Table { lines, levels })
}

/// The table after an exchange, unless something does not fit there.
pub fn table_after(
    alloc: Global,
    p: &Problem,
    outline: &Outline,
    table: Table,
    step: Step,
) -> Result<Table, SumStop>
    requires outline { IsOutline p.now outline.now }
    requires outline_sized { IsSizedOutline outline.now }
    requires table { IsSizedTable outline.now table }
    requires step { IsWithin (length table.lines.items) step }
    ensures sized { IfOk result (IsSizedTable outline.now) }
    ensures next { IfOk result (LeadsToTable p.now outline.now table step) }
    ensures unfit { IfErr result (λ stop. IsRefused stop → LeadsToUnfitTable p.now outline.now table step) }
{
    let Table { lines, levels } = table;
    let corner = CornerLines {
        outline,
        lines: &lines,
    };
    let exchange = LineExchange { corner, step };
    let levels = next_levels(alloc, exchange, levels)?;
    let lines = after_exchange(alloc, lines, step)?;
    if !attrs_fit(p, &lines) {
        return Err(Stop::Refused(Unfit));
    }
    Ok(Table { lines, levels })
}

/// The table of a corner of the route, unless something that counts does not fit there.
pub fn table_now(
    alloc: Global,
    p: &Problem,
    outline: &Outline,
    station: Station,
) -> Result<Table, SumStop>
    requires outline { IsOutline p.now outline.now }
    requires sized { IsSizedOutline outline.now }
    requires usable { IsUsableStation outline.now station }
    ensures sized { IfOk result (IsSizedTable outline.now) }
    ensures table { IfOk result (λ table. (at : List Mark) → IsStation p.now at outline.now station
        → IsTableAt p.now at outline.now table) }
    ensures unfit { IfErr result (λ stop. IsRefused stop → (at : List Mark)
        → IsStation p.now at outline.now station → IsStuckAt p.now at station.step) }
{
    match station.step {
        Some(step) => table_after(alloc, p, outline, station.table, step),
        None => first_table(alloc, p, outline),
    }
}

/// The station after an exchange from a corner with this table.
pub fn station_after(table: Table, step: Step, count: u32) -> Station
    requires { count + 1 < 2 ^ 32 }
    ensures table { result.table ≡ table }
    ensures step { result.step ≡ Some step }
    ensures count { result.count ≡ count + 1 }
{
    let step = Some(step);
    let count = count + 1;
    Station { table, step, count }
}
