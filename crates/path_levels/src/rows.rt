// The rows of levels, line by line.
ghost use Rattle.std.specs.Prelude.{◌≡◌, ◌<◌, length, IfOk, IfErr};
ghost use Rattle.problem_core.specs.Layout.{Problem};
ghost use Rattle.path_levels.specs.Corners.{IsSizedCorner};
ghost use Rattle.path_levels.specs.Levels.{AreLevels, AreSizedLevels, IsSizedLevel};
ghost use Rattle.std.specs.Prelude.{◌+◌, ◌<ℤ◌, ◌*ℤ◌, pos, All};
ghost use Rattle.frac_core.specs.Stops.{IsRefused};
ghost use Rattle.frac_core.specs.Fraction.{IsFitting};
ghost use Rattle.frac_core.specs.declared.memory.Stop.TheVariants as stops;
ghost use Rattle.path_levels.specs.Outlines.{IsOfRows, IsOfStay, IsOutline};
ghost use Rattle.path_levels.specs.Parts.{IsEmptySum, IsPartSum, IsPartUnfit, WithPart};
ghost use Rattle.std.specs.Prelude.{◌≢◌, take, IfSome, IfNone};
ghost use Rattle.std.specs.List.{HoldsAt};
ghost use Rattle.path_lines.specs.Tables.{IsSizedLine};
ghost use Rattle.path_levels.specs.StaySums.{IsStayRow, IsUnfitStay};
ghost use Rattle.path_levels.specs.Rows.{AllRowsFit, IsLevelsStop, IsRowsStop, IsRowsSum, WithFirstLines};
ghost use Rattle.path_levels.specs.Rows.{unfit_rows};
ghost use Rattle.path_levels.specs.Kept.{WithOutline};

use crate::joins::{Draft, does_fit, joined};
use crate::outline::LineFacts;
use crate::stays::inside_stay;
use crate::sums::LevelSum;
use crate::tableau::CornerLines;
use frac_core::{Frac, OutOfMemory, Stop, Unfit};
use path_lines::{Inside, SumStop, zeros};
use problem_core::Level;
use std::alloc::Global;
use thiserror::Error;

/// The cost of so many first rows of a level does not fit, and the cost of fewer does.
#[derive(Clone, Copy, Debug, Error)]
#[error("the cost of the first {first} rows of a level does not fit")]
pub struct UnfitRows {
    pub level: Level,
    pub first: u32,
}

/// Why the rows of levels are not made: first rows of a level do not fit, or memory has run out.
pub type RowsStop = Stop<UnfitRows>;

/// More lines than any level has.
const ALL_LINES: u32 = u32::MAX;

/// The rows of all levels at a corner, each line by line, unless some sum of first rows does not fit there.
/// Then the first such sum.
pub fn first_levels(alloc: Global, corner: CornerLines<'_>) -> Result<Vec<LevelSum>, RowsStop>
    requires corner { IsSizedCorner corner }
    ensures sized { IfOk result (λ levels. AreSizedLevels (length corner.entry.lines.now) levels.items) }
    ensures count { IfOk result
        (λ levels. length levels.items ≡ length corner.entry.outline.now.levels.items) }
    ensures levels { IfOk result (λ levels. WithOutline corner.entry
        (λ p at. AreLevels p at corner.entry.outline.now levels.items)) }
    ensures fits { IfOk result (λ levels. WithOutline corner.entry AllRowsFit) }
    ensures unfit { IfErr result (IsLevelsStop corner.entry) }
{
    let mut levels = Vec::with_capacity(alloc, corner.outline.levels.len())?;
    for place in 0..corner.outline.levels.len() {
        levels.push(level_of_lines(alloc, corner, place, ALL_LINES)?)?;
    }
    Ok(levels)
}

/// The row of the level at a place, of at most so many of its first lines; or how many of them do not fit.
pub fn level_of_lines(
    alloc: Global,
    corner: CornerLines<'_>,
    place: usize,
    most: u32,
) -> Result<LevelSum, RowsStop>
    requires corner { IsSizedCorner corner }
    requires place { place < length corner.outline.now.levels.items }
    ensures sized { IfOk result (IsSizedLevel (length corner.entry.lines.now)) }
    ensures row { IfOk result (λ sum. WithFirstLines corner.entry place most
        (λ p at. IsRowsSum p at corner.entry.outline.now place most sum)) }
    ensures unfit { IfErr result (IsRowsStop corner.entry place most) }
{
    match corner.outline.levels[place].level {
        Level::Priority(_) => rows_level(alloc, corner, place, most),
        Level::Stay(_) => stay_level(alloc, corner, place, most),
    }
}

// A row without numbers.
fn empty_level(alloc: Global, count: usize) -> Result<LevelSum, OutOfMemory>
    ensures sized { IfOk result (IsSizedLevel count) }
    ensures empty { IfOk result (IsEmptySum count) }
{
    Ok(LevelSum {
        unit: 1,
        own: 1,
        by: zeros(alloc, count)?,
        cost: Frac::zero(),
    })
}

// The row of a level with one more line.
fn with_line(
    alloc: Global,
    corner: CornerLines<'_>,
    at: usize,
    old: &LevelSum,
) -> Result<LevelSum, SumStop>
    requires corner { IsSizedCorner corner }
    requires at { at < length corner.lines.now }
    requires old { IsSizedLevel (length corner.lines.now) old.now }
    ensures sized { IfOk result (IsSizedLevel (length corner.entry.lines.now)) }
    ensures row { IfOk result (λ sum. WithPart corner.entry at old.now
        (λ p marks place. IsPartSum p marks corner.entry.outline.now place (at + 1) sum)) }
    ensures unfit { IfErr result (λ stop. IsRefused stop → WithPart corner.entry at old.now
        (λ p marks place. IsPartUnfit p marks corner.entry.outline.now place (at + 1))) }
{
    let CornerLines { outline, lines } = corner;
    let line = outline.lines[at];
    let draft = joined(alloc, old, line, &lines[at])?;
    if does_fit(corner, line.level, &draft, at + 1) {
        Ok(fitting_sum(draft))
    } else {
        Err(Stop::Refused(Unfit))
    }
}

// The row that a fitting draft is.
fn fitting_sum(draft: Draft) -> LevelSum
    requires own { pos 0 <ℤ draft.own }
    requires unit { pos 0 <ℤ draft.unit }
    requires scale { IsFitting (draft.own *ℤ draft.unit) }
    ensures unit { result.unit ≡ draft.unit }
    ensures own { result.own ≡ draft.own }
    ensures by { result.by.items ≡ draft.by.items }
    ensures cost { result.cost ≡ draft.cost }
{
    LevelSum {
        unit: draft.unit as i64,
        own: draft.own,
        by: draft.by,
        cost: draft.cost,
    }
}

// Why the first rows of a level have no row.
fn rows_stop(stop: SumStop, level: Level, first: u32) -> RowsStop
    ensures unfit { IsRefused stop → result ≡ unfit_rows level first }
    ensures memory { stop ≡ stops.OutOfMemory → result ≡ stops.OutOfMemory }
{
    match stop {
        Stop::Refused(_) => Stop::Refused(UnfitRows { level, first }),
        Stop::OutOfMemory => Stop::OutOfMemory,
    }
}

// The row of the first lines of a level of rows.
fn rows_level(
    alloc: Global,
    corner: CornerLines<'_>,
    place: usize,
    most: u32,
) -> Result<LevelSum, RowsStop>
    requires corner { IsSizedCorner corner }
    requires place { place < length corner.outline.now.levels.items }
    ensures sized { IfOk result (IsSizedLevel (length corner.entry.lines.now)) }
    ensures row { IfOk result (λ sum. WithFirstLines corner.entry place most
        (λ p at. IsOfRows corner.entry.outline.now place
        → IsRowsSum p at corner.entry.outline.now place most sum)) }
    ensures unfit { IfErr result (λ stop. ((p : Problem) → IsOutline p corner.entry.outline.now
        → IsOfRows corner.entry.outline.now place)
        → IsRowsStop corner.entry place most stop) }
{
    let mut sum = empty_level(alloc, corner.lines.len())?;
    let mut first = 0;
    for at in 0..corner.lines.len() {
        if corner.outline.lines[at].level == place && first < most {
            first += 1;
            match with_line(alloc, corner, at, &sum) {
                Ok(next) => sum = next,
                Err(stop) => return Err(rows_stop(stop, corner.outline.levels[place].level, first)),
            }
        }
    }
    Ok(sum)
}

// The place of the first line of a level.
fn first_line(lines: &[LineFacts], place: usize) -> Option<usize>
    ensures within { IfSome result (λ k. k < length lines.now) }
    ensures found { IfSome result (HoldsAt (λ f. f.level ≡ place) lines.now) }
    ensures before { IfSome result (λ k. All (λ f. f.level ≢ place) (take k lines.now)) }
    ensures none { IfNone result (All (λ f. f.level ≢ place) lines.now) }
{
    lines.iter().position(|line| line.level == place)
}

// The row of a stay's level, from the kept stay.
fn stay_sum(alloc: Global, count: usize, line: &Option<Inside>) -> Result<LevelSum, SumStop>
    requires { IsSizedLine count line.now }
    ensures sized { IfOk result (IsSizedLevel count) }
    ensures row { IfOk result (IsStayRow count line.now) }
    ensures unfit { IfErr result (λ stop. IsRefused stop → IsUnfitStay line.now) }
{
    match line {
        None => Ok(empty_level(alloc, count)?),
        Some(inside) => inside_stay(alloc, inside),
    }
}

// The row of a stay's level, of its one line, or of none.
fn stay_level(
    alloc: Global,
    corner: CornerLines<'_>,
    place: usize,
    most: u32,
) -> Result<LevelSum, RowsStop>
    requires corner { IsSizedCorner corner }
    requires place { place < length corner.outline.now.levels.items }
    ensures sized { IfOk result (IsSizedLevel (length corner.entry.lines.now)) }
    ensures row { IfOk result (λ sum. WithFirstLines corner.entry place most
        (λ p at. IsOfStay corner.entry.outline.now place
        → IsRowsSum p at corner.entry.outline.now place most sum)) }
    ensures unfit { IfErr result (λ stop. ((p : Problem) → IsOutline p corner.entry.outline.now
        → IsOfStay corner.entry.outline.now place)
        → IsRowsStop corner.entry place most stop) }
{
    let CornerLines { outline, lines } = corner;
    let Some(at) = first_line(&outline.lines, place) else {
        return Ok(empty_level(alloc, lines.len())?);
    };
    if most == 0 {
        return Ok(empty_level(alloc, lines.len())?);
    }
    match stay_sum(alloc, lines.len(), &lines[at]) {
        Ok(sum) => Ok(sum),
        Err(stop) => Err(rows_stop(stop, outline.levels[place].level, 1)),
    }
}
