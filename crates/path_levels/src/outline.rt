// The lines and levels of a problem, in order.
ghost use Rattle.std.specs.Prelude.{◌≡◌, ◌≢◌, ◌<◌, true, false, length, All, Any, IfOk};
ghost use Rattle.problem_core.specs.Layout.{line_of_row, rank_level};
ghost use Rattle.problem_core.specs.declared.limits.TheConstants.{FIRST_STAY_LEVEL};
ghost use Rattle.path_lines.specs.Tables.{line_count};
ghost use Rattle.path_levels.specs.Outlines.{IsFactsOf, IsOutline, IsSizedOutline, number_at};
ghost use Rattle.path_levels.specs.OutlineParts.{AreFactsTo, AreLevelsTo, AreRankLevels, HasNumber};

use frac_core::OutOfMemory;
use path_lines::weights;
use problem_core::{FIRST_STAY_LEVEL, Level, Problem, REQUIRED, Row, RowName, Stay};
use std::alloc::Global;

/// A line's name, the place of its level, the cost there of each of its deviations, and its scale.
#[derive(Clone, Copy)]
pub struct LineFacts {
    pub name: RowName,
    pub level: usize,
    /// The cost of a deviation below, from 0 to the greatest weight.
    pub under: i64,
    /// The cost of one above, from 0 to the greatest weight.
    pub over: i64,
    /// From 1 to the greatest scale.
    pub scale: i64,
}

/// A level, and its number among all levels: `REQUIRED` less the priority, or from [`FIRST_STAY_LEVEL`] on
/// for the stays.
#[derive(Clone, Copy)]
pub struct LevelFacts {
    pub level: Level,
    pub number: u32,
}

/// The lines of a problem, held rows by number and then stays, and its levels, strongest first.
#[derive(Drop)]
pub struct Outline {
    pub lines: Vec<LineFacts>,
    pub levels: Vec<LevelFacts>,
    /// How many of the lines are rows.
    pub rows: usize,
}

// Whether a row has this rank.
fn has_rank(rows: &[Row], rank: u16) -> bool
    ensures some { result ≡ true → Any (λ r. r.rank ≡ rank) rows.now }
    ensures none { result ≡ false → All (λ r. r.rank ≢ rank) rows.now }
{
    rows.iter().any(|r| r.rank() == rank)
}

// The levels of the rows, strongest first.
fn rank_levels(alloc: Global, p: &Problem) -> Result<Vec<LevelFacts>, OutOfMemory>
    ensures { IfOk result (λ levels. AreRankLevels p.now.rows FIRST_STAY_LEVEL levels.items) }
{
    p.show_whole(); // for the proof: what a problem keeps
    let mut levels = Vec::new(alloc);
    for number in 0..FIRST_STAY_LEVEL {
        let rank = REQUIRED - number as u16;
        if has_rank(p.rows(), rank) {
            let level = Level::Priority(rank);
            levels.push(LevelFacts { level, number })?;
        }
    }
    Ok(levels)
}

// The levels of the rows and then those of the stays.
fn levels_of(ranks: Vec<LevelFacts>, p: &Problem) -> Result<Vec<LevelFacts>, OutOfMemory>
    requires { AreRankLevels p.now.rows FIRST_STAY_LEVEL ranks.items }
    ensures { IfOk result
        (λ levels. AreLevelsTo p.now (length ranks.items) (length p.now.stays) levels.items) }
{
    p.show_whole(); // for the proof: what a problem keeps
    let mut levels = ranks;
    let mut number = FIRST_STAY_LEVEL;
    for stay in p.stays() {
        let level = Level::Stay(stay.attr);
        levels.push(LevelFacts { level, number })?;
        number += 1;
    }
    Ok(levels)
}

// The place of the level with a number.
fn level_place(levels: &[LevelFacts], number: u32) -> usize
    requires { HasNumber levels.now number }
    ensures within { result < length levels.now }
    ensures found { number_at levels.now result ≡ number }
{
    levels.iter().position(|f| f.number == number).unwrap_or(0)
}

fn row_facts(levels: &[LevelFacts], r: &Row) -> LineFacts
    requires { HasNumber levels.now (rank_level r.now.rank) }
    ensures { IsFactsOf levels.now (line_of_row r.now) result }
{
    r.show_row(); // for the proof: what a row keeps
    let name = RowName::Held(r.id());
    let level = level_place(levels, u32::from(REQUIRED - r.rank()));
    let (under, over) = weights(r.rel(), r.weight());
    let scale = r.scale();
    LineFacts {
        name,
        level,
        under,
        over,
        scale,
    }
}

// The facts of the rows.
fn row_lines(
    alloc: Global,
    p: &Problem,
    levels: &[LevelFacts],
) -> Result<Vec<LineFacts>, OutOfMemory>
    requires { All (λ r. HasNumber levels.now (rank_level r.rank)) p.now.rows }
    ensures { IfOk result (λ lines. AreFactsTo p.now levels.now (length p.now.rows) lines.items) }
{
    let mut lines = Vec::new(alloc);
    for r in p.rows() {
        lines.push(row_facts(levels, r))?;
    }
    Ok(lines)
}

// The facts of all lines. The levels of the stays begin at a place.
fn lines_of(
    alloc: Global,
    p: &Problem,
    levels: &[LevelFacts],
    ranks: usize,
) -> Result<Vec<LineFacts>, OutOfMemory>
    requires { AreLevelsTo p.now ranks (length p.now.stays) levels.now }
    ensures { IfOk result (λ lines. AreFactsTo p.now levels.now (line_count p.now) lines.items) }
{
    let mut lines = row_lines(alloc, p, levels)?;
    let mut level = ranks;
    for stay in p.stays() {
        let name = RowName::Stay(stay.attr);
        lines.push(LineFacts {
            name,
            level,
            under: 1,
            over: 1,
            scale: 1,
        })?;
        level += 1;
    }
    Ok(lines)
}

impl Outline {
    /// The outline of a problem.
    pub fn of(alloc: Global, p: &Problem) -> Result<Outline, OutOfMemory>
        ensures outline { IfOk result (IsOutline p.now) }
        ensures sized { IfOk result IsSizedOutline }
    {
        p.show_whole(); // for the proof: what a problem keeps
        let ranks = rank_levels(alloc, p)?;
        let count = ranks.len();
        let levels = levels_of(ranks, p)?;
        let lines = lines_of(alloc, p, &levels, count)?;
        let rows = p.rows().len();
        Ok(Outline {
            lines,
            levels,
            rows,
        })
    }
}
