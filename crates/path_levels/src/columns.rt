// The columns of outside marks at a corner: a mark's cost at each level, strongest first, and whether the
// first of these costs that isn't 0 is below 0.
ghost use Rattle.std.specs.Prelude.{◌≡◌, ◌↔◌, ◌<◌, ◌^◌, ◌<ℤ◌, ℕ, pos, length, get_or, unsigned_abs};
ghost use Rattle.std.specs.Prelude.{IsTrue, [], false};
ghost use Rattle.problem_core.specs.Corners.{HasNegativeColumn, NoNegativeColumn};
ghost use Rattle.path_lines.specs.Tables.{mark_of};
ghost use Rattle.path_levels.specs.Outlines.{IsPriced};
ghost use Rattle.path_levels.specs.Levels.{IsSizedLevel};
ghost use Rattle.path_levels.specs.Corners.{HasSizedLevels};
ghost use Rattle.path_levels.specs.Costs.{AreSmall, HasLine, HasNegative, IsNegativeFirst};
ghost use Rattle.path_levels.specs.Costs.{cost_in, cost_of, counted as counted_at, reduced_by};
ghost use Rattle.path_levels.specs.Shares.{share_of};
ghost use Rattle.path_levels.specs.declared.sums.LevelSum.{LevelSum as KeptSum};
ghost use Rattle.path_levels.specs.Kept.{WithTableau};

use crate::outline::LineFacts;
use crate::shares::weight_on;
use crate::sums::{LevelRow, LevelSum};
use crate::tableau::{CornerLines, Tableau};
use path_lines::Spot;
use problem_core::Side;

/// The unit and the own number of a level's row, from which its costs follow.
#[derive(Clone, Copy)]
pub(crate) struct Units {
    pub unit: i64,
    pub own: u128,
}

// The count of a deviation of the line on this side, at the line's level.
fn share(facts: &LineFacts, side: Side, unit: i64) -> u128
    requires { pos 0 <ℤ facts.now.scale }
    ensures { result ≡ share_of side (unsigned_abs unit) facts.now }
{
    let weight = u128::from(weight_on(facts, side).unsigned_abs());
    u128::from(unit.unsigned_abs()) * weight / u128::from(facts.scale.unsigned_abs())
}

// The same times the row's own number, at the level at a place.
fn counted(facts: &LineFacts, side: Side, place: usize, units: Units) -> u128
    requires facts { IsPriced facts.now }
    requires units { AreSmall units }
    ensures value { result ≡ counted_at side place (unsigned_abs units.unit) units.own facts.now }
    ensures small { result < 2 ^ 94 }
{
    if facts.level == place {
        units.own * share(facts, side, units.unit)
    } else {
        0
    }
}

// The reduced cost of an outside mark with this count, whose line has this number.
fn reduced(side: Side, count: u128, number: i128) -> i128
    requires count { count < 2 ^ 94 }
    requires number { unsigned_abs number < 2 ^ 126 }
    ensures { result ≡ reduced_by side count number }
{
    let count = count as i128;
    match side {
        Side::Under => count - number,
        Side::Over => count + number,
    }
}

/// The reduced cost of an outside mark at the level at a place. Its line has this number.
pub(crate) fn cost(facts: &LineFacts, side: Side, place: usize, units: Units, number: i128) -> i128
    requires facts { IsPriced facts.now }
    requires units { AreSmall units }
    requires number { unsigned_abs number < 2 ^ 126 }
    ensures { result ≡ cost_of side place (unsigned_abs units.unit) units.own facts.now number }
{
    reduced(side, counted(facts, side, place, units), number)
}

/// The reduced cost of the line's mark, if it is outside.
pub(crate) fn cost_at(facts: &LineFacts, spot: Spot, row: LevelRow<'_>) -> i128
    requires facts { IsPriced facts.now }
    requires sum { IsSizedLevel (length row.sum.now.by.items) row.sum.now }
    requires spot { spot.at < length row.sum.now.by.items }
    ensures { result ≡ cost_in spot.side facts.now spot.at row.entry.place row.entry.sum.now }
{
    let LevelRow { place, sum } = row;
    let units = Units {
        unit: sum.unit,
        own: u128::from(sum.own.unsigned_abs()),
    };
    cost(facts, spot.side, place, units, i128::from(sum.by[spot.at]))
}

// Whether the first of the mark's reduced costs that isn't 0 is below 0.
fn is_negative_first(facts: &LineFacts, levels: &[LevelSum], spot: Spot) -> bool
    requires facts { IsPriced facts.now }
    requires levels { (k : ℕ) (d : KeptSum) → k < length levels.now
        → HasLine spot.at (get_or levels.now k d) }
    ensures none { levels.now ≡ [] → result ≡ false }
    ensures first { (d : KeptSum) → IsTrue result ↔ IsNegativeFirst (length levels.now)
        (λ k. cost_in spot.side facts.now spot.at k (get_or levels.now k d)) }
{
    for (place, sum) in levels.iter().enumerate() {
        let cost = cost_at(facts, spot, LevelRow { place, sum });
        if cost != 0 {
            return cost < 0;
        }
    }
    false
}

/// Whether the column of a mark is negative at the corner.
pub fn is_negative_column(tableau: Tableau<'_>, spot: Spot) -> bool
    requires tableau { HasSizedLevels tableau }
    requires spot { spot.at < length tableau.corner.lines.now }
    ensures { WithTableau tableau.entry
        (λ p at. IsTrue result ↔ HasNegativeColumn p at (mark_of p spot)) }
{
    let CornerLines { outline, lines } = tableau.corner;
    match &lines[spot.at] {
        Some(_) => false,
        None => is_negative_first(&outline.lines[spot.at], tableau.levels, spot),
    }
}

// Whether the column of a mark of the line is negative.
fn has_negative_column(tableau: Tableau<'_>, at: usize) -> bool
    requires tableau { HasSizedLevels tableau }
    requires at { at < length tableau.corner.lines.now }
    ensures { WithTableau tableau.entry
        (λ p marks. IsTrue result ↔ HasNegative p marks at) }
{
    let (under, over) = (Side::Under, Side::Over);
    is_negative_column(tableau, Spot { at, side: under })
        || is_negative_column(tableau, Spot { at, side: over })
}

/// Whether no column is negative at the corner.
pub fn has_no_negative_column(tableau: Tableau<'_>) -> bool
    requires { HasSizedLevels tableau }
    ensures { WithTableau tableau.entry (λ p at. IsTrue result ↔ NoNegativeColumn p at) }
{
    for at in 0..tableau.corner.lines.len() {
        if has_negative_column(tableau, at) {
            return false;
        }
    }
    true
}
