// Whether a corner of a path is sound, or an end, or may be left by an exchange.
ghost use Rattle.std.specs.Prelude.{◌≡◌, ◌↔◌, ◌<◌, ◌<ℤ◌, pos, length, slice_index_or, List, IsTrue};
ghost use Rattle.std.specs.Prelude.{Option, None, true};
ghost use Rattle.problem_core.specs.Layout.{Problem};
ghost use Rattle.problem_core.specs.Corners.{IsExchange};
ghost use Rattle.problem_core.specs.Levels.{CostsAbove};
ghost use Rattle.problem_core.specs.Changes.Paths.{IsEndOf, IsSound, MaySwap, NoNegativeRequired};
ghost use Rattle.problem_core.specs.declared.parts.Mark.{Mark};
ghost use Rattle.path_lines.specs.Sides.{IsWithin};
ghost use Rattle.path_lines.specs.Tables.{swap_of};
ghost use Rattle.path_levels.specs.Outlines.{IsPriced};
ghost use Rattle.path_levels.specs.Corners.{HasOutline, HasSizedLevels};
ghost use Rattle.path_levels.specs.Levels.{AreLevels, IsSizedLevel};
ghost use Rattle.path_levels.specs.Rows.{AreKept};
ghost use Rattle.path_levels.specs.Costs.{HasLine, cost_in};
ghost use Rattle.path_levels.specs.Required.{HasRequired, IsBelow};
ghost use Rattle.path_lines.specs.declared.table.Inside.{Inside as Kept};
ghost use Rattle.path_levels.specs.Kept.{WithFirstRow, WithTableau};

use crate::columns::{cost_at, has_no_negative_column, is_negative_column};
use crate::outline::{LineFacts, Outline};
use crate::sums::{LevelRow, LevelSum};
use crate::tableau::{CornerLines, Tableau};
use frac_core::Frac;
use path_lines::{Inside, Spot, Step, has_no_negative_value, is_down};
use problem_core::Side;

// Whether the strongest level is that of the required rows.
fn has_required(outline: &Outline) -> bool
    ensures { IsTrue result ↔ HasRequired outline.now }
{
    match outline.levels.first() {
        Some(facts) => facts.number == 0,
        None => false,
    }
}

// Whether the cost is above 0.
fn is_above(cost: Frac) -> bool
    ensures { IsTrue result ↔ (pos 0 <ℤ cost.num) }
{
    cost.num() > 0
}

// Whether the required rows cost, if this is the row of the first level.
fn is_costly(outline: &Outline, sum: &LevelSum) -> bool
    ensures required { result ≡ true → HasRequired outline.now }
    ensures above { (p : Problem) (at : List Mark) (lines : List (Option Kept))
        → WithFirstRow p at outline.now lines sum.now (IsTrue result ↔ CostsAbove p at 0) }
{
    has_required(outline) && is_above(sum.cost)
}

// Whether the required rows cost.
fn costs_above(outline: &Outline, levels: &[LevelSum]) -> bool
    requires { length levels.now ≡ length outline.now.levels.items }
    ensures { (p : Problem) (at : List Mark) (lines : List (Option Kept)) → AreKept p at outline.now lines
        → AreLevels p at outline.now levels.now → IsTrue result ↔ CostsAbove p at 0 }
{
    match levels.first() {
        Some(sum) => is_costly(outline, sum),
        None => false,
    }
}

// Whether the reduced cost of a line's mark, if it is outside, is below 0 at the first level.
fn is_cost_below(facts: &LineFacts, spot: Spot, sum: &LevelSum) -> bool
    requires facts { IsPriced facts.now }
    requires sum { HasLine spot.at sum.now }
    ensures { IsTrue result ↔ (cost_in spot.side facts.now spot.at 0 sum.now <ℤ pos 0) }
{
    cost_at(facts, spot, LevelRow { place: 0, sum }) < 0
}

// Whether the reduced cost of one of the line's marks is below 0 there.
fn has_cost_below(facts: &LineFacts, at: usize, sum: &LevelSum) -> bool
    requires facts { IsPriced facts.now }
    requires sum { HasLine at sum.now }
    ensures { IsTrue result ↔ ((side : Side) × (cost_in side facts.now at 0 sum.now <ℤ pos 0)) }
{
    let (under, over) = (Side::Under, Side::Over);
    is_cost_below(facts, Spot { at, side: under }, sum)
        || is_cost_below(facts, Spot { at, side: over }, sum)
}

// Whether the line is outside and one of its marks has a reduced cost below 0 there.
fn is_line_below(line: &Option<Inside>, facts: &LineFacts, at: usize, sum: &LevelSum) -> bool
    requires facts { IsPriced facts.now }
    requires sum { HasLine at sum.now }
    ensures { (lines : List (Option Kept)) → slice_index_or lines at None ≡ line.now
        → IsTrue result ↔ IsBelow lines facts.now sum.now at }
{
    match line {
        Some(_) => false,
        None => has_cost_below(facts, at, sum),
    }
}

// Whether no outside mark has a reduced cost below 0 at the first level, whose row this is.
fn has_no_negative_required(corner: CornerLines<'_>, sum: &LevelSum) -> bool
    requires corner { HasOutline corner }
    requires sum { IsSizedLevel (length corner.lines.now) sum.now }
    ensures { (p : Problem) (at : List Mark) → WithFirstRow p at corner.entry.outline.now
        corner.entry.lines.now sum.now
        (HasRequired corner.entry.outline.now → IsTrue result ↔ NoNegativeRequired p at) }
{
    let CornerLines { outline, lines } = corner;
    for at in 0..lines.len() {
        if is_line_below(&lines[at], &outline.lines[at], at, sum) {
            return false;
        }
    }
    true
}

// Whether the required rows cost, and no outside mark has a reduced cost below 0 at their level.
fn is_refuted(tableau: Tableau<'_>) -> bool
    requires { HasSizedLevels tableau }
    ensures { WithTableau tableau.entry
        (λ p at. IsTrue result ↔ (CostsAbove p at 0 × NoNegativeRequired p at)) }
{
    let corner = tableau.corner;
    match tableau.levels.first() {
        Some(sum) => is_costly(corner.outline, sum) && has_no_negative_required(corner, sum),
        None => false,
    }
}

/// Whether the corner is as each corner of a path must be.
pub fn is_sound(dual: bool, tableau: Tableau<'_>) -> bool
    requires { HasSizedLevels tableau }
    ensures { WithTableau tableau.entry (λ p at. IsTrue result ↔ IsSound dual p at) }
{
    if dual {
        has_no_negative_column(tableau)
    } else {
        has_no_negative_value(tableau.corner.lines)
    }
}

/// Whether a path may end at the corner.
pub fn is_end(dual: bool, tableau: Tableau<'_>) -> bool
    requires { HasSizedLevels tableau }
    ensures { WithTableau tableau.entry (λ p at. IsTrue result ↔ IsEndOf dual p at) }
{
    if dual {
        has_no_negative_value(tableau.corner.lines)
            || costs_above(tableau.corner.outline, tableau.levels)
    } else {
        has_no_negative_column(tableau) || is_refuted(tableau)
    }
}

/// Whether a path may make this exchange there. A primal one brings in a mark with a negative column, a dual
/// one takes out a mark with a negative value.
pub fn may_swap(dual: bool, tableau: Tableau<'_>, step: Step) -> bool
    requires tableau { HasSizedLevels tableau }
    requires step { IsWithin (length tableau.corner.lines.now) step }
    ensures { WithTableau tableau.entry (λ p at. IsExchange p at (swap_of p step)
        → IsTrue result ↔ MaySwap dual p at (swap_of p step)) }
{
    let lines = tableau.corner.lines;
    if dual {
        is_down(&lines[step.leave.at])
    } else {
        is_negative_column(tableau, step.enter)
    }
}
