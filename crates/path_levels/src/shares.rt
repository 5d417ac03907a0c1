// The count of a line's deviations in a level's row.
ghost use Rattle.std.specs.Prelude.{◌≡◌, ◌<◌, ◌^◌, ◌↔◌, ◌*◌, ◌≤◌, ◌<ℤ◌, pos, unsigned_abs, IsTrue};
ghost use Rattle.frac_core.specs.Fraction.{IsFitting};
ghost use Rattle.problem_core.specs.declared.limits.TheConstants.{WEIGHT_LIMIT};
ghost use Rattle.path_levels.specs.Outlines.{IsPriced};
ghost use Rattle.path_levels.specs.Shares.{IsScaled, counted_of, reduced_of, share_at};
ghost use Rattle.path_levels.specs.Shares.{stood_of, weight_on};

use crate::outline::LineFacts;
use crate::sums::LevelRow;
use frac_core::PART_BOUND;
use problem_core::Side;

/// The cost of a deviation on this side.
pub(crate) fn weight_on(line: &LineFacts, side: Side) -> i64
    ensures { result ≡ weight_on side line.now }
{
    match side {
        Side::Under => line.under,
        Side::Over => line.over,
    }
}

// The count of a deviation on this side, in units of the level at the place.
fn share(line: &LineFacts, side: Side, place: usize, unit: i64) -> i64
    requires line { IsPriced line.now }
    requires above { pos 0 <ℤ unit }
    requires fits { IsFitting unit }
    ensures value { result ≡ pos (share_at line.now side place unit) }
    ensures small { share_at line.now side place unit ≤ unsigned_abs unit * WEIGHT_LIMIT }
{
    if line.level != place {
        return 0;
    }
    unit * weight_on(line, side) / line.scale
}

/// The same times the row's own number.
pub fn counted(line: &LineFacts, side: Side, row: LevelRow<'_>) -> i64
    requires line { IsPriced line.now }
    requires sum { IsScaled row.sum.now }
    ensures value { result ≡ pos (counted_of line.now side row.entry.place row.entry.sum.now) }
    ensures small { counted_of line.now side row.entry.place row.entry.sum.now < 2 ^ 52 }
{
    row.sum.own * share(line, side, row.place, row.sum.unit)
}

/// The line's number in the level's row if its mark of this side is inside.
pub fn stood_number(line: &LineFacts, side: Side, row: LevelRow<'_>) -> i64
    requires line { IsPriced line.now }
    requires sum { IsScaled row.sum.now }
    ensures value { result ≡ stood_of line.now side row.entry.place row.entry.sum.now }
    ensures small { unsigned_abs result < 2 ^ 52 }
{
    let counted = counted(line, side, row);
    match side {
        Side::Under => counted,
        Side::Over => -counted,
    }
}

/// Whether the reduced cost of the mark of this side fits, if the line has the number.
pub fn has_fitting_cost(line: &LineFacts, side: Side, row: LevelRow<'_>, number: i64) -> bool
    requires line { IsPriced line.now }
    requires sum { IsScaled row.sum.now }
    requires number { unsigned_abs number < 2 ^ 52 }
    ensures { IsTrue result ↔ IsFitting (reduced_of line.now side row.entry.place row.entry.sum.now number) }
{
    let counted = counted(line, side, row);
    let reduced = match side {
        Side::Under => counted - number,
        Side::Over => counted + number,
    };
    u128::from(reduced.unsigned_abs()) < PART_BOUND
}
