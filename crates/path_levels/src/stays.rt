// The equation of an inside stay, as the row of its level.
ghost use Rattle.std.specs.Prelude.{◌≡◌, ◌*ℤ◌, pos, length, map, All, IfOk, IfErr, OnErr};
ghost use Rattle.frac_core.specs.Fraction.{IsFitting, IsKept};
ghost use Rattle.corner_lines.specs.Levels.StayLevels.{turned as turned_by};
ghost use Rattle.path_lines.specs.Tables.{IsSized};
ghost use Rattle.frac_core.specs.Stops.{IsRefused};
ghost use Rattle.path_levels.specs.Levels.{IsSizedLevel};
ghost use Rattle.path_levels.specs.Parts.{IsStaySum};

use crate::joins::is_fitting;
use crate::sums::LevelSum;
use frac_core::{Frac, OutOfMemory, Stop, Unfit};
use path_lines::{Inside, SumStop};
use problem_core::Side;
use std::alloc::Global;

// The number, with the other sign if the under mark is inside.
fn turned(side: Side, number: i64) -> i64
    requires { IsFitting number }
    ensures value { result ≡ turned_by side number }
    ensures fits { IsFitting result }
{
    match side {
        Side::Under => -number,
        Side::Over => number,
    }
}

// Each of the numbers, turned so.
fn all_turned(alloc: Global, side: Side, numbers: &[i64]) -> Result<Vec<i64>, OutOfMemory>
    requires { All IsFitting numbers.now }
    ensures each { IfOk result (λ out. out.items ≡ map (turned_by side) numbers.now) }
{
    let mut out = Vec::with_capacity(alloc, numbers.len())?;
    for number in numbers {
        out.push(turned(side, *number))?;
    }
    Ok(out)
}

// The value, turned so. It fits with either sign.
fn turned_value(side: Side, value: Frac) -> Result<Frac, Unfit>
    ensures value { IfOk result (λ f. f ≡ record { num = turned_by side value.num; den = value.den }) }
    ensures kept { IsKept value }
    ensures ok { OnErr result ⊥ }
{
    let num = turned(side, value.num());
    Frac::of(i128::from(num), i128::from(value.den()))
}

/// The row of an inside stay's level, unless twice its own number does not fit.
pub(crate) fn inside_stay(alloc: Global, inside: &Inside) -> Result<LevelSum, SumStop>
    requires { IsSized (length inside.now.sum.by.items) inside.now.sum }
    ensures sized { IfOk result (IsSizedLevel (length inside.now.sum.by.items)) }
    ensures row { IfOk result (IsStaySum inside.now) }
    ensures twice { IfOk result (λ _. IsFitting (pos 2 *ℤ inside.now.sum.own)) }
    ensures kept { IsKept inside.now.sum.value }
    ensures unfit { IfErr result (λ stop. IsRefused stop → IsFitting (pos 2 *ℤ inside.now.sum.own)
        → ⊥) }
{
    let own = inside.sum.own;
    let cost = turned_value(inside.side, inside.sum.value)?;
    if !is_fitting(2 * i128::from(own)) {
        return Err(Stop::Refused(Unfit));
    }
    let by = all_turned(alloc, inside.side, &inside.sum.by)?;
    Ok(LevelSum {
        unit: 1,
        own,
        by,
        cost,
    })
}
