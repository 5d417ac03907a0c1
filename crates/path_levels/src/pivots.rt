// The pivot of an exchange at a corner, of two lines or of the two marks of one.
ghost use Rattle.std.specs.Prelude.{◌≡◌, ◌≢◌, ◌<◌, pos, length, set, true};
ghost use Rattle.std.specs.Prelude.{IfOk, IfErr};
ghost use Rattle.problem_core.specs.Corners.{IsExchange};
ghost use Rattle.path_lines.specs.Numbers.{number_at};
ghost use Rattle.path_lines.specs.Exchanges.Pivots.{IsSolvedFrom};
ghost use Rattle.path_lines.specs.Sides.{IsWithin};
ghost use Rattle.path_lines.specs.Tables.{AreSized, IsSized, swap_of};
ghost use Rattle.frac_core.specs.Stops.{IsRefused};
ghost use Rattle.path_levels.specs.Exchanges.Pivots.{IsExchangePivot, IsSizedPivot, IsTurnedFrom};
ghost use Rattle.path_levels.specs.Kept.{WithLines};

use frac_core::{OutOfMemory, Stop, Unfit};
use path_lines::{Inside, Pivot, Step, Sum, SumStop, solved_from};
use std::alloc::Global;

// The list with `number` at the place.
fn with_number(
    alloc: Global,
    numbers: &[i64],
    at: usize,
    number: i64,
) -> Result<Vec<i64>, OutOfMemory>
    requires { at < length numbers.now }
    ensures { IfOk result (λ out. out.items ≡ set numbers.now at number) }
{
    let mut out = Vec::with_capacity(alloc, numbers.len())?;
    out.extend_from_slice(numbers)?;
    out[at] = number;
    Ok(out)
}

// The pivot of an exchange of the two marks of one line: the line's own equation.
fn turning(alloc: Global, sum: &Sum, step: Step) -> Result<Pivot, OutOfMemory>
    requires enter { step.enter.at < length sum.now.by.items }
    requires sized { IsSized (length sum.now.by.items) sum.now }
    ensures { IfOk result (IsTurnedFrom sum.now step) }
{
    let by = with_number(alloc, &sum.by, step.enter.at, -sum.own)?;
    Ok(Pivot {
        step,
        is_turn: true,
        size: sum.own,
        by,
        value: sum.value,
        times: sum.own,
    })
}

// The pivot of an exchange with the leaving line's sum.
fn pivot_from(alloc: Global, sum: &Sum, step: Step) -> Result<Pivot, SumStop>
    requires enter { step.enter.at < length sum.now.by.items }
    requires sized { IsSized (length sum.now.by.items) sum.now }
    ensures turned { IfOk result (λ pivot. step.enter.at ≡ step.leave.at → IsTurnedFrom sum.now step pivot) }
    ensures solved { IfOk result (λ pivot. step.enter.at ≢ step.leave.at → IsSolvedFrom sum.now step pivot) }
    ensures unfit { IfErr result (λ stop. IsRefused stop → (step.enter.at ≢ step.leave.at)
        × (number_at sum.now.by.items step.enter.at ≡ pos 0)) }
{
    if step.enter.at == step.leave.at {
        return Ok(turning(alloc, sum, step)?);
    }
    solved_from(alloc, sum, step)
}

/// The pivot of an exchange, of two lines or of the two marks of one. Unfit if the step is no exchange.
pub fn pivot_of(alloc: Global, lines: &[Option<Inside>], step: Step) -> Result<Pivot, SumStop>
    requires lines { AreSized lines.now }
    requires step { IsWithin (length lines.now) step }
    ensures step { IfOk result (λ pivot. pivot.step ≡ step) }
    ensures sized { IfOk result (IsSizedPivot (length lines.now)) }
    ensures pivot { IfOk result (λ pivot. WithLines lines.now
        (λ p at. IsExchange p at (swap_of p step) → IsExchangePivot p at pivot)) }
    ensures unfit { IfErr result (λ stop. IsRefused stop
        → WithLines lines.now (λ p at. IsExchange p at (swap_of p step) → ⊥)) }
{
    match &lines[step.leave.at] {
        Some(inside) => pivot_from(alloc, &inside.sum, step),
        None => Err(Stop::Refused(Unfit)),
    }
}
