// Whether an attribute moves among the best assignments without the stays.
ghost use Rattle.std.specs.Prelude.{◌≡◌, ◌≢◌, ◌<◌, pos, true, false, All};
ghost use Rattle.std.specs.Prelude.{IfOk, IfErr, IfSome, IfNone};
ghost use Rattle.frac_core.specs.Fraction.{IsKept, IsUnfitRatio};
ghost use Rattle.problem_core.specs.declared.limits.TheConstants.{NUMBER_LIMIT};
ghost use Rattle.problem_core.specs.Gaps.{value_of};
ghost use Rattle.problem_core.specs.Kept.{IsRow};
ghost use Rattle.diagnosis.specs.Probes as probes;
ghost use Rattle.diagnosis.specs.Probes.{CanProbe, IsAnswer, IsBeside, IsDiagnoseStop, IsNearTo};
ghost use Rattle.diagnosis.specs.Probes.{IsNearestValue, IsNoFurther, IsStopped, IsTried};
ghost use Rattle.diagnosis.specs.Probes.{NoConflict, next_num, side, turned, wish_row};

use cert_core::{Path, RunStop, UnfitPath};
use corner_view::Tableau;
use frac_core::{Frac, OutOfMemory, Unfit};
use layout_solver::{Change, Engine};
use problem_core::{Rel, Row, Term};
use std::alloc::Global;
use std::cmp::Ordering;
use thiserror::Error;

/// Whether an attribute moves.
#[derive(Clone, Copy, Debug, PartialEq, Eq)]
pub enum Answer {
    /// All assignments that are best without the stays give it its value.
    Fixed,
    /// They reach this value, at most a point from its own.
    Moves(Frac),
}

/// Why a probe stopped, up or down.
#[derive(Clone, Debug, Drop, Error)]
pub enum DiagnoseStop {
    /// A quantity does not fit at the end of a path.
    #[error("a quantity doesn't fit")]
    Unfit { up: bool, at: UnfitPath },
    /// The path has as many exchanges as the budget.
    #[error("the exchanges are used up")]
    Spent { up: bool, path: Path },
    /// The value that the probe would wish does not fit.
    #[error("the value a point away doesn't fit")]
    Target { up: bool },
    /// Memory ran out.
    #[error("memory is wanting")]
    OutOfMemory,
}

impl From<OutOfMemory> for DiagnoseStop {
    ghost use Rattle.diagnosis.specs.declared.probing.DiagnoseStop.TheVariants.{OutOfMemory};

    ghost from_gives = { λ _ stop. stop ≡ OutOfMemory };

    fn from(_: OutOfMemory) -> DiagnoseStop {
        DiagnoseStop::OutOfMemory
    }
}

/// The attribute whose probe stopped, and why. The number is 0 if memory ran out outside the probes.
#[derive(Clone, Debug, Drop, Error)]
#[error("the probe of attribute {attr} stopped: {stop}")]
pub struct Stopped {
    pub attr: u32,
    pub stop: DiagnoseStop,
}

impl From<OutOfMemory> for Stopped {
    ghost use Rattle.diagnosis.specs.declared.probing.DiagnoseStop.TheVariants.{OutOfMemory};

    ghost from_gives = { λ _ stopped. stopped ≡ record { attr = 0; stop = OutOfMemory } };

    fn from(_: OutOfMemory) -> Stopped {
        Stopped {
            attr: 0,
            stop: DiagnoseStop::OutOfMemory,
        }
    }
}

// The value a point above, or below.
fn next_value(value: Frac, up: bool) -> Option<Frac>
    ensures some { IfSome result (IsBeside up value) }
    ensures kept { IfSome result IsKept }
    ensures none { IfNone result (IsUnfitRatio (next_num up value) (pos value.den)) }
{
    let (num, den) = (i128::from(value.num()), i128::from(value.den()));
    let next = if up { num + den } else { num - den };
    match Frac::of(next, den) {
        Ok(target) => Some(target),
        Err(Unfit) => None,
    }
}

// A number above those of all rows.
fn next_number(rows: &[Row]) -> u32
    requires { All (λ r. r.id < NUMBER_LIMIT) rows.now }
    ensures { result ≡ probes.next_number rows.now }
{
    match rows.last() {
        Some(row) => row.id() + 1,
        None => 1,
    }
}

// The stop of a probe, up or down. It is no conflict.
fn stop_of(up: bool, stop: RunStop) -> DiagnoseStop
    requires { NoConflict stop }
    ensures { result ≡ turned up stop }
{
    match stop {
        RunStop::Unfit(at) => DiagnoseStop::Unfit { up, at },
        RunStop::Spent(path) => DiagnoseStop::Spent { up, path },
        RunStop::OutOfMemory => DiagnoseStop::OutOfMemory,
        RunStop::Conflict(_) => unreachable!(),
    }
}

// The row that wishes the attribute at a value.
fn wish(alloc: Global, id: u32, attr: u32, rel: Rel, at: Frac) -> Result<Row, OutOfMemory>
    requires { IsRow (wish_row id attr rel at) }
    ensures { IfOk result (λ row. row ≡ wish_row id attr rel at) }
{
    let terms = [Term { attr, by: 1 }];
    Row::of(alloc, id, 0, 1, rel, 1, at, &terms)
}

// Whether the second value minus the first fits.
fn is_near(from: Frac, to: Frac) -> bool
    ensures { result ≡ true → IsNearTo from to }
{
    match Frac::mul_add(to, -1, 1, from) {
        Ok(_) => true,
        Err(Unfit) => false,
    }
}

// Whether the value is beyond the target.
fn is_past(value: Frac, target: Frac, up: bool) -> bool
    ensures { result ≡ false → IsNoFurther up target value }
{
    let past = if up {
        Ordering::Greater
    } else {
        Ordering::Less
    };
    value.compare(&target) == past
}

// The relation of the attribute to the probe's constant.
fn side_of(up: bool) -> Rel
    ensures { result ≡ side up }
{
    if up { Rel::Ge } else { Rel::Le }
}

// The value that the attribute takes on the way to the target, a point above its own or below, found by one
// change of a constant: a row that asks for less than the attribute's own value joins without cost, and then
// asks for the target. `None` if something stops that.
fn pushed<T: Tableau>(
    alloc: Global,
    e: &mut Engine<T>,
    attr: u32,
    up: bool,
    target: Frac,
    budget: u64,
) -> Option<Frac>
    requires can { CanProbe e.old attr }
    requires target { IsKept target }
    ensures value { IfSome result (IsNearestValue e.old.problem attr target) }
    ensures kept { IfSome result IsKept }
    ensures same { e.new ≡ e.old }
{
    e.show_layout(); // for the proof: what an engine keeps
    let behind = next_value(e.value_at(attr), !up)?;
    if !is_near(behind, target) {
        return None;
    }
    let number = next_number(e.rows());
    let Ok(row) = wish(alloc, number, attr, side_of(up), behind) else {
        return None;
    };
    let to = Change {
        row: number,
        constant: target,
    };
    let Ok(value) = e.value_after(&[row], to, attr, budget) else {
        return None;
    };
    let _ = value.num(); // for the proof: what a fraction keeps
    if is_past(value, target, up) {
        return None;
    }
    Some(value)
}

// The value that the attribute takes if the target is wished.
fn drawn<T: Tableau>(
    alloc: Global,
    e: &mut Engine<T>,
    attr: u32,
    up: bool,
    target: Frac,
    budget: u64,
) -> Result<Frac, DiagnoseStop>
    requires can { CanProbe e.old attr }
    requires target { IsKept target }
    requires beside { IsBeside up (value_of e.old.values attr) target }
    ensures value { IfOk result (IsNearestValue e.old.problem attr target) }
    ensures kept { IfOk result IsKept }
    ensures stop { IfErr result (IsStopped e.old attr up budget) }
    ensures same { e.new ≡ e.old }
{
    e.show_layout(); // for the proof: what an engine keeps
    let row = wish(alloc, next_number(e.rows()), attr, Rel::Eq, target)?;
    match e.value_with(&[row], attr, budget) {
        Ok(value) => {
            let _ = value.num(); // for the proof: what a fraction keeps
            Ok(value)
        }
        Err(stop) => Err(stop_of(up, stop)),
    }
}

// The value that the attribute takes if one a point above its own, or below, is wished.
fn probe<T: Tableau>(
    alloc: Global,
    e: &mut Engine<T>,
    attr: u32,
    up: bool,
    budget: u64,
) -> Result<Frac, DiagnoseStop>
    requires can { CanProbe e.old attr }
    ensures value { IfOk result (IsTried e.old attr up) }
    ensures kept { IfOk result IsKept }
    ensures stop { IfErr result (IsStopped e.old attr up budget) }
    ensures same { e.new ≡ e.old }
{
    e.show_layout(); // for the proof: what an engine keeps
    let Some(target) = next_value(e.value_at(attr), up) else {
        return Err(DiagnoseStop::Target { up });
    };
    if let Some(value) = pushed(alloc, e, attr, up, target, budget) {
        return Ok(value);
    }
    drawn(alloc, e, attr, up, target, budget)
}

// Whether the two values are equal.
fn is_same(a: Frac, b: Frac) -> bool
    ensures yes { result ≡ true → a ≡ b }
    ensures no { result ≡ false → a ≢ b }
{
    a == b
}

/// Whether an attribute moves among the assignments that are best without the stays, and how far.
///
/// At most two probes are made: one up and, if nothing above is reached, one down. Each makes up to three
/// runs, each with the whole budget: a row that asks for less than the value joins, its constant changes, and
/// only if that gives no answer, a row at the wished value joins instead. A stop is one of this last run, or
/// that there is no such value; it names the direction of its probe. The engine does not change.
pub fn ambiguous<T: Tableau>(
    alloc: Global,
    e: &mut Engine<T>,
    attr: u32,
    budget: u64,
) -> Result<Answer, DiagnoseStop>
    requires can { CanProbe e.old attr }
    ensures answer { IfOk result (IsAnswer e.old.problem attr (value_of e.old.values attr)) }
    ensures stop { IfErr result (IsDiagnoseStop e.old attr budget) }
    ensures same { e.new ≡ e.old }
{
    e.show_layout(); // for the proof: what an engine keeps
    let value = e.value_at(attr);
    let above = probe(alloc, e, attr, true, budget)?;
    if !is_same(above, value) {
        return Ok(Answer::Moves(above));
    }
    let below = probe(alloc, e, attr, false, budget)?;
    if !is_same(below, value) {
        return Ok(Answer::Moves(below));
    }
    Ok(Answer::Fixed)
}
