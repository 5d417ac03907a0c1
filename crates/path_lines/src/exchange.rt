// One exchange, from a corner whose numbers fit.
ghost use Rattle.std.specs.Prelude.{◌≡◌, ◌≢◌, ◌<◌, ◌*ℤ◌, ◌<ℤ◌, ◌≤ℤ◌, pos, length, true, false};
ghost use Rattle.std.specs.Prelude.{◌↔◌, All, IfOk, IfErr, IsTrue, List, OnErr};
ghost use Rattle.frac_core.specs.Stops.{IsRefused};
ghost use Rattle.frac_core.specs.Fraction.{Fraction, IsFitting, IsKept, IsRatio, IsUnfitRatio, sum_den};
ghost use Rattle.frac_core.specs.Fraction.{sum_num};
ghost use Rattle.problem_core.specs.Window.{zero_fraction};
ghost use Rattle.problem_core.specs.Layout.{Problem};
ghost use Rattle.problem_core.specs.Corners.{IsExchange};
ghost use Rattle.problem_core.specs.declared.parts.Mark.{Mark};
ghost use Rattle.path_lines.specs.Numbers.{AreFitting, IsCombined, IsFactor, IsReplaced};
ghost use Rattle.path_lines.specs.Numbers.{flip_sign, number_at};
ghost use Rattle.path_lines.specs.Adding.{ArePlaces, IsPlainLine};
ghost use Rattle.path_lines.specs.Tables.{AreLines, AreSized, IsSized, IsSizedLine, IsThere, swap_of};
ghost use Rattle.path_lines.specs.Exchanges.Pivots.{AreNextLines, AreUnfitNext, IsEnteringSum};
ghost use Rattle.path_lines.specs.Exchanges.Pivots.{IsNextLine, IsNextSum, IsPivotBy, IsSolvedFrom};
ghost use Rattle.path_lines.specs.Exchanges.Pivots.{IsUnfitNext, IsUnfitNextSum, LeadTo, LeadToUnfit};
ghost use Rattle.path_lines.specs.Exchanges.Pivots.{LeadsToUnfit};

use crate::adding::{add_pivot, places_of};
use crate::numbers::{Lowest, Wide, combined, in_lowest_terms};
use crate::spots::Step;
use crate::stop::SumStop;
use crate::table::{Inside, Sum, turn};
use frac_core::{Frac, OutOfMemory, Stop, Unfit};
use std::alloc::Global;

/// An exchange with the leaving line's sum, solved for the entering line: `size` times the entering line's
/// deviation. If both marks are of one line, the sum is that line's own.
#[derive(Drop)]
pub struct Pivot {
    pub step: Step,
    /// Whether both marks are of one line.
    pub is_turn: bool,
    /// Above 0.
    pub size: i64,
    /// The lines cancel with these numbers, the entering line with `-size`.
    pub by: Vec<i64>,
    /// The value of the leaving line's deviation. The entering line's is `times / size` times it.
    pub value: Frac,
    pub times: i64,
}

// `old`, or `number` at the place.
fn replaced(old: i64, place: usize, at: usize, number: i64) -> i64
    requires old { IsFitting old }
    requires number { IsFitting number }
    ensures fits { IsFitting result }
    ensures here { place ≡ at → result ≡ number }
    ensures other { place ≢ at → result ≡ old }
{
    if place == at { number } else { old }
}

// The number with the sign of a side.
fn turned(number: i64, is_turned: bool) -> i64
    requires { IsFitting number }
    ensures value { result ≡ flip_sign is_turned *ℤ number }
    ensures fits { IsFitting result }
{
    if is_turned { -number } else { number }
}

// The list with `number` at the place. All others may change their sign.
fn with_number(
    alloc: Global,
    numbers: &[i64],
    is_turned: bool,
    at: usize,
    number: i64,
) -> Result<Vec<i64>, OutOfMemory>
    requires numbers { All IsFitting numbers.now }
    requires number { IsFitting number }
    ensures value { IfOk result (λ out. IsReplaced (flip_sign is_turned) numbers.now at number out.items) }
    ensures fits { IfOk result (λ out. All IsFitting out.items) }
{
    let mut out = Vec::with_capacity(alloc, numbers.len())?;
    for (place, old) in numbers.iter().enumerate() {
        out.push(replaced(turned(*old, is_turned), place, at, number))?;
    }
    Ok(out)
}

/// Whether the marks make an exchange at the corner.
pub fn is_exchange(lines: &[Option<Inside>], step: Step) -> bool
    requires enter { step.enter.at < length lines.now }
    requires leave { step.leave.at < length lines.now }
    requires sized { AreSized lines.now }
    ensures { (p : Problem) (at : List Mark) → IsThere p at → AreLines p at lines.now
        → IsTrue result ↔ IsExchange p at (swap_of p step) }
{
    match &lines[step.leave.at] {
        Some(inside) => inside.side == step.leave.side && may_enter(inside, step),
        None => false,
    }
}

// Whether the leaving line's inside mark isn't the entering one, or moves with its line.
fn may_enter(inside: &Inside, step: Step) -> bool
    requires enter { step.enter.at < length inside.now.sum.by.items }
    ensures turn { step.enter.at ≡ step.leave.at → IsTrue result ↔ (step.enter.side ≢ inside.now.side) }
    ensures other { step.enter.at ≢ step.leave.at
        → IsTrue result ↔ (number_at inside.now.sum.by.items step.enter.at ≢ pos 0) }
{
    if step.enter.at == step.leave.at {
        step.enter.side != inside.side
    } else {
        inside.sum.by[step.enter.at] != 0
    }
}

// The pivot of an exchange of two lines: the leaving line's equation, solved for the entering line.
fn solving(alloc: Global, leaving: &Sum, step: Step) -> Result<Pivot, OutOfMemory>
    requires enter { step.enter.at < length leaving.now.by.items }
    requires sized { IsSized (length leaving.now.by.items) leaving.now }
    requires some { number_at leaving.now.by.items step.enter.at ≢ pos 0 }
    ensures { IfOk result (IsSolvedFrom leaving.now step) }
{
    let number = number_of(&leaving.by, step.enter.at);
    let is_below = is_negative(number);
    let own = turned(leaving.own, is_below);
    let by = with_number(alloc, &leaving.by, !is_below, step.leave.at, own)?;
    let size = turned(number, is_below);
    let times = turned(own, true);
    Ok(pivot_with(step, size, by, leaving.value, times))
}

/// The number at a place.
pub fn number_of(by: &[i64], at: usize) -> i64
    requires { at < length by.now }
    ensures { result ≡ number_at by.now at }
{
    by[at]
}

fn is_negative(number: i64) -> bool
    ensures below { result ≡ true → number <ℤ pos 0 }
    ensures above { result ≡ false → pos 0 ≤ℤ number }
{
    number < 0
}

// The pivot of an exchange of two lines, with these parts.
fn pivot_with(step: Step, size: i64, by: Vec<i64>, value: Frac, times: i64) -> Pivot
    ensures step { result.step ≡ step }
    ensures turn { result.is_turn ≡ false }
    ensures size { result.size ≡ size }
    ensures by { result.by.items ≡ by.items }
    ensures value { result.value ≡ value }
    ensures times { result.times ≡ times }
{
    Pivot {
        step,
        is_turn: false,
        size,
        by,
        value,
        times,
    }
}

/// The product of two fitting numbers.
pub fn pair_product(x: i64, y: i64) -> i128
    requires x { IsFitting x }
    requires y { IsFitting y }
    ensures value { result ≡ x *ℤ y }
    ensures small { IsFactor result }
{
    i128::from(x) * i128::from(y)
}

// The numbers in 128 bits.
fn widened(alloc: Global, numbers: &[i64]) -> Result<Vec<i128>, OutOfMemory>
    ensures { IfOk result (λ out. out.items ≡ numbers.now) }
{
    let mut out = Vec::with_capacity(alloc, numbers.len())?;
    for number in numbers {
        out.push(i128::from(*number))?;
    }
    Ok(out)
}

/// The numbers of an inside line's sum after an exchange of two lines: the entering line's equation is
/// substituted.
pub fn carried(alloc: Global, pivot: &Pivot, sum: &Sum) -> Result<Wide, OutOfMemory>
    requires enter { pivot.now.step.enter.at < length sum.now.by.items }
    requires pivot { AreFitting pivot.now.size pivot.now.by.items }
    requires sum { AreFitting sum.now.own sum.now.by.items }
    requires count { length sum.now.by.items ≡ length pivot.now.by.items }
    ensures own { IfOk result (λ w. w.own ≡ pivot.now.size *ℤ sum.now.own) }
    ensures by { IfOk result (λ w. IsCombined pivot.now.size sum.now.by.items
        (number_at sum.now.by.items pivot.now.step.enter.at) pivot.now.by.items w.by.items) }
{
    let size = i128::from(pivot.size);
    let number = i128::from(sum.by[pivot.step.enter.at]);
    Ok(Wide {
        own: pair_product(pivot.size, sum.own),
        by: combined(alloc, size, &sum.by, number, &pivot.by)?,
    })
}

// The pivot as the entering line's sum.
fn entering(alloc: Global, pivot: &Pivot) -> Result<Wide, OutOfMemory>
    requires { AreFitting pivot.now.size pivot.now.by.items }
    ensures own { IfOk result (λ w. w.own ≡ pivot.now.size) }
    ensures by { IfOk result (λ w. IsReplaced (pos 1) pivot.now.by.items pivot.now.step.enter.at (pos 0)
        w.by.items) }
{
    let by = with_number(alloc, &pivot.by, false, pivot.step.enter.at, 0)?;
    Ok(Wide {
        own: i128::from(pivot.size),
        by: widened(alloc, &by)?,
    })
}

// The value of the entering line's deviation after an exchange.
fn entering_value(pivot: &Pivot) -> Result<Frac, Unfit>
    requires times { IsFitting pivot.now.times }
    requires size { IsFitting pivot.now.size }
    requires above { pos 0 <ℤ pivot.now.size }
    ensures turn { pivot.now.is_turn ≡ true → IfOk result (λ f. f ≡ pivot.now.value) }
    ensures ratio { pivot.now.is_turn ≡ false → IfOk result (λ f. IsRatio f
        (sum_num zero_fraction pivot.now.times pivot.now.size pivot.now.value)
        (sum_den zero_fraction pivot.now.size pivot.now.value)) }
    ensures kept { IfOk result IsKept }
    ensures unfit { OnErr result (IsUnfitRatio
        (sum_num zero_fraction pivot.now.times pivot.now.size pivot.now.value)
        (sum_den zero_fraction pivot.now.size pivot.now.value)) }
{
    if pivot.is_turn {
        let _ = pivot.value.num(); // for the proof: what a fraction keeps
        return Ok(pivot.value);
    }
    Frac::mul_add(Frac::zero(), pivot.times, pivot.size, pivot.value)
}

/// Numbers and a value.
pub fn sum_of(numbers: Lowest, value: Frac) -> Sum
    ensures own { result.own ≡ numbers.own }
    ensures by { result.by.items ≡ numbers.by.items }
    ensures value { result.value ≡ value }
{
    Sum {
        own: numbers.own,
        by: numbers.by,
        value,
    }
}

// The entering line's sum after an exchange of two lines. Its deviation has the value `enters`.
fn entering_sum(alloc: Global, pivot: &Pivot, enters: Frac) -> Result<Sum, SumStop>
    requires above { pos 0 <ℤ pivot.now.size }
    requires fits { AreFitting pivot.now.size pivot.now.by.items }
    ensures sized { IfOk result (IsSized (length pivot.now.by.items)) }
    ensures sum { IfOk result (IsEnteringSum pivot.now enters) }
    ensures unfit { IfErr result (λ stop. IsRefused stop → LeadsToUnfit pivot.now enters) }
{
    let wide = entering(alloc, pivot)?;
    let numbers = in_lowest_terms(alloc, &wide)?;
    Ok(sum_of(numbers, enters))
}

// An inside line's sum after an exchange of two lines.
fn carried_sum(alloc: Global, pivot: &Pivot, sum: &Sum, enters: Frac) -> Result<Sum, SumStop>
    requires above { pos 0 <ℤ pivot.now.size }
    requires fits { AreFitting pivot.now.size pivot.now.by.items }
    requires enter { pivot.now.step.enter.at < length pivot.now.by.items }
    requires sized { IsSized (length pivot.now.by.items) sum.now }
    ensures sized { IfOk result (IsSized (length pivot.now.by.items)) }
    ensures sum { IfOk result (IsNextSum pivot.now enters sum.now) }
    ensures unfit { IfErr result (λ stop. IsRefused stop → IsUnfitNextSum pivot.now enters sum.now) }
{
    let wide = carried(alloc, pivot, sum)?;
    let numbers = in_lowest_terms(alloc, &wide)?;
    let number = number_of(&sum.by, pivot.step.enter.at);
    let value = Frac::mul_add(sum.value, number, sum.own, enters)?;
    Ok(sum_of(numbers, value))
}

// A line after an exchange of two lines.
fn exchanged_line(
    alloc: Global,
    pivot: &Pivot,
    old: &Option<Inside>,
    at: usize,
    enters: Frac,
) -> Result<Option<Inside>, SumStop>
    requires above { pos 0 <ℤ pivot.now.size }
    requires fits { AreFitting pivot.now.size pivot.now.by.items }
    requires enter { pivot.now.step.enter.at < length pivot.now.by.items }
    requires sized { IsSizedLine (length pivot.now.by.items) old.now }
    ensures sized { IfOk result (IsSizedLine (length pivot.now.by.items)) }
    ensures line { IfOk result (IsNextLine pivot.now enters at old.now) }
    ensures unfit { IfErr result (λ stop. IsRefused stop → IsUnfitNext pivot.now enters at old.now) }
{
    if at == pivot.step.enter.at {
        let sum = entering_sum(alloc, pivot, enters)?;
        let side = pivot.step.enter.side;
        return Ok(Some(Inside { side, sum }));
    }
    if at == pivot.step.leave.at {
        return Ok(None);
    }
    let Some(inside) = old else {
        return Ok(None);
    };
    let next = carried_sum(alloc, pivot, &inside.sum, enters)?;
    let side = inside.side;
    Ok(Some(Inside { side, sum: next }))
}

// Whether the line is inside before and after an exchange of two lines, and its sum then is its sum before
// with a multiple of the pivot's numbers.
fn is_plain(pivot: &Pivot, old: &Option<Inside>, at: usize) -> bool
    ensures size { result ≡ true → pivot.now.size ≡ pos 1 }
    ensures enter { result ≡ true → at ≢ pivot.now.step.enter.at }
    ensures leave { result ≡ true → at ≢ pivot.now.step.leave.at }
    ensures line { result ≡ true → IsPlainLine old.now }
{
    if at == pivot.step.enter.at || at == pivot.step.leave.at || pivot.size != 1 {
        return false;
    }
    match old {
        Some(inside) => inside.sum.own == 1,
        None => false,
    }
}

// Makes such a line the line after the exchange. The pivot's numbers are 0 but for these places.
fn add_to_line(
    pivot: &Pivot,
    places: &[usize],
    line: &mut Option<Inside>,
    at: usize,
    enters: Frac,
) -> Result<(), Unfit>
    requires size { pivot.now.size ≡ pos 1 }
    requires enter { at ≢ pivot.now.step.enter.at }
    requires leave { at ≢ pivot.now.step.leave.at }
    requires plain { IsPlainLine line.old }
    requires fits { All IsFitting pivot.now.by.items }
    requires places { ArePlaces pivot.now.by.items places.now }
    requires enter_at { pivot.now.step.enter.at < length pivot.now.by.items }
    requires sized { IsSizedLine (length pivot.now.by.items) line.old }
    ensures sized { IfOk result (λ _. IsSizedLine (length pivot.now.by.items) line.new) }
    ensures line { IfOk result (λ _. IsNextLine pivot.now enters at line.old line.new) }
    ensures unfit { IfErr result (λ _. IsUnfitNext pivot.now enters at line.old) }
{
    match line {
        Some(inside) => add_pivot(pivot, places, &mut inside.sum, enters),
        None => Ok(()),
    }
}

// Makes a line the line after an exchange of two lines, in place where that can be.
fn put_line(
    alloc: Global,
    pivot: &Pivot,
    places: &[usize],
    line: &mut Option<Inside>,
    at: usize,
    enters: Frac,
) -> Result<(), SumStop>
    requires above { pos 0 <ℤ pivot.now.size }
    requires fits { AreFitting pivot.now.size pivot.now.by.items }
    requires places { ArePlaces pivot.now.by.items places.now }
    requires enter { pivot.now.step.enter.at < length pivot.now.by.items }
    requires sized { IsSizedLine (length pivot.now.by.items) line.old }
    ensures sized { IfOk result (λ _. IsSizedLine (length pivot.now.by.items) line.new) }
    ensures line { IfOk result (λ _. IsNextLine pivot.now enters at line.old line.new) }
    ensures unfit { IfErr result (λ stop. IsRefused stop → IsUnfitNext pivot.now enters at line.old) }
{
    if is_plain(pivot, line, at) {
        add_to_line(pivot, places, line, at, enters)?;
        return Ok(());
    }
    *line = exchanged_line(alloc, pivot, line, at, enters)?;
    Ok(())
}

// Whether an exchange of two lines may change the kept line at a place.
fn is_touched(pivot: &Pivot, old: &Option<Inside>, at: usize) -> bool
    requires enter { pivot.now.step.enter.at < length pivot.now.by.items }
    requires sized { IsSizedLine (length pivot.now.by.items) old.now }
    ensures { result ≡ false → (enters : Fraction) → IsNextLine pivot.now enters at old.now old.now }
{
    if at == pivot.step.enter.at || at == pivot.step.leave.at {
        return true;
    }
    match old {
        Some(inside) => stands(&inside.sum.by, pivot.step.enter.at),
        None => false,
    }
}

// The lines after an exchange of two lines, in which the entering line's deviation has the value `enters`.
// Lines that the exchange doesn't touch stay as they are.
fn exchanged_lines(
    alloc: Global,
    pivot: &Pivot,
    lines: Vec<Option<Inside>>,
    enters: Frac,
) -> Result<Vec<Option<Inside>>, SumStop>
    requires above { pos 0 <ℤ pivot.now.size }
    requires fits { AreFitting pivot.now.size pivot.now.by.items }
    requires enter { pivot.now.step.enter.at < length pivot.now.by.items }
    requires count { length pivot.now.by.items ≡ length lines.items }
    requires sized { AreSized lines.items }
    ensures sized { IfOk result (λ next. AreSized next.items) }
    ensures count { IfOk result (λ next. length next.items ≡ length lines.items) }
    ensures lines { IfOk result (λ next. AreNextLines pivot.now enters lines.items next.items) }
    ensures unfit { IfErr result (λ stop. IsRefused stop → AreUnfitNext pivot.now enters lines.items) }
{
    let places = places_of(alloc, &pivot.by)?;
    let mut out = lines;
    for at in 0..out.len() {
        if is_touched(pivot, &out[at], at) {
            put_line(alloc, pivot, &places, &mut out[at], at, enters)?;
        }
    }
    Ok(out)
}

fn is_turn(step: Step) -> bool
    ensures { IsTrue result ↔ (step.enter.at ≡ step.leave.at) }
{
    step.enter.at == step.leave.at
}

// Whether the number at the place is not 0.
fn stands(by: &[i64], at: usize) -> bool
    requires { at < length by.now }
    ensures { IsTrue result ↔ (number_at by.now at ≢ pos 0) }
{
    by[at] != 0
}

/// The leaving line's equation, solved for the entering line. It is unfit if that line has no number there.
pub fn solved_from(alloc: Global, leaving: &Sum, step: Step) -> Result<Pivot, SumStop>
    requires enter { step.enter.at < length leaving.now.by.items }
    requires sized { IsSized (length leaving.now.by.items) leaving.now }
    ensures pivot { IfOk result (IsSolvedFrom leaving.now step) }
    ensures unfit { IfErr result (λ stop. IsRefused stop
        → number_at leaving.now.by.items step.enter.at ≡ pos 0) }
{
    if !stands(&leaving.by, step.enter.at) {
        return Err(Stop::Refused(Unfit));
    }
    Ok(solving(alloc, leaving, step)?)
}

// The pivot of an exchange of two lines.
fn solved_at(alloc: Global, lines: &[Option<Inside>], step: Step) -> Result<Pivot, SumStop>
    requires enter { step.enter.at < length lines.now }
    requires leave { step.leave.at < length lines.now }
    requires apart { step.enter.at ≢ step.leave.at }
    requires sized { AreSized lines.now }
    ensures pivot { IfOk result (IsPivotBy step lines.now) }
    ensures unfit { IfErr result (λ stop. IsRefused stop → LeadToUnfit step lines.now) }
{
    match &lines[step.leave.at] {
        Some(inside) => solved_from(alloc, &inside.sum, step),
        None => Err(Stop::Refused(Unfit)),
    }
}

// The lines after an exchange of two lines with this pivot.
fn solved_lines(
    alloc: Global,
    pivot: &Pivot,
    lines: Vec<Option<Inside>>,
) -> Result<Vec<Option<Inside>>, SumStop>
    requires sized { AreSized lines.items }
    requires pivot { IsPivotBy pivot.now.step lines.items pivot.now }
    requires enter { pivot.now.step.enter.at < length lines.items }
    ensures sized { IfOk result (λ next. AreSized next.items) }
    ensures count { IfOk result (λ next. length next.items ≡ length lines.items) }
    ensures next { IfOk result (λ next. LeadTo pivot.now.step lines.items next.items) }
    ensures unfit { IfErr result (λ stop. IsRefused stop → LeadToUnfit pivot.now.step lines.items) }
{
    let enters = entering_value(pivot)?;
    exchanged_lines(alloc, pivot, lines, enters)
}

/// The lines after an exchange that can be made.
pub fn after_exchange(
    alloc: Global,
    lines: Vec<Option<Inside>>,
    step: Step,
) -> Result<Vec<Option<Inside>>, SumStop>
    requires enter { step.enter.at < length lines.items }
    requires leave { step.leave.at < length lines.items }
    requires sized { AreSized lines.items }
    ensures sized { IfOk result (λ next. AreSized next.items) }
    ensures count { IfOk result (λ next. length next.items ≡ length lines.items) }
    ensures next { IfOk result (λ next. LeadTo step lines.items next.items) }
    ensures unfit { IfErr result (λ stop. IsRefused stop → LeadToUnfit step lines.items) }
{
    if is_turn(step) {
        let mut next = lines;
        turn(&mut next, step);
        return Ok(next);
    }
    let pivot = solved_at(alloc, &lines, step)?;
    solved_lines(alloc, &pivot, lines)
}
