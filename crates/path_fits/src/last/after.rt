// Lines after an exchange, even if not everything fits there: which mark is inside, and the sign of its
// value.
ghost use Rattle.std.specs.Prelude.{◌≡◌, ◌≢◌, ◌↔◌, ◌⊎◌, ◌<◌, ◌≤◌, ◌*ℤ◌, ◌<ℤ◌, pos, true, false, length};
ghost use Rattle.std.specs.Prelude.{List, IsTrue};
ghost use Rattle.std.specs.Ordering.{int_cmp};
ghost use Rattle.frac_core.specs.Fraction.{IsFitting, sum_num};
ghost use Rattle.problem_core.specs.Layout.{Problem};
ghost use Rattle.problem_core.specs.declared.parts.Mark.{Mark};
ghost use Rattle.path_lines.specs.Numbers.{IsFactor};
ghost use Rattle.path_lines.specs.Tables.{AreLines, AreSized, IsSizedLine, IsUp};
ghost use Rattle.path_lines.specs.Tables.{name_at};
ghost use Rattle.path_fits.specs.Sums.{AreUpAfter, IsMoverOf, IsSideAt, IsSizedMover};
ghost use Rattle.path_levels.specs.Exchanges.Pivots.{IsExchangePivot, IsSizedPivot};
ghost use Rattle.path_fits.specs.After.{AfterStepWithLine, AfterWithLine, WithLine};

use frac_core::Frac;
use path_lines::{Inside, Pivot, Ratio, Step, is_on_side, moved_sign, number_of, pair_product};
use problem_core::Side;
use std::cmp::Ordering;

/// The line at a place of a corner, of so many: its equation, if a mark of it is inside.
#[derive(Clone, Copy)]
pub(crate) struct LineAt<'a> {
    pub inside: &'a Option<Inside>,
    pub at: usize,
    pub count: usize,
}

/// Which mark of the line is inside after the exchange.
pub(crate) fn side_after(line: &Option<Inside>, step: Step, at: usize) -> Option<Side>
    ensures { AfterStepWithLine step at line.now (λ p marks. IsSideAt marks (name_at p at) result) }
{
    if at == step.enter.at {
        return Some(step.enter.side);
    }
    if at == step.leave.at {
        return None;
    }
    let inside = line.as_ref()?;
    Some(inside.side)
}

/// The parts by which a line's deviation moves: `own` times the deviation has this number at the entering
/// line, and this value before the exchange.
#[derive(Clone, Copy)]
pub(crate) struct Mover {
    pub own: i64,
    pub number: i64,
    pub value: Frac,
}

/// The number at a place in the equation of an outside line by itself: 1 at its own place.
pub(crate) fn own_number(at: usize, enter: usize) -> i64
    ensures here { at ≡ enter → result ≡ pos 1 }
    ensures other { at ≢ enter → result ≡ pos 0 }
    ensures fits { IsFitting result }
{
    if at == enter { 1 } else { 0 }
}

/// The line's mover.
pub(crate) fn mover_of(line: LineAt<'_>, enter: usize) -> Mover
    requires sized { IsSizedLine line.count line.inside.now }
    requires enter { enter < line.count }
    ensures sized { IsSizedMover result }
    ensures mover { WithLine line.entry
        (λ p marks. IsMoverOf p marks (name_at p line.entry.at) (name_at p enter) result) }
{
    match line.inside {
        Some(inside) => Mover {
            own: inside.sum.own,
            number: number_of(&inside.sum.by, enter),
            value: inside.sum.value,
        },
        None => Mover {
            own: 1,
            number: own_number(line.at, enter),
            value: Frac::zero(),
        },
    }
}

/// The factor by which the leaving line's value moves the line's deviation.
pub(crate) fn ratio_of(pivot: &Pivot, number: i64, own: i64) -> Ratio
    requires number { IsFitting number }
    requires own { IsFitting own }
    requires above { pos 0 <ℤ own }
    requires times { IsFitting pivot.now.times }
    requires size { IsFitting pivot.now.size }
    requires size_above { pos 0 <ℤ pivot.now.size }
    ensures times { result.times ≡ number *ℤ pivot.now.times }
    ensures over { result.over ≡ own *ℤ pivot.now.size }
    ensures times_small { IsFactor result.times }
    ensures over_small { IsFactor result.over }
    ensures above { pos 0 <ℤ result.over }
{
    Ratio {
        times: pair_product(number, pivot.times),
        over: pair_product(own, pivot.size),
    }
}

// The sign of the line's deviation after the exchange.
fn sign_after(mover: Mover, pivot: &Pivot) -> Ordering
    requires mover { IsSizedMover mover }
    requires times { IsFitting pivot.now.times }
    requires size { IsFitting pivot.now.size }
    requires size_above { pos 0 <ℤ pivot.now.size }
    ensures turn { pivot.now.is_turn ≡ true → result ≡ int_cmp mover.value.num (pos 0) }
    ensures other { pivot.now.is_turn ≡ false → result ≡ int_cmp
        (sum_num mover.value (mover.number *ℤ pivot.now.times) (mover.own *ℤ pivot.now.size) pivot.now.value)
        (pos 0) }
{
    if pivot.is_turn {
        return mover.value.num().cmp(&0);
    }
    moved_sign(
        mover.value,
        ratio_of(pivot, mover.number, mover.own),
        pivot.value,
    )
}

// Whether the line's inside mark, if it has one, has no negative value after the exchange.
fn is_up_after(line: LineAt<'_>, pivot: &Pivot) -> bool
    requires sized { IsSizedLine line.count line.inside.now }
    requires pivot { IsSizedPivot line.count pivot.now }
    ensures { AfterWithLine pivot.now line.entry
        (λ p marks. IsTrue result ↔ IsUp p marks (name_at p line.entry.at)) }
{
    match side_after(line.inside, pivot.step, line.at) {
        Some(side) => is_on_side(sign_after(mover_of(line, pivot.step.enter.at), pivot), side),
        None => true,
    }
}

// Whether the line isn't judged, or has no negative value so.
fn is_fine_after(line: LineAt<'_>, pivot: &Pivot, judged: bool) -> bool
    requires sized { IsSizedLine line.count line.inside.now }
    requires pivot { IsSizedPivot line.count pivot.now }
    ensures free { judged ≡ false → result ≡ true }
    ensures up { judged ≡ true → AfterWithLine pivot.now line.entry
        (λ p marks. IsTrue result ↔ IsUp p marks (name_at p line.entry.at)) }
{
    if judged {
        is_up_after(line, pivot)
    } else {
        true
    }
}

// Whether a line is before `judged`, or from `rows` on.
fn is_judged(at: usize, judged: usize, rows: usize) -> bool
    ensures { IsTrue result ↔ ((at < judged) ⊎ (rows ≤ at)) }
{
    at < judged || at >= rows
}

/// Whether no judged line's inside mark has a negative value after the exchange.
pub(crate) fn are_up_after(
    lines: &[Option<Inside>],
    pivot: &Pivot,
    judged: usize,
    rows: usize,
) -> bool
    requires sized { AreSized lines.now }
    requires pivot { IsSizedPivot (length lines.now) pivot.now }
    ensures { (p : Problem) (marks : List Mark) → IsExchangePivot p marks pivot.now
        → AreLines p marks lines.now → IsTrue result ↔ AreUpAfter p marks pivot.now judged rows }
{
    let count = lines.len();
    for (at, inside) in lines.iter().enumerate() {
        let line = LineAt { inside, at, count };
        if !is_fine_after(line, pivot, is_judged(at, judged, rows)) {
            return false;
        }
    }
    true
}
