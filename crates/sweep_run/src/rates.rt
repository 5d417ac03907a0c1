// How much quantities grow towards the beginning of a slide, and where they are 0.
ghost use Rattle.std.specs.Prelude.{◌≡◌, pos, ◌<ℤ◌, IfOk, IfSome, IfNone, OnErr};
ghost use Rattle.frac_core.specs.Fraction.{IsFitting, IsKept, IsRatio, IsUnfitRatio, sum_den, sum_num};
ghost use Rattle.problem_core.specs.Corners as corners;
ghost use Rattle.problem_core.specs.Corners.{IsIn, NoNegativeValue};
ghost use Rattle.problem_core.specs.declared.stops.What.TheVariants.{Mark as MarkOf};
ghost use Rattle.corner_view.specs.Seen.{IsNamed, IsWritten};
ghost use Rattle.dual_run.specs.Leaving.{AreLowLines, IsLow};
ghost use Rattle.sweep_run.specs.Ways.{HasReached, IsAtEnd, IsBackRate, IsBetterOf, IsCrossing, IsFarther};
ghost use Rattle.sweep_run.specs.Ways.{IsOther, IsSoonest};

use crate::ways::Way;
use corner_view::{Corner, Tableau};
use dual_run::low_of;
use frac_core::{Frac, Unfit, cmp_wide, product};
use problem_core::{Mark, RowName, What};
use std::cmp::Ordering;

/// How much one grows where the constant goes back by 1: `n` over `d`, which is above 0.
#[derive(Clone, Copy)]
pub(crate) struct Rate {
    pub n: i64,
    pub d: i64,
}

/// How far before the end a mark's value is 0: `p` over `q`, both above 0.
#[derive(Clone, Copy)]
pub(crate) struct Crossing {
    pub mark: Mark,
    pub p: i128,
    pub q: i128,
}

/// The rate of an attribute, or of an inside mark but for the row's over mark. Where that is inside, nothing
/// else moves with the constant; else all moves as with this mark.
pub(crate) fn rate_of<T: Tableau>(c: &Corner<T>, way: &Way, what: What) -> Rate
    requires held { IsAtEnd way.now c.now }
    requires what { IsWritten c.now.problem c.now.marks what }
    requires other { IsOther way.now.row what }
    ensures { IsBackRate c.now.problem c.now.marks way.now what result }
{
    c.show_corner(); // for the proof: what a corner keeps
    if c.is_inside(way.over()) {
        return Rate { n: 0, d: 1 };
    }
    Rate {
        n: way.backwards(c.coefficient(what, way.over())),
        d: c.denominator(what),
    }
}

// The rate of an inside mark. The row's over mark is what the terms are above the constant.
fn mark_rate<T: Tableau>(c: &Corner<T>, way: &Way, mark: Mark) -> Rate
    requires held { IsAtEnd way.now c.now }
    requires inside { IsIn (corners.place mark) c.now.marks }
    ensures { IsBackRate c.now.problem c.now.marks way.now (MarkOf mark) result }
{
    c.show_corner(); // for the proof: what a corner keeps
    if mark == way.over() {
        Rate {
            n: way.backwards(-1),
            d: 1,
        }
    } else {
        rate_of(c, way, What::Mark(mark))
    }
}

// Where an inside mark whose value is negative at the end is 0. Its rate is above 0, since it wasn't negative
// at the place reached.
fn crossing_of<T: Tableau>(c: &Corner<T>, way: &Way, mark: Mark) -> Crossing
    requires held { IsAtEnd way.now c.now }
    requires low { IsLow c.now.problem c.now.marks mark }
    requires before { HasReached c.now.problem way.now c.now.marks }
    ensures mark { result.mark ≡ mark }
    ensures crossing { IsCrossing c.now.problem c.now.marks way.now result }
{
    c.show_corner(); // for the proof: what a corner keeps
    let value = c.value(mark);
    let rate = mark_rate(c, way, mark);
    Crossing {
        mark,
        p: -product(value.num(), rate.d),
        q: product(value.den(), rate.n),
    }
}

// The one of the two that is farther from the end.
fn farther(a: Crossing, b: Crossing) -> Crossing
    requires a { pos 0 <ℤ a.q }
    requires b { pos 0 <ℤ b.q }
    ensures { IsFarther a b result }
{
    match cmp_wide(a.p, a.q, b.p, b.q) {
        Ordering::Less => b,
        _ => a,
    }
}

// The farthest of what is found and this line's crossing.
fn better<T: Tableau>(
    c: &Corner<T>,
    way: &Way,
    found: Option<Crossing>,
    line: RowName,
) -> Option<Crossing>
    requires held { IsAtEnd way.now c.now }
    requires line { IsNamed c.now.problem line }
    requires before { HasReached c.now.problem way.now c.now.marks }
    requires found { IfSome found (IsCrossing c.now.problem c.now.marks way.now) }
    ensures { IsBetterOf c.now way.now found line result }
{
    c.show_corner(); // for the proof: what a corner keeps
    let mark = match low_of(c, line) {
        Some(mark) => mark,
        None => return found,
    };
    let next = crossing_of(c, way, mark);
    match found {
        Some(best) => Some(farther(best, next)),
        None => Some(next),
    }
}

/// The mark of these lines whose value was 0 first, of those that are negative at the end.
pub(crate) fn soonest<T: Tableau>(c: &Corner<T>, way: &Way, low: &[RowName]) -> Option<Crossing>
    requires low { AreLowLines c.now.problem c.now.marks low.now }
    requires held { IsAtEnd way.now c.now }
    requires before { HasReached c.now.problem way.now c.now.marks }
    ensures some { IfSome result (IsSoonest c.now.problem c.now.marks way.now) }
    ensures none { IfNone result (NoNegativeValue c.now.problem c.now.marks) }
{
    c.show_corner(); // for the proof: what a corner keeps
    let mut found = None;
    for line in low {
        found = better(c, way, found, *line);
    }
    found
}

/// The value at the place so far back, of one with this value at the end and this rate.
pub(crate) fn value_back(value: Frac, rate: Rate, back: Frac) -> Result<Frac, Unfit>
    requires n { IsFitting rate.n }
    requires d { IsFitting rate.d }
    requires above { pos 0 <ℤ rate.d }
    ensures value { IfOk result
        (λ f. IsRatio f (sum_num value rate.n rate.d back) (sum_den value rate.d back)) }
    ensures kept { IfOk result IsKept }
    ensures unfit { OnErr result
        (IsUnfitRatio (sum_num value rate.n rate.d back) (sum_den value rate.d back)) }
{
    if rate.n == 0 {
        return Ok(value);
    }
    Frac::mul_add(value, rate.n, rate.d, back)
}
