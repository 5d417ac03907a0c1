// How much of an entering mark takes an inside mark's value to 0, and what it counts at other marks.
ghost use Rattle.std.specs.Prelude.{◌≡◌, ◌≤◌, ◌^◌, ◌*ℤ◌, neg_ℤ, pos, unsigned_abs, IfSome, IfNone};
ghost use Rattle.problem_core.specs.Corners as corners;
ghost use Rattle.problem_core.specs.Corners.{IsIn};
ghost use Rattle.corner_laws.specs.Runs.{Writes, Writing, count_at};
ghost use Rattle.problem_core.specs.declared.stops.What.TheVariants.{Mark as MarkOf};
ghost use Rattle.corner_view.specs.Seen.{IsMarkOf, IsOutside, IsScaleOf};
ghost use Rattle.primal_run.specs.Leaving as leaving;
ghost use Rattle.primal_run.specs.Leaving.{ForWritings, IsRatioAt, NeverFalls};

use corner_ends::{coefficient_of, is_below};
use corner_view::{Corner, Tableau};
use frac_core::product;
use problem_core::{Mark, What};
use std::cmp::Ordering;

/// An inside mark, its coefficient of an entering one, and how much of that takes its value to 0: `above`
/// over `below`.
#[derive(Clone, Copy, Debug)]
pub(crate) struct Ratio {
    pub mark: Mark,
    pub by: i64,
    pub above: i128,
    pub below: i128,
}

// The number with the other sign.
fn opposite(z: i128) -> i128
    requires { unsigned_abs z ≤ 2 ^ 126 }
    ensures { result ≡ neg_ℤ z }
{
    -z
}

// The scale of an inside mark's writing.
fn scale<T: Tableau>(c: &Corner<T>, m: Mark) -> i64
    requires inside { IsIn (corners.place m) c.now.marks }
    ensures is { IsScaleOf c.now.problem c.now.marks (MarkOf m) result }
    ensures of { (w : Writing) → Writes c.now.problem c.now.marks (corners.place m) w
        → result ≡ pos w.scale }
{
    c.show_corner(); // for the proof: what a corner keeps
    c.denominator(What::Mark(m))
}

/// The ratio at which an inside mark's value falls to 0 where another one enters, if it falls.
pub(crate) fn ratio_of<T: Tableau>(c: &Corner<T>, m: Mark, enter: Mark) -> Option<Ratio>
    requires inside { IsIn (corners.place m) c.now.marks }
    requires outside { IsOutside c.now.problem c.now.marks enter }
    ensures some { IfSome result
        (λ r. (r.mark ≡ m) × IsRatioAt c.now.problem c.now.marks (corners.place enter) r) }
    ensures none { IfNone result (NeverFalls c.now.problem c.now.marks (corners.place enter) m) }
{
    c.show_corner(); // for the proof: what a corner keeps
    let by = coefficient_of(c, m, enter);
    if !is_below(by) {
        return None;
    }
    let value = c.value(m);
    Some(Ratio {
        mark: m,
        by,
        above: product(value.num(), scale(c, m)),
        below: opposite(product(value.den(), by)),
    })
}

// What an inside mark counts at a mark of the run's first corner, times a number.
fn count<T: Tableau>(c: &Corner<T>, m: Mark, f: Mark, by: i64) -> i128
    requires inside { IsIn (corners.place m) c.now.marks }
    requires first { IsMarkOf c.now.problem f }
    ensures { (w : Writing) → Writes c.now.problem c.now.marks (corners.place m) w
        → result ≡ count_at (corners.place m) w (corners.place f) *ℤ by }
{
    c.show_corner(); // for the proof: what a corner keeps
    if m == f {
        return product(scale(c, m), by);
    }
    if c.is_inside(f) {
        return 0;
    }
    opposite(product(coefficient_of(c, m, f), by))
}

/// The order of what two inside marks count at a mark of the run's first corner, each over its coefficient.
pub(crate) fn count_order<T: Tableau>(c: &Corner<T>, a: Ratio, b: Ratio, f: Mark) -> Ordering
    requires a { IsIn (corners.place a.mark) c.now.marks }
    requires b { IsIn (corners.place b.mark) c.now.marks }
    requires first { IsMarkOf c.now.problem f }
    ensures { ForWritings c.now.problem c.now.marks a.mark b.mark
        (λ v w. result ≡ leaving.count_order f a v b w) }
{
    count(c, b.mark, f, a.by).cmp(&count(c, a.mark, f, b.by))
}
