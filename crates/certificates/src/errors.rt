// What rows lack at a corner.
ghost use Rattle.std.specs.Prelude.{◌≡◌, ◌≤◌, pos, ◌*ℤ◌, ◌<ℤ◌, unsigned_abs, Any};
ghost use Rattle.frac_core.specs.Fraction.{IsKept, IsLowest, IsRatio};
ghost use Rattle.problem_core.specs.declared.limits.TheConstants.{COEFFICIENT_LIMIT};
ghost use Rattle.problem_core.specs.declared.parts.RowName.TheVariants as row_names;
ghost use Rattle.problem_core.specs.Corners.{NoNegativeValue, Point, StandsAt, assignment_at};
ghost use Rattle.problem_core.specs.Layout.{line_of_row};
ghost use Rattle.certificates.specs.Errors.{IsErrorAt, IsLack};

use corner_view::{Corner, Tableau};
use frac_core::{Frac, Wide, product};
use problem_core::{Mark, Rel, Row, RowName, Side};

// The mark of a row.
fn mark_of(row: &Row, side: Side) -> Mark
    ensures { result ≡ record { row = row_names.Held row.now.id; side = side } }
{
    Mark {
        row: RowName::Held(row.id()),
        side,
    }
}

// What the row lacks, of what it has below and above.
fn lacking(rel: Rel, under: Frac, over: Frac) -> Frac
    ensures value { IsLack rel under over result }
    ensures kept { IsKept over }
{
    let is_over = over.num() != 0;
    match rel {
        Rel::Le => over,
        Rel::Ge => under,
        Rel::Eq if is_over => over,
        Rel::Eq => under,
    }
}

// The fraction over a scale.
fn over_scale(f: Frac, scale: i64) -> Wide
    requires above { pos 0 <ℤ scale }
    requires small { unsigned_abs scale ≤ COEFFICIENT_LIMIT }
    ensures value { IsRatio result f.num (scale *ℤ pos f.den) }
    ensures lowest { IsLowest result }
    ensures kept { IsKept f }
{
    Wide::of(i128::from(f.num()), product(scale, f.den()))
}

/// The error of a row, in points, at a corner where no value is negative.
pub fn error<T: Tableau>(c: &Corner<T>, row: &Row) -> Wide
    requires held { Any (λ r. r ≡ row.now) c.now.problem.rows }
    requires values { NoNegativeValue c.now.problem c.now.marks }
    ensures error { (x : Point) → StandsAt c.now.problem c.now.marks x
        → IsErrorAt (assignment_at x) (line_of_row row.now) result }
    ensures lowest { IsLowest result }
{
    c.show_corner(); // for the proof: what a corner keeps
    let under = c.value(mark_of(row, Side::Under));
    let over = c.value(mark_of(row, Side::Over));
    over_scale(lacking(row.rel(), under, over), row.scale())
}
