// The signs of values at a corner.
ghost use Rattle.std.specs.Prelude.{◌≡◌, ◌↔◌, ◌*ℤ◌, ◌≤ℤ◌, ℤ, pos, List};
ghost use Rattle.std.specs.Prelude.{IsTrue};
ghost use Rattle.std.specs.Ordering.{int_cmp};
ghost use Rattle.problem_core.specs.Layout.{Problem};
ghost use Rattle.problem_core.specs.Corners.{HasNegativeValue, IsIn, NoNegativeValue, place};
ghost use Rattle.problem_core.specs.declared.parts.Mark.{Mark};
ghost use Rattle.problem_core.specs.declared.parts.RowName.{RowName};
ghost use Rattle.corner_lines.specs.LineEquations.{sign_of};
ghost use Rattle.path_lines.specs.Tables.{AreLines, IsLineAt, IsThere, IsUp};

use crate::table::Inside;
use frac_core::Frac;
use problem_core::Side;
use std::cmp::Ordering;

/// Whether the value of a deviation is not negative for the line's mark of this side.
pub fn is_on_side(sign: Ordering, side: Side) -> bool
    ensures { (z : ℤ) → sign ≡ int_cmp z (pos 0) → IsTrue result ↔ (pos 0 ≤ℤ (sign_of side *ℤ z)) }
{
    match side {
        Side::Under => sign != Ordering::Greater,
        Side::Over => sign != Ordering::Less,
    }
}

/// Whether the line has no inside mark, or one whose value is not negative.
pub fn is_up(line: &Option<Inside>) -> bool
    ensures { (p : Problem) (at : List Mark) (name : RowName) → IsThere p at → IsLineAt p at name line.now
        → IsTrue result ↔ IsUp p at name }
{
    match line {
        Some(inside) => is_on_side(sign(inside.sum.value), inside.side),
        None => true,
    }
}

/// Whether the line has an inside mark whose value is negative.
pub fn is_down(line: &Option<Inside>) -> bool
    ensures { (p : Problem) (at : List Mark) (mark : Mark) → IsThere p at → IsLineAt p at mark.row line.now
        → IsIn (place mark) at → IsTrue result ↔ HasNegativeValue p at mark }
{
    !is_up(line)
}

fn sign(value: Frac) -> Ordering
    ensures { result ≡ int_cmp value.num (pos 0) }
{
    value.num().cmp(&0)
}

/// Whether no value of an inside mark is negative.
pub fn has_no_negative_value(lines: &[Option<Inside>]) -> bool
    ensures { (p : Problem) (at : List Mark) → IsThere p at → AreLines p at lines.now
        → IsTrue result ↔ NoNegativeValue p at }
{
    for line in lines {
        if !is_up(line) {
            return false;
        }
    }
    true
}
