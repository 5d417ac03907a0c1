// The inside mark of a line whose value is negative.
ghost use Rattle.std.specs.Prelude.{◌≡◌, ◌<◌, ◌<ℤ◌, ◌≤ℤ◌, pos, true, false, IfSome, IfNone};
ghost use Rattle.corner_view.specs.Lows.{AreNotLow, IsLowMark};
ghost use Rattle.corner_view.specs.Seen.{IsNamed};
ghost use Rattle.corner_table.specs.Kept.{IsKept};
ghost use Rattle.corner_table.specs.Tables.{lists_of, marks_at, problem_of};

use corner_table::{Table, line_slot, side_at, value_at};
use frac_core::Frac;
use problem_core::{Mark, RowName};

// Whether the value is negative.
fn is_negative(value: Frac) -> bool
    ensures above { 0 < value.den }
    ensures yes { result ≡ true → value.num <ℤ pos 0 }
    ensures no { result ≡ false → pos 0 ≤ℤ value.num }
{
    value.num() < 0
}

/// The inside mark of a line, if its value is negative.
pub(crate) fn low_mark(table: &Table, row: RowName) -> Option<Mark>
    requires kept { IsKept (lists_of table.now) }
    requires row { IsNamed (problem_of (lists_of table.now)) row }
    ensures some { IfSome result (IsLowMark (problem_of (lists_of table.now)) (marks_at (lists_of table.now))
        row) }
    ensures none { IfNone result (AreNotLow (problem_of (lists_of table.now)) (marks_at (lists_of table.now))
        row) }
{
    let line = line_slot(table, row);
    let Some(side) = side_at(table, line) else {
        return None;
    };
    if is_negative(value_at(table, line)) {
        Some(Mark { row, side })
    } else {
        None
    }
}
