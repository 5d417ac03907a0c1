// The laws of a constant that changes, each the contract of a function that does nothing.
ghost use Rattle.corner_lines.specs.ShiftLaws.{ShiftMovesAttrs, ShiftMovesLines, ShiftMovesRow};
ghost use Rattle.corner_lines.specs.ShiftLaws.{ShiftedHasRays, ShiftedIsCorner};

/// If a row's constant changes, the marks stay a corner, and each outside mark can still grow alone.
pub fn shifted_is_corner()
    ensures corner { ShiftedIsCorner }
    ensures rays { ShiftedHasRays }
{}

/// An attribute's equation keeps its numbers. Its value grows by the row's number over `own` times the
/// difference.
pub fn shift_moves_attrs()
    ensures { ShiftMovesAttrs }
{}

/// So does the equation of another line's deviation.
pub fn shift_moves_lines()
    ensures { ShiftMovesLines }
{}

/// If the row is inside, the value of its own deviation falls by the difference.
pub fn shift_moves_row()
    ensures { ShiftMovesRow }
{}
