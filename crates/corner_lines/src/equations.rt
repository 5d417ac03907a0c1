// The laws of lines' equations, each the contract of a function that does nothing.
ghost use Rattle.corner_lines.specs.EquationLaws.{EquationIsCarried, EquationStays, LineHasNumbers};
ghost use Rattle.corner_lines.specs.EquationLaws.{LineIsExchange, LineIsWritten, LineMoves};
ghost use Rattle.corner_lines.specs.EquationLaws.{LowestTermsAreOne, MarkHasNumbers, MarkIsWritten};
ghost use Rattle.corner_lines.specs.EquationLaws.{MarkMoves, MarkUnfitFromDeviation, MarkUnfitFromLine};
ghost use Rattle.corner_lines.specs.EquationLaws.{PivotIsResolved, SameMarksAreCorner, SameMarksHaveRays};
ghost use Rattle.corner_lines.specs.EquationLaws.{SameMarksKeepEquations, SumIsReducible, TurnIsExchange};
ghost use Rattle.corner_lines.specs.EquationLaws.{TurnKeepsEquations, UnfitFromLine, UnfitFromValue};

/// A line's equation is the writing of its quantity.
pub fn line_is_written()
    ensures { LineIsWritten }
{}

/// The equation of an inside line's deviation is the writing of its inside mark.
pub fn mark_is_written()
    ensures { MarkIsWritten }
{}

/// The coefficients of a line's equation.
pub fn line_has_numbers()
    ensures { LineHasNumbers }
{}

/// The coefficients of an inside mark's writing.
pub fn mark_has_numbers()
    ensures { MarkHasNumbers }
{}

/// A line's sum in lowest terms is an equation.
pub fn sum_is_reducible()
    ensures { SumIsReducible }
{}

/// A line's sum has one form in lowest terms.
pub fn lowest_terms_are_one()
    ensures { LowestTermsAreOne }
{}

/// If the lowest terms of a line's sum, or its value, do not fit, its quantity has no writing that fits.
pub fn unfit_from_line()
    ensures { UnfitFromLine }
{}

/// The same for an inside mark, by the sum of its line's deviation.
pub fn mark_unfit_from_line()
    ensures { MarkUnfitFromLine }
{}

/// If a deviation has no writing that fits, its line's inside mark has none.
pub fn mark_unfit_from_deviation()
    ensures { MarkUnfitFromDeviation }
{}

/// The leaving line's equation gives the entering line's equation at the next corner, in lowest terms.
pub fn pivot_is_resolved()
    ensures { PivotIsResolved }
{}

/// The equation of each quantity at the next corner.
pub fn equation_is_carried()
    ensures { EquationIsCarried }
{}

/// An equation without a number for the entering line holds at the next corner.
pub fn equation_stays()
    ensures { EquationStays }
{}

/// If the two marks of a line are exchanged, all equations stay.
pub fn turn_keeps_equations()
    ensures { TurnKeepsEquations }
{}

/// The two marks of an inside line can be exchanged.
pub fn turn_is_exchange()
    ensures { TurnIsExchange }
{}

/// If a line has a number in an inside line's equation, its marks can be exchanged for that line's inside
/// mark.
pub fn line_is_exchange()
    ensures { LineIsExchange }
{}

/// Which columns move when a mark grows.
pub fn line_moves()
    ensures { LineMoves }
{}

/// Which inside marks move when a mark grows.
pub fn mark_moves()
    ensures { MarkMoves }
{}

/// If its value doesn't fit, a line's sum doesn't.
pub fn unfit_from_value()
    ensures { UnfitFromValue }
{}

/// The order of a corner's marks is free: in another order they are a corner too, each outside mark can
/// grow alone, and equations hold.
pub fn same_marks_are_corner()
    ensures corner { SameMarksAreCorner }
    ensures rays { SameMarksHaveRays }
    ensures equations { SameMarksKeepEquations }
{}
