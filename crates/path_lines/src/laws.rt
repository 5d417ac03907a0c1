// The laws of the checker, each the contract of a function that does nothing.
ghost use Rattle.path_lines.specs.Exchanges.Carried.{CarriedIsEquation, EnteringIsEquation, LeavingIsPivot};
ghost use Rattle.path_lines.specs.Exchanges.Carried.{UnfitListIsUnfit};
ghost use Rattle.path_lines.specs.Exchanges.CarriedLevels.{CarriedLevelIsRow};
ghost use Rattle.path_lines.specs.Exchanges.Pivots.{SolvedIsPivot};
ghost use Rattle.path_lines.specs.Tables.{TurnedLinesAre};
ghost use Rattle.path_lines.specs.Sides.{ApartBySides};
ghost use Rattle.path_lines.specs.Laws.{BeginsThere, ExchangeNeedsNumber, NoneGivesWay, OneMarkOfLine};

/// The leaving line's numbers, solved for the entering line, are the pivot.
pub fn leaving_is_pivot()
    ensures { LeavingIsPivot }
{}

/// The pivot without the entering line's own number, in lowest terms, is that line's equation at the next
/// corner.
pub fn entering_is_equation()
    ensures { EnteringIsEquation }
{}

/// A line's sum with the pivot substituted for the entering line's deviation, in lowest terms, is its
/// equation at the next corner.
pub fn carried_is_equation()
    ensures { CarriedIsEquation }
{}

/// If no lowest terms of a list of numbers fit, those of the line's sum do not.
pub fn unfit_list_is_unfit()
    ensures { UnfitListIsUnfit }
{}

/// A level's numbers after an exchange, in lowest terms, are its row at the next corner.
pub fn carried_level_is_row()
    ensures { CarriedLevelIsRow }
{}

/// The leaving line's equation, solved for the entering line, is the pivot of the exchange.
pub fn solved_is_pivot()
    ensures { SolvedIsPivot }
{}

/// If the two marks of a line are exchanged, the equations are as before.
pub fn turned_lines_are()
    ensures { TurnedLinesAre }
{}

/// No corner of a path comes twice exactly if no marks by lines do.
pub fn apart_by_sides()
    ensures { ApartBySides }
{}

/// The over marks of the held rows are a corner.
pub fn begins_there()
    ensures { BeginsThere }
{}

/// An entering line without a number in the leaving line's equation makes no exchange.
pub fn exchange_needs_number()
    ensures { ExchangeNeedsNumber }
{}

/// If no inside mark can give way to any of some marks, these are no corner.
pub fn none_gives_way()
    ensures { NoneGivesWay }
{}

/// Marks that include both marks of a line are no corner.
pub fn one_mark_of_line()
    ensures { OneMarkOfLine }
{}
