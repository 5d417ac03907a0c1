// The laws of levels' rows, each the contract of a function that does nothing.
ghost use Rattle.corner_lines.specs.Levels.LevelRows.{DividedRowIsRow, EquationIsPivot};
ghost use Rattle.corner_lines.specs.Levels.LevelRows.{ExchangedRowIsMultiple};
ghost use Rattle.corner_lines.specs.Levels.LevelRows.{ExchangedRowIsRow, PivotIsSolved, TurnedRowIsMultiple};
ghost use Rattle.corner_lines.specs.Levels.LevelRows.{TurnedRowIsRow, UntouchedRowStays};
ghost use Rattle.corner_lines.specs.Levels.LevelJoins.{AllRowsHaveJoined, EmptyLevelHasRow};
ghost use Rattle.corner_lines.specs.Levels.LevelJoins.{FreeRowChangesNothing};
ghost use Rattle.corner_lines.specs.Levels.LevelJoins.{GrownRowIsRow, JoinedRowIsMultiple, JoinedRowIsRow};
ghost use Rattle.corner_lines.specs.Levels.LevelJoins.{JoinedUnitIsUnit, JoiningRowsAreFree};
ghost use Rattle.corner_lines.specs.Levels.LevelJoins.{LeftRowIsMultiple};
ghost use Rattle.corner_lines.specs.Levels.LevelJoins.{LeftRowIsRow, OneRowMoreJoins, ShrunkRowIsRow};
ghost use Rattle.corner_lines.specs.Levels.LevelCosts.{ExchangedCostIsCost, FirstRowsAreSound};
ghost use Rattle.corner_lines.specs.Levels.LevelCosts.{JoinedCostIsCost};
ghost use Rattle.corner_lines.specs.Levels.LevelCosts.{JoiningRowsCostNothing, LeftCostIsCost, OrderIsFree};
ghost use Rattle.corner_lines.specs.Levels.LevelCosts.{TurnedCostIsCost, UnfitExchangedCost, UnfitJoinedCost};
ghost use Rattle.corner_lines.specs.Levels.LevelCosts.{UnfitTurnedCost, WholeIsSound};
ghost use Rattle.corner_lines.specs.Levels.LevelFits.{EnteringNumberFits, FittingRowHasWriting};
ghost use Rattle.corner_lines.specs.Levels.LevelFits.{LeavingNumberFits};
ghost use Rattle.corner_lines.specs.Levels.LevelFits.{SmallRowFits, TurningNumberFits};
ghost use Rattle.corner_lines.specs.Levels.LevelFits.{UnfitMultipleHasNoWriting};
ghost use Rattle.corner_lines.specs.Levels.LevelFits.{UnfitRowHasNoWriting};
ghost use Rattle.corner_lines.specs.Levels.StayLevels.{InsideStayCosts, InsideStayFits, InsideStayHasRow};
ghost use Rattle.corner_lines.specs.Levels.StayLevels.{InsideStayIsUnfit, OutsideStayCostsOne};
ghost use Rattle.corner_lines.specs.Levels.StayLevels.{OutsideStayFits};
ghost use Rattle.corner_lines.specs.Levels.StayLevels.{OutsideStayHasRow, OutsideStayLevelFits};
ghost use Rattle.corner_lines.specs.Levels.StayLevels.{StayLevelFits};
ghost use Rattle.corner_lines.specs.Levels.StayLevels.{StayLevelIsUnfit, StayStandsAlone};
ghost use Rattle.corner_lines.specs.Levels.LevelExamples.{SingleIsUnfit, SumIsUnfit};

// ---- a row and its lowest terms

/// A level's row divided to lowest terms is its row.
pub fn divided_row_is_row()
    ensures { DividedRowIsRow }
{}

/// The equation of an inside line is a sum of lines that cancel.
pub fn equation_is_pivot()
    ensures { EquationIsPivot }
{}

/// It is solved for another line if it is multiplied by a number with which that line's number is below 0.
pub fn pivot_is_solved()
    ensures { PivotIsSolved }
{}

// ---- exchanges and turns

/// After an exchange a multiple of the level's row plus a multiple of the pivot is its row before it is
/// divided.
pub fn exchanged_row_is_multiple()
    ensures { ExchangedRowIsMultiple }
{}

/// Divided to lowest terms it is the level's row.
pub fn exchanged_row_is_row()
    ensures { ExchangedRowIsRow }
{}

/// If the other mark of an inside line enters, a multiple of the row plus a multiple of the line's equation
/// is the row before it is divided.
pub fn turned_row_is_multiple()
    ensures { TurnedRowIsMultiple }
{}

/// Divided to lowest terms it is the level's row.
pub fn turned_row_is_row()
    ensures { TurnedRowIsRow }
{}

/// A level at which neither mark of an exchange costs anything keeps its row.
pub fn untouched_row_stays()
    ensures { UntouchedRowStays }
{}

// ---- joins

/// A level without a line that has a weight has a row of zeros.
pub fn empty_level_has_row()
    ensures { EmptyLevelHasRow }
{}

/// When all rows of a change have joined the corner, and none its level, each level has its unit and row from
/// before.
pub fn joining_rows_are_free()
    ensures { JoiningRowsAreFree }
{}

/// The lines after one more row of a level gets its weight are the lines before, except for that weight.
pub fn one_row_more_joins()
    ensures { OneRowMoreJoins }
{}

/// Past the number of a level's rows all have their weight.
pub fn all_rows_have_joined()
    ensures { AllRowsHaveJoined }
{}

/// With a line's weight the unit is the least common multiple of two numbers: the unit before, and the line's
/// scale over its common divisor with the weight.
pub fn joined_unit_is_unit()
    ensures { JoinedUnitIsUnit }
{}

/// If a level's unit grows, its row stays in lowest terms: its numbers and its own number are divided by
/// their new common divisor.
pub fn grown_row_is_row()
    ensures { GrownRowIsRow }
{}

/// If a line joins its level, a multiple of the row plus a multiple of the line's equation is the row before
/// it is divided.
pub fn joined_row_is_multiple()
    ensures { JoinedRowIsMultiple }
{}

/// Divided to lowest terms it is the level's row.
pub fn joined_row_is_row()
    ensures { JoinedRowIsRow }
{}

/// A line that costs nothing on its inside side leaves the level's row as it is.
pub fn free_row_changes_nothing()
    ensures { FreeRowChangesNothing }
{}

// ---- a line that leaves its level

/// If a line leaves its level, a multiple of the row plus a multiple of the line's equation is the row before
/// it is divided.
pub fn left_row_is_multiple()
    ensures { LeftRowIsMultiple }
{}

/// Divided to lowest terms it is the level's row.
pub fn left_row_is_row()
    ensures { LeftRowIsRow }
{}

/// If a level's unit shrinks, its own number grows, and the row is divided.
pub fn shrunk_row_is_row()
    ensures { ShrunkRowIsRow }
{}

// ---- costs

/// An exchange adds the entering line's deviation times the entering number over the scale to the level's
/// cost.
pub fn exchanged_cost_is_cost()
    ensures { ExchangedCostIsCost }
{}

/// So does a turn.
pub fn turned_cost_is_cost()
    ensures { TurnedCostIsCost }
{}

/// A join adds the joining line's deviation times its count over the unit to the level's cost.
pub fn joined_cost_is_cost()
    ensures { JoinedCostIsCost }
{}

/// A line that leaves its level takes its count's share of the cost away.
pub fn left_cost_is_cost()
    ensures { LeftCostIsCost }
{}

/// Rows that have joined the corner but not their level add nothing to its cost.
pub fn joining_rows_cost_nothing()
    ensures { JoiningRowsCostNothing }
{}

// ---- fitting

/// A whole problem's scales and denominators are above 0, its lines have different names, and no weight is
/// too large.
pub fn whole_is_sound()
    ensures { WholeIsSound }
{}

/// The problem with only a level's first rows is sound too, and its corners and rays are those of the whole
/// problem.
pub fn first_rows_are_sound()
    ensures { FirstRowsAreSound }
{}

/// A level's row and cost don't depend on the order of a corner's marks.
pub fn order_is_free()
    ensures { OrderIsFree }
{}

/// If a level's row and its cost fit, it has a writing that fits.
pub fn fitting_row_has_writing()
    ensures { FittingRowHasWriting }
{}

/// If they do not both fit, it has none.
pub fn unfit_row_has_no_writing()
    ensures { UnfitRowHasNoWriting }
{}

/// If no lowest terms of a level's row fit, it has none.
pub fn unfit_multiple_has_no_writing()
    ensures { UnfitMultipleHasNoWriting }
{}

/// A level's row fits if its scale and its numbers are small.
pub fn small_row_fits()
    ensures { SmallRowFits }
{}

/// The entering number of an exchange fits if the level's row does.
pub fn entering_number_fits()
    ensures { EnteringNumberFits }
{}

/// So does the entering number of a turn.
pub fn turning_number_fits()
    ensures { TurningNumberFits }
{}

/// So does the leaving line's count.
pub fn leaving_number_fits()
    ensures { LeavingNumberFits }
{}

/// If the sum after an exchange does not fit in lowest terms, the level has no writing that fits.
pub fn unfit_exchanged_cost()
    ensures { UnfitExchangedCost }
{}

/// If the sum after a turn does not fit, it has none either.
pub fn unfit_turned_cost()
    ensures { UnfitTurnedCost }
{}

/// If the sum after a join does not fit in lowest terms, the level has no writing that fits.
pub fn unfit_joined_cost()
    ensures { UnfitJoinedCost }
{}

/// A row that does not fit, and one that does.
pub fn single_is_unfit()
    ensures { SingleIsUnfit }
{}

/// A sum that does not fit, and one that does.
pub fn sum_is_unfit()
    ensures { SumIsUnfit }
{}

// ---- stays' levels

/// A stay is alone at its level.
pub fn stay_stands_alone()
    ensures { StayStandsAlone }
{}

/// The equation of an inside stay is the row of its level, in units of 1.
pub fn inside_stay_has_row()
    ensures { InsideStayHasRow }
{}

/// The cost of an inside stay's level is the stay's deviation.
pub fn inside_stay_costs()
    ensures { InsideStayCosts }
{}

/// If the equation of an inside stay fits, and twice the stay's own number, its level fits.
pub fn inside_stay_fits()
    ensures { InsideStayFits }
{}

/// If twice that number does not fit, its level has no writing that fits.
pub fn inside_stay_is_unfit()
    ensures { InsideStayIsUnfit }
{}

/// The level of an outside stay has a row of zeros.
pub fn outside_stay_has_row()
    ensures { OutsideStayHasRow }
{}

/// At its level both marks of an outside stay cost 1.
pub fn outside_stay_costs_one()
    ensures { OutsideStayCostsOne }
{}

/// The level of an outside stay always has a writing that fits.
pub fn outside_stay_fits()
    ensures { OutsideStayFits }
{}

/// If twice an inside stay's own number fits, the stay's level is no quantity that does not fit.
pub fn stay_level_fits()
    ensures { StayLevelFits }
{}

/// If it does not, the level is such a quantity.
pub fn stay_level_is_unfit()
    ensures { StayLevelIsUnfit }
{}

/// The level of an outside stay is never such a quantity.
pub fn outside_stay_level_fits()
    ensures { OutsideStayLevelFits }
{}
