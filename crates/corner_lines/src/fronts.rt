// The laws of fronts, each the contract of a function that does nothing.
ghost use Rattle.corner_lines.specs.Levels.LevelExamples.{SingleHasFront};
ghost use Rattle.corner_lines.specs.Fronts.{AlikeCostsKeepSign, AlikeFrontsAreFronts};
ghost use Rattle.corner_lines.specs.Fronts.{ExchangedCostsAreAlike, GrownCostsAreAlike};
ghost use Rattle.corner_lines.specs.Fronts.{JoinedCostsAreAlike, MovedLevelsStay, NegativeFrontIsNegative};
ghost use Rattle.corner_lines.specs.Fronts.{NewStayLeavesLevels, NoFrontIsNot, NoNegativeFronts};
ghost use Rattle.corner_lines.specs.Fronts.{PositiveFrontIsNot, ReducedElsewhere};

/// If a line is not of a level, its mark's reduced cost there is its number, with the other sign for an under
/// mark.
pub fn reduced_elsewhere()
    ensures { ReducedElsewhere }
{}

/// A front below 0 is a negative column.
pub fn negative_front_is_negative()
    ensures { NegativeFrontIsNegative }
{}

/// A column with a front above 0 is not negative, by any multipliers of the corner.
pub fn positive_front_is_not()
    ensures { PositiveFrontIsNot }
{}

/// A column whose costs are 0 at all levels isn't negative either.
pub fn no_front_is_not()
    ensures { NoFrontIsNot }
{}

/// If no outside mark has a front below 0, no column is negative.
pub fn no_negative_fronts()
    ensures { NoNegativeFronts }
{}

/// Positive multiples of costs keep their sign.
pub fn alike_costs_keep_sign()
    ensures { AlikeCostsKeepSign }
{}

/// Positive multiples of costs keep their front.
pub fn alike_fronts_are_fronts()
    ensures { AlikeFrontsAreFronts }
{}

/// After an exchange the costs of lines that are not in the pivot are positive multiples of those before.
pub fn exchanged_costs_are_alike()
    ensures { ExchangedCostsAreAlike }
{}

/// After a join the costs of lines that are not in the joining line's equation are positive multiples of
/// those before.
pub fn joined_costs_are_alike()
    ensures { JoinedCostsAreAlike }
{}

/// If a level's unit grows, all costs are positive multiples of those before.
pub fn grown_costs_are_alike()
    ensures { GrownCostsAreAlike }
{}

/// If only constants have changed, units and rows of levels are as before.
pub fn moved_levels_stay()
    ensures { MovedLevelsStay }
{}

/// A new stay leaves the other levels' units and rows as they are.
pub fn new_stay_leaves_levels()
    ensures { NewStayLeavesLevels }
{}

/// A mark with a front below 0, and one with none.
pub fn single_has_front()
    ensures { SingleHasFront }
{}
