// What holds along paths, and where they end.
ghost use Rattle.corner_laws.specs.PathLaws.{PathsAreFew, NoColumnIsZero, DualCostsNeverFall, DualCostsRise};
ghost use Rattle.corner_laws.specs.PathLaws.{EndIsBest, CostRefutes};

/// A lawful path of either kind has fewer than 3^N exchanges, where N counts rows and stays.
pub fn paths_are_few()
    ensures { PathsAreFew }
{}

/// No outside mark's column is 0 at all levels.
pub fn no_column_is_zero()
    ensures { NoColumnIsZero }
{}

/// Along an exchange of a dual path the vector of the levels' costs does not fall.
pub fn dual_costs_never_fall()
    ensures { DualCostsNeverFall }
{}

/// Nor does it stay: it rises.
pub fn dual_costs_rise()
    ensures { DualCostsRise }
{}

/// A corner with no negative value, no negative column and no required cost is best.
pub fn end_is_best()
    ensures { EndIsBest }
{}

/// Where the required rows cost something, and no column of their level is negative, their multipliers refute
/// them.
pub fn cost_refutes()
    ensures { CostRefutes }
{}
