// What holds of runs.
ghost use Rattle.corner_laws.specs.RunFalls.{RunFalls};
ghost use Rattle.corner_laws.specs.RunLaws.{DualOrderIsFree, DualRunGrows, DualRunIsPath, NegativeByReduced};
ghost use Rattle.corner_laws.specs.RunLaws.{NoneNegativeByReduced, OrderIsFree, OtherMarkGrows};
ghost use Rattle.corner_laws.specs.RunLaws.{RequiredByReduced, RunGrows, RunIsPath, SomeMarkFalls};

/// The exchanges of a run are a lawful path: no value turns negative, and no corner comes twice.
///
/// Each mark inside has, beside its value, a number for each mark of the run's first corner, and so have the
/// levels' costs; the rule keeps the first of a mark's that isn't 0 above 0, and so the costs fall.
pub fn run_is_path()
    ensures { RunIsPath }
{}

/// A run grows by one exchange more at its last corner.
pub fn run_grows()
    ensures { RunGrows }
{}

/// The order of the marks at which an exchange of a run is made is free.
pub fn order_is_free()
    ensures { OrderIsFree }
{}

/// Where a mark with a negative column grows, an inside mark falls.
pub fn some_mark_falls()
    ensures { SomeMarkFalls }
{}

/// A mark's column is negative where its reduced costs are, strongest level first.
pub fn negative_by_reduced()
    ensures { NegativeByReduced }
{}

/// No column is negative where no mark's reduced costs are.
pub fn none_negative_by_reduced()
    ensures { NoneNegativeByReduced }
{}

/// No column is negative at the level of the required rows where no reduced cost of that level is below 0.
pub fn required_by_reduced()
    ensures { RequiredByReduced }
{}

/// The exchanges of a dual run are a lawful path: no column turns negative, and no corner comes twice.
///
/// The vector of the levels' costs rises at each exchange.
pub fn dual_run_is_path()
    ensures { DualRunIsPath }
{}

/// A dual run grows by one exchange more at its last corner.
pub fn dual_run_grows()
    ensures { DualRunGrows }
{}

/// The order of the marks at which an exchange of a dual run is made is free.
pub fn dual_order_is_free()
    ensures { DualOrderIsFree }
{}

/// With an inside mark the other one of its line grows as much: so a mark can enter at each exchange of a
/// dual run.
pub fn other_mark_grows()
    ensures { OtherMarkGrows }
{}

/// Along a primal run the levels' costs, each with what it changes by where a mark of the first corner may be
/// below 0, fall from each corner to each later one.
pub fn run_falls()
    ensures { RunFalls }
{}
