// The laws of cores, each the contract of a function that does nothing.
ghost use Rattle.conflict_core.specs.Laws.{CoreIsConflict, CoresAreFound, FoundDecides};
ghost use Rattle.conflict_core.specs.Laws.{ProperPartsAreSolvable, ShownIsCore};
ghost use Rattle.conflict_core.specs.Instances.{SomeAreCores, SomeAreShown, SomeTrialsStop};

/// What has a core is in conflict.
pub fn core_is_conflict()
    ensures { CoreIsConflict }
{}

/// What is shown is a core.
pub fn shown_is_core()
    ensures { ShownIsCore }
{}

/// Some of a core's rows, but not all, have a solution.
pub fn proper_parts_are_solvable()
    ensures { ProperPartsAreSolvable }
{}

/// A problem is found solvable just where it isn't in conflict.
pub fn found_decides()
    ensures { FoundDecides }
{}

/// Where the budget is at least 3^N, with N rows and stays, and each quantity fits at each corner of each
/// trial, nothing stops but for want of memory.
pub fn cores_are_found()
    ensures { CoresAreFound }
{}

/// Of a command that clashes with a held line, the two rows of these are a core; but none of them, one, a row
/// more, or an optional row are not.
pub fn some_are_cores()
    ensures { SomeAreCores }
{}

/// The multipliers 1 and -1 show that core, with values that satisfy each row without the other; but neither
/// other multiples do, nor the values of the other row, nor those of one row alone.
pub fn some_are_shown()
    ensures { SomeAreShown }
{}

/// A trial of a row that is below its bound stops with a budget of 0, and not with 1; nor does the trial of
/// another row stop there, or of none.
pub fn some_trials_stop()
    ensures { SomeTrialsStop }
{}
