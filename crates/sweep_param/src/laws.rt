// The law of sweeps, the contract of a function that does nothing.
ghost use Rattle.sweep_param.specs.Laws.{SweepsAreAnswered};

/// Where the budget is at least 3^N, with N rows and stays, and each quantity fits at each corner with each
/// constant that may be met, and each such constant fits, nothing stops but for want of memory.
pub fn sweeps_are_answered()
    ensures { SweepsAreAnswered }
{}
