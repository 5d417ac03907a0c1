// That some rows and attributes cannot leave, and some removals stop.
ghost use Rattle.layout_solver.specs.Instances.{RemovalsStopPlainly, SomeCannotLeave, SomeRemovalsStop};

/// Two rows of one attribute can leave with it, or one of them without it; but the attribute cannot leave
/// without both, no row leaves twice, and nothing leaves that is not there.
pub fn some_cannot_leave()
    ensures { SomeCannotLeave }
{}

/// If `x >= 2^42` is at its bound, the row cannot leave, alone or after another one, since x does not fit.
/// The same is no stop of `x >= 5`, and no stop names a row as still held that does not leave, or leaves
/// first. A budget of 0 is used up if x is below its bound, and a budget of 1 is not.
pub fn some_removals_stop()
    ensures { SomeRemovalsStop }
{}

/// Whatever leaves, a removal's stop names a whole quantity: no first terms or rows, and no changed
/// constants.
pub fn removals_stop_plainly()
    ensures { RemovalsStopPlainly }
{}
