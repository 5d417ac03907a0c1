// A law of values, the contract of a function that does nothing.
ghost use Rattle.cert_checker.specs.Laws.{ValuesAreGiven};

/// Some assignment gives all values, where their attributes rise and no denominator is 0. So what holds of
/// each assignment that gives them holds of one.
pub fn values_are_given()
    ensures { ValuesAreGiven }
{}
