// Where changes begin, and why they stop.
ghost use Rattle.corner_laws.specs.ChangeLaws.{BeginsUnique, PlainAlone, EarlyTermsAreRefused};
ghost use Rattle.corner_laws.specs.ChangeLaws.{StopsAreConflicts};

/// A change begins at one corner: the one that was there fixes the attributes, and so which mark of each new
/// row is not negative.
pub fn begins_unique()
    ensures { BeginsUnique }
{}

/// Where no row is new and no constant has changed, a stop names a whole writing alone.
pub fn plain_alone()
    ensures { PlainAlone }
{}

/// A sum of terms that fits everywhere, told at a corner with a later row outside, is not what does not fit.
pub fn early_terms_are_refused()
    ensures { EarlyTermsAreRefused }
{}

/// Where each quantity fits at each corner, and the budget is at least 3^N, a change stops at a conflict
/// alone, or for want of memory.
pub fn stops_are_conflicts()
    ensures { StopsAreConflicts }
{}
