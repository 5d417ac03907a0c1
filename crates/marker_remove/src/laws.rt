// That a row may have a stop where it leaves, instances in which the same is none, what changes no value, and
// where the path of a removal begins.
ghost use Rattle.marker_remove.specs.Instances.{SomeRemovalsBegin, SomeRowsCannotLeave};

/// The row `x >= 2^42` where x stands there has a stop: x does not fit once a mark of the row is in. The same
/// is no stop of `x >= 5`, nor of another row; and no stop names the corner at which no mark was brought in.
/// One of the three rows of a whole problem has a stop too. The exchange that brings the mark in changes no
/// value where x stands at its stay's target, and does where it stands elsewhere.
pub fn some_rows_cannot_leave()
    ensures { SomeRowsCannotLeave }
{}

/// After the one line `constrain k window.width >= 5`, whose row the session's corner leans on, the path of
/// `remove k` begins where a mark of the row came in for that of the width's stay, and left. Where row 4
/// leaves, it never begins where the mark of row 2 gave way, though that may change no value.
pub fn some_removals_begin()
    ensures { SomeRemovalsBegin }
{}
