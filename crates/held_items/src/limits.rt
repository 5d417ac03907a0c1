// How many rows a session may hold, and how many earlier versions it keeps.
ghost use Rattle.held_items.specs.Constants.{ConstantsAreAsSaid};

use version_lists::VERSION_LIMIT;

/// How many rows a session may hold.
pub const MOST_ROWS: usize = 2_000;

/// How many earlier scenes are kept. A list of versions keeps one more: the scene before a command that is
/// still being tried.
pub const EARLIER: usize = VERSION_LIMIT - 1;

/// The constants that definitions and clauses cite by name are these numbers.
pub fn constants_are_as_said()
    ensures { ConstantsAreAsSaid }
{}
