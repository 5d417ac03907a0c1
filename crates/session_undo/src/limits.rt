// How much a session may hold, and how far a run may go.
ghost use Rattle.session_undo.specs.Constants.{ConstantsAreAsSaid};

use held_items::{EARLIER, MOST_ROWS};
use view_tree::VIEW_LIMIT;

/// How many lines of groups a new session may hold.
pub const MOST_LINES: usize = 2_000;

/// The greatest budget of exchanges for a run.
pub const BUDGET_LIMIT: u64 = 1_000_000_000_000_000_000;

/// How many views, lines of groups and rows there may be, and how many earlier scenes.
#[derive(Clone, Copy, Debug, PartialEq, Eq)]
pub struct Limits {
    pub views: usize,
    pub lines: usize,
    pub rows: usize,
    pub undo: usize,
}

/// The limits of a new session.
pub const FIRST_LIMITS: Limits = Limits {
    views: VIEW_LIMIT,
    lines: MOST_LINES,
    rows: MOST_ROWS,
    undo: EARLIER,
};

/// The constants that definitions and clauses cite by name are these numbers.
pub fn constants_are_as_said()
    ensures { ConstantsAreAsSaid }
{}
