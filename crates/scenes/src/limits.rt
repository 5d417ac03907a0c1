// How far the first run may go.

/// How many exchanges a run may make in a new session, including the run over the window's rows.
pub const FIRST_BUDGET: u64 = 100_000;
