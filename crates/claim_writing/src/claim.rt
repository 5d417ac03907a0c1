// Claims on a problem, and their text.
pub(crate) mod path_writer;
pub(crate) mod writer;

use cert_core::{Best, Conflict, Path};
use problem_core::{Level, Quantity, Values};

/// What is claimed of a problem: that values are best, with a certificate; that its required rows are in
/// conflict; or that a path from corner to corner is lawful, and where a quantity is named, that it doesn't
/// fit at the path's end.
#[derive(Drop)]
pub enum Claim {
    IsBest { values: Values, best: Best },
    IsConflict(Conflict),
    IsPath { path: Path, unfit: Option<Quantity> },
}

/// A level and its scale: what the first line of a level says.
#[derive(Clone, Copy)]
pub struct LevelLine {
    pub level: Level,
    pub scale: i64,
}
