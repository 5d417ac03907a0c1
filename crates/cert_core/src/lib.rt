//! Claims on layout problems: multipliers that show a conflict, certificates of what is best, and paths
//! between corners. A claim is data that may be wrong: `cert_checker` and `path_claims` judge claims, and
//! `claim_writing` writes them, and `claim_text` reads them.
//!
//! ```
//! // a row 7, attribute 1 is at least 20, and a row 8, it is at most 10: one less the other is 0 >= 10
//! let by = [By { row: RowName::Held(7), times: 1 }, By { row: RowName::Held(8), times: -1 }];
//! Conflict::of(alloc, &by)?
//! ```
//!
//! Linear programming's words: a [`Conflict`] has Farkas multipliers; a [`Best`] is a dual solution, one for
//! each level; a [`Path`] is a basis and the pivots that follow, of the primal or of the dual simplex
//! method.
//!
//! What the types keep: the multipliers of a claim fit and are of different rows, and no level stands twice
//! in a [`Best`].
//!
//! In reading order: `by` (a row with its multiplier), `conflict`, `best`, `path`, `stops` (what ends a run
//! from corner to corner, with the claim that shows it).
#![tactic(auto)]

mod best;
mod by;
mod conflict;
mod path;
mod stops;

pub use best::{Best, BestLevel};
pub use by::By;
pub use conflict::Conflict;
pub use path::{Path, Swap};
pub use stops::{RunStop, UnfitPath};
