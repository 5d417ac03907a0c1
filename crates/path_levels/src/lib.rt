//! The rows of levels at the corners of a checked path, and the judgement of a corner by them.
//!
//! At a corner whose lines are kept (`path_lines`), a level is kept as one row of whole numbers over the
//! outside lines, a [`LevelSum`], in lowest terms and fitting. [`first_levels`] makes the rows line by line
//! where a route begins, and [`next_levels`] carries them over an exchange. [`is_sound`], [`is_end`] and
//! [`may_swap`] judge a corner by them. `path_claims` makes the check of a path from these answers.
//!
//! ```
//! let outline = Outline::of(alloc, &problem)?;               // its lines, and its levels, strongest first
//! let corner = CornerLines { outline: &outline, lines: &lines };
//! let levels = first_levels(alloc, corner)?;                 // one row a level
//! has_no_negative_column(Tableau { corner, levels: &levels })   // whether the corner is at its best
//! ```
//!
//! Linear programming's words: the rows of the levels are the objective rows of the tableau, one for each
//! preemptive goal. A column is a mark's reduced costs, the strongest level first. A corner is sound if it is
//! feasible, on a dual path if it is dual feasible. An exchange is called for if the pricing and the ratio
//! test, or the dual ratio test, may choose it.
//!
//! A level's row has one number a line, each below 2^42 in size and 0 at inside lines. Its unit and its own
//! number are above 0, and their product is below 2^42. Lack of room is never silent: a row is refused only
//! if no writing of it fits.
//!
//! In reading order: `outline` (lines and levels in order), `sums` (a level's row), `tableau` (a corner's
//! lines and levels), `rows` (levels line by line, by `joins` and `stays`), `levels_after` (rows after an
//! exchange, by `pivots`, `moved`, `carried`, `shares`), `columns`, `columns_after` (signs), `ends` (whether
//! a corner is sound or an end).
#![tactic(auto)]

mod carried;
mod columns;
mod columns_after;
mod ends;
mod joins;
mod levels_after;
mod moved;
mod outline;
mod pivots;
mod rows;
mod shares;
mod stays;
mod sums;
mod tableau;

pub use columns::has_no_negative_column;
pub use columns_after::has_no_negative_column_after;
pub use ends::{is_end, is_sound, may_swap};
pub use levels_after::{LineExchange, next_level, next_levels};
pub use moved::moved_value;
pub use outline::{LevelFacts, LineFacts, Outline};
pub use pivots::pivot_of;
pub use rows::{first_levels, level_of_lines};
pub use sums::{LevelRow, LevelSum};
pub use tableau::{CornerLines, Tableau};
