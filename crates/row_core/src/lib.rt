//! Rows of whole numbers by column, in lowest terms: an [`IntRow`] says that the sum of its numbers times
//! its columns is 0, so it may be divided by what all its numbers have in common.
//!
//! ```
//! // 1 at the column 0 and 2 at the column 1, since 2 and 4 have the factor 2 in common
//! let r = IntRow::of(alloc, &[Entry { col: Col(0), by: 2 }, Entry { col: Col(1), by: 4 }])?;
//! let p = IntRow::of(alloc, &[Entry { col: Col(0), by: 3 }, Entry { col: Col(2), by: 1 }])?;
//! combine(alloc, &r, &p, 3, -1)?                // 3*r - p: 6 at the column 1 and -1 at the column 2
//! ```
//!
//! [`combine`] divides by the common divisor too, or answers `Unfit`. Such a row is a row of the tableau in
//! linear programming's words, and a pivot combines each row that has a number in the entering column with
//! the pivot's own.
//!
//! To read: `entry` (columns and entries), `row` (rows and their combinations), `walk` (the columns of two
//! rows from the lowest up), `gather` (the numbers of a sum in one pass), `divide` (their division by what
//! they have in common).
//!
//! Invariant: the columns of a row rise, its numbers are not 0, fit, and have no common divisor but 1.
#![tactic(auto)]

mod divide;
mod entry;
mod gather;
mod row;
mod walk;

pub use entry::{Col, Entry, Factors, Patch, RowStop};
pub use row::{IntRow, combine, combine_but, combine_wide};
