//! A row leaves a corner once a mark of it is inside. [`free_row`] brings one in.
//!
//! Where both marks of a row are outside, it holds exactly, and the corner leans on it. Some stay's mark that
//! is inside moves where the row's mark grows, since nothing else could hold the attributes. Where the stays
//! stand at the present values, that mark's value is 0, so that the exchange of the two changes no value.
//!
//! ```
//! corner.mark();
//! corner.stand()?;                              // the stays' marks are at 0
//! free_row(alloc, &mut corner, 7)?;             // a mark of row 7 for a stay's
//! corner.drop_row(7)?;
//! ```
//!
//! What [`free_row`] keeps: each value, so that none is negative after it, the problem, and the earlier
//! corners.
//!
//! Linear programming's words: a slack or surplus variable of the row that is to leave becomes basic, by a
//! degenerate pivot. The Cassowary solvers call it the row's marker.
//!
//! To read: `leaving` finds the stay's mark, and `freeing` exchanges it. `laws` has rows that cannot
//! leave, what is no such stop, and where the path of a removal begins.
#![tactic(auto)]

mod freeing;
mod laws;
mod leaving;

pub use freeing::{free_row, is_free};
pub use laws::{some_removals_begin, some_rows_cannot_leave};
