//! A corner of a smaller problem: a row or an attribute is taken out.
//!
//! A row can leave if a mark of it is inside ([`leaver_of`]). Its level then costs less. [`left_level`] works
//! out the level's row, cost and unit without the row, or answers the quantity that does not fit; it changes
//! no list. [`put_left`] takes the row out, makes its slot one of nothing, and lists the lines of its writing
//! if its mark costs. [`take_attr`] takes out an attribute that no row names, and its stay.
//!
//! ```
//! let leaver = leaver_of(&table, 7);            // row 7, a mark of which is inside
//! let left = left_level(&table, leaver)?;       // what is left of its level's cost
//! put_left(&mut table, &mut listed, leaver, left)?;
//! ```
//!
//! If memory runs out in `put_left` or `take_attr`, the lists are left halfway, and the caller goes back to
//! the newest mark.
//!
//! To read: `leaving` works out what is left of a level, `freeing` makes a slot one of nothing, and
//! `dropping` takes out.
#![tactic(auto)]

mod dropping;
mod freeing;
mod leaving;

pub use dropping::{put_left, take_attr};
pub use leaving::{Leaver, Left, leaver_of, left_level};
