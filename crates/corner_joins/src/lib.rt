//! Attributes and rows that join a corner, in its lists.
//!
//! All is done on a `Table` of `corner_table`. [`push_attr`] adds an attribute that stands at its stay's
//! target. [`join_all`] adds rows: first each as a line, whose writing by the outside lines is the sum of its
//! terms', with the mark inside that isn't negative; then each to the cost of its level, and it lists the
//! lines that may have a negative column now. Both want slots left for what comes, and leave as many.
//!
//! ```
//! push_attr(&mut table, 1, Frac::zero())?;             // attribute 1 at 0, which its stay asks for
//! join_all(&mut table, &mut listed, &rows)?;           // or a stop, with the path to it
//! ```
//!
//! What always holds: where all has joined, the lists keep `IsKept` for the problem with the attribute or the
//! rows. After a stop some may have joined: the caller goes back to a mark. A stop of [`join_all`] names the
//! sum of terms or the level that doesn't fit.
//!
//! Of the costs of levels: [`costs_at`] says whether a line costs, and [`risen`] in which unit a level counts
//! once a line has joined it, the least in which the line's share is whole too. [`common_factors`] and
//! [`over`] bring two writings to one own number.
//!
//! Linear programming's words: rows are added to the tableau, and then to its cost rows.
#![tactic(auto)]

mod joining;

pub use joining::{Rise, common_factors, costs_at, join_all, over, push_attr, risen};
