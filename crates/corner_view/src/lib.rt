//! A layout problem at one of its corners, as the runs, the engine and the sessions above see it.
//!
//! A [`Corner`] is a problem with the marks inside at a corner. Its contracts speak of a `CornerView` alone:
//! the problem, the marks, the earlier scenes, the lines that are listed as those that may have a negative
//! column, and the attributes and lines in the order in which they came. How a corner is kept is the matter of
//! a [`Tableau`]: a trait whose methods have the clauses of the corner's. Everything above is generic over it,
//! and only the programs name one, so a change of the lists below proves nothing above again.
//!
//! ```
//! fn first_value<T: Tableau>(alloc: Global, rows: &[Row]) -> Result<Frac, RunStop> {
//!     let mut corner = Corner::<T>::new(alloc)?;
//!     corner.mark();
//!     corner.add_attr(1, Frac::zero())?;
//!     corner.add_rows(rows)?;
//!     Ok(corner.attr_value(1))
//! }
//! ```
//!
//! Linear programming's words: a corner is a basis, the marks inside are its basic variables, and a tableau
//! is what keeps their equations.
//!
//! The words of the contracts are in `specs/`: `Seen` for what is seen of a corner and what each corner
//! keeps, `Fronts`, `Entries`, `Growing` and `Lows` for what can be read of it, `Moves` for what changed,
//! `Changes`, `Stops` and `AddStops` for what its changes answer. The lemmas are those that the crates above
//! cite.
//!
//! To read: `types` has what the readings answer, `tableau` the trait, and `corner` what callers use.
#![tactic(auto)]

mod corner;
mod tableau;
mod types;

pub use corner::Corner;
pub use tableau::Tableau;
pub use types::{Front, Fronts, Owner};
