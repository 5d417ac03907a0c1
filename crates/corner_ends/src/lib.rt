//! Where a run from corner to corner ends, primal or dual, and what runs of both kinds read on the way.
//!
//! A run ends at a corner without negative values and columns at which the required rows cost nothing
//! (`IsBestEnd`), or before it with a stop. [`is_costly`] tells whether the required rows cost. Where they
//! do and no column is negative at their level, no exchange makes them cheaper, and [`conflict_stop`] shows
//! that they have no solution: each times its multiplier at that level, they add up to `0 >= c` with `c`
//! above 0.
//!
//! ```
//! corner.add_rows(&rows)?;                      // required rows 7 and 9: attribute 1 is 30, and it is 40
//! corner.swap(enter, leave)?;                   // now it is 30, and row 9 costs
//! if is_costly(&corner) {
//!     return Err(conflict_stop(alloc, &corner)); // row 7 times -1 and row 9 once: 0 is 10
//! }
//! ```
//!
//! Linear programming's words: such an end is an optimal basis, an exchange of marks is a pivot, and the
//! multipliers of a conflict are Farkas multipliers; a column is a mark's reduced costs, level by level.
//!
//! The contracts of both kinds of run say with the same words what they answer (`Runs`): an end that is best
//! (`IsBestEnd`), where a run begins (`FromHere`), and a lawful path within the budget (`IsRun`). What a run
//! has done so far is a [`Trail`], which its stops name. What a trail keeps from exchange to exchange is in
//! the clauses of its calls (`IsTrailOf`): its exchanges lead lawfully from the run's first corner to that of
//! now. The lemmas here are those that the proofs of both kinds cite: on fronts and signs of columns, on
//! marks in another order, on the exchanges so far, and on what stops a run.
//!
//! The functions are generic over what keeps the corner (`Tableau` of `corner_view`).
//!
//! To read: `costs` tells what the required rows cost, `numbers` reads a coefficient, `conflicts` divides the
//! multipliers by their common factor, `begins` finds the marks of a run's first corner from those of now and
//! the exchanges so far, so that no run lists them at its start, and `trail` keeps these exchanges.
#![tactic(auto)]

mod begins;
mod conflicts;
mod costs;
mod numbers;
mod trail;

pub use begins::first_marks;
pub use conflicts::{conflict, conflict_stop};
pub use costs::{is_above, is_below, is_costly, required_level};
pub use numbers::coefficient_of;
pub use trail::Trail;
