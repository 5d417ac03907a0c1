//! The primal run: exchanges from a corner without negative values to one without negative columns.
//!
//! [`settle`] is the simplex method for levels of costs. An outside mark with a negative column enters:
//! where it grows, the first level whose cost moves becomes cheaper. The inside mark that comes to 0 first
//! leaves, so no value becomes negative. While the required rows cost, a mark enters that makes them
//! cheaper; where none does, the multipliers of their level show that they have no solution.
//!
//! ```
//! corner.mark();
//! corner.add_attr(1, Frac::zero())?;            // at 0, which its stay asks for
//! corner.add_rows(&rows)?;                      // a row 7: attribute 1 is 30
//! settle(alloc, &mut corner, 1_000)?;           // the stay's over mark for the under mark of row 7
//! corner.attr_value(1);                         // 30
//! ```
//!
//! After `Ok` no value and no column is negative, and the required rows cost nothing (`IsBestEnd`), so the
//! values are best. The problem and the earlier corners are as before, no line is listed, and a lawful
//! path of at most as many exchanges as the budget leads from the corner before to this one (`IsRun`).
//! After `Err` the stop shows why the run ends (`IsStopOf`): by multipliers that refute the required rows,
//! without a common factor; by a path to a corner at which a quantity does not fit; by a path of as many
//! exchanges as the budget to a corner that is no end; or by want of memory.
//!
//! What holds before each exchange (`IsTrailOf`): the first corner had no negative value, and in each
//! exchange so far that mark left which was the first to come to 0, where the marks of the first corner
//! decide between equal ones, those of stays behind all others and the weakest of them first
//! (`in_tie_order`). By that rule no corner comes twice. Any mark with a negative column may enter,
//! and no clause says which of several does. The code takes one of the strongest level, there of the lowest
//! reduced cost, and of equal ones that of the weakest line: what a stronger line asks for need not be put
//! right again then.
//!
//! Linear programming's words: an exchange is a pivot, the choice of the mark that enters is the pricing, and
//! that of the mark that leaves is the ratio test. The rule between equal ones is the lexicographic one.
//! There is no first phase apart: what the required rows lack is the cost of the strongest level.
//!
//! To read: `entering` finds the mark that enters, `required` does so where the required rows cost; `ties`
//! tells where an inside mark comes to 0, `deciding` which of two comes to 0 first, and `leaving` which of
//! all; `runs` makes an exchange; and `settling` is the run. What it shares with the dual run is in
//! `corner_ends`, which keeps the exchanges so far (`Trail`).
#![tactic(auto)]

mod deciding;
mod entering;
mod leaving;
mod required;
mod runs;
mod settling;
mod ties;

pub use settling::settle;
