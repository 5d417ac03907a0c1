//! The dual run: exchanges from a corner without negative columns to one without negative values.
//!
//! [`restore`] goes to the best values again after constants have changed. Of the outside marks with which the
//! leaving one grows that one enters whose column over its number is the least, level by level, so no column
//! becomes negative. With the leaving mark the other one of its line grows, so there always is one. The line
//! turns, and nothing else is compared, where the other mark costs nothing at the level of the required rows
//! and all others cost there. Where the required rows cost, the multipliers of their level show that they have
//! no solution.
//!
//! Of the marks with negative values at first those leave whose lines turn, since a turn changes no other value
//! and takes no comparison. Then one of the strongest line leaves, stays last, and among these the one with the
//! lowest value.
//!
//! ```
//! corner.mark();
//! let mut low = Vec::new(alloc);                        // no value is negative
//! shift(&mut corner, &mut low, 7, Frac::of(40, 1)?)?;   // row 7: attribute 1 is 40, and was 30
//! restore(alloc, &mut corner, low, 1_000)?;             // the other mark of row 7 or of a stay enters
//! corner.attr_value(1);                                 // 40
//! ```
//!
//! After `Ok` no value and no column is negative, and the required rows cost nothing (`IsBestEnd`), so the
//! values are best. The problem and the earlier corners are as before, no line is listed, and a lawful dual
//! path of at most as many exchanges as the budget leads from the corner before to this one (`IsRun`). After
//! `Err` the stop shows why the run ends (`IsStopOf`).
//!
//! What holds before each exchange (`IsTrailOf`): the first corner had no negative column, and in each
//! exchange so far the mark with the least column over its number entered. So the vector of costs rises, and
//! no corner comes twice. And each mark with a negative value is of a line on the list (`AreLowLines`): of
//! the lines whose values a new constant changes [`shift`] lists those at which they are negative with it,
//! and so does an exchange.
//!
//! Linear programming's words: this is the dual simplex method. A column is a mark's reduced costs, level by
//! level; that none is negative is dual feasibility. The choice of the mark that enters, by the least column
//! over its number, is the dual ratio test, and the exchange of a mark for the other one of its line is the
//! pivot of a slack for its own surplus.
//!
//! To read: `leaving` finds the mark that leaves and lists lines, `shifts` lists those of a new
//! constant; `ratios` tells which of two columns over their numbers is the lesser, `entering` which of all
//! that have a number in the leaving mark's row; `runs` makes an exchange; and `restoring` is the run. The
//! exchanges so far are a `Trail` of `corner_ends`, as in the primal run.
#![tactic(auto)]

mod entering;
mod leaving;
mod ratios;
mod restoring;
mod runs;
mod shifts;

pub use leaving::low_of;
pub use restoring::restore;
pub use runs::exchange;
pub use shifts::shift;
