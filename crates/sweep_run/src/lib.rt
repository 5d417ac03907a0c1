//! A slide: what is best for all constants of a row from the present one to another.
//!
//! The corner is one at which a run has ended, best for the present constant. The row gets the constant of
//! the way's end at once. A mark whose value is then negative was 0 somewhere on the way; the one that was 0
//! first leaves, by an exchange of the dual run. Up to there the corner was best, and its values lie on
//! lines. It goes on so until no value is negative, or until the required rows cost at the end: from the
//! place reached to the end they have no solution, as one list of multipliers shows for each of these
//! constants.
//!
//! ```
//! // attribute 1 is 100 by row 7; attribute 2 is as great as it, as far as it may be, and at most 150
//! let way = Way::of(7, hundred, hundred, two_hundred)?;
//! let slid = slide(alloc, &mut corner, &way, 1000)?;
//! // two pieces, from 100 to 150 and from 150 to 200; at 200 the values are 200 and 150
//! ```
//!
//! One exchange is made for each change of the marks on the way, and none is tried in vain. All is exact: the
//! place of a bend is a fraction, formed for the mark that leaves alone, and two places are compared without
//! forming them.
//!
//! The order of a step matters. The conflict is looked for first, since a corner that shows one is an end.
//! The values at the place are read before the mark leaves: after that the exchanges are no lawful path at
//! this constant, where the mark's value is 0.
//!
//! What [`slide`] answers covers the way from where it is shown (`HasSlid`); each stop has a path that is
//! lawful with the constant that is told (`IsSlideStop`). Values at a constant that isn't shown are never
//! formed.
//!
//! Linear programming's words: the parametric dual simplex method. The slide is one dual run for the end's
//! right-hand side, whose leaving rule picks the basic variable that is infeasible first on the way.
//!
//! To read: `stretches` (what is answered), `ways` (places and their distances from the end), `rates` (how
//! much moves, and what is 0 first), `values`, `slides`.
#![tactic(auto)]

mod rates;
mod slides;
mod stretches;
mod values;
mod ways;

pub use slides::{Slid, run_stop, slide};
pub use stretches::{Stretch, SweepQuantity, SweepStop};
pub use values::values_here;
pub use ways::{Place, Way};
