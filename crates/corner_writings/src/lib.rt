//! What is written at a corner, read of its lists: of attributes and marks, and of the costs of levels.
//!
//! All is asked of a `Table` of `corner_table`. An attribute or an inside mark is written by the outside
//! marks: [`coefficient`] over [`denominator`], and [`movers`] and [`mover`] tell what moves with an outside
//! mark. A level's cost is written by them too: [`reduced_at`] is what the level costs more where a mark
//! grows, over [`scale_at`], and [`times_at`] a line's multiplier. The first of a mark's reduced costs that
//! isn't 0, the strongest level first, is its [`Front`]:
//!
//! ```
//! front_of(&table, mark)                      // Some(Front { level, reduced }), or None where all are 0
//! fronts_of(&table, row)                      // those of both marks of a line, with one look at its column
//! ```
//!
//! A [`Draft`] is a level of which so many rows have joined, at the marks after a [`Pair`] is exchanged;
//! [`does_level_fit`] says whether all numbers of a row for it fit.
//!
//! What always holds: no list of the table changes, and where the lists keep `IsKept`, each answer is that of
//! the problem's writings at its marks inside.
//!
//! Linear programming's words: a writing is a row of the tableau in lowest terms, [`reduced_at`] a reduced
//! cost at one level, [`times_at`] a simplex multiplier.
//!
//! To read: `writings` (attributes and marks), `lows` (lines with negative values), `levels` (costs and
//! fronts), `levels::fronts` (those of both marks of a line), `levels::growing` (what it costs where an
//! inside mark grows) and `levels::fitting` (what fits).
#![tactic(auto)]

mod levels;
mod lows;
mod writings;

pub use levels::fitting::{
    Draft, SMALL_SCALE, are_small, does_level_fit, does_line_fit, is_fitting, level_at, scale_of,
};
pub use levels::fronts::fronts_of;
pub use levels::growing::{are_growers_dear, is_row_dear};
pub use levels::{Pair, cost_at, front_of, is_stronger, reduced_at, scale_at, times_at, used};
pub use lows::list_low;
pub use writings::{
    attr_value, coefficient, denominator, entries_in, entry_in, is_inside, mark_value, mover,
    movers, what_sign,
};
