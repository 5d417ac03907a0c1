//! A corner's lines in whole numbers, for a checker of paths that shares no code with the engine.
//!
//! A corner's lines are kept exactly. `path_levels` keeps the costs of levels, `path_fits` says what fits at
//! corners where not everything has to, and `path_claims` makes the checker's route and its answers.
//!
//! The kept lines of a corner are one `Option<Inside>` a line. It is None if the line is outside. Otherwise
//! it says which of the line's marks is inside, and has the equation of the line's deviation in whole numbers
//! without a common factor, each below 2^42 in size. In [`first_lines`] the over marks of the held rows are
//! inside. [`is_exchange`] is exact. [`after_exchange`] gives the next corner's lines, or says that something
//! does not fit there.
//!
//! ```
//! // a row 1: attribute 1 is at least 5; there its stay gives way to the row's over mark
//! let lines = first_lines(alloc, &problem)?;
//! let names = names(alloc, &problem)?;
//! if let Some(steps) = steps_of(alloc, &names, &[there])? {    // by the places of its lines
//!     is_exchange(&lines, steps[0]);                           // true
//! }
//! ```
//!
//! Linear programming's words: the marks inside are the basis, each of them the slack or the surplus variable
//! of its line, and the others are 0. The equation of an inside line is a row of the tableau, and an exchange
//! is a pivot. No ratio test is made here, and no reduced cost is kept.
//!
//! The laws, each the contract of a function that does nothing, say that these numbers are the next corner's
//! equations, that a route may begin where it does, and that marks to which no inside mark gives way are no
//! corner.
//!
//! In reading order: `spots` (marks by place), `table` (a corner's lines), `stop` (why a sum isn't made),
//! `numbers` (lowest terms), `exchange`, `adding` (sums that an exchange changes in place), `signs` (of
//! values), `first` (the lines where a route begins), `laws`, `costs` (the costs of a line's deviations).
#![tactic(auto)]

mod adding;
mod costs;
mod exchange;
mod first;
mod laws;
mod numbers;
mod signs;
mod spots;
mod stop;
mod table;

pub use costs::weights;
pub use exchange::{
    Pivot, after_exchange, carried, is_exchange, number_of, pair_product, solved_from, sum_of,
};
pub use first::{first_lines, first_sum, stay_of, with_stays, zeros};
pub use laws::{
    apart_by_sides, begins_there, carried_is_equation, carried_level_is_row, entering_is_equation,
    exchange_needs_number, leaving_is_pivot, none_gives_way, one_mark_of_line, solved_is_pivot,
    turned_lines_are, unfit_list_is_unfit,
};
pub use numbers::{Lowest, Ratio, Wide, combined, in_lowest_terms, moved_sign};
pub use signs::{has_no_negative_value, is_down, is_on_side, is_up};
pub use spots::{Spot, Step, names, spot_of, steps_of};
pub use stop::SumStop;
pub use table::{Inside, Sum};
