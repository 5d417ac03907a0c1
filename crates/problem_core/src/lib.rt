//! Layout problems: rows and stays, their errors, and what is best. Here is said what a layout is, and no
//! solver is known.
//!
//! A [`Problem`] has rows, each a relation of a sum of attributes and a constant, and for each attribute a
//! stay that draws it to a value. An assignment is best where it satisfies the required rows, and no other
//! that does has smaller costs, level by level, the strongest first (`IsBest` in `specs/Layout.antt`).
//!
//! ```
//! let terms = [Term { attr: 1, by: 1 }];
//! let five = Frac::of(5, 1)?;
//! // A row 7: attribute 1 is at least 5. It is drawn to 0, so at best it is 5.
//! rows.push(Row::of(alloc, 7, REQUIRED, 1, Rel::Ge, 1, five, &terms)?)?;
//! stays.push(Stay { attr: 1, target: Frac::zero() })?;
//! let problem = Problem::of(rows, stays);
//! ```
//!
//! Linear programming's words: an attribute is a free variable, a row a constraint; one that is required (of
//! the rank [`REQUIRED`]) is hard, any other a goal. A gap is the residual of a row, its two deviations are
//! its surplus and its slack, of which a [`Mark`] names one. A level is a preemptive goal, and what is best
//! is the lexicographic optimum; the stays, each a level of its own below all rows, make it unique.
//! Multipliers that refute the required rows are Farkas multipliers.
//!
//! What the types keep (`IsRow`, `IsWhole` in `specs/Kept.antt`): the numbers of rows rise, the attributes
//! of a row's terms rise, there are at most [`TERM_LIMIT`] of them, each with a coefficient that isn't 0, and
//! each has a stay, one alone; there are at most [`ROW_LIMIT`] rows and as many stays.
//!
//! In reading order: `limits`, `parts` (relations, terms, stays, marks, levels), `row`, `problem`, `values`
//! (of attributes), `numbers` (of the stays' attributes), `common` (least common multiples), `gaps` (the sign
//! of a row's gap), `stops` (what doesn't fit at a corner), `laws`: what is best by what reasons, each the
//! contract of a function that does nothing.
#![tactic(auto)]

mod common;
mod gaps;
mod laws;
mod limits;
mod numbers;
mod parts;
mod problem;
mod row;
mod stops;
mod values;

pub use common::least_common;
pub use gaps::{NoRoom, gap_sign};
pub use laws::{
    added_stays_best, agreed_is_best, best_is_unique, best_stays_best, certificate_shows_best,
    costless_is_best, end_has_certificate, errorless_is_best, first_scene_is_best,
    refutation_shows_conflict, required_cost_refutes, same_is_best, whole_is_proper,
    window_is_best,
};
pub use limits::{
    COEFFICIENT_LIMIT, FIRST_STAY_LEVEL, GAP_ROOM, MARKS, NUMBER_LIMIT, REQUIRED, ROW_LIMIT,
    TERM_LIMIT, WEIGHT_LIMIT, constants_are_as_said,
};
pub use numbers::numbers_of;
pub use parts::{Level, Mark, Rel, RowName, Side, Stay, Term};
pub use problem::Problem;
pub use row::{Row, row_of, row_place};
pub use stops::{Quantity, TableStop, What};
pub use values::Values;
