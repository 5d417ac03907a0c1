//! The laws of corners: what the words for corners, writings, levels' costs, exchanges, paths and stops
//! entail, with no table and no representation in any statement. Whoever keeps corners gets its proofs from
//! here.
//!
//! Each law is the contract of a function that does nothing; its statement stands in `specs/` under the
//! function's name. A proof elsewhere cites the lemma that proves it:
//!
//! ```text
//! use Rattle.corner_laws.proofs.RunSteps.RunPaths.{run_grows}  -- a run grows by an exchange, `RunGrows`
//! ```
//!
//! The words, and what linear programming calls them:
//! - a corner is a basic solution, and the marks inside it are the basis; each line has two deviations, its
//!   slack and its surplus, and a mark names one of them;
//! - a writing is a row of the tableau, in lowest terms: a basic variable by the nonbasic ones;
//! - a level's multipliers are its dual solution, and what they leave of a mark's cost is the mark's reduced
//!   cost; each level has an objective, and levels are compared lexicographically, the strongest first;
//! - a ray is a column of the tableau: how everything moves where one nonbasic variable grows;
//! - an exchange is a pivot; the rule for the mark that leaves is the ratio test, and on a dual path the one
//!   for the mark that enters is the dual ratio test;
//! - the tie rule of a primal run is the lexicographic one, by which the simplex method cannot cycle.
//!
//! In reading order: `writings` (of attributes and marks), `levels` (of levels' costs), `corners` (a corner
//! is a square system, whatever the constants; what is told as unfit has a writing), `exchanges` (what stays
//! from one corner to the next), `paths` (how long they are, how costs move along them, what their ends
//! show), `changes` (where a change begins, and why it stops), `runs` (primal and dual runs, in which no
//! corner comes twice).
#![tactic(auto)]

mod changes;
mod corners;
mod exchanges;
mod levels;
mod paths;
mod runs;
mod writings;

pub use changes::{begins_unique, early_terms_are_refused, plain_alone, stops_are_conflicts};
pub use corners::{constants_keep_corner, corner_has_rays, unfit_is_written};
pub use exchanges::{
    columns_stay, dual_choice_stays, pivot_is_exchange, primal_choice_stays, rays_stay, values_stay,
};
pub use levels::{
    common_share_is_unit, level_fits, level_numbers, level_writing_exists, multipliers_are_unique,
    multipliers_exist, numbers_are_equal, rows_lift, small_level_fits, stay_level_row,
    unfit_from_level, writing_from_level,
};
pub use paths::{
    cost_refutes, dual_costs_never_fall, dual_costs_rise, end_is_best, no_column_is_zero,
    paths_are_few,
};
pub use runs::{
    dual_order_is_free, dual_run_grows, dual_run_is_path, negative_by_reduced,
    none_negative_by_reduced, order_is_free, other_mark_grows, required_by_reduced, run_falls,
    run_grows, run_is_path, some_mark_falls,
};
pub use writings::{
    column_has_writing, ray_is_column, terms_lift, unfit_from_equation, values_are_unique,
    writing_exists, writing_from_equation, writing_is_row, writing_moves, writings_are_equal,
};
