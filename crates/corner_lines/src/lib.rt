//! The equations of lines at a corner. An attribute or an inside line has one row of whole numbers without a
//! common factor, over the outside lines:
//!
//! ```text
//! own * quantity = own * value + sum of by * deviation
//! ```
//!
//! The main definition is `IsLineEquation` in `specs/LineEquations.antt`. For a row `x >= 5` and a stay that
//! draws x to 0, at the corner where x is 5 and the row is outside, the equations are:
//!
//! ```text
//! 1 * x = 1 * 5 + 1 * deviation of the row
//! 1 * deviation of the stay = 1 * 5 + 1 * deviation of the row
//! ```
//!
//! The laws here, each the contract of a function that does nothing, show that a corner kept as such rows
//! satisfies the definitions by marks.
//!
//! A priority level has one such row too, `IsLevelRow`. Its inside lines count implicitly. The laws say how
//! the row changes at an exchange, a turn, a join and a departure, how much the level costs then, and when it
//! fits. The sign of a column is the sign of its first number that isn't 0, its front.
//!
//! A line equation keeps three facts: `own` is above 0, only outside lines have a number that isn't 0, and
//! only 1 divides `own` and all the numbers.
//!
//! Linear programming's words: the marks inside a corner are its basis, and an exchange is a pivot. A line
//! equation is a row of the tableau. The slack and the surplus of a constraint, whose columns are opposite,
//! share one column there. The row of a level is an objective row, from which the reduced costs of its marks
//! follow.
//!
//! In reading order: `equations` (writings, lowest terms, what does not fit, exchanges and what moves),
//! `joins` (a row or an attribute joins, stays move), `removals` (they are taken out), `shifts` (a constant
//! changes), `levels` (the rows of levels), `fronts` (the signs of columns).
#![tactic(auto)]

mod equations;
mod fronts;
mod joins;
mod levels;
mod removals;
mod shifts;

pub use equations::equation_is_carried;
pub use equations::equation_stays;
pub use equations::line_has_numbers;
pub use equations::line_is_exchange;
pub use equations::line_is_written;
pub use equations::line_moves;
pub use equations::lowest_terms_are_one;
pub use equations::mark_has_numbers;
pub use equations::mark_is_written;
pub use equations::mark_moves;
pub use equations::mark_unfit_from_deviation;
pub use equations::mark_unfit_from_line;
pub use equations::pivot_is_resolved;
pub use equations::same_marks_are_corner;
pub use equations::sum_is_reducible;
pub use equations::turn_is_exchange;
pub use equations::turn_keeps_equations;
pub use equations::unfit_from_line;
pub use equations::unfit_from_value;
pub use fronts::alike_costs_keep_sign;
pub use fronts::alike_fronts_are_fronts;
pub use fronts::exchanged_costs_are_alike;
pub use fronts::grown_costs_are_alike;
pub use fronts::joined_costs_are_alike;
pub use fronts::moved_levels_stay;
pub use fronts::negative_front_is_negative;
pub use fronts::new_stay_leaves_levels;
pub use fronts::no_front_is_not;
pub use fronts::no_negative_fronts;
pub use fronts::positive_front_is_not;
pub use fronts::reduced_elsewhere;
pub use fronts::single_has_front;
pub use joins::attr_is_own_deviation;
pub use joins::attr_joins_corner;
pub use joins::equations_hold_with_attr;
pub use joins::equations_hold_with_row;
pub use joins::joined_is_corner;
pub use joins::joined_turns;
pub use joins::joined_under_is_corner;
pub use joins::joined_under_keeps_equations;
pub use joins::last_terms_are_unfit;
pub use joins::no_terms_are_zero;
pub use joins::path_begins_with_more;
pub use joins::path_begins_with_none;
pub use joins::stood_clears_stays;
pub use joins::stood_is_corner;
pub use joins::stood_keeps_attrs;
pub use joins::stood_keeps_rows;
pub use joins::terms_are_unfit;
pub use joins::terms_give_deviation;
pub use joins::terms_go_on;
pub use levels::all_rows_have_joined;
pub use levels::divided_row_is_row;
pub use levels::empty_level_has_row;
pub use levels::entering_number_fits;
pub use levels::equation_is_pivot;
pub use levels::exchanged_cost_is_cost;
pub use levels::exchanged_row_is_multiple;
pub use levels::exchanged_row_is_row;
pub use levels::first_rows_are_sound;
pub use levels::fitting_row_has_writing;
pub use levels::free_row_changes_nothing;
pub use levels::grown_row_is_row;
pub use levels::inside_stay_costs;
pub use levels::inside_stay_fits;
pub use levels::inside_stay_has_row;
pub use levels::inside_stay_is_unfit;
pub use levels::joined_cost_is_cost;
pub use levels::joined_row_is_multiple;
pub use levels::joined_row_is_row;
pub use levels::joined_unit_is_unit;
pub use levels::joining_rows_are_free;
pub use levels::joining_rows_cost_nothing;
pub use levels::leaving_number_fits;
pub use levels::left_cost_is_cost;
pub use levels::left_row_is_multiple;
pub use levels::left_row_is_row;
pub use levels::one_row_more_joins;
pub use levels::order_is_free;
pub use levels::outside_stay_costs_one;
pub use levels::outside_stay_fits;
pub use levels::outside_stay_has_row;
pub use levels::outside_stay_level_fits;
pub use levels::pivot_is_solved;
pub use levels::shrunk_row_is_row;
pub use levels::single_is_unfit;
pub use levels::small_row_fits;
pub use levels::stay_level_fits;
pub use levels::stay_level_is_unfit;
pub use levels::stay_stands_alone;
pub use levels::sum_is_unfit;
pub use levels::turned_cost_is_cost;
pub use levels::turned_row_is_multiple;
pub use levels::turned_row_is_row;
pub use levels::turning_number_fits;
pub use levels::unfit_exchanged_cost;
pub use levels::unfit_joined_cost;
pub use levels::unfit_multiple_has_no_writing;
pub use levels::unfit_row_has_no_writing;
pub use levels::unfit_turned_cost;
pub use levels::untouched_row_stays;
pub use levels::whole_is_sound;
pub use removals::free_stay_is_outside;
pub use removals::left_is_unfit;
pub use removals::without_attr_is_corner;
pub use removals::without_attr_keeps_attrs;
pub use removals::without_attr_keeps_lines;
pub use removals::without_row_is_corner;
pub use removals::without_row_keeps_attrs;
pub use removals::without_row_keeps_lines;
pub use shifts::shift_moves_attrs;
pub use shifts::shift_moves_lines;
pub use shifts::shift_moves_row;
pub use shifts::shifted_is_corner;
