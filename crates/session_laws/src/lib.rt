//! Laws about sessions: with room every line is answered, a command poses one problem, and the check accepts
//! what the program shows.
//!
//! Each law is the contract of a function that does nothing; its statement is in `specs/` under the function's
//! name. Room is room for numbers and exchanges, never for memory: the machine of `session_undo` has no reply
//! for a lack of memory.
//!
//! ```
//! pub fn one_problem_is_posed()       // two problems that a command poses are one
//!     ensures { OneProblemIsPosed }
//! {}
//! ```
//!
//! In reading order:
//! - `answered`, beginning with [`changes_are_answered`]: if no quantity fails to fit at any corner of a
//!   problem, and the budget is at least 4^N for N rows and stays, a line is answered. `specs/Answered/Room.antt`
//!   says what room is, `specs/Answered/Laws.antt` what the laws say. A budget is the greatest number of pivots
//!   of one run of the simplex method, primal or dual.
//! - `posed`, beginning with [`one_problem_is_posed`]: a line, a format, a text or a name leaves no choice, in
//!   sessions and commands without a denominator of 0, if each view is newer than its parent
//!   (`specs/Posed/Definite.antt`). So the answer to `why` foretells what comes of the change
//!   (`specs/Posed/Questions.antt`).
//! - `shown`, beginning with [`shown_is_judged`]: a certificate, the multipliers of a conflict and the path to
//!   what does not fit, or to the end of the budget, are read as they were written, and the check answers `yes`,
//!   or `no room` (`specs/Shown/Shown.antt`). In linear programming's words: the dual solution of an end passes
//!   the test of optimality, the dual ray of an infeasible program the test of infeasibility, and the pivots of
//!   a run the test of a lawful run.
#![tactic(auto)]

mod answered;
mod posed;
mod shown;

pub use answered::{
    bound_removals_have_room, bounds_fit, changes_are_answered, first_metrics_are_accepted,
    first_scene_fits, large_budgets_are_never_spent, others_are_accepted, probes_are_answered,
    questions_are_answered, some_probes_have_room, some_removals_have_room,
    steep_problem_does_not_fit, sweeps_are_answered,
};
pub use posed::{
    cores_are_posed, first_is_definite, one_problem_is_posed, questions_foretell,
    sizes_are_explained, sizes_are_posed, steps_stay_definite,
};
pub use shown::{
    certificates_are_accepted, certified_is_not_enough, conflicts_are_accepted, cores_are_accepted,
    leaving_stops_are_accepted, paths_are_accepted, shown_is_judged, some_are_shown,
    step_stops_are_accepted,
};
