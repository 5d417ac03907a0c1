//! From the reading of a line to its rows: names become views and metrics, views become attributes, and what
//! was written becomes rows of whole coefficients.
//!
//! [`compile_line`] makes the row of a linear constraint, and [`Suggestion::row`] the row of a suggestion.
//! `format_compile` makes the rows of a visual format, each by [`row_of_addends`]. A [`Compiled`] line keeps
//! its constants as sums of numbers and of multiples of metrics, so it follows the metrics without being read
//! again.
//!
//! ```
//! // of the line `constrain c a.width >= 2*gap`, as row 7
//! let compiled = compile_line(alloc, &tree, &metrics, &line, 7)?;
//! compiled.rows_now(alloc, &metrics)?           // where gap is 8: a.width is at least 16
//! compiled.constants_naming(alloc, &later, "gap")? // where gap is 10: row 7 has the constant 20
//! ```
//!
//! If a line can't be compiled, the error is the first cause, in an order that the contracts fix
//! (`CompileStop`): an unknown name, then a wrong use, then a limit that would be passed.
//!
//! Invariant (`AreForms`): except for its constant, which the metrics decide, each row of a compiled line
//! keeps the invariant of a row of `problem_core`.
//!
//! In linear programming's words, a row is a constraint, its rank is the priority of a goal, and its scale is
//! the factor that makes the coefficients whole.
//!
//! `compile_parts` has the meaning of a line's names and the contributions of its terms. In reading order:
//! `compiled` (a line's rows and views). `line`, with `line::signs` (all terms on one side), `line::sums`,
//! `line::scales`, `line::nonzero` and `line::row_terms` (the coefficients), `line::parts` and `line::rows`
//! (the row). Afterwards: `rows` (the constants at given metrics), `naming` (the constants that name a
//! metric), `suggestion`.
#![tactic(auto)]

mod compiled;
mod line;
mod naming;
mod rows;
mod suggestion;

pub use compiled::{Compiled, RowForm};
pub use line::compile_line;
pub use line::rows::{Head, row_of_addends};
pub use line::signs::negated;
pub use naming::RowConstant;
pub use suggestion::{
    Suggestion, USUAL_RANK, constants_are_as_said, priority_or, suggested_constant,
};
