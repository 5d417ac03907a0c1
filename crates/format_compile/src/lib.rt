//! From the reading of a visual format to the rows that it asks of its views.
//!
//! [`compile_format`] makes the rows, numbered in the order of the text, those of an alignment last.
//! [`format_row_count`] gives their number. Each is the row of a sum of terms, made by `constraint_compile`,
//! so it follows the metrics as the row of a line does. The views of a horizontal format follow each other
//! from the left or from the right, by the direction.
//!
//! ```
//! // of the format `H:|-[a(>=gap)]`, from row 7 on
//! format_row_count(alloc, &format, None, Direction::Ltr)?    // 2
//! let compiled = compile_format(alloc, &tree, &metrics, &format, None, 7, Direction::Ltr)?;
//! compiled.rows_now(alloc, &metrics)?        // row 7: a is 20 right of its parent; row 8: a.width >= gap
//! ```
//!
//! If a format can't be compiled, the error is the first cause, in an order that the contracts fix
//! (`CompileStop`): an unknown name, then a wrong use, then a limit that a row would pass, limit by limit
//! over all rows. The laws say that it has at most one cause, and none if it is compiled.
//!
//! Invariant (`IsKeptAsk`): each row that a format asks for has at most two ends and the space between them,
//! and their addends are halves of attributes.
//!
//! In reading order: `parts`, `spans`, `lists` (the parts of the text), `checks`, `lines`, `asks` (the rows
//! that it asks for), `refusals`, `rows`, `laws`, `format` (the two calls).
#![tactic(auto)]

mod asks;
mod checks;
mod format;
mod laws;
mod lines;
mod lists;
mod parts;
mod refusals;
mod rows;
mod spans;

pub use format::{compile_format, format_row_count};
pub use laws::{
    compiled_formats_have_all_rows, compiled_formats_have_no_refusal, format_refusal_is_unique,
    some_courses,
};
pub use lists::constants_are_as_said;
