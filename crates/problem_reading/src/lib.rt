//! The reader of problems, and of the words of which a line consists.
//!
//! `claim_writing` says what the text of a problem looks like, and writes it. The reader takes exactly what
//! is written there, with comments and empty lines besides. To anything else it answers with the number of
//! the first line outside the form.
//!
//! ```
//! // of the text `row 1 1000 1 >= 1 5 1:1`, `stay 1 0`, each on a line
//! let problem = read_problem(alloc, text)?;        // BadLine(2) without the stay's target
//! // of a line `level s1 1`, word by word
//! let mut words = Words::of(line);
//! if next_is(&mut words, b"level") { .. words.next() .. next_number(&mut words, 1, most) .. }
//! ```
//!
//! [`read_problem`] reads the lines of a text, one by one. [`Words`] are those of a line, and [`next_is`],
//! [`next_number`] and [`next_fraction`] take the next one; [`natural`] and [`integer`] read a word that is
//! at hand. `claim_text` reads claims by the same.
//!
//! A law says without the reader which lines are a problem: exactly those that the problem has, with some
//! that are passed over; the line at which the reader stops is the first outside ([`problems_are_the_form`]).
//!
//! Modules in reading order: `limits` and `stops` (why a text was not read); `words`, `numbers` and `fields`
//! (the parts of a line). `problem::term_words`, `problem::row_lines`, `problem::stay_lines` and
//! `problem::items` (what a line says), `problem::attributes` (those that have stays), `problem::draft` (a
//! problem while it is read), `problem::reader`; `form_laws`.
#![tactic(auto)]

mod fields;
mod form_laws;
mod limits;
mod numbers;
mod problem;
mod stops;
mod words;

pub use fields::{next_fraction, next_is, next_number};
pub use form_laws::problems_are_the_form;
pub use limits::{TEXT_LIMIT, TEXT_ROW_LIMIT, TEXT_STAY_LIMIT, constants_are_as_said};
pub use numbers::{FITTING, integer, natural};
pub use problem::reader::read_problem;
pub use stops::{BadLine, ReadStop};
pub use words::{Cut, Words, first_part};
