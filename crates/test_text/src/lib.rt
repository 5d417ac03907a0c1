//! The input of programs that try calls of the library over many cases, for their stored runs.
//!
//! A line that begins with `=` is a heading. Each other line is text, with its end, in which `\n`, `\r`,
//! `\t`, `\\` and `\x` with two hexadecimal digits, `a` to `f` small, stand for one byte; a text line that
//! ends in another `\` has no end.
//!
//! ```
//! fn main(rt: HostRuntime) -> ExitCode {
//!     print_answers(rt, printed)                // writes what `printed` makes of the standard input
//! }
//! ```
//!
//! What holds: a text line stands for the bytes that its escapes mean (`line_bytes` in `specs/Escapes.antt`),
//! and bytes are shown as lines (`as_lines`). What [`put_shown`] and [`cases_text`] append, and what
//! [`print_answers`] reads and writes, is said by no clause.
//!
//! In reading order: `escapes` (text lines, read and written), `cases` (what stands below headings), `shown`
//! (values as lines), `program` (input, output and exit status).
#![tactic(auto)]

mod cases;
mod escapes;
mod program;
mod shown;

pub use cases::{Cases, cases_text, push_escaped};
pub use escapes::{put_escaped, put_text};
pub use program::print_answers;
pub use shown::put_shown;
