//! The lines of a script, the words of a line, and the readers that the grammars of formats and lines are
//! made of. Each text that is handed out is a slice of the text that was given.
//!
//! ```
//! for line in lines(b"view a\n# note\r\n") { .. }  // `view a`, then `# note`
//! first_word(b"window 320 480")                     // `window`, and what follows it
//! names::name(b"gap  8")?                           // `gap`, and `8` behind the spaces
//! pieces::literal(b"in", b"if")                     // Err(1): no text goes on at the last byte
//! ```
//!
//! A reader takes a text and gives what it read with the rest. An error is the count of the bytes that are
//! left where no text of the grammar goes on, so of two errors the smaller one came further.
//!
//! What every reader keeps: it gives what the grammar in `specs/` gives of the same text, and the rest is
//! never longer than that text. [`Lines`] and [`Tokens`] hand out their slices in the order of the text.
//!
//! In reading order: `line` (the lines of a script), `classes` (of bytes), `pieces` (the smallest readers),
//! `token` and `cut` (the tokens of a line, more coarsely than any grammar), `word` (its first word); `stop`
//! (why a part wasn't read), `limits` (of numbers), `names`, `numbers`, `multiples` (a number or a ratio),
//! `object` (a number or a name).
#![tactic(auto)]

mod classes;
mod cut;
mod limits;
mod line;
mod multiples;
pub mod names;
pub mod numbers;
mod object;
pub mod pieces;
mod stop;
mod token;
mod word;

pub use cut::{lines, tokens};
pub use limits::{
    DECIMALS, HUNDREDTH, NUMBER_DIGITS, RATIO_DIGITS, TENTH, UNIT, WHOLE_DIGITS,
    constants_are_as_said,
};
pub use line::{Line, Lines, without_return};
pub use multiples::{Multiple, number_or_ratio};
pub use object::Object;
pub use stop::{PartStop, SyntaxAt};
pub use token::{Token, Tokens};
pub use word::first_word;
