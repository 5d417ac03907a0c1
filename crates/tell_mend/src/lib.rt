//! Mends a line that leaves the grammar: finds what may come there, tries the cures of usual mistakes, and
//! finds similar words. It sees the text alone, and no session.
//!
//! ```
//! let mut reader = Reader::new(alloc, Version::One);
//! reader.leaves(b"constrain g a.left = 8");        // Some(20): at the second `=`
//! expected(&mut reader, line, 19);                 // "`==`", ..: what may come there, one on each line
//! mend(&mut reader, &mut text, &mut what);         // true: `text` is `constrain g a.left == 8`, and `what`
//!                                                  // says "a relation is `==`, `<=` or `>=`"
//! wanted_at(b"remove fit", 7, b"fit").word();      // "a group": what must have the name there
//! ```
//!
//! The crate has no grammar of its own. It asks the reader of `script_text` about each sign and letter, and
//! suggests only a line that the reader has read. Whether that line is the one meant is for its author to
//! say. The crate is only tested.
//!
//! In reading order: `bytes` (parts of a line), `reader` ([`Reader`]: the grammar's reader), `asking` (what
//! may come at a place), `near` (similar words), `words` (the commands of lines, and the names that they
//! make), `cures` (the tables of mistakes) and `mending`, `wanted` (what must have a name at a place).
#![tactic(auto)]

mod asking;
mod bytes;
mod cures;
mod mending;
mod near;
mod reader;
mod wanted;
mod words;

pub use asking::expected;
pub use bytes::{before_sign, cut, ends_in_word, find_word, parted, word_start};
pub use mending::{advice, elsewhere, mend, whole_front};
pub use near::Near;
pub use reader::Reader;
pub use wanted::{Wanted, is_attribute, rank_for, wanted_at};
pub use words::{Word, group_of, line_at, makes_view, word_of};
