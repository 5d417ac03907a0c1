//! Visual formats: a row or a column of views, the spaces between them and their sizes, read from a text and
//! written.
//!
//! ```
//! let format = read(alloc, "|-[a(20)]-[b]")?;   // two views from left to right, the first at its parent
//! write(alloc, &format, &mut out)?;             // H:|-[a(==20)]-[b]
//! read(alloc, "H:[a)")                          // Stop::Refused(SyntaxAt(4)): 4 bytes begin some format
//! ```
//!
//! A [`Format`] says what was written and no more: what a name stands for, and what the usual space is,
//! `format_compile` says. Its names are slices of the text.
//!
//! What [`read`] and [`write`] keep: a text has one reading at most, a format that was read has one
//! connection fewer than views between its views, and its canonical text is read as that format again.
//!
//! In reading order: `parts` (what a format is made of), `preds` (sizes and spaces in parentheses), `views`
//! (views and connections), `chain` (a whole format), `writer` (its canonical text), `text` (a format and its
//! text).
#![tactic(auto)]

mod chain;
mod parts;
mod preds;
mod text;
mod views;
mod writer;

pub use chain::read_bytes;
pub use parts::{Axis, Format, Item, Pred, Spacing};
pub use preds::relation;
pub use text::{read, write};
