//! Prints what the readers make of stored texts, or where a text leaves its grammar.
//!
//! A heading `= KIND` says how the text lines below it are read: as one text for the kinds of `blocks`, and
//! else each by itself, without its end.
//!
//! ```text
//! = number                each line below is read as a number
//! 8.                      left 0: all of it begins a number, and a digit is missing
//! ```
//!
//! What the readings keep: they stand in the order of the texts, and each depends on its own text and heading
//! alone.
//!
//! In reading order: `parts` (of lines), `formats`, `commands` (lines of a script), `blocks` (whole texts),
//! `printing` (the headings).
#![tactic(auto)]

mod blocks;
mod commands;
mod formats;
mod parts;
mod printing;

use crate::printing::printed;
use std::process::ExitCode;
use test_text::print_answers;

fn main(rt: HostRuntime) -> ExitCode {
    print_answers(rt, printed)
}
