//! Prints what the calls on names, metrics, views, sources, sinks and feeds answer, in the order of stored
//! lines.
//!
//! A heading says what begins anew, and each line below it is a call:
//!
//! - `= names LIMIT`, `= metrics`, `= views`: the calls of these; `copy` goes on with a copy, `count` counts;
//! - `= source TEXT FAILS SIZE..`, `= std source TEXT`, `= broken source`: `N` pulls at most so many bytes;
//! - `= sink ROOM FAILS`, `= std sink ROOM`, `= broken sink`: `put TEXT`, `all TEXT` until all is put;
//! - `= own names`: each line as a name of its own;
//! - `= feeds`: each line has a source and a feed of its own, as `feeds` says.
//!
//! FAILS is the number of the call that fails, counted from 0, or another word where none does.
//!
//! ```text
//! = names 1               a table for one name
//! add x                   Ok(0)
//! add y                   Err(Full)
//! ```
//!
//! What the answers keep: they stand in the order of the lines, and depend on the lines since their heading
//! alone.
//!
//! In reading order: `words`, `tables`, `views`, `broken` (a stream that fails), `sources`, `sinks`,
//! `feeding` (what a feed gives), `feeds`, `cases` (the headings).
#![tactic(auto)]

mod broken;
mod cases;
mod feeding;
mod feeds;
mod sinks;
mod sources;
mod tables;
mod views;
mod words;

use crate::cases::printed;
use std::process::ExitCode;
use test_text::print_answers;

fn main(rt: HostRuntime) -> ExitCode {
    print_answers(rt, printed)
}
