//! Answers stored scripts and claims by `run`, over sources and sinks of many kinds.
//!
//! Below a heading `= WORDS` stands the input of a run with these words, behind which options may stand, as
//! `test_runs` says. Below a heading `== table` stands a script of which each read and each write fails in
//! turn.
//!
//! Among the runs stand the example screens and the scripts that the pages show, each below a comment `#: `
//! that says what it is.
//!
//! What always holds: no case knows of another. Each has a source and a sink for each of its runs.
//!
//! ```text
//! = run ; pulls 1
//! window 320 480          each reply is printed, then how the run ended and how often it pulled
//! ```
//!
//! In reading order: `cases` (the headings), `tested` (the program, as `test_runs` asks for it), `table` (each
//! call fails in turn).
#![tactic(auto)]

mod cases;
mod table;
mod tested;

use crate::cases::printed;
use std::process::ExitCode;
use test_text::print_answers;

fn main(rt: HostRuntime) -> ExitCode {
    print_answers(rt, printed)
}
