//! Answers lines and judges the paths of scripts by a session's calls.
//!
//! Below a heading `= session` stand the lines that a session of version 1 takes, as `test_runs` says, and
//! below `= session 2` those that one of version 2 takes. Below a heading `= paths NAME` stands a script of
//! version 1 whose refusals 7 and 8 are judged by their paths, and below `= paths 2 NAME` one of version 2,
//! without its first line.
//!
//! What always holds: no case knows of another. Each has a session of its own.
//!
//! ```text
//! = session
//! judged window 320 480   the problem is printed, the reply, and what the checker says of its multipliers
//! ```
//!
//! In reading order: `cases` (the headings), `tested` (sessions and the checker, as `test_runs` asks for
//! them), `answers`, `problems`, `held` (what a session holds).
#![tactic(auto)]

mod answers;
mod cases;
mod held;
mod problems;
mod session;
mod tested;

use crate::cases::printed;
use std::process::ExitCode;
use test_text::print_answers;

fn main(rt: HostRuntime) -> ExitCode {
    print_answers(rt, printed)
}
