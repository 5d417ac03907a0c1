//! Prints the rows of stored formats and linear lines, or why they have none.
//!
//! A line of the input is one of these:
//!
//! - `from N`: all begins anew, and the rows of each line that follows are numbered from N;
//! - `on from N`: all begins anew, and the rows that follow are numbered from N on, one line's after the
//!   other's;
//! - `view ..`, `metric ..` and `direction ..`, as in a script of version 2;
//! - `format` with an alignment, where there is one, and a format, or `line` and a line of a script: its rows
//!   are printed.
//!
//! ```text
//! from 33
//! view button
//! format [button(>=50)]                row 33 1000 1 >= 1 50 7:1
//! ```
//!
//! What the answers keep: they stand in the order of the lines, and depend on the lines since all last began
//! anew alone.
//!
//! In reading order: `setting` (views, metrics and numbers), `text` (rows and refusals), `printing` (the
//! lines of the input).
#![tactic(auto)]

mod printing;
mod setting;
mod text;

use crate::printing::printed;
use std::process::ExitCode;
use test_text::print_answers;

fn main(rt: HostRuntime) -> ExitCode {
    print_answers(rt, printed)
}
