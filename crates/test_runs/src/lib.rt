//! Runs of a program, and steps of sessions, as lines of text say them: what programs that test print.
//!
//! Below the heading of a run, which is its words, stands its input. Behind `;` the heading may say:
//!
//! - `times N`: the input is the text so many times;
//! - `inner N`: what stands between two bytes `~` of the text stands in the input so many times;
//! - `pulls N`: each pull takes at most so many bytes;
//! - `fails N`: the pull number N fails, counted from 0;
//! - `room N`: the sink has room for so many bytes;
//! - `std`: the run reads and writes by a reader and a writer of std.
//!
//! What a session's lines say, `sessions` tells; [`put_paths`] reads a script.
//!
//! ```
//! // of a program, and of a session with a checker, traits say what is asked
//! put_run::<Tested>(alloc, out, "run ; pulls 1", b"window 320 480\n")?;
//! put_lines(alloc, out, &mut session, b"judged window 320 480\n")?;
//! ```
//!
//! What always holds: a run knows of no other, and has a source and a sink of its own. Nothing here makes a
//! session.
//!
//! In reading order: `tested` (what is asked of a program, a checker and a session), `lines`, `options`,
//! `inputs`, `runs`; `verdicts` (what the checker says), `cores`, `drawn_lines`, `drawing`, `sessions`;
//! `stops`, `posed` (the problem that a path speaks of), `wishes`, `paths`.
#![tactic(auto)]

mod cores;
mod drawing;
mod drawn_lines;
mod inputs;
mod lines;
mod options;
mod paths;
mod posed;
mod runs;
mod sessions;
mod stops;
mod tested;
mod verdicts;
mod wishes;

pub use inputs::{calls, words_of};
pub use paths::put_paths;
pub use runs::{put_ended, put_run};
pub use sessions::put_lines;
pub use tested::{Answer, Checker, Kind, Program, Talk};
