//! The program: does what its words ask for, over the standard input and output.
//!
//! ```text
//! layout run < script         the replies to the lines of a script
//! layout host < script        the replies to the lines of a script of many scenes, each behind a name
//! layout check < claim        the checker's verdict on a problem with a claim
//! layout make 7 60            what a run of the script comes to that is drawn from the seed 7 for 60 views
//! ```
//!
//! The exit status says how it ended: 0 where no reply is a refusal or the verdict is yes, 1 where one is or
//! it is another, 2 for other words, 3 and 4 where reading or writing failed, 5 for want of memory, 6 for an
//! input past its limit.
//!
//! What the status keeps (`exit_code` in `specs/Exit.antt`): each way in which a run ends has a number of its
//! own.
//!
//! All that it does stands in `layout_cli`. Here are the words, the streams and the status.
//!
//! In reading order: `exits` (the statuses' numbers), then below `exit_status`, `words_of` (the words),
//! `run_words` (the streams) and `main`.
#![tactic(auto)]

mod exits;

ghost use Rattle.std.specs.Prelude.{◌≡◌};
ghost use Rattle.layout.specs.Exit.{exit_code};

use crate::exits::{DONE, OUT_OF_MEMORY, READ_FAULT, REFUSED, TOO_LONG, USAGE, WRITE_FAULT};
use edge_io::{StdSink, StdSource};
use frac_core::OutOfMemory;
use layout_cli::{Status, run};
use std::env::Env;
use std::process::ExitCode;
use std::{env, io};

// The exit status that stands for how the run ended.
fn exit_status(status: Status) -> u8
    ensures { result ≡ exit_code status }
{
    match status {
        Status::Done => DONE,
        Status::Refused => REFUSED,
        Status::Usage => USAGE,
        Status::ReadFault => READ_FAULT,
        Status::WriteFault => WRITE_FAULT,
        Status::OutOfMemory => OUT_OF_MEMORY,
        Status::TooLong => TOO_LONG,
    }
}

// The words after the program's name. Words that are no text are none, and so other words than those of a
// run.
fn words_of(rt: &(impl Env + AllocGlobal)) -> Result<Vec<String>, OutOfMemory> {
    let mut words = Vec::new(rt.alloc());
    match env::args(rt) {
        Ok(args) => {
            for word in args.skip(1) {
                words.push(word)?;
            }
        }
        Err(error) if error.kind() == io::ErrorKind::OutOfMemory => return Err(OutOfMemory),
        Err(_) => (),
    }
    Ok(words)
}

// Runs over the standard input and output.
fn run_words(rt: &HostRuntime, words: &[String]) -> Status {
    let mut source = StdSource::new(rt.reader());
    let mut sink = StdSink::new(io::writer(rt));
    run(rt.alloc(), words, &mut source, &mut sink)
}

fn main(rt: HostRuntime) -> ExitCode {
    let status = match words_of(&rt) {
        Ok(words) => run_words(&rt, &words),
        Err(OutOfMemory) => Status::OutOfMemory,
    };
    ExitCode::from(exit_status(status))
}
