//! Explains each refused line of a script: where it is wrong, why, and what to do. It writes text for people,
//! or JSON for editors. It is only tested.
//!
//! ```text
//! layout_tell < script                   each refused line with a caret, its cause, and a cure
//! layout_tell --json < script            the same, one object on each line
//! layout_tell problem 12 < script        the problem and the path of refused line 12, for `layout check`
//! ```
//!
//! After a line `diagnose` it shows what would pin each ambiguous attribute. The status is 0 if no line was
//! refused, and 1 if one was, or if line 12 has no such problem. It is 2 for other arguments, 3 and 4 if
//! reading or writing failed, 5 if memory ran out, and 6 for more input than a run takes.
//!
//! `tell_refusals` explains a line. In reading order: `asked` (the arguments), `posing` (the problem of a
//! line), `lent` (what explanations need of the session), `teller` (answers the lines of a script).
#![tactic(auto)]

mod asked;
mod lent;
mod posing;
mod teller;

use crate::asked::{Asked, asked_for};
use crate::teller::tell;
use edge_io::{StdSink, put_all};
use frac_core::OutOfMemory;
use layout_cli::{INPUT_LIMIT, Status};
use std::io;
use std::io::Read;
use std::process::ExitCode;

const USAGE: &[u8] = b"usage: layout_tell [--json | problem LINE] < SCRIPT\n";

// Writes the usage.
fn put_usage(rt: &HostRuntime) -> Status {
    let mut sink = StdSink::new(io::writer(rt));
    match put_all(&mut sink, USAGE) {
        Ok(()) => Status::Usage,
        Err(_) => Status::WriteFault,
    }
}

// Reads the script and does with it what is asked for.
fn read_and_tell(rt: &HostRuntime, asked: Asked) -> Result<Status, OutOfMemory> {
    let mut script = Vec::new(rt.alloc());
    match rt.reader().read_to_end(&mut script) {
        Ok(_) if script.len() > INPUT_LIMIT => Ok(Status::TooLong),
        Ok(_) => tell(
            rt.alloc(),
            asked,
            &script,
            &mut StdSink::new(io::writer(rt)),
        ),
        Err(error) if error.kind() == io::ErrorKind::OutOfMemory => Err(OutOfMemory),
        Err(_) => Ok(Status::ReadFault),
    }
}

// Does what the arguments ask for.
fn run(rt: &HostRuntime) -> Result<Status, OutOfMemory> {
    match asked_for(rt)? {
        Asked::Other => Ok(put_usage(rt)),
        asked => read_and_tell(rt, asked),
    }
}

fn main(rt: HostRuntime) -> ExitCode {
    ExitCode::from(match run(&rt).unwrap_or(Status::OutOfMemory) {
        Status::Done => 0,
        Status::Refused => 1,
        Status::Usage => 2,
        Status::ReadFault => 3,
        Status::WriteFault => 4,
        Status::OutOfMemory => 5,
        Status::TooLong => 6,
    })
}
