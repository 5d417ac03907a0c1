//! Draws the last reply to `frames` in what a run of `layout` printed, as SVG: each view as a rectangle with
//! its name.
//!
//! Where the input has no such reply, or a line of a frame is malformed, nothing is drawn: one line says why,
//! and the status is 1.
//!
//! ```text
//! layout run < script | layout_svg > drawing.svg
//! ```
//!
//! What a drawing keeps: it has each view of that reply once, in the reply's order, at its numbers rounded to
//! thousandths.
//!
//! In reading order: `fraction` (read exactly, written as decimals), `frame` (the line of a frame), `reply`
//! (the last reply to `frames`), `drawing`.
#![tactic(auto)]

mod drawing;
mod fraction;
mod frame;
mod reply;

use crate::drawing::put_drawing;
use crate::reply::{Fault, last_reply};
use std::alloc::{AllocError, Global};
use std::io;
use std::io::Write;
use std::process::ExitCode;

// The greatest length of the input, in bytes.
const LIMIT: usize = 1_048_576;

// Appends why there is no drawing.
fn put_fault(out: &mut String, fault: Fault) -> Result<(), AllocError> {
    match fault {
        Fault::Malformed(line) => write!(out, "no drawing: line {line} is no frame\n"),
        Fault::NotWhole => out.push_str("no drawing: the input has no whole reply to frames\n"),
        Fault::OutOfMemory(stop) => Err(stop),
    }
}

// Appends the drawing, or a line that says why there is none. Says whether it is the drawing.
fn put_reply(alloc: Global, out: &mut String, input: &str) -> Result<bool, AllocError> {
    match last_reply(alloc, input) {
        Ok(frames) => {
            put_drawing(out, &frames)?;
            Ok(true)
        }
        Err(fault) => {
            put_fault(out, fault)?;
            Ok(false)
        }
    }
}

// Appends what is printed for the input, and says whether it is the drawing.
fn put_answer(alloc: Global, out: &mut String, input: &str) -> Result<bool, AllocError> {
    if input.len() <= LIMIT {
        return put_reply(alloc, out, input);
    }
    write!(out, "no drawing: more than {LIMIT} bytes\n")?;
    Ok(false)
}

// The exit status behind a drawing, or behind a line that says why there is none.
fn status(is_drawn: bool) -> ExitCode {
    if is_drawn {
        ExitCode::SUCCESS
    } else {
        ExitCode::from(1)
    }
}

// Writes the text, and says whether all of it was written.
fn is_written(rt: &HostRuntime, text: &str) -> bool {
    let mut sink = io::writer(rt);
    write!(sink, "{text}").is_ok()
}

// Writes the answer to the input.
fn answer(rt: &HostRuntime, input: &str) -> ExitCode {
    let mut text = String::new(rt.alloc());
    let Ok(is_drawn) = put_answer(rt.alloc(), &mut text, input) else {
        return ExitCode::from(5);
    };
    if is_written(rt, &text) {
        status(is_drawn)
    } else {
        ExitCode::from(4)
    }
}

fn main(rt: HostRuntime) -> ExitCode {
    match io::read_to_string(rt.alloc(), rt.reader()) {
        Ok(input) => answer(&rt, &input),
        // What is no text has no reply.
        Err(error) if error.kind() == io::ErrorKind::InvalidData => answer(&rt, ""),
        Err(_) => ExitCode::from(3),
    }
}
