// What a session answers to lines, as text.
use crate::session::Session;
use crate::tested::push_reply;
use cert_core::Path;
use frac_core::OutOfMemory;
use script_text::{Reading, read_line_in};
use session_undo::{Refusal, Reply, StopPlace};
use std::alloc::Global;
use test_runs::{Answer, Kind};
use test_text::put_shown;

// Appends where a line stopped, and how long its path is.
fn push_path(stop: &mut String, place: &StopPlace, path: &Path) -> Result<(), OutOfMemory> {
    put_shown(stop, place)?;
    let (marks, swaps) = (path.corner().len(), path.swaps().len());
    let is_dual = path.dual();
    Ok(write!(
        stop,
        "path from {marks} marks by {swaps} exchanges, dual {is_dual}"
    )?)
}

// The same of a reply, if it is a refusal with a path.
fn push_stop(stop: &mut String, reply: &Result<Reply, Refusal>) -> Result<(), OutOfMemory> {
    match reply {
        Err(Refusal::Spent { place, path }) => push_path(stop, place, path),
        Err(Refusal::Overflow { place, at }) => push_path(stop, place, &at.path),
        Err(Refusal::SweepOverflow { width, path, .. }) => {
            push_path(stop, &StopPlace::Sweep(*width), path)
        }
        _ => Ok(()),
    }
}

fn kind_of(reply: &Result<Reply, Refusal>) -> Kind {
    match reply {
        Ok(Reply::Certificate(_)) => Kind::Certificate,
        Err(Refusal::Conflict(_)) => Kind::Conflict,
        _ => Kind::Other,
    }
}

// The reply as an answer.
fn answer_of(
    alloc: Global,
    session: &Session,
    reply: &Result<Reply, Refusal>,
) -> Result<Answer, OutOfMemory> {
    let mut answer = Answer::new(alloc, kind_of(reply));
    push_reply(&mut answer.text, session, reply)?;
    push_stop(&mut answer.stop, reply)?;
    Ok(answer)
}

// The reply alone: nothing here needs a clause of `apply`.
fn reply_to(session: &mut Session, reading: Reading<'_>) -> Result<Reply, Refusal> {
    session.apply(reading)
}

fn answer_to(
    alloc: Global,
    session: &mut Session,
    reading: Reading<'_>,
) -> Result<Answer, OutOfMemory> {
    let reply = reply_to(session, reading);
    answer_of(alloc, session, &reply)
}

/// What a line is answered in the session's version.
pub fn answer(alloc: Global, session: &mut Session, line: &str) -> Result<Answer, OutOfMemory> {
    match read_line_in(alloc, line.as_bytes(), session.version()) {
        Ok(reading) => answer_to(alloc, session, reading),
        Err(_) => Ok(Answer::new(alloc, Kind::Outside)),
    }
}
