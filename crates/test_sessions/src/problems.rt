// The problems that lines would solve, as text.
use crate::session::Session;
use crate::tested::push_reply;
use claim_writing::problem_text;
use frac_core::OutOfMemory;
use problem_core::Problem;
use script_text::{Command, Plain, Reading, read_line_in};
use session_undo::Refusal;
use std::alloc::Global;
use test_runs::{Answer, Kind};

// The text alone.
fn push_problem(text: &mut Vec<u8>, problem: &Problem) -> Result<(), OutOfMemory> {
    problem_text(problem, text)
}

fn posed(alloc: Global, problem: &Problem) -> Result<Answer, OutOfMemory> {
    let mut answer = Answer::new(alloc, Kind::Problem);
    push_problem(&mut answer.text, problem)?;
    Ok(answer)
}

// Appends why a line is refused.
fn push_refusal(
    text: &mut Vec<u8>,
    session: &Session,
    refusal: Refusal,
) -> Result<(), OutOfMemory> {
    push_reply(text, session, &Err(refusal))
}

fn refused(alloc: Global, session: &Session, refusal: Refusal) -> Result<Answer, OutOfMemory> {
    let mut answer = Answer::new(alloc, Kind::Other);
    push_refusal(&mut answer.text, session, refusal)?;
    Ok(answer)
}

// The problem alone: nothing here needs a clause of `step_problem`.
fn problem_of(session: &Session, command: &Command<'_>) -> Result<Problem, Refusal> {
    session.step_problem(command)
}

fn problem_for(
    alloc: Global,
    session: &Session,
    command: &Command<'_>,
) -> Result<Answer, OutOfMemory> {
    match problem_of(session, command) {
        Ok(problem) => posed(alloc, &problem),
        Err(refusal) => refused(alloc, session, refusal),
    }
}

// The problem of the command that is said, or of the change of which something is asked. A blank line poses
// the scene's problem, as `frames` does.
fn problem_said(
    alloc: Global,
    session: &Session,
    reading: Reading<'_>,
) -> Result<Answer, OutOfMemory> {
    let command = match reading {
        Reading::Nothing => Command::Plain(Plain::Frames),
        Reading::Command(command) => command,
        Reading::Why(change) => Command::Change(change),
    };
    problem_for(alloc, session, &command)
}

/// The problem that a line would solve, or why it is refused before.
pub fn problem(alloc: Global, session: &Session, line: &str) -> Result<Answer, OutOfMemory> {
    match read_line_in(alloc, line.as_bytes(), session.version()) {
        Ok(reading) => problem_said(alloc, session, reading),
        Err(_) => Ok(Answer::new(alloc, Kind::Outside)),
    }
}
