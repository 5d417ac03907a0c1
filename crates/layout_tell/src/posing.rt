// The problem of a line.
use corner_view::Tableau;
use frac_core::{OutOfMemory, Stop};
use problem_core::Problem;
use reply_texts::reply_text;
use script_text::{Command, Plain, Reading, read_line_in};
use session_undo::{Refusal, Session};
use span_text::SyntaxAt;
use std::alloc::Global;
use tell_mend::Reader;

// The command whose problem a line is asked for. A line without a command has that of the scene as it is.
fn posed_command(reading: Reading) -> Command {
    match reading {
        Reading::Nothing => Command::Plain(Plain::Frames),
        Reading::Command(command) => command,
        Reading::Why(change) => Command::Change(change),
    }
}

// The problem that a line would solve, or its refusal before anything is solved.
fn posed<T: Tableau>(alloc: Global, session: &Session<T>, line: &[u8]) -> Result<Problem, Refusal> {
    match read_line_in(alloc, line, session.version()) {
        Ok(reading) => {
            let command = posed_command(reading);
            let posed = session.step_problem(&command);
            drop(command);
            posed
        }
        Err(Stop::Refused(SyntaxAt(at))) => Err(Refusal::Syntax(at)),
        Err(Stop::OutOfMemory) => Err(Refusal::OutOfMemory),
    }
}

/// The problem that a line would solve; none if it is refused before anything is solved.
pub fn step_problem<T: Tableau>(
    alloc: Global,
    session: &Session<T>,
    line: &[u8],
) -> Result<Option<Problem>, OutOfMemory> {
    match posed(alloc, session, line) {
        Ok(problem) => Ok(Some(problem)),
        Err(Refusal::OutOfMemory) => Err(OutOfMemory),
        Err(refusal) => {
            drop(refusal);
            Ok(None)
        }
    }
}

/// Appends the reply to a line that is refused before anything is solved; nothing for other lines.
pub fn put_early<T: Tableau>(
    reader: &mut Reader,
    session: &Session<T>,
    line: &[u8],
    out: &mut Vec<u8>,
) {
    match posed(reader.alloc(), session, line) {
        Ok(problem) => drop(problem),
        Err(refusal) => {
            let reply = Err(refusal);
            let put = reply_text(session, &reply, out);
            reader.fail_if(put.is_err());
            drop(reply);
        }
    }
}
