// Sessions: what their calls answer.
//
// A line of a script is applied. Others are:
//
// - `problem LINE`: the problem that the line would solve;
// - `judged LINE`: what the line is answered, how a path of its refusal stands to that problem, and what the
//   word `check` says of a conflict, a certificate or a core;
// - `print ROOM`: the frames, put into a sink with so much room;
// - `draw SEED COUNT`: the same as `judged`, counted over so many drawn lines.
use crate::cores::put_core;
use crate::drawing::put_drawn;
use crate::lines::{row_count, text_of};
use crate::tested::{Answer, Kind, Talk};
use crate::verdicts::put_verdict;
use edge_io::MemorySink;
use frac_core::OutOfMemory;
use std::alloc::Global;
use test_text::put_text;

// Appends an answer.
fn put_told(out: &mut String, answer: &Answer) -> Result<(), OutOfMemory> {
    match answer.kind {
        Kind::Outside => Ok(writeln!(out, "outside the grammar")?),
        _ => put_text(out, &answer.text),
    }
}

// Appends what a line is answered.
fn put_answer<T: Talk>(
    alloc: Global,
    out: &mut String,
    session: &mut T,
    line: &str,
) -> Result<(), OutOfMemory> {
    let answer = session.answer(alloc, line)?;
    put_told(out, &answer)
}

// Appends the problem that a line would solve, or why it is refused before.
fn put_problem<T: Talk>(
    alloc: Global,
    out: &mut String,
    session: &T,
    line: &str,
) -> Result<(), OutOfMemory> {
    let problem = session.problem(alloc, line)?;
    put_told(out, &problem)
}

// Appends where a line stopped, and how its path stands to the problem of its step, which has so many rows.
fn put_stop(out: &mut String, rows: usize, stop: &str) -> Result<(), OutOfMemory> {
    match stop.split_once("\n") {
        Some((place, path)) => Ok(writeln!(out, "{place}\nproblem of {rows} rows, {path}")?),
        None => Ok(()),
    }
}

// Appends a reply, and what is said of it beside the problem of its step.
fn put_said<T: Talk>(
    alloc: Global,
    out: &mut String,
    problem: &[u8],
    answer: &Answer,
) -> Result<(), OutOfMemory> {
    put_text(out, &answer.text)?;
    put_stop(out, row_count(text_of(problem)), &answer.stop)?;
    put_verdict::<T>(alloc, out, problem, answer)?;
    put_core::<T>(alloc, out, text_of(problem), text_of(&answer.text))
}

// Appends what a line is answered that would solve this problem, and what is said of the answer.
fn put_judged_by<T: Talk>(
    alloc: Global,
    out: &mut String,
    session: &mut T,
    line: &str,
    problem: &[u8],
) -> Result<(), OutOfMemory> {
    let answer = session.answer(alloc, line)?;
    put_said::<T>(alloc, out, problem, &answer)
}

// The same, where the problem may be a refusal.
fn put_judged_beside<T: Talk>(
    alloc: Global,
    out: &mut String,
    session: &mut T,
    line: &str,
    problem: &Answer,
) -> Result<(), OutOfMemory> {
    match problem.kind {
        Kind::Problem => put_judged_by(alloc, out, session, line, &problem.text),
        _ => Ok(writeln!(out, "no problem")?),
    }
}

// Appends what a line is answered, and what is said of the answer.
fn put_judged<T: Talk>(
    alloc: Global,
    out: &mut String,
    session: &mut T,
    line: &str,
) -> Result<(), OutOfMemory> {
    let problem = session.problem(alloc, line)?;
    put_judged_beside(alloc, out, session, line, &problem)
}

// Appends what the frames leave in a sink.
fn put_printed<T: Talk>(
    out: &mut String,
    session: &T,
    sink: &mut MemorySink,
) -> Result<(), OutOfMemory> {
    let is_whole = session.put_frames(sink);
    put_text(out, sink.bytes())?;
    Ok(writeln!(out, "whole {is_whole}")?)
}

// Appends what the frames leave in a sink with so much room.
fn put_frames<T: Talk>(
    alloc: Global,
    out: &mut String,
    session: &T,
    room: &str,
) -> Result<(), OutOfMemory> {
    let room = room.parse::<usize>().unwrap_or(0);
    let mut sink = MemorySink::new(alloc, room, Vec::new(alloc))?;
    put_printed(out, session, &mut sink)
}

// Appends what a line leads to.
fn put_step<T: Talk>(
    alloc: Global,
    out: &mut String,
    session: &mut T,
    line: &str,
) -> Result<(), OutOfMemory> {
    match line.split_once(" ") {
        Some(("problem", line)) => put_problem(alloc, out, session, line),
        Some(("judged", line)) => put_judged(alloc, out, session, line),
        Some(("print", room)) => put_frames(alloc, out, session, room),
        Some(("draw", numbers)) => put_drawn(alloc, out, session, numbers),
        _ => put_answer(alloc, out, session, line),
    }
}

/// Appends what the lines of a session lead to, each below the line.
pub fn put_lines<T: Talk>(
    alloc: Global,
    out: &mut String,
    session: &mut T,
    text: &[u8],
) -> Result<(), OutOfMemory> {
    for line in text_of(text).lines() {
        writeln!(out, "> {line}")?;
        put_step(alloc, out, session, line)?;
    }
    Ok(())
}
