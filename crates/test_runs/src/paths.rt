// Scripts whose paths are judged.
//
// Each line that is refused with a path gives a line: its number, counted from 1; `probe`, `still`, `held` or
// `sweep` where the path is that of a probe, of a removal with rows still held, of a trial, or of a sweep;
// `spent`, or the kind of the quantity that doesn't fit; and what the word `check` says of the path beside
// the problem that it speaks of. `probe target no path` stands where a probe's wish doesn't fit, so that
// there is no path.
//
// A refused line leaves its session as before, so what was held when the line came is what is held behind it.
use crate::lines::text_of;
use crate::posed::push_posed;
use crate::stops::Stop;
use crate::tested::{Answer, Kind, Talk};
use crate::verdicts::{Claimed, put_verdict_of};
use frac_core::OutOfMemory;
use std::alloc::Global;

// A line of a script, with its number.
#[derive(Clone, Copy)]
struct Line<'a> {
    number: usize,
    text: &'a str,
}

// The text of the problem of a step, which is empty where the line is refused before.
fn problem_text(problem: &Answer) -> &str {
    match problem.kind {
        Kind::Problem => text_of(&problem.text),
        _ => "",
    }
}

// What is told of a session when a path is judged: the path, the problem of the step, the problem that is
// held, and the reply to `rows`, which tells the numbers of attributes.
#[derive(Clone, Copy)]
struct Told<'a> {
    stop: Stop<'a>,
    step: &'a str,
    held: &'a str,
    rows: &'a str,
}

impl Claimed for Told<'_> {
    fn push(&self, text: &mut String) -> Result<(), OutOfMemory> {
        push_posed(text, self.stop, self.step, self.held, self.rows)?;
        Ok(text.push_str(self.stop.claim())?)
    }
}

// Appends the verdict, where the problems are told.
fn put_posed<T: Talk>(
    alloc: Global,
    out: &mut String,
    session: &T,
    stop: Stop<'_>,
    problems: [&str; 2],
) -> Result<(), OutOfMemory> {
    let text = session.rows(alloc)?;
    let [step, held] = problems;
    let told = Told {
        stop,
        step,
        held,
        rows: text_of(&text),
    };
    put_verdict_of::<T, _>(alloc, out, &told)
}

// The same, where the problem of the step is told.
fn put_held<T: Talk>(
    alloc: Global,
    out: &mut String,
    session: &T,
    stop: Stop<'_>,
    step: &str,
) -> Result<(), OutOfMemory> {
    let held = session.held(alloc)?;
    put_posed(alloc, out, session, stop, [step, text_of(&held)])
}

// Appends the verdict on the path of a line's refusal.
fn put_answer<T: Talk>(
    alloc: Global,
    out: &mut String,
    session: &T,
    line: &str,
    stop: Stop<'_>,
) -> Result<(), OutOfMemory> {
    let step = session.problem(alloc, line)?;
    put_held(alloc, out, session, stop, problem_text(&step))
}

// Appends the number of a line that is refused with a path, where that stopped, at what, and the verdict.
fn put_stop<T: Talk>(
    alloc: Global,
    out: &mut String,
    session: &T,
    line: Line<'_>,
    stop: Stop<'_>,
) -> Result<(), OutOfMemory> {
    let (number, place, kind) = (line.number, stop.place_word(), stop.kind());
    write!(out, "{number} {place}{kind} ")?;
    put_answer(alloc, out, session, line.text, stop)
}

fn put_target(out: &mut String, number: usize) -> Result<(), OutOfMemory> {
    Ok(writeln!(out, "{number} probe target no path")?)
}

// Appends what is found in a reply, if it is one of those with paths.
fn put_found<T: Talk>(
    alloc: Global,
    out: &mut String,
    session: &T,
    line: Line<'_>,
    reply: &str,
) -> Result<(), OutOfMemory> {
    match Stop::of(reply) {
        Some(stop) => put_stop(alloc, out, session, line, stop),
        None if reply.ends_with("\nunfit target\n") => put_target(out, line.number),
        None => Ok(()),
    }
}

// Applies a line, and appends what is found in its reply.
fn put_line<T: Talk>(
    alloc: Global,
    out: &mut String,
    session: &mut T,
    line: Line<'_>,
) -> Result<(), OutOfMemory> {
    let answer = session.answer(alloc, line.text)?;
    put_found(alloc, out, session, line, text_of(&answer.text))
}

/// Appends what is found of each refusal with a path, where a session takes the lines of a script.
pub fn put_paths<T: Talk>(
    alloc: Global,
    out: &mut String,
    session: &mut T,
    script: &[u8],
) -> Result<(), OutOfMemory> {
    let mut number: usize = 0;
    for text in text_of(script).lines() {
        number = number.saturating_add(1);
        put_line(alloc, out, session, Line { number, text })?;
    }
    Ok(())
}
