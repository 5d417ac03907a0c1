// Drawn lines, and what the word `check` says of the conflicts that they end in.
use crate::drawn_lines::push_line;
use crate::tested::{Answer, Kind, Talk};
use crate::verdicts::is_yes;
use frac_core::OutOfMemory;
use std::alloc::Global;

// Whether the word `check` says yes to the conflict that a line ends in which would solve this problem, if
// it ends in one.
fn is_yes_beside<T: Talk>(
    alloc: Global,
    session: &mut T,
    line: &str,
    problem: &[u8],
) -> Result<Option<bool>, OutOfMemory> {
    let answer = session.answer(alloc, line)?;
    is_yes::<T>(alloc, problem, &answer)
}

// The same, where the problem may be a refusal: then it says no.
fn is_yes_to<T: Talk>(
    alloc: Global,
    session: &mut T,
    line: &str,
    problem: &Answer,
) -> Result<Option<bool>, OutOfMemory> {
    match problem.kind {
        Kind::Problem => is_yes_beside(alloc, session, line, &problem.text),
        _ => Ok(Some(false)),
    }
}

// Whether the word `check` says yes to the conflict that a line ends in, if it ends in one. It doesn't where
// the line is refused before its step.
fn is_accepted<T: Talk>(
    alloc: Global,
    session: &mut T,
    line: &str,
) -> Result<Option<bool>, OutOfMemory> {
    let problem = session.problem(alloc, line)?;
    is_yes_to(alloc, session, line, &problem)
}

// Appends the line where it isn't accepted, and says how many of one line are.
fn put_other<T: Talk>(
    alloc: Global,
    out: &mut String,
    session: &mut T,
    line: &str,
) -> Result<usize, OutOfMemory> {
    let verdict = is_accepted(alloc, session, line)?;
    if verdict == Some(false) {
        writeln!(out, "another verdict on {line}")?;
    }
    Ok(usize::from(verdict == Some(true)))
}

// The same of a line that is drawn now.
fn put_one<T: Talk>(
    alloc: Global,
    out: &mut String,
    session: &mut T,
    seed: &mut u64,
) -> Result<usize, OutOfMemory> {
    let mut line = String::new(alloc);
    push_line(&mut line, seed)?;
    put_other(alloc, out, session, &line)
}

// Applies drawn lines, and appends how many end in a conflict whose multipliers the word `check` accepts.
fn put_counts<T: Talk>(
    alloc: Global,
    out: &mut String,
    session: &mut T,
    first: u64,
    count: usize,
) -> Result<(), OutOfMemory> {
    let mut seed = first;
    let mut accepted: usize = 0;
    for _ in 0..count {
        accepted = accepted.saturating_add(put_one(alloc, out, session, &mut seed)?);
    }
    Ok(writeln!(out, "{accepted} conflicts with the verdict yes")?)
}

/// Applies so many lines as two numbers say, drawn from the first, and appends how many end in a conflict
/// whose multipliers the word `check` accepts, and each that ends in another.
pub fn put_drawn<T: Talk>(
    alloc: Global,
    out: &mut String,
    session: &mut T,
    numbers: &str,
) -> Result<(), OutOfMemory> {
    let (first, count) = numbers.split_once(" ").unwrap_or(("", ""));
    let first = first.parse::<u64>().unwrap_or(0);
    let count = count.parse::<usize>().unwrap_or(0);
    put_counts(alloc, out, session, first, count)
}
