// Whole texts: lines, problems, claims, and both together.
use claim_text::{cut_input, read_claim};
use claim_writing::{Claim, cert_text, problem_text};
use frac_core::{OutOfMemory, Stop};
use problem_core::Problem;
use problem_reading::{BadLine, ReadStop, TEXT_LIMIT, read_problem};
use span_text::lines;
use std::alloc::Global;
use test_text::put_text;

/// Appends the lines of a text, each with its place.
pub fn put_lines(out: &mut String, text: &[u8]) -> Result<(), OutOfMemory> {
    for line in lines(text) {
        let start = line.start;
        let text = std::str::from_utf8(line.bytes).unwrap_or("bytes that are no text");
        writeln!(out, "{start} {text}")?;
    }
    Ok(())
}

fn put_stop(out: &mut String, stop: ReadStop) -> Result<(), OutOfMemory> {
    match stop {
        Stop::Refused(BadLine(line)) => Ok(writeln!(out, "bad {line}")?),
        Stop::OutOfMemory => Err(OutOfMemory),
    }
}

fn put_sizes(out: &mut String, problem: &Problem) -> Result<(), OutOfMemory> {
    let (rows, stays) = (problem.rows().len(), problem.stays().len());
    Ok(writeln!(out, "{rows} rows and {stays} stays")?)
}

// Appends how many rows and stays a problem has, and the problem as it is written.
fn put_written(alloc: Global, out: &mut String, problem: &Problem) -> Result<(), OutOfMemory> {
    put_sizes(out, problem)?;
    let mut text = Vec::new(alloc);
    problem_text(problem, &mut text)?;
    put_text(out, &text)
}

// A problem as it is read. Its length is tested before.
fn problem_of(alloc: Global, text: &[u8]) -> Result<Problem, ReadStop> {
    if text.len() >= TEXT_LIMIT {
        return Err(Stop::OutOfMemory);
    }
    read_problem(alloc, text)
}

/// Appends a problem that was read as it is written again, or the first bad line.
pub fn put_problem(alloc: Global, out: &mut String, text: &[u8]) -> Result<(), OutOfMemory> {
    match problem_of(alloc, text) {
        Ok(problem) => put_written(alloc, out, &problem),
        Err(stop) => put_stop(out, stop),
    }
}

// A claim as it is read. Its length is tested before.
fn claim_of(alloc: Global, text: &[u8]) -> Result<Claim, ReadStop> {
    if text.len() >= TEXT_LIMIT {
        return Err(Stop::OutOfMemory);
    }
    read_claim(alloc, text)
}

// What a claim is.
fn kind_of(claim: &Claim) -> &'static str {
    match claim {
        Claim::IsBest { .. } => "values and a certificate",
        Claim::IsConflict(_) => "a conflict",
        Claim::IsPath { .. } => "a path",
    }
}

// Appends what a claim is, and the claim as it is written.
fn put_claimed(alloc: Global, out: &mut String, claim: &Claim) -> Result<(), OutOfMemory> {
    let kind = kind_of(claim);
    writeln!(out, "{kind}")?;
    let mut text = Vec::new(alloc);
    cert_text(claim, &mut text)?;
    put_text(out, &text)
}

/// Appends a claim that was read as it is written again, or the first bad line.
pub fn put_claim(alloc: Global, out: &mut String, text: &[u8]) -> Result<(), OutOfMemory> {
    match claim_of(alloc, text) {
        Ok(claim) => put_claimed(alloc, out, &claim),
        Err(stop) => put_stop(out, stop),
    }
}

/// Appends the problem and the claim of a text.
pub fn put_cut(out: &mut String, text: &[u8]) -> Result<(), OutOfMemory> {
    if text.len() >= TEXT_LIMIT {
        return Ok(());
    }
    let cut = cut_input(text);
    let before = cut.lines_before;
    put_text(out, cut.problem)?;
    writeln!(out, "{before} lines before")?;
    put_text(out, cut.claim)
}
