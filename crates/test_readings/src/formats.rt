// Formats: their own text and the counts of their parts.
use frac_core::{OutOfMemory, Stop};
use span_text::SyntaxAt;
use std::alloc::Global;
use test_text::put_text;
use vfl_text::{Format, Spacing, read, write};

// Appends a format's line to bytes.
fn push_written(alloc: Global, format: &Format<'_>, text: &mut Vec<u8>) -> Result<(), OutOfMemory> {
    write(alloc, format, text)?;
    Ok(text.push(b'\n')?)
}

/// Appends the canonical text of a format.
pub fn put_written(
    alloc: Global,
    out: &mut String,
    format: &Format<'_>,
) -> Result<(), OutOfMemory> {
    let mut text = Vec::new(alloc);
    push_written(alloc, format, &mut text)?;
    put_text(out, &text)
}

// The bytes as a text, which is empty where they are none.
fn text_of(bytes: &[u8]) -> &str {
    std::str::from_utf8(bytes).unwrap_or("")
}

/// Appends where a text leaves its grammar.
pub fn put_stop(out: &mut String, stop: Stop<SyntaxAt>) -> Result<(), OutOfMemory> {
    match stop {
        Stop::Refused(SyntaxAt(at)) => Ok(writeln!(out, "syntax {at}")?),
        Stop::OutOfMemory => Err(OutOfMemory),
    }
}

/// Appends a format as it is written canonically, or where the text leaves the grammar.
pub fn put_format(alloc: Global, out: &mut String, text: &[u8]) -> Result<(), OutOfMemory> {
    match read(alloc, text_of(text)) {
        Ok(format) => put_written(alloc, out, &format),
        Err(stop) => put_stop(out, stop),
    }
}

// How many predicates a connection has.
fn count_of(spacing: &Spacing<'_>) -> usize {
    match spacing {
        Spacing::Given(preds) => preds.len(),
        _ => 0,
    }
}

fn put_count(out: &mut String, part: &str, count: usize) -> Result<(), OutOfMemory> {
    Ok(writeln!(out, "{part} with {count}")?)
}

// Appends how many predicates each view and each connection between views has.
fn put_parts(out: &mut String, format: &Format<'_>) -> Result<(), OutOfMemory> {
    for item in format.items() {
        put_count(out, item.name, item.sizes().len())?;
    }
    for spacing in format.spacings() {
        put_count(out, "between", count_of(spacing))?;
    }
    Ok(())
}

/// Appends how many predicates the parts of a format have.
pub fn put_counts(alloc: Global, out: &mut String, text: &[u8]) -> Result<(), OutOfMemory> {
    match read(alloc, text_of(text)) {
        Ok(format) => put_parts(out, &format),
        Err(stop) => put_stop(out, stop),
    }
}
