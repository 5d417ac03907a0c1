// The cases of the input and what each leads to.
use crate::blocks::{put_claim, put_cut, put_lines, put_problem};
use crate::commands::{put_begins, put_line};
use crate::formats::{put_counts, put_format};
use crate::parts::{
    put_either, put_name, put_number, put_ratio, put_raw_name, put_sign, put_tokens, put_whole,
    put_word,
};
use frac_core::OutOfMemory;
use script_text::Version;
use std::alloc::Global;
use test_text::{Cases, cases_text, push_escaped, put_escaped};

fn put_no_kind(out: &mut String) -> Result<(), OutOfMemory> {
    Ok(writeln!(out, "no kind")?)
}

// Appends the reading of a line by the kinds of whole lines.
fn put_scripted(
    alloc: Global,
    out: &mut String,
    kind: &str,
    line: &[u8],
) -> Result<(), OutOfMemory> {
    match kind {
        "line" => put_line(alloc, out, line, Version::One),
        "line 2" => put_line(alloc, out, line, Version::Two),
        "layout 2" => put_begins(out, line),
        _ => put_no_kind(out),
    }
}

// Appends the reading of a line by the kinds of larger parts.
fn put_larger(alloc: Global, out: &mut String, kind: &str, line: &[u8]) -> Result<(), OutOfMemory> {
    match kind {
        "vfl or view" => put_either(out, line),
        "format" => put_format(alloc, out, line),
        "counts" => put_counts(alloc, out, line),
        _ => put_scripted(alloc, out, kind, line),
    }
}

// Appends the reading of a line by the kinds of names and words.
fn put_wording(
    alloc: Global,
    out: &mut String,
    kind: &str,
    line: &[u8],
) -> Result<(), OutOfMemory> {
    match kind {
        "name" => put_name(out, line),
        "raw name" => put_raw_name(out, line),
        "word in" => put_word(out, line),
        "sign -" => put_sign(out, line),
        _ => put_larger(alloc, out, kind, line),
    }
}

// Appends the reading of a line.
fn put_reading(
    alloc: Global,
    out: &mut String,
    kind: &str,
    line: &[u8],
) -> Result<(), OutOfMemory> {
    match kind {
        "tokens" => put_tokens(out, line),
        "number" => put_number(out, line),
        "ratio" => put_ratio(out, line),
        "whole" => put_whole(out, line),
        _ => put_wording(alloc, out, kind, line),
    }
}

// Appends the reading of the bytes of a line, without its end.
fn put_unended(
    alloc: Global,
    out: &mut String,
    kind: &str,
    bytes: &[u8],
) -> Result<(), OutOfMemory> {
    put_reading(alloc, out, kind, bytes.strip_suffix(b"\n").unwrap_or(bytes))
}

// Appends the line as it is written, and its reading.
fn put_case(alloc: Global, out: &mut String, kind: &str, line: &str) -> Result<(), OutOfMemory> {
    writeln!(out, "{line}")?;
    let mut bytes = Vec::new(alloc);
    put_escaped(&mut bytes, line)?;
    put_unended(alloc, out, kind, &bytes)
}

// Appends each line and its reading.
fn put_each(alloc: Global, out: &mut String, kind: &str, lines: &str) -> Result<(), OutOfMemory> {
    for line in lines.split("\n").skip(1) {
        put_case(alloc, out, kind, line)?;
    }
    Ok(())
}

// Appends the reading of a whole text, for the kinds of blocks.
fn put_block(alloc: Global, out: &mut String, kind: &str, text: &[u8]) -> Result<(), OutOfMemory> {
    match kind {
        "problem" => put_problem(alloc, out, text),
        "claim" => put_claim(alloc, out, text),
        "cut" => put_cut(out, text),
        _ => put_lines(out, text),
    }
}

// Appends the reading of the lines as one text.
fn put_whole_text(
    alloc: Global,
    out: &mut String,
    kind: &str,
    lines: &str,
) -> Result<(), OutOfMemory> {
    let mut bytes = Vec::new(alloc);
    push_escaped(&mut bytes, lines)?;
    put_block(alloc, out, kind, &bytes)
}

// The headings, which are kinds.
struct Kinds;

impl Cases for Kinds {
    fn put_below(
        alloc: Global,
        out: &mut String,
        kind: &str,
        lines: &str,
    ) -> Result<(), OutOfMemory> {
        match kind {
            "problem" | "claim" | "cut" | "lines" => put_whole_text(alloc, out, kind, lines),
            _ => put_each(alloc, out, kind, lines),
        }
    }
}

/// What the program prints.
pub fn printed(alloc: Global, input: &str) -> Result<String, OutOfMemory> {
    cases_text::<Kinds>(alloc, input)
}
