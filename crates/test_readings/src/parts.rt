// Parts of lines: tokens, numbers, names and words.
use frac_core::OutOfMemory;
use span_text::{PartStop, names, numbers, pieces, tokens};
use std::fmt::Display;
use test_text::put_text;

// The bytes as a text, or words that say that they are none.
fn text_of(bytes: &[u8]) -> &str {
    std::str::from_utf8(bytes).unwrap_or("bytes that are no text")
}

// Appends how many bytes are left where a part leaves its grammar.
fn put_left(out: &mut String, left: usize) -> Result<(), OutOfMemory> {
    match PartStop::from(left) {
        PartStop::Left(left) => Ok(writeln!(out, "left {left}")?),
        PartStop::OutOfMemory => Err(OutOfMemory),
    }
}

/// Appends the tokens of a text, each with its places.
pub fn put_tokens(out: &mut String, text: &[u8]) -> Result<(), OutOfMemory> {
    for token in tokens(text_of(text)) {
        let (text, start, end) = (token.text, token.start, token.end);
        writeln!(out, "{start} to {end} {text}")?;
    }
    Ok(())
}

// Appends what was read and what follows it, or where the text leaves the grammar.
fn put_read<T: Display + Copy>(
    out: &mut String,
    read: Result<(T, &[u8]), usize>,
) -> Result<(), OutOfMemory> {
    match read {
        Ok((value, rest)) => {
            let rest = text_of(rest);
            Ok(writeln!(out, "{value} before {rest}")?)
        }
        Err(left) => put_left(out, left),
    }
}

/// Appends a number in thousandths, and what follows it.
pub fn put_number(out: &mut String, text: &[u8]) -> Result<(), OutOfMemory> {
    put_read(out, numbers::number(text))
}

/// Appends the parts of a ratio, and what follows it.
pub fn put_ratio(out: &mut String, text: &[u8]) -> Result<(), OutOfMemory> {
    match numbers::ratio(text) {
        Ok(read) => {
            let (above, below) = (read.above, read.below);
            let rest = text_of(read.rest);
            Ok(writeln!(out, "{above} over {below} before {rest}")?)
        }
        Err(left) => put_left(out, left),
    }
}

/// Appends a whole number, and what follows it.
pub fn put_whole(out: &mut String, text: &[u8]) -> Result<(), OutOfMemory> {
    put_read(out, numbers::whole(text))
}

/// Appends a name, and what follows it and the spaces behind it.
pub fn put_name(out: &mut String, text: &[u8]) -> Result<(), OutOfMemory> {
    put_read(out, names::name(text))
}

/// Appends a name, and what follows it at once.
pub fn put_raw_name(out: &mut String, text: &[u8]) -> Result<(), OutOfMemory> {
    put_read(out, names::raw_name(text))
}

// Appends what follows, or where the text leaves the grammar.
fn put_rest(out: &mut String, read: Result<&[u8], usize>) -> Result<(), OutOfMemory> {
    match read {
        Ok(rest) => {
            let rest = text_of(rest);
            Ok(writeln!(out, "before {rest}")?)
        }
        Err(left) => put_left(out, left),
    }
}

/// Appends what follows the word `in`.
pub fn put_word(out: &mut String, text: &[u8]) -> Result<(), OutOfMemory> {
    put_rest(out, names::word(b"in", text))
}

/// Appends what follows a minus sign.
pub fn put_sign(out: &mut String, text: &[u8]) -> Result<(), OutOfMemory> {
    put_rest(out, names::sign(b'-', text))
}

// The number of the word of the two with which the text begins.
fn either(text: &[u8]) -> Result<(u8, &[u8]), usize> {
    let other = pieces::or_else(b"vfl", 2, text, Err(text.len()));
    pieces::or_else(b"view", 1, text, other)
}

/// Appends which of the words `view` and `vfl` the text begins with.
pub fn put_either(out: &mut String, text: &[u8]) -> Result<(), OutOfMemory> {
    match either(text) {
        Ok((place, rest)) => {
            writeln!(out, "{place} before")?;
            put_text(out, rest)
        }
        Err(left) => put_left(out, left),
    }
}
