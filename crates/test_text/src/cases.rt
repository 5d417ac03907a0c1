// Cases below headings.
use crate::escapes::put_escaped;
use frac_core::OutOfMemory;
use std::alloc::Global;

/// What the lines below headings lead to.
pub trait Cases {
    /// Appends what the lines below a heading lead to. The heading stands here without its first `=`, and
    /// each of the lines with an end in front of it.
    fn put_below(
        alloc: Global,
        out: &mut String,
        heading: &str,
        lines: &str,
    ) -> Result<(), OutOfMemory>;
}

/// Appends the bytes that the lines below a heading stand for.
pub fn push_escaped(bytes: &mut Vec<u8>, lines: &str) -> Result<(), OutOfMemory> {
    for line in lines.split("\n").skip(1) {
        put_escaped(bytes, line)?;
    }
    Ok(())
}

// Appends a heading and what the lines below it lead to.
fn put_case<C: Cases>(alloc: Global, out: &mut String, case: &str) -> Result<(), OutOfMemory> {
    let (heading, _) = case.split_once("\n").unwrap_or((case, ""));
    writeln!(out, "={heading}")?;
    let lines = case.strip_prefix(heading).unwrap_or("");
    C::put_below(alloc, out, heading.trim_start(), lines)
}

// Appends each heading and what the lines below it lead to.
fn put_cases<C: Cases>(alloc: Global, out: &mut String, input: &str) -> Result<(), OutOfMemory> {
    let text = input.strip_suffix("\n").unwrap_or(input);
    for case in text.strip_prefix("=").unwrap_or(text).split("\n=") {
        put_case::<C>(alloc, out, case)?;
    }
    Ok(())
}

/// Each heading of an input, and what the lines below it lead to.
pub fn cases_text<C: Cases>(alloc: Global, input: &str) -> Result<String, OutOfMemory> {
    let mut out = String::new(alloc);
    put_cases::<C>(alloc, &mut out, input)?;
    Ok(out)
}
