// The cases of the input and what each leads to.
use crate::tested::Tested;
use frac_core::OutOfMemory;
use script_text::Version;
use std::alloc::Global;
use test_runs::{put_lines, put_paths};
use test_text::{Cases, cases_text, push_escaped};

// The headings, which stand here without their first `=`.
struct Headings;

fn version_of(heading: &str) -> Version {
    match heading == "session 2" || heading.starts_with("paths 2 ") {
        true => Version::Two,
        false => Version::One,
    }
}

// Appends what a text leads to in a session: the paths of a script, or the lines.
fn put_text_in(
    alloc: Global,
    out: &mut String,
    heading: &str,
    session: &mut Tested,
    text: &[u8],
) -> Result<(), OutOfMemory> {
    match heading.starts_with("paths ") {
        true => put_paths(alloc, out, session, text),
        false => put_lines(alloc, out, session, text),
    }
}

// Appends what the text below a heading leads to in a session of its own.
fn put_text_below(
    alloc: Global,
    out: &mut String,
    heading: &str,
    text: &[u8],
) -> Result<(), OutOfMemory> {
    let mut session = Tested::new(alloc, version_of(heading))?;
    put_text_in(alloc, out, heading, &mut session, text)
}

impl Cases for Headings {
    fn put_below(
        alloc: Global,
        out: &mut String,
        heading: &str,
        lines: &str,
    ) -> Result<(), OutOfMemory> {
        let mut text = Vec::new(alloc);
        push_escaped(&mut text, lines)?;
        put_text_below(alloc, out, heading, &text)
    }
}

/// What the program prints.
pub fn printed(alloc: Global, input: &str) -> Result<String, OutOfMemory> {
    cases_text::<Headings>(alloc, input)
}
