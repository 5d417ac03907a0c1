// The cases of the input and what each leads to.
use crate::table::put_table;
use crate::tested::Tested;
use frac_core::OutOfMemory;
use std::alloc::Global;
use test_runs::put_run;
use test_text::{Cases, cases_text, push_escaped};

// Appends what the text below a heading leads to.
fn put_text_below(
    alloc: Global,
    out: &mut String,
    heading: &str,
    text: &[u8],
) -> Result<(), OutOfMemory> {
    match heading {
        "= table" => put_table::<Tested>(alloc, out, text),
        _ => put_run::<Tested>(alloc, out, heading, text),
    }
}

// The headings, which stand here without their first `=`.
struct Headings;

impl Cases for Headings {
    fn put_below(
        alloc: Global,
        out: &mut String,
        heading: &str,
        lines: &str,
    ) -> Result<(), OutOfMemory> {
        let mut text = Vec::new(alloc);
        push_escaped(&mut text, lines)?;
        put_text_below(alloc, out, heading, &text)
    }
}

/// What the program prints.
pub fn printed(alloc: Global, input: &str) -> Result<String, OutOfMemory> {
    cases_text::<Headings>(alloc, input)
}
