// The cases of the input and what each leads to.
use crate::feeds::put_feeds;
use crate::sinks::{put_broken_sink, put_sink, put_std_sink};
use crate::sources::{put_broken_source, put_source, put_std_source};
use crate::tables::{put_metrics, put_names, put_own_names};
use crate::views::put_views;
use frac_core::OutOfMemory;
use std::alloc::Global;
use test_text::{Cases, cases_text};

// Appends what the calls on streams answer.
fn put_streams(
    alloc: Global,
    out: &mut String,
    heading: &str,
    calls: &str,
) -> Result<(), OutOfMemory> {
    match heading.split_once(" ") {
        Some(("source", words)) => put_source(alloc, out, words, calls),
        Some(("sink", words)) => put_sink(alloc, out, words, calls),
        _ => put_lone(alloc, out, heading, calls),
    }
}

// Appends what the calls on streams without further words answer.
fn put_lone(
    alloc: Global,
    out: &mut String,
    heading: &str,
    calls: &str,
) -> Result<(), OutOfMemory> {
    match heading {
        "broken source" => put_broken_source(alloc, out, calls),
        "broken sink" => put_broken_sink(out, calls),
        _ => put_std(alloc, out, heading, calls),
    }
}

// Appends what the calls on streams of std answer.
fn put_std(alloc: Global, out: &mut String, heading: &str, calls: &str) -> Result<(), OutOfMemory> {
    if let Some(text) = heading.strip_prefix("std source ") {
        put_std_source(alloc, out, text, calls)
    } else if let Some(room) = heading.strip_prefix("std sink ") {
        put_std_sink(alloc, out, room, calls)
    } else {
        Ok(())
    }
}

// Appends what the calls below a heading answer.
fn put_calls(
    alloc: Global,
    out: &mut String,
    heading: &str,
    calls: &str,
) -> Result<(), OutOfMemory> {
    match heading {
        "metrics" => put_metrics(alloc, out, calls),
        "views" => put_views(alloc, out, calls),
        "own names" => put_own_names(alloc, out, calls),
        "feeds" => put_feeds(alloc, out, calls),
        _ => put_others(alloc, out, heading, calls),
    }
}

// Appends what the calls on names or streams answer.
fn put_others(
    alloc: Global,
    out: &mut String,
    heading: &str,
    calls: &str,
) -> Result<(), OutOfMemory> {
    match heading.strip_prefix("names ") {
        Some(limit) => put_names(alloc, out, limit, calls),
        None => put_streams(alloc, out, heading, calls),
    }
}

// The headings.
struct Headings;

impl Cases for Headings {
    fn put_below(
        alloc: Global,
        out: &mut String,
        heading: &str,
        lines: &str,
    ) -> Result<(), OutOfMemory> {
        put_calls(alloc, out, heading, lines.strip_prefix("\n").unwrap_or(""))
    }
}

/// What the program prints.
pub fn printed(alloc: Global, input: &str) -> Result<String, OutOfMemory> {
    cases_text::<Headings>(alloc, input)
}
