// Runs over sources and sinks in memory, and over std's.
//
// What a function owns ends at each of its ways out, and that makes proofs long: a source, a sink, a list of
// words are made by one function and lent to another.
use crate::inputs::{source_of, words_of};
use crate::options::{has_option, number_after};
use crate::tested::Program;
use edge_io::{MemorySink, MemorySource, StdSink, StdSource};
use frac_core::OutOfMemory;
use std::alloc::Global;
use std::io::{Cursor, Write};
use test_text::put_text;

/// Appends what a run left, and how it ended.
pub fn put_ended(out: &mut String, text: &[u8], status: &str) -> Result<(), OutOfMemory> {
    put_text(out, text)?;
    Ok(writeln!(out, "-- {status}")?)
}

// What a run is tried with: its words, how its source and its sink are, and its input.
#[derive(Clone, Copy)]
struct Case<'a> {
    words: &'a [String],
    options: &'a str,
    text: &'a [u8],
}

// Appends what a run from this source leaves in this sink, and how it ends.
fn put_in_memory<P: Program>(
    alloc: Global,
    out: &mut String,
    words: &[String],
    source: &mut MemorySource,
    sink: &mut MemorySink,
) -> Result<(), OutOfMemory> {
    let status = P::run(alloc, words, source, sink);
    put_ended(out, sink.bytes(), status)
}

// The same in a sink with the room that the options say.
fn put_from<P: Program>(
    alloc: Global,
    out: &mut String,
    case: Case<'_>,
    source: &mut MemorySource,
) -> Result<(), OutOfMemory> {
    let room = number_after(case.options, "room").unwrap_or(65_536);
    let mut sink = MemorySink::new(alloc, room, Vec::new(alloc))?;
    put_in_memory::<P>(alloc, out, case.words, source, &mut sink)
}

// Appends how a run from this source ends, and how often it was pulled.
fn put_pulled<P: Program>(
    alloc: Global,
    out: &mut String,
    case: Case<'_>,
    source: &mut MemorySource,
) -> Result<(), OutOfMemory> {
    put_from::<P>(alloc, out, case, source)?;
    let pulls = source.calls();
    Ok(writeln!(out, "-- {pulls} pulls")?)
}

// Appends how a run in memory ends, and how often its source was pulled.
fn put_counted<P: Program>(
    alloc: Global,
    out: &mut String,
    case: Case<'_>,
) -> Result<(), OutOfMemory> {
    let mut source = source_of(alloc, case.options, case.text)?;
    put_pulled::<P>(alloc, out, case, &mut source)
}

// How a run ends that reads by a reader of std and writes by a writer of std.
fn status_in_std<P: Program, W: Write>(
    alloc: Global,
    case: Case<'_>,
    sink: &mut StdSink<W>,
) -> &'static str {
    let mut source = StdSource::new(Cursor::new(case.text));
    P::run(alloc, case.words, &mut source, sink)
}

// How such a run ends that writes to a place with an end.
fn status_in_room<P: Program>(alloc: Global, case: Case<'_>, room: &mut [u8]) -> &'static str {
    let mut sink = StdSink::new(Cursor::new(room));
    status_in_std::<P, _>(alloc, case, &mut sink)
}

// Appends how such a run ends.
fn put_in_room<P: Program>(
    alloc: Global,
    out: &mut String,
    case: Case<'_>,
    room: &mut [u8],
) -> Result<(), OutOfMemory> {
    let status = status_in_room::<P>(alloc, case, room);
    put_ended(out, room, status)
}

// The same of a place with so many bytes.
fn put_in_size<P: Program>(
    alloc: Global,
    out: &mut String,
    case: Case<'_>,
    size: usize,
) -> Result<(), OutOfMemory> {
    let mut room = vec![in alloc; b' '; size]?;
    put_in_room::<P>(alloc, out, case, &mut room)
}

// Appends how a run by std ends that writes to a list.
fn put_in_list<P: Program>(
    alloc: Global,
    out: &mut String,
    case: Case<'_>,
) -> Result<(), OutOfMemory> {
    let mut sink = StdSink::new(Vec::new(alloc));
    let status = status_in_std::<P, _>(alloc, case, &mut sink);
    put_ended(out, &sink.into_inner(), status)
}

// Appends how a run by std ends.
fn put_in_std<P: Program>(
    alloc: Global,
    out: &mut String,
    case: Case<'_>,
) -> Result<(), OutOfMemory> {
    match number_after(case.options, "room") {
        Some(size) => put_in_size::<P>(alloc, out, case, size),
        None => put_in_list::<P>(alloc, out, case),
    }
}

// Appends how a run ends, and over a source in memory how often that was pulled.
fn put_case<P: Program>(
    alloc: Global,
    out: &mut String,
    case: Case<'_>,
) -> Result<(), OutOfMemory> {
    if has_option(case.options, "std") {
        put_in_std::<P>(alloc, out, case)
    } else {
        put_counted::<P>(alloc, out, case)
    }
}

/// Appends what a run writes and how it ends, and over a source in memory how often that was pulled.
pub fn put_run<P: Program>(
    alloc: Global,
    out: &mut String,
    heading: &str,
    text: &[u8],
) -> Result<(), OutOfMemory> {
    let (words, options) = heading.split_once(";").unwrap_or((heading, ""));
    let words = words_of(alloc, words)?;
    let case = Case {
        words: &words,
        options,
        text,
    };
    put_case::<P>(alloc, out, case)
}
