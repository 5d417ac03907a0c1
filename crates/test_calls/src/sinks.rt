// Puts into sinks in memory, of std, and of a broken stream.
use crate::broken::Broken;
use crate::words::{fails_of, number_of};
use edge_io::{Failed, MemorySink, Sink, StdSink, put_all};
use frac_core::OutOfMemory;
use std::alloc::Global;
use std::io::Cursor;
use test_text::put_shown;

// The put alone: nothing here needs a clause of it.
fn count_put<K: Sink>(sink: &mut K, piece: &[u8]) -> Result<usize, Failed> {
    if piece.is_empty() {
        return Ok(0);
    }
    sink.put(piece)
}

fn all_put<K: Sink>(sink: &mut K, piece: &[u8]) -> Result<(), Failed> {
    put_all(sink, piece)
}

// Appends what a put answers, for a line that is one.
fn put_put<K: Sink>(out: &mut String, sink: &mut K, call: &str) -> Result<(), OutOfMemory> {
    match call.split_once(" ") {
        Some(("put", text)) => put_shown(out, &count_put(sink, text.as_bytes())),
        Some(("all", text)) => put_shown(out, &all_put(sink, text.as_bytes())),
        _ => Ok(()),
    }
}

// Appends what a put for each line answers.
fn put_puts<K: Sink>(out: &mut String, sink: &mut K, calls: &str) -> Result<(), OutOfMemory> {
    for call in calls.lines() {
        writeln!(out, "{call}")?;
        put_put(out, sink, call)?;
    }
    Ok(())
}

// Appends what a sink holds, or nothing where that is no text.
fn put_held(out: &mut String, bytes: &[u8]) -> Result<(), OutOfMemory> {
    let text = std::str::from_utf8(bytes).unwrap_or("");
    Ok(writeln!(out, "holds {text}")?)
}

// A sink in memory with so much room, whose put of this number fails.
fn sink_of(alloc: Global, words: &str) -> Result<MemorySink, OutOfMemory> {
    let (room, fail) = words.split_once(" ").unwrap_or((words, ""));
    let fails = fails_of(alloc, fail)?;
    MemorySink::new(alloc, number_of(room), fails)
}

fn put_filled(out: &mut String, sink: &mut MemorySink, calls: &str) -> Result<(), OutOfMemory> {
    put_puts(out, sink, calls)?;
    put_held(out, sink.bytes())
}

/// Appends what puts into a sink in memory answer, and what it holds then.
pub fn put_sink(
    alloc: Global,
    out: &mut String,
    words: &str,
    calls: &str,
) -> Result<(), OutOfMemory> {
    let mut sink = sink_of(alloc, words)?;
    put_filled(out, &mut sink, calls)
}

// Puts into a place with an end.
fn put_into(out: &mut String, room: &mut [u8], calls: &str) -> Result<(), OutOfMemory> {
    let mut sink = StdSink::new(Cursor::new(room));
    put_puts(out, &mut sink, calls)
}

fn put_filled_room(out: &mut String, room: &mut [u8], calls: &str) -> Result<(), OutOfMemory> {
    put_into(out, room, calls)?;
    put_held(out, room)
}

/// Appends what puts into a writer of std answer, and what it holds then.
pub fn put_std_sink(
    alloc: Global,
    out: &mut String,
    room: &str,
    calls: &str,
) -> Result<(), OutOfMemory> {
    let mut room = vec![in alloc; b' '; number_of(room)]?;
    put_filled_room(out, &mut room, calls)
}

/// Appends what puts into a stream answer that fails after one byte, and whether it was used.
pub fn put_broken_sink(out: &mut String, calls: &str) -> Result<(), OutOfMemory> {
    let mut sink = StdSink::new(Broken { is_used: false });
    put_puts(out, &mut sink, calls)?;
    let is_used = sink.into_inner().is_used;
    Ok(writeln!(out, "used {is_used}")?)
}
