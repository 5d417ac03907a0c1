// Feeds over sources in memory.
//
// A line is `BYTES SIZE FAIL MOST`: the bytes of the source, a greatest size of its pulls, the number of the
// pull that fails, counted from 0, and the most bytes that are asked for at once. 0 is no greatest size, and
// `-` is no failing pull. BYTES is a list of numbers with commas between them, and `97*4096` is 4,096 times
// the byte 97.
use crate::feeding::{put_feed, put_last};
use crate::words::{fails_of, number_of};
use edge_io::{Feed, MemorySource};
use frac_core::OutOfMemory;
use std::alloc::Global;

// Appends a byte, or so many of it where a number says so.
fn push_run(bytes: &mut Vec<u8>, run: &str) -> Result<(), OutOfMemory> {
    let (byte, times) = run.split_once("*").unwrap_or((run, "1"));
    let Ok(byte) = byte.parse::<u8>() else {
        return Ok(());
    };
    for _ in 0..number_of(times) {
        bytes.push(byte)?;
    }
    Ok(())
}

// The bytes that a list of numbers stands for.
fn bytes_of(alloc: Global, list: &str) -> Result<Vec<u8>, OutOfMemory> {
    let mut bytes = Vec::new(alloc);
    for run in list.split(",") {
        push_run(&mut bytes, run)?;
    }
    Ok(bytes)
}

// A source of these bytes. The words are the greatest size of its pulls, and the number of one that fails or
// `-`.
fn source_over(alloc: Global, bytes: Vec<u8>, words: &str) -> Result<MemorySource, OutOfMemory> {
    let (size, fail) = words.split_once(" ").unwrap_or((words, "-"));
    let sizes = vec![in alloc; number_of(size); bytes.len()]?;
    let fails = fails_of(alloc, fail)?;
    Ok(MemorySource::new(bytes, sizes, fails))
}

// A source of the bytes of a list, behind which the same stands.
fn source_of(alloc: Global, words: &str) -> Result<MemorySource, OutOfMemory> {
    let (list, words) = words.split_once(" ").unwrap_or((words, ""));
    source_over(alloc, bytes_of(alloc, list)?, words)
}

// Appends what a feed gives that takes at most so many bytes at once, and how many pulls it took.
fn put_fed(
    out: &mut String,
    feed: &mut Feed,
    source: &mut MemorySource,
    most: usize,
) -> Result<(), OutOfMemory> {
    put_feed(out, feed, source, most)?;
    let pulls = source.calls();
    writeln!(out, "pulls {pulls}")?;
    put_last(out, feed)
}

// The same of a feed that begins here.
fn put_source(
    alloc: Global,
    out: &mut String,
    source: &mut MemorySource,
    most: usize,
) -> Result<(), OutOfMemory> {
    let mut feed = Feed::new(alloc)?;
    put_fed(out, &mut feed, source, most)
}

// Appends the line and what its feed gives.
fn put_case(alloc: Global, out: &mut String, case: &str) -> Result<(), OutOfMemory> {
    writeln!(out, "= {case}")?;
    let (words, most) = case.rsplit_once(" ").unwrap_or((case, ""));
    let mut source = source_of(alloc, words)?;
    put_source(alloc, out, &mut source, number_of(most))
}

/// Appends each line and what its feed gives.
pub fn put_feeds(alloc: Global, out: &mut String, calls: &str) -> Result<(), OutOfMemory> {
    for case in calls.lines() {
        put_case(alloc, out, case)?;
    }
    Ok(())
}
