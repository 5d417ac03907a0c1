// Pulls from sources in memory, of std, and of a broken stream.
use crate::broken::Broken;
use crate::words::{fails_of, number_of};
use edge_io::{Failed, MemorySource, Source, StdSource};
use frac_core::OutOfMemory;
use std::alloc::Global;
use std::io::Cursor;

// The pull alone: nothing here needs another clause of it than how much it gives at most.
fn count_pulled<S: Source>(source: &mut S, piece: &mut [u8]) -> Result<usize, Failed> {
    if piece.is_empty() {
        return Ok(0);
    }
    source.pull(piece)
}

// Appends how many bytes a pull gave, and the bytes that then stand in front.
fn put_pulled(
    out: &mut String,
    piece: &[u8],
    pulled: Result<usize, Failed>,
) -> Result<(), OutOfMemory> {
    let Ok(count) = pulled else {
        return Ok(writeln!(out, "failed")?);
    };
    let bytes = piece.get(..count).unwrap_or(piece);
    let text = std::str::from_utf8(bytes).unwrap_or("");
    Ok(writeln!(out, "{count} {text}")?)
}

// Appends what a pull of so many bytes gives.
fn put_pull<S: Source>(
    alloc: Global,
    out: &mut String,
    source: &mut S,
    most: usize,
) -> Result<(), OutOfMemory> {
    let mut piece = vec![in alloc; b'-'; most]?;
    let pulled = count_pulled(source, &mut piece);
    put_pulled(out, &piece, pulled)
}

// Appends what a pull for each line gives.
fn put_pulls<S: Source>(
    alloc: Global,
    out: &mut String,
    source: &mut S,
    calls: &str,
) -> Result<(), OutOfMemory> {
    for call in calls.lines() {
        put_pull(alloc, out, source, call.parse::<usize>().unwrap_or(1))?;
    }
    Ok(())
}

// The sizes that the words say, and 0 for one that says none.
fn sizes_of(alloc: Global, words: &str) -> Result<Vec<usize>, OutOfMemory> {
    let mut sizes = Vec::new(alloc);
    for size in words.split_whitespace() {
        sizes.push(number_of(size))?;
    }
    Ok(sizes)
}

// A source in memory, with the number of the pull that fails and the sizes of all.
fn source_over(alloc: Global, bytes: Vec<u8>, words: &str) -> Result<MemorySource, OutOfMemory> {
    let (fail, sizes) = words.split_once(" ").unwrap_or((words, ""));
    let sizes = sizes_of(alloc, sizes)?;
    let fails = fails_of(alloc, fail)?;
    Ok(MemorySource::new(bytes, sizes, fails))
}

// A source in memory of a text, behind which the same stands.
fn source_of(alloc: Global, words: &str) -> Result<MemorySource, OutOfMemory> {
    let (text, rest) = words.split_once(" ").unwrap_or((words, ""));
    source_over(alloc, text.as_bytes().to_vec(alloc)?, rest)
}

/// Appends what pulls from a source in memory give.
pub fn put_source(
    alloc: Global,
    out: &mut String,
    words: &str,
    calls: &str,
) -> Result<(), OutOfMemory> {
    let mut source = source_of(alloc, words)?;
    put_pulls(alloc, out, &mut source, calls)
}

/// Appends what pulls from a reader of std give.
pub fn put_std_source(
    alloc: Global,
    out: &mut String,
    text: &str,
    calls: &str,
) -> Result<(), OutOfMemory> {
    let mut source = StdSource::new(Cursor::new(text.as_bytes()));
    put_pulls(alloc, out, &mut source, calls)
}

/// Appends what pulls from a stream give that fails after one byte.
pub fn put_broken_source(alloc: Global, out: &mut String, calls: &str) -> Result<(), OutOfMemory> {
    let mut source = StdSource::new(Broken { is_used: false });
    put_pulls(alloc, out, &mut source, calls)
}
