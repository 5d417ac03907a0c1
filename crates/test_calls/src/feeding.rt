// What a feed gives.
ghost use Rattle.std.specs.Prelude.{OnOk};
ghost use Rattle.edge_io.specs.Feed.{IsOpen};

use edge_io::{Failed, Feed, Piece, Source};
use frac_core::OutOfMemory;

// The longest line that is shown byte by byte.
const SHOWN: usize = 8;

// Appends the bytes of a short line, or the length of another.
fn put_line(out: &mut String, line: &[u8]) -> Result<(), OutOfMemory> {
    let length = line.len();
    if length > SHOWN {
        Ok(writeln!(out, "line of {length}")?)
    } else {
        Ok(writeln!(out, "line {line:?}")?)
    }
}

// Appends what a piece is: a line, or that the line was too long.
fn put_piece(out: &mut String, piece: Piece<'_>) -> Result<(), OutOfMemory> {
    match piece {
        Piece::Line(line) => put_line(out, line),
        Piece::Long => Ok(writeln!(out, "long")?),
    }
}

// Appends the lines that end in what is pending.
fn put_pending(out: &mut String, feed: &mut Feed) -> Result<(), OutOfMemory>
    ensures { OnOk result (IsOpen feed.new) }
{
    while let Some(piece) = feed.next() {
        put_piece(out, piece)?;
    }
    Ok(())
}

// Whether there may be more, and a line that says so where the pull failed.
fn goes_on(out: &mut String, taken: Result<usize, Failed>) -> Result<bool, OutOfMemory> {
    match taken {
        Ok(count) => Ok(count > 0),
        Err(Failed) => {
            writeln!(out, "failed")?;
            Ok(false)
        }
    }
}

/// Appends what a feed gives that takes at most `most` bytes at once, until its source is at its end or
/// fails.
pub fn put_feed<S: Source>(
    out: &mut String,
    feed: &mut Feed,
    source: &mut S,
    most: usize,
) -> Result<(), OutOfMemory> {
    for _ in 0..u64::MAX {
        put_pending(out, feed)?;
        let taken = feed.fill(source, most.max(1));
        if !goes_on(out, taken)? {
            break;
        }
    }
    Ok(())
}

/// Appends what is left as the last line.
pub fn put_last(out: &mut String, feed: &mut Feed) -> Result<(), OutOfMemory> {
    put_pending(out, feed)?;
    match feed.end() {
        Some(piece) => put_piece(out, piece),
        None => Ok(writeln!(out, "no last line")?),
    }
}
