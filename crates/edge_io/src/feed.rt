// A source cut into lines, of which none is kept that is too long.
ghost use Rattle.std.specs.Prelude.{◌≡◌, ◌≤◌, ◌<◌, ◌+◌, ◌-◌, ◌++◌, ℕ, List, cond, length, take, slice_index};
ghost use Rattle.std.specs.Prelude.{slice_range, IfOk, OnErr, IfSome, IfNone, None};
ghost use Rattle.std.specs.Io.KnownBytes.{Keeps, Consumes, IsAtEnd};
ghost use Rattle.span_text.specs.Bytes.{newline};
ghost use Rattle.edge_io.specs.Cause.{HasCause, next_count};
ghost use Rattle.edge_io.specs.Feed.{nothing, given_as, IsOpen, IsUnended};
ghost use Rattle.edge_io.specs.Feeding.{shown};
ghost use Rattle.edge_io.specs.Constants.{ConstantsAreAsSaid};

use crate::{Failed, Source};
use frac_core::OutOfMemory;
use span_text::without_return;
use std::alloc::Global;
use std::marker::Model;

/// The greatest length of a line, its end not counted.
pub const LINE_LIMIT: usize = 4096;

// The room for what is pending.
const ROOM: usize = 2 * LINE_LIMIT;

/// A line without its end, or a line that is too long.
#[derive(Clone, Copy, Debug, PartialEq, Eq)]
pub enum Piece<'a> {
    Line(&'a [u8]),
    Long,
}

/// Takes bytes from a source and gives the lines that they make, each as soon as its end is there.
///
/// A contract sees it as the bytes that were taken and neither given nor given up, and as a flag that the
/// beginning of a line that is too long was given up.
#[derive(Drop)]
pub struct Feed {
    buffer: Vec<u8>,
    start: usize,
    end: usize,
    is_cut: bool,
}

impl Model for Feed {
    ghost use Rattle.std.specs.Prelude.{◌≡◌, ◌≤◌, vec_len, slice_range};
    ghost use Rattle.edge_io.specs.Feed.{Pending};
    ghost use Rattle.edge_io.specs.declared.feed.TheConstants.{ROOM};

    ghost Value = { Pending };

    ghost view = { λ f. record { bytes = slice_range f.buffer.items f.start f.end; is_cut = f.is_cut } };

    ghost invariant = { λ f. (f.start ≤ f.end) × (f.end ≤ vec_len f.buffer) × (vec_len f.buffer ≡ ROOM) };
}

impl Feed {
    ghost use Rattle.std.specs.Borrow.{sem};
    ghost use Rattle.edge_io.specs.Feeding.{Takes};
    ghost use Rattle.edge_io.specs.Lending.{GivesNext, GivesLast};

    /// A feed with nothing pending.
    pub fn new(alloc: Global) -> Result<Self, OutOfMemory>
        ensures { IfOk result (λ feed. feed ≡ nothing) }
    {
        Ok(Feed {
            buffer: vec![in alloc; 0; ROOM]?,
            start: 0,
            end: 0,
            is_cut: false,
        })
    }

    /// One pull of at most `most` bytes, which then stand behind what is pending, and their count; there are
    /// none only at the end of the source. No line may end in what is pending, as after a `next` that gave
    /// none. `Failed` comes only from the source, and then the feed is as before.
    pub fn fill<S: Source>(&mut self, source: &mut S, most: usize) -> Result<usize, Failed>
        requires some { 0 < most }
        requires open { IsOpen self.old }
        ensures ok { IfOk result (Takes self.old self.new (S.left source.old) (S.left source.new) most) }
        ensures err { OnErr result ((self.new ≡ self.old) × Keeps (S.left source.old) (S.left source.new)) }
        ensures one { S.pulls source.new ≡ next_count (S.pulls source.old) }
        ensures cause { HasCause (S.faults source.old) (S.faults source.new) result }
    {
        let len = self.end - self.start;
        move_to_front(&mut self.buffer, self.start, self.end);
        self.start = 0;
        self.end = len;
        let room = most.min(ROOM - len);
        let count = pull_behind(source, &mut self.buffer, len, room)?;
        self.end = len + count;
        Ok(count)
    }

    /// The line that ends first in what is pending, which it leaves, or `Long` where that line is too long.
    /// There is none exactly where no line ends there. What is pending is given up then where it is the
    /// beginning of a line that is too long.
    pub fn next(&mut self) -> Option<Piece<'_>>
        ensures* next { sem 𝓛 (GivesNext self.entry result) }
    {
        let (start, end, was_cut) = (self.start, self.end, self.is_cut);
        match end_of_line(&self.buffer[start..end]) {
            Some(len) => {
                self.start = start + len + 1;
                self.is_cut = false;
                Some(piece_of(was_cut, without_return(&self.buffer[start..start + len])))
            }
            None => {
                if was_cut || end - start > LINE_LIMIT + 1 {
                    self.start = 0;
                    self.end = 0;
                    self.is_cut = true;
                }
                None
            }
        }
    }

    /// What is pending as the last line, or `Long` where that is too long, and the feed as new. There is none
    /// exactly where nothing is pending of a line.
    pub fn end(&mut self) -> Option<Piece<'_>>
        requires { IsOpen self.old }
        ensures* last { sem 𝓛 (GivesLast self.entry result) }
    {
        let (start, end, was_cut) = (self.start, self.end, self.is_cut);
        self.start = 0;
        self.end = 0;
        self.is_cut = false;
        if was_cut || start < end {
            Some(piece_of(was_cut, &self.buffer[start..end]))
        } else {
            None
        }
    }
}

// Moves the bytes from `start` to `end` to the front.
fn move_to_front(buffer: &mut [u8], start: usize, end: usize)
    requires ordered { start ≤ end }
    requires within { end ≤ length buffer.old }
    ensures moved { slice_range buffer.new 0 (end - start) ≡ slice_range buffer.old start end }
    ensures len { length buffer.new ≡ length buffer.old }
{
    if start > 0 {
        buffer.copy_within(start..end, 0);
    }
}

// One pull of at most so many bytes, which then stand behind the first `len` bytes of the buffer.
fn pull_behind<S: Source>(
    source: &mut S,
    buffer: &mut [u8],
    len: usize,
    room: usize,
) -> Result<usize, Failed>
    requires some { 0 < room }
    requires within { len + room ≤ length buffer.old }
    ensures ok { IfOk result (λ n. (n ≤ room) × ((bytes : List ℕ) × (length bytes ≡ n)
        × (slice_range buffer.new 0 (len + n) ≡ slice_range buffer.old 0 len ++ bytes)
        × Consumes (S.left source.old) (S.left source.new) bytes
        × (n ≡ 0 → IsAtEnd (S.left source.new)))) }
    ensures err { OnErr result ((slice_range buffer.new 0 len ≡ slice_range buffer.old 0 len)
        × Keeps (S.left source.old) (S.left source.new)) }
    ensures size { length buffer.new ≡ length buffer.old }
    ensures one { S.pulls source.new ≡ next_count (S.pulls source.old) }
    ensures cause { HasCause (S.faults source.old) (S.faults source.new) result }
{
    let count = source.pull(&mut buffer[len..len + room])?;
    Ok(count)
}

// The index of the first line end, if there is one.
fn end_of_line(bytes: &[u8]) -> Option<usize>
    ensures within { IfSome result (λ i. i < length bytes.now) }
    ensures before { IfSome result (λ i. IsUnended (take i bytes.now)) }
    ensures at { IfSome result (λ i. slice_index bytes.now i ≡ newline) }
    ensures none { IfNone result (IsUnended bytes.now) }
{
    bytes.iter().position(|b| *b == b'\n')
}

// How a line is given, of which the beginning was given up or wasn't.
fn piece_of(is_cut: bool, line: &[u8]) -> Piece<'_>
    ensures { shown result ≡ cond is_cut None (given_as line.now) }
{
    if is_cut || line.len() > LINE_LIMIT {
        Piece::Long
    } else {
        Piece::Line(line)
    }
}

/// The constants that definitions and clauses cite by name are these numbers.
pub fn constants_are_as_said()
    ensures { ConstantsAreAsSaid }
{}
