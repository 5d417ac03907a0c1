// A source and a sink in memory, for tests: bytes, sizes and the calls that fail are given.
ghost use Rattle.std.specs.Prelude.{◌≡◌, ◌≤◌, ◌<◌, [], Some, drop, vec_len, IfOk, length};
ghost use Rattle.std.specs.Io.{ReadsAtMost};
ghost use Rattle.std.specs.Io.KnownBytes.{ReadConsumes, WriteAppends};
ghost use Rattle.edge_io.specs.Cause.{HasCause, next_count};
ghost use Rattle.edge_io.specs.Memory.{size_of, PullsMost, PutsMost};

use crate::{Failed, Sink, Source};
use frac_core::OutOfMemory;
use std::alloc::Global;
use std::marker::Model;

/// Bytes in memory as a source, for tests: the greatest size of each call and the calls that fail are given.
///
/// A contract sees it as the bytes that are left, those two lists, the number of the next call, and the count
/// of faults.
#[derive(Drop)]
pub struct MemorySource {
    bytes: Vec<u8>,
    at: usize,
    sizes: Vec<usize>,
    fails: Vec<u64>,
    calls: u64,
    faults: u64,
}

impl Model for MemorySource {
    ghost use Rattle.std.specs.Prelude.{◌≤◌, drop, vec_len};
    ghost use Rattle.edge_io.specs.Memory.{MemoryInput};

    ghost Value = { MemoryInput };

    ghost view = { λ s. record {
      left = drop s.at s.bytes.items;
      sizes = s.sizes.items;
      fails = s.fails.items;
      call = s.calls;
      faults = s.faults;
    } };

    ghost invariant = { λ s. s.at ≤ vec_len s.bytes };
}

// The greatest size of a call: a missing or zero size means no bound.
fn size_of_call(sizes: &[usize], call: u64) -> usize
    ensures some { 0 < result }
    ensures value { result ≡ size_of sizes.now call }
{
    match sizes.get(call as usize) {
        Some(size) if *size > 0 => *size,
        _ => usize::MAX,
    }
}

impl MemorySource {
    /// A source of these bytes, whose calls are counted from 0. The call number k takes at most `sizes[k]`
    /// bytes, where that is there and not 0, and fails where `fails` has k.
    pub fn new(bytes: Vec<u8>, sizes: Vec<usize>, fails: Vec<u64>) -> Self
        ensures { result
            ≡ record { left = bytes.items; sizes = sizes.items; fails = fails.items; call = 0; faults = 0 } }
    {
        MemorySource {
            bytes,
            at: 0,
            sizes,
            fails,
            calls: 0,
            faults: 0,
        }
    }

    /// How often it was pulled.
    pub fn calls(&self) -> u64
        ensures { result ≡ self.now.call }
    {
        self.calls
    }
}

impl Source for MemorySource {
    ghost left = { λ s. Some s.left };

    ghost pulls = { λ s. s.call };

    ghost faults = { λ s. s.faults };

    /// Takes as many bytes as the size of the call, the bytes left and `buf` allow. It fails only in a call
    /// that is listed.
    fn pull(&mut self, buf: &mut [u8]) -> Result<usize, Failed>
        requires { 0 < length buf.old }
        ensures bound { ReadsAtMost result buf.new }
        ensures bytes { ReadConsumes (Some self.old.left) (Some self.new.left) result buf.new }
        ensures counted { self.new.call ≡ next_count self.old.call }
        ensures cause { HasCause self.old.faults self.new.faults result }
        ensures most { PullsMost self.old self.new (length buf.old) result }
    {
        let call = self.calls;
        self.calls = call.saturating_add(1);
        if self.fails.contains(&call) {
            self.faults = self.faults.saturating_add(1);
            return Err(Failed);
        }
        let size = size_of_call(&self.sizes, call);
        let left = &self.bytes[self.at..];
        let count = size.min(buf.len()).min(left.len());
        buf[..count].copy_from_slice(&left[..count]);
        self.at += count;
        Ok(count)
    }
}

/// Room in memory as a sink, for tests: the room and the calls that fail are given.
///
/// A contract sees it as the bytes that it holds, its room, that list, the number of the next call, and the
/// count of faults.
#[derive(Drop)]
pub struct MemorySink {
    bytes: Vec<u8>,
    room: usize,
    fails: Vec<u64>,
    calls: u64,
    faults: u64,
}

impl Model for MemorySink {
    ghost use Rattle.std.specs.Prelude.{◌≤◌, vec_len, vec_capacity};
    ghost use Rattle.edge_io.specs.Memory.{MemoryOutput};

    ghost Value = { MemoryOutput };

    ghost view = { λ s. record {
      held = s.bytes.items;
      room = s.room;
      fails = s.fails.items;
      call = s.calls;
      faults = s.faults;
    } };

    ghost invariant = { λ s. (vec_len s.bytes ≤ s.room) × (s.room ≤ vec_capacity s.bytes) };
}

impl MemorySink {
    /// An empty sink with room for so many bytes, whose calls are counted from 0. The call number k fails
    /// where `fails` has k, and each call fails while the sink is full.
    pub fn new(alloc: Global, room: usize, fails: Vec<u64>) -> Result<Self, OutOfMemory>
        ensures { IfOk result (λ s. s
            ≡ record { held = []; room = room; fails = fails.items; call = 0; faults = 0 }) }
    {
        Ok(MemorySink {
            bytes: Vec::with_capacity(alloc, room)?,
            room,
            fails,
            calls: 0,
            faults: 0,
        })
    }

    /// The bytes that it holds, in the order in which they came.
    pub fn bytes(&self) -> &[u8]
        ensures { result.now ≡ self.now.held }
    {
        &self.bytes
    }
}

impl Sink for MemorySink {
    ghost held = { λ s. Some s.held };

    ghost faults = { λ s. s.faults };

    /// Appends as much of `piece` as there is room for. It fails only in a call that is listed, and while it
    /// is full.
    fn put(&mut self, piece: &[u8]) -> Result<usize, Failed>
        requires { 0 < length piece.now }
        ensures bound { IfOk result (λ n. (0 < n) × (n ≤ length piece.now)) }
        ensures bytes { WriteAppends (Some self.old.held) (Some self.new.held) result piece.now }
        ensures cause { HasCause self.old.faults self.new.faults result }
        ensures most { PutsMost self.old self.new (length piece.now) result }
    {
        let call = self.calls;
        self.calls = call.saturating_add(1);
        let room = self.room - self.bytes.len();
        if room == 0 || self.fails.contains(&call) {
            self.faults = self.faults.saturating_add(1);
            return Err(Failed);
        }
        let count = room.min(piece.len());
        match self.bytes.extend_from_slice(&piece[..count]) {
            Ok(()) => Ok(count),
            Err(_) => unreachable!(),
        }
    }
}
