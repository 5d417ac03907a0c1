// The adapters over std's readers and writers.
ghost use Rattle.std.specs.Prelude.{◌≡◌};

use crate::{Failed, Sink, Source};
use std::io::{Read, Write};

/// A reader of std as a source. Each error of the reader is a fault.
#[derive(Drop)]
pub struct StdSource<R> {
    inner: R,
    pulls: u64,
    faults: u64,
}

impl<R> StdSource<R> {
    /// The source of what this reader reads, with no pull and no fault so far.
    pub fn new(inner: R) -> Self
        ensures { result ≡ record { inner = inner; pulls = 0; faults = 0 } }
    {
        StdSource {
            inner,
            pulls: 0,
            faults: 0,
        }
    }
}

impl<R: Read> Source for StdSource<R> {
    ghost left = { λ s. R.remaining s.inner };

    ghost pulls = { λ s. s.pulls };

    ghost faults = { λ s. s.faults };

    fn pull(&mut self, buf: &mut [u8]) -> Result<usize, Failed> {
        self.pulls = self.pulls.saturating_add(1);
        match self.inner.read(buf) {
            Ok(count) => Ok(count),
            Err(_) => {
                self.faults = self.faults.saturating_add(1);
                Err(Failed)
            }
        }
    }
}

/// A writer of std as a sink. Each error of the writer is a fault, and so is a write that takes nothing.
#[derive(Drop)]
pub struct StdSink<W> {
    inner: W,
    faults: u64,
}

impl<W> StdSink<W> {
    /// The sink that writes to this writer, with no fault so far.
    pub fn new(inner: W) -> Self
        ensures { result ≡ record { inner = inner; faults = 0 } }
    {
        StdSink { inner, faults: 0 }
    }

    /// The writer.
    pub fn into_inner(self) -> W
        ensures { result ≡ self.inner }
    {
        let StdSink { inner, faults: _ } = self;
        inner
    }
}

impl<W: Write> Sink for StdSink<W> {
    ghost held = { λ s. W.contents s.inner };

    ghost faults = { λ s. s.faults };

    fn put(&mut self, piece: &[u8]) -> Result<usize, Failed> {
        match self.inner.write(piece) {
            Ok(count) if count > 0 => Ok(count),
            _ => {
                self.faults = self.faults.saturating_add(1);
                Err(Failed)
            }
        }
    }
}
