//! Sources and sinks of bytes, with what they hold and a count of their faults as ghost members; and the
//! lines that a source makes, each as soon as its end is there.
//!
//! ```
//! let mut source = MemorySource::new(bytes, sizes, fails); // `one`, an end of line, and `two`
//! let mut feed = Feed::new(alloc)?;
//! feed.fill(&mut source, 100)?;                 // 7
//! feed.next();                                  // Some(Piece::Line(b"one"))
//! feed.next();                                  // None: no line ends in `two`
//! feed.end();                                   // Some(Piece::Line(b"two"))
//! ```
//!
//! Invariant: a [`Source`] gives each byte once and in order, a [`Sink`] appends, and the count of faults
//! never falls. A fault is a pull or a put that failed. The count tells a caller's contract why an answer
//! came: a `Failed` comes only where the count rose, or stands at its last value, 2^64 - 1.
//!
//! In reading order: `traits` (what a source and a sink promise), `put` (a whole piece), `standard` (over
//! std's readers and writers), `memory` (in memory, for tests), `feed`.
#![tactic(auto)]

mod feed;
mod memory;
mod put;
mod standard;
mod traits;

pub use feed::{Feed, LINE_LIMIT, Piece, constants_are_as_said};
pub use memory::{MemorySink, MemorySource};
pub use put::put_all;
pub use standard::{StdSink, StdSource};
pub use traits::{Failed, Sink, Source};
