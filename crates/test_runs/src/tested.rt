// What is asked of a program, of a checker and of sessions. No clause says anything of them: they are tested.
use edge_io::{MemorySink, Sink, Source};
use frac_core::OutOfMemory;
use std::alloc::Global;

/// A program over sources and sinks.
pub trait Program {
    /// Runs it with these words, and gives the word of how the run ends.
    fn run<S: Source, K: Sink>(
        alloc: Global,
        words: &[String],
        source: &mut S,
        sink: &mut K,
    ) -> &'static str;
}

/// A checker of claims over sources and sinks.
pub trait Checker {
    /// Reads a problem and a claim, and puts the verdict.
    fn check<S: Source, K: Sink>(alloc: Global, source: &mut S, sink: &mut K);
}

/// What an answer is.
#[derive(Clone, Copy)]
pub enum Kind {
    /// The line is outside the grammar.
    Outside,
    /// A problem.
    Problem,
    /// A certificate: its problem, and the claim.
    Certificate,
    /// A refusal by a conflict.
    Conflict,
    /// Another reply.
    Other,
}

/// What a line is answered.
#[derive(Drop)]
pub struct Answer {
    pub kind: Kind,
    /// The text, which is empty outside the grammar.
    pub text: Vec<u8>,
    /// Of a refusal with a path, two lines: where that stopped, and how long it is. Else it is empty.
    pub stop: String,
}

impl Answer {
    /// An answer without text.
    pub fn new(alloc: Global, kind: Kind) -> Answer {
        Answer {
            kind,
            text: Vec::new(alloc),
            stop: String::new(alloc),
        }
    }
}

/// A session, which takes lines, and the checker of what it is answered.
pub trait Talk: Checker {
    /// Takes a line, and gives what it is answered.
    fn answer(&mut self, alloc: Global, line: &str) -> Result<Answer, OutOfMemory>;

    /// The problem that a line would solve, or why it is refused before.
    fn problem(&self, alloc: Global, line: &str) -> Result<Answer, OutOfMemory>;

    /// The text of the problem that is held.
    fn held(&self, alloc: Global) -> Result<Vec<u8>, OutOfMemory>;

    /// The text of the rows, which tells the numbers of attributes.
    fn rows(&self, alloc: Global) -> Result<Vec<u8>, OutOfMemory>;

    /// Puts the frames, and says whether all were put.
    fn put_frames(&self, sink: &mut MemorySink) -> bool;
}
