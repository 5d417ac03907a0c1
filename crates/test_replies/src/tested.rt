// The program, as `test_runs` asks for it.
use edge_io::{Sink, Source};
use layout_cli::{Status, run};
use std::alloc::Global;
use test_runs::Program;

/// The program.
pub struct Tested;

fn word(status: Status) -> &'static str {
    match status {
        Status::Done => "Done",
        Status::Refused => "Refused",
        Status::Usage => "Usage",
        Status::ReadFault => "ReadFault",
        Status::WriteFault => "WriteFault",
        Status::OutOfMemory => "OutOfMemory",
        Status::TooLong => "TooLong",
    }
}

impl Program for Tested {
    fn run<S: Source, K: Sink>(
        alloc: Global,
        words: &[String],
        source: &mut S,
        sink: &mut K,
    ) -> &'static str {
        word(run(alloc, words, source, sink))
    }
}
