// A script over sources and sinks of which each call fails in turn.
//
// For each greatest size of a pull there are three lines: of runs whose pull number 0 fails, then number 1,
// and so on; of runs whose sink has room for no byte, then for one; and of runs whose put number 0 fails, and
// so on. Each line ends with the first run that ends as one without a fault. A line tells how many bytes each
// run leaves, with its status where that is another than the status before, and says `no front` of bytes that
// are no front of the whole output.
use edge_io::{MemorySink, MemorySource};
use frac_core::OutOfMemory;
use std::alloc::Global;
use test_runs::{Program, calls, put_ended, words_of};

// The greatest sizes of a pull.
const SIZES: [usize; 3] = [1, 2, 5];

// More than the calls of a run, and than the bytes that it leaves.
const AMPLE: usize = 1000;

// What a run leaves in its sink, and how it ends.
#[derive(Drop)]
struct Ended {
    text: Vec<u8>,
    status: &'static str,
}

// What may end a run early.
#[derive(Clone, Copy)]
enum Fault {
    FailingPull,
    Room,
    FailingPut,
}

impl Fault {
    fn word(self) -> &'static str {
        match self {
            Fault::FailingPull => "FailingPull",
            Fault::Room => "Room",
            Fault::FailingPut => "FailingPut",
        }
    }
}

// What all runs of a line of the table have: the word that they are run with, their script, the greatest size
// of a pull, and what may end them.
#[derive(Clone, Copy)]
struct Runs<'a> {
    words: &'a [String],
    script: &'a [u8],
    size: usize,
    fault: Fault,
}

impl Runs<'_> {
    // The call at which a pull fails, if one does.
    fn failing_pull(self, at: usize) -> Option<usize> {
        match self.fault {
            Fault::FailingPull => Some(at),
            _ => None,
        }
    }

    // The source of the script, with a fault at this call where pulls fail.
    fn source(self, alloc: Global, at: usize) -> Result<MemorySource, OutOfMemory> {
        let fails = calls(alloc, self.failing_pull(at))?;
        let sizes = vec![in alloc; self.size; AMPLE]?;
        Ok(MemorySource::new(self.script.to_vec(alloc)?, sizes, fails))
    }

    // The sink, with so much room or a fault at this call where one of these may end a run.
    fn sink(self, alloc: Global, at: usize) -> Result<MemorySink, OutOfMemory> {
        match self.fault {
            Fault::FailingPull => MemorySink::new(alloc, AMPLE, Vec::new(alloc)),
            Fault::Room => MemorySink::new(alloc, at, Vec::new(alloc)),
            Fault::FailingPut => MemorySink::new(alloc, AMPLE, calls(alloc, Some(at))?),
        }
    }

    // A run from this source into this sink.
    fn ended_in<P: Program>(
        self,
        alloc: Global,
        source: &mut MemorySource,
        sink: &mut MemorySink,
    ) -> Result<Ended, OutOfMemory> {
        let status = P::run(alloc, self.words, source, sink);
        let text = sink.bytes().to_vec(alloc)?;
        Ok(Ended { text, status })
    }

    // A run from this source.
    fn ended_from<P: Program>(
        self,
        alloc: Global,
        source: &mut MemorySource,
        at: usize,
    ) -> Result<Ended, OutOfMemory> {
        let mut sink = self.sink(alloc, at)?;
        self.ended_in::<P>(alloc, source, &mut sink)
    }

    // A run with a fault at this call, or with so much room.
    fn ended<P: Program>(self, alloc: Global, at: usize) -> Result<Ended, OutOfMemory> {
        let mut source = self.source(alloc, at)?;
        self.ended_from::<P>(alloc, &mut source, at)
    }

    // The same runs with this fault.
    fn with(self, fault: Fault) -> Self {
        Runs { fault, ..self }
    }
}

// A line of the table: its runs, and the one without a fault that they stand beside.
#[derive(Clone, Copy)]
struct Line<'a> {
    runs: Runs<'a>,
    whole: &'a Ended,
}

impl Line<'_> {
    // What stands behind the number of bytes where these are no front of the whole output.
    fn front(self, ended: &Ended) -> &'static str {
        if self.whole.text.starts_with(&ended.text) {
            ""
        } else {
            " no front"
        }
    }

    // Appends how many bytes a run leaves, and its status where that isn't the one before. Gives the status.
    fn put_ended(
        self,
        out: &mut String,
        ended: &Ended,
        before: &str,
    ) -> Result<&'static str, OutOfMemory> {
        let (blank, word) = if ended.status == before {
            ("", "")
        } else {
            (" ", ended.status)
        };
        let (count, front) = (ended.text.len(), self.front(ended));
        write!(out, "{blank}{word} {count}{front}")?;
        Ok(ended.status)
    }

    // Appends what the run leaves that has its fault at this call, or so much room. Gives its status.
    fn put_run<P: Program>(
        self,
        alloc: Global,
        out: &mut String,
        at: usize,
        before: &str,
    ) -> Result<&'static str, OutOfMemory> {
        let ended = self.runs.ended::<P>(alloc, at)?;
        self.put_ended(out, &ended, before)
    }

    // Appends what the runs leave, each with a later fault, up to the first that ends as the whole one.
    fn put_runs<P: Program>(self, alloc: Global, out: &mut String) -> Result<(), OutOfMemory> {
        let mut before = self.whole.status;
        for at in 0..AMPLE {
            before = self.put_run::<P>(alloc, out, at, before)?;
            if before == self.whole.status {
                break;
            }
        }
        Ok(writeln!(out)?)
    }
}

// Appends what the runs of a line leave.
fn put_beside<P: Program>(
    alloc: Global,
    out: &mut String,
    runs: Runs<'_>,
) -> Result<(), OutOfMemory> {
    let whole = runs.with(Fault::Room).ended::<P>(alloc, AMPLE)?;
    let line = Line {
        runs,
        whole: &whole,
    };
    line.put_runs::<P>(alloc, out)
}

// Appends a line of the table.
fn put_line<P: Program>(
    alloc: Global,
    out: &mut String,
    runs: Runs<'_>,
) -> Result<(), OutOfMemory> {
    let (size, word) = (runs.size, runs.fault.word());
    write!(out, "pulls of {size}, {word}:")?;
    put_beside::<P>(alloc, out, runs)
}

// Appends the lines of one size.
fn put_lines<P: Program>(
    alloc: Global,
    out: &mut String,
    runs: Runs<'_>,
) -> Result<(), OutOfMemory> {
    put_line::<P>(alloc, out, runs.with(Fault::FailingPull))?;
    put_line::<P>(alloc, out, runs.with(Fault::Room))?;
    put_line::<P>(alloc, out, runs.with(Fault::FailingPut))
}

// Appends what a run leads to that nothing ends early.
fn put_whole<P: Program>(
    alloc: Global,
    out: &mut String,
    runs: Runs<'_>,
) -> Result<(), OutOfMemory> {
    let ended = runs.ended::<P>(alloc, AMPLE)?;
    put_ended(out, &ended.text, ended.status)
}

// Appends that, and the lines of all sizes.
fn put_sizes<P: Program>(
    alloc: Global,
    out: &mut String,
    runs: Runs<'_>,
) -> Result<(), OutOfMemory> {
    put_whole::<P>(alloc, out, runs)?;
    for size in SIZES {
        put_lines::<P>(alloc, out, Runs { size, ..runs })?;
    }
    Ok(())
}

/// Appends what a script leads to, and what becomes of that where each call fails in turn.
pub fn put_table<P: Program>(
    alloc: Global,
    out: &mut String,
    script: &[u8],
) -> Result<(), OutOfMemory> {
    let words = words_of(alloc, "run")?;
    let runs = Runs {
        words: &words,
        script,
        size: AMPLE,
        fault: Fault::Room,
    };
    put_sizes::<P>(alloc, out, runs)
}
