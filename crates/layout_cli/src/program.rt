// The program's run, over any source and sink.
ghost use Rattle.std.specs.Prelude.{◌≡◌, ◌⊎◌, ◌+◌, ◌≤◌, ℕ, List, Option, true, false};
ghost use Rattle.std.specs.Io.KnownBytes.{Appends};
ghost use Rattle.edge_io.specs.Cause.{Rose};
ghost use Rattle.edge_io.specs.Outside.{HasFront, LeadsOutside, counts, outside};
ghost use Rattle.layout_cli.specs.Ends.{AfterReadFault, AfterTooLong, HasOutput, IsBrokenOff, IsCutShort};
ghost use Rattle.layout_cli.specs.Ends.{IsEndOf, IsRunCounted, IsTooLong, script_status};
ghost use Rattle.layout_cli.specs.Words.{NameMode, Pulls, limit_of, usage_line};
ghost use Rattle.program_words.specs.Words.{AreOther};
ghost use Rattle.program_words.specs.declared.mode.Mode.TheVariants.{Run, Check, Host, Make};

use crate::hosting::host_over;
use crate::making::make_and_run;
use crate::output::Output;
use crate::talk::talk_over;
use claim_check::{CheckStop, check_claim};
use edge_io::{Sink, Source, put_all};
use frac_core::OutOfMemory;
use line_by_line::ScriptStop;
use program_words::{Mode, mode_of};
use std::alloc::Global;

/// How a run ended.
#[derive(Clone, Copy, Debug, PartialEq, Eq)]
pub enum Status {
    /// No reply was a refusal, or the verdict is `yes`.
    Done,
    /// Some reply was a refusal, or the verdict is another.
    Refused,
    /// The words name no mode.
    Usage,
    /// The source failed.
    ReadFault,
    /// The sink failed.
    WriteFault,
    /// Memory was wanting.
    OutOfMemory,
    /// The input is longer than its limit.
    TooLong,
}

/// Answers each line of a script, of one scene or of many, before it reads the next one; or reads a problem
/// and a claim to their end and writes the checker's verdict; or pulls nothing, and writes what a run of the
/// script comes to that is drawn from a seed. `words` are the program's words after its name, and name the
/// mode.
///
/// The first event that ends the run decides the status.
pub fn run<S: Source, K: Sink>(
    alloc: Global,
    words: &[String],
    source: &mut S,
    sink: &mut K,
) -> Status
    // What was written is what the mode that the words name answers the whole of its input.
    ensures done { result ≡ Status.Done → NameMode words.now (λ mode.
        HasOutput mode (S.left source.old) (K.held sink.old) (K.held sink.new) true) }
    ensures refused { result ≡ Status.Refused → NameMode words.now (λ mode.
        HasOutput mode (S.left source.old) (K.held sink.old) (K.held sink.new) false) }

    // Other words get the usage line, unless the sink fails or memory is wanting.
    ensures usage { result ≡ Status.Usage → Appends (K.held sink.old) (K.held sink.new) usage_line }
    ensures words { result ≡ Status.Usage → AreOther words.now }
    ensures other_words { AreOther words.now
        → (result ≡ Status.Usage) ⊎ (result ≡ Status.WriteFault) ⊎ (result ≡ Status.OutOfMemory) }

    // The source is as before, but for a mode that pulls from it: once a byte of its limit at the most, and
    // once more.
    ensures unread { (source.new ≡ source.old) ⊎ NameMode words.now Pulls }
    ensures few { (source.new ≡ source.old) ⊎ NameMode words.now (λ mode.
        S.pulls source.new ≤ S.pulls source.old + (limit_of mode + 1)) }

    // No pull and no put failed where the status doesn't say so.
    ensures pulled { (result ≡ Status.ReadFault) ⊎ (S.faults source.new ≡ S.faults source.old) }
    ensures put { (result ≡ Status.WriteFault) ⊎ (K.faults sink.new ≡ K.faults sink.old) }

    // A fault has its cause. Exactly the replies to the whole lines that were read were written before the
    // source failed, and a front of the output before the sink did.
    ensures read_fault { result ≡ Status.ReadFault → Rose (S.faults source.old) (S.faults source.new) }
    ensures after_read_fault { result ≡ Status.ReadFault → NameMode words.now (λ mode. Pulls mode
        × AfterReadFault mode (S.left source.old) (S.left source.new) (K.held sink.old) (K.held sink.new)) }
    ensures write_fault { result ≡ Status.WriteFault → Rose (K.faults sink.old) (K.faults sink.new) }
    ensures after_write_fault { result ≡ Status.WriteFault → IsCutShort words.now
        (S.left source.old) (S.left source.new) (K.held sink.old) (K.held sink.new) }

    // The source gave more than the limit. Exactly the replies to the whole lines within it were written.
    ensures too_long { result ≡ Status.TooLong → NameMode words.now (λ mode.
        IsTooLong mode (S.left source.old)) }
    ensures after_too_long { result ≡ Status.TooLong → NameMode words.now (λ mode.
        AfterTooLong mode (S.left source.old) (S.left source.new) (K.held sink.old) (K.held sink.new)) }

    // Exactly the replies to some first whole lines were written, or nothing.
    ensures out_of_memory { result ≡ Status.OutOfMemory → IsBrokenOff words.now
        (S.left source.old) (S.left source.new) (K.held sink.old) (K.held sink.new) }
{
    let mode = match mode_of(alloc, words) {
        Ok(Some(mode)) => mode,
        Ok(None) => return put_usage(sink),
        Err(OutOfMemory) => return Status::OutOfMemory,
    };
    match mode {
        Mode::Run => run_script(alloc, source, sink),
        Mode::Check => run_check(alloc, source, sink),
        Mode::Host => run_host(alloc, source, sink),
        Mode::Make { seed, views } => run_made(alloc, seed, views, sink),
    }
}

// How a run ends whose script was answered so.
fn script_status(answered: Result<bool, ScriptStop>) -> Status
    ensures { result ≡ script_status answered }
{
    match answered {
        Ok(true) => Status::Done,
        Ok(false) => Status::Refused,
        Err(ScriptStop::ReadFault) => Status::ReadFault,
        Err(ScriptStop::WriteFault) => Status::WriteFault,
        Err(ScriptStop::TooLong) => Status::TooLong,
        Err(ScriptStop::OutOfMemory) => Status::OutOfMemory,
    }
}

/// Answers a script line by line, each line before the next one is read: what `run` does where its word is
/// `run`.
pub fn run_script<S: Source, K: Sink>(alloc: Global, source: &mut S, sink: &mut K) -> Status
    ensures counted { IsRunCounted Run result (counts S.pulls S.faults K.faults (source.old, sink.old))
        (counts S.pulls S.faults K.faults (source.new, sink.new)) }
    ensures ends { LeadsOutside S.left S.faults K.held K.faults (source.old, sink.old) (source.new, sink.new)
        (λ old new. IsEndOf Run old new result) }
{
    script_status(talk_over(alloc, source, sink))
}

// Answers a script for many scenes line by line.
fn run_host<S: Source, K: Sink>(alloc: Global, source: &mut S, sink: &mut K) -> Status
    ensures counted { IsRunCounted Host result (counts S.pulls S.faults K.faults (source.old, sink.old))
        (counts S.pulls S.faults K.faults (source.new, sink.new)) }
    ensures ends { LeadsOutside S.left S.faults K.held K.faults (source.old, sink.old) (source.new, sink.new)
        (λ old new. IsEndOf Host old new result) }
{
    script_status(host_over(alloc, source, sink))
}

// Reads a problem and a claim, and puts the checker's verdict.
fn run_check<S: Source, K: Sink>(alloc: Global, source: &mut S, sink: &mut K) -> Status
    ensures counted { IsRunCounted Check result (counts S.pulls S.faults K.faults (source.old, sink.old))
        (counts S.pulls S.faults K.faults (source.new, sink.new)) }
    ensures ends { LeadsOutside S.left S.faults K.held K.faults (source.old, sink.old) (source.new, sink.new)
        (λ old new. IsEndOf Check old new result) }
{
    match check_claim(alloc, source, sink) {
        Ok(true) => Status::Done,
        Ok(false) => Status::Refused,
        Err(CheckStop::ReadFault) => Status::ReadFault,
        Err(CheckStop::WriteFault) => Status::WriteFault,
        Err(CheckStop::TooLong) => Status::TooLong,
        Err(CheckStop::OutOfMemory) => Status::OutOfMemory,
    }
}

// Puts what a run of a script comes to that is drawn.
fn run_made<K: Sink>(alloc: Global, seed: u64, views: u32, sink: &mut K) -> Status
    ensures unfailed { (result ≡ Status.WriteFault) ⊎ (K.faults sink.new ≡ K.faults sink.old) }
    ensures ends { (left : Option (List ℕ)) (failed : ℕ) → IsEndOf (Make seed views)
        (outside left failed (K.held sink.old) (K.faults sink.old))
        (outside left failed (K.held sink.new) (K.faults sink.new)) result }
{
    match make_and_run(alloc, seed, views) {
        Ok(output) => put_output(&output, sink),
        Err(OutOfMemory) => Status::OutOfMemory,
    }
}

// Puts a whole output.
fn put_output<K: Sink>(output: &Output, sink: &mut K) -> Status
    ensures done { result ≡ Status.Done → (output.now.is_good ≡ true)
        × Appends (K.held sink.old) (K.held sink.new) output.now.text.items }
    ensures refused { result ≡ Status.Refused → (output.now.is_good ≡ false)
        × Appends (K.held sink.old) (K.held sink.new) output.now.text.items }
    ensures fault { result ≡ Status.WriteFault → Rose (K.faults sink.old) (K.faults sink.new)
        × HasFront (K.held sink.old) (K.held sink.new) output.now.text.items }
    ensures unfailed { (result ≡ Status.WriteFault) ⊎ (K.faults sink.new ≡ K.faults sink.old) }
    ensures ends { (result ≡ Status.Done) ⊎ ((result ≡ Status.Refused) ⊎ (result ≡ Status.WriteFault)) }
{
    if put_all(sink, &output.text).is_err() {
        return Status::WriteFault;
    }
    if output.is_good {
        Status::Done
    } else {
        Status::Refused
    }
}

// Puts the line that says which words there are.
fn put_usage<K: Sink>(sink: &mut K) -> Status
    ensures ends { (result ≡ Status.Usage) ⊎ (result ≡ Status.WriteFault) }
    ensures usage { result ≡ Status.Usage → Appends (K.held sink.old) (K.held sink.new) usage_line }
    ensures fault { result ≡ Status.WriteFault → Rose (K.faults sink.old) (K.faults sink.new) }
    ensures front { result ≡ Status.WriteFault → HasFront (K.held sink.old) (K.held sink.new) usage_line }
    ensures unfailed { (result ≡ Status.WriteFault) ⊎ (K.faults sink.new ≡ K.faults sink.old) }
{
    match put_all(
        sink,
        b"usage: layout run | check | make SEED VIEWS | host\n",
    ) {
        Ok(()) => Status::Usage,
        Err(_) => Status::WriteFault,
    }
}
