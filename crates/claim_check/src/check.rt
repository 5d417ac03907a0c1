// A problem and a claim, read from a source, and the verdict on them, put into a sink.
ghost use Rattle.std.specs.Prelude.{◌≡◌, ◌⊎◌, ◌+◌, ◌≤◌, IsErrOf};
ghost use Rattle.edge_io.specs.Outside.{IsCounted, LeadsOutside, counts};
ghost use Rattle.claim_check.specs.Constants.{ConstantsAreAsSaid};
ghost use Rattle.claim_check.specs.Ends.{IsCheckEnd, IsOutputFor, IsPutEnd};

use crate::checking::{Output, check_input};
use crate::input::read_all;
use crate::stop::CheckStop;
use edge_io::{Sink, Source, put_all};
use std::alloc::Global;

/// The greatest length of a problem with a claim, in bytes.
pub const CHECK_LIMIT: usize = 16_777_216;

// What is to be written for all that the source has left.
fn output_for<S: Source>(alloc: Global, source: &mut S) -> Result<Output, CheckStop>
    ensures made { IsOutputFor (S.left source.old) (S.faults source.old) (S.faults source.new) result }
    ensures few { S.pulls source.new ≤ S.pulls source.old + (CHECK_LIMIT + 1) }
    ensures unfailed { IsErrOf result CheckStop.ReadFault ⊎ (S.faults source.new ≡ S.faults source.old) }
{
    let input = read_all(alloc, source, CHECK_LIMIT)?;
    Ok(check_input(alloc, &input)?)
}

// Puts a whole output, and says whether it is good.
fn put_output<K: Sink>(output: &Output, sink: &mut K) -> Result<bool, CheckStop>
    ensures put { IsPutEnd (K.held sink.old) (K.held sink.new) (K.faults sink.old) (K.faults sink.new)
        output.now.text.items output.now.is_good result }
    ensures unfailed { IsErrOf result CheckStop.WriteFault ⊎ (K.faults sink.new ≡ K.faults sink.old) }
{
    match put_all(sink, &output.text) {
        Ok(()) => Ok(output.is_good),
        Err(_) => Err(CheckStop::WriteFault),
    }
}

/// Reads a problem and a claim to their end, puts the line of the checker's verdict, and says whether it is
/// `yes`. Of an input longer than [`CHECK_LIMIT`] one byte past it is taken at the most.
pub fn check_claim<S: Source, K: Sink>(
    alloc: Global,
    source: &mut S,
    sink: &mut K,
) -> Result<bool, CheckStop>
    ensures counted { IsCounted (CHECK_LIMIT + 1) (IsErrOf result CheckStop.ReadFault)
        (IsErrOf result CheckStop.WriteFault) (counts S.pulls S.faults K.faults (source.old, sink.old))
        (counts S.pulls S.faults K.faults (source.new, sink.new)) }
    ensures ends { LeadsOutside S.left S.faults K.held K.faults (source.old, sink.old) (source.new, sink.new)
        (λ old new. IsCheckEnd old new result) }
{
    let output = output_for(alloc, source)?;
    put_output(&output, sink)
}

/// The constants that definitions and clauses cite by name are these numbers.
pub fn constants_are_as_said()
    ensures { ConstantsAreAsSaid }
{}
