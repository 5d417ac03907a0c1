// The whole input, in as many pulls as it takes.
ghost use Rattle.std.specs.Prelude.{◌≡◌, ◌⊎◌, ◌+◌, ◌≤◌, ◌<◌, length, vec_len, IfOk, IfSome, IsErrOf};
ghost use Rattle.edge_io.specs.Cause.{Rose};

use crate::stop::CheckStop;
use edge_io::Source;
use std::alloc::Global;

// The most bytes of one pull.
const PIECE: usize = 4096;

/// All that the source has left, which is at most `limit` bytes.
pub(crate) fn read_all<S: Source>(
    alloc: Global,
    source: &mut S,
    limit: usize,
) -> Result<Vec<u8>, CheckStop>
    ensures bytes { IfOk result (λ v. IfSome (S.left source.old) (λ bs. v.items ≡ bs)) }
    ensures short { IfOk result (λ v. vec_len v ≤ limit) }
    ensures fault { IsErrOf result CheckStop.ReadFault → Rose (S.faults source.old) (S.faults source.new) }
    ensures too_long { IsErrOf result CheckStop.TooLong
        → IfSome (S.left source.old) (λ bs. limit < length bs) }
    ensures unwritten { IsErrOf result CheckStop.WriteFault → ⊥ }
    ensures few { S.pulls source.new ≤ S.pulls source.old + (limit + 1) }
    ensures unfailed { IsErrOf result CheckStop.ReadFault ⊎ (S.faults source.new ≡ S.faults source.old) }
{
    let mut input = Vec::new(alloc);
    let mut piece = [0; PIECE];
    while input.len() <= limit {
        match source.pull(&mut piece) {
            Ok(0) => return Ok(input),
            Ok(count) => input.extend_from_slice(&piece[..count])?,
            Err(_) => return Err(CheckStop::ReadFault),
        }
    }
    Err(CheckStop::TooLong)
}
