// The reader of claims.
ghost use Rattle.std.specs.Prelude.{◌≡◌, ◌<◌, length, IfOk, IfErr, MatchResult};
ghost use Rattle.std.specs.Str.Lines.{lines};
ghost use Rattle.frac_core.specs.declared.memory.Stop.TheVariants.{OutOfMemory};
ghost use Rattle.claim_writing.specs.declared.claim.Claim as claim;
ghost use Rattle.claim_writing.specs.ClaimLines.{claim_text};
ghost use Rattle.claim_text.specs.Claims.ClaimTexts.{IsRead, LinesStopAt, Reads, IsClaimStop, IsWritten};
ghost use Rattle.claim_text.specs.Claims.ClaimTexts.{HasNoMoreParts};
ghost use Rattle.problem_reading.specs.declared.limits.TheConstants.{TEXT_LIMIT};

use crate::claim::draft::ClaimDraft;
use crate::claim::seen::Seen;
use claim_writing::Claim;
use frac_core::Stop;
use problem_reading::{BadLine, ReadStop};
use span_text::lines;
use std::alloc::Global;

// The draft after the lines of a text, and their count.
#[derive(Drop)]
struct ReadLines {
    draft: ClaimDraft,
    count: u32,
}

// The draft after the lines of the text.
fn read_lines(alloc: Global, text: &[u8]) -> Result<ReadLines, ReadStop>
    requires { length text.now < TEXT_LIMIT }
    ensures read { IfOk result (λ found. IsRead (lines text.now) found.draft found.count) }
    ensures stop { IfErr result (LinesStopAt (lines text.now)) }
{
    let mut draft = ClaimDraft::new(alloc);
    let mut seen = Seen::new(alloc);
    let mut count = 0;
    for line in lines(text) {
        count += 1;
        if !draft.take_line(alloc, &mut seen, line.bytes)? {
            return Err(Stop::Refused(BadLine(count)));
        }
    }
    Ok(ReadLines { draft, count })
}

/// The claim in a text: values and a certificate, a conflict, or a path.
///
/// `BadLine` has the number of the first line, counted from 1, that may not follow the lines before it. If
/// the text ends before it says which claim it is, the number is one more than the count of lines.
pub fn read_claim(alloc: Global, text: &[u8]) -> Result<Claim, ReadStop>
    requires { length text.now < TEXT_LIMIT }
    ensures read { IfOk result (Reads (lines text.now)) }
    ensures stop { IfErr result (IsClaimStop (lines text.now)) }
    ensures few { IfOk result (λ c. HasNoMoreParts c (length text.now)) }
    // a written claim is read
    ensures written { (c : claim.Claim) → IsWritten c → text.now ≡ claim_text c
        → MatchResult result (λ d. d ≡ c) (λ stop. stop ≡ OutOfMemory) }
{
    let mut found = read_lines(alloc, text)?;
    match found.draft.finish(alloc)? {
        Some(claim) => Ok(claim),
        None => Err(Stop::Refused(BadLine(found.count + 1))),
    }
}
