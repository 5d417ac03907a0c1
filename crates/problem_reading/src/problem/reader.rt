// The reader of problems.
ghost use Rattle.std.specs.Prelude.{◌≡◌, ◌<◌, ◌≤◌, length, IfOk, IfErr, MatchResult};
ghost use Rattle.std.specs.Str.Lines.{lines};
ghost use Rattle.frac_core.specs.declared.memory.Stop.TheVariants.{OutOfMemory};
ghost use Rattle.problem_core.specs.Layout as layout;
ghost use Rattle.problem_core.specs.Kept.{IsWhole};
ghost use Rattle.claim_writing.specs.Lines.{problem_text};
ghost use Rattle.problem_reading.specs.declared.limits.TheConstants.{TEXT_LIMIT, TEXT_ROW_LIMIT};
ghost use Rattle.problem_reading.specs.declared.limits.TheConstants.{TEXT_STAY_LIMIT};
ghost use Rattle.problem_reading.specs.Problems.{Reads, IsProblemStop, AreStayAttributes};

use crate::problem::attributes::{Attributes, stay_attributes};
use crate::problem::draft::Draft;
use crate::stops::{BadLine, ReadStop};
use frac_core::Stop;
use problem_core::Problem;
use span_text::lines;
use std::alloc::Global;

// What the lines of the text say, where these are the attributes that have stays there.
fn read_lines(alloc: Global, covered: &Attributes, text: &[u8]) -> Result<Draft, ReadStop>
    requires short { length text.now < TEXT_LIMIT }
    requires covered { AreStayAttributes (lines text.now) covered.now }
    ensures read { IfOk result (Reads (lines text.now)) }
    ensures stop { IfErr result (IsProblemStop (lines text.now)) }
{
    let mut draft = Draft::new(alloc);
    let mut number = 0;
    for line in lines(text) {
        number += 1;
        if !draft.take_line(alloc, covered, line.bytes)? {
            return Err(Stop::Refused(BadLine(number)));
        }
    }
    Ok(draft)
}

/// The problem that a text says, line by line: rows by rising number, then stays.
///
/// Lines of spaces and tabs alone, and lines that begin with `#`, say nothing. `BadLine` is the number of the
/// first line, counted from 1, that may not follow the lines before it.
pub fn read_problem(alloc: Global, text: &[u8]) -> Result<Problem, ReadStop>
    requires { length text.now < TEXT_LIMIT }
    ensures read { IfOk result (Reads (lines text.now)) }
    ensures stop { IfErr result (IsProblemStop (lines text.now)) }
    // What was written is read.
    ensures written { (p : layout.Problem) → IsWhole p → length p.rows ≤ TEXT_ROW_LIMIT
        → length p.stays ≤ TEXT_STAY_LIMIT → text.now ≡ problem_text p
        → MatchResult result (λ q. q ≡ p) (λ stop. stop ≡ OutOfMemory) }
{
    let covered = stay_attributes(alloc, text)?;
    let draft = read_lines(alloc, &covered, text)?;
    Ok(draft.finish())
}
