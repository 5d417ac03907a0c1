// The line of a stay.
ghost use Rattle.std.specs.Prelude.{◌≡◌, IfSome, IfNone};
ghost use Rattle.problem_core.specs.Kept.{IsStay};
ghost use Rattle.problem_core.specs.declared.parts.Stay.{Stay};
ghost use Rattle.problem_reading.specs.Words.{words};
ghost use Rattle.claim_writing.specs.Lines.{stay_words};

use crate::fields::{next_fraction, next_is, next_number};
use crate::words::Words;
use problem_core::{NUMBER_LIMIT, Stay};

/// The stay that a line says.
pub(crate) fn read_stay(line: &[u8]) -> Option<Stay>
    ensures some { IfSome result (λ s. IsStay s × (words line.now ≡ stay_words s)) }
    ensures none { IfNone result ((s : Stay) → IsStay s → words line.now ≡ stay_words s → ⊥) }
{
    let mut words = Words::of(line);
    if !next_is(&mut words, b"stay") {
        return None;
    }
    let attr = next_number(&mut words, 1, NUMBER_LIMIT as u64)?;
    let target = next_fraction(&mut words)?;
    match words.next() {
        None => Some(Stay {
            attr: attr as u32,
            target,
        }),
        Some(_) => None,
    }
}
