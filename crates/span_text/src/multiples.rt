// A number or a ratio.
ghost use Rattle.std.specs.Prelude.{◌^◌, ◌<◌, ◌≤◌, IfOk, length};
ghost use Rattle.span_text.specs.Gives.{Gives};
ghost use Rattle.span_text.specs.Tokens.{below_at, number_bound};
ghost use Rattle.span_text.specs.Multiples.{number_end_at, multiple_at, IsSmall};
ghost use Rattle.span_text.specs.declared.limits.TheConstants.{NUMBER_DIGITS, RATIO_DIGITS};

use crate::limits::{NUMBER_DIGITS, RATIO_DIGITS};
use crate::{names, numbers, pieces};

/// What a multiplier may be: a number in thousandths, or a ratio of two whole numbers as it is written.
#[derive(Clone, Copy)]
pub enum Multiple {
    Number { thousandths: u32 },
    Ratio { above: u32, below: u32 },
}

// What stands behind a number's whole digits of this value.
#[tactic(auto, unfolding(crate::specs::Multiples::number_end_at))]
fn number_end(text: &[u8], whole: u32) -> Result<(u32, &[u8]), usize>
    requires { whole < 10 ^ NUMBER_DIGITS }
    ensures gives { Gives (λ x. (x.0, x.1.now)) result (number_end_at whole text.now) }
    ensures small { IfOk result (λ x. x.0 < number_bound) }
    ensures within { IfOk result (λ x. length x.1.now ≤ length text.now) }
{
    if pieces::begins(text, b'.') {
        numbers::decimals(text, whole)
    } else {
        numbers::no_decimals(text, whole)
    }
}

// What stands behind a ratio's upper digits.
#[tactic(auto, unfolding(crate::specs::Tokens::below_at))]
fn ratio_end(text: &[u8], above: u32) -> Result<(u32, &[u8]), usize>
    ensures gives { Gives (λ x. (above, x.0, x.1.now)) result (below_at above text.now) }
    ensures small { IfOk result (λ x. (0 < x.0) × (x.0 < 10 ^ RATIO_DIGITS)) }
    ensures within { IfOk result (λ x. length x.1.now ≤ length text.now) }
{
    let rest = pieces::literal(b"/", text)?;
    let (below, rest) = numbers::nonzero(rest)?;
    let rest = names::tail(rest)?;
    Ok((below, rest))
}

/// A number or a ratio, and the text behind it.
#[tactic(auto, unfolding(crate::specs::Multiples::multiple_at))]
pub fn number_or_ratio(text: &[u8]) -> Result<(Multiple, &[u8]), usize>
    ensures shorter { IfOk result (λ x. length x.1.now < length text.now) }
    ensures small { IfOk result (λ x. IsSmall x.0) }
    ensures gives { Gives (λ x. (x.0, x.1.now)) result (multiple_at text.now) }
{
    let whole = numbers::digits(text, NUMBER_DIGITS)?;
    let rest = whole.rest;
    if pieces::begins(rest, b'/') {
        if whole.count > RATIO_DIGITS {
            return Err(rest.len());
        }
        let above = whole.value as u32;
        let (below, rest) = ratio_end(rest, above)?;
        Ok((Multiple::Ratio { above, below }, rest))
    } else {
        let (thousandths, rest) = number_end(rest, whole.value as u32)?;
        Ok((Multiple::Number { thousandths }, rest))
    }
}
