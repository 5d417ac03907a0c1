// Numbers, with the spaces behind them.
ghost use Rattle.std.specs.Prelude.{◌≡◌, ◌+◌, ◌^◌, ◌<◌, ◌≤◌, ◌*◌, ◌-◌, IfOk, length};
ghost use Rattle.span_text.specs.Gives.{Gives};
ghost use Rattle.span_text.specs.Digits.{nonzero_at};
ghost use Rattle.span_text.specs.Tokens.{valued_at, decimals_at, no_decimals_at, number_at, whole_at};
ghost use Rattle.span_text.specs.Tokens.{below_at, number_bound, ratio_at};
ghost use Rattle.span_text.specs.declared.limits.TheConstants.{DECIMALS, NUMBER_DIGITS, RATIO_DIGITS};
ghost use Rattle.span_text.specs.declared.limits.TheConstants.{UNIT, WHOLE_DIGITS};

use crate::limits::{DECIMALS, HUNDREDTH, NUMBER_DIGITS, RATIO_DIGITS, TENTH, UNIT, WHOLE_DIGITS};
use crate::{classes, names, pieces};

/// The value and the count of digits, and the text at once behind them.
#[derive(Drop)]
pub(crate) struct DigitRun<'a> {
    pub(crate) value: u64,
    pub(crate) count: usize,
    pub(crate) rest: &'a [u8],
}

/// The digits that the text begins with, at most `most`. None is an error, and so is one more.
pub(crate) fn digits(text: &[u8], most: usize) -> Result<DigitRun<'_>, usize>
    requires { (0 < most) × (most ≤ WHOLE_DIGITS) }
    ensures gives { Gives (λ x. (x.value, x.count, x.rest.now)) result (valued_at (most - 1) text.now) }
    ensures small { IfOk result (λ x. x.value < 10 ^ x.count) }
    ensures few { IfOk result (λ x. x.count ≤ most) }
    ensures bound { IfOk result (λ x. x.value < 10 ^ most) }
    ensures shorter { IfOk result (λ x. length x.rest.now < length text.now) }
{
    let mut value: u64 = 0;
    let mut count: usize = 0;
    let mut rest = text;
    while let [b, others @ ..] = rest {
        if !classes::is_digit(*b) {
            break;
        }
        if count >= most {
            return Err(rest.len());
        }
        value = 10 * value + (*b - b'0') as u64;
        count += 1;
        rest = others;
    }
    if count == 0 {
        Err(rest.len())
    } else {
        Ok(DigitRun { value, count, rest })
    }
}

// Decimals of this value and count in thousandths.
fn in_thousandths(value: u64, count: usize) -> u32
    requires below { value < 10 ^ count }
    requires few { count ≤ DECIMALS }
    ensures is { result ≡ value * 10 ^ (DECIMALS - count) }
    ensures small { result < UNIT }
{
    match count {
        0 => value as u32 * UNIT,
        1 => value as u32 * TENTH,
        2 => value as u32 * HUNDREDTH,
        _ => value as u32,
    }
}

/// The number in thousandths whose digits in front of the point have the value `whole`, read from the point
/// on, and the text behind it. An error where anything but a point and one to [`DECIMALS`] digits follows, or
/// a letter, a digit or `_` behind these.
#[tactic(auto, unfolding(crate::specs::Tokens::decimals_at))]
pub(crate) fn decimals(text: &[u8], whole: u32) -> Result<(u32, &[u8]), usize>
    requires { whole < 10 ^ NUMBER_DIGITS }
    ensures gives { Gives (λ x. (x.0, x.1.now)) result (decimals_at whole text.now) }
    ensures small { IfOk result (λ x. x.0 < number_bound) }
    ensures within { IfOk result (λ x. length x.1.now ≤ length text.now) }
{
    let text = pieces::literal(b".", text)?;
    let part = digits(text, DECIMALS)?;
    let text = names::tail(part.rest)?;
    Ok((whole * UNIT + in_thousandths(part.value, part.count), text))
}

/// The number in thousandths without a point whose digits have the value `whole`, and the text behind it. An
/// error where the text begins with a point, a letter, a digit or `_`.
#[tactic(auto, unfolding(crate::specs::Tokens::no_decimals_at))]
pub(crate) fn no_decimals(text: &[u8], whole: u32) -> Result<(u32, &[u8]), usize>
    requires { whole < 10 ^ NUMBER_DIGITS }
    ensures gives { Gives (λ x. (x.0, x.1.now)) result (no_decimals_at whole text.now) }
    ensures small { IfOk result (λ x. x.0 < number_bound) }
    ensures within { IfOk result (λ x. length x.1.now ≤ length text.now) }
{
    let text = pieces::no_point(text)?;
    let text = names::tail(text)?;
    Ok((whole * UNIT, text))
}

/// A number in thousandths, and the text behind it. It has up to [`NUMBER_DIGITS`] digits, and up to
/// [`DECIMALS`] behind a point.
#[tactic(auto, unfolding(crate::specs::Tokens::number_at))]
pub fn number(text: &[u8]) -> Result<(u32, &[u8]), usize>
    ensures shorter { IfOk result (λ x. length x.1.now < length text.now) }
    ensures small { IfOk result (λ x. x.0 < number_bound) }
    ensures gives { Gives (λ x. (x.0, x.1.now)) result (number_at text.now) }
{
    let whole = digits(text, NUMBER_DIGITS)?;
    let value = whole.value as u32;
    if pieces::begins(whole.rest, b'.') {
        decimals(whole.rest, value)
    } else {
        no_decimals(whole.rest, value)
    }
}

/// A whole number of up to [`WHOLE_DIGITS`] digits, and the text behind it.
#[tactic(auto, unfolding(crate::specs::Tokens::whole_at))]
pub fn whole(text: &[u8]) -> Result<(u64, &[u8]), usize>
    ensures shorter { IfOk result (λ x. length x.1.now < length text.now) }
    ensures gives { Gives (λ x. (x.0, x.1.now)) result (whole_at text.now) }
{
    let found = digits(text, WHOLE_DIGITS)?;
    let rest = names::tail(found.rest)?;
    Ok((found.value, rest))
}

/// Two whole numbers with a slash between them, the second of which isn't 0.
#[derive(Drop)]
pub struct RatioRead<'a> {
    pub above: u32,
    pub below: u32,
    pub rest: &'a [u8],
}

/// The value of a ratio's lower digits, at most [`RATIO_DIGITS`], and the text at once behind them. An error
/// where there is none, where there are more, or where all are 0.
#[tactic(auto, unfolding(crate::specs::Digits::nonzero_at))]
pub(crate) fn nonzero(text: &[u8]) -> Result<(u32, &[u8]), usize>
    ensures small { IfOk result (λ x. (0 < x.0) × (x.0 < 10 ^ RATIO_DIGITS)) }
    ensures gives { Gives (λ x. (x.0, x.1.now)) result (nonzero_at RATIO_DIGITS 0 text.now) }
    ensures within { IfOk result (λ x. length x.1.now ≤ length text.now) }
{
    let mut value: u32 = 0;
    let mut room: usize = RATIO_DIGITS;
    let mut rest = text;
    while let [b, others @ ..] = rest {
        if !classes::is_digit(*b) {
            break;
        }
        if room == 0 {
            return Err(rest.len());
        }
        let more = 10 * value + (*b - b'0') as u32;
        if room == 1 && more == 0 {
            return Err(rest.len());
        }
        value = more;
        room -= 1;
        rest = others;
    }
    if value == 0 {
        Err(rest.len())
    } else {
        Ok((value, rest))
    }
}

/// A ratio, whose parts have up to [`RATIO_DIGITS`] digits, and the text behind it.
#[tactic(auto, unfolding(crate::specs::Tokens::ratio_at, crate::specs::Tokens::below_at))]
pub fn ratio(text: &[u8]) -> Result<RatioRead<'_>, usize>
    ensures shorter { IfOk result (λ x. length x.rest.now < length text.now) }
    ensures small { IfOk result (λ x. (x.above < 10 ^ RATIO_DIGITS)
        × (0 < x.below) × (x.below < 10 ^ RATIO_DIGITS)) }
    ensures gives { Gives (λ x. (x.above, x.below, x.rest.now)) result (ratio_at text.now) }
{
    let above = digits(text, RATIO_DIGITS)?;
    let rest = pieces::literal(b"/", above.rest)?;
    let (below, rest) = nonzero(rest)?;
    let rest = names::tail(rest)?;
    Ok(RatioRead {
        above: above.value as u32,
        below,
        rest,
    })
}
