// Names, words and signs, with the spaces behind them.
ghost use Rattle.std.specs.Prelude.{◌<◌, ◌≤◌, IfOk, length};
ghost use Rattle.span_text.specs.Gives.{Gives};
ghost use Rattle.span_text.specs.Tokens.{tail_at, word_at, name_at, raw_name_at, sign_at};

use crate::{classes, pieces};

/// The text behind the spaces that end a letter, a digit or `_`: another one of them may not follow at once.
#[tactic(auto, unfolding(crate::specs::Tokens::tail_at, crate::specs::Reading::not_at))]
pub fn tail(text: &[u8]) -> Result<&[u8], usize>
    ensures within { IfOk result (λ t. length t.now ≤ length text.now) }
    ensures gives { Gives (λ t. t.now) result (tail_at text.now) }
{
    let text = pieces::no_word(text)?;
    Ok(pieces::skip(text))
}

/// The text behind the word, which is as long as it can be.
#[tactic(auto, unfolding(crate::specs::Tokens::word_at))]
pub fn word<'a>(word: &[u8], text: &'a [u8]) -> Result<&'a [u8], usize>
    ensures { Gives (λ t. t.now) result (word_at word.now text.now) }
{
    let text = pieces::literal(word, text)?;
    tail(text)
}

/// The text behind the byte.
#[tactic(auto, unfolding(crate::specs::Tokens::sign_at, crate::specs::Reading::lit_at))]
pub fn sign(byte: u8, text: &[u8]) -> Result<&[u8], usize>
    ensures shorter { IfOk result (λ t. length t.now < length text.now) }
    ensures gives { Gives (λ t. t.now) result (sign_at byte text.now) }
{
    match text {
        [b, rest @ ..] => if *b == byte {
            Ok(pieces::skip(rest))
        } else {
            Err(text.len())
        },
        [] => Err(0),
    }
}

// A name's bytes and the text at once behind them.
#[tactic(auto, unfolding(crate::specs::Tokens::raw_name_at, crate::specs::Reading::one_at))]
fn name_bytes(text: &[u8]) -> Result<(&[u8], &[u8]), usize>
    ensures shorter { IfOk result (λ p. length p.1.now < length text.now) }
    ensures gives { Gives (λ p. (p.0.now, p.1.now)) result (raw_name_at text.now) }
{
    match text {
        [first, rest @ ..] => {
            if !classes::is_letter(*first) {
                return Err(text.len());
            }
            let len = pieces::word_len(rest);
            Ok((&text[..len + 1], &text[len + 1..]))
        }
        [] => Err(0),
    }
}

/// A name and the text at once behind it.
pub fn raw_name(text: &[u8]) -> Result<(&str, &[u8]), usize>
    ensures shorter { IfOk result (λ p. length p.1.now < length text.now) }
    ensures gives { Gives (λ p. (p.0.now, p.1.now)) result (raw_name_at text.now) }
{
    let (name, rest) = name_bytes(text)?;
    match std::str::from_utf8(name) {
        Ok(name) => Ok((name, rest)),
        Err(_) => unreachable!(),
    }
}

/// A name and the text behind it.
#[tactic(auto, unfolding(crate::specs::Tokens::raw_name_at, crate::specs::Tokens::name_at))]
pub fn name(text: &[u8]) -> Result<(&str, &[u8]), usize>
    ensures shorter { IfOk result (λ p. length p.1.now < length text.now) }
    ensures gives { Gives (λ p. (p.0.now, p.1.now)) result (name_at text.now) }
{
    let (name, rest) = raw_name(text)?;
    Ok((name, pieces::skip(rest)))
}
