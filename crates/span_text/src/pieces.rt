// The smallest readers. Each takes a text and gives what follows the piece that was read. An error is the
// count of the bytes that are left where no text of the grammar goes on.
ghost use Rattle.std.specs.Prelude.{◌≡◌, ◌≤◌, ◌==◌, length, ℕ, List, Result, IfOk};
ghost use Rattle.span_text.specs.Gives.{Gives};
ghost use Rattle.span_text.specs.Reading.{lit_at, front, back, not_at, end_at, starts, either, read_word};
ghost use Rattle.span_text.specs.Tokens.{is_point};
ghost use Rattle.span_text.specs.Classes.{is_space, is_word, is_letter};

use crate::classes;

/// The text behind the word, whatever follows it.
#[tactic(auto, unfolding(crate::specs::Reading::lit_at))]
pub fn literal<'a>(word: &[u8], text: &'a [u8]) -> Result<&'a [u8], usize>
    ensures within { IfOk result (λ t. length t.now ≤ length text.now) }
    ensures gives { Gives (λ t. t.now) result (lit_at word.now text.now) }
{
    let mut wanted = word;
    let mut rest = text;
    while let [c, more @ ..] = wanted {
        match rest {
            [b, others @ ..] => {
                if *b != *c {
                    return Err(rest.len());
                }
                rest = others;
            }
            [] => return Err(0),
        }
        wanted = more;
    }
    Ok(rest)
}

/// The word's meaning and the text behind it, if the text begins with the word. Otherwise the answer of the
/// other words, or of two errors the one that came further.
pub fn or_else<'a, K: Copy>(
    word: &[u8],
    meaning: K,
    text: &'a [u8],
    other: Result<(K, &'a [u8]), usize>,
) -> Result<(K, &'a [u8]), usize>
    ensures { (r : Result (K × List ℕ) ℕ) → Gives (λ p. (p.0, p.1.now)) other.entry r
        → Gives (λ p. (p.0, p.1.now)) result (either (read_word word.now meaning text.now) r) }
{
    match literal(word, text) {
        Ok(rest) => Ok((meaning, rest)),
        Err(left) => match other {
            Ok(found) => Ok(found),
            Err(less) => Err(left.min(less)),
        },
    }
}

/// The text behind the spaces in front.
#[tactic(auto, unfolding(crate::specs::Reading::back))]
pub fn skip(text: &[u8]) -> &[u8]
    ensures is { result.now ≡ back is_space text.now }
    ensures within { length result.now ≤ length text.now }
{
    let mut rest = text;
    while let [b, others @ ..] = rest {
        if !classes::is_space(*b) {
            break;
        }
        rest = others;
    }
    rest
}

/// The end of the text.
#[tactic(auto, unfolding(crate::specs::Reading::end_at))]
pub fn end(text: &[u8]) -> Result<&[u8], usize>
    ensures { Gives (λ t. t.now) result (end_at text.now) }
{
    if text.is_empty() {
        Ok(text)
    } else {
        Err(text.len())
    }
}

/// The text, which doesn't begin with a letter, a digit or `_`.
#[tactic(auto, unfolding(crate::specs::Reading::not_at))]
pub fn no_word(text: &[u8]) -> Result<&[u8], usize>
    ensures within { IfOk result (λ t. length t.now ≤ length text.now) }
    ensures gives { Gives (λ t. t.now) result (not_at is_word text.now) }
{
    match text {
        [b, ..] if classes::is_word(*b) => Err(text.len()),
        _ => Ok(text),
    }
}

/// The text, which doesn't begin with a point.
#[tactic(auto, unfolding(crate::specs::Reading::not_at))]
pub fn no_point(text: &[u8]) -> Result<&[u8], usize>
    ensures within { IfOk result (λ t. length t.now ≤ length text.now) }
    ensures gives { Gives (λ t. t.now) result (not_at is_point text.now) }
{
    match text {
        [b, ..] if *b == b'.' => Err(text.len()),
        _ => Ok(text),
    }
}

/// The count of the letters, digits and `_` in front.
#[tactic(auto, unfolding(crate::specs::Reading::front))]
pub fn word_len(text: &[u8]) -> usize
    ensures len { result ≡ length (front is_word text.now) }
    ensures within { result ≤ length text.now }
{
    for (i, b) in text.iter().enumerate() {
        if !classes::is_word(*b) {
            return i;
        }
    }
    text.len()
}

/// Whether the text begins with the byte.
pub fn begins(text: &[u8], byte: u8) -> bool
    ensures { result ≡ starts (λ b. b == byte) text.now }
{
    match text {
        [b, ..] => *b == byte,
        [] => false,
    }
}

/// Whether the text begins with a letter or `_`.
pub fn begins_with_letter(text: &[u8]) -> bool
    ensures { result ≡ starts is_letter text.now }
{
    match text {
        [b, ..] => classes::is_letter(*b),
        [] => false,
    }
}

/// Whether the text begins with a letter, a digit or `_`.
pub fn begins_with_word(text: &[u8]) -> bool
    ensures { result ≡ starts is_word text.now }
{
    match text {
        [b, ..] => classes::is_word(*b),
        [] => false,
    }
}
