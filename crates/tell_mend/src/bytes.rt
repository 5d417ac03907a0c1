// Parts of a line.
ghost use Rattle.std.specs.Prelude.{◌≡◌, ◌≤◌, ◌<◌, ◌++◌, length, IfSome};

use span_text::pieces::{begins_with_word, word_len};
use std::slice;

/// The text before a place and the text from there on. All of it is before a place outside it.
pub fn cut(text: &[u8], at: usize) -> (&[u8], &[u8])
    ensures whole { result.0.now ++ result.1.now ≡ text.now }
{
    match text.split_at_checked(at) {
        Some(parts) => parts,
        None => (text, b""),
    }
}

/// The text before the first such sign and the text after it.
pub fn parted(text: &[u8], sign: u8) -> (&[u8], &[u8]) {
    let (front, rest) = cut(text, before_sign(text, &[sign]));
    (front, cut(rest, 1).1)
}

/// Where the word at the end of the text begins.
pub fn word_start(text: &[u8]) -> usize
    ensures within { result ≤ length text.now }
{
    let mut start: usize = 0;
    for (place, b) in text.iter().enumerate() {
        if !begins_with_word(slice::from_ref(b)) {
            start = place.saturating_add(1);
        }
    }
    start
}

/// Whether the text ends with a letter, a digit or `_`.
pub fn ends_in_word(text: &[u8]) -> bool {
    word_start(text) < text.len()
}

/// Whether the text ends with a digit.
pub fn ends_in_digit(text: &[u8]) -> bool {
    match text {
        [.., b] => b.is_ascii_digit(),
        [] => false,
    }
}

/// How many bytes come before the first of these signs.
pub fn before_sign(text: &[u8], signs: &[u8]) -> usize
    ensures within { result ≤ length text.now }
{
    for (place, b) in text.iter().enumerate() {
        if signs.contains(b) {
            return place;
        }
    }
    text.len()
}

/// The length of the number or fraction at the start of the text.
pub fn number_len(text: &[u8]) -> usize {
    for (place, b) in text.iter().enumerate() {
        if !b"0123456789./".contains(b) {
            return place;
        }
    }
    text.len()
}

// Whether the word is between these texts: a sign, or a whole word that is no attribute.
fn is_between(front: &[u8], rest: &[u8], word: &[u8]) -> bool {
    match rest.strip_prefix(word) {
        Some(_) if word_len(word) == 0 => true,
        Some(after) => {
            !begins_with_word(after) && !ends_in_word(front) && !front.ends_with(b".")
        }
        None => false,
    }
}

// The text before its last `"` and the blanks before that; empty if it doesn't end with `"`.
fn before_quote(text: &[u8]) -> &[u8] {
    match text.strip_suffix(b"\"") {
        Some(front) => front.trim_ascii_end(),
        None => b"",
    }
}

// Whether the text ends with this JSON key, a `:` and the `"` that opens its value.
fn is_under(front: &[u8], key: &[u8]) -> bool {
    match before_quote(front).strip_suffix(b":") {
        Some(front) => before_quote(front.trim_ascii_end()).ends_with(key),
        None => false,
    }
}

/// Where the word is, at `from` or to the right of it, as a whole word that is no attribute. If `key` isn't
/// empty, only as the value of that JSON key.
pub fn find_word(text: &[u8], from: usize, key: &[u8], word: &[u8]) -> Option<usize>
    ensures within { IfSome result (λ at. (from ≤ at) × (at < length text.now)) }
{
    for at in from..text.len() {
        let (front, rest) = cut(text, at);
        if is_between(front, rest, word) && (key.is_empty() || is_under(front, key)) {
            return Some(at);
        }
    }
    None
}
