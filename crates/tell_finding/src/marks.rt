// Where in its line a refusal shows: the byte that the caret is below.
ghost use Rattle.std.specs.Prelude.{◌≤◌, length};

use span_text::first_word;
use span_text::pieces::{skip, word_len};
use tell_mend::{Word, before_sign, cut, find_word, word_of, word_start};

// The text after its first word.
fn behind_word(text: &[u8]) -> &[u8] {
    match first_word(text) {
        Some((_, rest)) => rest,
        None => text,
    }
}

// The text from a format's first sign on, without a group, an alignment and a direction.
fn format_of(text: &[u8]) -> &[u8] {
    match cut(text, before_sign(text, b":[|")).1 {
        b"" => text,
        format => format,
    }
}

/// Where the text after the command's own words begins, or after the group's name if there is one.
pub fn own_place(line: &[u8]) -> usize
    ensures within { result ≤ length line.now }
{
    let own = match word_of(line) {
        (Word::Vfl, rest) => format_of(rest),
        (Word::Constrain, rest) => behind_word(rest),
        _ => behind_word(line),
    };
    line.len().saturating_sub(own.len())
}

// Where the first word begins; 0 in a blank line.
fn first_place(line: &[u8]) -> usize
    ensures within { result ≤ length line.now }
{
    let words = skip(line);
    if words.is_empty() {
        0
    } else {
        line.len().saturating_sub(words.len())
    }
}

// Where the name is after the command's own words. If it isn't there, where the view is that it begins with,
// or else the first word.
fn place_of(line: &[u8], name: &[u8]) -> usize
    ensures within { result ≤ length line.now }
{
    let from = own_place(line);
    let view = cut(name, before_sign(name, b".")).0;
    find_word(line, from, b"", name)
        .or(find_word(line, from, b"", view))
        .unwrap_or(first_place(line))
}

/// Where the unknown name is: in a tree after `in`, in a line `view` at its end.
pub fn unknown_place(line: &[u8], name: &[u8]) -> usize
    ensures within { result ≤ length line.now }
{
    match word_of(line).0 {
        Word::Tree => find_word(line, 0, b"in", name).unwrap_or(first_place(line)),
        Word::View => word_start(line.trim_ascii_end()),
        _ => place_of(line, name),
    }
}

/// Where the name is that is taken: in a tree the first object of that name, or the second if the tree itself
/// has the name twice.
pub fn taken_place(line: &[u8], name: &[u8], is_twice: bool) -> usize
    ensures within { result ≤ length line.now }
{
    if !matches!(word_of(line).0, Word::Tree) {
        return place_of(line, name);
    }
    let first = find_word(line, 0, b"name", name).unwrap_or(first_place(line));
    if is_twice {
        find_word(line, first.saturating_add(1), b"name", name).unwrap_or(first_place(line))
    } else {
        first
    }
}

/// Where the text after the first word begins.
pub(crate) fn argument_place(line: &[u8]) -> usize
    ensures within { result ≤ length line.now }
{
    line.len()
        .saturating_sub(behind_word(line).trim_ascii_start().len())
}

// Where the attribute is by which a format aligns its views.
fn align_place(line: &[u8]) -> usize
    ensures within { result ≤ length line.now }
{
    let rest = behind_word(behind_word(behind_word(line)));
    line.len().saturating_sub(rest.trim_ascii_start().len())
}

// Whether the first view after a bar is the window.
fn begins_with_window(text: &[u8]) -> bool {
    let view = cut(text, before_sign(text, b"[").saturating_add(1)).1;
    view.trim_ascii_start().starts_with(b"window")
}

// Where the bar beside the window is: the first bar or the last.
fn bar_place(line: &[u8]) -> usize
    ensures within { result ≤ length line.now }
{
    let first = before_sign(line, b"|");
    if begins_with_window(cut(line, first).1) {
        return first;
    }
    line.iter().rposition(|b| *b == b'|').unwrap_or(first)
}

/// Where a word of more than `most` bytes begins, or else the first word.
pub fn long_place(line: &[u8], most: usize) -> usize
    ensures within { result ≤ length line.now }
{
    for place in 0..line.len() {
        if word_len(cut(line, place).1) > most {
            return place;
        }
    }
    first_place(line)
}

/// Where the text is right after a `"`, at `start` or to the right of it; `start` if it isn't there.
pub(crate) fn quoted_place(line: &[u8], start: usize, text: &[u8]) -> usize {
    for at in start..line.len() {
        let (front, rest) = cut(line, at);
        if front.ends_with(b"\"") && rest.starts_with(text) && !text.is_empty() {
            return at;
        }
    }
    start
}

/// Where a cause shows, by the words that name it in the reply and by its mark; or the first word.
pub fn cause_place(line: &[u8], words: &str, mark: &str) -> usize
    ensures within { result ≤ length line.now }
{
    match words {
        "kind align" => align_place(line),
        "kind parent" => bar_place(line),
        "limit budget" => argument_place(line),
        _ if mark.is_empty() => first_place(line),
        _ => find_word(line, 0, b"", mark.as_bytes()).unwrap_or(first_place(line)),
    }
}

/// The cure of an alignment that runs along its format.
pub fn align_cure(line: &[u8]) -> &'static str {
    if find_word(line, 0, b"", b"V:").is_some() {
        "behind V: that is `left`, `right` or `centerX`; the others are for H:"
    } else {
        "behind H: that is `top`, `bottom` or `centerY`; the others are for V:"
    }
}
