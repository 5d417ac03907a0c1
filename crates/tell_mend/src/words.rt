// The commands of lines, by their first words, and the names in them. The lines needn't be in the grammar.
use crate::bytes::{cut, find_word};
use span_text::pieces::word_len;
use span_text::{first_word, lines};

/// The command of a line, as far as explanations depend on it.
#[derive(Clone, Copy)]
pub enum Word {
    View,
    Tree,
    Metric,
    Vfl,
    Constrain,
    Suggest,
    Remove,
    Release,
    /// Any other.
    Other,
}

/// The command of a line by its first word, and the text after that.
pub fn word_of(line: &[u8]) -> (Word, &[u8]) {
    let (word, rest) = first_word(line).unwrap_or((b"", b""));
    let word = match word {
        b"view" => Word::View,
        b"tree" => Word::Tree,
        b"metric" => Word::Metric,
        b"vfl" => Word::Vfl,
        b"constrain" => Word::Constrain,
        b"suggest" => Word::Suggest,
        b"remove" => Word::Remove,
        b"release" => Word::Release,
        _ => Word::Other,
    };
    (word, rest)
}

// The word at the start of the text, after its blanks.
fn leading_word(text: &[u8]) -> &[u8] {
    let text = text.trim_ascii_start();
    cut(text, word_len(text)).0
}

/// The group of the line; empty if its command has none.
pub fn group_of(line: &[u8]) -> &[u8] {
    match word_of(line) {
        (Word::Vfl | Word::Constrain, rest) => leading_word(rest),
        _ => b"",
    }
}

/// Whether the line would make a view of this name.
pub fn makes_view(line: &[u8], name: &[u8]) -> bool {
    match word_of(line) {
        (Word::View, rest) => leading_word(rest) == name,
        (Word::Tree, rest) => find_word(rest, 0, b"name", name).is_some(),
        _ => false,
    }
}

/// Whether the line would make a metric of this name.
pub fn makes_metric(line: &[u8], name: &[u8]) -> bool {
    match word_of(line) {
        (Word::Metric, rest) => leading_word(rest) == name,
        _ => false,
    }
}

/// The line of this number, counted from 1; empty if there is none.
pub fn line_at(script: &[u8], number: usize) -> &[u8] {
    let mut count: usize = 0;
    for line in lines(script) {
        count = count.saturating_add(1);
        if count == number {
            return line.bytes;
        }
    }
    b""
}
