// Where a cause shows that depends on a session's names, or on a limit of lines.
use crate::telling::Telling;
use edge_io::LINE_LIMIT;
use name_tables::{Metrics, NAME_LIMIT};
use problem_core::REQUIRED;
use span_text::pieces::word_len;
use tell_finding::{cause_place, long_place, own_place};
use tell_mend::{cut, ends_in_word};
use view_tree::Tree;

// Whether `rest` begins with a view's name without an attribute.
fn is_bare_view(tree: &Tree, front: &[u8], rest: &[u8]) -> bool {
    let (word, after) = cut(rest, word_len(rest));
    let is_whole = !ends_in_word(front) && !front.ends_with(b".") && !after.starts_with(b".");
    let name = std::str::from_utf8(word).unwrap_or("");
    is_whole && tree.find(name).is_some()
}

// Where a view is in place of a number, outside a view's brackets.
fn object_place(tree: &Tree, line: &[u8]) -> Option<usize> {
    let start = own_place(line);
    let mut is_inside = false;
    for (place, b) in line.iter().enumerate() {
        let (front, rest) = cut(line, place);
        is_inside = (is_inside || *b == b'[') && *b != b']';
        if place >= start && !is_inside && is_bare_view(tree, front, rest) {
            return Some(place);
        }
    }
    None
}

// Whether the text begins with a priority: a number, or a metric's name.
fn begins_with_rank(metrics: &Metrics, text: &[u8]) -> bool {
    let (word, after) = cut(text, word_len(text));
    let word = std::str::from_utf8(word).unwrap_or("");
    let number = match (word.parse::<i64>(), metrics.get(word)) {
        (Ok(number), _) => number,
        (Err(_), Some(value)) if value.den() == 1 => value.num(),
        _ => 0,
    };
    1 <= number && number <= REQUIRED as i64 && !after.starts_with(b".")
}

// Where an `@` is that no priority follows.
fn priority_place(metrics: &Metrics, line: &[u8]) -> Option<usize> {
    for (place, b) in line.iter().enumerate() {
        let (_, after) = cut(line, place.saturating_add(1));
        if *b == b'@' && !begins_with_rank(metrics, after.trim_ascii_start()) {
            return Some(place);
        }
    }
    None
}

impl Telling<'_> {
    /// Where a cause shows, by the words that name it in the reply and by its mark.
    pub(crate) fn cause_place(&self, words: &str, mark: &str) -> usize {
        let found = match words {
            "kind object" => object_place(self.parts.tree, self.line),
            "kind priority" => priority_place(self.parts.metrics, self.line),
            "limit line" => Some(LINE_LIMIT),
            "limit name" => Some(long_place(self.line, NAME_LIMIT)),
            _ => None,
        };
        match found {
            Some(place) => place,
            None => cause_place(self.line, words, mark),
        }
    }
}
