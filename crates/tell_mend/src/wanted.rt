// The kind of thing that a name at a place of a line must belong to.
use crate::asking::expected;
use crate::bytes::cut;
use crate::near::likest;
use crate::reader::Reader;
use crate::words::{Word, makes_metric, makes_view, word_of};
use span_text::lines;

/// The kind of thing that a name must belong to.
#[derive(Clone, Copy)]
pub enum Wanted {
    View,
    Metric,
    /// A view or a metric: the size in a view's brackets.
    Size,
    Group,
    Suggestion,
    Priority,
}

// Whether the text ends within a view's brackets.
fn is_inside(front: &[u8]) -> bool {
    let mut is_inside = false;
    for b in front {
        is_inside = (is_inside || *b == b'[') && *b != b']';
    }
    is_inside
}

// The kind wanted between these texts of a format or a relation.
fn wanted_between(front: &[u8], after: &[u8]) -> Wanted {
    if front.ends_with(b"@") {
        Wanted::Priority
    } else if front.ends_with(b"[") || after.starts_with(b".") {
        Wanted::View
    } else if is_inside(front) {
        Wanted::Size
    } else {
        Wanted::Metric
    }
}

/// The kind wanted at this place of the line, where the name is.
pub fn wanted_at(line: &[u8], at: usize, name: &[u8]) -> Wanted {
    let (front, rest) = cut(line, at);
    match word_of(line).0 {
        Word::Remove => Wanted::Group,
        Word::Release if name.contains(&b'.') => Wanted::Suggestion,
        Word::Vfl | Word::Constrain | Word::Suggest => {
            wanted_between(front.trim_ascii_end(), cut(rest, name.len()).1)
        }
        _ => Wanted::View,
    }
}

impl Wanted {
    /// Whether a view is of this kind.
    pub fn is_view(self) -> bool {
        matches!(self, Wanted::View | Wanted::Size)
    }

    /// Whether a metric is of this kind.
    pub fn is_metric(self) -> bool {
        matches!(self, Wanted::Metric | Wanted::Size | Wanted::Priority)
    }

    /// Whether a number may replace the name.
    pub fn is_number(self) -> bool {
        matches!(self, Wanted::Metric | Wanted::Size)
    }

    /// The kind in words.
    pub fn word(self) -> &'static str {
        match self {
            Wanted::View => "a view",
            Wanted::Metric | Wanted::Priority => "a number or a metric",
            Wanted::Size => "a view, a number or a metric",
            Wanted::Group => "a group",
            Wanted::Suggestion => "a suggestion",
        }
    }

    /// How such a thing is made: the words before and after its name.
    pub fn how(self) -> (&'static str, &'static str) {
        match self {
            Wanted::View => ("`view ", "` in front of this line makes it"),
            Wanted::Metric => ("`metric ", " 8`, say, in front of this line makes it"),
            Wanted::Size => ("`metric ", " 100`, say, in front of this line makes it"),
            Wanted::Group => ("no line of a group `", "` is held"),
            Wanted::Suggestion => ("no suggestion `", "` is held; `left` and `leading` are two"),
            Wanted::Priority => ("`metric ", " 750`, say, in front of this line makes it"),
        }
    }

    /// The number of the script's first line that would make it; 0 if there is none.
    pub fn maker(self, script: &[u8], name: &[u8]) -> usize {
        let mut number: usize = 0;
        for line in lines(script) {
            number = number.saturating_add(1);
            let is_made = (self.is_view() && makes_view(line.bytes, name))
                || (self.is_metric() && makes_metric(line.bytes, name));
            if is_made {
                return number;
            }
        }
        0
    }
}

// Whether the name is similar to a word that is expected there.
fn is_like_expected(reader: &mut Reader, line: &[u8], at: usize, name: &str) -> bool {
    let words = expected(reader, line, at);
    let is_like = !likest(reader, name, &words).is_empty();
    drop(words);
    is_like
}

/// Whether the name is a word for an attribute, or similar to one.
pub fn is_attribute(reader: &mut Reader, name: &str) -> bool {
    let mut line = Vec::new(reader.alloc());
    reader.put_all(&mut line, &[b"release a.", name.as_bytes()]);
    let is_like = match reader.leaves(&line) {
        Some(at) => is_like_expected(reader, &line, at, name),
        None => true,
    };
    drop(line);
    is_like
}

// Other toolkits' words for priorities, and the usual priority of each.
const RANKS: &str = "\
required~1000
strong~750
high~750
medium~500
low~250
weak~250";

/// The usual priority of another toolkit's word for one; empty if it is no such word.
pub fn rank_for(name: &str) -> &'static str {
    for row in RANKS.lines() {
        match row.split_once('~') {
            Some((word, rank)) if name.eq_ignore_ascii_case(word) => return rank,
            _ => (),
        }
    }
    ""
}
