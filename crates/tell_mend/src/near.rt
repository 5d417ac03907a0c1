// Words and names that are similar to another.
use crate::reader::Reader;
use span_text::pieces::begins_with_letter;
use strsim::osa_distance;

// How far apart two words are: 0 if only the case of letters differs, or else one more than their edit
// distance, in which swapping two letters counts once.
fn distance(reader: &mut Reader, a: &str, b: &str) -> usize {
    if a.eq_ignore_ascii_case(b) {
        return 0;
    }
    match osa_distance(reader.alloc(), a, b) {
        Ok(far) => far.saturating_add(1),
        Err(_) => {
            reader.fail_if(true);
            usize::MAX
        }
    }
}

/// The most similar to a typed word of the names taken so far.
#[derive(Clone, Copy)]
pub struct Near<'a> {
    typed: &'a str,
    name: &'a str,
    far: usize,
}

impl<'a> Near<'a> {
    /// No name so far. A long word may differ more from the name than a short one.
    pub fn new(typed: &'a str) -> Near<'a> {
        Near {
            typed,
            name: "",
            far: if typed.len() > 5 { 4 } else { 3 },
        }
    }

    /// Takes a name, if it is nearer.
    pub fn take(&mut self, reader: &mut Reader, name: &'a str) {
        let far = distance(reader, self.typed, name);
        if far < self.far && far < name.len() {
            self.name = name;
            self.far = far;
        }
    }

    /// The nearest name; empty if none is similar.
    pub fn name(&self) -> &'a str {
        self.name
    }
}

// The word of a line of what is expected; empty unless it is a word in quotes that may come without a blank.
fn word_of(line: &str) -> &str {
    let word = line.strip_prefix('`').unwrap_or("");
    let word = word.strip_suffix('`').unwrap_or("");
    if begins_with_letter(word.as_bytes()) {
        word
    } else {
        ""
    }
}

/// The expected word most similar to the typed one; empty if none is similar.
pub fn likest<'a>(reader: &mut Reader, typed: &'a str, expected: &'a [u8]) -> &'a str {
    let mut near = Near::new(typed);
    for line in std::str::from_utf8(expected).unwrap_or("").lines() {
        near.take(reader, word_of(line));
    }
    near.name()
}
