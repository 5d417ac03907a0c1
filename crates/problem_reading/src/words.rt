// The words of a line, cut at each single space.
ghost use Rattle.std.specs.Prelude.{◌≡◌, ◌<◌, ◌≤◌, ◌==◌, ◌∷◌, ◌++◌, [], All, List, ℕ, false, length, take};
ghost use Rattle.std.specs.Prelude.{slice_index, MatchOption};
ghost use Rattle.problem_reading.specs.Words.{parts, words};

use std::marker::Model;

/// A part of a text before a byte, and what stands behind that byte.
#[derive(Drop)]
pub struct Cut<'a> {
    pub part: &'a [u8],
    pub rest: Option<&'a [u8]>,
}

// The index of the first such byte, or the length where there is none.
fn end_of_part(text: &[u8], end: u8) -> usize
    ensures within { result ≤ length text.now }
    ensures before { All (λ b. (b == end) ≡ false) (take result text.now) }
    ensures found { result < length text.now → slice_index text.now result ≡ end }
{
    text.iter().position(|b| *b == end).unwrap_or(text.len())
}

/// The part of a text before the first such byte.
pub fn first_part(text: &[u8], end: u8) -> Cut<'_>
    ensures text { MatchOption result.rest (text.now ≡ result.part.now) (λ rest. text.now
        ≡ result.part.now ++ end ∷ rest.now) }
    ensures free { All (λ b. (b == end) ≡ false) result.part.now }
    ensures parts { MatchOption result.rest (parts end text.now ≡ result.part.now ∷ [])
        (λ rest. parts end text.now ≡ result.part.now ∷ parts end rest.now) }
{
    let at = end_of_part(text, end);
    if at < text.len() {
        Cut {
            part: &text[..at],
            rest: Some(&text[at + 1..]),
        }
    } else {
        Cut {
            part: text,
            rest: None,
        }
    }
}

/// The words of a line that are left.
#[derive(Drop)]
pub struct Words<'a> {
    rest: Option<&'a [u8]>,
}

impl<'a> Model for Words<'a> {
    ghost use Rattle.std.specs.Prelude.{List, ℕ, []};
    ghost use Rattle.std.specs.Option.{option_map_or};
    ghost use Rattle.problem_reading.specs.Words.{words};

    ghost Value = { List (List ℕ) };

    ghost view = { λ w. option_map_or (λ rest. words rest.now) w.rest [] };
}

impl<'a> Words<'a> {
    /// All words of the line.
    pub fn of(line: &'a [u8]) -> Words<'a>
        ensures { result ≡ words line.now }
    {
        Words { rest: Some(line) }
    }

    /// The next word, if one is left.
    pub fn next(&mut self) -> Option<&'a [u8]>
        ensures { MatchOption result ((self.old ≡ [])
            × (self.new ≡ [])) (λ word. self.old ≡ word.now ∷ self.new) }
    {
        let text = self.rest?;
        let cut = first_part(text, b' ');
        self.rest = cut.rest;
        Some(cut.part)
    }
}
