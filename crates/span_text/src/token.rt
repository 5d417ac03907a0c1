// The tokens of a line, more coarsely than any grammar cuts it.
ghost use Rattle.std.specs.Prelude.{◌≡◌, ◌<◌, ◌≤◌, ◌-◌, length, take, drop, false};
ghost use Rattle.std.specs.Str.{IsCharBoundary};
ghost use Rattle.span_text.specs.Reading.{back, starts};
ghost use Rattle.span_text.specs.Classes.{is_space, is_word};
ghost use Rattle.span_text.specs.TextCuts.Cutting.{IsToken, IsOther, begins_relation};

use crate::pieces;

/// A token: the slice of its line from `start` to `end`.
#[derive(Clone, Copy)]
pub struct Token<'a> {
    pub text: &'a str,
    pub start: usize,
    pub end: usize,
}

/// The tokens that are left.
#[derive(Drop)]
pub struct Tokens<'a> {
    pub(crate) line: &'a str,
    pub(crate) rest: &'a str,
    ghost within: { length rest.now ≤ length line.now },
    ghost stands: { rest.now ≡ drop (length line.now - length rest.now) line.now },
}

impl<'a> Iterator for Tokens<'a> {
    ghost use Rattle.std.specs.Iterator.{at_most};
    ghost use Rattle.span_text.specs.TextCuts.NextTokens.{NextToken};

    type Item = Token<'a>;

    ghost next_gives = { NextToken };

    ghost remaining = { λ s. at_most (length s.rest.now) };

    fn next(&mut self) -> Option<Token<'a>> {
        let rest = without_spaces(self.rest);
        if rest.is_empty() {
            return None;
        }
        let start = self.line.len() - rest.len();
        let (text, after) = rest.split_at(token_len(rest));
        self.rest = after;
        Some(Token {
            text,
            start,
            end: start + text.len(),
        })
    }
}

// A text without the spaces in front.
fn without_spaces(text: &str) -> &str
    ensures { result.now ≡ back is_space text.now }
{
    let rest = pieces::skip(text.as_bytes());
    match std::str::from_utf8(rest) {
        Ok(rest) => rest,
        Err(_) => unreachable!(),
    }
}

// Whether a text begins with a relation.
fn begins_relation(text: &[u8]) -> bool
    ensures { result ≡ begins_relation text.now }
{
    matches!(text, [b'<' | b'=' | b'>', b'=', ..])
}

// The length of a text's first character.
fn char_len(text: &str) -> usize
    requires some { 0 < length text.now }
    requires no_word { starts is_word text.now ≡ false }
    requires no_space { starts is_space text.now ≡ false }
    requires no_relation { begins_relation text.now ≡ false }
    ensures boundary { IsCharBoundary text.now result }
    ensures other { IsOther (take result text.now) (drop result text.now) }
{
    let mut chars = text.chars();
    match chars.next() {
        Some(_) => text.len() - chars.as_str().len(),
        None => unreachable!(),
    }
}

// The length of the token that a text begins with.
fn token_len(text: &str) -> usize
    requires some { 0 < length text.now }
    requires no_space { starts is_space text.now ≡ false }
    ensures boundary { IsCharBoundary text.now result }
    ensures some { 0 < result }
    ensures token { IsToken (take result text.now) (drop result text.now) }
{
    let bytes = text.as_bytes();
    let run = pieces::word_len(bytes);
    if run > 0 {
        run
    } else if begins_relation(bytes) {
        2
    } else {
        char_len(text)
    }
}
