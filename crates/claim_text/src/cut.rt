// The cut of the input of a check into a problem and a claim.
ghost use Rattle.std.specs.Prelude.{◌≡◌, ◌<◌, ◌≤◌, ◌∷◌, [], List, ℕ, length, drop};
ghost use Rattle.std.specs.Prelude.{IsTrue, ◌↔◌, MatchOption};
ghost use Rattle.std.specs.Str.Lines.{lines};
ghost use Rattle.claim_text.specs.Cut.{IsClaimWord, BeginsClaim, IsClaimStart, IsWithoutOk, IsCut, ok_line};
ghost use Rattle.claim_text.specs.CutLines.{IsLineLength, IsLastStart, IsCutPlace};
ghost use Rattle.problem_reading.specs.declared.limits.TheConstants.{TEXT_LIMIT};

use problem_reading::first_part;
use span_text::{first_word, lines};

/// The input of a check: the texts of a problem and of a claim, and the count of lines before the claim.
#[derive(Clone, Copy, Debug)]
pub struct CheckInput<'a> {
    pub problem: &'a [u8],
    pub claim: &'a [u8],
    pub lines_before: u32,
}

fn is_claim_word(word: &[u8]) -> bool
    ensures { IsTrue result ↔ IsClaimWord word.now }
{
    word == b"value".as_slice()
        || word == b"best".as_slice()
        || word == b"conflict".as_slice()
        || word == b"path".as_slice()
}

// Whether a claim may begin with the line.
fn begins_claim(line: &[u8]) -> bool
    ensures { IsTrue result ↔ BeginsClaim line.now }
{
    match first_word(line) {
        Some((word, _)) => is_claim_word(word),
        None => false,
    }
}

// The first line of a text, if it has one.
fn first_line(text: &[u8]) -> Option<&[u8]>
    ensures { MatchOption result (lines text.now ≡ []) (λ line. (more : List (List ℕ))
        × (lines text.now ≡ line.now ∷ more)) }
{
    Some(lines(text).next()?.bytes)
}

// The length of the first line of a text that isn't empty, with its end.
fn line_length(text: &[u8]) -> usize
    requires { 0 < length text.now }
    ensures { IsLineLength text.now result }
{
    match first_part(text, b'\n').rest {
        Some(rest) => text.len() - rest.len(),
        None => text.len(),
    }
}

// The place where a claim begins, and the count of lines before it.
#[derive(Clone, Copy)]
struct ClaimStart {
    at: usize,
    count: u32,
}

// The first line with which a claim may begin.
fn claim_start(input: &[u8]) -> ClaimStart
    requires { length input.now < TEXT_LIMIT }
    ensures place { IsCutPlace input.now result.at result.count }
    ensures starts { IsClaimStart (lines (drop result.at input.now)) }
{
    let mut at = 0;
    let mut count = 0;
    while let Some(line) = first_line(&input[at..]) {
        if begins_claim(line) {
            return ClaimStart { at, count };
        }
        at += line_length(&input[at..]);
        count += 1;
    }
    ClaimStart { at, count }
}

// The place where the last line of a text that isn't empty begins.
fn last_line_start(text: &[u8]) -> usize
    requires { 0 < length text.now }
    ensures { IsLastStart text.now result }
{
    let mut at = 0;
    loop {
        let next = at + line_length(&text[at..]);
        if next == text.len() {
            return at;
        }
        at = next;
    }
}

// Whether the first line is `ok`.
fn is_ok_line(text: &[u8]) -> bool
    ensures yes { IsTrue result → (more : List (List ℕ)) × (lines text.now ≡ ok_line ∷ more) }
    ensures no { (more : List (List ℕ)) → lines text.now ≡ ok_line ∷ more → IsTrue result }
{
    match first_line(text) {
        Some(line) => line == b"ok".as_slice(),
        None => false,
    }
}

// A text without its last line, if that is `ok`.
fn without_ok(text: &[u8]) -> &[u8]
    ensures without { IsWithoutOk (lines text.now) (lines result.now) }
    ensures short { length result.now ≤ length text.now }
{
    if text.is_empty() {
        return text;
    }
    let at = last_line_start(text);
    if is_ok_line(&text[at..]) {
        &text[..at]
    } else {
        text
    }
}

/// Cuts the input of a check. The problem is the text before the first line whose first word is `value`,
/// `best`, `conflict` or `path`. The claim is the rest without an ending line `ok`.
pub fn cut_input(input: &[u8]) -> CheckInput<'_>
    requires { length input.now < TEXT_LIMIT }
    ensures cut { IsCut (lines input.now) (lines result.problem.now) (lines result.claim.now) }
    ensures count { result.lines_before ≡ length (lines result.problem.now) }
    ensures problem_short { length result.problem.now ≤ length input.now }
    ensures claim_short { length result.claim.now ≤ length input.now }
{
    let start = claim_start(input);
    CheckInput {
        problem: &input[..start.at],
        claim: without_ok(&input[start.at..]),
        lines_before: start.count,
    }
}
