// The lines of claims.
ghost use Rattle.std.specs.Prelude.{◌≡◌, ◌∷◌, [], ℕ, IfSome, IfNone, IsTrue, ◌↔◌};
ghost use Rattle.frac_core.specs.Fraction.{Fraction};
ghost use Rattle.cert_core.specs.declared.by.By.{By};
ghost use Rattle.claim_writing.specs.declared.claim.LevelLine.{LevelLine};
ghost use Rattle.claim_text.specs.declared.claim.lines.ClaimLine as item;
ghost use Rattle.claim_text.specs.Claims.ClaimTexts.{Says};
ghost use Rattle.problem_reading.specs.Words.{words};
ghost use Rattle.claim_writing.specs.ClaimLines.{value_words, level_words, by_words, IsValue};
ghost use Rattle.claim_writing.specs.ClaimLines.{IsLevelLine, IsBy};

use crate::claim::fields::{next_integer, next_level_name, next_nonzero, next_row_name};
use crate::claim::path_lines::{PathLine, read_kind, read_path_line};
use cert_core::By;
use claim_writing::LevelLine;
use frac_core::Frac;
use problem_core::NUMBER_LIMIT;
use problem_reading::{FITTING, Words, next_fraction, next_is, next_number};

// The attribute and the value in a line.
fn read_value(line: &[u8]) -> Option<(u32, Frac)>
    ensures some { IfSome result (λ v. IsValue v × (words line.now ≡ value_words v)) }
    ensures none { IfNone result ((v : ℕ × Fraction) → IsValue v → words line.now ≡ value_words v → ⊥) }
{
    let mut words = Words::of(line);
    if !next_is(&mut words, b"value") {
        return None;
    }
    let attr = next_number(&mut words, 1, NUMBER_LIMIT as u64)?;
    let value = next_fraction(&mut words)?;
    match words.next() {
        None => Some((attr as u32, value)),
        Some(_) => None,
    }
}

// The level and the scale in a line.
fn read_level(line: &[u8]) -> Option<LevelLine>
    ensures some { IfSome result (λ l. IsLevelLine l × (words line.now ≡ level_words l)) }
    ensures none { IfNone result ((l : LevelLine) → IsLevelLine l → words line.now ≡ level_words l → ⊥) }
{
    let mut words = Words::of(line);
    if !next_is(&mut words, b"level") {
        return None;
    }
    let level = next_level_name(&mut words)?;
    let scale = next_integer(&mut words, FITTING)?;
    match words.next() {
        None => Some(LevelLine { level, scale }),
        Some(_) => None,
    }
}

// The row and the multiplier in a line.
fn read_by(line: &[u8]) -> Option<By>
    ensures some { IfSome result (λ b. IsBy b × (words line.now ≡ by_words b)) }
    ensures none { IfNone result ((b : By) → IsBy b → words line.now ≡ by_words b → ⊥) }
{
    let mut words = Words::of(line);
    if !next_is(&mut words, b"by") {
        return None;
    }
    let times = next_nonzero(&mut words, FITTING)?;
    if !next_is(&mut words, b"row") {
        return None;
    }
    let row = next_row_name(&mut words)?;
    match words.next() {
        None => Some(By { row, times }),
        Some(_) => None,
    }
}

// Whether the line is this one word.
fn is_word(line: &[u8], word: &[u8]) -> bool
    ensures { IsTrue result ↔ (words line.now ≡ word.now ∷ []) }
{
    let mut words = Words::of(line);
    next_is(&mut words, word) && words.next().is_none()
}

/// A line of a claim.
#[derive(Clone, Copy)]
pub(crate) enum ClaimLine {
    OfValue((u32, Frac)),
    OfBest,
    OfConflict,
    OfLevel(LevelLine),
    OfBy(By),
    OfPath(bool),
    OfPart(PathLine),
}

/// The line of a claim, if it is in the form.
pub(crate) fn read_claim_line(line: &[u8]) -> Option<ClaimLine>
    ensures some { IfSome result (Says line.now) }
    ensures none { IfNone result ((i : item.ClaimLine) → Says line.now i → ⊥) }
{
    if let Some(by) = read_by(line) {
        return Some(ClaimLine::OfBy(by));
    }
    if let Some(level) = read_level(line) {
        return Some(ClaimLine::OfLevel(level));
    }
    if let Some(value) = read_value(line) {
        return Some(ClaimLine::OfValue(value));
    }
    if let Some(part) = read_path_line(line) {
        return Some(ClaimLine::OfPart(part));
    }
    if let Some(dual) = read_kind(line) {
        return Some(ClaimLine::OfPath(dual));
    }
    if is_word(line, b"best") {
        return Some(ClaimLine::OfBest);
    }
    if is_word(line, b"conflict") {
        return Some(ClaimLine::OfConflict);
    }
    None
}
