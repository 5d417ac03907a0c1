// The words of claims: whole numbers, rows, marks and levels.
ghost use Rattle.std.specs.Prelude.{◌≡◌, ◌≢◌, pos, ◌<◌, ◌≤◌, ◌^◌, ◌++◌, ◌∷◌, [], ℕ, ℤ, List, IfSome, IfNone};
ghost use Rattle.std.specs.Prelude.{unsigned_abs};
ghost use Rattle.std.specs.Fmt.{signed_decimal};
ghost use Rattle.span_text.specs.Bytes.{lower_s};
ghost use Rattle.problem_core.specs.declared.parts.RowName.{RowName};
ghost use Rattle.problem_core.specs.declared.parts.Level.{Level};
ghost use Rattle.problem_core.specs.declared.parts.Side.{Side};
ghost use Rattle.problem_core.specs.declared.parts.Mark.{Mark};
ghost use Rattle.claim_writing.specs.PathTexts.{side_word, mark_text};
ghost use Rattle.claim_writing.specs.Names.{row_word, level_word, IsRowName, IsLevelName};

use problem_core::{Level, Mark, NUMBER_LIMIT, REQUIRED, RowName, Side};
use problem_reading::{Words, integer, natural};

// The word after an `s`.
fn after_s(word: &[u8]) -> Option<&[u8]>
    ensures some { IfSome result (λ rest. word.now ≡ lower_s ∷ rest.now) }
    ensures none { IfNone result ((rest : List ℕ) → word.now ≡ lower_s ∷ rest → ⊥) }
{
    match word {
        [b's', rest @ ..] => Some(rest),
        _ => None,
    }
}

// The row that the word names, if it names one.
fn row_name(word: &[u8]) -> Option<RowName>
    ensures some { IfSome result (λ r. IsRowName r × (word.now ≡ row_word r)) }
    ensures none { IfNone result ((r : RowName) → IsRowName r → word.now ≡ row_word r → ⊥) }
{
    match after_s(word) {
        Some(attr) => {
            let attr = natural(attr, 1, NUMBER_LIMIT as u64)?;
            Some(RowName::Stay(attr as u32))
        }
        None => {
            let id = natural(word, 1, NUMBER_LIMIT as u64)?;
            Some(RowName::Held(id as u32))
        }
    }
}

/// The level that the word names, if it names one.
pub(crate) fn level_name(word: &[u8]) -> Option<Level>
    ensures some { IfSome result (λ l. IsLevelName l × (word.now ≡ level_word l)) }
    ensures none { IfNone result ((l : Level) → IsLevelName l → word.now ≡ level_word l → ⊥) }
{
    match after_s(word) {
        Some(attr) => {
            let attr = natural(attr, 1, NUMBER_LIMIT as u64)?;
            Some(Level::Stay(attr as u32))
        }
        None => {
            let rank = natural(word, 0, REQUIRED as u64)?;
            Some(Level::Priority(rank as u16))
        }
    }
}

// The bytes before the last one, and that byte.
fn before_last(word: &[u8]) -> Option<(&[u8], u8)>
    ensures some { IfSome result (λ p. word.now ≡ p.0.now ++ p.1 ∷ []) }
    ensures none { IfNone result (word.now ≡ []) }
{
    match word {
        [front @ .., last] => Some((front, *last)),
        [] => None,
    }
}

fn side_of(byte: u8) -> Option<Side>
    ensures some { IfSome result (λ s. byte ∷ [] ≡ side_word s) }
    ensures none { IfNone result ((s : Side) → byte ∷ [] ≡ side_word s → ⊥) }
{
    match byte {
        b'+' => Some(Side::Over),
        b'-' => Some(Side::Under),
        _ => None,
    }
}

/// The mark that the word names, if it names one.
pub(crate) fn mark(word: &[u8]) -> Option<Mark>
    ensures some { IfSome result (λ m. IsRowName m.row × (word.now ≡ mark_text m)) }
    ensures none { IfNone result ((m : Mark) → IsRowName m.row → word.now ≡ mark_text m → ⊥) }
{
    let (row, last) = before_last(word)?;
    let side = side_of(last)?;
    let row = row_name(row)?;
    Some(Mark { row, side })
}

/// The mark that the next word names, if it names one.
pub(crate) fn next_mark(words: &mut Words) -> Option<Mark>
    ensures some { IfSome result (λ m. IsRowName m.row × (words.old ≡ mark_text m ∷ words.new)) }
    ensures none { IfNone result ((m : Mark) (more : List (List ℕ)) → IsRowName m.row
        → words.old ≡ mark_text m ∷ more → ⊥) }
{
    let word = words.next()?;
    mark(word)
}

/// A whole number of this size at most.
pub(crate) fn next_integer(words: &mut Words, most: u64) -> Option<i64>
    requires { most < 2 ^ 62 }
    ensures some { IfSome result (λ z. (unsigned_abs z ≤ most) × (words.old ≡ signed_decimal z ∷ words.new)) }
    ensures none { IfNone result ((z : ℤ) (more : List (List ℕ)) → unsigned_abs z ≤ most
        → words.old ≡ signed_decimal z ∷ more → ⊥) }
{
    let word = words.next()?;
    integer(word, most)
}

/// The row that the next word names, if it names one.
pub(crate) fn next_row_name(words: &mut Words) -> Option<RowName>
    ensures some { IfSome result (λ r. IsRowName r × (words.old ≡ row_word r ∷ words.new)) }
    ensures none { IfNone result ((r : RowName) (more : List (List ℕ)) → IsRowName r
        → words.old ≡ row_word r ∷ more → ⊥) }
{
    let word = words.next()?;
    row_name(word)
}

/// The level that the next word names, if it names one.
pub(crate) fn next_level_name(words: &mut Words) -> Option<Level>
    ensures some { IfSome result (λ l. IsLevelName l × (words.old ≡ level_word l ∷ words.new)) }
    ensures none { IfNone result ((l : Level) (more : List (List ℕ)) → IsLevelName l
        → words.old ≡ level_word l ∷ more → ⊥) }
{
    let word = words.next()?;
    level_name(word)
}

/// A whole number of this size at most, other than 0.
pub(crate) fn next_nonzero(words: &mut Words, most: u64) -> Option<i64>
    requires { most < 2 ^ 50 }
    ensures some { IfSome result (λ z. (unsigned_abs z ≤ most) × (z ≢ pos 0)
        × (words.old ≡ signed_decimal z ∷ words.new)) }
    ensures none { IfNone result ((z : ℤ) (more : List (List ℕ)) → unsigned_abs z ≤ most → z ≢ pos 0
        → words.old ≡ signed_decimal z ∷ more → ⊥) }
{
    let number = next_integer(words, most)?;
    if number == 0 { None } else { Some(number) }
}
