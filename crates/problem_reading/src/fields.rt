// The next word of a line, as a number, a fraction or a fixed word.
ghost use Rattle.std.specs.Prelude.{◌≡◌, ℕ, ◌<◌, ◌≤◌, ◌^◌, ◌∷◌, List, IfSome, IfNone, IsTrue, decimal};
ghost use Rattle.frac_core.specs.Fraction.{Fraction, IsKept};
ghost use Rattle.frac_core.specs.Text.{fraction_text};
ghost use Rattle.span_text.specs.declared.limits.TheConstants.{WHOLE_DIGITS};
ghost use Rattle.problem_core.specs.Layout.{rel_word};
ghost use Rattle.problem_core.specs.declared.parts.Rel.{Rel};

use crate::numbers::{fraction, natural};
use crate::words::Words;
use frac_core::Frac;
use problem_core::Rel;

/// A whole number between these two.
pub fn next_number(words: &mut Words, least: u64, most: u64) -> Option<u64>
    requires { most < 10 ^ WHOLE_DIGITS }
    ensures some { IfSome result (λ n. (least ≤ n) × (n ≤ most) × (words.old ≡ decimal n ∷ words.new)) }
    ensures none { IfNone result ((n : ℕ) (more : List (List ℕ)) → least ≤ n → n ≤ most
        → words.old ≡ decimal n ∷ more → ⊥) }
{
    let word = words.next()?;
    natural(word, least, most)
}

/// The fraction that the next word writes, if it is in the form.
pub fn next_fraction(words: &mut Words) -> Option<Frac>
    ensures some { IfSome result (λ f. IsKept f × (words.old ≡ fraction_text f ∷ words.new)) }
    ensures none { IfNone result ((f : Fraction) (more : List (List ℕ)) → IsKept f
        → words.old ≡ fraction_text f ∷ more → ⊥) }
{
    let word = words.next()?;
    fraction(word)
}

// The relation that a word writes.
fn relation(word: &[u8]) -> Option<Rel>
    ensures some { IfSome result (λ r. word.now ≡ rel_word r) }
    ensures none { IfNone result ((r : Rel) → word.now ≡ rel_word r → ⊥) }
{
    if word == b"==".as_slice() {
        Some(Rel::Eq)
    } else if word == b"<=".as_slice() {
        Some(Rel::Le)
    } else if word == b">=".as_slice() {
        Some(Rel::Ge)
    } else {
        None
    }
}

/// The relation that the next word writes, if it is one.
pub(crate) fn next_relation(words: &mut Words) -> Option<Rel>
    ensures some { IfSome result (λ r. words.old ≡ rel_word r ∷ words.new) }
    ensures none { IfNone result ((r : Rel) (more : List (List ℕ)) → words.old ≡ rel_word r ∷ more → ⊥) }
{
    let word = words.next()?;
    relation(word)
}

/// Whether the next word is this one.
pub fn next_is(words: &mut Words, expected: &[u8]) -> bool
    ensures yes { IsTrue result → words.old ≡ expected.now ∷ words.new }
    ensures no { (more : List (List ℕ)) → words.old ≡ expected.now ∷ more → IsTrue result }
{
    let Some(word) = words.next() else {
        return false;
    };
    word == expected
}
