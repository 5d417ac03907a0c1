// Numbers as they are written: without leading zeros, a sign only below 0, fractions in lowest terms.
ghost use Rattle.std.specs.Prelude.{◌≡◌, ℕ, ℤ, ◌<◌, ◌≤◌, ◌^◌, ◌==◌, IfSome, IfNone, length, decimal};
ghost use Rattle.std.specs.Prelude.{unsigned_abs, IsTrue, ◌↔◌, slice_index, List, ◌∷◌};
ghost use Rattle.std.specs.Str.Parse.{digits_value};
ghost use Rattle.std.specs.Fmt.{signed_decimal};
ghost use Rattle.frac_core.specs.Fraction.{Fraction, IsKept};
ghost use Rattle.frac_core.specs.Text.{fraction_text};
ghost use Rattle.span_text.specs.Bytes.{digit_0, minus};
ghost use Rattle.span_text.specs.declared.limits.TheConstants.{WHOLE_DIGITS};
ghost use Rattle.problem_reading.specs.Words.{AreDigits};

use crate::words::first_part;
use frac_core::{Frac, PART_BOUND};
use span_text::WHOLE_DIGITS;

// The value of one to nineteen digits, leading zeros among them.
fn digits(word: &[u8]) -> Option<u64>
    ensures some { IfSome result (λ n. AreDigits word.now × (n ≡ digits_value 10 word.now)) }
    ensures none { IfNone result (AreDigits word.now → ⊥) }
{
    if word.is_empty() || word.len() > WHOLE_DIGITS {
        return None;
    }
    let mut value = 0;
    for digit in word {
        if !digit.is_ascii_digit() {
            return None;
        }
        value = value * 10 + u64::from(*digit - b'0');
    }
    Some(value)
}

// Whether the word has a zero before other bytes.
fn has_leading_zero(word: &[u8]) -> bool
    ensures { IsTrue result ↔ ((1 < length word.now) × (slice_index word.now 0 ≡ digit_0)) }
{
    word.len() > 1 && word.first() == Some(&b'0')
}

// A number of at most nineteen digits.
fn plain_number(word: &[u8]) -> Option<u64>
    ensures some { IfSome result (λ n. (n < 10 ^ WHOLE_DIGITS) × (word.now ≡ decimal n)) }
    ensures none { IfNone result ((n : ℕ) → n < 10 ^ WHOLE_DIGITS → word.now ≡ decimal n → ⊥) }
{
    if has_leading_zero(word) {
        None
    } else {
        digits(word)
    }
}

/// A whole number between these two.
pub fn natural(word: &[u8], least: u64, most: u64) -> Option<u64>
    requires { most < 10 ^ WHOLE_DIGITS }
    ensures some { IfSome result (λ n. (least ≤ n) × (n ≤ most) × (word.now ≡ decimal n)) }
    ensures none { IfNone result ((n : ℕ) → least ≤ n → n ≤ most → word.now ≡ decimal n → ⊥) }
{
    let value = plain_number(word)?;
    if least <= value && value <= most {
        Some(value)
    } else {
        None
    }
}

// What follows a minus.
fn after_minus(word: &[u8]) -> Option<&[u8]>
    ensures some { IfSome result (λ size. word.now ≡ minus ∷ size.now) }
    ensures none { IfNone result ((size : List ℕ) → word.now ≡ minus ∷ size → ⊥) }
{
    match word {
        [b'-', size @ ..] => Some(size),
        _ => None,
    }
}

/// A whole number of this size at most.
pub fn integer(word: &[u8], most: u64) -> Option<i64>
    requires { most < 2 ^ 62 }
    ensures some { IfSome result (λ z. (unsigned_abs z ≤ most) × (word.now ≡ signed_decimal z)) }
    ensures none { IfNone result ((z : ℤ) → unsigned_abs z ≤ most → word.now ≡ signed_decimal z → ⊥) }
{
    match after_minus(word) {
        Some(size) => {
            let size = natural(size, 1, most)?;
            Some(-(size as i64))
        }
        None => {
            let size = natural(word, 0, most)?;
            Some(size as i64)
        }
    }
}

/// The greatest size of a number that fits.
pub const FITTING: u64 = (PART_BOUND - 1) as u64;

// The fraction with these parts, if they are in lowest terms.
fn lowest(num: i64, den: u64) -> Option<Frac>
    requires num { unsigned_abs num ≤ FITTING }
    requires den { (0 < den) × (den ≤ FITTING) }
    ensures some { IfSome result (λ f. f ≡ record { num = num; den = den }) }
    ensures kept { IfSome result IsKept }
    ensures none { IfNone result (IsKept (record { num = num; den = den }) → ⊥) }
{
    let made = Frac::of(i128::from(num), i128::from(den)).ok()?;
    if made.num() == num && made.den() == den as i64 {
        Some(made)
    } else {
        None
    }
}

// The fraction that this word is over 1.
fn whole(word: &[u8]) -> Option<Frac>
    ensures some { IfSome result (λ f. IsKept f × (f.den ≡ 1) × (word.now ≡ signed_decimal f.num)) }
    ensures none { IfNone result ((f : Fraction) → IsKept f → f.den ≡ 1 → word.now ≡ signed_decimal f.num
        → ⊥) }
{
    let num = integer(word, FITTING)?;
    lowest(num, 1)
}

// The fraction of these two words, the second of which isn't 1.
fn quotient(above: &[u8], below: &[u8]) -> Option<Frac>
    ensures some { IfSome result (λ f. IsKept f × (2 ≤ f.den) × (above.now ≡ signed_decimal f.num)
        × (below.now ≡ decimal f.den)) }
    ensures none { IfNone result ((f : Fraction) → IsKept f → 2 ≤ f.den → above.now ≡ signed_decimal f.num
        → below.now ≡ decimal f.den → ⊥) }
{
    let num = integer(above, FITTING)?;
    let den = natural(below, 2, FITTING)?;
    lowest(num, den)
}

/// A fraction, as `p/q` or as `p` where q is 1.
pub(crate) fn fraction(word: &[u8]) -> Option<Frac>
    ensures some { IfSome result (λ f. IsKept f × (word.now ≡ fraction_text f)) }
    ensures none { IfNone result ((f : Fraction) → IsKept f → word.now ≡ fraction_text f → ⊥) }
{
    let cut = first_part(word, b'/');
    match cut.rest {
        None => whole(cut.part),
        Some(rest) => quotient(cut.part, rest),
    }
}
