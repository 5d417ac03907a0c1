// Numbers as words.
ghost use Rattle.std.specs.Prelude.{◌≡◌, ℕ, IfSome, IfNone, IsTrue, ◌↔◌, slice_index};
ghost use Rattle.span_text.specs.Bytes.{plus};
ghost use Rattle.program_words.specs.Words.{IsWritten, AreViews};
ghost use Rattle.program_words.specs.declared.numbers.TheConstants.{SEED_DIGITS};
ghost use Rattle.program_words.specs.Constants.{ConstantsAreAsSaid};

// The most digits of a seed.
const SEED_DIGITS: usize = 20;

// The most digits of a number of views.
const VIEWS_DIGITS: usize = 3;

// The least number of views of a script that is made.
const LEAST_VIEWS: u64 = 2;

// The greatest number of views of a script that is made.
const MOST_VIEWS: u64 = 120;

fn begins_with_plus(word: &str) -> bool
    ensures { IsTrue result ↔ (slice_index word.now 0 ≡ plus) }
{
    word.as_bytes().first() == Some(&b'+')
}

// The number below 2^64 that at most so many digits write.
fn number(word: &str, most: usize) -> Option<u64>
    ensures some { IfSome result (IsWritten most word.now) }
    ensures none { IfNone result ((n : ℕ) → IsWritten most word.now n → ⊥) }
{
    if word.len() > most || begins_with_plus(word) {
        return None;
    }
    word.parse::<u64>().ok()
}

/// The seed that a word writes.
pub(crate) fn seed_of(word: &str) -> Option<u64>
    ensures some { IfSome result (IsWritten SEED_DIGITS word.now) }
    ensures none { IfNone result ((n : ℕ) → IsWritten SEED_DIGITS word.now n → ⊥) }
{
    number(word, SEED_DIGITS)
}

/// The number of views that a word writes.
pub(crate) fn views_of(word: &str) -> Option<u32>
    ensures some { IfSome result (AreViews word.now) }
    ensures none { IfNone result ((n : ℕ) → AreViews word.now n → ⊥) }
{
    match number(word, VIEWS_DIGITS) {
        Some(views) if LEAST_VIEWS <= views && views <= MOST_VIEWS => Some(views as u32),
        _ => None,
    }
}

/// The constants that definitions and clauses cite by name are these numbers.
pub fn constants_are_as_said()
    ensures { ConstantsAreAsSaid }
{}
