// The modes, and what MODE and the NUMBERs say.
ghost use Rattle.std.specs.Prelude.{◌≡◌, [], ◌∷◌, map, IfSome, IfNone, IsTrue, ◌↔◌, codes};
ghost use Rattle.program_words.specs.Words.{Says};

use crate::numbers::{seed_of, views_of};

/// What a run does.
#[derive(Clone, Copy, Debug, PartialEq, Eq)]
pub enum Mode {
    /// It answers the lines of a script.
    Run,
    /// It checks a claim on a problem.
    Check,
    /// It answers the lines of a script for many scenes.
    Host,
    /// It answers the lines of the script that a generator draws from a seed, and sums up.
    Make {
        /// Where the generator begins.
        seed: u64,
        /// How many views the script has, from 2 to 120.
        views: u32,
    },
}

fn is_run(word: &str) -> bool
    ensures { IsTrue result ↔ (word.now ≡ codes "run") }
{
    word == "run"
}

fn is_check(word: &str) -> bool
    ensures { IsTrue result ↔ (word.now ≡ codes "check") }
{
    word == "check"
}

fn is_host(word: &str) -> bool
    ensures { IsTrue result ↔ (word.now ≡ codes "host") }
{
    word == "host"
}

fn is_make(word: &str) -> bool
    ensures { IsTrue result ↔ (word.now ≡ codes "make") }
{
    word == "make"
}

// The mode of this name that takes no numbers.
fn plain_mode(name: &str) -> Option<Mode>
    ensures some { IfSome result (Says name.now []) }
    ensures none { IfNone result ((mode : Mode) → Says name.now [] mode → ⊥) }
{
    if is_run(name) {
        return Some(Mode::Run);
    }
    if is_check(name) {
        return Some(Mode::Check);
    }
    if is_host(name) {
        return Some(Mode::Host);
    }
    None
}

// The mode of this name that takes two numbers.
fn made_mode(name: &str, seed: &str, views: &str) -> Option<Mode>
    ensures some { IfSome result (Says name.now (seed.now ∷ views.now ∷ [])) }
    ensures none { IfNone result ((mode : Mode) → Says name.now (seed.now ∷ views.now ∷ []) mode → ⊥) }
{
    if !is_make(name) {
        return None;
    }
    let seed = seed_of(seed)?;
    let views = views_of(views)?;
    Some(Mode::Make { seed, views })
}

/// The mode that MODE and the NUMBERs say.
pub(crate) fn mode_said(name: &str, numbers: &[&str]) -> Option<Mode>
    ensures some { IfSome result (Says name.now (map (λ s. s.now) numbers.now)) }
    ensures none { IfNone result ((mode : Mode) → Says name.now (map (λ s. s.now) numbers.now) mode → ⊥) }
{
    match numbers {
        [] => plain_mode(name),
        [seed, views] => made_mode(name, seed, views),
        _ => None,
    }
}
