//! What the program's words ask for.
//!
//! The words are read by `clap` as one command with the positional arguments MODE and NUMBER, the latter any
//! number of times. `clap`'s own texts are never shown: words that name no mode are simply others.
//!
//! ```
//! mode_of(alloc, &words)?                       // of `make 7 60`: Some(Mode::Make { seed: 7, views: 60 })
//! mode_of(alloc, &words)?                       // of `--help`: None
//! ```
//!
//! What [`mode_of`] keeps: words ask for one [`Mode`] at most ([`mode_is_unique`]), and its answer is that
//! one, or `None` where they ask for none.
//!
//! In reading order: `numbers` (numbers as words), `mode` (the modes, and what MODE and the NUMBERs say),
//! `command` (the words, read by `clap`), `laws`.
#![tactic(auto)]

mod command;
mod laws;
mod mode;
mod numbers;

pub use command::mode_of;
pub use laws::{mode_is_unique, others_ask_for_nothing, plain_words_ask_for_what_they_say};
pub use mode::Mode;
pub use numbers::constants_are_as_said;
