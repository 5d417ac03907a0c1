//! A script of many views, whose sizes, distances and suggestions a generator draws from a seed: a large
//! input for trials that anyone can make again.
//!
//! ```
//! make_script(7, 60, &mut out)?;                // appends the script of 60 views that the seed 7 draws
//! ```
//!
//! What [`make_script`] keeps: equal seeds and numbers of views give equal scripts, byte for byte (`script`
//! in `specs/`), and want of memory leaves the text as it was.
//!
//! In reading order: `draws` (the generator), `part` (the parts that have a line for each of many views),
//! `texts` (their lines), `script`.
#![tactic(auto)]

mod draws;
mod part;
mod script;
mod texts;

pub use script::make_script;
pub use texts::constants_are_as_said;
