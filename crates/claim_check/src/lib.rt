//! The check of a claim: a problem and a claim in, the checker's verdict out.
//!
//! ```
//! // the source has the lines `stay 1 0`, `value 1 0` and `best`
//! check_claim(alloc, &mut source, &mut sink)    // Ok(true), and written is the line `yes`
//! ```
//!
//! Solvers, sessions and scripts are unknown here. [`check_claim`] reads its input to the end before it
//! judges, since a claim can be judged only once all of its problem is there; and it writes one line: `yes`,
//! `no` or `no room` with a number, or `bad` with that of the first line outside the form.
//!
//! What always holds: nothing is written where the input isn't read whole, and the answer is `yes` only where
//! what is claimed holds (`IsCheckOf` in `specs/`).
//!
//! In reading order: `stop`, `input` (all that a source has), `checking` (the answer to an input), `check`
//! ([`check_claim`]).
#![tactic(auto)]

mod check;
mod checking;
mod input;
mod stop;

pub use check::{CHECK_LIMIT, check_claim, constants_are_as_said};
pub use stop::CheckStop;
