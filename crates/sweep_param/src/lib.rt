//! A sweep: what is best for every constant of a row between two.
//!
//! ```
//! // row 7 is the window's width, now 100
//! for stretch in &sweep(alloc, &problem, 7, forty, eighty, 100_000)? {
//!     // below 50 the required rows clash; from 50 to 80 all values lie on lines
//! }
//! ```
//!
//! The start finds the best corner with the present constant anew. From there one slide goes up and one goes
//! down (`sweep_run`), each with the whole budget; where the present constant is outside the two, one slide
//! alone passes the constants that aren't asked for, and forms no values there.
//!
//! At first the rows join one after another, each what is best of those before it, which keeps the corner's
//! rows short. Where something stops that start, or a slide from its corner, all rows join at once, a run
//! follows, and the slides begin at its corner: so a stop's path begins where a run from nothing leads.
//!
//! What [`sweep`] answers is a sweep (`IsSweep` of `sweep_laws`), a stop has a lawful path of the start or of
//! a slide (`IsSweepStop`). The pieces of both slides meet at the present constant; they aren't joined where
//! they lie on one line.
//!
//! With room for numbers and exchanges a sweep is answered ([`sweeps_are_answered`]).
//!
//! To read: `sweeps` (the ways and the slides), `joining` (their stretches as one list), `laws`.
#![tactic(auto)]

mod joining;
mod laws;
mod sweeps;

pub use laws::sweeps_are_answered;
pub use sweeps::sweep;
