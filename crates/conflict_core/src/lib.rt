//! Why required rows have no solution: a core of them, rows that clash, each of which is needed for the
//! clash.
//!
//! [`core`] says whether the required rows of a problem have a solution. If they have none, it finds some of
//! them that have none either, but have one without any one of them: an irreducible conflict. It shows both:
//! multipliers refute these rows, and for each row there are values that satisfy the others.
//!
//! ```
//! // a row 7: attribute 1 is at least 200; a row 8: attribute 2 is at least 0; a row 9: attribute 1 is at
//! // most 100
//! match core(alloc, &problem, 1000)? {
//!     Found::Solvable => {}
//!     // the rows 7 and 9, with the multipliers 1 and -1; without row 7 attribute 1 may be 0, without row 9
//!     // it may be 200
//!     Found::Core { rows, by, without } => {}
//! }
//! ```
//!
//! A trial is an addition of some required rows, and of all attributes at 0, to an engine that holds nothing
//! ([`layout_solver::Request::Add`]), with the whole budget. The first one has all required rows. If they
//! clash, the multipliers name rows that clash by themselves, and from then on each trial leaves one of these
//! out. If the others have a solution, its values are kept. If they clash too, their multipliers name still
//! fewer rows. The search ends when there are values without each row.
//!
//! Before that, one engine gets all rows of the multipliers at once, and the first one gives way: its
//! constant moves by as much as the rows clash, so that all of them just hold. From there each next row gives
//! way in turn by a change of two constants ([`layout_solver::Request::Shift`]), which takes few exchanges or
//! none. If that stops, the trials go on.
//!
//! The first trial costs most. Multipliers save it ([`core_among`]), and so does an engine if the problem is
//! that of a request to it ([`core_of`]): it solves the request, by a short path to values or multipliers,
//! and goes back.
//!
//! | Clause | Says |
//! |---|---|
//! | `found` | solvable: some assignment satisfies the required rows; a core: it is one, and shown |
//! | `stop` | the trial of the rows that are named as held stops so on an engine that holds nothing |
//! | `same` | the engine that is asked is as before |
//!
//! The laws say what a result means: what is shown is a core ([`shown_is_core`]), so the problem is in
//! conflict ([`core_is_conflict`], [`found_decides`]), and some but not all rows of a core have a solution
//! ([`proper_parts_are_solvable`]). With room for numbers and exchanges nothing stops ([`cores_are_found`]).
//!
//! In linear programming's words a core is an irreducible infeasible subsystem (IIS), the multipliers are
//! Farkas multipliers, and the search is the deletion filter of Chinneck and Dravnieks (Locating minimal
//! infeasible constraint sets in linear programs, 1991), begun from the support of the multipliers and
//! narrowed to that of each infeasible trial.
//!
//! In reading order: `found` (the answers), `listing` (rows and attributes of a problem), `trials` (one
//! trial), `search` (from rows that clash to a core), `yielding` (values without each of them on one engine),
//! `asking` (what an engine says of a request), `finding` ([`core`]), `laws`; `specs/Cores.antt` says what a
//! core is, and `specs/Shown.antt` what shows one.
#![tactic(auto)]

mod asking;
mod finding;
mod found;
mod laws;
mod listing;
mod search;
mod trials;
mod yielding;

pub use finding::{core, core_among, core_of};
pub use found::{CoreStop, Found};
pub use laws::{
    core_is_conflict, cores_are_found, found_decides, proper_parts_are_solvable, shown_is_core,
    some_are_cores, some_are_shown, some_trials_stop,
};
