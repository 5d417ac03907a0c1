//! The engine: a layout problem and its best values, changed step by step, and back.
//!
//! An [`Engine`] is a problem, its best values and their corner, with earlier ones. [`Engine::solve`] takes a
//! [`Request`]: `Add` adds attributes and rows, `Remove` takes some out, `Shift` gives rows other constants,
//! `Keep` puts some stays before all others (it moves no value, and later changes move their attributes
//! last), and `Stand` changes nothing else. Each request first moves the stays to the present values, so the
//! attributes stay where they are as far as the rows allow. Then marks are exchanged until the values are
//! best. After `Shift` no column is negative on the way, otherwise no value is. A request that stops leaves
//! the engine as it was. [`Engine::posed`] returns the problem that would be solved.
//!
//! A solved request makes the layout before it an earlier one. There may be 33 of these. [`Engine::back`]
//! goes back to the latest, needs no memory and cannot fail. [`Engine::forget`] drops the oldest.
//!
//! A contract sees a `Layout`: the problem, the values by attribute, and the marks inside, with the same of
//! each earlier one. The values are not stored. A corner fixes them ([`Engine::value`] reads them there), and
//! ghost fields name them.
//!
//! Invariant of an [`Engine`] ([`Engine::show_layout`]): the problem is whole; the values are its best ones,
//! in lowest terms and in the order of the stays; they are those of the corner, at which no value and no
//! column is negative and the required rows cost nothing. The same holds of each earlier layout.
//!
//! | Clause | Says |
//! |---|---|
//! | `show_layout`: `best` | the values are those of a best assignment; no other list is |
//! | `problem` | after `Ok`, the problem is the one that was asked for |
//! | `solved` | after `Ok`, a lawful path within the budget leads from the kept corner to the engine's |
//! | `stop` | a conflict (none in `Remove` and `Keep`) has multipliers that show it, any other a path |
//! | `earlier` | after `Ok`, the layout before is the latest of the earlier ones |
//! | `same` | after a stop or want of memory, the engine is as before |
//! | `some`, `none` | the value of an attribute with a stay, and of no other |
//!
//! ```
//! let mut engine = Engine::new(alloc)?;
//! engine.solve(&Request::Add { attrs, rows }, 1000)?;  // a row 7: attribute 1 is at least 20
//! engine.value(1);                                     // 20
//! engine.value(2);                                     // None
//! engine.solve(&Request::Shift(to), 1000)?;            // row 7: attribute 1 is at least 30
//! engine.value(1);                                     // 30
//! engine.solve(&more, 1000)                            // a row 8: attribute 1 is at most 10, which stops:
//!                                                      // the multipliers 1 and -1 of the rows show it
//! engine.value(1);                                     // 30
//! engine.solve(&Request::Remove { rows, attrs }, 1000)?; // without row 7, attribute 1 stays where it is
//! engine.value(1);                                     // 30
//! engine.back();                                       // the row 7 is back, at 30
//! engine.back();                                       // at 20
//! engine.value(1);                                     // 20
//! ```
//!
//! In linear programming's words, the values at a corner are a basic solution, the marks inside it are the
//! basis, and an exchange of marks is a pivot. `Add` and `Remove` go on by the primal simplex method from a
//! feasible basis, `Shift` by the dual one from a basis that is dual feasible.
//!
//! In reading order: `request` (requests and their stops), `reading` (lookups in rows and stays). `changing`,
//! `removing`, `shifting` and `keeping` lead a corner to the best one of another problem: with more rows,
//! with fewer, with other constants, or with another order of stays. `solving` does so for a request, and
//! `posing` only makes its problem. `trying` does so for a value that an attribute would have, and `starting`
//! from nothing. `engine` is what callers use. `laws` has small problems in which a removal stops.
#![tactic(auto)]

mod changing;
mod engine;
mod keeping;
mod laws;
mod posing;
mod reading;
mod removing;
mod request;
mod shifting;
mod solving;
mod starting;
mod trying;

pub use engine::{Change, Engine};
pub use laws::{removals_stop_plainly, some_cannot_leave, some_removals_stop};
pub use request::{Request, RequestStop};
pub use starting::{started, started_by_rows};
pub use trying::TrialStop;
