//! What a layout leaves open, and the optional rows that it could not meet.
//!
//! Without the stays, several assignments may be best. [`ambiguous`] says whether they differ at an
//! attribute, and how far they reach from its value: up to a point above, or else down to a point below. It
//! asks by a probe: one more row, weaker than all others except the stays, that wishes the attribute at the
//! next value. First that row only asks that the attribute be at least the value below its own (or at most
//! the value above, on the way down), which costs nothing. Then its constant becomes the next value: a dual
//! run, in which a stay whose side turns gives way at once. If something stops that, or it ends beyond the
//! next value, a row joins that wishes the attribute exactly there, and a stop has the path of its run.
//! [`all_ambiguous`] asks for every attribute. [`unmet`] lists the rows that are not required and do not
//! hold, each with what it lacks.
//!
//! ```
//! ambiguous(alloc, &mut engine, 7, budget)?;    // Moves(1): attribute 7 is at 0, and nothing holds it there
//! all_ambiguous(alloc, &mut engine, budget)?;   // (7, 1), and no other
//! unmet(alloc, &engine)?;                       // row 7 lacks 100 points
//! ```
//!
//! [`diagnose`] finds all of this, a [`Diagnosis`]. If a probe stops, [`Stopped`] says of which attribute,
//! and why. No call changes the engine, whatever the answer.
//!
//! In linear programming's words, [`ambiguous`] says whether alternative optima differ at a variable, and a
//! probe is one more goal, the weakest, that pushes it.
//!
//! In reading order: `priorities` and `lacking` (what does not hold, by priority and by row), `probing` (one
//! attribute), `moving` (all of them), `diagnosing` (all that is found, [`diagnose`]).
#![tactic(auto)]

mod diagnosing;
mod lacking;
mod moving;
mod priorities;
mod probing;

pub use diagnosing::{Diagnosis, diagnose};
pub use lacking::unmet;
pub use moving::all_ambiguous;
pub use priorities::costs;
pub use probing::{Answer, DiagnoseStop, Stopped, ambiguous};
