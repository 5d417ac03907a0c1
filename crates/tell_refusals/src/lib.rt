//! Explains refused lines. It reads a reply as any client of `layout run` does, and gets parts of the session
//! that gave it: names, rows and the problem of the line.
//!
//! ```
//! let told = Telling {
//!     reader: Reader::new(alloc, session.version()),
//!     finding: Finding::new(alloc),
//!     parts,                                       // the session's tree, metrics, rows ..
//!     owners: &owners,                             // which line each row is from
//!     script: b"view card\nview b in crad\n",
//!     number: 2,
//!     line: b"view b in crad",
//!     reply: b"refused 2 unknown crad\n",
//!     so: &mut so,                                 // the line that is suggested
//! };
//! put_finding(&mut reader, &mut out, told.explain(), false);
//! // line 2, column 11: refused 2 unknown crad
//! //     view b in crad
//! //               ^~~~
//! //     form: view NAME (in NAME)?
//! //     why: nothing has this name: make it first, or mend the name
//! //     cure: there is `card`
//! //     so: view b in card
//! ```
//!
//! The crate is only tested.
//!
//! In reading order: `owners` ([`Owners`]), `parts` ([`Parts`] of a session), `telling` ([`Telling`]: one
//! line), and for the causes of refusals `syntax` (lines that leave the grammar), `names` and `unknown` (names
//! that are taken or unknown), `misuse`, `limits`, `attributes`, `shares`, `rows` and `conflicts`; `open`
//! (ambiguous attributes), `problem` (the problem of a line).
#![tactic(auto)]

mod attributes;
mod conflicts;
mod limits;
mod misuse;
mod names;
mod open;
mod owners;
mod parts;
mod problem;
mod rows;
mod shares;
mod syntax;
mod telling;
mod unknown;

pub use owners::Owners;
pub use parts::{Most, Parts};
pub use problem::{has_problem, put_problem};
pub use telling::{Telling, put_finding, set_then};
