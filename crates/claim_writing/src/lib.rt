//! Problems, claims and paths as text: the form, and its writers.
//!
//! What a session writes of a scene can be kept, sent and checked by another program. Here is what such texts
//! look like, and what writes them: one space between two words, numbers without leading zeros, fractions in
//! lowest terms. `claim_text` reads them.
//!
//! A [`Claim`] is what is said of a problem: that values are best, that its required rows are in conflict, or
//! that a path from corner to corner is lawful:
//!
//! ```text
//! row 1 1000 1 >= 1 5 1:1      a problem: a row, x >= 5,
//! stay 1 0                     and a stay, which draws x to 0
//!
//! value 1 5                    a claim on it: the value of x
//! best                         is best, with a certificate of
//! level s1 1                   one level, that of the stay,
//! by 1 row 1                   and two multipliers there
//! by -1 row s1
//!
//! path primal                  another claim on it: a path
//! in 1-                        from the corner with this mark inside,
//! swap s1+ 1-                  by one exchange
//! ```
//!
//! [`problem_text`] and [`cert_text`] append the lines of a problem and of a claim to some bytes; the others
//! do so for those who hold the parts of one.
//!
//! What always holds: where memory is wanting, nothing was appended.
//!
//! Modules in reading order: `problem::line_writers` and `problem::writer`; `claim` (the type),
//! `claim::writer`, `claim::path_writer`.
#![tactic(auto)]

mod claim;
mod problem;

pub use claim::path_writer::{breakpoint_text, path_text, quantity_text, unfit_text};
pub use claim::writer::{best_text, bys_text, cert_text, conflict_text, values_text};
pub use claim::{Claim, LevelLine};
pub use problem::writer::{problem_text, rows_text};
