//! The session of a script: what is held, and what each command does to it.
//!
//! A session keeps the views, the metrics, the window's size and the held lines. Its engine has their rows
//! and the best values for these. A refused command changes nothing. An accepted one makes the scene before
//! it an earlier scene, and `undo` goes back to the latest of these.
//!
//! ```
//! let mut session = Session::new(alloc)?;
//! let view = read_line_in(alloc, b"view card", Version::One)?;
//! session.apply(view)?;                         // Reply::Done
//! let line = read_line_in(alloc, b"constrain c card.width == 100", Version::One)?;
//! session.apply(line)?;                         // Reply::Done
//! session.frame(ViewId(1));                     // left 0, top 0, width 100, height 0
//! session.moved()?;                             // Some([1])
//! session.undo()?;
//! session.frame(ViewId(1));                     // the width is 0 again
//! ```
//!
//! The contract of [`Session::apply`] is a step of a machine that is described without any code
//! (`specs/Machine.antt`): the causes that refuse a command, in their order, and the scene after an accepted
//! one. A line may also ask why a command would clash. It is refused for the same causes, or the problem that
//! the command would solve is explained (`specs/Explaining.antt`). A question changes nothing.
//!
//! The scene solves drafts and poses problems (`scenes`). The session finds the causes against a command, and
//! reports the outcome of the scene's step.
//!
//! In reading order: `reply`, `limits`, `changes`, `wishes` (suggestions and sizes of views), `session`, and
//! `session::moved`, the views whose frames the latest step changed.
#![tactic(auto)]

mod changes;
mod limits;
mod reply;
mod session;
mod wishes;

pub use limits::{BUDGET_LIMIT, Limits, constants_are_as_said};
pub use reply::{NoEarlier, Refusal, Reply, StopPlace, Stretches};
pub use session::Session;
