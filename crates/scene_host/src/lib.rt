//! Many scenes in one script: each line says whose it is, and the scene of that name answers it.
//!
//! ```
//! host.answer(b"a: window 10 20", &mut out)?;   // `a: ok`: a scene is made under the name `a`
//! host.answer(b"b: undo", &mut out)?;           // what another one says to `undo`, `b: ` in front
//! host.answer(b"a window", &mut out)?;          // `refused 1 syntax 2`: the host's own, without a name
//! ```
//!
//! What answers the lines of one scene is a [`Scene`], which is unknown here, and so is what a line may
//! say; a [`Maker`] makes a new one for each new name. There are [`SCENE_LIMIT`] names at most, and a name
//! stays.
//!
//! What always holds (`HostAnswers` in `specs/`): a line changes the scene of its name and no other, and what
//! is said to it is what that scene says, with the name in front of each line. So over a whole script the
//! replies under a name are those of a run of that name's lines alone ([`scenes_run_alone`]).
//!
//! In reading order: `limits`, `scene` (what answers lines, and what makes it), `marks` (texts with a mark in
//! front of each line), `named_line` (the lines of a host), `refusals` (what the host itself says), `scenes`
//! (the scenes by name), `host`, `laws`.
#![tactic(auto)]

mod host;
mod laws;
mod limits;
mod marks;
mod named_line;
mod refusals;
mod scene;
mod scenes;

pub use host::Host;
pub use laws::{marked_texts_are_told, other_texts_are_not_told, scenes_run_alone};
pub use limits::{SCENE_LIMIT, constants_are_as_said};
pub use marks::push_marked;
pub use refusals::refuse_long;
pub use scene::{Maker, Scene};
