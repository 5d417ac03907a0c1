//! The text of replies to lines, accepted or refused.
//!
//! ```
//! // the session has answered the line `frames`
//! reply_text(&session, &reply, &mut text)?; // appended is `frame window 0 0 320 480`, `ok`
//! print_frames(&session, &mut sink)?;       // the same, straight to a sink, and without memory
//! ```
//!
//! [`reply_text`] appends the lines of a reply, [`show_frames`] those of `frames`, and [`print_frames`]
//! writes these to a sink; [`push_at`] appends the line of one frame, [`push_attr`] an attribute's name, and
//! [`push_line`] a line of bytes and a word. Nothing here reads, and nothing changes a session.
//!
//! What always holds: if memory ran out, a refusal has no text; a change's reply has [`OK_LENGTH`] bytes, and
//! if there is room for these, its text is appended.
//!
//! In reading order: `frames`, `names` (the attributes by their names), `found` (what a scene lacks, and
//! probes), `numbers` (rows by number), `cores` (rows that clash), `swept` (every width between two),
//! `refusals`, `reply`; `printing` (frames straight to a sink).
#![tactic(auto)]

mod cores;
mod found;
mod frames;
mod names;
mod numbers;
mod printing;
mod refusals;
mod reply;
mod swept;

pub use found::push_attr;
pub use frames::push_at;
pub use numbers::push_line;
pub use printing::print_frames;
pub use reply::{OK_LENGTH, reply_text, show_frames};
