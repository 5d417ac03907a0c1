//! The program's run: a script of lines in, their replies out, of one scene or of many, each behind a name; a
//! problem and a claim in, and the checker's verdict out; or a seed and a number of views in the words, and
//! what a run of the script that is drawn from them comes to out.
//!
//! A script makes views, metrics and constraints, changes the size of the window, takes changes back, and
//! asks for the frames of the views, for the rows, and for the multipliers that show the values to be best.
//! The values that a frame shows are those of the assignment that is best for the rows held.
//!
//! ```
//! // the word is `run`, the source has the lines `window 320 480` and `frames`
//! run(alloc, &words, &mut source, &mut sink)    // Status::Done, and written is
//!                                               // `ok`, `frame window 0 0 320 480`, `ok`
//! ```
//!
//! Each line of a script is answered before the next one is read: `line_by_line` asks for more only where all
//! whole lines are answered. The contract of [`run`] has a clause for each [`Status`]; where the word is
//! `run`, what is written is exactly what the machine of `session_undo` replies to the lines that were read.
//!
//! What always holds: what a run writes for its input is the output of the mode that its words name
//! (`IsOutputOf` in `specs/`), whole or in front.
//!
//! In reading order: `program` ([`run`]). For `run`: `talk` (what answers a script's lines), `responder`
//! ([`Responder`]: a session, and the version that the first line may say) and `answers` (one line, whose
//! reply `reply_texts` writes). For `host`: `hosting` (a responder for each name, over `scene_host`). For
//! `make`: `making`, with its `output`. `mode` (how much is read), `laws`. The mode `check` is that of
//! `claim_check`.
#![tactic(auto)]

mod answers;
mod hosting;
mod laws;
mod making;
mod mode;
mod output;
mod program;
mod responder;
mod session;
mod talk;

pub use claim_check::CHECK_LIMIT;
pub use hosting::{HOSTED_LINES, HOSTED_ROWS, HOSTED_UNDO, HOSTED_VIEWS};
pub use laws::{
    best_values_are_unique, counted_runs_are_runs, first_values_are_best,
    hosted_sessions_run_alone, runs_lead_to_best_values,
};
pub use line_by_line::INPUT_LIMIT;
pub use mode::constants_are_as_said;
pub use program::{Status, run, run_script};
pub use responder::Responder;
pub use session::Session;
