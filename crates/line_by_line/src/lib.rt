//! A script that is answered line by line: each line is answered, and its answer is written whole, before the
//! script is asked for more.
//!
//! ```
//! // the source gives `one`, an end of line, and `two`; `echo` answers a line with the line itself
//! answer_script(alloc, &mut echo, &mut source, &mut sink) // Ok(true), and written are `one` and `two`;
//!                                                         // before the source was pulled again, `one` was
//! ```
//!
//! What answers a line is an [`Answerer`], which is unknown here; so is what a line may say. A [`Script`] is
//! what lines are taken from: any source, or whatever else wants certain bytes to be written before it gives
//! more ones. [`answer_script`] asks it only where all whole lines that it gave are answered (`AsksAnswered`
//! in `specs/`), and takes no more than [`INPUT_LIMIT`] bytes, but for one that shows that there are more.
//!
//! What always holds between two pulls (`IsTalk`): what was written are the answers to the whole lines that
//! were taken, and the feed stands for the bytes behind them.
//!
//! In reading order: `answerer` ([`Answerer`]), `talk` (the lines that a feed has), `script` ([`Script`],
//! [`answer_script`]).
#![tactic(auto)]

mod answerer;
mod script;
mod talk;

pub use answerer::{AnswerStop, Answerer};
pub use script::{
    INPUT_LIMIT, InputStop, Script, ScriptStop, answer_script, constants_are_as_said,
};
