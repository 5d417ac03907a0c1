// A script that is answered line by line.
ghost use Rattle.std.specs.Prelude.{◌≡◌, ◌⊎◌, ◌≤◌, ◌∷◌, [], ⊤, ℕ, List, Option, IfOk, IsErrOf};
ghost use Rattle.std.specs.Io.KnownBytes.{Consumes, Keeps};
ghost use Rattle.edge_io.specs.Cause.{Rose, next_count};
ghost use Rattle.edge_io.specs.Feed.{IsOpen};
ghost use Rattle.edge_io.specs.Outside.{LeadsOutside, counts};
ghost use Rattle.frac_core.specs.declared.memory.Stop.TheVariants.{OutOfMemory as NoMemory};
ghost use Rattle.line_by_line.specs.Answers.{sink_failed, texts_of};
ghost use Rattle.line_by_line.specs.Constants.{ConstantsAreAsSaid};
ghost use Rattle.line_by_line.specs.Ends.{AsksAnswered, IsScriptCounted, IsScriptEnd};
ghost use Rattle.line_by_line.specs.Talks.{TakesMore};
ghost use Rattle.line_by_line.specs.declared.script.InputStop.TheVariants as input;
ghost use Rattle.line_by_line.specs.declared.script.ScriptStop.TheVariants as stop;

use crate::answerer::{AnswerStop, Answerer};
use crate::talk::{answer_last, answer_pending};
use edge_io::{Failed, Feed, Sink, Source};
use frac_core::{OutOfMemory, Stop};
use std::alloc::Global;

/// The greatest length of a script, in bytes.
pub const INPUT_LIMIT: usize = 1_048_576;

/// Why a script gives no more.
#[derive(Clone, Copy, Debug)]
pub enum InputStop {
    /// The source failed.
    Fault,
    /// The source gave more bytes than the limit.
    TooLong,
}

/// Why a script isn't answered to its end.
#[derive(Clone, Copy, Debug)]
pub enum ScriptStop {
    /// The source failed.
    ReadFault,
    /// The source gave more bytes than the limit.
    TooLong,
    /// The sink failed.
    WriteFault,
    /// Memory was wanting.
    OutOfMemory,
}

impl From<OutOfMemory> for ScriptStop {
    ghost from_gives = { λ _ e. e ≡ stop.OutOfMemory };

    fn from(_: OutOfMemory) -> Self {
        ScriptStop::OutOfMemory
    }
}

impl From<AnswerStop> for ScriptStop {
    ghost from_gives = { λ s e. (s ≡ sink_failed → e ≡ stop.WriteFault)
        × (s ≡ NoMemory → e ≡ stop.OutOfMemory) };

    fn from(stop: AnswerStop) -> Self {
        match stop {
            Stop::Refused(Failed) => ScriptStop::WriteFault,
            Stop::OutOfMemory => ScriptStop::OutOfMemory,
        }
    }
}

impl From<InputStop> for ScriptStop {
    ghost from_gives = { λ s e. (s ≡ input.Fault → e ≡ stop.ReadFault)
        × (s ≡ input.TooLong → e ≡ stop.TooLong) };

    fn from(stop: InputStop) -> Self {
        match stop {
            InputStop::Fault => ScriptStop::ReadFault,
            InputStop::TooLong => ScriptStop::TooLong,
        }
    }
}

/// What lines are taken from. It may want certain bytes to be written before it gives more.
pub trait Script {
    /// The bytes that are left, where it tells them.
    ghost left: { Self → Option (List ℕ) };

    /// How often it was asked for more, up to the last value of 64 bits.
    ghost pulls: { Self → ℕ };

    /// How often it has failed.
    ghost faults: { Self → ℕ };

    /// It may be asked for more where a sink holds this.
    ghost may_ask: { Self → Option (List ℕ) → Type 0 };

    /// Asks once for more, which the feed takes, within what is left of the limit, `room`; and says whether
    /// there may be more. At the limit one byte shows that the script is too long. The answers went to
    /// `sink`, which a contract sees.
    fn take_more<K: Sink>(
        &mut self,
        feed: &mut Feed,
        room: &mut usize,
        sink: &K,
    ) -> Result<bool, InputStop>
        requires open { IsOpen feed.old }
        requires asked { may_ask self.old (K.held sink.now) }
        ensures more { IfOk result (TakesMore feed.old feed.new (left self.old) (left self.new)
            room.old room.new) }
        ensures fault { IsErrOf result InputStop.Fault → Rose (faults self.old) (faults self.new) }
        ensures kept { IsErrOf result InputStop.Fault
            → (feed.new ≡ feed.old) × Keeps (left self.old) (left self.new) }
        ensures too_long { IsErrOf result InputStop.TooLong → (room.old ≡ 0)
            × ((byte : ℕ) × Consumes (left self.old) (left self.new) (byte ∷ [])) }
        ensures later { faults self.old ≤ faults self.new }
        ensures one { pulls self.new ≡ next_count (pulls self.old) }
        ensures unfailed { IsErrOf result InputStop.Fault ⊎ (faults self.new ≡ faults self.old) };
}

impl<S: Source> Script for S {
    ghost left = { λ s. S.left s };

    ghost pulls = { λ s. S.pulls s };

    ghost faults = { λ s. S.faults s };

    ghost may_ask = { λ _ _. ⊤ };

    fn take_more<K: Sink>(
        &mut self,
        feed: &mut Feed,
        room: &mut usize,
        _sink: &K,
    ) -> Result<bool, InputStop> {
        match feed.fill(self, (*room).max(1)) {
            Ok(0) => Ok(false),
            Ok(count) if count > *room => Err(InputStop::TooLong),
            Ok(count) => {
                *room -= count;
                Ok(true)
            }
            Err(_) => Err(InputStop::Fault),
        }
    }
}

/// Answers each line of a script before it asks for more, and says whether all answers are good.
pub fn answer_script<S: Script, K: Sink, T: Answerer>(
    alloc: Global,
    talk: &mut T,
    script: &mut S,
    sink: &mut K,
) -> Result<bool, ScriptStop>
    requires asked { AsksAnswered (texts_of T.answers talk.old) S.left S.may_ask script.old
        (K.held sink.old) }
    ensures counted { IsScriptCounted result (counts S.pulls S.faults K.faults (script.old, sink.old))
        (counts S.pulls S.faults K.faults (script.new, sink.new)) }
    ensures ends { LeadsOutside S.left S.faults K.held K.faults (script.old, sink.old) (script.new, sink.new)
        (λ old new. IsScriptEnd (texts_of T.answers talk.old) old new result) }
{
    let mut feed = Feed::new(alloc)?;
    let mut room = INPUT_LIMIT;
    let mut is_good = true;
    while script.take_more(&mut feed, &mut room, sink)? {
        answer_pending(talk, &mut is_good, &mut feed, sink)?;
    }
    Ok(answer_last(talk, is_good, &mut feed, sink)?)
}

/// The constants that definitions and clauses cite by name are these numbers.
pub fn constants_are_as_said()
    ensures { ConstantsAreAsSaid }
{}
