// The lines that a feed has, answered.
ghost use Rattle.std.specs.Prelude.{◌≡◌, ◌≤◌, List, ℕ, Option, IfOk, OnOk, IsErrOf};
ghost use Rattle.std.specs.Io.KnownBytes.{Appends, IsAtEnd};
ghost use Rattle.edge_io.specs.Cause.{Rose};
ghost use Rattle.edge_io.specs.Feed.{IsOpen};
ghost use Rattle.frac_core.specs.declared.memory.Stop.TheVariants.{OutOfMemory as NoMemory};
ghost use Rattle.line_by_line.specs.Answers.{AnswersFirst, AnswersInPart, sink_failed, texts_of};
ghost use Rattle.line_by_line.specs.Talks.{AnswersSoFar, OnceJoined, OnceTaken, talking};

use crate::answerer::{AnswerStop, Answerer};
use edge_io::{Feed, Sink};

/// Answers the lines that end in what is pending, and keeps in `is_good` whether all answers are good.
pub(crate) fn answer_pending<T: Answerer, K: Sink>(
    talk: &mut T,
    is_good: &mut bool,
    feed: &mut Feed,
    sink: &mut K,
) -> Result<(), AnswerStop>
    ensures answered { OnOk result ((first : _)
        → OnceJoined (talking T.answers first is_good.old talk.old) (K.held sink.old) feed.old
        (AnswersSoFar (texts_of T.answers first) (talking T.answers first is_good.new talk.new) feed.new
        (K.held sink.new))) }
    ensures ready { OnOk result (IsOpen feed.new) }
    ensures front { IsErrOf result sink_failed → (first : _) (left : Option (List ℕ))
        → OnceJoined (talking T.answers first is_good.old talk.old) (K.held sink.old) feed.old
        (λ before. AnswersInPart (texts_of T.answers first) before (K.held sink.new) left) }
    ensures fault { IsErrOf result sink_failed → Rose (K.faults sink.old) (K.faults sink.new) }
    ensures later { K.faults sink.old ≤ K.faults sink.new }
    ensures unfailed { OnOk result (K.faults sink.new ≡ K.faults sink.old) }
    ensures unfailed_first { IsErrOf result NoMemory → K.faults sink.new ≡ K.faults sink.old }
    ensures first { IsErrOf result NoMemory → (first : _)
        → OnceJoined (talking T.answers first is_good.old talk.old) (K.held sink.old) feed.old
        (λ before. AnswersFirst (texts_of T.answers first) before (K.held sink.new)) }
{
    while let Some(piece) = feed.next() {
        let good = talk.answer(piece, sink)?;
        *is_good &= good;
    }
    Ok(())
}

/// Answers what is pending as the last line, and says whether all answers are good; so far they were or not.
pub(crate) fn answer_last<T: Answerer, K: Sink>(
    talk: &mut T,
    is_good: bool,
    feed: &mut Feed,
    sink: &mut K,
) -> Result<bool, AnswerStop>
    requires { IsOpen feed.old }
    ensures whole { IfOk result (λ good. (first : _)
        → OnceTaken (talking T.answers first is_good talk.old) (K.held sink.old) feed.old
        (λ before taken. (text : List ℕ) × texts_of T.answers first taken text good
        × Appends before (K.held sink.new) text)) }
    ensures front { IsErrOf result sink_failed → (first : _) (left : Option (List ℕ)) → IsAtEnd left
        → OnceTaken (talking T.answers first is_good talk.old) (K.held sink.old) feed.old
        (λ before. AnswersInPart (texts_of T.answers first) before (K.held sink.new) left) }
    ensures fault { IsErrOf result sink_failed → Rose (K.faults sink.old) (K.faults sink.new) }
    ensures unfailed { OnOk result (K.faults sink.new ≡ K.faults sink.old) }
    ensures unfailed_first { IsErrOf result NoMemory → K.faults sink.new ≡ K.faults sink.old }
    ensures first { IsErrOf result NoMemory → (first : _)
        → OnceTaken (talking T.answers first is_good talk.old) (K.held sink.old) feed.old
        (λ before. AnswersFirst (texts_of T.answers first) before (K.held sink.new)) }
{
    match feed.end() {
        Some(piece) => {
            let good = talk.answer(piece, sink)?;
            Ok(is_good & good)
        }
        None => Ok(is_good),
    }
}
