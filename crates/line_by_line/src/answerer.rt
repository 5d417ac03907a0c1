// What answers lines, one after the other.
ghost use Rattle.std.specs.Prelude.{Bool, ℕ, List, IfOk, IsErrOf};
ghost use Rattle.edge_io.specs.Feeding.{shown};
ghost use Rattle.line_by_line.specs.Answers.{HasStopCause, IsAnswered, IsAnsweredInPart, sink_failed};

use edge_io::{Failed, Piece, Sink};
use frac_core::Stop;

/// Why a line has no whole answer: the sink failed, or memory was wanting.
pub type AnswerStop = Stop<Failed>;

/// What answers lines, one after the other.
pub trait Answerer {
    /// From the one to the other a line may get this text as its answer, which is good or not.
    ghost answers: { Self → List ℕ → List ℕ → Bool → Self → Type 0 };

    /// Puts the answer to a line, or to one that is too long, and says whether it is good.
    fn answer<K: Sink>(&mut self, piece: Piece<'_>, sink: &mut K) -> Result<bool, AnswerStop>
        ensures told { IfOk result (IsAnswered answers self.old (shown piece.entry) self.new
            (K.held sink.old) (K.held sink.new)) }
        ensures front { IsErrOf result sink_failed
            → IsAnsweredInPart answers self.old (shown piece.entry) (K.held sink.old) (K.held sink.new) }
        ensures cause { HasStopCause K.faults sink.old sink.new result };
}
