// A responder that answers the lines of a script as a feed gives them.
ghost use Rattle.std.specs.Prelude.{◌≡◌, false, IfOk};
ghost use Rattle.edge_io.specs.Outside.{LeadsOutside, counts};
ghost use Rattle.line_by_line.specs.Ends.{IsScriptCounted, IsScriptEnd};
ghost use Rattle.layout_cli.specs.Machine.{IsRunOf, Talks};
ghost use Rattle.session_undo.specs.State.{IsFirst};

use crate::answers::refuse_long;
use crate::responder::Responder;
use edge_io::{Piece, Sink, Source};
use frac_core::OutOfMemory;
use line_by_line::{AnswerStop, Answerer, ScriptStop, answer_script};
use std::alloc::Global;

/// A responder, and the room for a reply.
#[derive(Drop)]
pub(crate) struct Talk {
    responder: Responder,
    text: Vec<u8>,
}

impl Talk {
    /// A new session, with no line answered.
    pub(crate) fn new(alloc: Global) -> Result<Self, OutOfMemory>
        ensures first { IfOk result (λ talk. IsFirst talk.responder.state) }
        ensures unbegun { IfOk result (λ talk. talk.responder.begun ≡ false) }
    {
        Ok(Talk {
            responder: Responder::new(alloc)?,
            text: Vec::new(alloc),
        })
    }
}

impl Answerer for Talk {
    ghost answers = { λ old line text good new. Talks old.responder line text good new.responder };

    fn answer<K: Sink>(&mut self, piece: Piece<'_>, sink: &mut K) -> Result<bool, AnswerStop> {
        match piece {
            Piece::Line(line) => self.responder.put_answer(line, &mut self.text, sink),
            Piece::Long => {
                refuse_long(self.responder.session(), &mut self.text, sink)?;
                self.responder.long();
                Ok(false)
            }
        }
    }
}

/// Answers each line of a script before the next one is read, from the first session of the script's version
/// on, and says whether no reply is a refusal.
pub(crate) fn talk_over<S: Source, K: Sink>(
    alloc: Global,
    source: &mut S,
    sink: &mut K,
) -> Result<bool, ScriptStop>
    ensures counted { IsScriptCounted result (counts S.pulls S.faults K.faults (source.old, sink.old))
        (counts S.pulls S.faults K.faults (source.new, sink.new)) }
    ensures ends { LeadsOutside S.left S.faults K.held K.faults (source.old, sink.old) (source.new, sink.new)
        (λ old new. IsScriptEnd IsRunOf old new result) }
{
    let mut talk = Talk::new(alloc)?;
    let answered = answer_script(alloc, &mut talk, source, sink);
    drop(talk); // for the proof: moved on, not taken apart here
    answered
}
