// Many sessions in one script, each behind a name.
ghost use Rattle.std.specs.Prelude.{◌≡◌, [], IfOk};
ghost use Rattle.edge_io.specs.Feeding.{shown};
ghost use Rattle.edge_io.specs.Outside.{LeadsOutside, counts};
ghost use Rattle.line_by_line.specs.Ends.{IsScriptCounted, IsScriptEnd};
ghost use Rattle.layout_cli.specs.Hosted.{IsHostRunOf, IsHosted, IsNewTalk, IsSaid};
ghost use Rattle.layout_cli.specs.Machine.{Talks};

use crate::responder::Responder;
use edge_io::{Piece, Sink, Source, put_all};
use frac_core::OutOfMemory;
use line_by_line::{AnswerStop, Answerer, ScriptStop, answer_script};
use scene_host::{Host, Maker, Scene, refuse_long};
use session_undo::Limits;
use std::alloc::Global;

/// How many views a session of a host may have.
pub const HOSTED_VIEWS: usize = 40;

/// How many lines of groups it may hold.
pub const HOSTED_LINES: usize = 300;

/// How many rows it may hold.
pub const HOSTED_ROWS: usize = 300;

/// How many earlier scenes it may have.
pub const HOSTED_UNDO: usize = 8;

// The limits of each session of a host.
const HOSTED_LIMITS: Limits = Limits {
    views: HOSTED_VIEWS,
    lines: HOSTED_LINES,
    rows: HOSTED_ROWS,
    undo: HOSTED_UNDO,
};

impl Scene for Responder {
    ghost answers = { λ old line text good new. Talks old line text good new };

    fn answer_marked(
        &mut self,
        line: &[u8],
        before: &[u8],
        out: &mut Vec<u8>,
    ) -> Result<bool, OutOfMemory> {
        self.answer_behind(line, before, out)
    }
}

/// Makes the sessions of a host.
#[derive(Clone, Copy)]
pub(crate) struct Responders {
    alloc: Global,
}

impl Maker for Responders {
    type Made = Responder;

    ghost first = { λ _ made. IsNewTalk made };

    fn make(&self) -> Result<Responder, OutOfMemory> {
        Responder::with(self.alloc, HOSTED_LIMITS)
    }
}

/// A host of sessions, and the room for what it says to a line.
#[derive(Drop)]
pub(crate) struct HostTalk {
    host: Host<Responders>,
    text: Vec<u8>,
}

impl HostTalk {
    /// No session, with no line answered.
    pub(crate) fn new(alloc: Global) -> Result<Self, OutOfMemory>
        ensures { IfOk result (λ talk. talk.host.scenes ≡ []) }
    {
        Ok(HostTalk {
            host: Host::new(alloc, Responders { alloc })?,
            text: Vec::new(alloc),
        })
    }

    // What is said to a line, or to one that is too long, into the room for it; and whether that is no
    // refusal.
    fn say(&mut self, piece: Piece<'_>) -> Result<bool, OutOfMemory>
        ensures { IfOk result (IsSaid self.old.host.scenes (shown piece.entry) self.new.text.items
            self.new.host.scenes) }
    {
        self.text.clear();
        match piece {
            Piece::Line(line) => {
                let refused = self.host.answer(line, &mut self.text)?;
                Ok(!refused)
            }
            Piece::Long => {
                refuse_long(&mut self.text)?;
                Ok(false)
            }
        }
    }
}

impl Answerer for HostTalk {
    ghost answers = { λ old line text good new.
        IsHosted old.host.scenes line text good new.host.scenes };

    fn answer<K: Sink>(&mut self, piece: Piece<'_>, sink: &mut K) -> Result<bool, AnswerStop> {
        let good = self.say(piece)?;
        put_all(sink, &self.text)?;
        Ok(good)
    }
}

/// Answers each line of a script for many sessions before the next one is read, from no session on, and says
/// whether nothing that is said is a refusal.
pub(crate) fn host_over<S: Source, K: Sink>(
    alloc: Global,
    source: &mut S,
    sink: &mut K,
) -> Result<bool, ScriptStop>
    ensures counted { IsScriptCounted result (counts S.pulls S.faults K.faults (source.old, sink.old))
        (counts S.pulls S.faults K.faults (source.new, sink.new)) }
    ensures ends { LeadsOutside S.left S.faults K.held K.faults (source.old, sink.old) (source.new, sink.new)
        (λ old new. IsScriptEnd IsHostRunOf old new result) }
{
    let mut talk = HostTalk::new(alloc)?;
    answer_script(alloc, &mut talk, source, sink)
}
