// The replies to lines.
ghost use Rattle.std.specs.Prelude.{◌≡◌, ◌≤◌, [], IfOk, IfErr, IsErrOf, OnOk, OnErr, vec_capacity};
ghost use Rattle.std.specs.Io.KnownBytes.{Appends};
ghost use Rattle.edge_io.specs.Outside.{HasFront};
ghost use Rattle.frac_core.specs.declared.memory.Stop.TheVariants.{OutOfMemory as NoMemory};
ghost use Rattle.line_by_line.specs.Answers.{HasStopCause, sink_failed};
ghost use Rattle.layout_cli.specs.Machine.{Step};
ghost use Rattle.reply_texts.specs.Printing.{Puts};
ghost use Rattle.reply_texts.specs.Replies.{frames_text, text_of};
ghost use Rattle.reply_texts.specs.declared.reply.TheConstants.{OK_LENGTH};
ghost use Rattle.session_undo.specs.Replies.{accepted, IsChange, MayRefuse, Tells};
ghost use Rattle.session_undo.specs.Replies as reply;

use crate::session::Session;
use edge_io::{Failed, LINE_LIMIT, Sink, put_all};
use frac_core::{OutOfMemory, Stop};
use line_by_line::AnswerStop;
use name_tables::LimitWord;
use reply_texts::{OK_LENGTH, print_frames, reply_text, show_frames};
use script_text::read_line_in;
use session_undo::{Refusal, Reply};
use span_text::SyntaxAt;
use std::alloc::Global;

/// Does what a line of the session's version says.
pub(crate) fn step(alloc: Global, session: &mut Session, line: &[u8]) -> Result<Reply, Refusal>
    ensures accepted { IfOk result (λ reply. Step session.old line.now (accepted reply) session.new) }
    ensures refused { IfErr result (MayRefuse (λ reply. Step session.old line.now reply session.old)) }
    ensures same { OnErr result (session.new ≡ session.old) }
{
    if line.len() > LINE_LIMIT {
        return Err(Refusal::Limit(LimitWord::Line));
    }
    match read_line_in(alloc, line, session.version()) {
        Ok(reading) => session.apply(reading),
        Err(Stop::Refused(SyntaxAt(at))) => Err(Refusal::Syntax(at)),
        Err(Stop::OutOfMemory) => Err(Refusal::OutOfMemory),
    }
}

// Puts the frames at once; or line by line, where memory for their text is wanting.
fn put_frames<K: Sink>(session: &Session, text: &mut Vec<u8>, sink: &mut K) -> Result<(), Failed>
    requires empty { text.old.items ≡ [] }
    ensures { Puts K.held K.faults sink.old sink.new (frames_text session.now.scene) result }
{
    match show_frames(session, text) {
        Ok(()) => put_all(sink, text),
        Err(OutOfMemory) => print_frames(session, sink),
    }
}

/// Puts a reply, or a front of it. Its text is made first, so that it is put at once; the frames want no
/// memory for that.
pub(crate) fn put_reply<K: Sink>(
    session: &Session,
    reply: &Result<Reply, Refusal>,
    text: &mut Vec<u8>,
    sink: &mut K,
) -> Result<(), AnswerStop>
    requires empty { text.old.items ≡ [] }
    requires room { OK_LENGTH ≤ vec_capacity text.old }
    ensures put { OnOk result (Tells (λ told.
        Appends (K.held sink.old) (K.held sink.new) (text_of session.now.scene told)) reply.now) }
    ensures front { IsErrOf result sink_failed → Tells (λ told.
        HasFront (K.held sink.old) (K.held sink.new) (text_of session.now.scene told)) reply.now }
    ensures cause { HasStopCause K.faults sink.old sink.new result }
    ensures unchanged { IsErrOf result NoMemory → IsChange reply.now → ⊥ }
{
    if let Ok(Reply::Frames) = reply {
        put_frames(session, text, sink)?;
        return Ok(());
    }
    reply_text(session, reply, text)?;
    put_all(sink, text)?;
    Ok(())
}

/// Puts the refusal of a line that is too long.
pub(crate) fn refuse_long<K: Sink>(
    session: &Session,
    text: &mut Vec<u8>,
    sink: &mut K,
) -> Result<(), AnswerStop>
    ensures put { OnOk result (Appends (K.held sink.old) (K.held sink.new)
        (text_of session.now.scene (reply.Limit LimitWord.Line))) }
    ensures front { IsErrOf result sink_failed → HasFront (K.held sink.old) (K.held sink.new)
        (text_of session.now.scene (reply.Limit LimitWord.Line)) }
    ensures cause { HasStopCause K.faults sink.old sink.new result }
{
    text.clear();
    text.reserve(OK_LENGTH)?;
    put_reply(session, &Err(Refusal::Limit(LimitWord::Line)), text, sink)
}
