// A session that answers lines, the first of which may say the version.
ghost use Rattle.std.specs.Prelude.{◌≡◌, ◌≤◌, ◌+◌, ◌++◌, [], ℕ, List, not, true, false, length, IfOk, IfErr};
ghost use Rattle.std.specs.Prelude.{IsErrOf, IsOk, OnErr, OnOk, is_ok, vec_capacity, vec_len};
ghost use Rattle.edge_io.specs.declared.feed.TheConstants.{LINE_LIMIT};
ghost use Rattle.frac_core.specs.declared.memory.Stop.TheVariants.{OutOfMemory as NoMemory};
ghost use Rattle.line_by_line.specs.Answers.{HasStopCause, sink_failed};
ghost use Rattle.layout_cli.specs.Machine.{IsOpening, LeadsTo, Talks};
ghost use Rattle.layout_cli.specs.Told.{IsReplied, IsRepliedInPart};
ghost use Rattle.reply_texts.specs.Replies.{text_of};
ghost use Rattle.reply_texts.specs.declared.reply.TheConstants.{OK_LENGTH};
ghost use Rattle.scene_host.specs.Marks.{marked};
ghost use Rattle.script_text.specs.View.{view};
ghost use Rattle.session_undo.specs.Machine.{CommandStep};
ghost use Rattle.session_undo.specs.Replies.{accepted, Accepting, IsChange, MayRefuse, Refusing, Tells};
ghost use Rattle.session_undo.specs.Kept.{AreWithin, limits_of};
ghost use Rattle.session_undo.specs.State.{IsFirst, IsFirstWith};
ghost use Rattle.script_text.specs.declared.words.Version.TheVariants as version;
ghost use Rattle.session_undo.specs.declared.reply.Reply.TheVariants as good;
ghost use Rattle.std.specs.declared.result.Result.TheVariants.{Ok as Accepted};

use crate::answers::{put_reply, step};
use crate::session::Session;
use edge_io::{LINE_LIMIT, Sink};
use frac_core::OutOfMemory;
use line_by_line::AnswerStop;
use reply_texts::{OK_LENGTH, reply_text};
use scene_host::push_marked;
use script_text::{Command, Reading, Version, is_version_line};
use session_undo::{Limits, Refusal, Reply};
use std::alloc::Global;
use std::marker::Model;
use std::mem;

// Whether the line says that the script is of version 2.
fn is_opening(line: &[u8]) -> bool
    ensures yes { result ≡ true → IsOpening line.now }
    ensures no { result ≡ false → IsOpening line.now → ⊥ }
{
    line.len() <= LINE_LIMIT && is_version_line(line)
}

// Appends the lines of a reply with a mark in front of each, whole or not at all. `text` is room for them.
// Where a change was made and there is room for `ok`, no memory is wanting.
fn put_behind(
    session: &Session,
    reply: &Result<Reply, Refusal>,
    mark: &[u8],
    mut text: Vec<u8>,
    out: &mut Vec<u8>,
) -> Result<(), OutOfMemory>
    requires empty { text.items ≡ [] }
    requires room { OK_LENGTH ≤ vec_capacity text }
    ensures put { OnOk result (Tells (λ told. out.new.items
        ≡ out.old.items ++ marked mark.now (text_of session.now.scene told)) reply.now) }
    ensures unchanged { OnErr result (out.new.items ≡ out.old.items) }
    ensures room { IsChange reply.now → vec_len out.old + (length mark.now + OK_LENGTH) ≤ vec_capacity out.old
        → IsOk result }
{
    reply_text(session, reply, &mut text)?;
    push_marked(out, mark, &text)
}

// Whether nothing is said to a line.
fn is_silent(reply: &Result<Reply, Refusal>) -> bool
    ensures yes { result ≡ true → reply.now ≡ Accepted good.Silent }
    ensures no { result ≡ false → reply.now ≡ Accepted good.Silent → ⊥ }
{
    matches!(reply, Ok(Reply::Silent))
}

/// A session that answers the lines of a script, one after the other. The first that isn't blank or a comment
/// may say that the script is of version 2; else it is of version 1.
#[derive(Drop)]
pub struct Responder {
    session: Session,
    // Whether a line with a reply came.
    begun: bool,
    alloc: Global,
}

impl Model for Responder {
    ghost use Rattle.layout_cli.specs.Machine.{Talking};

    ghost Value = { Talking };

    ghost view = { λ r. record { state = r.session; begun = r.begun } };
}

impl Responder {
    /// No line came.
    pub fn new(alloc: Global) -> Result<Responder, OutOfMemory>
        ensures first { IfOk result (λ responder. IsFirst responder.state) }
        ensures unbegun { IfOk result (λ responder. responder.begun ≡ false) }
    {
        Ok(Responder {
            session: Session::new(alloc)?,
            begun: false,
            alloc,
        })
    }

    /// The same with other limits.
    pub fn with(alloc: Global, limits: Limits) -> Result<Responder, OutOfMemory>
        requires { AreWithin (limits_of limits) }
        ensures first { IfOk result
            (λ responder. IsFirstWith (limits_of limits) version.One responder.state) }
        ensures unbegun { IfOk result (λ responder. responder.begun ≡ false) }
    {
        Ok(Responder {
            session: Session::with(alloc, Version::One, limits)?,
            begun: false,
            alloc,
        })
    }

    /// The session that the lines led to.
    pub fn session(&self) -> &Session
        ensures { result.now ≡ self.now.state }
    {
        &self.session
    }

    // A new session of version 2 with the same limits in place of the one that there is.
    fn open(&mut self) -> Result<(), OutOfMemory>
        ensures first { IfOk result (λ _. IsFirstWith self.old.state.limits version.Two self.new.state) }
        ensures begun { self.new.begun ≡ self.old.begun }
        ensures same { OnErr result (self.new ≡ self.old) }
    {
        let session = Session::with(self.alloc, Version::Two, self.session.limits())?;
        drop(mem::replace(&mut self.session, session));
        Ok(())
    }

    // Does what a line says. Whether one with a reply came is kept when the reply is made (`begin`).
    fn step(&mut self, line: &[u8]) -> Result<Reply, Refusal>
        ensures accepted { IfOk result (λ reply. LeadsTo self.old line.now (accepted reply) self.new.state) }
        ensures refused { IfErr result (MayRefuse (λ reply. LeadsTo self.old line.now reply self.old.state)) }
        ensures begun { self.new.begun ≡ self.old.begun }
        ensures same { OnErr result (self.new ≡ self.old) }
    {
        if !self.begun && is_opening(line) {
            self.open()?;
            return Ok(Reply::Done);
        }
        step(self.alloc, &mut self.session, line)
    }

    // Keeps in mind that a line with a reply came, if this is one, and says whether it is no refusal.
    fn begin(&mut self, reply: Result<Reply, Refusal>) -> bool
        ensures state { self.new.state ≡ self.old.state }
        ensures silent { reply ≡ Accepted good.Silent → self.new ≡ self.old }
        ensures told { (reply ≡ Accepted good.Silent → ⊥) → self.new.begun ≡ true }
        ensures good { result ≡ is_ok reply }
    {
        if !is_silent(&reply) {
            self.begun = true;
        }
        let good = reply.is_ok();
        drop(reply); // for the proof: moved on, not taken apart here
        good
    }

    /// Does what a command says that no line says: as the line that says it would in a session of a version
    /// that has it, but that no reply is written. Where it is accepted, a line that says the version comes
    /// too late from then on; otherwise all is as before.
    pub fn apply(&mut self, command: Command<'_>) -> Result<Reply, Refusal>
        ensures accepted { Accepting (CommandStep self.old.state (view command.entry)) self.new.state result }
        ensures refused { Refusing (CommandStep self.old.state (view command.entry)) self.old.state result }
        ensures begun { OnOk result (self.new.begun ≡ true) }
        ensures same { OnErr result (self.new ≡ self.old) }
    {
        let reply = self.session.apply(Reading::Command(command))?;
        self.begun = true;
        Ok(reply)
    }

    /// Answers a line: appends the lines of its reply, and says whether that is a refusal. After want of
    /// memory all is as before. The room for `ok` is there before a change is made.
    pub fn answer(&mut self, line: &[u8], out: &mut Vec<u8>) -> Result<bool, OutOfMemory>
        requires { length line.now ≤ LINE_LIMIT }
        ensures told { IfOk result (λ refused. (text : List ℕ)
            × Talks self.old line.now text (not refused) self.new
            × (out.new.items ≡ out.old.items ++ text)) }
        ensures same { OnErr result (self.new ≡ self.old) }
        ensures unchanged { OnErr result (out.new.items ≡ out.old.items) }
    {
        out.reserve(OK_LENGTH)?;
        let reply = self.step(line);
        match reply_text(&self.session, &reply, out) {
            Ok(()) => Ok(!self.begin(reply)),
            Err(OutOfMemory) => {
                drop(reply); // for the proof: moved on
                Err(OutOfMemory)
            }
        }
    }

    /// Answers a line: appends the lines of its reply with a mark in front of each, and says whether that is
    /// a refusal. After want of memory all is as before. The room for `ok` behind the mark is there before a
    /// change is made.
    pub fn answer_behind(
        &mut self,
        line: &[u8],
        mark: &[u8],
        out: &mut Vec<u8>,
    ) -> Result<bool, OutOfMemory>
        requires { length line.now ≤ LINE_LIMIT }
        ensures told { IfOk result (λ refused. (text : List ℕ)
            × Talks self.old line.now text (not refused) self.new
            × (out.new.items ≡ out.old.items ++ marked mark.now text)) }
        ensures same { OnErr result (self.new ≡ self.old) }
        ensures unchanged { OnErr result (out.new.items ≡ out.old.items) }
    {
        out.reserve(mark.len() + OK_LENGTH)?;
        let text = Vec::with_capacity(self.alloc, OK_LENGTH)?;
        let reply = self.step(line);
        match put_behind(&self.session, &reply, mark, text, out) {
            Ok(()) => Ok(!self.begin(reply)),
            Err(OutOfMemory) => {
                drop(reply); // for the proof: moved on
                Err(OutOfMemory)
            }
        }
    }

    /// Answers a line into a sink, and says whether the reply is no refusal. `text` is room for a reply.
    /// Frames take no memory.
    pub(crate) fn put_answer<K: Sink>(
        &mut self,
        line: &[u8],
        text: &mut Vec<u8>,
        sink: &mut K,
    ) -> Result<bool, AnswerStop>
        ensures told { IfOk result
            (IsReplied self.old line.now self.new (K.held sink.old) (K.held sink.new)) }
        ensures front { IsErrOf result sink_failed
            → IsRepliedInPart self.old line.now (K.held sink.old) (K.held sink.new) }
        ensures cause { HasStopCause K.faults sink.old sink.new result }
        ensures same { IsErrOf result NoMemory → self.new ≡ self.old }
    {
        text.clear();
        text.reserve(OK_LENGTH)?;
        let reply = self.step(line);
        match put_reply(&self.session, &reply, text, sink) {
            Ok(()) => Ok(self.begin(reply)),
            Err(stop) => {
                drop(reply); // for the proof: moved on
                Err(stop)
            }
        }
    }

    /// A line came that is too long, which gets a reply.
    pub fn long(&mut self)
        ensures { self.new ≡ record { state = self.old.state; begun = true } }
    {
        self.begun = true;
    }
}
