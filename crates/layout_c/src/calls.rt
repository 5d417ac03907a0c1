// What the calls of a session do: each as a function over the session that a handle holds.
ghost use Rattle.std.specs.Prelude.{◌≡◌, ◌<◌, ◌≤◌, ◌⊎◌, List, Some, None, length, take, IfSome, IfNone};
ghost use Rattle.frac_core.specs.Fraction.{Fraction};
ghost use Rattle.script_text.specs.Meaning as mean;
ghost use Rattle.script_text.specs.View.{view};
ghost use Rattle.session_undo.specs.Machine.{CommandStep, PlainStep};
ghost use Rattle.layout_c.specs.Calls.{AreListed, AreRatios, IsAnswered};
ghost use Rattle.layout_c.specs.Calls.{IsNewSession, IsNoFraction, IsNoText};
ghost use Rattle.layout_c.specs.Calls.{IsGiven, IsRatioOf, Releases, Resizes, Steps, Suggests, answer_of};
ghost use Rattle.layout_c.specs.Calls.{attribute, number_of};
ghost use Rattle.layout_c.specs.Calls.{outcome};
ghost use Rattle.view_tree.specs.Views.{view_of as live_view};
ghost use Rattle.scenes.specs.Frames.{IsFrameOf};

use crate::runs::put_front;
use crate::status::{DONE, NONE, OUT_OF_MEMORY, REFUSED, TOO_LONG, WRITE_FAULT};
use edge_io::LINE_LIMIT;
use frac_core::{Frac, OutOfMemory};
use layout_cli::{Responder, Session};
use script_text::{AttrWord, Change, Command, Leaving, Plain, Updating};
use session_undo::{Refusal, Reply};
use std::alloc::Global;
use std::str;
use view_tree::ViewId;

/// A fraction as C has it: of a frame in lowest terms, with a denominator above 0.
#[repr(C)]
#[derive(Clone, Copy)]
pub struct Ratio {
    pub num: i64,
    pub den: i64,
}

/// A frame as C has it, in window coordinates.
#[repr(C)]
#[derive(Clone, Copy)]
pub struct Frame {
    pub left: Ratio,
    pub top: Ratio,
    pub width: Ratio,
    pub height: Ratio,
}

// The number for what a command came to.
fn told(reply: &Result<Reply, Refusal>) -> u8
    ensures { result ≡ outcome reply.now }
{
    match reply {
        Ok(_) => DONE,
        Err(Refusal::OutOfMemory) => OUT_OF_MEMORY,
        Err(_) => REFUSED,
    }
}

/// Does what a command says.
pub(crate) fn act(desk: &mut Responder, command: Command<'_>) -> u8
    ensures { Steps (CommandStep desk.old.state (view command.entry)) desk.old desk.new result }
{
    let reply = desk.apply(command);
    let end = told(&reply);
    drop(reply); // for the proof: moved on, not taken apart here
    end
}

// The bytes as text.
fn text_of(bytes: &[u8]) -> Option<&str>
    ensures some { IfSome result (λ text. text.now ≡ bytes.now) }
    ensures none { IfNone result (IsNoText bytes.now) }
{
    match str::from_utf8(bytes) {
        Ok(text) => Some(text),
        Err(_) => None,
    }
}

// The fraction, where it is one that fits.
fn frac_of(given: Ratio) -> Option<Frac>
    ensures some { IfSome result (IsGiven given) }
    ensures none { IfNone result (IsNoFraction given.num given.den) }
{
    if given.den <= 0 {
        return None;
    }
    match Frac::of(i128::from(given.num), i128::from(given.den)) {
        Ok(f) => {
            let _ = f.num(); // for the proof: what a fraction keeps
            Some(f)
        }
        Err(_) => None,
    }
}

/// Gives the window a size, as a line `window` does.
pub(crate) fn resize(desk: &mut Responder, width: Ratio, height: Ratio) -> u8
    ensures { Resizes desk.old desk.new width height result }
{
    let Some(width) = frac_of(width) else {
        return NONE;
    };
    let Some(height) = frac_of(height) else {
        return NONE;
    };
    let size = Updating::Window { width, height };
    act(desk, Command::Change(Change::Update(size)))
}

/// Wishes that an attribute has a value, as a line `suggest` without a priority does.
pub(crate) fn suggest(desk: &mut Responder, name: &[u8], attr: u8, value: Ratio) -> u8
    ensures { Suggests desk.old desk.new name.now attr value result }
{
    let Some(view) = text_of(name) else {
        return NONE;
    };
    let Some(word) = word_of(attr) else {
        return NONE;
    };
    let Some(value) = frac_of(value) else {
        return NONE;
    };
    let wish = Updating::Suggest {
        view,
        word,
        value,
        priority: None,
    };
    act(desk, Command::Change(Change::Update(wish)))
}

/// Lets a wish go, as a line `release` does.
pub(crate) fn release(desk: &mut Responder, name: &[u8], attr: u8) -> u8
    ensures { Releases desk.old desk.new name.now attr result }
{
    let Some(view) = text_of(name) else {
        return NONE;
    };
    let Some(word) = word_of(attr) else {
        return NONE;
    };
    let wish = Leaving::Release { view, word };
    act(desk, Command::Change(Change::Leave(wish)))
}

/// Takes the scene before the latest change back, as a line `undo` does.
pub(crate) fn undo(desk: &mut Responder) -> u8
    ensures { Steps (PlainStep desk.old.state mean.Undo) desk.old desk.new result }
{
    act(desk, Command::Plain(Plain::Undo))
}

// The attribute of a number.
fn word_of(attr: u8) -> Option<AttrWord>
    ensures { result ≡ attribute attr }
{
    let words = [
        AttrWord::Left,
        AttrWord::Top,
        AttrWord::Width,
        AttrWord::Height,
        AttrWord::Right,
        AttrWord::Bottom,
        AttrWord::CenterX,
        AttrWord::CenterY,
        AttrWord::Leading,
        AttrWord::Trailing,
    ];
    words.get(usize::from(attr)).copied()
}

/// The number of the view of a name.
pub(crate) fn view_of(session: &Session, name: &[u8]) -> Option<u32>
    ensures some { IfSome result (λ id. number_of session.now.scene name.now ≡ Some id) }
    ensures none { IfNone result (IsNoText name.now ⊎ (number_of session.now.scene name.now ≡ None)) }
{
    let name = text_of(name)?;
    let id = session.state().tree().find(name)?;
    Some(id.0)
}

// The parts of a fraction.
fn parts_of(f: Frac) -> Ratio
    ensures { IsRatioOf result f }
{
    Ratio {
        num: f.num(),
        den: f.den(),
    }
}

/// The frame with these sides.
pub(crate) fn framed(sides: [Frac; 4]) -> Frame
    ensures { AreRatios result sides }
{
    let [left, top, width, height] = sides;
    Frame {
        left: parts_of(left),
        top: parts_of(top),
        width: parts_of(width),
        height: parts_of(height),
    }
}

/// The frame of a view.
pub(crate) fn frame_of(session: &Session, view: u32) -> Option<Frame>
    ensures some { IfSome result (λ frame. (fractions : List Fraction)
        × IsFrameOf session.now.scene view fractions × AreRatios frame fractions) }
    ensures none { IfNone result (live_view session.now.scene.tree.views view ≡ None) }
{
    let sides = session.frame(ViewId(view))?;
    Some(framed(sides))
}

// Puts the reply to a line where there is room for it.
fn deliver(text: &[u8], good: bool, reply: &mut [u8], used: &mut usize) -> u8
    ensures used { used.new ≡ length text.now }
    ensures fits { length text.now ≤ length reply.old → (take (length text.now) reply.new ≡ text.now)
        × (result ≡ answer_of good) }
    ensures no_room { length reply.old < length text.now
        → (reply.new ≡ reply.old) × (result ≡ WRITE_FAULT) }
{
    *used = text.len();
    if reply.len() < text.len() {
        return WRITE_FAULT;
    }
    put_front(text, reply);
    if good { DONE } else { REFUSED }
}

// Puts the numbers of views where there is room for them.
fn list(views: &[u32], room: &mut [u32], count: &mut usize) -> u8
    ensures count { count.new ≡ length views.now }
    ensures fits { length views.now ≤ length room.old
        → (take (length views.now) room.new ≡ views.now) × (result ≡ DONE) }
    ensures no_room { length room.old < length views.now
        → (room.new ≡ room.old) × (result ≡ WRITE_FAULT) }
{
    *count = views.len();
    if room.len() < views.len() {
        return WRITE_FAULT;
    }
    put_front(views, room);
    DONE
}

/// The views whose frames aren't those of the scene that `undo` would give back.
pub(crate) fn moved(session: &Session, room: &mut [u32], count: &mut usize) -> u8
    ensures { AreListed session.now room.old room.new count.new result }
{
    *count = 0;
    match session.moved() {
        Ok(Some(views)) => list(&views, room, count),
        Ok(None) => NONE,
        Err(OutOfMemory) => OUT_OF_MEMORY,
    }
}

/// Answers a line, as `run` does.
pub(crate) fn answer(
    alloc: Global,
    desk: &mut Responder,
    line: &[u8],
    reply: &mut [u8],
    used: &mut usize,
) -> u8
    ensures told { IsAnswered desk.old line.now reply.old reply.new used.new desk.new result }
{
    *used = 0;
    if line.len() > LINE_LIMIT {
        return TOO_LONG;
    }
    let mut text = Vec::new(alloc);
    match desk.answer(line, &mut text) {
        Ok(refused) => deliver(&text, !refused, reply, used),
        Err(OutOfMemory) => OUT_OF_MEMORY,
    }
}

/// A session that answers lines, in a block of its own.
pub(crate) fn fresh(alloc: Global) -> Option<Box<Responder>>
    ensures { IfSome result (λ b. IsNewSession b.value) }
{
    let desk = Responder::new(alloc).ok()?;
    Box::new(alloc, desk).ok()
}
