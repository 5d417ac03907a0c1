//! The engine for programs in other languages: a static library, whose calls `layout.h` declares
//! (`examples/embed`).
//!
//! ```text
//! layout_session session = {0};
//! layout_new(&session);
//! layout_answer(&session, "view card", 9, reply, sizeof reply, &used);    LAYOUT_DONE, and the reply is `ok`
//! layout_resize(&session, (layout_frac){320, 1}, (layout_frac){480, 1});
//! layout_frame(&session, view, &frame);
//! layout_free(&session);
//! ```
//!
//! What the calls of a session come to is said in the terms of the machine of `session_undo`, as for a line
//! of a script (`OnHeld` in `specs/`). A handle is a pointer that C holds (`held`): it owns a session, or is
//! null. What C owes for that, and nothing checks, is said in `layout.h`.
//!
//! What always holds: but for `layout_new` and `layout_free` a handle has a session after a call exactly
//! where it had one before.
//!
//! In reading order: `status` (what a call answers), `runs` (a whole script), `held` (the handle), `calls`
//! (what is done with its session), `names` and `frames` (what is read from it). Here are the exports: each
//! takes the session out of its handle, calls the function of its name, and puts the session back.
#![tactic(auto)]

mod calls;
mod frames;
mod held;
mod names;
mod runs;
mod status;

ghost use Rattle.std.specs.Prelude.{◌≡◌, ◌⊎◌, ◌≤◌, MatchOption, None, length, take};
ghost use Rattle.layout_c.specs.Calls.{AreFramed, AreListed, IsAnswered, IsFound, IsFramed};
ghost use Rattle.layout_c.specs.Calls.{IsNewSession, OnHeld};
ghost use Rattle.layout_c.specs.Calls.{IsNamed, IsStatusNamed, Releases, Resizes, Steps, Suggests};
ghost use Rattle.layout_c.specs.Runs.{IsAnswerTo};
ghost use Rattle.script_text.specs.Meaning as mean;
ghost use Rattle.session_undo.specs.Machine.{PlainStep};
ghost use Rattle.layout_c.specs.declared.status.TheConstants.{VERSION as version_now};

use crate::calls::{answer, frame_of, fresh, moved, release, resize, suggest, undo, view_of};
pub use crate::calls::{Frame, Ratio};
pub use crate::frames::Placed;
use crate::frames::put_frames;
use crate::held::Held;
use crate::names::{put_name, put_status_name};
use crate::runs::run_here;
use crate::status::{DONE, NONE, OUT_OF_MEMORY, VERSION, code_of};
use frac_core::OutOfMemory;
use std::alloc::Global;

/// The version of the library, as LAYOUT_VERSION in the header that belongs to it.
#[unsafe(no_mangle)]
pub extern "C" fn layout_version() -> u32
    ensures { result ≡ version_now }
{
    VERSION
}

/// What a status is called, in front of `name`, `used` bytes long; where the answer says that writing failed
/// there was no room for it, and `used` says how much it asks for.
#[unsafe(no_mangle)]
pub extern "C" fn layout_status_name(status: u8, name: &mut [u8], used: &mut usize) -> u8
    ensures { IsStatusNamed status name.old name.new used.old used.new result }
{
    put_status_name(status, name, used)
}

/// Answers a whole script into `out`. The first `used` bytes of it are the replies then, or a front of them
/// where the answer says that writing failed: there was no room for all.
#[unsafe(no_mangle)]
pub extern "C" fn layout_run(alloc: Global, script: &[u8], out: &mut [u8], used: &mut usize) -> u8
    ensures within { used.new ≤ length out.new }
    ensures ended { IsAnswerTo script.now (length out.old) (take used.new out.new) result }
{
    *used = 0;
    match run_here(alloc, script, out) {
        Ok((status, count)) => {
            *used = count;
            code_of(status)
        }
        Err(OutOfMemory) => OUT_OF_MEMORY,
    }
}

/// Makes a session of version 1: the window alone. A session that the handle held before is no more.
#[unsafe(no_mangle)]
pub extern "C" fn layout_new(alloc: Global, session: &mut Held) -> u8
    ensures made { result ≡ DONE → MatchOption session.new.session ⊥ IsNewSession }
    ensures ends { (result ≡ DONE)
        ⊎ ((result ≡ OUT_OF_MEMORY) × (session.new.session ≡ session.old.session)) }
{
    match fresh(alloc) {
        Some(desk) => {
            session.put(desk);
            DONE
        }
        None => OUT_OF_MEMORY,
    }
}

/// Ends a session and gives its memory back. The handle is null then.
#[unsafe(no_mangle)]
pub extern "C" fn layout_free(alloc: Global, session: &mut Held)
    ensures { session.new.session ≡ None }
{
    *session = Held::none(alloc);
}

/// Answers a line, which has no end, as a run does. The reply stands in front of `reply`, `used` bytes long;
/// where the answer says that writing failed there was no room for it, and `used` says how much it asks for.
#[unsafe(no_mangle)]
pub extern "C" fn layout_answer(
    alloc: Global,
    session: &mut Held,
    line: &[u8],
    reply: &mut [u8],
    used: &mut usize,
) -> u8
    ensures { OnHeld session.old.session session.new.session result (λ old new.
        IsAnswered old line.now reply.old reply.new used.new new result) }
{
    match session.take(alloc) {
        Some(mut desk) => {
            let end = answer(alloc, &mut desk, line, reply, used);
            session.put(desk);
            end
        }
        None => NONE,
    }
}

/// Gives the window a size, as a line `window` does, but that no reply is written.
#[unsafe(no_mangle)]
pub extern "C" fn layout_resize(
    alloc: Global,
    session: &mut Held,
    width: Ratio,
    height: Ratio,
) -> u8
    ensures { OnHeld session.old.session session.new.session result (λ old new.
        Resizes old new width height result) }
{
    match session.take(alloc) {
        Some(mut desk) => {
            let end = resize(&mut desk, width, height);
            session.put(desk);
            end
        }
        None => NONE,
    }
}

/// Wishes that an attribute of the view of this name has a value, as a line `suggest` without a priority
/// does, but that no reply is written.
#[unsafe(no_mangle)]
pub extern "C" fn layout_suggest(
    alloc: Global,
    session: &mut Held,
    name: &[u8],
    attr: u8,
    value: Ratio,
) -> u8
    ensures { OnHeld session.old.session session.new.session result (λ old new.
        Suggests old new name.now attr value result) }
{
    match session.take(alloc) {
        Some(mut desk) => {
            let end = suggest(&mut desk, name, attr, value);
            session.put(desk);
            end
        }
        None => NONE,
    }
}

/// Lets a wish go, as a line `release` does, but that no reply is written.
#[unsafe(no_mangle)]
pub extern "C" fn layout_release(alloc: Global, session: &mut Held, name: &[u8], attr: u8) -> u8
    ensures { OnHeld session.old.session session.new.session result (λ old new.
        Releases old new name.now attr result) }
{
    match session.take(alloc) {
        Some(mut desk) => {
            let end = release(&mut desk, name, attr);
            session.put(desk);
            end
        }
        None => NONE,
    }
}

/// Takes the scene before the latest change back, as a line `undo` does, but that no reply is written.
#[unsafe(no_mangle)]
pub extern "C" fn layout_undo(alloc: Global, session: &mut Held) -> u8
    ensures { OnHeld session.old.session session.new.session result (λ old new.
        Steps (PlainStep old.state mean.Undo) old new result) }
{
    match session.take(alloc) {
        Some(mut desk) => {
            let end = undo(&mut desk);
            session.put(desk);
            end
        }
        None => NONE,
    }
}

/// The number of the view of a name, in `view`.
#[unsafe(no_mangle)]
pub extern "C" fn layout_view(alloc: Global, session: &mut Held, name: &[u8], view: &mut u32) -> u8
    ensures { OnHeld session.old.session session.new.session result (λ old new.
        (new ≡ old) × IsFound old.state.scene name.now view.new result) }
{
    match session.take(alloc) {
        Some(desk) => {
            let found = view_of(desk.session(), name);
            session.put(desk);
            put_view(found, view)
        }
        None => NONE,
    }
}

/// The name of the view of a number, in front of `name`, `used` bytes long; where the answer says that
/// writing failed there was no room for it, and `used` says how much it asks for.
#[unsafe(no_mangle)]
pub extern "C" fn layout_name(
    alloc: Global,
    session: &mut Held,
    view: u32,
    name: &mut [u8],
    used: &mut usize,
) -> u8
    ensures { OnHeld session.old.session session.new.session result (λ old new.
        (new ≡ old) × IsNamed old.state.scene view name.old name.new used.old used.new result) }
{
    match session.take(alloc) {
        Some(desk) => {
            let end = put_name(desk.session(), view, name, used);
            session.put(desk);
            end
        }
        None => NONE,
    }
}

/// The frame of a view, in window coordinates, in `frame`.
#[unsafe(no_mangle)]
pub extern "C" fn layout_frame(
    alloc: Global,
    session: &mut Held,
    view: u32,
    frame: &mut Frame,
) -> u8
    ensures { OnHeld session.old.session session.new.session result (λ old new.
        (new ≡ old) × IsFramed old.state.scene view frame.new result) }
{
    match session.take(alloc) {
        Some(desk) => {
            let found = frame_of(desk.session(), view);
            session.put(desk);
            put_frame(found, frame)
        }
        None => NONE,
    }
}

/// The frames of all views, in order of creation, each with its view's number, in front of `frames`; `count`
/// says how many they are. Where the answer says that writing failed there was no room for them.
#[unsafe(no_mangle)]
pub extern "C" fn layout_frames(
    alloc: Global,
    session: &mut Held,
    frames: &mut [Placed],
    count: &mut usize,
) -> u8
    ensures { OnHeld session.old.session session.new.session result (λ old new.
        (new ≡ old) × AreFramed old.state.scene frames.old frames.new count.new result) }
{
    match session.take(alloc) {
        Some(desk) => {
            let end = put_frames(desk.session(), frames, count);
            session.put(desk);
            end
        }
        None => NONE,
    }
}

/// The numbers of the views whose frames aren't those of the scene that [`layout_undo`] would give back,
/// rising: right after a change that is no undo, those that it moved. `count` of them stand in front of
/// `views`; where the answer says that writing failed there was no room for them, and `count` says how many
/// they are.
#[unsafe(no_mangle)]
pub extern "C" fn layout_moved(
    alloc: Global,
    session: &mut Held,
    views: &mut [u32],
    count: &mut usize,
) -> u8
    ensures { OnHeld session.old.session session.new.session result (λ old new.
        (new ≡ old) × AreListed old.state views.old views.new count.new result) }
{
    match session.take(alloc) {
        Some(desk) => {
            let end = moved(desk.session(), views, count);
            session.put(desk);
            end
        }
        None => NONE,
    }
}

// The number, where there is one.
fn put_view(found: Option<u32>, view: &mut u32) -> u8
    ensures { MatchOption found ((result ≡ NONE) × (view.new ≡ view.old)) (λ id.
        (result ≡ DONE) × (view.new ≡ id)) }
{
    match found {
        Some(id) => {
            *view = id;
            DONE
        }
        None => NONE,
    }
}

// The frame, where there is one.
fn put_frame(found: Option<Frame>, frame: &mut Frame) -> u8
    ensures { MatchOption found ((result ≡ NONE) × (frame.new ≡ frame.old)) (λ f.
        (result ≡ DONE) × (frame.new ≡ f)) }
{
    match found {
        Some(found) => {
            *frame = found;
            DONE
        }
        None => NONE,
    }
}
