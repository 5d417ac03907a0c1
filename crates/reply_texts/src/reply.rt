// The text of replies.
ghost use Rattle.std.specs.Prelude.{◌≡◌, ◌≤◌, ◌+◌, ◌++◌, IfOk, OnOk, OnErr, IsOk, codes, vec_len};
ghost use Rattle.std.specs.Prelude.{vec_capacity};
ghost use Rattle.std.specs.List.{flat_map};
ghost use Rattle.reply_texts.specs.Replies.{text_of, frames_text, rows_text, name_lines};
ghost use Rattle.reply_texts.specs.Replies.{certificate_text, core_text, diagnosis_text, line_of};
ghost use Rattle.reply_texts.specs.Replies.{no_conflict_text, sweep_text};
ghost use Rattle.sweep_run.specs.Told.{stretches_of};
ghost use Rattle.diagnosis.specs.Diagnoses.{findings_of};
ghost use Rattle.scenes.specs.Scene.{Scene};
ghost use Rattle.session_undo.specs.Replies.{accepted, found_reply, IsChange, Tells};
ghost use Rattle.reply_texts.specs.declared.reply.TheConstants.{OK_LENGTH};

use crate::cores::push_core;
use crate::found::push_found;
use crate::frames::push_frames;
use crate::names::put_names;
use crate::refusals::push_refusal;
use crate::swept::push_stretches;
use cert_core::{Best, Conflict};
use claim_writing::{best_text, rows_text};
use conflict_core::Found;
use corner_view::Tableau;
use diagnosis::Diagnosis;
use frac_core::OutOfMemory;
use problem_core::Values;
use session_undo::{Refusal, Reply, Session, Stretches};
use std::alloc::Global;

/// The length of the reply to a change: `ok` and the end of the line.
pub const OK_LENGTH: usize = 3;

fn push_ok(out: &mut Vec<u8>) -> Result<(), OutOfMemory>
    ensures text { IfOk result (λ _. out.new.items ≡ out.old.items ++ line_of (codes "ok")) }
    ensures unchanged { OnErr result (out.new.items ≡ out.old.items) }
    ensures room { vec_len out.old + OK_LENGTH ≤ vec_capacity out.old → IsOk result }
{
    out.extend_from_slice(b"ok\n")?;
    Ok(())
}

fn push_names<T: Tableau>(session: &Session<T>, out: &mut Vec<u8>) -> Result<(), OutOfMemory>
    ensures { IfOk result (λ _. out.new.items ≡ out.old.items
        ++ flat_map name_lines session.now.scene.tree.views) }
{
    let mut text = String::new(*out.allocator());
    put_names(&mut text, session.state().tree())?;
    out.extend_from_slice(text.as_bytes())?;
    Ok(())
}

/// Appends the reply to `frames`: the lines of the frames of all views, and `ok`. If memory runs out, a part
/// of it may have been appended.
pub fn show_frames<T: Tableau>(session: &Session<T>, out: &mut Vec<u8>) -> Result<(), OutOfMemory>
    ensures { IfOk result (λ _. out.new.items ≡ out.old.items ++ frames_text session.now.scene) }
{
    push_frames(out, session.state())?;
    push_ok(out)
}

fn show_rows<T: Tableau>(session: &Session<T>, out: &mut Vec<u8>) -> Result<(), OutOfMemory>
    ensures { IfOk result (λ _. out.new.items ≡ out.old.items ++ rows_text session.now.scene) }
{
    push_names(session, out)?;
    rows_text(session.engine().rows(), session.engine().stays(), out)?;
    push_ok(out)
}

fn show_certificate<T: Tableau>(
    session: &Session<T>,
    best: &Best,
    out: &mut Vec<u8>,
) -> Result<(), OutOfMemory>
    ensures { IfOk result (λ _. out.new.items
        ≡ out.old.items ++ certificate_text session.now.scene best.now) }
{
    push_names(session, out)?;
    rows_text(session.engine().rows(), session.engine().stays(), out)?;
    best_text(&session.values()?, best, out)?;
    push_ok(out)
}

fn show_found<T: Tableau>(
    session: &Session<T>,
    found: &Diagnosis,
    out: &mut Vec<u8>,
) -> Result<(), OutOfMemory>
    ensures { IfOk result (λ _. out.new.items
        ≡ out.old.items ++ diagnosis_text session.now.scene (findings_of found.now)) }
{
    push_found(out, session.state().tree(), found)?;
    push_ok(out)
}

fn show_no_conflict(out: &mut Vec<u8>) -> Result<(), OutOfMemory>
    ensures { IfOk result (λ _. out.new.items ≡ out.old.items ++ no_conflict_text) }
{
    out.extend_from_slice(b"no conflict\n")?;
    push_ok(out)
}

fn show_core(
    rows: &[u32],
    by: &Conflict,
    without: &[(u32, Values)],
    out: &mut Vec<u8>,
) -> Result<(), OutOfMemory>
    ensures { IfOk result (λ _. out.new.items ≡ out.old.items ++ core_text rows.now by.now without.now) }
{
    push_core(out, rows, by, without)?;
    push_ok(out)
}

// The answer about the required rows of the problem that a command would solve, whatever the scene.
fn show_answer(found: &Found, out: &mut Vec<u8>) -> Result<(), OutOfMemory>
    ensures { (scene : Scene) → IfOk result
        (λ _. out.new.items ≡ out.old.items ++ text_of scene (found_reply found.now)) }
{
    match found {
        Found::Solvable => show_no_conflict(out),
        Found::Core { rows, by, without } => show_core(rows, by, without, out),
    }
}

fn show_swept<T: Tableau>(
    session: &Session<T>,
    swept: &Stretches,
    out: &mut Vec<u8>,
) -> Result<(), OutOfMemory>
    ensures { IfOk result (λ _. out.new.items
        ≡ out.old.items ++ sweep_text session.now.scene (stretches_of swept.now.0.items)) }
{
    push_stretches(out, session.state().tree(), &swept.0)?;
    push_ok(out)
}

// Appends the text of the reply to an accepted line.
fn push_reply<T: Tableau>(
    session: &Session<T>,
    reply: &Reply,
    out: &mut Vec<u8>,
) -> Result<(), OutOfMemory>
    ensures { IfOk result (λ _. out.new.items
        ≡ out.old.items ++ text_of session.now.scene (accepted reply.now)) }
{
    match reply {
        Reply::Silent => Ok(()),
        Reply::Done => push_ok(out),
        Reply::Frames => show_frames(session, out),
        Reply::Rows => show_rows(session, out),
        Reply::Certificate(best) => show_certificate(session, best, out),
        Reply::Diagnosed(found) => show_found(session, found, out),
        Reply::Why(found) => show_answer(found, out),
        Reply::Swept(stretches) => show_swept(session, stretches, out),
    }
}

// Appends the text of the reply to a command, or a part of it.
fn push_told<T: Tableau>(
    session: &Session<T>,
    reply: &Result<Reply, Refusal>,
    out: &mut Vec<u8>,
) -> Result<(), OutOfMemory>
    ensures { OnOk result (Tells (λ told. out.new.items
        ≡ out.old.items ++ text_of session.now.scene told) reply.now) }
{
    match reply {
        Ok(reply) => push_reply(session, reply, out),
        Err(refusal) => push_refusal(session.state().tree(), refusal, out),
    }
}

// The text of the reply to a command.
fn text_for<T: Tableau>(
    alloc: Global,
    session: &Session<T>,
    reply: &Result<Reply, Refusal>,
) -> Result<Vec<u8>, OutOfMemory>
    ensures { IfOk result (λ text. Tells (λ told. text.items ≡ text_of session.now.scene told) reply.now) }
{
    let mut text = Vec::new(alloc);
    push_told(session, reply, &mut text)?;
    Ok(text)
}

// Appends the text of the reply to a command, whole or not at all.
fn append_text<T: Tableau>(
    session: &Session<T>,
    reply: &Result<Reply, Refusal>,
    out: &mut Vec<u8>,
) -> Result<(), OutOfMemory>
    ensures text { OnOk result (Tells (λ told. out.new.items
        ≡ out.old.items ++ text_of session.now.scene told) reply.now) }
    ensures unchanged { OnErr result (out.new.items ≡ out.old.items) }
{
    let text = text_for(*out.allocator(), session, reply)?;
    out.extend_from_slice(&text)?;
    Ok(())
}

/// Appends the lines of the reply to a command of the session. If memory ran out, there are none, and nothing
/// is appended. If a change was made, room for [`OK_LENGTH`] bytes is enough.
pub fn reply_text<T: Tableau>(
    session: &Session<T>,
    reply: &Result<Reply, Refusal>,
    out: &mut Vec<u8>,
) -> Result<(), OutOfMemory>
    ensures text { OnOk result (Tells (λ told. out.new.items
        ≡ out.old.items ++ text_of session.now.scene told) reply.now) }
    ensures unchanged { OnErr result (out.new.items ≡ out.old.items) }
    ensures room { IsChange reply.now → vec_len out.old + OK_LENGTH ≤ vec_capacity out.old → IsOk result }
{
    match reply {
        Ok(Reply::Done) => push_ok(out),
        _ => append_text(session, reply, out),
    }
}
