// The script that is made, and what a run of it comes to.
ghost use Rattle.std.specs.Prelude.{◌≡◌, ◌<◌, ◌≤◌, ◌++◌, ℕ, IfOk, cond, is_ok, length, string_bytes};
ghost use Rattle.std.specs.Str.Lines.{lines as lines_in};
ghost use Rattle.std.specs.declared.result.Result.TheVariants.{Err as Refused};
ghost use Rattle.make_script.specs.Script.{script};
ghost use Rattle.session_undo.specs.Replies as reply;
ghost use Rattle.layout_cli.specs.Machine.{Step};
ghost use Rattle.layout_cli.specs.Making.{IsMade, IsSummedUp, Refuses, SumsUp};
ghost use Rattle.layout_cli.specs.Making.{last_line, refusal_count, summary_line};

use crate::answers::step;
use crate::output::Output;
use crate::session::Session;
use frac_core::OutOfMemory;
use make_script::make_script;
use reply_texts::push_at;
use session_undo::{Refusal, Reply};
use span_text::lines;
use std::alloc::Global;

// How many lines a script has, and how many of them were refused.
#[derive(Clone, Copy)]
struct Counts {
    lines: u64,
    refused: u64,
}

// How many refusals a reply is that is told: none tells of want of memory.
fn told_count(reply: &Result<Reply, Refusal>) -> Result<u64, OutOfMemory>
    ensures told { IfOk result (λ _. reply.now ≡ Refused Refusal.OutOfMemory → ⊥) }
    ensures count { IfOk result (λ count. count ≡ cond (is_ok reply.now) 0 1) }
{
    match reply {
        Ok(_) => Ok(0),
        Err(Refusal::OutOfMemory) => Err(OutOfMemory),
        Err(_) => Ok(1),
    }
}

// Does what a line says, and counts its refusal where it is refused.
fn count_refusal(alloc: Global, session: &mut Session, line: &[u8]) -> Result<u64, OutOfMemory>
    ensures count { IfOk result (λ count. (answer : reply.Reply)
        × Step session.old line.now answer session.new × (count ≡ refusal_count answer)) }
    ensures small { IfOk result (λ count. count ≤ 1) }
{
    let reply = step(alloc, session, line);
    let count = told_count(&reply);
    drop(reply); // for the proof: moved on, not taken apart here
    count
}

// Answers the lines of a script, and counts them and those that are refused.
fn answer_lines(alloc: Global, session: &mut Session, script: &[u8]) -> Result<Counts, OutOfMemory>
    requires { length script.now < usize.MAX }
    ensures count { IfOk result (λ end. end.lines ≡ length (lines_in script.now)) }
    ensures run { IfOk result (λ end. Refuses session.old (lines_in script.now) end.refused session.new) }
{
    let mut count = 0;
    let mut refused = 0;
    for line in lines(script) {
        count += 1;
        refused += count_refusal(alloc, session, line.bytes)?;
    }
    Ok(Counts {
        lines: count,
        refused,
    })
}

// Appends the line that sums up.
#[tactic(auto, unfolding(crate::specs::Making::summary_line))]
fn put_summary(text: &mut String, lines: u64, refused: u64, rows: u64) -> Result<(), OutOfMemory>
    ensures { IfOk result (λ _.
        string_bytes text.new ≡ string_bytes text.old ++ summary_line lines refused rows) }
{
    writeln!(text, "made lines {lines} refused {refused} rows {rows}")?;
    Ok(())
}

// The line that sums up what was answered, where so many rows are held.
fn summary_of(alloc: Global, end: Counts, rows: u64) -> Result<Vec<u8>, OutOfMemory>
    ensures { IfOk result (λ text. text.items ≡ summary_line end.lines end.refused rows) }
{
    let mut text = String::new(alloc);
    put_summary(&mut text, end.lines, end.refused, rows)?;
    Ok(text.into_bytes())
}

// Appends the line of the frame of a session's last view.
fn push_last(text: &mut Vec<u8>, session: &Session) -> Result<(), OutOfMemory>
    ensures { IfOk result (λ _. text.new.items ≡ text.old.items ++ last_line session.now.scene) }
{
    let scene = session.state();
    push_at(text, scene, scene.tree().len().saturating_sub(1))
}

// The two lines of what was answered.
fn text_of(alloc: Global, session: &Session, end: Counts) -> Result<Vec<u8>, OutOfMemory>
    ensures { IfOk result (λ text. text.items
        ≡ summary_line end.lines end.refused (length session.now.scene.rows)
        ++ last_line session.now.scene) }
{
    let rows = session.engine().rows().len() as u64;
    let mut text = summary_of(alloc, end, rows)?;
    push_last(&mut text, session)?;
    Ok(text)
}

// What the answers of a session to the lines of a script come to.
fn summed_up(alloc: Global, session: &mut Session, script: &[u8]) -> Result<Output, OutOfMemory>
    requires { length script.now < usize.MAX }
    ensures { IfOk result (λ output. (refused : ℕ)
        × Refuses session.old (lines_in script.now) refused session.new
        × SumsUp (lines_in script.now) refused session.new output.text.items output.is_good) }
{
    let end = answer_lines(alloc, session, script)?;
    Ok(Output {
        text: text_of(alloc, session, end)?,
        is_good: end.refused == 0,
    })
}

// What a run of the script comes to, from a new session.
fn run_over(alloc: Global, script: &[u8]) -> Result<Output, OutOfMemory>
    requires { length script.now < usize.MAX }
    ensures { IfOk result (λ output. IsSummedUp (lines_in script.now) output.text.items output.is_good) }
{
    let mut session = Session::new(alloc)?;
    let output = summed_up(alloc, &mut session, script);
    drop(session); // for the proof: moved on, not taken apart here
    output
}

/// What a run of the script comes to that is drawn from a seed for a number of views: how many lines it has,
/// how many of them are refused, how many rows are held at its end, and the frame of the last view.
pub fn make_and_run(alloc: Global, seed: u64, views: u32) -> Result<Output, OutOfMemory>
    ensures { IfOk result (λ output. IsMade seed views output.text.items output.is_good) }
{
    let mut script = Vec::new(alloc);
    make_script(seed, views, &mut script)?;
    run_over(alloc, &script)
}
