// The readers of lines.
ghost use Rattle.std.specs.Prelude.{◌≡◌, IfErr, IfOk};
ghost use Rattle.span_text.specs.GivesOrMemory.{GivesOrMemory};
ghost use Rattle.script_text.specs.Grammar.{Line, words_of};
ghost use Rattle.script_text.specs.Meaning.{Said};
ghost use Rattle.script_text.specs.Meaning as mean;
ghost use Rattle.script_text.specs.LineReading.{view_at, tree_at, named_at, metric_at, window_at, budget_at};
ghost use Rattle.script_text.specs.LineReading.{apart_at, bare_at, change_at, changing_at, content_at};
ghost use Rattle.script_text.specs.LineReading.{follows_at, line_at, metric_value_at, plain_at, said_at};
ghost use Rattle.script_text.specs.LineReading.{sweep_at};
ghost use Rattle.span_text.specs.Gives.{Gives};
ghost use Rattle.vfl_text.specs.Stops.{IsStopOf};
ghost use Rattle.script_text.specs.View.{change_view, plain_view, reading_view};

use crate::command::{Change, Coming, Command, Leaving, Plain, Reading, Updating};
use crate::constraint::constrain;
use crate::directions::direction;
use crate::formats::vfl;
use crate::fractions::signed_number;
use crate::sizes::size;
use crate::suggestions::{release, suggest};
use crate::words::{ChangeWord, FirstWord, PlainWord, Version, changing_word, first_word};
use frac_core::Stop;
use span_text::{PartStop, SyntaxAt, names, numbers, pieces};
use std::alloc::Global;

#[tactic(auto, unfolding(crate::specs::LineReading::view_at))]
fn view_line(text: &[u8]) -> Result<Change<'_>, PartStop>
    ensures { GivesOrMemory change_view result (view_at text.now) }
{
    let (name, text) = names::name(text)?;
    if pieces::begins(text, b'i') {
        let (parent, text) = names::name(names::word(b"in", text)?)?;
        pieces::end(text)?;
        let parent = Some(parent);
        Ok(Change::Views(Coming::View { name, parent }))
    } else {
        pieces::end(text)?;
        Ok(Change::Views(Coming::View { name, parent: None }))
    }
}

// The text after the word `tree`, in a line of this length.
#[tactic(auto, unfolding(crate::specs::LineReading::tree_at))]
fn tree_line(len: usize, text: &[u8]) -> Result<Change<'_>, PartStop>
    ensures { GivesOrMemory change_view result (tree_at len text.now) }
{
    match text {
        [_, ..] => {
            let start = len.saturating_sub(text.len());
            Ok(Change::Views(Coming::Tree { text, start }))
        }
        [] => Err(PartStop::Left(0)),
    }
}

#[tactic(auto, unfolding(crate::specs::LineReading::named_at))]
fn drop_line(text: &[u8]) -> Result<Change<'_>, PartStop>
    ensures { GivesOrMemory change_view result (named_at (λ n. mean.Leave (mean.Drop n)) text.now) }
{
    let (name, text) = names::name(text)?;
    pieces::end(text)?;
    Ok(Change::Leave(Leaving::Drop { name }))
}

#[tactic(auto, unfolding(crate::specs::LineReading::named_at))]
fn remove_line(text: &[u8]) -> Result<Change<'_>, PartStop>
    ensures { GivesOrMemory change_view result (named_at (λ n. mean.Leave (mean.Remove n)) text.now) }
{
    let (group, text) = names::name(text)?;
    pieces::end(text)?;
    Ok(Change::Leave(Leaving::Remove { group }))
}

#[tactic(auto, unfolding(crate::specs::LineReading::named_at))]
fn unsize_line(text: &[u8]) -> Result<Change<'_>, PartStop>
    ensures { GivesOrMemory change_view result (named_at (λ n. mean.Leave (mean.Unsize n)) text.now) }
{
    let (name, text) = names::name(text)?;
    pieces::end(text)?;
    Ok(Change::Leave(Leaving::Unsize { name }))
}

#[tactic(auto, unfolding(crate::specs::LineReading::named_at))]
fn keep_line(text: &[u8]) -> Result<Change<'_>, PartStop>
    ensures { GivesOrMemory change_view result (named_at mean.Keep text.now) }
{
    let (name, text) = names::name(text)?;
    pieces::end(text)?;
    Ok(Change::Keep { name })
}

// The value of the metric of this name.
#[tactic(auto, unfolding(crate::specs::LineReading::metric_value_at))]
fn metric_value<'a>(name: &'a str, is_negative: bool, text: &[u8]) -> Result<Change<'a>, PartStop>
    ensures { GivesOrMemory change_view result (metric_value_at name.now is_negative text.now) }
{
    let (thousandths, text) = numbers::number(text)?;
    pieces::end(text)?;
    let value = signed_number(is_negative, thousandths);
    Ok(Change::Update(Updating::Metric { name, value }))
}

#[tactic(auto, unfolding(crate::specs::LineReading::metric_at))]
fn metric_line(text: &[u8]) -> Result<Change<'_>, PartStop>
    ensures { GivesOrMemory change_view result (metric_at text.now) }
{
    let (name, text) = names::name(text)?;
    if pieces::begins(text, b'-') {
        metric_value(name, true, names::sign(b'-', text)?)
    } else {
        metric_value(name, false, text)
    }
}

#[tactic(auto, unfolding(crate::specs::LineReading::window_at))]
fn window_line(text: &[u8]) -> Result<Change<'_>, PartStop>
    ensures { GivesOrMemory change_view result (window_at text.now) }
{
    let (width, text) = numbers::number(text)?;
    let (height, text) = numbers::number(text)?;
    pieces::end(text)?;
    let (width, height) = (signed_number(false, width), signed_number(false, height));
    Ok(Change::Update(Updating::Window { width, height }))
}

#[tactic(auto, unfolding(crate::specs::LineReading::sweep_at))]
fn sweep_line(text: &[u8]) -> Result<Plain, PartStop>
    ensures { GivesOrMemory plain_view result (sweep_at text.now) }
{
    let (from, text) = numbers::number(names::word(b"width", text)?)?;
    let (to, text) = numbers::number(text)?;
    pieces::end(text)?;
    Ok(Plain::Sweep {
        from: signed_number(false, from),
        to: signed_number(false, to),
    })
}

#[tactic(auto, unfolding(crate::specs::LineReading::budget_at))]
fn budget_line(text: &[u8]) -> Result<Plain, PartStop>
    ensures { GivesOrMemory plain_view result (budget_at text.now) }
{
    let (exchanges, text) = numbers::whole(text)?;
    pieces::end(text)?;
    Ok(Plain::Budget { exchanges })
}

#[tactic(auto, unfolding(crate::specs::LineReading::bare_at))]
fn undo_line(text: &[u8]) -> Result<Plain, PartStop>
    ensures { GivesOrMemory plain_view result (bare_at mean.Undo text.now) }
{
    pieces::end(text)?;
    Ok(Plain::Undo)
}

#[tactic(auto, unfolding(crate::specs::LineReading::bare_at))]
fn frames_line(text: &[u8]) -> Result<Plain, PartStop>
    ensures { GivesOrMemory plain_view result (bare_at mean.Frames text.now) }
{
    pieces::end(text)?;
    Ok(Plain::Frames)
}

#[tactic(auto, unfolding(crate::specs::LineReading::bare_at))]
fn rows_line(text: &[u8]) -> Result<Plain, PartStop>
    ensures { GivesOrMemory plain_view result (bare_at mean.Rows text.now) }
{
    pieces::end(text)?;
    Ok(Plain::Rows)
}

#[tactic(auto, unfolding(crate::specs::LineReading::bare_at))]
fn certify_line(text: &[u8]) -> Result<Plain, PartStop>
    ensures { GivesOrMemory plain_view result (bare_at mean.Certify text.now) }
{
    pieces::end(text)?;
    Ok(Plain::Certify)
}

#[tactic(auto, unfolding(crate::specs::LineReading::bare_at))]
fn diagnose_line(text: &[u8]) -> Result<Plain, PartStop>
    ensures { GivesOrMemory plain_view result (bare_at mean.Diagnose text.now) }
{
    pieces::end(text)?;
    Ok(Plain::Diagnose)
}

// The text after the word of a change, in a line of this length.
fn change(alloc: Global, len: usize, word: ChangeWord, text: &[u8]) -> Result<Change<'_>, PartStop>
    ensures { GivesOrMemory change_view result (change_at len word text.now) }
{
    match word {
        ChangeWord::View => view_line(text),
        ChangeWord::Tree => tree_line(len, text),
        ChangeWord::Metric => metric_line(text),
        ChangeWord::Window => window_line(text),
        ChangeWord::Vfl => vfl(alloc, text),
        ChangeWord::Constrain => constrain(alloc, text),
        ChangeWord::Suggest => suggest(text),
        ChangeWord::Size => size(text),
        ChangeWord::Drop => drop_line(text),
        ChangeWord::Remove => remove_line(text),
        ChangeWord::Release => release(text),
        ChangeWord::Unsize => unsize_line(text),
        ChangeWord::Direction => direction(text),
        ChangeWord::Keep => keep_line(text),
    }
}

// The text after the word of another command.
fn plain(word: PlainWord, text: &[u8]) -> Result<Plain, PartStop>
    ensures { GivesOrMemory plain_view result (plain_at word text.now) }
{
    match word {
        PlainWord::Undo => undo_line(text),
        PlainWord::Budget => budget_line(text),
        PlainWord::Frames => frames_line(text),
        PlainWord::Rows => rows_line(text),
        PlainWord::Diagnose => diagnose_line(text),
        PlainWord::Certify => certify_line(text),
        PlainWord::Sweep => sweep_line(text),
    }
}

/// The text after the first word and the spaces that follow it.
#[tactic(auto, unfolding(crate::specs::LineReading::apart_at))]
pub(crate) fn apart(text: &[u8]) -> Result<&[u8], usize>
    ensures { Gives (λ t. t.now) result (apart_at text.now) }
{
    match text {
        [b, ..] if *b != b' ' && *b != b'\t' => Err(text.len()),
        _ => Ok(pieces::skip(text)),
    }
}

// A change, after `why` in a line of this length.
#[tactic(auto, unfolding(crate::specs::LineReading::changing_at))]
fn changing(alloc: Global, len: usize, text: &[u8]) -> Result<Change<'_>, PartStop>
    ensures { GivesOrMemory change_view result (changing_at len text.now) }
{
    let (keyword, text) = changing_word(text)?;
    let text = apart(text)?;
    change(alloc, len, keyword, text)
}

// The text after the first word, in a line of this length.
fn follows(alloc: Global, len: usize, word: FirstWord, text: &[u8]) -> Result<Reading<'_>, PartStop>
    ensures { GivesOrMemory reading_view result (follows_at len word text.now) }
{
    match word {
        FirstWord::Change(word) => {
            let change = change(alloc, len, word, text)?;
            Ok(Reading::Command(Command::Change(change)))
        }
        FirstWord::Plain(word) => Ok(Reading::Command(Command::Plain(plain(word, text)?))),
        FirstWord::Why => Ok(Reading::Why(changing(alloc, len, text)?)),
    }
}

// A first word and the text after it, in a line of this length.
#[tactic(auto, unfolding(crate::specs::LineReading::said_at))]
fn said(alloc: Global, len: usize, text: &[u8], version: Version) -> Result<Reading<'_>, PartStop>
    ensures { GivesOrMemory reading_view result (said_at (words_of version) len text.now) }
{
    let (word, text) = first_word(text, version)?;
    let text = apart(text)?;
    follows(alloc, len, word, text)
}

// A line of this length, after the spaces in front of it.
#[tactic(auto, unfolding(crate::specs::LineReading::content_at))]
fn content(
    alloc: Global,
    len: usize,
    text: &[u8],
    version: Version,
) -> Result<Reading<'_>, PartStop>
    ensures { GivesOrMemory reading_view result (content_at (words_of version) len text.now) }
{
    if pieces::begins(text, b'#') {
        pieces::literal(b"#", text)?;
        return Ok(Reading::Nothing);
    }
    if text.is_empty() {
        pieces::end(text)?;
        Ok(Reading::Nothing)
    } else {
        said(alloc, len, text, version)
    }
}

#[tactic(auto, unfolding(crate::specs::LineReading::line_at))]
fn any_line(alloc: Global, line: &[u8], version: Version) -> Result<Reading<'_>, PartStop>
    ensures { GivesOrMemory reading_view result (line_at (words_of version) line.now) }
{
    content(alloc, line.len(), pieces::skip(line), version)
}

/// The one reading of a line by the grammar of this version. A line of the grammar is never refused as
/// syntax. For any other line, the refusal has the length of its longest prefix that begins some line of the
/// grammar. The line's bytes need not be a text.
pub fn read_line_in(
    alloc: Global,
    line: &[u8],
    version: Version,
) -> Result<Reading<'_>, Stop<SyntaxAt>>
    ensures sound { IfOk result (λ reading. Line (words_of version) line.now (reading_view reading)) }
    ensures one { (said : Said) → Line (words_of version) line.now said
        → IfOk result (λ reading. reading_view reading ≡ said) }
    ensures offset { IfErr result (IsStopOf (Line (words_of version)) line.now) }
{
    match any_line(alloc, line, version) {
        Ok(reading) => Ok(reading),
        Err(PartStop::Left(left)) => Err(Stop::Refused(SyntaxAt(line.len() - left))),
        Err(PartStop::OutOfMemory) => Err(Stop::OutOfMemory),
    }
}
