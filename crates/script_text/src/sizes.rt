// The reader of a size's line.
ghost use Rattle.span_text.specs.Gives.{Gives};
ghost use Rattle.span_text.specs.GivesOrMemory.{GivesOrMemory};
ghost use Rattle.span_text.specs.Objects.{object_view};
ghost use Rattle.script_text.specs.LineReading.{hug_at, pulls_at, resist_at, size_at};
ghost use Rattle.script_text.specs.View.{change_view};

use crate::command::{Change, Updating};
use crate::constraint::object;
use crate::fractions::signed_number;
use span_text::{Object, PartStop, names, numbers, pieces};

// The priority after the word `hug`, if that is written.
#[tactic(auto, unfolding(crate::specs::LineReading::hug_at))]
fn hug(text: &[u8]) -> Result<(Option<Object<'_>>, &[u8]), usize>
    ensures { Gives (λ p. (object_view p.0, p.1.now)) result (hug_at text.now) }
{
    if pieces::begins(text, b'h') {
        object(names::word(b"hug", text)?)
    } else {
        Ok((None, text))
    }
}

// The priority after the word `resist`, if that is written.
#[tactic(auto, unfolding(crate::specs::LineReading::resist_at))]
fn resist(text: &[u8]) -> Result<(Option<Object<'_>>, &[u8]), usize>
    ensures { Gives (λ p. (object_view p.0, p.1.now)) result (resist_at text.now) }
{
    if pieces::begins(text, b'r') {
        object(names::word(b"resist", text)?)
    } else {
        Ok((None, text))
    }
}

// The priorities after the name, the width and the height.
#[tactic(auto, unfolding(crate::specs::LineReading::pulls_at))]
fn pulls<'a>(name: &'a str, width: u32, height: u32, text: &'a [u8]) -> Result<Change<'a>, PartStop>
    ensures { GivesOrMemory change_view result (pulls_at name.now width height text.now) }
{
    let (hug, text) = hug(text)?;
    let (resist, text) = resist(text)?;
    pieces::end(text)?;
    Ok(Change::Update(Updating::Size {
        name,
        width: signed_number(false, width),
        height: signed_number(false, height),
        hug,
        resist,
    }))
}

/// The text after the word `size`.
#[tactic(auto, unfolding(crate::specs::LineReading::size_at))]
pub fn size(text: &[u8]) -> Result<Change<'_>, PartStop>
    ensures { GivesOrMemory change_view result (size_at text.now) }
{
    let (name, text) = names::name(text)?;
    let (width, text) = numbers::number(text)?;
    let (height, text) = numbers::number(text)?;
    pulls(name, width, height, text)
}
