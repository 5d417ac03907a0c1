// The reader of a direction's line.
ghost use Rattle.span_text.specs.GivesOrMemory.{GivesOrMemory};
ghost use Rattle.script_text.specs.LineReading.{direction_at};
ghost use Rattle.script_text.specs.View.{change_view};

use crate::command::Change;
use crate::words::direction_word;
use span_text::{PartStop, names, pieces};

/// The text after the word `direction`.
#[tactic(auto, unfolding(crate::specs::LineReading::direction_at))]
pub fn direction(text: &[u8]) -> Result<Change<'_>, PartStop>
    ensures { GivesOrMemory change_view result (direction_at text.now) }
{
    let (to, text) = direction_word(text)?;
    let text = names::tail(text)?;
    pieces::end(text)?;
    Ok(Change::Turn { to })
}
