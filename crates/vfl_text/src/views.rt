// What a format is a chain of: views in brackets, and the connections between them.
ghost use Rattle.std.specs.Prelude.{◌≡◌, ◌<◌, ◌≤◌, IfOk, length};
ghost use Rattle.span_text.specs.GivesOrMemory.{GivesOrMemory};
ghost use Rattle.span_text.specs.Objects.{meant};
ghost use Rattle.vfl_text.specs.Grammar.{single};
ghost use Rattle.vfl_text.specs.Reading.{item_at, spaced_at, spacing_at};
ghost use Rattle.vfl_text.specs.View.{pred_meanings, item_meaning, spacing_meaning};

use crate::parts::{Item, Pred, Spacing};
use crate::preds;
use problem_core::Rel;
use span_text::{Object, PartStop, names, pieces};
use std::alloc::{AllocError, Global};

/// A view in brackets, and the text behind it.
#[tactic(auto, unfolding(crate::specs::Reading::item_at))]
pub fn view(alloc: Global, text: &[u8]) -> Result<(Item<'_>, &[u8]), PartStop>
    ensures shorter { IfOk result (λ p. length p.1.now < length text.now) }
    ensures gives { GivesOrMemory (λ p. (item_meaning p.0, p.1.now)) result (item_at text.now) }
{
    let rest = names::sign(b'[', text)?;
    let (name, rest) = names::name(rest)?;
    if pieces::begins(rest, b'(') {
        let (sizes, rest) = preds::predicates(alloc, rest)?;
        let rest = names::sign(b']', rest)?;
        Ok((Item { name, sizes }, rest))
    } else {
        let rest = names::sign(b']', rest)?;
        let sizes = Vec::new(alloc);
        Ok((Item { name, sizes }, rest))
    }
}

// The list of the one predicate that an object without parentheses means.
fn alone(alloc: Global, object: Object<'_>) -> Result<Vec<Pred<'_>>, AllocError>
    ensures { IfOk result (λ v. pred_meanings v.items ≡ single (meant object.entry)) }
{
    let mut preds = Vec::new(alloc);
    preds.push(Pred {
        rel: Rel::Eq,
        object,
        priority: None,
    })?;
    Ok(preds)
}

// What stands behind the first `-` of a connection, and the text behind the connection.
#[tactic(auto, unfolding(crate::specs::Reading::spaced_at))]
fn spaced(alloc: Global, text: &[u8]) -> Result<(Spacing<'_>, &[u8]), PartStop>
    ensures within { IfOk result (λ p. length p.1.now ≤ length text.now) }
    ensures gives { GivesOrMemory (λ p. (spacing_meaning p.0, p.1.now)) result (spaced_at text.now) }
{
    if pieces::begins(text, b'(') {
        let (preds, rest) = preds::predicates(alloc, text)?;
        let rest = names::sign(b'-', rest)?;
        Ok((Spacing::Given(preds), rest))
    } else if pieces::begins_with_word(text) {
        let (object, rest) = preds::value(text)?;
        let rest = names::sign(b'-', rest)?;
        let preds = alone(alloc, object)?;
        Ok((Spacing::Given(preds), rest))
    } else {
        Ok((Spacing::Standard, text))
    }
}

/// A connection, and the text behind it.
#[tactic(auto, unfolding(crate::specs::Reading::spacing_at))]
pub fn connection(alloc: Global, text: &[u8]) -> Result<(Spacing<'_>, &[u8]), PartStop>
    ensures within { IfOk result (λ p. length p.1.now ≤ length text.now) }
    ensures gives { GivesOrMemory (λ p. (spacing_meaning p.0, p.1.now)) result (spacing_at text.now) }
{
    if pieces::begins(text, b'-') {
        let rest = names::sign(b'-', text)?;
        spaced(alloc, rest)
    } else {
        Ok((Spacing::Flush, text))
    }
}
