// Predicates, alone and in lists.
ghost use Rattle.std.specs.Prelude.{◌≡◌, ◌<◌, ◌≤◌, IfOk, length, pos, neg_ℤ, []};
ghost use Rattle.span_text.specs.Gives.{Gives};
ghost use Rattle.span_text.specs.GivesOrMemory.{GivesOrMemory};
ghost use Rattle.span_text.specs.Objects.{meant};
ghost use Rattle.span_text.specs.Loops.{loop_at};
ghost use Rattle.span_text.specs.Reading.{tried, starts};
ghost use Rattle.span_text.specs.Tokens.{number_bound};
ghost use Rattle.vfl_text.specs.Grammar.{relations};
ghost use Rattle.vfl_text.specs.Reading.{value_at, object_at, priority_at, ruled_at, pred_at, pred_round_at};
ghost use Rattle.vfl_text.specs.Reading.{preds_at, is_compare};
ghost use Rattle.vfl_text.specs.View.{pred_meaning, pred_meanings};

use crate::parts::Pred;
use problem_core::Rel;
use span_text::{Object, PartStop, names, numbers, pieces};
use std::alloc::Global;

// A number of thousandths without a sign.
fn plus(thousandths: u32) -> i32
    requires { thousandths < number_bound }
    ensures { result ≡ pos thousandths }
{
    thousandths as i32
}

// The same with `-` in front.
fn minus(thousandths: u32) -> i32
    requires { thousandths < number_bound }
    ensures { result ≡ neg_ℤ (pos thousandths) }
{
    -(thousandths as i32)
}

/// A name or a number, and the text behind it.
#[tactic(auto, unfolding(crate::specs::Reading::value_at))]
pub fn value(text: &[u8]) -> Result<(Object<'_>, &[u8]), usize>
    ensures shorter { IfOk result (λ p. length p.1.now < length text.now) }
    ensures gives { Gives (λ p. (meant p.0, p.1.now)) result (value_at text.now) }
{
    if pieces::begins_with_letter(text) {
        let (name, rest) = names::name(text)?;
        Ok((Object::Name { text: name }, rest))
    } else {
        let (thousandths, rest) = numbers::number(text)?;
        let thousandths = plus(thousandths);
        Ok((Object::Number { thousandths }, rest))
    }
}

// A name or a number, which may be below 0, and the text behind it.
#[tactic(auto, unfolding(crate::specs::Reading::object_at))]
fn object(text: &[u8]) -> Result<(Object<'_>, &[u8]), usize>
    ensures shorter { IfOk result (λ p. length p.1.now < length text.now) }
    ensures gives { Gives (λ p. (meant p.0, p.1.now)) result (object_at text.now) }
{
    if pieces::begins(text, b'-') {
        let rest = names::sign(b'-', text)?;
        let (thousandths, rest) = numbers::number(rest)?;
        let thousandths = minus(thousandths);
        Ok((Object::Number { thousandths }, rest))
    } else {
        value(text)
    }
}

// The predicate of this relation and object, with the priority that may follow.
#[tactic(auto, unfolding(crate::specs::Reading::priority_at))]
fn with_priority<'a>(
    rel: Rel,
    object: Object<'a>,
    text: &'a [u8],
) -> Result<(Pred<'a>, &'a [u8]), usize>
    ensures within { IfOk result (λ p. length p.1.now ≤ length text.now) }
    ensures gives { Gives (λ p. (pred_meaning p.0, p.1.now)) result
        (priority_at rel (meant object.entry) text.now) }
{
    if pieces::begins(text, b'@') {
        let rest = names::sign(b'@', text)?;
        let (priority, rest) = value(rest)?;
        let priority = Some(priority);
        Ok((
            Pred {
                rel,
                object,
                priority,
            },
            rest,
        ))
    } else {
        let priority = None;
        Ok((
            Pred {
                rel,
                object,
                priority,
            },
            text,
        ))
    }
}

// A predicate whose relation was read.
#[tactic(auto, unfolding(crate::specs::Reading::ruled_at))]
fn ruled(rel: Rel, text: &[u8]) -> Result<(Pred<'_>, &[u8]), usize>
    ensures shorter { IfOk result (λ p. length p.1.now < length text.now) }
    ensures gives { Gives (λ p. (pred_meaning p.0, p.1.now)) result (ruled_at rel text.now) }
{
    let (object, rest) = object(text)?;
    with_priority(rel, object, rest)
}

/// A relation, and the text at once behind it.
pub fn relation(text: &[u8]) -> Result<(Rel, &[u8]), usize>
    ensures within { IfOk result (λ p. length p.1.now ≤ length text.now) }
    ensures gives { Gives (λ p. (p.0, p.1.now)) result (tried relations text.now) }
{
    let found = pieces::or_else(b">=", Rel::Ge, text, Err(text.len()));
    let found = pieces::or_else(b"<=", Rel::Le, text, found);
    pieces::or_else(b"==", Rel::Eq, text, found)
}

// Whether the text begins with the first byte of a relation.
fn begins_with_relation(text: &[u8]) -> bool
    ensures { result ≡ starts is_compare text.now }
{
    matches!(text, [b'<' | b'=' | b'>', ..])
}

// A predicate, and the text behind it.
#[tactic(auto, unfolding(crate::specs::Reading::pred_at))]
fn predicate(text: &[u8]) -> Result<(Pred<'_>, &[u8]), usize>
    ensures shorter { IfOk result (λ p. length p.1.now < length text.now) }
    ensures gives { Gives (λ p. (pred_meaning p.0, p.1.now)) result (pred_at text.now) }
{
    if begins_with_relation(text) {
        let (rel, rest) = relation(text)?;
        ruled(rel, pieces::skip(rest))
    } else {
        ruled(Rel::Eq, text)
    }
}

// Predicates up to the end of their list, and the text behind it.
fn predicates_from(alloc: Global, text: &[u8]) -> Result<(Vec<Pred<'_>>, &[u8]), PartStop>
    ensures shorter { IfOk result (λ p. length p.1.now < length text.now) }
    ensures gives { GivesOrMemory (λ p. (pred_meanings p.0.items, p.1.now)) result
        (loop_at pred_round_at [] text.now) }
{
    let mut preds = Vec::new(alloc);
    let mut rest = text;
    loop {
        let (pred, after) = predicate(rest)?;
        preds.push(pred)?;
        if !pieces::begins(after, b',') {
            let end = names::sign(b')', after)?;
            return Ok((preds, end));
        }
        rest = names::sign(b',', after)?;
    }
}

/// Predicates in parentheses, and the text behind them.
#[tactic(auto, unfolding(crate::specs::Reading::preds_at))]
pub fn predicates(alloc: Global, text: &[u8]) -> Result<(Vec<Pred<'_>>, &[u8]), PartStop>
    ensures shorter { IfOk result (λ p. length p.1.now < length text.now) }
    ensures gives { GivesOrMemory (λ p. (pred_meanings p.0.items, p.1.now)) result (preds_at text.now) }
{
    let text = names::sign(b'(', text)?;
    predicates_from(alloc, text)
}
