// The canonical text of a format. What is written is put behind a text; after an error nothing is said of it.
ghost use Rattle.std.specs.Prelude.{◌≡◌, ◌<◌, ◌+◌, ◌++◌, OnOk, length};
ghost use Rattle.span_text.specs.Bytes.{digit_0};
ghost use Rattle.span_text.specs.Objects.{meant, object_view};
ghost use Rattle.span_text.specs.declared.limits.TheConstants.{UNIT};
ghost use Rattle.vfl_text.specs.Text.{decimals_text, number_text, object_text, relation_text, priority_text};
ghost use Rattle.vfl_text.specs.Text.{pred_text, more_text, preds_text, list_text, sizes_text, item_text};
ghost use Rattle.vfl_text.specs.Text.{is_plain, is_simple, given_text, spacing_text, axis_text, from_text};
ghost use Rattle.vfl_text.specs.Text.{to_text, chain_text, views_text, format_text};
ghost use Rattle.vfl_text.specs.View.{pred_meaning, pred_meanings, item_meaning};
ghost use Rattle.vfl_text.specs.View.{item_meanings, spacing_meaning, spacing_meanings, end_meaning, meaning};

use crate::parts::{Axis, Format, Item, Pred, Spacing};
use frac_core::OutOfMemory;
use itoa::Buffer;
use problem_core::Rel;
use span_text::{HUNDREDTH, Object, TENTH, UNIT};
use std::alloc::Global;

fn digit(value: u32) -> u8
    requires { value < 10 }
    ensures { result ≡ digit_0 + value }
{
    b'0' + value as u8
}

#[tactic(auto, unfolding(crate::specs::Text::decimals_text))]
fn write_decimals(thousandths: u32, text: &mut Vec<u8>) -> Result<(), OutOfMemory>
    requires { thousandths < UNIT }
    ensures { OnOk result (text.new.items ≡ text.old.items ++ decimals_text thousandths) }
{
    if thousandths == 0 {
        return Ok(());
    }
    text.push(b'.')?;
    text.push(digit(thousandths / TENTH))?;
    if thousandths % TENTH == 0 {
        return Ok(());
    }
    text.push(digit(thousandths / HUNDREDTH % 10))?;
    if thousandths % HUNDREDTH == 0 {
        return Ok(());
    }
    text.push(digit(thousandths % HUNDREDTH))?;
    Ok(())
}

#[tactic(auto, unfolding(crate::specs::Text::number_text))]
fn write_number(thousandths: u32, text: &mut Vec<u8>) -> Result<(), OutOfMemory>
    ensures { OnOk result (text.new.items ≡ text.old.items ++ number_text thousandths) }
{
    let mut digits = Buffer::new();
    text.extend_from_slice(digits.format(thousandths / UNIT).as_bytes())?;
    write_decimals(thousandths % UNIT, text)
}

fn write_object(object: Object<'_>, text: &mut Vec<u8>) -> Result<(), OutOfMemory>
    ensures { OnOk result (text.new.items ≡ text.old.items ++ object_text (meant object.entry)) }
{
    match object {
        Object::Number { thousandths } => {
            if thousandths < 0 {
                text.push(b'-')?;
            }
            write_number(thousandths.unsigned_abs(), text)
        }
        Object::Name { text: name } => {
            text.extend_from_slice(name.as_bytes())?;
            Ok(())
        }
    }
}

fn write_relation(rel: Rel, text: &mut Vec<u8>) -> Result<(), OutOfMemory>
    ensures { OnOk result (text.new.items ≡ text.old.items ++ relation_text rel) }
{
    let bytes = match rel {
        Rel::Eq => b"==",
        Rel::Le => b"<=",
        Rel::Ge => b">=",
    };
    text.extend_from_slice(bytes)?;
    Ok(())
}

fn write_priority(priority: Option<Object<'_>>, text: &mut Vec<u8>) -> Result<(), OutOfMemory>
    ensures { OnOk result (text.new.items ≡ text.old.items
        ++ priority_text (object_view priority.entry)) }
{
    if let Some(object) = priority {
        text.push(b'@')?;
        write_object(object, text)?;
    }
    Ok(())
}

fn write_pred(pred: &Pred<'_>, text: &mut Vec<u8>) -> Result<(), OutOfMemory>
    ensures { OnOk result (text.new.items ≡ text.old.items ++ pred_text (pred_meaning pred.now)) }
{
    write_relation(pred.rel, text)?;
    write_object(pred.object, text)?;
    write_priority(pred.priority, text)
}

// The predicates behind the first one of a list.
fn write_more(preds: &[Pred<'_>], text: &mut Vec<u8>) -> Result<(), OutOfMemory>
    ensures { OnOk result (text.new.items ≡ text.old.items ++ more_text (pred_meanings preds.now)) }
{
    for pred in preds {
        text.push(b',')?;
        write_pred(pred, text)?;
    }
    Ok(())
}

fn write_preds(preds: &[Pred<'_>], text: &mut Vec<u8>) -> Result<(), OutOfMemory>
    ensures { OnOk result (text.new.items ≡ text.old.items ++ preds_text (pred_meanings preds.now)) }
{
    match preds {
        [first, others @ ..] => {
            write_pred(first, text)?;
            write_more(others, text)
        }
        [] => Ok(()),
    }
}

fn write_list(preds: &[Pred<'_>], text: &mut Vec<u8>) -> Result<(), OutOfMemory>
    ensures { OnOk result (text.new.items ≡ text.old.items ++ list_text (pred_meanings preds.now)) }
{
    text.push(b'(')?;
    write_preds(preds, text)?;
    text.push(b')')?;
    Ok(())
}

fn write_sizes(sizes: &[Pred<'_>], text: &mut Vec<u8>) -> Result<(), OutOfMemory>
    ensures { OnOk result (text.new.items ≡ text.old.items ++ sizes_text (pred_meanings sizes.now)) }
{
    match sizes {
        [] => Ok(()),
        _ => write_list(sizes, text),
    }
}

fn write_item(item: &Item<'_>, text: &mut Vec<u8>) -> Result<(), OutOfMemory>
    ensures { OnOk result (text.new.items ≡ text.old.items ++ item_text (item_meaning item.now)) }
{
    text.push(b'[')?;
    text.extend_from_slice(item.name.as_bytes())?;
    write_sizes(&item.sizes, text)?;
    text.push(b']')?;
    Ok(())
}

// Whether the object is a name or a number that isn't below 0.
fn is_plain(object: Object<'_>) -> bool
    ensures { result ≡ is_plain (meant object.entry) }
{
    match object {
        Object::Number { thousandths } => thousandths >= 0,
        Object::Name { .. } => true,
    }
}

// Whether this predicate, alone in a connection, is written without parentheses and relation.
fn is_simple(pred: &Pred<'_>) -> bool
    ensures { result ≡ is_simple (pred_meaning pred.now) }
{
    matches!(pred.rel, Rel::Eq) && pred.priority.is_none() && is_plain(pred.object)
}

// What stands between the two `-` of a connection.
fn write_given(preds: &[Pred<'_>], text: &mut Vec<u8>) -> Result<(), OutOfMemory>
    ensures { OnOk result (text.new.items ≡ text.old.items ++ given_text (pred_meanings preds.now)) }
{
    match preds {
        [only] if is_simple(only) => write_object(only.object, text),
        _ => write_list(preds, text),
    }
}

fn write_spacing(spacing: &Spacing<'_>, text: &mut Vec<u8>) -> Result<(), OutOfMemory>
    ensures { OnOk result (text.new.items ≡ text.old.items ++ spacing_text (spacing_meaning spacing.now)) }
{
    match spacing {
        Spacing::Flush => {}
        Spacing::Standard => text.push(b'-')?,
        Spacing::Given(preds) => {
            text.push(b'-')?;
            write_given(preds, text)?;
            text.push(b'-')?;
        }
    }
    Ok(())
}

fn write_axis(axis: Axis, text: &mut Vec<u8>) -> Result<(), OutOfMemory>
    ensures { OnOk result (text.new.items ≡ text.old.items ++ axis_text axis) }
{
    let bytes = match axis {
        Axis::H => b"H:",
        Axis::V => b"V:",
    };
    text.extend_from_slice(bytes)?;
    Ok(())
}

fn write_from_parent(spacing: &Option<Spacing<'_>>, text: &mut Vec<u8>) -> Result<(), OutOfMemory>
    ensures { OnOk result (text.new.items ≡ text.old.items ++ from_text (end_meaning spacing.now)) }
{
    if let Some(spacing) = spacing {
        text.push(b'|')?;
        write_spacing(spacing, text)?;
    }
    Ok(())
}

fn write_to_parent(spacing: &Option<Spacing<'_>>, text: &mut Vec<u8>) -> Result<(), OutOfMemory>
    ensures { OnOk result (text.new.items ≡ text.old.items ++ to_text (end_meaning spacing.now)) }
{
    if let Some(spacing) = spacing {
        write_spacing(spacing, text)?;
        text.push(b'|')?;
    }
    Ok(())
}

// The views behind the first one.
fn write_chain(
    spacings: &[Spacing<'_>],
    items: &[Item<'_>],
    text: &mut Vec<u8>,
) -> Result<(), OutOfMemory>
    requires { length spacings.now ≡ length items.now }
    ensures { OnOk result (text.new.items ≡ text.old.items
        ++ chain_text (spacing_meanings spacings.now) (item_meanings items.now)) }
{
    for (i, spacing) in spacings.iter().enumerate() {
        write_spacing(spacing, text)?;
        write_item(&items[i], text)?;
    }
    Ok(())
}

fn write_views(format: &Format<'_>, text: &mut Vec<u8>) -> Result<(), OutOfMemory>
    ensures { OnOk result (text.new.items ≡ text.old.items
        ++ views_text (spacing_meanings format.now.spacings.items) (item_meanings format.now.items.items)) }
{
    match format.items.as_slice() {
        [first, others @ ..] => {
            write_item(first, text)?;
            write_chain(&format.spacings, others, text)
        }
        [] => Ok(()),
    }
}

/// Writes the format's canonical text.
#[tactic(auto, unfolding(crate::specs::Text::format_text))]
pub fn write_format(format: &Format<'_>, text: &mut Vec<u8>) -> Result<(), OutOfMemory>
    ensures { OnOk result (text.new.items ≡ text.old.items ++ format_text (meaning format.now)) }
{
    write_axis(format.axis, text)?;
    write_from_parent(&format.from_parent, text)?;
    write_views(format, text)?;
    write_to_parent(&format.to_parent, text)
}
