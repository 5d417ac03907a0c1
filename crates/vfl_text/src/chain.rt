// A whole format: its direction, and the chain of views and connections between its ends.
ghost use Rattle.std.specs.Prelude.{◌≡◌, ◌<◌, IfOk, length, ◌+◌};
ghost use Rattle.span_text.specs.Gives.{Gives};
ghost use Rattle.span_text.specs.GivesOrMemory.{GivesOrMemory};
ghost use Rattle.span_text.specs.Loops.{loop_at};
ghost use Rattle.span_text.specs.Reading.{starts, tried};
ghost use Rattle.vfl_text.specs.Grammar.{axes, started, with_item};
ghost use Rattle.vfl_text.specs.Reading.{is_axis, is_more, orientation_at, from_parent_at, parent_at};
ghost use Rattle.vfl_text.specs.Reading.{round_at, format_at};
ghost use Rattle.vfl_text.specs.View.{meaning, spacing_meaning, end_meaning, item_meaning};

use crate::parts::{Axis, Format, Item, Spacing};
use crate::views;
use span_text::{PartStop, names, pieces};
use std::alloc::{AllocError, Global};

// A direction, and the text at once behind it.
fn axis_letter(text: &[u8]) -> Result<(Axis, &[u8]), usize>
    ensures { Gives (λ p. (p.0, p.1.now)) result (tried axes text.now) }
{
    let found = pieces::or_else(b"V", Axis::V, text, Err(text.len()));
    pieces::or_else(b"H", Axis::H, text, found)
}

// Whether the text begins with a direction.
fn begins_with_axis(text: &[u8]) -> bool
    ensures { result ≡ starts is_axis text.now }
{
    matches!(text, [b'H' | b'V', ..])
}

// Whether a view, a connection or a parent follows.
fn goes_on(text: &[u8]) -> bool
    ensures { result ≡ starts is_more text.now }
{
    matches!(text, [b'-' | b'[' | b'|', ..])
}

// The direction, H where none is written, and the text behind it.
#[tactic(auto, unfolding(crate::specs::Reading::orientation_at))]
fn orientation(text: &[u8]) -> Result<(Axis, &[u8]), usize>
    ensures { Gives (λ p. (p.0, p.1.now)) result (orientation_at text.now) }
{
    if begins_with_axis(text) {
        let (axis, rest) = axis_letter(text)?;
        let rest = names::sign(b':', pieces::skip(rest))?;
        Ok((axis, rest))
    } else {
        Ok((Axis::H, text))
    }
}

// The connection to a parent in front, if one is there, and the text behind it.
#[tactic(auto, unfolding(crate::specs::Reading::from_parent_at))]
fn from_parent(alloc: Global, text: &[u8]) -> Result<(Option<Spacing<'_>>, &[u8]), PartStop>
    ensures { GivesOrMemory (λ p. (end_meaning p.0, p.1.now)) result (from_parent_at text.now) }
{
    if pieces::begins(text, b'|') {
        let rest = names::sign(b'|', text)?;
        let (spacing, rest) = views::connection(alloc, rest)?;
        Ok((Some(spacing), rest))
    } else {
        Ok((None, text))
    }
}

// The format with this connection to the parent at its end, which the text must be.
fn to_parent<'a>(
    format: Format<'a>,
    spacing: Spacing<'a>,
    text: &[u8],
) -> Result<Format<'a>, PartStop>
    ensures { GivesOrMemory meaning result (parent_at (meaning format.entry)
        (spacing_meaning spacing.entry) text.now) }
{
    let rest = names::sign(b'|', text)?;
    pieces::end(rest)?;
    let mut format = format;
    format.to_parent = Some(spacing);
    Ok(format)
}

// A format of one view.
fn begun<'a>(
    alloc: Global,
    axis: Axis,
    from_parent: Option<Spacing<'a>>,
    item: Item<'a>,
) -> Result<Format<'a>, AllocError>
    ensures { IfOk result (λ f. meaning f ≡ started axis (end_meaning from_parent.entry)
        (item_meaning item.entry)) }
{
    let mut items = Vec::new(alloc);
    items.push(item)?;
    Ok(Format {
        axis,
        from_parent,
        items,
        spacings: Vec::new(alloc),
        to_parent: None,
    })
}

// The format with one more view.
fn joined<'a>(
    format: Format<'a>,
    spacing: Spacing<'a>,
    item: Item<'a>,
) -> Result<Format<'a>, AllocError>
    ensures ok { IfOk result (λ f. meaning f
        ≡ with_item (meaning format.entry) (spacing_meaning spacing.entry) (item_meaning item.entry)) }
    ensures grows { IfOk result (λ f. length f.items.items ≡ length format.entry.items.items + 1) }
{
    let Format {
        axis,
        from_parent,
        mut items,
        mut spacings,
        to_parent,
    } = format;
    spacings.push(spacing)?;
    items.push(item)?;
    Ok(Format {
        axis,
        from_parent,
        items,
        spacings,
        to_parent,
    })
}

// The format whose views before these are `first`, to the end of the text.
fn chain<'a>(alloc: Global, first: Format<'a>, text: &'a [u8]) -> Result<Format<'a>, PartStop>
    ensures { GivesOrMemory meaning result (loop_at round_at (meaning first.entry) text.now) }
{
    let mut format = first;
    let mut rest = text;
    while goes_on(rest) {
        let (spacing, after) = views::connection(alloc, rest)?;
        if !pieces::begins(after, b'[') {
            return to_parent(format, spacing, after);
        }
        let (item, after) = views::view(alloc, after)?;
        format = joined(format, spacing, item)?;
        rest = after;
    }
    pieces::end(rest)?;
    Ok(format)
}

/// The one format that the whole text means, where the text may have any bytes. The error counts the bytes
/// that are left where no format goes on.
#[tactic(auto, unfolding(crate::specs::Reading::format_at))]
pub fn read_bytes(alloc: Global, text: &[u8]) -> Result<Format<'_>, PartStop>
    ensures { GivesOrMemory meaning result (format_at text.now) }
{
    let (axis, rest) = orientation(pieces::skip(text))?;
    let (from_parent, rest) = from_parent(alloc, rest)?;
    let (item, rest) = views::view(alloc, rest)?;
    let format = begun(alloc, axis, from_parent, item)?;
    chain(alloc, format, rest)
}
