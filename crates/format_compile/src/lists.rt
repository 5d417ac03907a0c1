// The parts of a format, in the order of its text. After an error the appended parts are unspecified.
ghost use Rattle.std.specs.Prelude.{◌≡◌, ◌++◌, ◌∷◌, [], ◌<◌, IfOk, OnOk, length};
ghost use Rattle.vfl_text.specs.View.{pred_meaning, pred_meanings, spacing_meaning, spacing_meanings};
ghost use Rattle.vfl_text.specs.View.{end_meaning, item_meaning, item_meanings, meaning};
ghost use Rattle.format_compile.specs.FormatParts as parts;
ghost use Rattle.format_compile.specs.FormatViews.{span_view, parts_view};
ghost use Rattle.format_compile.specs.Constants.{ConstantsAreAsSaid};

use crate::parts::{Course, Part, Span};
use crate::spans::{aligned_word, between, course_of, inside_far, inside_near, off, size};
use frac_core::OutOfMemory;
use problem_core::Rel;
use script_text::{Align, AttrWord, Direction};
use span_text::Object;
use std::alloc::Global;
use vfl_text::{Format, Item, Pred, Spacing};

/// The space between two views if none is given, in thousandths.
pub const USUAL_BETWEEN: u16 = 8_000;

/// The space between a view and its parent if none is given, in thousandths.
pub const USUAL_INSIDE: u16 = 20_000;

// So many thousandths, required.
fn exactly<'a>(thousandths: u16) -> Pred<'a>
    ensures { pred_meaning result ≡ parts.exactly thousandths }
{
    Pred {
        rel: Rel::Eq,
        object: Object::Number {
            thousandths: i32::from(thousandths),
        },
        priority: None,
    }
}

// Appends a row that measures exactly so many thousandths, required.
fn push_exactly<'a>(
    out: &mut Vec<Part<'a>>,
    span: Span<'a>,
    thousandths: u16,
) -> Result<(), OutOfMemory>
    ensures { OnOk result (parts_view out.new.items
        ≡ parts_view out.old.items ++ parts.Asks (span_view span.entry) (parts.exactly thousandths) ∷ []) }
{
    let pred = exactly(thousandths);
    out.push(Part::Asks { span, pred })?;
    Ok(())
}

// Appends a row for each of the predicates.
fn push_preds<'a>(
    out: &mut Vec<Part<'a>>,
    span: Span<'a>,
    preds: &[Pred<'a>],
) -> Result<(), OutOfMemory>
    ensures { OnOk result (parts_view out.new.items
        ≡ parts_view out.old.items ++ parts.asks (span_view span.entry) (pred_meanings preds.now)) }
{
    for pred in preds {
        out.push(Part::Asks { span, pred: *pred })?;
    }
    Ok(())
}

// Appends the rows of a connection. Its usual space is in thousandths.
fn push_spacing<'a>(
    out: &mut Vec<Part<'a>>,
    span: Span<'a>,
    usual: u16,
    spacing: &Spacing<'a>,
) -> Result<(), OutOfMemory>
    ensures { OnOk result (parts_view out.new.items
        ≡ parts_view out.old.items
        ++ parts.spacing_parts (span_view span.entry) usual (spacing_meaning spacing.now)) }
{
    match spacing {
        Spacing::Flush => push_exactly(out, span, 0),
        Spacing::Standard => push_exactly(out, span, usual),
        Spacing::Given(preds) => push_preds(out, span, preds),
    }
}

// Appends the name of an item's view, and the rows of its size.
fn push_item<'a>(
    out: &mut Vec<Part<'a>>,
    course: Course,
    item: &Item<'a>,
) -> Result<(), OutOfMemory>
    ensures { OnOk result (parts_view out.new.items
        ≡ parts_view out.old.items ++ parts.item_parts course (item_meaning item.now)) }
{
    out.push(Part::View { name: item.name })?;
    push_preds(out, size(course, item.name), item.sizes())
}

// Appends the views after the one of this name. Answers the name of the last one.
fn push_chain<'a>(
    out: &mut Vec<Part<'a>>,
    course: Course,
    first: &'a str,
    spacings: &[Spacing<'a>],
    items: &[Item<'a>],
) -> Result<&'a str, OutOfMemory>
    requires { length spacings.now ≡ length items.now }
    ensures parts { OnOk result (parts_view out.new.items
        ≡ parts_view out.old.items ++ parts.chain_parts course first.now (spacing_meanings spacings.now)
        (item_meanings items.now)) }
    ensures last { IfOk result (λ name. name.now ≡ parts.last_name first.now (item_meanings items.now)) }
{
    let mut before = first;
    for (i, spacing) in spacings.iter().enumerate() {
        let item = &items[i];
        push_spacing(
            out,
            between(course, before, item.name),
            USUAL_BETWEEN,
            spacing,
        )?;
        push_item(out, course, item)?;
        before = item.name;
    }
    Ok(before)
}

// Appends the parent's bar in front of the view, and the connection to it, if there is one.
fn push_front<'a>(
    out: &mut Vec<Part<'a>>,
    course: Course,
    view: &'a str,
    spacing: &Option<Spacing<'a>>,
) -> Result<(), OutOfMemory>
    ensures { OnOk result (parts_view out.new.items
        ≡ parts_view out.old.items ++ parts.leading_parts course view.now (end_meaning spacing.now)) }
{
    if let Some(spacing) = spacing {
        out.push(Part::Bar { view })?;
        push_spacing(out, inside_near(course, view), USUAL_INSIDE, spacing)?;
    }
    Ok(())
}

// Appends the parent's bar after the view, and the connection to it, if there is one.
fn push_back<'a>(
    out: &mut Vec<Part<'a>>,
    course: Course,
    view: &'a str,
    spacing: &Option<Spacing<'a>>,
) -> Result<(), OutOfMemory>
    ensures { OnOk result (parts_view out.new.items
        ≡ parts_view out.old.items ++ parts.back_parts course view.now (end_meaning spacing.now)) }
{
    if let Some(spacing) = spacing {
        out.push(Part::Bar { view })?;
        push_spacing(out, inside_far(course, view), USUAL_INSIDE, spacing)?;
    }
    Ok(())
}

// Appends the rows by which each view is aligned with the one before it.
fn push_aligned<'a>(
    out: &mut Vec<Part<'a>>,
    word: AttrWord,
    first: &'a str,
    items: &[Item<'a>],
) -> Result<(), OutOfMemory>
    ensures { OnOk result (parts_view out.new.items
        ≡ parts_view out.old.items ++ parts.aligned_parts word first.now (item_meanings items.now)) }
{
    let mut before = first;
    for item in items {
        push_exactly(out, off(word, before, item.name), 0)?;
        before = item.name;
    }
    Ok(())
}

// Appends the rows of the alignment, if there is one.
fn push_align<'a>(
    out: &mut Vec<Part<'a>>,
    align: Option<Align>,
    first: &'a str,
    items: &[Item<'a>],
) -> Result<(), OutOfMemory>
    ensures { OnOk result (parts_view out.new.items
        ≡ parts_view out.old.items ++ parts.align_parts align first.now (item_meanings items.now)) }
{
    match align {
        Some(align) => push_aligned(out, aligned_word(align), first, items),
        None => Ok(()),
    }
}

/// The parts of the format in this direction, in the order of its text, and then the alignment.
#[tactic(auto, unfolding(crate::specs::FormatParts::parts))]
pub(crate) fn parts_of<'a>(
    alloc: Global,
    format: &Format<'a>,
    align: Option<Align>,
    direction: Direction,
) -> Result<Vec<Part<'a>>, OutOfMemory>
    ensures { IfOk result (λ out. parts_view out.items ≡ parts.parts (meaning format.now) align direction) }
{
    let course = course_of(direction, format.axis);
    let mut out = Vec::new(alloc);
    if let [first, others @ ..] = format.items() {
        push_front(&mut out, course, first.name, &format.from_parent)?;
        push_item(&mut out, course, first)?;
        let last = push_chain(&mut out, course, first.name, format.spacings(), others)?;
        push_back(&mut out, course, last, &format.to_parent)?;
        push_align(&mut out, align, first.name, others)?;
    }
    Ok(out)
}

/// The constants that definitions and clauses cite by name are these numbers.
pub fn constants_are_as_said()
    ensures { ConstantsAreAsSaid }
{}
