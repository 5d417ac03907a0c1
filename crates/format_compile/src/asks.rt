// The rows that a format's parts ask for. Each name is looked up in the order of the text.
ghost use Rattle.std.specs.Prelude.{◌≡◌, ◌++◌, ◌∷◌, [], ◌||◌, None, Some, All, map, is_some, true, false};
ghost use Rattle.std.specs.Prelude.{IfOk, IfErr, OnOk, IsTrue};
ghost use Rattle.std.specs.List.{list_any};
ghost use Rattle.std.specs.Option.{option_to_list};
ghost use Rattle.span_text.specs.Objects.{meant};
ghost use Rattle.vfl_text.specs.View.{pred_meaning};
ghost use Rattle.compile_parts.specs.Addends.{addend, addends, addend_view, addends_view, IsKept};
ghost use Rattle.format_compile.specs.Asks.{IsKeptAsk, AreAsks};
ghost use Rattle.format_compile.specs.FormatLines as lines;
ghost use Rattle.format_compile.specs.FormatLines.{line_of, lines_of};
ghost use Rattle.compile_parts.specs.Lookups.{numbers, option_numbers};
ghost use Rattle.format_compile.specs.FormatLines.{object_views, part_views, parts_views};
ghost use Rattle.format_compile.specs.FormatParts as parts;
ghost use Rattle.format_compile.specs.FormatRefusals as refusals;
ghost use Rattle.format_compile.specs.FormatStops.{MayBeUnknown};
ghost use Rattle.format_compile.specs.FormatViews.{span_view, part_view, parts_view};
ghost use Rattle.compile_parts.specs.Meaning as meaning;

use crate::checks::parent_of;
use crate::lines::{end_addend, minus_number, minus_one, one};
use crate::parts::{Part, Span};
use compile_parts::{Addend, CompileStop, id_named, resolve_rank, share_at};
use frac_core::OutOfMemory;
use name_tables::{Metrics, OwnedName};
use problem_core::Rel;
use script_text::AttrWord;
use span_text::Object;
use std::alloc::Global;
use std::slice;
use vfl_text::Pred;
use view_tree::{Tree, ViewId};

/// A row that a format asks for: its addends on the left side, its relation and its rank.
#[derive(Clone, Copy)]
pub(crate) struct Ask<'a> {
    pub plus: Addend<'a>,
    pub minus: Option<Addend<'a>>,
    pub object: Addend<'a>,
    pub rel: Rel,
    pub rank: u16,
}

// The meaning of an object, subtracted, and the view that it names.
#[derive(Clone, Copy)]
struct Subtracted<'a> {
    addend: Addend<'a>,
    view: Option<ViewId>,
}

// The object, subtracted: the same attribute of another view if it names one, otherwise a number or a metric.
fn object_of<'a>(
    tree: &Tree,
    metrics: &Metrics,
    word: AttrWord,
    object: Object<'a>,
) -> Result<Subtracted<'a>, &'a str>
    ensures known { OnOk result (meaning.unknown_object tree.now.views metrics.now (Some (meant object.entry))
        ≡ None) }
    ensures addend { IfOk result (λ s. addend_view s.addend ≡ addend tree.now.views
        (meaning.minus (lines.object_term tree.now.views word (meant object.entry)))) }
    ensures kept { IfOk result (λ s. IsKept s.addend) }
    ensures view { IfOk result (λ s. option_numbers s.view
        ≡ object_views tree.now.views (meant object.entry)) }
    ensures is_view { IfOk result (λ s. is_some s.view
        ≡ refusals.is_view_object tree.now.views (meant object.entry)) }
    ensures stop { IfErr result (λ name. meaning.unknown_object tree.now.views metrics.now
        (Some (meant object.entry)) ≡ Some name.now) }
{
    match object {
        Object::Number { thousandths } => Ok(Subtracted {
            addend: Addend::Number(minus_number(thousandths)),
            view: None,
        }),
        Object::Name { text } => {
            if let Some(id) = id_named(tree, text) {
                return Ok(Subtracted {
                    addend: Addend::Attr(share_at(minus_one(), id, word)),
                    view: Some(id),
                });
            }
            if metrics.get(text).is_none() {
                return Err(text);
            }
            let by = minus_one();
            Ok(Subtracted {
                addend: Addend::Multiple { by, name: text },
                view: None,
            })
        }
    }
}

// The second end, subtracted, if there is one.
fn minus_of<'a>(tree: &Tree, span: &Span<'_>) -> Option<Addend<'a>>
    ensures addend { addends_view (option_to_list result) ≡ addends tree.now.views
        (map meaning.minus (lines.minus_terms tree.now.views (span_view span.now).minus)) }
    ensures kept { All IsKept (option_to_list result) }
{
    let end = span.minus?;
    Some(end_addend(tree, minus_one(), end))
}

// The meaning of a part: the row that it asks for, the view in its text, and its wrong uses.
#[derive(Clone, Copy)]
struct Found<'a> {
    ask: Option<Ask<'a>>,
    view: Option<ViewId>,
    lacks_parent: bool,
    is_view_space: bool,
    lacks_rank: bool,
}

// No row, and perhaps a view.
fn only<'a>(view: Option<ViewId>, lacks_parent: bool) -> Found<'a>
    ensures { result ≡ record {
      ask = None;
      view = view;
      lacks_parent = lacks_parent;
      is_view_space = false;
      lacks_rank = false;
    } }
{
    Found {
        ask: None,
        view,
        lacks_parent,
        is_view_space: false,
        lacks_rank: false,
    }
}

// A row without a rank.
fn without_rank<'a>(view: Option<ViewId>, is_view_space: bool) -> Found<'a>
    ensures { result ≡ record {
      ask = None;
      view = view;
      lacks_parent = false;
      is_view_space = is_view_space;
      lacks_rank = true;
    } }
{
    Found {
        ask: None,
        view,
        lacks_parent: false,
        is_view_space,
        lacks_rank: true,
    }
}

// The row that is asked for.
fn ask_of<'a>(
    tree: &Tree,
    metrics: &Metrics,
    span: &Span<'_>,
    pred: &Pred<'a>,
) -> Result<Found<'a>, &'a str>
    ensures known { OnOk result (refusals.unknown_pred tree.now.views metrics.now (pred_meaning pred.now)
        ≡ None) }
    ensures ask { IfOk result (λ f. f.lacks_rank ≡ false → AreAsks tree.now.views metrics.now
        (line_of tree.now.views (span_view span.now) (pred_meaning pred.now) ∷ []) (option_to_list f.ask)) }
    ensures kept { IfOk result (λ f. All IsKeptAsk (option_to_list f.ask)) }
    ensures view { IfOk result (λ f. option_numbers f.view
        ≡ object_views tree.now.views (pred_meaning pred.now).object) }
    ensures parent { IfOk result (λ f. f.lacks_parent ≡ false) }
    ensures space { IfOk result (λ f. f.is_view_space ≡ refusals.has_view_space tree.now.views
        (parts.Asks (span_view span.now) (pred_meaning pred.now))) }
    ensures rank { IfOk result (λ f. IsTrue f.lacks_rank → refusals.HasPartRank tree.now.views metrics.now
        (parts.Asks (span_view span.now) (pred_meaning pred.now)) → ⊥) }
    ensures stop { IfErr result (λ name. refusals.unknown_pred tree.now.views metrics.now
        (pred_meaning pred.now) ≡ Some name.now) }
{
    // not by `?`, which the borrow checker does not cover for this function's result
    let object = match object_of(tree, metrics, span.plus.word, pred.object) {
        Ok(object) => object,
        Err(name) => return Err(name),
    };
    let is_view_space = span.minus.is_some() && object.view.is_some();
    let Some(rank) = resolve_rank(tree, metrics, &pred.priority)? else {
        return Ok(without_rank(object.view, is_view_space));
    };
    let ask = Ask {
        plus: end_addend(tree, one(), span.plus),
        minus: minus_of(tree, span),
        object: object.addend,
        rel: pred.rel,
        rank,
    };
    Ok(Found {
        ask: Some(ask),
        view: object.view,
        lacks_parent: false,
        is_view_space,
        lacks_rank: false,
    })
}

// The meaning of a part, or the first name in it that must be a view's or a metric's and isn't.
fn look_up<'a>(tree: &Tree, metrics: &Metrics, part: &Part<'a>) -> Result<Found<'a>, &'a str>
    ensures known { OnOk result (refusals.unknown_part tree.now.views metrics.now (part_view part.now)
        ≡ None) }
    ensures ask { IfOk result (λ f. f.lacks_rank ≡ false → AreAsks tree.now.views metrics.now
        (lines_of tree.now.views (part_view part.now ∷ [])) (option_to_list f.ask)) }
    ensures kept { IfOk result (λ f. All IsKeptAsk (option_to_list f.ask)) }
    ensures view { IfOk result (λ f. option_numbers f.view ≡ part_views tree.now.views (part_view part.now)) }
    ensures parent { IfOk result (λ f. f.lacks_parent
        ≡ refusals.lacks_parent tree.now.views (part_view part.now)) }
    ensures space { IfOk result (λ f. f.is_view_space
        ≡ refusals.has_view_space tree.now.views (part_view part.now)) }
    ensures rank { IfOk result (λ f. IsTrue f.lacks_rank
        → refusals.HasPartRank tree.now.views metrics.now (part_view part.now) → ⊥) }
    ensures stop { IfErr result (λ name. refusals.unknown_part tree.now.views metrics.now (part_view part.now)
        ≡ Some name.now) }
{
    match part {
        Part::View { name } => match tree.find(name) {
            Some(id) => Ok(only(Some(id), false)),
            None => Err(name),
        },
        Part::Bar { view } => Ok(only(None, parent_of(tree, view).is_none())),
        Part::Asks { span, pred } => ask_of(tree, metrics, span, pred),
    }
}

/// The meaning of the parts of a format: the rows that they ask for, the views in the text, and the wrong
/// uses. If a priority has no rank, its row isn't among the rows.
#[derive(Drop)]
pub(crate) struct Asked<'a> {
    pub rows: Vec<Ask<'a>>,
    pub views: Vec<ViewId>,
    pub lacks_parent: bool,
    pub has_view_space: bool,
    pub lacks_rank: bool,
}

// Nothing, with room for so many rows.
fn nothing<'a>(alloc: Global, room: usize) -> Result<Asked<'a>, OutOfMemory>
    ensures rows { IfOk result (λ a. a.rows.items ≡ []) }
    ensures views { IfOk result (λ a. a.views.items ≡ []) }
    ensures parent { IfOk result (λ a. a.lacks_parent ≡ false) }
    ensures space { IfOk result (λ a. a.has_view_space ≡ false) }
    ensures rank { IfOk result (λ a. a.lacks_rank ≡ false) }
{
    Ok(Asked {
        rows: Vec::with_capacity(alloc, room)?,
        views: Vec::with_capacity(alloc, room)?,
        lacks_parent: false,
        has_view_space: false,
        lacks_rank: false,
    })
}

// Adds the meaning of one more part.
fn push<'a>(out: &mut Asked<'a>, found: &Found<'a>) -> Result<(), OutOfMemory>
    ensures rows { OnOk result (out.new.rows.items ≡ out.old.rows.items ++ option_to_list found.now.ask) }
    ensures views { OnOk result (numbers out.new.views.items
        ≡ numbers out.old.views.items ++ option_numbers found.now.view) }
    ensures parent { OnOk result (out.new.lacks_parent ≡ (out.old.lacks_parent || found.now.lacks_parent)) }
    ensures space { OnOk result (out.new.has_view_space
        ≡ (out.old.has_view_space || found.now.is_view_space)) }
    ensures rank { OnOk result (out.new.lacks_rank ≡ (out.old.lacks_rank || found.now.lacks_rank)) }
{
    if let Some(ask) = &found.ask {
        out.rows.extend_from_slice(slice::from_ref(ask))?;
    }
    if let Some(view) = found.view {
        out.views.push(view)?;
    }
    out.lacks_parent = out.lacks_parent || found.lacks_parent;
    out.has_view_space = out.has_view_space || found.is_view_space;
    out.lacks_rank = out.lacks_rank || found.lacks_rank;
    Ok(())
}

/// The meaning of the parts, unless a name in them is unknown.
pub(crate) fn resolve_parts<'a>(
    alloc: Global,
    tree: &Tree,
    metrics: &Metrics,
    parts: &[Part<'a>],
) -> Result<Asked<'a>, CompileStop>
    ensures known { OnOk result (refusals.unknown_parts tree.now.views metrics.now (parts_view parts.now)
        ≡ None) }
    ensures asks { IfOk result (λ a. a.lacks_rank ≡ false → AreAsks tree.now.views metrics.now
        (lines_of tree.now.views (parts_view parts.now)) a.rows.items) }
    ensures kept { IfOk result (λ a. All IsKeptAsk a.rows.items) }
    ensures views { IfOk result (λ a. numbers a.views.items
        ≡ parts_views tree.now.views (parts_view parts.now)) }
    ensures parent { IfOk result (λ a. a.lacks_parent
        ≡ list_any (refusals.lacks_parent tree.now.views) (parts_view parts.now)) }
    ensures space { IfOk result (λ a. a.has_view_space
        ≡ list_any (refusals.has_view_space tree.now.views) (parts_view parts.now)) }
    ensures rank { IfOk result (λ a. IsTrue a.lacks_rank
        → refusals.HaveRanks tree.now.views metrics.now (parts_view parts.now) → ⊥) }
    ensures stop { IfErr result (MayBeUnknown tree.now.views metrics.now (parts_view parts.now)) }
{
    let mut out = nothing(alloc, parts.len())?;
    for part in parts {
        match look_up(tree, metrics, part) {
            Ok(found) => push(&mut out, &found)?,
            Err(name) => return Err(CompileStop::Unknown(OwnedName::of(alloc, name.as_bytes())?)),
        }
    }
    Ok(out)
}
