// The meaning of the names of a line. They are looked up in the order of the text, each as often as it
// occurs: a view's name in the tree, and a metric's name in the tree and then among the metrics.
mod lookups;

ghost use Rattle.std.specs.Prelude.{◌≡◌, ◌++◌, ◌∷◌, [], ◌||◌, ℕ, None, Some, All, IfOk, IfErr, OnOk};
ghost use Rattle.std.specs.Prelude.{IfSome, IfNone, false};
ghost use Rattle.span_text.specs.Objects.{object_view};
ghost use Rattle.script_text.specs.View.{term_view, terms_view};
ghost use Rattle.compile_parts.specs.Addends as addends;
ghost use Rattle.compile_parts.specs.Addends.{addend_view, addends_view, IsKept};
ghost use Rattle.compile_parts.specs.Lookups.{numbers, option_numbers};
ghost use Rattle.compile_parts.specs.Meaning as meaning;
ghost use Rattle.compile_parts.specs.Meaning.{HasDenominator, IsRank, unknown_in, unknown_among};
ghost use Rattle.compile_parts.specs.Meaning.{unknown_object};
ghost use Rattle.compile_parts.specs.Lookups.{IsUnknownTerm};

use crate::addends::Addend;
use crate::resolved::lookups::{is_view, rank_of_metric, rank_of_thousandths};
use crate::shares::{id_named, share_at};
use crate::stops::CompileStop;
use frac_core::OutOfMemory;
use name_tables::{Metrics, OwnedName};
use problem_core::REQUIRED;
use script_text::{ExprTerm, Operand};
use span_text::Object;
use std::alloc::Global;
use std::slice;
use view_tree::{Tree, ViewId};

// The meaning of a term: its addend, the view whose attribute it is, and whether it names a view in place of
// a number.
#[derive(Clone, Copy)]
struct Found<'a> {
    addend: Addend<'a>,
    view: Option<ViewId>,
    is_view_number: bool,
}

// The meaning of a term, or the name in it that must be a view's or a metric's and isn't.
fn look_up<'a>(tree: &Tree, metrics: &Metrics, term: &ExprTerm<'a>) -> Result<Found<'a>, &'a str>
    ensures known { OnOk result (unknown_in tree.now.views metrics.now (term_view term.now).of ≡ None) }
    ensures addend { IfOk result (λ f. addend_view f.addend
        ≡ addends.addend tree.now.views (term_view term.now)) }
    ensures kept { IfOk result (λ f. IsKept f.addend) }
    ensures view { IfOk result (λ f. option_numbers f.view
        ≡ meaning.view_in tree.now.views (term_view term.now).of) }
    ensures number { IfOk result (λ f. f.is_view_number
        ≡ meaning.is_view_number tree.now.views (term_view term.now).of) }
    ensures above { HasDenominator (term_view term.now) }
    ensures stop { IfErr result (λ name. unknown_in tree.now.views metrics.now (term_view term.now).of
        ≡ Some name.now) }
{
    let _den = term.by.den(); // for the proof: what a fraction keeps
    match term.of {
        Operand::Attr { view, word } => match id_named(tree, view) {
            Some(id) => Ok(Found {
                addend: Addend::Attr(share_at(term.by, id, word)),
                view: Some(id),
                is_view_number: false,
            }),
            None => Err(view),
        },
        Operand::Metric { name } => {
            let is_view_number = is_view(tree, name);
            if !is_view_number && metrics.get(name).is_none() {
                return Err(name);
            }
            Ok(Found {
                addend: Addend::Multiple { by: term.by, name },
                view: None,
                is_view_number,
            })
        }
        Operand::One => Ok(Found {
            addend: Addend::Number(term.by),
            view: None,
            is_view_number: false,
        }),
    }
}

/// The meaning of the terms of a line: the addend of each, the views whose attributes they are, and whether
/// one names a view in place of a number.
#[derive(Drop)]
pub struct Resolved<'a> {
    pub added: Vec<Addend<'a>>,
    pub views: Vec<ViewId>,
    pub has_view_number: bool,
}

// Nothing, with room for so many terms.
fn nothing<'a>(alloc: Global, room: usize) -> Result<Resolved<'a>, OutOfMemory>
    ensures added { IfOk result (λ r. r.added.items ≡ []) }
    ensures views { IfOk result (λ r. r.views.items ≡ []) }
    ensures number { IfOk result (λ r. r.has_view_number ≡ false) }
{
    Ok(Resolved {
        added: Vec::with_capacity(alloc, room)?,
        views: Vec::with_capacity(alloc, room)?,
        has_view_number: false,
    })
}

// Adds the meaning of one more term.
fn push<'a>(out: &mut Resolved<'a>, found: &Found<'a>) -> Result<(), OutOfMemory>
    ensures added { OnOk result (addends_view out.new.added.items
        ≡ addends_view out.old.added.items ++ addend_view found.now.addend ∷ []) }
    ensures kept { OnOk result (All IsKept out.old.added.items → IsKept found.now.addend
        → All IsKept out.new.added.items) }
    ensures views { OnOk result (numbers out.new.views.items
        ≡ numbers out.old.views.items ++ option_numbers found.now.view) }
    ensures number { OnOk result (out.new.has_view_number
        ≡ (out.old.has_view_number || found.now.is_view_number)) }
{
    out.added.extend_from_slice(slice::from_ref(&found.addend))?;
    if let Some(view) = found.view {
        out.views.push(view)?;
    }
    out.has_view_number = out.has_view_number || found.is_view_number;
    Ok(())
}

/// The meaning of the terms, unless a name in them is unknown.
pub fn resolve<'a>(
    alloc: Global,
    tree: &Tree,
    metrics: &Metrics,
    terms: &[ExprTerm<'a>],
) -> Result<Resolved<'a>, CompileStop>
    ensures known { OnOk result (unknown_among tree.now.views metrics.now (terms_view terms.now) ≡ None) }
    ensures added { IfOk result (λ r. addends_view r.added.items
        ≡ addends.addends tree.now.views (terms_view terms.now)) }
    ensures kept { IfOk result (λ r. All IsKept r.added.items) }
    ensures views { IfOk result (λ r. numbers r.views.items
        ≡ meaning.views_in tree.now.views (terms_view terms.now)) }
    ensures number { IfOk result (λ r. r.has_view_number
        ≡ meaning.has_view_number tree.now.views (terms_view terms.now)) }
    ensures above { OnOk result (All HasDenominator (terms_view terms.now)) }
    ensures stop { IfErr result (IsUnknownTerm tree.now.views metrics.now (terms_view terms.now)) }
{
    let mut out = nothing(alloc, terms.len())?;
    for term in terms {
        match look_up(tree, metrics, term) {
            Ok(found) => push(&mut out, &found)?,
            Err(name) => return Err(CompileStop::Unknown(OwnedName::of(alloc, name.as_bytes())?)),
        }
    }
    Ok(out)
}

/// The rank of a priority, if it has one. The error is its name, if that is neither a view's nor a metric's.
pub fn resolve_rank<'a>(
    tree: &Tree,
    metrics: &Metrics,
    priority: &Option<Object<'a>>,
) -> Result<Option<u16>, &'a str>
    ensures known { OnOk result (unknown_object tree.now.views metrics.now (object_view priority.now)
        ≡ None) }
    ensures some { IfOk result (λ o. IfSome o (IsRank tree.now.views metrics.now
        (object_view priority.now))) }
    ensures none { IfOk result (λ o. IfNone o ((r : ℕ)
        → IsRank tree.now.views metrics.now (object_view priority.now) r → ⊥)) }
    ensures stop { IfErr result (λ name. unknown_object tree.now.views metrics.now (object_view priority.now)
        ≡ Some name.now) }
{
    match *priority {
        None => Ok(Some(REQUIRED)),
        Some(Object::Number { thousandths }) => Ok(rank_of_thousandths(thousandths)),
        Some(Object::Name { text }) => {
            if is_view(tree, text) {
                return Ok(None);
            }
            let value = metrics.get(text);
            if value.is_none() {
                return Err(text);
            }
            Ok(rank_of_metric(value))
        }
    }
}
