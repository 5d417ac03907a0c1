// The addends of the ends of a format's rows.
ghost use Rattle.std.specs.Prelude.{◌≡◌, ◌<◌, [], false, IfSome, IfNone, Some};
ghost use Rattle.std.specs.Option.{option_map};
ghost use Rattle.span_text.specs.declared.limits.TheConstants.{UNIT};
ghost use Rattle.script_text.specs.Grammar as grammar;
ghost use Rattle.script_text.specs.Meaning as mean;
ghost use Rattle.compile_parts.specs.Addends.{addend, addend_view, IsKept};
ghost use Rattle.compile_parts.specs.Fractions as fractions;
ghost use Rattle.format_compile.specs.FormatLines as lines;
ghost use Rattle.format_compile.specs.FormatRefusals as refusals;
ghost use Rattle.view_tree.specs.Views.{view_named};
ghost use Rattle.view_tree.specs.declared.limits.TheConstants.{ID_LIMIT};

use crate::checks::parent_of;
use crate::parts::{End, Owner};
use compile_parts::{Addend, id_named, share_at};
use constraint_compile::negated;
use frac_core::Frac;
use script_text::signed_number;
use span_text::UNIT;
use view_tree::{Tree, ViewId};

// So many thousandths.
fn number(thousandths: i32) -> Frac
    ensures { result ≡ lines.number thousandths }
{
    signed_number(thousandths < 0, thousandths.unsigned_abs())
}

/// A number of thousandths, subtracted.
pub(crate) fn minus_number(thousandths: i32) -> Frac
    ensures { result ≡ fractions.negated (lines.number thousandths) }
{
    negated(number(thousandths))
}

/// The factor of an attribute that is added once.
pub(crate) fn one() -> Frac
    ensures { result ≡ grammar.decimal false UNIT }
{
    signed_number(false, UNIT)
}

/// The factor of an attribute that is subtracted once.
pub(crate) fn minus_one() -> Frac
    ensures { result ≡ fractions.negated (grammar.decimal false UNIT) }
{
    negated(one())
}

// The parent of the view of this name. The parent is found by its own name too.
fn parent_at(tree: &Tree, name: &str) -> Option<ViewId>
    ensures some { IfSome result (λ id. option_map (λ v. v.id) (view_named tree.now.views
        (lines.name_of tree.now.views (refusals.parent_of tree.now.views name.now))) ≡ Some id.0) }
    ensures within { IfSome result (λ id. id.0 < ID_LIMIT) }
    ensures none { IfNone result (lines.name_of tree.now.views (refusals.parent_of tree.now.views name.now)
        ≡ []) }
{
    let _count = tree.len(); // for the proof: what a tree keeps
    parent_of(tree, name)
}

// The view whose attribute an end is.
fn view_of(tree: &Tree, end: End<'_>) -> Option<ViewId>
    ensures id { option_map (λ id. id.0) result ≡ option_map (λ v. v.id) (view_named tree.now.views
        (lines.owner_name tree.now.views end.entry.owner end.entry.view.now)) }
    ensures within { IfSome result (λ id. id.0 < ID_LIMIT) }
{
    match end.owner {
        Owner::Itself => id_named(tree, end.view),
        Owner::Parent => match parent_at(tree, end.view) {
            Some(id) => Some(id),
            None => id_named(tree, ""),
        },
    }
}

/// So many times an attribute of an end.
pub(crate) fn end_addend<'a>(tree: &Tree, by: Frac, end: End<'_>) -> Addend<'a>
    ensures is { addend_view result ≡ addend tree.now.views (record {
      by = by;
      of = mean.Attr (lines.owner_name tree.now.views end.entry.owner end.entry.view.now) end.entry.word;
    }) }
    ensures kept { IsKept result }
{
    match view_of(tree, end) {
        Some(view) => Addend::Attr(share_at(by, view, end.word)),
        None => Addend::Nothing,
    }
}
