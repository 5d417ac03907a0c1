// The held suggestions.
ghost use Rattle.std.specs.Prelude.{◌≡◌, true, false, IfOk, IfSome, IfNone, OnSome};
ghost use Rattle.held_items.specs.Items.{is_suggestion, own_suggestion, suggestion_name, with_constant};
ghost use Rattle.held_items.specs.Kept.{item_of};

use crate::item::Item;
use constraint_compile::Suggestion;
use frac_core::OutOfMemory;
use name_tables::OwnedName;
use script_text::AttrWord;
use std::alloc::Global;

/// Whether the item is the suggestion of this attribute of the view.
pub fn is_suggestion(item: &Item, view: u32, word: AttrWord) -> bool
    ensures { result ≡ is_suggestion view word (item_of item.now) }
{
    match item {
        Item::Suggested(held) => held.view == view && held.word == word,
        Item::OfWindow | Item::OfView { .. } | Item::Sized { .. } => false,
        Item::OfLine { .. } | Item::Intrinsic(_) => false,
    }
}

/// The suggestion that the item is, if it is one.
pub(crate) fn own_suggestion(item: &Item) -> Option<Suggestion>
    ensures { result ≡ own_suggestion (item_of item.now) }
{
    match item {
        Item::Suggested(held) => Some(*held),
        Item::OfWindow | Item::OfView { .. } | Item::Sized { .. } => None,
        Item::OfLine { .. } | Item::Intrinsic(_) => None,
    }
}

/// The item with this constant, if it is the suggestion of this attribute of the view.
pub(crate) fn suggested(item: &Item, again: &Suggestion) -> Option<Item>
    ensures some { IfSome result (λ new. item_of new ≡ with_constant again.now.constant (item_of item.now)) }
    ensures own { OnSome result (is_suggestion again.now.view again.now.word (item_of item.now) ≡ true) }
    ensures none { IfNone result (is_suggestion again.now.view again.now.word (item_of item.now) ≡ false) }
{
    match item {
        Item::Suggested(held) if held.view == again.view && held.word == again.word => {
            Some(Item::Suggested(Suggestion {
                constant: again.constant,
                ..*held
            }))
        }
        Item::OfWindow | Item::OfView { .. } | Item::Sized { .. } => None,
        Item::OfLine { .. } | Item::Suggested(_) | Item::Intrinsic(_) => None,
    }
}

/// The name of a suggestion: the view, a dot and the attribute.
pub fn suggestion_name(alloc: Global, view: &str, word: AttrWord) -> Result<OwnedName, OutOfMemory>
    ensures { IfOk result (λ name. name ≡ suggestion_name view.now word) }
{
    let mut text = Vec::from_slice(alloc, view.as_bytes())?;
    text.push(b'.')?;
    text.extend_from_slice(word.text().as_bytes())?;
    OwnedName::of(alloc, &text)
}
