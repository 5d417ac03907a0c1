// Finds items of which there is at most one.
ghost use Rattle.std.specs.Prelude.{◌≡◌, false, Some, None, IfSome, IfNone};
ghost use Rattle.held_items.specs.Items.{has_size, intrinsic_of, size_of, suggestion_of};
ghost use Rattle.std.specs.List.{list_any};
ghost use Rattle.held_items.specs.Items.{IsFirstPlace};
ghost use Rattle.held_items.specs.Kept.{is_lone, item_of, items_of, size_in};

use crate::item::intrinsic::{IntrinsicSize, is_intrinsic, own_intrinsic};
use crate::item::suggesting::{is_suggestion, own_suggestion};
use crate::item::{HeldSize, Item, is_size, own_size};
use constraint_compile::Suggestion;
use script_text::AttrWord;

/// An item of which there is at most one.
#[derive(Clone, Copy)]
pub(crate) enum Lone {
    /// The window's size.
    Size,
    /// The suggestion of this attribute, as written, of the view of this number.
    Suggestion(u32, AttrWord),
    /// The size that the view of this number would like.
    Intrinsic(u32),
}

// Whether the item is the wanted one.
fn is_lone(item: &Item, which: Lone) -> bool
    ensures { result ≡ is_lone which (item_of item.now) }
{
    match which {
        Lone::Size => is_size(item),
        Lone::Suggestion(view, word) => is_suggestion(item, view, word),
        Lone::Intrinsic(view) => is_intrinsic(item, view),
    }
}

/// The place of the wanted item, if it is held.
pub(crate) fn place_of(items: &[Item], which: Lone) -> Option<usize>
    ensures some { IfSome result (λ place. IsFirstPlace (is_lone which) (items_of items.now) place) }
    ensures none { IfNone result (list_any (is_lone which) (items_of items.now) ≡ false) }
{
    for (place, item) in items.iter().enumerate() {
        if is_lone(item, which) {
            return Some(place);
        }
    }
    None
}

/// Whether the window's size is held.
pub fn has_size(items: &[Item]) -> bool
    ensures { result ≡ has_size (items_of items.now) }
{
    place_of(items, Lone::Size).is_some()
}

/// The window's size, if one is held.
pub fn size_of(items: &[Item]) -> Option<HeldSize>
    ensures some { IfSome result (λ s. size_of (items_of items.now) ≡ Some (size_in s)) }
    ensures none { IfNone result (size_of (items_of items.now) ≡ None) }
{
    let place = place_of(items, Lone::Size)?;
    own_size(&items[place])
}

/// The suggestion of this attribute of the view, if one is held.
pub fn suggestion_of(items: &[Item], view: u32, word: AttrWord) -> Option<Suggestion>
    ensures { result ≡ suggestion_of view word (items_of items.now) }
{
    let place = place_of(items, Lone::Suggestion(view, word))?;
    own_suggestion(&items[place])
}

/// The size that the view would like, if one is held.
pub fn intrinsic_of(items: &[Item], view: u32) -> Option<IntrinsicSize>
    ensures { result ≡ intrinsic_of view (items_of items.now) }
{
    let place = place_of(items, Lone::Intrinsic(view))?;
    own_intrinsic(&items[place])
}
