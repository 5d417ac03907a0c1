// The held items, apart from their rows.
pub(crate) mod coming;
pub(crate) mod finding;
pub(crate) mod intrinsic;
pub(crate) mod leaving;
pub(crate) mod moving;
pub(crate) mod new_item;
pub(crate) mod placing;
pub(crate) mod renewing;
pub(crate) mod rows;
pub(crate) mod suggesting;

ghost use Rattle.std.specs.Prelude.{◌≡◌, true, false, Some, None, IfSome, IfNone, OnSome};
ghost use Rattle.held_items.specs.Items.{is_line, is_size, line_count, own_size, sized};
ghost use Rattle.held_items.specs.Kept.{item_of, items_of, size_in};

use crate::item::intrinsic::IntrinsicSize;
use constraint_compile::{Compiled, Suggestion};
use frac_core::Frac;
use name_tables::OwnedName;

/// What a session holds rows for. A view is named by its number; the window's is 0.
#[derive(Drop)]
pub enum Item {
    /// The window: its left and top are 0, its width and height at least 0.
    OfWindow,
    /// A view: its width and height are at least 0. Its two rows have the numbers from `first_row` on.
    OfView {
        first_row: u32,
        id: u32,
    },
    /// The window's size. Its two rows have the numbers from `first_row` on.
    Sized {
        first_row: u32,
        width: Frac,
        height: Frac,
    },
    /// A line of a group.
    OfLine {
        group: OwnedName,
        line: Compiled,
    },
    /// A suggestion: an attribute of a view has a value.
    Suggested(Suggestion),
    /// The size that a view would like to have.
    Intrinsic(IntrinsicSize),
}

/// The constants of the window's rows.
#[derive(Clone, Copy)]
pub struct WindowSize {
    pub width: Frac,
    pub height: Frac,
}

/// The held size of the window, with the number of the first of its two rows.
#[derive(Clone, Copy)]
pub struct HeldSize {
    pub first_row: u32,
    pub size: WindowSize,
}

fn is_line(item: &Item) -> bool
    ensures { result ≡ is_line (item_of item.now) }
{
    matches!(item, Item::OfLine { .. })
}

/// Whether the item is the window's size.
pub(crate) fn is_size(item: &Item) -> bool
    ensures { result ≡ is_size (item_of item.now) }
{
    matches!(item, Item::Sized { .. })
}

/// How many of the items are lines of groups.
pub fn line_count(items: &[Item]) -> usize
    ensures { result ≡ line_count (items_of items.now) }
{
    let mut count = 0;
    for item in items {
        if is_line(item) {
            count += 1;
        }
    }
    count
}

/// The window's size, if the item is it.
pub(crate) fn own_size(item: &Item) -> Option<HeldSize>
    ensures some { IfSome result (λ s. own_size (item_of item.now) ≡ Some (size_in s)) }
    ensures none { IfNone result (own_size (item_of item.now) ≡ None) }
{
    match item {
        Item::Sized {
            first_row,
            width,
            height,
        } => Some(HeldSize {
            first_row: *first_row,
            size: WindowSize {
                width: *width,
                height: *height,
            },
        }),
        Item::OfWindow | Item::OfView { .. } | Item::OfLine { .. } => None,
        Item::Suggested(_) | Item::Intrinsic(_) => None,
    }
}

/// The item with these constants, if it is the window's size.
pub(crate) fn sized(item: &Item, size: &WindowSize) -> Option<Item>
    ensures some { IfSome result
        (λ new. item_of new ≡ sized size.now.width size.now.height (item_of item.now)) }
    ensures own { OnSome result (is_size (item_of item.now) ≡ true) }
    ensures none { IfNone result (is_size (item_of item.now) ≡ false) }
{
    match item {
        Item::Sized { first_row, .. } => Some(Item::Sized {
            first_row: *first_row,
            width: size.width,
            height: size.height,
        }),
        Item::OfWindow | Item::OfView { .. } | Item::OfLine { .. } => None,
        Item::Suggested(_) | Item::Intrinsic(_) => None,
    }
}
