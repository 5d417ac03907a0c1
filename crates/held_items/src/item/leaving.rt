// Removals: a group of lines, a suggestion, a view's size, or a view with all views below it.
ghost use Rattle.std.specs.Prelude.{◌≡◌, ◌∷◌, ◌++◌, ◌<◌, ◌≤◌, length, All, IfOk, OnOk, OnErr, nat_eq};
ghost use Rattle.std.specs.List.{list_any};
ghost use Rattle.view_tree.specs.declared.limits.TheConstants.{ID_LIMIT};
ghost use Rattle.held_items.specs.Kept.{HasSmallViews, IsItem, is_leaving, item_of, items_of};
ghost use Rattle.held_items.specs.Kept.{leaving_attributes};
ghost use Rattle.held_items.specs.Leaving.{attributes_in, goes_with, is_in_group, item_numbers, numbers_of};
ghost use Rattle.held_items.specs.Leaving.{staying};
ghost use Rattle.held_items.specs.declared.limits.TheConstants.{EARLIER};

use crate::item::Item;
use crate::item::coming::view_attributes;
use crate::item::intrinsic::is_intrinsic;
use crate::item::placing::remove_item;
use crate::item::suggesting::is_suggestion;
use crate::row_numbers::{HEIGHT_ROW, LEFT_ROW, TOP_ROW, WIDTH_ROW};
use constraint_compile::Compiled;
use frac_core::OutOfMemory;
use name_tables::OwnedName;
use script_text::AttrWord;
use std::alloc::Global;
use version_lists::VersionList;
use view_tree::ViewId;

// Whether the item is a line of this group.
fn is_in_group(item: &Item, name: &[u8]) -> bool
    ensures { result ≡ is_in_group name.now (item_of item.now) }
{
    match item {
        Item::OfLine { group, .. } => name == group.bytes(),
        Item::OfWindow | Item::OfView { .. } | Item::Sized { .. } => false,
        Item::Suggested(_) | Item::Intrinsic(_) => false,
    }
}

// Whether the line's text names one of these views.
fn names_one(line: &Compiled, gone: &[u32]) -> bool
    ensures { result ≡ list_any (λ id. list_any (λ v. nat_eq v id) line.now.views) gone.now }
{
    for id in gone {
        if line.names_view(ViewId(*id)) {
            return true;
        }
    }
    false
}

// Whether the item is one of these views, a line whose text names one of them, or a suggestion or a size of
// one.
fn goes_with(item: &Item, gone: &[u32]) -> bool
    ensures { result ≡ goes_with gone.now (item_of item.now) }
{
    match item {
        Item::OfView { id, .. } => gone.contains(id),
        Item::OfLine { line, .. } => names_one(line, gone),
        Item::Suggested(suggestion) => gone.contains(&suggestion.view),
        Item::Intrinsic(size) => gone.contains(&size.view),
        Item::OfWindow | Item::Sized { .. } => false,
    }
}

/// Whether a line of this group is held.
pub fn has_group(items: &[Item], name: &[u8]) -> bool
    ensures { result ≡ list_any (is_in_group name.now) (items_of items.now) }
{
    for item in items {
        if is_in_group(item, name) {
            return true;
        }
    }
    false
}

/// Appends the numbers of the item's rows.
pub fn push_numbers(numbers: &mut Vec<u32>, item: &Item) -> Result<(), OutOfMemory>
    requires { IsItem (item_of item.now) }
    ensures { IfOk result (λ _. numbers.new.items ≡ numbers.old.items ++ item_numbers (item_of item.now)) }
{
    match item {
        Item::OfWindow => numbers.extend_from_slice(&[LEFT_ROW, TOP_ROW, WIDTH_ROW, HEIGHT_ROW])?,
        Item::OfView { first_row, .. } | Item::Sized { first_row, .. } => {
            numbers.push(*first_row)?;
            numbers.push(*first_row + 1)?;
        }
        Item::OfLine { line, .. } => line.push_numbers(numbers)?,
        Item::Suggested(suggestion) => numbers.push(suggestion.row)?,
        Item::Intrinsic(size) => {
            let row = size.first_row;
            numbers.extend_from_slice(&[row, row + 1, row + 2, row + 3])?;
        }
    }
    Ok(())
}

/// What leaves.
#[derive(Drop)]
pub enum Leaver {
    /// The lines of a group.
    Group(OwnedName),
    /// Views, the lines that name one of them, and their suggestions and sizes.
    Views(Vec<u32>),
    /// The suggestion of an attribute of a view.
    Suggestion(u32, AttrWord),
    /// The size of a view.
    Intrinsic(u32),
}

// Whether the item is one of those that leave.
fn is_leaving(item: &Item, leaver: &Leaver) -> bool
    ensures { result ≡ is_leaving leaver.now (item_of item.now) }
{
    match leaver {
        Leaver::Group(name) => is_in_group(item, name.bytes()),
        Leaver::Views(gone) => goes_with(item, gone),
        Leaver::Suggestion(view, word) => is_suggestion(item, *view, *word),
        Leaver::Intrinsic(view) => is_intrinsic(item, *view),
    }
}

/// The numbers of the rows that leave.
pub fn leaving_numbers(
    alloc: Global,
    items: &[Item],
    leaver: &Leaver,
) -> Result<Vec<u32>, OutOfMemory>
    requires { All IsItem (items_of items.now) }
    ensures { IfOk result
        (λ numbers. numbers.items ≡ numbers_of (is_leaving leaver.now) (items_of items.now)) }
{
    let mut numbers = Vec::new(alloc);
    for item in items {
        if is_leaving(item, leaver) {
            push_numbers(&mut numbers, item)?;
        }
    }
    Ok(numbers)
}

// The attributes of these views.
fn attributes_in(alloc: Global, gone: &[u32]) -> Result<Vec<u32>, OutOfMemory>
    requires { All (λ id. id < ID_LIMIT) gone.now }
    ensures { IfOk result (λ attrs. attrs.items ≡ attributes_in gone.now) }
{
    let mut attrs = Vec::new(alloc);
    for id in gone {
        attrs.extend_from_slice(&view_attributes(*id))?;
    }
    Ok(attrs)
}

/// The attributes that leave: those of the views. Each view's number is below the limit.
pub fn leaving_attributes(alloc: Global, leaver: &Leaver) -> Result<Vec<u32>, OutOfMemory>
    requires { HasSmallViews leaver.now }
    ensures { IfOk result (λ attrs. attrs.items ≡ leaving_attributes leaver.now) }
{
    match leaver {
        Leaver::Views(gone) => attributes_in(alloc, gone),
        Leaver::Group(_) | Leaver::Suggestion(..) | Leaver::Intrinsic(_) => Ok(Vec::new(alloc)),
    }
}

/// Takes out what leaves. The items before are the newest earlier version. If memory runs out, nothing
/// changes.
pub fn take_leaving_out(items: &mut VersionList<Item>, leaver: &Leaver) -> Result<(), OutOfMemory>
    requires { length items.old.before ≤ EARLIER }
    ensures items { OnOk result
        (items_of items.new.items ≡ staying (is_leaving leaver.now) (items_of items.old.items)) }
    ensures before { OnOk result (items.new.before ≡ items.old.items ∷ items.old.before) }
    ensures same { OnErr result (items.new ≡ items.old) }
{
    items.mark();
    for place in (0..items.len()).rev() {
        if is_leaving(items.get(place), leaver) {
            remove_item(items, place)?;
        }
    }
    Ok(())
}
