// A new item with its rows.
ghost use Rattle.std.specs.Prelude.{◌≡◌, ◌∷◌, ◌<◌, [], All, IfOk};
ghost use Rattle.problem_core.specs.Kept.{IsRow};
ghost use Rattle.problem_core.specs.declared.limits.TheConstants.{NUMBER_LIMIT};
ghost use Rattle.constraint_compile.specs.Suggestions.{IsSuggestion, suggested_row};

use crate::item::intrinsic::{IntrinsicSize, intrinsic_rows};
use crate::item::rows::{size_rows, suggestion_rows};
use crate::item::{Item, WindowSize};
use crate::own::Own;
use constraint_compile::Suggestion;
use frac_core::OutOfMemory;
use problem_core::Row;
use std::alloc::Global;

/// A new item with its rows.
#[derive(Drop)]
pub struct NewItem {
    pub item: Own<Item>,
    pub rows: Vec<Row>,
}

impl NewItem {
    ghost use Rattle.held_items.specs.Items.{Intrinsic, Sized, Suggested, intrinsic_rows, size_rows};
    ghost use Rattle.held_items.specs.Kept.{IsIntrinsic, item_of};

    /// The window's first size. Its two rows have the numbers from `first_row` on.
    pub fn size(alloc: Global, first_row: u32, size: &WindowSize) -> Result<NewItem, OutOfMemory>
        requires { (0 < first_row) × (first_row < NUMBER_LIMIT) }
        ensures item { IfOk result
            (λ new. item_of new.item ≡ Sized first_row size.now.width size.now.height) }
        ensures rows { IfOk result
            (λ new. new.rows.items ≡ size_rows first_row size.now.width size.now.height) }
        ensures each { IfOk result (λ new. All IsRow new.rows.items) }
    {
        let rows = size_rows(alloc, first_row, size)?;
        let item = Item::Sized {
            first_row,
            width: size.width,
            height: size.height,
        };
        let item = Own::of(alloc, item)?;
        Ok(NewItem { item, rows })
    }

    /// A suggestion.
    pub fn suggestion(alloc: Global, new: Suggestion) -> Result<NewItem, OutOfMemory>
        requires { IsSuggestion new }
        ensures item { IfOk result (λ it. item_of it.item ≡ Suggested new) }
        ensures rows { IfOk result (λ it. it.rows.items ≡ suggested_row new ∷ []) }
        ensures each { IfOk result (λ it. All IsRow it.rows.items) }
    {
        let rows = suggestion_rows(alloc, &new)?;
        let item = Own::of(alloc, Item::Suggested(new))?;
        Ok(NewItem { item, rows })
    }

    /// The size that a view would like.
    pub fn intrinsic(alloc: Global, new: IntrinsicSize) -> Result<NewItem, OutOfMemory>
        requires { IsIntrinsic new }
        ensures item { IfOk result (λ it. item_of it.item ≡ Intrinsic new) }
        ensures rows { IfOk result (λ it. it.rows.items ≡ intrinsic_rows new) }
        ensures each { IfOk result (λ it. All IsRow it.rows.items) }
    {
        let rows = intrinsic_rows(alloc, &new)?;
        let item = Own::of(alloc, Item::Intrinsic(new))?;
        Ok(NewItem { item, rows })
    }
}
