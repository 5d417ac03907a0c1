// The sizes that views would like (intrinsic sizes).
ghost use Rattle.std.specs.Prelude.{◌≡◌, ◌∷◌, ◌++◌, ◌+◌, ◌<◌, ◌≤◌, [], true, false, All};
ghost use Rattle.std.specs.Prelude.{IfOk, IfSome, IfNone, OnSome, OnOk};
ghost use Rattle.problem_core.specs.Kept.{IsNumber, IsRow};
ghost use Rattle.held_items.specs.Items.{bound, bounds, intrinsic_changes, intrinsic_name, intrinsic_rows};
ghost use Rattle.held_items.specs.Items.{is_intrinsic, own_intrinsic, with_size};
ghost use Rattle.held_items.specs.Kept.{IsIntrinsic, item_of};
ghost use Rattle.problem_core.specs.declared.limits.TheConstants.{REQUIRED};

use crate::item::Item;
use frac_core::{Frac, OutOfMemory};
use layout_solver::Change;
use name_tables::OwnedName;
use problem_core::{Rel, Row, Term};
use std::alloc::Global;
use view_tree::ViewId;

/// The rank at which a view hugs, if none is written.
pub const USUAL_HUG: u16 = 250;

/// The rank at which a view resists, if none is written.
pub const USUAL_RESIST: u16 = 750;

/// The size that a view would like to have: the number of the first of its four rows, the view's number,
/// width and height, and the ranks at which it resists (is no smaller) and hugs (is no larger).
#[derive(Clone, Copy)]
pub struct IntrinsicSize {
    pub first_row: u32,
    pub view: u32,
    pub width: Frac,
    pub height: Frac,
    pub resist: u16,
    pub hug: u16,
}

/// Whether the item is the size of this view.
pub fn is_intrinsic(item: &Item, view: u32) -> bool
    ensures { result ≡ is_intrinsic view (item_of item.now) }
{
    match item {
        Item::Intrinsic(held) => held.view == view,
        Item::OfWindow | Item::OfView { .. } | Item::Sized { .. } => false,
        Item::OfLine { .. } | Item::Suggested(_) => false,
    }
}

/// The size that the item is, if it is one of a view.
pub(crate) fn own_intrinsic(item: &Item) -> Option<IntrinsicSize>
    ensures { result ≡ own_intrinsic (item_of item.now) }
{
    match item {
        Item::Intrinsic(held) => Some(*held),
        Item::OfWindow | Item::OfView { .. } | Item::Sized { .. } => None,
        Item::OfLine { .. } | Item::Suggested(_) => None,
    }
}

/// The item with these numbers, if it is the size of this view.
pub(crate) fn preferred(item: &Item, again: &IntrinsicSize) -> Option<Item>
    ensures some { IfSome result
        (λ new. item_of new ≡ with_size again.now.width again.now.height (item_of item.now)) }
    ensures own { OnSome result (is_intrinsic again.now.view (item_of item.now) ≡ true) }
    ensures none { IfNone result (is_intrinsic again.now.view (item_of item.now) ≡ false) }
{
    match item {
        Item::Intrinsic(held) if held.view == again.view => Some(Item::Intrinsic(IntrinsicSize {
            width: again.width,
            height: again.height,
            ..*held
        })),
        Item::OfWindow | Item::OfView { .. } | Item::Sized { .. } => None,
        Item::OfLine { .. } | Item::Suggested(_) | Item::Intrinsic(_) => None,
    }
}

// The row by which an attribute is at least this, or at most. It has six parameters: in these alone the four
// rows differ.
fn bound(
    alloc: Global,
    id: u32,
    rank: u16,
    attr: u32,
    rel: Rel,
    constant: Frac,
) -> Result<Row, OutOfMemory>
    requires id { IsNumber id }
    requires rank { rank ≤ REQUIRED }
    requires attr { IsNumber attr }
    ensures row { IfOk result (λ row. row ≡ bound id rank attr rel constant) }
    ensures kept { IfOk result IsRow }
{
    let _den = constant.den(); // for the proof: what a fraction keeps
    let terms = [Term { attr, by: 1 }];
    let row = Row::of(alloc, id, rank, 1, rel, 1, constant, &terms)?;
    row.show_row(); // for the proof: what a row keeps
    Ok(row)
}

// Appends the two rows of an attribute: it isn't smaller, and it isn't larger.
fn push_bounds(
    rows: &mut Vec<Row>,
    id: u32,
    size: &IntrinsicSize,
    attr: u32,
    constant: Frac,
) -> Result<(), OutOfMemory>
    requires sized { IsIntrinsic size.now }
    requires id { IsNumber id × IsNumber (id + 1) }
    requires attr { IsNumber attr }
    ensures rows { OnOk result
        (rows.new.items ≡ rows.old.items ++ bounds id size.now.resist size.now.hug attr constant) }
    ensures each { OnOk result (All IsRow rows.old.items → All IsRow rows.new.items) }
{
    let alloc = *rows.allocator();
    let least = bound(alloc, id, size.resist, attr, Rel::Ge, constant)?;
    rows.push(least)?;
    let most = bound(alloc, id + 1, size.hug, attr, Rel::Le, constant)?;
    rows.push(most)?;
    Ok(())
}

/// The four rows: of the width, then of the height.
pub fn intrinsic_rows(alloc: Global, size: &IntrinsicSize) -> Result<Vec<Row>, OutOfMemory>
    requires { IsIntrinsic size.now }
    ensures rows { IfOk result (λ rows. rows.items ≡ intrinsic_rows size.now) }
    ensures each { IfOk result (λ rows. All IsRow rows.items) }
{
    let attrs = ViewId(size.view).attributes();
    let mut rows = Vec::new(alloc);
    push_bounds(&mut rows, size.first_row, size, attrs.width, size.width)?;
    push_bounds(
        &mut rows,
        size.first_row + 2,
        size,
        attrs.height,
        size.height,
    )?;
    Ok(rows)
}

/// The constants of the four rows.
pub fn intrinsic_changes(size: &IntrinsicSize) -> [Change; 4]
    requires { IsIntrinsic size.now }
    ensures { result ≡ intrinsic_changes size.now }
{
    let row = size.first_row;
    let (width, height) = (size.width, size.height);
    [
        Change {
            row,
            constant: width,
        },
        Change {
            row: row + 1,
            constant: width,
        },
        Change {
            row: row + 2,
            constant: height,
        },
        Change {
            row: row + 3,
            constant: height,
        },
    ]
}

/// The name of a view's size: the view, a dot and `size`.
pub fn intrinsic_name(alloc: Global, view: &str) -> Result<OwnedName, OutOfMemory>
    ensures { IfOk result (λ name. name ≡ intrinsic_name view.now) }
{
    let mut text = Vec::from_slice(alloc, view.as_bytes())?;
    text.extend_from_slice(b".size")?;
    OwnedName::of(alloc, &text)
}
