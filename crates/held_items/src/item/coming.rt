// New views of a scene, one or many.
ghost use Rattle.std.specs.Prelude.{◌≡◌, ◌∷◌, ◌++◌, ◌+◌, ◌*◌, ◌<◌, ◌≤◌, length, IfOk, OnOk, OnErr};
ghost use Rattle.problem_core.specs.declared.limits.TheConstants.{NUMBER_LIMIT};
ghost use Rattle.view_tree.specs.declared.limits.TheConstants.{ID_LIMIT};
ghost use Rattle.held_items.specs.Attributes.{attributes_from, view_attributes};
ghost use Rattle.held_items.specs.Items.{view_items};
ghost use Rattle.held_items.specs.Kept.{items_of};
ghost use Rattle.held_items.specs.declared.limits.TheConstants.{EARLIER};
ghost use Rattle.held_items.specs.declared.row_numbers.TheConstants.{VIEW_ROWS};

use crate::item::Item;
use crate::own::Own;
use crate::row_numbers::VIEW_ROWS;
use frac_core::OutOfMemory;
use std::alloc::Global;
use version_lists::VersionList;
use view_tree::{Tree, ViewId};

/// The views with `count` more, whose numbers go up one by one from `first_view`.
#[derive(Drop)]
pub struct NewViews {
    pub tree: Own<Tree>,
    pub first_view: ViewId,
    pub count: u32,
}

/// The attributes of the view of this number: left, top, width and height.
pub fn view_attributes(id: u32) -> [u32; 4]
    requires { id < ID_LIMIT }
    ensures { result ≡ view_attributes id }
{
    let attrs = ViewId(id).attributes();
    [attrs.left, attrs.top, attrs.width, attrs.height]
}

/// The attributes of so many views. The first has this number.
pub fn attributes_from(alloc: Global, id: u32, count: u32) -> Result<Vec<u32>, OutOfMemory>
    requires { id + count ≤ ID_LIMIT }
    ensures { IfOk result (λ attrs. attrs.items ≡ attributes_from id count) }
{
    let mut attrs = Vec::new(alloc);
    let mut next = id;
    let mut left = count;
    while left > 0 {
        attrs.extend_from_slice(&view_attributes(next))?;
        next += 1;
        left -= 1;
    }
    Ok(attrs)
}

/// Appends so many views to the items. The first has this number, and its rows begin at this one. The items
/// before are the newest earlier version. If memory runs out, nothing changes.
pub fn push_views(
    items: &mut VersionList<Item>,
    first_row: u32,
    id: u32,
    count: u32,
) -> Result<(), OutOfMemory>
    requires few { length items.old.before ≤ EARLIER }
    requires rows { first_row + VIEW_ROWS * count ≤ NUMBER_LIMIT }
    requires ids { id + count ≤ ID_LIMIT }
    ensures items { OnOk result
        (items_of items.new.items ≡ items_of items.old.items ++ view_items first_row id count) }
    ensures before { OnOk result (items.new.before ≡ items.old.items ∷ items.old.before) }
    ensures same { OnErr result (items.new ≡ items.old) }
{
    items.mark();
    let mut row = first_row;
    let mut next = id;
    let mut left = count;
    while left > 0 {
        let view = Item::OfView {
            first_row: row,
            id: next,
        };
        match items.push(view) {
            Ok(()) => (),
            Err(OutOfMemory) => {
                items.back();
                return Err(OutOfMemory);
            }
        }
        row += VIEW_ROWS;
        next += 1;
        left -= 1;
    }
    Ok(())
}
