// Adds, replaces and removes an item.
ghost use Rattle.std.specs.Prelude.{◌≡◌, ◌∷◌, ◌++◌, ◌<◌, ◌≤◌, [], length, slice_set, OnOk, OnErr};
ghost use Rattle.std.specs.List.{remove};
ghost use Rattle.held_items.specs.declared.limits.TheConstants.{EARLIER};

use crate::item::Item;
use frac_core::OutOfMemory;
use version_lists::VersionList;

/// Appends an item. The items before are the newest earlier version. If memory runs out, nothing changes.
pub fn push_item(items: &mut VersionList<Item>, item: Item) -> Result<(), OutOfMemory>
    requires { length items.old.before ≤ EARLIER }
    ensures items { OnOk result (items.new.items ≡ items.old.items ++ item ∷ []) }
    ensures before { OnOk result (items.new.before ≡ items.old.items ∷ items.old.before) }
    ensures same { OnErr result (items.new ≡ items.old) }
{
    items.mark();
    match items.push(item) {
        Ok(()) => Ok(()),
        Err(OutOfMemory) => {
            items.back();
            Err(OutOfMemory)
        }
    }
}

/// Replaces an item, after a mark. If memory runs out, the mark is taken back.
pub fn put_item(items: &mut VersionList<Item>, place: usize, item: Item) -> Result<(), OutOfMemory>
    requires place { place < length items.old.items }
    requires marked { 0 < length items.old.before }
    ensures items { OnOk result (items.new.items ≡ slice_set items.old.items place item) }
    ensures before { OnOk result (items.new.before ≡ items.old.before) }
    ensures back { OnErr result (items.old.before ≡ items.new.items ∷ items.new.before) }
{
    match items.put(place, item) {
        Ok(()) => Ok(()),
        Err(OutOfMemory) => {
            items.back();
            Err(OutOfMemory)
        }
    }
}

/// Takes an item out, after a mark. If memory runs out, the mark is taken back.
pub fn remove_item(items: &mut VersionList<Item>, place: usize) -> Result<(), OutOfMemory>
    requires place { place < length items.old.items }
    requires marked { 0 < length items.old.before }
    ensures items { OnOk result (items.new.items ≡ remove items.old.items place) }
    ensures before { OnOk result (items.new.before ≡ items.old.before) }
    ensures back { OnErr result (items.old.before ≡ items.new.items ∷ items.new.before) }
{
    match items.remove(place) {
        Ok(()) => Ok(()),
        Err(OutOfMemory) => {
            items.back();
            Err(OutOfMemory)
        }
    }
}
