// Held items with other constants in their rows.
ghost use Rattle.std.specs.Prelude.{◌≡◌, ◌∷◌, ◌≤◌, true, false, length, IfSome, IfNone, OnSome, OnOk, OnErr};
ghost use Rattle.std.specs.Prelude.{◌<◌, IfOk};
ghost use Rattle.problem_core.specs.declared.limits.TheConstants.{NUMBER_LIMIT};
ghost use Rattle.layout_solver.specs.Shifts.{AreKept};
ghost use Rattle.held_items.specs.Kept.{HasRowNumbers, changes_of, is_renewed, item_of, items_of, renewed};
ghost use Rattle.held_items.specs.Kept.{IsIntrinsic, renewed_by};
ghost use Rattle.held_items.specs.Items.{intrinsic_changes};
ghost use Rattle.held_items.specs.Moving.{size_changes};
ghost use Rattle.held_items.specs.declared.item.renewing.Renewal.TheVariants as renewal;
ghost use Rattle.held_items.specs.declared.limits.TheConstants.{EARLIER};

use crate::changes::size_changes;
use crate::item::intrinsic::{IntrinsicSize, intrinsic_changes, preferred};
use crate::item::placing::put_item;
use crate::item::suggesting::suggested;
use crate::item::{HeldSize, Item, sized};
use constraint_compile::Suggestion;
use frac_core::OutOfMemory;
use layout_solver::Change;
use std::alloc::Global;
use version_lists::VersionList;

/// A held item with other constants. Its row numbers and all else stay.
#[derive(Clone, Copy)]
pub enum Renewal {
    /// The window's size.
    Size(HeldSize),
    /// A suggestion.
    Suggestion(Suggestion),
    /// The size that a view would like.
    Intrinsic(IntrinsicSize),
}

// The item with the other constants, if they are for it.
fn renewed(item: &Item, to: &Renewal) -> Option<Item>
    ensures some { IfSome result (λ new. item_of new ≡ renewed to.now (item_of item.now)) }
    ensures own { OnSome result (is_renewed to.now (item_of item.now) ≡ true) }
    ensures none { IfNone result (is_renewed to.now (item_of item.now) ≡ false) }
{
    match to {
        Renewal::Size(held) => sized(item, &held.size),
        Renewal::Suggestion(again) => suggested(item, again),
        Renewal::Intrinsic(again) => preferred(item, again),
    }
}

/// Gives a held item other constants. The items before are the newest earlier version. If memory runs out,
/// nothing changes.
pub fn renew(items: &mut VersionList<Item>, to: &Renewal) -> Result<(), OutOfMemory>
    requires { length items.old.before ≤ EARLIER }
    ensures items { OnOk result (items_of items.new.items ≡ renewed_by to.now (items_of items.old.items)) }
    ensures before { OnOk result (items.new.before ≡ items.old.items ∷ items.old.before) }
    ensures same { OnErr result (items.new ≡ items.old) }
{
    items.mark();
    for place in 0..items.len() {
        if let Some(new) = renewed(items.get(place), to) {
            return put_item(items, place, new);
        }
    }
    Ok(())
}

// The changes to the two rows of the window's size.
fn size_changed(alloc: Global, held: &HeldSize) -> Result<Vec<Change>, OutOfMemory>
    requires { held.now.first_row < NUMBER_LIMIT }
    ensures changes { IfOk result (λ to. to.items
        ≡ size_changes held.now.first_row held.now.size.width held.now.size.height) }
    ensures kept { IfOk result (λ to. AreKept to.items) }
{
    let _dens = (held.size.width.den(), held.size.height.den()); // for the proof: what fractions keep
    Ok(Vec::from_slice(alloc, &size_changes(held.first_row, &held.size))?)
}

// The change to the row of a suggestion.
fn suggestion_changed(alloc: Global, again: &Suggestion) -> Result<Vec<Change>, OutOfMemory>
    ensures changes { IfOk result (λ to. to.items ≡ changes_of (renewal.Suggestion again.now)) }
    ensures kept { IfOk result (λ to. AreKept to.items) }
{
    let _den = again.constant.den(); // for the proof: what a fraction keeps
    let to = [Change {
        row: again.row,
        constant: again.constant,
    }];
    Ok(Vec::from_slice(alloc, &to)?)
}

// The changes to the four rows of a view's size.
fn intrinsic_changed(alloc: Global, again: &IntrinsicSize) -> Result<Vec<Change>, OutOfMemory>
    requires { IsIntrinsic again.now }
    ensures changes { IfOk result (λ to. to.items ≡ intrinsic_changes again.now) }
    ensures kept { IfOk result (λ to. AreKept to.items) }
{
    let _dens = (again.width.den(), again.height.den()); // for the proof: what fractions keep
    Ok(Vec::from_slice(alloc, &intrinsic_changes(again))?)
}

/// The changes to the constants of the item's rows.
pub fn changes_of(alloc: Global, to: &Renewal) -> Result<Vec<Change>, OutOfMemory>
    requires { HasRowNumbers to.now }
    ensures changes { IfOk result (λ changes. changes.items ≡ changes_of to.now) }
    ensures kept { IfOk result (λ changes. AreKept changes.items) }
{
    match to {
        Renewal::Size(held) => size_changed(alloc, held),
        Renewal::Suggestion(again) => suggestion_changed(alloc, again),
        Renewal::Intrinsic(again) => intrinsic_changed(alloc, again),
    }
}
