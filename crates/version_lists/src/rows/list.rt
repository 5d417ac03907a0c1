// The list of a column: the slots of the rows in which it stands, rising.
ghost use Rattle.std.specs.Prelude.{◌≡◌, ◌<◌, ◌-◌, [], All, IsTrue, OnOk, Some, length, slice_get};
ghost use Rattle.version_lists.specs.Indexes.{IsRisingList};
ghost use Rattle.version_lists.specs.Lists.{IsWith, IsWithout};

use frac_core::OutOfMemory;
use std::alloc::{AllocError, Global};

/// The slots of the rows in which a column stands, rising. A clone has room for some more.
#[derive(Drop)]
pub(crate) struct Column {
    pub slots: Vec<u32>,
}

// For so many slots more a clone has room.
const ROOM: usize = 4;

impl Column {
    /// No slots.
    pub fn new(alloc: Global) -> Column
        ensures { result.slots.items ≡ [] }
    {
        Column {
            slots: Vec::new(alloc),
        }
    }
}

impl Clone for Column {
    ghost use Rattle.std.specs.Prelude.{◌≡◌};

    ghost is_clone = { λ old new. new.slots.items ≡ old.slots.items };

    fn clone(&self) -> Result<Column, AllocError> {
        let mut slots = Vec::with_capacity(*self.slots.allocator(), self.slots.len() + ROOM)?;
        slots.extend_from_slice(&self.slots)?;
        Ok(Column { slots })
    }
}

// Whether w is above all of them, as the slot of a new row is.
fn is_above(list: &[u32], w: u32) -> bool
    requires { IsRisingList list.now }
    ensures { IsTrue result → All (λ v. v < w) list.now }
{
    match list.last() {
        Some(last) => *last < w,
        None => true,
    }
}

// Whether w is the last of them.
fn is_last(list: &[u32], w: u32) -> bool
    ensures { IsTrue result → slice_get list.now (length list.now - 1) ≡ Some w }
{
    match list.last() {
        Some(last) => *last == w,
        None => false,
    }
}

/// Puts w where it belongs, if it isn't there.
pub(crate) fn put_in(list: &mut Vec<u32>, w: u32) -> Result<(), OutOfMemory>
    requires { IsRisingList list.old.items }
    ensures { OnOk result (IsWith w list.old.items list.new.items) }
{
    if is_above(list, w) {
        list.push(w)?;
        return Ok(());
    }
    if let Err(place) = list.binary_search(&w) {
        list.insert(place, w)?;
    }
    Ok(())
}

/// Takes w out, if it is there.
pub(crate) fn take_out(list: &mut Vec<u32>, w: u32)
    requires { IsRisingList list.old.items }
    ensures { IsWithout w list.old.items list.new.items }
{
    if is_last(list, w) {
        list.pop();
        return;
    }
    if let Ok(place) = list.binary_search(&w) {
        list.remove(place);
    }
}
