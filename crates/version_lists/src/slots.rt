//! The slots that numbers have, where few of the numbers that were ever given have one.
//!
//! [`NumberSlots::put`] gives a number a slot, [`NumberSlots::slot`] is the one that it has, and
//! [`NumberSlots::renumber`] gives each slot another place, or none. It takes the room of the numbers that
//! have a slot, however large they are, and has earlier versions, as a [`VersionList`] does.
//!
//! ```
//! let mut slots = NumberSlots::new(alloc)?;
//! slots.put(7, 1)?;
//! slots.put(1_000_000, 2)?;
//! slots.slot(7);              // 1
//! slots.slot(8);              // 0: it has none
//! slots.mark();
//! slots.renumber(&[0, 0, 1])?;
//! slots.slot(7);              // 0
//! slots.slot(1_000_000);      // 1
//! slots.was(7);               // 1
//! ```
//!
//! What the type keeps: the numbers that have a slot rise, now and in each earlier version.
//!
//! To read: `places` finds where a number stands, `changes` writes the numbers that are kept, and this file
//! has the type.

ghost use Rattle.std.specs.Prelude.{◌≡◌, ◌<◌, ◌-◌, [], ◌∷◌, length, take, IfOk, OnOk, slice_index_or};
ghost use Rattle.version_lists.specs.declared.versions.TheConstants.{VERSION_LIMIT};
ghost use Rattle.version_lists.specs.Numbers.{AreRenumbered, IsNumbered};

mod changes;
mod places;

use crate::versions::VersionList;
use changes::{give, renumbered};
use frac_core::OutOfMemory;
use places::{slot_of, slot_then};
use std::alloc::Global;
use std::marker::Model;

/// A number and its slot.
#[derive(Clone, Copy)]
pub struct Numbered {
    pub number: u32,
    pub slot: u32,
}

/// Slots by number, with earlier versions. A number that has none has the slot 0.
#[derive(Drop)]
pub struct NumberSlots {
    // By rising number.
    kept: VersionList<Numbered>,
}

impl Model for NumberSlots {
    ghost use Rattle.version_lists.specs.Numbers.{AreRising, Numbers, numbers_of};

    ghost Value = { Numbers };

    ghost view = { λ s. numbers_of s.kept };

    ghost invariant = { λ s. AreRising s.kept };
}

impl NumberSlots {
    /// No number has a slot, and there is no earlier version. It has all the memory that `mark` will want.
    pub fn new(alloc: Global) -> Result<NumberSlots, OutOfMemory>
        ensures { IfOk result (λ slots. slots ≡ record { items = []; before = [] }) }
    {
        Ok(NumberSlots {
            kept: VersionList::new(alloc)?,
        })
    }

    /// The slot of a number.
    pub fn slot(&self, number: u32) -> u32
        ensures { result ≡ slice_index_or self.now.items number 0 }
    {
        slot_of(self.kept.as_slice(), number)
    }

    /// The slot that a number had at the newest mark.
    pub fn was(&self, number: u32) -> u32
        requires { 0 < length self.now.before }
        ensures { result ≡ slice_index_or (slice_index_or self.now.before 0 []) number 0 }
    {
        slot_then(&self.kept, number)
    }

    /// Gives a number a slot. After want of memory the slots are as before, or as at the newest mark.
    pub fn put(&mut self, number: u32, slot: u32) -> Result<(), OutOfMemory>
        ensures numbered { OnOk result (IsNumbered number slot self.old.items self.new.items) }
        ensures before { self.new.before ≡ self.old.before }
    {
        give(&mut self.kept, Numbered { number, slot })
    }

    /// Gives each slot another place, which the numbers that have it have from then on; the place 0 is none.
    /// After want of memory the slots are as at the newest mark.
    pub fn renumber(&mut self, places: &[u32]) -> Result<(), OutOfMemory>
        requires { slice_index_or places.now 0 0 ≡ 0 }
        ensures renumbered { OnOk result (AreRenumbered places.now self.old.items self.new.items) }
        ensures before { self.new.before ≡ self.old.before }
    {
        renumbered(&mut self.kept, places)
    }

    /// Makes the slots of now the newest earlier version, and forgets the oldest where there are too many.
    pub fn mark(&mut self)
        ensures items { self.new.items ≡ self.old.items }
        ensures before { self.new.before ≡ take VERSION_LIMIT (self.old.items ∷ self.old.before) }
    {
        self.kept.mark();
    }

    /// Goes back to the newest earlier version.
    pub fn back(&mut self)
        requires { 0 < length self.old.before }
        ensures version { self.old.before ≡ self.new.items ∷ self.new.before }
    {
        self.kept.back();
    }

    /// Takes back what was done since the newest mark, which stays. Without a mark no number has a slot.
    pub fn rewind(&mut self)
        ensures items { self.new.items ≡ slice_index_or self.old.before 0 [] }
        ensures before { self.new.before ≡ self.old.before }
    {
        self.kept.rewind();
    }

    /// Forgets the oldest earlier version.
    pub fn forget(&mut self)
        requires { 0 < length self.old.before }
        ensures items { self.new.items ≡ self.old.items }
        ensures before { self.new.before ≡ take (length self.old.before - 1) self.old.before }
    {
        self.kept.forget();
    }
}
