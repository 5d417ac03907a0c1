// The place of each slot.
ghost use Rattle.std.specs.Prelude.{◌≡◌, ◌+◌, ◌<◌, ◌≤◌, true, false, length, IfOk, OnOk};
ghost use Rattle.corner_table.specs.declared.table.TheConstants.{LEVELS, MOST_SLOTS};
ghost use Rattle.corner_table.specs.Kept.{IsKept};
ghost use Rattle.corner_table.specs.Tables.{lists_of};
ghost use Rattle.corner_packing.specs.Packing.{ArePlaces, IsTaken};
ghost use Rattle.corner_packing.specs.Places.{AreDense};

use corner_table::{LEVELS, Table, slot_at};
use corner_view::Owner;
use frac_core::OutOfMemory;

/// By slot the place that it gets, 0 of a slot of nothing, and how many places there are.
#[derive(Drop)]
pub struct Places {
    pub of: Vec<u32>,
    pub count: u32,
}

// Whether the slot is a level's, or of something.
fn is_taken(table: &Table, w: u32) -> bool
    requires { w < length table.now.slots.items }
    ensures yes { result ≡ true → IsTaken (lists_of table.now) w }
    ensures no { result ≡ false → IsTaken (lists_of table.now) w → ⊥ }
{
    if w < LEVELS {
        return true;
    }
    !matches!(slot_at(table, w).owner, Owner::Level)
}

// Puts the place of a slot behind those of the slots before.
fn push_place(table: &Table, w: u32, places: &mut Places) -> Result<(), OutOfMemory>
    requires within { w < length table.now.slots.items }
    requires few { length table.now.slots.items ≤ MOST_SLOTS }
    requires dense { AreDense (IsTaken (lists_of table.now)) LEVELS w places.old.of.items places.old.count }
    ensures { OnOk result (AreDense (IsTaken (lists_of table.now)) LEVELS (w + 1)
        places.new.of.items places.new.count) }
{
    if !is_taken(table, w) {
        places.of.push(0)?;
        return Ok(());
    }
    places.of.push(places.count)?;
    places.count += 1;
    Ok(())
}

/// The places of the slots: those that are of something move behind each other.
pub fn places_of(table: &Table) -> Result<Places, OutOfMemory>
    requires { IsKept (lists_of table.now) }
    ensures { IfOk result (λ p. ArePlaces (lists_of table.now) p.of.items p.count) }
{
    let of = Vec::with_capacity(table.alloc, table.slots.len())?;
    let mut places = Places { of, count: 0 };
    for w in 0..table.slots.len() as u32 {
        push_place(table, w, &mut places)?;
    }
    Ok(places)
}
