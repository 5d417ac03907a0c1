// Stays that are put before all others.
ghost use Rattle.std.specs.Prelude.{◌≡◌, ◌≢◌, ◌<◌, ◌≤◌, ◌+◌, length, map, All, AllPairs, IfOk, OnOk};
ghost use Rattle.problem_core.specs.Corners.{SameMarks};
ghost use Rattle.problem_core.specs.Layout.{HasStay};
ghost use Rattle.problem_core.specs.declared.parts.RowName.TheVariants.{Stay as StayOf};
ghost use Rattle.corner_table.specs.Histories.{AreAlike, HasSameHistory, lists_before};
ghost use Rattle.corner_table.specs.Invariants.{IsConsistent};
ghost use Rattle.corner_table.specs.Kept.{AreSlots, AreStored, IsKept};
ghost use Rattle.corner_table.specs.Tables as tables;
ghost use Rattle.corner_table.specs.Tables.{lists_of, marks_at, problem_of};
ghost use Rattle.corner_table.specs.declared.table.TheConstants.{LEVELS, OWN_RANK};
ghost use Rattle.corner_orders.specs.Fronted.{AreFronted, AreListedOf, with_order, with_rank, with_ranks};
ghost use Rattle.stay_orders.specs.Orders.{fronted, with_front};

use corner_table::{LEVELS, Listed, Slot, Table, line_slot, list_row, slot_at};
use frac_core::OutOfMemory;
use problem_core::{RowName, Stay};
use stay_orders::in_front;

// The slots of these stays, in their order.
fn slots_of(table: &Table, order: &[Stay]) -> Result<Vec<u32>, OutOfMemory>
    requires slots { AreSlots (lists_of table.now) }
    requires held { All (λ s. HasStay table.now.stays.items s.attr) order.now }
    ensures { IfOk result (λ slots. slots.items
        ≡ map (λ s. tables.line_slot (lists_of table.now) (StayOf s.attr)) order.now) }
{
    let mut slots = Vec::with_capacity(table.alloc, order.len())?;
    for stay in order {
        slots.push(line_slot(table, RowName::Stay(stay.attr)))?;
    }
    Ok(slots)
}

// Lists the outside lines that stand in the rows of the stays of these attributes.
fn list_stays(table: &Table, attrs: &[u32], listed: &mut Listed) -> Result<(), OutOfMemory>
    requires slots { AreSlots (lists_of table.now) }
    requires stored { AreStored (lists_of table.now) }
    requires held { All (HasStay table.now.stays.items) attrs.now }
    ensures { OnOk result (AreListedOf (lists_of table.now) attrs.now listed.old listed.new) }
{
    for attr in attrs {
        list_row(table, line_slot(table, RowName::Stay(*attr)), listed)?;
    }
    Ok(())
}

// Gives a slot this rank.
fn put_rank(table: &mut Table, w: u32, rank: u64) -> Result<(), OutOfMemory>
    requires within { w < length table.old.slots.items }
    ensures past { HasSameHistory table.old table.new }
    ensures lists { OnOk result (lists_of table.new ≡ with_rank w rank (lists_of table.old)) }
{
    let slot = slot_at(table, w);
    table.slots.put(w as usize, Slot { rank, ..slot })
}

// Gives the slots ranks one by one, from that behind the priority levels on.
fn put_ranks(table: &mut Table, slots: &[u32]) -> Result<(), OutOfMemory>
    requires within { All (λ w. w < length table.old.slots.items) slots.now }
    requires room { LEVELS + length slots.now ≤ OWN_RANK }
    ensures past { HasSameHistory table.old table.new }
    ensures lists { OnOk result (lists_of table.new ≡ with_ranks LEVELS slots.now (lists_of table.old)) }
{
    for i in 0..slots.len() {
        put_rank(table, slots[i], u64::from(LEVELS) + i as u64)?;
    }
    Ok(())
}

// Puts these stays in the places of those that are there.
fn put_stays(table: &mut Table, order: &[Stay]) -> Result<(), OutOfMemory>
    requires { length order.now ≡ length table.old.stays.items }
    ensures past { HasSameHistory table.old table.new }
    ensures lists { OnOk result (lists_of table.new ≡ with_order order.now (lists_of table.old)) }
{
    for i in 0..order.len() {
        table.stays.put(i, order[i])?;
    }
    Ok(())
}

// Puts the stays in this order, which is one of all of them.
fn put_order(table: &mut Table, order: &[Stay]) -> Result<(), OutOfMemory>
    requires kept { IsKept (lists_of table.old) }
    requires held { All (λ s. HasStay table.old.stays.items s.attr) order.now }
    requires count { length order.now ≡ length table.old.stays.items }
    ensures past { HasSameHistory table.old table.new }
    ensures lists { OnOk result (AreFronted order.now (lists_of table.old) (lists_of table.new)) }
{
    let slots = slots_of(table, order)?;
    put_ranks(table, &slots)?;
    put_stays(table, order)
}

// Puts the stays of these attributes before all others, and lists the lines that may have a negative column
// then: those that stand in the row of one of these stays.
fn front_stays(table: &mut Table, listed: &mut Listed, attrs: &[u32]) -> Result<(), OutOfMemory>
    requires kept { IsKept (lists_of table.old) }
    requires held { All (HasStay table.old.stays.items) attrs.now }
    requires apart { AllPairs (λ a b. a ≢ b) attrs.now }
    ensures past { HasSameHistory table.old table.new }
    ensures lists { OnOk result (AreFronted (with_front attrs.now table.old.stays.items)
        (lists_of table.old) (lists_of table.new)) }
    ensures listed { OnOk result (AreListedOf (lists_of table.old) attrs.now listed.old listed.new) }
{
    list_stays(table, attrs, listed)?;
    let order = in_front(table.alloc, table.stays.as_slice(), attrs)?;
    put_order(table, &order)
}

/// Puts the stays of these attributes before all others.
pub fn put_front(table: &mut Table, listed: &mut Listed, attrs: &[u32]) -> Result<(), OutOfMemory>
    requires consistent { IsConsistent table.old listed.old }
    requires held { All (HasStay table.old.stays.items) attrs.now }
    requires apart { AllPairs (λ a b. a ≢ b) attrs.now }
    ensures consistent { OnOk result (IsConsistent table.new listed.new) }
    ensures problem { OnOk result (problem_of (lists_of table.new)
        ≡ fronted attrs.now (problem_of (lists_of table.old))) }
    ensures marks { OnOk result (SameMarks (marks_at (lists_of table.new)) (marks_at (lists_of table.old))) }
    ensures before { lists_before table.new ≡ lists_before table.old }
    ensures alike { AreAlike table.new }
{
    front_stays(table, listed, attrs)
}
