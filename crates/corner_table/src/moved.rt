// The attributes that have other values than at the newest mark.
ghost use Rattle.std.specs.Prelude.{◌≡◌, ◌⊎◌, ◌<◌, ℕ, [], All, Contains, true, false, length, IfOk, OnOk};
ghost use Rattle.std.specs.Prelude.{IfNone, IfSome};
ghost use Rattle.corner_view.specs.declared.types.Owner.TheVariants as owner_type;
ghost use Rattle.corner_table.specs.Histories.{AreAlike};
ghost use Rattle.corner_table.specs.Kept.{AreSlots};
ghost use Rattle.corner_view.specs.Moves.{AreMoved, HasMoved, HasStayed, Shows};
ghost use Rattle.corner_table.specs.Moves.{HasValue, marked_of};
ghost use Rattle.corner_table.specs.Moves.{HaveOtherSlots, HasOwnValue, IsListed, IsListedOrStayed, Keeps};
ghost use Rattle.corner_table.specs.Tables.{lists_of, slot_at};

use crate::table::{Slot, Table};
use corner_view::Owner;
use frac_core::{Frac, OutOfMemory};

// Whether a slot is the attribute's.
fn is_attr(slot: &Slot, attr: u32) -> bool
    ensures yes { result ≡ true → slot.now.owner ≡ owner_type.Attr attr }
    ensures no { result ≡ false → slot.now.owner ≡ owner_type.Attr attr → ⊥ }
{
    match slot.owner {
        Owner::Attr(own) => own == attr,
        _ => false,
    }
}

// The value at a slot, which is that of the attribute that the slot is of.
fn slot_value_now(table: &Table, w: usize) -> Option<Frac>
    requires { AreSlots (lists_of table.now) }
    ensures { HasOwnValue (lists_of table.now) w result }
{
    let standing = table.standings.as_slice().get(w)?;
    Some(standing.value)
}

// The value that was at a slot at the newest mark, which was that of the attribute that the slot was of.
fn slot_value_before(table: &Table, w: usize) -> Option<Frac>
    requires marked { 0 < length table.now.standings.before }
    requires slots { AreSlots (marked_of table.now) }
    ensures { HasOwnValue (marked_of table.now) w result }
{
    let standing = table.standings.was(w)?;
    Some(standing.value)
}

// The value that an attribute has, if it has one.
fn value_now(table: &Table, attr: u32) -> Option<Frac>
    requires { AreSlots (lists_of table.now) }
    ensures { Shows HasValue (lists_of table.now) attr result }
{
    let w = table.attr_slots.slot(attr);
    let slot = table.slots.as_slice().get(w as usize)?;
    if !is_attr(slot, attr) {
        return None;
    }
    slot_value_now(table, w as usize)
}

// The value that an attribute had at the newest mark, if it had one.
fn value_before(table: &Table, attr: u32) -> Option<Frac>
    requires alike { AreAlike table.now }
    requires marked { 0 < length table.now.rows.before }
    requires slots { AreSlots (marked_of table.now) }
    ensures { Shows HasValue (marked_of table.now) attr result }
{
    let w = table.attr_slots.was(attr);
    let slot = table.slots.was(w as usize)?;
    if !is_attr(slot, attr) {
        return None;
    }
    slot_value_before(table, w as usize)
}

// Whether the values are the same, or there is none of both.
fn are_one(was: Option<Frac>, is: Option<Frac>) -> bool
    ensures yes { result ≡ true → was ≡ is }
    ensures no { result ≡ false → was ≡ is → ⊥ }
{
    was == is
}

// Whether an attribute has another value than at the newest mark.
fn has_moved(table: &Table, attr: u32) -> bool
    requires alike { AreAlike table.now }
    requires marked { 0 < length table.now.rows.before }
    requires then { AreSlots (marked_of table.now) }
    requires now { AreSlots (lists_of table.now) }
    ensures yes { result ≡ true → HasMoved HasValue (marked_of table.now) (lists_of table.now) attr }
    ensures no { result ≡ false → HasStayed HasValue (marked_of table.now) (lists_of table.now) attr }
{
    !are_one(value_before(table, attr), value_now(table, attr))
}

// Puts the slot's attribute behind the others, if it is one's.
fn push_attr(slot: &Slot, out: &mut Vec<u32>) -> Result<(), OutOfMemory>
    ensures keeps { OnOk result (Keeps out.old.items out.new.items) }
    ensures listed { OnOk result ((attr : ℕ) → slot.now.owner ≡ owner_type.Attr attr
        → Contains out.new.items attr) }
{
    if let Owner::Attr(attr) = slot.owner {
        out.push(attr)?;
    }
    Ok(())
}

// Puts the attribute of the slot at a place behind the others.
fn push_now(table: &Table, w: usize, out: &mut Vec<u32>) -> Result<(), OutOfMemory>
    ensures keeps { OnOk result (Keeps out.old.items out.new.items) }
    ensures listed { OnOk result (IsListed (lists_of table.now) out.new.items w) }
{
    match table.slots.as_slice().get(w) {
        Some(slot) => push_attr(slot, out),
        None => Ok(()),
    }
}

// Puts the attribute of the slot that was at a place at the newest mark behind the others.
fn push_then(table: &Table, w: usize, out: &mut Vec<u32>) -> Result<(), OutOfMemory>
    requires { 0 < length table.now.slots.before }
    ensures keeps { OnOk result (Keeps out.old.items out.new.items) }
    ensures listed { OnOk result (IsListed (marked_of table.now) out.new.items w) }
{
    match table.slots.was(w) {
        Some(slot) => push_attr(slot, out),
        None => Ok(()),
    }
}

// Puts the attributes of the slots at these places behind the others, as they are and as they were at the
// newest mark.
fn push_attrs(table: &Table, places: &[usize], out: &mut Vec<u32>) -> Result<(), OutOfMemory>
    requires { 0 < length table.now.slots.before }
    ensures keeps { OnOk result (Keeps out.old.items out.new.items) }
    ensures now { OnOk result (All (IsListed (lists_of table.now) out.new.items) places.now) }
    ensures then { OnOk result (All (IsListed (marked_of table.now) out.new.items) places.now) }
{
    for w in places {
        push_now(table, *w, out)?;
        push_then(table, *w, out)?;
    }
    Ok(())
}

// Puts the attributes of the slots at these places behind the others, as they are.
fn push_present(table: &Table, places: &[usize], out: &mut Vec<u32>) -> Result<(), OutOfMemory>
    ensures keeps { OnOk result (Keeps out.old.items out.new.items) }
    ensures now { OnOk result (All (IsListed (lists_of table.now) out.new.items) places.now) }
{
    for w in places {
        push_now(table, *w, out)?;
    }
    Ok(())
}

// Attributes, of which each is one that may have another value than at the newest mark, where slots at these
// places alone are others than then. A slot that is as it was then is of what it was of then.
fn candidates(table: &Table, slots: &[usize]) -> Result<Vec<u32>, OutOfMemory>
    requires alike { AreAlike table.now }
    requires marked { 0 < length table.now.rows.before }
    requires then { AreSlots (marked_of table.now) }
    requires now { AreSlots (lists_of table.now) }
    requires others { HaveOtherSlots (marked_of table.now) (lists_of table.now) slots.now }
    ensures { IfOk result (λ attrs. (attr : ℕ) → Contains attrs.items attr
        ⊎ HasStayed HasValue (marked_of table.now) (lists_of table.now) attr) }
{
    let mut out = Vec::new(table.alloc);
    push_attrs(table, slots, &mut out)?;
    push_present(table, &table.standings.written()?, &mut out)?;
    Ok(out)
}

// Those of these attributes that have another value than at the newest mark.
fn moved_of(table: &Table, attrs: &[u32]) -> Result<Vec<u32>, OutOfMemory>
    requires alike { AreAlike table.now }
    requires marked { 0 < length table.now.rows.before }
    requires then { AreSlots (marked_of table.now) }
    requires now { AreSlots (lists_of table.now) }
    ensures moved { IfOk result (λ out.
        All (HasMoved HasValue (marked_of table.now) (lists_of table.now)) out.items) }
    ensures others { IfOk result (λ out. (attr : ℕ) → Contains attrs.now attr → Contains out.items attr
        ⊎ HasStayed HasValue (marked_of table.now) (lists_of table.now) attr) }
{
    let mut out = Vec::new(table.alloc);
    for attr in attrs {
        if has_moved(table, *attr) {
            out.push(*attr)?;
        }
    }
    Ok(out)
}

// The attributes that have another value than at the newest mark, where slots at these places alone are
// others than then: an attribute's slot may be another, so it is looked for by number, now and then.
fn moved_by_number(table: &Table, slots: &[usize]) -> Result<Vec<u32>, OutOfMemory>
    requires alike { AreAlike table.now }
    requires marked { 0 < length table.now.rows.before }
    requires then { AreSlots (marked_of table.now) }
    requires now { AreSlots (lists_of table.now) }
    requires others { HaveOtherSlots (marked_of table.now) (lists_of table.now) slots.now }
    ensures { IfOk result (λ attrs.
        AreMoved HasValue (marked_of table.now) (lists_of table.now) attrs.items) }
{
    let attrs = candidates(table, slots)?;
    let moved = moved_of(table, &attrs)?;
    Ok(moved)
}

// The attribute that a slot is of, if it is one's.
fn attr_of(slot: &Slot) -> Option<u32>
    ensures some { IfSome result (λ attr. slot.now.owner ≡ owner_type.Attr attr) }
    ensures none { IfNone result ((attr : ℕ) → slot.now.owner ≡ owner_type.Attr attr → ⊥) }
{
    match slot.owner {
        Owner::Attr(attr) => Some(attr),
        _ => None,
    }
}

// The attribute that the slot at a place is of, if it is one's.
fn attr_at(table: &Table, w: usize) -> Option<u32>
    ensures some { IfSome result (λ attr. (slot_at (lists_of table.now) w).owner ≡ owner_type.Attr attr) }
    ensures none { IfNone result
        ((attr : ℕ) → (slot_at (lists_of table.now) w).owner ≡ owner_type.Attr attr → ⊥) }
{
    let slot = table.slots.as_slice().get(w)?;
    attr_of(slot)
}

// The attribute that the slot at a place is of, if it has another value than at the newest mark. All slots
// are of what they were of then.
fn moved_at(table: &Table, w: usize) -> Option<u32>
    requires marked { 0 < length table.now.standings.before }
    requires then { AreSlots (marked_of table.now) }
    requires now { AreSlots (lists_of table.now) }
    requires others { HaveOtherSlots (marked_of table.now) (lists_of table.now) [] }
    ensures own { IfSome result (λ attr. (slot_at (lists_of table.now) w).owner ≡ owner_type.Attr attr) }
    ensures moved { IfSome result (HasMoved HasValue (marked_of table.now) (lists_of table.now)) }
    ensures none { IfNone result (IsListedOrStayed (marked_of table.now) (lists_of table.now) [] w) }
{
    let attr = attr_at(table, w)?;
    if are_one(slot_value_before(table, w), slot_value_now(table, w)) {
        return None;
    }
    Some(attr)
}

// Of the attributes that the slots at these places are of, those that have another value than at the newest
// mark. All slots are of what they were of then.
fn moved_at_places(table: &Table, places: &[usize]) -> Result<Vec<u32>, OutOfMemory>
    requires marked { 0 < length table.now.standings.before }
    requires then { AreSlots (marked_of table.now) }
    requires now { AreSlots (lists_of table.now) }
    requires others { HaveOtherSlots (marked_of table.now) (lists_of table.now) [] }
    ensures moved { IfOk result (λ out.
        All (HasMoved HasValue (marked_of table.now) (lists_of table.now)) out.items) }
    ensures stayed { IfOk result (λ out.
        All (IsListedOrStayed (marked_of table.now) (lists_of table.now) out.items) places.now) }
{
    let mut out = Vec::new(table.alloc);
    for w in places {
        if let Some(attr) = moved_at(table, *w) {
            out.push(attr)?;
        }
    }
    Ok(out)
}

// The attributes that have another value than at the newest mark, where all slots are of what they were of
// then: an attribute's slot is the same, so only what was written of the values is looked at.
fn moved_values(table: &Table) -> Result<Vec<u32>, OutOfMemory>
    requires alike { AreAlike table.now }
    requires marked { 0 < length table.now.rows.before }
    requires then { AreSlots (marked_of table.now) }
    requires now { AreSlots (lists_of table.now) }
    requires others { HaveOtherSlots (marked_of table.now) (lists_of table.now) [] }
    ensures { IfOk result (λ attrs.
        AreMoved HasValue (marked_of table.now) (lists_of table.now) attrs.items) }
{
    let places = table.standings.written()?;
    let moved = moved_at_places(table, &places)?;
    Ok(moved)
}

/// The attributes that have another value than at the newest mark, or one in place of none, or none in place
/// of one. It takes as long as what was written since.
pub fn moved_attrs(table: &Table) -> Result<Vec<u32>, OutOfMemory>
    requires alike { AreAlike table.now }
    requires marked { 0 < length table.now.rows.before }
    requires then { AreSlots (marked_of table.now) }
    requires now { AreSlots (lists_of table.now) }
    ensures { IfOk result (λ attrs.
        AreMoved HasValue (marked_of table.now) (lists_of table.now) attrs.items) }
{
    let slots = table.slots.written()?;
    if slots.is_empty() {
        return moved_values(table);
    }
    moved_by_number(table, &slots)
}
