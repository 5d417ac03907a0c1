// Slots, standings, rows and numbers at their places.
ghost use Rattle.std.specs.Prelude.{◌≡◌, ◌<◌, ◌≤◌, ℕ, [], true, false, length, OnOk, slice_index_or};
ghost use Rattle.row_core.specs.Renames.{place_in, renamed};
ghost use Rattle.version_lists.specs.Indexes.{row_at};
ghost use Rattle.corner_table.specs.declared.table.TheConstants.{MOST_SLOTS};
ghost use Rattle.corner_table.specs.Histories.{AreAlike, HasSameHistory, lists_before};
ghost use Rattle.corner_table.specs.Kept.{IsKept};
ghost use Rattle.corner_table.specs.Tables.{lists_of, no_slot, no_standing};
ghost use Rattle.corner_packing.specs.Packing as packing;
ghost use Rattle.corner_packing.specs.Packing.{ArePacked, ArePlaces};
ghost use Rattle.corner_packing.specs.Moving.{AreAtPlaces, AreCleared, AreMoved, HasPlaces, IsMoved};
ghost use Rattle.corner_packing.specs.Moving.{AreRisingPlaces, IsPlaced};

use crate::places::Places;
use corner_table::{LEVELS, OWN_RANK, Slot, Standing, Table};
use frac_core::OutOfMemory;
use row_core::{Entry, IntRow};
use std::alloc::Global;
use version_lists::{IndexedRows, VersionList};

// The place of a slot, 0 past the last one.
fn place_at(places: &Places, w: usize) -> u32
    ensures { result ≡ place_in places.now.of.items w }
{
    if w < places.of.len() { places.of[w] } else { 0 }
}

// Whether the slot has a place.
fn is_placed(places: &Places, w: usize) -> bool
    ensures yes { result ≡ true → IsPlaced places.now.of.items w }
    ensures no { result ≡ false → IsPlaced places.now.of.items w → ⊥ }
{
    w < LEVELS as usize || place_at(places, w) != 0
}

// The rank of what gets this place.
fn packed_rank(place: u32, rank: u64) -> u64
    ensures { result ≡ packing.packed_rank place rank }
{
    if rank < OWN_RANK {
        rank
    } else {
        OWN_RANK + u64::from(place)
    }
}

// What the slot says, at its place.
fn packed_slot(places: &Places, w: usize, slot: &Slot) -> Slot
    ensures { result ≡ packing.packed_slot places.now.of.items w slot.now }
{
    Slot {
        owner: slot.owner,
        home: place_at(places, slot.home as usize),
        rank: packed_rank(place_at(places, w), slot.rank),
        weight: slot.weight,
        scale: slot.scale,
        rel: slot.rel,
    }
}

// Whether a slot says the same at its place, with this home and rank.
fn is_same(slot: &Slot, moved: &Slot) -> bool
    ensures home { result ≡ true → slot.now.home ≡ moved.now.home }
    ensures rank { result ≡ true → slot.now.rank ≡ moved.now.rank }
{
    slot.home == moved.home && slot.rank == moved.rank
}

// Puts what the slot says at its place, if it has one.
fn move_slot(slots: &mut VersionList<Slot>, places: &Places, w: usize) -> Result<(), OutOfMemory>
    requires packing { AreRisingPlaces places.now.of.items places.now.count }
    requires length { length slots.old.items ≡ length places.now.of.items }
    requires within { w < length slots.old.items }
    ensures moved { OnOk result (IsMoved places.now.of.items w
        (packing.packed_slot places.now.of.items w (slice_index_or slots.old.items w no_slot))
        slots.old.items slots.new.items) }
    ensures before { slots.new.before ≡ slots.old.before }
{
    if !is_placed(places, w) {
        return Ok(());
    }
    let place = place_at(places, w) as usize;
    let slot = *slots.get(w);
    let moved = packed_slot(places, w, &slot);
    if place == w && is_same(&slot, &moved) {
        return Ok(());
    }
    slots.put(place, moved)
}

// Puts what the slots say at their places.
fn move_slots(slots: &mut VersionList<Slot>, places: &Places) -> Result<(), OutOfMemory>
    requires packing { AreRisingPlaces places.now.of.items places.now.count }
    requires length { length slots.old.items ≡ length places.now.of.items }
    ensures moved { OnOk result (AreAtPlaces places.now.of.items places.now.count
        (packing.packed_slot places.now.of.items) no_slot slots.old.items slots.new.items) }
    ensures before { slots.new.before ≡ slots.old.before }
{
    for w in 0..slots.len() {
        move_slot(slots, places, w)?;
    }
    slots.truncate(places.count as usize)
}

// Puts a slot's standing at its place, if it has one.
fn move_standing(
    standings: &mut VersionList<Standing>,
    places: &Places,
    w: usize,
) -> Result<(), OutOfMemory>
    requires packing { AreRisingPlaces places.now.of.items places.now.count }
    requires length { length standings.old.items ≡ length places.now.of.items }
    requires within { w < length standings.old.items }
    ensures moved { OnOk result (IsMoved places.now.of.items w
        (slice_index_or standings.old.items w no_standing) standings.old.items standings.new.items) }
    ensures before { standings.new.before ≡ standings.old.before }
{
    let place = place_at(places, w) as usize;
    if place == w || !is_placed(places, w) {
        return Ok(());
    }
    let standing = *standings.get(w);
    standings.put(place, standing)
}

// Puts the standings at their places.
fn move_standings(standings: &mut VersionList<Standing>, places: &Places) -> Result<(), OutOfMemory>
    requires packing { AreRisingPlaces places.now.of.items places.now.count }
    requires length { length standings.old.items ≡ length places.now.of.items }
    ensures moved { OnOk result (AreAtPlaces places.now.of.items places.now.count
        (λ w x. x) no_standing standings.old.items standings.new.items) }
    ensures before { standings.new.before ≡ standings.old.before }
{
    for w in 0..standings.len() {
        move_standing(standings, places, w)?;
    }
    standings.truncate(places.count as usize)
}

// Whether the column stays where it is.
fn stays(places: &Places, e: &Entry) -> bool
    ensures { result ≡ true → place_in places.now.of.items e.now.col ≡ e.now.col }
{
    u64::from(place_at(places, e.col.0 as usize)) == e.col.0
}

// Whether all columns of the row stay where they are.
fn is_still(places: &Places, row: &IntRow) -> bool
    ensures { result ≡ true → renamed places.now.of.items row.now ≡ row.now }
{
    for e in row.entries() {
        if !stays(places, e) {
            return false;
        }
    }
    true
}

// Puts a slot's row at its place, if it has one.
fn move_row(
    matrix: &mut IndexedRows,
    places: &Places,
    w: u32,
    alloc: Global,
) -> Result<(), OutOfMemory>
    requires packing { AreRisingPlaces places.now.of.items places.now.count }
    requires length { length matrix.old.rows ≡ length places.now.of.items }
    requires within { w < length matrix.old.rows }
    requires placed { HasPlaces places.now.of.items (row_at matrix.old.rows w) }
    ensures moved { OnOk result (IsMoved places.now.of.items w
        (renamed places.now.of.items (row_at matrix.old.rows w)) matrix.old.rows matrix.new.rows) }
    ensures before { matrix.new.before ≡ matrix.old.before }
{
    if !is_placed(places, w as usize) {
        return Ok(());
    }
    let place = place_at(places, w as usize);
    let row = matrix.row(w);
    if place == w && is_still(places, row) {
        return Ok(());
    }
    let moved = row.renamed(alloc, &places.of)?;
    matrix.put(place, moved)
}

// Puts the rows at their places.
fn move_rows(matrix: &mut IndexedRows, places: &Places, alloc: Global) -> Result<(), OutOfMemory>
    requires packing { AreRisingPlaces places.now.of.items places.now.count }
    requires length { length matrix.old.rows ≡ length places.now.of.items }
    requires placed { (w : ℕ) → HasPlaces places.now.of.items (row_at matrix.old.rows w) }
    ensures moved { OnOk result (AreMoved places.now.of.items (λ w. renamed places.now.of.items) []
        (length matrix.old.rows) matrix.old.rows matrix.new.rows) }
    ensures before { matrix.new.before ≡ matrix.old.before }
{
    for w in 0..matrix.len() as u32 {
        move_row(matrix, places, w, alloc)?;
    }
    Ok(())
}

// Empties the rows from one on.
fn clear_rows(matrix: &mut IndexedRows, count: u32, alloc: Global) -> Result<(), OutOfMemory>
    requires few { count ≤ length matrix.old.rows }
    requires most { length matrix.old.rows ≤ MOST_SLOTS }
    ensures cleared { OnOk result (AreCleared count (length matrix.old.rows)
        matrix.old.rows matrix.new.rows) }
    ensures before { matrix.new.before ≡ matrix.old.before }
{
    for w in count..matrix.len() as u32 {
        matrix.put(w, IntRow::empty(alloc))?;
    }
    Ok(())
}

// Puts the rows at their places, with their columns, and takes out those that are left.
fn pack_rows(matrix: &mut IndexedRows, places: &Places, alloc: Global) -> Result<(), OutOfMemory>
    requires packing { AreRisingPlaces places.now.of.items places.now.count }
    requires length { length matrix.old.rows ≡ length places.now.of.items }
    requires placed { (w : ℕ) → HasPlaces places.now.of.items (row_at matrix.old.rows w) }
    ensures moved { OnOk result (AreAtPlaces places.now.of.items places.now.count
        (λ w. renamed places.now.of.items) [] matrix.old.rows matrix.new.rows) }
    ensures before { matrix.new.before ≡ matrix.old.before }
{
    move_rows(matrix, places, alloc)?;
    clear_rows(matrix, places.count, alloc)?;
    matrix.truncate(places.count as usize)
}

// Puts slots, standings, rows and numbers at their places.
fn move_lists(table: &mut Table, places: &Places) -> Result<(), OutOfMemory>
    requires kept { IsKept (lists_of table.old) }
    requires places { ArePlaces (lists_of table.old) places.now.of.items places.now.count }
    ensures packed { OnOk result (ArePacked places.now.of.items places.now.count
        (lists_of table.old) (lists_of table.new)) }
    ensures past { HasSameHistory table.old table.new }
{
    move_slots(&mut table.slots, places)?;
    move_standings(&mut table.standings, places)?;
    pack_rows(&mut table.matrix, places, table.alloc)?;
    table.attr_slots.renumber(&places.of)?;
    table.row_slots.renumber(&places.of)
}

/// Puts slots, standings, rows and numbers at their places.
pub fn move_all(table: &mut Table, places: &Places) -> Result<(), OutOfMemory>
    requires kept { IsKept (lists_of table.old) }
    requires alike { AreAlike table.old }
    requires places { ArePlaces (lists_of table.old) places.now.of.items places.now.count }
    ensures packed { OnOk result (ArePacked places.now.of.items places.now.count
        (lists_of table.old) (lists_of table.new)) }
    ensures before { lists_before table.new ≡ lists_before table.old }
    ensures alike { AreAlike table.new }
{
    move_lists(table, places)
}
