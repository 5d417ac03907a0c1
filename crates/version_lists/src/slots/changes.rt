// Changes of the numbers that are kept.
ghost use Rattle.std.specs.Prelude.{◌≡◌, ◌≢◌, ◌+◌, ◌-◌, ◌^◌, ◌<◌, ◌≤◌, List, false, length, take, All};
ghost use Rattle.std.specs.Prelude.{slice_index_or, slice_set, IfOk, IsTrue, OnOk};
ghost use Rattle.std.specs.List.{HoldsAt};
ghost use Rattle.version_lists.specs.Numbers.{by_number, AreRenumbered, AreRising, IsNumbered, IsRising};
ghost use Rattle.version_lists.specs.Numbers.{with_places, ArePacked};
ghost use Rattle.version_lists.specs.declared.slots.Numbered.{Numbered};

use crate::slots::Numbered;
use crate::slots::places::{is_above, place_of};
use crate::versions::VersionList;
use frac_core::OutOfMemory;

// Whether there is one before a place whose number is no lower than this.
fn is_after(kept: &[Numbered], i: usize, number: u32) -> bool
    requires { i ≤ length kept.now }
    ensures after { IsTrue result → (0 < i) × HoldsAt (λ n. number ≤ n.number) kept.now (i - 1) }
    ensures not_after { result ≡ false → 0 < i → HoldsAt (λ n. n.number < number) kept.now (i - 1) }
{
    i > 0 && kept[i - 1].number >= number
}

// Puts one where its number belongs, and the others from there on one place further.
fn move_up(kept: &mut VersionList<Numbered>, one: Numbered) -> Result<(), OutOfMemory>
    requires rising { IsRising kept.old.items }
    requires absent { All (λ n. n.number ≢ one.number) kept.old.items }
    ensures rising { OnOk result (IsRising kept.new.items) }
    ensures numbered { OnOk result
        (IsNumbered one.number one.slot (by_number kept.old.items) (by_number kept.new.items)) }
    ensures before { kept.new.before ≡ kept.old.before }
{
    let mut i = kept.len();
    kept.push(one)?;
    while is_after(kept.as_slice(), i, one.number) {
        let below = *kept.get(i - 1);
        kept.put(i, below)?;
        i -= 1;
    }
    kept.put(i, one)
}

// The same, or all is as at the newest mark: no number may be kept twice.
fn insert(kept: &mut VersionList<Numbered>, one: Numbered) -> Result<(), OutOfMemory>
    requires rising { AreRising kept.old }
    requires absent { All (λ n. n.number ≢ one.number) kept.old.items }
    ensures rising { AreRising kept.new }
    ensures numbered { OnOk result
        (IsNumbered one.number one.slot (by_number kept.old.items) (by_number kept.new.items)) }
    ensures before { kept.new.before ≡ kept.old.before }
{
    match move_up(kept, one) {
        Ok(()) => Ok(()),
        Err(stop) => {
            kept.rewind();
            Err(stop)
        }
    }
}

/// Keeps one, and no other of its number. As a rule numbers come rising; one between others is rare, as after
/// going back, and moves those above it.
pub fn give(kept: &mut VersionList<Numbered>, one: Numbered) -> Result<(), OutOfMemory>
    requires { AreRising kept.old }
    ensures rising { AreRising kept.new }
    ensures numbered { OnOk result
        (IsNumbered one.number one.slot (by_number kept.old.items) (by_number kept.new.items)) }
    ensures before { kept.new.before ≡ kept.old.before }
{
    if is_above(kept.as_slice(), one.number) {
        return kept.push(one);
    }
    if let Some(i) = place_of(kept.as_slice(), one.number) {
        return kept.put(i, one);
    }
    insert(kept, one)
}

// The place of a slot, 0 past the last one.
fn place_in(places: &[u32], slot: u32) -> u32
    ensures { result ≡ slice_index_or places.now slot 0 }
{
    match places.get(slot as usize) {
        Some(place) => *place,
        None => 0,
    }
}

// Puts one at a place, unless it is there.
fn put_changed(kept: &mut VersionList<Numbered>, k: usize, one: Numbered) -> Result<(), OutOfMemory>
    requires { k < length kept.old.items }
    ensures ok { OnOk result (kept.new.items ≡ slice_set kept.old.items k one) }
    ensures before { kept.new.before ≡ kept.old.before }
{
    let old = *kept.get(k);
    if old.number == one.number && old.slot == one.slot {
        return Ok(());
    }
    kept.put(k, one)
}

// Puts the one at place i at place k with its slot's place, if that is one, and gives the k of the next one.
fn pack_one(
    kept: &mut VersionList<Numbered>,
    places: &[u32],
    i: usize,
    k: usize,
) -> Result<usize, OutOfMemory>
    requires within { i < length kept.old.items }
    requires before { k ≤ i }
    requires fits { i < 2 ^ 64 - 1 }
    ensures ok { IfOk result (λ n. (items : List Numbered)
        → ArePacked places.now items i k kept.old.items
        → ArePacked places.now items (i + 1) n kept.new.items) }
    ensures before { kept.new.before ≡ kept.old.before }
{
    let old = *kept.get(i);
    let place = place_in(places, old.slot);
    if place == 0 {
        return Ok(k);
    }
    let one = Numbered {
        number: old.number,
        slot: place,
    };
    put_changed(kept, k, one)?;
    Ok(k + 1)
}

// Puts those whose slot has a place, with it, over the first ones, and counts them.
fn pack(kept: &mut VersionList<Numbered>, places: &[u32]) -> Result<usize, OutOfMemory>
    ensures count { IfOk result (λ k. k ≤ length kept.new.items) }
    ensures ok { IfOk result (λ k. take k kept.new.items ≡ with_places places.now kept.old.items) }
    ensures before { kept.new.before ≡ kept.old.before }
{
    let mut k = 0;
    for i in 0..kept.len() {
        k = pack_one(kept, places, i, k)?;
    }
    Ok(k)
}

// Leaves those whose slot has a place, with it.
fn pack_all(kept: &mut VersionList<Numbered>, places: &[u32]) -> Result<(), OutOfMemory>
    ensures ok { OnOk result (kept.new.items ≡ with_places places.now kept.old.items) }
    ensures before { kept.new.before ≡ kept.old.before }
{
    let count = pack(kept, places)?;
    kept.truncate(count)
}

/// The same, or all is as at the newest mark: no number may be kept twice.
pub fn renumbered(kept: &mut VersionList<Numbered>, places: &[u32]) -> Result<(), OutOfMemory>
    requires none { slice_index_or places.now 0 0 ≡ 0 }
    requires rising { AreRising kept.old }
    ensures rising { AreRising kept.new }
    ensures renumbered { OnOk result
        (AreRenumbered places.now (by_number kept.old.items) (by_number kept.new.items)) }
    ensures before { kept.new.before ≡ kept.old.before }
{
    match pack_all(kept, places) {
        Ok(()) => Ok(()),
        Err(stop) => {
            kept.rewind();
            Err(stop)
        }
    }
}
