// Where a number stands, and the slot that it has or had.
ghost use Rattle.std.specs.Prelude.{◌≡◌, ◌≢◌, ◌<◌, [], length, All, IfNone, IfSome, IsTrue, slice_index_or};
ghost use Rattle.std.specs.List.{HoldsAt};
ghost use Rattle.version_lists.specs.Numbers.{by_number, AreRising, IsRising};

use crate::slots::Numbered;
use crate::versions::VersionList;

// Whether the number stands at the place.
fn is_at(kept: &[Numbered], i: usize, number: u32) -> bool
    ensures within { IsTrue result → i < length kept.now }
    ensures found { IsTrue result → HoldsAt (λ n. n.number ≡ number) kept.now i }
{
    kept.get(i).is_some_and(|one| one.number == number)
}

// Where the number stands, if each number from the first one on has a slot: it is so until some lose theirs.
fn guess(kept: &[Numbered], number: u32) -> usize {
    match kept.first() {
        Some(one) => number.wrapping_sub(one.number) as usize,
        None => 0,
    }
}

// The place of the number, sought by halves.
fn place_by_halves(kept: &[Numbered], number: u32) -> Option<usize>
    requires { IsRising kept.now }
    ensures within { IfSome result (λ i. i < length kept.now) }
    ensures found { IfSome result (HoldsAt (λ n. n.number ≡ number) kept.now) }
    ensures absent { IfNone result (All (λ n. n.number ≢ number) kept.now) }
{
    kept.binary_search_by_key(&number, |one| one.number).ok()
}

/// The place of the number.
pub fn place_of(kept: &[Numbered], number: u32) -> Option<usize>
    requires { IsRising kept.now }
    ensures within { IfSome result (λ i. i < length kept.now) }
    ensures found { IfSome result (HoldsAt (λ n. n.number ≡ number) kept.now) }
    ensures absent { IfNone result (All (λ n. n.number ≢ number) kept.now) }
{
    let i = guess(kept, number);
    if is_at(kept, i, number) {
        return Some(i);
    }
    place_by_halves(kept, number)
}

// The slot of the number, sought by halves.
fn slot_by_halves(kept: &[Numbered], number: u32) -> u32
    requires { IsRising kept.now }
    ensures { result ≡ slice_index_or (by_number kept.now) number 0 }
{
    let Some(i) = place_by_halves(kept, number) else {
        return 0;
    };
    let one = kept[i];
    one.slot
}

/// The slot of the number.
pub fn slot_of(kept: &[Numbered], number: u32) -> u32
    requires { IsRising kept.now }
    ensures { result ≡ slice_index_or (by_number kept.now) number 0 }
{
    let i = guess(kept, number);
    if is_at(kept, i, number) {
        let one = kept[i];
        return one.slot;
    }
    slot_by_halves(kept, number)
}

/// Whether all numbers that are kept are below this one.
pub fn is_above(kept: &[Numbered], number: u32) -> bool
    requires { IsRising kept.now }
    ensures { IsTrue result → All (λ n. n.number < number) kept.now }
{
    match kept.last() {
        Some(one) => one.number < number,
        None => true,
    }
}

// The slot that the number had at the newest mark, sought one by one.
fn slot_in_turn(kept: &VersionList<Numbered>, number: u32) -> u32
    requires marked { 0 < length kept.now.before }
    requires rising { AreRising kept.now }
    ensures { result ≡ slice_index_or (by_number (slice_index_or kept.now.before 0 [])) number 0 }
{
    let mut i: u32 = 0;
    while let Some(one) = kept.was(i as usize) {
        if one.number == number {
            return one.slot;
        }
        if one.number > number {
            return 0;
        }
        i += 1;
    }
    0
}

/// The slot that the number had at the newest mark. It stood where it stands now, unless numbers below it
/// came or lost their slots since.
pub fn slot_then(kept: &VersionList<Numbered>, number: u32) -> u32
    requires marked { 0 < length kept.now.before }
    requires rising { AreRising kept.now }
    ensures { result ≡ slice_index_or (by_number (slice_index_or kept.now.before 0 [])) number 0 }
{
    if let Some(i) = place_of(kept.as_slice(), number) {
        if let Some(one) = kept.was(i) {
            if one.number == number {
                return one.slot;
            }
        }
    }
    slot_in_turn(kept, number)
}
