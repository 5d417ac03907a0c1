// What stood where at the newest mark, and where another element may stand now.
ghost use Rattle.std.specs.Prelude.{◌≡◌, ◌≢◌, ◌⊎◌, ◌<◌, ◌≤◌, ◌-◌, ℕ, List, [], All, Contains, None, Some};
ghost use Rattle.std.specs.Prelude.{IfOk, IfSome, IfNone, OnOk, length, map, slice_get, slice_index_or, take};
ghost use Rattle.std.specs.List.{insert};
ghost use Rattle.version_lists.specs.Undo.{AreSlotted, IsLogOf, items_at, undo};

use crate::versions::VersionList;
use crate::versions::log::{Log, Removed, Replaced, Slotted};
use frac_core::OutOfMemory;
use std::alloc::Global;

// The element that a place had before these were replaced, if it is one of them.
fn first_of<T>(replaced: &[Replaced<T>], at: usize) -> Option<&T>
    ensures some { IfSome result (λ x. (xs : List T) → All (λ r. r.at < length xs) replaced.now
        → slice_get (undo (λ r. r.value) replaced.now xs) at ≡ Some x.now) }
    ensures none { IfNone result ((xs : List T)
        → slice_get (undo (λ r. r.value) replaced.now xs) at ≡ slice_get xs at) }
{
    for one in replaced {
        if one.at == at {
            return Some(&one.value);
        }
    }
    None
}

// The element that a place had before this one left, if it is this one or was replaced since.
fn one_of<T>(gone: &Removed<T>, at: usize) -> Option<&T>
    ensures some { IfSome result (λ x. (xs : List T) → gone.now.element.at ≤ length xs
        → All (λ r. r.at ≤ length xs) gone.now.earlier.items
        → slice_get (undo (λ r. r.value) gone.now.earlier.items
        (insert xs gone.now.element.at gone.now.element.value)) at ≡ Some x.now) }
    ensures other { IfNone result (gone.now.element.at ≢ at) }
    ensures none { IfNone result ((xs : List T)
        → slice_get (undo (λ r. r.value) gone.now.earlier.items
        (insert xs gone.now.element.at gone.now.element.value)) at
        ≡ slice_get (insert xs gone.now.element.at gone.now.element.value) at) }
{
    if let Some(value) = first_of(&gone.earlier, at) {
        return Some(value);
    }
    if gone.element.at == at {
        return Some(&gone.element.value);
    }
    None
}

// Where an element stands once that of another place has left.
fn place_without(gone: usize, at: usize) -> usize
    ensures below { at < gone → result ≡ at }
    ensures above { gone < at → result ≡ at - 1 }
{
    if at > gone { at - 1 } else { at }
}

// The element that a place has with what was replaced since the last one left at its place again.
fn given_back<'a, T>(log: &'a Log<T>, list: &'a Slotted<T>, at: usize) -> Option<&'a T>
    requires log { IsLogOf list.now.slots.items log.now }
    requires lengths { AreSlotted list.now }
    ensures some { IfSome result (λ x. slice_get (undo (λ r. r.value) log.now.replaced.items
        (take log.now.len list.now.items.items)) at ≡ Some x.now) }
    ensures none { IfNone result (slice_get (undo (λ r. r.value) log.now.replaced.items
        (take log.now.len list.now.items.items)) at ≡ None) }
{
    if at >= log.len {
        return None;
    }
    let slot = list.slots[at];
    if log.has(at, slot) {
        return Some(&log.replaced[slot].value);
    }
    Some(&list.items[at])
}

// The element that a place had at the log's mark.
fn marked_at<'a, T>(log: &'a Log<T>, list: &'a Slotted<T>, i: usize) -> Option<&'a T>
    requires log { IsLogOf list.now.slots.items log.now }
    requires lengths { AreSlotted list.now }
    ensures some { IfSome result (λ x. slice_get (items_at log.now list.now.items.items) i ≡ Some x.now) }
    ensures none { IfNone result (slice_get (items_at log.now list.now.items.items) i ≡ None) }
{
    let mut at = i;
    for gone in log.removed.as_slice() {
        if let Some(value) = one_of(gone, at) {
            return Some(value);
        }
        at = place_without(gone.element.at, at);
    }
    given_back(log, list, at)
}

// The places of these.
fn places_of<T>(alloc: Global, replaced: &[Replaced<T>]) -> Result<Vec<usize>, OutOfMemory>
    ensures { IfOk result (λ places. places.items ≡ map (λ r. r.at) replaced.now) }
{
    let mut out = Vec::with_capacity(alloc, replaced.len())?;
    for one in replaced {
        out.push(one.at)?;
    }
    Ok(out)
}

// Puts the places from the first one on behind the others, as far as the end.
fn push_places(out: &mut Vec<usize>, first: usize, end: usize) -> Result<(), OutOfMemory>
    ensures keeps { OnOk result ((i : ℕ) → Contains out.old.items i → Contains out.new.items i) }
    ensures has { OnOk result ((i : ℕ) → first ≤ i → i < end → Contains out.new.items i) }
{
    for i in first..end {
        out.push(i)?;
    }
    Ok(())
}

// The places where another element may stand than at the log's mark, since which none left.
fn changed<T>(alloc: Global, log: &Log<T>, count: usize) -> Result<Vec<usize>, OutOfMemory>
    requires whole { log.now.removed.items ≡ [] }
    requires within { log.now.len ≤ count }
    ensures { IfOk result (λ places. (items : List T) → length items ≡ count
        → (i : ℕ) → Contains places.items i ⊎ (slice_get (items_at log.now items) i ≡ slice_get items i)) }
{
    let mut out = places_of(alloc, &log.replaced)?;
    push_places(&mut out, log.len, count)?;
    Ok(out)
}

impl<T> VersionList<T> {
    /// The element that a place had at the newest mark. There is none exactly where the list was no longer
    /// than that.
    pub fn was(&self, i: usize) -> Option<&T>
        requires { 0 < length self.now.before }
        ensures some { IfSome result
            (λ x. slice_get (slice_index_or self.now.before 0 []) i ≡ Some x.now) }
        ensures none { IfNone result (slice_get (slice_index_or self.now.before 0 []) i ≡ None) }
    {
        marked_at(&self.logs[0], &self.list, i)
    }

    /// At least the places where another element stands than at the newest mark: those that were written
    /// since, or came. Where an element left, it is all of them.
    pub fn written(&self) -> Result<Vec<usize>, OutOfMemory>
        requires { 0 < length self.now.before }
        ensures { IfOk result (λ places. (i : ℕ) → Contains places.items i
            ⊎ (slice_get (slice_index_or self.now.before 0 []) i ≡ slice_get self.now.items i)) }
    {
        let log = &self.logs[0];
        if log.removed.is_empty() {
            return changed(self.alloc, log, self.list.items.len());
        }
        let mut out = Vec::new(self.alloc);
        push_places(&mut out, 0, self.list.slots.capacity())?;
        Ok(out)
    }
}
