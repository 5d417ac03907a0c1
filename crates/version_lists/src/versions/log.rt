// Elements with their slots, and the log of one mark: how many of the elements of then are left, and those
// that others took the place of since, or that left.
ghost use Rattle.std.specs.Prelude.{◌≡◌, ◌+◌, ◌-◌, ◌<◌, ◌≤◌, ℕ, List, [], length, take, slice_set};
ghost use Rattle.std.specs.Prelude.{slice_index};
ghost use Rattle.std.specs.Prelude.{IsTrue, ◌↔◌, false, All, IfSome, OnErr, OnOk};
ghost use Rattle.std.specs.List.{insert, remove};
ghost use Rattle.std.specs.VecDeque.{deque_len, deque_capacity};
ghost use Rattle.version_lists.specs.Versions.{IsOwn};
ghost use Rattle.version_lists.specs.Undo.{undo, items_at, slots_at, versions, AreLogsOf, HasAt, IsLogOf};
ghost use Rattle.version_lists.specs.Undo.{AreSlotted, HasRoomFor, IsAsMarked, IsMarked, KeepsRoom};

use crate::versions::VERSION_LIMIT;
use frac_core::OutOfMemory;
use std::alloc::Global;
use std::collections::VecDeque;
use std::mem;

/// The elements of now with their slots.
#[derive(Drop)]
pub struct Slotted<T> {
    pub items: Vec<T>,
    // Where the newest log has the element that each place had at the mark, if it has one.
    pub slots: Vec<usize>,
}

/// What going back to one mark needs: the elements that were replaced since, and those that left.
#[derive(Drop)]
pub struct Log<T> {
    // How many of the elements of now have a place that the mark had, too: the first ones.
    pub len: usize,
    // The element that a place had at the mark, or when an element last left, for each place below `len` that
    // was written since, once.
    pub replaced: Vec<Replaced<T>>,
    // The elements that left since the mark, the last one last.
    pub removed: Vec<Removed<T>>,
}

/// An element that left, and what was replaced before since the mark, or since the element before it left.
#[derive(Drop)]
pub struct Removed<T> {
    pub element: Replaced<T>,
    pub earlier: Vec<Replaced<T>>,
}

/// An element that gave up its place, and what the place's slot was.
#[derive(Drop)]
pub struct Replaced<T> {
    pub at: usize,
    pub slot: usize,
    pub value: T,
}

impl<T> Log<T> {
    // Whether the log has the element that place `at` had at the mark, if only its `slot` can have it.
    pub fn has(&self, at: usize, slot: usize) -> bool
        ensures { IsTrue result ↔ HasAt self.now.replaced.items slot at }
    {
        self.replaced
            .get(slot)
            .is_some_and(|replaced| replaced.at == at)
    }
}

/// Whether going back restores the place `at` already, or drops it.
pub fn is_kept<T>(logs: &VecDeque<Log<T>>, slot: usize, at: usize) -> bool
    ensures kept { IsTrue result → (items : List T) (value : T)
        → versions (slice_set items at value) logs.now.items ≡ versions items logs.now.items }
    ensures not_kept { result ≡ false → IsAsMarked logs.now.items slot at }
{
    match logs.front() {
        Some(log) => log.len <= at || log.has(at, slot),
        None => true,
    }
}

/// Puts `value` at a place, and what was there into the log.
pub fn replace_at<T: Drop>(
    log: &mut Log<T>,
    list: &mut Slotted<T>,
    at: usize,
    value: T,
) -> Result<(), OutOfMemory>
    requires item { at < length list.old.items.items }
    requires lengths { AreSlotted list.old }
    requires marked { at < log.old.len }
    requires unwritten { ¬ HasAt log.old.replaced.items (slice_index list.old.slots.items at) at }
    ensures ok { OnOk result (list.new.items.items ≡ slice_set list.old.items.items at value) }
    ensures err { OnErr result (list.new.items.items ≡ list.old.items.items) }
    ensures items { items_at log.new list.new.items.items ≡ items_at log.old list.old.items.items }
    ensures kept { OnOk result ((other : T)
        → items_at log.new (slice_set list.old.items.items at other)
        ≡ items_at log.old list.old.items.items) }
    ensures slots { slots_at log.new list.new.slots.items ≡ slots_at log.old list.old.slots.items }
    ensures items_len { length list.new.items.items ≡ length list.old.items.items }
    ensures lengths { AreSlotted list.new }
    ensures log { IsLogOf list.old.slots.items log.old → IsLogOf list.new.slots.items log.new }
    ensures room { KeepsRoom list.old list.new }
{
    log.replaced.reserve(1)?;
    let replaced = Replaced {
        at,
        slot: mem::replace(&mut list.slots[at], log.replaced.len()),
        value: mem::replace(&mut list.items[at], value),
    };
    log.replaced.push_reserved(replaced);
    Ok(())
}

/// Puts a clone in the place of an element that going back needs, so that the place may be written.
#[inline(always)]
pub fn own<T: Clone + Drop>(
    logs: &mut VecDeque<Log<T>>,
    list: &mut Slotted<T>,
    at: usize,
) -> Result<(), OutOfMemory>
    requires item { at < length list.old.items.items }
    requires lengths { AreSlotted list.old }
    requires logs { AreLogsOf list.old.slots.items logs.old.items }
    ensures ok { OnOk result ((x : T)
        × IsOwn T.is_clone list.old.items.items at x
        × (list.new.items.items ≡ slice_set list.old.items.items at x)) }
    ensures err { OnErr result (list.new.items.items ≡ list.old.items.items) }
    ensures items { versions list.new.items.items logs.new.items
        ≡ versions list.old.items.items logs.old.items }
    ensures kept { OnOk result ((other : T)
        → versions (slice_set list.old.items.items at other) logs.new.items
        ≡ versions list.old.items.items logs.old.items) }
    ensures logs { AreLogsOf list.new.slots.items logs.new.items }
    ensures items_len { length list.new.items.items ≡ length list.old.items.items }
    ensures lengths { AreSlotted list.new }
    ensures room { KeepsRoom list.old list.new }
    ensures len { deque_len logs.new ≡ deque_len logs.old }
    ensures capacity { deque_capacity logs.new ≡ deque_capacity logs.old }
{
    if is_kept(logs, list.slots[at], at) {
        return Ok(());
    }
    let copy = list.items[at].clone()?;
    replace_at(&mut logs[0], list, at, copy)
}

// A log whose memory the next one may take: the oldest, where there are as many as may be, or the spare one.
fn old_log<T: Drop>(logs: &mut VecDeque<Log<T>>, spare: &mut Option<Log<T>>) -> Option<Log<T>>
    requires { deque_len logs.old ≤ VERSION_LIMIT }
    ensures rest { logs.new.items ≡ take (VERSION_LIMIT - 1) logs.old.items }
    ensures capacity { deque_capacity logs.new ≡ deque_capacity logs.old }
{
    if logs.len() == VERSION_LIMIT {
        return logs.pop_back();
    }
    mem::replace(spare, None)
}

// A log with room for more than this gives its memory back: so one change that moved much leaves none taken.
const MOST_KEPT: usize = 64;

// The log without what it has, unless it has room for much more than changes need as a rule.
fn cleared<T: Drop>(log: Log<T>) -> Option<Log<T>>
    ensures empty { IfSome result (λ l. l.replaced.items ≡ []) }
    ensures whole { IfSome result (λ l. l.removed.items ≡ []) }
{
    let mut log = log;
    if log.replaced.capacity() > MOST_KEPT || log.removed.capacity() > MOST_KEPT {
        return None;
    }
    log.replaced.clear();
    log.removed.clear();
    Some(log)
}

/// An empty log, with memory that there is.
pub fn empty_log<T: Drop>(
    logs: &mut VecDeque<Log<T>>,
    spare: &mut Option<Log<T>>,
    alloc: Global,
) -> Log<T>
    requires { deque_len logs.old ≤ VERSION_LIMIT }
    ensures empty { result.replaced.items ≡ [] }
    ensures whole { result.removed.items ≡ [] }
    ensures rest { logs.new.items ≡ take (VERSION_LIMIT - 1) logs.old.items }
    ensures capacity { deque_capacity logs.new ≡ deque_capacity logs.old }
{
    if let Some(old) = old_log(logs, spare) {
        if let Some(log) = cleared(old) {
            return log;
        }
    }
    Log {
        len: 0,
        replaced: Vec::new(alloc),
        removed: Vec::new(alloc),
    }
}

/// Whether a place came after the newest mark.
pub fn is_past<T>(logs: &VecDeque<Log<T>>, at: usize) -> bool
    ensures items { IsTrue result → (items : List T)
        → versions (remove items at) logs.now.items ≡ versions items logs.now.items }
    ensures slots { IsTrue result → (slots : List ℕ) → at < length slots
        → AreLogsOf slots logs.now.items → AreLogsOf (remove slots at) logs.now.items }
    ensures not_past { result ≡ false → IsMarked logs.now.items at }
{
    match logs.front() {
        Some(log) => log.len <= at,
        None => true,
    }
}

/// Takes the element at a place out, and puts it into the log.
pub fn take_out<T: Drop>(
    log: &mut Log<T>,
    list: &mut Slotted<T>,
    at: usize,
    alloc: Global,
) -> Result<(), OutOfMemory>
    requires item { at < length list.old.items.items }
    requires lengths { AreSlotted list.old }
    requires marked { at < log.old.len }
    ensures ok { OnOk result (list.new.items.items ≡ remove list.old.items.items at) }
    ensures err { OnErr result (list.new.items.items ≡ list.old.items.items) }
    ensures items { items_at log.new list.new.items.items ≡ items_at log.old list.old.items.items }
    ensures slots { slots_at log.new list.new.slots.items ≡ slots_at log.old list.old.slots.items }
    ensures lengths { AreSlotted list.new }
    ensures log { IsLogOf list.old.slots.items log.old → IsLogOf list.new.slots.items log.new }
    ensures room { KeepsRoom list.old list.new }
{
    log.removed.reserve(1)?;
    let element = Replaced {
        at,
        slot: list.slots.remove(at),
        value: list.items.remove(at),
    };
    let earlier = mem::replace(&mut log.replaced, Vec::new(alloc));
    log.removed.push_reserved(Removed { element, earlier });
    log.len -= 1;
    Ok(())
}

/// Gives back the elements that the log has, the last one first, and drops those that came after the mark.
pub fn restore<T: Drop>(log: Log<T>, list: &mut Slotted<T>)
    requires log { IsLogOf list.old.slots.items log }
    requires lengths { AreSlotted list.old }
    requires room { HasRoomFor (log.len + length log.removed.items) list.old }
    ensures items { list.new.items.items ≡ items_at log list.old.items.items }
    ensures slots { list.new.slots.items ≡ slots_at log list.old.slots.items }
    ensures room { KeepsRoom list.old list.new }
{
    let Log {
        len,
        replaced,
        mut removed,
    } = log;
    list.items.truncate(len);
    list.slots.truncate(len);
    give_back(replaced, list);
    while let Some(last) = removed.pop() {
        put_back(last, list);
    }
}

// Puts an element where it left, and gives back what was replaced before.
fn put_back<T: Drop>(removed: Removed<T>, list: &mut Slotted<T>)
    requires place { removed.element.at ≤ length list.old.items.items }
    requires places { All (λ r. r.at ≤ length list.old.items.items) removed.earlier.items }
    requires lengths { AreSlotted list.old }
    requires room { HasRoomFor (length list.old.items.items + 1) list.old }
    ensures items { list.new.items.items ≡ undo (λ r. r.value) removed.earlier.items
        (insert list.old.items.items removed.element.at removed.element.value) }
    ensures slots { list.new.slots.items ≡ undo (λ r. r.slot) removed.earlier.items
        (insert list.old.slots.items removed.element.at removed.element.slot) }
    ensures room { KeepsRoom list.old list.new }
{
    let Removed { element, earlier } = removed;
    let Replaced { at, slot, value } = element;
    let _placed = list.items.insert(at, value);
    let _found = list.slots.insert(at, slot);
    give_back(earlier, list);
}

// Gives back what was replaced, the last one first.
fn give_back<T: Drop>(mut replaced: Vec<Replaced<T>>, list: &mut Slotted<T>)
    requires places { All (λ r. r.at < length list.old.items.items) replaced.items }
    requires lengths { AreSlotted list.old }
    ensures items { list.new.items.items ≡ undo (λ r. r.value) replaced.items list.old.items.items }
    ensures slots { list.new.slots.items ≡ undo (λ r. r.slot) replaced.items list.old.slots.items }
    ensures room { KeepsRoom list.old list.new }
{
    while let Some(last) = replaced.pop() {
        list.slots[last.at] = last.slot;
        list.items[last.at] = last.value;
    }
}
