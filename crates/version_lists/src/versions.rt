//! A list that can go back to earlier versions of itself.
//!
//! [`VersionList::mark`] keeps the elements of now as an earlier version, and [`VersionList::back`] returns
//! to the newest of these. Neither copies the list: from a mark on, an element that another takes the place
//! of moves into the mark's log, once for each place until an element leaves, and so does an element that
//! leaves. Going back truncates the list to what the mark had and moves them to their places again. It needs
//! no memory, since the list keeps what it had when it was as long.
//!
//! A contract sees a list as its `items` and, the newest first, the items of the versions `before`.
//!
//! | Call | Time |
//! |---|---|
//! | `put`, `push` | constant, beside what a growing `Vec` moves |
//! | `remove` | a move of each element behind the place |
//! | `truncate` | constant for each element that leaves |
//! | `edit` | a clone of the element where it was not written since the mark, and else constant |
//! | `mark`, `forget` | constant, beside dropping the log of the version that is forgotten |
//! | `back` | what was put, pushed and removed since the mark |
//! | `was` | constant, and else what was put and removed since the mark, if anything was removed |
//! | `written` | what was put and pushed since the mark, or the whole list, if anything was removed |
//!
//! ```
//! let mut names = VersionList::new(alloc)?;
//! names.push("a")?;
//! names.mark();
//! names.put(0, "b")?;
//! names.push("c")?;   // now "b", "c"
//! names.remove(0)?;   // now "c"
//! names.was(0);       // "a"
//! names.back();       // now "a"
//! ```
//!
//! What the type keeps (`IsSound`): from the elements of now the logs of the marks, the
//! newest first, give each earlier version.
//!
//! To read: `log` has elements with their slots and the log of one mark, this file the list, and `since` what
//! is read of the newest mark.

ghost use Rattle.std.specs.Borrow.{sem};
ghost use Rattle.std.specs.Prelude.{◌≡◌, ◌+◌, ◌-◌, ◌<◌, ◌≤◌, ◌==◌, [], ◌∷◌, ◌++◌, length, take, IfOk, OnOk};
ghost use Rattle.std.specs.Prelude.{OnErr, slice_get, slice_set, slice_index_or};
ghost use Rattle.std.specs.List.{remove};

mod log;
mod since;

use frac_core::OutOfMemory;
use log::{Log, Slotted, empty_log, is_kept, is_past, own, replace_at, restore, take_out};
use std::alloc::Global;
use std::collections::VecDeque;
use std::marker::Model;

/// The most earlier versions that a list keeps.
pub const VERSION_LIMIT: usize = 33;

/// A list with its earlier versions, of which a mark past [`VERSION_LIMIT`] forgets the oldest.
#[derive(Drop)]
pub struct VersionList<T> {
    list: Slotted<T>,
    // The newest first.
    logs: VecDeque<Log<T>>,
    // One that was forgotten, whose memory the next one takes.
    spare: Option<Log<T>>,
    alloc: Global,
}

impl<T> Model for VersionList<T> {
    ghost use Rattle.std.specs.VecDeque.{deque_capacity};
    ghost use Rattle.version_lists.specs.Versions.{Versions, versions_code};

    ghost Value = { Versions T };

    ghost coded = { versions_code T.code };

    ghost use Rattle.version_lists.specs.Undo.{versions, IsSound};

    ghost view = { λ s. record {
      items = s.list.items.items;
      before = versions s.list.items.items s.logs.items;
    } };

    ghost invariant = { λ s. IsSound s.list s.logs.items (deque_capacity s.logs) };
}

impl<T> VersionList<T> {
    /// A list with no elements and no earlier version. It has all the memory that `mark` will want.
    pub fn new(alloc: Global) -> Result<VersionList<T>, OutOfMemory>
        ensures { IfOk result (λ list. list ≡ record { items = []; before = [] }) }
    {
        let logs = VecDeque::with_capacity(alloc, VERSION_LIMIT)?;
        let list = Slotted {
            items: Vec::new(alloc),
            slots: Vec::new(alloc),
        };
        Ok(VersionList {
            list,
            logs,
            spare: None,
            alloc,
        })
    }

    /// How many elements there are now.
    pub fn len(&self) -> usize
        ensures { result ≡ length self.now.items }
    {
        self.list.items.len()
    }

    /// Whether there is no element now.
    pub fn is_empty(&self) -> bool
        ensures { result ≡ (length self.now.items == 0) }
    {
        self.list.items.is_empty()
    }

    /// How many earlier versions there are.
    pub fn earlier(&self) -> usize
        ensures count { result ≡ length self.now.before }
        ensures most { result ≤ VERSION_LIMIT }
    {
        self.logs.len()
    }

    /// The elements of now.
    pub fn as_slice(&self) -> &[T]
        ensures { result.now ≡ self.now.items }
    {
        self.list.items.as_slice()
    }

    /// The element at a place.
    pub fn get(&self, i: usize) -> &T
        requires { i < length self.now.items }
        ensures { slice_get self.now.items i ≡ Some result.now }
    {
        &self.list.items[i]
    }
}

impl<T: Drop> VersionList<T> {
    /// The same as `new` with memory for so many elements.
    pub fn with_room(alloc: Global, room: usize) -> Result<VersionList<T>, OutOfMemory>
        ensures { IfOk result (λ list. list ≡ record { items = []; before = [] }) }
    {
        let logs = VecDeque::with_capacity(alloc, VERSION_LIMIT)?;
        let list = Slotted {
            items: Vec::with_capacity(alloc, room)?,
            slots: Vec::with_capacity(alloc, room)?,
        };
        Ok(VersionList {
            list,
            logs,
            spare: None,
            alloc,
        })
    }

    /// Puts a value in the place of an element. After want of memory the list is as before.
    pub fn put(&mut self, i: usize, value: T) -> Result<(), OutOfMemory>
        requires { i < length self.old.items }
        ensures ok { OnOk result (self.new.items ≡ slice_set self.old.items i value) }
        ensures before { self.new.before ≡ self.old.before }
        ensures err { OnErr result (self.new ≡ self.old) }
    {
        if is_kept(&self.logs, self.list.slots[i], i) {
            self.list.items[i] = value;
            return Ok(());
        }
        replace_at(&mut self.logs[0], &mut self.list, i, value)
    }

    /// Puts a value behind the last element. After want of memory the list is as before.
    pub fn push(&mut self, value: T) -> Result<(), OutOfMemory>
        ensures ok { OnOk result (self.new.items ≡ self.old.items ++ value ∷ []) }
        ensures before { self.new.before ≡ self.old.before }
        ensures err { OnErr result (self.new ≡ self.old) }
    {
        self.list.items.reserve(1)?;
        self.list.slots.reserve(1)?;
        self.list.items.push_reserved(value);
        self.list.slots.push_reserved(0);
        Ok(())
    }

    /// Takes an element out. After want of memory the list is as before.
    pub fn remove(&mut self, i: usize) -> Result<(), OutOfMemory>
        requires { i < length self.old.items }
        ensures ok { OnOk result (self.new.items ≡ remove self.old.items i) }
        ensures before { self.new.before ≡ self.old.before }
        ensures err { OnErr result (self.new ≡ self.old) }
    {
        if is_past(&self.logs, i) {
            self.list.items.remove(i);
            self.list.slots.remove(i);
            return Ok(());
        }
        take_out(&mut self.logs[0], &mut self.list, i, self.alloc)
    }

    /// Takes the elements from a place on out, the last one first. After want of memory some of them have
    /// left.
    pub fn truncate(&mut self, len: usize) -> Result<(), OutOfMemory>
        requires { len ≤ length self.old.items }
        ensures ok { OnOk result (self.new.items ≡ take len self.old.items) }
        ensures before { self.new.before ≡ self.old.before }
    {
        let mut count = self.len();
        while count > len {
            count -= 1;
            self.remove(count)?;
        }
        Ok(())
    }

    /// Makes the elements of now the newest earlier version, and forgets the oldest where there are too many.
    pub fn mark(&mut self)
        ensures items { self.new.items ≡ self.old.items }
        ensures before { self.new.before ≡ take VERSION_LIMIT (self.old.items ∷ self.old.before) }
    {
        let mut log = empty_log(&mut self.logs, &mut self.spare, self.alloc);
        log.len = self.list.items.len();
        self.logs.push_front_reserved(log);
    }

    /// Goes back to the newest earlier version.
    pub fn back(&mut self)
        requires { 0 < length self.old.before }
        ensures version { self.old.before ≡ self.new.items ∷ self.new.before }
    {
        if let Some(log) = self.logs.pop_front() {
            restore(log, &mut self.list);
        }
    }

    /// Takes back what was done since the newest mark, which stays. Without a mark the list ends empty.
    pub fn rewind(&mut self)
        ensures items { self.new.items ≡ slice_index_or self.old.before 0 [] }
        ensures before { self.new.before ≡ self.old.before }
    {
        if self.logs.is_empty() {
            self.list.items.clear();
            self.list.slots.clear();
        } else {
            self.back();
            self.mark();
        }
    }

    /// Forgets the oldest earlier version.
    pub fn forget(&mut self)
        requires { 0 < length self.old.before }
        ensures items { self.new.items ≡ self.old.items }
        ensures before { self.new.before ≡ take (length self.old.before - 1) self.old.before }
    {
        self.spare = self.logs.pop_back();
    }
}

impl<T: Clone + Drop> VersionList<T> {
    ghost use Rattle.version_lists.specs.Lending.{lends_item};
    ghost use Rattle.version_lists.specs.Versions.{IsOwn};

    /// The element at a place, to be written where it is. Its first `edit` since a mark clones it, and the
    /// clone takes its place. After want of memory the list is as before.
    // Inlined with `own`, since most calls find that the place was written before.
    #[inline(always)]
    pub fn edit(&mut self, i: usize) -> Result<&mut T, OutOfMemory>
        requires { i < length self.old.items }
        ensures* writes_back { sem 𝓛 (lends_item T.row self.entry i result) }
        ensures value { IfOk result (λ x. IsOwn T.is_clone self.old.items i x.now) }
    {
        own(&mut self.logs, &mut self.list, i)?;
        Ok(&mut self.list.items[i])
    }
}
