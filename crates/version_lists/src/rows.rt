//! A sparse matrix of rows in lowest terms, with an index of its columns and with earlier versions.
//!
//! An [`IndexedRows`] has slots `0, 1, ..`, which never move. A slot has a row, which may be empty, and is
//! itself a column of the rows: [`IndexedRows::row`] gives the row of a slot, and [`IndexedRows::column`] the
//! slots of the rows in which a slot stands as a column, rising. [`IndexedRows::put`] replaces a row and
//! costs what it changes: one walk over the old and the new row, and for each column that only one of them
//! has a binary search in the column's list. From a mark on, a list is cloned at its first change, with
//! room for some slots more, and the row that a put replaces is moved.
//!
//! [`IndexedRows::mark`] keeps the rows of now as an earlier version, and [`IndexedRows::back`] returns to
//! the newest of these. Neither wants memory. Where a `put` or a `push` wants memory that isn't there, the
//! rows go back to the newest mark, which stays, so what was done since then is lost, and no more.
//!
//! A contract sees the rows of now and, the newest first, those of the versions `before`; the index isn't
//! seen. What the type keeps (`AreIndexed`): now and at each mark there is a list for each slot, which rises
//! and has exactly the slots of the rows with a number that is not 0 at that column.
//!
//! ```
//! let mut rows = IndexedRows::new(alloc)?;
//! rows.push(IntRow::of(alloc, &[])?)?;        // slot 0, whose row is empty
//! rows.push(IntRow::of(alloc, &[Entry { col: Col(0), by: 3 }, Entry { col: Col(1), by: 2 }])?)?;
//! rows.column(0);                             // [1]
//! rows.mark();
//! rows.put(1, IntRow::of(alloc, &[])?)?;
//! rows.column(0);                             // []
//! rows.back();
//! rows.column(0);                             // [1]
//! ```
//!
//! To read: `list` edits the list of one column, `lists` walks over an old and a new row and edits the lists
//! where they differ, and this file keeps rows and lists together.

ghost use Rattle.std.specs.Prelude.{ℕ, ◌≡◌, ◌+◌, ◌-◌, ◌<◌, ◌≤◌, ◌==◌, ◌^◌, ◌∷◌, ◌++◌, [], length, take, All};
ghost use Rattle.std.specs.Prelude.{IfOk, OnOk, OnErr, slice_get, slice_set, slice_index_or};
ghost use Rattle.frac_core.specs.Fraction.{IsFitting};
ghost use Rattle.row_core.specs.Rows.{IsKeptRow, coefficient};
ghost use Rattle.version_lists.specs.declared.versions.TheConstants.{VERSION_LIMIT};
ghost use Rattle.version_lists.specs.Indexes.{AreIndexed, IsColumnOf, IsIndexOf, row_at};
ghost use Rattle.version_lists.specs.Matrices.{IsBelow};

mod list;
mod lists;

use crate::versions::VersionList;
use frac_core::OutOfMemory;
use list::Column;
use lists::{RowChange, relist};
use row_core::{Col, IntRow};
use std::alloc::Global;
use std::marker::Model;

/// Rows by slot, with an index of their columns and earlier versions.
#[derive(Drop)]
pub struct IndexedRows {
    rows: VersionList<IntRow>,
    // For each slot the rows in which it stands as a column.
    lists: VersionList<Column>,
    alloc: Global,
}

impl Model for IndexedRows {
    ghost use Rattle.version_lists.specs.Matrices.{Matrices};
    ghost use Rattle.version_lists.specs.Indexes.{AreIndexed};

    ghost Value = { Matrices };

    ghost view = { λ m. record { rows = m.rows.items; before = m.rows.before } };

    ghost invariant = { λ m. AreIndexed m.rows m.lists };
}

// Replaces the row of a slot, and brings the lists up to date.
fn replace(
    rows: &mut VersionList<IntRow>,
    lists: &mut VersionList<Column>,
    w: u32,
    row: IntRow,
) -> Result<(), OutOfMemory>
    requires slot { w < length rows.old.items }
    requires columns { IsBelow (length rows.old.items) row }
    requires indexed { IsIndexOf rows.old.items lists.old.items }
    ensures ok { OnOk result (rows.new.items ≡ slice_set rows.old.items w row) }
    ensures indexed { OnOk result (IsIndexOf rows.new.items lists.new.items) }
    ensures rows_before { rows.new.before ≡ rows.old.before }
    ensures lists_before { lists.new.before ≡ lists.old.before }
{
    let change = RowChange {
        w,
        old: rows.get(w as usize).entries(),
        new: row.entries(),
    };
    relist(lists, &change)?;
    rows.put(w as usize, row)
}

// Appends a row with its slot.
fn append(
    rows: &mut VersionList<IntRow>,
    lists: &mut VersionList<Column>,
    alloc: Global,
    row: IntRow,
) -> Result<(), OutOfMemory>
    requires room { length rows.old.items < 2 ^ 32 }
    requires columns { IsBelow (length rows.old.items + 1) row }
    requires indexed { IsIndexOf rows.old.items lists.old.items }
    ensures ok { OnOk result (rows.new.items ≡ rows.old.items ++ row ∷ []) }
    ensures indexed { OnOk result (IsIndexOf rows.new.items lists.new.items) }
    ensures rows_before { rows.new.before ≡ rows.old.before }
    ensures lists_before { lists.new.before ≡ lists.old.before }
{
    let w = rows.len() as u32;
    lists.push(Column::new(alloc))?;
    let change = RowChange {
        w,
        old: &[],
        new: row.entries(),
    };
    relist(lists, &change)?;
    rows.push(row)
}

// Takes the slots from one on out, whose rows are empty and which stand in no row.
fn cut(
    rows: &mut VersionList<IntRow>,
    lists: &mut VersionList<Column>,
    len: usize,
) -> Result<(), OutOfMemory>
    requires within { len ≤ length rows.old.items }
    requires empty { (w : ℕ) → len ≤ w → row_at rows.old.items w ≡ [] }
    requires below { All (IsBelow len) rows.old.items }
    requires indexed { IsIndexOf rows.old.items lists.old.items }
    ensures ok { OnOk result (rows.new.items ≡ take len rows.old.items) }
    ensures indexed { OnOk result (IsIndexOf rows.new.items lists.new.items) }
    ensures rows_before { rows.new.before ≡ rows.old.before }
    ensures lists_before { lists.new.before ≡ lists.old.before }
{
    rows.truncate(len)?;
    lists.truncate(len)
}

impl IndexedRows {
    /// No rows, and no earlier version. It has all the memory that `mark` will want.
    pub fn new(alloc: Global) -> Result<IndexedRows, OutOfMemory>
        ensures { IfOk result (λ m. m ≡ record { rows = []; before = [] }) }
    {
        IndexedRows::with_room(alloc, 0)
    }

    /// The same with memory for so many slots, what their rows take left out.
    pub fn with_room(alloc: Global, room: usize) -> Result<IndexedRows, OutOfMemory>
        ensures { IfOk result (λ m. m ≡ record { rows = []; before = [] }) }
    {
        Ok(IndexedRows {
            rows: VersionList::with_room(alloc, room)?,
            lists: VersionList::with_room(alloc, room)?,
            alloc,
        })
    }

    /// How many slots there are now.
    pub fn len(&self) -> usize
        ensures { result ≡ length self.now.rows }
    {
        self.rows.len()
    }

    /// Whether there is no slot now.
    pub fn is_empty(&self) -> bool
        ensures { result ≡ (length self.now.rows == 0) }
    {
        self.rows.is_empty()
    }

    /// How many earlier versions there are.
    pub fn earlier(&self) -> usize
        ensures count { result ≡ length self.now.before }
        ensures most { result ≤ VERSION_LIMIT }
    {
        self.rows.earlier()
    }

    /// The row of a slot.
    pub fn row(&self, w: u32) -> &IntRow
        requires { w < length self.now.rows }
        ensures value { slice_get self.now.rows w ≡ Some result.now }
        ensures kept { IsKeptRow result.now }
        ensures columns { IsBelow (length self.now.rows) result.now }
    {
        let row = self.rows.get(w as usize);
        let _entries = row.entries(); // for the proof: what a row keeps
        row
    }

    /// The number of a row at a column.
    pub fn entry(&self, w: u32, c: u32) -> i64
        requires { w < length self.now.rows }
        ensures value { result ≡ coefficient c (row_at self.now.rows w) }
        ensures fits { IsFitting result }
    {
        self.rows.get(w as usize).entry(Col(u64::from(c)))
    }

    /// The slots of the rows in which the column stands, rising.
    pub fn column(&self, c: u32) -> &[u32]
        requires { c < length self.now.rows }
        ensures value { IsColumnOf self.now.rows c result.now }
        ensures slots { All (λ w. w < length self.now.rows) result.now }
    {
        self.lists.get(c as usize).slots.as_slice()
    }

    /// Puts a row in the place of a slot's. After want of memory the rows are as after `rewind`.
    pub fn put(&mut self, w: u32, row: IntRow) -> Result<(), OutOfMemory>
        requires slot { w < length self.old.rows }
        requires columns { IsBelow (length self.old.rows) row }
        ensures ok { OnOk result (self.new.rows ≡ slice_set self.old.rows w row) }
        ensures err { OnErr result (self.new.rows ≡ slice_index_or self.old.before 0 []) }
        ensures before { self.new.before ≡ self.old.before }
    {
        let done = replace(&mut self.rows, &mut self.lists, w, row);
        if done.is_err() {
            self.rows.rewind();
            self.lists.rewind();
        }
        done
    }

    /// Appends a slot with its row, which may stand at its own slot. After want of memory the rows are as
    /// after `rewind`.
    pub fn push(&mut self, row: IntRow) -> Result<(), OutOfMemory>
        requires room { length self.old.rows < 2 ^ 32 }
        requires columns { IsBelow (length self.old.rows + 1) row }
        ensures ok { OnOk result (self.new.rows ≡ self.old.rows ++ row ∷ []) }
        ensures err { OnErr result (self.new.rows ≡ slice_index_or self.old.before 0 []) }
        ensures before { self.new.before ≡ self.old.before }
    {
        let done = append(&mut self.rows, &mut self.lists, self.alloc, row);
        if done.is_err() {
            self.rows.rewind();
            self.lists.rewind();
        }
        done
    }

    /// Takes the slots from one on out, whose rows are empty and which stand in no row. After want of memory
    /// the rows are as after `rewind`.
    pub fn truncate(&mut self, len: usize) -> Result<(), OutOfMemory>
        requires within { len ≤ length self.old.rows }
        requires empty { (w : ℕ) → len ≤ w → row_at self.old.rows w ≡ [] }
        requires below { All (IsBelow len) self.old.rows }
        ensures ok { OnOk result (self.new.rows ≡ take len self.old.rows) }
        ensures err { OnErr result (self.new.rows ≡ slice_index_or self.old.before 0 []) }
        ensures before { self.new.before ≡ self.old.before }
    {
        let done = cut(&mut self.rows, &mut self.lists, len);
        if done.is_err() {
            self.rows.rewind();
            self.lists.rewind();
        }
        done
    }

    /// Makes the rows of now the newest earlier version, and forgets the oldest where there are too many.
    pub fn mark(&mut self)
        ensures rows { self.new.rows ≡ self.old.rows }
        ensures before { self.new.before ≡ take VERSION_LIMIT (self.old.rows ∷ self.old.before) }
    {
        self.rows.mark();
        self.lists.mark();
    }

    /// Goes back to the newest earlier version.
    pub fn back(&mut self)
        requires { 0 < length self.old.before }
        ensures { self.old.before ≡ self.new.rows ∷ self.new.before }
    {
        self.rows.back();
        self.lists.back();
    }

    /// Takes back what was done since the newest mark, which stays. Without a mark no slot is left.
    pub fn rewind(&mut self)
        ensures rows { self.new.rows ≡ slice_index_or self.old.before 0 [] }
        ensures before { self.new.before ≡ self.old.before }
    {
        self.rows.rewind();
        self.lists.rewind();
    }

    /// Forgets the oldest earlier version.
    pub fn forget(&mut self)
        requires { 0 < length self.old.before }
        ensures rows { self.new.rows ≡ self.old.rows }
        ensures before { self.new.before ≡ take (length self.old.before - 1) self.old.before }
    {
        self.rows.forget();
        self.lists.forget();
    }
}
