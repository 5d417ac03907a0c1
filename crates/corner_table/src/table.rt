// The lists that a corner is kept in.
ghost use Rattle.std.specs.Prelude.{◌≡◌, ◌<◌, ◌≤◌, ◌-◌, ◌+◌, ◌^◌, [], ◌∷◌, List, false, length, take};
ghost use Rattle.std.specs.Prelude.{IfOk, IsTrue, OnOk};
ghost use Rattle.version_lists.specs.Matrices.{IsBelow};
ghost use Rattle.version_lists.specs.declared.versions.TheConstants.{VERSION_LIMIT};
ghost use Rattle.corner_table.specs.Tables.{Lists, lists_of};
ghost use Rattle.corner_table.specs.Histories.{AreAlike, HasSameHistory, lists_before};
ghost use Rattle.problem_core.specs.declared.limits.TheConstants.{ROW_LIMIT};
ghost use Rattle.corner_table.specs.Kept.{HasSlotsLeft, IsKept};
ghost use Rattle.corner_table.specs.Joining.{HasNoPast, with_level, with_slot};

use corner_view::Owner;
use frac_core::{Frac, OutOfMemory};
use problem_core::{FIRST_STAY_LEVEL, ROW_LIMIT, Rel, Row, RowName, Side, Stay};
use row_core::IntRow;
use std::alloc::Global;
use version_lists::{IndexedRows, NumberSlots, VersionList};

/// The first slots are those of the priority levels, by number; those from here on are in the order in
/// which they came.
pub const LEVELS: u32 = FIRST_STAY_LEVEL;

/// What the number of a stay's slot is above to be its own rank. Ranks that `put_first` of `corner` gives are
/// below it.
pub const OWN_RANK: u64 = 1 << 32;

// For so many slots there is memory from the start: those of the levels, and as many others.
const FIRST_ROOM: usize = 2 * LEVELS as usize;

/// So many slots of nothing there may be besides as many as there are of something.
pub const SPARE_SLOTS: u32 = 64;

/// The most slots that there are at a time.
pub const MOST_SLOTS: u32 = LEVELS + 2 * 3 * ROW_LIMIT as u32 + SPARE_SLOTS;

/// What an exchange does not change of a slot. The home is the slot of a line's level, a stay's own. The
/// rank, which only levels have, says which of two is stronger: the one of the lower rank. That of a priority
/// level is its number, and that of a stay's is its own, by its slot, until the stays come in another order.
/// Only lines have the rest.
#[derive(Clone, Copy, Debug, PartialEq, Eq)]
pub struct Slot {
    pub owner: Owner,
    pub home: u32,
    pub rank: u64,
    pub weight: i64,
    pub scale: i64,
    pub rel: Rel,
}

/// The side of a line that is inside, and the value of this mark, of an attribute or of a level's cost.
#[derive(Clone, Copy, Debug, PartialEq, Eq)]
pub struct Standing {
    pub side: Option<Side>,
    pub value: Frac,
}

/// The unit of a level's cost, and how many rows the level has.
#[derive(Clone, Copy, Debug, PartialEq, Eq)]
pub struct Priority {
    pub unit: i64,
    pub rows: u32,
}

/// The lists, each with as many earlier versions.
#[derive(Drop)]
pub struct Table {
    pub rows: VersionList<Row>,
    pub stays: VersionList<Stay>,
    pub slots: VersionList<Slot>,
    pub standings: VersionList<Standing>,
    pub matrix: IndexedRows,
    pub attr_slots: NumberSlots,
    pub row_slots: NumberSlots,
    pub priorities: VersionList<Priority>,
    pub alloc: Global,
}

/// The slots of the levels alone, none of which has a row.
pub fn new_table(alloc: Global) -> Result<Table, OutOfMemory>
    ensures past { IfOk result HasNoPast }
    ensures kept { IfOk result (λ t. IsKept (lists_of t)) }
    ensures rows { IfOk result (λ t. t.rows.items ≡ []) }
    ensures stays { IfOk result (λ t. t.stays.items ≡ []) }
    ensures slots { IfOk result (λ t. length t.slots.items ≡ LEVELS) }
{
    let mut table = Table {
        rows: VersionList::new(alloc)?,
        stays: VersionList::new(alloc)?,
        slots: VersionList::with_room(alloc, FIRST_ROOM)?,
        standings: VersionList::with_room(alloc, FIRST_ROOM)?,
        matrix: IndexedRows::with_room(alloc, FIRST_ROOM)?,
        attr_slots: NumberSlots::new(alloc)?,
        row_slots: NumberSlots::new(alloc)?,
        priorities: VersionList::with_room(alloc, LEVELS as usize)?,
        alloc,
    };
    for level in 0..LEVELS {
        push_level(&mut table, level)?;
    }
    Ok(table)
}

// Puts the slot of a level behind the last one, with no row.
fn push_level(table: &mut Table, level: u32) -> Result<(), OutOfMemory>
    requires room { length table.old.matrix.rows < 2 ^ 32 }
    ensures past { HasSameHistory table.old table.new }
    ensures lists { OnOk result (lists_of table.new ≡ with_level level (lists_of table.old)) }
{
    table.priorities.push(Priority { unit: 1, rows: 0 })?;
    let slot = Slot {
        owner: Owner::Level,
        home: level,
        rank: u64::from(level),
        weight: 1,
        scale: 1,
        rel: Rel::Eq,
    };
    let row = IntRow::empty(table.alloc);
    push_slot(table, slot, None, Frac::zero(), row)
}

/// Puts a slot behind the last one.
pub fn push_slot(
    table: &mut Table,
    slot: Slot,
    side: Option<Side>,
    value: Frac,
    row: IntRow,
) -> Result<(), OutOfMemory>
    requires room { length table.old.matrix.rows < 2 ^ 32 }
    requires columns { IsBelow (length table.old.matrix.rows + 1) row }
    ensures past { HasSameHistory table.old table.new }
    ensures lists { OnOk result (lists_of table.new
        ≡ with_slot slot (record { side = side; value = value }) row (lists_of table.old)) }
{
    table.slots.push(slot)?;
    table.standings.push(Standing { side, value })?;
    table.matrix.push(row)
}

/// The number of the next slot.
pub fn next_slot(table: &Table) -> u32
    requires { length table.now.slots.items ≤ MOST_SLOTS }
    ensures { result ≡ length table.now.slots.items }
{
    table.slots.len() as u32
}

/// Whether there may be one slot more only once those of nothing are gone.
pub fn is_crowded(table: &Table) -> bool
    requires stays { length table.now.stays.items ≤ ROW_LIMIT }
    requires rows { length table.now.rows.items ≤ ROW_LIMIT }
    ensures left { result ≡ false → HasSlotsLeft (lists_of table.now) }
    ensures crowded { IsTrue result → HasSlotsLeft (lists_of table.now) → ⊥ }
{
    let taken = 2 * table.stays.len() + table.rows.len();
    table.slots.len() > LEVELS as usize + 2 * taken + SPARE_SLOTS as usize
}

/// Makes the lists of now their newest earlier versions.
pub fn mark(table: &mut Table)
    requires { AreAlike table.old }
    ensures alike { AreAlike table.new }
    ensures now { lists_of table.new ≡ lists_of table.old }
    ensures before { lists_before table.new
        ≡ take VERSION_LIMIT (lists_of table.old ∷ lists_before table.old) }
{
    table.rows.mark();
    table.stays.mark();
    table.slots.mark();
    table.standings.mark();
    table.matrix.mark();
    table.attr_slots.mark();
    table.row_slots.mark();
    table.priorities.mark();
}

/// Goes back to the newest earlier versions.
pub fn back(table: &mut Table)
    requires alike { AreAlike table.old }
    requires marked { 0 < length table.old.rows.before }
    ensures alike { AreAlike table.new }
    ensures before { lists_before table.old ≡ lists_of table.new ∷ lists_before table.new }
{
    table.rows.back();
    table.stays.back();
    table.slots.back();
    table.standings.back();
    table.matrix.back();
    table.attr_slots.back();
    table.row_slots.back();
    table.priorities.back();
}

/// Forgets the oldest earlier versions.
pub fn forget(table: &mut Table)
    requires alike { AreAlike table.old }
    requires marked { 0 < length table.old.rows.before }
    ensures alike { AreAlike table.new }
    ensures now { lists_of table.new ≡ lists_of table.old }
    ensures before { lists_before table.new
        ≡ take (length table.old.rows.before - 1) (lists_before table.old) }
{
    table.rows.forget();
    table.stays.forget();
    table.slots.forget();
    table.standings.forget();
    table.matrix.forget();
    table.attr_slots.forget();
    table.row_slots.forget();
    table.priorities.forget();
}

/// Takes back what was done since the newest mark.
pub fn rewind(table: &mut Table)
    requires alike { AreAlike table.old }
    requires marked { 0 < length table.old.rows.before }
    ensures alike { AreAlike table.new }
    ensures before { lists_before table.new ≡ lists_before table.old }
    ensures now { (rest : List Lists) × (lists_before table.old ≡ lists_of table.new ∷ rest) }
{
    table.rows.rewind();
    table.stays.rewind();
    table.slots.rewind();
    table.standings.rewind();
    table.matrix.rewind();
    table.attr_slots.rewind();
    table.row_slots.rewind();
    table.priorities.rewind();
}
