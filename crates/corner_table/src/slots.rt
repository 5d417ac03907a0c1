// The slots of lines, attributes and levels.
ghost use Rattle.std.specs.Prelude.{◌≡◌, ◌<◌, ◌≤◌, ◌-◌, ◌*◌, ◌↔◌};
ghost use Rattle.std.specs.Prelude.{ℕ, pos, cond, length, true, Any, Some, slice_index_or};
ghost use Rattle.frac_core.specs.Fraction.{IsFitting};
ghost use Rattle.problem_core.specs.Layout as layout;
ghost use Rattle.problem_core.specs.Layout.{HasStay};
ghost use Rattle.problem_core.specs.declared.limits.TheConstants.{REQUIRED};
ghost use Rattle.problem_core.specs.declared.parts.RowName as row_type;
ghost use Rattle.problem_core.specs.declared.parts.RowName.TheVariants as row_names;
ghost use Rattle.problem_core.specs.declared.parts.Level.TheVariants as level_names;
ghost use Rattle.problem_core.specs.declared.parts.Side as side_type;
ghost use Rattle.problem_core.specs.declared.stops.What.TheVariants as what_type;
ghost use Rattle.corner_view.specs.declared.types.Owner.TheVariants as owner_type;
ghost use Rattle.corner_table.specs.declared.table.TheConstants.{LEVELS};
ghost use Rattle.corner_table.specs.Tables as tables;
ghost use Rattle.corner_table.specs.Tables.{IsSign, entry, lists_of, problem_of};
ghost use Rattle.corner_table.specs.Invariants as invariants;
ghost use Rattle.corner_table.specs.Kept.{AreSlots, HasCost, IsHeld, IsKept, IsStayOwner, level_own};
ghost use Rattle.corner_view.specs.Seen.{IsLevelOf, IsNamed};
ghost use Rattle.corner_table.specs.Reads.LevelNumbers.{IsCounted, count_of, share_of, side_share, unit_at};
ghost use Rattle.corner_laws.specs.Runs.{other_side};
ghost use Rattle.corner_lines.specs.LineEquations.{sign_of};

use crate::table::{LEVELS, Priority, Slot, Table};
use corner_view::Owner;
use frac_core::Frac;
use problem_core::{Level, Mark, REQUIRED, Rel, RowName, Side, What};

/// The slot of an attribute.
pub fn attr_slot(table: &Table, attr: u32) -> u32
    requires slots { AreSlots (lists_of table.now) }
    requires attr { HasStay table.now.stays.items attr }
    ensures value { result ≡ tables.attr_slot (lists_of table.now) attr }
    ensures above { LEVELS ≤ result }
    ensures within { result < length table.now.slots.items }
{
    table.attr_slots.slot(attr)
}

/// The slot of a line; a stay's comes behind that of its attribute.
pub fn line_slot(table: &Table, row: RowName) -> u32
    requires slots { AreSlots (lists_of table.now) }
    requires row { IsNamed (problem_of (lists_of table.now)) row }
    ensures value { result ≡ tables.line_slot (lists_of table.now) row }
    ensures above { LEVELS ≤ result }
    ensures within { result < length table.now.slots.items }
{
    match row {
        RowName::Held(id) => table.row_slots.slot(id),
        RowName::Stay(attr) => attr_slot(table, attr) + 1,
    }
}

/// The place of a row among the rows.
pub fn row_place(table: &Table, id: u32) -> usize
    requires kept { IsKept (lists_of table.now) }
    requires held { Any (λ r. r.id ≡ id) table.now.rows.items }
    ensures within { result < length table.now.rows.items }
    ensures is { (r : layout.Row) → (slice_index_or table.now.rows.items result r).id ≡ id }
{
    table.rows.as_slice().partition_point(|row| row.id() < id)
}

/// The slot of an attribute, of a mark's line, or of a level's cost.
pub fn what_slot(table: &Table, what: What) -> u32
    requires slots { AreSlots (lists_of table.now) }
    requires what { IsHeld (problem_of (lists_of table.now)) what }
    ensures value { result ≡ tables.what_slot (lists_of table.now) what }
    ensures within { result < length table.now.slots.items }
{
    match what {
        What::Attr(attr) => attr_slot(table, attr),
        What::Mark(mark) => line_slot(table, mark.row),
        What::Level(level) => level_slot(table, level),
    }
}

/// The slot of a level: of a stay's that of the stay.
pub fn level_slot(table: &Table, level: Level) -> u32
    requires slots { AreSlots (lists_of table.now) }
    requires level { IsLevelOf (problem_of (lists_of table.now)) level }
    ensures value { result ≡ tables.level_slot (lists_of table.now) level }
    ensures within { result < length table.now.slots.items }
{
    match level {
        Level::Priority(rank) => u32::from(REQUIRED - rank),
        Level::Stay(attr) => attr_slot(table, attr) + 1,
    }
}

/// What does not change of a slot.
pub fn slot_at(table: &Table, w: u32) -> Slot
    requires { w < length table.now.slots.items }
    ensures { result ≡ tables.slot_at (lists_of table.now) w }
{
    *table.slots.get(w as usize)
}

/// The unit of a priority level, and how many rows it has.
pub fn priority_at(table: &Table, level: u32) -> Priority
    requires slots { AreSlots (lists_of table.now) }
    requires level { level < LEVELS }
    ensures { result ≡ tables.priority_at (lists_of table.now) level }
{
    *table.priorities.get(level as usize)
}

/// The number of a slot's row at the slot itself.
pub fn own_of(table: &Table, w: u32) -> i64
    requires slots { AreSlots (lists_of table.now) }
    requires within { w < length table.now.slots.items }
    ensures value { result ≡ entry (lists_of table.now) w w }
    ensures fits { IsFitting result }
{
    table.matrix.entry(w, w)
}

/// The number of a level's row at its own slot, 1 where the level has no row.
pub fn own_of_level(table: &Table, level: u32) -> i64
    requires slots { AreSlots (lists_of table.now) }
    requires level { level < LEVELS }
    ensures value { result ≡ level_own (lists_of table.now) level }
    ensures fits { IsFitting result }
{
    if priority_at(table, level).rows == 0 {
        1
    } else {
        own_of(table, level)
    }
}

/// Whether the slot is a priority level's.
pub fn is_level(w: u32) -> bool
    ensures { (result ≡ true) ↔ (w < LEVELS) }
{
    w < LEVELS
}

/// Whether the slot is a stay's.
pub fn is_stay(table: &Table, w: u32) -> bool
    requires { w < length table.now.slots.items }
    ensures { (result ≡ true) ↔ IsStayOwner (tables.slot_at (lists_of table.now) w).owner }
{
    matches!(slot_at(table, w).owner, Owner::Line(RowName::Stay(_)))
}

/// The priority level of a slot.
pub fn priority_level(w: u32) -> Level
    requires { w ≤ REQUIRED }
    ensures { result ≡ level_names.Priority (REQUIRED - w) }
{
    Level::Priority(REQUIRED - w as u16)
}

/// The name of a level by its slot.
pub fn level_of(table: &Table, w: u32) -> Level
    requires slots { AreSlots (lists_of table.now) }
    requires within { w < length table.now.slots.items }
    requires home { HasCost (lists_of table.now) w }
    ensures slot { tables.level_slot (lists_of table.now) result ≡ w }
    ensures stay { (attr : ℕ)
        → (tables.slot_at (lists_of table.now) w).owner ≡ owner_type.Line (row_names.Stay attr)
        → result ≡ level_names.Stay attr }
    ensures priority { w < LEVELS → result ≡ level_names.Priority (REQUIRED - w) }
{
    match slot_at(table, w).owner {
        Owner::Line(RowName::Stay(attr)) => Level::Stay(attr),
        _ => priority_level(w),
    }
}

/// What an attribute's or a line's slot is of, with this side of a line.
pub fn what_at(table: &Table, w: u32, side: Side) -> What
    requires slots { AreSlots (lists_of table.now) }
    requires within { w < length table.now.slots.items }
    ensures attr { (attr : ℕ) → (tables.slot_at (lists_of table.now) w).owner ≡ owner_type.Attr attr
        → result ≡ what_type.Attr attr }
    ensures line { (name : row_type.RowName)
        → (tables.slot_at (lists_of table.now) w).owner ≡ owner_type.Line name
        → result ≡ what_type.Mark (record { row = name; side = side }) }
{
    match slot_at(table, w).owner {
        Owner::Level => What::Level(Level::Priority(REQUIRED)),
        Owner::Attr(attr) => What::Attr(attr),
        Owner::Line(row) => What::Mark(Mark { row, side }),
    }
}

/// The inside side of a line, if it has one.
pub fn side_at(table: &Table, w: u32) -> Option<Side>
    requires slots { AreSlots (lists_of table.now) }
    requires within { w < length table.now.slots.items }
    ensures { result ≡ (tables.standing_at (lists_of table.now) w).side }
{
    table.standings.get(w as usize).side
}

/// The value of a slot.
pub fn value_at(table: &Table, w: u32) -> Frac
    requires slots { AreSlots (lists_of table.now) }
    requires within { w < length table.now.slots.items }
    ensures { result ≡ (tables.standing_at (lists_of table.now) w).value }
{
    table.standings.get(w as usize).value
}

/// The inside side, over of what has none.
pub fn side_in(table: &Table, w: u32) -> Side
    requires slots { AreSlots (lists_of table.now) }
    requires within { w < length table.now.slots.items }
    ensures { (side : side_type.Side) → (tables.standing_at (lists_of table.now) w).side ≡ Some side
        → result ≡ side }
{
    side_at(table, w).unwrap_or(Side::Over)
}

/// The sign with which a mark counts in its line's deviation.
pub fn sign(side: Side) -> i64
    ensures value { result ≡ sign_of side }
    ensures sign { IsSign result }
{
    match side {
        Side::Under => -1,
        Side::Over => 1,
    }
}

/// The other side.
pub fn other(side: Side) -> Side
    ensures { result ≡ other_side side }
{
    match side {
        Side::Under => Side::Over,
        Side::Over => Side::Under,
    }
}

/// Whether a deviation to this side costs.
pub fn costs(rel: Rel, side: Side) -> bool
    ensures { (n : ℕ) → side_share rel side n ≡ cond result n 0 }
{
    match rel {
        Rel::Eq => true,
        Rel::Le => side == Side::Over,
        Rel::Ge => side == Side::Under,
    }
}

/// What a line counts in units of its level's cost; a stay's level has the unit 1.
pub fn share(slot: Slot, unit: i64) -> i64
    requires { IsCounted slot unit }
    ensures { result ≡ pos (share_of slot unit) }
{
    slot.weight * unit / slot.scale
}

/// The unit of the level of a line.
pub fn unit_of(table: &Table, slot: Slot) -> i64
    requires slots { AreSlots (lists_of table.now) }
    ensures priority { slot.home < LEVELS
        → result ≡ (tables.priority_at (lists_of table.now) slot.home).unit }
    ensures stay { LEVELS ≤ slot.home → result ≡ pos 1 }
    ensures level { result ≡ unit_at (lists_of table.now) slot.home }
{
    if is_level(slot.home) {
        priority_at(table, slot.home).unit
    } else {
        1
    }
}

/// What a mark counts in units of its level's cost.
pub fn cost_share(table: &Table, slot: Slot, side: Side) -> i64
    requires slots { AreSlots (lists_of table.now) }
    requires counted { IsCounted slot (unit_at (lists_of table.now) slot.home) }
    ensures { result ≡ pos (count_of (lists_of table.now) slot side) }
{
    if costs(slot.rel, side) {
        share(slot, unit_of(table, slot))
    } else {
        0
    }
}

/// The name of a slot's line, of an attribute's slot that of its stay, and of all else that of row 0.
pub fn name_at(table: &Table, w: u32) -> RowName
    requires { w < length table.now.slots.items }
    ensures { result ≡ invariants.name_of (tables.slot_at (lists_of table.now) w).owner }
{
    match slot_at(table, w).owner {
        Owner::Level => RowName::Held(0),
        Owner::Attr(attr) => RowName::Stay(attr),
        Owner::Line(row) => row,
    }
}
