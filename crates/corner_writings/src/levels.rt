// What is read of the writings of the levels' costs.
pub(crate) mod fitting;
pub(crate) mod fronts;
pub(crate) mod growing;

ghost use Rattle.std.specs.Prelude.{◌≡◌, ◌⊎◌, ◌*ℤ◌, ◌<◌, ◌≤◌, length, All, AllPairs, Contains, IfSome};
ghost use Rattle.std.specs.Prelude.{IfNone, OnOk};
ghost use Rattle.std.specs.Prelude.{ℕ, [], None, Some, pos, true, false, ◌↔◌};
ghost use Rattle.frac_core.specs.Fraction.{IsFitting};
ghost use Rattle.problem_core.specs.declared.parts.Level as level_type;
ghost use Rattle.problem_core.specs.declared.parts.Side as side_type;
ghost use Rattle.problem_core.specs.Levels.{IsCostAt, IsLevelAt};
ghost use Rattle.corner_lines.specs.LineEquations.{sign_of};
ghost use Rattle.corner_writings.specs.Fitting as fitting;
ghost use Rattle.corner_table.specs.declared.table.TheConstants.{LEVELS, OWN_RANK};
ghost use Rattle.corner_table.specs.Reads.LevelNumbers as numbers;
ghost use Rattle.corner_table.specs.Reads.LevelNumbers.{IsCost, IsLevelSlot, IsLinesSlot, HasReducedAt};
ghost use Rattle.corner_table.specs.Reads.LevelNumbers.{IsFirstInColumn, IsFirstSlot, IsLevelThere};
ghost use Rattle.corner_table.specs.Reads.LevelNumbers.{IsCounted, IsNoneInColumn};
ghost use Rattle.corner_table.specs.Reads.LevelNumbers.{IsSlotOfLevel, IsSlotOfLine, own_at, unit_at};
ghost use Rattle.corner_table.specs.Kept as tables_kept;
ghost use Rattle.corner_table.specs.Kept.{AreSlots, HasCost, IsKept};
ghost use Rattle.corner_table.specs.Tables as tables;
ghost use Rattle.corner_table.specs.Tables.{lists_of, marks_at, problem_of};
ghost use Rattle.corner_view.specs.Seen.{IsInUse, IsLevelOf, IsMarkOf, IsStronger};
ghost use Rattle.corner_view.specs.Fronts.{HasNoFront, IsFoundOf, IsFrontOf};
ghost use Rattle.corner_writings.specs.Walks as walks;
ghost use Rattle.corner_writings.specs.Walks.{IsLevelRead, IsReducedThere};
ghost use Rattle.corner_writings.specs.declared.levels.Found as found_type;

use corner_table::{
    LEVELS, OWN_RANK, Slot, Table, cost_share, costs, is_level, is_stay, level_of, level_slot,
    line_slot, own_of, own_of_level, priority_at, priority_level, share, side_at, slot_at, unit_of,
    value_at,
};
use corner_view::Front;
use frac_core::{Frac, OutOfMemory};
use problem_core::{Level, Mark, Side};

/// The scale of the level at a slot.
pub fn scale_at(table: &Table, l: u32) -> i64
    requires kept { IsKept (lists_of table.now) }
    requires level { IsLevelSlot (lists_of table.now) l }
    ensures { result ≡ own_at (lists_of table.now) l *ℤ unit_at (lists_of table.now) l }
{
    level_own(table, l) * unit_of(table, slot_at(table, l))
}

/// The cost of the level at a slot.
pub fn cost_at(table: &Table, l: u32) -> Frac
    requires kept { IsKept (lists_of table.now) }
    requires level { IsLevelSlot (lists_of table.now) l }
    ensures { (k : ℕ) → IsSlotOfLevel (lists_of table.now) l k
        → IsCostAt (problem_of (lists_of table.now)) (marks_at (lists_of table.now)) k result }
{
    value_at(table, l)
}

// The number of a priority level's row, 1 where it has none. It stands first in the row, whose other columns
// are slots of lines.
fn priority_own(table: &Table, l: u32) -> i64
    requires kept { IsKept (lists_of table.now) }
    requires level { l < LEVELS }
    ensures value { result ≡ tables_kept.level_own (lists_of table.now) l }
    ensures fits { IsFitting result }
{
    match table.matrix.row(l).entries().first() {
        Some(e) if e.col.0 == u64::from(l) => e.by,
        _ => own_of_level(table, l),
    }
}

/// The number of the level's row, 1 where it has none.
pub(crate) fn level_own(table: &Table, l: u32) -> i64
    requires kept { IsKept (lists_of table.now) }
    requires level { IsLevelSlot (lists_of table.now) l }
    ensures value { result ≡ own_at (lists_of table.now) l }
    ensures fits { IsFitting result }
{
    if is_level(l) {
        priority_own(table, l)
    } else if side_at(table, l).is_some() {
        own_of(table, l)
    } else {
        1
    }
}

// The number with the sign of a mark of this side.
pub(crate) fn signed(side: Side, number: i64) -> i64
    requires { IsCost number }
    ensures value { result ≡ sign_of side *ℤ number }
    ensures small { IsCost result }
{
    match side {
        Side::Under => -number,
        Side::Over => number,
    }
}

// The number of an outside line in the row of the level at a slot.
fn outside_times(table: &Table, l: u32, line: u32) -> i64
    requires slots { AreSlots (lists_of table.now) }
    requires within { l < length table.now.slots.items }
    ensures value { result ≡ numbers.outside_times (lists_of table.now) l line }
    ensures fits { IsFitting result }
{
    if is_level(l) {
        return -table.matrix.entry(l, line);
    }
    match side_at(table, l) {
        Some(side) => -signed(side, table.matrix.entry(l, line)),
        None => 0,
    }
}

/// What a mark costs by itself at its line's level.
pub(crate) fn own_cost(table: &Table, slot: Slot, side: Side) -> i64
    requires kept { IsKept (lists_of table.now) }
    requires line { IsLinesSlot (lists_of table.now) slot }
    ensures value { result ≡ numbers.own_cost (lists_of table.now) slot side }
    ensures small { IsCost result }
{
    level_own(table, slot.home) * cost_share(table, slot, side)
}

/// The multiplier of a line at the level at a slot.
pub fn times_at(table: &Table, l: u32, line: u32) -> i64
    requires kept { IsKept (lists_of table.now) }
    requires level { IsLevelSlot (lists_of table.now) l }
    requires line { IsSlotOfLine (lists_of table.now) line }
    ensures value { result ≡ numbers.times_at (lists_of table.now) l line }
    ensures small { IsCost result }
{
    let Some(side) = side_at(table, line) else {
        return outside_times(table, l, line);
    };
    let slot = slot_at(table, line);
    if slot.home == l {
        -signed(side, own_cost(table, slot, side))
    } else {
        0
    }
}

/// The reduced cost of the mark of a line's slot at the level at a slot.
pub(crate) fn reduced_of(table: &Table, l: u32, line: u32, side: Side) -> i64
    requires kept { IsKept (lists_of table.now) }
    requires level { IsLevelSlot (lists_of table.now) l }
    requires line { IsSlotOfLine (lists_of table.now) line }
    ensures { result ≡ numbers.reduced_at (lists_of table.now) l line side }
{
    let slot = slot_at(table, line);
    let rest = signed(side, times_at(table, l, line));
    if slot.home == l {
        own_cost(table, slot, side) + rest
    } else {
        rest
    }
}

/// A level by its slot, with the number of its row and the unit of its cost.
#[derive(Clone, Copy)]
pub(crate) struct LevelRead {
    pub l: u32,
    pub own: i64,
    pub unit: i64,
}

/// The numbers of the level at a slot.
pub(crate) fn level_read(table: &Table, l: u32) -> LevelRead
    requires kept { IsKept (lists_of table.now) }
    requires level { IsLevelSlot (lists_of table.now) l }
    ensures slot { result.l ≡ l }
    ensures read { IsLevelRead (lists_of table.now) result }
{
    LevelRead {
        l,
        own: level_own(table, l),
        unit: unit_of(table, slot_at(table, l)),
    }
}

// What a mark of this side costs by itself, by its level's own number and unit.
fn cost_by(slot: Slot, side: Side, own: i64, unit: i64) -> i64
    requires counted { IsCounted slot unit }
    requires small { IsCost (walks.cost_by slot side own unit) }
    ensures value { result ≡ walks.cost_by slot side own unit }
    ensures small { IsCost result }
{
    if costs(slot.rel, side) {
        own * share(slot, unit)
    } else {
        0
    }
}

/// The reduced cost of the mark of a line's slot at a level, by the level's numbers.
pub(crate) fn reduced_by(table: &Table, read: LevelRead, line: u32, side: Side) -> i64
    requires kept { IsKept (lists_of table.now) }
    requires read { IsLevelRead (lists_of table.now) read }
    requires line { IsSlotOfLine (lists_of table.now) line }
    ensures { result ≡ numbers.reduced_at (lists_of table.now) read.l line side }
{
    let slot = slot_at(table, line);
    let rest = signed(side, times_at(table, read.l, line));
    if slot.home == read.l {
        cost_by(slot, side, read.own, read.unit) + rest
    } else {
        rest
    }
}

// Whether the line is inside and the level another one than its own, where its marks have no reduced cost.
fn costs_nothing(table: &Table, l: u32, line: u32) -> bool
    requires slots { AreSlots (lists_of table.now) }
    requires within { line < length table.now.slots.items }
    ensures { result ≡ true → (side : side_type.Side)
        → numbers.reduced_at (lists_of table.now) l line side ≡ pos 0 }
{
    match side_at(table, line) {
        Some(_) => slot_at(table, line).home != l,
        None => false,
    }
}

/// The reduced cost of a mark at the level at a slot.
pub fn reduced_at(table: &Table, l: u32, mark: Mark) -> i64
    requires kept { IsKept (lists_of table.now) }
    requires level { IsLevelSlot (lists_of table.now) l }
    requires mark { IsMarkOf (problem_of (lists_of table.now)) mark }
    ensures { result ≡ numbers.reduced_at (lists_of table.now) l
        (tables.line_slot (lists_of table.now) mark.row) mark.side }
{
    let line = line_slot(table, mark.row);
    if costs_nothing(table, l, line) {
        return 0;
    }
    reduced_of(table, l, line, mark.side)
}

// Whether the slot's row is the cost of a level.
pub(crate) fn has_cost(table: &Table, w: u32) -> bool
    requires { w < length table.now.slots.items }
    ensures { (result ≡ true) ↔ HasCost (lists_of table.now) w }
{
    is_level(w) || is_stay(table, w)
}

// The front with this reduced cost at the level of a slot.
pub(crate) fn front_at(table: &Table, l: u32, reduced: i64) -> Front
    requires kept { IsKept (lists_of table.now) }
    requires within { l < length table.now.slots.items }
    requires level { HasCost (lists_of table.now) l }
    ensures level { IsLevelThere (lists_of table.now) l result.level }
    ensures reduced { result.reduced ≡ reduced }
{
    Front {
        level: level_of(table, l),
        reduced,
    }
}

// The slot of a level at which a mark has a reduced cost, and this cost.
#[derive(Clone, Copy)]
struct Found {
    l: u32,
    reduced: i64,
}

// The slot with the mark's reduced cost at its level, where it has one there.
fn found_at(table: &Table, l: u32, line: u32, side: Side) -> Option<Found>
    requires kept { IsKept (lists_of table.now) }
    requires within { l < length table.now.slots.items }
    requires line { IsSlotOfLine (lists_of table.now) line }
    ensures slot { IfSome result (λ found. found.l ≡ l) }
    ensures some { IfSome result (IsReducedThere (lists_of table.now) line side) }
    ensures none { IfNone result (HasReducedAt (lists_of table.now) line side l → ⊥) }
{
    if !has_cost(table, l) {
        return None;
    }
    let reduced = reduced_of(table, l, line, side);
    if reduced == 0 {
        return None;
    }
    Some(Found { l, reduced })
}

// Which level of a slot is the stronger: that of the lower rank.
fn rank_at(table: &Table, w: u32) -> u64
    requires { w < length table.now.slots.items }
    ensures { result ≡ (tables.slot_at (lists_of table.now) w).rank }
{
    slot_at(table, w).rank
}

// Whether the slot's level is stronger than the one that is found so far.
fn is_before(table: &Table, l: u32, found: Option<Found>) -> bool
    requires within { l < length table.now.slots.items }
    requires found { IfSome found (λ best. best.l < length table.now.slots.items) }
    ensures yes { result ≡ true → IfSome found (λ best.
        (tables.slot_at (lists_of table.now) l).rank < (tables.slot_at (lists_of table.now) best.l).rank) }
    ensures no { result ≡ false → (best : found_type.Found) × (found ≡ Some best)
        × ((tables.slot_at (lists_of table.now) best.l).rank ≤ (tables.slot_at (lists_of table.now) l).rank) }
{
    match found {
        Some(best) => rank_at(table, l) < rank_at(table, best.l),
        None => true,
    }
}

// Whether each level of a later slot is weaker: the slot is a priority level's, or a stay's with its own
// rank.
pub(crate) fn ends_column(table: &Table, l: u32) -> bool
    requires { l < length table.now.slots.items }
    ensures yes { result ≡ true
        → (l < LEVELS) ⊎ (OWN_RANK ≤ (tables.slot_at (lists_of table.now) l).rank) }
    ensures no { result ≡ false → LEVELS ≤ l }
{
    is_level(l) || rank_at(table, l) >= OWN_RANK
}

// The slot of the strongest level in the line's column at which the mark has a reduced cost.
fn first_in_column(table: &Table, line: u32, side: Side) -> Option<Found>
    requires kept { IsKept (lists_of table.now) }
    requires line { IsSlotOfLine (lists_of table.now) line }
    ensures some { IfSome result (λ found. IsFirstInColumn (lists_of table.now) line side found.l) }
    ensures there { IfSome result (IsReducedThere (lists_of table.now) line side) }
    ensures none { IfNone result (IsNoneInColumn (lists_of table.now) line side) }
{
    let mut first = None;
    for l in table.matrix.column(line) {
        if is_before(table, *l, first) {
            if let Some(found) = found_at(table, *l, line, side) {
                if ends_column(table, *l) {
                    return Some(found);
                }
                first = Some(found);
            }
        }
    }
    first
}

// The slot of the strongest level at which the mark has a reduced cost. The line's own level may be that
// only where it is stronger than what its column has.
fn first_slot(table: &Table, line: u32, side: Side) -> Option<Found>
    requires kept { IsKept (lists_of table.now) }
    requires line { IsSlotOfLine (lists_of table.now) line }
    ensures some { IfSome result (λ found. IsFirstSlot (lists_of table.now) line side found.l) }
    ensures there { IfSome result (IsReducedThere (lists_of table.now) line side) }
    ensures none { IfNone result ((l : ℕ) → HasReducedAt (lists_of table.now) line side l → ⊥) }
{
    let home = slot_at(table, line).home;
    let first = first_in_column(table, line, side);
    if is_before(table, home, first) {
        if let Some(found) = found_at(table, home, line, side) {
            return Some(found);
        }
    }
    first
}

// The front of a mark of an inside line, whose marks cost at its own level alone.
fn own_front(table: &Table, mark: Mark, line: u32) -> Option<Front>
    requires kept { IsKept (lists_of table.now) }
    requires mark { IsMarkOf (problem_of (lists_of table.now)) mark }
    requires line { line ≡ tables.line_slot (lists_of table.now) mark.row }
    requires inside { (side : side_type.Side)
        × ((tables.standing_at (lists_of table.now) line).side ≡ Some side) }
    ensures { IsFoundOf (problem_of (lists_of table.now)) (marks_at (lists_of table.now)) mark result }
{
    let home = slot_at(table, line).home;
    let reduced = reduced_of(table, home, line, mark.side);
    if reduced == 0 {
        return None;
    }
    Some(front_at(table, home, reduced))
}

/// The front of a mark, which an inside one has not.
pub fn front_of(table: &Table, mark: Mark) -> Option<Front>
    requires kept { IsKept (lists_of table.now) }
    requires mark { IsMarkOf (problem_of (lists_of table.now)) mark }
    ensures some { IfSome result
        (IsFrontOf (problem_of (lists_of table.now)) (marks_at (lists_of table.now)) mark) }
    ensures none { IfNone result
        (HasNoFront (problem_of (lists_of table.now)) (marks_at (lists_of table.now)) mark) }
{
    let line = line_slot(table, mark.row);
    if side_at(table, line).is_some() {
        return own_front(table, mark, line);
    }
    let first = first_slot(table, line, mark.side)?;
    Some(front_at(table, first.l, first.reduced))
}

/// Whether the first level is stronger.
pub fn is_stronger(table: &Table, a: Level, b: Level) -> bool
    requires kept { IsKept (lists_of table.now) }
    requires a { IsLevelOf (problem_of (lists_of table.now)) a }
    requires b { IsLevelOf (problem_of (lists_of table.now)) b }
    ensures yes { result ≡ true → IsStronger (problem_of (lists_of table.now)) a b }
    ensures no { result ≡ false → (j k : ℕ) → IsLevelAt (problem_of (lists_of table.now)) a j
        → IsLevelAt (problem_of (lists_of table.now)) b k → k ≤ j }
{
    rank_at(table, level_slot(table, a)) < rank_at(table, level_slot(table, b))
}

/// An exchange by slots: a line enters with a side, and a line leaves.
#[derive(Clone, Copy, Debug, PartialEq, Eq)]
pub struct Pair {
    pub enter: u32,
    pub side: Side,
    pub leave: u32,
}

/// The side of a line after the exchange.
pub(crate) fn side_after(table: &Table, pair: Pair, line: u32) -> Option<Side>
    requires slots { AreSlots (lists_of table.now) }
    requires within { line < length table.now.slots.items }
    ensures { result ≡ fitting.side_after (lists_of table.now) pair line }
{
    if line == pair.enter {
        Some(pair.side)
    } else if line == pair.leave {
        None
    } else {
        side_at(table, line)
    }
}

/// The levels at which a row or a stay stands, strongest first.
pub fn used(table: &Table, out: &mut Vec<Level>) -> Result<(), OutOfMemory>
    requires kept { IsKept (lists_of table.now) }
    requires empty { out.old.items ≡ [] }
    ensures used { OnOk result (All (IsInUse (problem_of (lists_of table.now))) out.new.items) }
    ensures all { OnOk result ((level : level_type.Level)
        → IsInUse (problem_of (lists_of table.now)) level → Contains out.new.items level) }
    ensures order { OnOk result (AllPairs (IsStronger (problem_of (lists_of table.now))) out.new.items) }
{
    for level in 0..LEVELS {
        if priority_at(table, level).rows > 0 {
            out.push(priority_level(level))?;
        }
    }
    for stay in table.stays.as_slice() {
        out.push(Level::Stay(stay.attr))?;
    }
    Ok(())
}
