// A row that leaves the cost of its level.
ghost use Rattle.std.specs.Prelude.{◌≡◌, ◌≢◌, ◌<◌, ◌≤◌, ◌-ℤ◌, ◌*ℤ◌, ◌<ℤ◌, ℕ, pos, true, false};
ghost use Rattle.std.specs.Prelude.{unsigned_abs, [], ◌+◌, ◌-◌, Any, IfOk, IfErr};
ghost use Rattle.frac_core.specs.Fraction.{IsFitting};
ghost use Rattle.frac_core.specs.Fraction as fractions;
ghost use Rattle.row_core.specs.Rows.{IsKeptRow};
ghost use Rattle.row_core.specs.Combinations.{IsFactor};
ghost use Rattle.problem_core.specs.declared.limits.TheConstants.{REQUIRED};
ghost use Rattle.problem_core.specs.Layout as layout;
ghost use Rattle.problem_core.specs.Levels.{IsCostAt};
ghost use Rattle.problem_core.specs.Window.{zero_fraction};
ghost use Rattle.problem_core.specs.declared.parts.Level.TheVariants.{Priority as PriorityLevel};
ghost use Rattle.problem_core.specs.declared.parts.RowName.TheVariants.{Held};
ghost use Rattle.problem_core.specs.declared.stops.What.TheVariants.{Level as LevelOf};
ghost use Rattle.problem_core.specs.declared.stops.Quantity.TheVariants.{Plain};
ghost use Rattle.frac_core.specs.declared.memory.Stop.TheVariants.{Refused};
ghost use Rattle.corner_laws.specs.Lifts.{HasOneIn};
ghost use Rattle.corner_view.specs.Stops.{IsUnfitStop};
ghost use Rattle.corner_joins.specs.Additions.CostJoins.{IsLeastUnit};
ghost use Rattle.corner_table.specs.Kept.{AreSlots, IsKept};
ghost use Rattle.corner_leaving.specs.Leaving.{AreLeftFitting, HasMultiple, IsFittingLeft, IsLeaver};
ghost use Rattle.corner_leaving.specs.Leaving.{IsLeftRow};
ghost use Rattle.corner_leaving.specs.Leaving.{IsLeftStop, IsLeftUnit, IsLevelLeft, IsTimes, IsUnfitLeft};
ghost use Rattle.corner_leaving.specs.Leaving.{left_count, marks_left, problem_left};
ghost use Rattle.corner_table.specs.Tables as tables;
ghost use Rattle.corner_table.specs.Tables.{lists_of, marks_at};

use corner_exchange::{Change, named_row, named_sum, opposite};
use corner_joins::{common_factors, over, risen};
use corner_table::{
    Table, cost_share, line_slot, own_of, priority_at, priority_level, side_in, sign, slot_at,
    value_at,
};
use corner_writings::{
    Draft, Pair, SMALL_SCALE, are_small, does_line_fit, is_fitting, level_at, scale_of,
};
use frac_core::{Frac, Stop, common_divisor};
use problem_core::{Quantity, Row, RowName, Side, TableStop, What};
use row_core::{Col, Factors, IntRow, Patch, combine_but};
use std::alloc::Global;

/// A row that leaves: its number and slot, the side of its inside mark, and its level.
#[derive(Clone, Copy)]
pub struct Leaver {
    pub id: u32,
    pub line: u32,
    pub side: Side,
    pub level: u32,
}

/// What is left of a level: its row and cost, their unit, and how many rows it has.
#[derive(Drop)]
pub struct Left {
    pub change: Change,
    pub unit: i64,
    pub rows: u32,
}

/// The row with this number, which has a mark inside.
pub fn leaver_of(table: &Table, id: u32) -> Leaver
    requires slots { AreSlots (lists_of table.now) }
    requires held { (r : layout.Row) × (r.id ≡ id) × Any (λ s. s ≡ r) table.now.rows.items
        × HasOneIn (marks_at (lists_of table.now)) r }
    ensures leaver { (r : layout.Row) × IsLeaver (lists_of table.now) r result }
    ensures id { result.id ≡ id }
{
    let line = line_slot(table, RowName::Held(id));
    Leaver {
        id,
        line,
        side: side_in(table, line),
        level: slot_at(table, line).home,
    }
}

// The least unit in which the row's share is whole too.
fn more_unit(table: &Table, row: &Row, unit: i64) -> i64
    requires kept { IsKept (lists_of table.now) }
    requires held { Any (λ s. s ≡ row.now) table.now.rows.items }
    requires above { pos 0 <ℤ unit }
    requires fits { IsFitting unit }
    requires room { HasMultiple row.now unit }
    ensures above { pos 0 <ℤ result }
    ensures least { IsLeastUnit (tables.slot_at (lists_of table.now)
        (tables.line_slot (lists_of table.now) (Held row.now.id))) unit (unsigned_abs result) }
    ensures fits { IsFitting result }
{
    let slot = slot_at(table, line_slot(table, RowName::Held(row.id())));
    match risen(unit, slot) {
        Some(rise) => rise.unit,
        None => unreachable!(),
    }
}

// The least unit in which the shares of the level's other rows are whole.
fn rest_unit(table: &Table, leaver: Leaver) -> i64
    requires kept { IsKept (lists_of table.now) }
    requires leaver { (r : layout.Row) × IsLeaver (lists_of table.now) r leaver }
    ensures { IsLeftUnit (lists_of table.now) leaver result }
{
    let mut unit = 1;
    for row in table.rows.as_slice() {
        if level_at(row) == leaver.level && row.id() != leaver.id {
            unit = more_unit(table, row, unit);
        }
    }
    unit
}

// The unit of the level's cost without the row: as before where the row's share is whole in each unit.
fn left_unit(table: &Table, leaver: Leaver) -> i64
    requires kept { IsKept (lists_of table.now) }
    requires leaver { (r : layout.Row) × IsLeaver (lists_of table.now) r leaver }
    ensures { IsLeftUnit (lists_of table.now) leaver result }
{
    let slot = slot_at(table, leaver.line);
    let divisor = common_divisor(slot.scale, slot.weight);
    if divisor == slot.scale {
        priority_at(table, leaver.level).unit
    } else {
        rest_unit(table, leaver)
    }
}

// What the row's inside mark counts.
fn leaving_count(table: &Table, leaver: Leaver) -> i64
    requires kept { IsKept (lists_of table.now) }
    requires leaver { (r : layout.Row) × IsLeaver (lists_of table.now) r leaver }
    ensures value { result ≡ pos (left_count (lists_of table.now) leaver) }
    ensures fits { IsFitting result }
{
    cost_share(table, slot_at(table, leaver.line), leaver.side)
}

// What `k` times the level's own number grows by where its cost is taken so many times less.
fn growth(k: i128, own: i64, times: i64) -> i128
    requires k { IsFitting k }
    requires own { pos 0 <ℤ own }
    requires times { pos 0 <ℤ times }
    requires fits { IsFitting (own *ℤ times) }
    ensures value { result ≡ k *ℤ (own *ℤ (times -ℤ pos 1)) }
    ensures factor { IsFactor result }
{
    k * i128::from(own * (times - 1))
}

// How many times the unit before is this one.
fn times_of(table: &Table, leaver: Leaver, unit: i64) -> i64
    requires kept { IsKept (lists_of table.now) }
    requires leaver { (r : layout.Row) × IsLeaver (lists_of table.now) r leaver }
    requires unit { IsLeftUnit (lists_of table.now) leaver unit }
    ensures times { (times : ℕ) × (result ≡ pos times) × (0 < times)
        × IsTimes (lists_of table.now) leaver unit times }
    ensures fits { IsFitting (tables.entry (lists_of table.now) leaver.level leaver.level *ℤ result) }
{
    over(priority_at(table, leaver.level).unit, unit)
}

// The row of the level in this unit without the row.
fn left_row(table: &Table, leaver: Leaver, unit: i64, stop: TableStop) -> Result<IntRow, TableStop>
    requires kept { IsKept (lists_of table.now) }
    requires leaver { (r : layout.Row) × IsLeaver (lists_of table.now) r leaver }
    requires unit { IsLeftUnit (lists_of table.now) leaver unit }
    ensures ok { IfOk result (IsLeftRow (lists_of table.now) leaver (unsigned_abs unit)) }
    ensures kept { IfOk result IsKeptRow }
    ensures err { IfErr result (IsLeftStop (lists_of table.now) leaver stop) }
{
    let own = own_of(table, leaver.level);
    let count = leaving_count(table, leaver) * sign(leaver.side);
    let Factors { k, n } = common_factors(own, own_of(table, leaver.line), opposite(count));
    let but = Patch {
        without: Col(u64::from(leaver.line)),
        at: Col(u64::from(leaver.level)),
        extra: growth(k, own, times_of(table, leaver, unit)),
    };
    let level = table.matrix.row(leaver.level);
    let line = table.matrix.row(leaver.line);
    named_row(
        combine_but(table.alloc, level, line, Factors { k, n }, but),
        stop,
    )
}

// What the level costs without the row.
fn left_value(table: &Table, leaver: Leaver, stop: TableStop) -> Result<Frac, TableStop>
    requires kept { IsKept (lists_of table.now) }
    requires leaver { (r : layout.Row) × IsLeaver (lists_of table.now) r leaver }
    ensures ok { IfOk result (IsCostAt (problem_left (lists_of table.now) leaver)
        (marks_left (lists_of table.now) leaver) leaver.level) }
    ensures kept { IfOk result fractions.IsKept }
    ensures err { IfErr result (IsLeftStop (lists_of table.now) leaver stop) }
{
    let cost = value_at(table, leaver.level);
    let count = opposite(leaving_count(table, leaver));
    let unit = priority_at(table, leaver.level).unit;
    named_sum(cost, count, unit, value_at(table, leaver.line), stop)
}

// Whether the reduced costs of the level's other rows fit.
fn do_others_fit(table: &Table, draft: Draft, id: u32, new: &IntRow) -> bool
    requires kept { IsKept (lists_of table.now) }
    requires unit { pos 0 <ℤ draft.unit }
    requires unit_fits { IsFitting draft.unit }
    ensures fit { result ≡ true
        → AreLeftFitting (lists_of table.now) draft new.now id table.now.rows.items }
    ensures unfit { result ≡ false
        → AreLeftFitting (lists_of table.now) draft new.now id table.now.rows.items → ⊥ }
{
    for row in table.rows.as_slice() {
        if level_at(row) == draft.level && row.id() != id {
            let line = line_slot(table, RowName::Held(row.id()));
            if !does_line_fit(table, draft, new, line) {
                return false;
            }
        }
    }
    true
}

// Whether the scale, the multipliers and the reduced costs of the level fit without the row.
fn does_left_fit(table: &Table, leaver: Leaver, unit: i64, row: &IntRow) -> bool
    requires kept { IsKept (lists_of table.now) }
    requires leaver { (r : layout.Row) × IsLeaver (lists_of table.now) r leaver }
    requires unit { pos 0 <ℤ unit }
    requires unit_fits { IsFitting unit }
    ensures fits { result ≡ true → IsFittingLeft (lists_of table.now) leaver unit row.now }
    ensures unfit { result ≡ false → IsUnfitLeft (lists_of table.now) leaver unit row.now }
{
    let draft = Draft {
        level: leaver.level,
        unit,
        pair: Pair {
            enter: leaver.line,
            side: leaver.side,
            leave: leaver.line,
        },
        rows: 0,
    };
    let scale = scale_of(draft, row);
    if !is_fitting(scale) {
        return false;
    }
    if scale < SMALL_SCALE && are_small(row.entries()) {
        return true;
    }
    do_others_fit(table, draft, leaver.id, row)
}

// The stop that names the cost of the level.
fn level_stop(level: u32) -> TableStop
    requires { level ≤ REQUIRED }
    ensures { result ≡ Refused (Plain (LevelOf (PriorityLevel (REQUIRED - level)))) }
{
    Stop::Refused(Quantity::Plain(What::Level(priority_level(level))))
}

// A level without rows.
fn no_level(alloc: Global, level: u32) -> Left
    ensures at { result.change.at ≡ level }
    ensures row { result.change.row ≡ [] }
    ensures value { result.change.value ≡ zero_fraction }
    ensures unit { result.unit ≡ pos 1 }
    ensures rows { result.rows ≡ 0 }
{
    let change = Change {
        at: level,
        row: IntRow::empty(alloc),
        value: Frac::zero(),
    };
    Left {
        change,
        unit: 1,
        rows: 0,
    }
}

// The rest of a level that has other rows.
fn rest_level(table: &Table, leaver: Leaver, rows: u32, stop: TableStop) -> Result<Left, TableStop>
    requires kept { IsKept (lists_of table.now) }
    requires leaver { (r : layout.Row) × IsLeaver (lists_of table.now) r leaver }
    requires rows { rows + 1 ≡ (tables.priority_at (lists_of table.now) leaver.level).rows }
    requires some { rows ≢ 0 }
    ensures ok { IfOk result (IsLevelLeft (lists_of table.now) leaver) }
    ensures err { IfErr result (IsLeftStop (lists_of table.now) leaver stop) }
{
    let unit = left_unit(table, leaver);
    let row = left_row(table, leaver, unit, stop)?;
    let value = left_value(table, leaver, stop)?;
    if !does_left_fit(table, leaver, unit, &row) {
        return Err(stop);
    }
    let at = leaver.level;
    Ok(Left {
        change: Change { at, row, value },
        unit,
        rows,
    })
}

/// What is left of the row's level, unless it does not fit.
pub fn left_level(table: &Table, leaver: Leaver) -> Result<Left, TableStop>
    requires kept { IsKept (lists_of table.now) }
    requires leaver { (r : layout.Row) × IsLeaver (lists_of table.now) r leaver }
    ensures ok { IfOk result (IsLevelLeft (lists_of table.now) leaver) }
    ensures stop { IfErr result (IsUnfitStop (problem_left (lists_of table.now) leaver)
        (marks_left (lists_of table.now) leaver)) }
{
    let rows = priority_at(table, leaver.level).rows - 1;
    if rows == 0 {
        return Ok(no_level(table.alloc, leaver.level));
    }
    rest_level(table, leaver, rows, level_stop(leaver.level))
}
