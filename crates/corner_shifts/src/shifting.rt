// A row's constant changes, and what moves with it.
ghost use Rattle.std.specs.Prelude.{All, ◌≡◌, ◌<◌, ◌<ℤ◌, pos, negsuc, length, slice_index_or, IfOk};
ghost use Rattle.std.specs.Prelude.{IfErr, OnOk};
ghost use Rattle.std.specs.Prelude.{Some, None};
ghost use Rattle.frac_core.specs.Fraction as fraction;
ghost use Rattle.frac_core.specs.Fraction.{Fraction, IsFitting, IsRatio, sum_den, sum_num};
ghost use Rattle.problem_core.specs.Layout as layout;
ghost use Rattle.problem_core.specs.Kept.{IsRow};
ghost use Rattle.problem_core.specs.declared.parts.RowName as row_type;
ghost use Rattle.problem_core.specs.declared.stops.What as what_type;
ghost use Rattle.corner_lines.specs.Shifts.{has_constant};
ghost use Rattle.corner_view.specs.declared.types.Owner.TheVariants.{Line as LineSlot};
ghost use Rattle.corner_table.specs.declared.table.TheConstants.{LEVELS};
ghost use Rattle.corner_table.specs.Histories.{AreAlike, lists_before};
ghost use Rattle.corner_table.specs.Kept.{AreSlots, IsKept, IsSlot};
ghost use Rattle.corner_table.specs.Reads.LevelNumbers.{IsSlotOfLine};
ghost use Rattle.corner_shifts.specs.Shifting as shifting;
ghost use Rattle.corner_shifts.specs.Shifting.{CanGrow, HaveGrown, IsGrowStop, IsGrown, IsGrowth, sign_at};
ghost use Rattle.corner_shifts.specs.Shifting.{IsGrownValueStop};
ghost use Rattle.corner_view.specs.Changes.{IsNear};
ghost use Rattle.corner_shifts.specs.Shifting.{IsShifted, IsShiftedStop, IsThere, mark_growth};
ghost use Rattle.corner_shifts.specs.Shifting.{outside_growth};
ghost use Rattle.corner_shifts.specs.Shifting.{with_constant_at};
ghost use Rattle.corner_table.specs.Tables as tables;
ghost use Rattle.corner_table.specs.Tables.{IsSign, lists_of, problem_of};

use corner_exchange::{opposite, put_value, with_signs};
use corner_table::{
    Table, cost_share, is_level, level_of, line_slot, own_of, own_of_level, priority_at, row_place,
    side_at, side_in, sign, slot_at, sum, unit_of, value_at, what_at,
};
use corner_view::Owner;
use frac_core::{Frac, OutOfMemory, Stop, Unfit};
use problem_core::{Quantity, Row, RowName, Side, TableStop, What};
use std::alloc::Global;

// What a constant is above the row's own.
fn difference(constant: Frac, to: Frac) -> Frac
    requires near { (more : Fraction) × fraction.IsKept more
        × IsRatio more (sum_num to (negsuc 0) (pos 1) constant) (sum_den to (pos 1) constant) }
    ensures value { IsRatio result (sum_num to (negsuc 0) (pos 1) constant) (sum_den to (pos 1) constant) }
    ensures kept { fraction.IsKept result }
{
    match Frac::mul_add(to, -1, 1, constant) {
        Ok(more) => more,
        Err(_) => unreachable!(),
    }
}

// The row with another constant.
fn with_constant(alloc: Global, row: &Row, to: Frac) -> Result<Row, OutOfMemory>
    requires { IsRow row.now }
    ensures { IfOk result (λ r. r ≡ has_constant row.now.id to row.now) }
{
    row.show_row(); // for the proof: what a row keeps
    Row::of(
        alloc,
        row.id(),
        row.rank(),
        row.weight(),
        row.rel(),
        row.scale(),
        to,
        row.terms(),
    )
}

// How many times the difference a value grows: `n` over `d`.
#[derive(Clone, Copy)]
struct Growth {
    n: i64,
    d: i64,
}

// What the slot is of: a level, an attribute, or an inside line's mark.
fn what_there(table: &Table, w: u32) -> What
    requires slots { AreSlots (lists_of table.now) }
    requires within { w < length table.now.slots.items }
    requires there { (what : what_type.What) × IsThere (lists_of table.now) w what }
    ensures { IsThere (lists_of table.now) w result }
{
    if is_level(w) {
        What::Level(level_of(table, w))
    } else {
        what_at(table, w, side_in(table, w))
    }
}

// A slot's value, grown by so many times the difference.
fn grown(table: &Table, w: u32, by: Growth, more: Frac) -> Result<Frac, TableStop>
    requires slots { AreSlots (lists_of table.now) }
    requires within { w < length table.now.slots.items }
    requires n { IsFitting by.n }
    requires d { IsFitting by.d }
    requires above { pos 0 <ℤ by.d }
    requires there { (what : what_type.What) × IsThere (lists_of table.now) w what }
    ensures kept { IfOk result fraction.IsKept }
    ensures value { IfOk result (IsGrowth (tables.standing_at (lists_of table.now) w).value by more) }
    ensures stop { IfErr result (IsGrowStop (lists_of table.now) w by more) }
{
    match sum(value_at(table, w), by.n, by.d, more) {
        Ok(value) => Ok(value),
        Err(Unfit) => Err(Stop::Refused(Quantity::Plain(what_there(table, w)))),
    }
}

// Lets a value grow by so many times the difference.
fn grow(table: &mut Table, w: u32, by: Growth, more: Frac) -> Result<(), TableStop>
    requires slots { AreSlots (lists_of table.old) }
    requires within { w < length table.old.slots.items }
    requires n { IsFitting by.n }
    requires d { IsFitting by.d }
    requires above { pos 0 <ℤ by.d }
    requires there { (what : what_type.What) × IsThere (lists_of table.old) w what }
    ensures ok { OnOk result (IsGrown (lists_of table.old) w by more (lists_of table.new)) }
    ensures stop { IfErr result (IsGrowStop (lists_of table.old) w by more) }
    ensures before { lists_before table.new ≡ lists_before table.old }
    ensures alike { AreAlike table.old → AreAlike table.new }
{
    let value = grown(table, w, by, more)?;
    put_value(table, w, value)?;
    Ok(())
}

// How the cost of an inside line's level grows.
fn home_growth(table: &Table, line: u32, side: Side) -> Growth
    requires kept { IsKept (lists_of table.now) }
    requires line { IsSlotOfLine (lists_of table.now) line }
    requires inside { (tables.standing_at (lists_of table.now) line).side ≡ Some side }
    requires level { (tables.slot_at (lists_of table.now) line).home < LEVELS }
    ensures value { result ≡ shifting.home_growth (lists_of table.now) line side }
    ensures n { IsFitting result.n }
    ensures d { IsFitting result.d }
    ensures above { pos 0 <ℤ result.d }
{
    let slot = slot_at(table, line);
    Growth {
        n: with_signs(cost_share(table, slot, side), -1, sign(side)),
        d: unit_of(table, slot),
    }
}

// Lets the cost of an inside line's level grow with its value.
fn grow_home(table: &mut Table, line: u32, side: Side, more: Frac) -> Result<(), TableStop>
    requires kept { IsKept (lists_of table.old) }
    requires line { IsSlotOfLine (lists_of table.old) line }
    requires inside { (tables.standing_at (lists_of table.old) line).side ≡ Some side }
    requires level { (tables.slot_at (lists_of table.old) line).home < LEVELS }
    ensures ok { OnOk result (IsGrown (lists_of table.old) (tables.slot_at (lists_of table.old) line).home
        (shifting.home_growth (lists_of table.old) line side) more (lists_of table.new)) }
    ensures stop { IfErr result
        (IsGrowStop (lists_of table.old) (tables.slot_at (lists_of table.old) line).home
        (shifting.home_growth (lists_of table.old) line side) more) }
    ensures before { lists_before table.new ≡ lists_before table.old }
    ensures alike { AreAlike table.old → AreAlike table.new }
{
    let home = slot_at(table, line).home;
    let by = home_growth(table, line, side);
    grow(table, home, by, more)
}

// Lets the value of a line's inside mark grow.
fn grow_mark(table: &mut Table, line: u32, side: Side, more: Frac) -> Result<(), TableStop>
    requires slots { AreSlots (lists_of table.old) }
    requires line { IsSlot (lists_of table.old) line }
    requires owner { (name : row_type.RowName)
        × ((tables.slot_at (lists_of table.old) line).owner ≡ LineSlot name) }
    requires inside { (tables.standing_at (lists_of table.old) line).side ≡ Some side }
    ensures ok { OnOk result
        (IsGrown (lists_of table.old) line (mark_growth side) more (lists_of table.new)) }
    ensures stop { IfErr result (IsGrowStop (lists_of table.old) line (mark_growth side) more) }
    ensures before { lists_before table.new ≡ lists_before table.old }
    ensures alike { AreAlike table.old → AreAlike table.new }
{
    let by = Growth {
        n: opposite(sign(side)),
        d: 1,
    };
    grow(table, line, by, more)
}

// Lets the value of a line's inside mark grow, and its level's cost.
fn grow_inside(table: &mut Table, line: u32, side: Side, more: Frac) -> Result<(), TableStop>
    requires kept { IsKept (lists_of table.old) }
    requires line { IsSlotOfLine (lists_of table.old) line }
    requires slot { IsSlot (lists_of table.old) line }
    requires inside { (tables.standing_at (lists_of table.old) line).side ≡ Some side }
    requires level { (tables.slot_at (lists_of table.old) line).home < LEVELS }
    requires more { fraction.IsKept more }
    ensures ok { OnOk result (HaveGrown (lists_of table.old) line more (lists_of table.new)) }
    ensures stop { IfErr result (IsGrownValueStop (lists_of table.old) line more) }
    ensures before { lists_before table.new ≡ lists_before table.old }
    ensures alike { AreAlike table.old → AreAlike table.new }
{
    grow_home(table, line, side, more)?;
    grow_mark(table, line, side, more)
}

// Lets a level's cost grow, in which the line stands.
fn grow_level(table: &mut Table, l: u32, line: u32, more: Frac) -> Result<(), TableStop>
    requires slots { AreSlots (lists_of table.old) }
    requires level { l < LEVELS }
    requires grows { CanGrow (lists_of table.old) l }
    ensures ok { OnOk result
        (IsGrown (lists_of table.old) l (outside_growth (lists_of table.old) line l) more
        (lists_of table.new)) }
    ensures stop { IfErr result
        (IsGrowStop (lists_of table.old) l (outside_growth (lists_of table.old) line l) more) }
    ensures before { lists_before table.new ≡ lists_before table.old }
    ensures alike { AreAlike table.old → AreAlike table.new }
{
    let by = Growth {
        n: opposite(table.matrix.entry(l, line)),
        d: own_of_level(table, l) * priority_at(table, l).unit,
    };
    grow(table, l, by, more)
}

// The sign of an inside line's mark, 1 of all else.
fn sign_there(table: &Table, w: u32) -> i64
    requires slots { AreSlots (lists_of table.now) }
    requires within { w < length table.now.slots.items }
    ensures value { result ≡ sign_at (lists_of table.now) w }
    ensures sign { IsSign result }
{
    match slot_at(table, w).owner {
        Owner::Level | Owner::Attr(_) => 1,
        Owner::Line(_) => match side_at(table, w) {
            Some(side) => sign(side),
            None => 1,
        },
    }
}

// Lets the value of an attribute or a mark grow, in whose row the line stands.
fn grow_value(table: &mut Table, w: u32, line: u32, more: Frac) -> Result<(), TableStop>
    requires slots { AreSlots (lists_of table.old) }
    requires slot { IsSlot (lists_of table.old) w }
    requires grows { CanGrow (lists_of table.old) w }
    ensures ok { OnOk result
        (IsGrown (lists_of table.old) w (outside_growth (lists_of table.old) line w) more
        (lists_of table.new)) }
    ensures stop { IfErr result
        (IsGrowStop (lists_of table.old) w (outside_growth (lists_of table.old) line w) more) }
    ensures before { lists_before table.new ≡ lists_before table.old }
    ensures alike { AreAlike table.old → AreAlike table.new }
{
    let by = Growth {
        n: with_signs(table.matrix.entry(w, line), -1, sign_there(table, w)),
        d: own_of(table, w),
    };
    grow(table, w, by, more)
}

// Lets a slot's value grow, in whose row the line stands.
fn grow_slot(table: &mut Table, w: u32, line: u32, more: Frac) -> Result<(), TableStop>
    requires slots { AreSlots (lists_of table.old) }
    requires within { w < length table.old.slots.items }
    requires grows { CanGrow (lists_of table.old) w }
    ensures ok { OnOk result
        (IsGrown (lists_of table.old) w (outside_growth (lists_of table.old) line w) more
        (lists_of table.new)) }
    ensures stop { IfErr result
        (IsGrowStop (lists_of table.old) w (outside_growth (lists_of table.old) line w) more) }
    ensures before { lists_before table.new ≡ lists_before table.old }
    ensures alike { AreAlike table.old → AreAlike table.new }
{
    if is_level(w) {
        grow_level(table, w, line, more)
    } else {
        grow_value(table, w, line, more)
    }
}

// Lets all values grow in whose rows an outside line stands.
fn grow_outside(table: &mut Table, line: u32, more: Frac) -> Result<(), TableStop>
    requires kept { IsKept (lists_of table.old) }
    requires within { line < length table.old.slots.items }
    requires outside { (tables.standing_at (lists_of table.old) line).side ≡ None }
    ensures ok { OnOk result (HaveGrown (lists_of table.old) line more (lists_of table.new)) }
    ensures stop { IfErr result (IsGrownValueStop (lists_of table.old) line more) }
    ensures before { lists_before table.new ≡ lists_before table.old }
    ensures alike { AreAlike table.old → AreAlike table.new }
{
    let count = table.matrix.column(line).len();
    for i in 0..count {
        let w = table.matrix.column(line)[i];
        grow_slot(table, w, line, more)?;
    }
    Ok(())
}

// Lets all values grow with the constant of the line's row.
fn grow_line(table: &mut Table, line: u32, more: Frac) -> Result<(), TableStop>
    requires kept { IsKept (lists_of table.old) }
    requires line { IsSlotOfLine (lists_of table.old) line }
    requires slot { IsSlot (lists_of table.old) line }
    requires level { (tables.slot_at (lists_of table.old) line).home < LEVELS }
    requires more { fraction.IsKept more }
    ensures ok { OnOk result (HaveGrown (lists_of table.old) line more (lists_of table.new)) }
    ensures stop { IfErr result (IsGrownValueStop (lists_of table.old) line more) }
    ensures before { lists_before table.new ≡ lists_before table.old }
    ensures alike { AreAlike table.old → AreAlike table.new }
{
    match side_at(table, line) {
        Some(side) => grow_inside(table, line, side, more),
        None => grow_outside(table, line, more),
    }
}

// Puts the row with its new constant.
fn put_constant(table: &mut Table, at: usize, to: Frac) -> Result<(), OutOfMemory>
    requires rows { All IsRow table.old.rows.items }
    requires within { at < length table.old.rows.items }
    ensures ok { OnOk result ((r : layout.Row)
        → lists_of table.new
        ≡ with_constant_at (lists_of table.old) at (slice_index_or table.old.rows.items at r) to) }
    ensures before { lists_before table.new ≡ lists_before table.old }
    ensures alike { AreAlike table.old → AreAlike table.new }
{
    let row = with_constant(table.alloc, table.rows.get(at), to)?;
    table.rows.put(at, row)
}

/// Gives a row this constant, and all values what they have with it. The marks inside stay.
pub fn shift_row(table: &mut Table, id: u32, to: Frac) -> Result<(), TableStop>
    requires kept { IsKept (lists_of table.old) }
    requires near { IsNear (problem_of (lists_of table.old)) id to }
    ensures ok { OnOk result (IsShifted id to (lists_of table.old) (lists_of table.new)) }
    ensures stop { IfErr result (IsShiftedStop id to (lists_of table.old)) }
    ensures value { fraction.IsKept to }
    ensures before { lists_before table.new ≡ lists_before table.old }
    ensures alike { AreAlike table.old → AreAlike table.new }
{
    let _ = to.den(); // for the proof: what a fraction keeps
    let at = row_place(table, id);
    let more = difference(table.rows.get(at).constant(), to);
    let line = line_slot(table, RowName::Held(id));
    grow_line(table, line, more)?;
    put_constant(table, at, to)?;
    Ok(())
}
