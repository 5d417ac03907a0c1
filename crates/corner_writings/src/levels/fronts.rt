// The fronts of both marks of a line, found with one look at its column.
ghost use Rattle.std.specs.Prelude.{◌≡◌, ◌≢◌, ◌<◌, ◌+ℤ◌, ◌*ℤ◌, ◌↔◌, IfNone, IfSome, length, pos};
ghost use Rattle.std.specs.Prelude.{true};
ghost use Rattle.problem_core.specs.declared.parts.Side.TheVariants.{Under as UnderSide, Over as OverSide};
ghost use Rattle.corner_lines.specs.LineEquations.{sign_of};
ghost use Rattle.corner_table.specs.Kept.{HasCost, IsKept};
ghost use Rattle.corner_table.specs.Reads.LevelNumbers as numbers;
ghost use Rattle.corner_table.specs.Reads.LevelNumbers.{IsCost, IsLevelSlot, IsLinesSlot, IsSlotOfLine};
ghost use Rattle.corner_table.specs.Tables as tables;
ghost use Rattle.corner_table.specs.Tables.{lists_of, marks_at, problem_of};
ghost use Rattle.corner_view.specs.Seen.{IsMarkOf, IsNamed};
ghost use Rattle.corner_writings.specs.Fitting.{counted};
ghost use Rattle.corner_view.specs.Fronts.{AreFrontsOf, IsFoundOf};
ghost use Rattle.corner_writings.specs.Walks as walks;
ghost use Rattle.corner_writings.specs.Walks.{IsLowestCost, IsNextCost, IsNoneAbove, IsNoneBelow};
ghost use Rattle.corner_writings.specs.Walks.{IsStrongestAt, IsStrongestOf};

use crate::levels::{ends_column, front_at, front_of, has_cost, own_cost, signed, times_at};
use corner_table::{Slot, Table, costs, line_slot, slot_at};
use corner_view::{Front, Fronts};
use problem_core::{Mark, Rel, RowName, Side};

// The reduced costs of a line's marks at a level.
#[derive(Clone, Copy)]
struct Both {
    under: i64,
    over: i64,
}

// A side on which a line costs.
fn dear_side(rel: Rel) -> Side
    ensures { result ≡ walks.dear_side rel }
{
    match rel {
        Rel::Ge => Side::Under,
        _ => Side::Over,
    }
}

// What a mark of this side costs by itself, of what one costs that does.
fn part(rel: Rel, side: Side, cost: i64) -> i64
    requires { IsCost cost }
    ensures value { result ≡ counted rel side cost }
    ensures small { IsCost result }
{
    if costs(rel, side) { cost } else { 0 }
}

// The reduced cost of a mark of this side at its line's level, of what one costs that does, and the line's
// multiplier.
fn reduced_by(rel: Rel, side: Side, cost: i64, times: i64) -> i64
    requires cost { IsCost cost }
    requires times { IsCost times }
    ensures { result ≡ counted rel side cost +ℤ sign_of side *ℤ times }
{
    part(rel, side, cost) + signed(side, times)
}

// The reduced costs of a line's marks at its own level, by its multiplier there.
fn both_by(table: &Table, slot: Slot, times: i64) -> Both
    requires kept { IsKept (lists_of table.now) }
    requires line { IsLinesSlot (lists_of table.now) slot }
    requires times { IsCost times }
    ensures under { result.under
        ≡ numbers.own_cost (lists_of table.now) slot UnderSide +ℤ sign_of UnderSide *ℤ times }
    ensures over { result.over
        ≡ numbers.own_cost (lists_of table.now) slot OverSide +ℤ sign_of OverSide *ℤ times }
{
    let cost = own_cost(table, slot, dear_side(slot.rel));
    Both {
        under: reduced_by(slot.rel, Side::Under, cost, times),
        over: reduced_by(slot.rel, Side::Over, cost, times),
    }
}

// The reduced costs of a line's marks at the level at a slot.
fn both_at(table: &Table, l: u32, line: u32) -> Both
    requires kept { IsKept (lists_of table.now) }
    requires level { IsLevelSlot (lists_of table.now) l }
    requires line { IsSlotOfLine (lists_of table.now) line }
    ensures under { result.under ≡ numbers.reduced_at (lists_of table.now) l line UnderSide }
    ensures over { result.over ≡ numbers.reduced_at (lists_of table.now) l line OverSide }
{
    let slot = slot_at(table, line);
    let times = times_at(table, l, line);
    if slot.home == l {
        return both_by(table, slot, times);
    }
    Both {
        under: signed(Side::Under, times),
        over: signed(Side::Over, times),
    }
}

// The lowest slot of a level that stands in the line's column or is the line's own level's.
fn lowest(table: &Table, line: u32) -> u32
    requires kept { IsKept (lists_of table.now) }
    requires line { IsSlotOfLine (lists_of table.now) line }
    ensures lowest { IsLowestCost (lists_of table.now) line result }
    ensures within { result < length table.now.slots.items }
{
    let home = slot_at(table, line).home;
    for l in table.matrix.column(line) {
        if *l >= home {
            return home;
        }
        if has_cost(table, *l) {
            return *l;
        }
    }
    home
}

// Whether the slot n is that of a level, and above l.
fn is_cost_above(table: &Table, l: u32, n: u32) -> bool
    requires { n < length table.now.slots.items }
    ensures { (result ≡ true) ↔ ((l < n) × HasCost (lists_of table.now) n) }
{
    n > l && has_cost(table, n)
}

// The lowest slot of a level that stands in the line's column above this one.
fn next_cost(table: &Table, line: u32, l: u32) -> Option<u32>
    requires kept { IsKept (lists_of table.now) }
    requires line { IsSlotOfLine (lists_of table.now) line }
    ensures some { IfSome result (IsNextCost (lists_of table.now) line l) }
    ensures within { IfSome result (λ n. n < length table.now.slots.items) }
    ensures none { IfNone result (IsNoneAbove (lists_of table.now) line l) }
{
    for n in table.matrix.column(line) {
        if is_cost_above(table, l, *n) {
            return Some(*n);
        }
    }
    None
}

// The mark's front at a level that isn't its line's own, where it has no reduced cost at a stronger one.
fn front_at_other(table: &Table, mark: Mark, line: u32, n: u32) -> Option<Front>
    requires kept { IsKept (lists_of table.now) }
    requires mark { IsMarkOf (problem_of (lists_of table.now)) mark }
    requires line { line ≡ tables.line_slot (lists_of table.now) mark.row }
    requires within { n < length table.now.slots.items }
    requires cost { HasCost (lists_of table.now) n }
    requires other { (tables.slot_at (lists_of table.now) line).home ≢ n }
    requires first { IsStrongestAt (lists_of table.now) line mark.side n }
    ensures { IsFoundOf (problem_of (lists_of table.now)) (marks_at (lists_of table.now)) mark result }
{
    let times = times_at(table, n, line);
    if times == 0 {
        return front_of(table, mark);
    }
    Some(front_at(table, n, signed(mark.side, times)))
}

// The front of a mark without a reduced cost at its line's own level, where nothing stronger stands in the
// line's column.
fn front_beyond(table: &Table, mark: Mark, line: u32, home: u32) -> Option<Front>
    requires kept { IsKept (lists_of table.now) }
    requires mark { IsMarkOf (problem_of (lists_of table.now)) mark }
    requires line { line ≡ tables.line_slot (lists_of table.now) mark.row }
    requires home { (tables.slot_at (lists_of table.now) line).home ≡ home }
    requires below { IsNoneBelow (lists_of table.now) line home }
    requires nothing { numbers.reduced_at (lists_of table.now) home line mark.side ≡ pos 0 }
    ensures { IsFoundOf (problem_of (lists_of table.now)) (marks_at (lists_of table.now)) mark result }
{
    let n = next_cost(table, line, home)?;
    if ends_column(table, n) {
        front_at_other(table, mark, line, n)
    } else {
        front_of(table, mark)
    }
}

// The front of a mark without a reduced cost at the level of the lowest slot.
fn front_without(table: &Table, mark: Mark, l: u32) -> Option<Front>
    requires kept { IsKept (lists_of table.now) }
    requires mark { IsMarkOf (problem_of (lists_of table.now)) mark }
    requires lowest { IsLowestCost (lists_of table.now) (tables.line_slot (lists_of table.now) mark.row) l }
    requires nothing { numbers.reduced_at (lists_of table.now) l
        (tables.line_slot (lists_of table.now) mark.row) mark.side ≡ pos 0 }
    ensures { IsFoundOf (problem_of (lists_of table.now)) (marks_at (lists_of table.now)) mark result }
{
    let line = line_slot(table, mark.row);
    let slot = slot_at(table, line);
    if slot.home == l {
        front_beyond(table, mark, line, l)
    } else {
        front_of(table, mark)
    }
}

// The mark's front: at the lowest slot's level, where it has this reduced cost there.
fn front_from(table: &Table, mark: Mark, l: u32, reduced: i64) -> Option<Front>
    requires kept { IsKept (lists_of table.now) }
    requires mark { IsMarkOf (problem_of (lists_of table.now)) mark }
    requires within { l < length table.now.slots.items }
    requires reduced { reduced ≡ numbers.reduced_at (lists_of table.now) l
        (tables.line_slot (lists_of table.now) mark.row) mark.side }
    requires lowest { IsLowestCost (lists_of table.now) (tables.line_slot (lists_of table.now) mark.row) l }
    requires first { IsStrongestOf (lists_of table.now)
        (tables.line_slot (lists_of table.now) mark.row) l }
    ensures { IsFoundOf (problem_of (lists_of table.now)) (marks_at (lists_of table.now)) mark result }
{
    if reduced == 0 {
        return front_without(table, mark, l);
    }
    Some(front_at(table, l, reduced))
}

// The fronts of a line's marks, each sought by itself.
fn fronts_apart(table: &Table, row: RowName) -> Fronts
    requires kept { IsKept (lists_of table.now) }
    requires row { IsNamed (problem_of (lists_of table.now)) row }
    ensures { AreFrontsOf (problem_of (lists_of table.now)) (marks_at (lists_of table.now)) row result }
{
    Fronts {
        under: front_of(
            table,
            Mark {
                row,
                side: Side::Under,
            },
        ),
        over: front_of(
            table,
            Mark {
                row,
                side: Side::Over,
            },
        ),
    }
}

// The fronts of a line's marks, where at no level that is stronger than the slot's one has a reduced cost.
fn fronts_from(table: &Table, row: RowName, l: u32, both: Both) -> Fronts
    requires kept { IsKept (lists_of table.now) }
    requires row { IsNamed (problem_of (lists_of table.now)) row }
    requires within { l < length table.now.slots.items }
    requires lowest { IsLowestCost (lists_of table.now) (tables.line_slot (lists_of table.now) row) l }
    requires under { both.under ≡ numbers.reduced_at (lists_of table.now) l
        (tables.line_slot (lists_of table.now) row) UnderSide }
    requires over { both.over ≡ numbers.reduced_at (lists_of table.now) l
        (tables.line_slot (lists_of table.now) row) OverSide }
    requires first { IsStrongestOf (lists_of table.now) (tables.line_slot (lists_of table.now) row) l }
    ensures { AreFrontsOf (problem_of (lists_of table.now)) (marks_at (lists_of table.now)) row result }
{
    let under = Mark {
        row,
        side: Side::Under,
    };
    let over = Mark {
        row,
        side: Side::Over,
    };
    Fronts {
        under: front_from(table, under, l, both.under),
        over: front_from(table, over, l, both.over),
    }
}

/// The fronts of a line's marks.
pub fn fronts_of(table: &Table, row: RowName) -> Fronts
    requires kept { IsKept (lists_of table.now) }
    requires row { IsNamed (problem_of (lists_of table.now)) row }
    ensures { AreFrontsOf (problem_of (lists_of table.now)) (marks_at (lists_of table.now)) row result }
{
    let line = line_slot(table, row);
    let l = lowest(table, line);
    if ends_column(table, l) {
        fronts_from(table, row, l, both_at(table, l, line))
    } else {
        fronts_apart(table, row)
    }
}
