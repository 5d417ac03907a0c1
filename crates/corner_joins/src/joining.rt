// Rows that join: first each as a row, and then each the cost of its level.
ghost use Rattle.std.specs.Prelude.{◌≡◌, ◌<◌, ◌≤◌, ◌+◌, ◌-◌, ◌^◌, [], ◌∷◌, pos, length, IfOk, IfErr, OnOk};
ghost use Rattle.std.specs.Prelude.{◌<ℤ◌, unsigned_abs};
ghost use Rattle.frac_core.specs.Fraction.{IsFitting};
ghost use Rattle.frac_core.specs.Fraction as fractions;
ghost use Rattle.row_core.specs.Rows.{IsKeptRow, coefficient};
ghost use Rattle.row_core.specs.Combinations.{IsFactor};
ghost use Rattle.frac_core.specs.Stops.{IsRefused};
ghost use Rattle.problem_core.specs.Layout.{HasStay};
ghost use Rattle.problem_core.specs.Corners.{NoNegativeValue};
ghost use Rattle.problem_core.specs.Changes.Begins.{BeginsWith};
ghost use Rattle.problem_core.specs.Kept.{IsNumber, IsRow, IsWhole};
ghost use Rattle.problem_core.specs.Unfit.{first_terms, over_mark};
ghost use Rattle.problem_core.specs.declared.parts.RowName.TheVariants.{Held};
ghost use Rattle.problem_core.specs.declared.parts.Level.TheVariants.{Priority as PriorityLevel};
ghost use Rattle.problem_core.specs.declared.stops.Quantity.TheVariants.{Rows, Terms};
ghost use Rattle.frac_core.specs.declared.memory.Stop.TheVariants.{Refused};
ghost use Rattle.corner_lines.specs.LineEquations.{deviation as deviation_of};
ghost use Rattle.corner_table.specs.Tables.{lists_of, marks_at, priority_at as level_at, problem_of, row_at};
ghost use Rattle.corner_table.specs.declared.table.TheConstants.{LEVELS, MOST_SLOTS};
ghost use Rattle.corner_table.specs.Histories.{HasSameHistory};
ghost use Rattle.corner_laws.specs.Lifts.{with_rows};
ghost use Rattle.corner_view.specs.AddStops.{AllSumsFit, IsAddStop};
ghost use Rattle.corner_table.specs.Paths.{IsPathStop};
ghost use Rattle.corner_table.specs.Invariants.{seen_of};
ghost use Rattle.corner_table.specs.Kept.{AreSlots, HasSlotsLeft, IsKept};
ghost use Rattle.corner_joins.specs.Additions.Parts.{CanTakeRow, IsPartlyKept, IsTermsStop, IsWithRow};
ghost use Rattle.corner_joins.specs.Additions.RowJoins.{AreAsBefore, ArePushed, IsPlaced, IsPushed};
ghost use Rattle.corner_joins.specs.Additions.RowJoins.{IsStandingOf};
ghost use Rattle.corner_joins.specs.Additions.RowSums.{AreTermFactors, HasNextTerm, IsSumRow, IsTermRow};
ghost use Rattle.corner_joins.specs.Additions.RowSums.{IsTermValue, IsUnfitTerm, term_of};
ghost use Rattle.corner_joins.specs.Additions.SumFits.{DoCostsFit, DoFirstTermsFit, DoRowsFit, DoTermsFit};
ghost use Rattle.corner_table.specs.Joining.{IsStayForm, IsWithAttr, at_value, at_zero, slot_of_attr};
ghost use Rattle.corner_table.specs.Joining.{slot_of_row, slot_of_stay, with_slot};
ghost use Rattle.std.specs.Prelude.{◌/◌, ℤ, false, List, IfSome, IfNone};
ghost use Rattle.frac_core.specs.declared.frac.TheConstants.{PART_BOUND};
ghost use Rattle.version_lists.specs.Matrices.{IsBelow};
ghost use Rattle.problem_core.specs.declared.limits.TheConstants.{REQUIRED, ROW_LIMIT};
ghost use Rattle.problem_core.specs.Layout as layout;
ghost use Rattle.problem_core.specs.Levels.{IsCostAt};
ghost use Rattle.corner_table.specs.Histories.{AreAlike, lists_before};
ghost use Rattle.corner_table.specs.Tables as tables;
ghost use Rattle.corner_table.specs.Tables.{entry};
ghost use Rattle.corner_table.specs.Reads.LevelNumbers.{IsCounted, share_of, side_share};
ghost use Rattle.corner_joins.specs.Additions.CostJoins.{AreAllJoined, AreCostsJoined, AreShareFactors};
ghost use Rattle.corner_joins.specs.Additions.CostJoins.{AreToJoin};
ghost use Rattle.corner_joins.specs.Additions.CostJoins.{AreUnitFactors, IsCostJoined, IsCostStop};
ghost use Rattle.corner_joins.specs.Additions.CostJoins.{IsCostsStop};
ghost use Rattle.corner_joins.specs.Additions.CostJoins.{IsCountOf};
ghost use Rattle.corner_joins.specs.Additions.CostJoins.{IsFreeLine, IsInUnit, IsJoinedCost, IsJoinedRow};
ghost use Rattle.corner_joins.specs.Additions.CostJoins.{CanJoin};
ghost use Rattle.corner_joins.specs.Additions.CostJoins.{IsJoinStop, IsLineCostStop, IsNextListed, IsRise};
ghost use Rattle.corner_joins.specs.Additions.CostJoins.{IsRiseAt};
ghost use Rattle.corner_joins.specs.Additions.CostJoins.{IsShared};
ghost use Rattle.corner_joins.specs.Additions.CostJoins.{IsShareStop, IsSignedCount, IsUnfitRise, IsUnitStop};
ghost use Rattle.corner_joins.specs.Additions.CostJoins.{home_at};
ghost use Rattle.corner_joins.specs.Additions.CostJoins.{with_cost, with_next};

use cert_core::RunStop;
use corner_exchange::{Change, named_row, named_sum, negated, put_change};
use corner_table::{
    Listed, OWN_RANK, Priority, Slot, Standing, Table, attr_slot, costs, line_slot, list_row,
    next_slot, own_of, path_stop, priority_at, priority_level, product, push_slot, share, side_in,
    sign, slot_at, value_at,
};
use corner_view::Owner;
use corner_writings::{Draft, Pair, does_level_fit};
use frac_core::{Frac, OutOfMemory, PART_BOUND, Stop, common_divisor};
use problem_core::{Mark, Quantity, REQUIRED, Row, RowName, Side, Stay, TableStop, Term};
use row_core::{Col, Factors, IntRow, Patch, RowStop, combine_but, combine_wide};
use std::alloc::Global;

// Adds the slots of an attribute at this value and of its stay at 0.
fn push_attr_slots(table: &mut Table, attr: u32, target: Frac, at: u32) -> Result<(), OutOfMemory>
    requires at { at ≡ length table.old.slots.items }
    requires matrix { length table.old.matrix.rows ≡ at }
    requires room { at + 2 < 2 ^ 32 }
    ensures past { HasSameHistory table.old table.new }
    ensures lists { OnOk result (lists_of table.new
        ≡ with_slot (slot_of_stay attr (at + 1)) at_zero []
        (with_slot (slot_of_attr attr at) (at_value target) (record { col = at; by = pos 1 } ∷ [])
        (lists_of table.old))) }
{
    let attr_slot = Slot {
        owner: Owner::Attr(attr),
        home: at,
        rank: 0,
        weight: 1,
        scale: 1,
        rel: problem_core::Rel::Eq,
    };
    let own = IntRow::unit(table.alloc, Col(u64::from(at)))?;
    push_slot(table, attr_slot, None, target, own)?;
    let stay_slot = Slot {
        owner: Owner::Line(RowName::Stay(attr)),
        home: at + 1,
        rank: OWN_RANK + u64::from(at + 1),
        ..attr_slot
    };
    let none = IntRow::empty(table.alloc);
    push_slot(table, stay_slot, None, Frac::zero(), none)
}

// The attribute is its target and the deviation of its stay.
fn attr_row(alloc: Global, at: u32) -> Result<IntRow, OutOfMemory>
    requires { at + 2 < 2 ^ 32 }
    ensures form { IfOk result (IsStayForm at) }
    ensures kept { IfOk result IsKeptRow }
{
    let own = IntRow::unit(alloc, Col(u64::from(at)))?;
    let stay = IntRow::unit(alloc, Col(u64::from(at) + 1))?;
    match row_core::combine(alloc, &own, &stay, 1, -1) {
        Ok(row) => Ok(row),
        Err(Stop::Refused(_)) => unreachable!(),
        Err(Stop::OutOfMemory) => Err(OutOfMemory),
    }
}

// Adds an attribute at this value and its stay, which is outside.
fn place_attr(table: &mut Table, attr: u32, target: Frac) -> Result<(), OutOfMemory>
    requires kept { IsKept (lists_of table.old) }
    requires room { length table.old.slots.items + 2 ≤ MOST_SLOTS }
    ensures past { HasSameHistory table.old table.new }
    ensures lists { OnOk result (IsWithAttr attr target (lists_of table.old) (lists_of table.new)) }
{
    let at = next_slot(table);
    push_attr_slots(table, attr, target, at)?;
    let row = attr_row(table.alloc, at)?;
    table.matrix.put(at, row)?;
    table.attr_slots.put(attr, at)?;
    table.stays.push(Stay { attr, target })
}

/// Adds an attribute at this value and its stay, which is outside.
pub fn push_attr(table: &mut Table, attr: u32, target: Frac) -> Result<(), OutOfMemory>
    requires kept { IsKept (lists_of table.old) }
    requires number { IsNumber attr }
    requires fresh { HasStay table.old.stays.items attr → ⊥ }
    requires room { length table.old.stays.items < ROW_LIMIT }
    requires left { HasSlotsLeft (lists_of table.old) }
    ensures past { HasSameHistory table.old table.new }
    ensures lists { OnOk result (IsWithAttr attr target (lists_of table.old) (lists_of table.new)) }
    ensures kept { OnOk result (IsKept (lists_of table.new)) }
    ensures left { OnOk result (HasSlotsLeft (lists_of table.new)) }
    ensures value { fractions.IsKept target }
{
    let _ = target.den(); // for the proof: what a fraction keeps
    place_attr(table, attr, target)?;
    Ok(())
}

// A sum of terms as a row and its value.
#[derive(Drop)]
struct Sum {
    row: IntRow,
    value: Frac,
}

/// How often two rows are taken, the second one `by` times, so that both own numbers become one.
pub fn common_factors(own: i64, other: i64, by: i64) -> Factors
    requires own { pos 0 <ℤ own }
    requires other { pos 0 <ℤ other }
    requires own_fits { IsFitting own }
    requires other_fits { IsFitting other }
    requires by { IsFitting by }
    ensures k { IsFitting result.k }
    ensures above { pos 0 <ℤ result.k }
    ensures n { IsFactor result.n }
    ensures factors { AreTermFactors own other by result }
    ensures share { AreShareFactors own other by (pos 1) result }
{
    let divisor = common_divisor(own, other);
    Factors {
        k: i128::from(over(other, divisor)),
        n: product(over(own, divisor), by),
    }
}

// The row of a sum at the slot with one term more.
fn more_row(table: &Table, at: u32, sum: &IntRow, term: Term) -> Result<IntRow, RowStop>
    requires kept { IsPartlyKept (lists_of table.now) }
    requires attr { HasStay table.now.stays.items term.attr }
    requires by { IsFitting term.by }
    requires own { pos 0 <ℤ coefficient at sum.now }
    ensures value { IfOk result (IsTermRow (lists_of table.now) at sum.now term) }
    ensures unfit { IfErr result (λ stop. IsRefused stop
        → IsUnfitTerm (lists_of table.now) at sum.now term) }
{
    let a = attr_slot(table, term.attr);
    let factors = common_factors(sum.entry(Col(u64::from(at))), own_of(table, a), term.by);
    let but = Patch {
        without: Col(u64::from(a)),
        at: Col(u64::from(at)),
        extra: 0,
    };
    combine_but(table.alloc, sum, table.matrix.row(a), factors, but)
}

// The stop that names the sum of a row's first terms, with the row over.
fn terms_stop(id: u32, first: usize) -> TableStop
    requires { first < 2 ^ 32 }
    ensures { result ≡ Refused (Terms (over_mark id) first) }
{
    let mark = Mark {
        row: RowName::Held(id),
        side: Side::Over,
    };
    Stop::Refused(Quantity::Terms {
        mark,
        first: first as u32,
    })
}

// The value of the sum of a row's first terms with the next one.
fn term_value(table: &Table, row: &Row, i: usize, sum: &Sum) -> Result<Frac, TableStop>
    requires row { CanTakeRow (lists_of table.now) row.now }
    requires sum { HasNextTerm (lists_of table.now) row.now i sum.now }
    ensures value { IfOk result (IsTermValue (lists_of table.now) row.now i sum.now.value) }
    ensures stop { IfErr result (IsTermsStop (lists_of table.now) row.now) }
{
    let term = row.terms()[i];
    let stop = terms_stop(row.id(), i + 1);
    let attr = value_at(table, attr_slot(table, term.attr));
    named_sum(sum.value, term.by, 1, attr, stop)
}

// The row of the sum of a row's first terms with the next one.
fn term_row(table: &Table, at: u32, row: &Row, i: usize, sum: &Sum) -> Result<IntRow, TableStop>
    requires row { CanTakeRow (lists_of table.now) row.now }
    requires at { at ≡ length table.now.slots.items }
    requires sum { HasNextTerm (lists_of table.now) row.now i sum.now }
    ensures value { IfOk result (IsTermRow (lists_of table.now) at sum.now.row (term_of row.now i)) }
    ensures stop { IfErr result (IsTermsStop (lists_of table.now) row.now) }
{
    let term = row.terms()[i];
    let stop = terms_stop(row.id(), i + 1);
    named_row(more_row(table, at, &sum.row, term), stop)
}

// The sum of a row's first terms with the next one.
fn with_term(table: &Table, at: u32, row: &Row, i: usize, sum: &Sum) -> Result<Sum, TableStop>
    requires row { CanTakeRow (lists_of table.now) row.now }
    requires at { at ≡ length table.now.slots.items }
    requires sum { HasNextTerm (lists_of table.now) row.now i sum.now }
    ensures sum { IfOk result (IsSumRow (lists_of table.now) row.now (first_terms row.now (i + 1))) }
    ensures fits { IfOk result (λ _. DoTermsFit (lists_of table.now) row.now (i + 1)) }
    ensures stop { IfErr result (IsTermsStop (lists_of table.now) row.now) }
{
    let value = term_value(table, row, i, sum)?;
    let row = term_row(table, at, row, i, sum)?;
    Ok(Sum { row, value })
}

// The value of the sum of all terms less the constant, which is the row's deviation.
fn less_constant(table: &Table, row: &Row, sum: &Sum) -> Result<Frac, TableStop>
    requires row { CanTakeRow (lists_of table.now) row.now }
    requires sum { IsSumRow (lists_of table.now) row.now
        (first_terms row.now (length row.now.terms)) sum.now }
    ensures value { IfOk result (λ value. IsSumRow (lists_of table.now) row.now
        (deviation_of (Held row.now.id)) (record { row = sum.now.row; value = value })) }
    ensures kept { IfOk result fractions.IsKept }
    ensures stop { IfErr result (IsTermsStop (lists_of table.now) row.now) }
{
    let stop = terms_stop(row.id(), row.terms().len() + 1);
    named_sum(sum.value, -1, 1, row.constant(), stop)
}

// The sum of all terms of a row, at the next slot.
fn all_terms(table: &Table, row: &Row) -> Result<Sum, TableStop>
    requires row { CanTakeRow (lists_of table.now) row.now }
    ensures sum { IfOk result (IsSumRow (lists_of table.now) row.now
        (first_terms row.now (length row.now.terms))) }
    ensures fits { IfOk result
        (λ _. DoFirstTermsFit (lists_of table.now) row.now (length row.now.terms)) }
    ensures stop { IfErr result (IsTermsStop (lists_of table.now) row.now) }
{
    let at = table.slots.len() as u32;
    let mut sum = Sum {
        row: IntRow::unit(table.alloc, Col(u64::from(at)))?,
        value: Frac::zero(),
    };
    for i in 0..row.terms().len() {
        sum = with_term(table, at, row, i, &sum)?;
    }
    Ok(sum)
}

// The deviation of a row's terms from its constant, at the next slot.
fn deviation(table: &Table, row: &Row) -> Result<Sum, TableStop>
    requires row { CanTakeRow (lists_of table.now) row.now }
    ensures sum { IfOk result (IsSumRow (lists_of table.now) row.now (deviation_of (Held row.now.id))) }
    ensures fits { IfOk result
        (λ _. DoFirstTermsFit (lists_of table.now) row.now (length row.now.terms + 1)) }
    ensures stop { IfErr result (IsTermsStop (lists_of table.now) row.now) }
{
    let sum = all_terms(table, row)?;
    let value = less_constant(table, row, &sum)?;
    Ok(Sum {
        row: sum.row,
        value,
    })
}

// The mark that is not negative, over at 0, and its value.
fn standing_of(deviation: Frac) -> Standing
    ensures { IsStandingOf deviation result }
{
    if deviation.num() >= 0 {
        Standing {
            side: Some(Side::Over),
            value: deviation,
        }
    } else {
        Standing {
            side: Some(Side::Under),
            value: negated(deviation),
        }
    }
}

// What a row's slot says.
fn slot_of(row: &Row) -> Slot
    requires { IsRow row.now }
    ensures { result ≡ slot_of_row row.now }
{
    Slot {
        owner: Owner::Line(RowName::Held(row.id())),
        home: u32::from(REQUIRED - row.rank()),
        rank: 0,
        weight: i64::from(row.weight()),
        scale: row.scale(),
        rel: row.rel(),
    }
}

// An equal row.
fn copy_of(row: &Row) -> Result<Row, OutOfMemory>
    ensures { IfOk result (λ copy. copy ≡ row.now) }
{
    Ok(row.clone()?)
}

// Puts a row with its deviation in the next slot.
fn place_row(table: &mut Table, row: &Row, sum: Sum) -> Result<(), OutOfMemory>
    requires row { CanTakeRow (lists_of table.old) row.now }
    requires sum { IsSumRow (lists_of table.old) row.now (deviation_of (Held row.now.id)) sum }
    ensures past { HasSameHistory table.old table.new }
    ensures lists { OnOk result (IsPlaced row.now sum (lists_of table.old) (lists_of table.new)) }
{
    let at = next_slot(table);
    let standing = standing_of(sum.value);
    push_slot(table, slot_of(row), standing.side, standing.value, sum.row)?;
    table.row_slots.put(row.id(), at)?;
    table.rows.push(copy_of(row)?)
}

/// Adds a row as one, with the mark that is not negative inside, but not yet to the cost of its level.
pub(crate) fn push_row(table: &mut Table, row: &Row) -> Result<(), TableStop>
    requires row { CanTakeRow (lists_of table.old) row.now }
    ensures past { HasSameHistory table.old table.new }
    ensures lists { OnOk result (IsPushed row.now (lists_of table.old) (lists_of table.new)) }
    ensures joined { OnOk result (IsWithRow row.now (lists_of table.old) (lists_of table.new)) }
    ensures kept { OnOk result (IsPartlyKept (lists_of table.new)) }
    ensures left { OnOk result (HasSlotsLeft (lists_of table.new)) }
    ensures fits { OnOk result (DoFirstTermsFit (lists_of table.old) row.now (length row.now.terms + 1)) }
    ensures stop { IfErr result (IsTermsStop (lists_of table.old) row.now) }
    ensures same { IfErr result (AreAsBefore (lists_of table.old) (lists_of table.new)) }
{
    let sum = deviation(table, row)?;
    place_row(table, row, sum)?;
    Ok(())
}

/// The number over one of its divisors, both above 0.
pub fn over(a: i64, divisor: i64) -> i64
    requires a { pos 0 <ℤ a }
    requires divisor { pos 0 <ℤ divisor }
    ensures value { result ≡ pos (unsigned_abs a / unsigned_abs divisor) }
    ensures fits { IsFitting a → IsFitting result }
{
    a / divisor
}

/// How the unit of a level's cost rises for a line: the new one, and how many times the old one it is.
#[derive(Clone, Copy)]
pub struct Rise {
    pub unit: i64,
    pub times: i64,
}

/// The least unit in which the line's share is whole too.
pub fn risen(unit: i64, slot: Slot) -> Option<Rise>
    requires counted { IsCounted slot unit }
    requires above { pos 0 <ℤ unit }
    ensures some { IfSome result (IsRise slot unit) }
    ensures none { IfNone result (IsUnfitRise slot unit) }
{
    let part = over(slot.scale, common_divisor(slot.scale, slot.weight));
    let times = over(part, common_divisor(part, unit));
    let next = product(unit, times);
    if next.unsigned_abs() >= PART_BOUND {
        return None;
    }
    Some(Rise {
        unit: next as i64,
        times,
    })
}

// The row of a level's cost, and that of nothing where it has no row.
fn cost_row(table: &Table, l: u32) -> Result<IntRow, OutOfMemory>
    requires slots { AreSlots (lists_of table.now) }
    requires level { l < LEVELS }
    ensures none { (level_at (lists_of table.now) l).rows ≡ 0
        → IfOk result (λ row. row ≡ record { col = l; by = pos 1 } ∷ []) }
    ensures some { ((level_at (lists_of table.now) l).rows ≡ 0 → ⊥)
        → IfOk result (λ row. row ≡ row_at (lists_of table.now) l) }
{
    if priority_at(table, l).rows == 0 {
        IntRow::unit(table.alloc, Col(u64::from(l)))
    } else {
        table.matrix.row(l).copy()
    }
}

// How often the level's row and the line's are taken, so that the line's own number goes out.
fn share_factors(own: i64, line_own: i64, count: i64, times: i64) -> Factors
    requires own { pos 0 <ℤ own }
    requires line { pos 0 <ℤ line_own }
    requires own_fits { IsFitting own }
    requires line_fits { IsFitting line_own }
    requires count { IsFitting count }
    requires times { IsFitting times }
    ensures k { IsFactor result.k }
    ensures n { IsFactor result.n }
    ensures factors { AreShareFactors own line_own count times result }
{
    let divisor = common_divisor(own, line_own);
    Factors {
        k: product(over(line_own, divisor), times),
        n: product(over(own, divisor), count),
    }
}

// The row of a cost with a share of an inside line more, in the old unit. It has six parameters, since count
// and times go together nowhere else.
fn with_share(
    table: &Table,
    old: &IntRow,
    line: u32,
    count: i64,
    times: i64,
    stop: TableStop,
) -> Result<IntRow, TableStop>
    requires slots { AreSlots (lists_of table.now) }
    requires within { line < length table.now.slots.items }
    requires level { pos 0 <ℤ coefficient (tables.slot_at (lists_of table.now) line).home old.now }
    requires own { pos 0 <ℤ entry (lists_of table.now) line line }
    requires count { IsFitting count }
    requires times { IsFitting times }
    ensures ok { IfOk result (IsShared (lists_of table.now) old.now line count times) }
    ensures kept { IfOk result IsKeptRow }
    ensures err { IfErr result (IsShareStop (lists_of table.now) old.now line count times stop) }
{
    let home = slot_at(table, line).home;
    let own = old.entry(Col(u64::from(home)));
    let Factors { k, n } = share_factors(own, own_of(table, line), count, times);
    let but = Patch {
        without: Col(u64::from(line)),
        at: Col(u64::from(line)),
        extra: 0,
    };
    named_row(
        combine_but(
            table.alloc,
            old,
            table.matrix.row(line),
            Factors { k, n },
            but,
        ),
        stop,
    )
}

// How often the row and 1 at the level are taken, so that the level's own number is divided.
fn unit_factors(own: i64, times: i64) -> Factors
    requires own { pos 0 <ℤ own }
    requires times { pos 0 <ℤ times }
    requires own_fits { IsFitting own }
    requires times_fit { IsFitting times }
    ensures k { IsFactor result.k }
    ensures n { IsFactor result.n }
    ensures factors { AreUnitFactors own times result }
{
    let divisor = common_divisor(own, times);
    let k = over(times, divisor);
    Factors {
        k: i128::from(k),
        n: i128::from(over(own, divisor)) - product(own, k),
    }
}

// The row with the level's own number divided, as its cost is taken so many times.
fn divided(
    table: &Table,
    row: &IntRow,
    l: u32,
    times: i64,
    stop: TableStop,
) -> Result<IntRow, TableStop>
    requires own { pos 0 <ℤ coefficient l row.now }
    requires above { pos 0 <ℤ times }
    requires times { IsFitting times }
    ensures ok { IfOk result (IsInUnit row.now l times) }
    ensures kept { IfOk result IsKeptRow }
    ensures err { IfErr result (IsUnitStop row.now l times stop) }
{
    let Factors { k, n } = unit_factors(row.entry(Col(u64::from(l))), times);
    let level = IntRow::unit(table.alloc, Col(u64::from(l)))?;
    named_row(combine_wide(table.alloc, row, &level, k, n), stop)
}

// The same row where its cost is taken so many times.
fn in_unit(
    table: &Table,
    row: IntRow,
    l: u32,
    times: i64,
    stop: TableStop,
) -> Result<IntRow, TableStop>
    requires kept { IsKeptRow row }
    requires own { pos 0 <ℤ coefficient l row }
    requires above { pos 0 <ℤ times }
    requires times { IsFitting times }
    ensures ok { IfOk result (IsInUnit row l times) }
    ensures kept { IfOk result IsKeptRow }
    ensures err { IfErr result (IsUnitStop row l times stop) }
{
    if times == 1 {
        return Ok(row);
    }
    divided(table, &row, l, times, stop)
}

// The stop that names the cost of the first rows of the line's level, of which there are so many.
fn rows_stop(slot: Slot, rows: u32) -> TableStop
    requires { slot.home ≤ REQUIRED }
    ensures { result ≡ Refused (Rows (PriorityLevel (REQUIRED - slot.home)) rows) }
{
    let level = priority_level(slot.home);
    Stop::Refused(Quantity::Rows { level, first: rows })
}

// What a line's mark of this side counts, unless its share doesn't fit.
fn counted(slot: Slot, side: Side, unit: i64, stop: TableStop) -> Result<i64, TableStop>
    requires counted { IsCounted slot unit }
    ensures ok { IfOk result (λ n. n ≡ pos (side_share slot.rel side (share_of slot unit))) }
    ensures fits { IfOk result IsFitting }
    ensures err { IfErr result (λ e. (e ≡ stop) × (PART_BOUND ≤ share_of slot unit)) }
{
    let whole = share(slot, unit);
    if whole.unsigned_abs() >= PART_BOUND as u64 {
        return Err(stop);
    }
    if costs(slot.rel, side) {
        Ok(whole)
    } else {
        Ok(0)
    }
}

// The row of the line's level where the line has joined it.
fn joined_row(
    table: &Table,
    line: u32,
    rise: Rise,
    count: i64,
    stop: TableStop,
) -> Result<IntRow, TableStop>
    requires joins { CanJoin (lists_of table.now) line }
    requires rise { IsRiseAt (lists_of table.now) line rise }
    requires count { IsSignedCount (lists_of table.now) line rise.unit count }
    requires fits { IsFitting count }
    ensures ok { IfOk result (IsJoinedRow (lists_of table.now) line rise.unit) }
    ensures kept { IfOk result IsKeptRow }
    ensures err { IfErr result (IsCostStop (lists_of table.now) line stop) }
{
    let l = slot_at(table, line).home;
    let old = cost_row(table, l)?;
    let row = with_share(table, &old, line, count, rise.times, stop)?;
    in_unit(table, row, l, rise.times, stop)
}

// What the line's level costs where the line has joined it.
fn joined_value(
    table: &Table,
    line: u32,
    unit: i64,
    count: i64,
    stop: TableStop,
) -> Result<Frac, TableStop>
    requires joins { CanJoin (lists_of table.now) line }
    requires rise { (times : ℤ) × IsRiseAt (lists_of table.now) line (record { unit = unit; times = times }) }
    requires count { IsCountOf (lists_of table.now) line unit count }
    requires fits { IsFitting count }
    ensures ok { IfOk result (IsCostAt (with_next (lists_of table.now) (home_at (lists_of table.now) line))
        (marks_at (lists_of table.now)) (home_at (lists_of table.now) line)) }
    ensures kept { IfOk result fractions.IsKept }
    ensures err { IfErr result (IsCostStop (lists_of table.now) line stop) }
{
    let cost = value_at(table, slot_at(table, line).home);
    named_sum(cost, count, unit, value_at(table, line), stop)
}

// The change, unless the numbers of the level's cost do not fit.
fn fitting_cost(
    table: &Table,
    line: u32,
    unit: i64,
    change: Change,
    stop: TableStop,
) -> Result<Change, TableStop>
    requires joins { CanJoin (lists_of table.now) line }
    requires rise { (times : ℤ) × IsRiseAt (lists_of table.now) line (record { unit = unit; times = times }) }
    requires at { change.at ≡ home_at (lists_of table.now) line }
    requires row { IsJoinedRow (lists_of table.now) line unit change.row }
    requires row_kept { IsKeptRow change.row }
    requires cost { IsCostAt (with_next (lists_of table.now) (home_at (lists_of table.now) line))
        (marks_at (lists_of table.now)) (home_at (lists_of table.now) line) change.value }
    requires value_kept { fractions.IsKept change.value }
    ensures ok { IfOk result (IsJoinedCost (lists_of table.now) line unit) }
    ensures err { IfErr result (IsCostStop (lists_of table.now) line stop) }
{
    let pair = Pair {
        enter: line,
        side: side_in(table, line),
        leave: line,
    };
    let draft = Draft {
        level: change.at,
        unit,
        pair,
        rows: priority_at(table, change.at).rows + 1,
    };
    if does_level_fit(table, draft, &change.row) {
        Ok(change)
    } else {
        Err(stop)
    }
}

// The change of the line's level where the line has joined it.
fn joined_cost(table: &Table, line: u32, rise: Rise, stop: TableStop) -> Result<Change, TableStop>
    requires joins { CanJoin (lists_of table.now) line }
    requires rise { IsRiseAt (lists_of table.now) line rise }
    ensures ok { IfOk result (IsJoinedCost (lists_of table.now) line rise.unit) }
    ensures err { IfErr result (IsCostStop (lists_of table.now) line stop) }
{
    let slot = slot_at(table, line);
    let side = side_in(table, line);
    let count = counted(slot, side, rise.unit, stop)?;
    let row = joined_row(table, line, rise, count * sign(side), stop)?;
    let value = joined_value(table, line, rise.unit, count, stop)?;
    let at = slot.home;
    fitting_cost(table, line, rise.unit, Change { at, row, value }, stop)
}

// How the unit of the line's level rises, unless it doesn't fit then.
fn rise_at(table: &Table, line: u32, stop: TableStop) -> Result<Rise, TableStop>
    requires joins { CanJoin (lists_of table.now) line }
    ensures ok { IfOk result (IsRiseAt (lists_of table.now) line) }
    ensures err { IfErr result (IsCostStop (lists_of table.now) line stop) }
{
    let slot = slot_at(table, line);
    match risen(priority_at(table, slot.home).unit, slot) {
        Some(rise) => Ok(rise),
        None => Err(stop),
    }
}

// Puts a level's row, cost and unit with one row more.
fn put_cost(table: &mut Table, change: Change, unit: i64) -> Result<(), OutOfMemory>
    requires slots { AreSlots (lists_of table.old) }
    requires level { change.at < LEVELS }
    requires few { (level_at (lists_of table.old) change.at).rows < ROW_LIMIT }
    requires below { IsBelow (length table.old.slots.items) change.row }
    ensures ok { OnOk result (lists_of table.new
        ≡ with_cost (lists_of table.old) change.at change.row change.value unit) }
    ensures before { lists_before table.new ≡ lists_before table.old }
    ensures alike { AreAlike table.old → AreAlike table.new }
{
    let at = change.at;
    let rows = priority_at(table, at).rows + 1;
    put_change(table, change)?;
    table.priorities.put(at as usize, Priority { unit, rows })
}

/// Whether the inside mark of a line costs.
pub fn costs_at(table: &Table, line: u32) -> bool
    requires slots { AreSlots (lists_of table.now) }
    requires within { line < length table.now.slots.items }
    ensures { result ≡ false → IsFreeLine (lists_of table.now) line }
{
    costs(slot_at(table, line).rel, side_in(table, line))
}

/// Adds a line to the cost of its level, and says whether it costs.
pub(crate) fn join_cost(table: &mut Table, line: u32) -> Result<bool, TableStop>
    requires joins { CanJoin (lists_of table.old) line }
    ensures joined { IfOk result (λ _. IsCostJoined (lists_of table.old) line (lists_of table.new)) }
    ensures costs { IfOk result (λ costs. costs ≡ false → IsFreeLine (lists_of table.new) line) }
    ensures before { lists_before table.new ≡ lists_before table.old }
    ensures alike { AreAlike table.old → AreAlike table.new }
    ensures stop { IfErr result (IsJoinStop (lists_of table.old) line) }
    ensures same { IfErr result (AreAsBefore (lists_of table.old) (lists_of table.new)) }
{
    let slot = slot_at(table, line);
    let stop = rows_stop(slot, priority_at(table, slot.home).rows + 1);
    let rise = rise_at(table, line, stop)?;
    let change = joined_cost(table, line, rise, stop)?;
    put_cost(table, change, rise.unit)?;
    Ok(costs_at(table, line))
}

// The stop of a sum of a row's terms, where this row and those after it are still to join.
fn added_stop(table: &Table, rest: &[Row], stop: TableStop) -> RunStop
    requires slots { IsRefused stop → AreSlots (lists_of table.now) }
    ensures { IsPathStop (lists_of table.now) rest.now stop result }
{
    match stop {
        Stop::Refused(_) => path_stop(table, rest, stop),
        Stop::OutOfMemory => RunStop::OutOfMemory,
    }
}

// Adds all rows as such.
fn push_rows(table: &mut Table, rows: &[Row]) -> Result<(), RunStop>
    requires kept { IsPartlyKept (lists_of table.old) }
    requires left { HasSlotsLeft (lists_of table.old) }
    requires whole { IsWhole (with_rows rows.now (problem_of (lists_of table.old))) }
    requires values { NoNegativeValue (problem_of (lists_of table.old)) (marks_at (lists_of table.old)) }
    ensures past { HasSameHistory table.old table.new }
    ensures lists { OnOk result (ArePushed rows.now (lists_of table.old) (lists_of table.new)) }
    ensures begins { OnOk result (BeginsWith (problem_of (lists_of table.new)) (marks_at (lists_of table.old))
        rows.now [] (marks_at (lists_of table.new))) }
    ensures kept { OnOk result (IsPartlyKept (lists_of table.new)) }
    ensures left { OnOk result (HasSlotsLeft (lists_of table.new)) }
    ensures values { OnOk result (NoNegativeValue (problem_of (lists_of table.new))
        (marks_at (lists_of table.new))) }
    ensures fits { OnOk result (DoRowsFit (lists_of table.old) rows.now (length rows.now)) }
    ensures stop { IfErr result (IsAddStop (seen_of (lists_of table.old)) rows.now) }
{
    for i in 0..rows.len() {
        if let Err(stop) = push_row(table, &rows[i]) {
            return Err(added_stop(table, &rows[i..], stop));
        }
    }
    Ok(())
}

// Adds a line to the cost of its level, and lists the lines of its row if it costs.
fn join_next(table: &mut Table, listed: &mut Listed, line: u32) -> Result<(), RunStop>
    requires joins { CanJoin (lists_of table.old) line }
    ensures joined { OnOk result (IsCostJoined (lists_of table.old) line (lists_of table.new)) }
    ensures listed { OnOk result (IsNextListed (lists_of table.new) line listed.old listed.new) }
    ensures before { lists_before table.new ≡ lists_before table.old }
    ensures alike { AreAlike table.old → AreAlike table.new }
    ensures stop { IfErr result (IsLineCostStop (lists_of table.old) line) }
{
    match join_cost(table, line) {
        Ok(true) => Ok(list_row(table, line, listed)?),
        Ok(false) => Ok(()),
        Err(stop) => Err(added_stop(table, &[], stop)),
    }
}

// Adds rows that have joined to the costs of their levels.
fn join_costs(table: &mut Table, listed: &mut Listed, rows: &[Row]) -> Result<(), RunStop>
    requires kept { IsPartlyKept (lists_of table.old) }
    requires rows { (first : List layout.Row) × AreToJoin (lists_of table.old) first rows.now }
    ensures joined { OnOk result (AreCostsJoined rows.now (lists_of table.old) listed.old
        (lists_of table.new) listed.new) }
    ensures kept { OnOk result (IsKept (lists_of table.new)) }
    ensures fits { OnOk result ((first : List layout.Row) → AreToJoin (lists_of table.old) first rows.now
        → DoCostsFit (lists_of table.old) first rows.now (length rows.now)) }
    ensures before { lists_before table.new ≡ lists_before table.old }
    ensures alike { AreAlike table.old → AreAlike table.new }
    ensures stop { IfErr result (λ stop. (first : List layout.Row)
        → AreToJoin (lists_of table.old) first rows.now
        → IsCostsStop (lists_of table.old) first rows.now stop) }
{
    for i in 0..rows.len() {
        let line = line_slot(table, RowName::Held(rows[i].id()));
        join_next(table, listed, line)?;
    }
    Ok(())
}

/// Adds rows as such, and then to the costs of their levels.
pub fn join_all(table: &mut Table, listed: &mut Listed, rows: &[Row]) -> Result<(), RunStop>
    requires kept { IsKept (lists_of table.old) }
    requires left { HasSlotsLeft (lists_of table.old) }
    requires whole { IsWhole (with_rows rows.now (problem_of (lists_of table.old))) }
    requires values { NoNegativeValue (problem_of (lists_of table.old)) (marks_at (lists_of table.old)) }
    ensures joined { OnOk result (AreAllJoined rows.now (lists_of table.old) listed.old
        (lists_of table.new) listed.new) }
    ensures left { OnOk result (HasSlotsLeft (lists_of table.new)) }
    ensures fits { OnOk result (AllSumsFit (seen_of (lists_of table.old)) rows.now) }
    ensures before { lists_before table.new ≡ lists_before table.old }
    ensures alike { AreAlike table.old → AreAlike table.new }
    ensures stop { IfErr result (IsAddStop (seen_of (lists_of table.old)) rows.now) }
{
    push_rows(table, rows)?;
    join_costs(table, listed, rows)
}
