// Turns: the other mark of an inside line enters in place of the one inside.
ghost use Rattle.std.specs.Prelude.{◌≡◌, ◌<◌, length, pos, IfErr, IfOk, OnOk};
ghost use Rattle.frac_core.specs.Fraction as fraction;
ghost use Rattle.frac_core.specs.Fraction.{IsFitting};
ghost use Rattle.row_core.specs.Rows.{IsKeptRow, IsReduced};
ghost use Rattle.corner_table.specs.declared.table.TheConstants.{LEVELS};
ghost use Rattle.corner_exchange.specs.Swaps.Exchanges as exchanges;
ghost use Rattle.corner_exchange.specs.Swaps.Exchanges.{AreChangesIn};
ghost use Rattle.corner_table.specs.Histories.{AreAlike, lists_before};
ghost use Rattle.corner_table.specs.Kept.{AreSlots, IsKept};
ghost use Rattle.corner_table.specs.Tables as tables;
ghost use Rattle.corner_exchange.specs.Swaps.NextLists.{AreMarksTurned};
ghost use Rattle.corner_table.specs.Tables.{IsListedOf, lists_of};
ghost use Rattle.corner_exchange.specs.Swaps.TurnedLevels as turned;
ghost use Rattle.corner_exchange.specs.Swaps.TurnedLevels.{CanTurnTo, HasCounts, IsTurnBy, IsTurnStop};
ghost use Rattle.corner_exchange.specs.Swaps.TurnedLevels.{IsTurnedBy};

use crate::exchange::{Change, named_row, named_sum, put_change, put_standing};
use corner_table::{
    Listed, Standing, Table, cost_share, is_level, level_of, list_row, own_of, own_of_level,
    priority_at, sign, slot_at, sum, value_at,
};
use corner_writings::{Draft, Pair, does_level_fit};
use frac_core::{Frac, OutOfMemory, Stop, Unfit};
use problem_core::{Quantity, Side, TableStop, What};
use row_core::{Col, Factors, IntRow, Patch, combine_but};

// What a line counts on both sides.
fn counts_at(table: &Table, line: u32) -> i64
    requires turn { turned.CanTurn (lists_of table.now) line }
    requires level { (tables.slot_at (lists_of table.now) line).home < LEVELS }
    ensures value { result ≡ pos (turned.counts_at (lists_of table.now) line) }
    ensures fits { IsFitting result }
{
    let slot = slot_at(table, line);
    cost_share(table, slot, Side::Under) + cost_share(table, slot, Side::Over)
}

// What the line counted in its level's row, less what it counts from now on.
fn turning_at(table: &Table, line: u32, side: Side, count: i64) -> i64
    requires turn { CanTurnTo (lists_of table.now) line side }
    requires count { HasCounts (lists_of table.now) line count }
    ensures value { result ≡ turned.turning_at (lists_of table.now) line side }
    ensures fits { IsFitting result }
{
    own_of_level(table, slot_at(table, line).home) * count * sign(side)
}

// The row of the line's level from which the line goes with its own row.
fn turning_row(
    table: &Table,
    line: u32,
    side: Side,
    count: i64,
    stop: TableStop,
) -> Result<IntRow, TableStop>
    requires turn { CanTurnTo (lists_of table.now) line side }
    requires count { HasCounts (lists_of table.now) line count }
    requires stop { turned.IsHomeStop (lists_of table.now) line stop }
    ensures ok { IfOk result (λ row. IsReduced row (turned.turned_sum (lists_of table.now) line side)) }
    ensures kept { IfOk result IsKeptRow }
    ensures stop { IfErr result (IsTurnStop (lists_of table.now) line side) }
{
    let factors = Factors {
        k: i128::from(own_of(table, line)),
        n: i128::from(turning_at(table, line, side, count)),
    };
    let but = Patch {
        without: Col(u64::from(line)),
        at: Col(u64::from(line)),
        extra: 0,
    };
    let home = slot_at(table, line).home;
    let (r, p) = (table.matrix.row(home), table.matrix.row(line));
    named_row(combine_but(table.alloc, r, p, factors, but), stop)
}

// The cost that the line's level comes to.
fn turning_cost(table: &Table, line: u32, count: i64, stop: TableStop) -> Result<Frac, TableStop>
    requires turn { turned.CanTurn (lists_of table.now) line }
    requires count { HasCounts (lists_of table.now) line count }
    requires stop { turned.IsHomeStop (lists_of table.now) line stop }
    ensures ok { IfOk result (turned.IsTurnedValue (lists_of table.now) line) }
    ensures kept { IfOk result fraction.IsKept }
    ensures stop { IfErr result (turned.IsAnyTurnStop (lists_of table.now) line) }
{
    let home = slot_at(table, line).home;
    named_sum(
        value_at(table, home),
        -count,
        priority_at(table, home).unit,
        value_at(table, line),
        stop,
    )
}

// The level of a line whose mark of this side comes in place of the other.
fn turned_level(table: &Table, line: u32, side: Side) -> Result<Change, TableStop>
    requires turn { CanTurnTo (lists_of table.now) line side }
    requires level { (tables.slot_at (lists_of table.now) line).home < LEVELS }
    ensures ok { IfOk result (IsTurnedBy (lists_of table.now) line side) }
    ensures stop { IfErr result (IsTurnStop (lists_of table.now) line side) }
{
    let l = slot_at(table, line).home;
    let stop = Stop::Refused(Quantity::Plain(What::Level(level_of(table, l))));
    let count = counts_at(table, line);
    let row = turning_row(table, line, side, count, stop)?;
    let value = turning_cost(table, line, count, stop)?;
    let pair = Pair {
        enter: line,
        side,
        leave: line,
    };
    let old = priority_at(table, l);
    let draft = Draft {
        level: l,
        unit: old.unit,
        pair,
        rows: old.rows,
    };
    if !does_level_fit(table, draft, &row) {
        return Err(stop);
    }
    Ok(Change { at: l, row, value })
}

/// The change of the level of a line that turns to this side, which a stay's needs not.
pub fn turn_of(table: &Table, line: u32, side: Side) -> Result<Option<Change>, TableStop>
    requires turn { CanTurnTo (lists_of table.now) line side }
    ensures ok { IfOk result (IsTurnBy (lists_of table.now) line side) }
    ensures stop { IfErr result (IsTurnStop (lists_of table.now) line side) }
{
    if is_level(slot_at(table, line).home) {
        let change = turned_level(table, line, side)?;
        Ok(Some(change))
    } else {
        Ok(None)
    }
}

/// The fraction with the other sign.
pub fn negated(f: Frac) -> Frac
    ensures { result ≡ exchanges.opposite f }
{
    match sum(Frac::zero(), -1, 1, f) {
        Ok(f) => f,
        Err(Unfit) => f,
    }
}

// Puts the other side and the value with the other sign, and the change of the line's level.
fn put_turned(
    table: &mut Table,
    line: u32,
    side: Side,
    change: Option<Change>,
) -> Result<(), OutOfMemory>
    requires slots { AreSlots (lists_of table.old) }
    requires within { line < length table.old.slots.items }
    requires change { AreChangesIn (lists_of table.old) change }
    ensures ok { OnOk result (lists_of table.new
        ≡ exchanges.turned_lists (lists_of table.old) line side change) }
    ensures before { lists_before table.new ≡ lists_before table.old }
    ensures alike { AreAlike table.old → AreAlike table.new }
{
    let value = negated(value_at(table, line));
    let side = Some(side);
    put_standing(table, line, Standing { side, value })?;
    if let Some(change) = change {
        put_change(table, change)?;
    }
    Ok(())
}

/// Turns a line to this side, and lists no line.
pub fn turn_unlisted(
    table: &mut Table,
    line: u32,
    side: Side,
    change: Option<Change>,
) -> Result<(), OutOfMemory>
    requires turn { CanTurnTo (lists_of table.old) line side }
    requires change { IsTurnBy (lists_of table.old) line side change }
    ensures lists { OnOk result (lists_of table.new
        ≡ exchanges.turned_lists (lists_of table.old) line side change) }
    ensures kept { OnOk result (IsKept (lists_of table.new)) }
    ensures marks { OnOk result (AreMarksTurned (lists_of table.old) line side (lists_of table.new)) }
    ensures before { lists_before table.new ≡ lists_before table.old }
    ensures alike { AreAlike table.old → AreAlike table.new }
{
    put_turned(table, line, side, change)
}

/// Turns a line to this side.
pub fn put_turn(
    table: &mut Table,
    listed: &mut Listed,
    line: u32,
    side: Side,
    change: Option<Change>,
) -> Result<(), OutOfMemory>
    requires turn { CanTurnTo (lists_of table.old) line side }
    requires change { IsTurnBy (lists_of table.old) line side change }
    ensures lists { OnOk result (lists_of table.new
        ≡ exchanges.turned_lists (lists_of table.old) line side change) }
    ensures kept { OnOk result (IsKept (lists_of table.new)) }
    ensures marks { OnOk result (AreMarksTurned (lists_of table.old) line side (lists_of table.new)) }
    ensures listed { OnOk result
        (IsListedOf line (tables.row_at (lists_of table.old) line) listed.old listed.new) }
    ensures before { lists_before table.new ≡ lists_before table.old }
    ensures alike { AreAlike table.old → AreAlike table.new }
{
    put_turned(table, line, side, change)?;
    list_row(table, line, listed)
}
