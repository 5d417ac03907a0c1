// Exchanges of an outside line for an inside one.
pub(crate) mod turning;

ghost use Rattle.std.specs.Prelude.{◌≡◌, ◌≢◌, ◌⊎◌, ◌<◌, ◌*ℤ◌, ◌<ℤ◌, neg_ℤ, ℕ, pos};
ghost use Rattle.std.specs.Prelude.{true, length, false, unsigned_abs, IfOk, IfErr, OnOk, OnErr, Ok, Err};
ghost use Rattle.std.specs.Prelude.{All};
ghost use Rattle.frac_core.specs.Fraction as fraction;
ghost use Rattle.frac_core.specs.Fraction.{IsFitting, IsRatio, IsUnfitRatio, sum_den, sum_num};
ghost use Rattle.problem_core.specs.Corners.{Swap};
ghost use Rattle.problem_core.specs.declared.stops.Quantity.TheVariants.{Plain};
ghost use Rattle.frac_core.specs.declared.memory.Stop.TheVariants.{OutOfMemory as NoMemory, Refused};
ghost use Rattle.row_core.specs.Rows.{IsKeptRow, IsReduced, coefficient};
ghost use Rattle.frac_core.specs.declared.frac.Unfit as unfit_type;
ghost use Rattle.frac_core.specs.declared.memory.Stop as stop_type;
ghost use Rattle.frac_core.specs.Stops.{IsRefused};
ghost use Rattle.version_lists.specs.Matrices.{IsBelow};
ghost use Rattle.corner_table.specs.Histories.{AreAlike, lists_before};
ghost use Rattle.corner_exchange.specs.Swaps.LevelChanges as level_changes;
ghost use Rattle.corner_table.specs.Reads.LevelNumbers.{IsCost, IsSlotOfLine};
ghost use Rattle.corner_exchange.specs.Swaps.Exchanges as exchanges;
ghost use Rattle.corner_exchange.specs.Swaps.Exchanges.{IsChangeIn, cleared, exchanged_lists, filled};
ghost use Rattle.corner_exchange.specs.Swaps.Exchanges.{with_change};
ghost use Rattle.corner_exchange.specs.Swaps.Exchanges.{with_changes, with_row, with_standing, with_value};
ghost use Rattle.corner_exchange.specs.Swaps.Exchanges.{IsChangeBy, IsEnteringBy, IsEnteringValue};
ghost use Rattle.corner_exchange.specs.Swaps.Exchanges.{IsLevelStop};
ghost use Rattle.corner_exchange.specs.Swaps.Exchanges.{CanExchange, CanPivot, IsCostedLevel, IsPairStop};
ghost use Rattle.corner_exchange.specs.Swaps.Exchanges.{IsPivotOf};
ghost use Rattle.corner_exchange.specs.Swaps.Exchanges.{IsPivotStop};
ghost use Rattle.corner_exchange.specs.Swaps.Exchanges.{AreListedAfter, AreMarksAfter, ArePut, IsExchangeBy};
ghost use Rattle.corner_exchange.specs.Swaps.Exchanges.{IsExchangeOf};
ghost use Rattle.corner_exchange.specs.Swaps.Exchanges.{IsMovedSlot, IsRestUntouched};
ghost use Rattle.corner_exchange.specs.Swaps.Exchanges.{IsStaySlot, IsValueAfter, IsWhatAt, moved};
ghost use Rattle.corner_table.specs.Kept.{AreSlots, IsKept};
ghost use Rattle.corner_exchange.specs.Swaps.NextLists.{AreKeptChanges, IsKeptChange};
ghost use Rattle.corner_table.specs.Tables as tables;
ghost use Rattle.corner_table.specs.Tables.{IsSign, entry, lists_of};
ghost use Rattle.corner_exchange.specs.Swaps.Touched.{AreLevelsPut, CountsWhereStands, IsPut};

use corner_table::{
    Listed, Standing, Table, cost_share, is_level, is_stay, level_of, list_row, own_of,
    own_of_level, priority_at, product, side_at, side_in, sign, slot_at, sum, value_at, what_at,
};
use corner_writings::{Draft, Pair, does_level_fit, what_sign};
use frac_core::{Frac, OutOfMemory, PART_BOUND, Stop};
use problem_core::{Quantity, Side, TableStop, What};
use row_core::{Col, Factors, IntRow, Patch, RowStop, combine, combine_but};

/// The new row and the new value of a slot.
#[derive(Drop)]
pub struct Change {
    pub at: u32,
    pub row: IntRow,
    pub value: Frac,
}

// The entering line's number in the leaving one's row, and the value that the entering mark comes to.
#[derive(Clone, Copy)]
struct Pivot {
    pair: Pair,
    by: i64,
    value: Frac,
}

// The stop of what does not fit.
fn unfit(what: What) -> TableStop
    ensures { result ≡ Refused (Plain what) }
{
    Stop::Refused(Quantity::Plain(what))
}

/// The row, or the stop that says what it is of.
pub fn named_row(made: Result<IntRow, RowStop>, stop: TableStop) -> Result<IntRow, TableStop>
    ensures ok { IfOk result (λ row. made ≡ Ok row) }
    ensures err { IfErr result (λ e. (e ≡ NoMemory)
        ⊎ ((e ≡ stop) × ((s : stop_type.Stop unfit_type.Unfit) × (made ≡ Err s) × IsRefused s))) }
{
    match made {
        Ok(row) => Ok(row),
        Err(Stop::Refused(_)) => Err(stop),
        Err(Stop::OutOfMemory) => Err(Stop::OutOfMemory),
    }
}

// Whether the product is 0.
fn is_nothing(n: i64, t: Frac) -> bool
    ensures { result ≡ true → (n ≡ pos 0) ⊎ (t.num ≡ pos 0) }
{
    n == 0 || t.num() == 0
}

/// The value `a + (n/d)*t`, or the stop that says what it is of.
pub fn named_sum(a: Frac, n: i64, d: i64, t: Frac, stop: TableStop) -> Result<Frac, TableStop>
    requires n { IsFitting n }
    requires d { IsFitting d }
    requires above { pos 0 <ℤ d }
    ensures ok { IfOk result (λ f. IsRatio f (sum_num a n d t) (sum_den a d t)) }
    ensures kept { IfOk result fraction.IsKept }
    ensures err { IfErr result (λ e. (e ≡ stop) × IsUnfitRatio (sum_num a n d t) (sum_den a d t)) }
{
    if is_nothing(n, t) {
        return Ok(a);
    }
    match sum(a, n, d, t) {
        Ok(value) => Ok(value),
        Err(frac_core::Unfit) => Err(stop),
    }
}

// The number, with the other sign where `by` is below 0.
fn signed(by: i64, number: i64) -> i64
    requires { IsFitting number }
    ensures value { result ≡ exchanges.signed by number }
    ensures fits { IsFitting result }
{
    if by < 0 { -number } else { number }
}

/// The number times two signs.
pub fn with_signs(number: i64, a: i64, b: i64) -> i64
    requires number { IsFitting number }
    requires a { IsSign a }
    requires b { IsSign b }
    ensures value { result ≡ (number *ℤ a) *ℤ b }
    ensures fits { IsFitting result }
{
    if a == b { number } else { -number }
}

/// The number with the other sign.
pub fn opposite(number: i64) -> i64
    requires { IsFitting number }
    ensures value { result ≡ neg_ℤ number }
    ensures fits { IsFitting result }
{
    -number
}

// Whether twice the number doesn't fit.
fn is_large(own: i64) -> bool
    requires { IsFitting own }
    ensures large { result ≡ true → IsFitting (pos 2 *ℤ own) → ⊥ }
    ensures small { result ≡ false → IsFitting (pos 2 *ℤ own) }
{
    own.unsigned_abs() >= (PART_BOUND as u64) / 2
}

// A stay's level has room for both marks' costs.
fn check_stay(table: &Table, w: u32, own: i64) -> Result<(), TableStop>
    requires slots { AreSlots (lists_of table.now) }
    requires within { w < length table.now.slots.items }
    requires own { IsFitting own }
    ensures ok { OnOk result (IsStaySlot (lists_of table.now) w → IsFitting (pos 2 *ℤ own)) }
    ensures stay { OnErr result (IsStaySlot (lists_of table.now) w) }
    ensures unfit { OnErr result (IsFitting (pos 2 *ℤ own) → ⊥) }
    ensures stop { IfErr result (IsLevelStop (lists_of table.now) w) }
{
    if is_stay(table, w) && is_large(own) {
        return Err(unfit(What::Level(level_of(table, w))));
    }
    Ok(())
}

// The size of a number.
fn size(number: i64) -> i64
    requires { IsFitting number }
    ensures value { result ≡ pos (unsigned_abs number) }
    ensures fits { IsFitting result }
{
    number.abs()
}

// The value that the entering mark comes to.
fn entering_value(table: &Table, pair: Pair, by: i64) -> Result<Frac, TableStop>
    requires pair { CanExchange (lists_of table.now) pair }
    requires by { by ≡ entry (lists_of table.now) pair.leave pair.enter }
    requires fits { IsFitting by }
    ensures ok { IfOk result (IsEnteringValue (lists_of table.now) pair) }
    ensures lowest { IfOk result fraction.IsLowest }
    ensures stop { IfErr result (IsPairStop (lists_of table.now) pair) }
{
    let stop = unfit(what_at(table, pair.enter, pair.side));
    let own = signed(by, own_of(table, pair.leave));
    let n = with_signs(own, sign(pair.side), sign(side_in(table, pair.leave)));
    named_sum(Frac::zero(), n, size(by), value_at(table, pair.leave), stop)
}

// The pivot, unless the entering line is a stay whose level has no room.
fn pivot_with(table: &Table, pair: Pair, by: i64, value: Frac) -> Result<Pivot, TableStop>
    requires pair { CanExchange (lists_of table.now) pair }
    requires by { by ≡ entry (lists_of table.now) pair.leave pair.enter }
    requires fits { IsFitting by }
    requires entering { IsEnteringValue (lists_of table.now) pair value }
    requires lowest { fraction.IsLowest value }
    ensures pair { IfOk result (λ pivot. pivot.pair ≡ pair) }
    ensures ok { IfOk result (IsPivotOf (lists_of table.now) pair) }
    ensures stop { IfErr result (IsPairStop (lists_of table.now) pair) }
{
    check_stay(table, pair.enter, by)?;
    Ok(Pivot { pair, by, value })
}

// What the exchange makes of the entering line, or the mark or the stay's level that does not fit.
fn pivot_of(table: &Table, pair: Pair) -> Result<Pivot, TableStop>
    requires pair { CanExchange (lists_of table.now) pair }
    ensures pair { IfOk result (λ pivot. pivot.pair ≡ pair) }
    ensures ok { IfOk result (IsPivotOf (lists_of table.now) pair) }
    ensures stop { IfErr result (IsPairStop (lists_of table.now) pair) }
{
    let by = table.matrix.entry(pair.leave, pair.enter);
    let value = entering_value(table, pair, by)?;
    pivot_with(table, pair, by, value)
}

// What a line counts at a level with this side.
fn count_at(table: &Table, l: u32, line: u32, side: Side) -> i64
    requires kept { IsKept (lists_of table.now) }
    requires line { IsSlotOfLine (lists_of table.now) line }
    ensures value { result ≡ level_changes.count_by (lists_of table.now) l line side }
    ensures small { IsCost result }
{
    let slot = slot_at(table, line);
    if slot.home == l {
        cost_share(table, slot, side) * sign(side)
    } else {
        0
    }
}

// The row of an attribute or an inside line in which the entering line is replaced by its own row.
fn moved_row(table: &Table, pivot: &Pivot, w: u32, what: What) -> Result<IntRow, TableStop>
    requires pivot { CanPivot (lists_of table.now) pivot.now }
    requires moved { IsMovedSlot (lists_of table.now) pivot.now.pair w }
    requires what { IsWhatAt (lists_of table.now) w what }
    ensures ok { IfOk result (λ row. IsReduced row (moved (lists_of table.now) pivot.now.pair w)) }
    ensures kept { IfOk result IsKeptRow }
    ensures stop { IfErr result (IsPivotStop (lists_of table.now) pivot.now) }
{
    let c = table.matrix.entry(w, pivot.pair.enter);
    let (r, p) = (table.matrix.row(w), table.matrix.row(pivot.pair.leave));
    let made = combine(
        table.alloc,
        r,
        p,
        size(pivot.by),
        opposite(signed(pivot.by, c)),
    );
    named_row(made, unfit(what))
}

// The value that it comes to.
fn moved_value(table: &Table, pivot: &Pivot, w: u32, what: What) -> Result<Frac, TableStop>
    requires pivot { CanPivot (lists_of table.now) pivot.now }
    requires moved { IsMovedSlot (lists_of table.now) pivot.now.pair w }
    requires what { IsWhatAt (lists_of table.now) w what }
    ensures ok { IfOk result (IsValueAfter (lists_of table.now) pivot.now w what) }
    ensures lowest { IfOk result fraction.IsLowest }
    ensures stop { IfErr result (IsPivotStop (lists_of table.now) pivot.now) }
{
    let c = table.matrix.entry(w, pivot.pair.enter);
    let n = opposite(with_signs(c, sign(pivot.pair.side), what_sign(what)));
    named_sum(
        value_at(table, w),
        n,
        own_of(table, w),
        pivot.value,
        unfit(what),
    )
}

// The change, unless the line is a stay whose level has no room.
fn moved_line(table: &Table, pivot: &Pivot, what: What, change: Change) -> Result<Change, TableStop>
    requires pivot { CanPivot (lists_of table.now) pivot.now }
    requires moved { IsMovedSlot (lists_of table.now) pivot.now.pair change.at }
    requires what { IsWhatAt (lists_of table.now) change.at what }
    requires row { IsReduced change.row (moved (lists_of table.now) pivot.now.pair change.at) }
    requires value { IsValueAfter (lists_of table.now) pivot.now change.at what change.value }
    requires lowest { fraction.IsLowest change.value }
    ensures at { IfOk result (λ made. made.at ≡ change.at) }
    ensures ok { IfOk result (IsChangeBy (lists_of table.now) pivot.now) }
    ensures stop { IfErr result (IsPivotStop (lists_of table.now) pivot.now) }
{
    let own = change.row.entry(Col(u64::from(change.at)));
    check_stay(table, change.at, own)?;
    Ok(change)
}

// The change of an attribute or an inside line in whose row the entering line stands.
fn line_change(table: &Table, pivot: &Pivot, w: u32) -> Result<Change, TableStop>
    requires pivot { CanPivot (lists_of table.now) pivot.now }
    requires moved { IsMovedSlot (lists_of table.now) pivot.now.pair w }
    ensures at { IfOk result (λ change. change.at ≡ w) }
    ensures ok { IfOk result (IsChangeBy (lists_of table.now) pivot.now) }
    ensures stop { IfErr result (IsPivotStop (lists_of table.now) pivot.now) }
{
    let what = what_at(table, w, side_in(table, w));
    let row = moved_row(table, pivot, w, what)?;
    let value = moved_value(table, pivot, w, what)?;
    moved_line(table, pivot, what, Change { at: w, row, value })
}

// The entering line's number in a level's row, with what the line counts from now on.
fn entering_at(table: &Table, pivot: &Pivot, l: u32) -> i64
    requires pivot { CanPivot (lists_of table.now) pivot.now }
    requires level { IsCostedLevel (lists_of table.now) l }
    ensures value { result ≡ level_changes.entering_at (lists_of table.now) pivot.now.pair l }
    ensures fits { IsFitting result }
{
    let pair = pivot.pair;
    let comes = count_at(table, l, pair.enter, pair.side);
    table.matrix.entry(l, pair.enter) - own_of_level(table, l) * comes
}

// What the leaving line counted in a level's row.
fn leaving_at(table: &Table, pivot: &Pivot, l: u32) -> i64
    requires pivot { CanPivot (lists_of table.now) pivot.now }
    requires level { IsCostedLevel (lists_of table.now) l }
    ensures value { result ≡ level_changes.leaving_at (lists_of table.now) pivot.now.pair l }
    ensures fits { IsFitting result }
{
    let leave = pivot.pair.leave;
    let goes = count_at(table, l, leave, side_in(table, leave));
    own_of_level(table, l) * goes
}

// The row of a level in which the entering line is replaced by the leaving one's row.
fn level_row(
    table: &Table,
    pivot: &Pivot,
    l: u32,
    c: i64,
    stop: TableStop,
) -> Result<IntRow, TableStop>
    requires pivot { CanPivot (lists_of table.now) pivot.now }
    requires level { IsCostedLevel (lists_of table.now) l }
    requires entering { c ≡ level_changes.entering_at (lists_of table.now) pivot.now.pair l }
    requires fits { IsFitting c }
    requires stop { level_changes.IsStopOf l stop }
    ensures ok { IfOk result (λ row. IsReduced row
        (level_changes.level_sum (lists_of table.now) pivot.now.pair l)) }
    ensures kept { IfOk result IsKeptRow }
    ensures stop { IfErr result (IsPivotStop (lists_of table.now) pivot.now) }
{
    let (pair, size) = (pivot.pair, size(pivot.by));
    let factors = Factors {
        k: i128::from(size),
        n: -i128::from(signed(pivot.by, c)),
    };
    let but = Patch {
        without: Col(u64::from(pair.enter)),
        at: Col(u64::from(pair.leave)),
        extra: product(size, leaving_at(table, pivot, l)),
    };
    let (r, p) = (table.matrix.row(l), table.matrix.row(pair.leave));
    named_row(combine_but(table.alloc, r, p, factors, but), stop)
}

// The cost that a level comes to.
fn level_value(
    table: &Table,
    pivot: &Pivot,
    l: u32,
    c: i64,
    stop: TableStop,
) -> Result<Frac, TableStop>
    requires pivot { CanPivot (lists_of table.now) pivot.now }
    requires level { IsCostedLevel (lists_of table.now) l }
    requires entering { c ≡ level_changes.entering_at (lists_of table.now) pivot.now.pair l }
    requires fits { IsFitting c }
    requires stop { level_changes.IsStopOf l stop }
    ensures ok { IfOk result (level_changes.IsLevelValue (lists_of table.now) pivot.now l) }
    ensures kept { IfOk result fraction.IsKept }
    ensures stop { IfErr result (IsPivotStop (lists_of table.now) pivot.now) }
{
    named_sum(
        value_at(table, l),
        with_signs(c, -1, sign(pivot.pair.side)),
        own_of_level(table, l) * priority_at(table, l).unit,
        pivot.value,
        stop,
    )
}

// The change of a level in whose cost the entering line stands or comes, or the leaving one stood.
fn level_change(table: &Table, pivot: &Pivot, l: u32) -> Result<Change, TableStop>
    requires pivot { CanPivot (lists_of table.now) pivot.now }
    requires level { IsCostedLevel (lists_of table.now) l }
    ensures at { IfOk result (λ change. change.at ≡ l) }
    ensures ok { IfOk result (IsChangeBy (lists_of table.now) pivot.now) }
    ensures row_kept { IfOk result (λ change. IsKeptRow change.row) }
    ensures value_kept { IfOk result (λ change. fraction.IsKept change.value) }
    ensures stop { IfErr result (IsPivotStop (lists_of table.now) pivot.now) }
{
    let stop = unfit(What::Level(level_of(table, l)));
    let c = entering_at(table, pivot, l);
    let row = level_row(table, pivot, l, c, stop)?;
    let value = level_value(table, pivot, l, c, stop)?;
    let old = priority_at(table, l);
    let draft = Draft {
        level: l,
        unit: old.unit,
        pair: pivot.pair,
        rows: old.rows,
    };
    if !does_level_fit(table, draft, &row) {
        return Err(stop);
    }
    Ok(Change { at: l, row, value })
}

// The change of a slot in whose row the entering line stands.
fn change_of(table: &Table, pivot: &Pivot, w: u32) -> Result<Change, TableStop>
    requires pivot { CanPivot (lists_of table.now) pivot.now }
    requires within { w < length table.now.slots.items }
    requires other { w ≢ pivot.now.pair.leave }
    requires stands { entry (lists_of table.now) w pivot.now.pair.enter ≢ pos 0 }
    ensures at { IfOk result (λ change. change.at ≡ w) }
    ensures ok { IfOk result (IsChangeBy (lists_of table.now) pivot.now) }
    ensures stop { IfErr result (IsPivotStop (lists_of table.now) pivot.now) }
{
    if is_level(w) {
        level_change(table, pivot, w)
    } else {
        line_change(table, pivot, w)
    }
}

// Puts the change of a slot behind the others, unless it is the leaving line's.
fn push_change(table: &Table, pivot: &Pivot, w: u32, out: &mut Vec<Change>) -> Result<(), TableStop>
    requires pivot { CanPivot (lists_of table.now) pivot.now }
    requires within { w < length table.now.slots.items }
    requires stands { entry (lists_of table.now) w pivot.now.pair.enter ≢ pos 0 }
    requires changes { All (IsChangeBy (lists_of table.now) pivot.now) out.old.items }
    ensures changes { OnOk result (All (IsChangeBy (lists_of table.now) pivot.now) out.new.items) }
    ensures keeps { OnOk result ((v : ℕ) → IsPut out.old.items v → IsPut out.new.items v) }
    ensures put { OnOk result (w ≢ pivot.now.pair.leave → IsPut out.new.items w) }
    ensures stop { IfErr result (IsPivotStop (lists_of table.now) pivot.now) }
{
    if w == pivot.pair.leave {
        return Ok(());
    }
    let change = change_of(table, pivot, w)?;
    Ok(out.push(change)?)
}

// Whether the level of a line is touched by what the line counts there, and not by its row.
fn is_touched(table: &Table, pair: Pair, line: u32, side: Side) -> bool
    requires kept { IsKept (lists_of table.now) }
    requires line { IsSlotOfLine (lists_of table.now) line }
    ensures level { result ≡ true → IsCostedLevel (lists_of table.now)
        (tables.slot_at (lists_of table.now) line).home }
    ensures untouched { result ≡ false → CountsWhereStands (lists_of table.now) pair.enter line side }
{
    let home = slot_at(table, line).home;
    is_level(home)
        && count_at(table, home, line, side) != 0
        && table.matrix.entry(home, pair.enter) == 0
}

// Whether the last change is that of the slot.
fn is_last(changes: &[Change], w: u32) -> bool
    ensures { result ≡ true → IsPut changes.now w }
{
    match changes.last() {
        Some(change) => change.at == w,
        None => false,
    }
}

// Puts the change of a level behind the others.
fn push_level(table: &Table, pivot: &Pivot, l: u32, out: &mut Vec<Change>) -> Result<(), TableStop>
    requires pivot { CanPivot (lists_of table.now) pivot.now }
    requires level { IsCostedLevel (lists_of table.now) l }
    requires changes { All (IsChangeBy (lists_of table.now) pivot.now) out.old.items }
    ensures changes { OnOk result (All (IsChangeBy (lists_of table.now) pivot.now) out.new.items) }
    ensures keeps { OnOk result ((v : ℕ) → IsPut out.old.items v → IsPut out.new.items v) }
    ensures put { OnOk result (IsPut out.new.items l) }
    ensures stop { IfErr result (IsPivotStop (lists_of table.now) pivot.now) }
{
    let change = level_change(table, pivot, l)?;
    Ok(out.push(change)?)
}

// Puts the change of a line's level behind the others where what the line counts there alone touches it. Two
// lines of one level come one after the other, so that its change is the last one where it is there already.
fn push_line_level(
    table: &Table,
    pivot: &Pivot,
    line: u32,
    side: Side,
    out: &mut Vec<Change>,
) -> Result<(), TableStop>
    requires pivot { CanPivot (lists_of table.now) pivot.now }
    requires line { IsSlotOfLine (lists_of table.now) line }
    requires changes { All (IsChangeBy (lists_of table.now) pivot.now) out.old.items }
    ensures changes { OnOk result (All (IsChangeBy (lists_of table.now) pivot.now) out.new.items) }
    ensures keeps { OnOk result ((v : ℕ) → IsPut out.old.items v → IsPut out.new.items v) }
    ensures put { OnOk result (AreLevelsPut (lists_of table.now) pivot.now.pair.enter line side
        out.new.items) }
    ensures stop { IfErr result (IsPivotStop (lists_of table.now) pivot.now) }
{
    let home = slot_at(table, line).home;
    if is_touched(table, pivot.pair, line, side) && !is_last(out.as_slice(), home) {
        push_level(table, pivot, home, out)
    } else {
        Ok(())
    }
}

// The levels that change though the entering line has no number there.
fn push_touched(table: &Table, pivot: &Pivot, out: &mut Vec<Change>) -> Result<(), TableStop>
    requires pivot { CanPivot (lists_of table.now) pivot.now }
    requires changes { All (IsChangeBy (lists_of table.now) pivot.now) out.old.items }
    requires stands { ArePut (lists_of table.now) pivot.now.pair out.old.items }
    ensures changes { OnOk result (All (IsChangeBy (lists_of table.now) pivot.now) out.new.items) }
    ensures rest { OnOk result (IsRestUntouched (lists_of table.now) pivot.now out.new.items) }
    ensures stop { IfErr result (IsPivotStop (lists_of table.now) pivot.now) }
{
    let pair = pivot.pair;
    push_line_level(table, pivot, pair.enter, pair.side, out)?;
    push_line_level(table, pivot, pair.leave, side_in(table, pair.leave), out)
}

// The changes of all rows but those of the two lines.
fn changes(table: &Table, pivot: &Pivot) -> Result<Vec<Change>, TableStop>
    requires pivot { CanPivot (lists_of table.now) pivot.now }
    ensures changes { IfOk result (λ out. All (IsChangeBy (lists_of table.now) pivot.now) out.items) }
    ensures rest { IfOk result (λ out. IsRestUntouched (lists_of table.now) pivot.now out.items) }
    ensures stop { IfErr result (IsPivotStop (lists_of table.now) pivot.now) }
{
    let column = table.matrix.column(pivot.pair.enter);
    let mut out = Vec::with_capacity(table.alloc, column.len() + 2)?;
    for w in column {
        push_change(table, pivot, *w, &mut out)?;
    }
    push_touched(table, pivot, &mut out)?;
    Ok(out)
}

// The row, with the other sign where `by` is below 0.
fn turned_row(row: IntRow, by: i64) -> IntRow
    ensures value { (c : ℕ) → coefficient c result ≡ exchanges.signed by (coefficient c row) }
    ensures kept { IsKeptRow result }
{
    if by < 0 { row.negated() } else { row }
}

// The entering line's row and value.
fn entering_change(table: &Table, pivot: &Pivot) -> Result<Change, OutOfMemory>
    requires pivot { CanPivot (lists_of table.now) pivot.now }
    ensures ok { IfOk result (IsEnteringBy (lists_of table.now) pivot.now) }
{
    let row = table.matrix.row(pivot.pair.leave).copy()?;
    Ok(Change {
        at: pivot.pair.enter,
        row: turned_row(row, pivot.by),
        value: pivot.value,
    })
}

/// What an exchange makes of the lists, all of which fits.
#[derive(Drop)]
pub struct Exchange {
    pair: Pair,
    entering: Change,
    changes: Vec<Change>,
}

/// The rows and values after an exchange.
pub fn exchange_of(table: &Table, pair: Pair) -> Result<Exchange, TableStop>
    requires pair { CanExchange (lists_of table.now) pair }
    ensures ok { IfOk result (IsExchangeBy (lists_of table.now) pair) }
    ensures stop { IfErr result (IsPairStop (lists_of table.now) pair) }
{
    let pivot = pivot_of(table, pair)?;
    let changes = changes(table, &pivot)?;
    let entering = entering_change(table, &pivot)?;
    Ok(Exchange {
        pair,
        entering,
        changes,
    })
}

/// Puts a standing in place of a slot's.
pub(crate) fn put_standing(
    table: &mut Table,
    at: u32,
    standing: Standing,
) -> Result<(), OutOfMemory>
    requires slots { AreSlots (lists_of table.old) }
    requires within { at < length table.old.slots.items }
    ensures ok { OnOk result (lists_of table.new ≡ with_standing (lists_of table.old) at standing) }
    ensures before { lists_before table.new ≡ lists_before table.old }
    ensures alike { AreAlike table.old → AreAlike table.new }
{
    table.standings.put(at as usize, standing)
}

// Puts a row in place of a slot's.
fn put_row(table: &mut Table, at: u32, row: IntRow) -> Result<(), OutOfMemory>
    requires slots { AreSlots (lists_of table.old) }
    requires within { at < length table.old.slots.items }
    requires below { IsBelow (length table.old.slots.items) row }
    ensures ok { OnOk result (lists_of table.new ≡ with_row (lists_of table.old) at row) }
    ensures before { lists_before table.new ≡ lists_before table.old }
    ensures alike { AreAlike table.old → AreAlike table.new }
{
    table.matrix.put(at, row)
}

/// Puts a value in place of a slot's, where it is another.
pub fn put_value(table: &mut Table, at: u32, value: Frac) -> Result<(), OutOfMemory>
    requires slots { AreSlots (lists_of table.old) }
    requires within { at < length table.old.slots.items }
    ensures ok { OnOk result (lists_of table.new ≡ with_value (lists_of table.old) at value) }
    ensures before { lists_before table.new ≡ lists_before table.old }
    ensures alike { AreAlike table.old → AreAlike table.new }
{
    if value_at(table, at) == value {
        return Ok(());
    }
    let side = side_at(table, at);
    put_standing(table, at, Standing { side, value })
}

/// Puts a row and a value in place of those of its slot.
pub fn put_change(table: &mut Table, change: Change) -> Result<(), OutOfMemory>
    requires slots { AreSlots (lists_of table.old) }
    requires within { change.at < length table.old.slots.items }
    requires below { IsBelow (length table.old.slots.items) change.row }
    ensures ok { OnOk result (lists_of table.new ≡ with_change (lists_of table.old) change) }
    ensures before { lists_before table.new ≡ lists_before table.old }
    ensures alike { AreAlike table.old → AreAlike table.new }
{
    let Change { at, row, value } = change;
    put_value(table, at, value)?;
    put_row(table, at, row)
}

// What the types of a row and a value keep.
fn show_change(change: &Change)
    ensures { IsKeptChange change.now }
{
    let _ = change.row.entries(); // for the proof: what a row keeps
    let _ = change.value.num(); // for the proof: what a fraction keeps
}

// Puts all changes, the last one first.
fn put_changes(table: &mut Table, mut changes: Vec<Change>) -> Result<(), OutOfMemory>
    requires slots { AreSlots (lists_of table.old) }
    requires changes { All (IsChangeIn (lists_of table.old)) changes.items }
    ensures ok { OnOk result (lists_of table.new ≡ with_changes (lists_of table.old) changes.items) }
    ensures kept { OnOk result (All IsKeptChange changes.items) }
    ensures before { lists_before table.new ≡ lists_before table.old }
    ensures alike { AreAlike table.old → AreAlike table.new }
{
    while let Some(change) = changes.pop() {
        show_change(&change); // for the proof: what a row and a value keep
        put_change(table, change)?;
    }
    Ok(())
}

// Takes a slot's row and standing away.
fn clear_slot(table: &mut Table, w: u32) -> Result<(), OutOfMemory>
    requires slots { AreSlots (lists_of table.old) }
    requires within { w < length table.old.slots.items }
    ensures ok { OnOk result (lists_of table.new ≡ cleared (lists_of table.old) w) }
    ensures before { lists_before table.new ≡ lists_before table.old }
    ensures alike { AreAlike table.old → AreAlike table.new }
{
    let none = IntRow::empty(table.alloc);
    put_row(table, w, none)?;
    let gone = Standing {
        side: None,
        value: Frac::zero(),
    };
    put_standing(table, w, gone)
}

// Puts a row with a side and its value in place of a slot's.
fn fill_slot(table: &mut Table, side: Side, change: Change) -> Result<(), OutOfMemory>
    requires slots { AreSlots (lists_of table.old) }
    requires change { IsChangeIn (lists_of table.old) change }
    ensures ok { OnOk result (lists_of table.new ≡ filled (lists_of table.old) side change) }
    ensures before { lists_before table.new ≡ lists_before table.old }
    ensures alike { AreAlike table.old → AreAlike table.new }
{
    let Change { at, row, value } = change;
    let side = Some(side);
    put_standing(table, at, Standing { side, value })?;
    put_row(table, at, row)
}

// Puts what an exchange makes of the rows and values.
fn put_lists(table: &mut Table, made: Exchange) -> Result<(), OutOfMemory>
    requires slots { AreSlots (lists_of table.old) }
    requires leave { made.pair.leave < length table.old.slots.items }
    requires entering { IsChangeIn (lists_of table.old) made.entering }
    requires changes { All (IsChangeIn (lists_of table.old)) made.changes.items }
    ensures ok { OnOk result (lists_of table.new ≡ exchanged_lists (lists_of table.old) made) }
    ensures kept { OnOk result (AreKeptChanges made) }
    ensures before { lists_before table.new ≡ lists_before table.old }
    ensures alike { AreAlike table.old → AreAlike table.new }
{
    let Exchange {
        pair,
        entering,
        changes,
    } = made;
    show_change(&entering); // for the proof: what a row and a value keep
    clear_slot(table, pair.leave)?;
    put_changes(table, changes)?;
    fill_slot(table, pair.side, entering)
}

/// Puts what an exchange makes of the lists, and lists no line.
pub fn put_unlisted(table: &mut Table, made: Exchange) -> Result<(), OutOfMemory>
    requires kept { IsKept (lists_of table.old) }
    requires made { (s : Swap) × IsExchangeOf (lists_of table.old) made s }
    ensures lists { OnOk result (lists_of table.new ≡ exchanged_lists (lists_of table.old) made) }
    ensures kept { OnOk result (IsKept (lists_of table.new)) }
    ensures marks { OnOk result (AreMarksAfter (lists_of table.old) made (lists_of table.new)) }
    ensures before { lists_before table.new ≡ lists_before table.old }
    ensures alike { AreAlike table.old → AreAlike table.new }
{
    put_lists(table, made)
}

/// Puts what an exchange makes of the lists.
pub fn put_exchange(
    table: &mut Table,
    listed: &mut Listed,
    made: Exchange,
) -> Result<(), OutOfMemory>
    requires kept { IsKept (lists_of table.old) }
    requires made { (s : Swap) × IsExchangeOf (lists_of table.old) made s }
    ensures lists { OnOk result (lists_of table.new ≡ exchanged_lists (lists_of table.old) made) }
    ensures kept { OnOk result (IsKept (lists_of table.new)) }
    ensures marks { OnOk result (AreMarksAfter (lists_of table.old) made (lists_of table.new)) }
    ensures listed { OnOk result (AreListedAfter (lists_of table.old) made listed.old listed.new) }
    ensures before { lists_before table.new ≡ lists_before table.old }
    ensures alike { AreAlike table.old → AreAlike table.new }
{
    let pair = made.pair;
    put_lists(table, made)?;
    listed.push(pair.leave)?;
    list_row(table, pair.enter, listed)
}
