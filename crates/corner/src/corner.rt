// A problem and one of its corners.
ghost use Rattle.std.specs.Prelude.{◌≡◌, ◌≢◌, ◌<◌, ◌≤◌, ◌↔◌, ◌-◌, ◌+◌, List, [], ◌∷◌, length};
ghost use Rattle.std.specs.Prelude.{true, All, IfErr};
ghost use Rattle.std.specs.Prelude.{OnOk};
ghost use Rattle.problem_core.specs.Layout.{HasStay};
ghost use Rattle.problem_core.specs.Kept.{IsWhole, IsNumber};
ghost use Rattle.problem_core.specs.Corners.{NoNegativeValue};
ghost use Rattle.frac_core.specs.declared.memory.Stop.TheVariants.{OutOfMemory as NoMemory};
ghost use Rattle.problem_core.specs.Changes.Begins.{BeginsWith};
ghost use Rattle.problem_core.specs.declared.limits.TheConstants.{ROW_LIMIT};
ghost use Rattle.problem_core.specs.Layout as layout;
ghost use Rattle.corner_view.specs.AddStops.{AllSumsFit, IsAddStop};
ghost use Rattle.corner_view.specs.Changes.{IsAsBefore, IsRewound};
ghost use Rattle.corner_view.specs.Stops.{IsUnfitStop};
ghost use Rattle.corner.specs.Settled.{IsSettledAt, IsSettledBy};
ghost use Rattle.corner_shifts.specs.Astray.{GoOnlyListed, NoneGoesAstray};
ghost use Rattle.corner.specs.Known.{AreKnown};
ghost use Rattle.corner_table.specs.declared.table.TheConstants.{LEVELS};
ghost use Rattle.corner_laws.specs.Lifts.{with_rows};
ghost use Rattle.corner_lines.specs.Joins.{with_attr};
ghost use Rattle.corner_exchange.specs.Swaps.NextLists.{AreMarksBy, AreMarksTurned};
ghost use Rattle.corner_exchange.specs.Swaps.Exchanges.{CanExchange, IsPairStop};
ghost use Rattle.corner_exchange.specs.Swaps.TurnedLevels.{CanTurnTo, IsTurnStop};
ghost use Rattle.corner_leaving.specs.Leaving.{IsLeaver, marks_left, problem_left};
ghost use Rattle.corner_table.specs.Tables as tables;
ghost use Rattle.corner_table.specs.Tables.{Lists, lists_of, marks_at, problem_of};
ghost use Rattle.corner_table.specs.Histories.{AreAlike, lists_before};
ghost use Rattle.corner_table.specs.Invariants.{IsConsistent, IsEarlier, names_of, seen_of, view_of};
ghost use Rattle.corner_table.specs.Kept.{HasSlotsLeft};

use crate::known::{Known, forget_for_join, forget_known, nothing_known, shift_known, stand_known};
use crate::lows::low_mark;
use crate::safe::{clear_safe, is_required, is_safe, note};
use cert_core::RunStop;
use corner_exchange::{exchange_of, put_exchange, put_turn, put_unlisted, turn_of, turn_unlisted};
use corner_joins::{join_all, push_attr};
use corner_leaving::{Leaver, leaver_of, left_level, put_left, take_attr};
use corner_orders::put_front;
use corner_packing::pack;
use corner_shifts::list_exchanged;
use corner_table::{
    Listed, Table, attr_slot, back, forget, is_crowded, is_level, level_slot, line_slot, mark,
    marks_with, moved_attrs, name_at, new_table, other, rewind, slot_at,
};
use corner_view::{Front, Fronts, Tableau};
use corner_writings::{
    Pair, are_growers_dear, attr_value, coefficient, cost_at, denominator, entries_in, entry_in,
    front_of, fronts_of, is_inside, is_stronger, list_low, mark_value, mover, movers, reduced_at,
    scale_at, times_at, used,
};
use frac_core::{Frac, OutOfMemory, Stop};
use problem_core::{Level, Mark, Row, RowName, Side, Stay, TableStop, What};
use std::alloc::Global;
use std::marker::Model;

/// A problem and the marks inside at one of its corners, with earlier ones. How they are kept is not seen:
/// each value, writing and cost follows from these two.
#[derive(Drop)]
pub struct Corner {
    table: Table,
    listed: Listed,
    known: Known,
}

// Takes back what was done since the newest mark, at which no line is listed.
fn take_back(table: &mut Table, listed: &mut Listed)
    requires alike { AreAlike table.old }
    requires marked { 0 < length table.old.rows.before }
    requires earlier { All IsEarlier (lists_before table.old) }
    ensures consistent { IsConsistent table.new listed.new }
    ensures before { lists_before table.new ≡ lists_before table.old }
    ensures now { (rest : List Lists) × (lists_before table.old ≡ lists_of table.new ∷ rest) }
    ensures listed { listed.new ≡ [] }
{
    listed.clear();
    rewind(table);
}

// Takes back what was done since the newest mark, for want of memory.
fn rewound(table: &mut Table, listed: &mut Listed) -> TableStop
    requires alike { AreAlike table.old }
    requires marked { 0 < length table.old.rows.before }
    requires earlier { All IsEarlier (lists_before table.old) }
    ensures consistent { IsConsistent table.new listed.new }
    ensures before { lists_before table.new ≡ lists_before table.old }
    ensures stop { result ≡ NoMemory }
    ensures rewound { IsRewound (view_of table.old listed.old) (view_of table.new listed.new) }
{
    take_back(table, listed);
    Stop::OutOfMemory
}

// The stop of a change that is not made. After want of memory all goes back to the newest mark.
fn not_made(table: &mut Table, listed: &mut Listed, stop: TableStop) -> TableStop
    requires consistent { IsConsistent table.old listed.old }
    requires marked { 0 < length table.old.rows.before }
    ensures consistent { IsConsistent table.new listed.new }
    ensures before { lists_before table.new ≡ lists_before table.old }
    ensures stop { result ≡ stop }
    ensures same { IsAsBefore (view_of table.old listed.old) (view_of table.new listed.new) result }
{
    match stop {
        Stop::Refused(quantity) => Stop::Refused(quantity),
        Stop::OutOfMemory => rewound(table, listed),
    }
}

// Exchanges an outside line's mark for an inside line's.
fn exchange_lines(table: &mut Table, listed: &mut Listed, pair: Pair) -> Result<(), TableStop>
    requires consistent { IsConsistent table.old listed.old }
    requires marked { 0 < length table.old.rows.before }
    requires pair { CanExchange (lists_of table.old) pair }
    ensures consistent { IsConsistent table.new listed.new }
    ensures before { lists_before table.new ≡ lists_before table.old }
    ensures problem { OnOk result (problem_of (lists_of table.new) ≡ problem_of (lists_of table.old)) }
    ensures marks { OnOk result (AreMarksBy (lists_of table.old) pair (lists_of table.new)) }
    ensures stays { OnOk result (GoOnlyListed (lists_of table.old) pair.enter (lists_of table.new)) }
    ensures stop { IfErr result (IsPairStop (lists_of table.old) pair) }
    ensures same { IfErr result (IsAsBefore (view_of table.old listed.old) (view_of table.new listed.new)) }
{
    match exchange_of(table, pair) {
        Ok(made) => match put_exchange(table, listed, made) {
            Ok(()) => Ok(()),
            Err(OutOfMemory) => Err(rewound(table, listed)),
        },
        Err(stop) => Err(not_made(table, listed, stop)),
    }
}

// Takes a line's other mark inside.
fn turn_line(table: &mut Table, listed: &mut Listed, line: u32, side: Side) -> Result<(), TableStop>
    requires consistent { IsConsistent table.old listed.old }
    requires marked { 0 < length table.old.rows.before }
    requires turn { CanTurnTo (lists_of table.old) line side }
    ensures consistent { IsConsistent table.new listed.new }
    ensures before { lists_before table.new ≡ lists_before table.old }
    ensures problem { OnOk result (problem_of (lists_of table.new) ≡ problem_of (lists_of table.old)) }
    ensures marks { OnOk result (AreMarksTurned (lists_of table.old) line side (lists_of table.new)) }
    ensures stays { OnOk result (NoneGoesAstray (lists_of table.old) (lists_of table.new)) }
    ensures stop { IfErr result (IsTurnStop (lists_of table.old) line side) }
    ensures same { IfErr result (IsAsBefore (view_of table.old listed.old) (view_of table.new listed.new)) }
{
    match turn_of(table, line, side) {
        Ok(change) => match put_turn(table, listed, line, side, change) {
            Ok(()) => Ok(()),
            Err(OutOfMemory) => Err(rewound(table, listed)),
        },
        Err(stop) => Err(not_made(table, listed, stop)),
    }
}

// Exchanges an outside line's mark for an inside line's where no column is negative after it, and lists no
// line.
fn exchange_settled(table: &mut Table, listed: &mut Listed, pair: Pair) -> Result<(), TableStop>
    requires consistent { IsConsistent table.old listed.old }
    requires marked { 0 < length table.old.rows.before }
    requires pair { CanExchange (lists_of table.old) pair }
    requires settled { IsSettledBy (lists_of table.old) pair }
    ensures consistent { IsConsistent table.new listed.new }
    ensures before { lists_before table.new ≡ lists_before table.old }
    ensures problem { OnOk result (problem_of (lists_of table.new) ≡ problem_of (lists_of table.old)) }
    ensures marks { OnOk result (AreMarksBy (lists_of table.old) pair (lists_of table.new)) }
    ensures stays { OnOk result (GoOnlyListed (lists_of table.old) pair.enter (lists_of table.new)) }
    ensures stop { IfErr result (IsPairStop (lists_of table.old) pair) }
    ensures same { IfErr result (IsAsBefore (view_of table.old listed.old) (view_of table.new listed.new)) }
{
    match exchange_of(table, pair) {
        Ok(made) => match put_unlisted(table, made) {
            Ok(()) => Ok(()),
            Err(OutOfMemory) => Err(rewound(table, listed)),
        },
        Err(stop) => Err(not_made(table, listed, stop)),
    }
}

// Takes a line's other mark inside where no column is negative after it, and lists no line.
fn turn_settled(
    table: &mut Table,
    listed: &mut Listed,
    line: u32,
    side: Side,
) -> Result<(), TableStop>
    requires consistent { IsConsistent table.old listed.old }
    requires marked { 0 < length table.old.rows.before }
    requires turn { CanTurnTo (lists_of table.old) line side }
    requires settled { IsSettledAt (lists_of table.old) line side }
    ensures consistent { IsConsistent table.new listed.new }
    ensures before { lists_before table.new ≡ lists_before table.old }
    ensures problem { OnOk result (problem_of (lists_of table.new) ≡ problem_of (lists_of table.old)) }
    ensures marks { OnOk result (AreMarksTurned (lists_of table.old) line side (lists_of table.new)) }
    ensures stays { OnOk result (NoneGoesAstray (lists_of table.old) (lists_of table.new)) }
    ensures stop { IfErr result (IsTurnStop (lists_of table.old) line side) }
    ensures same { IfErr result (IsAsBefore (view_of table.old listed.old) (view_of table.new listed.new)) }
{
    match turn_of(table, line, side) {
        Ok(change) => match turn_unlisted(table, line, side, change) {
            Ok(()) => Ok(()),
            Err(OutOfMemory) => Err(rewound(table, listed)),
        },
        Err(stop) => Err(not_made(table, listed, stop)),
    }
}

// Takes a stay's other mark inside where no column is negative after it.
fn turn_stay(
    table: &mut Table,
    listed: &mut Listed,
    known: &mut Known,
    line: u32,
    side: Side,
) -> Result<(), TableStop>
    requires consistent { IsConsistent table.old listed.old }
    requires marked { 0 < length table.old.rows.before }
    requires turn { CanTurnTo (lists_of table.old) line side }
    requires settled { IsSettledAt (lists_of table.old) line side }
    requires known { AreKnown (lists_of table.old) known.old }
    requires stay { LEVELS ≤ (tables.slot_at (lists_of table.old) line).home }
    ensures consistent { IsConsistent table.new listed.new }
    ensures before { lists_before table.new ≡ lists_before table.old }
    ensures problem { OnOk result (problem_of (lists_of table.new) ≡ problem_of (lists_of table.old)) }
    ensures marks { OnOk result (AreMarksTurned (lists_of table.old) line side (lists_of table.new)) }
    ensures known { AreKnown (lists_of table.new) known.new }
    ensures stop { IfErr result (IsTurnStop (lists_of table.old) line side) }
    ensures same { IfErr result (IsAsBefore (view_of table.old listed.old) (view_of table.new listed.new)) }
{
    match turn_unlisted(table, line, side, None) {
        Ok(()) => Ok(()),
        Err(OutOfMemory) => {
            forget_known(known);
            Err(rewound(table, listed))
        }
    }
}

// Takes a row's other mark inside where no column is negative after it.
fn turn_row(
    table: &mut Table,
    listed: &mut Listed,
    known: &mut Known,
    line: u32,
    side: Side,
) -> Result<(), TableStop>
    requires consistent { IsConsistent table.old listed.old }
    requires marked { 0 < length table.old.rows.before }
    requires turn { CanTurnTo (lists_of table.old) line side }
    requires settled { IsSettledAt (lists_of table.old) line side }
    requires known { AreKnown (lists_of table.old) known.old }
    ensures consistent { IsConsistent table.new listed.new }
    ensures before { lists_before table.new ≡ lists_before table.old }
    ensures problem { OnOk result (problem_of (lists_of table.new) ≡ problem_of (lists_of table.old)) }
    ensures marks { OnOk result (AreMarksTurned (lists_of table.old) line side (lists_of table.new)) }
    ensures known { AreKnown (lists_of table.new) known.new }
    ensures stop { IfErr result (IsTurnStop (lists_of table.old) line side) }
    ensures same { IfErr result (IsAsBefore (view_of table.old listed.old) (view_of table.new listed.new)) }
{
    match turn_settled(table, listed, line, side) {
        Ok(()) => {
            clear_safe(&mut known.safe);
            Ok(())
        }
        Err(stop) => {
            forget_known(known);
            Err(stop)
        }
    }
}

// Takes a line's other mark inside where no column is negative after it. A stay that is safe to turn is known
// to be so from now on.
fn turn_safe(
    table: &mut Table,
    listed: &mut Listed,
    known: &mut Known,
    line: u32,
    side: Side,
) -> Result<(), TableStop>
    requires consistent { IsConsistent table.old listed.old }
    requires marked { 0 < length table.old.rows.before }
    requires turn { CanTurnTo (lists_of table.old) line side }
    requires settled { IsSettledAt (lists_of table.old) line side }
    requires known { AreKnown (lists_of table.old) known.old }
    ensures consistent { IsConsistent table.new listed.new }
    ensures before { lists_before table.new ≡ lists_before table.old }
    ensures problem { OnOk result (problem_of (lists_of table.new) ≡ problem_of (lists_of table.old)) }
    ensures marks { OnOk result (AreMarksTurned (lists_of table.old) line side (lists_of table.new)) }
    ensures known { AreKnown (lists_of table.new) known.new }
    ensures stop { IfErr result (IsTurnStop (lists_of table.old) line side) }
    ensures same { IfErr result (IsAsBefore (view_of table.old listed.old) (view_of table.new listed.new)) }
{
    if is_level(slot_at(table, line).home) {
        return turn_row(table, listed, known, line, side);
    }
    note(table, &mut known.safe, line, other(side));
    turn_stay(table, listed, known, line, side)
}

// Exchanges an outside line's mark for an inside line's, and lists the stays that move.
fn exchange_known(
    table: &mut Table,
    listed: &mut Listed,
    known: &mut Known,
    pair: Pair,
) -> Result<(), TableStop>
    requires consistent { IsConsistent table.old listed.old }
    requires marked { 0 < length table.old.rows.before }
    requires pair { CanExchange (lists_of table.old) pair }
    requires known { AreKnown (lists_of table.old) known.old }
    ensures consistent { IsConsistent table.new listed.new }
    ensures before { lists_before table.new ≡ lists_before table.old }
    ensures problem { OnOk result (problem_of (lists_of table.new) ≡ problem_of (lists_of table.old)) }
    ensures marks { OnOk result (AreMarksBy (lists_of table.old) pair (lists_of table.new)) }
    ensures known { AreKnown (lists_of table.new) known.new }
    ensures stop { IfErr result (IsPairStop (lists_of table.old) pair) }
    ensures same { IfErr result (IsAsBefore (view_of table.old listed.old) (view_of table.new listed.new)) }
{
    clear_safe(&mut known.safe);
    list_exchanged(table, &mut known.astray, pair.enter);
    match exchange_lines(table, listed, pair) {
        Ok(()) => Ok(()),
        Err(stop) => {
            forget_known(known);
            Err(stop)
        }
    }
}

// Exchanges an outside line's mark for an inside line's where no column is negative after it, and lists the
// stays that move.
fn settle_known(
    table: &mut Table,
    listed: &mut Listed,
    known: &mut Known,
    pair: Pair,
) -> Result<(), TableStop>
    requires consistent { IsConsistent table.old listed.old }
    requires marked { 0 < length table.old.rows.before }
    requires pair { CanExchange (lists_of table.old) pair }
    requires settled { IsSettledBy (lists_of table.old) pair }
    requires known { AreKnown (lists_of table.old) known.old }
    ensures consistent { IsConsistent table.new listed.new }
    ensures before { lists_before table.new ≡ lists_before table.old }
    ensures problem { OnOk result (problem_of (lists_of table.new) ≡ problem_of (lists_of table.old)) }
    ensures marks { OnOk result (AreMarksBy (lists_of table.old) pair (lists_of table.new)) }
    ensures known { AreKnown (lists_of table.new) known.new }
    ensures stop { IfErr result (IsPairStop (lists_of table.old) pair) }
    ensures same { IfErr result (IsAsBefore (view_of table.old listed.old) (view_of table.new listed.new)) }
{
    clear_safe(&mut known.safe);
    list_exchanged(table, &mut known.astray, pair.enter);
    match exchange_settled(table, listed, pair) {
        Ok(()) => Ok(()),
        Err(stop) => {
            forget_known(known);
            Err(stop)
        }
    }
}

// Takes a line's other mark inside. No stay moves.
fn turn_known(
    table: &mut Table,
    listed: &mut Listed,
    known: &mut Known,
    line: u32,
    side: Side,
) -> Result<(), TableStop>
    requires consistent { IsConsistent table.old listed.old }
    requires marked { 0 < length table.old.rows.before }
    requires turn { CanTurnTo (lists_of table.old) line side }
    requires known { AreKnown (lists_of table.old) known.old }
    ensures consistent { IsConsistent table.new listed.new }
    ensures before { lists_before table.new ≡ lists_before table.old }
    ensures problem { OnOk result (problem_of (lists_of table.new) ≡ problem_of (lists_of table.old)) }
    ensures marks { OnOk result (AreMarksTurned (lists_of table.old) line side (lists_of table.new)) }
    ensures known { AreKnown (lists_of table.new) known.new }
    ensures stop { IfErr result (IsTurnStop (lists_of table.old) line side) }
    ensures same { IfErr result (IsAsBefore (view_of table.old listed.old) (view_of table.new listed.new)) }
{
    match turn_line(table, listed, line, side) {
        Ok(()) => {
            clear_safe(&mut known.safe);
            Ok(())
        }
        Err(stop) => {
            forget_known(known);
            Err(stop)
        }
    }
}

// Takes a row out whose mark is inside.
fn take_row(table: &mut Table, listed: &mut Listed, leaver: Leaver) -> Result<(), TableStop>
    requires consistent { IsConsistent table.old listed.old }
    requires marked { 0 < length table.old.rows.before }
    requires leaver { (r : layout.Row) × IsLeaver (lists_of table.old) r leaver }
    ensures consistent { IsConsistent table.new listed.new }
    ensures before { lists_before table.new ≡ lists_before table.old }
    ensures problem { OnOk result
        (problem_of (lists_of table.new) ≡ problem_left (lists_of table.old) leaver) }
    ensures marks { OnOk result (marks_at (lists_of table.new) ≡ marks_left (lists_of table.old) leaver) }
    ensures stop { IfErr result (IsUnfitStop (problem_left (lists_of table.old) leaver)
        (marks_left (lists_of table.old) leaver)) }
    ensures same { IfErr result (IsAsBefore (view_of table.old listed.old) (view_of table.new listed.new)) }
{
    match left_level(table, leaver) {
        Ok(left) => match put_left(table, listed, leaver, left) {
            Ok(()) => Ok(()),
            Err(OutOfMemory) => Err(rewound(table, listed)),
        },
        Err(stop) => Err(not_made(table, listed, stop)),
    }
}

// Takes the slots of nothing out where there are as many of them as of something.
fn make_room(table: &mut Table, listed: &mut Listed) -> Result<(), OutOfMemory>
    requires { IsConsistent table.old listed.old }
    ensures unmoved { HasSlotsLeft (lists_of table.old) → table.new ≡ table.old }
    ensures consistent { OnOk result (IsConsistent table.new listed.new) }
    ensures left { OnOk result (HasSlotsLeft (lists_of table.new)) }
    ensures problem { OnOk result (problem_of (lists_of table.new) ≡ problem_of (lists_of table.old)) }
    ensures marks { OnOk result (marks_at (lists_of table.new) ≡ marks_at (lists_of table.old)) }
    ensures names { OnOk result (names_of (lists_of table.new) listed.new
        ≡ names_of (lists_of table.old) listed.old) }
    ensures before { lists_before table.new ≡ lists_before table.old }
    ensures alike { AreAlike table.new }
{
    if is_crowded(table) {
        return pack(table, listed);
    }
    Ok(())
}

// Adds an attribute at this value, and its stay.
fn join_attr(
    table: &mut Table,
    listed: &mut Listed,
    attr: u32,
    target: Frac,
) -> Result<(), OutOfMemory>
    requires consistent { IsConsistent table.old listed.old }
    requires number { IsNumber attr }
    requires fresh { HasStay table.old.stays.items attr → ⊥ }
    requires room { length table.old.stays.items < ROW_LIMIT }
    ensures consistent { OnOk result (IsConsistent table.new listed.new) }
    ensures problem { OnOk result (problem_of (lists_of table.new)
        ≡ with_attr attr target (problem_of (lists_of table.old))) }
    ensures marks { OnOk result (marks_at (lists_of table.new) ≡ marks_at (lists_of table.old)) }
    ensures names { OnOk result (names_of (lists_of table.new) listed.new
        ≡ names_of (lists_of table.old) listed.old) }
    ensures stays { OnOk result (HasSlotsLeft (lists_of table.old)
        → NoneGoesAstray (lists_of table.old) (lists_of table.new)) }
    ensures before { lists_before table.new ≡ lists_before table.old }
    ensures alike { AreAlike table.new }
{
    make_room(table, listed)?;
    push_attr(table, attr, target)
}

// Adds rows, each with its mark that is not negative.
fn join_rows(table: &mut Table, listed: &mut Listed, rows: &[Row]) -> Result<(), RunStop>
    requires consistent { IsConsistent table.old listed.old }
    requires whole { IsWhole (with_rows rows.now (problem_of (lists_of table.old))) }
    requires values { NoNegativeValue (problem_of (lists_of table.old)) (marks_at (lists_of table.old)) }
    ensures consistent { OnOk result (IsConsistent table.new listed.new) }
    ensures problem { OnOk result (problem_of (lists_of table.new)
        ≡ with_rows rows.now (problem_of (lists_of table.old))) }
    ensures marks { OnOk result (BeginsWith (problem_of (lists_of table.new)) (marks_at (lists_of table.old))
        rows.now [] (marks_at (lists_of table.new))) }
    ensures stays { OnOk result (HasSlotsLeft (lists_of table.old)
        → NoneGoesAstray (lists_of table.old) (lists_of table.new)) }
    ensures fits { OnOk result (AllSumsFit (seen_of (lists_of table.old)) rows.now) }
    ensures before { lists_before table.new ≡ lists_before table.old }
    ensures alike { AreAlike table.new }
    ensures stop { IfErr result (IsAddStop (seen_of (lists_of table.old)) rows.now) }
{
    make_room(table, listed)?;
    join_all(table, listed, rows)
}

// Whether both are marks of one line.
fn are_of_line(a: Mark, b: Mark) -> bool
    ensures { (result ≡ true) ↔ (a.row ≡ b.row) }
{
    a.row == b.row
}

impl Model for Corner {
    ghost use Rattle.corner_view.specs.Seen.{CornerView};
    ghost use Rattle.corner_table.specs.Tables.{lists_of};
    ghost use Rattle.corner_table.specs.Invariants.{IsConsistent, view_of};
    ghost use Rattle.corner.specs.Known.{AreKnown};

    ghost Value = { CornerView };

    ghost view = { λ c. view_of c.table c.listed };

    ghost invariant = { λ c. IsConsistent c.table c.listed × AreKnown (lists_of c.table) c.known };
}

impl Tableau for Corner {
    ghost seen = { λ c. c };

    fn new(alloc: Global) -> Result<Corner, OutOfMemory> {
        let table = new_table(alloc)?;
        let listed = Listed::new(alloc);
        let known = nothing_known(alloc);
        Ok(Corner {
            table,
            listed,
            known,
        })
    }

    fn show_corner(&self) {
        let _ = &self.table; // for the proof: what a corner keeps
    }

    fn rows(&self) -> &[Row] {
        self.table.rows.as_slice()
    }

    fn stays(&self) -> &[Stay] {
        self.table.stays.as_slice()
    }

    fn marks(&self) -> Result<Vec<Mark>, OutOfMemory> {
        marks_with(&self.table, &[])
    }

    fn is_inside(&self, mark: Mark) -> bool {
        is_inside(&self.table, mark)
    }

    fn value(&self, mark: Mark) -> Frac {
        mark_value(&self.table, mark)
    }

    fn low_mark(&self, row: RowName) -> Option<Mark> {
        low_mark(&self.table, row)
    }

    fn attr_value(&self, attr: u32) -> Frac {
        attr_value(&self.table, attr)
    }

    fn movers(&self, mark: Mark) -> usize {
        movers(&self.table, mark)
    }

    fn mover(&self, mark: Mark, i: usize) -> What {
        mover(&self.table, mark, i)
    }

    fn entries(&self, mark: Mark) -> usize {
        entries_in(&self.table, mark)
    }

    fn entry(&self, mark: Mark, i: usize) -> RowName {
        entry_in(&self.table, mark, i)
    }

    fn are_growers_dear(&self, mark: Mark, level: Level) -> bool {
        if is_required(level) {
            return is_safe(&self.table, &self.known.safe, mark);
        }
        are_growers_dear(&self.table, mark, level)
    }

    fn list_low(&self, row: RowName, low: &mut Vec<RowName>) -> Result<(), OutOfMemory> {
        list_low(&self.table, row, low)
    }

    fn coefficient(&self, what: What, mark: Mark) -> i64 {
        coefficient(&self.table, what, mark)
    }

    fn denominator(&self, what: What) -> i64 {
        denominator(&self.table, what)
    }

    fn reduced(&self, level: Level, mark: Mark) -> i64 {
        reduced_at(&self.table, level_slot(&self.table, level), mark)
    }

    fn front(&self, mark: Mark) -> Option<Front> {
        front_of(&self.table, mark)
    }

    fn fronts(&self, row: RowName) -> Fronts {
        fronts_of(&self.table, row)
    }

    fn multiplier(&self, level: Level, row: RowName) -> i64 {
        let line = line_slot(&self.table, row);
        times_at(&self.table, level_slot(&self.table, level), line)
    }

    fn scale(&self, level: Level) -> i64 {
        scale_at(&self.table, level_slot(&self.table, level))
    }

    fn cost(&self, level: Level) -> Frac {
        cost_at(&self.table, level_slot(&self.table, level))
    }

    fn levels(&self) -> Result<Vec<Level>, OutOfMemory> {
        let mut out = Vec::new(self.table.alloc);
        used(&self.table, &mut out)?;
        Ok(out)
    }

    fn is_stronger(&self, a: Level, b: Level) -> bool {
        is_stronger(&self.table, a, b)
    }

    fn candidates(&self) -> usize {
        self.listed.len()
    }

    fn candidate(&self, i: usize) -> RowName {
        name_at(&self.table, self.listed.slot(i))
    }

    fn unlist(&mut self, i: usize) {
        self.listed.remove(i);
    }

    fn swap(&mut self, enter: Mark, leave: Mark) -> Result<(), TableStop> {
        let line = line_slot(&self.table, enter.row);
        if are_of_line(enter, leave) {
            return turn_known(
                &mut self.table,
                &mut self.listed,
                &mut self.known,
                line,
                enter.side,
            );
        }
        let pair = Pair {
            enter: line,
            side: enter.side,
            leave: line_slot(&self.table, leave.row),
        };
        exchange_known(&mut self.table, &mut self.listed, &mut self.known, pair)
    }

    fn swap_settled(&mut self, enter: Mark, leave: Mark) -> Result<(), TableStop> {
        let line = line_slot(&self.table, enter.row);
        if are_of_line(enter, leave) {
            return turn_safe(
                &mut self.table,
                &mut self.listed,
                &mut self.known,
                line,
                enter.side,
            );
        }
        let pair = Pair {
            enter: line,
            side: enter.side,
            leave: line_slot(&self.table, leave.row),
        };
        settle_known(&mut self.table, &mut self.listed, &mut self.known, pair)
    }

    fn add_attr(&mut self, attr: u32, target: Frac) -> Result<(), OutOfMemory> {
        forget_for_join(&self.table, &mut self.known);
        match join_attr(&mut self.table, &mut self.listed, attr, target) {
            Ok(()) => Ok(()),
            Err(OutOfMemory) => {
                forget_known(&mut self.known);
                take_back(&mut self.table, &mut self.listed);
                Err(OutOfMemory)
            }
        }
    }

    fn add_rows(&mut self, rows: &[Row]) -> Result<(), RunStop> {
        forget_for_join(&self.table, &mut self.known);
        match join_rows(&mut self.table, &mut self.listed, rows) {
            Ok(()) => Ok(()),
            Err(stop) => {
                forget_known(&mut self.known);
                take_back(&mut self.table, &mut self.listed);
                Err(stop)
            }
        }
    }

    fn shift(&mut self, id: u32, to: Frac) -> Result<(), TableStop> {
        match shift_known(&mut self.table, &mut self.known, id, to) {
            Ok(()) => Ok(()),
            Err(stop) => {
                forget_known(&mut self.known);
                take_back(&mut self.table, &mut self.listed);
                Err(stop)
            }
        }
    }

    fn drop_row(&mut self, id: u32) -> Result<(), TableStop> {
        forget_known(&mut self.known);
        let leaver = leaver_of(&self.table, id);
        take_row(&mut self.table, &mut self.listed, leaver)
    }

    fn drop_attr(&mut self, attr: u32) -> Result<(), OutOfMemory> {
        forget_known(&mut self.known);
        match take_attr(&mut self.table, &mut self.listed, attr) {
            Ok(()) => Ok(()),
            Err(OutOfMemory) => {
                take_back(&mut self.table, &mut self.listed);
                Err(OutOfMemory)
            }
        }
    }

    fn stand(&mut self) -> Result<(), OutOfMemory> {
        match stand_known(&mut self.table, &mut self.known) {
            Ok(()) => Ok(()),
            Err(OutOfMemory) => {
                forget_known(&mut self.known);
                take_back(&mut self.table, &mut self.listed);
                Err(OutOfMemory)
            }
        }
    }

    fn put_first(&mut self, attrs: &[u32]) -> Result<(), OutOfMemory> {
        forget_known(&mut self.known);
        match put_front(&mut self.table, &mut self.listed, attrs) {
            Ok(()) => Ok(()),
            Err(OutOfMemory) => {
                take_back(&mut self.table, &mut self.listed);
                Err(OutOfMemory)
            }
        }
    }

    fn mark(&mut self) {
        mark(&mut self.table);
    }

    fn back(&mut self) {
        forget_known(&mut self.known);
        self.listed.clear();
        back(&mut self.table);
    }

    fn rewind(&mut self) {
        forget_known(&mut self.known);
        take_back(&mut self.table, &mut self.listed);
    }

    fn forget(&mut self) {
        forget(&mut self.table);
    }

    fn moved(&self) -> Result<Vec<u32>, OutOfMemory> {
        let moved = moved_attrs(&self.table)?;
        Ok(moved)
    }
}
