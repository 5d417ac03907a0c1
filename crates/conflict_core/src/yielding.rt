// One engine for all rows that clash: each in turn gives way by as much as they clash.
ghost use Rattle.std.specs.Prelude.{◌≡◌, ◌<◌, [], ◌∷◌, length, IsTrue, AllPairs, IfOk, IfSome};
ghost use Rattle.frac_core.specs.Fraction.{IsFitting, IsKept};
ghost use Rattle.layout_solver.specs.Shifts.{CanShift, shifted, with_shifts};
ghost use Rattle.conflict_core.specs.Cores.{trial};
ghost use Rattle.conflict_core.specs.Searches.{AreTrials, IsNext, IsSearch, left_of};
ghost use Rattle.conflict_core.specs.Trials.{nothing};
ghost use Rattle.conflict_core.specs.Yielding.{GivesWay, IsOwn, MayGet};

use crate::listing::tried_rows;
use crate::search::Search;
use crate::trials::{Trials, copied, values_of};
use cert_core::Conflict;
use corner_view::Tableau;
use frac_core::{Frac, OutOfMemory, PART_BOUND};
use layout_solver::{Change, Engine, Request, RequestStop};
use problem_core::{Row, RowName, row_of};
use std::alloc::Global;

// The row of the number with its own constant.
fn own(rows: &[Row], id: u32) -> Option<Change>
    requires rising { AllPairs (λ r s. r.id < s.id) rows.now }
    ensures { IfSome result (λ c. (c.row ≡ id) × IsOwn rows.now c) }
{
    let row = row_of(rows, id)?;
    row.show_row(); // for the proof: what a row keeps
    Some(Change {
        row: id,
        constant: row.constant(),
    })
}

// Whether the number fits.
fn is_fitting(times: i64) -> bool
    ensures { IsTrue result → IsFitting times }
{
    (times.unsigned_abs() as u128) < PART_BOUND
}

// The sum with so many times the fraction, if it fits.
fn more(sum: Frac, times: i64, fraction: Frac) -> Option<Frac> {
    if !is_fitting(times) {
        return None;
    }
    match Frac::mul_add(sum, times, 1, fraction) {
        Ok(all) => Some(all),
        Err(_) => None,
    }
}

// The fraction less a part of another one, if it fits.
fn less_part(all: Frac, fraction: Frac, parts: i64) -> Option<Frac> {
    if parts <= 0 || !is_fitting(parts) {
        return None;
    }
    match Frac::mul_add(all, -1, parts, fraction) {
        Ok(less) => Some(less),
        Err(_) => None,
    }
}

// By how much rows clash: the sum of their constants, each times its multiplier.
#[derive(Drop)]
struct Clash<'a> {
    rows: &'a [Row],
    sum: Frac,
}

// By how much these rows clash, if that fits.
fn clash_sum(rows: &[Row], by: &Conflict) -> Option<Frac>
    requires rising { AllPairs (λ r s. r.id < s.id) rows.now }
{
    let mut sum = Frac::zero();
    for by in by.by() {
        if let RowName::Held(id) = by.row {
            sum = more(sum, by.times, own(rows, id)?.constant)?;
        }
    }
    Some(sum)
}

// The constant with which the row gives way, if it counts so many times in the sum.
fn yielded(own: &Change, times: i64, clash: Frac) -> Option<Change>
    ensures { IfSome result (λ c. (c.row ≡ own.now.row) × IsKept c.constant) }
{
    let constant = if times < 0 {
        less_part(
            own.constant,
            more(Frac::zero(), -1, clash)?,
            times.checked_neg()?,
        )?
    } else {
        less_part(own.constant, clash, times)?
    };
    let _ = constant.num(); // for the proof: what a fraction keeps
    Some(Change {
        row: own.row,
        constant,
    })
}

/// Whether the row may get the constant.
pub(crate) fn may_get(rows: &[Row], to: &Change) -> bool
    requires rising { AllPairs (λ r s. r.id < s.id) rows.now }
    requires kept { IsKept to.now.constant }
    ensures { IsTrue result → MayGet rows.now to.now }
{
    let Some(from) = own(rows, to.row) else {
        return false;
    };
    match Frac::mul_add(to.constant, -1, 1, from.constant) {
        Ok(_) => true,
        Err(_) => false,
    }
}

// The row with the change's constant if it is the change's, else a copy.
fn changed(alloc: Global, row: &Row, to: &Change) -> Result<Row, OutOfMemory>
    requires kept { IsKept to.now.constant }
    ensures { IfOk result (λ r. (r ∷ []) ≡ shifted (to.now ∷ []) (row.now ∷ [])) }
{
    row.show_row(); // for the proof: what a row keeps
    if row.id() != to.row {
        return Ok(row.clone()?);
    }
    Row::of(
        alloc,
        row.id(),
        row.rank(),
        row.weight(),
        row.rel(),
        row.scale(),
        to.constant,
        row.terms(),
    )
}

// Copies of the rows, one of them with another constant.
fn all_changed(alloc: Global, rows: &[Row], to: &Change) -> Result<Vec<Row>, OutOfMemory>
    requires kept { IsKept to.now.constant }
    ensures { IfOk result (λ out. out.items ≡ shifted (to.now ∷ []) rows.now) }
{
    let mut out = Vec::new(alloc);
    for row in rows {
        out.push(changed(alloc, row, to)?)?;
    }
    Ok(out)
}

// Adds all attributes and the rows to an empty engine. One row gives way.
fn begin<T: Tableau>(
    e: &mut Engine<T>,
    t: &Trials,
    s: &Search,
    rows: Vec<Row>,
    to: &Change,
) -> Result<(), RequestStop>
    requires nothing { e.old ≡ nothing }
    requires trials { AreTrials t.now }
    requires rows { rows.items ≡ shifted (to.now ∷ []) (trial t.now.problem.now s.now.rows.items).rows }
    requires kept { IsKept to.now.constant }
    ensures { IfOk result (λ _. GivesWay t.now.problem.now s.now.rows.items to.now e.new) }
{
    t.problem.show_whole(); // for the proof: what a problem keeps
    let attrs = copied(t.alloc, t.attrs)?;
    e.solve(&Request::Add { attrs, rows }, t.budget)
}

// Two changes, in this order.
fn both(alloc: Global, first: &Change, next: &Change) -> Result<Vec<Change>, OutOfMemory>
    ensures { IfOk result (λ to. to.items ≡ first.now ∷ next.now ∷ []) }
{
    Ok(Vec::from_slice(alloc, &[*first, *next])?)
}

// Gives two rows other constants, and forgets the layout before that.
fn shift_both<T: Tableau>(
    e: &mut Engine<T>,
    t: &Trials,
    first: &Change,
    next: &Change,
) -> Result<(), RequestStop>
    requires earlier { length e.old.earlier ≡ 1 }
    requires held { CanShift e.old.problem (first.now ∷ next.now ∷ []) }
    requires rising { first.now.row < next.now.row }
    requires first { IsKept first.now.constant }
    requires next { IsKept next.now.constant }
    ensures done { IfOk result (λ _. e.new.problem ≡ with_shifts e.old (first.now ∷ next.now ∷ [])) }
    ensures earlier { IfOk result (λ _. length e.new.earlier ≡ 1) }
{
    let to = both(t.alloc, first, next)?;
    e.solve(&Request::Shift(to), t.budget)?;
    e.forget();
    Ok(())
}

// Whether two of the rows may get these constants, one after the other.
fn may_get_both(rows: &[Row], first: &Change, next: &Change) -> bool
    requires rising { AllPairs (λ r s. r.id < s.id) rows.now }
    requires first { IsKept first.now.constant }
    requires next { IsKept next.now.constant }
    ensures { IsTrue result
        → (first.now.row < next.now.row) × MayGet rows.now first.now × MayGet rows.now next.now }
{
    first.row < next.row && may_get(rows, first) && may_get(rows, next)
}

// The row that gave way gets its own constant again, and the next one gives way. Returns whether the run
// ends. It has six parameters: three say what the engine holds, and two rows change.
fn is_next<T: Tableau>(
    e: &mut Engine<T>,
    t: &Trials,
    s: &Search,
    rows: &[Row],
    last: &Change,
    to: &Change,
) -> bool
    requires trials { AreTrials t.now }
    requires rows { rows.now ≡ (trial t.now.problem.now s.now.rows.items).rows }
    requires last { GivesWay t.now.problem.now s.now.rows.items last.now e.old }
    requires kept { IsKept to.now.constant }
    ensures { IsTrue result → GivesWay t.now.problem.now s.now.rows.items to.now e.new }
{
    t.problem.show_whole(); // for the proof: what a problem keeps
    e.show_layout(); // for the proof: what an engine keeps
    let Some(back) = own(rows, last.row) else {
        return false;
    };
    if !may_get_both(e.rows(), &back, to) {
        return false;
    }
    let Ok(()) = shift_both(e, t, &back, to) else {
        return false;
    };
    true
}

// The constant with which the next row gives way.
fn next_yielded(s: &Search, clash: &Clash) -> Option<Change>
    requires rising { AllPairs (λ r s. r.id < s.id) clash.now.rows.now }
    requires next { length s.now.without.items < length s.now.rows.items }
    ensures { IfSome result (λ c. IsNext s.now c.row × IsKept c.constant) }
{
    let i = s.without.len();
    let own = own(clash.rows, s.rows[i])?;
    yielded(&own, s.by.by().get(i)?.times, clash.sum)
}

// Keeps the values of an engine in which the next row gives way.
fn keep_values<T: Tableau>(
    e: &Engine<T>,
    t: &Trials,
    s: &mut Search,
    to: &Change,
) -> Result<(), OutOfMemory>
    requires trials { AreTrials t.now }
    requires search { IsSearch t.now.problem.now s.old }
    requires next { IsNext s.old to.now.row }
    requires way { GivesWay t.now.problem.now s.old.rows.items to.now e.now }
    ensures search { IfOk result (λ _. IsSearch t.now.problem.now s.new) }
    ensures rows { IfOk result (λ _. s.new.rows.items ≡ s.old.rows.items) }
    ensures nearer { IfOk result (λ _. left_of s.new < left_of s.old) }
{
    e.show_layout(); // for the proof: what an engine keeps
    let values = values_of(t.alloc, e, t.numbers)?;
    s.without.push((to.row, values))?;
    Ok(())
}

// Goes on from the row that gave way last to the others, as long as the runs end.
fn go_on<T: Tableau>(
    e: &mut Engine<T>,
    t: &Trials,
    s: &mut Search,
    clash: &Clash,
    last: &Change,
) -> Result<(), OutOfMemory>
    requires trials { AreTrials t.now }
    requires rows { clash.now.rows.now ≡ (trial t.now.problem.now s.old.rows.items).rows }
    requires last { GivesWay t.now.problem.now s.old.rows.items last.now e.old }
    requires search { IsSearch t.now.problem.now s.old }
    ensures search { IfOk result (λ _. IsSearch t.now.problem.now s.new) }
{
    t.problem.show_whole(); // for the proof: what a problem keeps
    let mut last = *last;
    while s.without.len() < s.rows.len() {
        let Some(to) = next_yielded(s, clash) else {
            return Ok(());
        };
        if !is_next(e, t, s, clash.rows, &last, &to) {
            return Ok(());
        }
        keep_values(e, t, s, &to)?;
        last = to;
    }
    Ok(())
}

// The first row gives way on an empty engine, then the others.
fn give_way_from<T: Tableau>(
    e: &mut Engine<T>,
    t: &Trials,
    s: &mut Search,
    clash: &Clash,
    first: &Change,
) -> Result<(), OutOfMemory>
    requires nothing { e.old ≡ nothing }
    requires trials { AreTrials t.now }
    requires rows { clash.now.rows.now ≡ (trial t.now.problem.now s.old.rows.items).rows }
    requires next { IsNext s.old first.now.row }
    requires kept { IsKept first.now.constant }
    requires search { IsSearch t.now.problem.now s.old }
    ensures search { IfOk result (λ _. IsSearch t.now.problem.now s.new) }
{
    let rows = all_changed(t.alloc, clash.rows, first)?;
    let Ok(()) = begin(e, t, s, rows, first) else {
        return Ok(());
    };
    keep_values(e, t, s, first)?;
    go_on(e, t, s, clash, first)
}

// The same on a new engine.
fn give_way_anew<T: Tableau>(
    t: &Trials,
    s: &mut Search,
    clash: &Clash,
    first: &Change,
) -> Result<(), OutOfMemory>
    requires trials { AreTrials t.now }
    requires rows { clash.now.rows.now ≡ (trial t.now.problem.now s.old.rows.items).rows }
    requires next { IsNext s.old first.now.row }
    requires kept { IsKept first.now.constant }
    requires search { IsSearch t.now.problem.now s.old }
    ensures search { IfOk result (λ _. IsSearch t.now.problem.now s.new) }
{
    let mut engine = Engine::<T>::new(t.alloc)?;
    let given = give_way_from(&mut engine, t, s, clash, first);
    drop(engine); // for the proof: moved on, not taken apart here
    given
}

// The rows give way in turn, as long as numbers fit and the runs end.
fn give_way<T: Tableau>(t: &Trials, s: &mut Search, rows: &[Row]) -> Result<(), OutOfMemory>
    requires trials { AreTrials t.now }
    requires rows { rows.now ≡ (trial t.now.problem.now s.old.rows.items).rows }
    requires next { length s.old.without.items < length s.old.rows.items }
    requires search { IsSearch t.now.problem.now s.old }
    ensures search { IfOk result (λ _. IsSearch t.now.problem.now s.new) }
{
    t.problem.show_whole(); // for the proof: what a problem keeps
    let Some(sum) = clash_sum(rows, &s.by) else {
        return Ok(());
    };
    let clash = Clash { rows, sum };
    let Some(first) = next_yielded(s, &clash) else {
        return Ok(());
    };
    give_way_anew::<T>(t, s, &clash, &first)
}

/// Finds values without each row, as far as one engine shows them in which the rows give way in turn.
pub(crate) fn hasten<T: Tableau>(t: &Trials, s: &mut Search) -> Result<(), OutOfMemory>
    requires trials { AreTrials t.now }
    requires search { IsSearch t.now.problem.now s.old }
    ensures search { IfOk result (λ _. IsSearch t.now.problem.now s.new) }
{
    let rows = tried_rows(t.alloc, t.problem, &s.rows)?;
    if s.without.len() >= s.rows.len() {
        return Ok(());
    }
    give_way::<T>(t, s, &rows)
}
