// The problems of requests, made without solving them.
ghost use Rattle.std.specs.Prelude.{◌≡◌, ◌≢◌, ◌++◌, ◌∷◌, [], All, AllPairs, IfOk};
ghost use Rattle.problem_core.specs.Layout.{HasStay};
ghost use Rattle.problem_core.specs.Kept.{IsRow, IsWhole};
ghost use Rattle.problem_core.specs.Unfit.{at_constant};
ghost use Rattle.layout_solver.specs.Keeping.{with_kept};
ghost use Rattle.layout_solver.specs.Layouts.{stays_at, with_added, zeros};
ghost use Rattle.layout_solver.specs.Removals.{CanLeave, other_rows, other_stays, with_removed};
ghost use Rattle.layout_solver.specs.Requests.{CanSolve, posed_by};
ghost use Rattle.layout_solver.specs.Shifts.{shifted, with_shifts};

use crate::engine::{Change, Engine};
use crate::request::Request;
use corner_view::Tableau;
use frac_core::{Frac, OutOfMemory};
use problem_core::{Problem, Row, Stay};
use stay_orders::in_front;
use std::alloc::Global;

// The stays, at the present values.
fn moved_stays<T: Tableau>(alloc: Global, engine: &Engine<T>) -> Result<Vec<Stay>, OutOfMemory>
    ensures { IfOk result (λ stays. stays.items ≡ stays_at engine.now.values) }
{
    engine.show_layout(); // for the proof: what an engine keeps
    let held = engine.stays();
    let mut stays = Vec::new(alloc);
    for stay in held {
        stays.push(Stay {
            attr: stay.attr,
            target: engine.value_at(stay.attr),
        })?;
    }
    Ok(stays)
}

// Appends stays of these attributes, at 0.
fn push_zeros(stays: &mut Vec<Stay>, attrs: &[u32]) -> Result<(), OutOfMemory>
    ensures { IfOk result (λ _. stays.new.items ≡ stays.old.items ++ stays_at (zeros attrs.now)) }
{
    for attr in attrs {
        stays.push(Stay {
            attr: *attr,
            target: Frac::zero(),
        })?;
    }
    Ok(())
}

// The constant of the row after the change, if it is this one before.
fn constant_past(row: &Row, change: &Change, constant: Frac) -> Frac
    ensures own { change.now.row ≡ row.now.id → result ≡ change.now.constant }
    ensures other { (change.now.row ≡ row.now.id → ⊥) → result ≡ constant }
{
    if change.row == row.id() {
        change.constant
    } else {
        constant
    }
}

// The row's constant after the changes.
fn constant_after(row: &Row, to: &[Change]) -> Frac
    ensures { shifted to.now (row.now ∷ []) ≡ at_constant result row.now ∷ [] }
{
    let mut constant = row.constant();
    for change in to {
        constant = constant_past(row, change, constant);
    }
    constant
}

// The row with this constant.
fn with_constant(alloc: Global, row: &Row, constant: Frac) -> Result<Row, OutOfMemory>
    ensures row { IfOk result (λ r. r ≡ at_constant constant row.now) }
    ensures kept { IfOk result IsRow }
{
    let with = row.with_constant(alloc, constant)?;
    with.show_row(); // for the proof: what a row keeps
    Ok(with)
}

// The rows with these constants.
fn rows_after(alloc: Global, rows: &[Row], to: &[Change]) -> Result<Vec<Row>, OutOfMemory>
    ensures rows { IfOk result (λ after. after.items ≡ shifted to.now rows.now) }
    ensures each { IfOk result (λ after. All IsRow after.items) }
{
    let mut after = Vec::new(alloc);
    for row in rows {
        after.push(with_constant(alloc, row, constant_after(row, to))?)?;
    }
    Ok(after)
}

// Appends a copy of the row, if it has none of these numbers.
fn push_left(left: &mut Vec<Row>, row: &Row, gone: &[u32]) -> Result<(), OutOfMemory>
    ensures { IfOk result (λ _. left.new.items ≡ left.old.items ++ other_rows gone.now (row.now ∷ [])) }
{
    if !gone.contains(&row.id()) {
        left.push(row.clone()?)?;
    }
    Ok(())
}

// Copies of the rows that have none of these numbers.
fn left_rows(alloc: Global, rows: &[Row], gone: &[u32]) -> Result<Vec<Row>, OutOfMemory>
    ensures { IfOk result (λ left. left.items ≡ other_rows gone.now rows.now) }
{
    let mut left = Vec::new(alloc);
    for row in rows {
        push_left(&mut left, row, gone)?;
    }
    Ok(left)
}

// The stays of all attributes except these.
fn left_stays(alloc: Global, stays: &[Stay], gone: &[u32]) -> Result<Vec<Stay>, OutOfMemory>
    ensures { IfOk result (λ left. left.items ≡ other_stays gone.now stays.now) }
{
    let mut left = Vec::new(alloc);
    for stay in stays {
        if !gone.contains(&stay.attr) {
            left.push(*stay)?;
        }
    }
    Ok(left)
}

// The problem with more attributes and rows, the stays at the present values.
fn with_more<T: Tableau>(
    alloc: Global,
    engine: &Engine<T>,
    attrs: &[u32],
    mut rows: Vec<Row>,
) -> Result<Problem, OutOfMemory>
    requires { IsWhole (with_added engine.now attrs.now rows.items) }
    ensures { IfOk result (λ p. p ≡ with_added engine.now attrs.now rows.items) }
{
    let mut stays = moved_stays(alloc, engine)?;
    push_zeros(&mut stays, attrs)?;
    let mut all = rows_after(alloc, engine.rows(), &[])?;
    all.append(&mut rows)?;
    Ok(Problem::of(all, stays))
}

// The problem with these constants, the stays at the present values.
fn with_others<T: Tableau>(
    alloc: Global,
    engine: &Engine<T>,
    to: &[Change],
) -> Result<Problem, OutOfMemory>
    ensures { IfOk result (λ p. p ≡ with_shifts engine.now to.now) }
{
    engine.show_layout(); // for the proof: what an engine keeps
    let stays = moved_stays(alloc, engine)?;
    let rows = rows_after(alloc, engine.rows(), to)?;
    Ok(Problem::of(rows, stays))
}

// The problem with the stays of these attributes first, all at the present values.
fn with_first<T: Tableau>(
    alloc: Global,
    engine: &Engine<T>,
    attrs: &[u32],
) -> Result<Problem, OutOfMemory>
    requires held { All (HasStay engine.now.problem.stays) attrs.now }
    requires apart { AllPairs (λ a b. a ≢ b) attrs.now }
    ensures { IfOk result (λ p. p ≡ with_kept engine.now attrs.now) }
{
    engine.show_layout(); // for the proof: what an engine keeps
    let stays = moved_stays(alloc, engine)?;
    let order = in_front(alloc, &stays, attrs)?;
    let rows = rows_after(alloc, engine.rows(), &[])?;
    Ok(Problem::of(rows, order))
}

// The problem without these rows and attributes, the stays at the present values.
fn with_less<T: Tableau>(
    alloc: Global,
    engine: &Engine<T>,
    rows: &[u32],
    attrs: &[u32],
) -> Result<Problem, OutOfMemory>
    requires { CanLeave (record { rows = rows.now; attrs = attrs.now }) engine.now.problem }
    ensures { IfOk result (λ p. p ≡ with_removed engine.now (record { rows = rows.now; attrs = attrs.now })) }
{
    engine.show_layout(); // for the proof: what an engine keeps
    let stays = moved_stays(alloc, engine)?;
    let left = left_stays(alloc, &stays, attrs)?;
    let rows = left_rows(alloc, engine.rows(), rows)?;
    Ok(Problem::of(rows, left))
}

/// The engine's problem, in copies of its rows.
pub(crate) fn as_held<T: Tableau>(alloc: Global, engine: &Engine<T>) -> Result<Problem, OutOfMemory>
    ensures { IfOk result (λ p. p ≡ engine.now.problem) }
{
    engine.show_layout(); // for the proof: what an engine keeps
    let rows = rows_after(alloc, engine.rows(), &[])?;
    let stays = Vec::from_slice(alloc, engine.stays())?;
    Ok(Problem::of(rows, stays))
}

/// The problem that a request would have the engine solve, in copies of its rows.
pub(crate) fn posed<T: Tableau>(
    alloc: Global,
    engine: &Engine<T>,
    request: Request,
) -> Result<Problem, OutOfMemory>
    requires { CanSolve engine.now request }
    ensures { IfOk result (λ p. p ≡ posed_by engine.now request) }
{
    match request {
        Request::Add { attrs, rows } => with_more(alloc, engine, &attrs, rows),
        Request::Shift(to) => with_others(alloc, engine, &to),
        Request::Remove { rows, attrs } => with_less(alloc, engine, &rows, &attrs),
        Request::Keep(attrs) => with_first(alloc, engine, &attrs),
        Request::Stand => with_others(alloc, engine, &[]),
    }
}
