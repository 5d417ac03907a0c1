// Lists of a problem's rows and attributes, and of the rows that multipliers name.
ghost use Rattle.std.specs.Prelude.{◌≡◌, ◌<◌, ◌++◌, map, filter, [], ◌∷◌, AllPairs, IfOk};
ghost use Rattle.problem_core.specs.Certificates.{required};
ghost use Rattle.layout_solver.specs.Starts.{attrs_of};
ghost use Rattle.conflict_core.specs.Cores as cores;
ghost use Rattle.conflict_core.specs.Searches as searches;

use cert_core::Conflict;
use frac_core::OutOfMemory;
use problem_core::{Problem, REQUIRED, Row, RowName};
use std::alloc::Global;

/// The attributes, in the order of their stays.
pub(crate) fn attributes(alloc: Global, p: &Problem) -> Result<Vec<u32>, OutOfMemory>
    ensures { IfOk result (λ attrs. attrs.items ≡ attrs_of p.now) }
{
    let mut out = Vec::new(alloc);
    for stay in p.stays() {
        out.push(stay.attr)?;
    }
    Ok(out)
}

/// The numbers of the required rows, rising.
pub(crate) fn required_rows(alloc: Global, p: &Problem) -> Result<Vec<u32>, OutOfMemory>
    ensures { IfOk result (λ ids. ids.items ≡ map (λ r. r.id) (required p.now)) }
{
    let mut out = Vec::new(alloc);
    for row in p.rows() {
        if row.rank() == REQUIRED {
            out.push(row.id())?;
        }
    }
    Ok(out)
}

// Whether the number is one of these, which rise.
fn is_among(ids: &[u32], id: u32) -> bool
    requires { AllPairs (λ a b. a < b) ids.now }
    ensures { result ≡ cores.is_among ids.now id }
{
    ids.binary_search(&id).is_ok()
}

// Whether the row is required, and its number one of these, which rise.
fn is_tried(ids: &[u32], row: &Row) -> bool
    requires { AllPairs (λ a b. a < b) ids.now }
    ensures { result ≡ cores.is_tried ids.now row.now }
{
    row.rank() == REQUIRED && is_among(ids, row.id())
}

// Appends a copy of the row, if it is tried.
fn push_tried(out: &mut Vec<Row>, ids: &[u32], row: &Row) -> Result<(), OutOfMemory>
    requires { AllPairs (λ a b. a < b) ids.now }
    ensures { IfOk result
        (λ _. out.new.items ≡ out.old.items ++ filter (cores.is_tried ids.now) (row.now ∷ [])) }
{
    if is_tried(ids, row) {
        out.push(row.clone()?)?;
    }
    Ok(())
}

/// Copies of the required rows of these numbers, which rise, by number.
pub(crate) fn tried_rows(alloc: Global, p: &Problem, ids: &[u32]) -> Result<Vec<Row>, OutOfMemory>
    requires { AllPairs (λ a b. a < b) ids.now }
    ensures { IfOk result (λ rows. rows.items ≡ filter (cores.is_tried ids.now) p.now.rows) }
{
    let mut out = Vec::new(alloc);
    for row in p.rows() {
        push_tried(&mut out, ids, row)?;
    }
    Ok(out)
}

/// These numbers, except one.
pub(crate) fn without(alloc: Global, id: u32, ids: &[u32]) -> Result<Vec<u32>, OutOfMemory>
    ensures { IfOk result (λ less. less.items ≡ cores.without id ids.now) }
{
    let mut out = Vec::new(alloc);
    for other in ids {
        if *other != id {
            out.push(*other)?;
        }
    }
    Ok(out)
}

// Appends the row's number, unless it is a stay's row.
fn push_number(out: &mut Vec<u32>, row: RowName) -> Result<(), OutOfMemory>
    ensures { IfOk result (λ _. out.new.items ≡ out.old.items ++ searches.numbered row []) }
{
    if let RowName::Held(id) = row {
        out.push(id)?;
    }
    Ok(())
}

/// The numbers of the rows that are named.
pub(crate) fn named(alloc: Global, conflict: &Conflict) -> Result<Vec<u32>, OutOfMemory>
    ensures { IfOk result (λ ids. ids.items ≡ searches.named conflict.now) }
{
    let mut out = Vec::new(alloc);
    for by in conflict.by() {
        push_number(&mut out, by.row)?;
    }
    Ok(out)
}
