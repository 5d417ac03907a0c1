// From a corner to the best one of a problem with fewer rows and attributes.
ghost use Rattle.std.specs.Prelude.{◌≡◌, ◌≢◌, ◌<◌, ◌+◌, ◌++◌, ℕ, List, [], ◌∷◌, take, length, false, get_or};
ghost use Rattle.std.specs.Prelude.{All, AllPairs, Any, Contains, IfOk, IfErr};
ghost use Rattle.problem_core.specs.Layout as layout;
ghost use Rattle.problem_core.specs.Layout.{HasStay};
ghost use Rattle.problem_core.specs.Changes.Begins.{without_marks};
ghost use Rattle.problem_core.specs.Corners.{NoNegativeValue};
ghost use Rattle.problem_core.specs.declared.parts.Mark.{Mark as MarkOfLine};
ghost use Rattle.corner_ends.specs.Runs.{HasEnded, HasRunBetween};
ghost use Rattle.marker_remove.specs.Freed.{DoStand, HasMarkIn};
ghost use Rattle.layout_solver.specs.Removals.{AfterFreed, AfterGone, CanLeave, HasRemoved, HaveGone};
ghost use Rattle.layout_solver.specs.Removals.{IsEndStop, IsRemoveStop, IsStillStop, IsUnfitOf};
ghost use Rattle.layout_solver.specs.Removals.{without, without_attrs};
ghost use Rattle.layout_solver.specs.Starts.{IsMoved};

use crate::request::RequestStop;
use cert_core::{Path, RunStop, UnfitPath};
use corner_view::{Corner, Tableau};
use frac_core::{OutOfMemory, Stop};
use marker_remove::free_row;
use primal_run::settle;
use problem_core::{Mark, RowName};
use std::alloc::Global;

// The stop while these rows are still held.
fn held_stop(alloc: Global, still: &[u32], at: UnfitPath) -> RequestStop
    ensures { IsUnfitOf still.now at result }
{
    match Vec::from_slice(alloc, still) {
        Ok(still) => RequestStop::Unfit { still, at },
        Err(_) => RequestStop::OutOfMemory,
    }
}

// Appends the mark, unless it is one of the row's.
fn push_other(out: &mut Vec<Mark>, mark: Mark, id: u32) -> Result<(), OutOfMemory>
    ensures { IfOk result
        (λ _. out.new.items ≡ out.old.items ++ without_marks (id ∷ []) (mark ∷ [])) }
{
    if mark.row != RowName::Held(id) {
        out.push(mark)?;
    }
    Ok(())
}

// The marks inside, except those of a row.
fn marks_without<T: Tableau>(
    alloc: Global,
    c: &Corner<T>,
    id: u32,
) -> Result<Vec<Mark>, OutOfMemory>
    ensures { IfOk result (λ marks. marks.items ≡ without_marks (id ∷ []) c.now.marks) }
{
    let inside = c.marks()?;
    let mut out = Vec::new(alloc);
    for mark in &inside {
        push_other(&mut out, *mark, id)?;
    }
    Ok(out)
}

// The path of no exchange at the corner without a row.
fn path_without<T: Tableau>(alloc: Global, c: &Corner<T>, id: u32) -> Result<Path, OutOfMemory>
    ensures { IfOk result (λ path. path ≡ record {
      dual = false;
      corner = without_marks (id ∷ []) c.now.marks;
      swaps = [];
    }) }
{
    Path::of(alloc, false, &marks_without(alloc, c, id)?, &[])
}

// Brings a mark of the next leaving row into the basis.
fn free_next<T: Tableau>(
    alloc: Global,
    c: &mut Corner<T>,
    rows: &[u32],
    gone: usize,
) -> Result<(), RequestStop>
    requires marked { 0 < length c.old.before }
    requires within { gone < length rows.now }
    requires held { Any (λ r. r.id ≡ get_or rows.now gone 0) c.old.problem.rows }
    requires values { NoNegativeValue c.old.problem c.old.marks }
    requires standing { DoStand c.old.problem c.old.marks }
    ensures before { c.new.before ≡ c.old.before }
    ensures inside { IfOk result (λ _. HasMarkIn c.new.marks (get_or rows.now gone 0)) }
    ensures freed { IfOk result (λ _. AfterGone rows.now gone c.old
        (λ p kept. HaveGone p kept (take (gone + 1) rows.now) (take gone rows.now) c.new)) }
    ensures stop { IfErr result
        (λ stop. AfterGone rows.now gone c.old (λ p kept. IsStillStop p kept rows.now stop)) }
{
    c.show_corner(); // for the proof: what a corner keeps
    match free_row(alloc, c, rows[gone]) {
        Ok(_) => Ok(()),
        Err(RunStop::Unfit(at)) => Err(held_stop(alloc, &rows[gone..], at)),
        Err(_) => Err(RequestStop::OutOfMemory),
    }
}

// Takes the next leaving row out, which has a mark inside.
fn drop_next<T: Tableau>(
    alloc: Global,
    c: &mut Corner<T>,
    rows: &[u32],
    gone: usize,
) -> Result<(), RequestStop>
    requires marked { 0 < length c.old.before }
    requires within { gone < length rows.now }
    requires inside { HasMarkIn c.old.marks (get_or rows.now gone 0) }
    ensures before { c.new.before ≡ c.old.before }
    ensures gone { IfOk result (λ _. AfterFreed rows.now gone c.old
        (λ p kept. HaveGone p kept (take (gone + 1) rows.now) (take (gone + 1) rows.now) c.new)) }
    ensures stop { IfErr result
        (λ stop. AfterFreed rows.now gone c.old (λ p kept. IsStillStop p kept rows.now stop)) }
{
    c.show_corner(); // for the proof: what a corner keeps
    let id = rows[gone];
    match c.drop_row(id) {
        Ok(()) => Ok(()),
        Err(Stop::Refused(quantity)) => {
            let path = path_without(alloc, c, id)?;
            Err(held_stop(alloc, &rows[gone + 1..], UnfitPath { path, quantity }))
        }
        Err(Stop::OutOfMemory) => Err(RequestStop::OutOfMemory),
    }
}

// Takes rows out, one by one.
fn drop_rows<T: Tableau>(alloc: Global, c: &mut Corner<T>, rows: &[u32]) -> Result<(), RequestStop>
    requires marked { 0 < length c.old.before }
    requires held { All (λ id. Any (λ r. r.id ≡ id) c.old.problem.rows) rows.now }
    requires apart { AllPairs (λ a b. a ≢ b) rows.now }
    requires values { NoNegativeValue c.old.problem c.old.marks }
    requires standing { DoStand c.old.problem c.old.marks }
    ensures before { c.new.before ≡ c.old.before }
    ensures gone { IfOk result (λ _. HaveGone c.old.problem c.old.marks rows.now rows.now c.new) }
    ensures stop { IfErr result (IsStillStop c.old.problem c.old.marks rows.now) }
{
    c.show_corner(); // for the proof: what a corner keeps
    for gone in 0..rows.len() {
        free_next(alloc, c, rows, gone)?;
        drop_next(alloc, c, rows, gone)?;
    }
    Ok(())
}

// Takes out attributes that no row names.
fn drop_attrs<T: Tableau>(c: &mut Corner<T>, attrs: &[u32]) -> Result<(), OutOfMemory>
    requires marked { 0 < length c.old.before }
    requires held { All (HasStay c.old.problem.stays) attrs.now }
    requires apart { AllPairs (λ a b. a ≢ b) attrs.now }
    requires free { All (λ r. All (λ t. Contains attrs.now t.attr → ⊥) r.terms) c.old.problem.rows }
    ensures problem { IfOk result (λ _. c.new.problem ≡ without_attrs attrs.now c.old.problem) }
    ensures marks { IfOk result (λ _. c.new.marks ≡ c.old.marks) }
    ensures before { c.new.before ≡ c.old.before }
{
    for attr in attrs {
        c.drop_attr(*attr)?;
    }
    Ok(())
}

// Goes on to the best corner. The required rows have a solution.
fn settle_left<T: Tableau>(alloc: Global, c: &mut Corner<T>, budget: u64) -> Result<(), RequestStop>
    requires marked { 0 < length c.old.before }
    requires values { NoNegativeValue c.old.problem c.old.marks }
    requires satisfied { (x : layout.Assignment) × layout.Satisfies c.old.problem x }
    ensures problem { IfOk result (λ _. c.new.problem ≡ c.old.problem) }
    ensures before { c.new.before ≡ c.old.before }
    ensures end { IfOk result (λ _. HasEnded c.new) }
    ensures path { IfOk result (λ _. HasRunBetween false c.old.problem c.old.marks budget c.new.marks) }
    ensures stop { IfErr result (IsEndStop c.old.problem c.old.marks budget) }
{
    c.show_corner(); // for the proof: what a corner keeps
    match settle(alloc, c, budget) {
        Ok(()) => Ok(()),
        Err(RunStop::Unfit(at)) => Err(RequestStop::Unfit {
            still: Vec::new(alloc),
            at,
        }),
        Err(RunStop::Spent(path)) => Err(RequestStop::Spent(path)),
        Err(RunStop::Conflict(_)) => unreachable!(),
        Err(RunStop::OutOfMemory) => Err(RequestStop::OutOfMemory),
    }
}

// Takes attributes out, and goes on to the best corner.
fn leave_attrs<T: Tableau>(
    alloc: Global,
    c: &mut Corner<T>,
    attrs: &[u32],
    budget: u64,
) -> Result<(), RequestStop>
    requires marked { 0 < length c.old.before }
    requires held { All (HasStay c.old.problem.stays) attrs.now }
    requires apart { AllPairs (λ a b. a ≢ b) attrs.now }
    requires free { All (λ r. All (λ t. Contains attrs.now t.attr → ⊥) r.terms) c.old.problem.rows }
    requires values { NoNegativeValue c.old.problem c.old.marks }
    requires satisfied { (x : layout.Assignment) × layout.Satisfies c.old.problem x }
    ensures before { c.new.before ≡ c.old.before }
    ensures problem { IfOk result (λ _. c.new.problem ≡ without_attrs attrs.now c.old.problem) }
    ensures end { IfOk result (λ _. HasEnded c.new) }
    ensures path { IfOk result (λ _. (p : layout.Problem) (kept : List MarkOfLine) (rows : List ℕ)
        → HaveGone p kept rows rows c.old
        → HasRemoved p kept (record { rows = rows; attrs = attrs.now }) budget c.new.marks) }
    ensures stop { IfErr result (λ stop. (p : layout.Problem) (kept : List MarkOfLine) (rows : List ℕ)
        → HaveGone p kept rows rows c.old
        → IsRemoveStop p kept (record { rows = rows; attrs = attrs.now }) budget stop) }
{
    drop_attrs(c, attrs)?;
    c.show_corner(); // for the proof: what a corner keeps
    settle_left(alloc, c, budget)
}

// Takes rows and attributes out, and goes on to the best corner. The stays are at the present values.
fn take_out<T: Tableau>(
    alloc: Global,
    c: &mut Corner<T>,
    rows: &[u32],
    attrs: &[u32],
    budget: u64,
) -> Result<(), RequestStop>
    requires marked { 0 < length c.old.before }
    requires leave { CanLeave (record { rows = rows.now; attrs = attrs.now }) c.old.problem }
    requires values { NoNegativeValue c.old.problem c.old.marks }
    requires standing { DoStand c.old.problem c.old.marks }
    requires satisfied { (x : layout.Assignment) × layout.Satisfies c.old.problem x }
    ensures before { c.new.before ≡ c.old.before }
    ensures problem { IfOk result
        (λ _. c.new.problem ≡ without (record { rows = rows.now; attrs = attrs.now }) c.old.problem) }
    ensures end { IfOk result (λ _. HasEnded c.new) }
    ensures path { IfOk result (λ _. HasRemoved c.old.problem c.old.marks
        (record { rows = rows.now; attrs = attrs.now }) budget c.new.marks) }
    ensures stop { IfErr result (IsRemoveStop c.old.problem c.old.marks
        (record { rows = rows.now; attrs = attrs.now }) budget) }
{
    c.show_corner(); // for the proof: what a corner keeps
    drop_rows(alloc, c, rows)?;
    leave_attrs(alloc, c, attrs, budget)
}

/// Moves the stays to the present values, takes rows and attributes out, and goes on to the best corner.
pub(crate) fn shrink<T: Tableau>(
    alloc: Global,
    c: &mut Corner<T>,
    rows: &[u32],
    attrs: &[u32],
    budget: u64,
) -> Result<(), RequestStop>
    requires marked { 0 < length c.old.before }
    requires values { NoNegativeValue c.old.problem c.old.marks }
    requires leave { CanLeave (record { rows = rows.now; attrs = attrs.now }) c.old.problem }
    requires satisfied { (x : layout.Assignment) × layout.Satisfies c.old.problem x }
    ensures before { c.new.before ≡ c.old.before }
    ensures end { IfOk result (λ _. HasEnded c.new) }
    ensures problem { IfOk result (λ _. (p : layout.Problem) → IsMoved c.old [] c.old.problem.rows p
        → c.new.problem ≡ without (record { rows = rows.now; attrs = attrs.now }) p) }
    ensures path { IfOk result (λ _. (p : layout.Problem) → IsMoved c.old [] c.old.problem.rows p
        → HasRemoved p c.old.marks (record { rows = rows.now; attrs = attrs.now }) budget c.new.marks) }
    ensures stop { IfErr result (λ stop. (p : layout.Problem) → IsMoved c.old [] c.old.problem.rows p
        → IsRemoveStop p c.old.marks (record { rows = rows.now; attrs = attrs.now }) budget stop) }
{
    c.show_corner(); // for the proof: what a corner keeps
    c.stand()?;
    c.show_corner(); // for the proof: what a corner keeps
    take_out(alloc, c, rows, attrs, budget)
}
