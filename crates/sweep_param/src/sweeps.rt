// The sweep of a row's constant.
ghost use Rattle.std.specs.Prelude.{◌≡◌, None, Some, IfOk, IfErr, IfSome, IfNone, Any};
ghost use Rattle.corner_view.specs.Changes.{IsNear};
ghost use Rattle.corner_ends.specs.Runs.{HasEnded};
ghost use Rattle.sweep_laws.specs.Fractions.{IsFittingDifference, IsNoMore};
ghost use Rattle.sweep_laws.specs.Stops.{HasConstant};
ghost use Rattle.sweep_laws.specs.Stretches.{IsSweep};
ghost use Rattle.sweep_param.specs.Joining.{AreSlides, IsRangeOf, IsSlidesStop, IsWayDown, IsWayUp};
ghost use Rattle.sweep_param.specs.Sweeps.{HasLowestWidth, HasSolution, IsStarted, IsStartStop};
ghost use Rattle.sweep_param.specs.Sweeps.{IsSweepStop, IsSweptRow};
ghost use Rattle.sweep_run.specs.Told.{stretches_of};
ghost use Rattle.sweep_run.specs.Slides.{HasSlid, IsMarked, IsSlideStop};
ghost use Rattle.sweep_run.specs.Ways.{IsWayOf};
ghost use Rattle.sweep_run.specs.declared.ways.Way as ways;

use crate::joining::{Slides, joined, lone_piece};
use corner_view::{Corner, Tableau};
use frac_core::{Frac, OutOfMemory};
use layout_solver::{started, started_by_rows};
use problem_core::{Problem, Row};
use std::alloc::Global;
use std::cmp::Ordering;
use sweep_run::{Slid, Stretch, SweepStop, Way, run_stop, slide, values_here};

// What is swept: the constant of a row, from the one to the other, and the present one.
#[derive(Clone, Copy)]
struct Range {
    row: u32,
    present: Frac,
    from: Frac,
    to: Frac,
    budget: u64,
}

// The way up, where its end is above the present constant.
fn way_up(range: &Range) -> Option<Way>
    requires order { IsNoMore range.now.from range.now.to }
    requires fits { IsFittingDifference range.now.to range.now.present }
    requires wide { IsFittingDifference range.now.to range.now.from }
    ensures { IsWayUp range.now result }
{
    if range.present.compare(&range.to) != Ordering::Less {
        return None;
    }
    match Way::of(range.row, range.present, range.from, range.to) {
        Ok(way) => Some(way),
        Err(_) => unreachable!(),
    }
}

// The way down, where its end is below the present constant.
fn way_down(range: &Range) -> Option<Way>
    requires order { IsNoMore range.now.from range.now.to }
    requires fits { IsFittingDifference range.now.from range.now.present }
    requires wide { IsFittingDifference range.now.to range.now.from }
    ensures { IsWayDown range.now result }
{
    if range.from.compare(&range.present) != Ordering::Less {
        return None;
    }
    match Way::of(range.row, range.present, range.to, range.from) {
        Ok(way) => Some(way),
        Err(_) => unreachable!(),
    }
}

// The row with the number.
fn row_of(rows: &[Row], id: u32) -> Option<&Row>
    ensures some { IfSome result (λ held. (held.now.id ≡ id) × Any (λ r. r ≡ held.now) rows.now) }
    ensures none { IfNone result (Any (λ r. r.id ≡ id) rows.now → ⊥) }
{
    rows.iter().find(|row| row.id() == id)
}

// The constant of the row.
fn constant_of(p: &Problem, row: u32) -> Frac
    requires { Any (λ r. r.id ≡ row) p.now.rows }
    ensures constant { HasConstant p.now row result }
{
    match row_of(p.rows(), row) {
        Some(held) => held.constant(),
        None => unreachable!(),
    }
}

// The slide on this way, where there is one.
fn slid<T: Tableau>(
    alloc: Global,
    c: &mut Corner<T>,
    way: Option<Way>,
    budget: u64,
) -> Result<Option<Slid>, SweepStop>
    requires marked { IsMarked c.old }
    requires ended { HasEnded c.old }
    requires way { IfSome way (IsWayOf c.old.problem) }
    ensures none { IfOk result (λ s. IfNone s (way ≡ None)) }
    ensures some { IfOk result (λ s. IfSome s (λ slid. (w : ways.Way) × (way ≡ Some w)
        × HasSlid c.old.problem w slid)) }
    ensures stop { IfErr result (λ stop. (w : ways.Way) × (way ≡ Some w)
        × IsSlideStop c.old.problem c.old.marks w budget stop) }
    ensures before { c.new.before ≡ c.old.before }
{
    let Some(way) = way else {
        return Ok(None);
    };
    let slid = slide(alloc, c, &way, budget)?;
    Ok(Some(slid))
}

// The slides up and down from the corner.
fn both<T: Tableau>(alloc: Global, c: &mut Corner<T>, range: &Range) -> Result<Slides, SweepStop>
    requires marked { IsMarked c.old }
    requires ended { HasEnded c.old }
    requires range { IsRangeOf c.old.problem range.now }
    ensures slides { IfOk result (AreSlides c.old.problem range.now) }
    ensures stop { IfErr result (IsSlidesStop c.old.problem c.old.marks range.now) }
    ensures before { c.new.before ≡ c.old.before }
{
    let up = slid(alloc, c, way_up(range), range.budget)?;
    c.rewind();
    let down = slid(alloc, c, way_down(range), range.budget)?;
    Ok(Slides { down, up })
}

// The one piece where all is at the present constant.
fn stood<T: Tableau>(
    alloc: Global,
    c: &Corner<T>,
    range: &Range,
) -> Result<Vec<Stretch>, OutOfMemory>
    requires ended { HasEnded c.now }
    requires range { IsRangeOf c.now.problem range.now }
    requires up { IsNoMore range.now.to range.now.present }
    requires down { IsNoMore range.now.present range.now.from }
    ensures { IfOk result (λ s. IsSweep c.now.problem range.now.row range.now.from range.now.to
        (stretches_of s.items)) }
{
    c.show_corner(); // for the proof: what a corner keeps
    // for the proof: what fractions keep
    let _ = range.present.num();
    let _ = range.from.num();
    let _ = range.to.num();
    let values = values_here(alloc, c)?;
    let mut out = Vec::new(alloc);
    out.push(lone_piece(range.present, values)?)?;
    Ok(out)
}

// The stretches from the corner of the present constant.
fn swept<T: Tableau>(
    alloc: Global,
    c: &mut Corner<T>,
    range: &Range,
) -> Result<Vec<Stretch>, SweepStop>
    requires marked { IsMarked c.old }
    requires ended { HasEnded c.old }
    requires range { IsRangeOf c.old.problem range.now }
    ensures sweep { IfOk result (λ s. IsSweep c.old.problem range.now.row range.now.from range.now.to
        (stretches_of s.items)) }
    ensures stop { IfErr result (IsSlidesStop c.old.problem c.old.marks range.now) }
{
    let slides = both(alloc, c, range)?;
    if slides.up.is_none() && slides.down.is_none() {
        c.rewind();
        return Ok(stood(alloc, c, range)?);
    }
    Ok(joined(alloc, slides)?)
}

// Shows what the constant of a stop keeps.
fn show_stop(stop: &SweepStop)
    ensures { HasLowestWidth stop.now }
{
    if let SweepStop::Unfit { width, .. } = stop {
        let _ = width.num(); // for the proof: what a fraction keeps
    }
}

// The best corner of the problem, found anew and marked.
fn start<T: Tableau>(alloc: Global, p: &Problem, range: &Range) -> Result<Corner<T>, SweepStop>
    requires solvable { HasSolution p.now }
    ensures problem { IfOk result (λ c. c.problem ≡ p.now) }
    ensures started { IfOk result (λ c. IsStarted p.now range.now.budget c.marks) }
    ensures ended { IfOk result HasEnded }
    ensures marked { IfOk result IsMarked }
    ensures stop { IfErr result (IsStartStop p.now range.now.present range.now.budget) }
{
    p.show_whole(); // for the proof: what a problem keeps
    match started(alloc, p.stays(), p.rows(), range.budget) {
        Ok(corner) => {
            corner.show_corner(); // for the proof: what a corner keeps
            Ok(corner)
        }
        Err(stop) => Err(run_stop(range.present, stop)),
    }
}

// The stretches from a corner to which the rows lead one after another, unless something stops that.
fn swept_by_rows<T: Tableau>(alloc: Global, p: &Problem, range: &Range) -> Option<Vec<Stretch>>
    requires range { IsRangeOf p.now range.now }
    ensures { IfSome result (λ s. IsSweep p.now range.now.row range.now.from range.now.to
        (stretches_of s.items)) }
{
    p.show_whole(); // for the proof: what a problem keeps
    let Ok(mut corner) = started_by_rows::<T>(alloc, p.stays(), p.rows(), range.budget) else {
        return None;
    };
    let all = swept(alloc, &mut corner, range);
    drop(corner); // for the proof: moved on, not taken apart here
    match all {
        Ok(all) => Some(all),
        Err(_) => None,
    }
}

/// What is best for all constants of the row from the one to the other, in rising order.
///
/// The start finds the best corner anew, by one row after another, and from there two slides go to both ends.
/// Where something stops that, all rows join at once, a run follows, and then the slides, each with the whole
/// budget. `Unfit` names what doesn't fit at the end of a lawful path, with the constant at which that is,
/// `Spent` a path of as many exchanges as the budget.
pub fn sweep<T: Tableau>(
    alloc: Global,
    p: &Problem,
    row: u32,
    from: Frac,
    to: Frac,
    budget: u64,
) -> Result<Vec<Stretch>, SweepStop>
    requires solvable { HasSolution p.now }
    requires row { IsSweptRow p.now row }
    requires order { IsNoMore from to }
    requires near { IsNear p.now row from × IsNear p.now row to }
    requires wide { IsFittingDifference to from }
    ensures sweep { IfOk result (λ s. IsSweep p.now row from to (stretches_of s.items)) }
    ensures stop { IfErr result (IsSweepStop p.now row from to budget) }
{
    let range = Range {
        row,
        present: constant_of(p, row),
        from,
        to,
        budget,
    };
    if let Some(all) = swept_by_rows::<T>(alloc, p, &range) {
        return Ok(all);
    }
    let mut corner = start::<T>(alloc, p, &range)?;
    let all = swept(alloc, &mut corner, &range);
    drop(corner); // for the proof: moved on, not taken apart here
    match all {
        Ok(all) => Ok(all),
        Err(stop) => {
            show_stop(&stop); // for the proof: its constant is in lowest terms
            Err(stop)
        }
    }
}
