// A slide: the dual run at its end, whose leaving mark is that which reaches 0 first on the way.
ghost use Rattle.std.specs.Prelude.{◌≡◌, ◌<◌, ◌≤◌, ◌+◌, ℕ, List, [], length, true, false, pos, ◌<ℤ◌, ◌≤ℤ◌};
ghost use Rattle.std.specs.Prelude.{IfOk, IfErr, IfSome, IfNone, OnErr, Ok, None};
ghost use Rattle.problem_core.specs.Corners.{NoNegativeColumn, NoNegativeValue};
ghost use Rattle.problem_core.specs.Levels.{CostsAbove};
ghost use Rattle.problem_core.specs.declared.parts.Mark.{Mark as MarkOfLine};
ghost use Rattle.corner_ends.specs.Runs.{HasEnded};
ghost use Rattle.corner_ends.specs.Trails.{IsNoConflict, IsTrailOf, StaysTrail};
ghost use Rattle.corner_lines.specs.Shifts.{with_constant};
ghost use Rattle.dual_run.specs.Leaving.{AreLowLines, HasSwapped, MayLeave};
ghost use Rattle.sweep_run.specs.Slides.{HasBegun, HasEntered, HasSlid, IsAtPlace, IsMarked, IsSliding};
ghost use Rattle.sweep_run.specs.Slides.{HasShown, IsSlideStop};
ghost use Rattle.sweep_run.specs.Slides.{IsPieceMore, IsReadStop, IsSpentWith, IsStopAfter, IsStopOn, IsTurn};
ghost use Rattle.sweep_run.specs.Slides.{IsUnfitWith, IsValueStop, MayAdvance, StaysSliding};
ghost use Rattle.sweep_run.specs.Slides.{clash_between, piece_between, run_stop};
ghost use Rattle.sweep_run.specs.Told.{stretch_of};
ghost use Rattle.sweep_run.specs.Values.{AreValuesAt};
ghost use Rattle.sweep_run.specs.Ways.{HasReached, IsAtEnd, IsPlace, IsPlaceOf, IsReached, IsUnfitCrossing};
ghost use Rattle.sweep_run.specs.Ways.{IsWayOf};

use crate::rates::{Crossing, soonest};
use crate::stretches::{Stretch, SweepQuantity, SweepStop};
use crate::values::{values_at, values_here};
use crate::ways::{Place, Way, is_before};
use cert_core::{Conflict, RunStop};
use corner_ends::{Trail, conflict, is_costly};
use corner_view::{Corner, Tableau};
use dual_run::{exchange, shift};
use frac_core::{Frac, OutOfMemory, Stop, Unfit};
use problem_core::{Mark, Quantity, RowName, Values, What};
use std::alloc::Global;
use std::mem;

/// What a slide has come to: the stretches behind it, in its order, the place up to which they go, and the
/// values there, once that is shown.
#[derive(Drop)]
pub struct Slid {
    pub stretches: Vec<Stretch>,
    pub at: Place,
    pub values: Option<Values>,
}

// The mark that leaves next, and the place at which its value is 0.
#[derive(Clone, Copy)]
struct Turn {
    mark: Mark,
    place: Place,
}

// ---- stops

// The stop where this doesn't fit after the exchanges so far, with this constant.
fn unfit_at<T: Tableau>(trail: &Trail, c: &Corner<T>, width: Frac, what: SweepQuantity) -> SweepStop
    ensures { IsUnfitWith c.now trail.now width what result }
{
    match trail.path(c) {
        Ok(path) => SweepStop::Unfit { width, path, what },
        Err(OutOfMemory) => SweepStop::OutOfMemory,
    }
}

// The stop where the exchanges are used up, at the slide's end.
fn spent_at<T: Tableau>(trail: &Trail, c: &Corner<T>, width: Frac) -> SweepStop
    ensures { IsSpentWith c.now trail.now width result }
{
    match trail.path(c) {
        Ok(path) => SweepStop::Spent { width, path },
        Err(OutOfMemory) => SweepStop::OutOfMemory,
    }
}

// The stop where an attribute's value doesn't fit at a place.
fn value_stop<T: Tableau>(trail: &Trail, c: &Corner<T>, width: Frac, stop: Stop<u32>) -> SweepStop
    ensures { IsValueStop c.now trail.now width stop result }
{
    match stop {
        Stop::Refused(attr) => {
            let what = Quantity::Plain(What::Attr(attr));
            unfit_at(trail, c, width, SweepQuantity::At(what))
        }
        Stop::OutOfMemory => SweepStop::OutOfMemory,
    }
}

/// The stop of a run, with this constant. A conflict is none.
pub fn run_stop(width: Frac, stop: RunStop) -> SweepStop
    requires { IsNoConflict stop }
    ensures { result ≡ run_stop width stop }
{
    match stop {
        RunStop::Conflict(_) => unreachable!(),
        RunStop::Unfit(at) => SweepStop::Unfit {
            width,
            path: at.path,
            what: SweepQuantity::At(at.quantity),
        },
        RunStop::Spent(path) => SweepStop::Spent { width, path },
        RunStop::OutOfMemory => SweepStop::OutOfMemory,
    }
}

// ---- stretches

// The piece between these constants, of which the first comes before the other on the way.
fn piece_of(way: &Way, a: Frac, b: Frac, at_a: Values, at_b: Values) -> Stretch
    ensures { stretch_of result ≡ piece_between way.now.up a b at_a at_b }
{
    if way.up {
        Stretch::Piece {
            from: a,
            to: b,
            low: at_a,
            high: at_b,
        }
    } else {
        Stretch::Piece {
            from: b,
            to: a,
            low: at_b,
            high: at_a,
        }
    }
}

// The conflict from this constant to the slide's end.
fn clash_of(way: &Way, a: Frac, by: Conflict) -> Stretch
    ensures { stretch_of result ≡ clash_between way.now.up a way.now.end by }
{
    if way.up {
        Stretch::Conflict {
            from: a,
            to: way.end,
            by,
        }
    } else {
        Stretch::Conflict {
            from: way.end,
            to: a,
            by,
        }
    }
}

// ---- the slide

// The values at the present constant, where that is shown.
fn first_values<T: Tableau>(
    alloc: Global,
    c: &Corner<T>,
    way: &Way,
) -> Result<Option<Values>, OutOfMemory>
    requires way { IsWayOf c.now.problem way.now }
    ensures { IfOk result (λ values. HasShown c.now.problem way.now c.now.marks way.now.first values []) }
{
    c.show_corner(); // for the proof: what a corner keeps
    if is_before(&way.first, &way.near) {
        return Ok(None);
    }
    let values = values_here(alloc, c)?;
    Ok(Some(values))
}

// Nothing behind it; the values where the present constant is shown.
fn begun<T: Tableau>(alloc: Global, c: &Corner<T>, way: &Way) -> Result<Slid, OutOfMemory>
    requires way { IsWayOf c.now.problem way.now }
    requires end { HasEnded c.now }
    ensures { IfOk result (HasBegun c.now.problem c.now.marks way.now) }
{
    c.show_corner(); // for the proof: what a corner keeps
    let values = first_values(alloc, c, way)?;
    Ok(Slid {
        stretches: Vec::new(alloc),
        at: way.first,
        values,
    })
}

// The values at a place, after the exchanges so far.
fn read_at<T: Tableau>(
    alloc: Global,
    c: &Corner<T>,
    way: &Way,
    trail: &Trail,
    place: &Place,
) -> Result<Values, SweepStop>
    requires held { IsAtEnd way.now c.now }
    requires place { IsPlace way.now.up way.now.end place.now }
    ensures values { IfOk result (AreValuesAt (with_constant way.now.row place.now.width c.now.problem)
        c.now.marks) }
    ensures stop { IfErr result (IsReadStop c.now way.now trail.now place.now) }
{
    match values_at(alloc, c, way, place) {
        Ok(values) => Ok(values),
        Err(stop) => Err(value_stop(trail, c, place.width, stop)),
    }
}

// Whether the way is shown where the slide is.
fn is_shown(slid: &Slid) -> bool
    ensures yes { result ≡ true → slid.now.values ≡ None → ⊥ }
    ensures no { result ≡ false → slid.now.values ≡ None }
{
    slid.values.is_some()
}

// From here on the way is shown, if it wasn't before.
fn enter<T: Tableau>(
    alloc: Global,
    c: &Corner<T>,
    way: &Way,
    trail: &Trail,
    slid: &mut Slid,
) -> Result<(), SweepStop>
    requires sliding { IsSliding c.now way.now trail.now slid.old }
    requires near { slid.old.values ≡ None → IsReached c.now.problem way.now c.now.marks way.now.near }
    ensures entered { IfOk result (λ _. HasEntered c.now way.now slid.old slid.new) }
    ensures stop { IfErr result (IsReadStop c.now way.now trail.now way.now.near) }
    ensures hidden { IfErr result (λ _. slid.old.values ≡ None) }
{
    if is_shown(slid) {
        return Ok(());
    }
    let values = read_at(alloc, c, way, trail, &way.near)?;
    slid.values = Some(values);
    slid.at = way.near;
    Ok(())
}

// The piece up to a place, at which these are the values, is behind it.
fn push_piece(
    alloc: Global,
    slid: &mut Slid,
    way: &Way,
    to: Place,
    values: Values,
) -> Result<(), OutOfMemory>
    requires shown { slid.old.values ≡ None → ⊥ }
    ensures { IfOk result (λ _. IsPieceMore way.now slid.old to values slid.new) }
{
    let next = Values::of(alloc, values.pairs())?;
    let Some(before) = mem::replace(&mut slid.values, Some(next)) else {
        unreachable!()
    };
    let piece = piece_of(way, slid.at.width, to.width, before, values);
    slid.stretches.push(piece)?;
    slid.at = to;
    Ok(())
}

// Goes on to a place at which the corner is still the best one. The values there are read before a mark
// leaves: after that the path is none at this constant, where the mark's value is 0.
fn advance<T: Tableau>(
    alloc: Global,
    c: &Corner<T>,
    way: &Way,
    trail: &Trail,
    slid: &mut Slid,
    to: Place,
) -> Result<(), SweepStop>
    requires sliding { IsSliding c.now way.now trail.now slid.old }
    requires to { MayAdvance c.now way.now slid.old to }
    ensures behind { IfOk result (λ _. IsAtPlace c.now.problem way.now c.now.marks slid.new) }
    ensures at { IfOk result (λ _. slid.new.at.width ≡ to.width) }
    ensures stop { IfErr result
        (λ stop. (budget : ℕ) → IsStopOn c.now way.now trail.now slid.old budget stop) }
{
    c.show_corner(); // for the proof: what a corner keeps
    if is_before(&to, &way.near) {
        slid.at = to;
        return Ok(());
    }
    enter(alloc, c, way, trail, slid)?;
    if !is_before(&slid.at, &to) {
        return Ok(());
    }
    let values = read_at(alloc, c, way, trail, &to)?;
    push_piece(alloc, slid, way, to, values)?;
    Ok(())
}

// The constant reached, or that from which the way is shown, where that is further on.
fn reached(way: &Way, slid: &Slid) -> Frac
    ensures none { slid.now.values ≡ None → result ≡ way.now.near.width }
    ensures some { IfSome slid.now.values (λ values. result ≡ slid.now.at.width) }
{
    if slid.values.is_some() {
        slid.at.width
    } else {
        way.near.width
    }
}

// From where the values are best no more the required rows have no solution, up to the slide's end.
fn push_clash<T: Tableau>(
    alloc: Global,
    c: &Corner<T>,
    way: &Way,
    slid: &mut Slid,
) -> Result<(), OutOfMemory>
    requires held { IsAtEnd way.now c.now }
    requires columns { NoNegativeColumn c.now.problem c.now.marks }
    requires costs { CostsAbove c.now.problem c.now.marks 0 }
    requires behind { IsAtPlace c.now.problem way.now c.now.marks slid.old }
    ensures { IfOk result (λ _. HasSlid c.now.problem way.now slid.new) }
{
    c.show_corner(); // for the proof: what a corner keeps
    let by = conflict(alloc, c)?;
    let clash = clash_of(way, reached(way, slid), by);
    slid.stretches.push(clash)?;
    Ok(())
}

// The place of a crossing, unless it or its distance from the end doesn't fit.
fn place_of(way: &Way, crossing: &Crossing) -> Result<Place, Unfit>
    requires p { pos 0 ≤ℤ crossing.now.p }
    requires q { pos 0 <ℤ crossing.now.q }
    ensures place { IfOk result (IsPlaceOf way.now crossing.now) }
    ensures unfit { OnErr result (IsUnfitCrossing way.now crossing.now) }
{
    let _ = way.end.num(); // for the proof: what a fraction keeps
    let back = Frac::of(crossing.p, crossing.q)?;
    way.before_end(back)
}

// The mark that leaves next, if any value is negative at the end.
fn next<T: Tableau>(
    c: &Corner<T>,
    way: &Way,
    trail: &Trail,
    low: &mut Vec<RowName>,
) -> Result<Option<Turn>, SweepStop>
    requires held { IsAtEnd way.now c.now }
    requires free { CostsAbove c.now.problem c.now.marks 0 → ⊥ }
    requires before { HasReached c.now.problem way.now c.now.marks }
    ensures low { IfOk result (λ _. AreLowLines c.now.problem c.now.marks low.new.items) }
    ensures turn { IfOk result (λ found. IfSome found (IsTurn c.now way.now)) }
    ensures none { IfOk result (λ found. IfNone found (NoNegativeValue c.now.problem c.now.marks)) }
    ensures stop { IfErr result (λ stop. (budget : ℕ) → IsStopAfter c.now way.now trail.now budget stop) }
{
    c.show_corner(); // for the proof: what a corner keeps
    low.clear();
    c.list_low(RowName::Held(way.row), low)?;
    let Some(crossing) = soonest(c, way, low) else {
        return Ok(None);
    };
    match place_of(way, &crossing) {
        Ok(place) => Ok(Some(Turn {
            mark: crossing.mark,
            place,
        })),
        Err(_) => {
            let what = SweepQuantity::Breakpoint(crossing.mark);
            Err(unfit_at(trail, c, way.end, what))
        }
    }
}

// The mark leaves, within the budget.
fn leave<T: Tableau>(
    trail: &mut Trail,
    c: &mut Corner<T>,
    way: &Way,
    mark: Mark,
    low: &mut Vec<RowName>,
    budget: u64,
) -> Result<(), SweepStop>
    requires marked { 0 < length c.old.before }
    requires held { IsAtEnd way.now c.old }
    requires trail { (first : List MarkOfLine) × IsTrailOf true c.old.problem first trail.old c.old.marks }
    requires columns { NoNegativeColumn c.old.problem c.old.marks }
    requires leave { MayLeave c.old.problem c.old.marks mark }
    requires low { AreLowLines c.old.problem c.old.marks low.old.items }
    ensures trail { IfOk result (λ _. StaysTrail true c.old trail.old c.new trail.new) }
    ensures problem { IfOk result (λ _. c.new.problem ≡ c.old.problem) }
    ensures before { c.new.before ≡ c.old.before }
    ensures swap { IfOk result (λ _. HasSwapped trail.old mark trail.new) }
    ensures few { IfOk result (λ _. length trail.old.swaps < budget) }
    ensures stop { IfErr result (IsStopAfter c.old way.now trail.old budget) }
{
    if trail.is_spent(budget) {
        return Err(spent_at(trail, c, way.end));
    }
    match exchange(trail, c, mark, low) {
        Ok(()) => Ok(()),
        Err(stop) => Err(run_stop(way.end, stop)),
    }
}

// Gives the row the constant of the slide's end.
fn go_to_end<T: Tableau>(
    alloc: Global,
    c: &mut Corner<T>,
    way: &Way,
    low: &mut Vec<RowName>,
) -> Result<(), SweepStop>
    requires marked { IsMarked c.old }
    requires end { HasEnded c.old }
    requires way { IsWayOf c.old.problem way.now }
    ensures problem { IfOk result (λ _. c.new.problem ≡ with_constant way.now.row way.now.end c.old.problem) }
    ensures held { IfOk result (λ _. IsAtEnd way.now c.new) }
    ensures marks { IfOk result (λ _. c.new.marks ≡ c.old.marks) }
    ensures before { c.new.before ≡ c.old.before }
    ensures stop { IfErr result
        (λ stop. (budget : ℕ) → IsSlideStop c.old.problem c.old.marks way.now budget stop) }
{
    c.show_corner(); // for the proof: what a corner keeps
    match shift(c, low, way.row, way.end) {
        Ok(()) => Ok(()),
        Err(Stop::Refused(quantity)) => {
            let trail = Trail::of(alloc, true, c);
            Err(unfit_at(&trail, c, way.end, SweepQuantity::At(quantity)))
        }
        Err(Stop::OutOfMemory) => Err(SweepStop::OutOfMemory),
    }
}

// Goes on to the slide's end, where the corner is the best one too.
fn finish<T: Tableau>(
    alloc: Global,
    c: &Corner<T>,
    way: &Way,
    trail: &Trail,
    slid: &mut Slid,
) -> Result<(), SweepStop>
    requires sliding { IsSliding c.now way.now trail.now slid.old }
    requires free { CostsAbove c.now.problem c.now.marks 0 → ⊥ }
    requires values { NoNegativeValue c.now.problem c.now.marks }
    ensures through { IfOk result (λ _. HasSlid c.now.problem way.now slid.new) }
    ensures stop { IfErr result
        (λ stop. (budget : ℕ) → IsStopOn c.now way.now trail.now slid.old budget stop) }
{
    c.show_corner(); // for the proof: what a corner keeps
    advance(alloc, c, way, trail, slid, way.last())?;
    Ok(())
}

// Goes on to the place at which the mark's value is 0. There it leaves, within the budget. (More than five
// parameters: the parts of a step, of which each is lent on alone.)
fn turn_at<T: Tableau>(
    alloc: Global,
    c: &mut Corner<T>,
    way: &Way,
    trail: &mut Trail,
    low: &mut Vec<RowName>,
    slid: &mut Slid,
    turn: Turn,
    budget: u64,
) -> Result<(), SweepStop>
    requires marked { 0 < length c.old.before }
    requires sliding { IsSliding c.old way.now trail.old slid.old }
    requires free { CostsAbove c.old.problem c.old.marks 0 → ⊥ }
    requires turn { IsTurn c.old way.now turn }
    requires low { AreLowLines c.old.problem c.old.marks low.old.items }
    ensures goes { IfOk result
        (λ _. StaysSliding c.old trail.old slid.old c.new trail.new slid.new way.now) }
    ensures few { IfOk result (λ _. length trail.new.swaps ≤ budget) }
    ensures more { IfOk result (λ _. length trail.old.swaps < length trail.new.swaps) }
    ensures problem { IfOk result (λ _. c.new.problem ≡ c.old.problem) }
    ensures before { c.new.before ≡ c.old.before }
    ensures stop { IfErr result (IsStopOn c.old way.now trail.old slid.old budget) }
{
    c.show_corner(); // for the proof: what a corner keeps
    advance(alloc, c, way, trail, slid, turn.place)?;
    leave(trail, c, way, turn.mark, low, budget)?;
    c.show_corner(); // for the proof: what it keeps after the exchange
    Ok(())
}

// One step of the slide. Answers whether that was the last.
fn step<T: Tableau>(
    alloc: Global,
    c: &mut Corner<T>,
    way: &Way,
    trail: &mut Trail,
    low: &mut Vec<RowName>,
    slid: &mut Slid,
    budget: u64,
) -> Result<bool, SweepStop>
    requires marked { 0 < length c.old.before }
    requires sliding { IsSliding c.old way.now trail.old slid.old }
    requires few { length trail.old.swaps ≤ budget }
    ensures goes { result ≡ Ok false
        → StaysSliding c.old trail.old slid.old c.new trail.new slid.new way.now }
    ensures few { result ≡ Ok false → length trail.new.swaps ≤ budget }
    ensures more { result ≡ Ok false → length trail.old.swaps < length trail.new.swaps }
    ensures through { result ≡ Ok true → HasSlid c.old.problem way.now slid.new }
    ensures problem { IfOk result (λ _. c.new.problem ≡ c.old.problem) }
    ensures before { c.new.before ≡ c.old.before }
    ensures stop { IfErr result (IsStopOn c.old way.now trail.old slid.old budget) }
{
    if is_costly(c) {
        push_clash(alloc, c, way, slid)?;
        return Ok(true);
    }
    match next(c, way, trail, low)? {
        None => {
            finish(alloc, c, way, trail, slid)?;
            Ok(true)
        }
        Some(turn) => {
            turn_at(alloc, c, way, trail, low, slid, turn, budget)?;
            Ok(false)
        }
    }
}

/// Slides from the corner, at which the run for the present constant has ended, to the end of the way, and
/// tells what is best on the way from where that is shown. The corner is then that of the slide's end, or one
/// that shows a conflict there; after a stop the caller goes back to the corner's newest mark.
pub fn slide<T: Tableau>(
    alloc: Global,
    c: &mut Corner<T>,
    way: &Way,
    budget: u64,
) -> Result<Slid, SweepStop>
    requires marked { IsMarked c.old }
    requires end { HasEnded c.old }
    requires way { IsWayOf c.old.problem way.now }
    ensures stretches { IfOk result (HasSlid c.old.problem way.now) }
    ensures stop { IfErr result (IsSlideStop c.old.problem c.old.marks way.now budget) }
    ensures before { c.new.before ≡ c.old.before }
{
    c.show_corner(); // for the proof: what a corner keeps
    let mut slid = begun(alloc, c, way)?;
    let mut low = Vec::new(alloc);
    go_to_end(alloc, c, way, &mut low)?;
    let mut trail = Trail::of(alloc, true, c);
    while !step(alloc, c, way, &mut trail, &mut low, &mut slid, budget)? {}
    Ok(slid)
}
