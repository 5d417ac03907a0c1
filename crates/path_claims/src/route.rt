// The corners of a path, by which mark of each line is inside.
ghost use Rattle.std.specs.Prelude.{◌≡◌, ◌↔◌, ◌<◌, ◌++◌, [], ◌∷◌, List, length, drop, replicate, true};
ghost use Rattle.std.specs.Prelude.{false, All, Any, IfOk, IfSome, IfNone, IsTrue, Some, None};
ghost use Rattle.problem_core.specs.Layout.{Problem};
ghost use Rattle.problem_core.specs.Kept.{IsWhole};
ghost use Rattle.problem_core.specs.Corners.{IsCorner, IsIn, place};
ghost use Rattle.std.specs.Prelude.{◌≢◌, AllPairs};
ghost use Rattle.problem_core.specs.declared.parts.Mark.{Mark};
ghost use Rattle.path_claims.specs.Bringing.{IsBringing, MayGive, NoneGives, NothingBrings};
ghost use Rattle.path_lines.specs.Numbering.{HasDouble};
ghost use Rattle.path_lines.specs.Sides.{ComesTwice, IsWithin, moved_sides};
ghost use Rattle.path_lines.specs.Tables.{AreSides, AreSized, names_of};

use crate::numbering::corner_numbers;
use frac_core::OutOfMemory;
use path_lines::{Inside, Spot, Step, is_exchange, spot_of};
use problem_core::{Mark, RowName, Side};
use std::alloc::Global;
use std::collections::BTreeSet;

/// The marks inside after an exchange.
pub fn moved(sides: &mut [Option<Side>], step: Step)
    requires { IsWithin (length sides.old) step }
    ensures sides { sides.new ≡ moved_sides step sides.old }
    ensures count { length sides.new ≡ length sides.old }
{
    sides[step.leave.at] = None;
    sides[step.enter.at] = Some(step.enter.side);
}

/// Whether the sides are the same.
pub fn is_one(a: Option<Side>, b: Option<Side>) -> bool
    ensures { IsTrue result ↔ (a ≡ b) }
{
    a == b
}

// Whether some number comes twice.
fn has_double(alloc: Global, numbers: &[usize]) -> Result<bool, OutOfMemory>
    ensures { IfOk result (λ double. IsTrue double ↔ HasDouble numbers.now) }
{
    let mut seen = BTreeSet::new(alloc);
    for number in numbers {
        if !seen.insert(*number)? {
            return Ok(true);
        }
    }
    Ok(false)
}

/// Whether the same marks are inside twice along the exchanges.
pub fn comes_twice(
    alloc: Global,
    first: &[Option<Side>],
    steps: &[Step],
) -> Result<bool, OutOfMemory>
    requires { All (IsWithin (length first.now)) steps.now }
    ensures { IfOk result (λ twice. IsTrue twice ↔ ComesTwice first.now steps.now) }
{
    if steps.is_empty() {
        return Ok(false);
    }
    let numbers = corner_numbers(alloc, first, steps)?;
    has_double(alloc, &numbers)
}

// ---- the marks of a path's first corner

// No mark of any line.
fn no_sides(alloc: Global, count: usize) -> Result<Vec<Option<Side>>, OutOfMemory>
    ensures { IfOk result (λ sides. sides.items ≡ replicate count None) }
{
    let mut sides = Vec::with_capacity(alloc, count)?;
    for _ in 0..count {
        sides.push(None)?;
    }
    Ok(sides)
}

// Puts a mark in, unless it is of no line, or its line has one.
fn take_mark(names: &[RowName], sides: &mut [Option<Side>], mark: Mark) -> bool
    requires { length sides.old ≡ length names.now }
    ensures count { length sides.new ≡ length sides.old }
    ensures taken { result ≡ true → (p : Problem) (taken : List Mark) → IsWhole p → names.now ≡ names_of p
        → AreSides p taken sides.old → AreSides p (taken ++ mark ∷ []) sides.new }
    ensures fresh { result ≡ true → (p : Problem) (taken : List Mark) → IsWhole p → names.now ≡ names_of p
        → AreSides p taken sides.old → IsIn (place mark) taken → ⊥ }
    ensures refused { result ≡ false → (p : Problem) (taken rest : List Mark) → IsWhole p
        → names.now ≡ names_of p → AreSides p taken sides.old → IsCorner p (taken ++ mark ∷ rest) → ⊥ }
{
    let Some(spot) = spot_of(names, mark) else {
        return false;
    };
    if sides[spot.at].is_some() {
        return false;
    }
    sides[spot.at] = Some(spot.side);
    true
}

/// Which mark of each line is among these, unless one is of no line, or two are of one line. Then they are no
/// corner's.
pub fn sides_of(
    alloc: Global,
    names: &[RowName],
    marks: &[Mark],
) -> Result<Option<Vec<Option<Side>>>, OutOfMemory>
    ensures some { IfOk result (λ sides. IfSome sides (λ s. (p : Problem) → IsWhole p → names.now ≡ names_of p
        → AreSides p marks.now s.items)) }
    ensures apart { IfOk result (λ sides. IfSome sides (λ _. (p : Problem) → IsWhole p
        → names.now ≡ names_of p → AllPairs (λ m n. place m ≢ place n) marks.now)) }
    ensures none { IfOk result (λ sides. IfNone sides ((p : Problem) → IsWhole p → names.now ≡ names_of p
        → IsCorner p marks.now → ⊥)) }
{
    let mut sides = no_sides(alloc, names.len())?;
    for mark in marks {
        if !take_mark(names, &mut sides, *mark) {
            return Ok(None);
        }
    }
    Ok(Some(sides))
}

// ---- the way to a path's first corner

// The exchange of the mark for the inside mark of the line, if that mark is not wanted.
fn gives_way(
    lines: &[Option<Inside>],
    wanted: &[Option<Side>],
    enter: Spot,
    at: usize,
) -> Option<Step>
    requires at { at < length lines.now }
    requires enter { enter.at < length lines.now }
    requires wanted { length wanted.now ≡ length lines.now }
    requires sized { AreSized lines.now }
    ensures step { IfSome result (λ step. (step.enter ≡ enter) × (step.leave.at ≡ at)) }
    ensures some { IfSome result (MayGive lines.now wanted.now) }
    ensures none { IfNone result (NoneGives lines.now wanted.now enter at) }
{
    let inside = lines[at].as_ref()?;
    let side = inside.side;
    let leave = Spot { at, side };
    let step = Step { enter, leave };
    if is_one(wanted[at], Some(side)) {
        return None;
    }
    if !is_exchange(lines, step) {
        return None;
    }
    Some(step)
}

/// The exchange that brings in a mark of a path's first corner. The first inside mark that is not one of them
/// and makes an exchange gives way.
pub fn bringing_in(lines: &[Option<Inside>], wanted: &[Option<Side>], enter: Spot) -> Option<Step>
    requires enter { enter.at < length lines.now }
    requires wanted { length wanted.now ≡ length lines.now }
    requires sized { AreSized lines.now }
    ensures enter { IfSome result (λ step. step.enter ≡ enter) }
    ensures leave { IfSome result (λ step. step.leave.at < length lines.now) }
    ensures some { IfSome result (IsBringing lines.now wanted.now) }
    ensures none { IfNone result (NothingBrings lines.now wanted.now enter) }
{
    for at in 0..lines.len() {
        if let Some(step) = gives_way(lines, wanted, enter, at) {
            return Some(step);
        }
    }
    None
}
