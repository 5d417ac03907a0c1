// Whether marks and attributes fit after an exchange.
ghost use Rattle.std.specs.Prelude.{◌≡◌, ◌≢◌, ◌↔◌, ◌<◌, true, false, length, get_or, List, All, IfOk, IfErr};
ghost use Rattle.std.specs.Prelude.{IfSome, IfNone, IsTrue};
ghost use Rattle.problem_core.specs.Layout.{Problem};
ghost use Rattle.problem_core.specs.Corners.{IsIn, attr_column, place_of};
ghost use Rattle.problem_core.specs.Unfit.{HasNoWriting, IsUnfitWhat};
ghost use Rattle.problem_core.specs.declared.parts.Mark.{Mark};
ghost use Rattle.problem_core.specs.declared.parts.Stay.{Stay};
ghost use Rattle.problem_core.specs.declared.stops.What.TheVariants.{Attr, Mark as MarkOf};
ghost use Rattle.problem_core.specs.declared.stops.Quantity.TheVariants.{Plain};
ghost use Rattle.path_lines.specs.Exchanges.Pivots.{HasUnfit};
ghost use Rattle.path_lines.specs.Tables.{AreLines, IsSized, IsSizedLine, IsThere};
ghost use Rattle.path_lines.specs.Tables.{line_count};
ghost use Rattle.path_lines.specs.Tables.{name_at};
ghost use Rattle.frac_core.specs.Stops.{IsRefused};
ghost use Rattle.path_fits.specs.Fits.{AllAttrsFit, IsFitAt};
ghost use Rattle.path_fits.specs.Attrs.{IsAttrAfter, IsAttrBefore, IsFittingStay, IsSizedMade};
ghost use Rattle.path_fits.specs.Attrs.{IsStayAt, IsUnfitBefore, IsUnfitStay};
ghost use Rattle.path_fits.specs.After.{AfterFittingAttrs, AfterPivot, AfterStepWithLine, IsPivotCase};

use crate::last::after::{LineAt, side_after};
use crate::last::line_sums::{line_after, next_sum, unit_sum, with_value};
use crate::last::{Fit, PivotCase};
use frac_core::{Frac, OutOfMemory, Stop};
use path_lines::{Inside, Step, Sum, SumStop, names, spot_of, stay_of};
use problem_core::{Mark, Problem, Side, Stay};
use std::alloc::Global;

/// Whether this mark of the line is inside after the exchange.
pub(crate) fn is_inside_after(line: &Option<Inside>, step: Step, at: usize, side: Side) -> bool
    ensures { AfterStepWithLine step at line.now
        (λ p marks. IsTrue result ↔ IsIn (place_of (name_at p at) side) marks) }
{
    match side_after(line, step, at) {
        Some(inside) => inside == side,
        None => false,
    }
}

/// Whether a mark fits after the exchange.
pub(crate) fn mark_fit(alloc: Global, case: PivotCase<'_>, mark: Mark) -> Result<Fit, OutOfMemory>
    requires { IsPivotCase case }
    ensures { IfOk result (λ fit. AfterPivot case.entry
        (λ marks. IsFitAt case.entry.p.now marks (Plain (MarkOf mark)) fit)) }
{
    let PivotCase { p, lines, pivot } = case;
    let names = names(alloc, p)?;
    let Some(spot) = spot_of(&names, mark) else {
        return Ok(Fit::Fits);
    };
    let inside = &lines[spot.at];
    if !is_inside_after(inside, pivot.step, spot.at, spot.side) {
        return Ok(Fit::Fits);
    }
    let (at, count) = (spot.at, lines.len());
    match line_after(alloc, LineAt { inside, at, count }, pivot) {
        Ok(_) => Ok(Fit::Fits),
        Err(Stop::Refused(_)) => Ok(Fit::Unfit),
        Err(Stop::OutOfMemory) => Err(OutOfMemory),
    }
}

// The sum of the attribute at the corner before the exchange. Its stay has this target.
fn attr_before(alloc: Global, target: Frac, line: LineAt<'_>) -> Result<Sum, SumStop>
    requires { IsSizedLine line.count line.inside.now }
    ensures sized { IfOk result (IsSized line.entry.count) }
    ensures attr { IfOk result (IsAttrBefore target line.entry) }
    ensures unfit { IfErr result (λ stop. IsRefused stop → IsUnfitBefore target line.entry) }
{
    match line.inside {
        Some(inside) => {
            let value = Frac::mul_add(target, 1, 1, inside.sum.value)?;
            Ok(with_value(alloc, &inside.sum, value)?)
        }
        None => Ok(unit_sum(alloc, line.count, line.at, target)?),
    }
}

// The target of an attribute's stay, and the place of its line.
#[derive(Clone, Copy)]
struct StayPlace {
    target: Frac,
    at: usize,
}

// The target and the place of the attribute's stay, unless it has none.
fn stay_place(p: &Problem, attr: u32) -> Option<StayPlace>
    ensures some { IfSome result (λ s. IsStayAt p.now attr s.at s.target) }
    ensures none { IfNone result (All (λ s. s.attr ≢ attr) p.now.stays) }
{
    p.show_whole(); // for the proof: what a problem keeps
    let i = stay_of(p.stays(), attr)?;
    let target = p.stays()[i].target;
    let at = p.rows().len() + i;
    Some(StayPlace { target, at })
}

/// The sum of an attribute after the exchange, unless it has no stay.
pub(crate) fn attr_after(
    alloc: Global,
    case: PivotCase<'_>,
    attr: u32,
) -> Result<Option<Sum>, SumStop>
    requires { IsPivotCase case }
    ensures sized { IfOk result (IsSizedMade (length case.entry.lines.now)) }
    ensures attr { IfOk result (λ made. AfterPivot case.entry
        (λ marks. IsAttrAfter case.entry.p.now marks attr made)) }
    ensures unfit { IfErr result (λ stop. IsRefused stop → AfterFittingAttrs case.entry
        (λ marks. IsUnfitWhat case.entry.p.now marks (Attr attr))) }
{
    let PivotCase { p, lines, pivot } = case;
    let Some(stay) = stay_place(p, attr) else {
        return Ok(None);
    };
    let line = LineAt {
        inside: &lines[stay.at],
        at: stay.at,
        count: lines.len(),
    };
    let before = attr_before(alloc, stay.target, line)?;
    let sum = next_sum(alloc, pivot, &before)?;
    Ok(Some(sum))
}

/// Whether an attribute fits after the exchange.
pub(crate) fn attr_fit(alloc: Global, case: PivotCase<'_>, attr: u32) -> Result<Fit, OutOfMemory>
    requires { IsPivotCase case }
    ensures { IfOk result (λ fit. AfterFittingAttrs case.entry
        (λ marks. IsFitAt case.entry.p.now marks (Plain (Attr attr)) fit)) }
{
    match attr_after(alloc, case, attr) {
        Ok(_) => Ok(Fit::Fits),
        Err(Stop::Refused(_)) => Ok(Fit::Unfit),
        Err(Stop::OutOfMemory) => Err(OutOfMemory),
    }
}

// Whether the sum of the target and the line's deviation fits.
fn stay_fits(target: Frac, line: &Option<Inside>) -> bool
    ensures fits { result ≡ true → IsFittingStay target line.now }
    ensures unfit { result ≡ false → IsUnfitStay target line.now }
{
    let Some(inside) = line else {
        return true;
    };
    let Ok(value) = Frac::mul_add(target, 1, 1, inside.sum.value) else {
        return false;
    };
    let _ = value.num(); // for the proof: what a fraction keeps
    true
}

// Whether the attribute of the stay at a place fits at the corner.
fn stay_fits_at(p: &Problem, lines: &[Option<Inside>], i: usize) -> bool
    requires within { i < length p.now.stays }
    requires count { length lines.now ≡ line_count p.now }
    ensures fits { result ≡ true → (s : Stay) (at : List Mark) → IsThere p.now at
        → AreLines p.now at lines.now
        → HasNoWriting p.now at (λ x. x (attr_column (get_or p.now.stays i s).attr)) → ⊥ }
    ensures unfit { result ≡ false → (at : List Mark) → IsThere p.now at → AreLines p.now at lines.now
        → HasUnfit p.now at }
{
    p.show_whole(); // for the proof: what a problem keeps
    let target = p.stays()[i].target;
    let at = p.rows().len() + i;
    stay_fits(target, &lines[at])
}

/// Whether all attributes fit at a corner.
pub fn attrs_fit(p: &Problem, lines: &[Option<Inside>]) -> bool
    requires { length lines.now ≡ line_count p.now }
    ensures fits { result ≡ true → (at : List Mark) → IsThere p.now at → AreLines p.now at lines.now
        → AllAttrsFit p.now at }
    ensures unfit { result ≡ false → (at : List Mark) → IsThere p.now at → AreLines p.now at lines.now
        → HasUnfit p.now at }
{
    for i in 0..p.stays().len() {
        if !stay_fits_at(p, lines, i) {
            return false;
        }
    }
    true
}
