// The levels of a certificate, with the places of their lines.
ghost use Rattle.std.specs.Prelude.{◌≡◌, ◌+◌, ◌↔◌, All, IsTrue, IfOk};
ghost use Rattle.std.specs.Prelude.{IfSome, IfNone};
ghost use Rattle.cert_core.specs.Claims.{IsLevel, IsRanked, level_at};
ghost use Rattle.cert_checker.specs.Certifying.{HasLevel};
ghost use Rattle.cert_checker.specs.LinePlaces.{ArePlaces, AreWeighed};
ghost use Rattle.cert_checker.specs.PlacedLevels.{ArePlaced, BalancesAt, CancelAt, IsPlaced};

use crate::places::{Places, weigh};
use crate::sums::{Weighted, cancel};
use cert_core::{Best, BestLevel};
use frac_core::OutOfMemory;
use problem_core::{FIRST_STAY_LEVEL, Level, Problem, REQUIRED, RowName};
use std::alloc::Global;

/// A level's place, strongest first, with its scale and the lines that it names.
#[derive(Drop)]
pub(crate) struct PlacedLevel {
    pub level: usize,
    pub scale: i64,
    pub weighted: Vec<Weighted>,
}

// The place of a level, strongest first, if it is one of the problem's.
fn level_place(p: &Problem, places: &Places, level: Level) -> Option<usize>
    requires places { ArePlaces p.now places.now }
    requires ranked { IsRanked level }
    ensures some { IfSome result (λ k. level_at p.now k ≡ level) }
    ensures held { IfSome result (λ _. HasLevel p.now level) }
    ensures none { IfNone result (HasLevel p.now level → ⊥) }
{
    p.show_whole(); // for the proof: what a problem keeps
    match level {
        Level::Priority(rank) => Some(REQUIRED as usize - rank as usize),
        Level::Stay(attr) => {
            let at = places.find(p, RowName::Stay(attr))?;
            Some(FIRST_STAY_LEVEL as usize + at - p.rows().len())
        }
    }
}

// A level with its place, if its scale is above 0, the problem has it and what it names, and its lines
// cancel.
fn place_level(
    alloc: Global,
    p: &Problem,
    places: &Places,
    l: &BestLevel,
) -> Result<Option<PlacedLevel>, OutOfMemory>
    requires places { ArePlaces p.now places.now }
    requires level { IsLevel l.now }
    ensures some { IfOk result (λ o. IfSome o (IsPlaced p.now l.now)) }
    ensures none { IfOk result (λ o. IfNone o (BalancesAt p.now l.now → ⊥)) }
{
    if l.scale() <= 0 {
        return Ok(None);
    }
    let Some(level) = level_place(p, places, l.level()) else {
        return Ok(None);
    };
    let Some(weighted) = weigh(alloc, p, places, l.by())? else {
        return Ok(None);
    };
    if !cancel_lines(alloc, p, l, &weighted)? {
        return Ok(None);
    }
    Ok(Some(PlacedLevel {
        level,
        scale: l.scale(),
        weighted,
    }))
}

// Whether the lines that a level names cancel at each attribute.
fn cancel_lines(
    alloc: Global,
    p: &Problem,
    l: &BestLevel,
    weighted: &[Weighted],
) -> Result<bool, OutOfMemory>
    requires level { IsLevel l.now }
    requires weighted { AreWeighed p.now l.now.by weighted.now }
    ensures { IfOk result (λ yes. IsTrue yes ↔ CancelAt p.now l.now) }
{
    p.show_whole(); // for the proof: what a problem keeps
    cancel(alloc, p, weighted)
}

/// The levels at their places, if all balance.
pub(crate) fn place_levels(
    alloc: Global,
    p: &Problem,
    places: &Places,
    best: &Best,
) -> Result<Option<Vec<PlacedLevel>>, OutOfMemory>
    requires places { ArePlaces p.now places.now }
    ensures some { IfOk result (λ o. IfSome o (λ v. ArePlaced p.now best.now v.items)) }
    ensures none { IfOk result (λ o. IfNone o (All (BalancesAt p.now) best.now → ⊥)) }
{
    let mut placed = Vec::new(alloc);
    for level in best.levels() {
        let Some(next) = place_level(alloc, p, places, level)? else {
            return Ok(None);
        };
        placed.push(next)?;
    }
    Ok(Some(placed))
}
