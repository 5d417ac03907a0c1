// The first number of each column that is not 0.
ghost use Rattle.std.specs.Prelude.{◌≡◌, ℕ, ◌<◌, ◌≤◌, Bool, cond, nat_eq, IfOk};
ghost use Rattle.std.specs.Prelude.{length, All, ℤ, pos, ◌<ℤ◌, nat_abs, unsigned_abs};
ghost use Rattle.frac_core.specs.Fraction.{IsFitting};
ghost use Rattle.problem_core.specs.Certificates.{Multipliers};
ghost use Rattle.problem_core.specs.declared.limits.TheConstants.{COEFFICIENT_LIMIT};
ghost use Rattle.cert_checker.specs.LineSums.{line_count};
ghost use Rattle.cert_checker.specs.Fronts.{AreFacts, AreFronts, AreOfLevel, CountsOwn, HasSeen, HaveSeen};
ghost use Rattle.cert_checker.specs.Fronts.{IsBlank, IsFront, IsReady, seen_by, seen_with};
ghost use Rattle.cert_checker.specs.Fronts.{reduced as reduced_cost, weight_of_side};

use crate::arithmetic::{difference, product, total};
use crate::leveled::PlacedLevel;
use crate::sums::Weighted;
use frac_core::OutOfMemory;
use problem_core::{FIRST_STAY_LEVEL, Problem, REQUIRED, Rel, Side};
use std::alloc::Global;

/// The first level at which a column is not 0, and its sign there.
#[derive(Clone, Copy)]
pub(crate) struct Front {
    pub level: usize,
    pub negative: bool,
}

/// What a line's columns depend on: its own level, its weight, its relation and its scale.
#[derive(Clone, Copy)]
pub(crate) struct Facts {
    pub own: usize,
    pub weight: u16,
    pub rel: Rel,
    pub scale: i64,
}

/// The fronts of a line's two columns, and whether a multiplier at its own level was seen.
#[derive(Clone, Copy)]
pub(crate) struct Sides {
    pub under: Option<Front>,
    pub over: Option<Front>,
    pub own: bool,
}

// The front of a column when one more of its numbers is seen.
fn keep(front: Option<Front>, level: usize, number: i128) -> Option<Front>
    ensures { (f : ℕ → ℤ) (seen : ℕ → Bool) → f level ≡ number → IsFront f seen front
        → IsFront f (seen_with seen level) result }
{
    if number == 0 {
        return front;
    }
    match front {
        None => Some(Front {
            level,
            negative: number < 0,
        }),
        Some(front) => {
            if level < front.level {
                Some(Front {
                    level,
                    negative: number < 0,
                })
            } else {
                Some(front)
            }
        }
    }
}

// What one point on a side costs, where these are the relation and the weight.
fn weight_of(rel: Rel, side: Side, weight: u16) -> u16
    ensures { result ≡ weight_of_side rel side weight }
{
    match (rel, side) {
        (Rel::Le, Side::Under) | (Rel::Ge, Side::Over) => 0,
        _ => weight,
    }
}

// The line's weight at a level: 0 at each but its own.
fn weight_at(facts: &Facts, level: usize) -> u16
    ensures { result ≡ cond (nat_eq facts.now.own level) facts.now.weight 0 }
{
    if facts.own == level { facts.weight } else { 0 }
}

// The reduced cost of a side of the line at a level.
fn reduced(facts: &Facts, side: Side, level: usize, scale: i64, times: i64) -> i128
    requires facts { unsigned_abs facts.now.scale ≤ COEFFICIENT_LIMIT }
    requires above { pos 0 <ℤ scale }
    requires scale { IsFitting scale }
    requires times { IsFitting times }
    ensures { result ≡ reduced_cost facts.now side level (nat_abs scale) times }
{
    let weight = weight_of(facts.rel, side, weight_at(facts, level));
    let weighted = product(scale, weight as i64);
    let shift = product(facts.scale, times);
    match side {
        Side::Under => difference(weighted, shift),
        Side::Over => total(weighted, shift),
    }
}

/// What the columns of the line at a place depend on.
pub(crate) fn facts_of(p: &Problem, at: usize) -> Facts
    requires { at < line_count p.now }
    ensures { AreFacts p.now at result }
{
    p.show_whole(); // for the proof: what a problem keeps
    let rows = p.rows();
    if at < rows.len() {
        let row = &rows[at];
        row.show_row(); // for the proof: what a row keeps
        return Facts {
            own: REQUIRED as usize - row.rank() as usize,
            weight: row.weight(),
            rel: row.rel(),
            scale: row.scale(),
        };
    }
    Facts {
        own: FIRST_STAY_LEVEL as usize + at - rows.len(),
        weight: 1,
        rel: Rel::Eq,
        scale: 1,
    }
}

// The fronts of a line when its multiplier at one more level is seen.
fn enter(sides: Sides, facts: &Facts, level: usize, scale: i64, times: i64) -> Sides
    requires facts { unsigned_abs facts.now.scale ≤ COEFFICIENT_LIMIT }
    requires above { pos 0 <ℤ scale }
    requires scale { IsFitting scale }
    requires times { IsFitting times }
    ensures { HasSeen facts.now level (nat_abs scale) times sides result }
{
    Sides {
        under: keep(
            sides.under,
            level,
            reduced(facts, Side::Under, level, scale, times),
        ),
        over: keep(
            sides.over,
            level,
            reduced(facts, Side::Over, level, scale, times),
        ),
        own: sides.own || facts.own == level,
    }
}

// Sees one more level: the fronts of the lines that it names.
fn enter_lines(p: &Problem, level: usize, scale: i64, weighted: &[Weighted], sides: &mut [Sides])
    requires count { length sides.old ≡ line_count p.now }
    requires below { All (λ w. (w.at < line_count p.now) × IsFitting w.times) weighted.now }
    requires fits { IsFitting scale }
    requires above { pos 0 <ℤ scale }
    ensures { HaveSeen p.now level scale weighted.now sides.old sides.new }
{
    for line in weighted {
        let facts = facts_of(p, line.at);
        sides[line.at] = enter(sides[line.at], &facts, level, scale, line.times);
    }
}

// The fronts of all lines when nothing is seen.
fn start(alloc: Global, p: &Problem) -> Result<Vec<Sides>, OutOfMemory>
    ensures count { IfOk result (λ v. length v.items ≡ line_count p.now) }
    ensures blank { IfOk result (λ v. All IsBlank v.items) }
{
    p.show_whole(); // for the proof: what a problem keeps
    let count = p.rows().len() + p.stays().len();
    let mut sides = Vec::new(alloc);
    for _ in 0..count {
        sides.push(Sides {
            under: None,
            over: None,
            own: false,
        })?;
    }
    Ok(sides)
}

// Sees all placed levels.
fn enter_levels(p: &Problem, placed: &[PlacedLevel], sides: &mut [Sides])
    requires placed { All (IsReady p.now) placed.now }
    requires count { length sides.old ≡ line_count p.now }
    requires blank { All IsBlank sides.old }
    ensures { (m : Multipliers) → All (λ q. AreOfLevel p.now m q.level q.scale q.weighted.items) placed.now
        → AreFronts p.now m (seen_by placed.now) sides.new }
{
    for q in placed {
        enter_lines(p, q.level, q.scale, &q.weighted, sides);
    }
}

/// The fronts of all lines at the placed levels.
pub(crate) fn fronts(
    alloc: Global,
    p: &Problem,
    placed: &[PlacedLevel],
) -> Result<Vec<Sides>, OutOfMemory>
    requires { All (IsReady p.now) placed.now }
    ensures count { IfOk result (λ v. length v.items ≡ line_count p.now) }
    ensures fronts { IfOk result (λ v. (m : Multipliers)
        → All (λ q. AreOfLevel p.now m q.level q.scale q.weighted.items) placed.now
        → AreFronts p.now m (seen_by placed.now) v.items) }
{
    let mut sides = start(alloc, p)?;
    enter_levels(p, placed, &mut sides);
    Ok(sides)
}

// The front of a column when the line's own level is seen, where its number is above 0.
fn keep_above(front: Option<Front>, level: usize) -> Option<Front>
    ensures { (f : ℕ → ℤ) (seen : ℕ → Bool) → pos 0 <ℤ f level → IsFront f seen front
        → IsFront f (seen_with seen level) result }
{
    match front {
        None => Some(Front {
            level,
            negative: false,
        }),
        Some(front) => {
            if level < front.level {
                Some(Front {
                    level,
                    negative: false,
                })
            } else {
                Some(front)
            }
        }
    }
}

/// The front of a whole column: at the line's own level its weight stands where no multiplier was seen.
pub(crate) fn whole_front(
    front: Option<Front>,
    named: bool,
    facts: &Facts,
    side: Side,
) -> Option<Front>
    ensures { CountsOwn facts.now side named front result }
{
    if named {
        return front;
    }
    if weight_of(facts.rel, side, facts.weight) == 0 {
        return front;
    }
    keep_above(front, facts.own)
}
