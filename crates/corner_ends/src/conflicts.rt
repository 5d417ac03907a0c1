// The conflict that the multipliers of the required level show.
ghost use Rattle.std.specs.Prelude.{◌≡◌, ◌≢◌, ◌⊎◌, ℕ, ◌<◌, ◌≤◌, ◌/◌, ◌*ℤ◌, pos, true, false, Any, All};
ghost use Rattle.std.specs.Prelude.{IfOk, unsigned_abs};
ghost use Rattle.std.specs.Int.{◌∣◌};
ghost use Rattle.frac_core.specs.Fraction.{IsFitting};
ghost use Rattle.frac_core.specs.declared.frac.TheConstants.{PART_BOUND};
ghost use Rattle.problem_core.specs.Layout as layout;
ghost use Rattle.problem_core.specs.declared.limits.TheConstants.{REQUIRED as required_rank};
ghost use Rattle.problem_core.specs.Levels.{CostsAbove};
ghost use Rattle.problem_core.specs.Changes.Paths.{NoNegativeRequired};
ghost use Rattle.cert_core.specs.Stops.{IsShownConflict};
ghost use Rattle.corner_lines.specs.Shifts.{AreSeenAlike};
ghost use Rattle.corner_ends.specs.Shares.{AreLowestShares, ForRequiredTimes, HasNextShare, IsConflictStop};
ghost use Rattle.corner_ends.specs.Shares.{IsDivisor, IsGreatest};

use crate::costs::{is_below, required_level};
use cert_core::{By, Conflict, RunStop};
use corner_view::{Corner, Tableau};
use frac_core::{OutOfMemory, gcd, opposite};
use problem_core::{REQUIRED, Row, RowName};
use std::alloc::Global;

// The multiplier of a row at the level of the required rows.
fn multiplier<T: Tableau>(c: &Corner<T>, row: &Row) -> i64
    requires { Any (λ r. r.id ≡ row.now.id) c.now.problem.rows }
    ensures value { ForRequiredTimes c.now (λ y. result ≡ y row.now.id) }
    ensures fits { IsFitting result }
{
    c.show_corner(); // for the proof: what a corner keeps
    c.multiplier(required_level(), RowName::Held(row.id()))
}

// The greatest factor that the number shares with a factor.
fn shared(factor: u128, times: i64) -> u128
    requires times { IsFitting times }
    requires small { factor < PART_BOUND }
    ensures small { result < PART_BOUND }
    ensures factor { result ∣ factor }
    ensures times { result ∣ unsigned_abs times }
    ensures greatest { (k : ℕ) → k ∣ factor → k ∣ unsigned_abs times → k ∣ result }
{
    if is_zero(times) {
        factor
    } else {
        gcd(factor, size_of(times))
    }
}

// The greatest factor that a row's multiplier shares with a factor, where the row is required.
fn shared_by<T: Tableau>(factor: u128, c: &Corner<T>, row: &Row) -> u128
    requires row { Any (λ r. r.id ≡ row.now.id) c.now.problem.rows }
    requires small { factor < PART_BOUND }
    ensures small { result < PART_BOUND }
    ensures factor { result ∣ factor }
    ensures times { ForRequiredTimes c.now (λ y. IsDivisor result y row.now) }
    ensures greatest { ForRequiredTimes c.now
        (λ y. (k : ℕ) → k ∣ factor → IsDivisor k y row.now → k ∣ result) }
{
    if row.rank() == REQUIRED {
        shared(factor, multiplier(c, row))
    } else {
        factor
    }
}

// The greatest common factor of the multipliers, 1 where there are none.
fn common_factor<T: Tableau>(c: &Corner<T>) -> u128
    ensures above { 0 < result }
    ensures small { result < PART_BOUND }
    ensures divides { ForRequiredTimes c.now (λ y. All (IsDivisor result y) c.now.problem.rows) }
    ensures greatest { ForRequiredTimes c.now
        (λ y. All (IsDivisor 0 y) c.now.problem.rows ⊎ IsGreatest result y c.now.problem.rows) }
{
    let mut factor = 0;
    for row in c.rows() {
        factor = shared_by(factor, c, row);
    }
    if factor == 0 { 1 } else { factor }
}

// The size of a number divided by a factor.
fn size_share(times: i64, factor: u128) -> i64
    requires above { 0 < factor }
    requires fits { IsFitting times }
    ensures value { result ≡ pos (unsigned_abs times / factor) }
    ensures fits { IsFitting result }
{
    (u128::from(times.unsigned_abs()) / factor) as i64
}

// Whether the number is 0.
fn is_zero(z: i64) -> bool
    ensures yes { result ≡ true → z ≡ pos 0 }
    ensures no { result ≡ false → z ≢ pos 0 }
{
    z == 0
}

// The size of a number, in 128 bits.
fn size_of(z: i64) -> u128
    ensures { result ≡ unsigned_abs z }
{
    u128::from(z.unsigned_abs())
}

// The number divided by a factor of it.
fn share(times: i64, factor: u128) -> i64
    requires above { 0 < factor }
    requires fits { IsFitting times }
    requires divides { factor ∣ unsigned_abs times }
    ensures value { pos factor *ℤ result ≡ times }
    ensures fits { IsFitting result }
{
    let size = size_share(times, factor);
    if is_below(times) {
        opposite(size)
    } else {
        size
    }
}

// Appends the row's share of its multiplier, where the row is required and this is not 0.
fn push_share<T: Tableau>(
    out: &mut Vec<By>,
    c: &Corner<T>,
    row: &Row,
    factor: u128,
) -> Result<(), OutOfMemory>
    requires row { Any (λ r. r.id ≡ row.now.id) c.now.problem.rows }
    requires above { 0 < factor }
    requires divides { ForRequiredTimes c.now (λ y. IsDivisor factor y row.now) }
    ensures { IfOk result
        (λ _. ForRequiredTimes c.now (λ y. HasNextShare y factor row.now out.old.items out.new.items)) }
{
    c.show_corner(); // for the proof: what a corner keeps
    if row.rank() == REQUIRED {
        let times = share(multiplier(c, row), factor);
        if !is_zero(times) {
            out.push(By {
                row: RowName::Held(row.id()),
                times,
            })?;
        }
    }
    Ok(())
}

// The multipliers of the required rows without a common factor.
fn shares<T: Tableau>(alloc: Global, c: &Corner<T>) -> Result<Vec<By>, OutOfMemory>
    ensures { IfOk result
        (λ out. ForRequiredTimes c.now (λ y. AreLowestShares y c.now.problem.rows out.items)) }
{
    c.show_corner(); // for the proof: what a corner keeps
    let factor = common_factor(c);
    let mut out = Vec::new(alloc);
    for row in c.rows() {
        push_share(&mut out, c, row, factor)?;
    }
    Ok(out)
}

/// The conflict that the multipliers of the required level show, here and with all other constants with which
/// the required rows cost at this corner.
pub fn conflict<T: Tableau>(alloc: Global, c: &Corner<T>) -> Result<Conflict, OutOfMemory>
    requires above { CostsAbove c.now.problem c.now.marks 0 }
    requires columns { NoNegativeRequired c.now.problem c.now.marks }
    ensures here { IfOk result (IsShownConflict c.now.problem) }
    ensures elsewhere { IfOk result (λ by. (q : layout.Problem) → layout.IsProblem q
        → All (λ r. r.rank ≤ required_rank) q.rows → AreSeenAlike c.now.problem q
        → CostsAbove q c.now.marks 0 → IsShownConflict q by) }
{
    c.show_corner(); // for the proof: what a corner keeps
    let by = shares(alloc, c)?;
    Conflict::of(alloc, &by)
}

/// The stop at which the multipliers of the required level refute the required rows.
///
/// The rows that it names come by rising number, none of them times 0, and the multipliers have no common
/// factor. That rows without a solution always have such multipliers is Farkas's lemma.
pub fn conflict_stop<T: Tableau>(alloc: Global, c: &Corner<T>) -> RunStop
    requires above { CostsAbove c.now.problem c.now.marks 0 }
    requires columns { NoNegativeRequired c.now.problem c.now.marks }
    ensures { IsConflictStop c.now.problem result }
{
    match conflict(alloc, c) {
        Ok(by) => RunStop::Conflict(by),
        Err(_) => RunStop::OutOfMemory,
    }
}
