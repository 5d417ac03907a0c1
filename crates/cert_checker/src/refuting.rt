// The check of a conflict's multipliers.
ghost use Rattle.std.specs.Prelude.{◌≡◌, ◌<◌, ◌≤◌, ◌^◌, ◌/◌, ◌↔◌, pos, ◌*ℤ◌, length, All, IsTrue, IfOk};
ghost use Rattle.std.specs.Prelude.{IfErr, unsigned_abs};
ghost use Rattle.problem_core.specs.Common.{IsLeastCommon};
ghost use Rattle.frac_core.specs.Fraction.{IsFitting};
ghost use Rattle.problem_core.specs.declared.parts.RowName.TheVariants.{Held};
ghost use Rattle.problem_core.specs.Layout.{IsInConflict, sum_of};
ghost use Rattle.problem_core.specs.Certificates.{HasSign, IsRefutation};
ghost use Rattle.cert_core.specs.Claims.{AreBys, times_of};
ghost use Rattle.frac_core.specs.declared.frac.TheConstants.{PART_BOUND};
ghost use Rattle.problem_core.specs.declared.limits.TheConstants.{ROW_LIMIT};
ghost use Rattle.cert_checker.specs.declared.refuting.TheConstants.{ROOM};
ghost use Rattle.cert_checker.specs.LinePlaces.{AreWeighed};
ghost use Rattle.cert_checker.specs.Refuting.{Cancels, HasSumRoom, IsAboveZero, IsConflictVerdict};
ghost use Rattle.cert_checker.specs.Refuting.{IsFirstWithoutRoom};
ghost use Rattle.cert_checker.specs.Required.{IsRequiredAt, IsSigned, Reaches, denominators, den_at, num_at};

use crate::arithmetic::{product, total};
use crate::places::{Places, weigh};
use crate::sums::{Weighted, cancel};
use crate::verdict::{CANCEL_CLAUSE, SIGNS_CLAUSE, SUM_CLAUSE, Verdict};
use cert_core::{By, Conflict};
use frac_core::OutOfMemory;
use problem_core::{Problem, REQUIRED, Rel, least_common};
use std::alloc::Global;

/// What the common denominator of the constants of a refutation is below, so that their sum fits in 128 bits.
pub(crate) const ROOM: u128 = 1 << 30;

// Whether each line is a required row.
fn are_required(p: &Problem, weighted: &[Weighted]) -> bool
    ensures { IsTrue result ↔ All (λ w. IsRequiredAt p.now w.at) weighted.now }
{
    let rows = p.rows();
    weighted.iter().all(|line| line.at < rows.len() && rows[line.at].rank() == REQUIRED)
}

// Whether the relation allows the sign of the multiplier.
fn is_allowed(rel: Rel, times: i64) -> bool
    ensures { IsTrue result ↔ HasSign rel times }
{
    match rel {
        Rel::Eq => true,
        Rel::Ge => times >= 0,
        Rel::Le => times <= 0,
    }
}

// Whether each line is a row that allows its multiplier's sign.
fn are_signed(p: &Problem, weighted: &[Weighted]) -> bool
    ensures { IsTrue result ↔ All (IsSigned p.now) weighted.now }
{
    let rows = p.rows();
    weighted.iter().all(|line| line.at < rows.len() && is_allowed(rows[line.at].rel(), line.times))
}

// The denominator of the row's constant.
fn denominator(p: &Problem, at: usize) -> u128
    requires { at < length p.now.rows }
    ensures value { result ≡ den_at p.now at }
    ensures above { 0 < result }
    ensures small { result < PART_BOUND }
{
    let row = &p.rows()[at];
    row.constant().den() as u128
}

// The least common denominator of the rows' constants, or the number of the first row with which it reaches
// [`ROOM`].
fn common_denominator(p: &Problem, weighted: &[Weighted]) -> Result<u128, u32>
    requires { All (λ w. IsRequiredAt p.now w.at) weighted.now }
    ensures room { IfOk result (λ d. d < ROOM) }
    ensures least { IfOk result (IsLeastCommon (denominators p.now weighted.now)) }
    ensures reached { IfErr result (Reaches p.now weighted.now) }
{
    let mut common = 1;
    for line in weighted {
        common = least_common(common, denominator(p, line.at));
        if common >= ROOM {
            return Err(p.rows()[line.at].id());
        }
    }
    Ok(common)
}

// The numerator of the row's constant.
fn numerator(p: &Problem, at: usize) -> i64
    requires { at < length p.now.rows }
    ensures value { result ≡ num_at p.now at }
    ensures fits { IsFitting result }
{
    let row = &p.rows()[at];
    row.constant().num()
}

// The multiplier times the numerator, times a share of the common denominator.
fn scaled(times: i64, num: i64, share: u128) -> i128
    requires times { IsFitting times }
    requires num { IsFitting num }
    requires share { share < ROOM }
    ensures value { result ≡ times *ℤ (num *ℤ pos share) }
    ensures small { unsigned_abs result < 2 ^ 114 }
{
    product(times, num) * share as i128
}

// The sum of the rows' constants, each times its multiplier, over a common denominator.
fn constants(p: &Problem, weighted: &[Weighted], common: u128) -> i128
    requires rows { All (λ w. IsRequiredAt p.now w.at × IsFitting w.times) weighted.now }
    requires count { length weighted.now ≤ ROW_LIMIT }
    requires room { common < ROOM }
    ensures { result ≡ sum_of (λ w. w.times *ℤ (num_at p.now w.at
        *ℤ pos (common / den_at p.now w.at))) weighted.now }
{
    let mut sum = 0;
    for line in weighted {
        let share = common / denominator(p, line.at);
        sum = total(sum, scaled(line.times, numerator(p, line.at), share));
    }
    sum
}

// Whether there are multipliers, all of required rows, which cancel at each attribute.
fn cancels(
    alloc: Global,
    p: &Problem,
    by: &[By],
    weighted: &[Weighted],
) -> Result<bool, OutOfMemory>
    requires by { AreBys by.now }
    requires weighted { AreWeighed p.now by.now weighted.now }
    ensures cancels { IfOk result (λ yes. IsTrue yes ↔ Cancels p.now by.now) }
    ensures rows { IfOk result (λ yes. IsTrue yes → All (λ w. IsRequiredAt p.now w.at) weighted.now) }
{
    p.show_whole(); // for the proof: what a problem keeps
    if by.is_empty() {
        return Ok(false);
    }
    if !are_required(p, weighted) {
        return Ok(false);
    }
    cancel(alloc, p, weighted)
}

// Whether the sum of the constants is above 0, or the row at which there is no room for it.
fn is_above_zero(p: &Problem, by: &[By], weighted: &[Weighted]) -> Result<bool, u32>
    requires by { AreBys by.now }
    requires weighted { AreWeighed p.now by.now weighted.now }
    requires rows { All (λ w. IsRequiredAt p.now w.at) weighted.now }
    ensures room { IfOk result (λ _. HasSumRoom p.now by.now) }
    ensures above { IfOk result (λ yes. IsTrue yes ↔ IsAboveZero p.now by.now) }
    ensures lost { IfErr result (IsFirstWithoutRoom p.now by.now) }
{
    p.show_whole(); // for the proof: what a problem keeps
    let common = common_denominator(p, weighted)?;
    Ok(constants(p, weighted, common) > 0)
}

// The verdict on multipliers whose lines are found.
fn judge(
    alloc: Global,
    p: &Problem,
    by: &[By],
    weighted: &[Weighted],
) -> Result<Verdict, OutOfMemory>
    requires by { AreBys by.now }
    requires weighted { AreWeighed p.now by.now weighted.now }
    ensures { IfOk result (IsConflictVerdict p.now by.now) }
{
    p.show_whole(); // for the proof: what a problem keeps
    if !cancels(alloc, p, by, weighted)? {
        return Ok(Verdict::No(CANCEL_CLAUSE));
    }
    if !are_signed(p, weighted) {
        return Ok(Verdict::No(SIGNS_CLAUSE));
    }
    match is_above_zero(p, by, weighted) {
        Ok(true) => Ok(Verdict::Yes),
        Ok(false) => Ok(Verdict::No(SUM_CLAUSE)),
        Err(row) => Ok(Verdict::NoRoom(row)),
    }
}

/// Checks that the multipliers show a conflict.
///
/// `No(6)`: there is none, one is not of a required row, or the rows do not cancel at each attribute.
/// `No(7)`: a multiplier is below 0 at a `>=` or above 0 at a `<=`. `No(8)`: the sum of the constants is not
/// above 0. Before that clause, `NoRoom` has the first row with which the constants of the rows named so far
/// have no common denominator for which there is room.
pub fn check_conflict(alloc: Global, p: &Problem, c: &Conflict) -> Result<Verdict, OutOfMemory>
    ensures verdict { IfOk result (IsConflictVerdict p.now c.now) }
    ensures refutes { IfOk result (λ v. v ≡ Verdict.Yes
        → IsRefutation p.now (λ id. times_of c.now (Held id))) }
    ensures conflict { IfOk result (λ v. v ≡ Verdict.Yes → IsInConflict p.now) }
{
    p.show_whole(); // for the proof: what a problem keeps
    let by = c.by();
    let places = Places::of(alloc, p)?;
    let Some(weighted) = weigh(alloc, p, &places, by)? else {
        return Ok(Verdict::No(CANCEL_CLAUSE));
    };
    judge(alloc, p, by, &weighted)
}
