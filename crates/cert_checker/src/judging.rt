// The check of a certificate.
ghost use Rattle.std.specs.Prelude.{◌≡◌, ℕ, ◌<◌, ◌↔◌, length, pos, IsTrue, IfOk, Bool};
ghost use Rattle.std.specs.List.{HoldsAt};
ghost use Rattle.std.specs.Ordering.{int_cmp};
ghost use Rattle.problem_core.specs.Layout.{Assignment, Gives, IsBest, Satisfies, gap, line_of_stay, lines};
ghost use Rattle.problem_core.specs.Certificates.{IsCertificate, Multipliers};
ghost use Rattle.problem_core.specs.Gaps.{HasValue};
ghost use Rattle.cert_core.specs.Claims.{multipliers_of};
ghost use Rattle.cert_checker.specs.LineSums.{line_count};
ghost use Rattle.cert_checker.specs.Certifying.{AreFree, AreNotNegative, AreOfStays, EachGiven, HaveGapRoom};
ghost use Rattle.cert_checker.specs.Certifying.{IsBestVerdict, IsNotNegative};
ghost use Rattle.cert_checker.specs.Fronts.{AreFronts, AreKnown, HasColumnFronts, HasFrontsAt};
ghost use Rattle.cert_checker.specs.Fronts.{is_below as has_negative, is_free as has_free};
ghost use Rattle.cert_checker.specs.Fronts.{is_zero as has_none};

use crate::fronts::{Front, Sides, facts_of, fronts, whole_front};
use crate::leveled::place_levels;
use crate::places::Places;
use crate::valued::{are_met, are_of_stays, first_without_room, row_sign};
use crate::verdict::{
    BALANCE_CLAUSE, COLUMNS_CLAUSE, FREE_CLAUSE, GIVEN_CLAUSE, REQUIRED_CLAUSE, Verdict,
};
use cert_core::Best;
use frac_core::OutOfMemory;
use problem_core::{Problem, Side, Stay, Values};
use std::alloc::Global;
use std::cmp::Ordering;

// The fronts of the whole columns of the line at a place.
fn whole(p: &Problem, at: usize, sides: Sides) -> Sides
    requires { at < line_count p.now }
    ensures { (m : Multipliers) (seen : ℕ → ℕ → Bool) → AreKnown p.now m seen
        → HasFrontsAt p.now m seen at sides → HoldsAt (λ l. HasColumnFronts m l result) (lines p.now) at }
{
    let facts = facts_of(p, at);
    Sides {
        under: whole_front(sides.under, sides.own, &facts, Side::Under),
        over: whole_front(sides.over, sides.own, &facts, Side::Over),
        own: sides.own,
    }
}

// Whether the first number that is not 0 is below 0.
fn is_below(front: Option<Front>) -> bool
    ensures { result ≡ has_negative front }
{
    match front {
        None => false,
        Some(front) => front.negative,
    }
}

// Whether the columns of the line at a place are not negative.
fn is_not_negative(p: &Problem, at: usize, sides: Sides) -> bool
    requires { at < line_count p.now }
    ensures { (m : Multipliers) (seen : ℕ → ℕ → Bool) → AreKnown p.now m seen
        → HasFrontsAt p.now m seen at sides → HoldsAt (λ l. IsTrue result
        ↔ IsNotNegative m l) (lines p.now) at }
{
    let whole = whole(p, at, sides);
    if is_below(whole.under) {
        return false;
    }
    !is_below(whole.over)
}

// Whether no column is negative.
fn are_not_negative(p: &Problem, sides: &[Sides]) -> bool
    requires { length sides.now ≡ line_count p.now }
    ensures { (m : Multipliers) (seen : ℕ → ℕ → Bool) → AreKnown p.now m seen
        → AreFronts p.now m seen sides.now → IsTrue result ↔ AreNotNegative p.now m }
{
    for (at, of_line) in sides.iter().enumerate() {
        if !is_not_negative(p, at, *of_line) {
            return false;
        }
    }
    true
}

// The order of the value of the stay's attribute and its target.
fn stay_sign(stay: &Stay, values: &Values) -> Ordering
    requires { HasValue values.now stay.now.attr }
    ensures { (level : ℕ) (x : Assignment) → Gives values.now x
        → result ≡ int_cmp (gap x (line_of_stay level stay.now)) (pos 0) }
{
    let value = values.value(stay.attr);
    let _ = value.den(); // for the proof: what a fraction keeps
    value.compare(&stay.target)
}

// The order of the gap of the line at a place and 0.
fn line_sign(p: &Problem, at: usize, values: &Values) -> Ordering
    requires at { at < line_count p.now }
    requires values { AreOfStays p.now values.now }
    requires room { HaveGapRoom p.now.rows values.now }
    ensures { (x : Assignment) → Gives values.now x
        → HoldsAt (λ l. result ≡ int_cmp (gap x l) (pos 0)) (lines p.now) at }
{
    p.show_whole(); // for the proof: what a problem keeps
    let rows = p.rows();
    if at < rows.len() {
        return row_sign(&rows[at], values);
    }
    stay_sign(&p.stays()[at - rows.len()], values)
}

// Whether a column is all 0.
fn is_zero(front: Option<Front>) -> bool
    ensures { result ≡ has_none front }
{
    match front {
        None => true,
        Some(_) => false,
    }
}

// Whether the column of the side that the order uses is all 0.
fn is_free(sides: Sides, sign: Ordering) -> bool
    ensures { result ≡ has_free sides sign }
{
    match sign {
        Ordering::Less => is_zero(sides.under),
        Ordering::Equal => true,
        Ordering::Greater => is_zero(sides.over),
    }
}

// Whether the column of each side that the values use is all 0.
fn are_free(p: &Problem, values: &Values, sides: &[Sides]) -> bool
    requires values { AreOfStays p.now values.now }
    requires room { HaveGapRoom p.now.rows values.now }
    requires count { length sides.now ≡ line_count p.now }
    ensures { (m : Multipliers) (seen : ℕ → ℕ → Bool) (x : Assignment) → AreKnown p.now m seen
        → AreFronts p.now m seen sides.now → Gives values.now x → IsTrue result ↔ AreFree p.now m x }
{
    for (at, of_line) in sides.iter().enumerate() {
        if !is_free(whole(p, at, *of_line), line_sign(p, at, values)) {
            return false;
        }
    }
    true
}

// The verdict on a certificate's levels, where the values have room and meet the required rows.
fn judge(alloc: Global, p: &Problem, values: &Values, best: &Best) -> Result<Verdict, OutOfMemory>
    requires values { AreOfStays p.now values.now }
    requires room { HaveGapRoom p.now.rows values.now }
    requires met { EachGiven values.now (Satisfies p.now) }
    ensures { IfOk result (IsBestVerdict p.now values.now best.now) }
{
    p.show_whole(); // for the proof: what a problem keeps
    let _ = best.levels(); // for the proof: what a certificate keeps
    let places = Places::of(alloc, p)?;
    let Some(placed) = place_levels(alloc, p, &places, best)? else {
        return Ok(Verdict::No(BALANCE_CLAUSE));
    };
    let sides = fronts(alloc, p, &placed)?;
    if !are_not_negative(p, &sides) {
        return Ok(Verdict::No(COLUMNS_CLAUSE));
    }
    if !are_free(p, values, &sides) {
        return Ok(Verdict::No(FREE_CLAUSE));
    }
    Ok(Verdict::Yes)
}

/// Checks that the multipliers show the values to be best.
///
/// `No(1)`: an attribute with a stay has no value, or one without a stay has one. `NoRoom`, tried next, has
/// the first row whose attributes' values have no common denominator below `GAP_ROOM`, or one of them times
/// it is not below `GAP_ROOM` in size. `No(2)`: a required row doesn't hold. `No(3)`: a scale is not above 0,
/// a row or a level is not the problem's, or at some level the lines do not cancel at each attribute.
/// `No(4)`: the first number of some column that is not 0 is below 0. `No(5)`: the column of a side that the
/// values use is not all 0.
pub fn check_best(
    alloc: Global,
    p: &Problem,
    values: &Values,
    best: &Best,
) -> Result<Verdict, OutOfMemory>
    ensures verdict { IfOk result (IsBestVerdict p.now values.now best.now) }
    ensures certified { IfOk result (λ v. v ≡ Verdict.Yes
        → EachGiven values.now (λ x. IsCertificate p.now x (multipliers_of p.now best.now))) }
    ensures best { IfOk result (λ v. v ≡ Verdict.Yes → EachGiven values.now (IsBest p.now)) }
{
    p.show_whole(); // for the proof: what a problem keeps
    let _ = best.levels(); // for the proof: what a certificate keeps
    if !are_of_stays(p, values) {
        return Ok(Verdict::No(GIVEN_CLAUSE));
    }
    if let Some(row) = first_without_room(p, values) {
        return Ok(Verdict::NoRoom(row));
    }
    if !are_met(p, values) {
        return Ok(Verdict::No(REQUIRED_CLAUSE));
    }
    judge(alloc, p, values, best)
}
