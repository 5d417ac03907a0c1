// The values that a certificate speaks of: whose they are, their room, and the required rows.
ghost use Rattle.std.specs.Prelude.{◌≡◌, ◌↔◌, pos, All, IsTrue, IfSome, IfNone};
ghost use Rattle.std.specs.Ordering.{int_cmp};
ghost use Rattle.problem_core.specs.Layout.{Assignment, Gives, HasStay, Satisfies, error, gap, line_of_row};
ghost use Rattle.problem_core.specs.Gaps.{HasGapRoom, HasValue};
ghost use Rattle.problem_core.specs.declared.limits.TheConstants.{REQUIRED};
ghost use Rattle.cert_checker.specs.Certifying.{AreOfStays, HaveGapRoom, IsFirstRowWithoutRoom};
ghost use Rattle.cert_checker.specs.Certifying.{is_met as meets};

use problem_core::{Problem, REQUIRED, Rel, Row, Stay, Values, gap_sign};
use std::cmp::Ordering;

fn has_value(values: &Values, attr: u32) -> bool
    ensures { IsTrue result ↔ HasValue values.now attr }
{
    values.pairs().iter().any(|pair| pair.0 == attr)
}

fn has_stay(stays: &[Stay], attr: u32) -> bool
    ensures { IsTrue result ↔ HasStay stays.now attr }
{
    stays.iter().any(|stay| stay.attr == attr)
}

// Whether each attribute with a stay has a value.
fn have_values(stays: &[Stay], values: &Values) -> bool
    ensures { IsTrue result ↔ All (λ s. HasValue values.now s.attr) stays.now }
{
    for stay in stays {
        if !has_value(values, stay.attr) {
            return false;
        }
    }
    true
}

// Whether each attribute with a value has a stay.
fn have_stays(values: &Values, stays: &[Stay]) -> bool
    ensures { IsTrue result ↔ All (λ v. HasStay stays.now v.0) values.now }
{
    for (attr, _) in values.pairs() {
        if !has_stay(stays, *attr) {
            return false;
        }
    }
    true
}

/// Whether each attribute with a stay has a value, and no other has one.
pub(crate) fn are_of_stays(p: &Problem, values: &Values) -> bool
    ensures { IsTrue result ↔ AreOfStays p.now values.now }
{
    let stays = p.stays();
    if !have_values(stays, values) {
        return false;
    }
    have_stays(values, stays)
}

/// The number of the first row without room for its gap.
pub(crate) fn first_without_room(p: &Problem, values: &Values) -> Option<u32>
    requires { All (λ r. All (λ t. HasValue values.now t.attr) r.terms) p.now.rows }
    ensures room { IfNone result (HaveGapRoom p.now.rows values.now) }
    ensures first { IfSome result (IsFirstRowWithoutRoom p.now values.now) }
{
    for row in p.rows() {
        if gap_sign(row, values).is_err() {
            return Some(row.id());
        }
    }
    None
}

/// The order of the row's gap and 0.
pub(crate) fn row_sign(row: &Row, values: &Values) -> Ordering
    requires values { All (λ t. HasValue values.now t.attr) row.now.terms }
    requires room { HasGapRoom row.now values.now }
    ensures { (x : Assignment) → Gives values.now x → result ≡ int_cmp (gap x (line_of_row row.now)) (pos 0) }
{
    match gap_sign(row, values) {
        Ok(sign) => sign,
        Err(_) => Ordering::Equal,
    }
}

// Whether the relation holds where the gap has this order to 0.
fn is_met(rel: Rel, sign: Ordering) -> bool
    ensures { result ≡ meets rel sign }
{
    match rel {
        Rel::Eq => sign.is_eq(),
        Rel::Ge => sign.is_ge(),
        Rel::Le => sign.is_le(),
    }
}

// Whether the row is not required, or holds at the values.
fn holds(row: &Row, values: &Values) -> bool
    requires values { All (λ t. HasValue values.now t.attr) row.now.terms }
    requires room { HasGapRoom row.now values.now }
    ensures { (x : Assignment) → Gives values.now x
        → IsTrue result ↔ (row.now.rank ≡ REQUIRED → error x (line_of_row row.now) ≡ 0) }
{
    if row.rank() != REQUIRED {
        return true;
    }
    is_met(row.rel(), row_sign(row, values))
}

/// Whether each required row holds at the values.
pub(crate) fn are_met(p: &Problem, values: &Values) -> bool
    requires values { All (λ r. All (λ t. HasValue values.now t.attr) r.terms) p.now.rows }
    requires room { HaveGapRoom p.now.rows values.now }
    ensures { (x : Assignment) → Gives values.now x → IsTrue result ↔ Satisfies p.now x }
{
    for row in p.rows() {
        if !holds(row, values) {
            return false;
        }
    }
    true
}
