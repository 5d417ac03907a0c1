// The row of a linear line.
mod nonzero;
mod parts;
mod row_terms;
pub(crate) mod rows;
mod scales;
pub(crate) mod signs;
mod sums;

ghost use Rattle.std.specs.Prelude.{◌≡◌, ◌≤◌, ◌<◌, ◌∷◌, [], ℕ, List, false, None, Some, All};
ghost use Rattle.std.specs.Prelude.{length, IfOk, OnOk, IfErr, IfSome, IfNone};
ghost use Rattle.problem_core.specs.declared.limits.TheConstants.{NUMBER_LIMIT};
ghost use Rattle.view_tree.specs.Views.{LiveView};
ghost use Rattle.span_text.specs.Objects.{object_view};
ghost use Rattle.script_text.specs.Directions.{line_in};
ghost use Rattle.script_text.specs.View.{terms_view, linear_view};
ghost use Rattle.compile_parts.specs.Meaning.{MetricList, terms_of, views_in, IsRank, IsWeight};
ghost use Rattle.compile_parts.specs.Meaning.{HasDenominator, has_view_number};
ghost use Rattle.constraint_compile.specs.Stops.{AreKnown, IsWrongNamed, IsCompiled, MayStop};
ghost use Rattle.constraint_compile.specs.Stops.{PassesLimit, HasRank};
ghost use Rattle.compile_parts.specs.Addends.{addends, addends_view, IsKept};
ghost use Rattle.compile_parts.specs.Lookups.{numbers};
ghost use Rattle.constraint_compile.specs.Inside.{form_view, IsForm};
ghost use Rattle.compile_parts.specs.declared.limits.TheConstants.{ADDEND_LIMIT};

use crate::compiled::{Compiled, RowForm};
use crate::line::rows::{Head, row_of_addends};
use crate::line::signs::signed_terms;
use compile_parts::{ADDEND_LIMIT, CompileStop, KindWord, Resolved, resolve, resolve_rank};
use frac_core::OutOfMemory;
use name_tables::{LimitWord, Metrics, OwnedName};
use problem_core::{NUMBER_LIMIT, WEIGHT_LIMIT};
use script_text::{Direction, ExprTerm, Linear};
use std::alloc::Global;
use view_tree::{Tree, ViewId};

// The meaning of the names of a line.
#[derive(Drop)]
struct Names<'a> {
    terms: Resolved<'a>,
    rank: Option<u16>,
}

// The meaning of the names, each of which must be a view's or a metric's.
fn names_of<'a>(
    alloc: Global,
    tree: &Tree,
    metrics: &Metrics,
    terms: &[ExprTerm<'a>],
    line: &Linear<'a>,
) -> Result<Names<'a>, CompileStop>
    requires { terms_view terms.now ≡ terms_of (linear_view line.now) }
    ensures known { OnOk result (AreKnown tree.now.views metrics.now (linear_view line.now)) }
    ensures added { IfOk result (λ n. addends_view n.terms.added.items
        ≡ addends tree.now.views (terms_of (linear_view line.now))) }
    ensures kept { IfOk result (λ n. All IsKept n.terms.added.items) }
    ensures above { OnOk result (All HasDenominator (terms_of (linear_view line.now))) }
    ensures views { IfOk result (λ n. numbers n.terms.views.items
        ≡ views_in tree.now.views (terms_of (linear_view line.now))) }
    ensures number { IfOk result (λ n. n.terms.has_view_number
        ≡ has_view_number tree.now.views (terms_of (linear_view line.now))) }
    ensures some { IfOk result (λ n. IfSome n.rank (IsRank tree.now.views metrics.now
        (object_view line.now.priority))) }
    ensures none { IfOk result (λ n. IfNone n.rank (HasRank tree.now.views metrics.now
        (linear_view line.now) → ⊥)) }
    ensures stop { IfErr result (λ e. (number : ℕ)
        → MayStop tree.now.views metrics.now (linear_view line.now) number e) }
{
    let terms = resolve(alloc, tree, metrics, terms)?;
    match resolve_rank(tree, metrics, &line.priority) {
        Ok(rank) => Ok(Names { terms, rank }),
        Err(name) => Err(CompileStop::Unknown(OwnedName::of(alloc, name.as_bytes())?)),
    }
}

// The rank and the weight of a row.
#[derive(Clone, Copy)]
struct Strength {
    rank: u16,
    weight: u16,
}

// The weight, if it is one.
fn weight_of(weight: u64) -> Option<u16>
    ensures some { IfSome result (λ w. (w ≡ weight) × IsWeight weight) }
    ensures none { IfNone result (IsWeight weight → ⊥) }
{
    if weight == 0 || weight > u64::from(WEIGHT_LIMIT) {
        None
    } else {
        Some(weight as u16)
    }
}

// The rank and the weight, unless a use is wrong.
fn strength_of(names: &Names<'_>, line: &Linear<'_>) -> Result<Strength, KindWord>
    ensures numbers { OnOk result (names.now.terms.has_view_number ≡ false) }
    ensures rank { IfOk result (λ s. names.now.rank ≡ Some s.rank) }
    ensures weight { IfOk result (λ s. (s.weight ≡ line.now.weight) × IsWeight line.now.weight) }
    ensures stop { IfErr result
        (IsWrongNamed names.now.terms.has_view_number names.now.rank (linear_view line.now)) }
{
    let _rel = line.rel; // for the proof: what a line is made of
    if names.terms.has_view_number {
        return Err(KindWord::Object);
    }
    let Some(rank) = names.rank else {
        return Err(KindWord::Priority);
    };
    match weight_of(line.weight) {
        Some(weight) => Ok(Strength { rank, weight }),
        None => Err(KindWord::Weight),
    }
}

// The limits of the row's number and of the count of terms.
fn within_limits(id: u32, terms: &[ExprTerm<'_>], line: &Linear<'_>) -> Result<(), LimitWord>
    requires { terms_view terms.now ≡ terms_of (linear_view line.now) }
    ensures ok { OnOk result ((id < NUMBER_LIMIT) × (length terms.now ≤ ADDEND_LIMIT)
        × (length (terms_of (linear_view line.now)) ≤ ADDEND_LIMIT)) }
    ensures stop { IfErr result (λ word. (views : List LiveView) (metrics : MetricList)
        → PassesLimit views metrics (linear_view line.now) id word) }
{
    let _rel = line.rel; // for the proof: what a line is made of
    if id >= NUMBER_LIMIT {
        return Err(LimitWord::Rows);
    }
    if terms.len() > ADDEND_LIMIT {
        return Err(LimitWord::Terms);
    }
    Ok(())
}

// One row, and the views that the terms name.
fn with_views(alloc: Global, views: Vec<ViewId>, row: RowForm) -> Result<Compiled, OutOfMemory>
    requires { IsForm row }
    ensures rows { IfOk result (λ c. c.rows ≡ form_view row ∷ []) }
    ensures views { IfOk result (λ c. c.views ≡ numbers views.items) }
{
    let mut rows = Vec::with_capacity(alloc, 1)?;
    rows.push(row)?;
    Ok(Compiled::of(rows, views))
}

// The row of a linear line whose words mean the same in both directions.
fn compile_turned(
    alloc: Global,
    tree: &Tree,
    metrics: &Metrics,
    line: &Linear<'_>,
    id: u32,
) -> Result<Compiled, CompileStop>
    requires { 0 < id }
    ensures compiled { IfOk result (IsCompiled tree.now.views metrics.now (linear_view line.now) id) }
    ensures above { OnOk result (All HasDenominator (terms_of (linear_view line.now))) }
    ensures stop { IfErr result (MayStop tree.now.views metrics.now (linear_view line.now) id) }
{
    let terms = signed_terms(alloc, line)?;
    let names = names_of(alloc, tree, metrics, &terms, line)?;
    let strength = strength_of(&names, line)?;
    within_limits(id, &terms, line)?;
    let head = Head {
        id,
        rank: strength.rank,
        weight: strength.weight,
        rel: line.rel,
    };
    let resolved = names.terms;
    let row = row_of_addends(alloc, metrics, &resolved.added, head)?;
    Ok(with_views(alloc, resolved.views, row)?)
}

/// The row of a linear line, with this number, and the views that the line names. The words `leading` and
/// `trailing` name edges by the direction.
///
/// Every term of the left side is added and every term of the right side subtracted. `Unknown` with the first
/// name of the line that must be a view's or a metric's and isn't. Otherwise `Kind` with the first wrong use:
/// `Object` if a view is in place of a number, `Priority` if the priority is no whole number from 1 to
/// [`REQUIRED`](problem_core::REQUIRED), `Weight` if the weight is outside 1 to [`WEIGHT_LIMIT`]. Otherwise
/// `Limit` with the first limit that is passed: `Rows` if the number isn't below [`NUMBER_LIMIT`], `Terms` at
/// more than [`ADDEND_LIMIT`] terms, `Attributes` at more than [`TERM_LIMIT`](problem_core::TERM_LIMIT)
/// attributes with coefficients that aren't 0, `Coefficient` if after some term the scale or a coefficient is
/// past [`COEFFICIENT_LIMIT`](problem_core::COEFFICIENT_LIMIT) in size, `Constant` if after some term a part
/// of the constant isn't below [`CONSTANT_LIMIT`](compile_parts::CONSTANT_LIMIT) in size.
// It has six parameters: views and metrics change apart, and the direction is the scene's.
pub fn compile_line(
    alloc: Global,
    tree: &Tree,
    metrics: &Metrics,
    line: &Linear<'_>,
    id: u32,
    direction: Direction,
) -> Result<Compiled, CompileStop>
    requires { 0 < id }
    ensures compiled { IfOk result (IsCompiled tree.now.views metrics.now
        (line_in direction (linear_view line.now)) id) }
    ensures above { OnOk result (All HasDenominator (terms_of (line_in direction (linear_view line.now)))) }
    ensures stop { IfErr result (MayStop tree.now.views metrics.now
        (line_in direction (linear_view line.now)) id) }
{
    let line = line.turned(alloc, direction)?;
    compile_turned(alloc, tree, metrics, &line, id)
}
