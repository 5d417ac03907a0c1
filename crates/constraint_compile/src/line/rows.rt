// The row of a sum of terms.
ghost use Rattle.std.specs.Prelude.{◌≡◌, ◌≤◌, ◌<◌, ℕ, List, false, length, map, IsTrue, IfOk, OnOk};
ghost use Rattle.std.specs.Prelude.{IfErr, All, AllPairs};
ghost use Rattle.problem_core.specs.Kept.{IsTerm};
ghost use Rattle.std.specs.String.{string_bytes};
ghost use Rattle.problem_core.specs.declared.limits.TheConstants.{NUMBER_LIMIT, REQUIRED, TERM_LIMIT};
ghost use Rattle.script_text.specs.Meaning.{Term as Summand};
ghost use Rattle.compile_parts.specs.Fractions.{IsScale};
ghost use Rattle.compile_parts.specs.Meaning.{MetricList, IsWeight};
ghost use Rattle.compile_parts.specs.Addends.{addends, addends_view, sum_of, IsKept};
ghost use Rattle.constraint_compile.specs.Coefficients.Sums.{AreTerms, AreScales, HasTooMany};
ghost use Rattle.constraint_compile.specs.Stops.{AreSteps, IsSumRow, IsWithinLimits, IsRowStop};
ghost use Rattle.compile_parts.specs.Steps.{AreSmallSteps};
ghost use Rattle.compile_parts.specs.Keeps.{AreScalesKept, steps_view};
ghost use Rattle.view_tree.specs.Views.{LiveView};
ghost use Rattle.constraint_compile.specs.Inside.{form_view, IsForm};
ghost use Rattle.compile_parts.specs.declared.limits.TheConstants.{ADDEND_LIMIT};

use crate::compiled::RowForm;
use crate::line::nonzero::has_too_many;
use crate::line::parts::{metric_names, steps_of};
use crate::line::row_terms::row_terms;
use crate::line::scales::scales_of;
use compile_parts::{Addend, CompileStop, Step, attributes, constant_after};
use frac_core::OutOfMemory;
use name_tables::{LimitWord, Metrics};
use problem_core::{Rel, Term};
use std::alloc::Global;

/// The parts of a row other than its terms.
#[derive(Clone, Copy)]
pub struct Head {
    pub id: u32,
    pub rank: u16,
    pub weight: u16,
    pub rel: Rel,
}

// The coefficients of a sum of terms, and the scale after each term.
#[derive(Drop)]
struct Coefficients {
    terms: Vec<Term>,
    scales: Vec<u32>,
}

// The coefficients of the terms, unless there are too many or one is past its limit.
fn coefficients_of(alloc: Global, added: &[Addend<'_>]) -> Result<Coefficients, CompileStop>
    requires kept { All IsKept added.now }
    requires few { length added.now ≤ ADDEND_LIMIT }
    ensures terms { IfOk result (λ c. (k : ℕ) → IsScale (sum_of (addends_view added.now)) k
        → AreTerms (sum_of (addends_view added.now)) k c.terms.items) }
    ensures each { IfOk result (λ c. All IsTerm c.terms.items) }
    ensures rising { IfOk result (λ c. AllPairs (λ s t. s.attr < t.attr) c.terms.items) }
    ensures few { IfOk result (λ c. length c.terms.items ≤ TERM_LIMIT) }
    ensures some { OnOk result (HasTooMany (sum_of (addends_view added.now)) → ⊥) }
    ensures scales { IfOk result (λ c. AreScales (addends_view added.now) (length added.now) c.scales.items) }
    ensures stop { IfErr result (λ e. (views : List LiveView) (metrics : MetricList) (terms : List Summand)
        → addends_view added.now ≡ addends views terms → IsRowStop views metrics terms e) }
{
    let attrs = attributes(alloc, added)?;
    if has_too_many(alloc, &attrs, added)? {
        return Err(CompileStop::Limit(LimitWord::Attributes));
    }
    let Some(scaled) = scales_of(alloc, &attrs, added)? else {
        return Err(CompileStop::Limit(LimitWord::Coefficient));
    };
    let terms = row_terms(alloc, &attrs, &scaled.sum)?;
    Ok(Coefficients {
        terms,
        scales: scaled.scales,
    })
}

// The steps of a constant, and the names of the metrics in them by place.
#[derive(Drop)]
struct NamedSteps {
    names: Vec<String>,
    steps: Vec<Step>,
}

fn named_steps(
    alloc: Global,
    added: &[Addend<'_>],
    scales: &[u32],
) -> Result<NamedSteps, OutOfMemory>
    requires few { length added.now ≤ ADDEND_LIMIT }
    requires scales { AreScales (addends_view added.now) (length added.now) scales.now }
    ensures kept { IfOk result (λ n. AreScalesKept n.steps.items) }
    ensures steps { IfOk result (λ n. (views : List LiveView) (terms : List Summand)
        → addends_view added.now ≡ addends views terms
        → AreSteps views terms (steps_view (map string_bytes n.names.items) n.steps.items)) }
{
    let names = metric_names(alloc, added)?;
    let steps = steps_of(alloc, added, scales)?;
    Ok(NamedSteps { names, steps })
}

// Whether the constant is small after each step.
fn is_constant_small(metrics: &Metrics, named: &NamedSteps) -> bool
    requires { AreScalesKept named.now.steps.items }
    ensures yes { IsTrue result → AreSmallSteps metrics.now
        (steps_view (map string_bytes named.now.names.items) named.now.steps.items) }
    ensures no { result ≡ false → AreSmallSteps metrics.now
        (steps_view (map string_bytes named.now.names.items) named.now.steps.items) → ⊥ }
{
    match constant_after(metrics, &named.names, &named.steps) {
        Some(_) => true,
        None => false,
    }
}

/// The row of these addends on its left side, from whatever views and terms they come. Of the limits that are
/// passed, the error has the first in the order attributes, coefficient, constant.
pub fn row_of_addends(
    alloc: Global,
    metrics: &Metrics,
    added: &[Addend<'_>],
    head: Head,
) -> Result<RowForm, CompileStop>
    requires kept { All IsKept added.now }
    requires few { length added.now ≤ ADDEND_LIMIT }
    requires number { (0 < head.id) × (head.id < NUMBER_LIMIT) }
    requires rank { head.rank ≤ REQUIRED }
    requires weight { IsWeight head.weight }
    ensures form { IfOk result IsForm }
    ensures head { IfOk result (λ r. (r.id ≡ head.id) × (r.rank ≡ head.rank) × (r.weight ≡ head.weight)
        × (r.rel ≡ head.rel)) }
    ensures row { IfOk result (λ r. (views : List LiveView) (terms : List Summand)
        → addends_view added.now ≡ addends views terms → IsSumRow views terms (form_view r)) }
    ensures within { IfOk result (λ r. (views : List LiveView) (terms : List Summand)
        → addends_view added.now ≡ addends views terms
        → IsWithinLimits views metrics.now terms (form_view r).steps) }
    ensures stop { IfErr result (λ e. (views : List LiveView) (terms : List Summand)
        → addends_view added.now ≡ addends views terms → IsRowStop views metrics.now terms e) }
{
    let sum = coefficients_of(alloc, added)?;
    let named = named_steps(alloc, added, &sum.scales)?;
    if !is_constant_small(metrics, &named) {
        return Err(CompileStop::Limit(LimitWord::Constant));
    }
    Ok(RowForm {
        id: head.id,
        rank: head.rank,
        weight: head.weight,
        rel: head.rel,
        terms: sum.terms,
        names: named.names,
        steps: named.steps,
    })
}
