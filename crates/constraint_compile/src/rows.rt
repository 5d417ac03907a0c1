// The rows of compiled lines for given metrics.
ghost use Rattle.std.specs.Prelude.{◌≡◌, ◌≤◌, ◌<◌, ℕ, List, map, IfOk, IfErr, IfSome, IfNone};
ghost use Rattle.std.specs.Prelude.{All, OnSome};
ghost use Rattle.frac_core.specs.Fraction.{IsKept};
ghost use Rattle.problem_core.specs.Kept.{IsRow};
ghost use Rattle.problem_core.specs.declared.limits.TheConstants.{COEFFICIENT_LIMIT};
ghost use Rattle.compile_parts.specs.Fractions.{IsConstant};
ghost use Rattle.compile_parts.specs.Steps.{AreSmallSteps};
ghost use Rattle.constraint_compile.specs.Compiled.{AreRowsNow, AreSmallForms, IsRowNow};
ghost use Rattle.compile_parts.specs.Steps.{step_sum, last_scale};
ghost use Rattle.constraint_compile.specs.Inside.{form_view, IsRowWith, IsForm, AreForms};
ghost use Rattle.compile_parts.specs.Keeps.{AreScalesKept, steps_view};
ghost use Rattle.constraint_compile.specs.Stops.{IsConstantStop};

use crate::compiled::{Compiled, RowForm};
use compile_parts::{LargeConstant, Step, constant_after};
use frac_core::{Frac, OutOfMemory, Stop};
use name_tables::Metrics;
use problem_core::Row;
use std::alloc::Global;

// The scale after the last step.
fn scale_of(steps: &[Step]) -> u32
    requires { AreScalesKept steps.now }
    ensures scale { (names : List (List ℕ)) → result ≡ last_scale (steps_view names steps.now) }
    ensures above { 0 < result }
    ensures small { result ≤ COEFFICIENT_LIMIT }
{
    if steps.is_empty() {
        return 1;
    }
    steps[steps.len() - 1].scale
}

// The row with this constant.
fn with_constant(alloc: Global, form: &RowForm, constant: Frac) -> Result<Row, OutOfMemory>
    requires { IsForm form.now }
    ensures constant { IsKept constant }
    ensures row { IfOk result (IsRowWith form.now constant) }
    ensures kept { IfOk result IsRow }
{
    let _den = constant.den(); // for the proof: what a fraction keeps
    let scale = i64::from(scale_of(&form.steps));
    let row = Row::of(
        alloc,
        form.id,
        form.rank,
        form.weight,
        form.rel,
        scale,
        constant,
        &form.terms,
    )?;
    row.show_row(); // for the proof: what a row keeps
    Ok(row)
}

/// The row's constant for these metrics, unless it is past the limit after a step.
pub(crate) fn constant_now(form: &RowForm, metrics: &Metrics) -> Option<Frac>
    requires { IsForm form.now }
    ensures constant { IfSome result (IsConstant (last_scale (form_view form.now).steps)
        (step_sum metrics.now (form_view form.now).steps)) }
    ensures small { OnSome result (AreSmallSteps metrics.now (form_view form.now).steps) }
    ensures none { IfNone result (AreSmallSteps metrics.now (form_view form.now).steps → ⊥) }
{
    constant_after(metrics, &form.names, &form.steps)
}

// The row for these metrics, unless its constant is past the limit after a step.
fn row_now(alloc: Global, form: &RowForm, metrics: &Metrics) -> Result<Option<Row>, OutOfMemory>
    requires { IsForm form.now }
    ensures row { IfOk result (λ o. IfSome o (IsRowNow metrics.now (form_view form.now))) }
    ensures kept { IfOk result (λ o. IfSome o IsRow) }
    ensures small { IfOk result (λ o. OnSome o (AreSmallSteps metrics.now (form_view form.now).steps)) }
    ensures none { IfOk result (λ o. IfNone o (AreSmallSteps metrics.now (form_view form.now).steps → ⊥)) }
{
    let Some(constant) = constant_now(form, metrics) else {
        return Ok(None);
    };
    Ok(Some(with_constant(alloc, form, constant)?))
}

// The rows for these metrics, in order, unless the constant of one is past the limit after a step.
fn rows_of(
    alloc: Global,
    forms: &[RowForm],
    metrics: &Metrics,
) -> Result<Option<Vec<Row>>, OutOfMemory>
    requires { AreForms forms.now }
    ensures rows { IfOk result (λ o. IfSome o (λ rows.
        AreRowsNow metrics.now (map form_view forms.now) rows.items)) }
    ensures each { IfOk result (λ o. IfSome o (λ rows. All IsRow rows.items)) }
    ensures none { IfOk result (λ o. IfNone o (AreSmallForms metrics.now (map form_view forms.now) → ⊥)) }
{
    let mut rows = Vec::with_capacity(alloc, forms.len())?;
    for form in forms {
        let Some(row) = row_now(alloc, form, metrics)? else {
            return Ok(None);
        };
        rows.push(row)?;
    }
    Ok(Some(rows))
}

impl Compiled {
    /// The rows with their constants for these metrics, unless a constant is past the limit. An unknown
    /// metric counts as 0.
    pub fn rows_now(
        &self,
        alloc: Global,
        metrics: &Metrics,
    ) -> Result<Vec<Row>, Stop<LargeConstant>>
        ensures rows { IfOk result (λ rows. AreRowsNow metrics.now self.now.rows rows.items) }
        ensures each { IfOk result (λ rows. All IsRow rows.items) }
        ensures stop { IfErr result (IsConstantStop metrics.now self.now.rows) }
    {
        match rows_of(alloc, self.forms(), metrics)? {
            Some(rows) => Ok(rows),
            None => Err(Stop::Refused(LargeConstant)),
        }
    }
}
