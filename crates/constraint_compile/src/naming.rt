// The rows whose constants name a metric.
ghost use Rattle.std.specs.Prelude.{◌≡◌, true, map, IfOk, IfErr, IfSome, IfNone};
ghost use Rattle.std.specs.List.{list_any};
ghost use Rattle.std.specs.String.{string_bytes};
ghost use Rattle.constraint_compile.specs.Compiled.{AreSmallForms};
ghost use Rattle.compile_parts.specs.Steps.{AreSmallSteps};
ghost use Rattle.constraint_compile.specs.Inside.{form_view, IsForm, AreForms};
ghost use Rattle.compile_parts.specs.Keeps.{part_view};
ghost use Rattle.constraint_compile.specs.Naming.{is_multiple, names_metric, naming, IsConstantOf};
ghost use Rattle.constraint_compile.specs.Naming.{AreConstantsOf};
ghost use Rattle.constraint_compile.specs.Stops.{IsConstantStop};

use crate::compiled::{Compiled, RowForm};
use crate::rows::constant_now;
use compile_parts::{LargeConstant, Part, Step, name_at};
use frac_core::{Frac, OutOfMemory, Stop};
use name_tables::Metrics;
use std::alloc::Global;

/// A row's number, and its constant.
#[derive(Clone, Copy)]
pub struct RowConstant {
    pub row: u32,
    pub constant: Frac,
}

// Whether a multiple of the metric is added.
fn is_multiple(names: &[String], part: Part, name: &str) -> bool
    ensures { result ≡ is_multiple name.now (part_view (map string_bytes names.now) part) }
{
    match part {
        Part::Multiple { place, .. } => name == name_at(names, place),
        Part::Nothing | Part::Number(_) => false,
    }
}

// Whether one of the steps adds a multiple of the metric.
fn has_multiple(names: &[String], steps: &[Step], name: &str) -> bool
    ensures { result ≡ list_any
        (λ s. is_multiple name.now (part_view (map string_bytes names.now) s.part)) steps.now }
{
    for step in steps {
        if is_multiple(names, step.part, name) {
            return true;
        }
    }
    false
}

// Whether the row's constant names the metric.
fn names_metric(form: &RowForm, name: &str) -> bool
    ensures { result ≡ names_metric name.now (form_view form.now) }
{
    has_multiple(&form.names, &form.steps, name)
}

// The row's number and its constant, unless that is past the limit after a step.
fn constant_of(form: &RowForm, metrics: &Metrics) -> Option<RowConstant>
    requires { IsForm form.now }
    ensures some { IfSome result (IsConstantOf metrics.now (form_view form.now)) }
    ensures none { IfNone result (AreSmallSteps metrics.now (form_view form.now).steps → ⊥) }
{
    let constant = constant_now(form, metrics)?;
    Some(RowConstant {
        row: form.id,
        constant,
    })
}

// The constants of the rows that name the metric, unless one is past the limit.
fn constants_naming(
    alloc: Global,
    forms: &[RowForm],
    metrics: &Metrics,
    name: &str,
) -> Result<Option<Vec<RowConstant>>, OutOfMemory>
    requires { AreForms forms.now }
    ensures constants { IfOk result (λ o. IfSome o (λ constants.
        AreConstantsOf metrics.now (naming name.now (map form_view forms.now)) constants.items)) }
    ensures none { IfOk result (λ o. IfNone o
        (AreSmallForms metrics.now (naming name.now (map form_view forms.now)) → ⊥)) }
{
    let mut constants = Vec::new(alloc);
    for form in forms {
        if names_metric(form, name) {
            let Some(constant) = constant_of(form, metrics) else {
                return Ok(None);
            };
            constants.push(constant)?;
        }
    }
    Ok(Some(constants))
}

impl Compiled {
    /// The rows whose constants name the metric, each with its constant for these metrics, unless such a
    /// constant is past the limit. No other row is looked at, because the metric's value doesn't change its
    /// constant.
    pub fn constants_naming(
        &self,
        alloc: Global,
        metrics: &Metrics,
        name: &str,
    ) -> Result<Vec<RowConstant>, Stop<LargeConstant>>
        ensures constants { IfOk result (λ constants.
            AreConstantsOf metrics.now (naming name.now self.now.rows) constants.items) }
        ensures stop { IfErr result (IsConstantStop metrics.now (naming name.now self.now.rows)) }
    {
        match constants_naming(alloc, self.forms(), metrics, name)? {
            Some(constants) => Ok(constants),
            None => Err(Stop::Refused(LargeConstant)),
        }
    }
}
