// The constant of a row, as a sum of numbers and of multiples of metrics.
ghost use Rattle.std.specs.Prelude.{◌≡◌, ◌<◌, ◌<ℤ◌, ◌≤◌, ◌*ℤ◌, ◌^◌, [], pos, neg_ℤ, map, slice_index_or};
ghost use Rattle.std.specs.Prelude.{IfSome, IfNone, IsTrue, unsigned_abs};
ghost use Rattle.frac_core.specs.Fraction.{Fraction};
ghost use Rattle.std.specs.String.{string_bytes};
ghost use Rattle.problem_core.specs.declared.limits.TheConstants.{COEFFICIENT_LIMIT};
ghost use Rattle.compile_parts.specs.Fractions.{plus, times, HasSmallParts, IsConstant, IsSmallConstant};
ghost use Rattle.compile_parts.specs.Quotients.{IsReduced};
ghost use Rattle.compile_parts.specs.Meaning.{part_value};
ghost use Rattle.compile_parts.specs.Steps.{AreSmallSteps, step_sum, last_scale};
ghost use Rattle.compile_parts.specs.Keeps.{AreScalesKept, part_view, step_view, steps_view};
ghost use Rattle.compile_parts.specs.Progress.{IsAfter, IsPastAfter};
ghost use Rattle.compile_parts.specs.declared.steps.Part.TheVariants.{Nothing};
ghost use Rattle.name_tables.specs.Names.{value_of};
ghost use Rattle.compile_parts.specs.declared.limits.TheConstants.{CONSTANT_LIMIT};

use crate::wide::product;
use crate::wide::ratios::{Ratio, common, reduced, small_of};
use frac_core::Frac;
use name_tables::Metrics;

/// A term's contribution to the constant: nothing, a number, or a multiple of the metric whose name is at a
/// place.
#[derive(Clone, Copy)]
pub enum Part {
    Nothing,
    Number(Frac),
    Multiple { by: Frac, place: u32 },
}

/// The scale of the row after a term, and the term's contribution to the constant.
#[derive(Clone, Copy)]
pub struct Step {
    pub scale: u32,
    pub part: Part,
}

/// The name at a place, which is empty past the end.
pub fn name_at(names: &[String], place: u32) -> &str
    ensures { result.now ≡ slice_index_or (map string_bytes names.now) place [] }
{
    match names.get(place as usize) {
        Some(name) => name.as_str(),
        None => "",
    }
}

// The value of the metric whose name is at a place.
fn metric_value(metrics: &Metrics, names: &[String], place: u32) -> Option<Frac>
    ensures { result ≡ value_of metrics.now (slice_index_or (map string_bytes names.now) place []) }
{
    metrics.get(name_at(names, place))
}

// A number as a ratio.
fn ratio_of(f: Frac) -> Ratio
    ensures num { result.num ≡ f.num }
    ensures den { result.den ≡ pos f.den }
    ensures small { unsigned_abs result.num < 2 ^ 88 }
    ensures above { 0 < f.den }
{
    Ratio {
        num: i128::from(f.num()),
        den: i128::from(f.den()),
    }
}

// The product of two numbers as a ratio.
fn times(by: Frac, value: Frac) -> Ratio
    ensures num { result.num ≡ (times by value).num }
    ensures den { result.den ≡ pos (times by value).den }
    ensures small { unsigned_abs result.num < 2 ^ 88 }
    ensures above { 0 < (times by value).den }
{
    Ratio {
        num: product(by.num(), value.num()),
        den: product(by.den(), value.den()),
    }
}

// The contribution of a part to the sum.
fn part_ratio(metrics: &Metrics, names: &[String], part: Part) -> Ratio
    ensures num { result.num ≡ (part_value metrics.now (part_view (map string_bytes names.now) part)).num }
    ensures den { result.den ≡ pos (part_value metrics.now
        (part_view (map string_bytes names.now) part)).den }
    ensures small { unsigned_abs result.num < 2 ^ 88 }
    ensures above { 0 < (part_value metrics.now (part_view (map string_bytes names.now) part)).den }
{
    match part {
        Part::Nothing => ratio_of(Frac::zero()),
        Part::Number(by) => ratio_of(by),
        Part::Multiple { by, place } => match metric_value(metrics, names, place) {
            Some(value) => times(by, value),
            None => ratio_of(Frac::zero()),
        },
    }
}

// The number below 0 of this size.
fn negative(scale: u32) -> i64
    requires { scale ≤ COEFFICIENT_LIMIT }
    ensures value { result ≡ neg_ℤ (pos scale) }
    ensures small { unsigned_abs result ≤ COEFFICIENT_LIMIT }
{
    -i64::from(scale)
}

// The change of the constant by a part with this value, at a scale.
fn change(scale: u32, value: Ratio) -> Ratio
    requires scale { scale ≤ COEFFICIENT_LIMIT }
    requires small { unsigned_abs value.num < 2 ^ 88 }
    requires above { pos 0 <ℤ value.den }
    ensures { IsReduced (neg_ℤ (pos scale) *ℤ value.num) value.den result.num result.den }
{
    reduced(i128::from(negative(scale)) * value.num, value.den)
}

// A part of the constant times a scale.
fn scaled(scale: u32, part: i64) -> i128
    requires scale { scale ≤ COEFFICIENT_LIMIT }
    requires small { unsigned_abs part < CONSTANT_LIMIT }
    ensures value { result ≡ pos scale *ℤ part }
    ensures small { unsigned_abs result < 2 ^ 70 }
{
    i128::from(scale) * i128::from(part)
}

// A constant, and its scale.
#[derive(Clone, Copy)]
struct Progress {
    scale: u32,
    constant: Frac,
}

// The constant at the new scale with a value added to the sum, if it is small.
fn moved(before: Progress, scale: u32, value: Ratio) -> Option<Frac>
    requires before { (0 < before.scale) × (before.scale ≤ COEFFICIENT_LIMIT) }
    requires num_small { unsigned_abs before.constant.num < CONSTANT_LIMIT }
    requires den_small { before.constant.den < CONSTANT_LIMIT }
    requires scale { (0 < scale) × (scale ≤ COEFFICIENT_LIMIT) }
    requires small { unsigned_abs value.num < 2 ^ 88 }
    requires above { pos 0 <ℤ value.den }
    ensures constant { IfSome result (λ f. (e p : Fraction) → 0 < e.den → value.num ≡ p.num
        → value.den ≡ pos p.den → IsConstant before.scale e before.constant → IsConstant scale (plus e p) f) }
    ensures small { IfSome result HasSmallParts }
    ensures none { IfNone result ((e p : Fraction) → 0 < e.den → value.num ≡ p.num → value.den ≡ pos p.den
        → IsConstant before.scale e before.constant → IsSmallConstant scale (plus e p) → ⊥) }
{
    let change = change(scale, value);
    let num = scaled(scale, before.constant.num());
    let den = scaled(before.scale, before.constant.den());
    let sum = common(num, den, change.num, change.den)?;
    small_of(sum)
}

// Whether a step adds nothing, at the scale of the one before it.
fn is_still(scale: u32, step: &Step) -> bool
    ensures { IsTrue result → (step.now.scale ≡ scale) × (step.now.part ≡ Nothing) }
{
    step.scale == scale && matches!(step.part, Part::Nothing)
}

// The constant after a step.
fn after(metrics: &Metrics, names: &[String], before: Progress, step: &Step) -> Option<Progress>
    requires before { (0 < before.scale) × (before.scale ≤ COEFFICIENT_LIMIT) }
    requires num_small { unsigned_abs before.constant.num < CONSTANT_LIMIT }
    requires den_small { before.constant.den < CONSTANT_LIMIT }
    requires scale { (0 < step.now.scale) × (step.now.scale ≤ COEFFICIENT_LIMIT) }
    ensures scale { IfSome result (λ p. p.scale ≡ step.now.scale) }
    ensures constant { IfSome result
        (IsAfter metrics.now before (step_view (map string_bytes names.now) step.now)) }
    ensures small { IfSome result (λ p. HasSmallParts p.constant) }
    ensures none { IfNone result
        (IsPastAfter metrics.now before (step_view (map string_bytes names.now) step.now)) }
    ensures above { 0 < (part_value metrics.now (part_view (map string_bytes names.now) step.now.part)).den }
{
    if is_still(before.scale, step) {
        return Some(before);
    }
    let value = part_ratio(metrics, names, step.part);
    let constant = moved(before, step.scale, value)?;
    Some(Progress {
        scale: step.scale,
        constant,
    })
}

/// The constant after all steps, unless it is past the limit after one of them.
pub fn constant_after(metrics: &Metrics, names: &[String], steps: &[Step]) -> Option<Frac>
    requires scales { AreScalesKept steps.now }
    ensures constant { IfSome result (IsConstant (last_scale
        (steps_view (map string_bytes names.now) steps.now))
        (step_sum metrics.now (steps_view (map string_bytes names.now) steps.now))) }
    ensures small { IfSome result (λ c. AreSmallSteps metrics.now
        (steps_view (map string_bytes names.now) steps.now)) }
    ensures none { IfNone result (AreSmallSteps metrics.now
        (steps_view (map string_bytes names.now) steps.now) → ⊥) }
{
    let mut now = Progress {
        scale: 1,
        constant: Frac::zero(),
    };
    for step in steps {
        now = after(metrics, names, now, step)?;
    }
    Some(now.constant)
}
