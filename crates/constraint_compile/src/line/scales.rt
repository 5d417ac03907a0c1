// The scales of ever longer sums.
ghost use Rattle.std.specs.Prelude.{◌≡◌, ◌<◌, ◌+◌, ℕ, pos, length, All, IfOk, IfSome, IfNone};
ghost use Rattle.problem_core.specs.Window.{zero_fraction};
ghost use Rattle.compile_parts.specs.Fractions.{AreSmall};
ghost use Rattle.compile_parts.specs.Addends.{addend_view, addends_view, sum_of, first_of};
ghost use Rattle.compile_parts.specs.Addends.{IsKept};
ghost use Rattle.compile_parts.specs.Shares.{IsOff};
ghost use Rattle.constraint_compile.specs.Coefficients.Sums.{AreKept, IsSum, AreScales, IsSumWithAddend};
ghost use Rattle.constraint_compile.specs.Coefficients.Sums.{IsPastWithAddend};

use crate::line::sums::{Sum, added};
use compile_parts::Addend;
use frac_core::OutOfMemory;
use std::alloc::Global;

/// The sum of all addends, and the scale after each.
#[derive(Drop)]
pub(crate) struct Scaled {
    pub sum: Sum,
    pub scales: Vec<u32>,
}

// The sum with one more addend, unless the scale or a number would be past the limit.
fn with_more(
    alloc: Global,
    attrs: &[u32],
    sum: Sum,
    addend: &Addend<'_>,
) -> Result<Option<Sum>, OutOfMemory>
    requires kept { AreKept attrs.now sum.scale sum.numbers.items }
    requires addend { IsKept addend.now }
    ensures kept { IfOk result (λ o. IfSome o (λ next. AreKept attrs.now next.scale next.numbers.items)) }
    ensures sum { IfOk result (λ o. IfSome o (λ next. IsSumWithAddend attrs.now (addend_view addend.now)
        sum.scale sum.numbers.items next.scale next.numbers.items)) }
    ensures past { IfOk result (λ o. IfNone o (IsPastWithAddend attrs.now (addend_view addend.now)
        sum.scale sum.numbers.items)) }
{
    let Some(share) = addend.share() else {
        return Ok(Some(sum));
    };
    added(alloc, attrs, &sum, &share)
}

// The sum of nothing.
fn no_sum(alloc: Global, attrs: &[u32]) -> Result<Sum, OutOfMemory>
    ensures kept { IfOk result (λ sum. AreKept attrs.now sum.scale sum.numbers.items) }
    ensures sum { IfOk result (λ sum. IsSum (λ v. zero_fraction) attrs.now sum.scale sum.numbers.items) }
{
    let mut numbers = Vec::with_capacity(alloc, attrs.len())?;
    for _ in attrs {
        numbers.push(0)?;
    }
    Ok(Sum { scale: 1, numbers })
}

/// The sum of the addends and the scale after each, unless the scale or a coefficient is past the limit after
/// one of them.
pub(crate) fn scales_of(
    alloc: Global,
    attrs: &[u32],
    added: &[Addend<'_>],
) -> Result<Option<Scaled>, OutOfMemory>
    requires addends { All IsKept added.now }
    requires off { (v : ℕ) → IsOff attrs.now v → All (λ a. ((addend_view a).share v).num ≡ pos 0) added.now }
    ensures kept { IfOk result (λ o. IfSome o (λ s. AreKept attrs.now s.sum.scale s.sum.numbers.items)) }
    ensures sum { IfOk result (λ o. IfSome o (λ s.
        IsSum (sum_of (addends_view added.now)) attrs.now s.sum.scale s.sum.numbers.items)) }
    ensures scales { IfOk result (λ o. IfSome o (λ s.
        AreScales (addends_view added.now) (length added.now) s.scales.items)) }
    ensures past { IfOk result (λ o. IfNone o (((i : ℕ) → i < length added.now
        → AreSmall (first_of (addends_view added.now) (i + 1))) → ⊥)) }
{
    let mut sum = no_sum(alloc, attrs)?;
    let mut scales = Vec::with_capacity(alloc, added.len())?;
    for addend in added {
        let Some(next) = with_more(alloc, attrs, sum, addend)? else {
            return Ok(None);
        };
        sum = next;
        scales.push(sum.scale)?;
    }
    Ok(Some(Scaled { sum, scales }))
}
