// The terms of a row.
ghost use Rattle.std.specs.Prelude.{ℕ, ◌<◌, ◌+◌, length, All, AllPairs, IfOk, OnOk};
ghost use Rattle.frac_core.specs.Fraction.{Fraction};
ghost use Rattle.problem_core.specs.Kept.{IsNumber};
ghost use Rattle.problem_core.specs.declared.limits.TheConstants.{TERM_LIMIT};
ghost use Rattle.constraint_compile.specs.Coefficients.Sums.{AreKept, IsSum, HasFirst, AreTerms, HasTooMany};

use crate::line::sums::Sum;
use frac_core::OutOfMemory;
use problem_core::Term;
use std::alloc::Global;

// Appends the term unless it is 0.
fn keep(out: &mut Vec<Term>, attrs: &[u32], sum: &Sum, place: usize) -> Result<(), OutOfMemory>
    requires kept { AreKept attrs.now sum.now.scale sum.now.numbers.items }
    requires rising { AllPairs (λ a b. a < b) attrs.now }
    requires numbers { All IsNumber attrs.now }
    requires place { place < length attrs.now }
    requires first { HasFirst attrs.now sum.now.numbers.items place out.old.items }
    ensures { OnOk result (HasFirst attrs.now sum.now.numbers.items (place + 1) out.new.items) }
{
    let by = sum.numbers[place];
    if by != 0 {
        let attr = attrs[place];
        out.push(Term { attr, by })?;
    }
    Ok(())
}

/// The terms of the sum that are not 0, by rising attribute.
pub(crate) fn row_terms(alloc: Global, attrs: &[u32], sum: &Sum) -> Result<Vec<Term>, OutOfMemory>
    requires kept { AreKept attrs.now sum.now.scale sum.now.numbers.items }
    requires rising { AllPairs (λ a b. a < b) attrs.now }
    requires numbers { All IsNumber attrs.now }
    ensures terms { IfOk result (λ terms. (b : ℕ → Fraction)
        → IsSum b attrs.now sum.now.scale sum.now.numbers.items → AreTerms b sum.now.scale terms.items) }
    ensures many { IfOk result (λ terms. (b : ℕ → Fraction)
        → IsSum b attrs.now sum.now.scale sum.now.numbers.items → TERM_LIMIT < length terms.items
        → HasTooMany b) }
{
    let mut out = Vec::with_capacity(alloc, attrs.len())?;
    for place in 0..attrs.len() {
        keep(&mut out, attrs, sum, place)?;
    }
    Ok(out)
}
