// The numbers of attributes.
ghost use Rattle.std.specs.Prelude.{◌≢◌, AllPairs, IfOk};
ghost use Rattle.problem_core.specs.Numbers.{AreNumbersOf};

use crate::parts::Stay;
use frac_core::OutOfMemory;
use std::alloc::Global;

/// The attributes of the stays, by number.
pub fn numbers_of(alloc: Global, stays: &[Stay]) -> Result<Vec<u32>, OutOfMemory>
    requires { AllPairs (λ s t. s.attr ≢ t.attr) stays.now }
    ensures { IfOk result (λ attrs. AreNumbersOf stays.now attrs.items) }
{
    let mut attrs = Vec::with_capacity(alloc, stays.len())?;
    for stay in stays {
        attrs.push(stay.attr)?;
    }
    attrs.sort_unstable();
    Ok(attrs)
}
