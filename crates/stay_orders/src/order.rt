// Stays in another order.
ghost use Rattle.std.specs.Prelude.{◌≡◌, ◌++◌, filter, not, IfOk, OnOk};
ghost use Rattle.stay_orders.specs.Orders.{is_of, with_first, with_front};

use frac_core::OutOfMemory;
use problem_core::Stay;
use std::alloc::Global;

// Puts the stays of the attribute behind the others.
fn push_own(out: &mut Vec<Stay>, stays: &[Stay], attr: u32) -> Result<(), OutOfMemory>
    ensures { OnOk result (out.new.items ≡ out.old.items ++ filter (is_of attr) stays.now) }
{
    for stay in stays {
        if stay.attr == attr {
            out.push(*stay)?;
        }
    }
    Ok(())
}

// Puts the stays of all other attributes behind them.
fn push_others(out: &mut Vec<Stay>, stays: &[Stay], attr: u32) -> Result<(), OutOfMemory>
    ensures { OnOk result
        (out.new.items ≡ out.old.items ++ filter (λ s. not (is_of attr s)) stays.now) }
{
    for stay in stays {
        if stay.attr != attr {
            out.push(*stay)?;
        }
    }
    Ok(())
}

// The stay of the attribute before all others, whose order stays.
fn with_first(alloc: Global, stays: &[Stay], attr: u32) -> Result<Vec<Stay>, OutOfMemory>
    ensures { IfOk result (λ order. order.items ≡ with_first attr stays.now) }
{
    let mut order = Vec::with_capacity(alloc, stays.len())?;
    push_own(&mut order, stays, attr)?;
    push_others(&mut order, stays, attr)?;
    Ok(order)
}

/// The stays of these attributes, in their order, before all others, whose order stays.
pub fn in_front(alloc: Global, stays: &[Stay], attrs: &[u32]) -> Result<Vec<Stay>, OutOfMemory>
    ensures { IfOk result (λ order. order.items ≡ with_front attrs.now stays.now) }
{
    let mut order = Vec::from_slice(alloc, stays)?;
    let mut left = attrs.len();
    while left > 0 {
        left -= 1;
        order = with_first(alloc, &order, attrs[left])?;
    }
    Ok(order)
}
