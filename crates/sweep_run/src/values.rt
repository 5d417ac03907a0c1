// The values of attributes at a place of a slide.
ghost use Rattle.std.specs.Prelude.{All, IfOk, IfErr};
ghost use Rattle.frac_core.specs.Fraction.{IsKept};
ghost use Rattle.problem_core.specs.Layout.{HasStay};
ghost use Rattle.problem_core.specs.Corners.{attr_column};
ghost use Rattle.corner_view.specs.Seen.{HasValueAt};
ghost use Rattle.corner_lines.specs.Shifts.{with_constant};
ghost use Rattle.sweep_run.specs.Values.{AreListed, AreValuesAt};
ghost use Rattle.sweep_run.specs.Ways.{IsAtEnd, IsPlace, IsUnfitStopThere};

use crate::rates::{rate_of, value_back};
use crate::ways::{Place, Way};
use corner_view::{Corner, Tableau};
use frac_core::{Frac, OutOfMemory, Stop};
use problem_core::{Values, What, numbers_of};
use std::alloc::Global;

// The value of an attribute at the place.
fn value_at<T: Tableau>(
    c: &Corner<T>,
    way: &Way,
    attr: u32,
    place: &Place,
) -> Result<Frac, Stop<u32>>
    requires held { IsAtEnd way.now c.now }
    requires attr { HasStay c.now.problem.stays attr }
    requires place { IsPlace way.now.up way.now.end place.now }
    ensures value { IfOk result (HasValueAt (with_constant way.now.row place.now.width c.now.problem)
        c.now.marks (attr_column attr)) }
    ensures kept { IfOk result IsKept }
    ensures unfit { IfErr result (IsUnfitStopThere c.now way.now place.now) }
{
    c.show_corner(); // for the proof: what a corner keeps
    let value = c.attr_value(attr);
    let _ = value.num(); // for the proof: what a fraction keeps
    let rate = rate_of(c, way, What::Attr(attr));
    match value_back(value, rate, place.back) {
        Ok(value) => Ok(value),
        Err(_) => Err(Stop::Refused(attr)),
    }
}

// These attributes with their values at the place, or the one whose value doesn't fit.
fn pairs_at<T: Tableau>(
    alloc: Global,
    c: &Corner<T>,
    way: &Way,
    place: &Place,
    attrs: &[u32],
) -> Result<Vec<(u32, Frac)>, Stop<u32>>
    requires held { IsAtEnd way.now c.now }
    requires place { IsPlace way.now.up way.now.end place.now }
    requires attrs { All (HasStay c.now.problem.stays) attrs.now }
    ensures values { IfOk result (λ pairs. AreListed
        (with_constant way.now.row place.now.width c.now.problem) c.now.marks attrs.now pairs.items) }
    ensures unfit { IfErr result (IsUnfitStopThere c.now way.now place.now) }
{
    let mut out = Vec::new(alloc);
    for attr in attrs {
        out.push((*attr, value_at(c, way, *attr, place)?))?;
    }
    Ok(out)
}

/// The values of all attributes at the place, or the attribute whose value doesn't fit.
pub(crate) fn values_at<T: Tableau>(
    alloc: Global,
    c: &Corner<T>,
    way: &Way,
    place: &Place,
) -> Result<Values, Stop<u32>>
    requires held { IsAtEnd way.now c.now }
    requires place { IsPlace way.now.up way.now.end place.now }
    ensures values { IfOk result (AreValuesAt (with_constant way.now.row place.now.width c.now.problem)
        c.now.marks) }
    ensures unfit { IfErr result (IsUnfitStopThere c.now way.now place.now) }
{
    c.show_corner(); // for the proof: what a corner keeps
    let attrs = numbers_of(alloc, c.stays())?;
    let pairs = pairs_at(alloc, c, way, place, &attrs)?;
    Ok(Values::of(alloc, &pairs)?)
}

// These attributes with their values at the corner.
fn pairs_here<T: Tableau>(
    alloc: Global,
    c: &Corner<T>,
    attrs: &[u32],
) -> Result<Vec<(u32, Frac)>, OutOfMemory>
    requires { All (HasStay c.now.problem.stays) attrs.now }
    ensures { IfOk result (λ pairs. AreListed c.now.problem c.now.marks attrs.now pairs.items) }
{
    let mut out = Vec::new(alloc);
    for attr in attrs {
        let value = c.attr_value(*attr);
        let _ = value.num(); // for the proof: what a fraction keeps
        out.push((*attr, value))?;
    }
    Ok(out)
}

/// The values of all attributes at the corner.
pub fn values_here<T: Tableau>(alloc: Global, c: &Corner<T>) -> Result<Values, OutOfMemory>
    ensures { IfOk result (AreValuesAt c.now.problem c.now.marks) }
{
    c.show_corner(); // for the proof: what a corner keeps
    let attrs = numbers_of(alloc, c.stays())?;
    let pairs = pairs_here(alloc, c, &attrs)?;
    Values::of(alloc, &pairs)
}
