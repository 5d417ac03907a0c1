// The way of a slide: from where it comes, and to which constant.
ghost use Rattle.std.specs.Prelude.{◌≡◌, ◌⊎◌, true, false, pos, ◌≤ℤ◌, IfOk, OnErr};
ghost use Rattle.frac_core.specs.Fraction.{IsFitting};
ghost use Rattle.problem_core.specs.declared.parts.Side.TheVariants as sides;
ghost use Rattle.sweep_laws.specs.Fractions.{IsLess, IsNoMore, IsTooLarge};
ghost use Rattle.sweep_run.specs.Ways.{IsNoLater, IsPlace, IsUnfitBefore, IsUnfitWay, IsWay, backwards};
ghost use Rattle.sweep_run.specs.Ways.{far_back, own};

use frac_core::{Frac, Unfit};
use problem_core::{Mark, RowName, Side};
use std::cmp::Ordering;

/// A constant of the row, and how far it is before the slide's end, which is at least 0.
#[derive(Clone, Copy)]
pub struct Place {
    pub width: Frac,
    pub back: Frac,
}

/// The row whose constant slides, where it is at first, from where on the way is shown, and where it ends.
#[derive(Clone, Copy)]
pub struct Way {
    pub row: u32,
    /// Whether the constant rises.
    pub up: bool,
    pub first: Place,
    pub near: Place,
    pub end: Frac,
}

// The place of this constant on the way to the end, which is beyond it or the same.
fn place_of(width: Frac, end: Frac, up: bool) -> Result<Place, Unfit>
    requires { IsNoLater up width end }
    ensures place { IfOk result (IsPlace up end) }
    ensures width { IfOk result (λ place. place.width ≡ width) }
    ensures unfit { OnErr result (IsTooLarge (far_back up width end)) }
{
    let back = if up {
        Frac::mul_add(end, -1, 1, width)?
    } else {
        Frac::mul_add(width, -1, 1, end)?
    };
    Ok(Place { width, back })
}

impl Way {
    /// The way of the row's constant from the present one to the end, shown from `near` on.
    pub fn of(row: u32, present: Frac, near: Frac, end: Frac) -> Result<Way, Unfit>
        requires apart { IsLess present end ⊎ IsLess end present }
        requires up { IsLess present end → IsNoMore near end }
        requires down { IsLess end present → IsNoMore end near }
        ensures way { IfOk result (IsWay row present near end) }
        ensures unfit { OnErr result (IsUnfitWay present near end) }
    {
        let up = present.compare(&end) == Ordering::Less;
        Ok(Way {
            row,
            up,
            first: place_of(present, end, up)?,
            near: place_of(near, end, up)?,
            end,
        })
    }

    /// The end.
    pub(crate) fn last(&self) -> Place
        ensures place { IsPlace self.now.up self.now.end result }
        ensures width { result.width ≡ self.now.end }
    {
        let _ = self.end.num(); // for the proof: what a fraction keeps
        Place {
            width: self.end,
            back: Frac::zero(),
        }
    }

    /// The place that is so far before the end, unless its constant doesn't fit.
    pub(crate) fn before_end(&self, back: Frac) -> Result<Place, Unfit>
        requires { pos 0 ≤ℤ back.num }
        ensures place { IfOk result (IsPlace self.now.up self.now.end) }
        ensures back { IfOk result (λ place. place.back ≡ back) }
        ensures unfit { OnErr result (IsUnfitBefore self.now back) }
    {
        let _ = back.num(); // for the proof: what a fraction keeps
        let by = if self.up { -1 } else { 1 };
        let width = Frac::mul_add(self.end, by, 1, back)?;
        Ok(Place { width, back })
    }

    /// How much grows towards the beginning what grows so much with the constant.
    pub(crate) fn backwards(&self, n: i64) -> i64
        requires { IsFitting n }
        ensures value { result ≡ backwards self.now.up n }
        ensures fits { IsFitting result }
    {
        if self.up { -n } else { n }
    }

    /// The over mark of the row.
    pub(crate) fn over(&self) -> Mark
        ensures { result ≡ own self.now.row sides.Over }
    {
        Mark {
            row: RowName::Held(self.row),
            side: Side::Over,
        }
    }
}

/// Whether the one place comes before the other on the way.
pub(crate) fn is_before(a: &Place, b: &Place) -> bool
    ensures yes { result ≡ true → IsLess b.now.back a.now.back }
    ensures no { result ≡ false → IsNoMore a.now.back b.now.back }
{
    a.back.compare(&b.back) == Ordering::Greater
}
