// Paths of exchanges between corners.
ghost use Rattle.std.specs.Prelude.{◌≡◌, IfOk};

use frac_core::OutOfMemory;
use problem_core::Mark;
use std::alloc::Global;
use std::marker::Model;

/// An exchange: one mark enters a corner in place of another.
#[derive(Clone, Copy, Debug, PartialEq, Eq)]
pub struct Swap {
    pub enter: Mark,
    pub leave: Mark,
}

impl Model for Swap {
    ghost use Rattle.problem_core.specs.Corners as corners;

    ghost Value = { corners.Swap };

    ghost view = { λ s. record { enter = s.enter; leave = s.leave } };

    ghost inverse = { λ s. record { enter = s.enter; leave = s.leave } };
}

/// A corner, by the marks inside it, and exchanges from there: primal ones, or dual ones.
#[derive(Clone, Debug, Drop)]
pub struct Path {
    dual: bool,
    corner: Vec<Mark>,
    swaps: Vec<Swap>,
}

impl Model for Path {
    ghost use Rattle.cert_core.specs.Paths as paths;

    ghost Value = { paths.Path };

    ghost view = { λ p. record { dual = p.dual; corner = p.corner.items; swaps = p.swaps.items } };
}

impl Path {
    /// The path with just these parts.
    pub fn of(
        alloc: Global,
        dual: bool,
        corner: &[Mark],
        swaps: &[Swap],
    ) -> Result<Path, OutOfMemory>
        ensures { IfOk result (λ p. p ≡ record { dual = dual; corner = corner.now; swaps = swaps.now }) }
    {
        Ok(Path {
            dual,
            corner: Vec::from_slice(alloc, corner)?,
            swaps: Vec::from_slice(alloc, swaps)?,
        })
    }

    /// Whether it is a dual path, which takes out marks with negative values; a primal one brings in marks
    /// with negative columns.
    pub fn dual(&self) -> bool
        ensures { result ≡ self.now.dual }
    {
        self.dual
    }

    /// The marks inside at its start.
    pub fn corner(&self) -> &[Mark]
        ensures { result.now ≡ self.now.corner }
    {
        &self.corner
    }

    /// The exchanges, in order.
    pub fn swaps(&self) -> &[Swap]
        ensures { result.now ≡ self.now.swaps }
    {
        &self.swaps
    }
}
