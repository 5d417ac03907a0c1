// The attributes whose values changed since the latest earlier layout.
ghost use Rattle.std.specs.Prelude.{◌<◌, length, IfOk};

use crate::engine::Engine;
use corner_view::Tableau;
use frac_core::OutOfMemory;

impl<T: Tableau> Engine<T> {
    ghost use Rattle.layout_solver.specs.Layouts.{solution_of};
    ghost use Rattle.corner_view.specs.Moves.{AreMovedSince};
    ghost use Rattle.layout_solver.specs.Moves.{HasValueOf};

    /// The attributes whose values changed since the latest earlier layout, and those that came or left. The
    /// time depends only on how much changed.
    pub fn moved(&self) -> Result<Vec<u32>, OutOfMemory>
        requires { 0 < length self.now.earlier }
        ensures { IfOk result
            (λ attrs. AreMovedSince HasValueOf self.now.earlier (solution_of self.now) attrs.items) }
    {
        let moved = self.corner.moved()?;
        Ok(moved)
    }
}
