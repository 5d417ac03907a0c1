// The problems of a scene as it is, and the changes to constants that new metrics cause.
ghost use Rattle.std.specs.Prelude.{◌≡◌, IfOk, IfErr};
ghost use Rattle.constraint_compile.specs.Naming.{AreSameBut};
ghost use Rattle.scenes.specs.Moving.{AreChangesFor, MayLackChanges};
ghost use Rattle.scenes.specs.Scene.{problem_of};
ghost use Rattle.scenes.specs.Sweeping.{problem_here};

use crate::scene::Scene;
use compile_parts::LargeConstant;
use corner_view::Tableau;
use frac_core::{OutOfMemory, Stop};
use held_items::{constants_naming, moves};
use layout_solver::{Change, Request};
use name_tables::Metrics;
use problem_core::Problem;

impl<T: Tableau> Scene<T> {
    /// The problem of the rows of all that is held.
    pub fn problem(&self) -> Result<Problem, OutOfMemory>
        ensures { IfOk result (λ p. p ≡ problem_of self.now.scene) }
    {
        self.engine.problem()
    }

    /// The problem of the present rows, with the stays at the present values.
    pub fn problem_here(&self) -> Result<Problem, OutOfMemory>
        ensures { IfOk result (λ p. p ≡ problem_here self.now.scene) }
    {
        self.engine.posed(Request::Stand)
    }

    /// The changes that turn the rows into those for these metrics, in which only the metric of this name may
    /// have another value. It stops if a constant isn't small after some term, or moves too far.
    pub fn changes_for(
        &self,
        metrics: &Metrics,
        name: &str,
    ) -> Result<Vec<Change>, Stop<LargeConstant>>
        requires { AreSameBut name.now self.now.scene.metrics metrics.now }
        ensures changes { IfOk result (λ to. AreChangesFor self.now.scene metrics.now to.items) }
        ensures stop { IfErr result (MayLackChanges self.now.scene metrics.now) }
    {
        self.engine.show_layout(); // for the proof: what an engine keeps
        let constants = constants_naming(self.alloc, self.items.as_slice(), metrics, name)?;
        match moves(self.alloc, self.engine.rows(), &constants)? {
            Some(to) => Ok(to),
            None => Err(Stop::Refused(LargeConstant)),
        }
    }
}
