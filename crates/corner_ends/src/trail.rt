// The exchanges of a run so far, primal or dual, and the stops that name them.
ghost use Rattle.std.specs.Prelude.{◌≡◌, ◌<◌, ◌≤◌, ◌+◌, ◌++◌, ◌∷◌, [], length, true, false};
ghost use Rattle.std.specs.Prelude.{IfOk};
ghost use Rattle.problem_core.specs.Changes.Paths.{IsSound};
ghost use Rattle.corner_view.specs.Seen.{IsMarkOf};

use crate::begins::{first_marks, was_inside};
use cert_core::{Path, RunStop, Swap, UnfitPath};
use corner_view::{Corner, Tableau};
use frac_core::OutOfMemory;
use problem_core::{Mark, Quantity};
use std::alloc::Global;
use std::marker::Model;

/// The exchanges of a run so far. The marks of its first corner are listed at a stop alone.
#[derive(Drop)]
pub struct Trail {
    alloc: Global,
    dual: bool,
    swaps: Vec<Swap>,
}

impl Model for Trail {
    ghost use Rattle.corner_ends.specs.Trails as trails;

    ghost Value = { trails.Trail };

    ghost view = { λ t. record {
      dual = t.dual;
      swaps = t.swaps.items;
    } };
}

impl Trail {
    ghost use Rattle.corner_ends.specs.Trails.{BeganWith, GoesOnBy, IsFirstCorner, IsNoConflict, IsPathBy};
    ghost use Rattle.corner_ends.specs.Trails.{IsSpentStop, IsTrailOf, IsUnfitAfter};

    // The trail of these exchanges, which are none yet.
    fn begun<T: Tableau>(alloc: Global, dual: bool, c: &Corner<T>, swaps: Vec<Swap>) -> Trail
        requires sound { IsSound dual c.now.problem c.now.marks }
        requires none { swaps.items ≡ [] }
        ensures none { result.swaps ≡ [] }
        ensures trail { IsTrailOf dual c.now.problem c.now.marks result c.now.marks }
    {
        c.show_corner(); // for the proof: what a corner keeps
        Trail { alloc, dual, swaps }
    }

    /// The trail of no exchange from the corner.
    pub fn of<T: Tableau>(alloc: Global, dual: bool, c: &Corner<T>) -> Trail
        requires { IsSound dual c.now.problem c.now.marks }
        ensures none { result.swaps ≡ [] }
        ensures trail { IsTrailOf dual c.now.problem c.now.marks result c.now.marks }
    {
        Trail::begun(alloc, dual, c, Vec::new(alloc))
    }

    /// The trail of no exchange from the corner, with room for so many.
    pub fn with_room<T: Tableau>(
        alloc: Global,
        dual: bool,
        c: &Corner<T>,
        room: usize,
    ) -> Result<Trail, OutOfMemory>
        requires { IsSound dual c.now.problem c.now.marks }
        ensures none { IfOk result (λ trail. trail.swaps ≡ []) }
        ensures trail { IfOk result (λ trail. IsTrailOf dual c.now.problem c.now.marks trail c.now.marks) }
    {
        let swaps = Vec::with_capacity(alloc, room)?;
        Ok(Trail::begun(alloc, dual, c, swaps))
    }

    /// Whether it has as many exchanges as the budget.
    pub fn is_spent(&self, budget: u64) -> bool
        ensures yes { result ≡ true → budget ≤ length self.now.swaps }
        ensures no { result ≡ false → length self.now.swaps < budget }
    {
        self.swaps.len() as u64 >= budget
    }

    /// Puts an exchange at the end.
    pub fn push(&mut self, swap: Swap) -> Result<(), OutOfMemory>
        ensures swaps { IfOk result (λ _. self.new.swaps ≡ self.old.swaps ++ swap ∷ []) }
        ensures more { IfOk result (λ _. length self.new.swaps ≡ length self.old.swaps + 1) }
        ensures trail { IfOk result (λ _. GoesOnBy self.old swap self.new) }
    {
        self.swaps.push(swap)?;
        Ok(())
    }

    // The marks of the first corner, found from the exchanges.
    fn first_corner<T: Tableau>(&self, c: &Corner<T>) -> Result<Vec<Mark>, OutOfMemory>
        ensures { IfOk result (λ marks. IsFirstCorner c.now self.now marks.items) }
    {
        let marks = first_marks(self.alloc, c, &self.swaps)?;
        Ok(marks)
    }

    /// Whether the mark was inside the first corner.
    pub fn began_with<T: Tableau>(&self, c: &Corner<T>, mark: Mark) -> bool
        requires { IsMarkOf c.now.problem mark }
        ensures { BeganWith c.now self.now mark result }
    {
        was_inside(c, &self.swaps, mark)
    }

    /// The path so far.
    pub fn path<T: Tableau>(&self, c: &Corner<T>) -> Result<Path, OutOfMemory>
        ensures { IfOk result (IsPathBy c.now self.now self.now.swaps) }
    {
        let marks = self.first_corner(c)?;
        Path::of(self.alloc, self.dual, &marks, &self.swaps)
    }

    // The path so far, with one exchange more.
    fn path_with<T: Tableau>(&mut self, c: &Corner<T>, swap: Swap) -> Result<Path, OutOfMemory>
        ensures { IfOk result (IsPathBy c.now self.old (self.old.swaps ++ swap ∷ [])) }
    {
        let marks = self.first_corner(c)?;
        self.swaps.push(swap)?;
        Path::of(self.alloc, self.dual, &marks, &self.swaps)
    }

    /// The stop where the exchanges are used up.
    pub fn spent<T: Tableau>(&self, c: &Corner<T>) -> RunStop
        ensures { IsSpentStop c.now self.now result }
    {
        match self.path(c) {
            Ok(path) => RunStop::Spent(path),
            Err(_) => RunStop::OutOfMemory,
        }
    }

    /// The stop where a quantity does not fit after one exchange more.
    pub fn unfit<T: Tableau>(&mut self, c: &Corner<T>, swap: Swap, quantity: Quantity) -> RunStop
        ensures after { IsUnfitAfter c.now self.old swap quantity result }
        ensures plain { IsNoConflict result }
    {
        match self.path_with(c, swap) {
            Ok(path) => RunStop::Unfit(UnfitPath { path, quantity }),
            Err(_) => RunStop::OutOfMemory,
        }
    }
}
