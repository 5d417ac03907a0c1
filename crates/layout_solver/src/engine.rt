// The engine: a problem with its best values and their corner, and earlier ones to go back to.
mod moved;

ghost use Rattle.std.specs.Prelude.{◌≡◌, ◌<◌, ◌-◌, ℕ, [], ◌∷◌, false, length, take};
ghost use Rattle.std.specs.Prelude.{All, Any, IfOk, IfErr, IfSome, IfNone, OnErr};
ghost use Rattle.frac_core.specs.Fraction.{IsKept, IsLowest};
ghost use Rattle.problem_core.specs.Layout.{HasStay, line_of_row};
ghost use Rattle.problem_core.specs.Levels.{IsLevelAt};
ghost use Rattle.problem_core.specs.Window.{zero_fraction};
ghost use Rattle.problem_core.specs.Kept.{IsWhole};
ghost use Rattle.cert_core.specs.Stops.{IsStopOf};
ghost use Rattle.cert_checker.specs.Certifying.{EachGiven};
ghost use Rattle.certificates.specs.Accepted.{IsCertified};
ghost use Rattle.certificates.specs.Errors.{IsErrorAt, IsLevelCost};
ghost use Rattle.certificates.specs.OwnLevels.{IsOwnBest};
ghost use Rattle.corner_lines.specs.Shifts.{with_constant};
ghost use Rattle.corner_view.specs.AddStops.{FromAdded};
ghost use Rattle.corner_view.specs.Changes.{IsNear, scene_of};
ghost use Rattle.version_lists.specs.declared.versions.TheConstants.{VERSION_LIMIT};
ghost use Rattle.layout_solver.specs.Layouts.{AreApart, AreBest, IsBestValue, IsKeptLayout};
ghost use Rattle.layout_solver.specs.Layouts.{IsKeptSolution};
ghost use Rattle.layout_solver.specs.Layouts.{solution_of, with_added};
ghost use Rattle.layout_solver.specs.Requests.{CanSolve, IsRequestStop, IsSolvedBy, posed_by};
ghost use Rattle.layout_solver.specs.Engines.{HasValues, HaveValues};
ghost use Rattle.layout_solver.specs.Trials.{IsTrialStop};
ghost use Rattle.layout_solver.specs.ValuesUnique.{lists_are_one, one_list};

use crate::posing::{as_held, posed};
use crate::reading::{has_level, has_stay, row_of};
use crate::request::{Request, RequestStop};
use crate::solving::go;
use crate::trying::{TrialStop, pushed, tried};
use cert_core::{Best, RunStop};
use certificates::{certificate, error};
use corner_view::{Corner, Tableau};
use frac_core::{Frac, OutOfMemory, Wide};
use problem_core::{Level, Problem, Row, Stay};
use std::alloc::Global;
use std::marker::Model;

/// A row's new constant.
#[derive(Clone, Copy, Debug, PartialEq, Eq)]
pub struct Change {
    pub row: u32,
    pub constant: Frac,
}

/// A problem with its best values and their corner, and earlier ones.
#[derive(Drop)]
pub struct Engine<T: Tableau> {
    corner: Corner<T>,
    alloc: Global,
    ghost values: { HasValues (scene_of corner) } by { one_list (scene_of corner) },
    ghost earlier: { HaveValues corner.before } by { lists_are_one corner.before },
}

impl<T: Tableau> Model for Engine<T> {
    ghost use Rattle.layout_solver.specs.Layouts.{Layout};
    ghost use Rattle.layout_solver.specs.Engines.{IsSolved, layout_of};

    ghost Value = { Layout };

    ghost view = { λ e. layout_of e.corner e.values.0 e.earlier };

    ghost invariant = { λ e. IsSolved e.corner e.values.0 e.earlier };
}

impl<T: Tableau> Engine<T> {
    /// An engine without attributes and rows.
    pub fn new(alloc: Global) -> Result<Engine<T>, OutOfMemory>
        ensures { IfOk result (λ e. e ≡ record {
          problem = record { rows = []; stays = [] };
          values = [];
          corner = [];
          earlier = [];
        }) }
    {
        let corner = Corner::new(alloc)?;
        corner.show_corner(); // for the proof: what a corner keeps
        Ok(Engine { corner, alloc })
    }

    /// Shows what each engine keeps.
    pub fn show_layout(&self)
        ensures layout { IsKeptLayout self.now }
        ensures whole { IsWhole self.now.problem }
        ensures best { AreBest self.now.problem self.now.values }
        ensures kept { All (λ v. IsKept v.1) self.now.values }
        ensures apart { AreApart self.now.values }
        ensures earlier { All IsKeptSolution self.now.earlier }
    {
        let _ = &self.corner; // for the proof: what an engine keeps
    }

    /// Solves a request: moves the stays to the present values, changes what the request says, and goes on to
    /// the best values. The path begins at the corner that was kept. For `Add`, each new row adds its mark
    /// that is not negative. For `Remove`, exchanges first bring a mark of each leaving row in, and these
    /// marks go. `Keep` moves no value, and `Stand` needs no path.
    ///
    /// `Conflict` (only from `Add` and `Shift`): the required rows have no solution, as the multipliers show.
    /// `Unfit`: a quantity does not fit at the last corner of the path, or, from `Remove`, while the rows in
    /// `still` are held. `Spent`: the path has as many exchanges as the budget. A stop leaves the engine as
    /// it was.
    pub fn solve(&mut self, request: &Request, budget: u64) -> Result<(), RequestStop>
        requires room { length self.old.earlier < VERSION_LIMIT }
        requires can { CanSolve self.old request.now }
        ensures problem { IfOk result (λ _. self.new.problem ≡ posed_by self.old request.now) }
        ensures solved { IfOk result (λ _. IsSolvedBy self.old request.now budget self.new) }
        ensures stop { IfErr result (IsRequestStop self.old request.now budget) }
        ensures earlier { IfOk result (λ _. self.new.earlier ≡ solution_of self.old ∷ self.old.earlier) }
        ensures same { OnErr result (self.new ≡ self.old) }
    {
        self.corner.mark();
        let result = go(self.alloc, &mut self.corner, request, budget);
        self.corner.show_corner(); // for the proof: what a corner keeps
        match result {
            Ok(()) => Ok(()),
            Err(stop) => {
                self.corner.back();
                Err(stop)
            }
        }
    }

    /// The problem that `solve` would solve, in copies of the engine's rows.
    pub fn posed(&self, request: Request) -> Result<Problem, OutOfMemory>
        requires { CanSolve self.now request }
        ensures { IfOk result (λ p. p ≡ posed_by self.now request) }
    {
        posed(self.alloc, self, request)
    }

    /// The problem, in copies of its rows.
    pub fn problem(&self) -> Result<Problem, OutOfMemory>
        ensures { IfOk result (λ p. p ≡ self.now.problem) }
    {
        as_held(self.alloc, self)
    }

    /// The value that an attribute would have if rows joined. The engine does not change.
    ///
    /// The stops are those of `solve` for adding the rows.
    pub fn value_with(&mut self, rows: &[Row], attr: u32, budget: u64) -> Result<Frac, RunStop>
        requires room { length self.old.earlier < VERSION_LIMIT }
        requires whole { IsWhole (with_added self.old [] rows.now) }
        requires attr { HasStay self.old.problem.stays attr }
        ensures value { IfOk result (IsBestValue (with_added self.old [] rows.now) attr) }
        ensures stop { IfErr result (IsStopOf false (with_added self.old [] rows.now) self.old.problem.rows
            (FromAdded (with_added self.old [] rows.now) self.old.corner rows.now) budget) }
        ensures same { self.new ≡ self.old }
    {
        self.corner.mark();
        let result = tried(self.alloc, &mut self.corner, rows, attr, budget);
        self.corner.back();
        result
    }

    /// The value that the attribute would have if rows joined and one row had another constant, with the
    /// stays at the present values. The rows join first, then the constant changes. If the rows join without
    /// cost, this is one dual run. Each of the two runs has the whole budget. The engine does not change.
    ///
    /// A stop says what ends this path. `value_with` may reach the same end by another path.
    pub fn value_after(
        &mut self,
        rows: &[Row],
        to: Change,
        attr: u32,
        budget: u64,
    ) -> Result<Frac, TrialStop>
        requires room { length self.old.earlier < VERSION_LIMIT }
        requires whole { IsWhole (with_added self.old [] rows.now) }
        requires near { IsNear (with_added self.old [] rows.now) to.row to.constant }
        requires attr { HasStay self.old.problem.stays attr }
        ensures value { IfOk result
            (IsBestValue (with_constant to.row to.constant (with_added self.old [] rows.now)) attr) }
        ensures stop { IfErr result (IsTrialStop (with_added self.old [] rows.now) self.old.problem.rows
            self.old.corner rows.now to budget) }
        ensures same { self.new ≡ self.old }
    {
        self.corner.mark();
        let result = pushed(self.alloc, &mut self.corner, rows, to, attr, budget);
        self.corner.back();
        result
    }

    /// Goes back to the latest of the earlier layouts. It needs no memory.
    pub fn back(&mut self)
        requires { 0 < length self.old.earlier }
        ensures { self.old.earlier ≡ solution_of self.new ∷ self.new.earlier }
    {
        self.corner.back();
    }

    /// Forgets the oldest of the earlier layouts.
    pub fn forget(&mut self)
        requires { 0 < length self.old.earlier }
        ensures solution { solution_of self.new ≡ solution_of self.old }
        ensures earlier { self.new.earlier ≡ take (length self.old.earlier - 1) self.old.earlier }
    {
        self.corner.forget();
    }

    /// The rows, by rising number.
    pub fn rows(&self) -> &[Row]
        ensures { result.now ≡ self.now.problem.rows }
    {
        self.corner.rows()
    }

    /// The stays, strongest first.
    pub fn stays(&self) -> &[Stay]
        ensures { result.now ≡ self.now.problem.stays }
    {
        self.corner.stays()
    }

    /// The attribute's value.
    pub fn value(&self, attr: u32) -> Option<Frac>
        ensures some { IfSome result (λ f. Any (λ v. (v.0 ≡ attr) × (v.1 ≡ f)) self.now.values) }
        ensures none { IfNone result (HasStay self.now.problem.stays attr → ⊥) }
    {
        if has_stay(self.corner.stays(), attr) {
            Some(self.value_at(attr))
        } else {
            None
        }
    }

    /// The value of an attribute that has a stay.
    pub fn value_at(&self, attr: u32) -> Frac
        requires { HasStay self.now.problem.stays attr }
        ensures { Any (λ v. (v.0 ≡ attr) × (v.1 ≡ result)) self.now.values }
    {
        let value = self.corner.attr_value(attr);
        let _ = value.num(); // for the proof: what a fraction keeps
        value
    }

    /// The multipliers that show the values to be best: those of the corner's levels, strongest first. Each
    /// level is divided by the common factor of its scale and multipliers. A level whose multipliers are all
    /// 0 is left out. The checker accepts them, or has no room for some row's values.
    pub fn certificate(&self) -> Result<Best, OutOfMemory>
        ensures own { IfOk result (IsOwnBest self.now.problem self.now.corner) }
        ensures certified { IfOk result (IsCertified self.now.problem self.now.values) }
    {
        certificate(self.alloc, &self.corner)
    }

    /// The error of a held row, in points.
    pub fn error(&self, row: u32) -> Option<Wide>
        ensures some { IfSome result (λ e. Any (λ r. (r.id ≡ row)
            × EachGiven self.now.values (λ x. IsErrorAt x (line_of_row r) e)) self.now.problem.rows) }
        ensures lowest { IfSome result IsLowest }
        ensures none { IfNone result (Any (λ r. r.id ≡ row) self.now.problem.rows → ⊥) }
    {
        let held = row_of(self.corner.rows(), row)?;
        Some(error(&self.corner, held))
    }

    /// The sum of the weighted errors at a level, 0 if the problem has no such level.
    pub fn cost(&self, level: Level) -> Frac
        ensures value { (k : ℕ) → IsLevelAt self.now.problem level k
            → EachGiven self.now.values (λ x. IsLevelCost self.now.problem x k result) }
        ensures none { ((k : ℕ) → IsLevelAt self.now.problem level k → ⊥) → result ≡ zero_fraction }
    {
        if has_level(self.corner.stays(), level) {
            self.corner.cost(level)
        } else {
            Frac::zero()
        }
    }
}
