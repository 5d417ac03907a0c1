// Problems: rows with rising numbers, and a stay for each attribute that they name.
ghost use Rattle.std.specs.Prelude.{◌≡◌, IfOk};
ghost use Rattle.problem_core.specs.Kept.{IsWhole};

use crate::parts::Stay;
use crate::row::Row;
use frac_core::OutOfMemory;
use std::marker::Model;

/// Rows by rising number, and a stay for each attribute, earlier ones stronger.
#[derive(Clone, Debug, Drop)]
pub struct Problem {
    rows: Vec<Row>,
    stays: Vec<Stay>,
}

impl Model for Problem {
    ghost use Rattle.problem_core.specs.Layout as layout;
    ghost use Rattle.problem_core.specs.Kept.{IsWhole};

    ghost Value = { layout.Problem };

    ghost use Rattle.problem_core.specs.Fields.{problem_of};

    ghost view = { problem_of };

    ghost invariant = { λ p. IsWhole (problem_of p) };
}

impl Problem {
    /// The problem with just these rows and stays, which `IsWhole` limits. It takes no memory.
    pub fn of(rows: Vec<Row>, stays: Vec<Stay>) -> Problem
        requires { IsWhole (record { rows = rows.items; stays = stays.items }) }
        ensures { result ≡ record { rows = rows.items; stays = stays.items } }
    {
        Problem { rows, stays }
    }

    /// The rows, by rising number.
    pub fn rows(&self) -> &[Row]
        ensures { result.now ≡ self.now.rows }
    {
        &self.rows
    }

    /// The stays, strongest first.
    pub fn stays(&self) -> &[Stay]
        ensures { result.now ≡ self.now.stays }
    {
        &self.stays
    }

    /// An equal problem.
    pub fn copy(&self) -> Result<Problem, OutOfMemory>
        ensures { IfOk result (λ p. p ≡ self.now) }
    {
        Ok(self.clone()?)
    }

    /// Shows what each problem keeps.
    pub fn show_whole(&self)
        ensures { IsWhole self.now }
    {
        let _ = &self.rows; // for the proof: what a problem keeps
    }
}
