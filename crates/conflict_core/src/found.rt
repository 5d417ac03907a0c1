// Answers about a problem, and why a trial stops.
ghost use Rattle.std.specs.Prelude.{◌≡◌};

use cert_core::{Conflict, Path, UnfitPath};
use frac_core::OutOfMemory;
use problem_core::Values;
use thiserror::Error;

/// Whether the required rows of a problem have a solution.
#[derive(Debug, Drop)]
pub enum Found {
    /// They have a solution.
    Solvable,
    /// The rows of these numbers have none, and without any one of them the others have one.
    Core {
        rows: Vec<u32>,
        /// The multipliers that refute them, one for each row, none of them 0.
        by: Conflict,
        /// Each row with values of all attributes that satisfy the others.
        without: Vec<(u32, Values)>,
    },
}

/// Why the trial of some required rows stopped.
#[derive(Debug, Drop, Error)]
pub enum CoreStop {
    /// A quantity does not fit at the end of a path, while these rows are held.
    #[error("a quantity doesn't fit")]
    Unfit { held: Vec<u32>, at: UnfitPath },
    /// The path has as many exchanges as the budget, while these rows are held.
    #[error("the exchanges are used up")]
    Spent { held: Vec<u32>, path: Path },
    /// Memory ran out.
    #[error("memory is wanting")]
    OutOfMemory,
}

impl From<OutOfMemory> for CoreStop {
    ghost use Rattle.conflict_core.specs.declared.found.CoreStop.TheVariants.{OutOfMemory};

    ghost from_gives = { λ _ stop. stop ≡ OutOfMemory };

    fn from(_: OutOfMemory) -> CoreStop {
        CoreStop::OutOfMemory
    }
}
