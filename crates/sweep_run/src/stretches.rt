// What a sweep answers.
ghost use Rattle.std.specs.Prelude.{◌≡◌};

use cert_core::{Conflict, Path};
use frac_core::{Frac, OutOfMemory};
use problem_core::{Mark, Quantity, Values};
use thiserror::Error;

/// What is best for all constants of a row from one to another.
#[derive(Debug, Drop)]
pub enum Stretch {
    /// The best values lie on the line between these two.
    Piece {
        from: Frac,
        to: Frac,
        low: Values,
        high: Values,
    },
    /// The required rows have no solution, as these multipliers show for each of the constants but one that a
    /// piece ends at.
    Conflict {
        from: Frac,
        to: Frac,
        by: Conflict,
    },
}

/// What doesn't fit in a sweep: a quantity, or the constant at which this mark's value is 0, or how far that
/// is from the slide's end.
#[derive(Clone, Copy, Debug, PartialEq, Eq)]
pub enum SweepQuantity {
    At(Quantity),
    Breakpoint(Mark),
}

/// Why there is no sweep.
#[derive(Debug, Drop, Error)]
pub enum SweepStop {
    /// A quantity doesn't fit at the end of a path, where the row has this constant; or a breakpoint doesn't.
    #[error("a quantity doesn't fit")]
    Unfit {
        width: Frac,
        path: Path,
        what: SweepQuantity,
    },
    /// The path has as many exchanges as the budget, where the row has this constant.
    #[error("the exchanges are used up")]
    Spent {
        width: Frac,
        path: Path,
    },
    /// Memory is wanting.
    #[error("memory is wanting")]
    OutOfMemory,
}

impl From<OutOfMemory> for SweepStop {
    ghost use Rattle.sweep_run.specs.declared.stretches.SweepStop.TheVariants.{OutOfMemory};

    ghost from_gives = { λ _ stop. stop ≡ OutOfMemory };

    fn from(_: OutOfMemory) -> SweepStop {
        SweepStop::OutOfMemory
    }
}
