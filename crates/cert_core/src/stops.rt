// What ends a run from corner to corner before its goal.
ghost use Rattle.std.specs.Prelude.{◌≡◌};

use crate::conflict::Conflict;
use crate::path::Path;
use frac_core::OutOfMemory;
use problem_core::Quantity;
use thiserror::Error;

/// A path, and a quantity that does not fit at its last corner.
#[derive(Clone, Debug, Drop)]
pub struct UnfitPath {
    pub path: Path,
    pub quantity: Quantity,
}

/// What ends a run: the required rows are in conflict, a quantity does not fit, the exchanges are used up, or
/// memory is wanting.
#[derive(Debug, Drop, Error)]
pub enum RunStop {
    #[error("the required rows are in conflict")]
    Conflict(Conflict),
    #[error("a quantity doesn't fit")]
    Unfit(UnfitPath),
    #[error("the exchanges are used up")]
    Spent(Path),
    #[error("memory is wanting")]
    OutOfMemory,
}

impl From<OutOfMemory> for RunStop {
    ghost use Rattle.cert_core.specs.declared.stops.RunStop.TheVariants.{OutOfMemory};

    ghost from_gives = { λ _ stop. stop ≡ OutOfMemory };

    fn from(_: OutOfMemory) -> RunStop {
        RunStop::OutOfMemory
    }
}
