// Why a name is refused.
ghost use Rattle.name_tables.specs.Constants.{ConstantsAreAsSaid};

use frac_core::OutOfMemory;
use thiserror::Error;

/// Why a table of names refuses a call.
#[derive(Clone, Copy, Debug, PartialEq, Eq, Error)]
pub enum NameStop {
    /// The table has the name.
    #[error("the name is taken")]
    Taken,
    /// The table has as many names as it may have.
    #[error("there are as many names as there may be")]
    Full,
    /// The table doesn't have the name.
    #[error("there is no such name")]
    Unknown,
    /// Memory is wanting.
    #[error("memory is wanting")]
    OutOfMemory,
}

impl From<OutOfMemory> for NameStop {
    ghost use Rattle.std.specs.Prelude.{◌≡◌};
    ghost use Rattle.name_tables.specs.declared.stops.NameStop.TheVariants.{OutOfMemory as NoMemory};

    ghost from_gives = { λ _ stop. stop ≡ NoMemory };

    fn from(_: OutOfMemory) -> NameStop {
        NameStop::OutOfMemory
    }
}

/// How many bytes the name of a view, a metric or a group may have.
pub const NAME_LIMIT: usize = 64;

/// The limits of a scene, by the words that name them in a refusal.
#[derive(Clone, Copy, Debug, PartialEq, Eq)]
pub enum LimitWord {
    /// The bytes of a line.
    Line,
    /// The bytes of a name.
    Name,
    /// The live views, and their numbers.
    Views,
    /// The depth of the tree of views.
    Depth,
    /// The metrics.
    Metrics,
    /// The held lines of all groups.
    Lines,
    /// The held rows, and their numbers.
    Rows,
    /// The terms of a line.
    Terms,
    /// The attributes of a row.
    Attributes,
    /// The size of a row's coefficients and scale.
    Coefficient,
    /// The size of a row's constant.
    Constant,
    /// The exchanges of a run.
    Budget,
}

/// The constants that definitions and clauses cite by name are these numbers.
pub fn constants_are_as_said()
    ensures { ConstantsAreAsSaid }
{}
