// Why views aren't added.
use frac_core::OutOfMemory;
use name_tables::{LimitWord, OwnedName};
use thiserror::Error;

/// Why a view isn't added.
#[derive(Clone, Copy, Debug, PartialEq, Eq, Error)]
pub enum ViewStop {
    /// The parent isn't live.
    #[error("the parent isn't live")]
    Unknown,
    /// A live view has the name.
    #[error("the name is taken")]
    Taken,
    /// A limit would be passed.
    #[error("a limit would be passed")]
    Limit(LimitWord),
    /// Memory is wanting.
    #[error("memory is wanting")]
    OutOfMemory,
}

impl From<OutOfMemory> for ViewStop {
    ghost use Rattle.std.specs.Prelude.{◌≡◌};
    ghost use Rattle.view_tree.specs.declared.stops.ViewStop.TheVariants.{OutOfMemory as NoMemory};

    ghost from_gives = { λ _ stop. stop ≡ NoMemory };

    fn from(_: OutOfMemory) -> ViewStop {
        ViewStop::OutOfMemory
    }
}

/// Why the views of a tree that is written as JSON aren't added.
#[derive(Drop, Debug, Error)]
pub enum TreeStop {
    /// The text isn't JSON.
    #[error("the text of the tree isn't JSON")]
    Syntax,
    /// The value has another shape.
    #[error("this isn't the shape of a tree")]
    Shape,
    /// No live view has this name, and the tree goes in it.
    #[error("the view isn't live")]
    Unknown(OwnedName),
    /// A name of the tree is taken.
    #[error("the name is taken")]
    Taken(OwnedName),
    /// A limit would be passed.
    #[error("a limit would be passed")]
    Limit(LimitWord),
    /// Memory is wanting.
    #[error("memory is wanting")]
    OutOfMemory,
}

impl From<OutOfMemory> for TreeStop {
    ghost use Rattle.std.specs.Prelude.{◌≡◌};
    ghost use Rattle.view_tree.specs.declared.stops.TreeStop.TheVariants.{OutOfMemory as NoMemory};

    ghost from_gives = { λ _ stop. stop ≡ NoMemory };

    fn from(_: OutOfMemory) -> TreeStop {
        TreeStop::OutOfMemory
    }
}
