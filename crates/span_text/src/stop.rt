// Why a part of a text wasn't read.
ghost use Rattle.std.specs.Prelude.{◌≡◌};
ghost use Rattle.span_text.specs.declared.stop.PartStop.TheVariants as stop;

use std::alloc::{AllocError, AllocFailed};
use thiserror::Error;

/// Why a part of a text wasn't read.
#[derive(Clone, Copy, Debug, PartialEq, Eq, Error)]
pub enum PartStop {
    /// So many bytes are left where no text of the grammar goes on.
    #[error("{0} bytes are left where no text of the grammar goes on")]
    Left(usize),
    #[error("memory is wanting")]
    OutOfMemory,
}

/// So many bytes of a text begin some text of the grammar, and no more.
#[derive(Clone, Copy, Debug, PartialEq, Eq, Error)]
#[error("syntax at byte {0}")]
pub struct SyntaxAt(pub usize);

impl From<usize> for PartStop {
    ghost from_gives = { λ left e. e ≡ stop.Left left };

    fn from(left: usize) -> PartStop {
        PartStop::Left(left)
    }
}

impl From<AllocError> for PartStop {
    ghost from_gives = { λ _ e. e ≡ stop.OutOfMemory };

    fn from(_: AllocError) -> PartStop {
        PartStop::OutOfMemory
    }
}

impl<T: Drop> From<AllocFailed<T>> for PartStop {
    ghost from_gives = { λ _ e. e ≡ stop.OutOfMemory };

    fn from(_: AllocFailed<T>) -> PartStop {
        PartStop::OutOfMemory
    }
}
