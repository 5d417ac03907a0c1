// Why a line isn't compiled.
use frac_core::OutOfMemory;
use name_tables::{LimitWord, OwnedName};
use std::alloc::AllocFailed;
use thiserror::Error;

/// The wrong uses, in the order in which they are tried.
#[derive(Clone, Copy, Debug, PartialEq, Eq, Error)]
pub enum KindWord {
    /// An alignment runs along the direction of its format.
    #[error("the alignment runs along the direction of its format")]
    Align,
    /// A format leads to the parent of the window, which has none.
    #[error("the window has no parent")]
    Parent,
    /// A view's name is in place of a number.
    #[error("a view stands for a number")]
    Object,
    /// A priority has no rank.
    #[error("the priority stands for no rank")]
    Priority,
    /// A weight is 0, or past its limit.
    #[error("the weight is 0 or too large")]
    Weight,
    /// The window is to be dropped.
    #[error("the window can't be dropped")]
    Window,
    /// A further suggestion of the same attribute has a priority.
    #[error("a further suggestion of the attribute has a priority")]
    Suggested,
    /// A further size of the same view has a priority.
    #[error("a further size of the view has a priority")]
    Sized,
    /// A tree of views has another shape.
    #[error("the tree of views is of another shape")]
    Tree,
    /// A sweep goes backwards, or the window has no size.
    #[error("the sweep goes backwards, or the window has no size")]
    Sweep,
}

/// A part of a row's constant isn't below [`CONSTANT_LIMIT`](crate::CONSTANT_LIMIT) in size after some term.
#[derive(Clone, Copy, Debug, PartialEq, Eq, Error)]
#[error("a constant would be past its limit")]
pub struct LargeConstant;

/// Why a line has no rows.
#[derive(Drop, Debug, Error)]
pub enum CompileStop {
    /// This name must be that of a view or a metric, and isn't.
    #[error("a name is neither a view's nor a metric's")]
    Unknown(OwnedName),
    /// A name or a number is used wrongly.
    #[error("{0}")]
    Kind(KindWord),
    /// A limit would be passed.
    #[error("a limit would be passed")]
    Limit(LimitWord),
    /// Memory has run out.
    #[error("memory is wanting")]
    OutOfMemory,
}

impl From<OutOfMemory> for CompileStop {
    ghost use Rattle.std.specs.Prelude.{◌≡◌};
    ghost use Rattle.compile_parts.specs.declared.stops.CompileStop.TheVariants as stop;

    ghost from_gives = { λ _ e. e ≡ stop.OutOfMemory };

    fn from(_: OutOfMemory) -> CompileStop {
        CompileStop::OutOfMemory
    }
}

impl<T> From<AllocFailed<T>> for CompileStop
where
    T: Drop,
{
    ghost use Rattle.std.specs.Prelude.{◌≡◌};
    ghost use Rattle.compile_parts.specs.declared.stops.CompileStop.TheVariants as stop;

    ghost from_gives = { λ _ e. e ≡ stop.OutOfMemory };

    fn from(_: AllocFailed<T>) -> CompileStop {
        CompileStop::OutOfMemory
    }
}

impl From<KindWord> for CompileStop {
    ghost use Rattle.std.specs.Prelude.{◌≡◌};
    ghost use Rattle.compile_parts.specs.declared.stops.CompileStop.TheVariants as stop;

    ghost from_gives = { λ word e. e ≡ stop.Kind word };

    fn from(word: KindWord) -> CompileStop {
        CompileStop::Kind(word)
    }
}

impl From<LimitWord> for CompileStop {
    ghost use Rattle.std.specs.Prelude.{◌≡◌};
    ghost use Rattle.compile_parts.specs.declared.stops.CompileStop.TheVariants as stop;

    ghost from_gives = { λ word e. e ≡ stop.Limit word };

    fn from(word: LimitWord) -> CompileStop {
        CompileStop::Limit(word)
    }
}
