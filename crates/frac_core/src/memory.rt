// Want of memory as an error of its own.
ghost use Rattle.std.specs.Prelude.{⊤, ◌≡◌};

use crate::frac::Unfit;
use std::alloc::{AllocError, AllocFailed};
use std::fmt::Display;
use thiserror::Error;

/// Memory is wanting.
#[derive(Clone, Copy, Debug, PartialEq, Eq, Error)]
#[error("memory is wanting")]
pub struct OutOfMemory;

impl From<AllocError> for OutOfMemory {
    ghost from_gives = { λ _ _. ⊤ };

    fn from(_: AllocError) -> OutOfMemory {
        OutOfMemory
    }
}

impl<T> From<AllocFailed<T>> for OutOfMemory
where
    T: Drop,
{
    ghost from_gives = { λ _ _. ⊤ };

    fn from(_: AllocFailed<T>) -> OutOfMemory {
        OutOfMemory
    }
}

/// Why a call gave nothing: a cause of its own, or want of memory.
#[derive(Clone, Copy, Debug, PartialEq, Eq, Error)]
#[error_bound(E: Display)]
pub enum Stop<E> {
    #[error("{0}")]
    Refused(E),
    #[error("memory is wanting")]
    OutOfMemory,
}

impl From<Unfit> for Stop<Unfit> {
    ghost use Rattle.frac_core.specs.declared.memory.Stop.TheVariants.{Refused};

    ghost from_gives = { λ cause stop. stop ≡ Refused cause };

    fn from(cause: Unfit) -> Stop<Unfit> {
        Stop::Refused(cause)
    }
}

impl<E> From<OutOfMemory> for Stop<E> {
    ghost use Rattle.frac_core.specs.declared.memory.Stop.TheVariants.{OutOfMemory};

    ghost from_gives = { λ _ stop. stop ≡ OutOfMemory };

    fn from(_: OutOfMemory) -> Stop<E> {
        Stop::OutOfMemory
    }
}

impl<E> From<AllocError> for Stop<E> {
    ghost use Rattle.frac_core.specs.declared.memory.Stop.TheVariants.{OutOfMemory};

    ghost from_gives = { λ _ stop. stop ≡ OutOfMemory };

    fn from(_: AllocError) -> Stop<E> {
        Stop::OutOfMemory
    }
}

impl<T, E> From<AllocFailed<T>> for Stop<E>
where
    T: Drop,
{
    ghost use Rattle.frac_core.specs.declared.memory.Stop.TheVariants.{OutOfMemory};

    ghost from_gives = { λ _ stop. stop ≡ OutOfMemory };

    fn from(_: AllocFailed<T>) -> Stop<E> {
        Stop::OutOfMemory
    }
}
