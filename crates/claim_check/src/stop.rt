// Why a claim isn't answered.
ghost use Rattle.std.specs.Prelude.{◌≡◌};
ghost use Rattle.claim_check.specs.declared.stop.CheckStop.TheVariants as stop;

use frac_core::OutOfMemory;
use std::alloc::AllocError;

/// Why a claim isn't answered.
#[derive(Clone, Copy, Debug)]
pub enum CheckStop {
    /// The source failed.
    ReadFault,
    /// The source gave more bytes than the limit.
    TooLong,
    /// The sink failed.
    WriteFault,
    /// Memory was wanting.
    OutOfMemory,
}

impl From<AllocError> for CheckStop {
    ghost from_gives = { λ _ e. e ≡ stop.OutOfMemory };

    fn from(_: AllocError) -> Self {
        CheckStop::OutOfMemory
    }
}

impl From<OutOfMemory> for CheckStop {
    ghost from_gives = { λ _ e. e ≡ stop.OutOfMemory };

    fn from(_: OutOfMemory) -> Self {
        CheckStop::OutOfMemory
    }
}
