ghost use Rattle.std.specs.Prelude.{◌≡◌};

use std::alloc::{AllocError, AllocFailed};

/// Want of memory, the one answer that no clause ties to a cause.
pub type Memory = AllocError;

/// Why a call that allocates has no answer: a refusal of its own, or want of memory.
#[derive(Debug, Drop)]
pub enum Stop<R> {
    Refused(R),
    Memory,
}

impl<R> From<AllocError> for Stop<R> {
    ghost use Rattle.ranked.specs.declared.stop.Stop.TheVariants.{Memory};

    ghost from_gives = { λ _ e. e ≡ Memory };

    fn from(_e: AllocError) -> Stop<R> {
        Stop::Memory
    }
}

impl<R, T: Drop> From<AllocFailed<T>> for Stop<R> {
    ghost use Rattle.ranked.specs.declared.stop.Stop.TheVariants.{Memory};

    ghost from_gives = { λ _ e. e ≡ Memory };

    fn from(_e: AllocFailed<T>) -> Stop<R> {
        Stop::Memory
    }
}
