// Why a unit has no graph.

use std::alloc::{AllocError, AllocFailed};

/// Why a unit has no graph.
#[derive(Drop)]
pub enum LowerError {
    /// More than 65536 points.
    Limit,
    Memory,
}

impl From<AllocError> for LowerError {
    ghost use Rattle.std.specs.Prelude.{◌≡◌};
    ghost use Rattle.pk_draft.specs.declared.failures.LowerError.TheVariants.{Memory};

    ghost from_gives = { λ _ e. e ≡ Memory };

    fn from(_e: AllocError) -> Self {
        LowerError::Memory
    }
}

impl<T: Drop> From<AllocFailed<T>> for LowerError {
    ghost use Rattle.std.specs.Prelude.{◌≡◌};
    ghost use Rattle.pk_draft.specs.declared.failures.LowerError.TheVariants.{Memory};

    ghost from_gives = { λ _ e. e ≡ Memory };

    fn from(_e: AllocFailed<T>) -> Self {
        LowerError::Memory
    }
}
