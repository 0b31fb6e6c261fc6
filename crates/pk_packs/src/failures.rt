// Why a graph has no packs.

use std::alloc::{AllocError, AllocFailed};

/// Why a graph has no packs.
#[derive(Drop)]
pub enum PackError {
    /// More than 256.
    Limit,
    Memory,
}

impl From<AllocError> for PackError {
    ghost use Rattle.std.specs.Prelude.{◌≡◌};
    ghost use Rattle.pk_packs.specs.declared.failures.PackError.TheVariants.{Memory};

    ghost from_gives = { λ _ e. e ≡ Memory };

    fn from(_e: AllocError) -> Self {
        PackError::Memory
    }
}

impl<T: Drop> From<AllocFailed<T>> for PackError {
    ghost use Rattle.std.specs.Prelude.{◌≡◌};
    ghost use Rattle.pk_packs.specs.declared.failures.PackError.TheVariants.{Memory};

    ghost from_gives = { λ _ e. e ≡ Memory };

    fn from(_e: AllocFailed<T>) -> Self {
        PackError::Memory
    }
}
