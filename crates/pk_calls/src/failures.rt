// Why a unit has no call paths.

use pk_ctypes::{Name, Names, Pos, Quantity};
use std::alloc::{AllocError, AllocFailed};

/// Why a unit has no call paths from an entry.
#[derive(Drop)]
pub enum CallError {
    /// No function of the name has a body.
    NoEntry { name: Name },
    /// A function that leads to a call of itself: the names from it to itself.
    Recursion { cycle: Names },
    /// A call of a function without a body.
    UndefinedCall { name: Name, at: Pos },
    /// A limit that is passed, and its number.
    Limit { what: Quantity, number: u64 },
    Memory,
}

impl From<AllocError> for CallError {
    ghost use Rattle.std.specs.Prelude.{◌≡◌};
    ghost use Rattle.pk_calls.specs.declared.failures.CallError.TheVariants.{Memory};

    ghost from_gives = { λ _ e. e ≡ Memory };

    fn from(_e: AllocError) -> Self {
        CallError::Memory
    }
}

impl<T: Drop> From<AllocFailed<T>> for CallError {
    ghost use Rattle.std.specs.Prelude.{◌≡◌};
    ghost use Rattle.pk_calls.specs.declared.failures.CallError.TheVariants.{Memory};

    ghost from_gives = { λ _ e. e ≡ Memory };

    fn from(_e: AllocFailed<T>) -> Self {
        CallError::Memory
    }
}
