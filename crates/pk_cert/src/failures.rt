// Why no certificate is read.

use std::alloc::{AllocError, AllocFailed};

/// The first byte with which no certificate begins, or want of memory.
#[derive(Drop)]
pub enum Unread {
    Byte(usize),
    Memory,
}

impl From<AllocError> for Unread {
    ghost use Rattle.std.specs.Prelude.{◌≡◌};
    ghost use Rattle.pk_cert.specs.declared.failures.Unread.TheVariants.{Memory};

    ghost from_gives = { λ _ e. e ≡ Memory };

    fn from(_e: AllocError) -> Self {
        Unread::Memory
    }
}

impl<T: Drop> From<AllocFailed<T>> for Unread {
    ghost use Rattle.std.specs.Prelude.{◌≡◌};
    ghost use Rattle.pk_cert.specs.declared.failures.Unread.TheVariants.{Memory};

    ghost from_gives = { λ _ e. e ≡ Memory };

    fn from(_e: AllocFailed<T>) -> Self {
        Unread::Memory
    }
}
