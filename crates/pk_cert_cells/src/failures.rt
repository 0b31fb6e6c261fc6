// Why no certificate is written, or none is read.

use std::alloc::AllocError;

/// The certificate would have more than 67108864 bytes, or want of memory.
#[derive(Clone, Copy)]
pub enum Unwritten {
    Limit,
    Memory,
}

impl From<AllocError> for Unwritten {
    ghost use Rattle.std.specs.Prelude.{◌≡◌};
    ghost use Rattle.pk_cert_cells.specs.declared.failures.Unwritten.TheVariants.{Memory};

    ghost from_gives = { λ _ e. e ≡ Memory };

    fn from(_e: AllocError) -> Self {
        Unwritten::Memory
    }
}

/// The first byte with which no certificate goes on, the first point whose line is that of no state, or want of memory.
#[derive(Clone, Copy)]
pub enum Unfit {
    Byte(usize),
    State(usize),
    Memory,
}

impl From<AllocError> for Unfit {
    ghost use Rattle.std.specs.Prelude.{◌≡◌};
    ghost use Rattle.pk_cert_cells.specs.declared.failures.Unfit.TheVariants.{Memory};

    ghost from_gives = { λ _ e. e ≡ Memory };

    fn from(_e: AllocError) -> Self {
        Unfit::Memory
    }
}
