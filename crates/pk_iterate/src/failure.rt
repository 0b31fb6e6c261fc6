// How an iteration fails.

ghost use Rattle.std.specs.Prelude.{◌≡◌};

use std::alloc::AllocError;

/// An element would be run once too often, or memory was refused.
#[derive(Clone, Copy)]
pub enum Solve {
    RunLimit { element: u32, run: u64 },
    Memory,
}

impl From<AllocError> for Solve {
    ghost use Rattle.pk_iterate.specs.declared.failure.Solve.TheVariants.{Memory};

    ghost from_gives = { λ _ e. e ≡ Memory };

    fn from(_e: AllocError) -> Solve {
        Solve::Memory
    }
}
