// Why tokens have no tree.

use pk_ctypes::{Construct, Pos};
use std::alloc::{AllocError, AllocFailed};

/// Why a list of tokens has no tree.
#[derive(Clone, Copy, Debug, PartialEq, Eq)]
pub enum ParseError {
    /// The first token that is a construct of C which isn't analysed, anywhere in the text.
    Unsupported { construct: Construct, at: Pos },
    /// The first token with which no text of the grammar goes on.
    Syntax { at: Pos },
    /// The first token that is nested too deep.
    Nesting { at: Pos },
    Memory,
}

impl From<AllocError> for ParseError {
    ghost use Rattle.std.specs.Prelude.{◌≡◌};
    ghost use Rattle.pk_grammar.specs.declared.failure.ParseError.TheVariants.{Memory};

    ghost from_gives = { λ _ e. e ≡ Memory };

    fn from(_e: AllocError) -> Self {
        ParseError::Memory
    }
}

impl<T: Drop> From<AllocFailed<T>> for ParseError {
    ghost use Rattle.std.specs.Prelude.{◌≡◌};
    ghost use Rattle.pk_grammar.specs.declared.failure.ParseError.TheVariants.{Memory};

    ghost from_gives = { λ _ e. e ≡ Memory };

    fn from(_e: AllocFailed<T>) -> Self {
        ParseError::Memory
    }
}
