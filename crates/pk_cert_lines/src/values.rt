// The numbers of the values, and the octagon's bounds.

ghost use Rattle.std.specs.Prelude.{◌≡◌, ◌++◌, ◌<◌, ◌^◌, OnOk, length, None};
ghost use Rattle.pk_state.specs.Changes.{known_in};
ghost use Rattle.pk_cert_states.specs.Lines.{own_pack, HasOne};
ghost use Rattle.pk_cert_lines.specs.Symbols.{spaced, four_in, cells_in};

use crate::symbols::{write_symbol, write_value};
use pk_state::State;
use std::alloc::AllocError;

/// Writes the numbers of a slot's value.
pub(crate) fn write_one(bytes: &mut Vec<u8>, state: &State, j: usize) -> Result<(), AllocError>
    requires { j < length state.now.layout.types }
    ensures { OnOk result (bytes.new.items ≡ bytes.old.items ++ spaced (four_in (known_in state.now.facts j))) }
{
    match state.value(j) {
        None => Ok(()),
        Some(value) => write_value(bytes, &value),
    }
}

/// Writes the octagon's bounds, row by row.
pub(crate) fn write_bounds(bytes: &mut Vec<u8>, state: &State, n: u32) -> Result<(), AllocError>
    requires few { n < 2 ^ 31 }
    requires one { HasOne state.now.layout }
    requires size { length (own_pack state.now.layout) ≡ n }
    requires some { state.now.facts ≡ None → ⊥ }
    ensures { OnOk result (bytes.new.items ≡ bytes.old.items ++ spaced (cells_in state.now.facts)) }
{
    state.is_stated();
    for i in 0..2 * n {
        for j in 0..2 * n {
            write_symbol(bytes, state.entry(0, i, j))?;
        }
    }
    Ok(())
}
