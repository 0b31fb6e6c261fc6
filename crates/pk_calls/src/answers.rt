// The answer about a unit and an entry.

ghost use Rattle.pk_typed.specs.Views.{unit_tree};
ghost use Rattle.pk_calls.specs.Answers.{IsAnswer};

use crate::failures::CallError;
use crate::functions::entry;
use crate::listings::{Paths, listed};
use crate::walk::walk;
use pk_ctypes::{Name, Quantity};
use pk_typed::Unit;
use std::alloc::Global;

// The greatest number of call paths, and of variables over all of them.
const PATH_LIMIT: u64 = 4096;

const VARIABLE_LIMIT: u64 = 65536;

/// The call paths of a unit from the first function of a name that has a body.
pub fn paths(alloc: Global, unit: &Unit, name: &str) -> Result<Paths, CallError>
    ensures { IsAnswer (unit_tree unit.now) name.now result }
{
    let Some(entry) = entry(unit, name) else {
        return Err(CallError::NoEntry {
            name: Name::new(alloc, name.as_bytes())?,
        });
    };
    let counts = walk(alloc, unit, entry)?;
    if counts.paths > PATH_LIMIT {
        return Err(CallError::Limit {
            what: Quantity::Paths,
            number: PATH_LIMIT,
        });
    }
    if counts.variables.saturating_add(unit.objects.len() as u64) > VARIABLE_LIMIT {
        return Err(CallError::Limit {
            what: Quantity::Variables,
            number: VARIABLE_LIMIT,
        });
    }
    Ok(listed(alloc, unit, entry, counts)?)
}
