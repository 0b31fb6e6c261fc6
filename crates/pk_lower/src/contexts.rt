// What the lowering of a path's part looks up.

ghost use Rattle.std.specs.Prelude.{◌≡◌, map};
ghost use Rattle.pk_typed.specs.Views.{unit_tree, local_tree};
ghost use Rattle.pk_lower_row.specs.Views.{context_in};
ghost use Rattle.pk_lower.specs.Parts as parts;

use pk_calls::body;
use pk_ctypes::IntType;
use pk_draft::Size;
use pk_lower_row::Context;
use pk_typed::{Local, Unit};
use std::alloc::Global;

// The function's objects, none where it has no body.
fn locals(unit: &Unit, function: usize) -> &[Local]
    ensures { map local_tree result.now ≡ (parts.body_at (unit_tree unit.now) function).locals }
{
    match body(unit, function) {
        Some(body) => body.locals.as_slice(),
        None => &[],
    }
}

// The type that the function returns.
fn returns(unit: &Unit, function: usize) -> Option<IntType>
    ensures { result ≡ (parts.function_at (unit_tree unit.now) function).returns }
{
    if function < unit.functions.len() {
        unit.functions[function].returns
    } else {
        None
    }
}

/// Of a path of a function, whose first call leads to the path `first`.
pub(crate) fn context<'a>(
    alloc: Global,
    unit: &'a Unit,
    sizes: &'a [Option<Size>],
    path: usize,
    first: usize,
    function: usize,
) -> Context<'a>
    ensures { context_in result ≡ parts.context (unit_tree unit.now) sizes.now path first function }
{
    Context {
        alloc,
        unit,
        path,
        first,
        locals: locals(unit, function),
        returns: returns(unit, function),
        sizes,
    }
}
