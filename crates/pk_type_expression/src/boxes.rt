// Values on the heap. These are generic, so that what is dropped where memory ends is one value to the prover, and not each variant of a tree.

ghost use Rattle.std.specs.Prelude.{◌≡◌, Some, IfOk, IfSome, option_map};
ghost use Rattle.pk_type_expression.specs.Typed.{of_both};

use std::alloc::{AllocError, Global};

fn boxed<T: Drop>(alloc: Global, value: T) -> Result<Box<T>, AllocError>
    ensures { IfOk result (λ b. b.value ≡ value) }
{
    Ok(Box::new(alloc, value)?)
}

/// Where there is one.
pub(crate) fn boxed_option<T: Drop>(
    alloc: Global,
    value: Option<T>,
) -> Result<Option<Box<T>>, AllocError>
    ensures { IfOk result (λ b. option_map (λ x. x.value) b ≡ value) }
{
    match value {
        None => Ok(None),
        Some(value) => Ok(Some(boxed(alloc, value)?)),
    }
}

/// Both, where both are there.
pub(crate) fn both<A: Drop, B: Drop>(first: Option<A>, second: Option<B>) -> Option<(A, B)>
    ensures both { result ≡ of_both (λ x y. (x, y)) first second }
    ensures first { IfSome result (λ r. first ≡ Some r.0) }
    ensures second { IfSome result (λ r. second ≡ Some r.1) }
{
    match first {
        None => None,
        Some(first) => match second {
            None => None,
            Some(second) => Some((first, second)),
        },
    }
}
