// Values on the heap. These are generic, so that what is dropped where memory ends is one value to the prover, and not each variant of a tree.

ghost use Rattle.std.specs.Prelude.{◌≡◌, option_map, IfOk};

use std::alloc::{AllocError, Global};

pub(crate) fn boxed<T: Drop>(alloc: Global, value: Option<T>) -> Result<Option<Box<T>>, AllocError>
    ensures { IfOk result (λ b. option_map (λ x. x.value) b ≡ value) }
{
    match value {
        None => Ok(None),
        Some(value) => {
            let value = Box::new(alloc, value)?;
            Ok(Some(value))
        }
    }
}

pub(crate) fn unboxed<T: Drop>(value: Option<Box<T>>) -> Option<T>
    ensures { result ≡ option_map (λ x. x.value) value }
{
    match value {
        None => None,
        Some(value) => Some(Box::into_inner(value)),
    }
}
