// Values on the heap. These are generic, so that what is dropped where memory ends is one value to the prover, and not each variant of a tree.

ghost use Rattle.std.specs.Prelude.{◌≡◌, IfOk};
ghost use Rattle.pk_ast.specs.Views.{unboxed};

use std::alloc::{AllocError, Global};

pub(crate) fn boxed<T: Drop>(alloc: Global, value: T) -> Result<Box<T>, AllocError>
    ensures { IfOk result (λ b. b.value ≡ value) }
{
    Ok(Box::new(alloc, value)?)
}

/// On the heap, where there is one.
pub(crate) fn boxed_if_some<T: Drop>(
    alloc: Global,
    value: Option<T>,
) -> Result<Option<Box<T>>, AllocError>
    ensures { IfOk result (λ b. unboxed b ≡ value) }
{
    match value {
        None => Ok(None),
        Some(value) => {
            let value = Box::new(alloc, value)?;
            Ok(Some(value))
        }
    }
}

pub(crate) fn both_boxed<A: Drop, B: Drop>(
    alloc: Global,
    first: A,
    second: B,
) -> Result<(Box<A>, Box<B>), AllocError>
    ensures first { IfOk result (λ r. r.0.value ≡ first) }
    ensures second { IfOk result (λ r. r.1.value ≡ second) }
{
    let first = Box::new(alloc, first)?;
    let second = Box::new(alloc, second)?;
    Ok((first, second))
}

/// The second on the heap, the first as it is.
pub(crate) fn boxed_beside<A: Drop, B: Drop>(
    alloc: Global,
    first: A,
    second: B,
) -> Result<(A, Box<B>), AllocError>
    ensures first { IfOk result (λ r. r.0 ≡ first) }
    ensures second { IfOk result (λ r. r.1.value ≡ second) }
{
    let second = Box::new(alloc, second)?;
    Ok((first, second))
}

pub(crate) fn all_boxed<A: Drop, B: Drop, C: Drop>(
    alloc: Global,
    first: A,
    second: B,
    third: C,
) -> Result<(Box<A>, Box<B>, Box<C>), AllocError>
    ensures first { IfOk result (λ r. r.0.value ≡ first) }
    ensures second { IfOk result (λ r. r.1.value ≡ second) }
    ensures third { IfOk result (λ r. r.2.value ≡ third) }
{
    let first = Box::new(alloc, first)?;
    let second = Box::new(alloc, second)?;
    let third = Box::new(alloc, third)?;
    Ok((first, second, third))
}
