// How much the parts of functions make.

ghost use Rattle.std.specs.Prelude.{◌≡◌, None, slice_index_or, IfOk, OnOk};
ghost use Rattle.pk_typed.specs.Views.{unit_tree};
ghost use Rattle.pk_lower_row.specs.Contexts as contexts;
ghost use Rattle.pk_lower.specs.Parts as parts;

use crate::contexts::context;
use crate::parts::lower_part;
use pk_calls::Paths;
use pk_draft::{Draft, Size, no_region};
use pk_typed::Unit;
use std::alloc::{AllocError, Global};

const NO_SIZE: Size = Size {
    points: 0,
    variables: 0,
};

// How much a part of a function makes.
fn measured(
    alloc: Global,
    unit: &Unit,
    sizes: &[Option<Size>],
    function: usize,
) -> Result<Size, AllocError>
    ensures { IfOk result (λ size. size ≡ parts.measured (unit_tree unit.now) sizes.now function) }
{
    let mut draft = Draft::new(alloc);
    let context = context(alloc, unit, sizes, 0, 0, function);
    lower_part(&context, &mut draft, function, None, no_region())?;
    Ok(Size {
        points: draft.points(),
        variables: draft.variables(),
    })
}

// A function that has no size yet is measured.
fn measure(
    alloc: Global,
    unit: &Unit,
    sizes: &mut [Option<Size>],
    function: usize,
) -> Result<(), AllocError>
    ensures { OnOk result (sizes.new
        ≡ parts.with_size (unit_tree unit.now) function (slice_index_or sizes.old function None) sizes.old) }
{
    if function < sizes.len() {
        match sizes[function] {
            Some(_) => Ok(()),
            None => {
                sizes[function] = Some(measured(alloc, unit, sizes, function)?);
                Ok(())
            }
        }
    } else {
        Ok(())
    }
}

/// The sizes of the functions of call paths, from the last path backwards.
pub(crate) fn sizes(
    alloc: Global,
    unit: &Unit,
    paths: &Paths,
) -> Result<Vec<Option<Size>>, AllocError>
    ensures { IfOk result (λ sizes. sizes.items ≡ parts.sizes_of (unit_tree unit.now) paths.now) }
{
    let mut sizes = vec![in alloc; None; unit.functions.len()]?;
    for path in (0..paths.len()).rev() {
        measure(alloc, unit, &mut sizes, paths.path(path).function)?;
    }
    Ok(sizes)
}

fn size_in(sizes: &[Option<Size>], function: usize) -> Size
    ensures { result ≡ contexts.size_in sizes.now function }
{
    if function < sizes.len() {
        sizes[function].unwrap_or(NO_SIZE)
    } else {
        NO_SIZE
    }
}

/// The size of the entry's part, in which all others are.
pub(crate) fn whole_size(sizes: &[Option<Size>], paths: &Paths) -> Size
    ensures { result ≡ parts.whole_size sizes.now paths.now }
{
    if paths.len() == 0 {
        NO_SIZE
    } else {
        size_in(sizes, paths.path(0).function)
    }
}
