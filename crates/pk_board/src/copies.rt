// The copies of a run's cell.

ghost use Rattle.std.specs.Prelude.{◌≡◌, ◌<◌, IfOk};
ghost use Rattle.std.specs.Arc.{arc_value};

use std::alloc::{AllocError, Global};
use std::marker::Model;
use std::sync::Arc;

/// A cell of an element, once for each of its slots.
#[derive(Drop)]
pub struct Copies<C: Drop> {
    pub(crate) element: u32,
    pub(crate) first: Arc<C>,
    pub(crate) further: Vec<Arc<C>>,
}

impl<C: Drop> Model for Copies<C> {
    ghost use Rattle.std.specs.Prelude.{◌≡◌, ◌+◌, All, length};
    ghost use Rattle.std.specs.Arc.{arc_value};
    ghost use Rattle.pk_board.specs.Copies.{CopiesView};

    ghost Value = { CopiesView C };

    ghost view = { λ c. record { element = c.element; cell = arc_value c.first; count = length c.further.items + 1 } };

    ghost invariant = { λ c. All (λ x. arc_value x ≡ arc_value c.first) c.further.items };
}

/// So many copies of a cell.
pub fn copied<C: Drop>(
    alloc: Global,
    element: u32,
    cell: Arc<C>,
    count: usize,
) -> Result<Copies<C>, AllocError>
    requires { 0 < count }
    ensures { IfOk result (λ c. c ≡ record { element = element; cell = arc_value cell; count = count }) }
{
    let mut further = Vec::with_capacity(alloc, count - 1)?;
    for made in 1..count {
        further.push(cell.clone()?)?;
    }
    Ok(Copies {
        element,
        first: cell,
        further,
    })
}

impl<C: Drop> Copies<C> {
    /// The cell.
    pub(crate) fn cell(&self) -> Result<Arc<C>, AllocError>
        ensures { IfOk result (λ c. arc_value c ≡ self.now.cell) }
    {
        self.first.clone()
    }
}
