// What a slot of a board has.

use std::sync::Arc;

/// An element's cell, shared; nothing any more, where it was let go of; or what is kept of an item.
#[derive(Drop)]
pub enum Slot<C: Drop, P: Drop> {
    Cell(Arc<C>),
    Gone,
    Part(Box<P>),
}
