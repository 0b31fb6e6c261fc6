// The slots of a board.

ghost use Rattle.std.specs.Prelude.{◌≡◌, ◌+◌, ◌<◌, IfOk, length, slice_index};
ghost use Rattle.pk_iterate.specs.Behaviour.{ReadsWithin};
ghost use Rattle.pk_layout.specs.Layouts.{IsLaidOut, first_of, input_of};

use crate::gathering::{counted, gather, own_slots};
use crate::giving::give;
use pk_iterate::System;
use std::alloc::{AllocError, Global};
use std::marker::Model;

/// The slots of a board's elements. Each element has one for its own cell, the first, and one for each time that an element reads
/// that cell.
#[derive(Drop)]
pub struct Layout {
    first: Vec<usize>,
    inputs: Vec<usize>,
    inputs_from: Vec<usize>,
}

impl Model for Layout {
    ghost use Rattle.pk_layout.specs.Layouts.{LayoutView, laid};

    ghost Value = { LayoutView };

    ghost view = { λ l. laid l.first.items l.inputs.items l.inputs_from.items };
}

impl Layout {
    /// The slots of so many elements, in time and memory linear in elements and reads.
    pub fn new<Y: System>(alloc: Global, system: &Y, elements: u32) -> Result<Layout, AllocError>
        requires { ReadsWithin (Y.meaning system.now) elements }
        ensures { IfOk result (IsLaidOut (Y.meaning system.now) elements) }
    {
        let reads = gather(alloc, system, elements)?;
        let counts = counted(alloc, &reads.targets, elements)?;
        let first = own_slots(alloc, &counts)?;
        let inputs = give(alloc, &first, &reads.targets)?;
        Ok(Layout {
            first,
            inputs,
            inputs_from: reads.from,
        })
    }

    /// The first slot of an element, and for the number of elements how many slots there are.
    pub fn first_slot(&self, e: u32) -> usize
        requires { e < length self.now.first }
        ensures { result ≡ first_of self.now e }
    {
        self.first[e as usize]
    }

    /// The slot of the cell that an element reads at a place.
    pub fn input_slot(&self, e: u32, place: usize) -> usize
        requires element { e < length self.now.inputs_from }
        requires place { slice_index self.now.inputs_from e + place < length self.now.inputs }
        ensures { result ≡ input_of self.now e place }
    {
        let from = self.inputs_from[e as usize];
        self.inputs[from + place]
    }
}
