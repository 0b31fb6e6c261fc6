// What a board has that lets go of cells: the items of its plan, who reads each slot, and room for the items' parts.

ghost use Rattle.std.specs.Prelude.{◌≡◌, ◌++◌, ◌∷◌, [], ◌<◌, IfOk, length, slice_index, true};
ghost use Rattle.pk_layout.specs.Layouts.{IsLaidOut};
ghost use Rattle.pk_board.specs.Lean.{AreReaders, HasItems};

use pk_items::tops;
use pk_iterate::System;
use pk_layout::Layout;
use pk_plan::Plan;
use std::alloc::{AllocError, Global};
use std::marker::Model;

/// The last element of each element's item, the reader of each slot, and the parts with room for more. A board that keeps its cells
/// has none of them.
#[derive(Drop)]
pub struct Lean<P: Drop> {
    tops: Vec<u32>,
    readers: Vec<u32>,
    parts: Vec<P>,
    room: u32,
}

impl<P: Drop> Model for Lean<P> {
    ghost use Rattle.std.specs.Prelude.{◌≤◌, vec_capacity};
    ghost use Rattle.pk_board.specs.Lean.{LeanView};

    ghost Value = { LeanView P };

    ghost view = { λ l. record { tops = l.tops.items; readers = l.readers.items; parts = l.parts.items; room = l.room } };

    ghost invariant = { λ l. l.room ≤ vec_capacity l.parts };
}

// Which element reads each slot.
fn readers<Y: System>(
    alloc: Global,
    system: &Y,
    elements: u32,
    layout: &Layout,
) -> Result<Vec<u32>, AllocError>
    requires { IsLaidOut (Y.meaning system.now) elements layout.now }
    ensures { IfOk result (λ v. AreReaders layout.now v.items) }
{
    let mut readers = vec![in alloc; 0; layout.first_slot(elements)]?;
    for e in 0..elements {
        readers[layout.first_slot(e)] = e;
        for place in 0..system.reads(e).len() {
            readers[layout.input_slot(e, place)] = e;
        }
    }
    Ok(readers)
}

impl<P: Drop> Lean<P> {
    /// That of a board that lets go of cells, or of one that keeps them.
    pub fn of<Y: System>(
        alloc: Global,
        system: &Y,
        plan: &Plan,
        layout: &Layout,
        lean: bool,
    ) -> Result<Lean<P>, AllocError>
        requires { IsLaidOut (Y.meaning system.now) plan.now.elements layout.now }
        ensures { lean ≡ true → IfOk result (HasItems plan.now layout.now) }
    {
        if !lean {
            return Ok(Lean {
                tops: Vec::new(alloc),
                readers: Vec::new(alloc),
                parts: Vec::new(alloc),
                room: 0,
            });
        }
        let tops = tops(alloc, plan)?;
        let readers = readers(alloc, system, plan.elements(), layout)?;
        let parts = Vec::with_capacity(alloc, plan.elements() as usize)?;
        Ok(Lean {
            tops,
            readers,
            parts,
            room: plan.elements(),
        })
    }

    /// The last element of an element's item.
    pub fn top(&self, e: u32) -> u32
        requires { e < length self.now.tops }
        ensures { result ≡ slice_index self.now.tops e }
    {
        self.tops[e as usize]
    }

    /// The last element of the item whose element reads a slot.
    pub fn top_at(&self, slot: usize) -> u32
        requires slot { slot < length self.now.readers }
        requires reader { slice_index self.now.readers slot < length self.now.tops }
        ensures { result ≡ slice_index self.now.tops (slice_index self.now.readers slot) }
    {
        self.top(self.readers[slot])
    }

    /// One part more.
    pub fn add(&mut self, part: P)
        requires { length self.old.parts < self.old.room }
        ensures { self.new ≡ record {
          tops = self.old.tops;
          readers = self.old.readers;
          parts = self.old.parts ++ part ∷ [];
          room = self.old.room;
        } }
    {
        self.parts.push_reserved(part);
    }

    /// All of them.
    pub fn into_parts(self) -> Vec<P>
        ensures { result.items ≡ self.parts }
    {
        let Lean {
            tops: _,
            readers: _,
            parts,
            room: _,
        } = self;
        parts
    }
}
