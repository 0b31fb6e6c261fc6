// The variables that a state speaks of.

ghost use Rattle.std.specs.Prelude.{◌≡◌, ◌<◌, length, IfOk};
ghost use Rattle.pk_octagons.specs.Values.{type_at};
ghost use Rattle.pk_state.specs.Layouts.{Layout, IsLayout, is_spread, slot_of};

use pk_ctypes::IntType;
use pk_octagons::{Pack, PlacedPacks};
use std::alloc::{AllocError, Global};
use std::marker::Model;

/// The type of each slot, the variables that each octagon is over, and of each variable whose numbers have a slot each where those
/// behind the first begin. States share it.
#[derive(Drop)]
pub struct Frame {
    types: Vec<IntType>,
    packs: PlacedPacks,
    further: Vec<Option<usize>>,
}

impl Model for Frame {
    ghost use Rattle.pk_state.specs.Layouts.{Layout, IsLayout};

    ghost Value = { Layout };

    ghost view = { λ f. record { types = f.types.items; packs = f.packs; further = f.further.items } };

    ghost invariant = { λ f. IsLayout (record { types = f.types.items; packs = f.packs; further = f.further.items }) };
}

impl Frame {
    /// The types of the slots by number, the numbers of the variables that each octagon is over, and of each variable whose
    /// numbers have a slot each where those behind the first begin.
    pub fn new(
        alloc: Global,
        types: Vec<IntType>,
        packs: Vec<Pack>,
        further: Vec<Option<usize>>,
    ) -> Result<Frame, AllocError>
        requires { IsLayout (record { types = types.items; packs = packs.items; further = further.items }) }
        ensures { IfOk result
            (λ f. f ≡ record { types = types.items; packs = packs.items; further = further.items }) }
    {
        let packs = PlacedPacks::new(alloc, types.len(), packs)?;
        Ok(Frame {
            types,
            packs,
            further,
        })
    }

    /// How many slots there are.
    pub fn len(&self) -> usize
        ensures { result ≡ length self.now.types }
    {
        self.types.len()
    }

    /// The variables that each octagon is over, and the places of each variable.
    pub fn packs(&self) -> &PlacedPacks
        ensures { result.now ≡ self.now.packs }
    {
        &self.packs
    }

    /// Whether each number of a variable has a slot.
    pub fn is_spread(&self, x: usize) -> bool
        requires { x < length self.now.further }
        ensures { result ≡ is_spread self.now x }
    {
        self.further[x].is_some()
    }

    /// The slot of a variable's number i.
    pub fn slot(&self, x: usize, i: usize) -> usize
        requires variable { x < length self.now.further }
        requires there { slot_of self.now x i < length self.now.types }
        ensures { result ≡ slot_of self.now x i }
    {
        match self.further[x] {
            None => x,
            Some(first) => { if i == 0 { x } else { first + (i - 1) } }
        }
    }

    /// The type of a slot.
    pub fn int_type(&self, x: usize) -> IntType
        requires { x < length self.now.types }
        ensures { result ≡ type_at self.now.types x }
    {
        self.types[x]
    }

    /// What every frame is: the octagons' variables are there, each once in each, and their places are counted in 32 bits.
    pub fn is_layout(&self)
        ensures { IsLayout self.now }
    {
        let _ = &self.packs;
    }
}
