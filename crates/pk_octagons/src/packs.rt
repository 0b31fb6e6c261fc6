// The lists of variables that octagons are over.

ghost use Rattle.std.specs.Prelude.{◌≡◌, ◌<◌, ◌++◌, ◌∷◌, ◌^◌, ℕ, [], IfOk, OnOk, IfSome, length, replicate, slice_index_or, take};
ghost use Rattle.pk_octagons.specs.Packs.{chosen_at, place_in, IsPack, ArePacks, pack_at, with_place, places_from, places_of};

use std::alloc::{AllocError, Global};
use std::marker::Model;

/// The variables that an octagon is over, by their numbers.
#[derive(Drop)]
pub struct Pack {
    variables: Vec<usize>,
}

impl Model for Pack {
    ghost use Rattle.std.specs.Prelude.{ℕ, List};

    ghost Value = { List ℕ };

    ghost view = { λ p. p.variables.items };
}

impl Pack {
    /// A pack of these variables.
    pub fn new(variables: Vec<usize>) -> Pack
        ensures { result ≡ variables.items }
    {
        Pack { variables }
    }

    /// How many variables there are.
    pub fn len(&self) -> usize
        ensures { result ≡ length self.now }
    {
        self.variables.len()
    }

    /// The variable of a place.
    pub fn variable(&self, k: usize) -> usize
        requires { k < length self.now }
        ensures { result ≡ chosen_at self.now k }
    {
        self.variables[k]
    }

    /// The place of a variable, if it is in the pack.
    pub fn place(&self, x: usize) -> Option<usize>
        ensures value { result ≡ place_in self.now x }
        ensures there { IfSome result (λ k. k < length self.now) }
    {
        for k in 0..self.len() {
            if self.variable(k) == x {
                return Some(k);
            }
        }
        None
    }
}

/// A place in a pack.
#[derive(Clone, Copy)]
pub struct Place {
    pub pack: usize,
    pub place: u32,
}

// The places of a variable.
#[derive(Drop)]
struct Places {
    all: Vec<Place>,
}

impl Model for Places {
    ghost use Rattle.std.specs.Prelude.{List};
    ghost use Rattle.pk_octagons.specs.declared.packs.Place.{Place};

    ghost Value = { List Place };

    ghost view = { λ p. p.all.items };
}

impl Places {
    fn push(&mut self, place: Place) -> Result<(), AllocError>
        ensures { OnOk result (self.new ≡ self.old ++ place ∷ []) }
    {
        self.all.push(place)?;
        Ok(())
    }

    fn as_slice(&self) -> &[Place]
        ensures { result.now ≡ self.now }
    {
        self.all.as_slice()
    }
}

/// Packs, and the places of each variable in them.
#[derive(Drop)]
pub struct PlacedPacks {
    packs: Vec<Pack>,
    // Of each variable, by its number.
    places: Vec<Places>,
}

impl Model for PlacedPacks {
    ghost use Rattle.std.specs.Prelude.{◌≡◌, ◌<◌, ℕ, List, [], length, slice_index_or};
    ghost use Rattle.pk_octagons.specs.Packs.{ArePacks, places_of};

    ghost Value = { List (List ℕ) };

    ghost view = { λ p. p.packs.items };

    ghost invariant = { λ p. ArePacks (length p.places.items) p.packs.items
        × ((x : ℕ) → x < length p.places.items → slice_index_or p.places.items x [] ≡ places_of p.packs.items x) };
}

// No places of so many variables.
fn no_places(alloc: Global, count: usize) -> Result<Vec<Places>, AllocError>
    ensures { IfOk result (λ t. t.items ≡ replicate count []) }
{
    let mut table = Vec::with_capacity(alloc, count)?;
    for _ in 0..count {
        table.push(Places {
            all: Vec::new(alloc),
        })?;
    }
    Ok(table)
}

// Adds the places in one pack, behind those that each variable has.
fn add_places(table: &mut Vec<Places>, p: usize, pack: &Pack) -> Result<(), AllocError>
    requires { IsPack (length table.old.items) pack.now }
    ensures size { OnOk result (length table.new.items ≡ length table.old.items) }
    ensures value { OnOk result ((x : ℕ) → x < length table.old.items → slice_index_or table.new.items x []
        ≡ slice_index_or table.old.items x [] ++ with_place p (place_in pack.now x) []) }
{
    for k in 0..pack.len() {
        let x = pack.variable(k);
        table[x].push(Place {
            pack: p,
            place: k as u32,
        })?;
    }
    Ok(())
}

// The places of so many variables.
fn placed(alloc: Global, count: usize, packs: &[Pack]) -> Result<Vec<Places>, AllocError>
    requires { ArePacks count packs.now }
    ensures size { IfOk result (λ t. length t.items ≡ count) }
    ensures value { IfOk result (λ t. (x : ℕ) → x < count → slice_index_or t.items x [] ≡ places_of packs.now x) }
{
    let mut table = no_places(alloc, count)?;
    for p in 0..packs.len() {
        add_places(&mut table, p, &packs[p])?;
    }
    Ok(table)
}

impl PlacedPacks {
    ghost use Rattle.std.specs.Prelude.{◌↔◌, All, true};
    ghost use Rattle.pk_octagons.specs.Packs.{pack_at, is_chosen, IsPlaceOf};
    ghost use Rattle.pk_octagons.specs.Members.{IsChosen};

    /// Packs of variables of which there are so many.
    pub fn new(alloc: Global, count: usize, packs: Vec<Pack>) -> Result<PlacedPacks, AllocError>
        requires { ArePacks count packs.items }
        ensures { IfOk result (λ p. p ≡ packs.items) }
    {
        let places = placed(alloc, count, &packs)?;
        Ok(PlacedPacks { packs, places })
    }

    /// How many packs there are.
    pub fn count(&self) -> usize
        ensures { result ≡ length self.now }
    {
        self.packs.len()
    }

    /// A pack.
    pub fn pack(&self, p: usize) -> &Pack
        requires { p < length self.now }
        ensures value { result.now ≡ pack_at self.now p }
        ensures few { length result.now < 2 ^ 31 }
    {
        &self.packs[p]
    }

    /// The places of a variable, in the order of the packs.
    pub fn places(&self, x: usize) -> &[Place]
        ensures value { result.now ≡ places_of self.now x }
        ensures there { All (IsPlaceOf self.now x) result.now }
    {
        if x < self.places.len() {
            return self.places[x].as_slice();
        }
        &[]
    }

    /// Whether one of the packs has a variable.
    pub fn is_chosen(&self, x: usize) -> bool
        ensures value { result ≡ is_chosen self.now x }
        ensures there { result ≡ true ↔ IsChosen self.now x }
        ensures few { result ≡ true → x < 2 ^ 63 }
    {
        let _ = &self.places;
        !self.places(x).is_empty()
    }
}
