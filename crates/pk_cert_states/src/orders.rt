// The order in which a line tells the slots.

ghost use Rattle.std.specs.Prelude.{◌≡◌, ◌+◌, ◌++◌, ◌<◌, ◌^◌, ℕ, IfOk, OnOk, length};
ghost use Rattle.std.specs.List.{range_with_len};
ghost use Rattle.pk_graph.specs.Graphs.{variable_view, kinds_of};
ghost use Rattle.pk_graph.specs.Shown.{graph_view};
ghost use Rattle.pk_transfer.specs.Slots.{further_count as count_of, slot_types};
ghost use Rattle.pk_transfer.specs.Graphs.{layout_of};
ghost use Rattle.pk_cert_states.specs.Lines.{scalar_slot, array_slots, scalars_from, arrays_from, line_slots};
ghost use Rattle.pk_cert_states.specs.Parts.{kinds_in, slot_at, IsOrder, ArePlaces};

use pk_graph::{Graph, Variable};
use pk_state::Frame;
use pk_transfer::further_count;
use std::alloc::{AllocError, Global};
use std::marker::Model;

/// The slots of a graph's variables in the order of a line, and the place of each.
#[derive(Drop)]
pub struct Order {
    slots: Vec<usize>,
    places: Vec<usize>,
}

impl Model for Order {
    ghost use Rattle.std.specs.Prelude.{ℕ, List};
    ghost use Rattle.pk_cert_states.specs.Parts.{IsOrder, ArePlaces};

    ghost Value = { List ℕ };

    ghost view = { λ o. o.slots.items };

    ghost invariant = { λ o. IsOrder o.slots.items × ArePlaces o.slots.items o.places.items };
}

// Adds a variable's slot, if it is a scalar.
#[tactic(auto, unfolding(pk_graph::specs::Graphs::variable_view))]
fn add_scalar(slots: &mut Vec<usize>, variable: &Variable, x: usize) -> Result<(), AllocError>
    ensures { OnOk result (slots.new.items
        ≡ slots.old.items ++ scalar_slot (variable_view variable.now).kind.length x) }
{
    if variable.length.is_none() {
        slots.push(x)?;
    }
    Ok(())
}

// Adds the scalars' slots.
fn add_scalars(slots: &mut Vec<usize>, variables: &[Variable]) -> Result<(), AllocError>
    ensures { OnOk result (slots.new.items ≡ slots.old.items ++ scalars_from 0 (kinds_in variables.now)) }
{
    for x in 0..variables.len() {
        add_scalar(slots, &variables[x], x)?;
    }
    Ok(())
}

// Adds slots that stand one behind another.
fn add_range(slots: &mut Vec<usize>, first: usize, count: usize) -> Result<(), AllocError>
    requires { first + count < 2 ^ 64 }
    ensures { OnOk result (slots.new.items ≡ slots.old.items ++ range_with_len first count) }
{
    for k in 0..count {
        slots.push(first + k)?;
    }
    Ok(())
}

// Adds a variable's slots, if it is an array, and answers where the further ones of the next begin.
#[tactic(auto, unfolding(pk_graph::specs::Graphs::variable_view))]
fn add_array(
    slots: &mut Vec<usize>,
    variable: &Variable,
    x: usize,
    further: usize,
) -> Result<usize, AllocError>
    requires room { further + count_of (variable_view variable.now).kind.length < 2 ^ 64 }
    ensures slots { OnOk result (slots.new.items
        ≡ slots.old.items ++ array_slots (variable_view variable.now).kind.length x further) }
    ensures next { IfOk result (λ n. n ≡ further + count_of (variable_view variable.now).kind.length) }
{
    let count = further_count(variable.length);
    if variable.length.is_some() {
        slots.push(x)?;
        add_range(slots, further, count)?;
    }
    Ok(further + count)
}

// Adds the arrays' slots, where there are so many slots in all.
fn add_arrays(
    slots: &mut Vec<usize>,
    variables: &[Variable],
    total: usize,
) -> Result<(), AllocError>
    requires { length (slot_types (kinds_in variables.now)) ≡ total }
    ensures { OnOk result (slots.new.items
        ≡ slots.old.items ++ arrays_from 0 (length variables.now) (kinds_in variables.now)) }
{
    let mut further = variables.len();
    for x in 0..variables.len() {
        further = add_array(slots, &variables[x], x, further)?;
    }
    Ok(())
}

// The place of each slot.
fn places_of(alloc: Global, slots: &[usize]) -> Result<Vec<usize>, AllocError>
    requires { IsOrder slots.now }
    ensures { IfOk result (λ v. ArePlaces slots.now v.items) }
{
    let mut places = Vec::with_capacity(alloc, slots.len())?;
    for _ in 0..slots.len() {
        places.push(0)?;
    }
    for p in 0..slots.len() {
        places[slots[p]] = p;
    }
    Ok(places)
}

impl Order {
    /// That of a graph's lines.
    pub fn new(alloc: Global, graph: &Graph, frame: &Frame) -> Result<Order, AllocError>
        requires { (oct : ℕ) × (frame.now ≡ layout_of (graph_view graph.now) oct) }
        ensures { IfOk result (λ o. o ≡ line_slots (kinds_of (graph_view graph.now))) }
    {
        let variables = graph.variables();
        let mut slots = Vec::with_capacity(alloc, frame.len())?;
        add_scalars(&mut slots, variables)?;
        add_arrays(&mut slots, variables, frame.len())?;
        let places = places_of(alloc, &slots)?;
        Ok(Order { slots, places })
    }

    /// How many slots there are.
    pub fn len(&self) -> usize
        ensures { result ≡ length self.now }
    {
        self.slots.len()
    }

    /// The slot at a place.
    pub fn slot(&self, p: usize) -> usize
        requires { p < length self.now }
        ensures value { result ≡ slot_at self.now p }
        ensures there { result < length self.now }
    {
        self.is_order();
        self.slots[p]
    }

    /// The place of a slot.
    pub fn place(&self, j: usize) -> usize
        requires { j < length self.now }
        ensures value { slot_at self.now result ≡ j }
        ensures there { result < length self.now }
    {
        self.places[j]
    }

    /// What every order is: each slot stands at one place.
    pub fn is_order(&self)
        ensures { IsOrder self.now }
    {
        let _ = &self.slots;
    }
}
