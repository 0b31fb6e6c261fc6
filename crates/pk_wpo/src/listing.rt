// The elements of a nest in the order of its brackets, and the components that they stand in.

ghost use Rattle.std.specs.Prelude.{◌≡◌, ◌≢◌, ℕ, ◌+◌, ◌*◌, ◌<◌, ◌^◌, ◌||◌, if◌then◌else◌, false, [], IfOk, All, length, map, reverse, take, filter, slice_index, slice_index_or};
ghost use Rattle.std.specs.List.{range_with_len, AllPairs};
ghost use Rattle.pk_plan.specs.NestPlaces.{nest_places};
ghost use Rattle.pk_wpo.specs.Constraints.{is_head};
ghost use Rattle.pk_wpo.specs.Walks.{first_of, walk_elements, walk_homes, HeadBelow, is_head_at};

use pk_plan::{Nest, NestPlace};
use std::alloc::{AllocError, Global};

/// The elements, and for each the innermost component that has it other than as its head.
#[derive(Drop)]
pub struct Listed {
    pub elements: Vec<u32>,
    pub homes: Vec<Option<u32>>,
}

/// Which vertices are heads.
pub fn heads(alloc: Global, nest: &Nest, vertices: u32) -> Result<Vec<bool>, AllocError>
    requires { All (HeadBelow vertices) (nest_places nest.now) }
    ensures { IfOk result (λ v. v.items ≡ map (is_head nest.now) (range_with_len 0 vertices)) }
{
    let mut heads = vec![in alloc; false; vertices as usize]?;
    for place in nest.places() {
        mark(&mut heads, *place);
    }
    Ok(heads)
}

/// Marks the head at a place.
fn mark(heads: &mut Vec<bool>, place: NestPlace)
    requires { HeadBelow (length heads.old.items) place }
    ensures long { length heads.new.items ≡ length heads.old.items }
    ensures marked { (v : ℕ) → v < length heads.old.items →
        slice_index_or heads.new.items v false ≡ (is_head_at v place || slice_index_or heads.old.items v false) }
{
    match place {
        NestPlace::Vertex(_) => {}
        NestPlace::Head(h) => heads[h as usize] = true,
        NestPlace::Exit => {}
    }
}

/// For each vertex the number of its exit, as if it were a head, and last the number after all exits.
pub fn exits(alloc: Global, heads: &[bool]) -> Result<Vec<u32>, AllocError>
    requires { length heads.now < 2 ^ 31 }
    ensures { IfOk result
        (λ v. v.items ≡ map (λ k. length heads.now + length (filter (λ head. head) (take k heads.now)))
        (range_with_len 0 (length heads.now + 1))) }
{
    let mut exits = Vec::new(alloc);
    let mut next = heads.len() as u32;
    for head in heads {
        exits.push(next)?;
        next += one_if(*head);
    }
    exits.push(next)?;
    Ok(exits)
}

fn one_if(yes: bool) -> u32
    ensures { result ≡ (if yes then 1 else 0) }
{
    if yes { 1 } else { 0 }
}

/// Walks through the places with the heads of the components that are open.
pub fn walked(alloc: Global, nest: &Nest, exits: &[u32]) -> Result<Listed, AllocError>
    requires { All (HeadBelow (length exits.now)) (nest_places nest.now) }
    ensures elements { IfOk result
        (λ it. it.elements.items ≡ walk_elements (slice_index exits.now) (nest_places nest.now) []) }
    ensures homes { IfOk result (λ it. it.homes.items ≡ walk_homes (nest_places nest.now) []) }
{
    let mut elements = Vec::new(alloc);
    let mut homes = Vec::new(alloc);
    let mut opened = Vec::new(alloc);
    for place in nest.places() {
        match place {
            NestPlace::Vertex(v) => {
                elements.push(*v)?;
                homes.push(innermost(&opened))?;
            }
            NestPlace::Head(h) => {
                elements.push(*h)?;
                homes.push(innermost(&opened))?;
                opened.push(*h)?;
            }
            NestPlace::Exit => {
                if let Some(h) = opened.pop() {
                    elements.push(exits[h as usize])?;
                    homes.push(innermost(&opened))?;
                }
            }
        }
    }
    Ok(Listed { elements, homes })
}

/// The head of the innermost component that is open.
fn innermost(opened: &[u32]) -> Option<u32>
    ensures { result ≡ first_of (reverse opened.now) }
{
    opened.last().copied()
}

/// Where each element stands in a list that has each once.
pub fn places(alloc: Global, elements: &[u32]) -> Result<Vec<u32>, AllocError>
    requires few { length elements.now < 2 ^ 32 }
    requires within { All (λ e. e < length elements.now) elements.now }
    requires once { AllPairs (λ a b. a ≢ b) elements.now }
    ensures as_many { IfOk result (λ v. length v.items ≡ length elements.now) }
    ensures place { IfOk result
        (λ v. (k : ℕ) → k < length elements.now → slice_index v.items (slice_index elements.now k) ≡ k) }
{
    let mut places = vec![in alloc; 0u32; elements.len()]?;
    for (place, e) in elements.iter().enumerate() {
        places[*e as usize] = place as u32;
    }
    Ok(places)
}
