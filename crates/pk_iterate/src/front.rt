// The cells of a system while it is iterated, one for each element, how often each element was run, and which cells are up to date.

ghost use Rattle.std.specs.Prelude.{◌≡◌, ◌+◌, ◌-◌, ◌^◌, ◌<◌, true, map, IfOk, IfSome, OnOk, length, All, slice_get, slice_set, slice_index};
ghost use Rattle.std.specs.Arc.{arc_value};
ghost use Rattle.std.specs.List.{filter_map, range_with_len};
ghost use Rattle.pk_iterate.specs.Behaviour.{HoldEach, inputs_in, cell_made, goes_back, is_applied};
ghost use Rattle.pk_iterate.specs.Times.{AreTimes};

use crate::systems::{Decision, System};
use crate::times::{Times, first_times};
use pk_plan::{Place, Role};
use std::alloc::{AllocError, Global};
use std::sync::Arc;

/// The cells and the numbers of runs, by element, and the times of the cells.
#[derive(Drop)]
pub struct Front<C> {
    pub cells: Vec<Arc<C>>,
    pub runs: Vec<u64>,
    pub times: Times,
}

/// The first cells, with no run.
pub fn first_front<Y: System>(
    alloc: Global,
    system: &Y,
    elements: u32,
) -> Result<Front<Y::Cell>, AllocError>
    ensures cells { IfOk result
        (λ it. map arc_value it.cells.items ≡ map (Y.meaning system.now).first (range_with_len 0 elements)) }
    ensures runs { IfOk result (λ it. it.runs.items ≡ map (λ _. 0) (range_with_len 0 elements)) }
    ensures times { IfOk result (λ it. AreTimes (Y.meaning system.now) (map arc_value it.cells.items)
        it.times.changed.items it.times.made.items it.times.clock) }
{
    let times = first_times(alloc, elements)?;
    let mut cells = Vec::new(alloc);
    let mut runs = Vec::new(alloc);
    for e in 0..elements {
        let cell = system.first(alloc, e)?;
        cells.push(Arc::new(alloc, cell)?)?;
        runs.push(0)?;
    }
    Ok(Front { cells, runs, times })
}

/// Runs the element of a place once, and says whether its component is gone through again. A cell that is up to date stays: its
/// run is counted, and computes nothing. The vector of inputs, which is empty between runs, is there so that none is made for each.
pub fn run_place<Y: System>(
    alloc: Global,
    system: &Y,
    front: &mut Front<Y::Cell>,
    inputs: &mut Vec<Arc<Y::Cell>>,
    place: Place,
) -> Result<bool, AllocError>
    requires element { place.element < length front.old.cells.items }
    requires counted { length front.old.runs.items ≡ length front.old.cells.items }
    requires reads { All (λ u. u < length front.old.cells.items) ((Y.meaning system.now).reads place.element) }
    requires held { HoldEach (Y.may_hold system.now) ((Y.meaning system.now).reads place.element)
        (inputs_in (Y.meaning system.now) (map arc_value front.old.cells.items) place.element) }
    requires own { IfSome (slice_get (map arc_value front.old.cells.items) place.element)
        (Y.may_hold system.now place.element) }
    requires times { AreTimes (Y.meaning system.now) (map arc_value front.old.cells.items)
        front.old.times.changed.items front.old.times.made.items front.old.times.clock }
    requires room { slice_index front.old.runs.items place.element < 2 ^ 64 - 1 }
    ensures cells { OnOk result (map arc_value front.new.cells.items
        ≡ slice_set (map arc_value front.old.cells.items) place.element
        (cell_made (Y.meaning system.now) place
        (inputs_in (Y.meaning system.now) (map arc_value front.old.cells.items) place.element))) }
    ensures runs { OnOk result (front.new.runs.items
        ≡ slice_set front.old.runs.items place.element (slice_index front.old.runs.items place.element + 1)) }
    ensures again { IfOk result (λ again. again ≡ goes_back (Y.meaning system.now) place
        (inputs_in (Y.meaning system.now) (map arc_value front.old.cells.items) place.element)) }
    ensures times { OnOk result (AreTimes (Y.meaning system.now) (map arc_value front.new.cells.items)
        front.new.times.changed.items front.new.times.made.items front.new.times.clock) }
{
    front.runs[place.element as usize] += 1;
    let reads = system.reads(place.element);
    let applied = is_applied(place.role);
    if applied && front.times.is_up_to_date(place.element, reads) {
        return Ok(false);
    }
    share(inputs, &front.cells, reads)?;
    let (cell, again) = new_cell(alloc, system, place, inputs)?;
    inputs.clear();
    write(alloc, system, front, place.element, applied, cell)?;
    Ok(again)
}

/// Whether an element in this role gets the cell that `apply` gives.
fn is_applied(role: Role) -> bool
    ensures { result ≡ is_applied role }
{
    match role {
        Role::Vertex | Role::Head => true,
        Role::Exit { .. } => false,
    }
}

/// The cell that a place's element gets from these inputs, and whether its component is gone through again.
fn new_cell<Y: System>(
    alloc: Global,
    system: &Y,
    place: Place,
    inputs: &[Arc<Y::Cell>],
) -> Result<(Y::Cell, bool), AllocError>
    requires { HoldEach (Y.may_hold system.now) ((Y.meaning system.now).reads place.element)
        (map arc_value inputs.now) }
    ensures cell { IfOk result (λ it. it.0 ≡ cell_made (Y.meaning system.now) place (map arc_value inputs.now)) }
    ensures held { IfOk result (λ it. Y.may_hold system.now place.element it.0) }
    ensures again { IfOk result (λ it. it.1 ≡ goes_back (Y.meaning system.now) place (map arc_value inputs.now)) }
{
    match place.role {
        Role::Vertex | Role::Head => Ok((system.apply(alloc, place.element, inputs)?, false)),
        Role::Exit { .. } => match system.decide(alloc, place.element, inputs)? {
            Decision::Stable(cell) => Ok((cell, false)),
            Decision::Again(cell) => Ok((cell, true)),
        },
    }
}

/// Writes an element's new cell, which `apply` gave or not, and its times.
fn write<Y: System>(
    alloc: Global,
    system: &Y,
    front: &mut Front<Y::Cell>,
    e: u32,
    applied: bool,
    cell: Y::Cell,
) -> Result<(), AllocError>
    requires element { e < length front.old.cells.items }
    requires old { IfSome (slice_get (map arc_value front.old.cells.items) e) (Y.may_hold system.now e) }
    requires new { Y.may_hold system.now e cell }
    requires of { applied ≡ true → cell ≡ (Y.meaning system.now).apply e
        (inputs_in (Y.meaning system.now) (map arc_value front.old.cells.items) e) }
    requires times { AreTimes (Y.meaning system.now) (map arc_value front.old.cells.items)
        front.old.times.changed.items front.old.times.made.items front.old.times.clock }
    ensures cells { OnOk result (map arc_value front.new.cells.items
        ≡ slice_set (map arc_value front.old.cells.items) e cell) }
    ensures runs { OnOk result (front.new.runs.items ≡ front.old.runs.items) }
    ensures times { OnOk result (AreTimes (Y.meaning system.now) (map arc_value front.new.cells.items)
        front.new.times.changed.items front.new.times.made.items front.new.times.clock) }
{
    let unchanged = system.is_unchanged(e, &front.cells[e as usize], &cell);
    front.times.note(e, applied, !unchanged);
    if !unchanged {
        put(alloc, &mut front.cells[e as usize], cell)?;
    }
    Ok(())
}

/// Puts the cells of these elements in place of what the vector has, each shared once more.
fn share<C: Drop>(
    out: &mut Vec<Arc<C>>,
    cells: &[Arc<C>],
    elements: &[u32],
) -> Result<(), AllocError>
    requires { All (λ u. u < length cells.now) elements.now }
    ensures { OnOk result (map arc_value out.new.items
        ≡ filter_map (slice_get (map arc_value cells.now)) elements.now) }
{
    out.clear();
    for u in elements {
        let cell = &cells[*u as usize];
        out.push(cell.clone()?)?;
    }
    Ok(())
}

/// Puts a cell in an element's place, in the old one's memory where nobody shares that.
fn put<C: Drop>(alloc: Global, place: &mut Arc<C>, cell: C) -> Result<(), AllocError>
    ensures { OnOk result (arc_value place.new ≡ cell) }
{
    match Arc::get_mut(place) {
        Some(held) => *held = cell,
        None => *place = Arc::new(alloc, cell)?,
    }
    Ok(())
}
