// How a board begins.

ghost use Rattle.std.specs.Prelude.{◌≡◌, ℕ, ◌+◌, ◌^◌, ◌<◌, ◌≤◌, IfOk, length, slice_index};
ghost use mathlib.Core.Option.{some};
ghost use lib.ListN.{get_elem?};
ghost use Rattle.pk_plan.specs.Plans.{predecessors_of};
ghost use Rattle.pk_iterate.specs.Fits.{FitsPlan};
ghost use Rattle.pk_core.specs.Events.{start_status};
ghost use Rattle.pk_layout.specs.Layouts.{IsLaidOut, owner_of, slots_of};
ghost use Rattle.pk_words.specs.declared.slot.Slot.{Slot};
ghost use Rattle.pk_words.specs.Board.{low};
ghost use Rattle.pk_words.specs.Kinds.{HasCell, kind_of};
ghost use Rattle.pk_words.specs.Reads.{HasEnd};
ghost use Rattle.pk_words.specs.Views.{first_view};

use crate::boards::Board;
use crate::earliest::Earliest;
use crate::lean::Lean;
use crate::passes::Pass;
use crate::results::reserved;
use atomic_table::Table;
use pk_layout::Layout;
use pk_plan::Plan;
use pk_words::{OPEN, Parted, Slot, Subject};
use std::alloc::{AllocError, Global};
use std::sync::Arc;

/// The word of an element at the start.
fn start_word(plan: &Plan, e: u32) -> u64
    requires { e < plan.now.elements }
    ensures { result ≡ low (start_status (predecessors_of plan.now e)) }
{
    match plan.full(e) {
        0 => OPEN,
        count => count as u64,
    }
}

/// The words at the start: an element without predecessors is open, any other waits for all of them.
fn start_words(alloc: Global, plan: &Plan) -> Result<Vec<u64>, AllocError>
    ensures long { IfOk result (λ v. length v.items ≡ plan.now.elements + 2) }
    ensures going { IfOk result (λ v. slice_index v.items 1 ≡ 0) }
    ensures each { IfOk result (λ v. (e : ℕ) → e < plan.now.elements
        → slice_index v.items (e + 2) ≡ low (start_status (predecessors_of plan.now e))) }
{
    let mut words = Vec::new(alloc);
    words.push(0)?;
    words.push(0)?;
    for e in 0..plan.elements() {
        words.push(start_word(plan, e))?;
    }
    Ok(words)
}

/// The first cells, once for each slot.
fn start_slots<Y: Parted>(
    alloc: Global,
    system: &Y,
    elements: u32,
    layout: &Layout,
) -> Result<Vec<Slot<Y::Cell, Y::Part>>, AllocError>
    requires { IsLaidOut (Y.meaning system.now) elements layout.now }
    ensures long { IfOk result (λ v. length v.items ≡ slots_of layout.now) }
    ensures each { IfOk result (λ v. (k : ℕ) (x : Slot Y.Cell Y.Part) → get_elem? v.items k ≡ some x
        → kind_of x ≡ HasCell ((Y.meaning system.now).first (owner_of layout.now k))) }
{
    let mut slots = Vec::new(alloc);
    for e in 0..elements {
        let cell = Arc::new(alloc, system.first(alloc, e)?)?;
        for slot in layout.first_slot(e)..layout.first_slot(e + 1) {
            slots.push(Slot::Cell(cell.clone()?))?;
        }
    }
    Ok(slots)
}

impl<'a, Y: Parted> Board<'a, Y> {
    /// A board at the start, and a pass without tokens. No element may be run more than `max_runs` times. A lean board lets go of
    /// cells once nothing reads them any more.
    pub fn start(
        alloc: Global,
        system: &'a Y,
        plan: &'a Plan,
        max_runs: u64,
        lean: bool,
    ) -> Result<(Board<'a, Y>, Pass<Y::Cell, Y::Part>), AllocError>
        requires fits { FitsPlan (Y.meaning system.now) plan.now }
        requires ends { HasEnd (Y.meaning system.now) plan.now }
        requires few { plan.now.elements ≤ 131073 }
        requires most { max_runs ≤ 549755813888 }
        ensures system { IfOk result (λ r. r.0.subject.system ≡ system.now) }
        ensures plan { IfOk result (λ r. r.0.subject.wiring.plan ≡ plan.now) }
        ensures limit { IfOk result (λ r. r.0.subject.wiring.limit ≡ max_runs) }
        ensures lean { IfOk result (λ r. r.0.subject.lean ≡ lean) }
        ensures pass { IfOk result (λ r. r.1 ≡ record { table = r.0.table; view = first_view }) }
    {
        plan.axioms();
        let words = start_words(alloc, plan)?;
        let results = reserved(alloc, plan.elements())?;
        let earliest = Earliest::of(alloc, plan)?;
        let layout = Layout::new(alloc, system, plan.elements())?;
        let slots = start_slots(alloc, system, plan.elements(), &layout)?;
        let leaning = Lean::of(alloc, system, plan, &layout, lean)?;
        let subject = Subject::new(system, plan, layout, max_runs, lean);
        match Table::new(alloc, &words, slots, &subject) {
            Ok((table, seat)) => {
                let board = Board {
                    subject,
                    table,
                    earliest,
                    results,
                    lean: leaning,
                };
                Ok((board, Pass { seat }))
            }
            Err(_) => Err(AllocError),
        }
    }
}
