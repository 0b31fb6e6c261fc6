// Whether a core has come to what the iteration leaves.

ghost use Rattle.std.specs.Prelude.{◌≡◌, ◌≤◌, ℕ, IfOk, Some, length, slice_get};
ghost use Rattle.pk_state.specs.Facts.{Stated};
ghost use Rattle.pk_iterate.specs.Behaviour.{ReadsWithin};
ghost use Rattle.pk_phases.specs.declared.equations.Cell.{Cell};
ghost use Rattle.pk_phases.specs.declared.equations.Cell.TheVariants.{Value};
ghost use Rattle.pk_phases.specs.Equations.{behaviour_of, may_hold_of};
ghost use Rattle.pk_analysis.specs.Flows.{equations_of, IsOverFlow};

use pk_analysis::Analysis;
use pk_core::Core;
use pk_iterate::{Cells, Solve, cells_are_held, iterate};
use pk_phases::{Cell, Phase};
use pk_plan::{Order, Plan};
use pk_state::State;
use std::alloc::Global;

fn same_phases(a: Phase, b: Phase) -> bool {
    match a {
        Phase::Delay(k) => matches!(b, Phase::Delay(l) if l == k),
        Phase::Up => matches!(b, Phase::Up),
        Phase::Down(k) => matches!(b, Phase::Down(l) if l == k),
        Phase::Last => matches!(b, Phase::Last),
    }
}

fn same_cells(a: &Cell<State>, b: &Cell<State>) -> bool
    requires { (s t : Stated) → a.now ≡ Value s → b.now ≡ Value t → t.layout ≡ s.layout }
{
    match a {
        Cell::Value(left) => match b {
            Cell::Value(right) => left.equals(right),
            Cell::Exit(_) => false,
        },
        Cell::Exit(left) => match b {
            Cell::Value(_) => false,
            Cell::Exit(right) => same_phases(*left, *right),
        },
    }
}

// Whether these elements have the iteration's cells and numbers of runs.
pub fn agree(core: &Core<Analysis>, cells: &Cells<Cell<State>>, elements: u32) -> bool
    requires core { elements ≤ core.now.plan.elements }
    requires cells { elements ≤ length cells.now.cells }
    requires runs { elements ≤ length cells.now.runs }
    requires held { (e : ℕ) (c : Cell Stated) → slice_get cells.now.cells e ≡ Some c →
        may_hold_of (equations_of core.now.system) (IsOverFlow core.now.system) e c }
{
    for e in 0..elements {
        if core.run(e) != cells.run(e) || !same_cells(core.cell(e), cells.cell(e)) {
            return false;
        }
    }
    true
}

// What the iteration leaves.
pub fn iterated<'f>(
    alloc: Global,
    analysis: &Analysis<'f>,
    plan: &Plan,
    order: &Order,
) -> Result<Cells<Cell<State<'f>>>, Solve>
    requires reads { ReadsWithin (behaviour_of (equations_of analysis.now)) plan.now.elements }
    requires elements { order.now.elements ≡ plan.now.elements }
    ensures cells { IfOk result (λ it. length it.cells ≡ plan.now.elements) }
    ensures runs { IfOk result (λ it. length it.runs ≡ plan.now.elements) }
    ensures held { IfOk result (λ it. (e : ℕ) (c : Cell Stated) → slice_get it.cells e ≡ Some c →
        may_hold_of (equations_of analysis.now) (IsOverFlow analysis.now) e c) }
{
    let _ = plan;
    cells_are_held(analysis);
    iterate(alloc, analysis, order, 1000)
}
