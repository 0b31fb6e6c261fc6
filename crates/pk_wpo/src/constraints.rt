// The constraints of a nest.

ghost use Rattle.std.specs.Prelude.{◌≡◌, ℕ, ◌+◌, ◌<◌, ◌⊎◌, ◌↔◌, IsTrue, IfOk, OnOk, length, slice_index_or, false};
ghost use Rattle.pk_plan.specs.Nests.{Holds};
ghost use Rattle.pk_wpo.specs.Constraints.{Has, EdgeConstraint, exit_of};
ghost use Rattle.pk_wpo.specs.Layouts.{IsHome, end_number};
ghost use Rattle.pk_wpo.specs.Edges.{AreEdgeConstraints, HasHeadConstraintsMore, HasEndConstraintsMore, IsLed, IsFromHome, IsMoreFrom, IsEndMore};

use crate::layout::Layout;
use crate::top::{target, top};
use pk_plan::Digraph;
use std::alloc::{AllocError, Global};

/// The constraints that edges give.
pub fn edge_constraints(alloc: Global, layout: &Layout) -> Result<Digraph, AllocError>
    ensures as_many { IfOk result (λ c. length c ≡ end_number layout.now + 1) }
    ensures edges { IfOk result (AreEdgeConstraints layout.now) }
{
    layout.laid();
    let graph = layout.graph();
    let mut constraints = Digraph::with_vertices(alloc, layout.end() + 1)?;
    for u in 0..graph.vertices() {
        for v in graph.successors(u) {
            let from = top(layout, u, *v);
            let to = target(layout, u, *v);
            constraints.add_edge(from, to)?;
        }
    }
    Ok(constraints)
}

/// Which elements have a constraint from inside the innermost component that has them other than as its head.
fn led(alloc: Global, layout: &Layout, constraints: &Digraph) -> Result<Vec<bool>, AllocError>
    requires as_many { length constraints.now ≡ end_number layout.now + 1 }
    requires edges { AreEdgeConstraints layout.now constraints.now }
    ensures as_many { IfOk result (λ v. length v.items ≡ end_number layout.now) }
    ensures led { IfOk result (λ v. (b : ℕ) → b < end_number layout.now →
        IsTrue (slice_index_or v.items b false) ↔ IsLed layout.now constraints.now b) }
{
    layout.laid();
    let end = layout.end();
    let mut led = vec![in alloc; false; end as usize]?;
    for a in 0..end {
        for b in constraints.successors(a) {
            let inside = is_from_home(layout, a, *b);
            mark(&mut led, *b, inside);
        }
    }
    Ok(led)
}

/// Whether the home of b has a.
fn is_from_home(layout: &Layout, a: u32, b: u32) -> bool
    requires from { a < end_number layout.now }
    requires to { b < end_number layout.now }
    ensures { IsTrue result ↔ IsFromHome layout.now a b }
{
    layout.laid();
    match layout.home(b) {
        Some(h) => layout.has(h, a),
        None => false,
    }
}

fn mark(marks: &mut Vec<bool>, at: u32, yes: bool)
    requires { at < length marks.old.items }
    ensures long { length marks.new.items ≡ length marks.old.items }
    ensures kept { (k : ℕ) → IsTrue (slice_index_or marks.old.items k false) →
        IsTrue (slice_index_or marks.new.items k false) }
    ensures only { (k : ℕ) → IsTrue (slice_index_or marks.new.items k false) →
        IsTrue (slice_index_or marks.old.items k false) ⊎ ((k ≡ at) × IsTrue yes) }
    ensures marked { IsTrue yes → IsTrue (slice_index_or marks.new.items at false) }
{
    if yes {
        marks[at as usize] = true;
    }
}

/// Adds the constraints from heads.
pub fn add_head_constraints(
    alloc: Global,
    layout: &Layout,
    constraints: &mut Digraph,
) -> Result<(), AllocError>
    requires as_many { length constraints.old ≡ end_number layout.now + 1 }
    requires edges { AreEdgeConstraints layout.now constraints.old }
    ensures as_many { OnOk result (length constraints.new ≡ length constraints.old) }
    ensures edges { OnOk result (HasHeadConstraintsMore layout.now constraints.old constraints.new) }
{
    layout.laid();
    let led = led(alloc, layout, constraints)?;
    for e in 0..layout.end() {
        let head = head_for(layout, led[e as usize], e);
        add_from(constraints, head, e)?;
    }
    Ok(())
}

/// The head that constrains an element, unless it is led from inside its home.
fn head_for(layout: &Layout, led: bool, e: u32) -> Option<u32>
    requires { e < end_number layout.now }
    ensures none { IsTrue led → result ≡ None }
    ensures home { ¬ IsTrue led → IsHome (Holds layout.now.items) (exit_of layout.now.graph layout.now.items) e result }
{
    if led { None } else { layout.home(e) }
}

fn add_from(constraints: &mut Digraph, from: Option<u32>, to: u32) -> Result<(), AllocError>
    requires from { (h : ℕ) → from ≡ Some h → h < length constraints.old }
    requires to { to < length constraints.old }
    ensures as_many { OnOk result (length constraints.new ≡ length constraints.old) }
    ensures edges { OnOk result (IsMoreFrom constraints.old from to constraints.new) }
{
    if let Some(h) = from {
        constraints.add_edge(h, to)?;
    }
    Ok(())
}

/// Adds the constraints to END.
pub fn add_end_constraints(constraints: &mut Digraph, end: u32) -> Result<(), AllocError>
    requires as_many { length constraints.old ≡ end + 1 }
    ensures as_many { OnOk result (length constraints.new ≡ length constraints.old) }
    ensures edges { OnOk result (HasEndConstraintsMore end constraints.old constraints.new) }
{
    for e in 0..end {
        add_if_none(constraints, e, end)?;
    }
    Ok(())
}

fn add_if_none(constraints: &mut Digraph, from: u32, to: u32) -> Result<(), AllocError>
    requires from { from < length constraints.old }
    requires to { to < length constraints.old }
    ensures as_many { OnOk result (length constraints.new ≡ length constraints.old) }
    ensures edges { OnOk result (IsEndMore constraints.old from to constraints.new) }
{
    if constraints.successors(from).is_empty() {
        constraints.add_edge(from, to)?;
    }
    Ok(())
}
