// The verdict on an operation.

ghost use Rattle.std.specs.Prelude.{◌≡◌, ◌-ℤ◌, pos, None, false, IfOk};
ghost use Rattle.pk_ctypes.specs.declared.types.Op.TheVariants.{Neg};
ghost use Rattle.pk_graph.specs.Kinds.{IsTyped, IsOfType, IsRight, type_of};
ghost use Rattle.pk_graph.specs.Trees.{Guard};
ghost use Rattle.pk_graph.specs.Views.{tree_view};
ghost use Rattle.pk_graph.specs.AccessViews.{operation_view};
ghost use Rattle.pk_state.specs.Changes.{known_in};
ghost use Rattle.pk_transfer.specs.Trees.{tree_known, kinds_of};
ghost use Rattle.pk_transfer.specs.Transfers.{transferred};
ghost use Rattle.pk_verdict.specs.Verdicts.{told_of, safe_if, lies_in as all_lie_in, excludes as excludes_it, ranged_verdict, operator_verdict, shift_verdict, nothing_in, operation_verdict, verdict_of, IsTypedOperation};

use crate::safety::{are_indices, excludes, operator, ranged, safe_where, shift};
use pk_ctypes::{IntType, Op};
use pk_graph::{Operation, Tree, Verdict};
use pk_state::State;
use pk_transfer::{guard, value};
use std::alloc::{AllocError, Global};

fn index(state: &State, length: usize, e: &Tree) -> Verdict
    requires { IsTyped (kinds_of state.now.layout) (tree_view e.now) }
    ensures { result ≡ told_of (tree_known (known_in state.now.facts) (tree_view e.now))
        (λ k. safe_if (all_lie_in (pos 0) (pos length -ℤ pos 1) k.range) k.range) }
{
    match value(e, state) {
        None => Verdict::Unreachable,
        Some(k) => safe_where(are_indices(length, &k.interval), &k.interval),
    }
}

fn divisor(state: &State, a: &Tree, b: &Tree) -> Verdict
    requires left { IsTyped (kinds_of state.now.layout) (tree_view a.now) }
    requires right { IsTyped (kinds_of state.now.layout) (tree_view b.now) }
    ensures { result ≡ told_of (tree_known (known_in state.now.facts) (tree_view a.now))
        (λ j. told_of (tree_known (known_in state.now.facts) (tree_view b.now))
        (λ k. safe_if (excludes_it k (pos 0)) k.range)) }
{
    match value(a, state) {
        None => Verdict::Unreachable,
        Some(_) => match value(b, state) {
            None => Verdict::Unreachable,
            Some(k) => safe_where(excludes(&k, 0), &k.interval),
        },
    }
}

fn negation(state: &State, t: IntType, e: &Tree) -> Verdict
    requires { IsOfType (kinds_of state.now.layout) t (tree_view e.now) }
    ensures { result
        ≡ told_of (tree_known (known_in state.now.facts) (tree_view e.now)) (λ k. ranged_verdict Neg t k k) }
{
    match value(e, state) {
        None => Verdict::Unreachable,
        Some(k) => ranged(Op::Neg, t, &k, &k),
    }
}

fn result(state: &State, op: Op, t: IntType, a: &Tree, b: &Tree) -> Verdict
    requires left { IsOfType (kinds_of state.now.layout) t (tree_view a.now) }
    requires right { IsTyped (kinds_of state.now.layout) (tree_view b.now) }
    requires represents { IsRight op t (type_of (kinds_of state.now.layout) (tree_view b.now)) }
    ensures { result ≡ told_of (tree_known (known_in state.now.facts) (tree_view a.now))
        (λ j. told_of (tree_known (known_in state.now.facts) (tree_view b.now)) (operator_verdict op t j)) }
{
    match value(a, state) {
        None => Verdict::Unreachable,
        Some(j) => match value(b, state) {
            None => Verdict::Unreachable,
            Some(k) => operator(op, t, &j, &k),
        },
    }
}

fn shifted(state: &State, op: Op, t: IntType, a: &Tree, b: &Tree) -> Verdict
    requires left { IsOfType (kinds_of state.now.layout) t (tree_view a.now) }
    requires right { IsTyped (kinds_of state.now.layout) (tree_view b.now) }
    ensures { result ≡ told_of (tree_known (known_in state.now.facts) (tree_view a.now))
        (λ j. told_of (tree_known (known_in state.now.facts) (tree_view b.now)) (shift_verdict op t j)) }
{
    match value(a, state) {
        None => Verdict::Unreachable,
        Some(j) => match value(b, state) {
            None => Verdict::Unreachable,
            Some(k) => shift(op, t, &j, &k),
        },
    }
}

// The state where a tree is false, as an edge with that guard gives it.
fn where_false<'f>(alloc: Global, state: &State<'f>, e: &Tree) -> Result<State<'f>, AllocError>
    requires { IsTyped (kinds_of state.now.layout) (tree_view e.now) }
    ensures { IfOk result
        (λ s. s.facts ≡ transferred state.now.layout state.now.facts (Guard (tree_view e.now) false)) }
{
    let before = state.reduce(alloc)?;
    let after = guard(alloc, before, e, false)?;
    after.reduce(alloc)
}

fn is_empty(state: &State) -> bool
    ensures { result ≡ nothing_in state.now.facts }
{
    state.is_bottom()
}

fn assertion(alloc: Global, state: &State, e: &Tree) -> Result<Verdict, AllocError>
    requires { IsTyped (kinds_of state.now.layout) (tree_view e.now) }
    ensures { IfOk result (λ v. v ≡ told_of (tree_known (known_in state.now.facts) (tree_view e.now))
        (λ k. safe_if
        (nothing_in (transferred state.now.layout state.now.facts (Guard (tree_view e.now) false))) k.range)) }
{
    match value(e, state) {
        None => Ok(Verdict::Unreachable),
        Some(k) => {
            let failed = where_false(alloc, state, e)?;
            Ok(safe_where(is_empty(&failed), &k.interval))
        }
    }
}

#[tactic(auto, unfolding(pk_graph::specs::AccessViews::operation_view))]
fn decided(alloc: Global, state: &State, operation: &Operation<'_>) -> Result<Verdict, AllocError>
    requires { IsTypedOperation (kinds_of state.now.layout) (operation_view operation.now) }
    ensures { IfOk result (λ v. v ≡ operation_verdict state.now.layout state.now.facts (operation_view operation.now)) }
{
    match operation {
        Operation::Index(length, e) => Ok(index(state, *length, e)),
        Operation::Divisor(a, b) => Ok(divisor(state, a, b)),
        Operation::Negation(t, e) => Ok(negation(state, *t, e)),
        Operation::Result(op, t, a, b) => Ok(result(state, *op, *t, a, b)),
        Operation::Shift(op, t, a, b) => Ok(shifted(state, *op, *t, a, b)),
        Operation::Assertion(e) => assertion(alloc, state, e),
    }
}

/// The verdict on an operation, by the state of its point. It is taken on a reduced state, which stays as it is.
pub fn verdict(
    alloc: Global,
    state: &State,
    operation: &Operation<'_>,
) -> Result<Verdict, AllocError>
    requires { IsTypedOperation (kinds_of state.now.layout) (operation_view operation.now) }
    ensures { IfOk result (λ v. v ≡ verdict_of state.now.layout state.now.facts (operation_view operation.now)) }
{
    if is_empty(state) {
        Ok(Verdict::Unreachable)
    } else {
        decided(alloc, state, operation)
    }
}
