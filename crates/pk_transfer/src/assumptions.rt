// What is known where a guard passes.

ghost use Rattle.std.specs.Prelude.{◌≡◌, ◌<◌, ◌≤ℤ◌, ◌++◌, pos, length, IfOk, IfSome, Some, if◌then◌else◌};
ghost use Rattle.pk_ctypes.specs.declared.types.IntType.TheVariants as types;
ghost use Rattle.pk_interval.specs.Ranges.{IsIn};
ghost use Rattle.pk_graph.specs.Trees as tree;
ghost use Rattle.pk_graph.specs.Kinds.{IsTyped};
ghost use Rattle.pk_graph.specs.Views.{tree_view};
ghost use Rattle.pk_octagons.specs.Values.{type_at, IsValue};
ghost use Rattle.pk_state.specs.Changes.{known_in};
ghost use Rattle.pk_transfer.specs.Trees.{kinds_of, known_with};
ghost use Rattle.pk_transfer.specs.Guards.{refined as refined_by, is_zero as zero_test, negated as negated_op, flipped as flipped_op};
ghost use Rattle.pk_transfer.specs.Linear.{HasPlaces, IsGuardOn, variables_of};
ghost use Rattle.pk_transfer.specs.Places.{places_of};
ghost use Rattle.pk_transfer.specs.Assignments.{HasFacts, with_known_if};
ghost use Rattle.pk_transfer.specs.Assumptions.{places_in, le_in, compared_in, with_operand as refined_operand, refined_in, holds_in, guard_in};

use crate::guards::refine;
use crate::linear::{Form, Places};
use crate::operators::{flipped, is_comparison, is_not, negated};
use crate::telling::{Told, tell};
use crate::variables::variables_of_both;
use pk_ctypes::{IntType, Op};
use pk_graph::Tree;
use pk_state::State;
use pk_value::Value;
use std::alloc::{AllocError, Global};

/// The same, but for what is known of a variable; where nothing is possible, no run comes there.
pub(crate) fn written<'f>(
    alloc: Global,
    state: State<'f>,
    x: usize,
    known: Option<Value>,
) -> Result<State<'f>, AllocError>
    requires place { x < length state.layout.types }
    requires value { IfSome known (IsValue (type_at state.layout.types x)) }
    ensures { IfOk result (HasFacts state.entry (with_known_if state.entry.facts x known)) }
{
    match known {
        None => Ok(state.emptied()),
        Some(value) => state.with_value(alloc, x, value),
    }
}

// ---- the octagons

fn at_most<'f>(
    alloc: Global,
    state: State<'f>,
    places: Places,
    c: i128,
    over: &[usize],
) -> Result<State<'f>, AllocError>
    requires { IsGuardOn (places_of places) }
    ensures { IfOk result
        (HasFacts state.entry (places_in state.entry.layout state.entry.facts (places_of places) c over.now)) }
{
    match places {
        Places::Zero => state.with_guard(alloc, None, None, c, over),
        Places::One(a) => state.with_guard(alloc, Some(a), None, c, over),
        Places::Two(a, b) => state.with_guard(alloc, Some(a), Some(b), c, over),
    }
}

fn bounded<'f>(
    alloc: Global,
    state: State<'f>,
    left: Form,
    right: Form,
    less: i128,
    over: &[usize],
) -> Result<State<'f>, AllocError>
    requires left { HasPlaces (Some left) }
    requires right { HasPlaces (Some right) }
    requires from { pos 0 ≤ℤ less }
    requires to { less ≤ℤ pos 1 }
    ensures { IfOk result
        (HasFacts state.entry (le_in state.entry.layout state.entry.facts (Some left) (Some right) less over.now)) }
{
    match left.places_over(right) {
        None => Ok(state),
        Some(places) => {
            let room = left.room_below(right, less);
            at_most(alloc, state, places, room, over)
        }
    }
}

// The left form is at most the right one less `less`.
fn le<'f>(
    alloc: Global,
    state: State<'f>,
    left: &Option<Form>,
    right: &Option<Form>,
    less: i128,
    over: &[usize],
) -> Result<State<'f>, AllocError>
    requires left { HasPlaces left.now }
    requires right { HasPlaces right.now }
    requires from { pos 0 ≤ℤ less }
    requires to { less ≤ℤ pos 1 }
    ensures { IfOk result
        (HasFacts state.entry (le_in state.entry.layout state.entry.facts left.now right.now less over.now)) }
{
    match left {
        None => Ok(state),
        Some(left) => match right {
            None => Ok(state),
            Some(right) => bounded(alloc, state, *left, *right, less, over),
        },
    }
}

fn same<'f>(
    alloc: Global,
    state: State<'f>,
    left: &Option<Form>,
    right: &Option<Form>,
    over: &[usize],
) -> Result<State<'f>, AllocError>
    requires left { HasPlaces left.now }
    requires right { HasPlaces right.now }
    ensures { IfOk result
        (HasFacts state.entry
        (le_in state.entry.layout (le_in state.entry.layout state.entry.facts left.now right.now (pos 0) over.now)
        right.now left.now (pos 0) over.now)) }
{
    let state = le(alloc, state, left, right, 0, over)?;
    le(alloc, state, right, left, 0, over)
}

fn compared<'f>(
    alloc: Global,
    state: State<'f>,
    op: Op,
    left: &Option<Form>,
    right: &Option<Form>,
    over: &[usize],
) -> Result<State<'f>, AllocError>
    requires left { HasPlaces left.now }
    requires right { HasPlaces right.now }
    ensures { IfOk result
        (HasFacts state.entry (compared_in op state.entry.layout state.entry.facts left.now right.now over.now)) }
{
    match op {
        Op::Lt => le(alloc, state, left, right, 1, over),
        Op::Le => le(alloc, state, left, right, 0, over),
        Op::Gt => le(alloc, state, right, left, 1, over),
        Op::Ge => le(alloc, state, right, left, 0, over),
        Op::Eq => same(alloc, state, left, right, over),
        Op::Ne
        | Op::Add
        | Op::Sub
        | Op::Mul
        | Op::Div
        | Op::Rem
        | Op::Shl
        | Op::Shr
        | Op::And
        | Op::Or
        | Op::Xor
        | Op::Neg
        | Op::BitNot
        | Op::Not => Ok(state),
    }
}

// ---- the operands

fn kept_of(known: Option<Value>, t: IntType, op: Op, v: &Value, u: IntType) -> Option<Value>
    requires left { IfSome known (λ k. IsIn t k.range) }
    requires right { IsIn u v.now.range }
    ensures value { result ≡ known_with known (λ k. refined_by op k v.now) }
    ensures inside { IfSome result (IsValue t) }
{
    match known {
        None => None,
        Some(known) => refine(op, &known, t, v, u),
    }
}

// A variable that is an operand.
fn with_name<'f>(
    alloc: Global,
    state: State<'f>,
    x: usize,
    op: Op,
    v: &Value,
    u: IntType,
) -> Result<State<'f>, AllocError>
    requires place { x < length state.layout.types }
    requires value { IsIn u v.now.range }
    ensures { IfOk result (HasFacts state.entry
        (with_known_if state.entry.facts x (known_with (known_in state.entry.facts x) (λ k. refined_by op k v.now)))) }
{
    let known = kept_of(state.value(x), state.int_type(x), op, v, u);
    written(alloc, state, x, known)
}

#[tactic(auto, unfolding(pk_graph::specs::Views::tree_view))]
fn with_operand<'f>(
    alloc: Global,
    state: State<'f>,
    e: &Tree,
    op: Op,
    v: &Value,
    u: IntType,
) -> Result<State<'f>, AllocError>
    requires tree { IsTyped (kinds_of state.layout) (tree_view e.now) }
    requires value { IsIn u v.now.range }
    ensures { IfOk result (HasFacts state.entry (refined_operand state.entry.facts (tree_view e.now) op v.now)) }
{
    match e {
        Tree::Variable(x) => with_name(alloc, state, *x, op, v, u),
        Tree::Constant(_, _) => Ok(state),
        Tree::Converted(_, _) => Ok(state),
        Tree::Unary(_, _, _, _) => Ok(state),
        Tree::Binary { .. } => Ok(state),
    }
}

// Each operand by what was known of the other before.
fn with_operands<'f>(
    alloc: Global,
    state: State<'f>,
    op: Op,
    left: &Tree,
    right: &Tree,
    k: &Value,
    t: IntType,
    v: &Value,
    u: IntType,
) -> Result<State<'f>, AllocError>
    requires left { IsTyped (kinds_of state.layout) (tree_view left.now) }
    requires right { IsTyped (kinds_of state.layout) (tree_view right.now) }
    requires first { IsIn t k.now.range }
    requires second { IsIn u v.now.range }
    ensures { IfOk result
        (HasFacts state.entry (refined_operand (refined_operand state.entry.facts (tree_view left.now) op v.now)
        (tree_view right.now) (flipped_op op) k.now)) }
{
    let state = with_operand(alloc, state, left, op, v, u)?;
    with_operand(alloc, state, right, flipped(op), k, t)
}

fn refined<'f>(
    alloc: Global,
    state: State<'f>,
    op: Op,
    left: &Tree,
    right: &Tree,
    l: &Told,
    r: &Told,
) -> Result<State<'f>, AllocError>
    requires left { IsTyped (kinds_of state.layout) (tree_view left.now) }
    requires right { IsTyped (kinds_of state.layout) (tree_view right.now) }
    ensures { IfOk result
        (HasFacts state.entry (refined_in state.entry.facts
        (record { op = op; left = tree_view left.now; right = tree_view right.now }) l.now.known r.now.known)) }
{
    match l.known {
        None => Ok(state.emptied()),
        Some(k) => match r.known {
            None => Ok(state.emptied()),
            Some(v) => match refine(op, &k, l.int_type, &v, r.int_type) {
                None => Ok(state.emptied()),
                Some(_) => with_operands(
                    alloc, state, op, left, right, &k, l.int_type, &v, r.int_type,
                ),
            },
        },
    }
}

// A comparison of two trees holds.
fn holds<'f>(
    alloc: Global,
    state: State<'f>,
    op: Op,
    left: &Tree,
    right: &Tree,
) -> Result<State<'f>, AllocError>
    requires left { IsTyped (kinds_of state.layout) (tree_view left.now) }
    requires right { IsTyped (kinds_of state.layout) (tree_view right.now) }
    ensures { IfOk result
        (HasFacts state.entry (holds_in state.entry.layout state.entry.facts
        (record { op = op; left = tree_view left.now; right = tree_view right.now }))) }
{
    let l = tell(left, &state);
    let r = tell(right, &state);
    let over = variables_of_both(alloc, left, right)?;
    let state = compared(alloc, state, op, &l.form, &r.form, &over)?;
    refined(alloc, state, op, left, right, &l, &r)
}

// ---- conditions

// A tree is 0, or is not.
fn is_zero<'f>(
    alloc: Global,
    state: State<'f>,
    e: &Tree,
    sense: bool,
    zero: &Tree,
) -> Result<State<'f>, AllocError>
    requires tree { IsTyped (kinds_of state.layout) (tree_view e.now) }
    requires zero { tree_view zero.now ≡ tree.constant types.Int (pos 0) }
    ensures { IfOk result (HasFacts state.entry
        (holds_in state.entry.layout state.entry.facts (zero_test (tree_view e.now) sense))) }
{
    if sense {
        holds(alloc, state, Op::Ne, e, zero)
    } else {
        holds(alloc, state, Op::Eq, e, zero)
    }
}

fn with_sense(op: Op, sense: bool) -> Op
    ensures { result ≡ (if sense then op else negated_op op) }
{
    if sense { op } else { negated(op) }
}

#[tactic(auto, unfolding(pk_graph::specs::Views::tree_view))]
fn passed<'f>(
    alloc: Global,
    state: State<'f>,
    e: &Tree,
    sense: bool,
    zero: &Tree,
) -> Result<State<'f>, AllocError>
    requires tree { IsTyped (kinds_of state.layout) (tree_view e.now) }
    requires zero { tree_view zero.now ≡ tree.constant types.Int (pos 0) }
    ensures { IfOk result (HasFacts state.entry
        (guard_in state.entry.layout state.entry.facts (tree_view e.now) sense)) }
{
    match e {
        Tree::Variable(_) => is_zero(alloc, state, e, sense, zero),
        Tree::Constant(_, _) => is_zero(alloc, state, e, sense, zero),
        Tree::Converted(_, _) => is_zero(alloc, state, e, sense, zero),
        Tree::Unary(op, _, _, operand) => {
            if is_not(*op) {
                passed(alloc, state, operand, !sense, zero)
            } else {
                is_zero(alloc, state, e, sense, zero)
            }
        }
        Tree::Binary {
            operator,
            left,
            right,
            ..
        } => {
            if is_comparison(*operator) {
                holds(alloc, state, with_sense(*operator, sense), left, right)
            } else {
                is_zero(alloc, state, e, sense, zero)
            }
        }
    }
}

/// What is known where a tree has this truth. The state is taken; where memory is refused, it is gone.
pub fn guard<'f>(
    alloc: Global,
    state: State<'f>,
    e: &Tree,
    sense: bool,
) -> Result<State<'f>, AllocError>
    requires { IsTyped (kinds_of state.layout) (tree_view e.now) }
    ensures { IfOk result (HasFacts state.entry
        (guard_in state.entry.layout state.entry.facts (tree_view e.now) sense)) }
{
    let zero = Tree::constant(IntType::Int, 0);
    passed(alloc, state, e, sense, &zero)
}
