// What a tree tells of its value: its type, what is known of it, and its linear form.

ghost use Rattle.std.specs.Prelude.{◌≡◌, [], IfSome, option_map, Some};
ghost use Rattle.pk_ctypes.specs.declared.types.Op.TheVariants as ops;
ghost use Rattle.pk_ctypes.specs.Types.{InType, Represents};
ghost use Rattle.pk_ctypes.specs.Operators.{result_type as type_of_result};
ghost use Rattle.pk_interval.specs.Ranges.{IsIn};
ghost use Rattle.pk_interval.specs.Operators.{HasRightIn};
ghost use Rattle.pk_graph.specs.Trees as tree;
ghost use Rattle.pk_graph.specs.Kinds.{IsTyped, IsRight};
ghost use Rattle.pk_graph.specs.Views.{tree_view};
ghost use Rattle.pk_value.specs.Known.{exactly};
ghost use Rattle.pk_value.specs.Values.{converted as converted_of, operated};
ghost use Rattle.pk_octagons.specs.Values.{IsValue};
ghost use Rattle.pk_state.specs.Changes.{known_in};
ghost use Rattle.pk_transfer.specs.Trees.{known_with, kinds_of};
ghost use Rattle.pk_transfer.specs.Linear.{both, difference, if_negative, if_sum, is_exact as stays_exact, is_inside as lies_inside, negative, sum, where_both, where_known};
ghost use Rattle.pk_transfer.specs.Told.{told, told_converted, told_unary, told_binary};

use crate::linear::{Form, Places, of_variable};
use pk_ctypes::{IntType, Op, is_signed, range, result_type};
use pk_graph::Tree;
use pk_interval::{Interval, Outcome, binary};
use pk_state::State;
use pk_value::{Value, convert, operate};
use std::marker::Model;

#[derive(Clone, Copy)]
pub(crate) struct Told {
    pub(crate) int_type: IntType,
    /// None where no store gives a value.
    pub(crate) known: Option<Value>,
    pub(crate) form: Option<Form>,
}

impl Model for Told {
    ghost use Rattle.std.specs.Prelude.{IfSome};
    ghost use Rattle.pk_octagons.specs.Values.{IsValue};
    ghost use Rattle.pk_transfer.specs.Told.{Told};

    ghost Value = { Told };

    ghost view = { λ d. record { int_type = d.int_type; known = d.known; form = d.form } };

    ghost invariant = { λ d. IfSome d.known (IsValue d.int_type) };

    ghost inverse = { λ d. record { int_type = d.int_type; known = d.known; form = d.form } };
}

// ---- types

fn is_inside(t: IntType, r: &Interval) -> bool
    ensures { result ≡ lies_inside t r.now }
{
    let bounds = range(t);
    bounds.0 <= r.lo && r.hi <= bounds.1
}

// Whether an operator's numbers are not wrapped.
fn is_exact(op: Op, t: IntType, a: &Value, b: &Value) -> bool
    requires left { IsIn t a.now.range }
    requires right { HasRightIn op t b.now.range }
    ensures { result ≡ stays_exact op t a.now b.now }
{
    if is_signed(t) {
        return true;
    }
    match binary(op, t, &a.interval, &b.interval) {
        Outcome::Empty => false,
        Outcome::Within(r) => is_inside(t, &r),
        Outcome::TooLarge => false,
    }
}

// ---- conversions

fn converted_known(t: IntType, d: &Told) -> Option<Value>
    ensures value { result ≡ known_with d.now.known (converted_of t) }
    ensures inside { IfSome result (IsValue t) }
{
    match d.known {
        None => None,
        Some(known) => convert(t, &known),
    }
}

fn converted_form(t: IntType, d: &Told) -> Option<Form>
    ensures { result ≡ where_known d.now.known (λ k. lies_inside t k.range) d.now.form }
{
    match d.known {
        None => None,
        Some(known) => {
            if is_inside(t, &known.interval) {
                d.form
            } else {
                None
            }
        }
    }
}

fn converted(t: IntType, d: &Told) -> Told
    ensures { result ≡ told_converted t d.now }
{
    Told {
        int_type: t,
        known: converted_known(t, d),
        form: converted_form(t, d),
    }
}

// ---- operators with one operand

fn unary_known(op: Op, t: IntType, d: &Told) -> Option<Value>
    requires { Represents t d.now.int_type }
    ensures value { result ≡ known_with d.now.known (λ k. operated op t k k) }
    ensures inside { IfSome result (IsValue (type_of_result op t)) }
{
    match d.known {
        None => None,
        Some(known) => operate(op, t, &known, &known),
    }
}

fn opposite(form: Option<Form>) -> Option<Form>
    ensures { result ≡ option_map negative form }
{
    match form {
        None => None,
        Some(form) => Some(form.negative()),
    }
}

fn negative_form(t: IntType, d: &Told) -> Option<Form>
    requires { Represents t d.now.int_type }
    ensures { result ≡ where_known d.now.known (λ k. stays_exact ops.Neg t k k) (option_map negative d.now.form) }
{
    match d.known {
        None => None,
        Some(known) => {
            if is_exact(Op::Neg, t, &known, &known) {
                opposite(d.form)
            } else {
                None
            }
        }
    }
}

fn unary_form(op: Op, t: IntType, d: &Told) -> Option<Form>
    requires { Represents t d.now.int_type }
    ensures { result
        ≡ if_negative op (where_known d.now.known (λ k. stays_exact ops.Neg t k k) (option_map negative d.now.form)) }
{
    match op {
        Op::Neg => negative_form(t, d),
        Op::Add
        | Op::Sub
        | Op::Mul
        | Op::Div
        | Op::Rem
        | Op::Shl
        | Op::Shr
        | Op::And
        | Op::Or
        | Op::Xor
        | Op::Lt
        | Op::Gt
        | Op::Le
        | Op::Ge
        | Op::Eq
        | Op::Ne
        | Op::BitNot
        | Op::Not => None,
    }
}

fn unary(op: Op, t: IntType, d: &Told) -> Told
    requires { Represents t d.now.int_type }
    ensures { result ≡ told_unary op t d.now }
{
    Told {
        int_type: result_type(op, t),
        known: unary_known(op, t, d),
        form: unary_form(op, t, d),
    }
}

// ---- operators with two

fn binary_known(op: Op, t: IntType, a: &Told, b: &Told) -> Option<Value>
    requires left { Represents t a.now.int_type }
    requires right { IsRight op t b.now.int_type }
    ensures value { result ≡ known_with a.now.known (λ j. known_with b.now.known (λ k. operated op t j k)) }
    ensures inside { IfSome result (IsValue (type_of_result op t)) }
{
    match a.known {
        None => None,
        Some(left) => match b.known {
            None => None,
            Some(right) => operate(op, t, &left, &right),
        },
    }
}

fn sum_of(a: Option<Form>, b: Option<Form>) -> Option<Form>
    ensures { result ≡ both sum a b }
{
    match a {
        None => None,
        Some(left) => match b {
            None => None,
            Some(right) => left.plus(right),
        },
    }
}

fn difference_of(a: Option<Form>, b: Option<Form>) -> Option<Form>
    ensures { result ≡ both difference a b }
{
    match a {
        None => None,
        Some(left) => match b {
            None => None,
            Some(right) => left.minus(right),
        },
    }
}

// The form, where an operator's numbers are not wrapped.
fn where_exact(op: Op, t: IntType, a: &Told, b: &Told, form: Option<Form>) -> Option<Form>
    requires left { Represents t a.now.int_type }
    requires right { IsRight op t b.now.int_type }
    ensures { result ≡ where_both a.now.known b.now.known (stays_exact op t) form }
{
    match a.known {
        None => None,
        Some(left) => match b.known {
            None => None,
            Some(right) => {
                if is_exact(op, t, &left, &right) {
                    form
                } else {
                    None
                }
            }
        },
    }
}

fn binary_form(op: Op, t: IntType, a: &Told, b: &Told) -> Option<Form>
    requires left { Represents t a.now.int_type }
    requires right { IsRight op t b.now.int_type }
    ensures { result
        ≡ if_sum op (where_both a.now.known b.now.known (stays_exact ops.Add t) (both sum a.now.form b.now.form))
        (where_both a.now.known b.now.known (stays_exact ops.Sub t) (both difference a.now.form b.now.form)) }
{
    match op {
        Op::Add => where_exact(Op::Add, t, a, b, sum_of(a.form, b.form)),
        Op::Sub => where_exact(Op::Sub, t, a, b, difference_of(a.form, b.form)),
        Op::Mul
        | Op::Div
        | Op::Rem
        | Op::Shl
        | Op::Shr
        | Op::And
        | Op::Or
        | Op::Xor
        | Op::Lt
        | Op::Gt
        | Op::Le
        | Op::Ge
        | Op::Eq
        | Op::Ne
        | Op::Neg
        | Op::BitNot
        | Op::Not => None,
    }
}

fn joined(op: Op, t: IntType, a: &Told, b: &Told) -> Told
    requires left { Represents t a.now.int_type }
    requires right { IsRight op t b.now.int_type }
    ensures { result ≡ told_binary op t a.now b.now }
{
    Told {
        int_type: result_type(op, t),
        known: binary_known(op, t, a, b),
        form: binary_form(op, t, a, b),
    }
}

// ---- trees

fn of_name(x: usize, state: &State) -> Told
    requires { IsTyped (kinds_of state.now.layout) (tree.variable x) }
    ensures { result ≡ told state.now.layout (known_in state.now.facts) (tree.variable x) }
{
    Told {
        int_type: state.int_type(x),
        known: state.value(x),
        form: of_variable(x, state),
    }
}

fn of_number(t: IntType, c: i128) -> Told
    requires { InType t c }
    ensures { result
        ≡ record { int_type = t; known = Some (exactly c); form = Some (record { constant = c; places = [] }) } }
{
    Told {
        int_type: t,
        known: Some(Value::exactly(c)),
        form: Some(Form {
            constant: c,
            places: Places::Zero,
        }),
    }
}

/// What a tree tells where a state holds.
#[tactic(auto, unfolding(pk_graph::specs::Views::tree_view))]
pub(crate) fn tell(e: &Tree, state: &State) -> Told
    requires { IsTyped (kinds_of state.now.layout) (tree_view e.now) }
    ensures { result ≡ told state.now.layout (known_in state.now.facts) (tree_view e.now) }
{
    match e {
        Tree::Variable(x) => of_name(*x, state),
        Tree::Constant(t, c) => of_number(*t, *c),
        Tree::Converted(t, operand) => converted(*t, &tell(operand, state)),
        Tree::Unary(op, _, t, operand) => unary(*op, *t, &tell(operand, state)),
        Tree::Binary {
            operator,
            int_type,
            left,
            right,
            ..
        } => joined(
            *operator,
            *int_type,
            &tell(left, state),
            &tell(right, state),
        ),
    }
}
