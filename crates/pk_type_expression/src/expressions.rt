// The walk over an expression.

ghost use Rattle.std.specs.Prelude.{◌≡◌, ◌&&◌, IfOk, OnOk, length};
ghost use Rattle.pk_ast.specs.Places.{first_place_of};
ghost use Rattle.pk_ast.specs.Views.{expression_tree, expression_trees};
ghost use Rattle.pk_ctypes.specs.declared.words.Rule.TheVariants as rule;
ghost use Rattle.pk_type_scope.specs.Declarations.{is_void};
ghost use Rattle.pk_type_scope.specs.Failures.{fails_if};
ghost use Rattle.pk_type_expression.specs.Mentions.{mentions_of_each};
ghost use Rattle.pk_type_scope.specs.Scopes.{names_in, scoping_of};
ghost use Rattle.pk_type_expression.specs.Typed.{typed_all};
ghost use Rattle.pk_type_scope.specs.Notes.{noted_in, with_failures};
ghost use Rattle.pk_type_expression.specs.Views.{after, after_used, after_all, known_of, known, mentioned_in_each, values_in};

use crate::calls::with_argument;
use crate::checked::{Arguments, Checked};
use crate::{calls, operators};
use pk_ast::{Expression, Specifiers};
use pk_ctypes::Rule;
use pk_type_scope::{Notes, Scope, note_specifiers, type_named};
use std::alloc::{AllocError, Global};

// Notes that an expression is void, where it is used.
fn note_void(notes: &mut Notes, is_used: bool, checked: &Checked, e: &Expression)
    ensures { noted_in notes.new ≡ with_failures (noted_in notes.old)
        (fails_if (is_used && is_void checked.now.typing) rule.Void (first_place_of (expression_tree e.now))) }
{
    if is_used && checked.typing.is_void() {
        notes.fail_if(true, Rule::Void, e.first_place());
    }
}

/// Checks an expression: notes what fails in it and its calls, and gives what is known of it.
#[cycle(expressions)]
pub fn expression(
    alloc: Global,
    scope: &Scope<'_>,
    notes: &mut Notes,
    e: &Expression,
) -> Result<Checked, AllocError>
    ensures notes { OnOk result (noted_in notes.new
        ≡ after (names_in (scoping_of scope.now)) (expression_tree e.now) (noted_in notes.old)) }
    ensures known { IfOk result (λ c. known_of c
        ≡ known (names_in (scoping_of scope.now)) (length notes.old.calls.items) (expression_tree e.now)) }
{
    match e {
        Expression::Name(x) => operators::name(alloc, notes, x.at, scope.lookup(*x)),
        Expression::Call(x, list) => {
            let declared = scope.lookup(*x);
            let site = notes.count();
            notes.call(declared, x.at)?;
            let all = arguments(alloc, scope, notes, list.as_slice())?;
            calls::call(alloc, notes, x.at, declared, site, all)
        }
        Expression::Index(x, at, inner) => {
            let index = used(alloc, scope, notes, inner)?;
            operators::element(alloc, notes, x.at, *at, scope.lookup(*x), index)
        }
        Expression::Element { name, row, column } => {
            let x = name.array;
            let first = used(alloc, scope, notes, row)?;
            let second = used(alloc, scope, notes, column)?;
            operators::row_element(alloc, notes, x.at, scope.lookup(x), first, second)
        }
        Expression::Constant(_, t, n) => operators::constant(alloc, *t, *n),
        Expression::Character(_, n) => operators::character(alloc, n),
        Expression::Parenthesized(_, inner) => expression(alloc, scope, notes, inner),
        Expression::Postfix(op, at, inner) => {
            let operand = used(alloc, scope, notes, inner)?;
            operators::step(alloc, notes, *op, false, *at, operand)
        }
        Expression::Prefix(op, at, inner) => {
            let operand = used(alloc, scope, notes, inner)?;
            operators::step(alloc, notes, *op, true, *at, operand)
        }
        Expression::Unary(op, at, inner) => {
            let operand = used(alloc, scope, notes, inner)?;
            operators::unary(alloc, *op, *at, operand)
        }
        Expression::Cast(_, words, inner) => {
            let words: &Specifiers = words;
            let inner: &Expression = inner;
            note_specifiers(notes, scope, words);
            let to = type_named(scope, words);
            let operand = expression(alloc, scope, notes, inner)?;
            note_void(notes, !to.is_void(), &operand, inner);
            operators::cast(alloc, to, operand)
        }
        Expression::Binary {
            op,
            at,
            left,
            right,
        } => {
            let first = used(alloc, scope, notes, left)?;
            let second = used(alloc, scope, notes, right)?;
            operators::binary(alloc, notes, *op, *at, first, second)
        }
        Expression::Conditional {
            at: _,
            condition,
            if_true,
            if_false,
        } => {
            let first = used(alloc, scope, notes, condition)?;
            let second = used(alloc, scope, notes, if_true)?;
            let third = used(alloc, scope, notes, if_false)?;
            operators::conditional(alloc, first, second, third)
        }
        Expression::Assignment {
            op,
            at,
            left,
            right,
        } => {
            let left: &Expression = left;
            let first = expression(alloc, scope, notes, left)?;
            note_void(notes, op.number_operator().is_some(), &first, left);
            let second = used(alloc, scope, notes, right)?;
            operators::assignment(alloc, notes, *op, *at, first, second)
        }
        Expression::Comma { at: _, left, right } => {
            let first = expression(alloc, scope, notes, left)?;
            let second = expression(alloc, scope, notes, right)?;
            operators::comma(alloc, first, second)
        }
    }
}

/// Checks an expression whose value is used.
#[cycle(expressions)]
pub fn used(
    alloc: Global,
    scope: &Scope<'_>,
    notes: &mut Notes,
    e: &Expression,
) -> Result<Checked, AllocError>
    ensures notes { OnOk result (noted_in notes.new
        ≡ after_used (names_in (scoping_of scope.now)) (expression_tree e.now) (noted_in notes.old)) }
    ensures known { IfOk result (λ c. known_of c
        ≡ known (names_in (scoping_of scope.now)) (length notes.old.calls.items) (expression_tree e.now)) }
{
    let checked = expression(alloc, scope, notes, e)?;
    note_void(notes, true, &checked, e);
    Ok(checked)
}

/// Checks expressions, the value of each of which is used: arguments, or values in braces.
#[cycle(expressions)]
pub fn arguments(
    alloc: Global,
    scope: &Scope<'_>,
    notes: &mut Notes,
    list: &[Expression],
) -> Result<Arguments, AllocError>
    ensures notes { OnOk result (noted_in notes.new
        ≡ after_all (names_in (scoping_of scope.now)) (expression_trees list.now) (noted_in notes.old)) }
    ensures mentions { IfOk result (λ r. mentioned_in_each r
        ≡ mentions_of_each (names_in (scoping_of scope.now)) (expression_trees list.now)) }
    ensures values { IfOk result (λ r. values_in r
        ≡ typed_all (names_in (scoping_of scope.now)) (length notes.old.calls.items) (expression_trees list.now)) }
{
    let mut all = Arguments::none(alloc);
    for e in list {
        let argument = used(alloc, scope, notes, e)?;
        all = with_argument(all, argument)?;
    }
    Ok(all)
}
