// The forms of constant expressions.

ghost use Rattle.std.specs.Prelude.{◌≡◌};
ghost use Rattle.pk_ast.specs.Views.{expression_tree};
ghost use Rattle.pk_type_constant.specs.Forms as forms;
ghost use Rattle.pk_type_scope.specs.Scopes.{names_in, scoping_of};

use pk_ast::Expression;
use pk_type_scope::{Scope, is_enumerator};

fn both(a: bool, b: bool) -> bool
    ensures { result ≡ forms.both a b }
{
    a && b
}

/// Whether an expression has the form of a constant expression (C99 6.6) in its scope: integer constants and enumerators, joined by operators that change
/// nothing. The comma is let through, which C99 forbids where it is evaluated.
#[tactic(auto, unfolding(pk_ast::specs::Views::expression_tree, crate::specs::Forms::is_constant_form))]
pub fn is_constant_form(scope: &Scope<'_>, expression: &Expression) -> bool
    ensures { result ≡ forms.is_constant_form (names_in (scoping_of scope.now)) (expression_tree expression.now) }
{
    match expression {
        Expression::Name(x) => is_enumerator(scope.lookup(*x)),
        Expression::Call(_, _) => false,
        Expression::Index(_, _, _) => false,
        Expression::Element { .. } => false,
        Expression::Constant(_, _, _) => true,
        Expression::Character(_, _) => true,
        Expression::Parenthesized(_, inner) => is_constant_form(scope, inner),
        Expression::Postfix(_, _, _) => false,
        Expression::Prefix(_, _, _) => false,
        Expression::Unary(_, _, operand) => is_constant_form(scope, operand),
        Expression::Cast(_, _, operand) => is_constant_form(scope, operand),
        Expression::Binary { left, right, .. } => {
            let first = is_constant_form(scope, left);
            let second = is_constant_form(scope, right);
            both(first, second)
        }
        Expression::Conditional {
            condition,
            if_true,
            if_false,
            ..
        } => {
            let first = is_constant_form(scope, condition);
            let second = is_constant_form(scope, if_true);
            let third = is_constant_form(scope, if_false);
            both(first, both(second, third))
        }
        Expression::Assignment { .. } => false,
        Expression::Comma { left, right, .. } => {
            let first = is_constant_form(scope, left);
            let second = is_constant_form(scope, right);
            both(first, second)
        }
    }
}
