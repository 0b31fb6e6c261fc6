// What is known of a tree's value.

ghost use Rattle.std.specs.Prelude.{◌≡◌, IfSome};
ghost use Rattle.pk_graph.specs.Kinds.{IsTyped, type_of};
ghost use Rattle.pk_graph.specs.Views.{tree_view};
ghost use Rattle.pk_octagons.specs.Values.{IsValue};
ghost use Rattle.pk_state.specs.Changes.{known_in};
ghost use Rattle.pk_transfer.specs.Trees.{tree_known, kinds_of};

use pk_graph::Tree;
use pk_state::State;
use pk_value::{Value, convert, operate};

/// What is known of a tree's value; none where no store gives it one.
#[tactic(auto, unfolding(pk_graph::specs::Views::tree_view))]
pub fn value(e: &Tree, state: &State) -> Option<Value>
    requires { IsTyped (kinds_of state.now.layout) (tree_view e.now) }
    ensures value { result ≡ tree_known (known_in state.now.facts) (tree_view e.now) }
    ensures inside { IfSome result (IsValue (type_of (kinds_of state.now.layout) (tree_view e.now))) }
{
    match e {
        Tree::Variable(x) => state.value(*x),
        Tree::Constant(_, c) => Some(Value::exactly(*c)),
        Tree::Converted(t, e) => match value(e, state) {
            None => None,
            Some(known) => convert(*t, &known),
        },
        Tree::Unary(op, _, t, e) => match value(e, state) {
            None => None,
            Some(known) => operate(*op, *t, &known, &known),
        },
        Tree::Binary {
            operator,
            int_type,
            left,
            right,
            ..
        } => match value(left, state) {
            None => None,
            Some(a) => match value(right, state) {
                None => None,
                Some(b) => operate(*operator, *int_type, &a, &b),
            },
        },
    }
}
