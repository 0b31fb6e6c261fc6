// A law of the definitions.

ghost use Rattle.pk_board.specs.Nested.{NestedMeetsBoard};

/// A plan with a component in a component, and a system on it, meet all that a board asks.
pub fn nested_meets_board()
    ensures { NestedMeetsBoard }
{}
