// What the definitions say together.

ghost use Rattle.pk_type_scope.specs.Failures.{TheFirstIsAnswered};

/// The failure that is answered is one of those that there are: none stands before it, and none at its place has an upper rule.
pub fn first_law()
    ensures { TheFirstIsAnswered }
{}
