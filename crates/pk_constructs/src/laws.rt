// What follows from the definition alone.

ghost use Rattle.pk_constructs.specs.Constructs.{FirstIsDetermined};

/// A text has one first construct at most, and then isn't supported.
pub fn first_is_determined()
    ensures { FirstIsDetermined }
{}
