// What follows from the definition alone.

ghost use Rattle.pk_typenames.specs.TypeNames.{OneMarking};

/// Of every text and its tokens there is exactly one marking.
pub fn one_marking()
    ensures { OneMarking }
{}
