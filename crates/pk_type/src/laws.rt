// What follows from the definitions alone.

ghost use Rattle.pk_type.specs.Laws.{ChecksLeaveTheUnit};

/// A text has the same typed unit whatever is checked on the way, and whatever was found before.
pub fn checks_leave_the_unit<F, G>()
    ensures { ChecksLeaveTheUnit F G }
{}
