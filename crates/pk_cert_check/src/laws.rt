// Laws of the check.

ghost use Rattle.pk_cert_check.specs.Laws.{OneCheck, EveryCheckEnds};

use pk_sound::families_are_tested;

/// Cells solve all equations, or there is one first point at which they don't, and not both.
pub fn one_check()
    ensures { OneCheck }
{
    families_are_tested();
}

/// Cells that hold facts of the layout solve all equations, or there is a first point at which they don't.
pub fn every_check_ends()
    ensures { EveryCheckEnds }
{
    families_are_tested();
}
