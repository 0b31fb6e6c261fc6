// Laws of lists of octagons, over their definitions.

ghost use Rattle.pk_octagons.specs.Laws.{OctagonsStay, RestingStay, OneIsItself};
ghost use Rattle.pk_octagons.specs.Members.{OctagonsAreSound, ReductionsAreExact};

/// Joins and widening steps are above both, what is below has no other points, and narrowing keeps those of both; assignments and guards keep points, and what is told
/// of two variables holds.
pub fn octagons_are_sound()
    ensures { OctagonsAreSound }
{}

/// Lowering by ranges and closing keeps exactly the points whose numbers lie in the ranges; bounding keeps the numbers of points that meet all octagons, and adds none.
pub fn reductions_are_exact()
    ensures { ReductionsAreExact }
{}

/// What is made of octagons is an octagon for each pack, over its variables.
pub fn octagons_stay()
    ensures { OctagonsStay }
{}

/// Octagons that rest are their own closings, and values that they don't bound stay.
pub fn resting_stay()
    ensures { RestingStay }
{}

/// With one pack, what is done is done with its octagon.
pub fn one_is_itself()
    ensures { OneIsItself }
{}
