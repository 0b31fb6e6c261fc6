// Laws of tight matrices.

ghost use Rattle.pk_octpoints.specs.Tight.{TightIsBest};

/// Some integers meet a tight matrix, each of its bounds is attained, and what has no bound goes beyond each number: so no bounds that the same integers meet are lower.
pub fn tight_is_best()
    ensures { TightIsBest }
{}
