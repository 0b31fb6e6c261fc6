// Laws of values, over their definitions.

ghost use Rattle.pk_value.specs.Laws.{ValuesAreSound, IsLattice, IsRank, TightIsReduced};

/// The result of numbers that are known is one of the numbers known of it, for every operator and conversion.
pub fn values_law()
    ensures { ValuesAreSound }
{}

/// Joins and widening steps are above both, what is within has no other numbers, narrowing keeps what both have, and what changes nothing.
pub fn lattice_law()
    ensures { IsLattice }
{}

/// How often a value can still move is a rank of widening steps.
pub fn ranks_law()
    ensures { IsRank }
{}

/// What is tight is its own reduction, what is reduced is tight, and so are joins of tight values.
pub fn tight_law()
    ensures { TightIsReduced }
{}
