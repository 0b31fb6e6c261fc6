// Laws of what is done with matrices, as values.

ghost use Rattle.pk_octops.specs.Laws.{ValuesKeep};

/// A join or a widening with a matrix below, and a narrowing by the matrix itself, changes nothing; a widening step is above both; what is made of matrices is one.
pub fn values_keep()
    ensures { ValuesKeep }
{}
