// Laws of the accesses of graphs.

ghost use Rattle.pk_verdict.specs.Typed.{AccessesAreOver};

/// The operands of each access of a graph agree with every layout over the table of its variables.
pub fn accesses_law()
    ensures { AccessesAreOver }
{}
