// Laws of origins.

ghost use Rattle.pk_origin.specs.Laws.{TellsOrigins};

/// A line comes from where the last marker before it says; without one, from the text itself.
pub fn markers_tell_origins()
    ensures { TellsOrigins }
{}
