// Laws of the first wrong byte.

ghost use Rattle.pk_wrong_byte_laws.specs.Laws.{FirstWrongByteIsFirst};

/// Some report begins with the bytes before the first wrong one of a text, and none with that byte too.
pub fn first_wrong_byte_is_first()
    ensures { FirstWrongByteIsFirst }
{}
