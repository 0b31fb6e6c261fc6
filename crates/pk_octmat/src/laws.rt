// Laws of matrices.

ghost use Rattle.pk_octmat.specs.Laws.{OctagonsAreEntries};

/// A matrix is its bounds: two with the same bounds are one, and coherent bounds near 0 with 0 on the diagonal make one.
pub fn octagons_are_entries()
    ensures { OctagonsAreEntries }
{}
