// Laws of certificates, over their definitions.

ghost use Rattle.pk_cert.specs.Laws.{FirstWrongIsOne, HeadsAreTold, LinesAreTold, EveryHeadEnds, EveryLinesEnd};

/// Bytes have at most one first wrong byte, and none if they have a head, or are a certificate.
pub fn first_wrong_is_one()
    ensures { FirstWrongIsOne }
{}

/// A head and what stands behind it are told by their bytes.
pub fn heads_are_told()
    ensures { HeadsAreTold }
{}

/// Certificates with the same bytes are the same.
pub fn lines_are_told()
    ensures { LinesAreTold }
{}

/// All bytes begin with a head, or have a first byte with which none goes on.
pub fn every_head_ends()
    ensures { EveryHeadEnds }
{}

/// Bytes that begin with a head are a certificate, or have a first byte with which none goes on.
pub fn every_lines_end()
    ensures { EveryLinesEnd }
{}
