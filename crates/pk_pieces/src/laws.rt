// Laws of pieces.

ghost use Rattle.pk_pieces.specs.Joined.{ReportsAreJoined};
ghost use Rattle.pk_pieces.specs.Pieces.{AnyOrderIsPut};

/// The report is the join of the pieces of all points.
pub fn reports_are_joined()
    ensures { ReportsAreJoined }
{}

/// Where each point's piece is put, in whatever order, they are found in order of their points.
pub fn any_order_is_put()
    ensures { AnyOrderIsPut }
{}
