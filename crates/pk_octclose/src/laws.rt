// Laws of closing, for every matrix.

ghost use Rattle.pk_octclose.specs.Laws.{ClosingIsDetermined, ClosingIsClosed, ClosedStayClosed};
ghost use Rattle.pk_octclose.specs.Places.{ClosingIsRight};
ghost use Rattle.pk_octclose.specs.Same.{ClosingIsOfPoints};

/// A matrix has at most one closing, and none where it is empty.
pub fn closing_is_determined()
    ensures { ClosingIsDetermined }
{}

/// The closing of a matrix is closed: closing it again changes nothing.
pub fn closing_is_closed()
    ensures { ClosingIsClosed }
{}

/// The closing that is found place by place is the closing by least sums of walks, and there is none exactly where the matrix is empty.
pub fn closing_by_places()
    ensures { ClosingIsRight }
{}

/// Where closed matrices are joined, or one loses a variable's bounds, or a variable and its negative change places, or a constant is added along far from the cap, the result is closed.
pub fn closed_stay_closed()
    ensures { ClosedStayClosed }
{}

/// Over at most 64 variables, octagons with small bounds that the same integers meet have the same closing, and none exactly where none meet them.
pub fn closing_is_of_points()
    ensures { ClosingIsOfPoints }
{}
