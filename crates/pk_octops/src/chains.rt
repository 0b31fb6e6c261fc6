// Laws of widening, for every chain of matrices.

ghost use Rattle.pk_octops.specs.Chains.{WideningLosesNumbers, WideningChainsEnd, NumbersAreRanks};

/// Where a matrix is widened by one that isn't below it, a bound that was a number becomes none.
pub fn widening_loses_numbers()
    ensures { WideningLosesNumbers }
{}

/// A chain of such steps is no longer than a matrix has bounds.
pub fn widening_chains_end()
    ensures { WideningChainsEnd }
{}

/// The number of its bounds that are numbers never rises as a matrix is widened, and falls where the other isn't below.
pub fn numbers_are_ranks()
    ensures { NumbersAreRanks }
{}
