// Laws over the definitions.

ghost use Rattle.pk_ctypes.specs.Types.{IsTheConversion, wrapped};
ghost use Rattle.pk_ctypes.specs.Conversions.{ArePromotions, AreUsualConversions, promoted, usual_of};
ghost use Rattle.pk_ctypes.specs.Laws.{ValuesLieInTheirType, DividesTowardZero, ComparisonsAreTruths, FaultsAreTheTable, BitsAreMade};
ghost use Rattle.pk_ctypes.specs.Places.{OrdersPlaces, Before};

/// The conversion of a number is in the type and equal to the number modulo the type's size, and no other number is both (C99 6.3.1.3).
pub fn conversion_law()
    ensures { IsTheConversion wrapped }
{}

/// A promoted type is the one that C99 6.3.1.1 says.
pub fn promotion_law()
    ensures { ArePromotions promoted }
{}

/// A common type is the one that C99 6.3.1.8 says.
pub fn usual_law()
    ensures { AreUsualConversions usual_of }
{}

/// An operator gives a number of its type.
pub fn value_law()
    ensures { ValuesLieInTheirType }
{}

/// A quotient is rounded toward zero, and the rest is what is left, with the dividend's sign (C99 6.5.5).
pub fn division_law()
    ensures { DividesTowardZero }
{}

/// A comparison gives 0 or 1.
pub fn comparison_law()
    ensures { ComparisonsAreTruths }
{}

/// An operation faults exactly where the table of operators has it.
pub fn fault_law()
    ensures { FaultsAreTheTable }
{}

/// The bits of a bitwise result are made of the bits of its operands.
pub fn bits_law()
    ensures { BitsAreMade }
{}

/// Of two places that differ one is before the other, and never both.
pub fn place_law()
    ensures { OrdersPlaces Before }
{}
