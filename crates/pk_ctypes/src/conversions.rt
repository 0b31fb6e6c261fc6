// Ranges of the types, and conversion between them.

ghost use Rattle.std.specs.Prelude.{◌≡◌, pos};
ghost use Rattle.pk_ctypes.specs.Types.{width_of, is_signed_of, rank_of, size_of, low_of, high_of, is_in_type, represents, wrapped};
ghost use Rattle.pk_ctypes.specs.Conversions.{promoted, unsigned_of, mixed_of, common_of, usual_of};

use crate::types::IntType;

/// The least and the greatest number of a type (C99 5.2.4.2.1).
pub fn range(t: IntType) -> (i128, i128)
    ensures low { result.0 ≡ low_of t }
    ensures high { result.1 ≡ high_of t }
{
    match t {
        IntType::Char | IntType::SChar => (-128, 127),
        IntType::UChar => (0, 255),
        IntType::Short => (-32_768, 32_767),
        IntType::UShort => (0, 65_535),
        IntType::Int => (-2_147_483_648, 2_147_483_647),
        IntType::UInt => (0, 4_294_967_295),
        IntType::Long | IntType::LLong => (-9_223_372_036_854_775_808, 9_223_372_036_854_775_807),
        IntType::ULong | IntType::ULLong => (0, 18_446_744_073_709_551_615),
    }
}

/// How many bits a type has.
pub fn width(t: IntType) -> u32
    ensures { result ≡ width_of t }
{
    match t {
        IntType::Char | IntType::SChar | IntType::UChar => 8,
        IntType::Short | IntType::UShort => 16,
        IntType::Int | IntType::UInt => 32,
        IntType::Long | IntType::ULong | IntType::LLong | IntType::ULLong => 64,
    }
}

/// Whether a type has negative numbers.
pub fn is_signed(t: IntType) -> bool
    ensures { result ≡ is_signed_of t }
{
    match t {
        IntType::Char | IntType::SChar => true,
        IntType::Short | IntType::Int | IntType::Long | IntType::LLong => true,
        IntType::UChar | IntType::UShort => false,
        IntType::UInt | IntType::ULong | IntType::ULLong => false,
    }
}

/// Whether a number lies in a type.
pub fn fits(t: IntType, value: i128) -> bool
    ensures { result ≡ is_in_type t value }
{
    let (low, high) = range(t);
    low <= value && value <= high
}

/// How many numbers a type has.
pub fn size(t: IntType) -> i128
    ensures { result ≡ pos (size_of t) }
{
    let (low, high) = range(t);
    high - low + 1
}

/// The conversion of a number to a type (C99 6.3.1.3): the number of the type that is equal to it modulo the type's size.
/// Where C leaves the conversion to a signed type to the implementation, this is what the common compilers do.
pub fn convert(t: IntType, value: i128) -> i128
    ensures { result ≡ wrapped t value }
{
    let (_, high) = range(t);
    let rest = value.rem_euclid(size(t));
    if rest > high { rest - size(t) } else { rest }
}

/// The integer promotion of a type (C99 6.3.1.1).
pub fn promote(t: IntType) -> IntType
    ensures { result ≡ promoted t }
{
    match t {
        IntType::Char | IntType::SChar | IntType::UChar => IntType::Int,
        IntType::Short | IntType::UShort | IntType::Int => IntType::Int,
        IntType::UInt => IntType::UInt,
        IntType::Long => IntType::Long,
        IntType::ULong => IntType::ULong,
        IntType::LLong => IntType::LLong,
        IntType::ULLong => IntType::ULLong,
    }
}

// The conversion rank of a type.
fn rank(t: IntType) -> u8
    ensures { result ≡ rank_of t }
{
    match t {
        IntType::Char | IntType::SChar | IntType::UChar => 1,
        IntType::Short | IntType::UShort => 2,
        IntType::Int | IntType::UInt => 3,
        IntType::Long | IntType::ULong => 4,
        IntType::LLong | IntType::ULLong => 5,
    }
}

// The unsigned type that corresponds to a type.
fn unsigned(t: IntType) -> IntType
    ensures { result ≡ unsigned_of t }
{
    match t {
        IntType::Char | IntType::SChar | IntType::UChar => IntType::UChar,
        IntType::Short | IntType::UShort => IntType::UShort,
        IntType::Int | IntType::UInt => IntType::UInt,
        IntType::Long | IntType::ULong => IntType::ULong,
        IntType::LLong | IntType::ULLong => IntType::ULLong,
    }
}

// Whether a type has each number of another.
fn holds(t: IntType, other: IntType) -> bool
    ensures { result ≡ represents t other }
{
    let (low, high) = range(t);
    let (least, greatest) = range(other);
    low <= least && greatest <= high
}

// The common type of a signed and an unsigned type, both promoted.
fn mixed(signed: IntType, unsigned_type: IntType) -> IntType
    ensures { result ≡ mixed_of signed unsigned_type }
{
    if rank(signed) <= rank(unsigned_type) {
        unsigned_type
    } else if holds(signed, unsigned_type) {
        signed
    } else {
        unsigned(signed)
    }
}

// The common type of two promoted types.
fn common(a: IntType, b: IntType) -> IntType
    ensures { result ≡ common_of a b }
{
    if is_signed(a) == is_signed(b) {
        if rank(a) < rank(b) { b } else { a }
    } else if is_signed(a) {
        mixed(a, b)
    } else {
        mixed(b, a)
    }
}

/// The common type of the usual arithmetic conversions (C99 6.3.1.8). Both types are promoted first.
pub fn usual(a: IntType, b: IntType) -> IntType
    ensures { result ≡ usual_of a b }
{
    common(promote(a), promote(b))
}
