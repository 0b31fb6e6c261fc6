// Numbers and integer constants.

ghost use Rattle.std.specs.Prelude.{◌≡◌, ◌≤◌, ◌^◌, ◌==◌, ◌||◌, length, take, IsTrue, MatchOption};
ghost use Rattle.std.specs.List.{list_all, list_any, take_while};
ghost use Rattle.pk_lex.specs.Bytes.{is_digit_of, value_in};
ghost use Rattle.pk_lex.specs.Words.{IsLongest};
ghost use Rattle.pk_lex.specs.Numbers.{goes_on, is_rest_of_number, is_number, is_hexadecimal, base_of, unmarked, suffix_of, longs_of, allows, type_of, constant_of, is_floating};

use crate::bytes::{digit, digit_of, part, split, value_of_digit};
use crate::lines::begins;
use pk_ctypes::{IntType, fits, is_signed, look_up};

// Whether a number goes on with b after another byte.
fn continues(before: u8, b: u8) -> bool
    ensures { result ≡ goes_on before b }
{
    part(b)
        || b == b'.'
        || ((b == b'+' || b == b'-')
            && (before == b'e' || before == b'E' || before == b'p' || before == b'P'))
}

// How many bytes a number goes on with.
fn rest_count(before: u8, text: &[u8]) -> usize
    ensures { IsLongest (is_rest_of_number before) text.now result }
{
    let mut last = before;
    for (i, b) in text.iter().enumerate() {
        if !continues(last, *b) {
            return i;
        }
        last = *b;
    }
    text.len()
}

// Whether a number begins a text, by its first two bytes.
pub(crate) fn at_number(text: &[u8]) -> bool
    ensures { result ≡ (is_number (take 1 text.now) || is_number (take 2 text.now)) }
{
    match text {
        [] => false,
        [a] => digit(*a),
        [a, b, ..] => digit(*a) || (*a == b'.' && digit(*b)),
    }
}

// How many bytes the number has that begins a text.
pub(crate) fn number_count(text: &[u8]) -> usize
    requires { IsTrue (is_number (take 1 text.now) || is_number (take 2 text.now)) }
    ensures { IsLongest is_number text.now result }
{
    match split(text) {
        None => 0,
        Some((a, rest)) => {
            if digit(a) {
                1 + rest_count(a, rest)
            } else {
                match split(rest) {
                    None => 0,
                    Some((b, more)) => 2 + rest_count(b, more),
                }
            }
        }
    }
}

// What a suffix says.
#[derive(Clone, Copy)]
pub(crate) struct Suffix {
    pub(crate) unsigned: bool,
    pub(crate) longs: u8,
}

const PLAIN: Suffix = Suffix {
    unsigned: false,
    longs: 0,
};

const LONG: Suffix = Suffix {
    unsigned: false,
    longs: 1,
};

const LONG_LONG: Suffix = Suffix {
    unsigned: false,
    longs: 2,
};

const UNSIGNED: Suffix = Suffix {
    unsigned: true,
    longs: 0,
};

const UNSIGNED_LONG: Suffix = Suffix {
    unsigned: true,
    longs: 1,
};

const UNSIGNED_LONG_LONG: Suffix = Suffix {
    unsigned: true,
    longs: 2,
};

const SUFFIXES: [(&[u8], Suffix); 23] = [
    (b"", PLAIN),
    (b"l", LONG),
    (b"L", LONG),
    (b"ll", LONG_LONG),
    (b"LL", LONG_LONG),
    (b"u", UNSIGNED),
    (b"U", UNSIGNED),
    (b"ul", UNSIGNED_LONG),
    (b"uL", UNSIGNED_LONG),
    (b"Ul", UNSIGNED_LONG),
    (b"UL", UNSIGNED_LONG),
    (b"lu", UNSIGNED_LONG),
    (b"lU", UNSIGNED_LONG),
    (b"Lu", UNSIGNED_LONG),
    (b"LU", UNSIGNED_LONG),
    (b"ull", UNSIGNED_LONG_LONG),
    (b"uLL", UNSIGNED_LONG_LONG),
    (b"Ull", UNSIGNED_LONG_LONG),
    (b"ULL", UNSIGNED_LONG_LONG),
    (b"llu", UNSIGNED_LONG_LONG),
    (b"llU", UNSIGNED_LONG_LONG),
    (b"LLu", UNSIGNED_LONG_LONG),
    (b"LLU", UNSIGNED_LONG_LONG),
];

#[tactic(auto, unfolding(crate::specs::Numbers::suffix_of))]
fn suffix_of_bytes(bytes: &[u8]) -> Option<Suffix>
    ensures { result ≡ suffix_of bytes.now }
{
    look_up(&SUFFIXES, bytes)
}

// Whether a number begins with `0x`.
fn hexadecimal(number: &[u8]) -> bool
    ensures { result ≡ is_hexadecimal number.now }
{
    match split(number) {
        None => false,
        Some((b, rest)) => b == b'0' && (begins(rest, b'x') || begins(rest, b'X')),
    }
}

// The base in which a number is written.
fn base(number: &[u8]) -> u64
    ensures base { result ≡ base_of number.now }
    ensures from { 8 ≤ result }
    ensures to { result ≤ 16 }
{
    if hexadecimal(number) {
        16
    } else if begins(number, b'0') {
        8
    } else {
        10
    }
}

// A number without the mark of base 16.
fn without_mark(number: &[u8]) -> &[u8]
    ensures { result.now ≡ unmarked number.now }
{
    if hexadecimal(number) {
        &number[2..]
    } else {
        number
    }
}

fn digit_count(base: u64, text: &[u8]) -> usize
    ensures { result ≡ length (take_while (is_digit_of base) text.now) }
{
    text.iter().take_while(|b| digit_of(base, **b)).count()
}

// The number that some digits write, where 64 bits hold it.
pub(crate) fn value(base: u64, digits: &[u8]) -> Option<u64>
    requires from { 8 ≤ base }
    requires to { base ≤ 16 }
    requires digits { IsTrue (list_all (is_digit_of base) digits.now) }
    ensures { MatchOption result (2 ^ 64 ≤ value_in base digits.now) (λ n. n ≡ value_in base digits.now) }
{
    let mut value = 0u64;
    for b in digits {
        let next = value as u128 * base as u128 + value_of_digit(*b) as u128;
        if next > u64::MAX as u128 {
            return None;
        }
        value = next as u64;
    }
    Some(value)
}

fn longs(t: IntType) -> u8
    ensures { result ≡ longs_of t }
{
    match t {
        IntType::Char | IntType::SChar | IntType::UChar => 0,
        IntType::Short | IntType::UShort | IntType::Int | IntType::UInt => 0,
        IntType::Long | IntType::ULong => 1,
        IntType::LLong | IntType::ULLong => 2,
    }
}

fn allowed(is_decimal: bool, suffix: Suffix, t: IntType) -> bool
    ensures { result ≡ allows is_decimal suffix t }
{
    suffix.longs <= longs(t)
        && (if suffix.unsigned {
            !is_signed(t)
        } else {
            is_signed(t) || !is_decimal
        })
}

// The first type that a constant may have and that holds it.
fn constant_type(is_decimal: bool, suffix: Suffix, value: u64) -> Option<IntType>
    ensures { result ≡ type_of is_decimal suffix value }
{
    let types = [
        IntType::Int,
        IntType::UInt,
        IntType::Long,
        IntType::ULong,
        IntType::LLong,
        IntType::ULLong,
    ];
    types
        .iter()
        .find(|t| allowed(is_decimal, suffix, **t) && fits(**t, value as i128))
        .copied()
}

// An integer constant.
#[derive(Clone, Copy)]
pub(crate) struct Constant {
    pub(crate) value: u64,
    pub(crate) ty: IntType,
}

// The value and type of an integer constant.
pub(crate) fn integer(number: &[u8]) -> Option<Constant>
    ensures { result ≡ constant_of number.now }
{
    let base = base(number);
    let text = without_mark(number);
    let (digits, rest) = text.split_at(digit_count(base, text));
    if digits.is_empty() {
        return None;
    }
    let Some(suffix) = suffix_of_bytes(rest) else {
        return None;
    };
    let Some(value) = value(base, digits) else {
        return None;
    };
    let Some(ty) = constant_type(base == 10, suffix, value) else {
        return None;
    };
    Some(Constant { value, ty })
}

// Whether a number has a point.
fn has_point(number: &[u8]) -> bool
    ensures { result ≡ list_any (λ b. b == 46) number.now }
{
    number.iter().any(|b| *b == b'.')
}

// Whether a number has an `e` or an `E`.
fn has_exponent(number: &[u8]) -> bool
    ensures { result ≡ list_any (λ b. b == 101 || b == 69) number.now }
{
    number.iter().any(|b| *b == b'e' || *b == b'E')
}

// Whether a number has a point, or an exponent that isn't a digit.
#[tactic(auto, unfolding(crate::specs::Numbers::is_floating))]
pub(crate) fn floating(number: &[u8]) -> bool
    ensures { result ≡ is_floating number.now }
{
    has_point(number) || (has_exponent(number) && !hexadecimal(number))
}
