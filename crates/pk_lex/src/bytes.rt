// The classes of bytes.

ghost use Rattle.std.specs.Prelude.{◌≡◌, ◌∷◌, [], MatchOption, IsTrue};
ghost use Rattle.pk_lex.specs.Bytes.{is_blank, is_white, is_letter, is_digit, is_part, digit_value, is_hexadecimal_digit, is_digit_of};

pub(crate) fn blank(b: u8) -> bool
    ensures { result ≡ is_blank b }
{
    b == b' ' || b == b'\t' || (11 <= b && b <= 13)
}

pub(crate) fn white(b: u8) -> bool
    ensures { result ≡ is_white b }
{
    blank(b) || b == b'\n'
}

pub(crate) fn letter(b: u8) -> bool
    ensures { result ≡ is_letter b }
{
    (b'a' <= b && b <= b'z') || (b'A' <= b && b <= b'Z') || b == b'_'
}

pub(crate) fn digit(b: u8) -> bool
    ensures { result ≡ is_digit b }
{
    b'0' <= b && b <= b'9'
}

pub(crate) fn part(b: u8) -> bool
    ensures { result ≡ is_part b }
{
    letter(b) || digit(b)
}

pub(crate) fn hexadecimal_digit(b: u8) -> bool
    ensures { result ≡ is_hexadecimal_digit b }
{
    digit(b) || (b'a' <= b && b <= b'f') || (b'A' <= b && b <= b'F')
}

// The value of a digit of base 16.
pub(crate) fn value_of_digit(b: u8) -> u64
    requires { IsTrue (is_hexadecimal_digit b) }
    ensures { result ≡ digit_value b }
{
    if digit(b) {
        (b - b'0') as u64
    } else if b'a' <= b {
        (b - 87) as u64
    } else {
        (b - 55) as u64
    }
}

pub(crate) fn digit_of(base: u64, b: u8) -> bool
    ensures { result ≡ is_digit_of base b }
{
    hexadecimal_digit(b) && value_of_digit(b) < base
}

// The first byte and the others.
pub(crate) fn split(bytes: &[u8]) -> Option<(u8, &[u8])>
    ensures { MatchOption result (bytes.now ≡ []) (λ r. bytes.now ≡ r.0 ∷ r.1.now) }
{
    if bytes.is_empty() {
        None
    } else {
        Some((bytes[0], &bytes[1..]))
    }
}
