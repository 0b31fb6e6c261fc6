// Numbers in decimal digits.

ghost use Rattle.std.specs.Prelude.{◌≡◌, ◌<◌, ◌≤◌, ℕ, MatchOption, MatchResult};
ghost use Rattle.pk_cert.specs.Beginnings.{TextsOf, IsStop};
ghost use Rattle.pk_cert.specs.Pieces.{value_of, IsDecimal, IsFirstDigit, IsDigitRead, IsDigitBehind, IsBetween, IsCount, counted};

/// A number of up to 39 digits, of which the last is kept apart.
#[derive(Clone, Copy)]
pub(crate) struct Decimal {
    pub tens: u128,
    pub last: u8,
}

// The number with one more digit, if it is at most this one.
fn with_digit(number: Decimal, b: u8, most: Decimal) -> Option<Decimal>
    requires number { IsDecimal number }
    requires most { IsDecimal most }
    ensures { MatchOption result ((w : ℕ) → IsDigitBehind (value_of number) b w → w ≤ value_of most → ⊥)
        (λ d. IsDecimal d × IsDigitBehind (value_of number) b (value_of d) × (value_of d ≤ value_of most)) }
{
    if b < b'0' || b > b'9' || number.tens >= 10_000_000_000_000_000_000_000_000_000_000_000_000 {
        return None;
    }
    let tens = number.tens * 10 + number.last as u128;
    let last = b - b'0';
    if tens == 0 || tens > most.tens || (tens == most.tens && last > most.last) {
        None
    } else {
        Some(Decimal { tens, last })
    }
}

// The first digit, if it is one from 0 or from 1.
fn first_digit(bytes: &[u8], least: u8) -> Option<Decimal>
    requires { least ≤ 1 }
    ensures { MatchOption result (IsFirstDigit least bytes.now → ⊥) (λ d. IsDigitRead least bytes.now d) }
{
    match bytes.first() {
        None => None,
        Some(b) => {
            if *b < b'0' + least || *b > b'9' {
                None
            } else {
                Some(Decimal {
                    tens: 0,
                    last: *b - b'0',
                })
            }
        }
    }
}

/// The number that stands first, at least 0 or 1 and at most another one, and behind it a byte that ends it; and how many bytes these are.
pub(crate) fn count(
    bytes: &[u8],
    least: u8,
    most: Decimal,
    end: u8,
) -> Result<(Decimal, usize), usize>
    requires least { least ≤ 1 }
    requires most { IsDecimal most }
    requires some { 1 ≤ most.tens }
    requires end { end < 48 }
    ensures { MatchResult result (λ r. IsCount least (value_of most) end bytes.now r.0 r.1)
        (λ n. IsStop (TextsOf (IsBetween least (value_of most)) (counted end)) bytes.now n) }
{
    let mut number = match first_digit(bytes, least) {
        None => return Err(0),
        Some(number) => number,
    };
    for k in 1..bytes.len() {
        if bytes[k] == end {
            return Ok((number, k + 1));
        }
        number = match with_digit(number, bytes[k], most) {
            None => return Err(k),
            Some(next) => next,
        };
    }
    Err(bytes.len())
}
