// Numbers of lines, as they may be read: what is made of them is compared with the bytes.

ghost use Rattle.std.specs.Prelude.{◌≡◌, ◌≤◌, IfOk, length};

use pk_cert::Symbol;
use std::alloc::{AllocError, Global};

// Digits as a number, where these are eighteen at most.
fn short(digits: &[u8]) -> u64 {
    let mut number = 0u64;
    for b in digits {
        number = number
            .wrapping_mul(10)
            .wrapping_add(u64::from(b.wrapping_sub(b'0')));
    }
    number
}

// Digits as a number, where these are thirty-six at most.
fn long(digits: &[u8]) -> i128 {
    let n = digits.len();
    if n <= 18 {
        return i128::from(short(digits));
    }
    i128::from(short(&digits[..n - 18])) * 1_000_000_000_000_000_000
        + i128::from(short(&digits[n - 18..]))
}

// How many bytes stand before the first space or line's end.
fn size(bytes: &[u8]) -> usize
    ensures { result ≤ length bytes.now }
{
    for k in 0..bytes.len() {
        if bytes[k] <= b' ' {
            return k;
        }
    }
    bytes.len()
}

// A symbol of these bytes.
fn symbol(bytes: &[u8]) -> Symbol {
    match bytes.first() {
        Some(b'*') => Symbol::Star,
        Some(b'-') => Symbol::Number(long(&bytes[1..]).wrapping_neg()),
        _ => Symbol::Number(long(bytes)),
    }
}

// The symbol that may stand at a place, and the place behind it.
fn next(bytes: &[u8], at: usize) -> (Symbol, usize) {
    if bytes.len() <= at {
        return (Symbol::Star, at);
    }
    let rest = &bytes[at..];
    let n = size(rest);
    (symbol(&rest[..n]), at + n + 1)
}

/// So many symbols that may stand first.
pub(crate) fn symbols(alloc: Global, bytes: &[u8], count: usize) -> Result<Vec<Symbol>, AllocError>
    ensures { IfOk result (λ v. length v.items ≡ count) }
{
    let mut out = Vec::with_capacity(alloc, count)?;
    let mut at = 0;
    for _ in 0..count {
        let (symbol, to) = next(bytes, at);
        out.push(symbol)?;
        at = to;
    }
    Ok(out)
}
