// The octagon's bounds.

ghost use Rattle.std.specs.Prelude.{◌≡◌, ◌↔◌, ◌<◌, ◌+◌, ◌*◌, ◌%◌, ◌^◌, ℕ, true, Some, IfOk, MatchOption, length};
ghost use Rattle.pk_octmat.specs.Bounds.{IsNear};
ghost use Rattle.pk_cert.specs.Rows.{kept};
ghost use Rattle.pk_octmat.specs.Octagon.{Octagon, HasEntries};
ghost use Rattle.pk_cert_states.specs.Parts.{bound_of, number_of, IsBound, IsFilledTo, AreBoundsOf};

use crate::numbers::number;
use pk_cert::Symbol;
use pk_octmat::{Matrix, bar};
use std::alloc::{AllocError, Global};

// The symbol in a row and a column, as a bound.
fn bound(symbols: &[Symbol], d: usize, i: usize, j: usize) -> Option<i128>
    requires size { length symbols.now ≡ d * d }
    requires row { i < d }
    requires column { j < d }
    ensures { result ≡ bound_of symbols.now d i j }
{
    number(symbols[i * d + j])
}

// Whether a number is within 2^66 of 0.
fn is_near(number: i128) -> bool
    ensures { (result ≡ true) ↔ IsNear (2 ^ 66) (Some number) }
{
    -(1 << 66) <= number && number <= 1 << 66
}

// Whether a symbol is that of a bound, within 2^66 of 0 or none.
fn is_symbol(symbol: Symbol) -> bool
    ensures { (result ≡ true) ↔ (symbol ≡ kept (number_of symbol)) × IsNear (2 ^ 66) (number_of symbol) }
{
    match symbol {
        Symbol::Star => true,
        Symbol::Number(number) => is_near(number),
        Symbol::Far => false,
    }
}

// Whether two bounds are the same.
fn is_same(a: Option<i128>, b: Option<i128>) -> bool
    ensures { (result ≡ true) ↔ (a ≡ b) }
{
    match (a, b) {
        (None, None) => true,
        (Some(a), Some(b)) => a == b,
        (None, Some(_)) => false,
        (Some(_), None) => false,
    }
}

// Whether a symbol may stand in a row and a column of an octagon.
fn is_bound(symbols: &[Symbol], d: usize, i: usize, j: usize) -> bool
    requires size { length symbols.now ≡ d * d }
    requires pairs { d % 2 ≡ 0 }
    requires row { i < d }
    requires column { j < d }
    ensures { (result ≡ true) ↔ IsBound symbols.now d i j }
{
    if !is_symbol(symbols[i * d + j]) {
        return false;
    }
    let here = bound(symbols, d, i, j);
    is_same(here, bound(symbols, d, bar(j), bar(i))) && (i != j || is_same(here, Some(0)))
}

// Whether each may.
fn are_bounds(symbols: &[Symbol], d: usize) -> bool
    requires size { length symbols.now ≡ d * d }
    requires pairs { d % 2 ≡ 0 }
    ensures { (result ≡ true) ↔ ((i j : ℕ) → i < d → j < d → IsBound symbols.now d i j) }
{
    for i in 0..d {
        for j in 0..d {
            if !is_bound(symbols, d, i, j) {
                return false;
            }
        }
    }
    true
}

// Writes the bound in a row and a column of a matrix over n variables that has those before it.
fn put(m: &mut Matrix, symbols: &[Symbol], n: u32, i: u32, j: u32)
    requires size { length symbols.now ≡ 2 * n * (2 * n) }
    requires row { i < 2 * n }
    requires column { j < 2 * n }
    requires bound { IsBound symbols.now (2 * n) i j }
    requires before { IsFilledTo n (bound_of symbols.now (2 * n)) i j m.old }
    requires few { n < 2 ^ 31 }
    ensures { IsFilledTo n (bound_of symbols.now (2 * n)) i (j + 1) m.new }
{
    if i != j {
        let d = 2 * n as usize;
        m.set(i, j, bound(symbols, d, i as usize, j as usize));
    }
}

// The octagon over n variables with these bounds.
fn made(alloc: Global, symbols: &[Symbol], n: u32) -> Result<Matrix, AllocError>
    requires few { n < 2 ^ 31 }
    requires size { length symbols.now ≡ 2 * n * (2 * n) }
    requires bounds { (i j : ℕ) → i < 2 * n → j < 2 * n → IsBound symbols.now (2 * n) i j }
    ensures { IfOk result (HasEntries n (bound_of symbols.now (2 * n))) }
{
    let mut m = Matrix::top(alloc, n)?;
    for i in 0..2 * n {
        for j in 0..2 * n {
            put(&mut m, symbols, n, i, j);
        }
    }
    Ok(m)
}

/// The octagon over n variables of which the symbols are the bounds, row by row, if there is one.
pub fn octagon(alloc: Global, symbols: &[Symbol], n: u32) -> Result<Option<Matrix>, AllocError>
    requires few { n < 2 ^ 31 }
    requires size { length symbols.now ≡ 2 * n * (2 * n) }
    ensures { IfOk result (λ o. MatchOption o ((m : Octagon) → AreBoundsOf n symbols.now m → ⊥)
        (AreBoundsOf n symbols.now)) }
{
    if !are_bounds(symbols, 2 * n as usize) {
        return Ok(None);
    }
    let m = made(alloc, symbols, n)?;
    m.is_octagon();
    Ok(Some(m))
}
