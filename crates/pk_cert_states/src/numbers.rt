// The numbers of one variable.

ghost use Rattle.std.specs.Prelude.{◌≡◌, ◌↔◌, ◌<◌, ◌≤ℤ◌, true, MatchOption, Some, [], ◌∷◌, ◌++◌, length, map};
ghost use Rattle.pk_ctypes.specs.Types.{InType};
ghost use Rattle.pk_interval.specs.Ranges.{IsIn};
ghost use Rattle.pk_congr.specs.Classes.{IsReduced};
ghost use Rattle.pk_octagons.specs.Values.{IsValue};
ghost use Rattle.pk_value.specs.Known.{Known};
ghost use Rattle.pk_cert.specs.Rows.{kept};
ghost use Rattle.pk_cert_states.specs.Lines.{four_of};
ghost use Rattle.pk_cert_states.specs.Parts.{number_of, IsFirst};

use pk_cert::Symbol;
use pk_congr::{Congr, reduced_law};
use pk_ctypes::{IntType, range};
use pk_interval::Interval;
use pk_value::Value;

/// The number that a symbol is, unless it is `*` or too great.
pub(crate) fn number(symbol: Symbol) -> Option<i128>
    ensures { result ≡ number_of symbol }
{
    match symbol {
        Symbol::Star => None,
        Symbol::Number(number) => Some(number),
        Symbol::Far => None,
    }
}

// Whether a class may have this modulus and this rest.
fn is_class(m: i128, r: i128) -> bool
    ensures { (result ≡ true) ↔ IsReduced m r }
{
    if m == 0 {
        r > i128::MIN
    } else {
        0 <= r && r < m
    }
}

// The class with this modulus and this rest.
fn class_of(m: i128, r: i128) -> Option<Congr>
    ensures { MatchOption result (IsReduced m r → ⊥) (λ c. c ≡ record { m = m; r = r }) }
{
    if is_class(m, r) {
        Some(Congr { m, r })
    } else {
        None
    }
}

// The range of a type with these bounds.
fn range_of(t: IntType, lo: i128, hi: i128) -> Option<Interval>
    ensures { MatchOption result (InType t lo → InType t hi → lo ≤ℤ hi → ⊥)
        (λ r. IsIn t r × (r ≡ record { lo = lo; hi = hi }) × (lo ≤ℤ hi)) }
{
    let (low, high) = range(t);
    if low <= lo && lo <= hi && hi <= high {
        Some(Interval { lo, hi })
    } else {
        None
    }
}

// The value of a type with these bounds and this class.
fn value_of(t: IntType, lo: i128, hi: i128, m: i128, r: i128) -> Option<Value>
    ensures { MatchOption result
        ((k : Known) → IsValue t k → four_of k ≡ Some lo ∷ Some hi ∷ Some m ∷ Some r ∷ [] → ⊥)
        (λ v. IsValue t v × (four_of v ≡ Some lo ∷ Some hi ∷ Some m ∷ Some r ∷ [])) }
{
    match range_of(t, lo, hi) {
        None => None,
        Some(interval) => match class_of(m, r) {
            None => None,
            Some(congr) => {
                reduced_law(&congr);
                Some(Value { interval, congr })
            }
        },
    }
}

// The first four symbols, and those behind them.
fn first_four(symbols: &[Symbol]) -> Option<((Symbol, Symbol), (Symbol, Symbol), &[Symbol])>
    ensures { MatchOption result (length symbols.now < 4)
        (λ p. symbols.now ≡ p.0.0 ∷ p.0.1 ∷ p.1.0 ∷ p.1.1 ∷ p.2.now) }
{
    match symbols {
        [lo, hi, m, r, rest @ ..] => Some(((*lo, *hi), (*m, *r), rest)),
        _ => None,
    }
}

/// The value of which the first four symbols are the numbers, and the symbols behind them.
pub fn first_value(symbols: &[Symbol], t: IntType) -> Option<(Value, &[Symbol])>
    ensures { MatchOption result ((k : Known) → IsFirst t symbols.now k → ⊥)
        (λ p. IsValue t p.0 × (symbols.now ≡ map kept (four_of p.0) ++ p.1.now)) }
{
    match first_four(symbols) {
        None => None,
        Some(((lo, hi), (m, r), rest)) => {
            match (number(lo), number(hi), number(m), number(r)) {
                (Some(lo), Some(hi), Some(m), Some(r)) => match value_of(t, lo, hi, m, r) {
                    None => None,
                    Some(value) => Some((value, rest)),
                },
                _ => None,
            }
        }
    }
}
