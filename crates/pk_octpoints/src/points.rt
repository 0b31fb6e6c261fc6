// Points of tight matrices: one number after the other, each as near to a wish as the bounds to the others allow.

ghost use Rattle.std.specs.Prelude.{◌∷◌, ◌++◌, ◌<ℤ◌, ◌-ℤ◌, ◌+ℤ◌, ◌≡◌, ◌≢◌, ◌<◌, ◌*◌, ◌+◌, ◌-◌, ◌/◌, ◌^◌, ◌≤ℤ◌};
ghost use Rattle.std.specs.Prelude.{IfOk, OnOk, List, map, [], false, None, ℕ, ℤ, pos, negsuc, length, Some, Option};
ghost use Rattle.pk_octmat.specs.Bounds.{AtMost, IsNear, halved, is_none as none_of};
ghost use Rattle.pk_octmat.specs.Octagon.{entry, bar as other};
ghost use Rattle.pk_octpoints.specs.Tight.{IsTight};
ghost use Rattle.pk_octpoints.specs.Points.{number_at, nearest_in, number_or_zero as number_of, Attains, IsPoint, AreNear, IsPart, IsThere, Keeps};
ghost use Rattle.pk_octpoints.specs.Parts as parts;

use pk_octmat::{Bound, Matrix, bar};
use std::alloc::{AllocError, Global};

/// The place of the negative.
fn opposite(i: u32) -> u32
    ensures { result ≡ other i }
{
    bar(i as usize) as u32
}

/// The negative of a number that is there.
fn negative(number: Bound) -> Bound
    requires { IsNear (2 ^ 99) number }
    ensures { result ≡ parts.opposite number }
{
    match number.number() {
        None => Bound::none(),
        Some(z) => Bound::exactly(-z),
    }
}

/// V(i), if its number is there.
fn side(part: &[Bound], i: u32) -> Bound
    requires place { i / 2 < length part.now }
    requires near { AreNear (2 ^ 99) part.now }
    ensures value { result ≡ parts.part_side (number_at part.now) i }
    ensures near { IsNear (2 ^ 99) result }
{
    let number = part[i as usize / 2];
    if i % 2 == 0 { number } else { negative(number) }
}

/// The least bound on V(p): half of its own, and what the numbers that are there give.
fn upper(m: &Matrix, part: &[Bound], p: u32) -> Bound
    requires size { length part.now ≡ m.now.vars }
    requires place { p < 2 * m.now.vars }
    requires near { AreNear (2 ^ 99) part.now }
    ensures { result ≡ parts.bound_by (entry m.now) (number_at part.now) p (2 * m.now.vars) }
{
    m.is_octagon();
    let mut least = m.bound(opposite(p), p).halved();
    for i in 0..2 * m.vars {
        least = least.lesser(side(part, i).plus(m.bound(i, p)));
    }
    least
}

/// A number raised to where its negative is at most a bound.
fn raised(wish: i128, low: Bound) -> i128
    requires { IsNear (2 ^ 100) low }
    ensures { result ≡ parts.raised wish low }
{
    match low.number() {
        None => wish,
        Some(l) => if wish < -l { -l } else { wish },
    }
}

/// A number lowered to a bound.
fn lowered(wish: i128, high: Bound) -> i128
    ensures { result ≡ parts.lowered wish high }
{
    match high.number() {
        None => wish,
        Some(h) => if h < wish { h } else { wish },
    }
}

/// The number of p's variable where V(p) is v.
fn signed(p: u32, v: i128) -> Bound
    requires low { negsuc (2 ^ 100 - 1) ≤ℤ v }
    requires high { v ≤ℤ pos (2 ^ 100) }
    ensures { result ≡ Some (parts.signed p v) }
{
    if p % 2 == 0 {
        Bound::exactly(v)
    } else {
        Bound::exactly(-v)
    }
}

/// Gives V(p) the number nearest to a wish.
fn place(m: &Matrix, part: &mut [Bound], p: u32, wish: i128)
    requires tight { IsTight m.now.vars (entry m.now) }
    requires place { p < 2 * m.now.vars }
    requires part { (k : ℕ) × (k < 2 ^ 32) × IsPart m.now k part.old × IsNear ((k + 1) * 2 ^ 66) (Some wish) }
    ensures part { (k : ℕ) → IsPart m.now k part.old → IsNear ((k + 1) * 2 ^ 66) (Some wish) →
        IsPart m.now (k + 1) part.new }
    ensures here { parts.part_side (number_at part.new) p ≡ Some (nearest_in m.now part.old p wish) }
    ensures others { (k : ℕ) → k ≢ p / 2 → number_at part.new k ≡ number_at part.old k }
{
    m.is_octagon();
    let high = upper(m, part, p);
    let low = upper(m, part, opposite(p));
    let at = p as usize / 2;
    part[at] = signed(p, lowered(raised(wish, low), high));
}

/// What V(i) is wished to be for V(j) to be c above it.
fn first_wish(m: &Matrix, i: u32, j: u32, c: i128) -> i128
    requires row { i < 2 * m.now.vars }
    requires column { j < 2 * m.now.vars }
    requires low { negsuc (2 ^ 67 - 1) ≤ℤ c }
    requires high { c ≤ℤ pos (2 ^ 67) }
    ensures value { result ≡ parts.wish c (halved (entry m.now (other j) j)) (entry m.now (other i) j) }
    ensures low { negsuc (2 ^ 68 - 1) ≤ℤ result }
    ensures high { result ≤ℤ pos (2 ^ 68) }
{
    m.is_octagon();
    let less = Bound::exactly(-c);
    let high = m.bound(opposite(j), j).halved();
    let over = m.bound(opposite(i), j);
    lowered(lowered(0, high.plus(less)), over.plus(less).halved())
}

/// Gives V(i) its number, where there is none yet.
fn place_first(m: &Matrix, part: &mut [Bound], i: u32, j: u32, c: i128)
    requires tight { IsTight m.now.vars (entry m.now) }
    requires row { i < 2 * m.now.vars }
    requires column { j < 2 * m.now.vars }
    requires low { negsuc (2 ^ 67 - 1) ≤ℤ c }
    requires high { c ≤ℤ pos (2 ^ 67) }
    requires size { length part.old ≡ m.now.vars }
    requires none { (k : ℕ) → number_at part.old k ≡ None }
    ensures part { IsPart m.now 5 part.new }
    ensures first { parts.IsFirst (entry m.now) i j c (number_at part.new) }
{
    place(m, part, i, first_wish(m, i, j, c));
}

/// Gives V(j) its number, at least c above V(i), unless its variable has one.
fn place_second(m: &Matrix, part: &mut [Bound], i: u32, j: u32, c: i128)
    requires tight { IsTight m.now.vars (entry m.now) }
    requires row { i < 2 * m.now.vars }
    requires column { j < 2 * m.now.vars }
    requires low { negsuc (2 ^ 67 - 1) ≤ℤ c }
    requires high { c ≤ℤ pos (2 ^ 67) }
    requires apart { i ≢ j }
    requires within { AtMost (Some c) (entry m.now i j) }
    requires part { IsPart m.now 5 part.old }
    requires first { parts.IsFirst (entry m.now) i j c (number_at part.old) }
    ensures part { IsPart m.now 7 part.new }
    ensures apart { parts.AreApart i j c (number_at part.new) }
{
    if i / 2 == j / 2 {
        return;
    }
    match side(part, i).number() {
        Some(from) => place(m, part, j, from + c),
        None => {}
    }
}

/// Gives variable k a number as near to 0 as may be, unless it has one.
fn place_rest(m: &Matrix, part: &mut [Bound], k: u32)
    requires tight { IsTight m.now.vars (entry m.now) }
    requires variable { k < m.now.vars }
    requires part { (n : ℕ) × (n < 2 ^ 32) × IsPart m.now n part.old }
    ensures part { (n : ℕ) → IsPart m.now n part.old → IsPart m.now (n + 1) part.new }
    ensures kept { Keeps part.old part.new }
    ensures there { IsThere part.new k }
{
    m.is_octagon();
    match part[k as usize].number() {
        None => place(m, part, 2 * k, 0),
        Some(_) => {}
    }
}

/// Gives each variable a number that has none.
fn place_all(m: &Matrix, part: &mut [Bound])
    requires tight { IsTight m.now.vars (entry m.now) }
    requires part { IsPart m.now 7 part.old }
    ensures size { length part.new ≡ m.now.vars }
    ensures near { AreNear (2 ^ 99) part.new }
    ensures meets { parts.MeetsThere (2 * m.now.vars) (entry m.now) (number_at part.new) }
    ensures kept { Keeps part.old part.new }
    ensures there { (k : ℕ) → k < m.now.vars → IsThere part.new k }
{
    m.is_octagon();
    for k in 0..m.vars {
        place_rest(m, part, k);
    }
}

/// Adds the number of a variable.
fn add_number(all: &mut Vec<i128>, number: Bound) -> Result<(), AllocError>
    ensures { OnOk result (all.new.items ≡ all.old.items ++ (number_of number ∷ [])) }
{
    match number.number() {
        None => {
            all.push(0)?;
            Ok(())
        }
        Some(z) => {
            all.push(z)?;
            Ok(())
        }
    }
}

/// The numbers of a list in which all are there.
fn numbers(alloc: Global, part: &[Bound]) -> Result<Vec<i128>, AllocError>
    ensures { IfOk result (λ xs. xs.items ≡ map number_of part.now) }
{
    let mut all = Vec::new(alloc);
    for k in 0..part.len() {
        add_number(&mut all, part[k])?;
    }
    Ok(all)
}

/// Integers that meet a tight matrix, with V(j) - V(i) at least c, by a list of no numbers.
fn reach_in(
    alloc: Global,
    m: &Matrix,
    part: &mut [Bound],
    i: u32,
    j: u32,
    c: i128,
) -> Result<Vec<i128>, AllocError>
    requires tight { IsTight m.now.vars (entry m.now) }
    requires row { i < 2 * m.now.vars }
    requires column { j < 2 * m.now.vars }
    requires apart { i ≢ j }
    requires within { AtMost (Some c) (entry m.now i j) }
    requires low { negsuc (2 ^ 67 - 1) ≤ℤ c }
    requires high { c ≤ℤ pos (2 ^ 67) }
    requires size { length part.old ≡ m.now.vars }
    requires none { (k : ℕ) → number_at part.old k ≡ None }
    ensures { IfOk result (λ xs. IsPoint m.now i j c xs.items) }
{
    place_first(m, part, i, j, c);
    place_second(m, part, i, j, c);
    place_all(m, part);
    numbers(alloc, part)
}

/// Integers that meet a tight matrix, with V(j) - V(i) at least c.
fn reach(alloc: Global, m: &Matrix, i: u32, j: u32, c: i128) -> Result<Vec<i128>, AllocError>
    requires tight { IsTight m.now.vars (entry m.now) }
    requires row { i < 2 * m.now.vars }
    requires column { j < 2 * m.now.vars }
    requires apart { i ≢ j }
    requires within { AtMost (Some c) (entry m.now i j) }
    requires low { negsuc (2 ^ 67 - 1) ≤ℤ c }
    requires high { c ≤ℤ pos (2 ^ 67) }
    ensures { IfOk result (λ xs. IsPoint m.now i j c xs.items) }
{
    m.is_octagon();
    let mut part = vec![in alloc; Bound::none(); m.vars as usize]?;
    reach_in(alloc, m, &mut part, i, j, c)
}

/// Integers that meet a tight matrix, with V(j) - V(i) equal to its bound.
pub fn point(alloc: Global, m: &Matrix, i: u32, j: u32) -> Result<Vec<i128>, AllocError>
    requires tight { IsTight m.now.vars (entry m.now) }
    requires row { i < 2 * m.now.vars }
    requires column { j < 2 * m.now.vars }
    requires apart { i ≢ j }
    requires number { none_of (entry m.now i j) ≡ false }
    ensures { IfOk result (λ xs. Attains m.now i j xs.items) }
{
    match m.get(i, j) {
        Some(c) => reach(alloc, m, i, j, c),
        None => reach(alloc, m, i, j, 0),
    }
}

/// Integers that meet a tight matrix, with V(j) - V(i) above b, where it has no bound.
pub fn point_past(
    alloc: Global,
    m: &Matrix,
    i: u32,
    j: u32,
    b: i128,
) -> Result<Vec<i128>, AllocError>
    requires tight { IsTight m.now.vars (entry m.now) }
    requires row { i < 2 * m.now.vars }
    requires column { j < 2 * m.now.vars }
    requires apart { i ≢ j }
    requires none { entry m.now i j ≡ None }
    requires low { negsuc (2 ^ 64 - 1) ≤ℤ b }
    requires high { b ≤ℤ pos (2 ^ 64) }
    ensures { IfOk result (λ xs. IsPoint m.now i j (b +ℤ pos 1) xs.items) }
{
    reach(alloc, m, i, j, b + 1)
}
