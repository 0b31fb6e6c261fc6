// Guards on one or two places.

ghost use Rattle.std.specs.Prelude.{◌≡◌, ◌≢◌, ◌↔◌, ℕ, ℤ, pos, ◌<ℤ◌, ◌+ℤ◌, ◌-ℤ◌, ◌<◌, ◌*◌, ◌^◌, Option, Some, None};
ghost use Rattle.pk_octmat.specs.Bounds.{AtMost, capped};
ghost use Rattle.pk_octmat.specs.Octagon.{entry, side, bar as other, Meets};
ghost use Rattle.pk_octmat.specs.Bounds.{IsNear};
ghost use Rattle.pk_octmat.specs.Octagon.{IsOctagon};
ghost use Rattle.pk_octmat.specs.Shapes.{left_of};
ghost use Rattle.pk_octops.specs.Guards.{IsGuard, Obeys, guarded, guard_of, lowered, bound_of};
ghost use Rattle.pk_octmat.specs.declared.shape.Shape.TheVariants.{Kept, Empty};

use pk_octmat::{Bound, Matrix, Shape, bar};

/// The place of the negative.
fn opposite(i: u32) -> u32
    ensures { result ≡ other i }
{
    bar(i as usize) as u32
}

/// Twice a number, or one past the cap on its side.
fn twice(c: i128) -> i128
    ensures { capped (Some result) ≡ capped (Some (c +ℤ c)) }
{
    c.saturating_add(c)
}

/// Lowers the bound on V(j) - V(i), and its coherent one.
fn lower(m: &mut Matrix, i: u32, j: u32, c: i128)
    requires row { i < 2 * m.old.vars }
    requires column { j < 2 * m.old.vars }
    requires apart { i ≢ j }
    ensures vars { m.new.vars ≡ m.old.vars }
    ensures value { (a b : ℕ) → entry m.new a b ≡ lowered (entry m.old) i j c a b }
    ensures sound { (x : ℕ → ℤ) → Meets (entry m.old) x → AtMost (Some (side x j -ℤ side x i)) (capped (Some c)) →
        Meets (entry m.new) x }
    ensures was { IsOctagon m.old }
    ensures octagon { IsOctagon m.new }
{
    m.is_octagon();
    let least = m.bound(i, j).lesser(Bound::of(Some(c)));
    m.set(i, j, least.number());
    m.is_octagon();
}

/// Keeps the integers with V(a) + V(b) <= c, where terms that are none are left out: exactly these, where the bound that is stored (2c for one term) lies within 2^66 of 0.
/// Empty where no term is left and c is negative.
pub fn guard(m: &mut Matrix, a: Option<u32>, b: Option<u32>, c: i128) -> Shape
    requires { IsGuard m.old.vars a b }
    ensures vars { m.new.vars ≡ m.old.vars }
    ensures empty { (result ≡ Empty) ↔ ((a ≡ None) × (c <ℤ pos 0)) }
    ensures value { (i j : ℕ) → entry m.new i j ≡ guarded (entry m.old) a b c i j }
    ensures is { left_of result m.new ≡ guard_of m.old a b c }
    ensures sound { (x : ℕ → ℤ) → Meets (entry m.old) x → Obeys x a b c → (result ≡ Kept) × Meets (entry m.new) x }
    ensures exact { result ≡ Kept → IsNear (2 ^ 66) (Some (bound_of b c)) → (x : ℕ → ℤ) → Meets (entry m.new) x →
        Meets (entry m.old) x × Obeys x a b c }
{
    match (a, b) {
        (None, _) => { if c < 0 { Shape::Empty } else { Shape::Kept } }
        (Some(a), None) => {
            lower(m, opposite(a), a, twice(c));
            Shape::Kept
        }
        (Some(a), Some(b)) => {
            lower(m, opposite(b), a, c);
            Shape::Kept
        }
    }
}
