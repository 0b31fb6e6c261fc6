// The range of one variable.

ghost use Rattle.std.specs.Prelude.{◌≡◌, ℕ, ℤ, ◌+◌, ◌*◌, ◌<◌, Some};
ghost use Rattle.pk_octmat.specs.Bounds.{AtMost, halved};
ghost use Rattle.pk_octmat.specs.Octagon.{entry, Meets};
ghost use Rattle.pk_octops.specs.Values.{least_of, IsFrom};

use pk_octmat::Matrix;

/// The least number, from a bound on twice its negative.
fn least(bound: Option<i128>) -> Option<i128>
    ensures { result ≡ least_of bound }
{
    match bound {
        None => None,
        Some(z) => Some(-z.div_euclid(2)),
    }
}

/// The least and the greatest number of variable k, each none where it has no bound.
pub fn bounds(m: &Matrix, k: u32) -> (Option<i128>, Option<i128>)
    requires { k < m.now.vars }
    ensures least { result.0 ≡ least_of (entry m.now (2 * k) (2 * k + 1)) }
    ensures greatest { result.1 ≡ halved (entry m.now (2 * k + 1) (2 * k)) }
    ensures sound { (x : ℕ → ℤ) → Meets (entry m.now) x → IsFrom result.0 (x k) × AtMost (Some (x k)) result.1 }
{
    m.is_octagon();
    (
        least(m.get(2 * k, 2 * k + 1)),
        m.bound(2 * k + 1, 2 * k).halved().number(),
    )
}
