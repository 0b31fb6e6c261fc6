// What is known of an octagon, and behind a guard, an assignment and a join.

ghost use Rattle.std.specs.Prelude.{◌≡◌, ◌≢◌, ◌↔◌, ◌<◌, ◌*◌, ℤ, true, IfSome, Some, None};
ghost use Rattle.pk_octmat.specs.Octagon.{Octagon, IsOctagon};
ghost use Rattle.pk_octops.specs.Assigns.{assignment_of};
ghost use Rattle.pk_octops.specs.Guards.{IsGuard, guard_of};
ghost use Rattle.pk_octops.specs.Tables.{join_of};
ghost use Rattle.pk_octmarks.specs.Marks.{IsMarked, IsFar, changed as changed_of, forgotten as forgotten_of, guarded as guarded_of, joined as joined_of};
ghost use Rattle.pk_octmarks.specs.declared.mark.Mark.TheVariants.{Closed, Unknown};

use crate::far::is_far;
use pk_octmat::Matrix;

/// What is known of an octagon.
#[derive(Clone, Copy)]
pub enum Mark {
    /// It is closed.
    Closed,
    /// It is closed but for the bounds on one variable.
    ClosedBut(u32),
    /// Nothing.
    Unknown,
}

impl Mark {
    /// Whether it says that the octagon is closed.
    pub fn is_closed(self) -> bool
        ensures { (result ≡ true) ↔ (self ≡ Closed) }
    {
        match self {
            Mark::Closed => true,
            Mark::ClosedBut(_) => false,
            Mark::Unknown => false,
        }
    }

    /// Whether it says nothing.
    pub fn is_unknown(self) -> bool
        ensures { (result ≡ true) ↔ (self ≡ Unknown) }
    {
        match self {
            Mark::Closed => false,
            Mark::ClosedBut(_) => false,
            Mark::Unknown => true,
        }
    }

    // Where each bound that has changed is one on variable j and on variable k.
    fn changed(self, j: u32, k: u32) -> Mark
        ensures { result ≡ changed_of self j k }
    {
        match self {
            Mark::Closed => Mark::ClosedBut(j),
            Mark::ClosedBut(i) => {
                if i == j || i == k {
                    Mark::ClosedBut(i)
                } else {
                    Mark::Unknown
                }
            }
            Mark::Unknown => Mark::Unknown,
        }
    }

    // Where variable k is forgotten.
    fn forgotten(self, k: u32) -> Mark
        ensures { result ≡ forgotten_of self k }
    {
        match self {
            Mark::Closed => Mark::Closed,
            Mark::ClosedBut(i) => {
                if i == k {
                    Mark::Closed
                } else {
                    Mark::ClosedBut(i)
                }
            }
            Mark::Unknown => Mark::Unknown,
        }
    }

    /// What is known behind a guard on V(a) + V(b).
    pub fn guarded(self, a: Option<u32>, b: Option<u32>) -> Mark
        ensures value { result ≡ guarded_of self a b }
        ensures holds { (m r : Octagon) (c : ℤ) → IsOctagon m → IsGuard m.vars a b → IsMarked self m →
            guard_of m a b c ≡ Some r → IsMarked result r }
    {
        match (a, b) {
            (None, _) => self,
            (Some(a), None) => self.changed(a / 2, a / 2),
            (Some(a), Some(b)) => self.changed(a / 2, b / 2),
        }
    }

    /// What is known behind x_k := V(term) + c, or behind x_k := anything where there is no term: what is closed stays so where c is added to x_k itself, far from the
    /// cap.
    pub fn assigned(self, m: &Matrix, k: u32, term: Option<u32>) -> Mark
        requires variable { k < m.now.vars }
        requires term { IfSome term (λ t. t < 2 * m.now.vars) }
        ensures free { term ≡ None → result ≡ forgotten_of self k }
        ensures far { self ≡ Closed → term ≡ Some (2 * k) → IsFar m.now k → result ≡ Closed }
        ensures other { term ≢ None → ((self ≡ Closed) × (term ≡ Some (2 * k)) × IsFar m.now k → ⊥) →
            result ≡ changed_of self k k }
        ensures holds { IsMarked self m.now → (c : ℤ) → IsMarked result (assignment_of m.now k term c) }
    {
        m.is_octagon();
        match term {
            None => self.forgotten(k),
            Some(t) => {
                if self.is_closed() && t == 2 * k && is_far(m, k) {
                    return self;
                }
                self.changed(k, k)
            }
        }
    }

    /// What is known of a join.
    pub fn joined(self, other: Mark) -> Mark
        ensures value { result ≡ joined_of self other }
        ensures holds { (a b : Octagon) → IsOctagon a → IsOctagon b → b.vars ≡ a.vars →
            IsMarked self a → IsMarked other b → IsMarked result (join_of a b) }
    {
        match (self, other) {
            (Mark::Closed, _) => other,
            (Mark::ClosedBut(j), Mark::Closed) => Mark::ClosedBut(j),
            (Mark::ClosedBut(j), Mark::ClosedBut(k)) => {
                if j == k {
                    Mark::ClosedBut(j)
                } else {
                    Mark::Unknown
                }
            }
            (Mark::ClosedBut(_), Mark::Unknown) => Mark::Unknown,
            (Mark::Unknown, _) => Mark::Unknown,
        }
    }
}
