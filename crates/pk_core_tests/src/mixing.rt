// A system whose cells tell what was read, and in which order.

ghost use Rattle.std.specs.Prelude.{◌≡◌, ◌<◌, map};
ghost use Rattle.std.specs.Arc.{arc_value};
ghost use Rattle.pk_core_tests.specs.Mixing.{mixed_more, mixed_from};

use pk_iterate::{Decision, System};
use std::alloc::{AllocError, Global};
use std::sync::Arc;

// For each element those that it reads.
#[derive(Drop)]
pub struct Mixing {
    pub rows: Vec<Vec<u32>>,
}

fn mixed_more(so_far: u64, cell: u64) -> u64
    requires { so_far < 65521 }
    ensures mixed { result ≡ mixed_more so_far cell }
    ensures few { result < 65521 }
{
    (so_far * 31 + cell % 65521 + 7) % 65521
}

fn mixed(first: u64, cells: &[Arc<u64>]) -> u64
    requires { first < 65521 }
    ensures { result ≡ mixed_from first (map arc_value cells.now) }
{
    let mut so_far = first;
    for cell in cells {
        so_far = mixed_more(so_far, **cell);
    }
    so_far
}

impl System for Mixing {
    ghost use Rattle.pk_plan.specs.Digraphs.{lists_of};
    ghost use Rattle.pk_core_tests.specs.Mixing.{mixing};

    type Cell = u64;

    ghost meaning = { λ s. mixing (lists_of s.rows.items) };

    ghost may_hold = { λ _ e c. Unit {0} };

    ghost first_held = { λ s e. tt };

    ghost apply_held = { λ s e cells h. tt };

    ghost decide_held = { λ s x cells h. tt };

    fn reads(&self, e: u32) -> &[u32] {
        match self.rows.get(e as usize) {
            None => &[],
            Some(row) => row.as_slice(),
        }
    }

    fn first(&self, _alloc: Global, _e: u32) -> Result<u64, AllocError> {
        Ok(0)
    }

    fn apply(&self, _alloc: Global, _e: u32, inputs: &[Arc<u64>]) -> Result<u64, AllocError> {
        Ok(mixed(1, inputs))
    }

    fn decide(
        &self,
        _alloc: Global,
        _x: u32,
        inputs: &[Arc<u64>],
    ) -> Result<Decision<u64>, AllocError> {
        match inputs {
            [own, others @ ..] => {
                let own = **own % 65521;
                if own % 4 == 3 || mixed(own, others) % 4 == 0 {
                    Ok(Decision::Stable(0))
                } else {
                    Ok(Decision::Again(own % 4 + 1))
                }
            }
            [] => Ok(Decision::Stable(0)),
        }
    }
}
