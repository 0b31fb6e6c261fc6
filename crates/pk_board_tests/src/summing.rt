// A system over any elements.

ghost use Rattle.std.specs.Prelude.{◌≡◌, IfOk, map};
ghost use Rattle.std.specs.Arc.{arc_value};
ghost use Rattle.std.specs.List.{zip};
ghost use Rattle.pk_core.specs.Nested.{total, turn_of};

use pk_iterate::{Decision, System};
use pk_words::Parted;
use std::alloc::{AllocError, Global};
use std::marker::Model;
use std::sync::Arc;

// One more than the sum of the cells.
fn total(cells: &[Arc<u64>]) -> Result<u64, AllocError>
    ensures { IfOk result (λ n. n ≡ total (map arc_value cells.now)) }
{
    match cells {
        [] => Ok(1),
        [cell, rest @ ..] => (**cell).checked_add(total(rest)?).ok_or(AllocError),
    }
}

// For each element those that it reads, and the element to which memory is refused.
#[derive(Drop)]
pub struct Summing {
    pub rows: Vec<Vec<u32>>,
    pub refused: Option<u32>,
}

impl Summing {
    fn granted(&self, e: u32) -> Result<(), AllocError> {
        if self.refused == Some(e) {
            Err(AllocError)
        } else {
            Ok(())
        }
    }
}

impl System for Summing {
    ghost use Rattle.pk_plan.specs.Digraphs.{lists_of};
    ghost use Rattle.pk_board_tests.specs.Summing.{summing};

    type Cell = u64;

    ghost meaning = { λ s. summing (lists_of s.rows.items) };

    ghost may_hold = { λ _ e c. Unit {0} };

    ghost first_held = { λ s e. tt };

    ghost apply_held = { λ s e cells h. tt };

    ghost decide_held = { λ s x cells h. tt };

    fn reads(&self, e: u32) -> &[u32] {
        match self.rows.get(e as usize) {
            None => &[],
            Some(row) => row.as_slice(),
        }
    }

    fn first(&self, _alloc: Global, _e: u32) -> Result<u64, AllocError> {
        Ok(0)
    }

    fn apply(&self, _alloc: Global, e: u32, inputs: &[Arc<u64>]) -> Result<u64, AllocError>
        ensures { IfOk result (λ c. c ≡ total (map arc_value inputs.now)) }
    {
        self.granted(e)?;
        total(inputs)
    }

    fn decide(
        &self,
        _alloc: Global,
        x: u32,
        inputs: &[Arc<u64>],
    ) -> Result<Decision<u64>, AllocError>
        ensures { IfOk result (λ d. d ≡ turn_of (map arc_value inputs.now)) }
    {
        self.granted(x)?;
        match inputs {
            [] => Ok(Decision::Stable(0)),
            [own, ..] => {
                if **own == 0 {
                    Ok(Decision::Again(1))
                } else {
                    Ok(Decision::Stable(0))
                }
            }
        }
    }
}

// The points of an item with their cells.
#[derive(Drop)]
pub struct Values {
    pub of: Vec<(u32, u64)>,
}

impl Model for Values {
    ghost use Rattle.std.specs.Prelude.{ℕ, List};

    ghost Value = { List (ℕ × ℕ) };

    ghost view = { λ v. v.of.items };
}

// The points, each with its cell.
pub fn zipped(
    alloc: Global,
    points: &[u32],
    cells: &[Arc<u64>],
) -> Result<Vec<(u32, u64)>, AllocError>
    ensures { IfOk result (λ v. v.items ≡ zip points.now (map arc_value cells.now)) }
{
    match points {
        [] => Ok(Vec::new(alloc)),
        [point, points @ ..] => match cells {
            [] => Ok(Vec::new(alloc)),
            [cell, cells @ ..] => {
                let mut rest = zipped(alloc, points, cells)?;
                rest.insert(0, (*point, **cell))?;
                Ok(rest)
            }
        },
    }
}

impl Parted for Summing {
    ghost use Rattle.std.specs.List.{zip};

    type Part = Values;

    ghost part_of = { λ s points cells. zip points cells };

    fn part(
        &self,
        alloc: Global,
        points: &[u32],
        cells: &[Arc<u64>],
    ) -> Result<Values, AllocError> {
        Ok(Values {
            of: zipped(alloc, points, cells)?,
        })
    }
}
