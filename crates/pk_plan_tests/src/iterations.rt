// Two small systems, and the runs that they take.

ghost use Rattle.std.specs.Prelude.{◌≡◌, ◌<◌, IfOk, length};

use pk_iterate::{Cells, Decision, Solve, System, iterate};
use pk_plan::{Order, Place, Role};
use std::alloc::{AllocError, Global};
use std::marker::Model;
use std::sync::Arc;
use std::test::Fail;

// A loop that counts to ten, with a vertex that reads the entry alone. It tells which cells are unchanged, or doesn't.
#[derive(Drop)]
struct Counting {
    tells: bool,
}

impl System for Counting {
    ghost use Rattle.pk_plan_tests.specs.Counting.{counting};
    ghost use Rattle.std.specs.Prelude.{◌≤◌, ℕ};

    type Cell = u64;

    ghost meaning = { λ _. counting };

    ghost may_hold = { λ _ e c. c ≤ 10 };

    ghost use Rattle.pk_plan_tests.specs.Counting_laws.{first-le, bound-le, decision-le};

    ghost first_held = { λ s e. first-le };

    ghost apply_held = { λ s e cells h. bound-le cells };

    ghost decide_held = { λ s x cells h. decision-le cells };

    fn reads(&self, e: u32) -> &[u32] {
        match e {
            1 => &[0, 2, 1],
            2 => &[1],
            3 => &[1, 0, 2],
            5 => &[0],
            _ => &[],
        }
    }

    fn first(&self, _alloc: Global, _e: u32) -> Result<u64, AllocError> {
        Ok(0)
    }

    fn apply(&self, _alloc: Global, _e: u32, inputs: &[Arc<u64>]) -> Result<u64, AllocError> {
        match inputs {
            [a] => Ok(if **a < 10 { **a + 1 } else { 10 }),
            [a, b, c] => Ok((**a).max((**b).max(**c)).min(10)),
            _ => Ok(0),
        }
    }

    fn decide(
        &self,
        _alloc: Global,
        _x: u32,
        inputs: &[Arc<u64>],
    ) -> Result<Decision<u64>, AllocError> {
        match inputs {
            [h, a, b] => {
                if (**a).max(**b) <= **h {
                    Ok(Decision::Stable(0))
                } else {
                    Ok(Decision::Again(0))
                }
            }
            _ => Ok(Decision::Stable(0)),
        }
    }

    fn is_unchanged(&self, _e: u32, old: &u64, new: &u64) -> bool {
        self.tells && old == new
    }
}

// A list behind a model.
#[derive(Drop)]
struct Row {
    items: Vec<u64>,
}

impl Model for Row {
    ghost use Rattle.std.specs.Prelude.{ℕ, List};

    ghost Value = { List ℕ };

    ghost view = { λ r. r.items.items };
}

// Each element's cell becomes the list of a seven.
#[derive(Drop)]
struct Rows;

impl System for Rows {
    ghost use Rattle.pk_plan_tests.specs.Rows.{rows};

    type Cell = Row;

    ghost meaning = { λ _. rows };

    ghost may_hold = { λ _ e c. Unit {0} };

    ghost first_held = { λ s e. tt };

    ghost apply_held = { λ s e cells h. tt };

    ghost decide_held = { λ s x cells h. tt };

    fn reads(&self, _e: u32) -> &[u32] {
        &[]
    }

    fn first(&self, alloc: Global, _e: u32) -> Result<Row, AllocError> {
        Ok(Row {
            items: Vec::new(alloc),
        })
    }

    fn apply(&self, alloc: Global, _e: u32, _inputs: &[Arc<Row>]) -> Result<Row, AllocError> {
        let mut items = Vec::new(alloc);
        items.push(7)?;
        Ok(Row { items })
    }

    fn decide(
        &self,
        alloc: Global,
        _x: u32,
        _inputs: &[Arc<Row>],
    ) -> Result<Decision<Row>, AllocError> {
        let mut items = Vec::new(alloc);
        items.push(7)?;
        Ok(Decision::Stable(Row { items }))
    }
}

// The entry, the loop of a head, a body and a vertex that reads the entry, with its exit, and the end.
fn order(alloc: Global) -> Result<Order, AllocError>
    ensures { IfOk result (λ p. p.elements ≡ 6) }
{
    let places = vec![in alloc;
        Place {
            element: 0,
            role: Role::Vertex
        },
        Place {
            element: 1,
            role: Role::Head
        },
        Place {
            element: 2,
            role: Role::Vertex
        },
        Place {
            element: 5,
            role: Role::Vertex
        },
        Place {
            element: 3,
            role: Role::Exit { back: 3 }
        },
        Place {
            element: 4,
            role: Role::Vertex
        },
    ]?;
    Ok(Order::new(6, places))
}

fn count(alloc: Global, tells: bool, most: u64) -> Result<Cells<u64>, Solve>
    requires { most < 100 }
    ensures cells { IfOk result (λ it. length it.cells ≡ 6) }
    ensures runs { IfOk result (λ it. length it.runs ≡ 6) }
{
    iterate(alloc, &Counting { tells }, &order(alloc)?, most)
}

fn fill(alloc: Global) -> Result<Cells<Row>, Solve>
    ensures cells { IfOk result (λ it. length it.cells ≡ 6) }
    ensures runs { IfOk result (λ it. length it.runs ≡ 6) }
{
    iterate(alloc, &Rows, &order(alloc)?, 1)
}

#[test]
fn eleven_runs_are_enough(rt: HostRuntime) -> Result<(), Fail> {
    let cells = count(rt.alloc(), true, 11).ok().ok_or("no cells")?;
    assert!(rt; cells.run(0) == 1);
    assert!(rt; cells.run(1) == 11);
    assert!(rt; cells.run(3) == 11);
    assert!(rt; cells.run(5) == 11);
    assert!(rt; **cells.cell(1) == 10);
    assert!(rt; **cells.cell(4) == 0);
    assert!(rt; **cells.cell(5) == 1);
    Ok(())
}

#[test]
fn what_is_told_changes_nothing(rt: HostRuntime) -> Result<(), Fail> {
    let told = count(rt.alloc(), true, 11).ok().ok_or("no cells")?;
    let untold = count(rt.alloc(), false, 11).ok().ok_or("no cells")?;
    for e in 0..6 {
        assert!(rt; told.run(e) == untold.run(e));
        assert!(rt; **told.cell(e) == **untold.cell(e));
    }
    Ok(())
}

#[test]
fn fewer_runs_are_too_few(rt: HostRuntime) -> Result<(), Fail> {
    for (most, over, next) in [(10, 1, 11), (0, 0, 1)] {
        let told = count(rt.alloc(), true, most).err();
        assert!(rt;
            matches!(told, Some(Solve::RunLimit { element, run }) if element == over && run == next)
        );
    }
    Ok(())
}

#[test]
fn cells_may_own_memory(rt: HostRuntime) -> Result<(), Fail> {
    let cells = fill(rt.alloc()).ok().ok_or("no cells")?;
    assert!(rt; cells.run(3) == 1);
    assert!(rt; cells.cell(2).items.as_slice() == [7].as_slice());
    Ok(())
}
