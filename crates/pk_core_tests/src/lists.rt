// Lists of events on small digraphs.

ghost use Rattle.std.specs.Prelude.{◌≤◌, length};

use crate::drives::driven;
use crate::mixing::Mixing;
use crate::plans::{digraph, iterated, mixing_over};
use Event::{Again, Claim, Finish, Offer, Send, Stable};
use pk_core::{Core, Event, PlayError, play};
use pk_iterate::Cells;
use pk_order::ordered;
use std::alloc::Global;
use std::process::Abort;
use std::test::Fail;

// Loops in loops, a jump into a loop, and two branches of loops.
const DIGRAPHS: [(u32, &[(u32, u32)]); 7] = [
    (5, &[(0, 1), (1, 2), (2, 3), (3, 4)]),
    (2, &[(0, 1), (1, 1)]),
    (4, &[(0, 1), (1, 2), (2, 1), (2, 3), (3, 0)]),
    (
        7,
        &[
            (0, 1),
            (1, 2),
            (2, 3),
            (3, 4),
            (4, 5),
            (4, 6),
            (5, 2),
            (6, 3),
        ],
    ),
    (
        11,
        &[
            (0, 1),
            (1, 2),
            (2, 3),
            (3, 4),
            (4, 5),
            (5, 3),
            (5, 6),
            (6, 7),
            (7, 2),
            (7, 8),
            (8, 9),
            (9, 10),
        ],
    ),
    (
        13,
        &[
            (0, 1),
            (1, 2),
            (1, 11),
            (2, 3),
            (3, 4),
            (4, 5),
            (5, 6),
            (5, 8),
            (6, 7),
            (7, 3),
            (8, 9),
            (9, 10),
            (11, 12),
            (12, 5),
        ],
    ),
    (
        9,
        &[
            (0, 1),
            (1, 2),
            (2, 1),
            (2, 3),
            (0, 4),
            (4, 5),
            (5, 6),
            (6, 5),
            (6, 4),
            (3, 7),
            (4, 7),
            (7, 8),
        ],
    ),
];

fn same(core: &Core<Mixing>, cells: &Cells<u64>, elements: u32) -> bool
    requires core { elements ≤ core.now.plan.elements }
    requires cells { elements ≤ length cells.now.cells }
    requires runs { elements ≤ length cells.now.runs }
{
    for e in 0..elements {
        if core.run(e) != cells.run(e) || **core.cell(e) != **cells.cell(e) {
            return false;
        }
    }
    true
}

fn most_runs(cells: &Cells<u64>, elements: u32) -> u64
    requires { elements ≤ length cells.now.runs }
{
    let mut most = 0;
    for e in 0..elements {
        most = cells.run(e).max(most);
    }
    most
}

// Draws of twenty seeds lead to what the iteration leaves, and how often it runs an element at most.
fn driven_as_iterated(
    rt: &impl Abort,
    alloc: Global,
    vertices: u32,
    edges: &[(u32, u32)],
) -> Result<u64, Fail> {
    let graph = digraph(rt, alloc, vertices, edges)?;
    assert!(rt; graph.vertices() < 1000);
    let (plan, order) = ordered(alloc, &graph)?;
    let system = mixing_over(rt, alloc, &graph, &plan)?;
    let cells = iterated(alloc, &system, &order).ok().ok_or("no end")?;
    for seed in 1..21u32 {
        let drive = driven(alloc, &system, &plan, seed)?.ok_or("no end")?;
        assert!(rt; same(&drive.core, &cells, plan.elements()));
    }
    Ok(most_runs(&cells, plan.elements()))
}

#[test]
fn draws_lead_to_the_iteration(rt: HostRuntime) -> Result<(), Fail> {
    let mut most = 0;
    for (vertices, edges) in &DIGRAPHS {
        most = driven_as_iterated(&rt, rt.alloc(), *vertices, edges)?.max(most);
    }
    assert!(rt; most > 4);
    Ok(())
}

// On a line of five vertices, whose END is 5: as far as a list can be played, or the first place where an event isn't enabled.
const ON_A_LINE: [(&[Event], Option<usize>); 9] = [
    (
        &[
            Claim(0),
            Finish(0),
            Send(0, 1),
            Finish(1),
            Send(1, 2),
            Finish(2),
            Send(2, 3),
            Finish(3),
            Send(3, 4),
            Finish(4),
            Send(4, 5),
            Finish(5),
        ],
        None,
    ),
    (&[], None),
    (&[Claim(0), Offer(0), Claim(0), Finish(0)], None),
    (&[Claim(0), Claim(0)], Some(1)),
    (&[Claim(1)], Some(0)),
    (&[Claim(0), Stable(0)], Some(1)),
    (&[Claim(0), Finish(0), Send(0, 1), Send(0, 1)], Some(3)),
    (&[Claim(0), Finish(0), Send(0, 2)], Some(2)),
    (&[Claim(0), Finish(0), Again(9)], Some(2)),
];

fn place_of(error: Option<PlayError>) -> Option<usize> {
    match error {
        Some(PlayError::NotEnabled { place }) => Some(place),
        Some(PlayError::Memory) => Some(1000),
        None => None,
    }
}

#[test]
fn lists_on_a_line(rt: HostRuntime) -> Result<(), Fail> {
    let alloc = rt.alloc();
    let graph = digraph(&rt, alloc, 5, &[(0, 1), (1, 2), (2, 3), (3, 4)])?;
    assert!(rt; graph.vertices() < 1000);
    let (plan, _) = ordered(alloc, &graph)?;
    let system = mixing_over(&rt, alloc, &graph, &plan)?;
    for (events, refused) in &ON_A_LINE {
        let error = play(alloc, &system, &plan, events).err();
        assert_eq!(rt; place_of(error), *refused);
    }
    Ok(())
}
