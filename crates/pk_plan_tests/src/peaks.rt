// The peaks of orders.

use crate::graphs::digraph;
use pk_order::ordered;
use pk_peak::peak;
use std::test::Fail;

const PEAKS: [(u32, &str, u32); 12] = [
    (5, "0-1 1-2 2-3 3-4", 2),
    (8, "0-1 1-2 2-3 2-5 3-4 4-2 5-6 6-7", 4),
    (
        13,
        "0-1 1-2 2-3 2-10 3-4 4-5 5-6 5-8 6-7 7-5 8-9 9-2 10-11 11-12",
        9,
    ),
    (
        13,
        "0-1 1-2 1-11 2-3 3-4 4-5 5-6 5-8 6-7 7-3 8-9 9-10 11-12 12-5",
        7,
    ),
    (
        17,
        "0-1 1-2 2-3 3-4 3-12 4-5 5-6 5-8 6-7 7-5 8-9 9-10 10-11 12-13 13-14 13-16 14-15 15-13 16-9",
        5,
    ),
    (1, "0-0", 1),
    (4, "0-1 0-2 1-3 2-3", 3),
    (2, "0-1 1-1", 2),
    (9, "0-1 1-2 2-3 2-7 3-4 4-5 5-6 6-2 7-8 8-4", 8),
    (9, "0-1 1-2 2-3 2-6 3-4 4-5 5-5 6-7 7-8 8-2", 5),
    (
        16,
        "0-1 1-2 2-3 2-14 3-4 4-5 4-10 5-6 6-7 6-8 7-2 8-9 9-4 10-11 11-12 12-13 14-15 15-6",
        11,
    ),
    (
        18,
        "0-1 1-2 2-3 2-11 3-4 4-5 5-6 5-7 6-4 7-8 8-9 9-10 11-12 12-13 13-14 13-15 14-2 15-16 16-17 17-13",
        9,
    ),
];

#[test]
fn peaks_of_digraphs(rt: HostRuntime) -> Result<(), Fail> {
    let alloc = rt.alloc();
    for row in &PEAKS {
        let (vertices, edges, most) = *row;
        let graph = digraph(&rt, alloc, vertices, edges)?;
        assert!(rt; graph.vertices() < 100);
        let (plan, order) = ordered(alloc, &graph)?;
        let found = peak(alloc, &plan, &order)?;
        assert!(rt; found == most, "{edges}");
    }
    Ok(())
}
