// The bound on chains of widening steps over a text's graph, worked out by hand.

use crate::ways::graph_of;
use pk_thresh::chain_bound;
use std::alloc::Global;
use std::test::Fail;

// The bound of a text, with an octagon over so many variables.
fn bound(alloc: Global, text: &str, oct: usize) -> Result<u64, Fail> {
    let graph = graph_of(alloc, text)?.ok_or("limit")?;
    Ok(chain_bound(alloc, &graph, oct)?)
}

// Two scalars, the thresholds -1, 0, 1, 2, 9, 10 and 11, and one variable in the octagon: 1 + 2 * (2 * 8 + 66) + 4.
// So with two runs that narrow a head is run at most 2 * 169 + 2 + 2 = 342 times an entry.
const COUNTED: &str = "int main(void){int i=0;while(i<10)i=i+1;return i;}";

#[test]
fn chains_are_bounded(rt: HostRuntime) -> Result<(), Fail> {
    let alloc = rt.alloc();
    let worked = bound(alloc, COUNTED, 8)?;
    assert!(rt; worked == 169);
    assert!(rt; 2 * worked + 2 + 2 == 342);
    let plain = bound(alloc, COUNTED, 0)?;
    assert!(rt; plain == 165);
    Ok(())
}
