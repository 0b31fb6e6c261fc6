// The bounds on chains of widening steps with packs, worked out by hand.

use crate::ways::{graph_of, packs_of};
use pk_packs::chain_bound_packs;
use pk_thresh::chain_bound;
use std::alloc::Global;
use std::process::Abort;
use std::test::Fail;

// The bound of a text with one octagon over 16 variables, and that with packs.
fn bounds(rt: &impl Abort, alloc: Global, text: &str) -> Result<(u64, u64), Fail> {
    let graph = graph_of(alloc, text)?;
    let made = packs_of(rt, alloc, &graph, 16)?.ok().ok_or("no packs")?;
    let one = chain_bound(alloc, &graph, 16)?;
    Ok((one, chain_bound_packs(alloc, &graph, &made)?))
}

const BOUNDS: [(&str, u64, u64); 3] = [
    // Four slots, the thresholds -1 to 2 and 8 to 10: 1 + 4 * (2 * 8 + 66). Two variables, 4 * 2 * 2, in pack 0 and in the loop's.
    (
        "int __VERIFIER_nondet_int(void);void __VERIFIER_assume(int);int main(void){int x=__VERIFIER_nondet_int();__VERIFIER_assume(x>=0);__VERIFIER_assume(x<=9);int y=x+1;while(y<x)y=y+1;return 0;}",
        345,
        361,
    ),
    // Two slots, the thresholds -1 to 2 and 9 to 11: 1 + 2 * (2 * 8 + 66). One variable in both packs.
    (
        "int main(void){int i=0;while(i<10)i=i+1;return i;}",
        169,
        173,
    ),
    // Without a loop there is one pack: three slots, the thresholds -1 to 2, 1 + 3 * (2 * 5 + 66), and 4.
    (
        "int main(void){int i=0;int j=0;if(i<1)j=1;return j;}",
        233,
        233,
    ),
];

#[test]
fn chains_are_bounded(rt: HostRuntime) -> Result<(), Fail> {
    let alloc = rt.alloc();
    for (text, one, packed) in &BOUNDS {
        let found = bounds(&rt, alloc, text)?;
        assert!(rt; found.0 == *one, "{text}");
        assert!(rt; found.1 == *packed, "{text}");
    }
    Ok(())
}
