// How many packs there may be, pack 0 among them.

use crate::ways::{graph_of, packs_of};
use pk_packs::{PackError, Packs};
use std::alloc::Global;
use std::process::Abort;
use std::test::Fail;

// A text with a part that comes so often.
fn repeated(alloc: Global, part: &str, count: u32) -> Result<String, Fail> {
    let mut text = String::from_str(alloc, "int main(void){int i=1;")?;
    for _ in 0..count {
        text.push_str(part)?;
    }
    text.push_str(";}")?;
    Ok(text)
}

fn is_limit(made: &Result<Packs, PackError>) -> bool {
    matches!(made, Err(PackError::Limit))
}

// How many packs a text has, none where they are too many.
fn count(rt: &impl Abort, alloc: Global, part: &str, count: u32) -> Result<Option<usize>, Fail> {
    let text = repeated(alloc, part, count)?;
    let graph = graph_of(alloc, &text)?;
    let made = packs_of(rt, alloc, &graph, 8)?;
    if is_limit(&made) {
        return Ok(None);
    }
    Ok(Some(made.ok().ok_or("no memory")?.count()))
}

const COUNTS: [(&str, u32, Option<usize>); 5] = [
    ("while(i<9)i=i+1;", 0, Some(1)),
    ("while(i<9)i=i+1;", 255, Some(256)),
    ("while(i<9)i=i+1;", 256, None),
    ("while(i<9)i=i+1;", 2_000, None),
    // As deep as statements may be.
    ("while(i)", 126, Some(127)),
];

#[test]
fn packs_are_counted(rt: HostRuntime) -> Result<(), Fail> {
    let alloc = rt.alloc();
    for (part, times, expected) in &COUNTS {
        assert!(rt;
            count(&rt, alloc, part, *times)? == *expected,
            "{times} {part}"
        );
    }
    Ok(())
}
