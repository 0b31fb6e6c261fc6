// How many points graphs have: texts worked by hand, texts at the limit, long and deep ones. The numbers at the limit are those of a second implementation.

use crate::ways::graph_of;
use std::alloc::Global;
use std::fmt::Write;
use std::test::Fail;

// How many points the graph of a text has, none at the limit.
fn points(alloc: Global, text: &str) -> Result<Option<usize>, Fail> {
    let graph = graph_of(alloc, text)?;
    Ok(graph.map(|graph| graph.points()))
}

const WORKED: [(&str, usize); 12] = [
    ("int main(void){int i=0;while(i<10)i=i+1;return i;}", 8),
    ("int main(void){}", 3),
    (
        "int main(void){int a[10];int i=0;while(i<10){a[i]=0;i=i+1;}return 0;}",
        10,
    ),
    ("int main(void){unsigned u=0;u=u-1;return 0;}", 5),
    ("int main(void){int x=2147483647;x=x+1;x=x+1;return x;}", 6),
    (
        "int main(void){int i=0;while(i<4){int j=0;while(j<i)j=j+1;i=i+1;}return 0;}",
        13,
    ),
    (
        "int main(void){int i=0;if(i<1)goto M;while(i<3){i=i+2;M:i=i+1;}return 0;}",
        13,
    ),
    (
        "int f(int k){return k+1;}int main(void){return f(f(1));}",
        9,
    ),
    ("void abort(void);int main(void){abort();return 0;}", 4),
    (
        "void __pikos_assert(int);int main(void){int x=3;__pikos_assert(x<3);return 0;}",
        5,
    ),
    (
        "int __VERIFIER_nondet_int(void);int main(void){int i=0;int j=0;if(__VERIFIER_nondet_int())while(i<5)i=i+1;else while(j<7)j=j+1;return 0;}",
        17,
    ),
    ("int main(void){int a[2]={7,8};return 9/a[1];}", 7),
];

#[test]
fn worked_texts_are_counted(rt: HostRuntime) -> Result<(), Fail> {
    let alloc = rt.alloc();
    for (text, expected) in &WORKED {
        assert!(rt; points(alloc, text)? == Some(*expected), "{text}");
    }
    Ok(())
}

// A text with a part that comes so often.
fn repeated(
    alloc: Global,
    before: &str,
    part: &str,
    count: u32,
    behind: &str,
) -> Result<String, Fail> {
    let mut text = String::from_str(alloc, before)?;
    for _ in 0..count {
        text.push_str(part)?;
    }
    text.push_str(behind)?;
    Ok(text)
}

const REPEATED: [(&str, &str, u32, &str, Option<usize>); 10] = [
    // As many points as there may be, and one more.
    ("int i;int main(void){", "i=0;", 65_533, "}", Some(65_536)),
    ("int i;int main(void){", "i=0;", 65_534, "}", None),
    // Points that aren't reached count.
    ("int main(void){", "return 0;", 32_766, "}", Some(3)),
    ("int main(void){", "return 0;", 32_767, "}", None),
    // Four million bytes of one statement, which makes no point and one.
    ("int i;int main(void){", "i;", 2_097_140, "}", Some(3)),
    ("int i;int main(void){", "i=0;", 1_048_570, "}", None),
    // As deep as statements may be.
    ("int main(void){int i=1;", "while(i)", 126, ";}", Some(382)),
    ("int main(void){int i=1;", "if(i)", 126, ";}", Some(382)),
    ("int main(void){int i=1;", "for(;;)", 126, ";}", Some(255)),
    (
        "int main(void){int i=1;",
        "switch(i)default:",
        63,
        ";}",
        Some(193),
    ),
];

#[test]
fn repeated_parts_are_counted(rt: HostRuntime) -> Result<(), Fail> {
    let alloc = rt.alloc();
    for (before, part, count, behind, expected) in &REPEATED {
        let text = repeated(alloc, before, part, *count, behind)?;
        assert!(rt; points(alloc, &text)? == *expected, "{count} {part}");
    }
    Ok(())
}

// A switch with so many cases.
fn with_cases(alloc: Global, cases: u32) -> Result<String, Fail> {
    let mut text = String::from_str(alloc, "int main(void){int x=0;switch(x){")?;
    for case in 0..cases {
        write!(text, "case {case}:;")?;
    }
    text.push_str("}}")?;
    Ok(text)
}

#[test]
fn cases_are_counted(rt: HostRuntime) -> Result<(), Fail> {
    let alloc = rt.alloc();
    let few = with_cases(alloc, 20_000)?;
    assert!(rt; points(alloc, &few)? == Some(40_006));
    let many = with_cases(alloc, 60_000)?;
    assert!(rt; points(alloc, &many)?.is_none());
    Ok(())
}

// A function of a thousand statements on so many paths.
fn with_paths(alloc: Global, paths: u32) -> Result<String, Fail> {
    let before = repeated(
        alloc,
        "int i;void f(void){",
        "i=0;",
        1000,
        "}int main(void){",
    )?;
    repeated(alloc, &before, "f();", paths, "}")
}

// With 65 paths there are 65,068 points. With 4,096, the most that may be, there would be four million.
#[test]
fn paths_are_counted(rt: HostRuntime) -> Result<(), Fail> {
    let alloc = rt.alloc();
    let few = with_paths(alloc, 65)?;
    assert!(rt; points(alloc, &few)? == Some(65_068));
    let more = with_paths(alloc, 66)?;
    assert!(rt; points(alloc, &more)?.is_none());
    let most = with_paths(alloc, 4095)?;
    assert!(rt; points(alloc, &most)?.is_none());
    Ok(())
}
