// The packs of texts, worked out by hand.

use crate::ways::{graph_of, packs_of};
use pk_graph::{Graph, Variable};
use pk_packs::Packs;
use std::alloc::Global;
use std::fmt::Write;
use std::process::Abort;
use std::test::Fail;

fn write_name(line: &mut String, variable: &Variable) -> Result<(), Fail> {
    let name = variable.name.as_ref().ok_or("a variable has no name")?;
    write!(line, "{name}")?;
    Ok(())
}

// The names of the variables of each pack, in the order of their numbers.
fn line_of(rt: &impl Abort, alloc: Global, graph: &Graph, packs: &Packs) -> Result<String, Fail> {
    let variables = graph.variables();
    let mut line = String::new(alloc);
    for pack in 0..packs.count() {
        if pack > 0 {
            line.push_str(" | ")?;
        }
        let held = packs.pack(pack);
        for place in 0..held.len() {
            if place > 0 {
                line.push_str(" ")?;
            }
            let number = held.variable(place);
            assert!(rt; number < variables.len());
            write_name(&mut line, &variables[number])?;
        }
    }
    Ok(line)
}

// A condition that is false leads out of its loop, so it belongs to what is around the loop.
const PACKS: [(&str, usize, &str); 17] = [
    // No loop: one pack, of what the graph asks for.
    (
        "int main(void){int i=0;int j=0;if(i<1)j=1;return j;}",
        8,
        "i",
    ),
    (
        "int main(void){int i=0;while(i<10)i=i+1;return i;}",
        8,
        "i | i",
    ),
    (
        "int main(void){int i=0;while(i<10)i=i+1;return i;}",
        0,
        " | ",
    ),
    // The first of those that a pack's edges ask for, not of those of the whole text.
    (LOOP_BEHIND_A_TEST, 2, "p q | x y"),
    (LOOP_BEHIND_A_TEST, 1, "p | x"),
    (LOOP_BEHIND_A_TEST, 8, "p q x y | x y"),
    // An inner loop's edges count for the outer one too, the outer's edges not for the inner one.
    (NESTED, 8, "a | a b c d | b d"),
    (NESTED, 3, "a | a b c | b d"),
    (NESTED, 1, "a | a | b"),
    // Side by side.
    (
        "int main(void){int a=0;int b=0;while(a<3)a=a+1;while(b<4)b=b+1;return 0;}",
        8,
        "a b | a | b",
    ),
    // By number of the variables, not by their places in the text.
    (
        "int main(void){int z=0;int y=0;int x=0;while(x<3){if(y<x)y=z;if(z<2)z=1;x=x+1;}return 0;}",
        2,
        "x | z y",
    ),
    // An index that is written to, and one that is read.
    (
        "int main(void){int a[10];int k=0;int i=0;while(i<3){a[k]=i;i=i+1;}return 0;}",
        8,
        "i | k i",
    ),
    (
        "int main(void){int a[10];int k=0;int i=0;int v=0;while(i<3){v=a[k];i=i+1;}return v;}",
        8,
        "i | k i",
    ),
    // An assertion.
    (
        "void __pikos_assert(int);int main(void){int i=0;int s=0;while(i<3){__pikos_assert(s<9);i=i+1;}return 0;}",
        8,
        "i | i s",
    ),
    // An edge into a loop belongs to what is around it.
    (
        "int main(void){int i=0;int z=0;if(z<1)goto M;while(i<3){i=i+2;M:i=i+1;}return 0;}",
        8,
        "i z | i",
    ),
    // A call is a part of its own, so a loop that is called twice has two packs.
    (
        "int f(int n){while(n<3)n=n+1;return n;}int main(void){int m=f(0);return f(m);}",
        8,
        "n n | n | n",
    ),
    // Objects of the file.
    (
        "int g;int main(void){int i=0;while(i<g)i=i+1;return 0;}",
        8,
        "g i | g i",
    ),
];

const LOOP_BEHIND_A_TEST: &str =
    "int __VERIFIER_nondet_int(void);void __VERIFIER_assume(int);int main(void){int p=0;int q=0;if(p<q)p=q;int x=__VERIFIER_nondet_int();__VERIFIER_assume(x>=0);__VERIFIER_assume(x<=9);int y=x+1;while(y<x)y=y+1;return 0;}";

const NESTED: &str =
    "int main(void){int a=0;int b=0;int c=0;int d=0;while(a<4){while(b<3){if(d<1)d=1;b=b+1;}if(c<2)c=c+1;a=a+1;}return 0;}";

#[test]
fn texts_have_packs(rt: HostRuntime) -> Result<(), Fail> {
    let alloc = rt.alloc();
    for (text, most, expected) in &PACKS {
        let graph = graph_of(alloc, text)?;
        let packs = packs_of(&rt, alloc, &graph, *most)?.ok().ok_or("no packs")?;
        let line = line_of(&rt, alloc, &graph, &packs)?;
        assert!(rt; line.as_str() == *expected, "{line} of {text}");
    }
    Ok(())
}
