//! Prints each line of standard input, and behind one that has an entry and a text the graph of the text. Other lines are empty or say with `//` what a text shows.
#![tactic(auto)]

mod printed;

use crate::printed::printed;
use pk_text_graph::graph_of_text;
use std::alloc::Global;
use std::io;
use std::io::Read;
use std::test::Fail;

fn text_of(alloc: Global, text: &str, entry: &str) -> Result<String, Fail> {
    let graph = graph_of_text(alloc, text.as_bytes(), entry)
        .ok()
        .ok_or("no graph")?;
    Ok(printed(alloc, &graph)?)
}

fn main(rt: HostRuntime) -> Result<(), Fail> {
    let alloc = rt.alloc();
    let mut bytes = Vec::new(alloc);
    rt.stdin().read_to_end(&mut bytes)?;
    let text = String::from_utf8(bytes).map_err(|_| "not a text")?;
    for line in text.lines() {
        print!(rt; "{line}\n")?;
        if line.starts_with("//") {
            continue;
        }
        if let Some((entry, text)) = line.split_once(' ') {
            let shown = text_of(alloc, text, entry)?;
            print!(rt; "{shown}\n")?;
        }
    }
    Ok(())
}
