//! Runs the C programs of standard input, each beside its graph and against its report, and writes how the runs end, or where the three differ.
//!
//! A case is a line: the numbers that the run takes, list by list, or how many runs draw theirs; the greatest number of steps; the program's text; and the text whose
//! graph runs beside it, where that is another. Tabs stand between them. The lines before a case, which have no tab, are the report on its program. No graph runs beside
//! more than 5,000 steps.
#![tactic(auto)]

mod beside;
mod cases;
mod choices;
mod graphs;
mod reports;

use std::io::Read;
use std::test::Fail;

fn main(rt: HostRuntime) -> Result<(), Fail> {
    let alloc = rt.alloc();
    let mut bytes = Vec::new(alloc);
    rt.stdin().read_to_end(&mut bytes)?;
    let text = String::from_utf8(bytes).map_err(|_| "not a text")?;
    let mut report = Vec::new(alloc);
    for line in text.lines() {
        if line.split_once("\t").is_some() {
            let ends = cases::answer(alloc, line, &report)?;
            println!(rt; "{ends}")?;
            report = Vec::new(alloc);
        } else {
            report.push(line)?;
        }
    }
    Ok(())
}
