//! Shows the cases of standard input in each format. A case begins with a line `==== NAME`; behind it stand a text, a line
//! `----`, and what `pikos` answered on the text.
#![tactic(auto)]

use pk_findings::{Refused, Shown, look, refusal};
use pk_listing::{listing, refusals};
use pk_page::page;
use pk_sarif::sarif;
use serde_json::Value;
use std::alloc::Global;
use std::io::Read;
use std::test::Fail;

/// What the cases say.
#[derive(Drop)]
struct Seen<'t> {
    shown: Vec<Shown<'t>>,
    refused: Vec<Refused<'t>>,
}

fn add<'t>(
    alloc: Global,
    seen: &mut Seen<'t>,
    name: &'t str,
    text: &'t str,
    answer: &'t str,
) -> Result<(), Fail> {
    let (name, text, answer) = (name.as_bytes(), text.as_bytes(), answer.as_bytes());
    if let Some(refused) = refusal(alloc, name, text, answer)? {
        return Ok(seen.refused.push(refused)?);
    }
    match look(alloc, name, text, answer) {
        Ok(shown) => Ok(seen.shown.push(shown)?),
        Err(_) => Err(Fail::from("a case is no report")),
    }
}

// The cases of a text.
fn seen_of<'t>(alloc: Global, text: &'t str) -> Result<Seen<'t>, Fail> {
    let mut seen = Seen {
        shown: Vec::new(alloc),
        refused: Vec::new(alloc),
    };
    for case in text.split("==== ") {
        if let Some((name, rest)) = case.split_once('\n') {
            if let Some((text, answer)) = rest.split_once("----\n") {
                add(alloc, &mut seen, name, text, answer)?;
            }
        }
    }
    Ok(seen)
}

fn tell<R: Print>(rt: &R, alloc: Global, format: &str, bytes: &[u8]) -> Result<(), Fail> {
    let text = String::from_utf8(bytes.to_vec(alloc)?).map_err(|_| "not a text")?;
    print!(rt; "==== {format}\n{text}\n")?;
    Ok(())
}

// The log, and what the kit's reader of JSON reads of it, written again.
fn tell_log<R: Print>(rt: &R, alloc: Global, seen: &Seen<'_>) -> Result<(), Fail> {
    let log = sarif(alloc, &seen.shown, &seen.refused)?;
    tell(rt, alloc, "sarif", &log)?;
    let value = Value::from_slice(alloc, &log)?;
    tell(rt, alloc, "sarif read back", &value.to_vec(alloc)?)
}

fn main(rt: HostRuntime) -> Result<(), Fail> {
    let alloc = rt.alloc();
    let mut bytes = Vec::new(alloc);
    rt.stdin().read_to_end(&mut bytes)?;
    let text = String::from_utf8(bytes).map_err(|_| "not a text")?;
    let seen = seen_of(alloc, text.as_str())?;
    tell(&rt, alloc, "text", &listing(alloc, &[], true, &seen.shown)?)?;
    tell(&rt, alloc, "aside", &refusals(alloc, &[], &seen.refused)?)?;
    tell_log(&rt, alloc, &seen)?;
    tell(
        &rt,
        alloc,
        "html",
        &page(alloc, &seen.shown, &seen.refused)?,
    )
}
