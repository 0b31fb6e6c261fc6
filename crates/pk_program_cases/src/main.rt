//! Answers each case of standard input, which begins with a line `==== WORDS` and is the text up to the next such line, and writes the answers: what was written, and
//! the status with its line.
#![tactic(auto)]

use pk_io::{MemSink, MemSource};
use pk_top::{NoGate, Status, pikos};
use std::alloc::{AllocError, Global};
use std::io;
use std::io::Read;
use std::sync::Wait;
use std::test::Fail;
use std::thread::Threads;

// The words, which are parted by blanks.
fn list_of(alloc: Global, words: &str) -> Result<Vec<String>, AllocError> {
    let mut list = Vec::new(alloc);
    for word in words.split(' ') {
        if !word.is_empty() {
            list.push(String::from_str(alloc, word)?)?;
        }
    }
    Ok(list)
}

fn source(alloc: Global, text: &str) -> Result<MemSource, AllocError> {
    Ok(MemSource::new(text.as_bytes().to_vec(alloc)?, 4096, Vec::new(alloc)))
}

// The call alone: its clauses are dear to a function that does more.
fn run<R: Threads + Wait + Sync>(
    rt: &R,
    alloc: Global,
    words: &[String],
    src: &mut MemSource,
    out: &mut MemSink,
) -> Status {
    pikos(rt, alloc, words, src, out, &NoGate {})
}

// The status, and the sink with what was written.
fn answer<R: Threads + Wait + Sync>(
    rt: &R,
    alloc: Global,
    words: &str,
    text: &str,
) -> Result<(Status, MemSink), AllocError> {
    let words = list_of(alloc, words)?;
    let mut src = source(alloc, text)?;
    let mut out = MemSink::new(alloc, 4096, Vec::new(alloc));
    let status = run(rt, alloc, &words, &mut src, &mut out);
    Ok((status, out))
}

fn text_of(alloc: Global, out: &MemSink) -> Result<String, Fail> {
    Ok(String::from_utf8(out.bytes().to_vec(alloc)?).map_err(|_| "not a text")?)
}

fn tell<R: Print>(rt: &R, words: &str, text: &str, status: &Status) -> io::Result<()> {
    print!(rt; "==== {words}\n{text}---- {} {status}\n", status.code())
}

fn tell_answer<R: Threads + Wait + Sync + Print>(
    rt: &R,
    alloc: Global,
    words: &str,
    text: &str,
) -> Result<(), Fail> {
    let (status, out) = answer(rt, alloc, words, text)?;
    let told = text_of(alloc, &out)?;
    Ok(tell(rt, words, told.as_str(), &status)?)
}

fn main(rt: HostRuntime) -> Result<(), Fail> {
    let alloc = rt.alloc();
    let mut bytes = Vec::new(alloc);
    rt.stdin().read_to_end(&mut bytes)?;
    let text = String::from_utf8(bytes).map_err(|_| "not a text")?;
    for case in text.split("\n==== ") {
        if let Some((words, text)) = case.split_once('\n') {
            tell_answer(&rt, alloc, words, text)?;
        }
    }
    Ok(())
}
