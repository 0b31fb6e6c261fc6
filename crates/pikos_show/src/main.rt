//! Shows what reports found. The words name, for each text, the name that it goes by, the file with the text, and the
//! file with what `pikos` answered.
#![tactic(auto)]

use pk_ctypes::Fault;
use pk_findings::{
    Refused, ShowError, Shown, Text, file_of, is_finding, look, origin_at, refusal, verdict_of,
    with_lengths,
};
use pk_front::TextError;
use pk_io::{ReadError, Sink, StdSink, StdSource, read_all, write_all};
use pk_lengths::lengths;
use pk_listing::{Source, listing, refusals};
use pk_origin::{Origin, lines};
use pk_page::page;
use pk_sarif::sarif;
use pk_show::{Row, Verdict};
use pk_text_graph::graph_of_text;
use pk_wrong_byte::first_wrong_byte;
use std::alloc::{AllocError, AllocFailed, Global};
use std::env::Env;
use std::fs::Files;
use std::io::ErrorKind;
use std::process::ExitCode;
use std::{env, fmt, fs, str};

/// The greatest number of bytes of a text or of an answer.
const INPUT_LIMIT: usize = 1073741823;

/// The greatest number of bytes of a file whose lines are shown.
const SOURCE_LIMIT: usize = 67108864;

/// The greatest number of bytes of a text that is analysed: longer ones have no report.
const TEXT_LIMIT: usize = 4194304;

/// Why the program shows nothing.
#[derive(Clone, Copy)]
enum Stop {
    Usage,
    /// The answer for the text of this number is no report: this line is the first that is none, from this byte on.
    NoReport(usize, usize, usize),
    /// The report for the text of this number tells a place that isn't in the text.
    OtherText(usize),
    TooLong,
    ReadFault,
    WriteFault,
    Memory,
}

impl Stop {
    fn code(self) -> u8 {
        match self {
            Stop::Usage => 2,
            Stop::NoReport(_, _, _) => 3,
            Stop::OtherText(_) => 3,
            Stop::TooLong => 4,
            Stop::ReadFault => 5,
            Stop::WriteFault => 6,
            Stop::Memory => 7,
        }
    }
}

impl fmt::Display for Stop {
    fn fmt<W: fmt::Write>(&self, f: &mut fmt::Formatter<W>) -> fmt::Result {
        match self {
            Stop::Usage => write!(f, "pikos_show: usage"),
            Stop::NoReport(text, line, byte) => {
                write!(
                    f,
                    "pikos_show: the answer on text {text} is no report: line {line} goes wrong at byte {byte}"
                )
            }
            Stop::OtherText(text) => {
                write!(
                    f,
                    "pikos_show: the answer on text {text} is on another text"
                )
            }
            Stop::TooLong => write!(f, "pikos_show: a text or an answer is too long"),
            Stop::ReadFault => write!(f, "pikos_show: read fault"),
            Stop::WriteFault => write!(f, "pikos_show: write fault"),
            Stop::Memory => write!(f, "pikos_show: memory"),
        }
    }
}

impl From<AllocError> for Stop {
    fn from(_: AllocError) -> Self {
        Stop::Memory
    }
}

impl<T: Drop> From<AllocFailed<T>> for Stop {
    fn from(_: AllocFailed<T>) -> Self {
        Stop::Memory
    }
}

/// In which form findings are shown.
#[derive(Clone, Copy)]
enum Format {
    Text,
    Sarif,
    Page,
}

/// A text and what was answered about it.
#[derive(Drop)]
struct Input {
    name: String,
    text: Vec<u8>,
    answer: Vec<u8>,
}

// The words after the program's name.
fn words(rt: &(impl Env + AllocGlobal)) -> Result<Vec<String>, Stop> {
    match env::args(rt) {
        Ok(args) => Ok(args.skip(1).collect(rt.alloc())?),
        Err(error) if error.kind() == ErrorKind::OutOfMemory => Err(Stop::Memory),
        Err(_) => Err(Stop::Usage),
    }
}

fn format_of(word: &str) -> Result<Format, Stop> {
    match word {
        "text" => Ok(Format::Text),
        "sarif" => Ok(Format::Sarif),
        "html" => Ok(Format::Page),
        _ => Err(Stop::Usage),
    }
}

// The format, and the words behind it.
fn chosen(words: &[String]) -> Result<(Format, &[String]), Stop> {
    match words {
        [option, format, rest @ ..] if option.as_str() == "--format" => {
            Ok((format_of(format.as_str())?, rest))
        }
        _ => Ok((Format::Text, words)),
    }
}

// Whether what holds at the heads of loops is asked for, and the words behind that.
fn asked(words: &[String]) -> (bool, &[String]) {
    match words {
        [option, rest @ ..] if option.as_str() == "--invariants" => (true, rest),
        _ => (false, words),
    }
}

// All bytes of a file.
fn file(rt: &(impl Files + AllocGlobal), name: &str) -> Result<Vec<u8>, Stop> {
    let Ok(file) = fs::open(rt, name) else {
        return Err(Stop::ReadFault);
    };
    match read_all(rt.alloc(), &mut StdSource::new(file), INPUT_LIMIT) {
        Ok(bytes) => Ok(bytes),
        Err(ReadError::ReadFault) => Err(Stop::ReadFault),
        Err(ReadError::TooLong) => Err(Stop::TooLong),
        Err(ReadError::Memory) => Err(Stop::Memory),
    }
}

// The inputs: three words for each, its name, and the files with the text and with the answer.
fn inputs(rt: &(impl Files + AllocGlobal), words: &[String]) -> Result<Vec<Input>, Stop> {
    let mut inputs = Vec::new(rt.alloc());
    let mut left = words;
    while let [name, text, answer, rest @ ..] = left {
        let name = name.clone()?;
        let text = file(rt, text.as_str())?;
        let answer = file(rt, answer.as_str())?;
        inputs.push(Input { name, text, answer })?;
        left = rest;
    }
    if left.is_empty() && !inputs.is_empty() {
        Ok(inputs)
    } else {
        Err(Stop::Usage)
    }
}

/// What the inputs say.
#[derive(Drop)]
struct Seen<'t> {
    shown: Vec<Shown<'t>>,
    refused: Vec<Refused<'t>>,
}

fn see<'t>(alloc: Global, inputs: &'t [Input]) -> Result<Seen<'t>, Stop> {
    let mut seen = Seen {
        shown: Vec::new(alloc),
        refused: Vec::new(alloc),
    };
    for k in 0..inputs.len() {
        let input = &inputs[k];
        let name = input.name.as_bytes();
        match refusal(alloc, name, &input.text, &input.answer)? {
            Some(refused) => seen.refused.push(refused)?,
            None => {
                let shown = shown_of(alloc, k + 1, input)?;
                seen.shown.push(measured(alloc, input, shown)?)?
            }
        }
    }
    Ok(seen)
}

fn shown_of<'t>(alloc: Global, number: usize, input: &'t Input) -> Result<Shown<'t>, Stop> {
    match look(alloc, input.name.as_bytes(), &input.text, &input.answer) {
        Ok(shown) => Ok(shown),
        Err(ShowError::NoReport(line)) => {
            let byte = first_wrong_byte(alloc, &input.answer)?;
            Err(Stop::NoReport(number, line.saturating_add(1), byte.saturating_add(1)))
        }
        Err(ShowError::OtherText) => Err(Stop::OtherText(number)),
        Err(ShowError::Memory) => Err(Stop::Memory),
    }
}

fn opening_entry<'t>(row: &Row<'t>) -> Option<&'t str> {
    match row {
        Row::Opening(opening) => match str::from_utf8(opening.entry) {
            Ok(entry) => Some(entry),
            Err(_) => None,
        },
        _ => None,
    }
}

// The function that runs begin with.
fn entry_of<'t>(rows: &[Row<'t>]) -> Option<&'t str> {
    match rows {
        [first, ..] => opening_entry(first),
        [] => None,
    }
}

// Whether a finding is an index.
fn has_index(shown: &Shown<'_>) -> bool {
    shown
        .operations
        .iter()
        .any(|o| matches!(o.fault, Fault::Index) && is_finding(o))
}

// The same with the lengths of the arrays that are accessed, where a finding is an index.
fn measured<'t>(alloc: Global, input: &Input, shown: Shown<'t>) -> Result<Shown<'t>, Stop> {
    if TEXT_LIMIT < input.text.len() || !has_index(&shown) {
        return Ok(shown);
    }
    let Some(entry) = entry_of(&shown.rows) else {
        return Ok(shown);
    };
    match graph_of_text(alloc, &input.text, entry) {
        Ok(graph) => {
            let lengths = lengths(alloc, &graph)?;
            Ok(with_lengths(alloc, &lengths, shown)?)
        }
        Err(TextError::Memory) => Err(Stop::Memory),
        Err(_) => Ok(shown),
    }
}

/// A file that lines come from, with its bytes where it can be read.
#[derive(Drop)]
struct Content {
    name: Vec<u8>,
    bytes: Option<Vec<u8>>,
}

fn is_file(rt: &impl Files, name: &str) -> bool {
    match rt.metadata(name) {
        Ok(data) => data.is_file(),
        Err(_) => false,
    }
}

// The bytes of a file, where there is one and it can be read.
fn source(rt: &(impl Files + AllocGlobal), name: &str) -> Result<Option<Vec<u8>>, Stop> {
    if !is_file(rt, name) {
        return Ok(None);
    }
    let Ok(file) = fs::open(rt, name) else {
        return Ok(None);
    };
    match read_all(rt.alloc(), &mut StdSource::new(file), SOURCE_LIMIT) {
        Ok(bytes) => Ok(Some(bytes)),
        Err(ReadError::ReadFault) => Ok(None),
        Err(ReadError::TooLong) => Ok(None),
        Err(ReadError::Memory) => Err(Stop::Memory),
    }
}

// The bytes of a file of this name, which may be no text.
fn source_named(rt: &(impl Files + AllocGlobal), name: &[u8]) -> Result<Option<Vec<u8>>, Stop> {
    match str::from_utf8(name) {
        Ok(name) => source(rt, name),
        Err(_) => Ok(None),
    }
}

// The file that a line comes from, unless it is there already.
fn add_file(
    rt: &(impl Files + AllocGlobal),
    files: &mut Vec<Content>,
    text: &Text<'_>,
    origin: Origin,
) -> Result<(), Stop> {
    let name = file_of(rt.alloc(), text, origin)?;
    if files.iter().any(|f| f.name.as_slice() == name.as_slice()) {
        return Ok(());
    }
    let bytes = source_named(rt, &name)?;
    files.push(Content { name, bytes })?;
    Ok(())
}

// The files that a text's findings, and what no run computes, come from.
fn add_files(
    rt: &(impl Files + AllocGlobal),
    files: &mut Vec<Content>,
    shown: &Shown<'_>,
) -> Result<(), Stop> {
    for k in 0..shown.operations.len() {
        let operation = &shown.operations[k];
        if !matches!(verdict_of(operation), Verdict::Safe) {
            add_file(rt, files, &shown.text, origin_at(&shown.text, operation.at))?;
        }
    }
    Ok(())
}

fn add_refused(
    rt: &(impl Files + AllocGlobal),
    files: &mut Vec<Content>,
    refused: &Refused<'_>,
) -> Result<(), Stop> {
    match refused.at {
        Some(at) => add_file(rt, files, &refused.text, origin_at(&refused.text, at)),
        None => Ok(()),
    }
}

fn files_of(rt: &(impl Files + AllocGlobal), seen: &Seen<'_>) -> Result<Vec<Content>, Stop> {
    let mut files = Vec::new(rt.alloc());
    for k in 0..seen.shown.len() {
        add_files(rt, &mut files, &seen.shown[k])?;
    }
    for k in 0..seen.refused.len() {
        add_refused(rt, &mut files, &seen.refused[k])?;
    }
    Ok(files)
}

fn sources_of<'t>(alloc: Global, files: &'t [Content]) -> Result<Vec<Source<'t>>, Stop> {
    let mut sources = Vec::new(alloc);
    for k in 0..files.len() {
        let file = &files[k];
        if let Some(bytes) = &file.bytes {
            let lines = lines(alloc, bytes)?;
            sources.push(Source {
                name: &file.name,
                lines,
            })?;
        }
    }
    Ok(sources)
}

fn formatted(
    alloc: Global,
    format: Format,
    with_invariants: bool,
    sources: &[Source<'_>],
    seen: &Seen<'_>,
) -> Result<Vec<u8>, Stop> {
    match format {
        Format::Text => Ok(listing(alloc, sources, with_invariants, &seen.shown)?),
        Format::Sarif => Ok(sarif(alloc, &seen.shown, &seen.refused)?),
        Format::Page => Ok(page(alloc, &seen.shown, &seen.refused)?),
    }
}

fn send<K: Sink>(out: &mut K, bytes: &[u8]) -> Result<(), Stop> {
    match write_all(out, bytes) {
        Ok(()) => Ok(()),
        Err(_) => Err(Stop::WriteFault),
    }
}

// 3 where a text was refused, else 1 where there is a finding.
fn status(seen: &Seen<'_>) -> u8 {
    if !seen.refused.is_empty() {
        3
    } else if seen
        .shown
        .iter()
        .any(|s| s.operations.iter().any(|o| is_finding(o)))
    {
        1
    } else {
        0
    }
}

// Shows the findings to `out`, and what was refused to `aside`.
fn answer<K: Sink, L: Sink>(
    rt: &(impl Files + Env + AllocGlobal),
    out: &mut K,
    aside: &mut L,
) -> Result<u8, Stop> {
    let alloc = rt.alloc();
    let words = words(rt)?;
    let (format, rest) = chosen(&words)?;
    let (with_invariants, rest) = asked(rest);
    let inputs = inputs(rt, rest)?;
    let seen = see(alloc, &inputs)?;
    let files = files_of(rt, &seen)?;
    let sources = sources_of(alloc, &files)?;
    let bytes = formatted(alloc, format, with_invariants, &sources, &seen)?;
    send(out, &bytes)?;
    let refused = refusals(alloc, &sources, &seen.refused)?;
    send(aside, &refused)?;
    Ok(status(&seen))
}

fn main(rt: HostRuntime) -> ExitCode {
    let out = &mut StdSink::new(rt.stdout());
    let aside = &mut StdSink::new(rt.stderr());
    match answer(&rt, out, aside) {
        Ok(status) => ExitCode::from(status),
        Err(stop) => {
            let _ = eprintln!(rt; "{stop}");
            ExitCode::from(stop.code())
        }
    }
}
