// Tests over memory devices: words that aren't taken, devices that fail, texts that are cut, the longest text and large ones.

use pk_io::{MemSink, MemSource};
use pk_top::{Gate, NoGate, Status, pikos};
use std::alloc::{AllocError, Global};
use std::sync::Wait;
use std::sync::atomic::{AtomicU64, Ordering};
use std::test::Fail;
use std::thread::Threads;

// The words, which are parted by blanks.
fn list_of(alloc: Global, words: &str) -> Result<Vec<String>, AllocError> {
    let mut list = Vec::new(alloc);
    for word in words.split(' ') {
        list.push(String::from_str(alloc, word)?)?;
    }
    Ok(list)
}

// A source that gives ten bytes at a time and fails at one call.
fn source(alloc: Global, text: &[u8], fails: u64) -> Result<MemSource, AllocError> {
    Ok(MemSource::new(text.to_vec(alloc)?, 10, Vec::from_slice(alloc, &[fails])?))
}

// A sink that takes seven bytes at a time and fails at one call.
fn sink(alloc: Global, fails: u64) -> Result<MemSink, AllocError> {
    Ok(MemSink::new(alloc, 7, Vec::from_slice(alloc, &[fails])?))
}

// The call alone: its clauses are dear to a function that does more.
fn run<R: Threads + Wait + Sync, G: Gate + Sync>(
    rt: &R,
    alloc: Global,
    gate: &G,
    words: &[String],
    src: &mut MemSource,
    out: &mut MemSink,
) -> Status {
    pikos(rt, alloc, words, src, out, gate)
}

// The code, the sink with what was written, and the line on standard error.
#[derive(Drop)]
pub(crate) struct Answer {
    code: u8,
    pub(crate) out: MemSink,
    line: String,
}

impl Answer {
    // Whether so many bytes of a text were written.
    pub(crate) fn is(&self, code: u8, text: &str, sent: usize, line: &str) -> bool {
        self.code == code
            && self.out.bytes().len() == sent
            && text.as_bytes().starts_with(self.out.bytes())
            && self.line.as_str() == line
    }
}

// The status, and the sink with what was written.
fn outcome<R: Threads + Wait + Sync, G: Gate + Sync>(
    rt: &R,
    alloc: Global,
    gate: &G,
    words: &[String],
    text: &[u8],
    read: u64,
    write: u64,
) -> Result<(Status, MemSink), AllocError> {
    let mut src = source(alloc, text, read)?;
    let mut out = sink(alloc, write)?;
    let status = run(rt, alloc, gate, words, &mut src, &mut out);
    Ok((status, out))
}

pub(crate) fn called<R: Threads + Wait + Sync, G: Gate + Sync>(
    rt: &R,
    alloc: Global,
    gate: &G,
    words: &str,
    text: &[u8],
    read: u64,
    write: u64,
) -> Result<Answer, AllocError> {
    let words = list_of(alloc, words)?;
    let (status, out) = outcome(rt, alloc, gate, &words, text, read, write)?;
    Ok(Answer {
        code: status.code(),
        out,
        line: format!(in alloc; "{status}")?,
    })
}

// At a source and a sink of which a call fails.
fn with_faults<R: Threads + Wait + Sync>(
    rt: &R,
    alloc: Global,
    words: &str,
    read: u64,
    write: u64,
) -> Result<Answer, AllocError> {
    called(rt, alloc, &NoGate {}, words, WORKED.as_bytes(), read, write)
}

// Without a fault.
fn analysed<R: Threads + Wait + Sync>(
    rt: &R,
    alloc: Global,
    text: &[u8],
) -> Result<Answer, AllocError> {
    called(rt, alloc, &NoGate {}, "run", text, NEVER, NEVER)
}

pub(crate) const NEVER: u64 = 1000000000;

pub(crate) const WORKED: &str = "int main(void){int i=0;while(i<10)i=i+1;return i;}";

const REPORT: &str =
    "pikos 1 entry main points 8 elements 10\nhead 2 main 1:24\n  i [0,10] 1Z+0\naccess main 1:38 overflow safe\nresult safe 1 unknown 0 unreachable 0\n";

// The source would fail at its first read: it isn't asked.
const OTHER_WORDS: [&str; 13] = [
    "",
    "order --points",
    "run run",
    "run --workers 0",
    "run --workers 65",
    "run --narrow 9",
    "run --oct 65",
    "run --max-runs 0",
    "gen --seed 1",
    "gen --size 1",
    "gen --seed 2147483648 --size 1",
    "gen --seed 1 --size 0",
    "gen --seed 1 --size 1001",
];

#[test]
fn other_words_are_usage(rt: HostRuntime) -> Result<(), AllocError> {
    for words in &OTHER_WORDS {
        assert!(rt;
            with_faults(&rt, rt.alloc(), words, 0, 0)?.is(2, "", 0, "pikos: usage"),
            "{words}"
        );
    }
    Ok(())
}

// Five reads give the text, and a sixth finds its end. Each fails.
#[test]
fn read_faults_are_told(rt: HostRuntime) -> Result<(), AllocError> {
    for read in 0..6 {
        assert!(rt;
            with_faults(&rt, rt.alloc(), "run", read, NEVER)?.is(5, "", 0, "pikos: read fault"),
            "{read}"
        );
    }
    assert!(rt; with_faults(&rt, rt.alloc(), "run", 6, NEVER)?.is(0, REPORT, REPORT.len(), ""));
    Ok(())
}

// Each write of 21 fails, of which the last has two bytes.
#[test]
fn write_faults_are_told(rt: HostRuntime) -> Result<(), Fail> {
    let mut sent = 0;
    for write in 0..21 {
        let line = format!(in rt.alloc(); "pikos: write fault after {sent} bytes")?;
        assert!(rt;
            with_faults(&rt, rt.alloc(), "run", NEVER, write)?.is(6, REPORT, sent, line.as_str()),
            "{write}"
        );
        sent = sent.saturating_add(7);
    }
    assert!(rt; with_faults(&rt, rt.alloc(), "run", NEVER, 21)?.is(0, REPORT, REPORT.len(), ""));
    Ok(())
}

const MADE: &str =
    "gen seed 1 size 1 bytes 131\npikos 1 entry main points 16 elements 18\nresult safe 3 unknown 0 unreachable 0\n";

// A program that asks for a made text never reads.
#[test]
fn gen_reads_nothing(rt: HostRuntime) -> Result<(), AllocError> {
    let made = with_faults(&rt, rt.alloc(), "gen --seed 1 --size 1", 0, NEVER)?;
    assert!(rt; made.is(0, MADE, MADE.len(), ""));
    Ok(())
}

const EMPTY: &str =
    "pikos 1 entry main points 3 elements 4\nresult safe 0 unknown 0 unreachable 0\n";

// A program of so many bytes.
fn with_blanks(alloc: Global, length: usize) -> Result<Vec<u8>, AllocError> {
    let mut text = b"int main(void){}".to_vec(alloc)?;
    text.resize(length, b' ')?;
    Ok(text)
}

#[test]
fn a_text_may_have_so_many_bytes(rt: HostRuntime) -> Result<(), AllocError> {
    let longest = with_blanks(rt.alloc(), 4194304)?;
    assert!(rt; analysed(&rt, rt.alloc(), &longest)?.is(0, EMPTY, EMPTY.len(), ""));
    let longer = with_blanks(rt.alloc(), 4194305)?;
    assert!(rt; analysed(&rt, rt.alloc(), &longer)?.is(4, "", 0, "pikos: limit text 4194304"));
    Ok(())
}

// A function of so many statements.
fn statements(alloc: Global, count: usize) -> Result<Vec<u8>, AllocError> {
    let mut text = b"int i;int main(void){".to_vec(alloc)?;
    for _ in 0..count {
        text.extend_from_slice(b"i=0;")?;
    }
    text.push(b'}')?;
    Ok(text)
}

const MANY_POINTS: &str =
    "pikos 1 entry main points 65536 elements 65537\nresult safe 0 unknown 0 unreachable 0\n";

#[test]
fn a_graph_may_have_so_many_points(rt: HostRuntime) -> Result<(), AllocError> {
    let largest = statements(rt.alloc(), 65533)?;
    assert!(rt; analysed(&rt, rt.alloc(), &largest)?.is(0, MANY_POINTS, MANY_POINTS.len(), ""));
    let larger = statements(rt.alloc(), 65534)?;
    assert!(rt; analysed(&rt, rt.alloc(), &larger)?.is(4, "", 0, "pikos: limit points 65536"));
    Ok(())
}

// So many objects of the file, and a function that reads the last of them.
fn objects(alloc: Global, count: usize) -> Result<String, Fail> {
    let mut text = String::from_str(alloc, "int g0;")?;
    for number in 1..count {
        write!(text, "int g{number};")?;
    }
    let last = count.saturating_sub(1);
    write!(text, "int main(void){{g0=g{last};return 0;}}")?;
    Ok(text)
}

const OBJECTS: &str =
    "pikos 1 entry main points 4 elements 5\nresult safe 0 unknown 0 unreachable 0\n";

// What main returns is a variable too.
#[test]
fn a_text_may_declare_so_many_objects(rt: HostRuntime) -> Result<(), Fail> {
    let most = objects(rt.alloc(), 65535)?;
    assert!(rt; analysed(&rt, rt.alloc(), most.as_bytes())?.is(0, OBJECTS, OBJECTS.len(), ""));
    let more = objects(rt.alloc(), 65536)?;
    assert!(rt;
        analysed(&rt, rt.alloc(), more.as_bytes())?.is(4, "", 0, "pikos: limit variables 65536")
    );
    Ok(())
}

// Twelve functions, each of which but the first calls the one before it twice.
const CHAIN: &str =
    "int f0(int x){return x;}int f1(int x){return f0(x)+f0(x);}int f2(int x){return f1(x)+f1(x);}int f3(int x){return f2(x)+f2(x);}int f4(int x){return f3(x)+f3(x);}int f5(int x){return f4(x)+f4(x);}int f6(int x){return f5(x)+f5(x);}int f7(int x){return f6(x)+f6(x);}int f8(int x){return f7(x)+f7(x);}int f9(int x){return f8(x)+f8(x);}int f10(int x){return f9(x)+f9(x);}int f11(int x){return f10(x)+f10(x);}int main(void){return f11(1);}";

#[test]
fn a_program_may_have_so_many_call_paths(rt: HostRuntime) -> Result<(), AllocError> {
    let answer = analysed(&rt, rt.alloc(), CHAIN.as_bytes())?;
    assert!(rt; answer.code == 0);
    let bytes = answer.out.bytes();
    assert!(rt; bytes.starts_with(b"pikos 1 entry main points 14335 elements 14336\n"));
    assert!(rt; bytes.ends_with(b"result safe 2047 unknown 0 unreachable 0\n"));
    Ok(())
}

// A jump into a loop.
const JUMP: &str =
    "int main(void){\nint i=0;\nif(i<1)goto M;\nwhile(i<3){\ni=i+2;\nM:i=i+1;\n}\nreturn 0;\n}\n";

// Each beginning that lacks the last brace is refused, at whatever place it ends.
#[test]
fn a_text_that_is_cut_is_refused(rt: HostRuntime) -> Result<(), AllocError> {
    for length in 0..81 {
        let cut = JUMP.as_bytes().get(..length).unwrap_or(b"");
        let answer = analysed(&rt, rt.alloc(), cut)?;
        assert!(rt;
            answer.code == 3 && answer.out.bytes().is_empty(),
            "{length}"
        );
    }
    assert!(rt; analysed(&rt, rt.alloc(), JUMP.as_bytes())?.code == 0);
    Ok(())
}

#[test]
fn bytes_of_no_token_are_refused(rt: HostRuntime) -> Result<(), AllocError> {
    assert!(rt;
        analysed(&rt, rt.alloc(), &[255; 64])?.is(3, "", 0, "pikos: refused: lexical byte at 1:1")
    );
    Ok(())
}

// Two runs that wait for one another: each counts that it has begun, and looks for so long whether the other has.
#[derive(Drop)]
struct Meeting {
    one: u32,
    other: u32,
    begun: AtomicU64,
    alone: AtomicU64,
}

impl Gate for Meeting {
    fn watches(&self) -> bool {
        true
    }

    fn before<R: Threads + Wait>(&self, _rt: &R, _worker: u32, element: u32, run: u64) {
        if run == 0 && (element == self.one || element == self.other) {
            self.begun.fetch_add(1, Ordering::SeqCst);
            for _ in 0..100000000u32 {
                if self.begun.load(Ordering::SeqCst) == 2 {
                    return;
                }
            }
            self.alone.fetch_add(1, Ordering::SeqCst);
        }
    }

    fn after<R: Threads + Wait>(&self, _rt: &R, _worker: u32, _element: u32, _run: u64) {}
}

// Both branches of a choice have a loop, whose heads are elements 5 and 13: neither waits for the other, so two workers run them at once.
const CHOICE: &str =
    "extern int __VERIFIER_nondet_int(void);int main(void){int i=0;int j=0;if(__VERIFIER_nondet_int())while(i<5)i=i+1;else while(j<7)j=j+1;return 0;}";

#[test]
fn two_workers_run_at_once(rt: HostRuntime) -> Result<(), AllocError> {
    let meeting = Meeting {
        one: 5,
        other: 13,
        begun: AtomicU64::new(0),
        alone: AtomicU64::new(0),
    };
    let words = "run --workers=2";
    let answer = called(
        &rt,
        rt.alloc(),
        &meeting,
        words,
        CHOICE.as_bytes(),
        NEVER,
        NEVER,
    )?;
    assert!(rt; answer.code == 0);
    assert!(rt; meeting.begun.load(Ordering::SeqCst) == 2);
    assert!(rt; meeting.alone.load(Ordering::SeqCst) == 0);
    Ok(())
}
