// Tests of certificates and of their checks over memory devices that fail.

use crate::top::{Answer, NEVER, WORKED, called};
use pk_top::NoGate;
use std::alloc::{AllocError, Global};
use std::sync::Wait;
use std::test::Fail;
use std::thread::Threads;

const TEXT: &str = "int main(void){}";

const CERTIFICATE: &str = "pikos-cert 1 16 16 main\nint main(void){}\n0 0 0 0\n0 0 0 0\n0 0 0 0\n";

const CHECKED: &str = "valid points 3\nresult safe 0 unknown 0 unreachable 0\n";

// The answer to a word over these bytes, at devices of which a call fails.
fn answered<R: Threads + Wait + Sync>(
    rt: &R,
    alloc: Global,
    word: &str,
    bytes: &[u8],
    read: u64,
    write: u64,
) -> Result<Answer, AllocError> {
    called(rt, alloc, &NoGate {}, word, bytes, read, write)
}

// Whether each of so many reads that fails is told, and the text is written where none does.
fn tells_read_faults<R: Threads + Wait + Sync>(
    rt: &R,
    alloc: Global,
    word: &str,
    bytes: &[u8],
    reads: u64,
    text: &str,
) -> Result<bool, AllocError> {
    for read in 0..reads {
        let told = answered(rt, alloc, word, bytes, read, NEVER)?;
        if !told.is(5, "", 0, "pikos: read fault") {
            return Ok(false);
        }
    }
    let told = answered(rt, alloc, word, bytes, reads, NEVER)?;
    Ok(told.is(0, text, text.len(), ""))
}

// Two reads give the text, and a third finds its end.
#[test]
fn read_faults_of_cert_are_told(rt: HostRuntime) -> Result<(), AllocError> {
    assert!(rt; tells_read_faults(&rt, rt.alloc(), "cert", TEXT.as_bytes(), 3, CERTIFICATE)?);
    Ok(())
}

// Seven reads give the 65 bytes, and an eighth finds their end.
#[test]
fn read_faults_of_check_are_told(rt: HostRuntime) -> Result<(), AllocError> {
    assert!(rt; tells_read_faults(&rt, rt.alloc(), "check", CERTIFICATE.as_bytes(), 8, CHECKED)?);
    Ok(())
}

// Whether each of so many writes that fails is told, with how many bytes were written.
fn tells_write_faults<R: Threads + Wait + Sync>(
    rt: &R,
    alloc: Global,
    word: &str,
    bytes: &[u8],
    writes: u64,
    text: &str,
) -> Result<bool, Fail> {
    let mut sent = 0;
    for write in 0..writes {
        let line = format!(in alloc; "pikos: write fault after {sent} bytes")?;
        let told = answered(rt, alloc, word, bytes, NEVER, write)?;
        if !told.is(6, text, sent, line.as_str()) {
            return Ok(false);
        }
        sent = sent.saturating_add(7);
    }
    let told = answered(rt, alloc, word, bytes, NEVER, writes)?;
    Ok(told.is(0, text, text.len(), ""))
}

// Ten writes of seven bytes at most for 65.
#[test]
fn write_faults_of_cert_are_told(rt: HostRuntime) -> Result<(), Fail> {
    assert!(rt; tells_write_faults(&rt, rt.alloc(), "cert", TEXT.as_bytes(), 10, CERTIFICATE)?);
    Ok(())
}

// Eight for 53.
#[test]
fn write_faults_of_check_are_told(rt: HostRuntime) -> Result<(), Fail> {
    assert!(rt; tells_write_faults(&rt, rt.alloc(), "check", CERTIFICATE.as_bytes(), 8, CHECKED)?);
    Ok(())
}

const WORKED_CHECKED: &str =
    "valid points 8\naccess main 1:38 overflow safe\nresult safe 1 unknown 0 unreachable 0\n";

// One worker and eight make one certificate, which is checked with the verdicts of the report.
#[test]
fn certificates_by_workers_are_the_same(rt: HostRuntime) -> Result<(), AllocError> {
    let alone = answered(
        &rt,
        rt.alloc(),
        "cert --workers 1",
        WORKED.as_bytes(),
        NEVER,
        NEVER,
    )?;
    let eight = answered(
        &rt,
        rt.alloc(),
        "cert --workers 8",
        WORKED.as_bytes(),
        NEVER,
        NEVER,
    )?;
    assert!(rt; alone.out.bytes() == eight.out.bytes());
    let told = answered(&rt, rt.alloc(), "check", alone.out.bytes(), NEVER, NEVER)?;
    assert!(rt; told.is(0, WORKED_CHECKED, WORKED_CHECKED.len(), ""));
    Ok(())
}
