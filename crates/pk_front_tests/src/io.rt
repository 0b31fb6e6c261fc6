// Devices that give and take little at a time, and that fail in the middle.
ghost use Rattle.std.specs.Prelude.{◌≤◌, IfOk};

use pk_io::{
    MemSink, MemSource, ReadError, Source, StdSink, StdSource, WriteFault, read_all, write_all,
};
use std::alloc::Global;
use std::io;
use std::io::{Read, Write};
use std::test::Fail;

// The number of bytes read, or the refusal. Want of memory ends the test.
fn read_len<S: Source>(
    alloc: Global,
    src: &mut S,
    limit: usize,
) -> Result<Result<usize, ReadError>, Fail> {
    match read_all(alloc, src, limit) {
        Ok(bytes) => Ok(Ok(bytes.len())),
        Err(ReadError::Memory) => Err("no memory".into()),
        Err(error) => Ok(Err(error)),
    }
}

const READS: [(usize, u64, Result<usize, ReadError>, usize); 8] = [
    (5, 9, Ok(5), 0),
    (5, 0, Err(ReadError::ReadFault), 5),
    (5, 1, Err(ReadError::ReadFault), 3),
    (5, 3, Err(ReadError::ReadFault), 0),
    (4, 9, Err(ReadError::TooLong), 0),
    (4, 2, Err(ReadError::ReadFault), 1),
    (3, 9, Err(ReadError::TooLong), 1),
    (0, 9, Err(ReadError::TooLong), 3),
];

// Three reads give the text, and a fourth finds its end. A second call reads what the first left.
#[test]
fn reads_in_pieces(rt: HostRuntime) -> Result<(), Fail> {
    let alloc = rt.alloc();
    for (limit, failing, want, rest) in &READS {
        let mut src = MemSource::new(b"hello".to_vec(alloc)?, 2, [*failing].to_vec(alloc)?);
        let got = read_len(alloc, &mut src, *limit)?;
        assert!(rt; got == *want, "limit {limit}, failing call {failing}");
        let left = read_len(alloc, &mut src, 9)?;
        assert!(rt;
            left == Ok(*rest),
            "after limit {limit}, failing call {failing}"
        );
    }
    Ok(())
}

const WRITES: [(u64, Result<(), WriteFault>, &str); 4] = [
    (9, Ok(()), "hello"),
    (0, Err(WriteFault { sent: 0 }), ""),
    (1, Err(WriteFault { sent: 2 }), "he"),
    (2, Err(WriteFault { sent: 4 }), "hell"),
];

#[test]
fn writes_in_pieces(rt: HostRuntime) -> Result<(), Fail> {
    let alloc = rt.alloc();
    for (failing, want, held) in &WRITES {
        let mut out = MemSink::new(alloc, 2, [*failing].to_vec(alloc)?);
        let got = write_all(&mut out, b"hello");
        assert!(rt; got == *want, "failing call {failing}");
        assert!(rt; out.bytes() == held.as_bytes(), "failing call {failing}");
    }
    Ok(())
}

// It moves two bytes at a call, but its second call fails and its third moves nothing.
#[derive(Drop)]
struct Broken {
    calls: u8,
}

impl Broken {
    fn moved(&mut self, most: usize) -> io::Result<usize>
        ensures { IfOk result (λ count. count ≤ most) }
    {
        self.calls = self.calls.saturating_add(1);
        match self.calls {
            2 => Err(io::Error::from(io::ErrorKind::Other)),
            3 => Ok(0),
            _ => Ok(most.min(2)),
        }
    }
}

impl Read for Broken {
    fn read(&mut self, buf: &mut [u8]) -> io::Result<usize> {
        self.moved(buf.len())
    }
}

impl Write for Broken {
    fn write(&mut self, buf: &[u8]) -> io::Result<usize> {
        self.moved(buf.len())
    }

    fn flush(&mut self) -> io::Result<()> {
        Ok(())
    }
}

const BROKEN_READS: [Result<usize, ReadError>; 3] = [
    Err(ReadError::ReadFault),
    Ok(0),
    Err(ReadError::TooLong),
];

const BROKEN_WRITES: [Result<(), WriteFault>; 3] = [
    Err(WriteFault { sent: 2 }),
    Err(WriteFault { sent: 0 }),
    Ok(()),
];

#[test]
fn a_broken_device_is_told(rt: HostRuntime) -> Result<(), Fail> {
    let alloc = rt.alloc();
    let mut src = StdSource::new(Broken { calls: 0 });
    for want in &BROKEN_READS {
        let got = read_len(alloc, &mut src, 9)?;
        assert!(rt; got == *want);
    }
    let mut out = StdSink::new(Broken { calls: 0 });
    for want in &BROKEN_WRITES {
        let got = write_all(&mut out, b"hello");
        assert!(rt; got == *want);
    }
    Ok(())
}

#[test]
fn readers_and_writers_of_std_work(rt: HostRuntime) -> Result<(), Fail> {
    let alloc = rt.alloc();
    let text = read_len(alloc, &mut StdSource::new(b"hello".as_slice()), 5)?;
    assert!(rt; text == Ok(5));
    let mut held = Vec::new(alloc);
    assert!(rt; write_all(&mut StdSink::new(&mut held), b"hello") == Ok(()));
    assert!(rt; held.as_slice() == b"hello".as_slice());
    Ok(())
}
