// A reader and a writer of std as a source and a sink.
ghost use Rattle.std.specs.Prelude.{◌≡◌, ◌<◌, ◌≤◌, length, min, max, ◌-◌, ◌^◌, IfOk};
ghost use Rattle.std.specs.Io.{ReadsAtMost};
ghost use Rattle.std.specs.Io.KnownBytes.{ReadConsumes, WriteAppends};
ghost use Rattle.pk_io.specs.Causes.{HasCause, faults_after};
ghost use Rattle.pk_io.specs.Turns.{turns_after};
ghost use Rattle.pk_io.specs.Standard.{StdInput, StdOutput};

use crate::{Failed, Sink, Source};
use std::io::{Read, Write};
use std::marker::Model;

/// A reader as a source. It tells the bytes that the reader tells: standard input tells none.
/// After 2^64 - 1 turns, the last that it can count, it fails.
#[derive(Drop)]
pub struct StdSource<R: Read> {
    inner: R,
    turns: u64,
    shortest: usize,
    longest: usize,
    faults: u64,
}

impl<R: Read> Model for StdSource<R> {
    ghost Value = { StdInput };

    ghost view = { λ s. record {
      left = R.remaining s.inner;
      turns = s.turns;
      shortest = s.shortest;
      longest = s.longest;
      faults = s.faults;
    } };
}

impl<R: Read> StdSource<R> {
    pub fn new(inner: R) -> Self
        ensures { result ≡ record {
          left = R.remaining inner;
          turns = 0;
          shortest = 2 ^ 64 - 1;
          longest = 0;
          faults = 0;
        } }
    {
        StdSource {
            inner,
            turns: 0,
            shortest: usize::MAX,
            longest: 0,
            faults: 0,
        }
    }
}

impl<R: Read> Source for StdSource<R> {
    ghost left = { λ s. s.left };

    ghost turns = { λ s. s.turns };

    ghost shortest = { λ s. s.shortest };

    ghost longest = { λ s. s.longest };

    ghost faults = { λ s. s.faults };

    fn read(&mut self, buf: &mut [u8]) -> Result<usize, Failed>
        requires { 0 < length buf.old }
        ensures count { ReadsAtMost result buf.new }
        ensures bytes { ReadConsumes self.old.left self.new.left result buf.new }
        ensures turn { self.new.turns ≡ turns_after self.old.turns result }
        ensures shortest_buffer { self.new.shortest ≡ min self.old.shortest (length buf.old) }
        ensures longest_buffer { self.new.longest ≡ max self.old.longest (length buf.old) }
        ensures cause { HasCause self.old.faults self.new.faults result }
        ensures faults { self.new.faults ≡ faults_after self.old.faults result }
    {
        self.shortest = self.shortest.min(buf.len());
        self.longest = self.longest.max(buf.len());
        if self.turns < u64::MAX
            && let Ok(count) = self.inner.read(buf)
        {
            if 0 < count {
                self.turns += 1;
            }
            return Ok(count);
        }
        self.faults = self.faults.saturating_add(1);
        Err(Failed)
    }
}

/// A writer as a sink. It tells the bytes that the writer tells: standard output tells none.
/// A write that takes nothing is a fault. After 2^64 - 1 turns, the last that it can count, it fails.
#[derive(Drop)]
pub struct StdSink<W: Write> {
    inner: W,
    turns: u64,
    faults: u64,
}

impl<W: Write> Model for StdSink<W> {
    ghost Value = { StdOutput };

    ghost view = { λ k. record {
      written = W.contents k.inner;
      turns = k.turns;
      faults = k.faults;
    } };
}

impl<W: Write> StdSink<W> {
    pub fn new(inner: W) -> Self
        ensures { result ≡ record { written = W.contents inner; turns = 0; faults = 0 } }
    {
        StdSink {
            inner,
            turns: 0,
            faults: 0,
        }
    }
}

impl<W: Write> Sink for StdSink<W> {
    ghost written = { λ k. k.written };

    ghost turns = { λ k. k.turns };

    ghost faults = { λ k. k.faults };

    fn write(&mut self, piece: &[u8]) -> Result<usize, Failed>
        requires { 0 < length piece.now }
        ensures some { IfOk result (λ n. 0 < n) }
        ensures count { IfOk result (λ n. n ≤ length piece.now) }
        ensures bytes { WriteAppends self.old.written self.new.written result piece.now }
        ensures turn { self.new.turns ≡ turns_after self.old.turns result }
        ensures cause { HasCause self.old.faults self.new.faults result }
        ensures faults { self.new.faults ≡ faults_after self.old.faults result }
    {
        if self.turns < u64::MAX
            && let Ok(count) = self.inner.write(piece)
            && 0 < count
        {
            self.turns += 1;
            return Ok(count);
        }
        self.faults = self.faults.saturating_add(1);
        Err(Failed)
    }
}
