// A source and a sink in memory, which move pieces of a greatest length and fail at chosen calls.
ghost use Rattle.std.specs.Prelude.{◌≡◌, ◌<◌, ◌≤◌, ◌↔◌, [], length, min, max, ◌-◌, ◌^◌, IfOk, IsErr, Contains, Some};
ghost use Rattle.std.specs.Io.{ReadsAtMost};
ghost use Rattle.std.specs.Io.KnownBytes.{ReadConsumes, WriteAppends};
ghost use Rattle.pk_io.specs.Causes.{HasCause, faults_after, one_more};
ghost use Rattle.pk_io.specs.Turns.{turns_after};

use crate::{Failed, Sink, Source};
use std::alloc::Global;
use std::marker::Model;

/// Bytes that are read in pieces. The calls with the given numbers, counted from 0, fail.
#[derive(Drop)]
pub struct MemSource {
    bytes: Vec<u8>,
    at: usize,
    greatest: usize,
    failing: Vec<u64>,
    calls: u64,
    turns: usize,
    shortest: usize,
    longest: usize,
    faults: u64,
}

impl Model for MemSource {
    ghost use Rattle.pk_io.specs.Memory.{MemInput};

    ghost Value = { MemInput };

    ghost use Rattle.pk_io.specs.MemSource.{input_of, IsWithin};

    ghost view = { input_of };

    ghost invariant = { IsWithin };
}

impl MemSource {
    pub fn new(bytes: Vec<u8>, greatest: usize, failing: Vec<u64>) -> Self
        requires { 0 < greatest }
        ensures { result ≡ record {
          left = bytes.items;
          greatest = greatest;
          failing = failing.items;
          calls = 0;
          turns = 0;
          shortest = 2 ^ 64 - 1;
          longest = 0;
          faults = 0;
        } }
    {
        MemSource {
            bytes,
            at: 0,
            greatest,
            failing,
            calls: 0,
            turns: 0,
            shortest: usize::MAX,
            longest: 0,
            faults: 0,
        }
    }
}

impl Source for MemSource {
    ghost left = { λ s. Some s.left };

    ghost turns = { λ s. s.turns };

    ghost shortest = { λ s. s.shortest };

    ghost longest = { λ s. s.longest };

    ghost faults = { λ s. s.faults };

    fn read(&mut self, buf: &mut [u8]) -> Result<usize, Failed>
        requires { 0 < length buf.old }
        ensures count { ReadsAtMost result buf.new }
        ensures bytes { ReadConsumes (Some self.old.left) (Some self.new.left) result buf.new }
        ensures turn { self.new.turns ≡ turns_after self.old.turns result }
        ensures shortest_buffer { self.new.shortest ≡ min self.old.shortest (length buf.old) }
        ensures longest_buffer { self.new.longest ≡ max self.old.longest (length buf.old) }
        ensures cause { HasCause self.old.faults self.new.faults result }

        // It fails exactly at the calls with the given numbers, and else gives as much as it may.
        ensures fails { IsErr result ↔ Contains self.old.failing self.old.calls }
        ensures piece { IfOk result (λ count.
            count ≡ min (min (length self.old.left) self.old.greatest) (length buf.old)) }

        ensures calls { self.new.calls ≡ one_more self.old.calls }
        ensures faults { self.new.faults ≡ faults_after self.old.faults result }
        ensures greatest { self.new.greatest ≡ self.old.greatest }
        ensures failing { self.new.failing ≡ self.old.failing }
    {
        let fails = self.failing.contains(&self.calls);
        self.calls = self.calls.saturating_add(1);
        self.shortest = self.shortest.min(buf.len());
        self.longest = self.longest.max(buf.len());
        if fails {
            self.faults = self.faults.saturating_add(1);
            return Err(Failed);
        }
        let left = self.bytes.len() - self.at;
        let count = left.min(self.greatest).min(buf.len());
        buf[..count].copy_from_slice(&self.bytes[self.at..self.at + count]);
        self.at += count;
        if 0 < count {
            self.turns += 1;
        }
        Ok(count)
    }
}

/// Bytes that are written in pieces. The calls with the given numbers, counted from 0, fail, and
/// so does one without memory.
#[derive(Drop)]
pub struct MemSink {
    bytes: Vec<u8>,
    greatest: usize,
    failing: Vec<u64>,
    calls: u64,
    turns: usize,
    faults: u64,
}

impl Model for MemSink {
    ghost use Rattle.pk_io.specs.Memory.{MemOutput};

    ghost Value = { MemOutput };

    ghost use Rattle.pk_io.specs.MemSink.{output_of, IsCounted};

    ghost view = { output_of };

    ghost invariant = { IsCounted };
}

impl MemSink {
    pub fn new(alloc: Global, greatest: usize, failing: Vec<u64>) -> Self
        requires { 0 < greatest }
        ensures { result ≡ record {
          written = [];
          greatest = greatest;
          failing = failing.items;
          calls = 0;
          turns = 0;
          faults = 0;
        } }
    {
        MemSink {
            bytes: Vec::new(alloc),
            greatest,
            failing,
            calls: 0,
            turns: 0,
            faults: 0,
        }
    }

    pub fn bytes(&self) -> &[u8]
        ensures { result.now ≡ self.now.written }
    {
        &self.bytes
    }
}

impl Sink for MemSink {
    ghost written = { λ k. Some k.written };

    ghost turns = { λ k. k.turns };

    ghost faults = { λ k. k.faults };

    fn write(&mut self, piece: &[u8]) -> Result<usize, Failed>
        requires { 0 < length piece.now }
        ensures some { IfOk result (λ n. 0 < n) }
        ensures count { IfOk result (λ n. n ≤ length piece.now) }
        ensures bytes { WriteAppends (Some self.old.written) (Some self.new.written) result piece.now }
        ensures turn { self.new.turns ≡ turns_after self.old.turns result }
        ensures cause { HasCause self.old.faults self.new.faults result }

        // It fails at the calls with the given numbers, and else takes as much as it may.
        ensures fails { Contains self.old.failing self.old.calls → IsErr result }
        ensures taken { IfOk result (λ count. count ≡ min (length piece.now) self.old.greatest) }

        ensures calls { self.new.calls ≡ one_more self.old.calls }
        ensures faults { self.new.faults ≡ faults_after self.old.faults result }
        ensures greatest { self.new.greatest ≡ self.old.greatest }
        ensures failing { self.new.failing ≡ self.old.failing }
    {
        let fails = self.failing.contains(&self.calls);
        self.calls = self.calls.saturating_add(1);
        let count = piece.len().min(self.greatest);
        if fails || self.bytes.extend_from_slice(&piece[..count]).is_err() {
            self.faults = self.faults.saturating_add(1);
            return Err(Failed);
        }
        self.turns += 1;
        Ok(count)
    }
}
