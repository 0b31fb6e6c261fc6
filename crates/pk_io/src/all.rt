// All of a source, and all of a text to a sink.
ghost use Rattle.std.specs.Prelude.{◌≡◌, ◌+◌, ◌<◌, ◌≤◌, length, take, min, max, IfOk, IfErr, IfSome, OnOk, OnErr, vec_len};
ghost use Rattle.std.specs.Io.KnownBytes.{Appends, IsAtEnd};
ghost use Rattle.pk_io.specs.Causes.{Rose};
ghost use Rattle.pk_io.specs.Rest.{IsRest};
ghost use Rattle.pk_io.specs.declared.all.ReadError.TheVariants.{Memory};

use crate::{Sink, Source};
use std::alloc::{AllocError, Global};

#[derive(Clone, Copy, PartialEq, Eq)]
pub enum ReadError {
    ReadFault,
    TooLong,
    Memory,
}

impl From<AllocError> for ReadError {
    ghost from_gives = { λ _ e. e ≡ Memory };

    fn from(_: AllocError) -> Self {
        ReadError::Memory
    }
}

/// A write that a fault of the sink cut short.
#[derive(Clone, Copy, PartialEq, Eq)]
pub struct WriteFault {
    pub sent: usize,
}

/// The bytes that the source has left, unless they are more than `limit`.
pub fn read_all<S: Source>(alloc: Global, src: &mut S, limit: usize) -> Result<Vec<u8>, ReadError>
    ensures bytes { IfOk result (λ bytes. IfSome (S.left src.old) (λ told. bytes.items ≡ told)) }
    ensures to_end { OnOk result (IsAtEnd (S.left src.new)) }
    ensures within { IfOk result (λ bytes. vec_len bytes ≤ limit) }
    ensures too_long { result ≡ Err ReadError.TooLong →
        IfSome (S.left src.old) (λ told. limit < length told) }
    ensures fault { result ≡ Err ReadError.ReadFault → Rose (S.faults src.old) (S.faults src.new) }

    // After an error too, the source is as its reads left it.
    ensures rest { IsRest (S.left src.old) (S.left src.new) }
    ensures count { S.faults src.old ≤ S.faults src.new }

    // At most `limit + 1` reads give a byte, and each read is lent 4096 bytes.
    ensures turns { S.turns src.new ≤ S.turns src.old + limit + 1 }
    ensures shortest_buffer { S.shortest src.new ≡ min (S.shortest src.old) 4096 }
    ensures longest_buffer { S.longest src.new ≡ max (S.longest src.old) 4096 }
{
    let mut bytes = Vec::new(alloc);
    let mut buffer = [0u8; 4096];
    while bytes.len() <= limit {
        match src.read(&mut buffer) {
            Ok(0) => return Ok(bytes),
            Ok(count) => bytes.extend_from_slice(&buffer[..count])?,
            Err(_) => return Err(ReadError::ReadFault),
        }
    }
    Err(ReadError::TooLong)
}

/// Writes all the bytes, and takes no memory.
pub fn write_all<K: Sink>(out: &mut K, bytes: &[u8]) -> Result<(), WriteFault>
    ensures all { OnOk result (Appends (K.written out.old) (K.written out.new) bytes.now) }
    ensures part { IfErr result (λ fault. fault.sent < length bytes.now) }
    ensures sent { IfErr result (λ fault.
        Appends (K.written out.old) (K.written out.new) (take fault.sent bytes.now)) }
    ensures fault { OnErr result (Rose (K.faults out.old) (K.faults out.new)) }
    ensures count { K.faults out.old ≤ K.faults out.new }
    ensures turns { K.turns out.new ≤ K.turns out.old + length bytes.now }
{
    let mut sent = 0;
    while sent < bytes.len() {
        match out.write(&bytes[sent..]) {
            Ok(count) => sent += count,
            Err(_) => return Err(WriteFault { sent }),
        }
    }
    Ok(())
}
