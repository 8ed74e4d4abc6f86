// Reads all of a source, and writes all of a text.
ghost use Rattle.std.specs.Prelude.{◌≡◌, ◌+◌, ◌^◌, ◌<◌, ◌≤◌, ◌↔◌, length, IfOk, IfSome, OnOk, OnErr, IsErrOf};
ghost use Rattle.std.specs.Io.KnownBytes.{Appends};
ghost use Rattle.lg_outside.specs.Outside.{AppendsPart, GivesAll, Rose, TakesFront, taken_count};

use crate::{Sink, Source};
use std::alloc::Global;
use thiserror::Error;

/// Why a source was not read to its end.
#[derive(Clone, Copy, Debug, PartialEq, Eq, Error)]
pub enum ReadEnd {
    /// The source failed.
    #[error("read fault")]
    ReadFault,
    /// The source has more bytes than the limit.
    #[error("too long")]
    TooLong,
    /// There was not enough memory. Nothing was read.
    #[error("no memory")]
    NoMemory,
}

/// The sink failed before all was written.
#[derive(Clone, Copy, Debug, PartialEq, Eq, Error)]
#[error("write fault")]
pub struct WriteFault;

const BUFFER_LEN: usize = 8192;

/// Reads a source to its end, and gives all its bytes, if they are at most `limit` bytes. Of a
/// longer source it takes one byte more than the limit. It reserves memory for one byte more than
/// the limit before it reads, and asks the source for no more bytes than that.
pub fn read_all<S: Source>(alloc: Global, source: &mut S, limit: usize) -> Result<Vec<u8>, ReadEnd>
    requires { limit < 2 ^ 32 }

    ensures whole { IfOk result (λ bytes.
        GivesAll (S.left source.old) (S.left source.new) bytes.items) }
    ensures within { IfOk result (λ bytes. length bytes.items ≤ limit) }
    ensures taken { TakesFront (limit + 1) (S.left source.old) (S.left source.new) }

    ensures too_long { IfSome (S.left source.old) (λ bytes.
        IsErrOf result ReadEnd.TooLong ↔ (taken_count bytes (S.left source.new) ≡ limit + 1)) }
    ensures fault { IsErrOf result ReadEnd.ReadFault →
        Rose (S.faults source.old) (S.faults source.new) }
    ensures no_memory { IsErrOf result ReadEnd.NoMemory → source.new ≡ source.old }
    ensures later { S.faults source.old ≤ S.faults source.new }
{
    // All room is taken before the first read: later a want of memory would lose what was read.
    let Ok(mut bytes) = Vec::with_capacity(alloc, limit + 1) else {
        return Err(ReadEnd::NoMemory);
    };
    let mut buffer = [0u8; BUFFER_LEN];
    while bytes.len() <= limit {
        let wanted = (limit + 1 - bytes.len()).min(BUFFER_LEN);
        let window = &mut buffer[..wanted];
        let Ok(count) = source.next(window) else {
            return Err(ReadEnd::ReadFault);
        };
        if count == 0 {
            return Ok(bytes);
        }
        bytes.extend_from_slice(&window[..count]).unwrap();
    }
    Err(ReadEnd::TooLong)
}

/// Writes all the bytes, in as many calls as the sink needs. It takes no memory. At `Err` a front
/// of them was written.
pub fn write_all<K: Sink>(sink: &mut K, bytes: &[u8]) -> Result<(), WriteFault>
    ensures whole { OnOk result (Appends (K.written sink.old) (K.written sink.new) bytes.now) }
    ensures part { OnErr result (AppendsPart (K.written sink.old) (K.written sink.new) bytes.now) }
    ensures fault { OnErr result (Rose (K.faults sink.old) (K.faults sink.new)) }
    ensures later { K.faults sink.old ≤ K.faults sink.new }
{
    let mut rest = bytes;
    while !rest.is_empty() {
        let Ok(count) = sink.put(rest) else {
            return Err(WriteFault);
        };
        rest = &rest[count..];
    }
    Ok(())
}
