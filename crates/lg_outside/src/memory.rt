// Streams in memory, which fail at the calls that they are told to.
ghost use Rattle.std.specs.Prelude.{◌≡◌, ◌⊎◌, ◌<◌, ◌≤◌, ◌↔◌, [], min, length, take, Some, vec_len, vec_capacity, Contains, IfOk, IsErr, is_err, if◌then◌else◌};
ghost use Rattle.std.specs.Io.{ReadsAtMost};
ghost use Rattle.std.specs.Io.KnownBytes.{ReadConsumes, WriteAppends};
ghost use Rattle.lg_outside.specs.Outside.{HasCause, Rose, TakesSome, count_up};

use crate::{Failed, NoMemory, Sink, Source};
use std::alloc::Global;

/// A source that gives bytes from memory, in pieces, and fails at chosen calls.
#[derive(Debug, Drop)]
pub struct MemorySource {
    bytes: Vec<u8>,
    taken: usize,
    piece: usize,
    failing: Vec<u64>,
    calls: u64,
    faults: u64,
    ghost within: { taken ≤ vec_len bytes },
    ghost gives: { 0 < piece },
}

impl MemorySource {
    ghost use Rattle.lg_outside.specs.Memory.{source_calls, source_failing, source_faults, source_left, source_piece};

    /// A source of these bytes. A call of `next` gives at most `piece` of them, and fails if its
    /// number, from 1, is in `failing`. The number stands still at the end of a `u64`.
    pub fn new(bytes: Vec<u8>, piece: usize, failing: Vec<u64>) -> MemorySource
        requires { 0 < piece }
        ensures left { source_left result ≡ bytes.items }
        ensures piece { source_piece result ≡ piece }
        ensures failing { source_failing result ≡ failing.items }
        ensures calls { source_calls result ≡ 0 }
        ensures faults { source_faults result ≡ 0 }
    {
        MemorySource {
            bytes,
            taken: 0,
            piece,
            failing,
            calls: 0,
            faults: 0,
        }
    }

    fn left(&self) -> &[u8]
        ensures { result.now ≡ source_left self.now }
    {
        &self.bytes[self.taken..]
    }
}

// Copies the front of `from`, at most `most` bytes, into the front of `to`, and says how many.
fn copy_front(from: &[u8], to: &mut [u8], most: usize) -> usize
    ensures count { result ≡ min most (min (length to.old) (length from.now)) }
    ensures copied { take result to.new ≡ take result from.now }
{
    let count = most.min(to.len().min(from.len()));
    to[..count].copy_from_slice(&from[..count]);
    count
}

impl Source for MemorySource {
    ghost use Rattle.lg_outside.specs.Memory.{source_calls, source_failing, source_faults, source_left, source_piece};

    ghost left = { λ source. Some (source_left source) };

    ghost faults = { λ source. source_faults source };

    /// Gives as many bytes as are left, as a piece may have and as the buffer has room for.
    fn next(&mut self, buf: &mut [u8]) -> Result<usize, Failed>
        ensures bound { ReadsAtMost result buf.new }
        ensures bytes { ReadConsumes (Some (source_left self.old)) (Some (source_left self.new))
            result buf.new }
        ensures cause { HasCause (source_faults self.old) (source_faults self.new) result }

        ensures calls { source_calls self.new ≡ count_up (source_calls self.old) }
        ensures fails { IsErr result ↔ Contains (source_failing self.old) (source_calls self.new) }
        ensures faults { source_faults self.new
            ≡ (if is_err result then count_up (source_faults self.old)
            else source_faults self.old) }
        ensures amount { IfOk result (λ n.
            n ≡ min (source_piece self.old)
            (min (length buf.old) (length (source_left self.old)))) }
        ensures same_piece { source_piece self.new ≡ source_piece self.old }
        ensures same_failing { source_failing self.new ≡ source_failing self.old }
    {
        self.calls = self.calls.saturating_add(1);
        if self.failing.contains(&self.calls) {
            self.faults = self.faults.saturating_add(1);
            return Err(Failed);
        }
        let count = copy_front(self.left(), buf, self.piece);
        self.taken += count;
        Ok(count)
    }
}

/// A sink that keeps bytes in memory, has room for only so many, and fails at chosen calls.
#[derive(Debug, Drop)]
pub struct MemorySink {
    bytes: Vec<u8>,
    room: usize,
    failing: Vec<u64>,
    calls: u64,
    faults: u64,
    ghost reserved: { room ≤ vec_capacity bytes },
    ghost within: { vec_len bytes ≤ room },
}

impl MemorySink {
    ghost use Rattle.lg_outside.specs.Memory.{sink_calls, sink_failing, sink_faults, sink_room, sink_written};

    /// An empty sink that takes `room` bytes in all. A call of `put` fails if its number, from 1,
    /// is in `failing`, and where no room is left for any of its bytes. The number stands still at
    /// the end of a `u64`. All memory is taken here.
    pub fn new(alloc: Global, room: usize, failing: Vec<u64>) -> Result<MemorySink, NoMemory>
        ensures written { IfOk result (λ sink. sink_written sink ≡ []) }
        ensures room { IfOk result (λ sink. sink_room sink ≡ room) }
        ensures failing { IfOk result (λ sink. sink_failing sink ≡ failing.items) }
        ensures calls { IfOk result (λ sink. sink_calls sink ≡ 0) }
        ensures faults { IfOk result (λ sink. sink_faults sink ≡ 0) }
    {
        let bytes = Vec::with_capacity(alloc, room)?;
        Ok(MemorySink {
            bytes,
            room,
            failing,
            calls: 0,
            faults: 0,
        })
    }

    /// What was written so far.
    pub fn bytes(&self) -> &[u8]
        ensures { result.now ≡ sink_written self.now }
    {
        &self.bytes
    }

    // Counts a fault.
    fn fault(&mut self) -> Failed
        ensures counted { self.new ≡ record self.old { faults = count_up self.old.faults } }
        ensures later { self.old.faults ≤ self.new.faults }
        ensures rose { Rose self.old.faults self.new.faults }
    {
        self.faults = self.faults.saturating_add(1);
        Failed
    }
}

impl Sink for MemorySink {
    ghost use Rattle.lg_outside.specs.Memory.{sink_calls, sink_failing, sink_faults, sink_room, sink_room_left, sink_written};

    ghost written = { λ sink. Some (sink_written sink) };

    ghost faults = { λ sink. sink_faults sink };

    /// Appends as many bytes of the piece as there is room for.
    fn put(&mut self, piece: &[u8]) -> Result<usize, Failed>
        ensures bound { TakesSome result piece.now }
        ensures bytes { WriteAppends (Some (sink_written self.old)) (Some (sink_written self.new))
            result piece.now }
        ensures cause { HasCause (sink_faults self.old) (sink_faults self.new) result }

        ensures calls { sink_calls self.new ≡ count_up (sink_calls self.old) }
        ensures fails { IsErr result ↔ (Contains (sink_failing self.old) (sink_calls self.new)
            ⊎ ((0 < length piece.now) × (sink_room_left self.old ≡ 0))) }
        ensures faults { sink_faults self.new
            ≡ (if is_err result then count_up (sink_faults self.old) else sink_faults self.old) }
        ensures amount { IfOk result (λ n. n ≡ min (sink_room_left self.old) (length piece.now)) }
        ensures same_room { sink_room self.new ≡ sink_room self.old }
        ensures same_failing { sink_failing self.new ≡ sink_failing self.old }
    {
        self.calls = self.calls.saturating_add(1);
        if self.failing.contains(&self.calls) {
            return Err(self.fault());
        }
        let room_left = self.room - self.bytes.len();
        if room_left == 0 && !piece.is_empty() {
            return Err(self.fault());
        }
        let count = room_left.min(piece.len());
        self.bytes.extend_from_slice(&piece[..count]).unwrap();
        Ok(count)
    }
}
