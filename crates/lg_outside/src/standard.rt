// Adapters over std's readers and writers, the edge at the real streams. What a real stream gives
// or takes is not known; where a reader or a writer tells its bytes, the adapter tells them too.
ghost use Rattle.std.specs.Prelude.{◌≡◌, is_err, if◌then◌else◌};
ghost use Rattle.std.specs.Io.{ReadsAtMost};
ghost use Rattle.std.specs.Io.KnownBytes.{ReadConsumes, WriteAppends};
ghost use Rattle.lg_outside.specs.Outside.{HasCause, TakesSome, count_up};
ghost use Rattle.lg_outside.specs.Standard.{reader_faults, reader_of, writer_faults, writer_of};

use crate::{Failed, Sink, Source};
use std::io::{Read, Write};

/// A source over a reader of std.
#[derive(Debug, Drop)]
pub struct StdSource<R> {
    reader: R,
    faults: u64,
}

impl<R: Read> StdSource<R> {
    /// A source that reads from `reader`, with no fault yet.
    pub fn new(reader: R) -> StdSource<R>
        ensures reader { reader_of result ≡ reader }
        ensures faults { reader_faults result ≡ 0 }
    {
        StdSource { reader, faults: 0 }
    }

    /// Gives the reader back.
    pub fn into_inner(self) -> R
        ensures { result ≡ reader_of self }
    {
        let StdSource { reader, faults: _ } = self;
        reader
    }
}

impl<R: Read> Source for StdSource<R> {
    ghost left = { λ source. R.remaining (reader_of source) };

    ghost faults = { λ source. reader_faults source };

    /// Reads once. Each error of the reader is a fault.
    fn next(&mut self, buf: &mut [u8]) -> Result<usize, Failed>
        ensures bound { ReadsAtMost result buf.new }
        ensures bytes { ReadConsumes (R.remaining (reader_of self.old))
            (R.remaining (reader_of self.new))
            result buf.new }
        ensures cause { HasCause (reader_faults self.old) (reader_faults self.new) result }

        ensures faults { reader_faults self.new
            ≡ (if is_err result then count_up (reader_faults self.old)
            else reader_faults self.old) }
    {
        match self.reader.read(buf) {
            Ok(count) => Ok(count),
            Err(_) => {
                self.faults = self.faults.saturating_add(1);
                Err(Failed)
            }
        }
    }
}

/// A sink over a writer of std.
#[derive(Debug, Drop)]
pub struct StdSink<W> {
    writer: W,
    faults: u64,
}

impl<W: Write> StdSink<W> {
    /// A sink that writes to `writer`, with no fault yet.
    pub fn new(writer: W) -> StdSink<W>
        ensures writer { writer_of result ≡ writer }
        ensures faults { writer_faults result ≡ 0 }
    {
        StdSink { writer, faults: 0 }
    }

    /// Gives the writer back.
    pub fn into_inner(self) -> W
        ensures { result ≡ writer_of self }
    {
        let StdSink { writer, faults: _ } = self;
        writer
    }
}

impl<W: Write> Sink for StdSink<W> {
    ghost written = { λ sink. W.contents (writer_of sink) };

    ghost faults = { λ sink. writer_faults sink };

    /// Writes once. Each error of the writer is a fault, and so is a write that takes nothing of a
    /// piece that is not empty.
    fn put(&mut self, piece: &[u8]) -> Result<usize, Failed>
        ensures bound { TakesSome result piece.now }
        ensures bytes { WriteAppends (W.contents (writer_of self.old))
            (W.contents (writer_of self.new))
            result piece.now }
        ensures cause { HasCause (writer_faults self.old) (writer_faults self.new) result }

        ensures faults { writer_faults self.new
            ≡ (if is_err result then count_up (writer_faults self.old)
            else writer_faults self.old) }
    {
        match self.writer.write(piece) {
            Ok(count) if 0 < count || piece.is_empty() => Ok(count),
            _ => {
                self.faults = self.faults.saturating_add(1);
                Err(Failed)
            }
        }
    }
}
