// The adapters over std's readers and writers. They are the edge that is trusted: what a file or a
// stream of the system gives or takes, no clause can say.
ghost use Rattle.std.specs.Prelude.{◌≡◌, ◌<◌, ◌≤◌, IfOk, length};
ghost use Rattle.std.specs.Io.{ReadsAtMost, WritesAtMost};
ghost use Rattle.std.specs.Io.KnownBytes.{ReadConsumes, WriteAppends};
ghost use Rattle.hb_io.specs.Causes.{CountsFaults, HasCause};

use crate::{Failed, Sink, Source};
use std::io::{ErrorKind, Read, Write};

// How often an interrupted call is tried again.
const RETRIES: u32 = 1000;

/// A source over a reader. It tells what its reader tells: the bytes of one in memory, and nothing
/// of one of the system.
#[derive(Drop)]
pub struct RealSource<R: Read> {
    reader: R,
    faults: u64,
}

impl<R: Read> RealSource<R> {
    ghost use Rattle.hb_io.specs.Real.{source_reader, reader_faults};

    /// A source over `reader`, which has not failed yet.
    pub fn new(reader: R) -> RealSource<R>
        ensures reader { source_reader result ≡ reader }
        ensures count { reader_faults result ≡ 0 }
    {
        RealSource { reader, faults: 0 }
    }
}

impl<R: Read> Source for RealSource<R> {
    ghost use Rattle.hb_io.specs.Real.{source_reader, reader_faults};

    ghost left = { λ s. R.remaining (source_reader s) };

    ghost faults = { λ s. reader_faults s };

    /// As every source. A call that is interrupted is tried again up to 1,000 times, and is then a
    /// fault, as any other error of the reader is at once.
    fn read(&mut self, buf: &mut [u8]) -> Result<usize, Failed>
        ensures bound { ReadsAtMost result buf.new }
        ensures bytes { ReadConsumes (R.remaining (source_reader self.old))
            (R.remaining (source_reader self.new)) result buf.new }
        ensures cause { HasCause (reader_faults self.old) (reader_faults self.new) result }
        ensures counted { CountsFaults (reader_faults self.old) (reader_faults self.new) result }
    {
        for _ in 0..=RETRIES {
            match self.reader.read(buf) {
                Ok(count) => return Ok(count),
                Err(error) if error.kind() == ErrorKind::Interrupted => {}
                Err(_) => break,
            }
        }
        self.faults = self.faults.saturating_add(1);
        Err(Failed)
    }
}

/// A sink over a writer. It tells what its writer tells: the bytes of one in memory, and nothing of
/// one of the system.
#[derive(Drop)]
pub struct RealSink<W: Write> {
    writer: W,
    faults: u64,
}

impl<W: Write> RealSink<W> {
    ghost use Rattle.hb_io.specs.Real.{sink_writer, writer_faults};

    /// A sink over `writer`, which has not failed yet. It holds nothing back, so no flush is due.
    pub fn new(writer: W) -> RealSink<W>
        ensures writer { sink_writer result ≡ writer }
        ensures count { writer_faults result ≡ 0 }
    {
        RealSink { writer, faults: 0 }
    }
}

impl<W: Write> Sink for RealSink<W> {
    ghost use Rattle.hb_io.specs.Real.{sink_writer, writer_faults};

    ghost held = { λ s. W.contents (sink_writer s) };

    ghost faults = { λ s. writer_faults s };

    /// As every sink. A call that is interrupted is tried again up to 1,000 times, and is then a
    /// fault, as any other error of the writer is at once, and a writer that takes no byte of some.
    fn write(&mut self, piece: &[u8]) -> Result<usize, Failed>
        ensures bound { WritesAtMost result piece.now }
        ensures some { IfOk result (λ n. 0 < length piece.now → 0 < n) }
        ensures bytes { WriteAppends (W.contents (sink_writer self.old))
            (W.contents (sink_writer self.new)) result piece.now }
        ensures cause { HasCause (writer_faults self.old) (writer_faults self.new) result }
        ensures counted { CountsFaults (writer_faults self.old) (writer_faults self.new) result }
    {
        for _ in 0..=RETRIES {
            match self.writer.write(piece) {
                Ok(0) if !piece.is_empty() => break,
                Ok(count) => return Ok(count),
                Err(error) if error.kind() == ErrorKind::Interrupted => {}
                Err(_) => break,
            }
        }
        self.faults = self.faults.saturating_add(1);
        Err(Failed)
    }
}
