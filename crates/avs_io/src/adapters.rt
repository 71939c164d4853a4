// A source over a reader of std, and a sink over a writer of std.
ghost use Rattle.std.specs.Prelude.{◌≡◌, ◌≤◌, ◌<◌, None, length, is_err, IfOk, OnOk, if◌then◌else◌};
ghost use Rattle.std.specs.Io.KnownBytes.{ReadConsumes, WriteAppends};
ghost use Rattle.avs_seg.specs.Causes.{HasCause};
ghost use Rattle.avs_io.specs.Adapters.{reader_in, writer_in, read_faults, write_faults};
ghost use Rattle.avs_io.specs.Counts.{one_more};

use crate::stream::{Sink, Source};
use avs_seg::Failed;
use std::io::{Read, Write};

/// A source over a reader. It tells nothing of its bytes, and each error is a fault.
#[derive(Drop)]
pub struct Reading<R> {
    reader: R,
    faults: u64,
}

impl<R: Read> Reading<R> {
    /// A source that reads from where the reader stands.
    pub fn new(reader: R) -> Reading<R>
        ensures reader { reader_in result ≡ reader }
        ensures faults { read_faults result ≡ 0 }
    {
        Reading { reader, faults: 0 }
    }
}

impl<R: Read> Source for Reading<R> {
    ghost left = { λ _. None };

    ghost faults = { read_faults };

    /// Gives what one read of the reader gives.
    fn read(&mut self, out: &mut [u8]) -> Result<usize, Failed>
        ensures bound { IfOk result (λ n. n ≤ length out.new) }
        ensures cause { HasCause (read_faults self.old) (read_faults self.new) result }
        ensures quiet { OnOk result (read_faults self.new ≡ read_faults self.old) }
        ensures count { read_faults self.new ≡ (if is_err result then one_more (read_faults self.old) else read_faults self.old) }
        ensures reads { ReadConsumes (R.remaining (reader_in self.old)) (R.remaining (reader_in self.new)) result out.new }
    {
        match self.reader.read(out) {
            Ok(count) => Ok(count),
            Err(_) => {
                self.faults = self.faults.saturating_add(1);
                Err(Failed)
            }
        }
    }
}

/// A sink over a writer. It tells nothing of its bytes, and each error is a fault, as is a write
/// that takes none of some bytes.
#[derive(Drop)]
pub struct Writing<W> {
    writer: W,
    faults: u64,
}

impl<W: Write> Writing<W> {
    /// A sink that writes where the writer stands, and never flushes it.
    pub fn new(writer: W) -> Writing<W>
        ensures writer { writer_in result ≡ writer }
        ensures faults { write_faults result ≡ 0 }
    {
        Writing { writer, faults: 0 }
    }
}

impl<W: Write> Sink for Writing<W> {
    ghost written = { λ _. None };

    ghost faults = { write_faults };

    /// Gives the bytes to one write of the writer.
    fn write(&mut self, bytes: &[u8]) -> Result<usize, Failed>
        ensures bound { IfOk result (λ n. n ≤ length bytes.now) }
        ensures some { IfOk result (λ n. 0 < length bytes.now → 0 < n) }
        ensures cause { HasCause (write_faults self.old) (write_faults self.new) result }
        ensures quiet { OnOk result (write_faults self.new ≡ write_faults self.old) }
        ensures count { write_faults self.new ≡ (if is_err result then one_more (write_faults self.old) else write_faults self.old) }
        ensures writes { WriteAppends (W.contents (writer_in self.old)) (W.contents (writer_in self.new)) result bytes.now }
    {
        match self.writer.write(bytes) {
            Ok(count) if count > 0 || bytes.is_empty() => Ok(count),
            _ => {
                self.faults = self.faults.saturating_add(1);
                Err(Failed)
            }
        }
    }
}
