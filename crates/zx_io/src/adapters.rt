//! Sources and sinks over the readers and writers of `std`.

ghost use Rattle.std.specs.Prelude.{◌≡◌};
ghost use Rattle.zx_io.specs.Adapters.{adapted_reader, read_faults, adapted_writer, write_faults};

use crate::streams::{Failed, Sink, Source};
use std::io::{Read, Write};

/// A source over a reader. It counts each error of the reader, an interrupted call too.
#[derive(Drop)]
pub struct ReadAdapter<R> {
    reader: R,
    faults: u64,
}

impl<R: Read> ReadAdapter<R> {
    /// The reader as a source, with no fault yet.
    pub fn new(reader: R) -> ReadAdapter<R>
        ensures reader { adapted_reader result ≡ reader }
        ensures faults { read_faults result ≡ 0 }
    {
        ReadAdapter { reader, faults: 0 }
    }
}

impl<R: Read> Source for ReadAdapter<R> {
    ghost left = { λ s. R.remaining (adapted_reader s) };

    ghost faults = { read_faults };

    fn read(&mut self, buf: &mut [u8]) -> Result<usize, Failed> {
        match self.reader.read(buf) {
            Ok(count) => Ok(count),
            Err(_) => {
                self.faults = self.faults.saturating_add(1);
                Err(Failed)
            }
        }
    }
}

/// A sink over a writer. It counts each error of the writer, an interrupted call too, and each write
/// that took nothing.
#[derive(Drop)]
pub struct WriteAdapter<W> {
    writer: W,
    faults: u64,
}

impl<W: Write> WriteAdapter<W> {
    /// The writer as a sink, with no fault yet.
    pub fn new(writer: W) -> WriteAdapter<W>
        ensures writer { adapted_writer result ≡ writer }
        ensures faults { write_faults result ≡ 0 }
    {
        WriteAdapter { writer, faults: 0 }
    }
}

impl<W: Write> Sink for WriteAdapter<W> {
    ghost taken = { λ k. W.contents (adapted_writer k) };

    ghost faults = { write_faults };

    fn write(&mut self, piece: &[u8]) -> Result<usize, Failed> {
        match self.writer.write(piece) {
            Ok(count) if count > 0 => Ok(count),
            _ => {
                self.faults = self.faults.saturating_add(1);
                Err(Failed)
            }
        }
    }

    fn flush(&mut self) -> Result<(), Failed> {
        match self.writer.flush() {
            Ok(()) => Ok(()),
            Err(_) => {
                self.faults = self.faults.saturating_add(1);
                Err(Failed)
            }
        }
    }
}
