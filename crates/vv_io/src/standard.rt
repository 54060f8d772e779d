//! Sources and sinks over std's readers and writers. Bytes are told where std tells them. No clause can say when a
//! reader or a writer of std fails, so a body of `read` or `write` here could give up by itself and count that as
//! a fault, or ask again after one and count only its own. Tests look at it.
ghost use Rattle.std.specs.Prelude.{◌≡◌};

use crate::{Sink, Source};
use std::io::{Read, Write};
use vv_units::Failed;

/// A source over a reader of std.
#[derive(Drop)]
pub struct StdSource<R: Read> {
    reader: R,
    faults: u64,
}

/// A sink over a writer of std.
#[derive(Drop)]
pub struct StdSink<W: Write> {
    writer: W,
    faults: u64,
}

impl<R: Read> StdSource<R> {
    /// A source that reads from there.
    pub fn new(reader: R) -> Self
        ensures told { ⟦<StdSource<R> as Source>⟧.left result ≡ R.remaining reader }
        ensures faults { ⟦<StdSource<R> as Source>⟧.faults result ≡ 0 }
    {
        StdSource { reader, faults: 0 }
    }
}

impl<W: Write> StdSink<W> {
    /// A sink that writes to there.
    pub fn new(writer: W) -> Self
        ensures told { ⟦<StdSink<W> as Sink>⟧.taken result ≡ W.contents writer }
        ensures faults { ⟦<StdSink<W> as Sink>⟧.faults result ≡ 0 }
    {
        StdSink { writer, faults: 0 }
    }
}

impl<R: Read> Source for StdSource<R> {
    ghost left = { λ s. R.remaining s.reader };

    ghost faults = { λ s. s.faults };

    fn read(&mut self, into: &mut [u8]) -> Result<usize, Failed> {
        match self.reader.read(into) {
            Ok(count) => Ok(count),
            Err(_) => {
                self.faults = self.faults.saturating_add(1);
                Err(Failed)
            }
        }
    }
}

impl<W: Write> Sink for StdSink<W> {
    ghost taken = { λ s. W.contents s.writer };

    ghost faults = { λ s. s.faults };

    fn write(&mut self, bytes: &[u8]) -> Result<usize, Failed> {
        match self.writer.write(bytes) {
            Ok(count) if count > 0 || bytes.is_empty() => Ok(count),
            _ => {
                self.faults = self.faults.saturating_add(1);
                Err(Failed)
            }
        }
    }
}
