//! The trusted edge: a reader as a source, a writer as a sink. They tell the bytes that the reader or the writer tells, and
//! nothing of faults to come.
ghost use Rattle.std.specs.Prelude.{◌≡◌, ◌+◌, ◌-◌, ◌^◌, min, false, None, Some, refl};
ghost use Rattle.wire_framing.specs.Source.{MayRise};

use crate::sink::{Refusal, Sink};
use crate::source::{Failed, Source};
use std::io::{ErrorKind, Read, Write};

/// A source over a reader, as `rt.stdin()`. Each error of the reader is a fault, an interrupted read among them.
#[derive(Drop)]
pub struct StdSource<R> {
    reader: R,
    faults: u64,
}

impl<R: Read> StdSource<R> {
    /// A source of what the reader has left.
    pub fn new(reader: R) -> StdSource<R>
        ensures reader { result.reader ≡ reader }
        ensures faults { result.faults ≡ 0 }
    {
        StdSource { reader, faults: 0 }
    }
}

impl<R: Read> Source for StdSource<R> {
    ghost view = { λ s. record { left = R.remaining s.reader; stop = None; faults = s.faults; asked = None; widest = None } };

    fn read(&mut self, buf: &mut [u8]) -> Result<usize, Failed> {
        match self.reader.read(buf) {
            Ok(count) => Ok(count),
            Err(_) => {
                self.faults = self.faults.saturating_add(1);
                Err(Failed)
            }
        }
    }
}

/// A sink over a writer, as `io::writer(&rt)`, which writes straight out. Each error of the writer but `OutOfMemory` is a
/// fault, an interrupted write among them, and so is a write that takes nothing. It takes no file descriptors.
#[derive(Drop)]
pub struct StdSink<W> {
    writer: W,
    faults: u64,
    closes: u64,
}

impl<W: Write> StdSink<W> {
    /// A sink that appends to what the writer holds.
    pub fn new(writer: W) -> StdSink<W>
        ensures writer { result.writer ≡ writer }
        ensures faults { result.faults ≡ 0 }
        ensures closes { result.closes ≡ 0 }
    {
        StdSink {
            writer,
            faults: 0,
            closes: 0,
        }
    }

    /// The writer.
    pub(crate) fn writer(&self) -> &W
        ensures { result.now ≡ self.now.writer }
    {
        &self.writer
    }

    /// Counts a call that failed.
    pub(crate) fn fail(&mut self) -> Failed
        ensures writer { self.new.writer ≡ self.old.writer }
        ensures faults { MayRise self.old.faults self.new.faults }
        ensures closes { self.new.closes ≡ self.old.closes }
    {
        self.faults = self.faults.saturating_add(1);
        Failed
    }

    /// Counts a call of `close`; the count stays at 2^64 - 1.
    pub(crate) fn count_close(&mut self)
        ensures writer { self.new.writer ≡ self.old.writer }
        ensures faults { self.new.faults ≡ self.old.faults }
        ensures closes { self.new.closes ≡ min (self.old.closes + 1) (2 ^ 64 - 1) }
    {
        self.closes = self.closes.saturating_add(1);
    }
}

impl<W: Write> Sink for StdSink<W> {
    ghost view = { λ s. record { held = W.contents s.writer; room = None; faults = s.faults; closes = Some s.closes } };

    ghost takes = { λ s. false };

    fn write(&mut self, piece: &[u8]) -> Result<usize, Refusal> {
        match self.writer.write(piece) {
            Ok(count) if count > 0 || piece.is_empty() => Ok(count),
            Err(e) if e.kind() == ErrorKind::OutOfMemory => Err(Refusal::Memory),
            _ => {
                self.faults = self.faults.saturating_add(1);
                Err(Refusal::Failed)
            }
        }
    }

    /// Flushes the writer, so that what a buffered one holds goes out. Ok exactly where it could be flushed.
    fn close(&mut self) -> Result<(), Failed> {
        self.count_close();
        match self.writer.flush() {
            Ok(()) => Ok(()),
            Err(_) => Err(self.fail()),
        }
    }

    fn takes_fds(&self) -> bool {
        false
    }
}
