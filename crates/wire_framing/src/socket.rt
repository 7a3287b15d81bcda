//! A connection, and its two halves.
ghost use Rattle.std.specs.Prelude.{◌≡◌};
ghost use Rattle.std.specs.Borrow.{sem};
ghost use Rattle.wire_framing.specs.Halves.{lends_read, lends_write};

use crate::read_half::ReadHalf;
use crate::sink::Sink;
use crate::source::Source;
use crate::write_half::{WriteHalf, Writing};

/// A connection, which comes apart into a half that reads and a half that writes.
pub trait Socket {
    /// Where its bytes come from.
    type In: Source;
    /// Where its bytes go.
    type Out: Sink;

    // where its bytes come from, and where they go
    ghost source: { Self → Self.In };

    ghost sink: { Self → Self.Out };

    /// Its two halves, which have met nothing yet.
    fn split(self) -> Split<ReadHalf<Self::In>, WriteHalf<Self::Out>>
        ensures read { result.read.source ≡ source self }
        ensures write { result.write.sink ≡ sink self }
        ensures fine { result.write.writing ≡ Writing.Fine };
}

/// The two halves of a connection.
#[derive(Drop)]
pub struct Split<R, W> {
    read: R,
    write: W,
}

/// The two halves of a connection of whatever kind, over boxes that the caller made.
pub type BoxedSplit = Split<
    ReadHalf<Box<dyn Source + Send + Drop>>,
    WriteHalf<Box<dyn Sink + Send + Drop>>,
>;

impl<R, W> Split<R, W> {
    /// A pair of these halves.
    pub fn new(read: R, write: W) -> Split<R, W>
        ensures read { result.read ≡ read }
        ensures write { result.write ≡ write }
    {
        Split { read, write }
    }

    /// The half that reads.
    pub fn read(&self) -> &R
        ensures { result.now ≡ self.now.read }
    {
        &self.read
    }

    /// The half that reads, to be used.
    pub fn read_mut(&mut self) -> &mut R
        ensures* writes_back { sem 𝓛 (lends_read R.row W.row self.entry result) }
        ensures value { result.now ≡ self.old.read }
    {
        &mut self.read
    }

    /// The half that writes.
    pub fn write(&self) -> &W
        ensures { result.now ≡ self.now.write }
    {
        &self.write
    }

    /// The half that writes, to be used.
    pub fn write_mut(&mut self) -> &mut W
        ensures* writes_back { sem 𝓛 (lends_write R.row W.row self.entry result) }
        ensures value { result.now ≡ self.old.write }
    {
        &mut self.write
    }

    /// Both halves.
    pub fn take(self) -> (R, W)
        ensures { result ≡ (self.read, self.write) }
    {
        (self.read, self.write)
    }
}
