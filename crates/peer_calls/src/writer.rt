//! What became of a peer's writer, and why nothing is put any more.
ghost use Rattle.std.specs.Prelude.{◌≡◌, true, false};
ghost use Rattle.peer_calls.specs.History.{worse, shuts};
ghost use Rattle.peer_calls.specs.Issuing.{barred};

use wire_message::{Error, IoKind};

/// What became of a peer's writer.
#[derive(Clone, Copy, PartialEq, Eq, Debug)]
pub enum Writer {
    /// It writes.
    Fine,
    /// A write failed.
    Failed,
    /// The peer was closed.
    Closed,
}

impl Writer {
    /// Whether nothing was met yet.
    pub fn is_fine(self) -> bool
        ensures fine { result ≡ true → self ≡ Writer.Fine }
    {
        matches!(self, Writer::Fine)
    }

    /// Why nothing is put any more, if so: InputOutput(WriteFault) where a write failed, InputOutput(Closed) where the peer was
    /// closed.
    pub fn bars(self) -> Option<Error>
        ensures { result ≡ barred self }
    {
        match self {
            Writer::Fine => None,
            Writer::Failed => Some(Error::InputOutput(IoKind::WriteFault)),
            Writer::Closed => Some(Error::InputOutput(IoKind::Closed)),
        }
    }

    /// What it has met, by a cause that comes now: the earlier one stays.
    pub fn then(self, cause: Writer) -> Writer
        ensures { result ≡ worse self cause }
    {
        match self {
            Writer::Fine => cause,
            Writer::Failed | Writer::Closed => self,
        }
    }

    /// What an error that closes the peer does to its writer.
    pub fn of(error: &Error) -> Writer
        ensures { result ≡ shuts error.now }
    {
        match error {
            Error::InputOutput(IoKind::Closed) => Writer::Closed,
            _ => Writer::Fine,
        }
    }
}
