//! Where the bytes of messages go.
ghost use Rattle.std.specs.Prelude.{◌≡◌, Bool, Option, None};
ghost use Rattle.std.specs.Borrow.{GName};
ghost use Rattle.wire_framing.specs.Views.{SinkView};
ghost use Rattle.wire_framing.specs.Sink.{Writes, WritesAll, WritesFront, Closes, asked_again};

use crate::source::Failed;

/// Why a sink didn't take a piece.
#[derive(Clone, Copy, PartialEq, Eq, Debug)]
pub enum Refusal {
    /// The sink failed.
    Failed,
    /// There is no memory.
    Memory,
}

/// Where bytes go.
pub trait Sink {
    // what the sink tells of itself
    ghost view: { Self → SinkView };

    // whether the sink takes file descriptors
    ghost takes: { Self → Bool };

    // the reference that the sink is, where it is a lent one
    ghost lent: { Self → Option GName } = { λ s. None };

    /// Appends the piece's first bytes, and says how many: at least one, unless it is empty. Failed only where the count
    /// of faults rose; an error appends nothing.
    fn write(&mut self, piece: &[u8]) -> Result<usize, Refusal>
        ensures bytes { Writes result piece.now (view self.old) (view self.new) }
        ensures uncounted { (view self.new).closes ≡ (view self.old).closes }
        ensures fds { takes self.new ≡ takes self.old }
        ensures same { lent self.new ≡ lent self.old }
        ensures together { (view self.old).held ≡ None → (view self.old).room ≡ None };

    /// Says that no more bytes come; each call is counted, where that is told. Ok leaves the count of faults as it was.
    /// Failed comes only where that count rose, and never where room is told.
    fn close(&mut self) -> Result<(), Failed>
        ensures bytes { Closes result (view self.old) (view self.new) }
        ensures counted { (view self.new).closes ≡ asked_again (view self.old).closes }
        ensures fds { takes self.new ≡ takes self.old }
        ensures same { lent self.new ≡ lent self.old };

    /// Whether the sink takes file descriptors.
    fn takes_fds(&self) -> bool
        ensures { result ≡ takes self.now };
}

/// Writes all bytes; where that fails, says how many are in the sink.
pub(crate) fn write_front<W: Sink>(sink: &mut W, bytes: &[u8]) -> Result<(), (usize, Refusal)>
    ensures bytes { WritesFront result bytes.now (W.view sink.old) (W.view sink.new) }
    ensures uncounted { (W.view sink.new).closes ≡ (W.view sink.old).closes }
    ensures fds { W.takes sink.new ≡ W.takes sink.old }
    ensures same { W.lent sink.new ≡ W.lent sink.old }
{
    let mut at = 0;
    while at < bytes.len() {
        match sink.write(&bytes[at..]) {
            Ok(count) => at += count,
            Err(refusal) => return Err((at, refusal)),
        }
    }
    Ok(())
}

/// Writes all bytes, in as many writes as the sink needs.
///
/// # Errors
///
/// Failed, where the sink fails a write, and only where its count of faults rose: a proper front of the bytes is then in the
/// sink, and where the sink tells its room, exactly those bytes for which there was room. Memory, where there is no memory: a
/// proper front of the bytes is then in the sink.
pub fn write_all<W: Sink>(sink: &mut W, bytes: &[u8]) -> Result<(), Refusal>
    ensures bytes { WritesAll result bytes.now (W.view sink.old) (W.view sink.new) }
    ensures uncounted { (W.view sink.new).closes ≡ (W.view sink.old).closes }
    ensures fds { W.takes sink.new ≡ W.takes sink.old }
    ensures same { W.lent sink.new ≡ W.lent sink.old }
{
    match write_front(sink, bytes) {
        Ok(()) => Ok(()),
        Err((_, refusal)) => Err(refusal),
    }
}
