//! The half of a connection that writes messages.
ghost use Rattle.std.specs.Prelude.{ℕ, ◌≡◌, ◌<◌, ◌⊎◌, true, false, Some, None, Err, IfErr, IfSome, length, take};
ghost use Rattle.wire_framing.specs.Sink.{Closes, asked_again};
ghost use Rattle.wire_framing.specs.Writing.{has_descriptors, is_unsupported, cause, closed, Sends};
ghost use Rattle.wire_message.specs.declared.error.IoKind.TheVariants.{WriteFault};

use crate::sink::{Refusal, Sink, write_front};
use wire_message::{Error, IoKind, Message, Result};

/// What a half that writes has met.
#[derive(Clone, Copy, PartialEq, Eq, Debug)]
pub enum Writing {
    /// Nothing yet: it writes.
    Fine,
    /// A write failed.
    Failed,
    /// It was closed.
    Closed,
    /// There was no memory in the middle of a message.
    OutOfMemory,
}

/// The half of a connection that writes, over a sink of bytes (D-Bus Specification, "Message Protocol"). What it met first
/// stays: after a failed write, after `close`, and after running out of memory in the middle of a message nothing is written any more.
#[derive(Drop)]
pub struct WriteHalf<W> {
    sink: W,
    writing: Writing,
}

/// Why nothing is written any more.
fn cause(writing: Writing) -> Option<Error>
    ensures { result ≡ cause writing }
{
    match writing {
        Writing::Fine => None,
        Writing::Failed => Some(Error::InputOutput(IoKind::WriteFault)),
        Writing::Closed => Some(Error::InputOutput(IoKind::Closed)),
        Writing::OutOfMemory => Some(Error::Memory),
    }
}

fn closed(writing: Writing) -> Writing
    ensures { result ≡ closed writing }
{
    match writing {
        Writing::Fine => Writing::Closed,
        Writing::Failed | Writing::Closed | Writing::OutOfMemory => writing,
    }
}

fn has_descriptors(message: &Message) -> bool
    ensures { result ≡ has_descriptors message.now.unix_fds }
{
    match message.header().unix_fds() {
        Some(count) => count != 0,
        None => false,
    }
}

/// Writes all bytes of a message; sets what the half has met.
fn write_message<W: Sink>(sink: &mut W, writing: &mut Writing, bytes: &[u8]) -> Result<()>
    requires { writing.old ≡ Writing.Fine }
    ensures bytes { Sends result writing.new bytes.now (W.view sink.old) (W.view sink.new) }
    ensures uncounted { (W.view sink.new).closes ≡ (W.view sink.old).closes }
    ensures fds { W.takes sink.new ≡ W.takes sink.old }
    ensures same { W.lent sink.new ≡ W.lent sink.old }
{
    match write_front(sink, bytes) {
        Ok(()) => Ok(()),
        Err((_, Refusal::Failed)) => {
            *writing = Writing::Failed;
            Err(Error::InputOutput(IoKind::WriteFault))
        }
        Err((written, Refusal::Memory)) => {
            if written > 0 {
                *writing = Writing::OutOfMemory;
            }
            Err(Error::Memory)
        }
    }
}

impl<W: Sink> WriteHalf<W> {
    /// A half that writes to this sink.
    pub fn new(sink: W) -> WriteHalf<W>
        ensures sink { result.sink ≡ sink }
        ensures fine { result.writing ≡ Writing.Fine }
    {
        WriteHalf {
            sink,
            writing: Writing::Fine,
        }
    }

    /// Whether the sink takes file descriptors.
    pub fn can_pass_unix_fd(&self) -> bool
        ensures { result ≡ W.takes self.now.sink }
    {
        self.sink.takes_fds()
    }

    /// What the half has met.
    pub fn writing(&self) -> Writing
        ensures { result ≡ self.now.writing }
    {
        self.writing
    }

    /// Gives the sink back.
    pub fn into_sink(self) -> W
        ensures { result ≡ self.sink }
    {
        self.sink
    }

    /// Writes all bytes of the message.
    ///
    /// # Errors
    ///
    /// The first that holds. Unsupported, exactly where the message has file descriptors and the sink takes none: nothing is
    /// written. InputOutput(WriteFault) after a failed write, InputOutput(Closed) after `close`, Memory after running out of memory
    /// in the middle of a message, whichever came first: nothing is written. InputOutput(WriteFault), only where the sink's
    /// count of faults rose, leaves a part of the message in the sink, and not all: exactly as many bytes as there was room for,
    /// where the sink tells its room. Memory leaves a part, and not all: where it is none, the half still writes.
    ///
    /// # Examples
    ///
    /// ```
    /// use wire_framing::{MemorySink, WriteHalf};
    /// use wire_message::{Message, NonePending, Serials};
    /// use wire_value::{MemberName, ObjectPath};
    /// let call = Message::method_call(&ObjectPath::try_from("/a")?, &MemberName::try_from("Ping")?);
    /// let call = call.build_empty_uncounted(rt.alloc(), &mut Serials::new(), &NonePending)?;
    /// let mut half = WriteHalf::new(MemorySink::new(rt.alloc(), false));
    /// half.send_message(&call)?;
    /// assert!(rt; half.into_sink().bytes() == call.data());
    /// Ok(())
    /// ```
    pub fn send_message(&mut self, message: &Message) -> Result<()>
        ensures unsupported { is_unsupported message.now.unix_fds (W.takes self.old.sink) ≡ true → (result ≡ Err Error.Unsupported) × (self.new ≡ self.old) }
        ensures over { is_unsupported message.now.unix_fds (W.takes self.old.sink) ≡ false → IfSome (cause self.old.writing) (λ e. (result ≡ Err e) × (self.new ≡ self.old)) }
        ensures sends { is_unsupported message.now.unix_fds (W.takes self.old.sink) ≡ false → cause self.old.writing ≡ None
            → Sends result self.new.writing message.now.bytes (W.view self.old.sink) (W.view self.new.sink) }
        ensures uncounted { (W.view self.new.sink).closes ≡ (W.view self.old.sink).closes }
        ensures fds { W.takes self.new.sink ≡ W.takes self.old.sink }
        ensures same { W.lent self.new.sink ≡ W.lent self.old.sink }
    {
        if has_descriptors(message) && !self.sink.takes_fds() {
            return Err(Error::Unsupported);
        }
        match cause(self.writing) {
            Some(error) => Err(error),
            None => write_message(&mut self.sink, &mut self.writing, message.data()),
        }
    }

    /// Says that no more bytes come: it asks the sink to close, once, and is Ok exactly where the sink's `close` is. Whatever
    /// it answers, no later send writes.
    ///
    /// # Errors
    ///
    /// InputOutput(WriteFault), exactly where the sink's `close` failed: only where the sink's count of faults rose, and never
    /// where the sink tells its room.
    pub fn close(&mut self) -> Result<()>
        ensures bytes { Closes result (W.view self.old.sink) (W.view self.new.sink) }
        ensures counted { (W.view self.new.sink).closes ≡ asked_again (W.view self.old.sink).closes }
        ensures closed { self.new.writing ≡ closed self.old.writing }
        ensures error { IfErr result (λ e. e ≡ Error.InputOutput WriteFault) }
        ensures fds { W.takes self.new.sink ≡ W.takes self.old.sink }
        ensures same { W.lent self.new.sink ≡ W.lent self.old.sink }
    {
        self.writing = closed(self.writing);
        match self.sink.close() {
            Ok(()) => Ok(()),
            Err(_) => Err(Error::InputOutput(IoKind::WriteFault)),
        }
    }
}
