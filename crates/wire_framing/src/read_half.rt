//! The half of a connection that reads messages.
ghost use Rattle.std.specs.Prelude.{◌≡◌, ◌≤◌, ◌<◌, ◌-◌, ◌^◌, length, drop, [], false, IfSome, IfOk, IfErr, Ok, Err};
ghost use Rattle.std.specs.Io.KnownBytes.{prepend_known};
ghost use Rattle.wire_framing.specs.Source.{Widens};
ghost use Rattle.wire_framing.specs.Receive.{Receives, IsReceived, HasCause, Spends};
ghost use Rattle.wire_framing.specs.Kept.{TakesKept, IsThere, rest_of};
ghost use Rattle.wire_message.specs.Outcome.{front_outcome, placed, received_bytes, StandsOn, Tells, IsReadRefusal};
ghost use Rattle.wire_message.specs.declared.received.Received.{Received};
ghost use Rattle.wire_message.specs.declared.error.IoKind.TheVariants.{Ended};

use crate::read_to_message::{consumed, read_to_message};
use crate::source::Source;
use std::alloc::Global;
use wire_message::{Error, IoKind, Received, Result, remove_front, take_front};

/// The half of a connection that reads, over a source of bytes, in which one message follows the other (D-Bus Specification,
/// "Message Protocol"). A message takes at most 134,217,728 bytes, and so does a front of an unknown message type, which a reader
/// ignores.
#[derive(Drop)]
pub struct ReadHalf<S> {
    source: S,
}

/// Takes away what a read that answers this error consumes.
fn discard(bytes: &mut Vec<u8>, error: &Error)
    ensures { bytes.new.items ≡ rest_of {A = Received} (Err error.now) bytes.old.items }
{
    match error {
        Error::Memory => {}
        _ => {
            let count = consumed(bytes);
            remove_front(bytes, count);
        }
    }
}

/// Takes the message, or the ignored front, that begins the bytes and is there whole, off them. Where it is refused, takes away what
/// the read consumes.
fn take_received(alloc: Global, bytes: &mut Vec<u8>) -> Result<Received>
    requires { IsThere bytes.old.items }
    ensures exact { Tells (λ r. r) result (front_outcome bytes.old.items Ended) }
    ensures front { IfOk result (λ r. StandsOn bytes.old.items r (length (received_bytes r))) }
    ensures rest { bytes.new.items ≡ rest_of result bytes.old.items }
{
    match take_front(alloc, bytes) {
        Ok(received) => Ok(received),
        Err(error) => {
            discard(bytes, &error);
            Err(error)
        }
    }
}

/// Gives a message its position among those that were read. An ignored front has none.
fn at_position(received: Received, position: u64) -> Received
    ensures { placed position (Ok received) ≡ Ok result }
{
    match received {
        Received::Message(message) => Received::Message(message.at(position)),
        Received::Passed(front) => Received::Passed(front),
    }
}

impl<S: Source> ReadHalf<S> {
    /// A half that reads this source.
    pub fn new(source: S) -> ReadHalf<S>
        ensures { result.source ≡ source }
    {
        ReadHalf { source }
    }

    /// Whether file descriptors come with the bytes: they never do.
    pub fn can_pass_unix_fd(&self) -> bool
        ensures { result ≡ false }
    {
        false
    }

    /// Gives the source back.
    pub fn into_source(self) -> S
        ensures { result ≡ self.source }
    {
        self.source
    }

    /// Takes one message, the `seq`-th, or one front that is ignored, of the bytes that are kept and then of the source's, and no
    /// byte more: 16 bytes, then the rest of the total that they say (D-Bus Specification, "Message Format"). A message is copied
    /// only if `kept` holds bytes after it.
    ///
    /// A front is ignored if its message type is unknown, 5 to 255. It is then the answer, as `Received::Passed`, and its bytes are
    /// taken like those of a message. It has no position: the next message is the `seq`-th.
    ///
    /// If nothing was kept, the bytes left are those after the message, after the ignored front, or after what the refusal consumes;
    /// a fault says nothing of them. The source is asked at most as often as it gives bytes, plus once, and never for more than
    /// 65,536 bytes at once.
    ///
    /// # Errors
    ///
    /// The first that holds: InputOutput(Ended) with nothing taken, if `seq` is 2^64 - 1; InputOutput(Ended) or (Fault), if the
    /// bytes end before 16 came; IncorrectEndian, Variant or ExcessData, if the head is refused as by `total_of`, which consumes its
    /// 16 bytes; InputOutput(Ended) or (Fault), if the bytes end before the total; Variant, if a header field is outside its grammar.
    ///
    /// InputOutput(Fault) comes only if the source's count of faults rose. Memory when out of memory: then `kept` holds all
    /// that was there and all that came, so that a later call reads on.
    ///
    /// # Examples
    ///
    /// ```
    /// use wire_framing::{ReadHalf, StdSource};
    /// use wire_message::Received;
    /// let bytes = b"l\x02\0\x01\0\0\0\0\x02\0\0\0\x08\0\0\0\x05\x01u\0\x01\0\0\0";
    /// let mut half = ReadHalf::new(StdSource::new(bytes.as_slice()));
    /// let received = half.receive_message(rt.alloc(), 1, &mut Vec::new(rt.alloc()))?;
    /// assert!(rt; matches!(&received, Received::Message(message) if message.recv_position() == 1));
    /// Ok(())
    /// ```
    pub fn receive_message(
        &mut self,
        alloc: Global,
        seq: u64,
        kept: &mut Vec<u8>,
    ) -> Result<Received>
        requires { 0 < seq }
        ensures told { IfSome (prepend_known kept.old.items (S.view self.old.source).left) (λ bytes. Receives (S.view self.old.source).stop (seq - 1) bytes result) }
        ensures takes { seq < 2 ^ 64 - 1 → TakesKept result kept.old.items kept.new.items (S.view self.old.source) (S.view self.new.source) }
        ensures spends { kept.old.items ≡ [] → seq < 2 ^ 64 - 1 → Spends result (S.view self.old.source) (S.view self.new.source) }
        ensures message { IfOk result (IsReceived seq) }
        ensures error { IfErr result (λ e. IsReadRefusal e × HasCause e (S.view self.old.source) (S.view self.new.source)) }
        ensures width { Widens (S.view self.old.source) (S.view self.new.source) 65536 }
        ensures same { S.lent self.new.source ≡ S.lent self.old.source }
        ensures last { seq ≡ 2 ^ 64 - 1 → (self.new.source ≡ self.old.source) × (kept.new.items ≡ kept.old.items) × (result ≡ Err (Error.InputOutput Ended)) }
    {
        if seq == u64::MAX {
            return Err(Error::InputOutput(IoKind::Ended));
        }
        match read_to_message(&mut self.source, kept) {
            Ok(()) => {
                let received = take_received(alloc, kept)?;
                Ok(at_position(received, seq))
            }
            Err(error) => {
                discard(kept, &error);
                Err(error)
            }
        }
    }
}
