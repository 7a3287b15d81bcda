//! A message from all of its bytes.
ghost use Rattle.std.specs.Prelude.{◌≡◌, ℕ, IfOk, Ok, Err, length, slice_index};
ghost use Rattle.wire_message.specs.Front.{Front, IgnoredFront, MessageView, order_code};
ghost use Rattle.wire_message.specs.Outcome.{Tells};
ghost use Rattle.wire_message.specs.Whole.{whole_outcome};

use crate::builder::order_byte;
use crate::error::{Error, IoKind, Result};
use crate::front::header_front;
use crate::message::Message;
use crate::received::Received;
use std::alloc::Global;
use wire_number::Endian;

/// The message that the bytes are.
fn whole_of(alloc: Global, bytes: &[u8], order: Endian) -> Result<Message>
    ensures { Tells (λ m. m) result (whole_outcome order bytes.now) }
{
    if bytes.len() < 16 {
        return Err(Error::InputOutput(IoKind::Ended));
    }
    if bytes[0] != order_byte(order) {
        return Err(Error::IncorrectEndian);
    }
    let (received, total) = header_front(alloc, bytes)?;
    if total as usize != bytes.len() {
        return Err(Error::ExcessData);
    }
    match received {
        Received::Message(message) => Ok(message),
        Received::Passed(_) => Err(Error::Unsupported),
    }
}

impl Message {
    /// The message that the bytes are, in this byte order, not read yet (D-Bus Specification, "Message Format").
    ///
    /// # Errors
    ///
    /// The first that holds: InputOutput(Ended) if and only if fewer than 16 bytes are there; IncorrectEndian if and
    /// only if the first byte doesn't name this byte order; those of `header_front`; ExcessData if and only if bytes
    /// follow; Unsupported if and only if the bytes are a front of a type that isn't known. Memory when out of memory.
    #[tactic(auto, using(crate::proofs::Alone::wholes))]
    pub fn from_bytes(alloc: Global, bytes: &[u8], order: Endian) -> Result<Message>
        ensures exact { Tells (λ m. m) result (whole_outcome order bytes.now) }
        ensures found { IfOk result (λ m. Front bytes.now m (length bytes.now)) }
        ensures order { IfOk result (λ m. m.order ≡ order) }
        ensures only { (m : MessageView) → m.position ≡ 0 → m.order ≡ order → Front bytes.now m (length bytes.now) → Tells (λ x. x) result (Ok m) }
        ensures unsupported { result ≡ Err Error.Unsupported → IgnoredFront bytes.now (length bytes.now) }
        ensures ignored { IgnoredFront bytes.now (length bytes.now) → slice_index bytes.now 0 ≡ order_code order → Tells {A = MessageView} {B = MessageView} (λ x. x) result (Err Error.Unsupported) }
    {
        whole_of(alloc, bytes, order)
    }
}
