//! A message on its own bytes.
ghost use Rattle.std.specs.Prelude.{◌≡◌, IfOk, IfErr};
ghost use Rattle.wire_message.specs.Front.{MessageView, message_view};
ghost use Rattle.wire_message.specs.FieldOffsets.{found_fields, Stands};

use crate::flags::Flags;
use crate::kind::MessageType;
use crate::shared::{Parts, Shared};
use std::alloc::{AllocError, Global};
use std::marker::Model;
use std::sync::Arc;
use wire_number::Endian;

/// A message on its own bytes, of which it has at most 134,217,728 (D-Bus Specification, "Message Format"), with its
/// position among the messages that a peer read, from 1 on (0 where it wasn't read). A clone shares the bytes, and all
/// else but the position.
pub struct Message {
    pub(crate) shared: Arc<Shared>,
    position: u64,
}

impl Model for Message {
    ghost use Rattle.std.specs.Arc.{arc_value};
    ghost use Rattle.wire_message.specs.Front.{MessageView};

    ghost Value = { MessageView };

    ghost view = { λ m. record (arc_value m.shared) { position = m.position } };
}

impl Drop for Message {
    fn drop(self) {
        let Message {
            shared: _,
            position: _,
        } = self;
    }
}

// Queues hold many: what a message has is shared, but for its position.
const _: () = prove!(size_of::<Message>() <= 24);

impl Message {
    /// The message of these bytes, which wasn't read, with these descriptors.
    pub(crate) fn from_parts(
        alloc: Global,
        bytes: Vec<u8>,
        parts: Parts,
        fds: &[u32],
    ) -> Result<Message, AllocError>
        requires { Stands bytes.items parts.kind parts.order parts.flags parts.serial parts.offsets }
        ensures { IfOk result (λ m. m ≡ record (message_view bytes.items 0 parts.kind parts.order parts.flags parts.serial (found_fields bytes.items parts.offsets)) { fds = fds.now }) }
    {
        let shared = Shared {
            bytes,
            parts,
            fds: Vec::from_slice(alloc, fds)?,
        };
        Ok(Message {
            shared: Arc::new(alloc, shared)?,
            position: 0,
        })
    }

    /// The message of these bytes, which came without descriptors; they are given back where no memory is left.
    pub(crate) fn from_read(alloc: Global, bytes: Vec<u8>, parts: Parts) -> Result<Message, Vec<u8>>
        requires { Stands bytes.items parts.kind parts.order parts.flags parts.serial parts.offsets }
        ensures message { IfOk result (λ m. m ≡ message_view bytes.items 0 parts.kind parts.order parts.flags parts.serial (found_fields bytes.items parts.offsets)) }
        ensures back { IfErr result (λ own. own.items ≡ bytes.items) }
    {
        let shared = Shared {
            bytes,
            parts,
            fds: Vec::new(alloc),
        };
        match Arc::new(alloc, shared) {
            Ok(shared) => Ok(Message {
                shared,
                position: 0,
            }),
            Err(failed) => Err(failed.value.into_bytes()),
        }
    }

    /// The numbers of the file descriptors that go with the message, as they were handed in when it was built; none of
    /// a message that was read (D-Bus Specification, "Message Format").
    pub fn fds(&self) -> &[u32]
        ensures { result.now ≡ self.now.fds }
    {
        self.shared.fds.as_slice()
    }

    /// The message's bytes, header and body.
    pub fn data(&self) -> &[u8]
        ensures { result.now ≡ self.now.bytes }
    {
        self.shared.bytes.as_slice()
    }

    /// What the message is (D-Bus Specification, "Types of messages").
    pub fn message_type(&self) -> MessageType
        ensures { result ≡ self.now.kind }
    {
        self.shared.parts.kind
    }

    /// The byte order of the message's numbers.
    pub(crate) fn order(&self) -> Endian
        ensures { result ≡ self.now.order }
    {
        self.shared.parts.order
    }

    /// The message's flags.
    pub(crate) fn flags(&self) -> Flags
        ensures { result.0 ≡ self.now.flags }
    {
        Flags(self.shared.parts.flags)
    }

    /// The message's serial, which isn't 0 (D-Bus Specification, "Message Format").
    pub fn serial_num(&self) -> u32
        ensures { result ≡ self.now.serial }
    {
        self.shared.parts.serial
    }

    /// The serial of the call that the message answers (D-Bus Specification, "Header Fields", `REPLY_SERIAL`).
    pub fn reply_serial(&self) -> Option<u32>
        ensures { result ≡ self.now.reply_serial }
    {
        self.shared.parts.offsets.reply_serial
    }

    /// The position among the messages that the peer read, from 1 on; 0 where the message wasn't read.
    pub fn recv_position(&self) -> u64
        ensures { result ≡ self.now.position }
    {
        self.position
    }

    /// The same message at that position.
    pub fn at(self, position: u64) -> Message
        ensures { result ≡ record self { position = position } }
    {
        let Message {
            shared,
            position: _,
        } = self;
        Message { shared, position }
    }

    /// The same message; the bytes are shared. It takes no memory.
    ///
    /// # Errors
    ///
    /// AllocError only where 2^63 - 1 messages share them.
    pub fn clone(&self) -> Result<Message, AllocError>
        ensures { IfOk result (λ copy. copy ≡ self.now) }
    {
        Ok(Message {
            shared: Arc::try_clone(&self.shared)?,
            position: self.position,
        })
    }
}
