//! What a message and its clones share.
ghost use Rattle.std.specs.Prelude.{◌≡◌};

use crate::field_offsets::FieldOffsets;
use crate::kind::MessageType;
use std::marker::Model;
use wire_number::Endian;

/// What a message's header says.
#[derive(Clone, Copy)]
pub(crate) struct Parts {
    pub(crate) kind: MessageType,
    pub(crate) order: Endian,
    pub(crate) flags: u8,
    pub(crate) serial: u32,
    pub(crate) offsets: FieldOffsets,
}

/// The bytes of a message, what their header says, and the descriptors that go with it.
pub(crate) struct Shared {
    pub(crate) bytes: Vec<u8>,
    pub(crate) parts: Parts,
    pub(crate) fds: Vec<u32>,
}

impl Model for Shared {
    ghost use Rattle.wire_message.specs.Front.{MessageView, message_view};
    ghost use Rattle.wire_message.specs.FieldOffsets.{found_fields, Stands};

    ghost Value = { MessageView };

    ghost view = { λ s. record (message_view s.bytes.items 0 s.parts.kind s.parts.order s.parts.flags s.parts.serial (found_fields s.bytes.items s.parts.offsets)) { fds = s.fds.items } };

    ghost invariant = { λ s. Stands s.bytes.items s.parts.kind s.parts.order s.parts.flags s.parts.serial s.parts.offsets };
}

impl Drop for Shared {
    fn drop(self) {
        let Shared {
            bytes: _,
            parts: _,
            fds: _,
        } = self;
    }
}

impl Shared {
    /// The bytes.
    pub(crate) fn into_bytes(self) -> Vec<u8>
        ensures { result.items ≡ self.bytes }
    {
        let Shared {
            bytes,
            parts: _,
            fds: _,
        } = self;
        bytes
    }
}
