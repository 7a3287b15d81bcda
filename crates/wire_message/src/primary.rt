//! The part of a header that each message has (D-Bus Specification, "Message Format").
ghost use Rattle.std.specs.Prelude.{◌≡◌, ◌<◌};
ghost use Rattle.wire_message.specs.Primary.{new_primary, primary_of};

use crate::endian_sig::{EndianSig, NATIVE_ENDIAN_SIG};
use crate::flags::Flags;
use crate::kind::MessageType;
use crate::message::Message;
use crate::shared::Shared;
use std::marker::Model;
use wire_number::read_u32;

/// The part of a header that each message has (D-Bus Specification, "Message Format").
#[derive(Debug, Drop)]
pub struct PrimaryHeader {
    endian_sig: EndianSig,
    msg_type: MessageType,
    flags: Flags,
    protocol_version: u8,
    body_len: u32,
    serial_num: u32,
}

impl Model for PrimaryHeader {
    ghost use Rattle.std.specs.Prelude.{◌<◌};
    ghost use Rattle.wire_message.specs.Primary.{Primary};

    ghost Value = { Primary };

    ghost view = { λ p. record { endian_sig = p.endian_sig; msg_type = p.msg_type; flags = p.flags.0; protocol_version = p.protocol_version; body_len = p.body_len; serial_num = p.serial_num } };

    ghost invariant = { λ p. 0 < p.serial_num };
}

impl PrimaryHeader {
    /// Little order, no flags, version 1. The length of the body is in bytes.
    pub fn new(msg_type: MessageType, body_len: u32, serial_num: u32) -> PrimaryHeader
        requires { 0 < serial_num }
        ensures { result ≡ new_primary msg_type body_len serial_num }
    {
        PrimaryHeader {
            endian_sig: NATIVE_ENDIAN_SIG,
            msg_type,
            flags: Flags(0),
            protocol_version: 1,
            body_len,
            serial_num,
        }
    }

    /// The byte order that the header names.
    pub fn endian_sig(&self) -> EndianSig
        ensures { result ≡ self.now.endian_sig }
    {
        self.endian_sig
    }

    /// Sets the byte order that the header names.
    pub fn set_endian_sig(&mut self, endian_sig: EndianSig)
        ensures { self.new ≡ record self.old { endian_sig = endian_sig } }
    {
        self.endian_sig = endian_sig;
    }

    /// The message type.
    pub fn msg_type(&self) -> MessageType
        ensures { result ≡ self.now.msg_type }
    {
        self.msg_type
    }

    /// Sets the message type.
    pub fn set_msg_type(&mut self, msg_type: MessageType)
        ensures { self.new ≡ record self.old { msg_type = msg_type } }
    {
        self.msg_type = msg_type;
    }

    /// The flags.
    pub fn flags(&self) -> Flags
        ensures { result.0 ≡ self.now.flags }
    {
        self.flags
    }

    /// Sets the flags, in place of those that were set before.
    pub fn set_flags(&mut self, flags: Flags)
        ensures { self.new ≡ record self.old { flags = flags.0 } }
    {
        self.flags = flags;
    }

    /// The version of the protocol; that of the D-Bus Specification is 1.
    pub fn protocol_version(&self) -> u8
        ensures { result ≡ self.now.protocol_version }
    {
        self.protocol_version
    }

    /// Sets the version of the protocol.
    pub fn set_protocol_version(&mut self, protocol_version: u8)
        ensures { self.new ≡ record self.old { protocol_version = protocol_version } }
    {
        self.protocol_version = protocol_version;
    }

    /// The length of the body in bytes.
    pub fn body_len(&self) -> u32
        ensures { result ≡ self.now.body_len }
    {
        self.body_len
    }

    /// Sets the length of the body in bytes.
    pub fn set_body_len(&mut self, body_len: u32)
        ensures { self.new ≡ record self.old { body_len = body_len } }
    {
        self.body_len = body_len;
    }

    /// The serial; it isn't 0.
    pub fn serial_num(&self) -> u32
        ensures value { result ≡ self.now.serial_num }
        ensures some { 0 < self.now.serial_num }
    {
        self.serial_num
    }

    /// Sets the serial, which must not be 0.
    pub fn set_serial_num(&mut self, serial_num: u32)
        requires { 0 < serial_num }
        ensures { self.new ≡ record self.old { serial_num = serial_num } }
    {
        self.serial_num = serial_num;
    }
}

impl Message {
    /// The part of the header that each message has.
    pub fn primary_header(&self) -> PrimaryHeader
        ensures { result ≡ primary_of self.now }
    {
        let shared: &Shared = &self.shared;
        let parts = &shared.parts;
        let bytes = shared.bytes.as_slice();
        PrimaryHeader {
            endian_sig: EndianSig::from(parts.order),
            msg_type: parts.kind,
            flags: Flags(parts.flags),
            protocol_version: bytes[3],
            body_len: read_u32(parts.order, bytes, 4),
            serial_num: parts.serial,
        }
    }
}
