//! What a message's header says (D-Bus Specification, "Message Format", "Header Fields").
ghost use Rattle.std.specs.Borrow.{sem};
ghost use Rattle.std.specs.Prelude.{◌≡◌, ◌<◌, ◌^◌, IfSome, IsTrue, is_some, option_map, length};
ghost use Rattle.wire_signature.specs.Parsing.{types_in};
ghost use Rattle.wire_names.specs.BusName.{bus_name_of};
ghost use Rattle.wire_names.specs.Names.{IsBusName};
ghost use Rattle.wire_message.specs.Lending.{LendsPrimary};
ghost use Rattle.wire_message.specs.Primary.{head_of, order_of};
ghost use Rattle.wire_message.specs.FieldOffsets.{IsSpan, span_text};
ghost use Rattle.wire_message.specs.BodyReading.{body_signature};

use crate::field_offsets::Span;
use crate::flags::Flags;
use crate::kind::MessageType;
use crate::message::Message;
use crate::primary::PrimaryHeader;
use crate::shared::Shared;
use std::marker::Model;
use wire_names::{
    BusName, ErrorName, InterfaceName, MemberName, Name, NameKind, ObjectPath, UniqueName,
};
use wire_number::Endian;

/// The header of a message (D-Bus Specification, "Message Format", "Header Fields"): the part that each message has, as
/// a copy that can be changed, and the header fields, whose texts are the message's own bytes.
#[derive(Drop)]
pub struct Header<'a> {
    primary: PrimaryHeader,
    shared: &'a Shared,
}

impl<'a> Model for Header<'a> {
    ghost use Rattle.wire_message.specs.Front.{fields_of};
    ghost use Rattle.wire_message.specs.Primary.{Head};

    ghost Value = { Head };

    ghost view = { λ h. record { primary = h.primary; fields = fields_of h.shared.now } };
}

/// The bytes of a span.
fn part(bytes: &[u8], span: Option<Span>) -> Option<&[u8]>
    requires { IfSome span (IsSpan (length bytes.now)) }
    ensures { option_map (λ text. text.now) result ≡ option_map (span_text bytes.now) span }
{
    match span {
        Some(span) => Some(&bytes[span.start..span.end]),
        None => None,
    }
}

/// The name that a span's bytes are.
fn name_at<'a, K: NameKind>(bytes: &'a [u8], span: Option<Span>) -> Option<Name<'a, K>>
    requires there { IfSome span (IsSpan (length bytes.now)) }
    requires valid { IfSome (option_map (span_text bytes.now) span) (λ text. IsTrue (K.is_name text)) }
    ensures { result ≡ option_map (span_text bytes.now) span }
{
    Some(Name::from_known_bytes(part(bytes, span)?))
}

/// The same of a bus name.
fn bus_name_at(bytes: &[u8], span: Option<Span>) -> Option<BusName<'_>>
    requires there { IfSome span (IsSpan (length bytes.now)) }
    requires valid { IfSome (option_map (span_text bytes.now) span) (λ text. IsBusName text) }
    ensures { result ≡ option_map bus_name_of (option_map (span_text bytes.now) span) }
{
    BusName::try_from_bytes(part(bytes, span)?).ok()
}

impl Message {
    /// The message's header.
    ///
    /// # Examples
    ///
    /// ```
    /// use wire_message::{Message, NonePending, Serials};
    /// use wire_value::{MemberName, ObjectPath};
    /// let call = Message::method_call(&ObjectPath::try_from("/a")?, &MemberName::try_from("Ping")?);
    /// let call = call.build_empty_uncounted(rt.alloc(), &mut Serials::new(), &NonePending)?;
    /// let member = call.header().member();
    /// assert!(rt; member.is_some_and(|member| member.as_str() == "Ping"));
    /// assert!(rt; call.header().interface().is_none());
    /// Ok(())
    /// ```
    pub fn header(&self) -> Header<'_>
        ensures { result ≡ head_of self.now }
    {
        Header {
            primary: self.primary_header(),
            shared: &self.shared,
        }
    }

    /// The text of the body's signature; the empty one where the header has none.
    #[tactic(auto, using(crate::proofs::Valid::no_types_text))]
    pub(crate) fn signature_text(&self) -> &[u8]
        ensures text { result.now ≡ body_signature self.now }
        ensures valid { IsTrue (is_some (types_in result.now)) }
    {
        let shared: &Shared = &self.shared;
        match part(shared.bytes.as_slice(), shared.parts.offsets.signature) {
            Some(text) => text,
            None => &[],
        }
    }
}

impl<'a> Header<'a> {
    /// The part of the header that each message has.
    pub fn primary(&self) -> &PrimaryHeader
        ensures { result.now ≡ self.now.primary }
    {
        &self.primary
    }

    /// The same, to be changed: in this header, and not in the message's bytes.
    pub fn primary_mut(&mut self) -> &mut PrimaryHeader
        ensures* lends { sem 𝓛 (LendsPrimary self.entry result) }
        ensures value { result.now ≡ self.old.primary }
    {
        &mut self.primary
    }

    /// The same, of a header that is given up.
    pub fn into_primary(self) -> PrimaryHeader
        ensures { result ≡ self.entry.primary }
    {
        let Header { primary, shared: _ } = self;
        primary
    }

    /// What the message is.
    pub fn message_type(&self) -> MessageType
        ensures { result ≡ self.now.primary.msg_type }
    {
        self.primary.msg_type()
    }

    /// The byte order of the message's numbers.
    pub fn endian(&self) -> Endian
        ensures { result ≡ order_of self.now.primary.endian_sig }
    {
        Endian::from(self.primary.endian_sig())
    }

    /// What the message asks of its reader.
    pub fn flags(&self) -> Flags
        ensures { result.0 ≡ self.now.primary.flags }
    {
        self.primary.flags()
    }

    /// The object that the message is sent to, or a signal from (D-Bus Specification, "Header Fields", `PATH`).
    pub fn path(&self) -> Option<ObjectPath<'a>>
        ensures { result ≡ self.now.fields.path }
    {
        let shared = self.shared;
        name_at(shared.bytes.as_slice(), shared.parts.offsets.path)
    }

    /// The interface that the member belongs to (D-Bus Specification, "Header Fields", `INTERFACE`).
    pub fn interface(&self) -> Option<InterfaceName<'a>>
        ensures { result ≡ self.now.fields.interface }
    {
        let shared = self.shared;
        name_at(shared.bytes.as_slice(), shared.parts.offsets.interface)
    }

    /// The method or signal (D-Bus Specification, "Header Fields", `MEMBER`).
    pub fn member(&self) -> Option<MemberName<'a>>
        ensures { result ≡ self.now.fields.member }
    {
        let shared = self.shared;
        name_at(shared.bytes.as_slice(), shared.parts.offsets.member)
    }

    /// The error, of an error reply (D-Bus Specification, "Header Fields", `ERROR_NAME`).
    pub fn error_name(&self) -> Option<ErrorName<'a>>
        ensures { result ≡ self.now.fields.error_name }
    {
        let shared = self.shared;
        name_at(shared.bytes.as_slice(), shared.parts.offsets.error_name)
    }

    /// The serial of the call that the message answers; it isn't 0.
    pub fn reply_serial(&self) -> Option<u32>
        ensures value { result ≡ self.now.fields.reply_serial }
        ensures some { IfSome result (λ serial. (0 < serial) × (serial < 2 ^ 32)) }
    {
        let shared = self.shared;
        shared.parts.offsets.reply_serial
    }

    /// The connection that the message is for (D-Bus Specification, "Header Fields", `DESTINATION`).
    pub fn destination(&self) -> Option<BusName<'a>>
        ensures { result ≡ option_map bus_name_of self.now.fields.destination }
    {
        let shared = self.shared;
        bus_name_at(shared.bytes.as_slice(), shared.parts.offsets.destination)
    }

    /// The connection that sent the message (D-Bus Specification, "Header Fields", `SENDER`).
    pub fn sender(&self) -> Option<UniqueName<'a>>
        ensures { result ≡ self.now.fields.sender }
    {
        let shared = self.shared;
        name_at(shared.bytes.as_slice(), shared.parts.offsets.sender)
    }

    /// The text of the body's signature (D-Bus Specification, "Header Fields", `SIGNATURE`).
    pub fn signature(&self) -> Option<&'a [u8]>
        ensures { option_map (λ text. text.now) result ≡ self.now.fields.signature }
    {
        let shared = self.shared;
        part(shared.bytes.as_slice(), shared.parts.offsets.signature)
    }

    /// How many file descriptors go with the message (D-Bus Specification, "Header Fields", `UNIX_FDS`).
    pub fn unix_fds(&self) -> Option<u32>
        ensures { result ≡ self.now.fields.unix_fds }
    {
        let shared = self.shared;
        shared.parts.offsets.unix_fds
    }
}
