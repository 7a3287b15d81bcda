//! Building a message: its header part by part, and then its body (D-Bus Specification, "Message Format").
ghost use Rattle.std.specs.Prelude.{ℕ, ◌≡◌, ◌+◌, ◌*◌, ◌<◌, ◌≤◌, ◌^◌, ◌++◌, ◌∷◌, [], List, length, Some, None, Ok, Err, IfOk, IfErr, OnOk, IsTrue, IfSome};
ghost use Rattle.wire_number.specs.Limits.{greatest_serial, message_limit};
ghost use Rattle.wire_number.specs.declared.endian.Endian.TheVariants.{Little};
ghost use Rattle.wire_names.specs.BusName.{text_of};
ghost use Rattle.wire_message.specs.Front.{order_code};
ghost use Rattle.wire_message.specs.SerialOrder.{Numbers, looked_for, taken_among};
ghost use Rattle.wire_message.specs.Field.{is_text, with_text};
ghost use Rattle.wire_message.specs.BuilderView.{BuilderView, IsBuilder, AreShort, new_builder, header_text, laid, IsHeaderOf, message_text, call_builder, flagged, has_long_text, Writes, Builds, ReadsAgain};
ghost use Rattle.wire_message.specs.Bodies.{BuildsOf, MakesOf};
ghost use Rattle.wire_message.specs.FieldOffsets.{found_fields, AreSpans};
ghost use Rattle.wire_message.specs.declared.field.FieldCode.TheVariants as codes;
ghost use Rattle.wire_message.specs.declared.kind.MessageType.TheVariants as types;

use crate::content::{Content, Raw};
use crate::error::{Error, Result};
use crate::field::FieldCode;
use crate::field_offsets::FieldOffsets;
use crate::flags::Flags;
use crate::front::MESSAGE_LIMIT;
use crate::header_text::HeaderText;
use crate::kind::{MessageType, type_code};
use crate::message::Message;
use crate::serials::{Serials, Taken};
use crate::shared::Parts;
use crate::steps::{Counts, Steps, Uncounted};
use crate::writing::{HeaderFields, header_room, put_fields};
use std::alloc::{AllocError, Global};
use std::marker::Model;
use std::sync::ledger::Ledger;
use wire_names::{BusName, InterfaceName, MemberName, ObjectPath, Text, UniqueName};
use wire_number::{Endian, pad_to, put_u32, write_u32};

/// What a builder holds beside its header fields.
#[derive(Clone, Copy)]
pub(crate) struct FixedPart {
    pub(crate) kind: MessageType,
    pub(crate) order: Endian,
    pub(crate) flags: u8,
    pub(crate) serial: Option<u32>,
}

/// A message that isn't built yet: its type, byte order, flags, serial and header fields (D-Bus Specification, "Message
/// Format", "Header Fields").
pub struct Builder<'a> {
    pub(crate) fixed: FixedPart,
    pub(crate) fields: HeaderFields<'a>,
}

impl<'a> Model for Builder<'a> {
    ghost use Rattle.wire_message.specs.BuilderView.{BuilderView, IsBuilder, builder_of};

    ghost Value = { BuilderView };

    ghost view = { λ b. builder_of b.fixed b.fields };

    ghost invariant = { λ b. IsBuilder (builder_of b.fixed b.fields) };
}

impl<'a> Drop for Builder<'a> {
    fn drop(self) {
        let Builder {
            fixed: _,
            fields: _,
        } = self;
    }
}

/// The byte of a byte order.
pub(crate) fn order_byte(order: Endian) -> u8
    ensures { result ≡ order_code order }
{
    match order {
        Endian::Little => b'l',
        Endian::Big => b'B',
    }
}

impl Message {
    /// A method call of a member at a path (D-Bus Specification, "Types of messages"): little order, no flags.
    ///
    /// # Examples
    ///
    /// ```
    /// use wire_message::{Message, MessageType, NonePending, Serials};
    /// use wire_value::{MemberName, ObjectPath};
    /// let call = Message::method_call(&ObjectPath::try_from("/a")?, &MemberName::try_from("Ping")?);
    /// let call = call.build_empty_uncounted(rt.alloc(), &mut Serials::new(), &NonePending)?;
    /// assert!(rt; call.message_type() == MessageType::MethodCall && call.serial_num() == 1);
    /// Ok(())
    /// ```
    pub fn method_call<'a>(path: &ObjectPath<'a>, member: &MemberName<'a>) -> Builder<'a>
        ensures { result ≡ call_builder path.now member.now }
    {
        let builder = Builder::new(MessageType::MethodCall, Endian::Little);
        builder.path(path).member(member)
    }
}

/// The first 16 bytes of a header, whose lengths are known when the fields and the body are written.
fn start_of(order: Endian, kind: MessageType, flags: u8, serial: u32) -> [u8; 16]
    ensures { result ≡ laid order kind flags 0 serial 0 [] }
{
    let (o, k) = (order_byte(order), type_code(kind));
    let [a, b, c, d] = write_u32(order, serial);
    [o, k, flags, 1, 0, 0, 0, 0, a, b, c, d, 0, 0, 0, 0]
}

/// Whether the path alone passes the limit of a message.
fn has_long_path(fields: &HeaderFields<'_>) -> bool
    ensures { result ≡ has_long_text fields.now.path }
{
    match &fields.path {
        Some(path) => path.as_str().len() > MESSAGE_LIMIT,
        None => false,
    }
}

impl<'a> Builder<'a> {
    /// Without flags, serial and fields.
    pub(crate) fn new(kind: MessageType, order: Endian) -> Builder<'a>
        ensures { result ≡ new_builder kind order }
    {
        let fixed = FixedPart {
            kind,
            order,
            flags: 0,
            serial: None,
        };
        Builder {
            fixed,
            fields: HeaderFields::none(),
        }
    }

    /// With that text as the field of that code.
    pub(crate) fn with_text(self, code: FieldCode, text: HeaderText<'a>) -> Builder<'a>
        requires { IsTrue (is_text code text) }
        ensures { result ≡ record self.entry { fields = with_text code text.entry self.entry.fields } }
    {
        let Builder { fixed, mut fields } = self;
        fields.set_text(code, text);
        Builder { fixed, fields }
    }

    /// With that text, which is borrowed, as the field of that code.
    pub(crate) fn with_borrowed(self, code: FieldCode, text: &'a str) -> Builder<'a>
        requires { IsTrue (is_text code text.now) }
        ensures { result ≡ record self.entry { fields = with_text code text.now self.entry.fields } }
    {
        self.with_text(code, HeaderText::borrowed(text))
    }

    /// With that text, which the builder owns, as the field of that code.
    pub(crate) fn with_owned(self, code: FieldCode, text: Text) -> Builder<'a>
        requires { IsTrue (is_text code text) }
        ensures { result ≡ record self.entry { fields = with_text code text self.entry.fields } }
    {
        self.with_text(code, HeaderText::owned(text))
    }

    /// The same builder, whose texts are its own: those that are borrowed are copied.
    ///
    /// # Errors
    ///
    /// AllocError for want of memory; the builder is given up then.
    pub fn into_owned(self, alloc: Global) -> std::result::Result<Builder<'static>, AllocError>
        ensures { IfOk result (λ builder. builder ≡ self.entry) }
    {
        let Builder { fixed, fields } = self;
        let fields = fields.into_owned(alloc)?;
        Ok(Builder { fixed, fields })
    }

    /// In that byte order.
    pub fn endian(self, order: Endian) -> Builder<'a>
        ensures { result ≡ record self.entry { order = order } }
    {
        let Builder { fixed, fields } = self;
        let fixed = FixedPart { order, ..fixed };
        Builder { fixed, fields }
    }

    /// With these flags beside those that it has; bits above 0x4 are left out (D-Bus Specification, "Message Format").
    ///
    /// # Errors
    ///
    /// InvalidField exactly for NoReplyExpected on a message that isn't a method call. The builder is given up then.
    #[tactic(auto, using(crate::proofs::Setting::known))]
    pub fn with_flags(self, flags: Flags) -> Result<Builder<'a>>
        ensures { result ≡ flagged self.entry flags.0 }
    {
        if self.fixed.kind != MessageType::MethodCall && flags.0 & 1 == 1 {
            return Err(Error::InvalidField);
        }
        let Builder { fixed, fields } = self;
        let known = flags.0 & 7;
        let fixed = FixedPart {
            flags: fixed.flags | known,
            ..fixed
        };
        Ok(Builder { fixed, fields })
    }

    /// With that path (D-Bus Specification, "Header Fields", `PATH`).
    pub fn path(self, path: &ObjectPath<'a>) -> Builder<'a>
        ensures { result ≡ record self.entry { fields = record self.entry.fields { path = Some path.now } } }
    {
        self.with_borrowed(FieldCode::Path, path.as_str())
    }

    /// With that member (D-Bus Specification, "Header Fields", `MEMBER`).
    pub fn member(self, member: &MemberName<'a>) -> Builder<'a>
        ensures { result ≡ record self.entry { fields = record self.entry.fields { member = Some member.now } } }
    {
        self.with_borrowed(FieldCode::Member, member.as_str())
    }

    /// With that serial; none is drawn for the message (D-Bus Specification, "Message Format").
    pub fn serial(self, serial: u32) -> Builder<'a>
        requires { 0 < serial }
        ensures { result ≡ record self.entry { serial = Some serial } }
    {
        let Builder { fixed, fields } = self;
        let fixed = FixedPart {
            serial: Some(serial),
            ..fixed
        };
        Builder { fixed, fields }
    }

    /// Without a serial of its own: the message gets the next that is drawn.
    pub fn without_serial(self) -> Builder<'a>
        ensures { result ≡ record self.entry { serial = None } }
    {
        let Builder { fixed, fields } = self;
        let fixed = FixedPart {
            serial: None,
            ..fixed
        };
        Builder { fixed, fields }
    }

    /// With that reply serial (D-Bus Specification, "Header Fields", `REPLY_SERIAL`).
    #[tactic(auto, using(crate::proofs::Setting::set_reply_serial))]
    pub fn reply_serial(self, serial: u32) -> Builder<'a>
        requires { 0 < serial }
        ensures { result ≡ record self.entry { fields = record self.entry.fields { reply_serial = Some serial } } }
    {
        let Builder { fixed, mut fields } = self;
        fields.set_number(FieldCode::ReplySerial, serial);
        Builder { fixed, fields }
    }

    /// With that interface (D-Bus Specification, "Header Fields", `INTERFACE`).
    pub fn interface(self, interface: &InterfaceName<'a>) -> Builder<'a>
        ensures { result ≡ record self.entry { fields = record self.entry.fields { interface = Some interface.now } } }
    {
        self.with_borrowed(FieldCode::Interface, interface.as_str())
    }

    /// With that destination (D-Bus Specification, "Header Fields", `DESTINATION`).
    pub fn destination(self, destination: &BusName<'a>) -> Builder<'a>
        ensures { result ≡ record self.entry { fields = record self.entry.fields { destination = Some (text_of destination.now) } } }
    {
        self.with_borrowed(FieldCode::Destination, destination.as_str())
    }

    /// With that sender (D-Bus Specification, "Header Fields", `SENDER`).
    pub fn sender(self, sender: &UniqueName<'a>) -> Builder<'a>
        ensures { result ≡ record self.entry { fields = record self.entry.fields { sender = Some sender.now } } }
    {
        self.with_borrowed(FieldCode::Sender, sender.as_str())
    }

    /// Without a sender.
    pub fn without_sender(self) -> Builder<'a>
        ensures { result ≡ record self.entry { fields = record self.entry.fields { sender = None } } }
    {
        let Builder { fixed, fields } = self;
        let fields = HeaderFields {
            sender: None,
            ..fields
        };
        Builder { fixed, fields }
    }

    /// With that text as its signature, or without one.
    pub(crate) fn with_body_type(self, signature: Option<HeaderText<'a>>) -> Builder<'a>
        requires { IfSome signature (λ text. IsTrue (is_text codes.Signature text)) }
        ensures { result ≡ record self.entry { fields = record self.entry.fields { signature = signature.entry } } }
    {
        let Builder { fixed, fields } = self;
        let fields = HeaderFields {
            signature,
            ..fields
        };
        Builder { fixed, fields }
    }

    /// With that count of descriptors, or without one.
    pub(crate) fn with_unix_fds(self, unix_fds: Option<u32>) -> Builder<'a>
        ensures { result ≡ record self.entry { fields = record self.entry.fields { unix_fds = unix_fds } } }
    {
        let Builder { fixed, fields } = self;
        let fields = HeaderFields { unix_fds, ..fields };
        Builder { fixed, fields }
    }

    /// The type of the message (D-Bus Specification, "Types of messages").
    pub fn message_type(&self) -> MessageType
        ensures { result ≡ self.now.kind }
    {
        self.fixed.kind
    }

    /// What the message asks of its reader (D-Bus Specification, "Message Format").
    pub fn flags(&self) -> Flags
        ensures { result.0 ≡ self.now.flags }
    {
        Flags(self.fixed.flags)
    }

    /// The bytes of the header with that serial, for a body of no bytes yet, and where its texts stand, if it doesn't
    /// pass the limit of a message. There is room for so many bytes behind it.
    fn header_bytes(
        &self,
        alloc: Global,
        serial: u32,
        room: usize,
    ) -> Result<(Vec<u8>, FieldOffsets)>
        requires { room ≤ message_limit }
        ensures written { Writes (λ x. x.0.items) result (header_text self.now 0 serial) }
        ensures made { IfOk result (λ x. IsHeaderOf self.now serial x.0.items x.1) }
    {
        if has_long_path(&self.fields) {
            return Err(Error::ExcessData);
        }
        let (order, fixed) = (self.fixed.order, &self.fixed);
        let start = start_of(order, fixed.kind, fixed.flags, serial);
        let mut text = Vec::with_capacity(alloc, header_room(&self.fields) + room)?;
        text.extend_from_slice(&start)?;
        let offsets = put_fields(&mut text, order, &self.fields)?;
        let fields_len = text.len() - 16;
        if fields_len > MESSAGE_LIMIT {
            return Err(Error::ExcessData);
        }
        put_u32(order, &mut text, 12, fields_len as u32);
        pad_to(&mut text, 0, 8)?;
        Ok((text, offsets))
    }

    /// The message with that serial, body and descriptors, if neither an array nor the message passes its limit. The
    /// body is written behind its header, and its length into the header when it is known.
    pub(crate) fn with_content<C: Content>(
        &self,
        alloc: Global,
        serial: u32,
        content: &C,
        fds: &[u32],
    ) -> Result<Message>
        requires serial { 0 < serial }
        requires sound { C.sound content.now }
        ensures made { MakesOf self.now serial (C.text self.now.order content.now) (C.sound content.now) (C.fits self.now.order content.now) fds.now result }
        ensures again { IfOk result ReadsAgain }
    {
        let (mut text, offsets) = self.header_bytes(alloc, serial, content.room())?;
        let start = text.len();
        content.append(self.fixed.order, &mut text)?;
        if text.len() > MESSAGE_LIMIT {
            return Err(Error::ExcessData);
        }
        let size = text.len() - start;
        put_u32(self.fixed.order, &mut text, 4, size as u32);
        let parts = Parts {
            kind: self.fixed.kind,
            order: self.fixed.order,
            flags: self.fixed.flags,
            serial,
            offsets,
        };
        let message = Message::from_parts(alloc, text, parts, fds)?;
        Ok(message)
    }

    /// The serial that was set, else the next, which is drawn.
    pub(crate) fn own_or_next<T: Taken, S: Counts>(
        &self,
        serials: &mut Serials,
        taken: &T,
        steps: &mut S,
    ) -> Result<u32>
        ensures numbers { Numbers (T.is_taken taken.now) self.now.serial serials.old serials.new result }
        ensures some { IfOk result (λ serial. 0 < serial) }
        ensures cost { S.counted steps.new ≤ S.counted steps.old + taken_among (T.is_taken taken.now) greatest_serial + 2 }
        ensures exact { IfOk result (λ serial. S.counted steps.new ≡ S.counted steps.old + looked_for self.now.serial serials.old serial * S.weight) }
        ensures spent { IfErr result (λ e. S.counted steps.new ≡ S.counted steps.old) }
    {
        match self.fixed.serial {
            Some(serial) => Ok(serial),
            None => serials.draw(taken, steps),
        }
    }

    /// The message with that body, with the serial that was set, else with the next.
    pub(crate) fn build_of<C: Content, T: Taken, S: Counts>(
        self,
        alloc: Global,
        serials: &mut Serials,
        taken: &T,
        content: &C,
        fds: &[u32],
        steps: &mut S,
    ) -> Result<Message>
        requires { C.sound content.now }
        ensures built { BuildsOf (T.is_taken taken.now) self.entry (C.text self.entry.order content.now) (C.sound content.now) (C.fits self.entry.order content.now) fds.now serials.old serials.new result }
        ensures again { IfOk result ReadsAgain }
        ensures cost { S.counted steps.new ≤ S.counted steps.old + taken_among (T.is_taken taken.now) greatest_serial + 2 }
        ensures exact { IfOk result (λ m. S.counted steps.new ≡ S.counted steps.old + looked_for self.entry.serial serials.old m.serial * S.weight) }
        ensures spent { result ≡ Err Error.SerialsSpent → S.counted steps.new ≡ S.counted steps.old }
    {
        let mut drawn = Serials::after(serials.last());
        let serial = self.own_or_next(&mut drawn, taken, steps)?;
        let message = self.with_content(alloc, serial, content, fds)?;
        *serials = drawn;
        Ok(message)
    }

    /// The message without a body, with the serial that was set, else with the next (D-Bus Specification, "Message
    /// Format").
    ///
    /// A serial is drawn only with the message, and only where none was set. A step is a serial that is looked at: for
    /// a message that is made, those of its draw; none at SerialsSpent.
    ///
    /// # Errors
    ///
    /// The first that holds: SerialsSpent exactly where no serial was set and each is pending; ExcessData exactly where
    /// the message would take more than 134,217,728 bytes. Memory for want of memory. A refusal draws no serial.
    pub fn build_empty<T: Taken, L: Ledger>(
        self,
        alloc: Global,
        serials: &mut Serials,
        taken: &T,
        steps: &mut Steps<L>,
    ) -> Result<Message>
        ensures built { Builds (T.is_taken taken.now) self.entry [] serials.old serials.new result }
        ensures again { IfOk result ReadsAgain }
        ensures cost { steps.new ≤ steps.old + taken_among (T.is_taken taken.now) greatest_serial + 2 }
        ensures exact { IfOk result (λ m. steps.new ≡ steps.old + looked_for self.entry.serial serials.old m.serial) }
        ensures spent { result ≡ Err Error.SerialsSpent → steps.new ≡ steps.old }
    {
        self.build_of(alloc, serials, taken, &Raw { bytes: &[] }, &[], steps)
    }

    /// As `build_empty`, for a caller that counts no steps.
    ///
    /// # Errors
    ///
    /// Those of `build_empty`, exactly where it has them. A refusal draws no serial.
    pub fn build_empty_uncounted<T: Taken>(
        self,
        alloc: Global,
        serials: &mut Serials,
        taken: &T,
    ) -> Result<Message>
        ensures built { Builds (T.is_taken taken.now) self.entry [] serials.old serials.new result }
        ensures again { IfOk result ReadsAgain }
    {
        self.build_of(
            alloc,
            serials,
            taken,
            &Raw { bytes: &[] },
            &[],
            &mut Uncounted,
        )
    }
}
