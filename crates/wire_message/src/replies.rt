//! What builders begin with, but for method calls.
ghost use Rattle.std.specs.Prelude.{◌≡◌, IfSome, IsTrue, option_map};
ghost use Rattle.wire_names.specs.BusName.{text_of};
ghost use Rattle.wire_names.specs.Names.{IsBusName};
ghost use Rattle.wire_message.specs.NewBuilders.{signal_builder, reply_builder, error_builder, builder_from};
ghost use Rattle.wire_message.specs.declared.kind.MessageType.TheVariants as types;

use crate::builder::{Builder, FixedPart};
use crate::field::FieldCode;
use crate::header::Header;
use crate::header_text::HeaderText;
use crate::kind::MessageType;
use crate::message::Message;
use crate::writing::HeaderFields;
use wire_names::{BusName, ErrorName, InterfaceName, MemberName, Name, NameKind, ObjectPath};
use wire_number::Endian;

/// A name's text.
fn name_text<'a, K: NameKind>(name: Option<Name<'a, K>>) -> Option<HeaderText<'a>>
    ensures text { result ≡ name.entry }
    ensures valid { IfSome result (λ text. IsTrue (K.is_name text)) }
{
    Some(HeaderText::borrowed(name?.as_str()))
}

/// The same of a bus name.
fn bus_name_text<'a>(name: Option<BusName<'a>>) -> Option<HeaderText<'a>>
    ensures text { result ≡ option_map text_of name.entry }
    ensures valid { IfSome result (λ text. IsBusName text) }
{
    Some(HeaderText::borrowed(name?.as_str()))
}

/// An answer to the message of a header.
#[tactic(auto, using(crate::proofs::Setting::unique_bus))]
pub(crate) fn reply<'a>(kind: MessageType, reply_to: &Header<'a>) -> Builder<'a>
    ensures { result ≡ reply_builder kind reply_to.now }
{
    let serial = reply_to.primary().serial_num();
    let builder = Builder::new(kind, reply_to.endian()).reply_serial(serial);
    match reply_to.sender() {
        Some(sender) => builder.with_borrowed(FieldCode::Destination, sender.as_str()),
        None => builder,
    }
}

impl Message {
    /// A signal of an interface from an object (D-Bus Specification, "Types of messages"): little order, no flags.
    ///
    /// # Examples
    ///
    /// ```
    /// use wire_message::{Message, NonePending, Serials};
    /// use wire_value::{InterfaceName, MemberName, ObjectPath};
    /// let interface = InterfaceName::try_from("org.example.Counter")?;
    /// let member = MemberName::try_from("Rose")?;
    /// let signal = Message::signal(&ObjectPath::try_from("/a")?, &interface, &member);
    /// let signal = signal.build_uncounted(rt.alloc(), &mut Serials::new(), &NonePending, &(7u32,))?;
    /// assert!(rt; signal.body().data() == [7, 0, 0, 0].as_slice());
    /// Ok(())
    /// ```
    pub fn signal<'a>(
        path: &ObjectPath<'a>,
        interface: &InterfaceName<'a>,
        member: &MemberName<'a>,
    ) -> Builder<'a>
        ensures { result ≡ signal_builder path.now interface.now member.now }
    {
        let builder = Builder::new(MessageType::Signal, Endian::Little);
        builder.path(path).interface(interface).member(member)
    }

    /// The return of a method call (D-Bus Specification, "Types of messages"): in the call's byte order, without flags;
    /// the call's serial is its reply serial, the call's sender its destination, where the call has one.
    ///
    /// # Examples
    ///
    /// ```
    /// use wire_message::{Message, NonePending, Serials};
    /// use wire_value::{MemberName, ObjectPath};
    /// let call = Message::method_call(&ObjectPath::try_from("/a")?, &MemberName::try_from("Ping")?);
    /// let call = call.build_empty_uncounted(rt.alloc(), &mut Serials::after(8), &NonePending)?;
    /// let reply = Message::method_return(&call.header());
    /// let reply = reply.build_empty_uncounted(rt.alloc(), &mut Serials::new(), &NonePending)?;
    /// assert!(rt; reply.serial_num() == 1 && reply.reply_serial() == Some(9));
    /// Ok(())
    /// ```
    pub fn method_return<'a>(reply_to: &Header<'a>) -> Builder<'a>
        ensures { result ≡ reply_builder types.MethodReturn reply_to.now }
    {
        reply(MessageType::MethodReturn, reply_to)
    }

    /// The answer to a method call by an error of that name, else as `method_return`.
    ///
    /// # Examples
    ///
    /// ```
    /// use wire_message::{Message, MessageType, NonePending, Serials};
    /// use wire_value::{ErrorName, MemberName, ObjectPath, Text};
    /// let call = Message::method_call(&ObjectPath::try_from("/a")?, &MemberName::try_from("Ping")?);
    /// let call = call.build_empty_uncounted(rt.alloc(), &mut Serials::new(), &NonePending)?;
    /// let error = Message::error(&call.header(), &ErrorName::try_from("org.example.Busy")?);
    /// let detail = (Text::from_str(rt.alloc(), "later")?,);
    /// let error = error.build_uncounted(rt.alloc(), &mut Serials::new(), &NonePending, &detail)?;
    /// assert!(rt; error.message_type() == MessageType::Error);
    /// Ok(())
    /// ```
    pub fn error<'a>(reply_to: &Header<'a>, name: &ErrorName<'a>) -> Builder<'a>
        ensures { result ≡ error_builder reply_to.now name.now }
    {
        let builder = reply(MessageType::Error, reply_to);
        builder.with_borrowed(FieldCode::ErrorName, name.as_str())
    }
}

impl<'a> From<Header<'a>> for Builder<'a> {
    ghost from_gives = { λ header builder. builder ≡ builder_from header };

    #[tactic(auto, using(crate::proofs::Setting::low_flags))]
    /// What a header says, to be built anew: its type, byte order, flags and fields, and its serial as one that was
    /// set. The signature and the count of descriptors are left out, as they belong to a body, and so are flags above
    /// 0x4. It takes no memory.
    fn from(header: Header<'a>) -> Builder<'a> {
        Builder {
            fixed: FixedPart {
                kind: header.message_type(),
                order: header.endian(),
                flags: header.flags().0 & 7,
                serial: Some(header.primary().serial_num()),
            },
            fields: HeaderFields {
                path: name_text(header.path()),
                interface: name_text(header.interface()),
                member: name_text(header.member()),
                error_name: name_text(header.error_name()),
                reply_serial: header.reply_serial(),
                destination: bus_name_text(header.destination()),
                sender: name_text(header.sender()),
                signature: None,
                unix_fds: None,
            },
        }
    }
}
