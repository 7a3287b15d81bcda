//! Builders that own the names of their header fields, so that no name has to outlive them.
ghost use Rattle.std.specs.Prelude.{◌≡◌, IsTrue, Some};
ghost use Rattle.wire_names.specs.BusName.{text_of_owned};
ghost use Rattle.wire_names.specs.Names.{IsBusName};
ghost use Rattle.wire_message.specs.NewBuilders.{error_builder, signal_builder};

use crate::builder::Builder;
use crate::field::FieldCode;
use crate::header::Header;
use crate::kind::MessageType;
use crate::message::Message;
use crate::replies::reply;
use wire_names::{
    OwnedBusName, OwnedErrorName, OwnedInterfaceName, OwnedMemberName, OwnedObjectPath,
    OwnedUniqueName, Text,
};
use wire_number::Endian;

/// The text of a bus name.
#[tactic(auto, unfolding(wire_names::specs::Names::is_bus_name))]
fn bus_text(name: OwnedBusName) -> Text
    ensures text { result ≡ text_of_owned name }
    ensures valid { IsBusName result }
{
    match name {
        OwnedBusName::Unique(name) => name.into_text(),
        OwnedBusName::WellKnown(name) => name.into_text(),
    }
}

impl<'a> Builder<'a> {
    /// As `path`, with a path that the builder owns; it isn't copied.
    pub fn owned_path(self, path: OwnedObjectPath) -> Builder<'a>
        ensures { result ≡ record self.entry { fields = record self.entry.fields { path = Some path } } }
    {
        self.with_owned(FieldCode::Path, path.into_text())
    }

    /// As `interface`, with a name that the builder owns; it isn't copied.
    pub fn owned_interface(self, interface: OwnedInterfaceName) -> Builder<'a>
        ensures { result ≡ record self.entry { fields = record self.entry.fields { interface = Some interface } } }
    {
        self.with_owned(FieldCode::Interface, interface.into_text())
    }

    /// As `member`, with a name that the builder owns; it isn't copied.
    pub fn owned_member(self, member: OwnedMemberName) -> Builder<'a>
        ensures { result ≡ record self.entry { fields = record self.entry.fields { member = Some member } } }
    {
        self.with_owned(FieldCode::Member, member.into_text())
    }

    /// As `destination`, with a name that the builder owns; it isn't copied.
    pub fn owned_destination(self, destination: OwnedBusName) -> Builder<'a>
        ensures { result ≡ record self.entry { fields = record self.entry.fields { destination = Some (text_of_owned destination) } } }
    {
        self.with_owned(FieldCode::Destination, bus_text(destination))
    }

    /// As `sender`, with a name that the builder owns; it isn't copied.
    pub fn owned_sender(self, sender: OwnedUniqueName) -> Builder<'a>
        ensures { result ≡ record self.entry { fields = record self.entry.fields { sender = Some sender } } }
    {
        self.with_owned(FieldCode::Sender, sender.into_text())
    }
}

impl Message {
    /// As `signal`, with names that the builder owns; they aren't copied.
    pub fn owned_signal(
        path: OwnedObjectPath,
        interface: OwnedInterfaceName,
        member: OwnedMemberName,
    ) -> Builder<'static>
        ensures { result ≡ signal_builder path interface member }
    {
        let builder = Builder::new(MessageType::Signal, Endian::Little).owned_path(path);
        builder.owned_interface(interface).owned_member(member)
    }

    /// As `error`, with a name that the builder owns; it isn't copied.
    pub fn owned_error<'a>(reply_to: &Header<'a>, name: OwnedErrorName) -> Builder<'a>
        ensures { result ≡ error_builder reply_to.now name }
    {
        let builder = reply(MessageType::Error, reply_to);
        builder.with_owned(FieldCode::ErrorName, name.into_text())
    }
}
