//! What an interface's calls answer.
ghost use Rattle.std.specs.Prelude.{◌≡◌};
ghost use Rattle.object_interface.specs.Errors.{alone};
ghost use Rattle.object_interface.specs.Meaning.{done_of};

use crate::items::Items;
use std::alloc::Global;
use wire_message::fdo;
use wire_value::{BodyValues, OwnedBusName, OwnedInterfaceName, OwnedMemberName};

/// A signal that an object sends from its own path beside an answer (D-Bus Specification, "Types of messages"): to the one
/// that is named, or to whoever listens.
pub struct Signal {
    pub interface: OwnedInterfaceName,
    pub member: OwnedMemberName,
    pub destination: Option<OwnedBusName>,
    pub body: BodyValues,
}

impl Drop for Signal {
    fn drop(self) {
        let Signal {
            interface: _,
            member: _,
            destination: _,
            body: _,
        } = self;
    }
}

impl Signal {
    /// Its parts: the interface, the member, who it is for, and the values of its body.
    pub fn into_parts(
        self,
    ) -> (
        OwnedInterfaceName,
        OwnedMemberName,
        Option<OwnedBusName>,
        BodyValues,
    )
        ensures { result ≡ (self.interface, self.member, self.destination, self.body) }
    {
        let Signal {
            interface,
            member,
            destination,
            body,
        } = self;
        (interface, member, destination, body)
    }
}

/// What was done: the values of the reply, or the error that answers the call; the signals that go out before the reply and
/// behind it, in their order; and the number by which the caller of the server asks whether the reply was put, if it wants to.
pub struct Done {
    pub result: fdo::Result<BodyValues>,
    pub before: Items<Signal>,
    pub after: Items<Signal>,
    pub notifier: Option<u64>,
}

impl Drop for Done {
    fn drop(self) {
        let Done {
            result: _,
            before: _,
            after: _,
            notifier: _,
        } = self;
    }
}

impl Done {
    /// Its parts: the result, the signals before the reply, those behind it, and the number.
    pub fn into_parts(
        self,
    ) -> (
        fdo::Result<BodyValues>,
        Items<Signal>,
        Items<Signal>,
        Option<u64>,
    )
        ensures { result ≡ (self.result, self.before, self.after, self.notifier) }
    {
        let Done {
            result,
            before,
            after,
            notifier,
        } = self;
        (result, before, after, notifier)
    }
}

/// What an interface answers to a call, or to the setting of a property.
pub enum DispatchResult2 {
    /// It has no such method or property.
    NotFound,
    /// It wants to be asked once more, by the call that may change it.
    RequiresMut,
    /// It was done, or refused with an error of its own.
    Done(Done),
}

impl Drop for DispatchResult2 {
    fn drop(self) {
        match self {
            DispatchResult2::NotFound => {}
            DispatchResult2::RequiresMut => {}
            DispatchResult2::Done(_) => {}
        }
    }
}

impl DispatchResult2 {
    /// What was done, where something was.
    pub fn into_done(self) -> Option<Done>
        ensures { result ≡ done_of self }
    {
        match self {
            DispatchResult2::Done(done) => Some(done),
            DispatchResult2::NotFound | DispatchResult2::RequiresMut => None,
        }
    }

    /// A reply, or an error, alone: without signals.
    pub fn alone(alloc: Global, answer: fdo::Result<BodyValues>) -> DispatchResult2
        ensures { result ≡ alone answer }
    {
        DispatchResult2::Done(Done {
            result: answer,
            before: Items::new(alloc),
            after: Items::new(alloc),
            notifier: None,
        })
    }
}
