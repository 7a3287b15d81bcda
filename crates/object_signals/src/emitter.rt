//! Signals of an object that are put at once (D-Bus Specification, "Message Protocol", "Types of messages", "Signal Emission").
ghost use Rattle.std.specs.Prelude.{◌≡◌, None, Some, IfOk, IfErr, IsTrue};
ghost use Rattle.std.specs.Result.{OkIff};
ghost use Rattle.wire_names.specs.BusName.{text_of, text_of_owned};
ghost use Rattle.wire_names.specs.Names.{is_object_path};
ghost use Rattle.wire_names.specs.declared.error.NamesError.TheVariants as errors;
ghost use Rattle.object_signals.specs.Emitting.{named, signal_from};

use std::alloc::{AllocError, Global};
use std::marker::Model;
use wire_message::{Builder, Message, Result};
use wire_value::{
    BodyValues, BusName, InterfaceName, MemberName, NamesError, ObjectPath, OwnedBusName,
    OwnedObjectPath,
};

/// Whoever puts signals: a peer, or what stands for one.
pub trait Emits {
    ghost use Rattle.std.specs.Prelude.{[], ℕ, Result};
    ghost use Rattle.wire_message.specs.declared.error.Error.{Error};
    ghost use Rattle.wire_message.specs.Outgoing.{OutgoingMessageView};

    /// What putting a message means: what puts it, the message, its serial or why it isn't put, and what puts it then.
    ghost puts: { Self → OutgoingMessageView → Result ℕ Error → Self → Type 0 };

    /// Puts a signal with this body, and gives its serial.
    ///
    /// # Errors
    ///
    /// Those that it means to have.
    fn emit(&mut self, builder: Builder<'_>, body: BodyValues) -> Result<u32>
        ensures { puts self.old (record { builder = builder.entry; values = body; fds = [] }) result self.new };
}

/// Where signals come from: an object's path, and the connection that they are for, where one is named (D-Bus Specification,
/// "Message Protocol", "Types of messages", "Signal Emission").
pub struct SignalEmitter<'a> {
    path: ObjectPath<'a>,
    destination: Option<BusName<'a>>,
}

impl<'a> Drop for SignalEmitter<'a> {
    fn drop(self) {
        let SignalEmitter {
            path: _,
            destination: _,
        } = self;
    }
}

impl<'a> Model for SignalEmitter<'a> {
    ghost use Rattle.object_signals.specs.Emitting.{EmitterView, named};

    ghost Value = { EmitterView };

    ghost view = { λ e. record { path = e.path; destination = named e.destination } };
}

impl<'a> SignalEmitter<'a> {
    /// Signals from the object at the path of that text, for whoever listens.
    ///
    /// # Errors
    ///
    /// Path exactly where the text is no object path (D-Bus Specification, "Valid Object Paths").
    pub fn new(path: &'a str) -> std::result::Result<SignalEmitter<'a>, NamesError>
        ensures made { OkIff result (IsTrue (is_object_path path.now)) (record { path = path.now; destination = None }) }
        ensures refused { IfErr result (λ e. e ≡ errors.Path) }
    {
        let path = ObjectPath::try_from(path)?;
        Ok(SignalEmitter::from_parts(path))
    }

    /// Signals from the object at this path, for whoever listens.
    pub fn from_parts(path: ObjectPath<'a>) -> SignalEmitter<'a>
        ensures { result ≡ record { path = path.entry; destination = None } }
    {
        SignalEmitter {
            path,
            destination: None,
        }
    }

    /// For that connection alone (D-Bus Specification, "Header Fields", `DESTINATION`).
    pub fn set_destination(self, destination: BusName<'a>) -> SignalEmitter<'a>
        ensures { result ≡ record self.entry { destination = Some (text_of destination.entry) } }
    {
        let SignalEmitter {
            path,
            destination: _,
        } = self;
        SignalEmitter {
            path,
            destination: Some(destination),
        }
    }

    /// The object's path.
    pub fn path(&self) -> ObjectPath<'a>
        ensures { result ≡ self.now.path }
    {
        self.path.as_ref()
    }

    /// The connection that they are for, where one is named.
    pub fn destination(&self) -> Option<BusName<'a>>
        ensures { named result ≡ self.now.destination }
    {
        match &self.destination {
            Some(name) => Some(name.as_ref()),
            None => None,
        }
    }

    /// Puts a signal of that interface with this body, and gives its serial.
    ///
    /// # Errors
    ///
    /// Those of whoever puts it.
    pub fn emit<P: Emits>(
        &self,
        peer: &mut P,
        interface: &InterfaceName<'_>,
        member: &MemberName<'_>,
        body: BodyValues,
    ) -> Result<u32>
        ensures { P.puts peer.old (signal_from self.now interface.now member.now body) result peer.new }
    {
        let signal = Message::signal(&self.path, interface, member);
        let signal = match &self.destination {
            Some(name) => signal.destination(name),
            None => signal,
        };
        peer.emit(signal, body)
    }

    /// Copies the path and the name.
    ///
    /// # Errors
    ///
    /// AllocError for want of memory.
    pub fn to_owned(&self, alloc: Global) -> std::result::Result<OwnedSignalEmitter, AllocError>
        ensures { IfOk result (λ e. e ≡ self.now) }
    {
        let destination = match &self.destination {
            Some(name) => Some(name.to_owned(alloc)?),
            None => None,
        };
        Ok(OwnedSignalEmitter {
            path: self.path.to_owned(alloc)?,
            destination,
        })
    }

    /// The same, where this one isn't needed any more.
    ///
    /// # Errors
    ///
    /// AllocError for want of memory.
    pub fn into_owned(self, alloc: Global) -> std::result::Result<OwnedSignalEmitter, AllocError>
        ensures { IfOk result (λ e. e ≡ self.entry) }
    {
        self.to_owned(alloc)
    }
}

/// Where signals come from, with texts of its own.
pub struct OwnedSignalEmitter {
    path: OwnedObjectPath,
    destination: Option<OwnedBusName>,
}

impl Drop for OwnedSignalEmitter {
    fn drop(self) {
        let OwnedSignalEmitter {
            path: _,
            destination: _,
        } = self;
    }
}

impl Model for OwnedSignalEmitter {
    ghost use Rattle.std.specs.Prelude.{option_map};
    ghost use Rattle.wire_names.specs.BusName.{text_of_owned};
    ghost use Rattle.object_signals.specs.Emitting.{EmitterView};

    ghost Value = { EmitterView };

    ghost view = { λ e. record { path = e.path; destination = option_map text_of_owned e.destination } };
}

impl OwnedSignalEmitter {
    /// The same, lent.
    pub fn as_ref(&self) -> SignalEmitter<'_>
        ensures { result ≡ self.now }
    {
        let emitter = SignalEmitter::from_parts(self.path.as_ref());
        match &self.destination {
            Some(name) => emitter.set_destination(name.as_ref()),
            None => emitter,
        }
    }
}
