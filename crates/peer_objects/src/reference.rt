//! Interfaces that are meant, and lent.
ghost use Rattle.std.specs.Prelude.{◌≡◌, IfOk, None};
ghost use Rattle.peer_objects.specs.Serving.{Lends};

use crate::server::ObjectServer;
use object_interface::Interface;
use object_signals::SignalEmitter;
use std::alloc::{AllocError, Global};
use std::marker::Model;
use wire_message::Result;
use wire_value::{InterfaceName, ObjectPath, OwnedInterfaceName, OwnedObjectPath};

/// An interface of a service's objects: its path, its name, and the slot where it is kept (D-Bus Specification, "Interfaces"). It
/// means that interface alone, and no other that is added of its name once it is removed.
pub struct InterfaceRef {
    path: OwnedObjectPath,
    name: OwnedInterfaceName,
    slot: u64,
}

impl Drop for InterfaceRef {
    fn drop(self) {
        let InterfaceRef {
            path: _,
            name: _,
            slot: _,
        } = self;
    }
}

impl Model for InterfaceRef {
    ghost use Rattle.peer_objects.specs.Serving.{Reference};

    ghost Value = { Reference };

    ghost view = { λ r. record { path = r.path; name = r.name; slot = r.slot } };
}

impl InterfaceRef {
    /// Copies the path and the name.
    pub(crate) fn new(
        alloc: Global,
        path: &ObjectPath<'_>,
        name: &InterfaceName<'_>,
        slot: u64,
    ) -> std::result::Result<InterfaceRef, AllocError>
        ensures { IfOk result (λ r. (r.path ≡ path.now) × (r.name ≡ name.now) × (r.slot ≡ slot)) }
    {
        Ok(InterfaceRef {
            path: path.to_owned(alloc)?,
            name: name.to_owned(alloc)?,
            slot,
        })
    }

    /// The path.
    pub fn path(&self) -> ObjectPath<'_>
        ensures { result ≡ self.now.path }
    {
        self.path.as_ref()
    }

    /// The name.
    pub fn name(&self) -> InterfaceName<'_>
        ensures { result ≡ self.now.name }
    {
        self.name.as_ref()
    }

    /// Signals from the interface's object, for whoever listens.
    pub fn signal_emitter(&self) -> SignalEmitter<'_>
        ensures { result ≡ record { path = self.now.path; destination = None } }
    {
        SignalEmitter::from_parts(self.path())
    }

    /// The slot.
    pub fn slot(&self) -> u64
        ensures { result ≡ self.now.slot }
    {
        self.slot
    }

    /// Copies the reference.
    ///
    /// # Errors
    ///
    /// AllocError for want of memory.
    pub fn try_clone(&self, alloc: Global) -> std::result::Result<InterfaceRef, AllocError>
        ensures { IfOk result (λ r. r ≡ self.now) }
    {
        Ok(InterfaceRef {
            path: self.path.try_clone(alloc)?,
            name: self.name.try_clone(alloc)?,
            slot: self.slot,
        })
    }

    /// Lends the interface, as [`ObjectServer::get`] does.
    ///
    /// # Errors
    ///
    /// InterfaceNotFound exactly where it was removed since, also where another stands in its place.
    pub fn get<'a, B: Interface>(
        &self,
        server: &'a ObjectServer<B>,
    ) -> Result<InterfaceDeref<'a, B>>
        ensures { Lends server.now.1 self.now result }
    {
        server.get(self)
    }
}

/// An interface that is lent.
pub struct InterfaceDeref<'a, B> {
    object: &'a B,
}

impl<'a, B> Drop for InterfaceDeref<'a, B> {
    fn drop(self) {
        let InterfaceDeref { object: _ } = self;
    }
}

impl<'a, B> Model for InterfaceDeref<'a, B> {
    ghost Value = { B };

    ghost view = { λ d. d.object.now };
}

impl<'a, B> InterfaceDeref<'a, B> {
    /// The interface, lent.
    pub(crate) fn new(object: &'a B) -> InterfaceDeref<'a, B>
        ensures { result ≡ object.now }
    {
        InterfaceDeref { object }
    }

    /// The interface.
    pub fn object(&self) -> &'a B
        ensures { result.now ≡ self.now }
    {
        self.object
    }
}
