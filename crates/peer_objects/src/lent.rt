//! Interfaces that are lent to be changed.
ghost use Rattle.std.specs.Borrow.{sem, RestsIfErr};
ghost use Rattle.std.specs.Prelude.{◌≡◌, IfOk, OnErr, slice_get, true};
ghost use Rattle.peer_objects.specs.Serving.{IsKeptAt};
ghost use Rattle.peer_objects.specs.Dispatching.{CallsMut, SetsMut, Reaches};
ghost use Rattle.peer_objects.specs.Reaching.{LendsMut, is_kept};
ghost use Rattle.peer_objects.specs.contracts.server.ObjectServer.{the_row};

use crate::reference::InterfaceRef;
use crate::server::ObjectServer;
use object_interface::{DispatchResult2, Interface};
use std::alloc::{AllocError, Global};
use wire_message::{Error, Message, Result};
use wire_value::{MemberName, Value};

/// An interface that is lent to be called, also by the calls that may change it. Nothing can be put in its place.
pub struct InterfaceDerefMut<'a, B: Interface> {
    server: &'a mut ObjectServer<B>,
    slot: u64,
    ghost kept: { is_kept (slice_get server.now.1 slot) ≡ true },
}

impl<'a, B: Interface> Drop for InterfaceDerefMut<'a, B> {
    fn drop(self) {
        let InterfaceDerefMut { server: _, slot: _ } = self;
    }
}

impl<'a, B: Interface> InterfaceDerefMut<'a, B> {
    /// The interface in a slot that keeps one.
    fn new(server: &'a mut ObjectServer<B>, slot: u64) -> InterfaceDerefMut<'a, B>
        requires { is_kept (slice_get server.old.1 slot) ≡ true }
        ensures same_reference { result.server.ghost_name ≡ server.entry.ghost_name }
        ensures same { result.server.now ≡ server.old }
        ensures slot { result.slot ≡ slot }
    {
        InterfaceDerefMut { server, slot }
    }

    /// The interface.
    pub fn object(&self) -> &B
        ensures { IsKeptAt self.now.server.now.1 self.now.slot result.now }
    {
        self.server.kept(self.slot)
    }

    /// Calls it by the call that may change it.
    ///
    /// # Errors
    ///
    /// AllocError for want of memory: the interface means what it meant, and is in any state; nothing else of the server is
    /// changed.
    pub fn call_mut(
        &mut self,
        alloc: Global,
        message: &Message,
        member: &MemberName<'_>,
    ) -> std::result::Result<DispatchResult2, AllocError>
        ensures same_reference { self.new.server.ghost_name ≡ self.old.server.ghost_name }
        ensures slot { self.new.slot ≡ self.old.slot }
        ensures tree { self.new.server.now.0 ≡ self.old.server.now.0 }
        ensures notified { self.new.server.now.2 ≡ self.old.server.now.2 }
        ensures called { IfOk result (λ a. CallsMut B.meaning B.state self.old.slot message.now member.now self.old.server.now.1 self.new.server.now.1 a) }
        ensures reached { OnErr result (Reaches B.meaning B.state self.old.slot self.old.server.now.1 self.new.server.now.1) }
    {
        self.server.call_mut(self.slot, alloc, message, member)
    }

    /// Sets a property of it by the call that may change it.
    ///
    /// # Errors
    ///
    /// AllocError for want of memory: the interface means what it meant, and is in any state; nothing else of the server is
    /// changed.
    pub fn set_mut(
        &mut self,
        alloc: Global,
        property: &str,
        value: &Value,
    ) -> std::result::Result<DispatchResult2, AllocError>
        ensures same_reference { self.new.server.ghost_name ≡ self.old.server.ghost_name }
        ensures slot { self.new.slot ≡ self.old.slot }
        ensures tree { self.new.server.now.0 ≡ self.old.server.now.0 }
        ensures notified { self.new.server.now.2 ≡ self.old.server.now.2 }
        ensures called { IfOk result (λ a. SetsMut B.meaning B.state self.old.slot property.now value.now self.old.server.now.1 self.new.server.now.1 a) }
        ensures reached { OnErr result (Reaches B.meaning B.state self.old.slot self.old.server.now.1 self.new.server.now.1) }
    {
        self.server.set_mut(self.slot, alloc, property, value)
    }
}

impl<B: Interface> ObjectServer<B> {
    /// Lends the interface that is meant, so that it may be changed.
    ///
    /// # Errors
    ///
    /// InterfaceNotFound exactly where it was removed since, also where another stands in its place: nothing is changed.
    pub fn get_mut(&mut self, reference: &InterfaceRef) -> Result<InterfaceDerefMut<'_, B>>
        ensures* refused { sem 𝓛 (RestsIfErr (the_row B.row B.Interface) self.entry (λ lent. lent.server.ghost_name) result (λ last. last ≡ self.old)) }
        ensures same_reference { IfOk result (λ lent. lent.server.ghost_name ≡ self.entry.ghost_name) }
        ensures same { IfOk result (λ lent. lent.server.now ≡ self.old) }
        ensures lent { LendsMut (λ lent. lent.slot) self.old.1 reference.now result }
    {
        let slot = reference.slot();
        if !self.keeps(slot) {
            return Err(Error::InterfaceNotFound);
        }
        Ok(InterfaceDerefMut::new(self, slot))
    }
}
