//! A service's objects by their commands.
ghost use Rattle.std.specs.Prelude.{◌≡◌, ◌≢◌, ℕ, None, IfOk, IfErr, OnErr, true};
ghost use Rattle.wire_message.specs.declared.error.Error.TheVariants as errors;
ghost use Rattle.object_interface.specs.Meaning.{Same};
ghost use Rattle.object_tree.specs.Objects.{manager_of};
ghost use Rattle.peer_objects.specs.Notifying.{awaiting, is_dispatched, is_known, put_for};
ghost use Rattle.peer_objects.specs.Served.{Serves, Disturbs};
ghost use Rattle.peer_service.specs.Service.{BoxView, Answers, meaning_at, first_service, with_machine, on_shelf, placing, after_placing, removing, after_removing, slot_named, number_at, is_added, said_of, announced_by, announced_with, announces_removing, Announces};

use crate::numbered::{Numbered, Registry};
use crate::shelf::{has, numbered, put, take};
use crate::words::{interface_name, name};
use object_interface::{Answered, Interface};
use peer_objects::{Adding, ObjectServer};
use std::alloc::{AllocError, Global};
use std::marker::Model;
use wire_message::{Error, Message, OutgoingMessage, Result};
use wire_value::{Bytes, Guid, ObjectPath, OwnedGuid};

/// A service whose interfaces were handed in, each by its number: those that stand at its objects, and those that can be placed;
/// and the id of its machine, where it is known (D-Bus Specification, "Interfaces", "UUIDs").
pub struct Service<B: Interface, R: Registry> {
    machine: Option<OwnedGuid>,
    server: ObjectServer<Numbered<B, R>>,
    shelf: Vec<Option<Numbered<B, R>>>,
}

impl<B: Interface, R: Registry> Drop for Service<B, R> {
    fn drop(self) {
        let Service {
            machine: _,
            server: _,
            shelf: _,
        } = self;
    }
}

impl<B: Interface, R: Registry> Model for Service<B, R> {
    ghost use Rattle.peer_service.specs.Service.{ServiceView, StandAtTheirNumbers};

    ghost Value = { ServiceView };

    ghost view = { λ s. record { machine = s.machine; objects = s.server.0; slots = s.server.1; shelf = s.shelf.items; notified = s.server.2 } };

    ghost invariant = { λ s. StandAtTheirNumbers s.shelf.items };
}

/// The id of a machine, where it is known.
fn lent(machine: &Option<OwnedGuid>) -> Option<Guid<'_>>
    ensures { result ≡ machine.now }
{
    match machine {
        Some(id) => Some(id.inner()),
        None => None,
    }
}

impl<B: Interface, R: Registry> Service<B, R> {
    /// A service at its start on a machine of that id, where it is known (D-Bus Specification, "UUIDs"): no interface stands
    /// anywhere, and each of these can be placed, by its number in the list, from 0 on.
    ///
    /// # Errors
    ///
    /// AllocError for want of memory.
    pub fn new(
        alloc: Global,
        boxes: Vec<B>,
        machine: Option<OwnedGuid>,
    ) -> std::result::Result<Service<B, R>, AllocError>
        requires { (n : ℕ) → Same (meaning_at B.meaning boxes.items n) (R.meanings n) }
        ensures { IfOk result (λ service. service ≡ with_machine machine (first_service B.state boxes.items)) }
    {
        let server = ObjectServer::new(alloc)?;
        let shelf = numbered(alloc, boxes)?;
        Ok(Service {
            machine,
            server,
            shelf,
        })
    }

    /// Places the interface of a number at a path, with each path that is missing on the way, and says whether it was added,
    /// which it is exactly where its name isn't taken there; else it can be placed elsewhere. What object managers announce of it is
    /// handed back, as [`ObjectServer::at`] does.
    ///
    /// # Errors
    ///
    /// The first that holds: UnknownHandle exactly where the number's interface can't be placed, since there is none, it stands at
    /// an object, or it went with one; Names(Path) exactly where the path is outside its grammar. Memory for want of memory. An
    /// error changes nothing.
    pub fn at(&mut self, path: &Bytes, number: u64) -> Result<Adding<()>>
        ensures answer { Answers (said_of is_added result) (placing (λ n. (R.meanings n).title) self.old.objects path.now (on_shelf self.old number)) }
        ensures left { self.new ≡ after_placing (λ n. (R.meanings n).title) self.old path.now number (said_of is_added result) }
        ensures announces { Announces R.meanings self.old path.now number (said_of is_added result) (announced_by result) }
    {
        if !has(&self.shelf, number) {
            return Err(Error::UnknownHandle);
        }
        let path: ObjectPath<'_> = name(path)?;
        let Some(object) = take(&mut self.shelf, number) else {
            unreachable!()
        };
        match self.server.at(&path, object) {
            Ok(Adding::Added(announced)) => Ok(Adding::Added(announced)),
            Ok(Adding::Exists(object)) => {
                put(&mut self.shelf, object);
                Ok(Adding::Exists(()))
            }
            Err(error) => {
                put(&mut self.shelf, error.value);
                Err(Error::Memory)
            }
        }
    }

    /// Removes an interface from a path, after which it can be placed again, and says whether its object is gone with it: an
    /// `org.freedesktop.DBus.ObjectManager` that goes with it can't be placed again. What the object's manager announces of it is handed
    /// back.
    ///
    /// # Errors
    ///
    /// The first that holds: Names(Path) exactly where the path is outside its grammar; Names(Interface) exactly where the
    /// interface's name is missing or outside its grammar; InterfaceNotFound exactly where none of the name was placed there. Memory
    /// for want of memory, which is taken only where the object has a manager. An error changes nothing.
    pub fn remove(
        &mut self,
        path: &Bytes,
        interface: &Option<Bytes>,
    ) -> Result<(bool, Vec<OutgoingMessage<'static>>)>
        ensures answer { Answers (said_of (λ removed. removed.0) result) (removing self.old.objects path.now interface.now) }
        ensures left { self.new ≡ after_removing self.old path.now interface.now (said_of (λ removed. removed.0) result) }
        ensures announces { announced_with result ≡ announces_removing self.old.objects path.now interface.now (said_of (λ removed. removed.0) result) }
        ensures managed { IfErr result (λ error. error ≡ errors.Memory → manager_of self.old.objects path.now ≢ None) }
    {
        let path: ObjectPath<'_> = name(path)?;
        let interface = interface_name(interface)?;
        match self.server.remove_named(&path, &interface) {
            Ok(removed) => {
                put(&mut self.shelf, removed.object);
                Ok((removed.destroyed, removed.announced))
            }
            Err(error) => Err(error),
        }
    }

    /// The slot where the interface of that name is kept.
    ///
    /// # Errors
    ///
    /// The first that holds: Names(Path) exactly where the path is outside its grammar; Names(Interface) exactly where the
    /// interface's name is missing or outside its grammar; InterfaceNotFound exactly where none of the name was placed there.
    pub fn interface(&self, path: &Bytes, interface: &Option<Bytes>) -> Result<u64>
        ensures { result ≡ slot_named self.now.objects path.now interface.now }
    {
        let path: ObjectPath<'_> = name(path)?;
        let interface = interface_name(interface)?;
        match self.server.inner().slot(&path, &interface) {
            Some(slot) => Ok(slot),
            None => Err(Error::InterfaceNotFound),
        }
    }

    /// Answers a message: what its path, interface and member reach is called, as [`ObjectServer::dispatch`] does with the
    /// machine's id. Each interface keeps its number, whatever the answer, and what can be placed stays.
    ///
    /// # Errors
    ///
    /// AllocError if out of memory, and where no message may hold the text of introspection or a property's name, since it has
    /// a 0 byte or more than 4,294,967,295 bytes. Nothing is changed, but that an interface that was called, or whose property
    /// was set, is then in any state.
    pub fn dispatch<'a>(
        &mut self,
        message: &'a Message,
    ) -> std::result::Result<Answered<'a>, AllocError>
        ensures served { IfOk result (λ d. Serves (λ (b : BoxView). R.meanings b.number) (λ (b : BoxView). b.state) self.old.machine (self.old.objects, self.old.slots) (self.new.objects, self.new.slots) message.now d.messages.items d.notifier) }
        ensures disturbed { OnErr result (Disturbs (λ (b : BoxView). R.meanings b.number) (λ (b : BoxView). b.state) (self.old.objects, self.old.slots) (self.new.objects, self.new.slots) message.now) }
        ensures numbers { (k : ℕ) → number_at self.new.slots k ≡ number_at self.old.slots k }
        ensures shelf { self.new.shelf ≡ self.old.shelf }
        ensures machine { self.new.machine ≡ self.old.machine }
        ensures notified { IfOk result (λ d. self.new.notified ≡ awaiting d.notifier self.old.notified) }
        ensures unnotified { OnErr result (self.new.notified ≡ self.old.notified) }
    {
        let machine = lent(&self.machine);
        self.server.dispatch(message, machine)
    }

    /// Records that the reply of an answer with that number was put, as [`ObjectServer::set_dispatched`] does. It takes no memory.
    pub fn set_dispatched(&mut self, number: u64)
        requires { is_known self.old.notified number ≡ true }
        ensures { self.new ≡ record self.old { notified = put_for number self.old.notified } }
    {
        self.server.set_dispatched(number);
    }

    /// Whether the reply of an answer with that number was put, as [`Service::set_dispatched`] recorded.
    pub fn dispatched(&self, number: u64) -> bool
        ensures { result ≡ is_dispatched self.now.notified number }
    {
        self.server.dispatched(number)
    }
}
