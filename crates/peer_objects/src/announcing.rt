//! What object managers announce where an interface is added or removed (D-Bus Specification, "Standard Interfaces",
//! "org.freedesktop.DBus.ObjectManager").
ghost use Rattle.std.specs.Prelude.{◌≡◌, ◌≢◌, IfOk, OnErr, None, false};
ghost use Rattle.object_tree.specs.Objects.{is_taken, manager_of};
ghost use Rattle.peer_objects.specs.Announcing.{ManagesAlone, AnnouncesOne, AnnouncesAll, AnnouncesAdded, announces_removed};

use crate::server::ObjectServer;
use object_interface::{Interface, Items};
use object_signals::{announce_added, announce_removed};
use object_standard::{ManagedInterface, ManagedObject};
use object_tree::StandardInterface;
use std::alloc::{AllocError, Global};
use wire_message::OutgoingMessage;
use wire_value::{InterfaceName, ObjectPath};

/// An object with that interface alone, and its properties. It fails only if memory ran out.
fn managed_alone<B: Interface>(
    alloc: Global,
    path: &ObjectPath<'_>,
    object: &B,
) -> Result<ManagedObject, AllocError>
    ensures { IfOk result (λ o. ManagesAlone B.meaning B.state path.now object.now o) }
{
    let properties = object.get_all(alloc)?;
    let interface = ManagedInterface {
        name: object.name().to_owned(alloc)?,
        properties,
    };
    Ok(ManagedObject {
        path: path.to_owned(alloc)?,
        interfaces: Items::one(alloc, interface)?,
    })
}

impl<B: Interface> ObjectServer<B> {
    /// What a manager that is added at the path announces. It fails only if memory ran out.
    fn announce_all(
        &self,
        path: &ObjectPath<'_>,
    ) -> Result<Vec<OutgoingMessage<'static>>, AllocError>
        ensures { IfOk result (λ list. AnnouncesAll B.meaning B.state self.now.0 path.now self.now.1 list.items) }
    {
        let objects = self.managed_below(path)?;
        announce_added(self.alloc, path, objects)
    }

    /// What the manager of the path's object announces of an interface that is added there. It fails only if memory ran out.
    fn announce_one(
        &self,
        path: &ObjectPath<'_>,
        object: &B,
    ) -> Result<Vec<OutgoingMessage<'static>>, AllocError>
        ensures { IfOk result (λ list. AnnouncesOne B.meaning B.state (manager_of self.now.0 path.now) path.now object.now list.items) }
    {
        let Some(manager) = self.tree.manager(path) else {
            return Ok(Vec::new(self.alloc));
        };
        let mut objects = Vec::new(self.alloc);
        objects.push(managed_alone(self.alloc, path, object)?)?;
        announce_added(self.alloc, &manager, objects)
    }

    /// What is announced of an interface that is added at the path; nothing is looked for where its name is taken there. It fails only
    /// if memory ran out.
    pub(crate) fn announce(
        &self,
        path: &ObjectPath<'_>,
        object: &B,
    ) -> Result<Vec<OutgoingMessage<'static>>, AllocError>
        ensures { IfOk result (λ list. is_taken self.now.0 path.now (B.meaning object.now).title ≡ false → AnnouncesAdded B.meaning B.state self.now.0 path.now object.now self.now.1 list.items) }
    {
        let name = object.name();
        if self.is_taken(path, &name) {
            return Ok(Vec::new(self.alloc));
        }
        match StandardInterface::named(name.as_str()) {
            Some(StandardInterface::ObjectManager) => self.announce_all(path),
            _ => self.announce_one(path, object),
        }
    }

    /// What is announced of an interface that is removed from the path. It fails only if memory ran out, and only where the object has
    /// a manager.
    pub(crate) fn announce_removed(
        &self,
        path: &ObjectPath<'_>,
        name: &InterfaceName<'_>,
    ) -> Result<Vec<OutgoingMessage<'static>>, AllocError>
        ensures told { IfOk result (λ list. list.items ≡ announces_removed self.now.0 path.now name.now) }
        ensures managed { OnErr result (manager_of self.now.0 path.now ≢ None) }
    {
        let Some(manager) = self.tree.manager(path) else {
            return Ok(Vec::new(self.alloc));
        };
        announce_removed(self.alloc, &manager, path, name)
    }
}
