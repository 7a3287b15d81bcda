//! Signals of object managers (D-Bus Specification, "Standard Interfaces", "org.freedesktop.DBus.ObjectManager").
ghost use Rattle.std.specs.Prelude.{◌≡◌, ◌∷◌, [], IfOk, map};
ghost use Rattle.object_signals.specs.Announcing.{announcement, member_of, tells_added, tells_removed};

use object_standard::{ManagedObject, added_body, removed_body};
use object_tree::StandardInterface;
use std::alloc::{AllocError, Global};
use wire_message::{Message, OutgoingMessage};
use wire_value::{BodyValues, InterfaceName, MemberName, ObjectPath};

/// Which signal of an object manager it is (D-Bus Specification, "Standard Interfaces", "org.freedesktop.DBus.ObjectManager").
#[derive(Clone, Copy, Debug, PartialEq, Eq)]
pub enum ManagerSignal {
    /// An object has interfaces more.
    InterfacesAdded,
    /// An object has interfaces no more.
    InterfacesRemoved,
}

impl ManagerSignal {
    /// The signal's name.
    #[tactic(auto, unfolding(wire_names::specs::Names::is_member_name, wire_names::specs::Names::is_element))]
    pub fn name(self) -> MemberName<'static>
        ensures { result ≡ member_of self }
    {
        match self {
            ManagerSignal::InterfacesAdded => MemberName::from_static_str("InterfacesAdded"),
            ManagerSignal::InterfacesRemoved => MemberName::from_static_str("InterfacesRemoved"),
        }
    }
}

/// A signal of the object manager at a path, with this body. It fails only if memory ran out.
fn announcement(
    alloc: Global,
    manager: &ObjectPath<'_>,
    signal: ManagerSignal,
    body: BodyValues,
) -> Result<OutgoingMessage<'static>, AllocError>
    ensures { IfOk result (λ message. message ≡ announcement manager.now signal body) }
{
    let path = manager.to_owned(alloc)?;
    let interface = StandardInterface::ObjectManager.name().to_owned(alloc)?;
    let member = signal.name().to_owned(alloc)?;
    let builder = Message::owned_signal(path, interface, member);
    Ok(OutgoingMessage::new(builder, body, Vec::new(alloc)))
}

/// Makes the signals of the object manager at a path that each of these objects has its interfaces more: one for each, in their
/// order.
///
/// # Errors
///
/// AllocError if out of memory, and where a property's name has a 0 byte, or it or an object's path has more than 4,294,967,295
/// bytes, so that no message may hold it.
pub fn announce_added(
    alloc: Global,
    manager: &ObjectPath<'_>,
    objects: Vec<ManagedObject>,
) -> Result<Vec<OutgoingMessage<'static>>, AllocError>
    ensures { IfOk result (λ list. list.items ≡ map (tells_added manager.now) objects.items) }
{
    let mut list = Vec::with_capacity(alloc, objects.len())?;
    for object in objects {
        let body = added_body(alloc, object)?;
        list.push(announcement(alloc, manager, ManagerSignal::InterfacesAdded, body)?)?;
    }
    Ok(list)
}

/// Makes the signal of the object manager at a path that the object has the interface no more.
///
/// # Errors
///
/// AllocError if out of memory, and where the object's path has more than 4,294,967,295 bytes, so that no message may hold it.
pub fn announce_removed(
    alloc: Global,
    manager: &ObjectPath<'_>,
    path: &ObjectPath<'_>,
    name: &InterfaceName<'_>,
) -> Result<Vec<OutgoingMessage<'static>>, AllocError>
    ensures { IfOk result (λ list. list.items ≡ tells_removed manager.now path.now name.now ∷ []) }
{
    let mut names = Vec::new(alloc);
    names.push(name.to_owned(alloc)?)?;
    let body = removed_body(alloc, path, names)?;
    let mut list = Vec::with_capacity(alloc, 1)?;
    list.push(announcement(alloc, manager, ManagerSignal::InterfacesRemoved, body)?)?;
    Ok(list)
}
