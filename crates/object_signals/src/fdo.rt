//! The standard interfaces, with the signals that they have (D-Bus Specification, "Standard Interfaces").
ghost use Rattle.std.specs.Prelude.{◌≡◌};
ghost use Rattle.object_tree.specs.Standard.{standard_name};
ghost use Rattle.object_tree.specs.declared.standard.StandardInterface.TheVariants as standards;
ghost use Rattle.object_signals.specs.Emitting.{PutsOrNot, changed_from, added_from, removed_from};

use crate::announced::ManagerSignal;
use crate::emitter::{Emits, SignalEmitter};
use object_interface::Properties as Changed;
use object_standard::{ManagedObject, added_body, changed_body, removed_body};
use object_tree::StandardInterface;
use std::alloc::Global;
use wire_message::Result;
use wire_value::{InterfaceName, MemberName, ObjectPath, OwnedInterfaceName, Text};

/// The objects below an object manager's own, in the order of their paths' bytes.
pub type ManagedObjects = Vec<ManagedObject>;

/// `org.freedesktop.DBus.Peer`, which each object has (D-Bus Specification, "Standard Interfaces").
pub struct Peer;

impl Peer {
    /// Its name.
    pub fn name() -> InterfaceName<'static>
        ensures { result ≡ standard_name standards.Peer }
    {
        StandardInterface::Peer.name()
    }
}

/// `org.freedesktop.DBus.Introspectable`, which each object has (D-Bus Specification, "Standard Interfaces").
pub struct Introspectable;

impl Introspectable {
    /// Its name.
    pub fn name() -> InterfaceName<'static>
        ensures { result ≡ standard_name standards.Introspectable }
    {
        StandardInterface::Introspectable.name()
    }
}

/// `org.freedesktop.DBus.Properties`, which each object has (D-Bus Specification, "Standard Interfaces").
pub struct Properties;

impl Properties {
    /// Its name.
    pub fn name() -> InterfaceName<'static>
        ensures { result ≡ standard_name standards.Properties }
    {
        StandardInterface::Properties.name()
    }

    /// Puts the signal PropertiesChanged: the properties of an interface that have new values, and the names of those whose new
    /// values aren't told. Gives its serial.
    ///
    /// # Errors
    ///
    /// Memory, with nothing done, for want of memory, and where a property's name, of either kind, has a 0 byte or more than
    /// 4,294,967,295 bytes, so that no message may hold it. Else those of whoever puts it.
    #[tactic(auto, unfolding(wire_names::specs::Names::is_member_name, wire_names::specs::Names::is_element))]
    pub fn properties_changed<P: Emits>(
        alloc: Global,
        emitter: &SignalEmitter<'_>,
        peer: &mut P,
        interface: &InterfaceName<'_>,
        changed: Changed,
        invalidated: Vec<Text>,
    ) -> Result<u32>
        ensures { PutsOrNot P.puts peer.old (changed_from emitter.now interface.now changed invalidated.items) result peer.new }
    {
        let body = changed_body(alloc, interface, changed, invalidated)?;
        let member = MemberName::from_static_str("PropertiesChanged");
        emitter.emit(peer, &Properties::name(), &member, body)
    }
}

/// `org.freedesktop.DBus.ObjectManager`, which an object has where it was added (D-Bus Specification, "Standard Interfaces").
pub struct ObjectManager;

impl ObjectManager {
    /// Its name.
    pub fn name() -> InterfaceName<'static>
        ensures { result ≡ standard_name standards.ObjectManager }
    {
        StandardInterface::ObjectManager.name()
    }

    /// Puts the signal InterfacesAdded: an object, with interfaces that were added to it and their properties. Gives its serial.
    ///
    /// # Errors
    ///
    /// Memory, with nothing done, for want of memory, and where a property's name has a 0 byte, or it or the object's path has
    /// more than 4,294,967,295 bytes, so that no message may hold it. Else those of whoever puts it.
    pub fn interfaces_added<P: Emits>(
        alloc: Global,
        emitter: &SignalEmitter<'_>,
        peer: &mut P,
        object: ManagedObject,
    ) -> Result<u32>
        ensures { PutsOrNot P.puts peer.old (added_from emitter.now object) result peer.new }
    {
        let body = added_body(alloc, object)?;
        let member = ManagerSignal::InterfacesAdded.name();
        emitter.emit(peer, &ObjectManager::name(), &member, body)
    }

    /// Puts the signal InterfacesRemoved: the path of an object, with the names of interfaces that were removed from it. Gives
    /// its serial.
    ///
    /// # Errors
    ///
    /// Memory, with nothing done, for want of memory, and where the object's path has more than 4,294,967,295 bytes, so that no
    /// message may hold it. Else those of whoever puts it.
    pub fn interfaces_removed<P: Emits>(
        alloc: Global,
        emitter: &SignalEmitter<'_>,
        peer: &mut P,
        path: &ObjectPath<'_>,
        names: Vec<OwnedInterfaceName>,
    ) -> Result<u32>
        ensures { PutsOrNot P.puts peer.old (removed_from emitter.now path.now names.items) result peer.new }
    {
        let body = removed_body(alloc, path, names)?;
        let member = ManagerSignal::InterfacesRemoved.name();
        emitter.emit(peer, &ObjectManager::name(), &member, body)
    }
}
