//! Signals that an object puts by whoever puts signals, down to their bytes.
ghost use Rattle.std.specs.Prelude.{◌≡◌, IfOk, Ok};
ghost use Rattle.object_tests.specs.Putting.{PutsOne, from_root, is_added, is_changed, is_removed, object};

use crate::putting::Peer;
use object_interface::Items;
use object_standard::{ManagedInterface, ManagedObject};
use peer_core::Route;
use peer_objects::{OwnedSignalEmitter, SignalEmitter, fdo};
use std::alloc::Global;
use wire_message::Result;
use wire_value::{BusName, InterfaceName, ObjectPath, OwnedInterfaceName, Text, Tree, Value};

/// PropertiesChanged from `/` to `:1.5`, of `a.b`: no new values, and `V` without one. Its serial is 1.
const CHANGED: [u8; 162] = [
    108, 4, 0, 1, 26, 0, 0, 0, 1, 0, 0, 0, 118, 0, 0, 0, 1, 1, 111, 0, 1, 0, 0, 0, 47, 0, 0, 0, 0,
    0, 0, 0, 2, 1, 115, 0, 31, 0, 0, 0, 111, 114, 103, 46, 102, 114, 101, 101, 100, 101, 115, 107,
    116, 111, 112, 46, 68, 66, 117, 115, 46, 80, 114, 111, 112, 101, 114, 116, 105, 101, 115, 0, 3,
    1, 115, 0, 17, 0, 0, 0, 80, 114, 111, 112, 101, 114, 116, 105, 101, 115, 67, 104, 97, 110, 103,
    101, 100, 0, 0, 0, 0, 0, 0, 0, 6, 1, 115, 0, 4, 0, 0, 0, 58, 49, 46, 53, 0, 0, 0, 0, 8, 1, 103,
    0, 8, 115, 97, 123, 115, 118, 125, 97, 115, 0, 0, 0, 3, 0, 0, 0, 97, 46, 98, 0, 0, 0, 0, 0, 0,
    0, 0, 0, 6, 0, 0, 0, 1, 0, 0, 0, 86, 0,
];

/// InterfacesAdded from `/`: `/a` has `a.b`, whose `V` is the number 7. Its serial is 1.
const ADDED: [u8; 168] = [
    108, 4, 0, 1, 48, 0, 0, 0, 1, 0, 0, 0, 104, 0, 0, 0, 1, 1, 111, 0, 1, 0, 0, 0, 47, 0, 0, 0, 0,
    0, 0, 0, 2, 1, 115, 0, 34, 0, 0, 0, 111, 114, 103, 46, 102, 114, 101, 101, 100, 101, 115, 107,
    116, 111, 112, 46, 68, 66, 117, 115, 46, 79, 98, 106, 101, 99, 116, 77, 97, 110, 97, 103, 101,
    114, 0, 0, 0, 0, 0, 0, 3, 1, 115, 0, 15, 0, 0, 0, 73, 110, 116, 101, 114, 102, 97, 99, 101,
    115, 65, 100, 100, 101, 100, 0, 8, 1, 103, 0, 10, 111, 97, 123, 115, 97, 123, 115, 118, 125,
    125, 0, 2, 0, 0, 0, 47, 97, 0, 0, 32, 0, 0, 0, 0, 0, 0, 0, 3, 0, 0, 0, 97, 46, 98, 0, 16, 0, 0,
    0, 0, 0, 0, 0, 1, 0, 0, 0, 86, 0, 1, 117, 0, 0, 0, 0, 7, 0, 0, 0,
];

/// InterfacesRemoved from `/` to `:1.5`: `/a` has `a.b` and `c.d` no more. Its serial is 1.
const REMOVED: [u8; 172] = [
    108, 4, 0, 1, 28, 0, 0, 0, 1, 0, 0, 0, 121, 0, 0, 0, 1, 1, 111, 0, 1, 0, 0, 0, 47, 0, 0, 0, 0,
    0, 0, 0, 2, 1, 115, 0, 34, 0, 0, 0, 111, 114, 103, 46, 102, 114, 101, 101, 100, 101, 115, 107,
    116, 111, 112, 46, 68, 66, 117, 115, 46, 79, 98, 106, 101, 99, 116, 77, 97, 110, 97, 103, 101,
    114, 0, 0, 0, 0, 0, 0, 3, 1, 115, 0, 17, 0, 0, 0, 73, 110, 116, 101, 114, 102, 97, 99, 101,
    115, 82, 101, 109, 111, 118, 101, 100, 0, 0, 0, 0, 0, 0, 0, 6, 1, 115, 0, 4, 0, 0, 0, 58, 49,
    46, 53, 0, 0, 0, 0, 8, 1, 103, 0, 3, 111, 97, 115, 0, 0, 0, 0, 0, 0, 0, 0, 2, 0, 0, 0, 47, 97,
    0, 0, 16, 0, 0, 0, 3, 0, 0, 0, 97, 46, 98, 0, 3, 0, 0, 0, 99, 46, 100, 0,
];

/// Signals from `/` to `:1.5`.
fn from_root() -> Result<SignalEmitter<'static>>
    ensures { IfOk result (λ e. e ≡ from_root) }
{
    let emitter = SignalEmitter::new("/")?;
    Ok(emitter.set_destination(BusName::try_from(":1.5")?))
}

/// The serial of the signal that a property has a new value which isn't told.
fn tells_changed(alloc: Global, peer: &mut Peer) -> Result<u32>
    ensures { IfOk result (λ serial. PutsOne peer.old.route is_changed (Ok serial) peer.new.route) }
{
    let interface = InterfaceName::try_from("a.b")?;
    let mut names = Vec::new(alloc);
    names.push(Text::from_str(alloc, "V")?)?;
    let changed = Items::new(alloc);
    let emitter = from_root()?;
    fdo::Properties::properties_changed(alloc, &emitter, peer, &interface, changed, names)
}

/// An object at `/a` with one interface, which has one property.
fn object(alloc: Global) -> Result<ManagedObject>
    ensures { IfOk result (λ o. o ≡ object) }
{
    let value = Value::from_tree(alloc, Tree::U32(7))?;
    let mut properties = Items::new(alloc);
    properties.push((Text::from_str(alloc, "V")?, value))?;
    let name = OwnedInterfaceName::try_from(alloc, "a.b")?;
    let mut interfaces = Items::new(alloc);
    interfaces.push(ManagedInterface { name, properties })?;
    let path = ObjectPath::try_from("/a")?;
    Ok(ManagedObject {
        path: path.to_owned(alloc)?,
        interfaces,
    })
}

/// The serial of the signal that it is there.
fn tells_added(alloc: Global, peer: &mut Peer) -> Result<u32>
    ensures { IfOk result (λ serial. PutsOne peer.old.route is_added (Ok serial) peer.new.route) }
{
    let emitter = SignalEmitter::from_parts(ObjectPath::try_from("/")?);
    let object = object(alloc)?;
    fdo::ObjectManager::interfaces_added(alloc, &emitter, peer, object)
}

/// The serial of the signal that an object has two interfaces no more.
fn tells_removed(alloc: Global, emitter: &OwnedSignalEmitter, peer: &mut Peer) -> Result<u32>
    ensures { IfOk result (λ serial. emitter.now ≡ from_root → PutsOne peer.old.route is_removed (Ok serial) peer.new.route) }
{
    let path = ObjectPath::try_from("/a")?;
    let mut names = Vec::new(alloc);
    names.push(OwnedInterfaceName::try_from(alloc, "a.b")?)?;
    names.push(OwnedInterfaceName::try_from(alloc, "c.d")?)?;
    fdo::ObjectManager::interfaces_removed(alloc, &emitter.as_ref(), peer, &path, names)
}

/// A peer that put nothing.
fn peer(alloc: Global) -> Peer {
    Peer {
        alloc,
        route: Route::new(alloc),
    }
}

/// Whether these bytes are the one message of an outbox, and their serial is 1.
fn is_one(peer: &Peer, serial: u32, bytes: &[u8]) -> bool {
    match peer.route.outbox(0) {
        Some(message) => { serial == 1 && peer.route.outbox_len() == 1 && message.data() == bytes }
        None => false,
    }
}

/// Whether the change is put.
fn change_is_put(alloc: Global) -> Result<bool> {
    let mut peer = peer(alloc);
    let serial = tells_changed(alloc, &mut peer)?;
    Ok(is_one(&peer, serial, &CHANGED))
}

/// Whether it is put that an object is there.
fn addition_is_put(alloc: Global) -> Result<bool> {
    let mut peer = peer(alloc);
    let serial = tells_added(alloc, &mut peer)?;
    Ok(is_one(&peer, serial, &ADDED))
}

/// Whether the removal is put from there.
fn is_put_from(alloc: Global, emitter: &OwnedSignalEmitter) -> Result<bool> {
    let mut peer = peer(alloc);
    let serial = tells_removed(alloc, emitter, &mut peer)?;
    Ok(is_one(&peer, serial, &REMOVED))
}

/// Whether the removal is put from emitters with texts of their own.
fn removal_is_put(alloc: Global) -> Result<bool> {
    let lent = from_root()?;
    let copy = lent.to_owned(alloc)?;
    let moved = lent.into_owned(alloc)?;
    Ok(is_put_from(alloc, &copy)? && is_put_from(alloc, &moved)?)
}

#[test]
fn signals_are_put(rt: HostRuntime) {
    let alloc = rt.alloc();
    for answer in [
        change_is_put(alloc),
        addition_is_put(alloc),
        removal_is_put(alloc),
    ] {
        assert!(rt; matches!(&answer, Ok(true)));
    }
}
