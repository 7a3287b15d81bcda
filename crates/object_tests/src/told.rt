//! What a service tells of its objects, asked without a call.
use object_interface::Interface;
use object_standard::ManagedObject;
use peer_boxes::{Greeter, Level, Named};
use peer_objects::{Adding, ObjectServer};
use std::alloc::Global;
use wire_message::{Error, Result};
use wire_value::{InterfaceName, ObjectPath, Text, Tree, Value};

/// The text of introspection of an object with a greeter.
const GREETER: &str =
    "\n<!DOCTYPE node PUBLIC \"-//freedesktop//DTD D-BUS Object Introspection 1.0//EN\"\n \"http://www.freedesktop.org/standards/dbus/1.0/introspect.dtd\">\n<node>\n  <interface name=\"org.freedesktop.DBus.Introspectable\">\n    <method name=\"Introspect\">\n      <arg name=\"xml_data\" type=\"s\" direction=\"out\"/>\n    </method>\n  </interface>\n  <interface name=\"org.freedesktop.DBus.Peer\">\n    <method name=\"Ping\">\n    </method>\n    <method name=\"GetMachineId\">\n      <arg name=\"machine_uuid\" type=\"s\" direction=\"out\"/>\n    </method>\n  </interface>\n  <interface name=\"org.freedesktop.DBus.Properties\">\n    <method name=\"Get\">\n      <arg name=\"interface_name\" type=\"s\" direction=\"in\"/>\n      <arg name=\"property_name\" type=\"s\" direction=\"in\"/>\n      <arg name=\"value\" type=\"v\" direction=\"out\"/>\n    </method>\n    <method name=\"Set\">\n      <arg name=\"interface_name\" type=\"s\" direction=\"in\"/>\n      <arg name=\"property_name\" type=\"s\" direction=\"in\"/>\n      <arg name=\"value\" type=\"v\" direction=\"in\"/>\n    </method>\n    <method name=\"GetAll\">\n      <arg name=\"interface_name\" type=\"s\" direction=\"in\"/>\n      <arg name=\"props\" type=\"a{sv}\" direction=\"out\"/>\n    </method>\n    <signal name=\"PropertiesChanged\">\n      <arg name=\"interface_name\" type=\"s\"/>\n      <arg name=\"changed_properties\" type=\"a{sv}\"/>\n      <arg name=\"invalidated_properties\" type=\"as\"/>\n    </signal>\n  </interface>\n  <interface name=\"org.zbus.MyGreeter1\">\n    <method name=\"SayHello\">\n      <arg name=\"name\" type=\"s\" direction=\"in\"/>\n      <arg type=\"s\" direction=\"out\"/>\n    </method>\n  </interface>\n</node>\n";

/// Adds an interface at a path.
fn add<B: Interface>(objects: &mut ObjectServer<B>, path: &str, object: B) -> Result<()> {
    let path = ObjectPath::try_from(path)?;
    match objects.at(&path, object) {
        Ok(Adding::Added(_)) => Ok(()),
        Ok(Adding::Exists(_)) => Err(Error::UnknownHandle),
        Err(_) => Err(Error::Memory),
    }
}

/// A manager at `/`, and below it a greeter and a level.
fn objects<B: Interface>(
    alloc: Global,
    manager: B,
    greeter: B,
    level: B,
) -> Result<ObjectServer<B>> {
    let mut objects = ObjectServer::new(alloc)?;
    add(&mut objects, "/", manager)?;
    add(&mut objects, "/a", greeter)?;
    add(&mut objects, "/b", level)?;
    Ok(objects)
}

/// Whether the greeter's object is told in that text.
fn is_introspected<B: Interface>(objects: &ObjectServer<B>) -> Result<bool> {
    let text = objects.introspect(&ObjectPath::try_from("/a")?)?;
    Ok(text.as_str() == GREETER)
}

/// Whether these are the level's one property, and it is 0.
fn are_level(properties: &[(Text, Value)]) -> bool {
    match properties {
        [(name, value)] => {
            name.as_str() == "Value" && matches!(value.tree(), Tree::U32(level) if *level == 0)
        }
        _ => false,
    }
}

/// Whether it is that object, with that one interface, and the level's properties, or none.
fn is_managed(object: &ManagedObject, path: &str, interface: &str, level: bool) -> bool {
    match object.interfaces.as_slice() {
        [only] => {
            let properties = only.properties.as_slice();
            object.path.as_str() == path
                && only.name.as_str() == interface
                && (if level {
                    are_level(properties)
                } else {
                    properties.is_empty()
                })
        }
        _ => false,
    }
}

/// Whether the manager's objects are told.
fn are_managed<B: Interface>(objects: &ObjectServer<B>) -> Result<bool> {
    let told = objects.managed_objects(&ObjectPath::try_from("/")?)?;
    Ok(match told.as_slice() {
        [first, second] => {
            is_managed(first, "/a", "org.zbus.MyGreeter1", false)
                && is_managed(second, "/b", "org.zbus.Level", true)
        }
        _ => false,
    })
}

/// Whether signals of the level's object come from its path, for whoever listens.
fn emits_from_its_path<B: Interface>(objects: &ObjectServer<B>) -> Result<bool> {
    let path = ObjectPath::try_from("/b")?;
    let level = objects.interface(&path, &InterfaceName::try_from("org.zbus.Level")?)?;
    let emitter = level.signal_emitter();
    Ok(emitter.path().as_str() == "/b" && emitter.destination().is_none())
}

/// Whether all of that is told.
fn tells<B: Interface>(objects: &ObjectServer<B>) -> Result<bool> {
    Ok(is_introspected(objects)? && are_managed(objects)? && emits_from_its_path(objects)?)
}

/// Whether it is told of a manager, a greeter and a level.
fn tells_of<B: Interface>(alloc: Global, manager: B, greeter: B, level: B) -> Result<bool> {
    let objects = objects(alloc, manager, greeter, level)?;
    tells(&objects)
}

/// Whether it is told of the program's boxes.
fn tells_of_boxes(alloc: Global) -> Result<bool> {
    let manager: Box<dyn Interface> = Box::new(alloc, Named::manager(alloc)?)?;
    let greeter: Box<dyn Interface> = Box::new(alloc, Greeter::new())?;
    let level: Box<dyn Interface> = Box::new(alloc, Level::new())?;
    tells_of(alloc, manager, greeter, level)
}

#[test]
fn objects_are_told(rt: HostRuntime) {
    assert!(rt; matches!(&tells_of_boxes(rt.alloc()), Ok(true)));
}
