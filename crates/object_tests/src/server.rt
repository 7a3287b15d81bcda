//! A service's objects: interfaces that are added, meant, lent and removed.
use object_interface::Interface;
use peer_boxes::Greeter;
use peer_objects::{Adding, InterfaceRef, ObjectServer};
use std::alloc::Global;
use wire_message::{Error, Result};
use wire_value::{InterfaceName, ObjectPath};

/// The name of the greeter.
const GREETER: &str = "org.zbus.MyGreeter1";

/// Whether a greeter is added at a path.
fn adds(server: &mut ObjectServer<Greeter>, path: &str) -> Result<bool> {
    let path = ObjectPath::try_from(path)?;
    match server.at(&path, Greeter::new()) {
        Ok(Adding::Added(_)) => Ok(true),
        Ok(Adding::Exists(_)) => Ok(false),
        Err(_) => Err(Error::Memory),
    }
}

/// The greeter at a path.
fn greeter_at(server: &ObjectServer<Greeter>, path: &str) -> Result<InterfaceRef> {
    let path = ObjectPath::try_from(path)?;
    let name = InterfaceName::try_from(GREETER)?;
    server.interface(&path, &name)
}

/// Whether the greeter at a path is removed, and its object goes with it.
fn removes(server: &mut ObjectServer<Greeter>, path: &str) -> Result<bool> {
    let path = ObjectPath::try_from(path)?;
    let name = InterfaceName::try_from(GREETER)?;
    let (destroyed, _) = server.remove(&path, &name)?;
    Ok(destroyed)
}

/// Whether there is nothing of that name.
fn is_missing<T>(answer: &Result<T>) -> bool {
    matches!(answer, Err(Error::InterfaceNotFound))
}

/// Whether what is meant is lent.
fn is_lent(server: &ObjectServer<Greeter>, reference: &InterfaceRef) -> Result<bool> {
    let lent = reference.get(server)?;
    Ok(lent.object().name().as_str() == GREETER)
}

/// Whether what is meant isn't there any more.
fn is_gone(server: &ObjectServer<Greeter>, reference: &InterfaceRef) -> bool {
    match server.get(reference) {
        Ok(_) => false,
        Err(error) => matches!(&error, Error::InterfaceNotFound),
    }
}

/// Whether a greeter is added once, found in its slot and lent, and then removed with its object.
fn comes_and_goes(server: &mut ObjectServer<Greeter>) -> Result<InterfaceRef> {
    let added = adds(server, "/a")? && !adds(server, "/a")?;
    let first = greeter_at(server, "/a")?;
    let there = first.slot() == 0 && is_lent(server, &first)?;
    if added && there && removes(server, "/a")? {
        Ok(first)
    } else {
        Err(Error::InterfaceNotFound)
    }
}

/// Whether a reference to a greeter that was removed doesn't mean the one that came after it.
fn means_one(alloc: Global) -> Result<bool> {
    let mut server = ObjectServer::new(alloc)?;
    let first = comes_and_goes(&mut server)?;
    let gone = is_gone(&server, &first) && is_missing(&greeter_at(&server, "/a"));
    let again = adds(&mut server, "/a")?;
    let second = greeter_at(&server, "/a")?;
    Ok(
        gone && again
            && second.slot() == 1
            && is_lent(&server, &second)?
            && is_gone(&server, &first),
    )
}

#[test]
fn a_reference_means_one_interface(rt: HostRuntime) {
    assert!(rt; matches!(&means_one(rt.alloc()), Ok(true)));
}
