//! A service's objects.
use std::test::Fail;

#[test]
fn an_interface_is_added(rt: HostRuntime) -> Result<(), Fail> {
    use peer_boxes::Greeter;
    use peer_objects::{Adding, ObjectServer};
    use wire_value::ObjectPath;
    let mut server = ObjectServer::new(rt.alloc())?;
    let path = ObjectPath::try_from("/org/zbus/MyGreeter")?;
    assert!(rt; matches!(&server.at(&path, Greeter::new()), Ok(Adding::Added(_))));
    assert!(rt; matches!(&server.at(&path, Greeter::new()), Ok(Adding::Exists(_))));
    Ok(())
}

#[test]
fn an_interface_is_found(rt: HostRuntime) -> Result<(), Fail> {
    use peer_boxes::Greeter;
    use peer_objects::ObjectServer;
    use wire_value::{InterfaceName, ObjectPath};
    let mut server = ObjectServer::new(rt.alloc())?;
    let path = ObjectPath::try_from("/org/zbus/MyGreeter")?;
    assert!(rt; server.at(&path, Greeter::new()).is_ok());
    let greeter = server.interface(&path, &InterfaceName::try_from("org.zbus.MyGreeter1")?)?;
    assert!(rt; greeter.path().as_str() == "/org/zbus/MyGreeter" && greeter.slot() == 0);
    Ok(())
}

#[test]
fn an_interface_is_removed(rt: HostRuntime) -> Result<(), Fail> {
    use peer_boxes::Greeter;
    use peer_objects::ObjectServer;
    use wire_value::{InterfaceName, ObjectPath};
    let mut server = ObjectServer::new(rt.alloc())?;
    let path = ObjectPath::try_from("/org/zbus/MyGreeter")?;
    let name = InterfaceName::try_from("org.zbus.MyGreeter1")?;
    assert!(rt; server.at(&path, Greeter::new()).is_ok());
    let (destroyed, _) = server.remove(&path, &name)?;
    assert!(rt; destroyed && server.interface(&path, &name).is_err());
    Ok(())
}

#[test]
fn a_call_is_dispatched(rt: HostRuntime) -> Result<(), Fail> {
    use peer_boxes::Greeter;
    use peer_objects::ObjectServer;
    use wire_message::{Message, NonePending, Serials};
    use wire_value::{MemberName, ObjectPath, Text};
    let mut server = ObjectServer::new(rt.alloc())?;
    let path = ObjectPath::try_from("/org/zbus/MyGreeter")?;
    assert!(rt; server.at(&path, Greeter::new()).is_ok());
    let call = Message::method_call(&path, &MemberName::try_from("SayHello")?);
    let name = (Text::from_str(rt.alloc(), "Maria")?,);
    let call = call.build_uncounted(rt.alloc(), &mut Serials::new(), &NonePending, &name)?;
    let answered = server.dispatch(&call, None)?;
    assert!(rt; answered.messages.len() == 1);
    Ok(())
}
