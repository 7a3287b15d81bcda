//! Messages.
use std::test::Fail;

#[test]
fn calls_are_built(rt: HostRuntime) -> Result<(), Fail> {
    use wire_message::{Message, MessageType, NonePending, Serials};
    use wire_value::{MemberName, ObjectPath};
    let call = Message::method_call(&ObjectPath::try_from("/a")?, &MemberName::try_from("Ping")?);
    let call = call.build_empty_uncounted(rt.alloc(), &mut Serials::new(), &NonePending)?;
    assert!(rt; call.message_type() == MessageType::MethodCall && call.serial_num() == 1);
    Ok(())
}

#[test]
fn signals_are_built(rt: HostRuntime) -> Result<(), Fail> {
    use wire_message::{Message, NonePending, Serials};
    use wire_value::{InterfaceName, MemberName, ObjectPath};
    let interface = InterfaceName::try_from("org.example.Counter")?;
    let member = MemberName::try_from("Rose")?;
    let signal = Message::signal(&ObjectPath::try_from("/a")?, &interface, &member);
    let signal = signal.build_uncounted(rt.alloc(), &mut Serials::new(), &NonePending, &(7u32,))?;
    assert!(rt; signal.body().data() == [7, 0, 0, 0].as_slice());
    Ok(())
}

#[test]
fn returns_are_built(rt: HostRuntime) -> Result<(), Fail> {
    use wire_message::{Message, NonePending, Serials};
    use wire_value::{MemberName, ObjectPath};
    let call = Message::method_call(&ObjectPath::try_from("/a")?, &MemberName::try_from("Ping")?);
    let call = call.build_empty_uncounted(rt.alloc(), &mut Serials::after(8), &NonePending)?;
    let reply = Message::method_return(&call.header());
    let reply = reply.build_empty_uncounted(rt.alloc(), &mut Serials::new(), &NonePending)?;
    assert!(rt; reply.serial_num() == 1 && reply.reply_serial() == Some(9));
    Ok(())
}

#[test]
fn errors_are_built(rt: HostRuntime) -> Result<(), Fail> {
    use wire_message::{Message, MessageType, NonePending, Serials};
    use wire_value::{ErrorName, MemberName, ObjectPath, Text};
    let call = Message::method_call(&ObjectPath::try_from("/a")?, &MemberName::try_from("Ping")?);
    let call = call.build_empty_uncounted(rt.alloc(), &mut Serials::new(), &NonePending)?;
    let error = Message::error(&call.header(), &ErrorName::try_from("org.example.Busy")?);
    let detail = (Text::from_str(rt.alloc(), "later")?,);
    let error = error.build_uncounted(rt.alloc(), &mut Serials::new(), &NonePending, &detail)?;
    assert!(rt; error.message_type() == MessageType::Error);
    Ok(())
}

#[test]
fn messages_are_read(rt: HostRuntime) -> Result<(), Fail> {
    use wire_message::{MessageType, message_of};
    let bytes = b"l\x02\0\x01\0\0\0\0\x02\0\0\0\x08\0\0\0\x05\x01u\0\x01\0\0\0";
    let message = message_of(rt.alloc(), bytes.to_vec(rt.alloc())?)?;
    assert!(rt; message.message_type() == MessageType::MethodReturn);
    assert!(rt; message.reply_serial() == Some(1));
    Ok(())
}

#[test]
fn fronts_are_taken(rt: HostRuntime) -> Result<(), Fail> {
    use wire_message::{MessageType, Received, take_front};
    let bytes = b"l\x02\0\x01\0\0\0\0\x02\0\0\0\x08\0\0\0\x05\x01u\0\x01\0\0\0";
    let mut read = bytes.to_vec(rt.alloc())?;
    let front = take_front(rt.alloc(), &mut read)?;
    assert!(rt; read.is_empty());
    assert!(rt;
        matches!(&front, Received::Message(it) if it.message_type() == MessageType::MethodReturn)
    );
    Ok(())
}

#[test]
fn headers_are_read(rt: HostRuntime) -> Result<(), Fail> {
    use wire_message::{Message, NonePending, Serials};
    use wire_value::{MemberName, ObjectPath};
    let call = Message::method_call(&ObjectPath::try_from("/a")?, &MemberName::try_from("Ping")?);
    let call = call.build_empty_uncounted(rt.alloc(), &mut Serials::new(), &NonePending)?;
    let member = call.header().member();
    assert!(rt; member.is_some_and(|member| member.as_str() == "Ping"));
    assert!(rt; call.header().interface().is_none());
    Ok(())
}
