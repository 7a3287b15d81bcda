//! Messages that are sent and received.
use std::test::Fail;

#[test]
fn messages_are_sent(rt: HostRuntime) -> Result<(), Fail> {
    use wire_framing::{MemorySink, WriteHalf};
    use wire_message::{Message, NonePending, Serials};
    use wire_value::{MemberName, ObjectPath};
    let call = Message::method_call(&ObjectPath::try_from("/a")?, &MemberName::try_from("Ping")?);
    let call = call.build_empty_uncounted(rt.alloc(), &mut Serials::new(), &NonePending)?;
    let mut half = WriteHalf::new(MemorySink::new(rt.alloc(), false));
    half.send_message(&call)?;
    assert!(rt; half.into_sink().bytes() == call.data());
    Ok(())
}

#[test]
fn messages_are_received(rt: HostRuntime) -> Result<(), Fail> {
    use wire_framing::{ReadHalf, StdSource};
    use wire_message::Received;
    let bytes = b"l\x02\0\x01\0\0\0\0\x02\0\0\0\x08\0\0\0\x05\x01u\0\x01\0\0\0";
    let mut half = ReadHalf::new(StdSource::new(bytes.as_slice()));
    let received = half.receive_message(rt.alloc(), 1, &mut Vec::new(rt.alloc()))?;
    assert!(rt; matches!(&received, Received::Message(message) if message.recv_position() == 1));
    Ok(())
}
