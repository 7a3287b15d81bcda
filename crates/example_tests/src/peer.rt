//! A peer's core.
use std::test::Fail;

#[test]
fn a_call_is_put(rt: HostRuntime) -> Result<(), Fail> {
    use peer_core::Route;
    use wire_message::{Message, OutgoingMessage};
    use wire_value::{MemberName, ObjectPath, to};
    let call = Message::method_call(&ObjectPath::try_from("/a")?, &MemberName::try_from("Ping")?);
    let mut list = Vec::new(rt.alloc());
    list.push(OutgoingMessage::new(call, to(rt.alloc(), ())?, Vec::new(rt.alloc())))?;
    let mut route = Route::new(rt.alloc());
    let issued = route.issue(list, false)?;
    assert!(rt; issued.as_slice().first().and_then(|issued| issued.call) == Some(0));
    assert!(rt;
        route
            .outbox(0)
            .is_some_and(|message| message.serial_num() == 1)
    );
    Ok(())
}

#[test]
fn a_call_is_polled(rt: HostRuntime) -> Result<(), Fail> {
    use peer_core::{Polled, Route};
    use wire_message::{Message, OutgoingMessage};
    use wire_value::{MemberName, ObjectPath, to};
    let call = Message::method_call(&ObjectPath::try_from("/a")?, &MemberName::try_from("Ping")?);
    let mut list = Vec::new(rt.alloc());
    list.push(OutgoingMessage::new(call, to(rt.alloc(), ())?, Vec::new(rt.alloc())))?;
    let mut route = Route::new(rt.alloc());
    assert!(rt; route.poll(0).is_err() && route.issue(list, false).is_ok());
    assert!(rt; matches!(&route.poll(0)?, Polled::NotYet));
    Ok(())
}

#[test]
fn a_stream_is_opened(rt: HostRuntime) -> Result<(), Fail> {
    use peer_core::{Polled, Route};
    let mut route = Route::new(rt.alloc());
    let stream = route.open()?;
    assert!(rt; matches!(&route.take(&stream)?, Polled::NotYet));
    Ok(())
}
