//! Bodies.
use std::test::Fail;

#[test]
fn arguments_are_a_body(rt: HostRuntime) -> Result<(), Fail> {
    use wire_value::{Text, to};
    let name = Text::from_str(rt.alloc(), "Maria")?;
    let body = to(rt.alloc(), (name, 7u32))?;
    assert!(rt; body.values().len() == 2);
    Ok(())
}

#[test]
fn arguments_are_read(rt: HostRuntime) -> Result<(), Fail> {
    use wire_message::{Message, NonePending, Serials};
    use wire_value::{MemberName, ObjectPath};
    let call = Message::method_call(&ObjectPath::try_from("/a")?, &MemberName::try_from("Add")?);
    let call = call.build_uncounted(rt.alloc(), &mut Serials::new(), &NonePending, &(2u32, 3u32))?;
    let sum = call.body().deserialize::<(u32, u32)>(rt.alloc())?;
    assert!(rt; sum == (2, 3));
    Ok(())
}

#[test]
fn values_are_read(rt: HostRuntime) -> Result<(), Fail> {
    use wire_message::{Message, NonePending, Serials};
    use wire_value::{MemberName, ObjectPath};
    let call = Message::method_call(&ObjectPath::try_from("/a")?, &MemberName::try_from("Add")?);
    let call = call.build_uncounted(rt.alloc(), &mut Serials::new(), &NonePending, &(2u32, 3u32))?;
    let body = call.body().values(rt.alloc())?;
    assert!(rt; body.values().len() == 2);
    Ok(())
}
