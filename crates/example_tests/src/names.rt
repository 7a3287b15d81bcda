//! Names, and signatures.
use std::test::Fail;

#[test]
fn names_are_read(rt: HostRuntime) -> Result<(), Fail> {
    use wire_value::ObjectPath;
    let path = ObjectPath::try_from("/org/example/Counter")?;
    assert!(rt; path.as_str() == "/org/example/Counter");
    assert!(rt; ObjectPath::try_from("org/example").is_err());
    Ok(())
}

#[test]
fn guids_are_read(rt: HostRuntime) -> Result<(), Fail> {
    use wire_value::Guid;
    let guid = Guid::try_from("0123456789ABCDEF0123456789abcdef")?;
    assert!(rt; guid.as_str() == "0123456789ABCDEF0123456789abcdef");
    assert!(rt; Guid::try_from("01234567-89AB-CDEF-0123-456789abcdef").is_err());
    Ok(())
}

#[test]
fn bus_names_are_read(rt: HostRuntime) -> Result<(), Fail> {
    use wire_value::BusName;
    assert!(rt; matches!(BusName::try_from(":1.42")?, BusName::Unique(_)));
    assert!(rt; matches!(BusName::try_from("org.example")?, BusName::WellKnown(_)));
    assert!(rt; BusName::try_from("example").is_err());
    Ok(())
}

#[test]
fn names_are_owned(rt: HostRuntime) -> Result<(), Fail> {
    use wire_value::OwnedMemberName;
    let member = OwnedMemberName::try_from(rt.alloc(), "Ping")?;
    assert!(rt; member.as_str() == "Ping");
    Ok(())
}

#[test]
fn signatures_are_read(rt: HostRuntime) -> Result<(), Fail> {
    use wire_value::Signature;
    let signature = Signature::try_from(rt.alloc(), "sa{sv}")?;
    assert!(rt; signature.types().len() == 2);
    Ok(())
}
