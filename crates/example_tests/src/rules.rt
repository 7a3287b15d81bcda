//! Match rules.
use std::test::Fail;

#[test]
fn rules_are_read(rt: HostRuntime) -> Result<(), Fail> {
    use rule_match::MatchRule;
    use wire_message::MessageType;
    let rule = MatchRule::try_from(rt.alloc(), "type='signal',member='Rose'")?;
    assert!(rt; rule.msg_type() == Some(MessageType::Signal));
    Ok(())
}

#[test]
fn rules_are_built(rt: HostRuntime) -> Result<(), Fail> {
    use rule_match::MatchRule;
    use wire_message::MessageType;
    use wire_value::OwnedMemberName;
    let member = OwnedMemberName::try_from(rt.alloc(), "Rose")?;
    let rule = MatchRule::builder(rt.alloc())
        .msg_type(MessageType::Signal)
        .member(member)
        .build();
    assert!(rt; format!(in rt.alloc(); "{rule}")?.as_str() == "type='signal',member='Rose'");
    Ok(())
}

#[test]
fn messages_are_matched(rt: HostRuntime) -> Result<(), Fail> {
    use rule_match::MatchRule;
    use wire_message::{Message, NonePending, Serials};
    use wire_value::{MemberName, ObjectPath};
    let path = ObjectPath::try_from("/org/example")?;
    let call = Message::method_call(&path, &MemberName::try_from("Ping")?);
    let call = call.build_empty_uncounted(rt.alloc(), &mut Serials::new(), &NonePending)?;
    let rule = MatchRule::try_from(rt.alloc(), "path_namespace='/org'")?;
    assert!(rt; rule.matches(&call));
    Ok(())
}
