//! Rules that are built.
use rule_match::{Builder, MatchRule};
use std::alloc::{AllocError, Global};
use std::test::Fail;
use wire_message::{MessageType, Result};
use wire_value::{
    OwnedBusName, OwnedInterfaceName, OwnedMemberName, OwnedObjectPath, OwnedUniqueName, Text,
};

/// Whether a rule is printed as this text.
fn is_printed(
    alloc: Global,
    rule: &MatchRule,
    text: &str,
) -> std::result::Result<bool, AllocError> {
    Ok(format!(in alloc; "{rule}")?.as_str() == text)
}

/// A builder with a type, and all names.
fn with_names(alloc: Global) -> Result<Builder> {
    let builder = MatchRule::builder(alloc)
        .msg_type(MessageType::Signal)
        .sender(OwnedBusName::try_from(alloc, ":1.2")?);
    let builder = builder.interface(OwnedInterfaceName::try_from(alloc, "a.b")?);
    let builder = builder.member(OwnedMemberName::try_from(alloc, "M")?);
    Ok(builder.destination(OwnedUniqueName::try_from(alloc, ":1.3")?))
}

/// A path, and a namespace in its place.
fn put_places(alloc: Global, builder: Builder) -> Result<Builder> {
    let builder = builder.path(OwnedObjectPath::try_from(alloc, "/a")?);
    Ok(builder.path_namespace(OwnedObjectPath::try_from(alloc, "/b")?))
}

/// The texts of arguments 2 and 3, and the namespace of the first.
fn put_texts(alloc: Global, builder: Builder) -> Result<Builder> {
    let builder = builder.arg(2, Text::from_str(alloc, "a")?)?;
    let builder = builder.add_arg(Text::from_str(alloc, "b")?)?;
    builder.arg0ns(Text::from_str(alloc, "org")?)
}

/// The argument paths of arguments 0 and 7, of which the first is no object path.
fn put_paths(alloc: Global, builder: Builder) -> Result<Builder> {
    let builder = builder.add_arg_path(Text::from_str(alloc, "/c/")?)?;
    builder.arg_path(7, Text::from_str(alloc, "/d")?)
}

/// A rule that each call of a builder has set a part of.
fn built(alloc: Global) -> Result<MatchRule> {
    let builder = put_places(alloc, with_names(alloc)?)?;
    let builder = put_texts(alloc, builder)?;
    Ok(put_paths(alloc, builder)?.build())
}

#[test]
fn rules_are_built(rt: HostRuntime) -> std::result::Result<(), Fail> {
    let rule = built(rt.alloc())?;
    assert!(rt;
        is_printed(
            rt.alloc(),
            &rule,
            "type='signal',sender=':1.2',interface='a.b',member='M',destination=':1.3',path_namespace='/b',arg2='a',arg3='b',arg0path='/c/',arg7path='/d',arg0namespace='org'"
        )?
    );
    Ok(())
}

/// The rule of the bus's own signal that a name is lost.
fn of_the_bus(alloc: Global) -> Result<MatchRule> {
    let member = OwnedMemberName::try_from(alloc, "NameLost")?;
    Ok(MatchRule::fdo_signal_builder(alloc, member)?.build())
}

#[test]
fn bus_signals_are_built(rt: HostRuntime) -> std::result::Result<(), Fail> {
    let rule = of_the_bus(rt.alloc())?;
    assert!(rt;
        is_printed(
            rt.alloc(),
            &rule,
            "type='signal',sender='org.freedesktop.DBus',interface='org.freedesktop.DBus',member='NameLost'"
        )?
    );
    Ok(())
}
