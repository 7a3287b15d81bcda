//! The text of introspection of an interface that has each kind of member, worked by hand.
use object_interface::{
    Access, DescribedArgument, DescribedInterface, DescribedMethod, DescribedProperty,
    DescribedSignal, Description, Items,
};
use object_standard::standing;
use object_text::{DescribedObject, introspection};
use std::alloc::Global;
use wire_message::Result;
use wire_value::{InterfaceName, ObjectPath, OwnedMemberName, ValueType};

/// What stands behind the interfaces that each object has.
const OWN: &str =
    "  <interface name=\"x.y.Every\">\n    <method name=\"Do\">\n      <arg name=\"first\" type=\"s\" direction=\"in\"/>\n      <arg type=\"u\" direction=\"in\"/>\n      <arg name=\"told\" type=\"a{sv}\" direction=\"out\"/>\n      <arg type=\"x\" direction=\"out\"/>\n    </method>\n    <method name=\"Rest\">\n    </method>\n    <signal name=\"Gone\">\n      <arg name=\"name\" type=\"o\"/>\n      <arg type=\"ay\"/>\n    </signal>\n    <property name=\"Seen\" type=\"(ib)\" access=\"read\"/>\n    <property name=\"Left\" type=\"as\" access=\"write\"/>\n    <property name=\"Both\" type=\"v\" access=\"readwrite\"/>\n  </interface>\n</node>\n";

/// An argument of that name, or of none.
fn argument(alloc: Global, name: Option<&str>, ty: &str) -> Result<DescribedArgument> {
    let ty = ValueType::try_from(alloc, ty)?;
    let name = match name {
        Some(name) => Some(OwnedMemberName::try_from(alloc, name)?),
        None => None,
    };
    Ok(DescribedArgument { name, ty })
}

/// An argument that has a name, and one that has none.
fn two(alloc: Global, name: &str, ty: &str, other: &str) -> Result<Items<DescribedArgument>> {
    let mut list = Items::new(alloc);
    list.push(argument(alloc, Some(name), ty)?)?;
    list.push(argument(alloc, None, other)?)?;
    Ok(list)
}

/// A method with arguments, and one without.
fn methods(alloc: Global) -> Result<Items<DescribedMethod>> {
    let mut list = Items::new(alloc);
    list.push(DescribedMethod {
        name: OwnedMemberName::try_from(alloc, "Do")?,
        inputs: two(alloc, "first", "s", "u")?,
        outputs: two(alloc, "told", "a{sv}", "x")?,
    })?;
    list.push(DescribedMethod {
        name: OwnedMemberName::try_from(alloc, "Rest")?,
        inputs: Items::new(alloc),
        outputs: Items::new(alloc),
    })?;
    Ok(list)
}

/// A signal.
fn signals(alloc: Global) -> Result<Items<DescribedSignal>> {
    let mut list = Items::new(alloc);
    list.push(DescribedSignal {
        name: OwnedMemberName::try_from(alloc, "Gone")?,
        arguments: two(alloc, "name", "o", "ay")?,
    })?;
    Ok(list)
}

/// A property.
fn property(alloc: Global, name: &str, ty: &str, access: Access) -> Result<DescribedProperty> {
    let ty = ValueType::try_from(alloc, ty)?;
    let name = OwnedMemberName::try_from(alloc, name)?;
    Ok(DescribedProperty { name, ty, access })
}

/// A property of each access.
fn properties(alloc: Global) -> Result<Items<DescribedProperty>> {
    let mut list = Items::new(alloc);
    list.push(property(alloc, "Seen", "(ib)", Access::Read)?)?;
    list.push(property(alloc, "Left", "as", Access::Write)?)?;
    list.push(property(alloc, "Both", "v", Access::ReadWrite)?)?;
    Ok(list)
}

/// The interface.
fn described(alloc: Global) -> Result<DescribedInterface<'static>> {
    let name = InterfaceName::try_from("x.y.Every")?;
    let methods = methods(alloc)?;
    let signals = signals(alloc)?;
    let properties = properties(alloc)?;
    let description = Description {
        methods,
        signals,
        properties,
    };
    Ok(DescribedInterface { name, description })
}

/// An object with it.
fn object(alloc: Global) -> Result<DescribedObject<'static>> {
    let path = ObjectPath::try_from("/a")?;
    let mut interfaces = Items::new(alloc);
    interfaces.push(described(alloc)?)?;
    Ok(DescribedObject { path, interfaces })
}

/// Whether its text ends so.
fn is_told(alloc: Global) -> Result<bool> {
    let objects = [object(alloc)?];
    let text = introspection(alloc, standing(alloc)?.as_slice(), &objects)?;
    Ok(text.as_bytes().ends_with(OWN.as_bytes()))
}

#[test]
fn each_kind_of_member_is_told(rt: HostRuntime) {
    assert!(rt; matches!(&is_told(rt.alloc()), Ok(true)));
}
