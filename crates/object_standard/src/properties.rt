//! `org.freedesktop.DBus.Properties` (D-Bus Specification, "Standard Interfaces", "org.freedesktop.DBus.Properties").
#![tactic(auto, unfolding(wire_names::specs::Names::is_member_name, wire_names::specs::Names::is_element))]

ghost use Rattle.std.specs.Prelude.{◌≡◌, [], ◌∷◌, IfOk, MatchOption};
ghost use Rattle.wire_names.specs.Names.{IsInterfaceName};
ghost use Rattle.wire_tree.specs.Datum.{text, string, variant};
ghost use Rattle.object_standard.specs.Properties as properties;
ghost use Rattle.object_standard.specs.Properties.{NamesInterface, NamesNone, of_interface, of_property, of_setting, sorted, properties_value, changed_values, changed_signal, unknown_property, answer_of_get, answer_of_set};

use object_interface::{
    DescribedArgument, DescribedMethod, DescribedSignal, Description, DispatchResult2, Items,
    Properties, Signal, basic_type, body_of, read_arguments, unknown,
};
use object_tree::StandardInterface;
use std::alloc::{AllocError, Global};
use std::collections::BTreeMap;
use wire_message::Message;
use wire_message::fdo::{self, Kind};
use wire_value::{
    Array, BasicType, BodyValues, Dict, InterfaceName, MemberName, OwnedInterfaceName, Text,
    TypeNode, Value, ValueType,
};

// ---- arguments

/// A text as the name of an interface, if it is one. It fails only if memory ran out.
fn named(alloc: Global, text: &str) -> Result<Option<OwnedInterfaceName>, AllocError>
    ensures { IfOk result (λ name. MatchOption name (¬ IsInterfaceName text.now) (λ n. (n ≡ text.now) × IsInterfaceName text.now)) }
{
    match InterfaceName::try_from(text) {
        Ok(name) => Ok(Some(name.to_owned(alloc)?)),
        Err(_) => Ok(None),
    }
}

/// Reads the argument of `GetAll`, if that is the one argument of the message: the name of an interface.
///
/// # Errors
///
/// AllocError if out of memory.
pub fn interface_argument(
    alloc: Global,
    message: &Message,
) -> Result<Option<OwnedInterfaceName>, AllocError>
    ensures { IfOk result (λ a. MatchOption a (NamesNone message.now of_interface) (λ i. NamesInterface message.now of_interface i [])) }
{
    let Some((interface,)) = read_arguments::<(Text,)>(alloc, message)? else {
        return Ok(None);
    };
    named(alloc, interface.as_str())
}

/// Reads the arguments of `Get`, if those are the message's: the names of an interface and of a property.
///
/// # Errors
///
/// AllocError if out of memory.
pub fn property_arguments(
    alloc: Global,
    message: &Message,
) -> Result<Option<(OwnedInterfaceName, Text)>, AllocError>
    ensures { IfOk result (λ a. MatchOption a (NamesNone message.now of_property) (λ p. NamesInterface message.now of_property p.0 (text string p.1 ∷ []))) }
{
    let Some((interface, property)) = read_arguments::<(Text, Text)>(alloc, message)? else {
        return Ok(None);
    };
    match named(alloc, interface.as_str())? {
        Some(interface) => Ok(Some((interface, property))),
        None => Ok(None),
    }
}

/// Reads the arguments of `Set`, if those are the message's: the names of an interface and of a property, and the value that it
/// is set to.
///
/// # Errors
///
/// AllocError if out of memory.
pub fn setting_arguments(
    alloc: Global,
    message: &Message,
) -> Result<Option<(OwnedInterfaceName, Text, Value)>, AllocError>
    ensures { IfOk result (λ a. MatchOption a (NamesNone message.now of_setting) (λ p. NamesInterface message.now of_setting p.0 (text string p.1 ∷ variant p.2 ∷ []))) }
{
    let Some((interface, property, value)) = read_arguments::<(Text, Text, Value)>(alloc, message)?
    else {
        return Ok(None);
    };
    match named(alloc, interface.as_str())? {
        Some(interface) => Ok(Some((interface, property, value))),
        None => Ok(None),
    }
}

// ---- answers

/// Properties as an argument, ascending by the bytes of their names.
pub(crate) type PropertyDict = Dict<Text, Value>;

/// The properties ascending by the bytes of their names; of two of one name the later one. It fails only if memory ran out.
pub(crate) fn sorted(alloc: Global, properties: Properties) -> Result<PropertyDict, AllocError>
    ensures { IfOk result (λ d. d ≡ sorted properties) }
{
    let mut by_name = BTreeMap::new(alloc);
    for (name, value) in properties.into_vec() {
        by_name.insert(name, value)?;
    }
    Ok(Dict::from_vec(by_name.into_iter().collect(alloc)?))
}

/// Makes the body that is properties, each with its value: what `GetAll` gives.
///
/// # Errors
///
/// AllocError if out of memory, and where a property's name is none that a message may hold: it has a 0 byte, or more than
/// 4,294,967,295 bytes.
pub fn properties_body(alloc: Global, properties: Properties) -> Result<BodyValues, AllocError>
    ensures { IfOk result (λ b. b ≡ properties_value properties ∷ []) }
{
    body_of(alloc, (sorted(alloc, properties)?,))
}

/// The answer that there is no such property.
///
/// # Errors
///
/// AllocError if out of memory.
pub fn unknown_property(alloc: Global, name: &str) -> Result<DispatchResult2, AllocError>
    ensures { IfOk result (λ a. a ≡ unknown_property name.now) }
{
    let error = unknown(alloc, Kind::UnknownProperty, "property", name)?;
    Ok(DispatchResult2::alone(alloc, Err(error)))
}

/// The answer to a property's value.
///
/// # Errors
///
/// AllocError if out of memory.
pub fn answer_of_get(
    alloc: Global,
    property: &str,
    got: Option<fdo::Result<Value>>,
) -> Result<DispatchResult2, AllocError>
    ensures { IfOk result (λ a. a ≡ answer_of_get property.now got) }
{
    match got {
        None => unknown_property(alloc, property),
        Some(Ok(value)) => Ok(DispatchResult2::alone(alloc, Ok(body_of(alloc, (value,))?))),
        Some(Err(error)) => Ok(DispatchResult2::alone(alloc, Err(error))),
    }
}

/// The answer to what an interface says of its property being set.
///
/// # Errors
///
/// AllocError if out of memory, which is taken only where the interface did nothing.
pub fn answer_of_set(
    alloc: Global,
    property: &str,
    said: DispatchResult2,
) -> Result<DispatchResult2, AllocError>
    ensures { IfOk result (λ a. a ≡ answer_of_set property.now said) }
{
    if let DispatchResult2::Done(_) = &said {
        return Ok(said);
    }
    unknown_property(alloc, property)
}

// ---- PropertiesChanged

/// Makes the body of PropertiesChanged: an interface's name, its properties that have new values, and the names of those whose
/// values aren't told.
///
/// # Errors
///
/// AllocError if out of memory, and where the name of a property, of either kind, is none that a message may hold: it has a 0
/// byte, or more than 4,294,967,295 bytes.
pub fn changed_body(
    alloc: Global,
    interface: &InterfaceName<'_>,
    changed: Properties,
    invalidated: Vec<Text>,
) -> Result<BodyValues, AllocError>
    ensures { IfOk result (λ b. b ≡ changed_values interface.now changed invalidated.items) }
{
    let changed = sorted(alloc, changed)?;
    let name = Text::from_str(alloc, interface.as_str())?;
    body_of(alloc, (name, changed, Array::from_vec(invalidated)))
}

/// Makes the signal PropertiesChanged, which an interface puts into its answer.
///
/// # Errors
///
/// Those of [`changed_body`].
pub fn changed(
    alloc: Global,
    interface: &InterfaceName<'_>,
    changed: Properties,
    invalidated: Vec<Text>,
) -> Result<Signal, AllocError>
    ensures { IfOk result (λ s. s ≡ changed_signal interface.now changed invalidated.items) }
{
    let body = changed_body(alloc, interface, changed, invalidated)?;
    Ok(Signal {
        interface: StandardInterface::Properties.name().to_owned(alloc)?,
        member: MemberName::from_static_str("PropertiesChanged").to_owned(alloc)?,
        destination: None,
        body,
    })
}

// ---- what introspection tells of the interface

/// The type of names: `as`.
pub(crate) fn names_type(alloc: Global) -> Result<ValueType, AllocError>
    ensures { IfOk result (λ ty. ty ≡ properties.names_type) }
{
    let element = Box::new(alloc, basic_type(BasicType::String))?;
    Ok(ValueType::from_node(TypeNode::Array(element)))
}

/// The type of properties with their values: `a{sv}`.
pub(crate) fn properties_type(alloc: Global) -> Result<ValueType, AllocError>
    ensures { IfOk result (λ ty. ty ≡ properties.properties_type) }
{
    let value = Box::new(alloc, ValueType::from_node(TypeNode::Variant))?;
    Ok(ValueType::from_node(TypeNode::Dict(BasicType::String, value)))
}

/// The argument that is an interface's name.
fn interface_name(alloc: Global) -> Result<DescribedArgument, AllocError>
    ensures { IfOk result (λ a. a ≡ properties.interface_name) }
{
    DescribedArgument::new(alloc, "interface_name", basic_type(BasicType::String))
}

/// The arguments that name a property: its interface's name, and its own.
fn property_names(alloc: Global) -> Result<Items<DescribedArgument>, AllocError>
    ensures { IfOk result (λ items. items ≡ properties.interface_name ∷ properties.property_name ∷ []) }
{
    let mut names = Items::one(alloc, interface_name(alloc)?)?;
    let ty = basic_type(BasicType::String);
    names.push(DescribedArgument::new(alloc, "property_name", ty)?)?;
    Ok(names)
}

/// The argument that is a property's value.
fn property_value(alloc: Global) -> Result<DescribedArgument, AllocError>
    ensures { IfOk result (λ a. a ≡ properties.property_value) }
{
    DescribedArgument::new(alloc, "value", ValueType::from_node(TypeNode::Variant))
}

/// Describes `Get`.
fn get(alloc: Global) -> Result<DescribedMethod, AllocError>
    ensures { IfOk result (λ m. m ≡ properties.get) }
{
    let inputs = property_names(alloc)?;
    let outputs = Items::one(alloc, property_value(alloc)?)?;
    DescribedMethod::new(alloc, "Get", inputs, outputs)
}

/// Describes `Set`.
fn set(alloc: Global) -> Result<DescribedMethod, AllocError>
    ensures { IfOk result (λ m. m ≡ properties.set) }
{
    let mut inputs = property_names(alloc)?;
    inputs.push(property_value(alloc)?)?;
    DescribedMethod::new(alloc, "Set", inputs, Items::new(alloc))
}

/// Describes `GetAll`.
fn get_all(alloc: Global) -> Result<DescribedMethod, AllocError>
    ensures { IfOk result (λ m. m ≡ properties.get_all) }
{
    let inputs = Items::one(alloc, interface_name(alloc)?)?;
    let output = DescribedArgument::new(alloc, "props", properties_type(alloc)?)?;
    DescribedMethod::new(alloc, "GetAll", inputs, Items::one(alloc, output)?)
}

/// Describes PropertiesChanged.
fn properties_changed(alloc: Global) -> Result<DescribedSignal, AllocError>
    ensures { IfOk result (λ s. s ≡ properties.properties_changed) }
{
    let changed = DescribedArgument::new(alloc, "changed_properties", properties_type(alloc)?)?;
    let names = DescribedArgument::new(alloc, "invalidated_properties", names_type(alloc)?)?;
    let mut arguments = Items::one(alloc, interface_name(alloc)?)?;
    arguments.push(changed)?;
    arguments.push(names)?;
    DescribedSignal::new(alloc, "PropertiesChanged", arguments)
}

/// Describes the interface. It fails only if memory ran out.
#[tactic(auto, unfolding(crate::specs::Properties::properties_description))]
pub(crate) fn properties_description(alloc: Global) -> Result<Description, AllocError>
    ensures { IfOk result (λ d. d ≡ properties.properties_description) }
{
    let mut methods = Items::one(alloc, get(alloc)?)?;
    methods.push(set(alloc)?)?;
    methods.push(get_all(alloc)?)?;
    Ok(Description {
        methods,
        signals: Items::one(alloc, properties_changed(alloc)?)?,
        properties: Items::new(alloc),
    })
}
