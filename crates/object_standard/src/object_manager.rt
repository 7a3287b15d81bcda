//! `org.freedesktop.DBus.ObjectManager` (D-Bus Specification, "Standard Interfaces", "org.freedesktop.DBus.ObjectManager").
#![tactic(auto, unfolding(wire_names::specs::Names::is_member_name, wire_names::specs::Names::is_element))]

ghost use Rattle.std.specs.Prelude.{◌≡◌, [], ◌∷◌, IfOk, map};
ghost use Rattle.object_standard.specs.ObjectManager as manager;
ghost use Rattle.object_standard.specs.ObjectManager.{managed_value, added_values, removed_values};
ghost use Rattle.object_standard.specs.Properties.{sorted};
ghost use Rattle.object_standard.specs.declared.object_manager.ManagedInterface.{ManagedInterface};
ghost use Rattle.object_standard.specs.declared.object_manager.ManagedObject.{ManagedObject};

use crate::properties::{PropertyDict, names_type, properties_type, sorted};
use object_interface::{
    DescribedArgument, DescribedMethod, DescribedSignal, Description, Items, Properties,
    basic_type, body_of,
};
use std::alloc::{AllocError, Global};
use wire_value::{
    Array, BasicType, BodyValues, Dict, ObjectPath, OwnedInterfaceName, OwnedObjectPath, Text,
    TypeNode, ValueType,
};

/// An interface of a managed object, with its properties.
pub struct ManagedInterface {
    pub name: OwnedInterfaceName,
    pub properties: Properties,
}

impl Drop for ManagedInterface {
    fn drop(self) {
        let ManagedInterface {
            name: _,
            properties: _,
        } = self;
    }
}

impl ManagedInterface {
    /// Its parts: the name, and the properties.
    pub fn into_parts(self) -> (OwnedInterfaceName, Properties)
        ensures { result ≡ (self.name, self.properties) }
    {
        let ManagedInterface { name, properties } = self;
        (name, properties)
    }
}

/// A managed object, with its interfaces.
pub struct ManagedObject {
    pub path: OwnedObjectPath,
    pub interfaces: Items<ManagedInterface>,
}

impl Drop for ManagedObject {
    fn drop(self) {
        let ManagedObject {
            path: _,
            interfaces: _,
        } = self;
    }
}

impl ManagedObject {
    /// Its parts: the path, and the interfaces.
    pub fn into_parts(self) -> (OwnedObjectPath, Items<ManagedInterface>)
        ensures { result ≡ (self.path, self.interfaces) }
    {
        let ManagedObject { path, interfaces } = self;
        (path, interfaces)
    }
}

// ---- bodies

/// Interfaces as an argument, each with its properties.
type InterfaceDict = Dict<Text, PropertyDict>;

/// Objects as an argument, each with its interfaces.
type ObjectDict = Dict<OwnedObjectPath, InterfaceDict>;

/// The name of an interface, and its properties.
fn told_interface(
    alloc: Global,
    interface: ManagedInterface,
) -> Result<(Text, PropertyDict), AllocError>
    ensures { IfOk result (λ e. e ≡ (interface.name, sorted interface.properties)) }
{
    let (name, properties) = interface.into_parts();
    let properties = sorted(alloc, properties)?;
    Ok((name.into_text(), properties))
}

/// Interfaces in their order, each with its properties.
fn told_interfaces(
    alloc: Global,
    interfaces: Items<ManagedInterface>,
) -> Result<InterfaceDict, AllocError>
    ensures { IfOk result (λ d. d ≡ map (λ (i : ManagedInterface). (i.name, sorted i.properties)) interfaces) }
{
    let interfaces = interfaces.into_vec();
    let mut told = Vec::with_capacity(alloc, interfaces.len())?;
    for interface in interfaces {
        told.push(told_interface(alloc, interface)?)?;
    }
    Ok(Dict::from_vec(told))
}

/// The path of an object, and its interfaces.
fn told_object(
    alloc: Global,
    object: ManagedObject,
) -> Result<(OwnedObjectPath, InterfaceDict), AllocError>
    ensures { IfOk result (λ e. e ≡ (object.path, map (λ (i : ManagedInterface). (i.name, sorted i.properties)) object.interfaces)) }
{
    let (path, interfaces) = object.into_parts();
    Ok((path, told_interfaces(alloc, interfaces)?))
}

/// Objects in their order, each with its interfaces.
fn told_objects(alloc: Global, objects: Vec<ManagedObject>) -> Result<ObjectDict, AllocError>
    ensures { IfOk result (λ d. d ≡ map (λ (o : ManagedObject). (o.path, map (λ (i : ManagedInterface). (i.name, sorted i.properties)) o.interfaces)) objects.items) }
{
    let mut told = Vec::with_capacity(alloc, objects.len())?;
    for object in objects {
        told.push(told_object(alloc, object)?)?;
    }
    Ok(Dict::from_vec(told))
}

/// Makes the body that is objects with their interfaces, and these with their properties: what `GetManagedObjects` gives.
///
/// # Errors
///
/// AllocError if out of memory, and where a property's name has a 0 byte, or it or a path has more than 4,294,967,295 bytes, so
/// that no message may hold it.
pub fn managed_body(alloc: Global, objects: Vec<ManagedObject>) -> Result<BodyValues, AllocError>
    ensures { IfOk result (λ b. b ≡ managed_value objects.items ∷ []) }
{
    body_of(alloc, (told_objects(alloc, objects)?,))
}

/// Makes the body of InterfacesAdded: an object's path, and interfaces that were added there with their properties.
///
/// # Errors
///
/// AllocError if out of memory, and where a property's name has a 0 byte, or it or the path has more than 4,294,967,295 bytes,
/// so that no message may hold it.
pub fn added_body(alloc: Global, object: ManagedObject) -> Result<BodyValues, AllocError>
    ensures { IfOk result (λ b. b ≡ added_values object) }
{
    let told = told_object(alloc, object)?;
    body_of(alloc, told)
}

/// Names of interfaces as texts.
fn texts(alloc: Global, names: Vec<OwnedInterfaceName>) -> Result<Vec<Text>, AllocError>
    ensures { IfOk result (λ texts. texts.items ≡ names.items) }
{
    let mut texts = Vec::with_capacity(alloc, names.len())?;
    for name in names {
        texts.push(name.into_text())?;
    }
    Ok(texts)
}

/// Makes the body of InterfacesRemoved: an object's path, and the names of interfaces that were removed there.
///
/// # Errors
///
/// AllocError if out of memory, and where the path has more than 4,294,967,295 bytes, so that no message may hold it.
pub fn removed_body(
    alloc: Global,
    path: &ObjectPath<'_>,
    names: Vec<OwnedInterfaceName>,
) -> Result<BodyValues, AllocError>
    ensures { IfOk result (λ b. b ≡ removed_values path.now names.items) }
{
    let names = Array::from_vec(texts(alloc, names)?);
    body_of(alloc, (path.to_owned(alloc)?, names))
}

// ---- what introspection tells of the interface

/// The type of interfaces with their properties: `a{sa{sv}}`.
fn interfaces_type(alloc: Global) -> Result<ValueType, AllocError>
    ensures { IfOk result (λ ty. ty ≡ manager.interfaces_type) }
{
    let value = Box::new(alloc, properties_type(alloc)?)?;
    Ok(ValueType::from_node(TypeNode::Dict(BasicType::String, value)))
}

/// The type of objects with their interfaces: `a{oa{sa{sv}}}`.
fn objects_type(alloc: Global) -> Result<ValueType, AllocError>
    ensures { IfOk result (λ ty. ty ≡ manager.objects_type) }
{
    let value = Box::new(alloc, interfaces_type(alloc)?)?;
    Ok(ValueType::from_node(TypeNode::Dict(BasicType::ObjectPath, value)))
}

/// The argument that is an object's path.
fn path_argument(alloc: Global) -> Result<DescribedArgument, AllocError>
    ensures { IfOk result (λ a. a ≡ manager.path_argument) }
{
    DescribedArgument::new(alloc, "object_path", basic_type(BasicType::ObjectPath))
}

/// Describes `GetManagedObjects`.
fn get_managed_objects(alloc: Global) -> Result<DescribedMethod, AllocError>
    ensures { IfOk result (λ m. m ≡ manager.get_managed_objects) }
{
    let ty = objects_type(alloc)?;
    let output = DescribedArgument::new(alloc, "objpath_interfaces_and_properties", ty)?;
    let outputs = Items::one(alloc, output)?;
    DescribedMethod::new(alloc, "GetManagedObjects", Items::new(alloc), outputs)
}

/// Describes InterfacesAdded.
fn interfaces_added(alloc: Global) -> Result<DescribedSignal, AllocError>
    ensures { IfOk result (λ s. s ≡ manager.interfaces_added) }
{
    let ty = interfaces_type(alloc)?;
    let mut arguments = Items::one(alloc, path_argument(alloc)?)?;
    arguments.push(DescribedArgument::new(alloc, "interfaces_and_properties", ty)?)?;
    DescribedSignal::new(alloc, "InterfacesAdded", arguments)
}

/// Describes InterfacesRemoved.
fn interfaces_removed(alloc: Global) -> Result<DescribedSignal, AllocError>
    ensures { IfOk result (λ s. s ≡ manager.interfaces_removed) }
{
    let ty = names_type(alloc)?;
    let mut arguments = Items::one(alloc, path_argument(alloc)?)?;
    arguments.push(DescribedArgument::new(alloc, "interfaces", ty)?)?;
    DescribedSignal::new(alloc, "InterfacesRemoved", arguments)
}

/// Describes the interface, of an object that tells of those below it.
///
/// # Errors
///
/// AllocError if out of memory.
#[tactic(auto, unfolding(crate::specs::ObjectManager::manager_description))]
pub fn manager_description(alloc: Global) -> Result<Description, AllocError>
    ensures { IfOk result (λ d. d ≡ manager.manager_description) }
{
    let mut signals = Items::one(alloc, interfaces_added(alloc)?)?;
    signals.push(interfaces_removed(alloc)?)?;
    Ok(Description {
        methods: Items::one(alloc, get_managed_objects(alloc)?)?,
        signals,
        properties: Items::new(alloc),
    })
}
