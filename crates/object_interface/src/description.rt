//! What introspection tells of an interface.

ghost use Rattle.std.specs.Prelude.{◌≡◌, IfOk, IsTrue, None};
ghost use Rattle.wire_names.specs.Names.{is_member_name};
ghost use Rattle.wire_signature.specs.SingleType.{basic};
ghost use Rattle.object_interface.specs.Describing.{argument, method, nothing, property, signal};

use crate::items::Items;
use std::alloc::{AllocError, Global};
use wire_value::{BasicType, InterfaceName, MemberName, OwnedMemberName, TypeNode, ValueType};

/// Returns the type of values that are no containers.
pub fn basic_type(ty: BasicType) -> ValueType
    ensures { result ≡ basic ty }
{
    ValueType::from_node(TypeNode::Basic(ty))
}

/// An argument of a method or a signal: its name, if it has one, and its type.
pub struct DescribedArgument {
    pub name: Option<OwnedMemberName>,
    pub ty: ValueType,
}

impl Drop for DescribedArgument {
    fn drop(self) {
        let DescribedArgument { name: _, ty: _ } = self;
    }
}

impl DescribedArgument {
    /// Describes an argument of that name.
    ///
    /// # Errors
    ///
    /// AllocError if out of memory.
    pub fn new(
        alloc: Global,
        name: &'static str,
        ty: ValueType,
    ) -> Result<DescribedArgument, AllocError>
        requires { IsTrue (is_member_name name.now) }
        ensures { IfOk result (λ a. a ≡ argument name.now ty) }
    {
        let name = Some(MemberName::from_static_str(name).to_owned(alloc)?);
        Ok(DescribedArgument { name, ty })
    }

    /// Describes an argument without a name.
    pub fn unnamed(ty: ValueType) -> DescribedArgument
        ensures { result ≡ record { name = None; ty = ty } }
    {
        DescribedArgument { name: None, ty }
    }
}

/// A method, with what it takes and what it gives.
pub struct DescribedMethod {
    pub name: OwnedMemberName,
    pub inputs: Items<DescribedArgument>,
    pub outputs: Items<DescribedArgument>,
}

impl Drop for DescribedMethod {
    fn drop(self) {
        let DescribedMethod {
            name: _,
            inputs: _,
            outputs: _,
        } = self;
    }
}

impl DescribedMethod {
    /// Describes a method of that name.
    ///
    /// # Errors
    ///
    /// AllocError if out of memory.
    pub fn new(
        alloc: Global,
        name: &'static str,
        inputs: Items<DescribedArgument>,
        outputs: Items<DescribedArgument>,
    ) -> Result<DescribedMethod, AllocError>
        requires { IsTrue (is_member_name name.now) }
        ensures { IfOk result (λ m. m ≡ method name.now inputs outputs) }
    {
        Ok(DescribedMethod {
            name: MemberName::from_static_str(name).to_owned(alloc)?,
            inputs,
            outputs,
        })
    }
}

/// A signal, with its arguments.
pub struct DescribedSignal {
    pub name: OwnedMemberName,
    pub arguments: Items<DescribedArgument>,
}

impl Drop for DescribedSignal {
    fn drop(self) {
        let DescribedSignal {
            name: _,
            arguments: _,
        } = self;
    }
}

impl DescribedSignal {
    /// Describes a signal of that name.
    ///
    /// # Errors
    ///
    /// AllocError if out of memory.
    pub fn new(
        alloc: Global,
        name: &'static str,
        arguments: Items<DescribedArgument>,
    ) -> Result<DescribedSignal, AllocError>
        requires { IsTrue (is_member_name name.now) }
        ensures { IfOk result (λ s. s ≡ signal name.now arguments) }
    {
        Ok(DescribedSignal {
            name: MemberName::from_static_str(name).to_owned(alloc)?,
            arguments,
        })
    }
}

/// What may be done with a property (D-Bus Specification, "Introspection Data Format").
#[derive(Clone, Copy, Debug, PartialEq, Eq)]
pub enum Access {
    Read,
    Write,
    ReadWrite,
}

/// A property, with its type.
pub struct DescribedProperty {
    pub name: OwnedMemberName,
    pub ty: ValueType,
    pub access: Access,
}

impl Drop for DescribedProperty {
    fn drop(self) {
        let DescribedProperty {
            name: _,
            ty: _,
            access: _,
        } = self;
    }
}

impl DescribedProperty {
    /// Describes a property of that name.
    ///
    /// # Errors
    ///
    /// AllocError if out of memory.
    pub fn new(
        alloc: Global,
        name: &'static str,
        ty: ValueType,
        access: Access,
    ) -> Result<DescribedProperty, AllocError>
        requires { IsTrue (is_member_name name.now) }
        ensures { IfOk result (λ p. p ≡ property name.now ty access) }
    {
        Ok(DescribedProperty {
            name: MemberName::from_static_str(name).to_owned(alloc)?,
            ty,
            access,
        })
    }
}

/// What introspection tells of an interface (D-Bus Specification, "Introspection Data Format"): its methods, its signals and
/// its properties, each in the order in which they are told.
pub struct Description {
    pub methods: Items<DescribedMethod>,
    pub signals: Items<DescribedSignal>,
    pub properties: Items<DescribedProperty>,
}

impl Drop for Description {
    fn drop(self) {
        let Description {
            methods: _,
            signals: _,
            properties: _,
        } = self;
    }
}

impl Description {
    /// Describes an interface without methods, signals and properties.
    pub fn empty(alloc: Global) -> Description
        ensures { result ≡ nothing }
    {
        Description {
            methods: Items::new(alloc),
            signals: Items::new(alloc),
            properties: Items::new(alloc),
        }
    }
}

/// An interface of an object, with its name (D-Bus Specification, "Introspection Data Format").
pub struct DescribedInterface<'a> {
    pub name: InterfaceName<'a>,
    pub description: Description,
}

impl<'a> Drop for DescribedInterface<'a> {
    fn drop(self) {
        let DescribedInterface {
            name: _,
            description: _,
        } = self;
    }
}
