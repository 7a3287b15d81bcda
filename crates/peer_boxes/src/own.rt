//! The program's own interfaces, as one type.
ghost use Rattle.std.specs.Prelude.{◌≡◌, IfOk};
ghost use Rattle.peer_boxes.specs.Own.{own_meaning, own_state, own_interfaces};

use crate::greeter::Greeter;
use crate::level::Level;
use crate::named::Named;
use crate::test_object::TestObject;
use object_interface::{Description, DispatchResult2, Interface, Properties};
use std::alloc::{AllocError, Global};
use wire_message::{Message, fdo};
use wire_value::{InterfaceName, MemberName, Value};

/// One of the program's own interfaces (D-Bus Specification, "Interfaces").
pub enum OwnInterface {
    /// `org.zbus.MyGreeter1`.
    Greeter(Greeter),
    /// `org.zbus.TestObj`.
    TestObject(TestObject),
    /// One that is nothing but a name.
    Named(Named),
    /// `org.zbus.Level`.
    Level(Level),
}

impl Drop for OwnInterface {
    fn drop(self) {
        match self {
            OwnInterface::Greeter(_) => {}
            OwnInterface::TestObject(_) => {}
            OwnInterface::Named(_) => {}
            OwnInterface::Level(_) => {}
        }
    }
}

/// Makes the interfaces that the program's scripts may place, by their numbers from 0 on: a greeter, the object with a property, the
/// object manager by its name, a second greeter, the properties by their name, and a level. None of them was called yet.
///
/// # Errors
///
/// AllocError if out of memory.
pub fn own_interfaces(alloc: Global) -> Result<Vec<OwnInterface>, AllocError>
    ensures { IfOk result (λ own. own.items ≡ own_interfaces) }
{
    let mut own = Vec::new(alloc);
    own.push(OwnInterface::Greeter(Greeter::new()))?;
    own.push(OwnInterface::TestObject(TestObject))?;
    own.push(OwnInterface::Named(Named::manager(alloc)?))?;
    own.push(OwnInterface::Greeter(Greeter::new()))?;
    own.push(OwnInterface::Named(Named::properties(alloc)?))?;
    own.push(OwnInterface::Level(Level::new()))?;
    Ok(own)
}

impl Interface for OwnInterface {
    ghost meaning = { λ own. own_meaning own };

    ghost state = { λ own. own_state own };

    fn name(&self) -> InterfaceName<'_> {
        match self {
            OwnInterface::Greeter(it) => it.name(),
            OwnInterface::TestObject(it) => it.name(),
            OwnInterface::Named(it) => it.name(),
            OwnInterface::Level(it) => it.name(),
        }
    }

    fn get(&self, alloc: Global, property: &str) -> Result<Option<fdo::Result<Value>>, AllocError> {
        match self {
            OwnInterface::Greeter(it) => it.get(alloc, property),
            OwnInterface::TestObject(it) => it.get(alloc, property),
            OwnInterface::Named(it) => it.get(alloc, property),
            OwnInterface::Level(it) => it.get(alloc, property),
        }
    }

    fn get_all(&self, alloc: Global) -> Result<Properties, AllocError> {
        match self {
            OwnInterface::Greeter(it) => it.get_all(alloc),
            OwnInterface::TestObject(it) => it.get_all(alloc),
            OwnInterface::Named(it) => it.get_all(alloc),
            OwnInterface::Level(it) => it.get_all(alloc),
        }
    }

    fn set(
        &self,
        alloc: Global,
        property: &str,
        value: &Value,
    ) -> Result<DispatchResult2, AllocError> {
        match self {
            OwnInterface::Greeter(it) => it.set(alloc, property, value),
            OwnInterface::TestObject(it) => it.set(alloc, property, value),
            OwnInterface::Named(it) => it.set(alloc, property, value),
            OwnInterface::Level(it) => it.set(alloc, property, value),
        }
    }

    fn set_mut(
        &mut self,
        alloc: Global,
        property: &str,
        value: &Value,
    ) -> Result<DispatchResult2, AllocError> {
        match self {
            OwnInterface::Greeter(it) => it.set_mut(alloc, property, value),
            OwnInterface::TestObject(it) => it.set_mut(alloc, property, value),
            OwnInterface::Named(it) => it.set_mut(alloc, property, value),
            OwnInterface::Level(it) => it.set_mut(alloc, property, value),
        }
    }

    fn call(
        &self,
        alloc: Global,
        message: &Message,
        member: &MemberName<'_>,
    ) -> Result<DispatchResult2, AllocError> {
        match self {
            OwnInterface::Greeter(it) => it.call(alloc, message, member),
            OwnInterface::TestObject(it) => it.call(alloc, message, member),
            OwnInterface::Named(it) => it.call(alloc, message, member),
            OwnInterface::Level(it) => it.call(alloc, message, member),
        }
    }

    fn call_mut(
        &mut self,
        alloc: Global,
        message: &Message,
        member: &MemberName<'_>,
    ) -> Result<DispatchResult2, AllocError> {
        match self {
            OwnInterface::Greeter(it) => it.call_mut(alloc, message, member),
            OwnInterface::TestObject(it) => it.call_mut(alloc, message, member),
            OwnInterface::Named(it) => it.call_mut(alloc, message, member),
            OwnInterface::Level(it) => it.call_mut(alloc, message, member),
        }
    }

    fn describe(&self, alloc: Global) -> Result<Description, AllocError> {
        match self {
            OwnInterface::Greeter(it) => it.describe(alloc),
            OwnInterface::TestObject(it) => it.describe(alloc),
            OwnInterface::Named(it) => it.describe(alloc),
            OwnInterface::Level(it) => it.describe(alloc),
        }
    }
}
