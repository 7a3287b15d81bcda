//! Interfaces that are nothing but a name.
ghost use Rattle.std.specs.Prelude.{◌≡◌, [], codes, IfOk};
ghost use Rattle.peer_boxes.specs.Boxes.{empty};

use object_interface::{Description, DispatchResult2, Interface, Items, Properties};
use object_tree::StandardInterface;
use std::alloc::{AllocError, Global};
use wire_message::{Message, fdo};
use wire_value::{InterfaceName, MemberName, OwnedInterfaceName, Value};

/// An interface of that name, without methods, signals and properties of its own: what there is of it the server answers.
pub struct Named {
    name: OwnedInterfaceName,
}

impl Drop for Named {
    fn drop(self) {
        let Named { name: _ } = self;
    }
}

impl Named {
    /// One of that name.
    pub fn new(name: OwnedInterfaceName) -> Named
        ensures { result.name ≡ name }
    {
        Named { name }
    }

    /// The one that makes an object tell of those below it (D-Bus Specification, "Standard Interfaces",
    /// "org.freedesktop.DBus.ObjectManager").
    ///
    /// # Errors
    ///
    /// AllocError for want of memory.
    pub fn manager(alloc: Global) -> Result<Named, AllocError>
        ensures { IfOk result (λ n. n.name ≡ codes "org.freedesktop.DBus.ObjectManager") }
    {
        let name = StandardInterface::ObjectManager.name();
        Ok(Named::new(name.to_owned(alloc)?))
    }

    /// One of the name of the properties that each object has by itself, so that it can't be added (D-Bus Specification,
    /// "Standard Interfaces", "org.freedesktop.DBus.Properties").
    ///
    /// # Errors
    ///
    /// AllocError for want of memory.
    pub fn properties(alloc: Global) -> Result<Named, AllocError>
        ensures { IfOk result (λ n. n.name ≡ codes "org.freedesktop.DBus.Properties") }
    {
        let name = StandardInterface::Properties.name();
        Ok(Named::new(name.to_owned(alloc)?))
    }
}

impl Interface for Named {
    ghost meaning = { λ n. empty n.name };

    ghost state = { λ n. [] };

    fn name(&self) -> InterfaceName<'_> {
        self.name.as_ref()
    }

    fn get(
        &self,
        _alloc: Global,
        _property: &str,
    ) -> Result<Option<fdo::Result<Value>>, AllocError> {
        Ok(None)
    }

    fn get_all(&self, alloc: Global) -> Result<Properties, AllocError> {
        Ok(Items::new(alloc))
    }

    fn set_mut(
        &mut self,
        _alloc: Global,
        _property: &str,
        _value: &Value,
    ) -> Result<DispatchResult2, AllocError> {
        Ok(DispatchResult2::NotFound)
    }

    fn call(
        &self,
        _alloc: Global,
        _message: &Message,
        _member: &MemberName<'_>,
    ) -> Result<DispatchResult2, AllocError> {
        Ok(DispatchResult2::NotFound)
    }

    fn call_mut(
        &mut self,
        _alloc: Global,
        _message: &Message,
        _member: &MemberName<'_>,
    ) -> Result<DispatchResult2, AllocError> {
        Ok(DispatchResult2::NotFound)
    }

    fn describe(&self, alloc: Global) -> Result<Description, AllocError> {
        Ok(Description::empty(alloc))
    }
}
