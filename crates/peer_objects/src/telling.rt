//! What is told of a service's objects: the text of introspection, and managed objects (D-Bus Specification, "Standard Interfaces").
ghost use Rattle.std.specs.Prelude.{◌≡◌, IfOk, true, slice_get, string_bytes};
ghost use Rattle.std.specs.List.{AllByRecursion, AllZip};
ghost use Rattle.object_tree.specs.Objects.{from_path, below};
ghost use Rattle.object_standard.specs.Arguments.{TakesNone};
ghost use Rattle.peer_objects.specs.Reaching.{is_kept};
ghost use Rattle.peer_objects.specs.Standard.{Describes, TellsObject, IsText, Introspects, ManagesInterface, ManagesObject, Manages, GivesText, GivesManaged, path_in};

use crate::server::ObjectServer;
use object_interface::{
    DescribedInterface, Description, DispatchResult2, Interface, Items, invalid_arguments, path_of,
};
use object_signals::fdo::{ManagedObjects, ObjectManager};
use object_standard::{
    ManagedInterface, ManagedObject, has_no_arguments, managed_body, manager_description, standing,
    text_body,
};
use object_text::{DescribedObject, introspection};
use object_tree::{ObjectAt, StandardInterface};
use std::alloc::AllocError;
use wire_message::{Error, Message, Result};
use wire_value::{InterfaceName, ObjectPath};

impl<B: Interface> ObjectServer<B> {
    /// What introspection tells of an interface. It fails only if memory ran out.
    fn describe(
        &self,
        name: &InterfaceName<'_>,
        slot: u64,
    ) -> std::result::Result<Description, AllocError>
        requires { is_kept (slice_get self.now.1 slot) ≡ true }
        ensures { IfOk result (λ d. Describes B.meaning B.state self.now.1 (name.now, slot) d) }
    {
        match StandardInterface::named(name.as_str()) {
            Some(StandardInterface::ObjectManager) => manager_description(self.alloc),
            _ => self.kept(slot).describe(self.alloc),
        }
    }

    /// What introspection tells of an object. It fails only if memory ran out.
    fn tell<'a>(
        &self,
        object: &ObjectAt<'a>,
    ) -> std::result::Result<DescribedObject<'a>, AllocError>
        requires { AllByRecursion (λ row. is_kept (slice_get self.now.1 row.1) ≡ true) object.now.1 }
        ensures { IfOk result (λ told. TellsObject B.meaning B.state self.now.1 object.now told) }
    {
        let mut interfaces = Items::new(self.alloc);
        for (name, slot) in object.interfaces(self.alloc)? {
            let description = self.describe(&name, slot)?;
            interfaces.push(DescribedInterface { name, description })?;
        }
        Ok(DescribedObject {
            path: object.path(),
            interfaces,
        })
    }

    /// What introspection tells of the object at a path, and of those below it. It fails only if memory ran out.
    fn told_from(
        &self,
        path: &ObjectPath<'_>,
    ) -> std::result::Result<Vec<DescribedObject<'_>>, AllocError>
        ensures { IfOk result (λ list. AllZip (TellsObject B.meaning B.state self.now.1) (from_path self.now.0 path.now) list.items) }
    {
        let objects = self.tree.from_path(self.alloc, path)?;
        let mut list = Vec::with_capacity(self.alloc, objects.len())?;
        for object in objects {
            list.push(self.tell(&object)?)?;
        }
        Ok(list)
    }

    /// The text of introspection of the object at a path, and of those below it. It fails only if memory ran out.
    fn text_from(&self, path: &ObjectPath<'_>) -> std::result::Result<String, AllocError>
        ensures { IfOk result (λ text. IsText B.meaning B.state self.now.0 path.now self.now.1 (string_bytes text)) }
    {
        let standing = standing(self.alloc)?;
        let told = self.told_from(path)?;
        introspection(self.alloc, standing.as_slice(), told.as_slice())
    }

    /// The text of introspection of the object at a path, with all objects below it (D-Bus Specification, "Standard Interfaces",
    /// "org.freedesktop.DBus.Introspectable").
    ///
    /// # Errors
    ///
    /// InterfaceNotFound exactly where no object has the path, else nothing but Memory if memory ran out.
    pub fn introspect(&self, path: &ObjectPath<'_>) -> Result<String>
        ensures { GivesText B.meaning B.state string_bytes self.now.0 path.now self.now.1 result }
    {
        if !self.tree.has_path(path) {
            return Err(Error::InterfaceNotFound);
        }
        Ok(self.text_from(path)?)
    }

    /// The objects below the one at a path, which has an `org.freedesktop.DBus.ObjectManager`: ascending by the bytes of their paths, each
    /// with its interfaces but the standard ones (D-Bus Specification, "Standard Interfaces", "org.freedesktop.DBus.ObjectManager").
    ///
    /// # Errors
    ///
    /// InterfaceNotFound exactly where none was added there, else nothing but Memory if memory ran out.
    pub fn managed_objects(&self, path: &ObjectPath<'_>) -> Result<ManagedObjects>
        ensures { GivesManaged B.meaning B.state (λ list. list.items) self.now.0 path.now self.now.1 result }
    {
        if self.tree.slot(path, &ObjectManager::name()).is_none() {
            return Err(Error::InterfaceNotFound);
        }
        Ok(self.managed_below(path)?)
    }

    /// Answers `Introspect`. It fails only if memory ran out.
    pub(crate) fn introspected(
        &self,
        message: &Message,
    ) -> std::result::Result<DispatchResult2, AllocError>
        ensures { IfOk result (λ a. TakesNone message.now (Introspects B.meaning B.state self.now.0 (path_in message.now) self.now.1) a) }
    {
        if !has_no_arguments(self.alloc, message)? {
            return invalid_arguments(self.alloc);
        }
        let text = self.text_from(&path_of(message))?;
        let body = text_body(self.alloc, text)?;
        Ok(DispatchResult2::alone(self.alloc, Ok(body)))
    }

    /// An interface with its properties. It fails only if memory ran out.
    fn manage_interface(
        &self,
        name: &InterfaceName<'_>,
        slot: u64,
    ) -> std::result::Result<ManagedInterface, AllocError>
        requires { is_kept (slice_get self.now.1 slot) ≡ true }
        ensures { IfOk result (λ told. ManagesInterface B.meaning B.state self.now.1 (name.now, slot) told) }
    {
        let properties = self.kept(slot).get_all(self.alloc)?;
        Ok(ManagedInterface {
            name: name.to_owned(self.alloc)?,
            properties,
        })
    }

    /// An object with each of its interfaces but the standard ones. It fails only if memory ran out.
    fn manage(&self, object: &ObjectAt<'_>) -> std::result::Result<ManagedObject, AllocError>
        requires { AllByRecursion (λ row. is_kept (slice_get self.now.1 row.1) ≡ true) object.now.1 }
        ensures { IfOk result (λ told. ManagesObject B.meaning B.state self.now.1 object.now told) }
    {
        let mut interfaces = Items::new(self.alloc);
        for (name, slot) in object.interfaces(self.alloc)? {
            if StandardInterface::named(name.as_str()).is_none() {
                interfaces.push(self.manage_interface(&name, slot)?)?;
            }
        }
        Ok(ManagedObject {
            path: object.path().to_owned(self.alloc)?,
            interfaces,
        })
    }

    /// The objects strictly below a path. It fails only if memory ran out.
    pub(crate) fn managed_below(
        &self,
        path: &ObjectPath<'_>,
    ) -> std::result::Result<Vec<ManagedObject>, AllocError>
        ensures { IfOk result (λ list. AllZip (ManagesObject B.meaning B.state self.now.1) (below self.now.0 path.now) list.items) }
    {
        let objects = self.tree.below(self.alloc, path)?;
        let mut list = Vec::with_capacity(self.alloc, objects.len())?;
        for object in objects {
            list.push(self.manage(&object)?)?;
        }
        Ok(list)
    }

    /// Answers `GetManagedObjects`. It fails only if memory ran out.
    pub(crate) fn managed(
        &self,
        message: &Message,
    ) -> std::result::Result<DispatchResult2, AllocError>
        ensures { IfOk result (λ a. TakesNone message.now (Manages B.meaning B.state self.now.0 (path_in message.now) self.now.1) a) }
    {
        if !has_no_arguments(self.alloc, message)? {
            return invalid_arguments(self.alloc);
        }
        let body = managed_body(self.alloc, self.managed_below(&path_of(message))?)?;
        Ok(DispatchResult2::alone(self.alloc, Ok(body)))
    }
}
