//! A box of any interface, which is one.
ghost use Rattle.std.specs.Prelude.{◌≡◌};

use crate::answer::DispatchResult2;
use crate::description::Description;
use crate::interface::{Interface, Properties};
use std::alloc::{AllocError, Global};
use wire_message::{Message, fdo};
use wire_value::{InterfaceName, MemberName, Value};

/// The interface in the box: it means what that means, and is in its state.
impl Interface for Box<dyn Interface> {
    ghost meaning = { λ b. (Interface-box b).meaning b.value };

    ghost state = { λ b. (Interface-box b).state b.value };

    fn name(&self) -> InterfaceName<'_> {
        (**self).name()
    }

    fn get(&self, alloc: Global, property: &str) -> Result<Option<fdo::Result<Value>>, AllocError> {
        (**self).get(alloc, property)
    }

    fn get_all(&self, alloc: Global) -> Result<Properties, AllocError> {
        (**self).get_all(alloc)
    }

    fn set(
        &self,
        alloc: Global,
        property: &str,
        value: &Value,
    ) -> Result<DispatchResult2, AllocError> {
        (**self).set(alloc, property, value)
    }

    fn set_mut(
        &mut self,
        alloc: Global,
        property: &str,
        value: &Value,
    ) -> Result<DispatchResult2, AllocError> {
        (**self).set_mut(alloc, property, value)
    }

    fn call(
        &self,
        alloc: Global,
        message: &Message,
        member: &MemberName<'_>,
    ) -> Result<DispatchResult2, AllocError> {
        (**self).call(alloc, message, member)
    }

    fn call_mut(
        &mut self,
        alloc: Global,
        message: &Message,
        member: &MemberName<'_>,
    ) -> Result<DispatchResult2, AllocError> {
        (**self).call_mut(alloc, message, member)
    }

    fn describe(&self, alloc: Global) -> Result<Description, AllocError> {
        (**self).describe(alloc)
    }

    fn spawn_tasks_for_methods(&self) -> bool {
        (**self).spawn_tasks_for_methods()
    }
}
