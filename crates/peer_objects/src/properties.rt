//! The properties of a service's objects (D-Bus Specification, "org.freedesktop.DBus.Properties").
ghost use Rattle.std.specs.Prelude.{◌≡◌, ◌⊎◌, ℕ, IfOk, OnErr, IsTrue};
ghost use Rattle.object_interface.specs.Sending.{HasSendableError};
ghost use Rattle.peer_objects.specs.Dispatching.{Reaches, Slot};
ghost use Rattle.peer_objects.specs.Reaching.{target_of, is_held};
ghost use Rattle.peer_objects.specs.Standard.{GetsAt, GetsAllAt, SetsAt, Gets, GetsAll, Sets, SetsProperty};

use crate::server::ObjectServer;
use crate::target::Target;
use object_interface::{DispatchResult2, Interface, Items, invalid_arguments, path_of};
use object_standard::{
    answer_of_get, answer_of_set, interface_argument, properties_body, property_arguments,
    setting_arguments, unknown_property,
};
use std::alloc::AllocError;
use wire_message::Message;
use wire_value::Value;

impl<B: Interface> ObjectServer<B> {
    /// The value of a property, asked of what has it. It fails only if memory ran out.
    fn get_at(&self, target: Target, property: &str) -> Result<DispatchResult2, AllocError>
        requires { IsTrue (is_held self.now.1 target) }
        ensures { IfOk result (λ a. GetsAt B.meaning B.state (target_of target) property.now self.now.1 a) }
    {
        match target {
            Target::Nothing(error) => Ok(DispatchResult2::alone(self.alloc, Err(error))),
            Target::Standard(_) => unknown_property(self.alloc, property),
            Target::Slot(slot) => {
                let got = self.kept(slot).get(self.alloc, property)?;
                answer_of_get(self.alloc, property, got)
            }
        }
    }

    /// All properties. It fails only if memory ran out.
    fn get_all_at(&self, target: Target) -> Result<DispatchResult2, AllocError>
        requires { IsTrue (is_held self.now.1 target) }
        ensures { IfOk result (λ a. GetsAllAt B.meaning B.state (target_of target) self.now.1 a) }
    {
        let properties = match target {
            Target::Nothing(error) => {
                return Ok(DispatchResult2::alone(self.alloc, Err(error)));
            }
            Target::Standard(_) => Items::new(self.alloc),
            Target::Slot(slot) => self.kept(slot).get_all(self.alloc)?,
        };
        let body = properties_body(self.alloc, properties)?;
        Ok(DispatchResult2::alone(self.alloc, Ok(body)))
    }

    /// Sets a property of what has it. It fails only if memory ran out: nothing is changed, or only the interface that has it.
    fn set_at(
        &mut self,
        target: Target,
        property: &str,
        value: &Value,
    ) -> Result<DispatchResult2, AllocError>
        requires { IsTrue (is_held self.old.1 target) }
        ensures tree { self.new.0 ≡ self.old.0 }
        ensures notified { self.new.2 ≡ self.old.2 }
        ensures set { IfOk result (λ a. SetsAt B.meaning B.state (target_of target) property.now value.now self.old.1 self.new.1 a) }
        ensures disturbed { OnErr result ((self.new.1 ≡ self.old.1) ⊎ ((slot : ℕ) × (target_of target ≡ Slot slot) × Reaches B.meaning B.state slot self.old.1 self.new.1)) }
    {
        match target {
            Target::Nothing(error) => Ok(DispatchResult2::alone(self.alloc, Err(error))),
            Target::Standard(_) => unknown_property(self.alloc, property),
            Target::Slot(slot) => {
                let said = self.set(slot, property, value)?;
                answer_of_set(self.alloc, property, said)
            }
        }
    }

    /// Answers `Get`. It fails only if memory ran out.
    pub(crate) fn got(&self, message: &Message) -> Result<DispatchResult2, AllocError>
        ensures told { IfOk result (λ a. Gets B.meaning B.state self.now.0 message.now self.now.1 a) }
        ensures law { IfOk result HasSendableError }
    {
        let Some((interface, property)) = property_arguments(self.alloc, message)? else {
            return invalid_arguments(self.alloc);
        };
        let target = self.reach(&path_of(message), &interface.as_ref())?;
        self.get_at(target, property.as_str())
    }

    /// Answers `GetAll`. It fails only if memory ran out.
    pub(crate) fn got_all(&self, message: &Message) -> Result<DispatchResult2, AllocError>
        ensures told { IfOk result (λ a. GetsAll B.meaning B.state self.now.0 message.now self.now.1 a) }
        ensures law { IfOk result HasSendableError }
    {
        let Some(interface) = interface_argument(self.alloc, message)? else {
            return invalid_arguments(self.alloc);
        };
        let target = self.reach(&path_of(message), &interface.as_ref())?;
        self.get_all_at(target)
    }

    /// Answers `Set`. It fails only if memory ran out: nothing is changed, or only the interface that has the property.
    pub(crate) fn set_by(&mut self, message: &Message) -> Result<DispatchResult2, AllocError>
        ensures tree { self.new.0 ≡ self.old.0 }
        ensures notified { self.new.2 ≡ self.old.2 }
        ensures set { IfOk result (λ a. Sets B.meaning B.state self.old.0 message.now self.old.1 self.new.1 a) }
        ensures law { IfOk result HasSendableError }
        ensures disturbed { OnErr result ((self.new.1 ≡ self.old.1) ⊎ ((slot : ℕ) × SetsProperty self.old.0 message.now slot × Reaches B.meaning B.state slot self.old.1 self.new.1)) }
    {
        let Some((interface, property, value)) = setting_arguments(self.alloc, message)? else {
            return invalid_arguments(self.alloc);
        };
        let target = self.reach(&path_of(message), &interface.as_ref())?;
        self.set_at(target, property.as_str(), &value)
    }
}
