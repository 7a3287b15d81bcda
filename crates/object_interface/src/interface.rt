//! The trait of all interfaces.
ghost use Rattle.std.specs.Prelude.{◌≡◌, List, ℕ, IfOk, true};
ghost use Rattle.object_interface.specs.Meaning.{Meaning, Same, Settles};
ghost use Rattle.object_interface.specs.Sending.{IsSendable, IsSendableValue, AreSendable};

use crate::answer::DispatchResult2;
use crate::description::Description;
use crate::items::Items;
use std::alloc::{AllocError, Global};
use wire_message::{Message, fdo};
use wire_value::{InterfaceName, MemberName, Text, Value};

/// The properties of an interface: the name and the value of each (D-Bus Specification, "Standard Interfaces",
/// "org.freedesktop.DBus.Properties").
pub type Properties = Items<(Text, Value)>;

/// An interface of an object (D-Bus Specification, "Interfaces"): a name, and what is behind it.
///
/// Whoever implements it says what it means: its name and, for each call, how state, arguments and answer stand to each other
/// and what state the call leaves (`meaning`), and what its state is, as a list of numbers (`state`). The calls that may change
/// it leave the meaning what it was. What a call answers can be sent: no text of it holds a 0 byte, and no value opens more
/// than 56 containers at once, so that it stays within the 64 of a message wherever it is told.
pub trait Interface: Drop + Send + Sync {
    /// what it means
    ghost meaning: { Self → Meaning };

    /// its state
    ghost state: { Self → List ℕ };

    /// The name (D-Bus Specification, "Valid Names", "Interface names").
    fn name(&self) -> InterfaceName<'_>
        ensures { result ≡ (meaning self.now).title };

    /// The value of a property, or the error that it is asked with; nothing where it has no such property.
    ///
    /// # Errors
    ///
    /// AllocError for want of memory.
    fn get(&self, alloc: Global, property: &str) -> Result<Option<fdo::Result<Value>>, AllocError>
        ensures told { IfOk result (λ a. (meaning self.now).gets (state self.now) property.now a) }
        ensures law { IfOk result (λ a. IsSendableValue a) };

    /// All properties that can be read, and what they are.
    ///
    /// # Errors
    ///
    /// AllocError for want of memory.
    fn get_all(&self, alloc: Global) -> Result<Properties, AllocError>
        ensures told { IfOk result (λ a. (meaning self.now).gets_all (state self.now) a) }
        ensures law { IfOk result (λ a. AreSendable a) };

    /// Sets a property without a change of its own, or asks for [`Interface::set_mut`].
    ///
    /// # Errors
    ///
    /// AllocError for want of memory.
    fn set(
        &self,
        alloc: Global,
        property: &str,
        value: &Value,
    ) -> Result<DispatchResult2, AllocError>
        ensures told { IfOk result (λ a. Settles a ((meaning self.now).sets (state self.now) property.now value.now a (state self.now))) }
        ensures law { IfOk result (λ a. IsSendable a) }
    {
        Ok(DispatchResult2::RequiresMut)
    }

    /// Sets a property.
    ///
    /// # Errors
    ///
    /// AllocError for want of memory: the interface means what it meant, and is in any state.
    fn set_mut(
        &mut self,
        alloc: Global,
        property: &str,
        value: &Value,
    ) -> Result<DispatchResult2, AllocError>
        ensures same { Same (meaning self.new) (meaning self.old) }
        ensures told { IfOk result (λ a. (meaning self.old).sets (state self.old) property.now value.now a (state self.new)) }
        ensures law { IfOk result (λ a. IsSendable a) };

    /// Answers a method call without a change of its own, or asks for [`Interface::call_mut`].
    ///
    /// # Errors
    ///
    /// AllocError for want of memory.
    fn call(
        &self,
        alloc: Global,
        message: &Message,
        member: &MemberName<'_>,
    ) -> Result<DispatchResult2, AllocError>
        ensures told { IfOk result (λ a. (meaning self.now).calls (state self.now) message.now member.now a) }
        ensures law { IfOk result (λ a. IsSendable a) };

    /// Answers a method call.
    ///
    /// # Errors
    ///
    /// AllocError for want of memory: the interface means what it meant, and is in any state.
    fn call_mut(
        &mut self,
        alloc: Global,
        message: &Message,
        member: &MemberName<'_>,
    ) -> Result<DispatchResult2, AllocError>
        ensures same { Same (meaning self.new) (meaning self.old) }
        ensures told { IfOk result (λ a. (meaning self.old).calls_mut (state self.old) message.now member.now a (state self.new)) }
        ensures law { IfOk result (λ a. IsSendable a) };

    /// What introspection tells of it.
    ///
    /// # Errors
    ///
    /// AllocError for want of memory.
    fn describe(&self, alloc: Global) -> Result<Description, AllocError>
        ensures { IfOk result (λ a. (meaning self.now).describes (state self.now) a) };

    /// Whether each method call may run in a task of its own, which it may. Nothing looks at it: calls are answered in their
    /// order.
    fn spawn_tasks_for_methods(&self) -> bool
        ensures { result ≡ true }
    {
        true
    }
}
