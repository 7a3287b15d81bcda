//! An interface that changes with its calls.
ghost use Rattle.std.specs.Prelude.{◌≡◌, [], ◌∷◌, IfOk};
ghost use Rattle.wire_tree.specs.Datum.{num, uint32};
ghost use Rattle.examples.specs.Example.{counter, next, tells};

use super::parts::one_method;
use peer_objects::{Description, DispatchResult2, Interface, Items, Properties};
use std::alloc::{AllocError, Global};
use wire_message::{Message, fdo};
use wire_value::{BasicType, InterfaceName, MemberName, Value, to};

/// `org.example.Counter`: its method `Next` counts, and tells the count.
pub(crate) struct Counter {
    count: u32,
}

impl Drop for Counter {
    fn drop(self) {
        let Counter { count: _ } = self;
    }
}

impl Counter {
    /// One that didn't count yet.
    pub(crate) fn new() -> Counter
        ensures { result.count ≡ 0 }
    {
        Counter { count: 0 }
    }

    /// Counts, and tells the count.
    fn step(&mut self, alloc: Global) -> Result<DispatchResult2, AllocError>
        ensures count { IfOk result (λ _. self.new.count ≡ next self.old.count) }
        ensures told { IfOk result (λ a. a ≡ tells (num uint32 self.new.count)) }
    {
        let count = self.count.saturating_add(1);
        // One number is a body: only memory can be missing.
        let Ok(body) = to(alloc, (count,)) else {
            return Err(AllocError);
        };
        self.count = count;
        Ok(DispatchResult2::alone(alloc, Ok(body)))
    }
}

impl Interface for Counter {
    ghost meaning = { λ c. counter };

    ghost state = { λ c. c.count ∷ [] };

    #[tactic(auto, unfolding(wire_names::specs::Names::is_interface_name, wire_names::specs::Names::is_dotted, wire_names::specs::Names::is_element))]
    fn name(&self) -> InterfaceName<'_> {
        InterfaceName::from_static_str("org.example.Counter")
    }

    fn get(
        &self,
        _alloc: Global,
        _property: &str,
    ) -> Result<Option<fdo::Result<Value>>, AllocError> {
        Ok(None)
    }

    fn get_all(&self, alloc: Global) -> Result<Properties, AllocError> {
        Ok(Items::new(alloc))
    }

    fn set_mut(
        &mut self,
        _alloc: Global,
        _property: &str,
        _value: &Value,
    ) -> Result<DispatchResult2, AllocError> {
        Ok(DispatchResult2::NotFound)
    }

    fn call(
        &self,
        _alloc: Global,
        _message: &Message,
        member: &MemberName<'_>,
    ) -> Result<DispatchResult2, AllocError> {
        if member.as_str() == "Next" {
            Ok(DispatchResult2::RequiresMut)
        } else {
            Ok(DispatchResult2::NotFound)
        }
    }

    fn call_mut(
        &mut self,
        alloc: Global,
        _message: &Message,
        member: &MemberName<'_>,
    ) -> Result<DispatchResult2, AllocError> {
        if member.as_str() == "Next" {
            self.step(alloc)
        } else {
            Ok(DispatchResult2::NotFound)
        }
    }

    #[tactic(auto, unfolding(wire_names::specs::Names::is_member_name, wire_names::specs::Names::is_element))]
    fn describe(&self, alloc: Global) -> Result<Description, AllocError> {
        one_method(alloc, "Next", BasicType::Uint32)
    }
}
