//! An interface that no call changes.
ghost use Rattle.std.specs.Prelude.{◌≡◌, [], codes, IfOk};
ghost use Rattle.wire_tree.specs.Datum.{text, string};
ghost use Rattle.examples.specs.Example.{greeting, tells};

use super::parts::one_method;
use peer_objects::{Description, DispatchResult2, Interface, Items, Properties};
use std::alloc::{AllocError, Global};
use wire_message::{Message, fdo};
use wire_value::{BasicType, InterfaceName, MemberName, Text, Value, to};

/// `org.example.Greeting`: its method `Hello` tells a text.
#[derive(Clone, Copy)]
pub(crate) struct Greeting;

/// The reply `hello`.
fn hello(alloc: Global) -> Result<DispatchResult2, AllocError>
    ensures { IfOk result (λ a. a ≡ tells (text string (codes "hello"))) }
{
    let text = Text::from_str(alloc, "hello")?;
    // A short text is a body: only memory can be missing.
    let Ok(body) = to(alloc, (text,)) else {
        return Err(AllocError);
    };
    Ok(DispatchResult2::alone(alloc, Ok(body)))
}

impl Interface for Greeting {
    ghost meaning = { λ g. greeting };

    ghost state = { λ g. [] };

    #[tactic(auto, unfolding(wire_names::specs::Names::is_interface_name, wire_names::specs::Names::is_dotted, wire_names::specs::Names::is_element))]
    fn name(&self) -> InterfaceName<'_> {
        InterfaceName::from_static_str("org.example.Greeting")
    }

    fn get(
        &self,
        _alloc: Global,
        _property: &str,
    ) -> Result<Option<fdo::Result<Value>>, AllocError> {
        Ok(None)
    }

    fn get_all(&self, alloc: Global) -> Result<Properties, AllocError> {
        Ok(Items::new(alloc))
    }

    fn set_mut(
        &mut self,
        _alloc: Global,
        _property: &str,
        _value: &Value,
    ) -> Result<DispatchResult2, AllocError> {
        Ok(DispatchResult2::NotFound)
    }

    fn call(
        &self,
        alloc: Global,
        _message: &Message,
        member: &MemberName<'_>,
    ) -> Result<DispatchResult2, AllocError> {
        if member.as_str() == "Hello" {
            hello(alloc)
        } else {
            Ok(DispatchResult2::NotFound)
        }
    }

    fn call_mut(
        &mut self,
        _alloc: Global,
        _message: &Message,
        _member: &MemberName<'_>,
    ) -> Result<DispatchResult2, AllocError> {
        Ok(DispatchResult2::NotFound)
    }

    #[tactic(auto, unfolding(wire_names::specs::Names::is_member_name, wire_names::specs::Names::is_element))]
    fn describe(&self, alloc: Global) -> Result<Description, AllocError> {
        one_method(alloc, "Hello", BasicType::String)
    }
}
