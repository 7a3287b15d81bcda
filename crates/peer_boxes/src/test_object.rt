//! An object with one property, which can't be set.
ghost use Rattle.std.specs.Prelude.{◌≡◌, [], ◌∷◌, codes, IfOk};
ghost use Rattle.wire_tree.specs.Datum.{text, string};
ghost use Rattle.peer_boxes.specs.Boxes.{test_object};

use crate::values::value_of;
use object_interface::{
    Access, DescribedProperty, Description, DispatchResult2, Interface, Items, Properties,
    basic_type, fails,
};
use std::alloc::{AllocError, Global};
use wire_message::Message;
use wire_message::fdo::{self, Kind};
use wire_value::{BasicType, InterfaceName, MemberName, Text, Tree, Value};

/// `org.zbus.TestObj`: its property `Test` is the text `test`.
#[derive(Clone, Copy, Debug)]
pub struct TestObject;

/// The value of the property.
fn test_value(alloc: Global) -> Result<Value, AllocError>
    ensures { IfOk result (λ value. value ≡ text string (codes "test")) }
{
    let text = Text::from_str(alloc, "test")?;
    value_of(alloc, Tree::Str(text))
}

impl Interface for TestObject {
    ghost meaning = { λ o. test_object };

    ghost state = { λ o. [] };

    #[tactic(auto, unfolding(wire_names::specs::Names::is_interface_name, wire_names::specs::Names::is_dotted, wire_names::specs::Names::is_element))]
    fn name(&self) -> InterfaceName<'_> {
        InterfaceName::from_static_str("org.zbus.TestObj")
    }

    fn get(&self, alloc: Global, property: &str) -> Result<Option<fdo::Result<Value>>, AllocError> {
        if property == "Test" {
            Ok(Some(Ok(test_value(alloc)?)))
        } else {
            Ok(None)
        }
    }

    fn get_all(&self, alloc: Global) -> Result<Properties, AllocError> {
        let value = test_value(alloc)?;
        let name = Text::from_str(alloc, "Test")?;
        Items::one(alloc, (name, value))
    }

    fn set_mut(
        &mut self,
        alloc: Global,
        property: &str,
        _value: &Value,
    ) -> Result<DispatchResult2, AllocError> {
        if property == "Test" {
            fails(
                alloc,
                Kind::PropertyReadOnly,
                "Property 'Test' is read-only",
            )
        } else {
            Ok(DispatchResult2::NotFound)
        }
    }

    fn call(
        &self,
        _alloc: Global,
        _message: &Message,
        _member: &MemberName<'_>,
    ) -> Result<DispatchResult2, AllocError> {
        Ok(DispatchResult2::NotFound)
    }

    fn call_mut(
        &mut self,
        _alloc: Global,
        _message: &Message,
        _member: &MemberName<'_>,
    ) -> Result<DispatchResult2, AllocError> {
        Ok(DispatchResult2::NotFound)
    }

    #[tactic(auto, unfolding(wire_names::specs::Names::is_member_name, wire_names::specs::Names::is_element))]
    fn describe(&self, alloc: Global) -> Result<Description, AllocError> {
        let ty = basic_type(BasicType::String);
        let property = DescribedProperty::new(alloc, "Test", ty, Access::Read)?;
        Ok(Description {
            methods: Items::new(alloc),
            signals: Items::new(alloc),
            properties: Items::one(alloc, property)?,
        })
    }
}
