//! A level that can be read and set, and says so to whoever listens.
ghost use Rattle.std.specs.Prelude.{◌≡◌, [], ◌∷◌, codes, IfOk, None};
ghost use Rattle.wire_tree.specs.Datum.{num, uint32};
ghost use Rattle.object_interface.specs.Sending.{IsSendable};
ghost use Rattle.peer_boxes.specs.Boxes.{level, level_in, level_properties, level_set, LevelAnswers};

use crate::values::value_of;
use object_interface::{
    Access, DescribedMethod, DescribedProperty, Description, DispatchResult2, Done, Interface,
    Items, Properties, basic_type, body_of, fails, invalid_arguments,
};
use object_standard::{changed, has_no_arguments};
use std::alloc::{AllocError, Global};
use wire_message::Message;
use wire_message::fdo::{self, Kind};
use wire_value::{BasicType, InterfaceName, MemberName, Text, Tree, Value};

/// `org.zbus.Level`: its property `Value` is a number of 32 bits, first 0. Setting it sends PropertiesChanged before the reply
/// (D-Bus Specification, "Standard Interfaces", "org.freedesktop.DBus.Properties"). Its method `Fail` fails.
pub struct Level {
    value: u32,
}

impl Drop for Level {
    fn drop(self) {
        let Level { value: _ } = self;
    }
}

/// The level that a value is, if it is one.
fn level_in(value: &Value) -> Option<u32>
    ensures { result ≡ level_in value.now }
{
    match value.tree() {
        Tree::U32(level) => Some(*level),
        _ => None,
    }
}

/// A level as a value.
fn level_value(alloc: Global, level: u32) -> Result<Value, AllocError>
    ensures { IfOk result (λ value. value ≡ num uint32 level) }
{
    value_of(alloc, Tree::U32(level))
}

/// The properties: the level alone.
fn properties(alloc: Global, level: u32) -> Result<Properties, AllocError>
    ensures { IfOk result (λ properties. properties ≡ level_properties level) }
{
    let value = level_value(alloc, level)?;
    let name = Text::from_str(alloc, "Value")?;
    Items::one(alloc, (name, value))
}

/// The answer to setting the level: an empty reply, and PropertiesChanged before it.
#[tactic(auto, unfolding(wire_names::specs::Names::is_interface_name, wire_names::specs::Names::is_dotted, wire_names::specs::Names::is_element))]
fn set_answer(alloc: Global, level: u32) -> Result<DispatchResult2, AllocError>
    ensures { IfOk result (λ a. a ≡ level_set level) }
{
    let name = InterfaceName::from_static_str("org.zbus.Level");
    let signal = changed(alloc, &name, properties(alloc, level)?, Vec::new(alloc))?;
    Ok(DispatchResult2::Done(Done {
        result: Ok(body_of(alloc, ())?),
        before: Items::one(alloc, signal)?,
        after: Items::new(alloc),
        notifier: None,
    }))
}

impl Level {
    /// The level 0.
    pub fn new() -> Level
        ensures value { result.value ≡ 0 }
    {
        Level { value: 0 }
    }

    /// Answers a call, none of which changes it.
    fn answer(
        &self,
        alloc: Global,
        message: &Message,
        member: &MemberName<'_>,
    ) -> Result<DispatchResult2, AllocError>
        ensures told { IfOk result (λ a. LevelAnswers (self.now.value ∷ []) message.now member.now a (self.now.value ∷ [])) }
        ensures law { IfOk result (λ a. IsSendable a) }
    {
        if member.as_str() == "Fail" {
            if has_no_arguments(alloc, message)? {
                fails(alloc, Kind::Failed, "failed")
            } else {
                invalid_arguments(alloc)
            }
        } else {
            Ok(DispatchResult2::NotFound)
        }
    }
}

impl Interface for Level {
    ghost meaning = { λ l. level };

    ghost state = { λ l. l.value ∷ [] };

    #[tactic(auto, unfolding(wire_names::specs::Names::is_interface_name, wire_names::specs::Names::is_dotted, wire_names::specs::Names::is_element))]
    fn name(&self) -> InterfaceName<'_> {
        InterfaceName::from_static_str("org.zbus.Level")
    }

    fn get(&self, alloc: Global, property: &str) -> Result<Option<fdo::Result<Value>>, AllocError> {
        if property == "Value" {
            Ok(Some(Ok(level_value(alloc, self.value)?)))
        } else {
            Ok(None)
        }
    }

    fn get_all(&self, alloc: Global) -> Result<Properties, AllocError> {
        properties(alloc, self.value)
    }

    fn set_mut(
        &mut self,
        alloc: Global,
        property: &str,
        value: &Value,
    ) -> Result<DispatchResult2, AllocError> {
        if property == "Value" {
            match level_in(value) {
                Some(level) => {
                    let answer = set_answer(alloc, level)?;
                    self.value = level;
                    Ok(answer)
                }
                None => invalid_arguments(alloc),
            }
        } else {
            Ok(DispatchResult2::NotFound)
        }
    }

    fn call(
        &self,
        alloc: Global,
        message: &Message,
        member: &MemberName<'_>,
    ) -> Result<DispatchResult2, AllocError> {
        self.answer(alloc, message, member)
    }

    fn call_mut(
        &mut self,
        alloc: Global,
        message: &Message,
        member: &MemberName<'_>,
    ) -> Result<DispatchResult2, AllocError> {
        self.answer(alloc, message, member)
    }

    #[tactic(auto, unfolding(wire_names::specs::Names::is_member_name, wire_names::specs::Names::is_element))]
    fn describe(&self, alloc: Global) -> Result<Description, AllocError> {
        let method = DescribedMethod::new(alloc, "Fail", Items::new(alloc), Items::new(alloc))?;
        let ty = basic_type(BasicType::Uint32);
        let property = DescribedProperty::new(alloc, "Value", ty, Access::ReadWrite)?;
        Ok(Description {
            methods: Items::one(alloc, method)?,
            signals: Items::new(alloc),
            properties: Items::one(alloc, property)?,
        })
    }
}
