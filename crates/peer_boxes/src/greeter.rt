//! A greeter, which counts how often it was called.
ghost use Rattle.std.specs.Prelude.{◌≡◌, [], ◌∷◌, codes, IfOk};
ghost use Rattle.peer_boxes.specs.Boxes.{greeter, greeting, next_count, says};

use object_interface::{
    DescribedArgument, DescribedMethod, Description, DispatchResult2, Interface, Items, Properties,
    basic_type, body_of, invalid_arguments, read_arguments,
};
use std::alloc::{AllocError, Global};
use wire_message::{Message, fdo};
use wire_value::{BasicType, InterfaceName, MemberName, Text, Value};

/// `org.zbus.MyGreeter1`: its method `SayHello` takes a name and greets it, and tells how often it was called. The
/// count stays at 18,446,744,073,709,551,615, the greatest number of 64 bits.
pub struct Greeter {
    count: u64,
}

impl Drop for Greeter {
    fn drop(self) {
        let Greeter { count: _ } = self;
    }
}

impl Greeter {
    /// One that wasn't called yet.
    pub fn new() -> Greeter
        ensures count { result.count ≡ 0 }
    {
        Greeter { count: 0 }
    }

    /// Greets a name, and counts the call.
    fn say_hello(&mut self, alloc: Global, name: &Text) -> Result<DispatchResult2, AllocError>
        ensures count { IfOk result (λ _. self.new.count ≡ next_count self.old.count) }
        ensures said { IfOk result (λ a. a ≡ says (greeting name.now self.new.count)) }
    {
        let count = self.count.saturating_add(1);
        let text = format!(in alloc;
            "Hello {}! I have been called {count} times.",
            name.as_str()
        )?;
        // A text from a message is far shorter than a string may be: only memory can be missing.
        let body = body_of(alloc, (Text::from_string(text),))?;
        self.count = count;
        Ok(DispatchResult2::alone(alloc, Ok(body)))
    }
}

impl Interface for Greeter {
    ghost meaning = { λ g. greeter };

    ghost state = { λ g. g.count ∷ [] };

    #[tactic(auto, unfolding(wire_names::specs::Names::is_interface_name, wire_names::specs::Names::is_dotted, wire_names::specs::Names::is_element))]
    fn name(&self) -> InterfaceName<'_> {
        InterfaceName::from_static_str("org.zbus.MyGreeter1")
    }

    fn get(
        &self,
        _alloc: Global,
        _property: &str,
    ) -> Result<Option<fdo::Result<Value>>, AllocError> {
        Ok(None)
    }

    fn get_all(&self, alloc: Global) -> Result<Properties, AllocError> {
        Ok(Items::new(alloc))
    }

    fn set_mut(
        &mut self,
        _alloc: Global,
        _property: &str,
        _value: &Value,
    ) -> Result<DispatchResult2, AllocError> {
        Ok(DispatchResult2::NotFound)
    }

    fn call(
        &self,
        _alloc: Global,
        _message: &Message,
        member: &MemberName<'_>,
    ) -> Result<DispatchResult2, AllocError> {
        if member.as_str() == "SayHello" {
            Ok(DispatchResult2::RequiresMut)
        } else {
            Ok(DispatchResult2::NotFound)
        }
    }

    fn call_mut(
        &mut self,
        alloc: Global,
        message: &Message,
        member: &MemberName<'_>,
    ) -> Result<DispatchResult2, AllocError> {
        if member.as_str() == "SayHello" {
            match read_arguments::<(Text,)>(alloc, message)? {
                Some((name,)) => self.say_hello(alloc, &name),
                None => invalid_arguments(alloc),
            }
        } else {
            Ok(DispatchResult2::NotFound)
        }
    }

    #[tactic(auto, unfolding(wire_names::specs::Names::is_member_name, wire_names::specs::Names::is_element))]
    fn describe(&self, alloc: Global) -> Result<Description, AllocError> {
        let input = DescribedArgument::new(alloc, "name", basic_type(BasicType::String))?;
        let output = DescribedArgument::unnamed(basic_type(BasicType::String));
        let inputs = Items::one(alloc, input)?;
        let outputs = Items::one(alloc, output)?;
        let method = DescribedMethod::new(alloc, "SayHello", inputs, outputs)?;
        Ok(Description {
            methods: Items::one(alloc, method)?,
            signals: Items::new(alloc),
            properties: Items::new(alloc),
        })
    }
}
