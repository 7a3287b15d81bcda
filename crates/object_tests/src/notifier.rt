//! Whether a reply was put, asked by its number.
ghost use Rattle.std.specs.Prelude.{◌≡◌, [], IfOk};
ghost use Rattle.object_tests.specs.Asking.{numbered};

use object_interface::{Description, DispatchResult2, Done, Interface, Items, Properties, body_of};
use peer_core::Route;
use peer_objects::{Adding, ObjectServer, ResponseDispatchNotifier};
use std::alloc::{AllocError, Global};
use wire_message::{Error, Message, Result, fdo, message_of};
use wire_value::{InterfaceName, MemberName, ObjectPath, Value};

/// A call of `SayHello` with the text `Maria`, of serial 7, at `/org/zbus/MyGreeter`.
const CALL: [u8; 122] = [
    108, 1, 0, 1, 10, 0, 0, 0, 7, 0, 0, 0, 95, 0, 0, 0, 1, 1, 111, 0, 19, 0, 0, 0, 47, 111, 114,
    103, 47, 122, 98, 117, 115, 47, 77, 121, 71, 114, 101, 101, 116, 101, 114, 0, 0, 0, 0, 0, 2, 1,
    115, 0, 19, 0, 0, 0, 111, 114, 103, 46, 122, 98, 117, 115, 46, 77, 121, 71, 114, 101, 101, 116,
    101, 114, 49, 0, 0, 0, 0, 0, 3, 1, 115, 0, 8, 0, 0, 0, 83, 97, 121, 72, 101, 108, 108, 111, 0,
    0, 0, 0, 0, 0, 0, 0, 8, 1, 103, 0, 1, 115, 0, 0, 5, 0, 0, 0, 77, 97, 114, 105, 97, 0,
];

/// An interface that answers each call with nothing, and asks by the number 3 whether its reply was put.
struct Asking;

impl Drop for Asking {
    fn drop(self) {
        let Asking = self;
    }
}

/// A reply of no values with that number.
fn numbered(alloc: Global) -> std::result::Result<DispatchResult2, AllocError>
    ensures { IfOk result (λ answer. answer ≡ numbered) }
{
    let response = ResponseDispatchNotifier::new(3, ());
    Ok(DispatchResult2::Done(Done {
        result: Ok(body_of(alloc, ())?),
        before: Items::new(alloc),
        after: Items::new(alloc),
        notifier: Some(response.number()),
    }))
}

impl Interface for Asking {
    ghost use Rattle.std.specs.Prelude.{[]};
    ghost use Rattle.object_tests.specs.Asking.{asking};

    ghost meaning = { λ b. asking };

    ghost state = { λ b. [] };

    #[tactic(auto, unfolding(wire_names::specs::Names::is_interface_name, wire_names::specs::Names::is_dotted, wire_names::specs::Names::is_element))]
    fn name(&self) -> InterfaceName<'_> {
        InterfaceName::from_static_str("org.zbus.MyGreeter1")
    }

    fn get(
        &self,
        _alloc: Global,
        _property: &str,
    ) -> std::result::Result<Option<fdo::Result<Value>>, AllocError> {
        Ok(None)
    }

    fn get_all(&self, alloc: Global) -> std::result::Result<Properties, AllocError> {
        Ok(Items::new(alloc))
    }

    fn set_mut(
        &mut self,
        _alloc: Global,
        _property: &str,
        _value: &Value,
    ) -> std::result::Result<DispatchResult2, AllocError> {
        Ok(DispatchResult2::NotFound)
    }

    fn call(
        &self,
        alloc: Global,
        _message: &Message,
        _member: &MemberName<'_>,
    ) -> std::result::Result<DispatchResult2, AllocError> {
        numbered(alloc)
    }

    fn call_mut(
        &mut self,
        _alloc: Global,
        _message: &Message,
        _member: &MemberName<'_>,
    ) -> std::result::Result<DispatchResult2, AllocError> {
        Ok(DispatchResult2::NotFound)
    }

    fn describe(&self, alloc: Global) -> std::result::Result<Description, AllocError> {
        Ok(Description {
            methods: Items::new(alloc),
            signals: Items::new(alloc),
            properties: Items::new(alloc),
        })
    }
}

/// A service with it at the path of the call.
fn service(alloc: Global) -> Result<ObjectServer<Asking>> {
    let mut server = ObjectServer::new(alloc)?;
    let path = ObjectPath::try_from("/org/zbus/MyGreeter")?;
    match server.at(&path, Asking) {
        Ok(Adding::Added(_)) => Ok(server),
        Ok(Adding::Exists(_)) => Err(Error::UnknownHandle),
        Err(_) => Err(Error::Memory),
    }
}

/// Whether the reply is put, and counts as put from then on.
fn is_put(alloc: Global, server: &mut ObjectServer<Asking>, call: &Message) -> Result<bool> {
    let (messages, number) = server.dispatch(call, None)?.into_parts();
    let Some(number) = number else {
        return Ok(false);
    };
    let early = server.dispatched(number);
    let mut route = Route::new(alloc);
    route.issue(messages, true)?;
    server.set_dispatched(number);
    Ok(!early && route.outbox_len() == 1 && server.dispatched(number))
}

/// Whether a reply counts as put only once it was.
fn is_told(alloc: Global) -> Result<bool> {
    let call = message_of(alloc, CALL.to_vec(alloc)?)?;
    let mut server = service(alloc)?;
    let before = server.dispatched(3);
    let put = is_put(alloc, &mut server, &call)?;
    Ok(!before && put && server.dispatched(3) && !server.dispatched(4))
}

#[test]
fn a_reply_counts_as_put_once_it_was(rt: HostRuntime) {
    assert!(rt; matches!(&is_told(rt.alloc()), Ok(true)));
}
