//! Calls and signals that are built. The bytes are worked by hand from the D-Bus Specification,
//! "Message Format", "Header Fields" and "Marshaling".
use crate::test_support::{do_call, holds, is_built};
use std::alloc::Global;
use wire_message::{Body, Builder, Flags, Message, NonePending, Result, Serials};
use wire_value::{
    Array, BusName, Endian, InterfaceName, MemberName, ObjectPath, OwnedBusName,
    OwnedInterfaceName, OwnedMemberName, OwnedObjectPath, OwnedUniqueName, Signature, UniqueName,
};

/// A call of `do` at `/`, with the flag NO_AUTO_START, to `:1.0`, with the serial 1.
const SENT_CALL: &[u8] =
    b"l\x01\x02\x01\x00\x00\x00\x00\x01\x00\x00\x00\x2d\x00\x00\x00\x01\x01o\x00\x01\x00\x00\x00/\x00\x00\x00\x00\x00\x00\x00\x03\x01s\x00\x02\x00\x00\x00do\x00\x00\x00\x00\x00\x00\x06\x01s\x00\x04\x00\x00\x00:1.0\x00\x00\x00\x00";

/// A call with a flag.
fn flagged_call() -> Result<Builder<'static>> {
    do_call()?.with_flags(Flags::NoAutoStart)
}

/// The same with a destination.
fn sent_call() -> Result<Builder<'static>> {
    let destination = BusName::try_from(":1.0")?;
    Ok(flagged_call()?.destination(&destination))
}

fn sent_call_is_built(alloc: Global) -> Result<bool> {
    is_built(alloc, sent_call()?, SENT_CALL)
}

/// Four numbers of 4 bytes behind the length of their array, in little order.
const NUMBERS: &[u8] =
    b"\x10\x00\x00\x00\x01\x00\x00\x00\x02\x00\x00\x00\x03\x00\x00\x00\x04\x00\x00\x00";

/// A call of `do` at `/` with the four numbers, and with the reply serial 7.
const NUMBERS_CALL: &[u8] =
    b"l\x01\x00\x01\x14\x00\x00\x00\x01\x00\x00\x00\x30\x00\x00\x00\x01\x01o\x00\x01\x00\x00\x00/\x00\x00\x00\x00\x00\x00\x00\x03\x01s\x00\x02\x00\x00\x00do\x00\x00\x00\x00\x00\x00\x05\x01u\x00\x07\x00\x00\x00\x08\x01g\x00\x02ai\x00\x10\x00\x00\x00\x01\x00\x00\x00\x02\x00\x00\x00\x03\x00\x00\x00\x04\x00\x00\x00";

/// A call of `do`, with the path and the member put again, and a reply serial.
fn put_again() -> Result<Builder<'static>> {
    let path = ObjectPath::try_from("/")?;
    let member = MemberName::try_from("do")?;
    let call = Message::method_call(&path, &member);
    Ok(call.path(&path).member(&member).reply_serial(7))
}

/// The call with the numbers, built.
fn numbers_call(alloc: Global) -> Result<Message> {
    let types = Signature::try_from(alloc, "ai")?;
    let mut serials = Serials::new();
    put_again()?.build_raw_body_uncounted(alloc, &mut serials, &NonePending, NUMBERS, &types, &[])
}

/// Whether the four numbers are read again.
fn are_four(alloc: Global, body: &Body<'_>) -> Result<bool> {
    let (numbers,) = body.deserialize::<(Array<i32>,)>(alloc)?;
    Ok(numbers.as_slice() == [1, 2, 3, 4].as_slice())
}

/// Whether the first of the body is the length of the array, where its signature isn't asked.
fn begins_with_length(alloc: Global, body: &Body<'_>) -> Result<bool> {
    let (length,) = body.deserialize_unchecked::<(u32,)>(alloc)?;
    Ok(length == 16)
}

fn is_of_numbers(alloc: Global, message: &Message) -> Result<bool> {
    let body = message.body();
    Ok(
        message.data() == NUMBERS_CALL
            && are_four(alloc, &body)?
            && begins_with_length(alloc, &body)?,
    )
}

fn numbers_are_built(alloc: Global) -> Result<bool> {
    is_of_numbers(alloc, &numbers_call(alloc)?)
}

/// A signal, with a sender and the serial 77.
const SIGNAL: &[u8] =
    b"l\x04\x00\x01\x00\x00\x00\x00M\x00\x00\x00N\x00\x00\x00\x01\x01o\x00\x0a\x00\x00\x00/some/path\x00\x00\x00\x00\x00\x00\x02\x01s\x00\x0e\x00\x00\x00some.interface\x00\x00\x03\x01s\x00\x06\x00\x00\x00Member\x00\x00\x07\x01s\x00\x05\x00\x00\x00:1.84\x00\x00\x00";

fn signal() -> Result<Builder<'static>> {
    let path = ObjectPath::try_from("/some/path")?;
    let interface = InterfaceName::try_from("some.interface")?;
    let member = MemberName::try_from("Member")?;
    Ok(Message::signal(&path, &interface, &member))
}

fn signal_is_built(alloc: Global) -> Result<bool> {
    let sender = UniqueName::try_from(":1.84")?;
    is_built(alloc, signal()?.sender(&sender).serial(77), SIGNAL)
}

/// The same signal of names that it owns, but with another sender.
fn owned_signal(alloc: Global) -> Result<Builder<'static>> {
    let path = OwnedObjectPath::try_from(alloc, "/some/path")?;
    let interface = OwnedInterfaceName::try_from(alloc, "some.interface")?;
    let member = OwnedMemberName::try_from(alloc, "Member")?;
    let sender = OwnedUniqueName::try_from(alloc, ":1.7")?;
    Ok(Message::owned_signal(path, interface, member).owned_sender(sender))
}

/// The signal whose sender, a text of this function alone, is put and then copied.
fn copied_signal(alloc: Global) -> Result<Builder<'static>> {
    let sender = OwnedUniqueName::try_from(alloc, ":1.84")?;
    Ok(
        owned_signal(alloc)?
            .sender(&sender.as_ref())
            .serial(77)
            .into_owned(alloc)?,
    )
}

fn owned_signal_is_built(alloc: Global) -> Result<bool> {
    is_built(alloc, copied_signal(alloc)?, SIGNAL)
}

/// The call of `do` at `/` to `:1.0`, of names that it owns.
fn owned_call(alloc: Global) -> Result<Builder<'static>> {
    let path = OwnedObjectPath::try_from(alloc, "/")?;
    let member = OwnedMemberName::try_from(alloc, "do")?;
    let destination = OwnedBusName::try_from(alloc, ":1.0")?;
    let call = flagged_call()?.owned_path(path).owned_member(member);
    Ok(call.owned_destination(destination))
}

fn owned_call_is_built(alloc: Global) -> Result<bool> {
    is_built(alloc, owned_call(alloc)?, SENT_CALL)
}

/// A call of `do` at `/`, with the serial 2, in big order.
const BIG_CALL: &[u8] =
    b"B\x01\x00\x01\x00\x00\x00\x00\x00\x00\x00\x02\x00\x00\x00\x1b\x01\x01o\x00\x00\x00\x00\x01/\x00\x00\x00\x00\x00\x00\x00\x03\x01s\x00\x00\x00\x00\x02do\x00\x00\x00\x00\x00\x00";

/// A call whose sender and serial are left out again.
fn call_without() -> Result<Builder<'static>> {
    let sender = UniqueName::try_from(":1.72")?;
    let call = do_call()?.sender(&sender).serial(9).endian(Endian::Big);
    Ok(call.without_serial().without_sender())
}

/// Whether it is the second of two serials.
fn second_is_built(alloc: Global) -> Result<bool> {
    let mut serials = Serials::new();
    let first = serials.next_uncounted(&NonePending)?;
    let call = call_without()?.build_empty_uncounted(alloc, &mut serials, &NonePending)?;
    Ok(first == 1 && call.data() == BIG_CALL)
}

#[test]
fn calls_and_signals_are_built(rt: HostRuntime) {
    let alloc = rt.alloc();
    for answer in [
        holds(sent_call_is_built(alloc)),
        holds(numbers_are_built(alloc)),
        holds(signal_is_built(alloc)),
        holds(second_is_built(alloc)),
        holds(owned_signal_is_built(alloc)),
        holds(owned_call_is_built(alloc)),
    ] {
        assert!(rt; answer);
    }
}
