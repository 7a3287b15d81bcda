//! An error of an interface's own: its name, and what it says, make the reply, whose arguments are its own.
use std::alloc::Global;
use wire_message::{DBusError, Error, Message, NonePending, Result, Serials};
use wire_value::{BodyValues, Endian, ErrorName, OwnedErrorName, Text, VariantError, to};

/// A call in little order, of serial 9.
const CALL: &[u8] =
    b"l\x01\x00\x01\x00\x00\x00\x00\x09\x00\x00\x00\x1b\x00\x00\x00\x01\x01o\x00\x01\x00\x00\x00/\x00\x00\x00\x00\x00\x00\x00\x03\x01s\x00\x02\x00\x00\x00do\x00\x00\x00\x00\x00\x00";

/// Worked by hand from the D-Bus Specification, "Message Format": an error in little order of serial 1, whose body has 20 bytes
/// and whose fields 40: the name, the call's serial, the signature `su`. Then the body: a string, and a number on the next
/// multiple of 4.
const REPLY: &[u8] =
    b"l\x03\0\x01\x14\0\0\0\x01\0\0\0\x28\0\0\0\x04\x01s\0\x0b\0\0\0a.Unplugged\0\0\0\0\0\x05\x01u\0\x09\0\0\0\x08\x01g\0\x02su\0\x09\0\0\0no device\0\0\0\x07\0\0\0";

/// What an interface answers where a call fails: a text, and a number beside it.
struct OwnError {
    name: OwnedErrorName,
    text: Text,
    code: u32,
}

impl Drop for OwnError {
    fn drop(self) {
        let OwnError {
            name: _,
            text: _,
            code: _,
        } = self;
    }
}

impl DBusError for OwnError {
    ghost use Rattle.std.specs.Prelude.{Some, ◌∷◌, []};
    ghost use Rattle.wire_tree.specs.Datum.{num, string, text, uint32};

    ghost named = { λ error. error.name };

    ghost described = { λ error. Some error.text };

    ghost replied = { λ error. text string error.text ∷ num uint32 error.code ∷ [] };

    fn name(&self) -> ErrorName<'_> {
        self.name.as_ref()
    }

    fn description(&self) -> Option<&str> {
        Some(self.text.as_str())
    }

    fn reply(&self, alloc: Global) -> std::result::Result<BodyValues, VariantError> {
        to(alloc, (self.text.try_clone(alloc)?, self.code))
    }
}

/// The device isn't there.
fn unplugged(alloc: Global) -> Result<OwnError> {
    let name = OwnedErrorName::try_from(alloc, "a.Unplugged")?;
    let text = Text::from_str(alloc, "no device")?;
    Ok(OwnError {
        name,
        text,
        code: 7,
    })
}

/// The reply to the call that tells the error.
fn reply_of(alloc: Global, error: &OwnError) -> Result<Message> {
    let call = Message::from_bytes(alloc, CALL, Endian::Little)?;
    error.create_reply_uncounted(alloc, &call.header(), &mut Serials::new(), &NonePending)
}

/// Whether the reply is read as the error, with what it says.
fn is_told(alloc: Global, reply: Message) -> Result<bool> {
    let error = Error::from_message(alloc, reply);
    Ok(format!(in alloc; "{error}")?.as_str() == "a.Unplugged: no device")
}

fn is_answered(alloc: Global) -> Result<bool> {
    let reply = reply_of(alloc, &unplugged(alloc)?)?;
    Ok(reply.data() == REPLY && is_told(alloc, reply)?)
}

#[test]
fn an_error_of_ones_own_is_a_reply(rt: HostRuntime) {
    assert!(rt; matches!(&is_answered(rt.alloc()), Ok(true)));
}
