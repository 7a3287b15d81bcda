//! What the tests share: a call and its bytes; what is sent, and what came.
use std::alloc::Global;
use wire_framing::{ReadHalf, Sink, Source, WriteHalf};
use wire_message::{
    Builder, Error, IoKind, Message, NonePending, Received, Result, Serials, message_of,
};
use wire_value::{MemberName, ObjectPath};

/// Whether all was as it should be.
pub(crate) fn holds(answer: Result<bool>) -> bool {
    matches!(&answer, Ok(true))
}

/// A call of `do` at `/`.
pub(crate) fn do_call() -> Result<Builder<'static>> {
    let path = ObjectPath::try_from("/")?;
    let member = MemberName::try_from("do")?;
    Ok(Message::method_call(&path, &member))
}

/// Whether the message without a body is these bytes, where no serial was drawn before.
pub(crate) fn is_built(alloc: Global, builder: Builder<'_>, bytes: &[u8]) -> Result<bool> {
    let message = builder.build_empty_uncounted(alloc, &mut Serials::new(), &NonePending)?;
    Ok(message.data() == bytes)
}

/// A method return of serial 1 to the call of serial 1, without a body: 24 bytes.
pub(crate) const RETURN: [u8; 24] = [
    b'l', 2, 0, 1, 0, 0, 0, 0, 1, 0, 0, 0, 8, 0, 0, 0, 5, 1, b'u', 0, 1, 0, 0, 0,
];

/// The same return with another serial.
fn return_of(serial: u8) -> [u8; 24] {
    let mut bytes = RETURN;
    bytes[8] = serial;
    bytes
}

/// Sends the return of this serial.
fn send<W: Sink>(alloc: Global, half: &mut WriteHalf<W>, serial: u8) -> Result<()> {
    half.send_message(&message_of(alloc, return_of(serial).to_vec(alloc)?)?)
}

/// Sends the returns of the serials behind this one, up to the last.
pub(crate) fn send_behind<W: Sink>(
    alloc: Global,
    half: &mut WriteHalf<W>,
    serial: u8,
    last: u8,
) -> Result<()> {
    for before in serial..last {
        send(alloc, half, before.saturating_add(1))?;
    }
    Ok(())
}

/// Whether this is the return of this serial, at the same position.
pub(crate) fn is_return(answer: &Result<Received>, serial: u8) -> bool {
    match answer {
        Ok(Received::Message(message)) => {
            message.data() == return_of(serial).as_slice()
                && message.recv_position() == u64::from(serial)
        }
        _ => false,
    }
}

/// How many returns come, the first of serial 1, the next of serial 2 and so on, and then the end; None where anything else
/// comes.
pub(crate) fn count_of<S: Source>(alloc: Global, half: &mut ReadHalf<S>) -> Option<u8> {
    let mut kept = Vec::new(alloc);
    for serial in 1..100u8 {
        let answer = half.receive_message(alloc, u64::from(serial), &mut kept);
        if matches!(&answer, Err(Error::InputOutput(IoKind::Ended))) {
            return Some(serial - 1);
        }
        if !is_return(&answer, serial) {
            return None;
        }
    }
    None
}
