//! The message, or the front to be ignored, that begins some bytes: its first 16 bytes, how long it is, and what its
//! header says (D-Bus Specification, "Message Format").
ghost use Rattle.std.specs.Prelude.{ℕ, ◌≡◌, ◌+◌, ◌<◌, ◌≤◌, ◌^◌, List, length, take, drop, slice_index, Ok, Err, option_map, None, [], IfOk, IfErr, IfSome, IfNone};
ghost use Rattle.wire_number.specs.Number.{pad};
ghost use Rattle.wire_message.specs.Field.{Fields};
ghost use Rattle.wire_message.specs.Front.{MessageView, Front, order_at, word_at, fields_len, header_len as header_length, known_flags as flags_of, total as total_len, field_bytes};
ghost use Rattle.wire_message.specs.Outcome.{kind_of, fields_found, head_fault, front_outcome, received_by, received_bytes, IsUnplaced, StandsOn, Tells, TellsTotal};
ghost use Rattle.wire_message.specs.FieldOffsets.{found_fields, AreSpans};
ghost use Rattle.wire_message.specs.Head.{IsFoundFront, IsOwnFront, IsStanding, received_view};
ghost use Rattle.wire_message.specs.Taking.{Leaves};
ghost use Rattle.wire_message.specs.Whole.{message_found};
ghost use Rattle.wire_message.specs.declared.received.Received.{Received};
ghost use Rattle.wire_signature.specs.declared.error.VariantError.TheVariants.{Malformed};
ghost use Rattle.wire_message.specs.declared.error.IoKind.TheVariants.{Ended};

use crate::error::{Error, IoKind, Result};
use crate::field_offsets::FieldOffsets;
use crate::kind::message_type;
use crate::message::Message;
use crate::reading::offsets_in;
use crate::received::Received;
use crate::shared::Parts;
use std::alloc::Global;
use std::{mem, result};
use wire_names::Bytes;
use wire_number::{Endian, padding_for_8_bytes, read_u32};
use wire_signature::VariantError;

/// The greatest length of a message in bytes (D-Bus Specification, "Message Format").
pub(crate) const MESSAGE_LIMIT: usize = 134_217_728;

/// The byte order of the first byte: big for `B`, else little.
#[tactic(auto, unfolding(crate::specs::Front::order_at))]
fn byte_order(bytes: &[u8]) -> Endian
    requires { 1 ≤ length bytes.now }
    ensures { result ≡ order_at bytes.now }
{
    if bytes[0] == b'B' {
        Endian::Big
    } else {
        Endian::Little
    }
}

/// The length of the header with its padding.
pub(crate) fn header_len(bytes: &[u8]) -> usize
    requires { 16 ≤ length bytes.now }
    ensures length { result ≡ header_length bytes.now }
    ensures small { result < 2 ^ 33 }
{
    let end = 16 + read_u32(byte_order(bytes), bytes, 12) as usize;
    end + padding_for_8_bytes(end)
}

/// As `total_of`, of bytes that are at least 16.
fn head_of(bytes: &[u8]) -> Result<u32>
    requires { 16 ≤ length bytes.now }
    ensures { TellsTotal result bytes.now }
{
    if bytes[0] != b'l' && bytes[0] != b'B' {
        return Err(Error::IncorrectEndian);
    }
    let order = byte_order(bytes);
    if bytes[1] == 0 || read_u32(order, bytes, 8) == 0 {
        return Err(Error::Variant(VariantError::Malformed));
    }
    let total = header_len(bytes) + read_u32(order, bytes, 4) as usize;
    if total > MESSAGE_LIMIT {
        return Err(Error::ExcessData);
    }
    Ok(total as u32)
}

/// The length in bytes of the message, or of the front to be ignored, that begins with these 16 (D-Bus Specification,
/// "Message Format").
///
/// # Errors
///
/// The first that holds: IncorrectEndian if and only if the first byte is neither `l` nor `B`; Variant of `Malformed`
/// if and only if the message type or the serial is 0; ExcessData if and only if the length passes 134,217,728.
pub fn total_of(first: &[u8; 16]) -> Result<u32>
    ensures { TellsTotal result first.now }
{
    head_of(first)
}

/// Where the header fields stand; None where the bytes of the fields are no field array.
fn offsets_of(bytes: &[u8]) -> Option<FieldOffsets>
    requires head { 16 ≤ length bytes.now }
    requires there { 16 + fields_len bytes.now ≤ length bytes.now }
    ensures found { option_map (found_fields bytes.now) result ≡ fields_found bytes.now }
    ensures spans { IfSome result (AreSpans (16 + fields_len bytes.now)) }
{
    let order = byte_order(bytes);
    let end = 16 + read_u32(order, bytes, 12) as usize;
    offsets_in(order, bytes, end)
}

/// What a header says of its front.
#[derive(Clone, Copy)]
pub(crate) enum FrontParts {
    /// It is a message of these parts.
    Message(Parts),
    /// Its type isn't known, so it is ignored.
    Ignored,
}

/// The flags that are known: the bits 0x1, 0x2 and 0x4.
fn known_flags(bytes: &[u8]) -> u8
    requires { 3 ≤ length bytes.now }
    ensures { result ≡ flags_of bytes.now }
{
    bytes[2] % 8
}

/// What the header says of the front that begins the bytes, whose head is right and whose total is there; None where a
/// header field is outside its grammar.
fn parts_of(bytes: &[u8]) -> Option<FrontParts>
    requires length { 16 ≤ length bytes.now }
    requires right { head_fault bytes.now ≡ None }
    requires there { total_len bytes.now ≤ length bytes.now }
    ensures some { IfSome result (IsFoundFront bytes.now (total_len bytes.now)) }
    ensures none { IfNone result (front_outcome bytes.now Ended ≡ Err (Error.Variant Malformed)) }
{
    let Some(offsets) = offsets_of(bytes) else {
        return None;
    };
    let Some(kind) = message_type(bytes[1]) else {
        return Some(FrontParts::Ignored);
    };
    let order = byte_order(bytes);
    Some(FrontParts::Message(Parts {
        kind,
        order,
        flags: known_flags(bytes),
        serial: read_u32(order, bytes, 8),
        offsets,
    }))
}

/// What the header says of the front that begins the bytes, and how long the front is.
fn head_parts(bytes: &[u8]) -> Result<(FrontParts, u32)>
    ensures found { IfOk result (λ x. IsFoundFront bytes.now x.1 x.0) }
    ensures stands { IfOk result (λ x. IsStanding bytes.now x.1 x.0) }
    ensures error { IfErr result (λ e. front_outcome bytes.now Ended ≡ Err e) }
{
    if bytes.len() < 16 {
        return Err(Error::InputOutput(IoKind::Ended));
    }
    let total = head_of(bytes)?;
    if bytes.len() < total as usize {
        return Err(Error::InputOutput(IoKind::Ended));
    }
    match parts_of(bytes) {
        Some(parts) => Ok((parts, total)),
        None => Err(Error::Variant(VariantError::Malformed)),
    }
}

/// The front of these bytes, which are all of it; they are given back where no memory is left.
fn received_of(alloc: Global, own: Vec<u8>, parts: FrontParts) -> result::Result<Received, Vec<u8>>
    requires { IsOwnFront own.items parts }
    ensures received { IfOk result (λ r. r ≡ received_view own.items parts) }
    ensures back { IfErr result (λ bytes. bytes.items ≡ own.items) }
{
    match parts {
        FrontParts::Message(parts) => Ok(Received::Message(Message::from_read(alloc, own, parts)?)),
        FrontParts::Ignored => Ok(Received::Passed(Bytes::from_vec(own))),
    }
}

/// The front of so many bytes, with these parts, that begins the bytes, which are copied.
fn copy_of_front(alloc: Global, bytes: &[u8], parts: FrontParts, total: u32) -> Result<Received>
    requires { IsFoundFront bytes.now total parts }
    ensures received { IfOk result (λ r. r ≡ received_view (take total bytes.now) parts) }
    ensures error { IfErr result (λ e. e ≡ Error.Memory) }
{
    let own = Vec::from_slice(alloc, &bytes[..total as usize])?;
    match received_of(alloc, own, parts) {
        Ok(received) => Ok(received),
        Err(_) => Err(Error::Memory),
    }
}

/// The front that begins the bytes, and its length.
fn front_of(alloc: Global, bytes: &[u8]) -> Result<(Received, u32)>
    ensures exact { Tells (λ x. x.0) result (front_outcome bytes.now Ended) }
    ensures length { IfOk result (λ x. x.1 ≡ total_len bytes.now) }
{
    let (parts, total) = head_parts(bytes)?;
    let received = copy_of_front(alloc, bytes, parts, total)?;
    Ok((received, total))
}

/// What begins the bytes, not read yet, and its length in bytes: a message, or a front of a type that isn't known,
/// which a reader ignores. Flags other than 0x1, 0x2 and 0x4 and header fields of codes from 10 to 255 are ignored
/// (D-Bus Specification, "Message Format", "Header Fields").
///
/// # Errors
///
/// The first that holds: InputOutput(Ended) if and only if fewer than 16 bytes are there; those of [`total_of`];
/// InputOutput(Ended) if and only if fewer bytes than the total are there; Variant of `Malformed` if and only if a
/// header field is outside its grammar. Memory when out of memory.
pub fn header_front(alloc: Global, bytes: &[u8]) -> Result<(Received, u32)>
    ensures exact { Tells (λ x. x.0) result (front_outcome bytes.now Ended) }
    ensures length { IfOk result (λ x. x.1 ≡ length (received_bytes x.0)) }
    ensures found { IfOk result (λ x. StandsOn bytes.now x.0 x.1) }
    ensures only { (r : Received) (n : ℕ) → IsUnplaced r → StandsOn bytes.now r n → Tells (λ x. x.0) result (Ok r) }
{
    front_of(alloc, bytes)
}

/// Removes the first `count` bytes, of which there are at least so many. Those after them move to the front; it takes
/// no memory.
pub fn remove_front(bytes: &mut Vec<u8>, count: usize)
    requires { count ≤ length bytes.old.items }
    ensures { bytes.new.items ≡ drop count bytes.old.items }
{
    let left = bytes.len() - count;
    bytes.copy_within(count.., 0);
    bytes.truncate(left);
}

/// Takes the bytes, which are all of a front of these parts, unless no memory is left.
fn take_whole(alloc: Global, bytes: &mut Vec<u8>, parts: FrontParts) -> Result<Received>
    requires { IsOwnFront bytes.old.items parts }
    ensures received { IfOk result (λ r. (r ≡ received_view bytes.old.items parts) × (bytes.new.items ≡ [])) }
    ensures error { IfErr result (λ e. (e ≡ Error.Memory) × (bytes.new.items ≡ bytes.old.items)) }
{
    let own = mem::replace(bytes, Vec::new(alloc));
    match received_of(alloc, own, parts) {
        Ok(received) => Ok(received),
        Err(own) => {
            *bytes = own;
            Err(Error::Memory)
        }
    }
}

/// Takes what begins the bytes off them, as `header_front` finds it. Where the bytes are no more than that, they are
/// not copied.
///
/// # Errors
///
/// Those of `header_front`, in its order. The bytes are then as they were.
///
/// # Examples
///
/// ```
/// use wire_message::{MessageType, Received, take_front};
/// let bytes = b"l\x02\0\x01\0\0\0\0\x02\0\0\0\x08\0\0\0\x05\x01u\0\x01\0\0\0";
/// let mut read = bytes.to_vec(rt.alloc())?;
/// let front = take_front(rt.alloc(), &mut read)?;
/// assert!(rt; read.is_empty());
/// assert!(rt;
///     matches!(&front, Received::Message(it) if it.message_type() == MessageType::MethodReturn)
/// );
/// Ok(())
/// ```
pub fn take_front(alloc: Global, bytes: &mut Vec<u8>) -> Result<Received>
    ensures exact { Tells (λ r. r) result (front_outcome bytes.old.items Ended) }
    ensures rest { Leaves result bytes.old.items bytes.new.items }
    ensures found { IfOk result (λ r. StandsOn bytes.old.items r (length (received_bytes r))) }
{
    let (parts, total) = head_parts(bytes.as_slice())?;
    if total as usize == bytes.len() {
        return take_whole(alloc, bytes, parts);
    }
    let received = copy_of_front(alloc, bytes.as_slice(), parts, total)?;
    remove_front(bytes, total as usize);
    Ok(received)
}

/// The message that begins the bytes, on the bytes themselves.
fn own_front(alloc: Global, bytes: Vec<u8>) -> Result<Message>
    ensures exact { Tells (λ m. m) result (message_found (front_outcome bytes.items Ended)) }
    ensures found { IfOk result (λ m. Front bytes.items m (length m.bytes)) }
{
    let mut own = bytes;
    let (parts, total) = head_parts(own.as_slice())?;
    let FrontParts::Message(parts) = parts else {
        return Err(Error::Unsupported);
    };
    own.truncate(total as usize);
    Ok(Message::from_parts(alloc, own, parts, &[])?)
}

/// As `header_front`, for bytes that begin with a message, and on the bytes themselves, which are not copied: the
/// message holds the vector, cut off behind the message's last byte.
///
/// # Errors
///
/// Those of `header_front`, in its order; then Unsupported if and only if the bytes begin with a front that is ignored.
/// The vector is given up.
///
/// # Examples
///
/// ```
/// use wire_message::{MessageType, message_of};
/// let bytes = b"l\x02\0\x01\0\0\0\0\x02\0\0\0\x08\0\0\0\x05\x01u\0\x01\0\0\0";
/// let message = message_of(rt.alloc(), bytes.to_vec(rt.alloc())?)?;
/// assert!(rt; message.message_type() == MessageType::MethodReturn);
/// assert!(rt; message.reply_serial() == Some(1));
/// Ok(())
/// ```
pub fn message_of(alloc: Global, bytes: Vec<u8>) -> Result<Message>
    ensures exact { Tells (λ m. m) result (message_found (front_outcome bytes.items Ended)) }
    ensures found { IfOk result (λ m. Front bytes.items m (length m.bytes)) }
    ensures only { (m : MessageView) (n : ℕ) → m.position ≡ 0 → Front bytes.items m n → Tells (λ m. m) result (Ok m) }
{
    own_front(alloc, bytes)
}
