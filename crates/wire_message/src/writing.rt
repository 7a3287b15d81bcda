//! Writing a header (D-Bus Specification, "Message Format", "Header Fields").
ghost use Rattle.std.specs.Prelude.{◌≡◌, ◌≤◌, ◌^◌, ◌++◌, ◌∷◌, [], length, IfSome, OnOk, IfOk};
ghost use Rattle.wire_number.specs.Number.{pad};
ghost use Rattle.wire_message.specs.Field.{field_type, value_bytes, no_fields, Text, Number, there, field_list};
ghost use Rattle.wire_message.specs.BuilderView.{AreShort, IsShortText, IsShortValue};
ghost use Rattle.wire_message.specs.FieldValue.{value_of};
ghost use Rattle.wire_message.specs.FieldOffsets.{AppendsFields};

use crate::field::{FieldCode, FieldsOf};
use crate::field_offsets::{FieldOffsets, FieldValue};
use crate::front::MESSAGE_LIMIT;
use crate::header_text::HeaderText;
use std::alloc::{AllocError, Global};
use wire_number::{Endian, append, append_signature, append_text, write_u32};
use wire_signature::BasicType;

/// The header fields of a message that isn't built yet.
pub(crate) type HeaderFields<'a> = FieldsOf<HeaderText<'a>>;

/// How much a field takes beside its text, at most: its padding, code, signature, length, and a 0 byte.
const FIELD_FRONT: usize = 20;

/// The same text, owned, if it is there.
fn owned_text(
    alloc: Global,
    text: Option<HeaderText<'_>>,
) -> Result<Option<HeaderText<'static>>, AllocError>
    ensures { IfOk result (λ copy. copy ≡ text.entry) }
{
    match text {
        Some(text) => Ok(Some(text.into_owned(alloc)?)),
        None => Ok(None),
    }
}

impl<'a> FieldsOf<HeaderText<'a>> {
    /// The same fields, whose texts are their own: those that are borrowed are copied.
    pub(crate) fn into_owned(self, alloc: Global) -> Result<HeaderFields<'static>, AllocError>
        ensures { IfOk result (λ fields. fields ≡ self.entry) }
    {
        Ok(FieldsOf {
            path: owned_text(alloc, self.path)?,
            interface: owned_text(alloc, self.interface)?,
            member: owned_text(alloc, self.member)?,
            error_name: owned_text(alloc, self.error_name)?,
            reply_serial: self.reply_serial,
            destination: owned_text(alloc, self.destination)?,
            sender: owned_text(alloc, self.sender)?,
            signature: owned_text(alloc, self.signature)?,
            unix_fds: self.unix_fds,
        })
    }
}

/// For how many bytes a field with that text makes room.
fn text_room(text: &Option<HeaderText<'_>>) -> usize
    ensures { result ≤ 134217748 }
{
    match text {
        Some(text) => text.as_str().len().min(MESSAGE_LIMIT) + FIELD_FRONT,
        None => 0,
    }
}

/// For how many bytes a header with these fields makes room, so that it is written into one piece of memory.
pub(crate) fn header_room(fields: &HeaderFields<'_>) -> usize
    ensures { result ≤ 2 ^ 30 }
{
    let names = text_room(&fields.interface)
        + text_room(&fields.member)
        + text_room(&fields.error_name);
    let peers = text_room(&fields.destination) + text_room(&fields.sender);
    let start = 16 + 2 * FIELD_FRONT + 8;
    start + text_room(&fields.path) + names + peers + text_room(&fields.signature)
}

/// Adds a value of the type, on the boundary of its length.
fn put_value(
    out: &mut Vec<u8>,
    order: Endian,
    kind: BasicType,
    field_value: FieldValue<'_>,
) -> Result<(), AllocError>
    requires short { IsShortValue kind (value_of field_value) }
    requires placed { pad (length out.old.items) 4 ≡ 0 }
    ensures { OnOk result (out.new.items ≡ out.old.items ++ value_bytes order kind (value_of field_value.entry)) }
{
    match field_value {
        FieldValue::Text(text) => match kind {
            BasicType::Signature => append_signature(order, out, text),
            _ => append_text(order, out, 0, text),
        },
        FieldValue::Number(number) => append(out, 0, 4, &write_u32(order, number)),
    }
}

/// Adds a field: its padding, its code, the signature of its value, its value. Its offsets are put beside the others.
fn put_field(
    out: &mut Vec<u8>,
    order: Endian,
    code: FieldCode,
    field_value: FieldValue<'_>,
    offsets: &mut FieldOffsets,
) -> Result<(), AllocError>
    requires { IsShortValue (field_type code) (value_of field_value) }
    ensures { OnOk result (AppendsFields order (record { code = code; value = value_of field_value.entry } ∷ []) out.old.items offsets.old out.new.items offsets.new) }
{
    let kind = code.value_type();
    append(out, 0, 8, &[code.byte(), 1, kind.letter(), 0])?;
    put_value(out, order, kind, field_value)?;
    offsets.set_value(code, field_value, out.len());
    Ok(())
}

/// Adds a field with a text, if it is there.
fn put_text(
    out: &mut Vec<u8>,
    order: Endian,
    code: FieldCode,
    text: &Option<HeaderText<'_>>,
    offsets: &mut FieldOffsets,
) -> Result<(), AllocError>
    requires { IfSome text.now (λ t. IsShortText (field_type code) t) }
    ensures { OnOk result (AppendsFields order (there Text code text.now) out.old.items offsets.old out.new.items offsets.new) }
{
    match text {
        Some(text) => {
            let bytes = text.as_str().as_bytes();
            put_field(out, order, code, FieldValue::Text(bytes), offsets)
        },
        None => Ok(()),
    }
}

/// Adds a field with a number, if it is there.
fn put_number(
    out: &mut Vec<u8>,
    order: Endian,
    code: FieldCode,
    number: Option<u32>,
    offsets: &mut FieldOffsets,
) -> Result<(), AllocError>
    ensures { OnOk result (AppendsFields order (there Number code number) out.old.items offsets.old out.new.items offsets.new) }
{
    match number {
        Some(number) => put_field(out, order, code, FieldValue::Number(number), offsets),
        None => Ok(()),
    }
}

/// Adds these fields. Their offsets are put beside the others.
fn put_each(
    out: &mut Vec<u8>,
    order: Endian,
    fields: &HeaderFields<'_>,
    offsets: &mut FieldOffsets,
) -> Result<(), AllocError>
    requires { AreShort fields.now }
    ensures { OnOk result (AppendsFields order (field_list fields.now) out.old.items offsets.old out.new.items offsets.new) }
{
    put_text(out, order, FieldCode::Path, &fields.path, offsets)?;
    put_text(out, order, FieldCode::Interface, &fields.interface, offsets)?;
    put_text(out, order, FieldCode::Member, &fields.member, offsets)?;
    put_text(
        out,
        order,
        FieldCode::ErrorName,
        &fields.error_name,
        offsets,
    )?;
    let reply_serial = fields.reply_serial;
    put_number(out, order, FieldCode::ReplySerial, reply_serial, offsets)?;
    let destination = &fields.destination;
    put_text(out, order, FieldCode::Destination, destination, offsets)?;
    put_text(out, order, FieldCode::Sender, &fields.sender, offsets)?;
    put_text(out, order, FieldCode::Signature, &fields.signature, offsets)?;
    put_number(out, order, FieldCode::UnixFds, fields.unix_fds, offsets)?;
    Ok(())
}

/// Adds these fields. The answer is where they stand.
pub(crate) fn put_fields(
    out: &mut Vec<u8>,
    order: Endian,
    fields: &HeaderFields<'_>,
) -> Result<FieldOffsets, AllocError>
    requires { AreShort fields.now }
    ensures { IfOk result (AppendsFields order (field_list fields.now) out.old.items no_fields out.new.items) }
{
    let mut offsets = FieldOffsets::none();
    put_each(out, order, fields, &mut offsets)?;
    Ok(offsets)
}
