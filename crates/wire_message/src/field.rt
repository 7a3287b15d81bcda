//! Codes of header fields, and what each holds.
ghost use Rattle.std.specs.Prelude.{◌≡◌, ◌≤◌, length, IsSome};
ghost use Rattle.wire_message.specs.Field.{code_byte, field_type, is_text as has_text, is_number as has_number, no_fields, with_text as text_put, with_number as number_put};
ghost use Rattle.wire_message.specs.FieldReading.{code_of, code_at as code_found};

use wire_names::{BusName, ErrorName, InterfaceName, MemberName, ObjectPath, UniqueName};
use wire_signature::{BasicType, is_signature};

/// A header field's code (D-Bus Specification, "Header Fields").
#[derive(Clone, Copy, PartialEq, Eq, Debug)]
pub enum FieldCode {
    Path,
    Interface,
    Member,
    ErrorName,
    ReplySerial,
    Destination,
    Sender,
    Signature,
    UnixFds,
}

/// The code of a byte: 1 to 9 in the order above.
fn field_code(byte: u8) -> Option<FieldCode>
    ensures { result ≡ code_of byte }
{
    match byte {
        1 => Some(FieldCode::Path),
        2 => Some(FieldCode::Interface),
        3 => Some(FieldCode::Member),
        4 => Some(FieldCode::ErrorName),
        5 => Some(FieldCode::ReplySerial),
        6 => Some(FieldCode::Destination),
        7 => Some(FieldCode::Sender),
        8 => Some(FieldCode::Signature),
        9 => Some(FieldCode::UnixFds),
        _ => None,
    }
}

impl FieldCode {
    /// The byte of the code.
    pub(crate) fn byte(self) -> u8
        ensures { result ≡ code_byte self }
    {
        match self {
            FieldCode::Path => 1,
            FieldCode::Interface => 2,
            FieldCode::Member => 3,
            FieldCode::ErrorName => 4,
            FieldCode::ReplySerial => 5,
            FieldCode::Destination => 6,
            FieldCode::Sender => 7,
            FieldCode::Signature => 8,
            FieldCode::UnixFds => 9,
        }
    }

    /// The type of the field's value.
    pub(crate) fn value_type(self) -> BasicType
        ensures { result ≡ field_type self }
    {
        match self {
            FieldCode::Path => BasicType::ObjectPath,
            FieldCode::ReplySerial | FieldCode::UnixFds => BasicType::Uint32,
            FieldCode::Signature => BasicType::Signature,
            _ => BasicType::String,
        }
    }
}

/// The nine header fields, each there or not: texts as `T`, and numbers.
#[derive(Clone, Copy, Drop)]
pub(crate) struct FieldsOf<T> {
    pub(crate) path: Option<T>,
    pub(crate) interface: Option<T>,
    pub(crate) member: Option<T>,
    pub(crate) error_name: Option<T>,
    pub(crate) reply_serial: Option<u32>,
    pub(crate) destination: Option<T>,
    pub(crate) sender: Option<T>,
    pub(crate) signature: Option<T>,
    pub(crate) unix_fds: Option<u32>,
}

impl<T: Drop> FieldsOf<T> {
    /// None of them is there.
    pub(crate) fn none() -> FieldsOf<T>
        ensures { result ≡ no_fields }
    {
        FieldsOf {
            path: None,
            interface: None,
            member: None,
            error_name: None,
            reply_serial: None,
            destination: None,
            sender: None,
            signature: None,
            unix_fds: None,
        }
    }

    /// Puts the text in place of an earlier one of the field.
    pub(crate) fn set_text(&mut self, code: FieldCode, text: T)
        ensures { self.new ≡ text_put code text self.old }
    {
        match code {
            FieldCode::Path => self.path = Some(text),
            FieldCode::Interface => self.interface = Some(text),
            FieldCode::Member => self.member = Some(text),
            FieldCode::ErrorName => self.error_name = Some(text),
            FieldCode::Destination => self.destination = Some(text),
            FieldCode::Sender => self.sender = Some(text),
            FieldCode::Signature => self.signature = Some(text),
            FieldCode::ReplySerial | FieldCode::UnixFds => {}
        }
    }

    /// Puts the number in place of an earlier one of the field.
    pub(crate) fn set_number(&mut self, code: FieldCode, number: u32)
        ensures { self.new ≡ number_put code number self.old }
    {
        match code {
            FieldCode::ReplySerial => self.reply_serial = Some(number),
            FieldCode::UnixFds => self.unix_fds = Some(number),
            _ => {}
        }
    }
}

/// The code at the front of a field whose value has its type.
#[tactic(auto, unfolding(crate::specs::FieldReading::code_at))]
pub(crate) fn code_at(bytes: &[u8]) -> Option<FieldCode>
    ensures code { result ≡ code_found bytes.now }
    ensures long { IsSome result → 4 ≤ length bytes.now }
{
    match bytes {
        [byte, one, letter, nul, ..] => {
            let code = field_code(*byte)?;
            if *one == 1 && *letter == code.value_type().letter() && *nul == 0 {
                Some(code)
            } else {
                None
            }
        }
        _ => None,
    }
}

/// Whether the text is in the field's grammar.
pub(crate) fn is_text(code: FieldCode, text: &[u8]) -> bool
    ensures { result ≡ has_text code text.now }
{
    match code {
        FieldCode::Path => ObjectPath::try_from_bytes(text).is_ok(),
        FieldCode::Interface => InterfaceName::try_from_bytes(text).is_ok(),
        FieldCode::Member => MemberName::try_from_bytes(text).is_ok(),
        FieldCode::ErrorName => ErrorName::try_from_bytes(text).is_ok(),
        FieldCode::Destination => BusName::try_from_bytes(text).is_ok(),
        FieldCode::Sender => UniqueName::try_from_bytes(text).is_ok(),
        FieldCode::Signature => is_signature(text),
        FieldCode::ReplySerial | FieldCode::UnixFds => false,
    }
}

/// Whether the field may have this number: a reply serial isn't 0.
pub(crate) fn is_number(code: FieldCode, number: u32) -> bool
    ensures { result ≡ has_number code number }
{
    match code {
        FieldCode::ReplySerial => 0 < number,
        FieldCode::UnixFds => true,
        _ => false,
    }
}
