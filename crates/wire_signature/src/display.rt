//! The texts of types and signatures, printed without memory.
ghost use Rattle.std.specs.Prelude.{◌≡◌, IsUtf8, Some};
ghost use Rattle.std.specs.Fmt.{WritesOnOk};
ghost use Rattle.wire_signature.specs.SingleType.{signature_text, type_text};

use crate::signature::Signature;
use crate::text::MAX_LENGTH;
use crate::texting::put_types;
use crate::value_type::ValueType;
use std::fmt;

/// Writes bytes that are known to be a text.
fn write_text<W: fmt::Write>(f: &mut fmt::Formatter<W>, text: &[u8]) -> fmt::Result
    requires { IsUtf8 text.now }
    ensures { WritesOnOk W.write_str_gives f.old result text.now f.new }
{
    match str::from_utf8(text) {
        Ok(text) => f.write_str(text),
        Err(_) => unreachable!(),
    }
}

/// The one text of the type, as `a{sv}` (D-Bus Specification, "Type System").
impl fmt::Display for ValueType {
    ghost output = { λ t. Some (type_text t) };

    fn fmt<W: fmt::Write>(&self, f: &mut fmt::Formatter<W>) -> fmt::Result {
        let mut text = [0; MAX_LENGTH];
        let end = self.put_text(&mut text);
        write_text(f, &text[..end])
    }
}

/// The one text of the signature: those of its types, one behind the other (D-Bus Specification, "Valid Signatures").
impl fmt::Display for Signature {
    ghost output = { λ types. Some (signature_text types) };

    fn fmt<W: fmt::Write>(&self, f: &mut fmt::Formatter<W>) -> fmt::Result {
        let mut text = [0; MAX_LENGTH];
        let end = put_types(self.types(), &mut text, 0);
        write_text(f, &text[..end])
    }
}
