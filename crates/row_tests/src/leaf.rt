//! Values of the basic types as text.
use crate::row::Written;

/// Writes bytes between quotes, with `\` and two digits for each that is no printing character, a quote or a `\`.
pub(crate) fn write_quoted(out: &mut String, bytes: &[u8]) -> Written {
    out.push('"')?;
    for byte in bytes {
        write_byte(out, *byte)?;
    }
    out.push('"')
}

fn write_byte(out: &mut String, byte: u8) -> Written {
    if (byte.is_ascii_graphic() || byte == b' ') && byte != b'"' && byte != b'\\' {
        out.push(char::from(byte))
    } else {
        write!(out, "\\{byte:02x}")
    }
}
