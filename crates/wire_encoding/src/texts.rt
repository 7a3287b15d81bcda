//! Texts, without memory.
ghost use Rattle.std.specs.Prelude.{◌≡◌, ◌<◌, nat_lt, true, false, MatchOption};
ghost use Rattle.std.specs.List.{list_all};
ghost use Rattle.std.specs.Str.{is_utf8};
ghost use Rattle.wire_number.specs.ReaderView.{Finds, cursor_of};
ghost use Rattle.wire_tree.specs.Datum.{string, object_path, signature};
ghost use Rattle.wire_encoding.specs.Reading.{text_at};

use wire_names::ObjectPath;
use wire_number::{Endian, Reader};
use wire_signature::is_signature;

fn has_no_zero(bytes: &[u8]) -> bool
    ensures { result ≡ list_all (λ b. nat_lt 0 b) bytes.now }
{
    bytes.iter().all(|byte| *byte > 0)
}

/// The text that bytes are, where they are UTF-8.
#[tactic(auto, using(crate::proofs::Ascii::utf8_tests))]
pub fn utf8(bytes: &[u8]) -> Option<&str>
    ensures { MatchOption result (is_utf8 bytes.now ≡ false) (λ s. (s.now ≡ bytes.now) × (is_utf8 bytes.now ≡ true)) }
{
    match str::from_utf8(bytes) {
        Ok(text) => Some(text),
        Err(_) => None,
    }
}

/// The text of a `STRING`, and the reader behind it. `None` where the padding is not of zeros, the bytes end too early, no
/// 0 byte closes the text, or it is not UTF-8 or holds a 0 byte (D-Bus Specification, "String-like types").
#[tactic(auto, unfolding(crate::specs::Reading::text_at))]
pub fn string<'a>(order: Endian, reader: Reader<'a>) -> Option<(&'a str, Reader<'a>)>
    ensures { Finds (λ x. (x.0.now, cursor_of x.1)) result (text_at string order (cursor_of reader.entry)) }
{
    let (bytes, after) = reader.long_text(order)?;
    let text = utf8(bytes)?;
    if has_no_zero(bytes) {
        Some((text, after))
    } else {
        None
    }
}

/// The text of an `OBJECT_PATH`, and the reader behind it. `None` where the padding is not of zeros, the bytes end too
/// early, no 0 byte closes the text, or it is no object path (D-Bus Specification, "Valid Object Paths").
#[tactic(auto, unfolding(crate::specs::Reading::text_at))]
pub fn path<'a>(order: Endian, reader: Reader<'a>) -> Option<(&'a str, Reader<'a>)>
    ensures { Finds (λ x. (x.0.now, cursor_of x.1)) result (text_at object_path order (cursor_of reader.entry)) }
{
    let (bytes, after) = reader.long_text(order)?;
    let path = ObjectPath::try_from_bytes(bytes).ok()?;
    Some((path.as_str(), after))
}

/// The text of a `SIGNATURE`, and the reader behind it. `None` where the bytes end too early, no 0 byte closes the text, or
/// it is no signature (D-Bus Specification, "Valid Signatures").
#[tactic(auto, using(crate::proofs::Ascii::no_signature), unfolding(crate::specs::Reading::text_at))]
pub fn signature<'a>(order: Endian, reader: Reader<'a>) -> Option<(&'a str, Reader<'a>)>
    ensures { Finds (λ x. (x.0.now, cursor_of x.1)) result (text_at signature order (cursor_of reader.entry)) }
{
    let (bytes, after) = reader.short_text(order)?;
    let text = utf8(bytes)?;
    if is_signature(bytes) {
        Some((text, after))
    } else {
        None
    }
}
