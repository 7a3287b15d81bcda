//! Walking over the text of types without memory. What may still stand in one another is counted down, so that no
//! text leads deeper than the limits allow: `arrays` and `structs` by the standard, and `room` for the calls themselves.
ghost use Rattle.std.specs.Prelude.{◌≡◌, [], ◌∷◌, length, MatchOption};
ghost use Rattle.std.specs.Option.{option_copied};
ghost use Rattle.wire_signature.specs.Parsing.{array_or_dict, behind, entry_at, fields_at, many_at, skip_byte, rest_of, type_at, type_step};

use crate::basic::BasicType;

/// Where a row of types ends.
#[derive(Clone, Copy, Debug, PartialEq, Eq)]
pub enum End {
    /// At the bracket that closes a struct.
    Bracket,
    /// At the end of the text.
    Text,
}

/// The text behind its first byte, where that is `byte`.
pub(crate) fn skip_byte(byte: u8, text: &[u8]) -> Option<&[u8]>
    ensures { option_copied result ≡ skip_byte byte text.now }
{
    match text {
        [first, rest @ ..] if *first == byte => Some(rest),
        _ => None,
    }
}

impl End {
    /// The text behind the end, where the text begins with it.
    pub(crate) fn behind(self, text: &[u8]) -> Option<&[u8]>
        ensures { option_copied result ≡ behind self text.now }
    {
        match self {
            End::Bracket => skip_byte(b')', text),
            End::Text if text.is_empty() => Some(text),
            End::Text => None,
        }
    }
}

/// The first byte, and the text behind it.
pub(crate) fn split(text: &[u8]) -> Option<(u8, &[u8])>
    ensures { MatchOption result (text.now ≡ []) (λ x. text.now ≡ x.0 ∷ x.1.now) }
{
    let (first, rest) = text.split_first()?;
    Some((*first, rest))
}

/// The text behind a dict entry, whose opening bracket was passed.
#[cycle(walk)]
fn skip_entry(room: usize, arrays: usize, structs: usize, text: &[u8]) -> Option<&[u8]>
    ensures { option_copied result ≡ rest_of (entry_at (type_at room arrays structs) text.now) }
{
    let (key, rest) = split(text)?;
    BasicType::from_letter(key)?;
    let rest = skip_type(room, arrays, structs, rest)?;
    skip_byte(b'}', rest)
}

/// The text behind an array, whose letter was passed.
#[cycle(walk)]
fn skip_array(room: usize, arrays: usize, structs: usize, text: &[u8]) -> Option<&[u8]>
    ensures { option_copied result ≡ rest_of (array_or_dict (type_at room arrays structs) text.now (skip_byte 123 text.now)) }
{
    match skip_byte(b'{', text) {
        Some(entry) => skip_entry(room, arrays, structs, entry),
        None => skip_type(room, arrays, structs, text),
    }
}

/// The text behind a struct, whose opening bracket was passed.
#[cycle(walk)]
fn skip_fields(room: usize, arrays: usize, structs: usize, text: &[u8]) -> Option<&[u8]>
    ensures { option_copied result ≡ rest_of (fields_at (type_at room arrays structs) text.now (skip_byte 41 text.now)) }
{
    match skip_byte(b')', text) {
        Some(_) => None,
        None => skip_types(End::Bracket, room, arrays, structs, text),
    }
}

/// The text behind the types up to their end.
#[cycle(walk)]
pub(crate) fn skip_types(
    until: End,
    room: usize,
    arrays: usize,
    structs: usize,
    text: &[u8],
) -> Option<&[u8]>
    ensures { option_copied result ≡ rest_of (many_at (length text.now) until (type_at room arrays structs) text.now) }
{
    let mut rest = text;
    for _ in 0..text.len() {
        if let Some(after) = until.behind(rest) {
            return Some(after);
        }
        rest = skip_type(room, arrays, structs, rest)?;
    }
    until.behind(rest)
}

/// The text behind the type that begins with this byte.
#[cycle(walk)]
fn skip_kind(room: usize, arrays: usize, structs: usize, first: u8, rest: &[u8]) -> Option<&[u8]>
    ensures { option_copied result ≡ rest_of (type_step (type_at room) arrays structs (first ∷ rest.now)) }
{
    match first {
        b'a' if arrays > 0 => skip_array(room, arrays - 1, structs, rest),
        b'(' if structs > 0 => skip_fields(room, arrays, structs - 1, rest),
        b'v' => Some(rest),
        letter => {
            BasicType::from_letter(letter)?;
            Some(rest)
        }
    }
}

/// The text behind the type at its front.
#[cycle(walk)]
#[tactic(auto, unfolding(crate::specs::Parsing::type_at))]
pub(crate) fn skip_type(room: usize, arrays: usize, structs: usize, text: &[u8]) -> Option<&[u8]>
    ensures { option_copied result ≡ rest_of (type_at room arrays structs text.now) }
{
    if room == 0 {
        return None;
    }
    let (first, rest) = split(text)?;
    skip_kind(room - 1, arrays, structs, first, rest)
}
