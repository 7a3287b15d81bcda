//! Walking over bytes by the text of a type, without memory. `room` is how many containers may still be opened.
ghost use Rattle.std.specs.Prelude.{◌≡◌, [], ◌∷◌, ◌≤◌, ◌%◌, is_some, length, MatchOption};
ghost use Rattle.wire_signature.specs.Parsing.{type_in};
ghost use Rattle.wire_number.specs.Reading.{behind};
ghost use Rattle.wire_number.specs.ReaderView.{Finds, cursor_of};
ghost use Rattle.wire_encoding.specs.Reading.{basic_at, many_at};
ghost use Rattle.wire_encoding.specs.Walking.{over_array, over_struct, over_variant, skip_bracket, text_behind, text_boundary, walk_at};

use crate::cursor::elements;
use crate::fixed::{are_packed, fixed_first};
use crate::numbers::{boolean, byte, uint16, uint32, uint64};
use crate::texts::{path, signature, string};
use wire_number::{Endian, Reader};
use wire_signature::{BasicType, MAX_LENGTH, first_type};

/// The most containers that are open at once (D-Bus Specification, "Message Protocol").
pub const MAX_DEPTH: usize = 64;

/// The text behind the closing bracket at its front.
fn skip_bracket(text: &[u8]) -> Option<&[u8]>
    ensures { Finds (λ x. x.now) result (skip_bracket text.now) }
{
    match text {
        [b')' | b'}', rest @ ..] => Some(rest),
        _ => None,
    }
}

/// The boundary of what a text begins with: a type, or the bracket of a dict entry.
fn boundary_of(text: &[u8]) -> usize
    ensures exact { result ≡ text_boundary text.now }
    ensures some { 1 ≤ result }
{
    match text {
        [] => 1,
        [letter, ..] => match BasicType::from_letter(*letter) {
            Some(basic) => basic.alignment(),
            None => match *letter {
                b'a' => 4,
                b'v' => 1,
                _ => 8,
            },
        },
    }
}

/// The first byte, and the text behind it.
fn split(text: &[u8]) -> Option<(u8, &[u8])>
    ensures { MatchOption result (text.now ≡ []) (λ x. text.now ≡ x.0 ∷ x.1.now) }
{
    let (first, rest) = text.split_first()?;
    Some((*first, rest))
}

/// The text behind the type at its front.
fn text_behind(text: &[u8]) -> Option<&[u8]>
    ensures { Finds (λ x. x.now) result (text_behind text.now) }
{
    let length = first_type(text)?;
    Some(&text[length..])
}

/// Whether a text is a single complete type (D-Bus Specification, "Valid Signatures").
#[tactic(auto, using(crate::proofs::OneType::type_test))]
fn is_type(text: &[u8]) -> bool
    ensures { result ≡ is_some (type_in text.now) }
{
    if text.len() > MAX_LENGTH {
        return false;
    }
    match first_type(text) {
        Some(length) => length == text.len(),
        None => false,
    }
}

/// Skips a value of a basic type.
#[tactic(auto, unfolding(crate::specs::Reading::num_at))]
fn skip_basic<'a>(order: Endian, basic: BasicType, reader: Reader<'a>) -> Option<Reader<'a>>
    ensures { Finds cursor_of result (behind (basic_at basic order (cursor_of reader.entry))) }
{
    let after = match basic {
        BasicType::Byte => byte(order, reader)?.1,
        BasicType::Boolean => boolean(order, reader)?.1,
        BasicType::Int16 | BasicType::Uint16 => uint16(order, reader)?.1,
        BasicType::Int32 | BasicType::Uint32 | BasicType::UnixFd => uint32(order, reader)?.1,
        BasicType::Int64 | BasicType::Uint64 | BasicType::Double => uint64(order, reader)?.1,
        BasicType::String => string(order, reader)?.1,
        BasicType::ObjectPath => path(order, reader)?.1,
        BasicType::Signature => signature(order, reader)?.1,
    };
    Some(after)
}

/// Over the value, or the dict entry, whose type stands at the front of a text: the text behind that, and what stands
/// behind the value.
#[cycle(walk)]
#[tactic(auto, using(crate::proofs::Walks::walking))]
pub(crate) fn walk_value<'t, 'a>(
    order: Endian,
    room: usize,
    text: &'t [u8],
    reader: Reader<'a>,
) -> Option<(&'t [u8], Reader<'a>)>
    ensures { Finds (λ x. (x.0.now, cursor_of x.1)) result (walk_at room order text.now (cursor_of reader.entry)) }
{
    let (letter, rest) = split(text)?;
    if let Some(basic) = BasicType::from_letter(letter) {
        let after = skip_basic(order, basic, reader)?;
        return Some((rest, after));
    }
    if room == 0 {
        return None;
    }
    match letter {
        b'a' => walk_array(order, room - 1, text, rest, reader),
        b'(' | b'{' => walk_fields(order, room - 1, rest, reader),
        b'v' => walk_variant(order, room - 1, rest, reader),
        _ => None,
    }
}

/// Over an array; the text is its type, and behind the first byte its elements'.
#[cycle(walk)]
fn walk_array<'t, 'a>(
    order: Endian,
    room: usize,
    text: &'t [u8],
    element: &'t [u8],
    reader: Reader<'a>,
) -> Option<(&'t [u8], Reader<'a>)>
    ensures { Finds (λ x. (x.0.now, cursor_of x.1)) result (over_array (walk_at room order) order text.now element.now (cursor_of reader.entry)) }
{
    let rest = text_behind(text)?;
    let (elements, after) = elements(order, boundary_of(element), reader)?;
    walk_items(order, room, element, elements)?;
    Some((rest, after))
}

/// Over all elements of an array, which fill the bytes and begin on their boundary.
#[cycle(walk)]
fn walk_items<'t, 'a>(
    order: Endian,
    room: usize,
    element: &'t [u8],
    elements: Reader<'a>,
) -> Option<()>
    requires { elements.place % text_boundary element.now ≡ 0 }
    ensures { is_some result ≡ is_some (many_at (length elements.entry.rest.now) (walk_at room order element.now) (cursor_of elements.entry)) }
{
    match fixed_first(element) {
        Some(basic) => {
            if are_packed(order, basic, elements.rest) {
                Some(())
            } else {
                None
            }
        }
        None => walk_each(order, room, element, elements),
    }
}

/// The same, by a walk over each.
#[cycle(walk)]
#[tactic(auto, using(crate::proofs::Loops::elements))]
fn walk_each<'t, 'a>(
    order: Endian,
    room: usize,
    element: &'t [u8],
    elements: Reader<'a>,
) -> Option<()>
    ensures { is_some result ≡ is_some (many_at (length elements.entry.rest.now) (walk_at room order element.now) (cursor_of elements.entry)) }
{
    let mut left = elements;
    for _ in 0..elements.rest.len() {
        if left.rest.is_empty() {
            return Some(());
        }
        let (_, after) = walk_value(order, room, element, left)?;
        left = after;
    }
    if left.rest.is_empty() { Some(()) } else { None }
}

/// Over the fields of a struct, or a dict entry's key and value, and the bracket that closes it. The opening one was
/// passed.
#[cycle(walk)]
#[tactic(auto, using(crate::proofs::Walks::fielding))]
fn walk_fields<'t, 'a>(
    order: Endian,
    room: usize,
    text: &'t [u8],
    reader: Reader<'a>,
) -> Option<(&'t [u8], Reader<'a>)>
    ensures { Finds (λ x. (x.0.now, cursor_of x.1)) result (over_struct (walk_at room order) text.now (cursor_of reader.entry)) }
{
    let mut left = text;
    let mut stand = reader.align(8)?;
    for _ in 0..text.len() {
        if let Some(rest) = skip_bracket(left) {
            return Some((rest, stand));
        }
        let (rest, after) = walk_value(order, room, left, stand)?;
        left = rest;
        stand = after;
    }
    None
}

/// Over a variant. Its own signature says what it holds.
#[cycle(walk)]
fn walk_variant<'t, 'a>(
    order: Endian,
    room: usize,
    rest: &'t [u8],
    reader: Reader<'a>,
) -> Option<(&'t [u8], Reader<'a>)>
    ensures { Finds (λ x. (x.0.now, cursor_of x.1)) result (over_variant (walk_at room order) order rest.now (cursor_of reader.entry)) }
{
    let (text, inner) = reader.short_text(order)?;
    if !is_type(text) {
        return None;
    }
    let (_, after) = walk_value(order, room, text, inner)?;
    Some((rest, after))
}
