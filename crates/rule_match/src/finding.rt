//! Steps over a message's arguments, without memory.
ghost use Rattle.std.specs.Prelude.{◌≡◌, ◌≢◌, [], ◌∷◌, IfNone, IfSome, MatchOption, slice_index};
ghost use Rattle.wire_number.specs.ReaderView.{cursor_of};
ghost use Rattle.rule_match.specs.Found.{value_of};
ghost use Rattle.rule_match.specs.Finding.{IsNext, NothingNext};

use crate::bytes::tell_bytes;
use crate::found::FoundText;
use wire_value::{Endian, Reader, first_type, path, skip_by_text, string};

/// Where arguments are read from.
#[derive(Clone, Copy)]
pub(crate) struct Source<'m> {
    pub(crate) order: Endian,
    pub(crate) signature: &'m [u8],
    pub(crate) body: &'m [u8],
}

/// What a step over one argument found: its text, where a rule may ask for it; the types of those behind it, and their
/// bytes.
#[derive(Clone, Copy)]
pub(crate) struct Next<'t, 'm> {
    pub(crate) text: FoundText<'m>,
    pub(crate) types: &'t [u8],
    pub(crate) reader: Reader<'m>,
}

/// The first byte, and the text behind it.
fn split(text: &[u8]) -> Option<(u8, &[u8])>
    ensures { MatchOption result (text.now ≡ []) (λ x. text.now ≡ x.0 ∷ x.1.now) }
{
    let (first, rest) = text.split_first()?;
    Some((*first, rest))
}

/// Steps over a string; the text names the types behind it.
fn step_string<'t, 'm>(order: Endian, types: &'t [u8], reader: Reader<'m>) -> Option<Next<'t, 'm>>
    ensures found { IfSome result (λ n. IsNext order (115 ∷ types.now) (cursor_of reader.entry) (value_of n.text) n.types.now (cursor_of n.reader)) }
    ensures none { IfNone result (NothingNext order (115 ∷ types.now) (cursor_of reader.entry)) }
{
    let (text, reader) = string(order, reader)?;
    let text = FoundText::String(text);
    Some(Next {
        text,
        types,
        reader,
    })
}

/// Steps over an object path; the text names the types behind it.
fn step_path<'t, 'm>(order: Endian, types: &'t [u8], reader: Reader<'m>) -> Option<Next<'t, 'm>>
    ensures found { IfSome result (λ n. IsNext order (111 ∷ types.now) (cursor_of reader.entry) (value_of n.text) n.types.now (cursor_of n.reader)) }
    ensures none { IfNone result (NothingNext order (111 ∷ types.now) (cursor_of reader.entry)) }
{
    let (path, reader) = path(order, reader)?;
    let text = FoundText::Path(path);
    Some(Next {
        text,
        types,
        reader,
    })
}

/// Steps over a value of another type.
fn step_other<'t, 'm>(order: Endian, types: &'t [u8], reader: Reader<'m>) -> Option<Next<'t, 'm>>
    requires string { slice_index types.now 0 ≢ 115 }
    requires path { slice_index types.now 0 ≢ 111 }
    ensures found { IfSome result (λ n. IsNext order types.now (cursor_of reader.entry) (value_of n.text) n.types.now (cursor_of n.reader)) }
    ensures none { IfNone result (NothingNext order types.now (cursor_of reader.entry)) }
{
    tell_bytes(reader.rest);
    let length = first_type(types)?;
    let count = skip_by_text(order, reader.place, types, reader.rest)?;
    let (_, types) = types.split_at(length);
    let (_, rest) = reader.rest.split_at(count);
    let place = reader.place + count;
    Some(Next {
        text: FoundText::Absent,
        types,
        reader: Reader { place, rest },
    })
}

/// Steps over the value whose type stands at the front of a text.
#[inline(always)]
pub(crate) fn step<'t, 'm>(
    order: Endian,
    types: &'t [u8],
    reader: Reader<'m>,
) -> Option<Next<'t, 'm>>
    ensures found { IfSome result (λ n. IsNext order types.now (cursor_of reader.entry) (value_of n.text) n.types.now (cursor_of n.reader)) }
    ensures none { IfNone result (NothingNext order types.now (cursor_of reader.entry)) }
{
    let (letter, others) = split(types)?;
    match letter {
        b's' => step_string(order, others, reader),
        b'o' => step_path(order, others, reader),
        _ => step_other(order, types, reader),
    }
}
