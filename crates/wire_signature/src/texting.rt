//! The texts of types. They are put into bytes on the stack, whose room is the limit of a signature, without memory.
ghost use Rattle.std.specs.Prelude.{◌≡◌, ◌+◌, ◌<◌, ◌≤◌, [], ◌∷◌, IfOk, IsUtf8, length, string_bytes};
ghost use Rattle.wire_signature.specs.SingleType.{single_types_of, type_text, types_text};
ghost use Rattle.wire_signature.specs.Texting.{Puts};

use crate::value_type::{TypeNode, ValueType};
use std::alloc::{AllocError, Global};

/// A copy of a text as a string.
pub(crate) fn string_of(alloc: Global, text: &[u8]) -> Result<String, AllocError>
    requires { IsUtf8 text.now }
    ensures { IfOk result (λ string. string_bytes string ≡ text.now) }
{
    match str::from_utf8(text) {
        Ok(text) => String::from_str(alloc, text),
        Err(_) => unreachable!(),
    }
}

/// Puts a letter at a place, and gives the place behind it.
fn put(letter: u8, out: &mut [u8; 255], at: usize) -> usize
    requires { at < 255 }
    ensures { Puts (letter ∷ []) at out.old result out.new }
{
    out[at] = letter;
    at + 1
}

/// Puts the texts of types, one behind the other, at a place, and gives the place behind them.
#[cycle(text)]
pub(crate) fn put_types(types: &[ValueType], out: &mut [u8; 255], at: usize) -> usize
    requires { at + length (types_text (single_types_of types.now)) ≤ 255 }
    ensures { Puts (types_text (single_types_of types.now)) at out.old result out.new }
{
    let mut next = at;
    for each in types {
        next = put_type(each, out, next);
    }
    next
}

/// Puts the text of a type at a place, and gives the place behind it.
#[cycle(text)]
#[tactic(auto, using(crate::proofs::Puts::puts_then))]
pub(crate) fn put_type(value_type: &ValueType, out: &mut [u8; 255], at: usize) -> usize
    requires { at + length (type_text value_type.now) ≤ 255 }
    ensures { Puts (type_text value_type.now) at out.old result out.new }
{
    match value_type.node() {
        TypeNode::Basic(basic) => put(basic.letter(), out, at),
        TypeNode::Variant => put(b'v', out, at),
        TypeNode::Array(element) => {
            let next = put(b'a', out, at);
            put_type(element, out, next)
        }
        TypeNode::Dict(key, value) => {
            let next = put(b'a', out, at);
            let next = put(b'{', out, next);
            let next = put(key.letter(), out, next);
            let next = put_type(value, out, next);
            put(b'}', out, next)
        }
        TypeNode::Struct(fields) => {
            let next = put(b'(', out, at);
            let next = put_types(fields, out, next);
            put(b')', out, next)
        }
    }
}
