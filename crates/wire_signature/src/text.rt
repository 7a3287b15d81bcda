//! What a text says of its types, without memory.
ghost use Rattle.std.specs.Prelude.{◌≡◌, ◌↔◌, ℕ, is_some, IsTrue, List, IfSome, IfNone};
ghost use Rattle.wire_signature.specs.SingleType.{BeginsWithType, SingleType, SignatureText};
ghost use Rattle.wire_signature.specs.Parsing.{first_length, types_in};

use crate::walk::{End, skip_type, skip_types};

/// The most arrays that stand in one another in a type (D-Bus Specification, "Valid Signatures").
pub const MAX_ARRAYS: usize = 32;
/// The most structs that stand in one another in a type (D-Bus Specification, "Valid Signatures").
pub const MAX_STRUCTS: usize = 32;
/// The longest signature, in bytes (D-Bus Specification, "Valid Signatures").
pub const MAX_LENGTH: usize = 255;
/// How deep the reading of a text goes: one more than what may stand in one another.
pub(crate) const ROOM: usize = 65;

/// The length in bytes of the type at the front of a text, where one within the limits on nesting stands there.
/// Of the text behind it nothing is asked, nor of its length.
pub fn first_type(text: &[u8]) -> Option<usize>
    ensures found { IfSome result (BeginsWithType text.now) }
    ensures none { IfNone result ((count : ℕ) → BeginsWithType text.now count → ⊥) }
    ensures length { result ≡ first_length text.now }
{
    let rest = skip_type(ROOM, MAX_ARRAYS, MAX_STRUCTS, text)?;
    Some(text.len() - rest.len())
}

#[tactic(auto, unfolding(crate::specs::Parsing::types_in, crate::specs::Parsing::first_at))]
fn has_types(text: &[u8]) -> bool
    ensures { result ≡ is_some (types_in text.now) }
{
    text.len() <= MAX_LENGTH && skip_types(End::Text, ROOM, MAX_ARRAYS, MAX_STRUCTS, text).is_some()
}

/// Whether a text is a signature (D-Bus Specification, "Valid Signatures").
pub fn is_signature(text: &[u8]) -> bool
    ensures valid { IsTrue result ↔ ((types : List SingleType) × SignatureText types text.now) }
    ensures read { result ≡ is_some (types_in text.now) }
{
    has_types(text)
}
