//! The word of a body: the text of its signature, a colon, and its values in hexadecimal.
ghost use Rattle.std.specs.Prelude.{ℕ, ◌≡◌, ◌↔◌, ◌==◌, ◌<◌, List, IfOk, IfSome, Some, length, map, option_map};
ghost use Rattle.std.specs.List.{position};
ghost use Rattle.wire_signature.specs.SingleType.{IsSignature};
ghost use Rattle.wire_signature.specs.Parsing.{types_in};
ghost use Rattle.wire_tree.specs.Datum.{Datum, type_of};
ghost use Rattle.peer_words.specs.BodyWord.{IsBodyWord, ReadsBody, at_colon, encoded_values, body_values};

use crate::hex::read_hex;
use std::alloc::{AllocError, Global};
use wire_message::{Error, Result};
use wire_value::{BodyValues, Bytes, Endian, Signature, Value, VariantError, decode_body, utf8};

fn colon_place(word: &[u8]) -> Option<usize>
    ensures place { result ≡ position (λ b. b == 58) word.now }
    ensures within { IfSome result (λ i. i < length word.now) }
{
    word.iter().position(|byte| *byte == b':')
}

/// What stands before the first colon, and what stands behind it.
fn split_colon(word: &[u8]) -> Option<(&[u8], &[u8])>
    ensures { option_map (λ x. (x.0.now, x.1.now)) result ≡ at_colon word.now }
{
    match colon_place(word) {
        Some(at) => Some((&word[..at], &word[at + 1..])),
        None => None,
    }
}

/// The signature that a text spells, if it spells one.
#[tactic(auto, using(crate::proofs::BodyWords::no_types, wire_encoding::proofs::Ascii::no_signature))]
fn signature_of(alloc: Global, text: &[u8]) -> std::result::Result<Option<Signature>, AllocError>
    ensures { IfOk result (λ signature. signature ≡ types_in text.now) }
{
    let Some(text) = utf8(text) else {
        return Ok(None);
    };
    match Signature::try_from(alloc, text) {
        Ok(signature) => Ok(Some(signature)),
        Err(VariantError::Memory) => Err(AllocError),
        Err(_) => Ok(None),
    }
}

/// The body with these values, whose types together are a signature.
fn whole_body(alloc: Global, values: Vec<Value>) -> std::result::Result<BodyValues, AllocError>
    requires { IsSignature (map type_of values.items) }
    ensures { IfOk result (λ body. body ≡ values.items) }
{
    match BodyValues::from_values(alloc, values) {
        Ok(body) => Ok(body),
        Err(error) => {
            // The types are known to be a signature, so that nothing but memory was wanting.
            prove!(matches!(&error, VariantError::Memory));
            Err(AllocError)
        }
    }
}

/// The body that bytes encode in little order, one value of each type, with nothing behind them.
fn body_of(
    alloc: Global,
    signature: &Signature,
    bytes: &[u8],
) -> std::result::Result<Option<BodyValues>, AllocError>
    ensures { IfOk result (λ body. body ≡ encoded_values signature.now bytes.now) }
{
    // Asking for the types tells the proof that they are within the limits.
    let _ = signature.types();
    match decode_body(alloc, Endian::Little, signature, bytes) {
        Ok((values, count)) => {
            if count == bytes.len() {
                Ok(Some(whole_body(alloc, values)?))
            } else {
                Ok(None)
            }
        }
        Err(VariantError::Malformed) => Ok(None),
        Err(error) => {
            // Bytes that can't be read are malformed, so that nothing but memory was wanting.
            prove!(matches!(&error, VariantError::Memory));
            Err(AllocError)
        }
    }
}

/// The body of a word, if it is one of a body.
#[tactic(auto, unfolding(crate::specs::BodyWord::body_values))]
fn body_of_word(alloc: Global, word: &[u8]) -> std::result::Result<Option<BodyValues>, AllocError>
    ensures { IfOk result (λ body. body ≡ body_values word.now) }
{
    let Some((text, digits)) = split_colon(word) else {
        return Ok(None);
    };
    let Some(signature) = signature_of(alloc, text)? else {
        return Ok(None);
    };
    let Some(bytes) = read_hex(alloc, digits)? else {
        return Ok(None);
    };
    body_of(alloc, &signature, bytes.as_slice())
}

/// Reads the word of a body: the text of its signature, a colon, and two lower-case hexadecimal digits for each byte of its
/// values' encodings in little order, of which there is at least one (D-Bus Specification, "Message Format", "Marshaling
/// (Wire Format)").
///
/// # Errors
///
/// [`Error::Variant`] of `Malformed` exactly where the word is none of a body. [`Error::Memory`] for want of memory.
pub fn read_body(alloc: Global, word: &Bytes) -> Result<BodyValues>
    ensures { ReadsBody result (body_values word.now) }
{
    match body_of_word(alloc, word.as_slice())? {
        Some(body) => Ok(body),
        None => Err(Error::Variant(VariantError::Malformed)),
    }
}

/// The values of a body's word are exactly those of which it is the word.
pub fn body_words_are_read()
    ensures { (word : List ℕ) (values : List Datum) → (body_values word ≡ Some values) ↔ IsBodyWord word values }
{}
