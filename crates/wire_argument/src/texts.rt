//! Texts, paths, signatures and values of any type as arguments.
ghost use Rattle.std.specs.Prelude.{◌≡◌, ◌↔◌, [], IfErr, IfOk, IsTrue, List, Some, refl, unwrap_or};
ghost use Rattle.wire_signature.specs.SingleType.{SingleType, SignatureText, basic, single_types_of, types_text, variant as any};
ghost use Rattle.wire_signature.specs.declared.basic.BasicType.TheVariants as basics;
ghost use Rattle.wire_tree.specs.Datum.{HasNoZero, IsTextOf, object_path, signature as signature_like, string as string_like, text as text_of, variant};
ghost use Rattle.wire_names.specs.Names.{IsObjectPath};
ghost use Rattle.wire_number.specs.Reading.{made};
ghost use Rattle.wire_number.specs.ReaderView.{cursor_of};
ghost use Rattle.wire_encoding.specs.Reading.{text_at};
ghost use Rattle.wire_encoding.specs.ReaderView.{Gives};
ghost use Rattle.wire_signature.specs.Parsing.{types_in};
ghost use Rattle.wire_signature.specs.declared.error.VariantError.TheVariants.{Memory};
ghost use Rattle.wire_argument.specs.Kinds.{signature_in, text_in, value_in};

use crate::argument::Argument;
use crate::buffer::SignatureBuffer;
use std::alloc::Global;
use wire_codec::{
    EncodeError, Encoder, is_within, read_inner, write_path, write_signature, write_string,
    write_variant,
};
use wire_encoding::{string, utf8};
use wire_names::{ObjectPath, OwnedObjectPath, Text};
use wire_number::{Endian, Reader};
use wire_signature::{Signature, VariantError};
use wire_tree::{Inner, Tree, Value};

/// The longest text or path, in bytes: its length is a number of 32 bits (D-Bus Specification, "Marshaling").
const MAX_TEXT: usize = 4294967295;

impl Argument for Text {
    ghost kind = { basic basics.String };

    ghost datum = { λ x. text_of string_like x };

    ghost read = { text_in };

    ghost has_fields = { tt };

    ghost of_kind = { λ x. refl };

    fn write_kind(out: &mut SignatureBuffer) -> Result<(), VariantError> {
        out.push(b's')
    }

    fn alignment() -> usize {
        4
    }

    fn check(&self, _room: usize) -> Result<(), VariantError> {
        if self.len() <= MAX_TEXT && has_no_zero(self.as_str().as_bytes()) {
            Ok(())
        } else {
            Err(VariantError::Malformed)
        }
    }

    fn encode(&self, encoder: &mut Encoder) -> Result<(), EncodeError> {
        write_string(encoder, self.as_str())
    }

    fn decode<'a>(
        alloc: Global,
        order: Endian,
        _room: usize,
        reader: Reader<'a>,
    ) -> Result<(Text, Reader<'a>), VariantError> {
        read_text(alloc, order, reader)
    }

    fn into_tree(self, _alloc: Global) -> Result<Tree, VariantError> {
        Ok(Tree::Str(self))
    }

    fn from_tree(_alloc: Global, tree: Tree) -> Result<Text, VariantError> {
        tree.into_str().ok_or(VariantError::SignatureMismatch)
    }
}

impl Argument for OwnedObjectPath {
    ghost kind = { basic basics.ObjectPath };

    ghost datum = { λ x. text_of object_path x };

    ghost read = { text_in };

    ghost has_fields = { tt };

    ghost of_kind = { λ x. refl };

    fn write_kind(out: &mut SignatureBuffer) -> Result<(), VariantError> {
        out.push(b'o')
    }

    fn alignment() -> usize {
        4
    }

    fn check(&self, _room: usize) -> Result<(), VariantError> {
        if self.as_str().len() <= MAX_TEXT {
            Ok(())
        } else {
            Err(VariantError::Malformed)
        }
    }

    fn encode(&self, encoder: &mut Encoder) -> Result<(), EncodeError> {
        write_path(encoder, self.as_str())
    }

    fn decode<'a>(
        alloc: Global,
        order: Endian,
        _room: usize,
        reader: Reader<'a>,
    ) -> Result<(OwnedObjectPath, Reader<'a>), VariantError> {
        read_path(alloc, order, reader)
    }

    fn into_tree(self, _alloc: Global) -> Result<Tree, VariantError> {
        Ok(Tree::Path(self.into_text()))
    }

    fn from_tree(alloc: Global, tree: Tree) -> Result<OwnedObjectPath, VariantError> {
        match &tree {
            Tree::Path(text) => path_of(alloc, text),
            _ => Err(VariantError::SignatureMismatch),
        }
    }
}

impl Argument for Signature {
    ghost kind = { basic basics.Signature };

    ghost datum = { λ x. text_of signature_like (types_text (single_types_of x)) };

    ghost read = { signature_in };

    ghost has_fields = { tt };

    ghost of_kind = { λ x. refl };

    fn write_kind(out: &mut SignatureBuffer) -> Result<(), VariantError> {
        out.push(b'g')
    }

    fn alignment() -> usize {
        1
    }

    fn check(&self, _room: usize) -> Result<(), VariantError> {
        // Looking at the types tells the proof that they are a signature.
        let _types = self.types();
        Ok(())
    }

    fn encode(&self, encoder: &mut Encoder) -> Result<(), EncodeError> {
        let text = self.to_text(encoder.allocator())?;
        write_signature(encoder, text.as_str())
    }

    fn decode<'a>(
        alloc: Global,
        order: Endian,
        _room: usize,
        reader: Reader<'a>,
    ) -> Result<(Signature, Reader<'a>), VariantError> {
        read_signature(alloc, order, reader)
    }

    fn into_tree(self, alloc: Global) -> Result<Tree, VariantError> {
        Ok(Tree::Sig(Text::from_string(self.to_text(alloc)?)))
    }

    fn from_tree(alloc: Global, tree: Tree) -> Result<Signature, VariantError> {
        match &tree {
            Tree::Sig(text) => signature_of(alloc, text),
            _ => Err(VariantError::SignatureMismatch),
        }
    }
}

impl Argument for Value {
    ghost kind = { any };

    ghost datum = { variant };

    ghost read = { value_in };

    ghost has_fields = { tt };

    ghost of_kind = { λ x. refl };

    fn write_kind(out: &mut SignatureBuffer) -> Result<(), VariantError> {
        out.push(b'v')
    }

    fn alignment() -> usize {
        1
    }

    fn check(&self, room: usize) -> Result<(), VariantError> {
        let tree = self.tree();
        if room > 0 && is_within(room - 1, tree) {
            Ok(())
        } else {
            Err(VariantError::Depth)
        }
    }

    fn encode(&self, encoder: &mut Encoder) -> Result<(), EncodeError> {
        write_variant(encoder.allocator(), encoder, self.tree())
    }

    fn decode<'a>(
        alloc: Global,
        order: Endian,
        room: usize,
        reader: Reader<'a>,
    ) -> Result<(Value, Reader<'a>), VariantError> {
        if room == 0 {
            return Err(VariantError::Malformed);
        }
        read_inner(alloc, order, room - 1, reader)
    }

    fn into_tree(self, alloc: Global) -> Result<Tree, VariantError> {
        Ok(Tree::Variant(Inner::new(alloc, self.into_tree())?))
    }

    fn from_tree(_alloc: Global, tree: Tree) -> Result<Value, VariantError> {
        match tree.into_variant() {
            Some(inner) => Ok(Value::from_valid(inner.into_tree())),
            None => Err(VariantError::SignatureMismatch),
        }
    }
}

/// Whether no byte is 0.
fn has_no_zero(bytes: &[u8]) -> bool
    ensures { IsTrue result ↔ HasNoZero bytes.now }
{
    bytes.iter().all(|byte| *byte > 0)
}

fn path_of(alloc: Global, text: &Text) -> Result<OwnedObjectPath, VariantError>
    requires { IsObjectPath text.now }
    ensures value { IfOk result (λ path. path ≡ text.now) }
    ensures error { IfErr result (λ e. e ≡ Memory) }
{
    match ObjectPath::try_from(text.as_str()) {
        Ok(path) => Ok(path.to_owned(alloc)?),
        // The text is a path.
        Err(_) => unreachable!(),
    }
}

fn signature_of(alloc: Global, text: &Text) -> Result<Signature, VariantError>
    requires { (types : List SingleType) × SignatureText types text.now }
    ensures value { IfOk result (λ signature. types_in text.now ≡ Some signature) }
    ensures error { IfErr result (λ e. e ≡ Memory) }
{
    Signature::try_from(alloc, text.as_str())
}

fn read_text<'a>(
    alloc: Global,
    order: Endian,
    reader: Reader<'a>,
) -> Result<(Text, Reader<'a>), VariantError>
    ensures { Gives (λ x. (x.0, cursor_of x.1)) result (text_at string_like order (cursor_of reader.entry)) }
{
    let (text, after) = string(order, reader).ok_or(VariantError::Malformed)?;
    let text = Text::from_str(alloc, text)?;
    Ok((text, after))
}

#[tactic(auto, unfolding(wire_encoding::specs::Reading::text_at))]
fn read_path<'a>(
    alloc: Global,
    order: Endian,
    reader: Reader<'a>,
) -> Result<(OwnedObjectPath, Reader<'a>), VariantError>
    ensures { Gives (λ x. (x.0, cursor_of x.1)) result (text_at object_path order (cursor_of reader.entry)) }
{
    let (bytes, after) = reader.long_text(order).ok_or(VariantError::Malformed)?;
    match ObjectPath::try_from_bytes(bytes) {
        Ok(path) => Ok((path.to_owned(alloc)?, after)),
        Err(_) => Err(VariantError::Malformed),
    }
}

#[tactic(auto, using(wire_encoding::proofs::Ascii::no_signature), unfolding(wire_encoding::specs::Reading::text_at))]
fn read_signature<'a>(
    alloc: Global,
    order: Endian,
    reader: Reader<'a>,
) -> Result<(Signature, Reader<'a>), VariantError>
    ensures { Gives (λ x. (x.0, cursor_of x.1)) result (made (λ bytes. unwrap_or (types_in bytes) []) (text_at signature_like order (cursor_of reader.entry))) }
{
    let (bytes, after) = reader.short_text(order).ok_or(VariantError::Malformed)?;
    let text = utf8(bytes).ok_or(VariantError::Malformed)?;
    match Signature::try_from(alloc, text) {
        Ok(signature) => Ok((signature, after)),
        Err(VariantError::Memory) => Err(VariantError::Memory),
        Err(_) => Err(VariantError::Malformed),
    }
}
