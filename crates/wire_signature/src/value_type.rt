//! Single complete types.
ghost use Rattle.std.specs.Prelude.{◌≡◌, ◌↔◌, IfOk, IsTrue};

use crate::basic::BasicType;
use crate::error::VariantError;
use crate::read::read_type;
use crate::text::{MAX_ARRAYS, MAX_LENGTH, MAX_STRUCTS, ROOM};
use crate::texting::{put_type, string_of};
use std::alloc::{AllocError, Global};
use std::marker::Model;

/// A single complete type within the limits of a signature (D-Bus Specification, "Type System", "Valid Signatures"): at most
/// 255 bytes as a text, and at most 32 arrays and 32 structs in one another.
#[cycle(types)]
#[derive(Drop)]
pub struct ValueType {
    node: TypeNode,
}

/// One level of a type: what stands inside is a type by itself (D-Bus Specification, "Container types").
#[cycle(types)]
#[derive(Drop)]
pub enum TypeNode {
    Basic(BasicType),
    Variant,
    /// An array of this element.
    Array(Box<ValueType>),
    /// An array of dict entries of this key and value.
    Dict(BasicType, Box<ValueType>),
    /// A struct of these fields, of which there is at least one.
    Struct(Vec<ValueType>),
}

impl Model for ValueType {
    ghost use Rattle.wire_signature.specs.SingleType.{SingleType, IsType, type_count};
    ghost use Rattle.wire_signature.specs.SingleTypeCode.{single_type_code};

    ghost Value = { SingleType };

    ghost coded = { single_type_code };

    ghost use Rattle.wire_signature.specs.TypeView.{single_type_of};

    ghost view = { λ t. single_type_of t.node };

    ghost invariant = { λ t. IsType (single_type_of t.node) };

    ghost size = { type_count };

    ghost use Rattle.wire_signature.specs.TypeFalls.{depth_le-type_count};

    ghost size_decreases = { λ t h. depth_le-type_count t.node };
}

impl ValueType {
    ghost use Rattle.std.specs.Prelude.{◌≡◌, ◌≤◌, IfOk, string_bytes, take};
    ghost use Rattle.wire_signature.specs.TypeView.{single_type_of};
    ghost use Rattle.wire_signature.specs.SingleType.{IsType, TypeText, alignment};
    ghost use Rattle.wire_signature.specs.Parsing.{GivesType, TellsType, type_in};

    #[tactic(auto, unfolding(crate::specs::Parsing::type_in, crate::specs::Parsing::first_at))]
    fn read(alloc: Global, text: &str) -> Result<ValueType, VariantError>
        ensures { GivesType result (type_in text.now) }
    {
        if text.len() > MAX_LENGTH {
            return Err(VariantError::Signature);
        }
        let (value_type, rest) = read_type(alloc, ROOM, MAX_ARRAYS, MAX_STRUCTS, text.as_bytes())?;
        if rest.is_empty() {
            Ok(value_type)
        } else {
            Err(VariantError::Signature)
        }
    }

    /// The single complete type that a text spells (D-Bus Specification, "Valid Signatures").
    ///
    /// # Errors
    ///
    /// `Signature` exactly where the text is no single complete type, or outside the limits: more than 255 bytes, or more than
    /// 32 arrays or 32 structs in one another. `Memory` for want of memory.
    pub fn try_from(alloc: Global, text: &str) -> Result<ValueType, VariantError>
        ensures told { TellsType result text.now }
        ensures read { GivesType result (type_in text.now) }
    {
        ValueType::read(alloc, text)
    }

    /// The type of this node. What it holds is within the limits already; it has to be so itself.
    pub fn from_node(node: TypeNode) -> ValueType
        requires { IsType (single_type_of node) }
        ensures { result ≡ single_type_of node }
    {
        ValueType { node }
    }

    /// The outermost level of the type.
    pub fn node(&self) -> &TypeNode
        ensures node { single_type_of result.now ≡ self.now }
        ensures valid { IsType self.now }
    {
        &self.node
    }

    /// A copy.
    ///
    /// # Errors
    ///
    /// AllocError for want of memory.
    pub fn try_clone(&self, alloc: Global) -> Result<ValueType, AllocError>
        ensures { IfOk result (λ copy. copy ≡ self.now) }
    {
        copy_of(alloc, self)
    }

    /// The one text of the type, as `a{sv}` (D-Bus Specification, "Type System").
    ///
    /// # Errors
    ///
    /// AllocError for want of memory.
    pub fn to_text(&self, alloc: Global) -> Result<String, AllocError>
        ensures { IfOk result (λ text. TypeText self.now (string_bytes text)) }
    {
        let mut text = [0; MAX_LENGTH];
        let end = self.put_text(&mut text);
        string_of(alloc, &text[..end])
    }

    /// Puts the one text of the type at the front of bytes, without memory, and gives its length.
    pub fn put_text(&self, out: &mut [u8; 255]) -> usize
        ensures text { TypeText self.now (take result out.new) }
        ensures within { result ≤ 255 }
    {
        // Reading the field tells the proof that the type is within the limits.
        let _ = &self.node;
        put_type(self, out, 0)
    }

    /// The boundary on which a value of the type begins, in bytes (D-Bus Specification, "Marshaling").
    pub fn alignment(&self) -> usize
        ensures { result ≡ alignment self.now }
    {
        match &self.node {
            TypeNode::Basic(basic) => basic.alignment(),
            TypeNode::Variant => 1,
            TypeNode::Array(_) | TypeNode::Dict(_, _) => 4,
            TypeNode::Struct(_) => 8,
        }
    }
}

impl PartialEq for ValueType {
    ghost use Rattle.std.specs.Prelude.{nat_eq};
    ghost use Rattle.std.specs.Cmp.{on_per, partial_equiv_from_equiv};
    ghost use Rattle.std.specs.Cmp.Lexicographic.{pointwise, nat_list_eq_equiv};
    ghost use Rattle.wire_signature.specs.SingleType.{type_text};

    ghost eq = { λ t u. pointwise nat_eq (type_text t) (type_text u) };

    ghost laws = { on_per type_text (partial_equiv_from_equiv nat_list_eq_equiv) };

    fn eq(&self, other: &ValueType) -> bool {
        // Reading the fields tells the proof that both types are within the limits, where a text is of one type alone.
        let _ = &self.node;
        let _ = &other.node;
        is_same(self, other)
    }
}

impl Eq for ValueType {
    ghost use Rattle.std.specs.Cmp.{on_equiv};
    ghost use Rattle.std.specs.Cmp.Lexicographic.{nat_list_eq_equiv};
    ghost use Rattle.wire_signature.specs.SingleType.{type_text};

    ghost laws = { on_equiv type_text nat_list_eq_equiv };
}

/// Copies of types, in their order.
#[cycle(copies)]
pub(crate) fn copies_of(alloc: Global, types: &[ValueType]) -> Result<Vec<ValueType>, AllocError>
    ensures { IfOk result (λ copies. copies.items ≡ types.now) }
{
    let mut copies = Vec::new(alloc);
    for each in types {
        copies.push(copy_of(alloc, each)?)?;
    }
    Ok(copies)
}

#[cycle(copies)]
fn copy_of(alloc: Global, value_type: &ValueType) -> Result<ValueType, AllocError>
    ensures { IfOk result (λ copy. copy ≡ value_type.now) }
{
    let node = match value_type.node() {
        TypeNode::Basic(basic) => TypeNode::Basic(*basic),
        TypeNode::Variant => TypeNode::Variant,
        TypeNode::Array(element) => TypeNode::Array(Box::new(alloc, copy_of(alloc, element)?)?),
        TypeNode::Dict(key, value) => TypeNode::Dict(
            *key,
            Box::new(alloc, copy_of(alloc, value)?)?,
        ),
        TypeNode::Struct(fields) => TypeNode::Struct(copies_of(alloc, fields)?),
    };
    Ok(ValueType::from_node(node))
}

/// Whether the types are the same, in the same order.
#[cycle(same)]
pub(crate) fn are_same(types: &[ValueType], others: &[ValueType]) -> bool
    ensures { IsTrue result ↔ (types.now ≡ others.now) }
{
    if types.len() != others.len() {
        return false;
    }
    for i in 0..types.len() {
        if !is_same(&types[i], &others[i]) {
            return false;
        }
    }
    true
}

#[cycle(same)]
fn is_same(value_type: &ValueType, other: &ValueType) -> bool
    ensures { IsTrue result ↔ (value_type.now ≡ other.now) }
{
    match (value_type.node(), other.node()) {
        (TypeNode::Basic(basic), TypeNode::Basic(other)) => basic == other,
        (TypeNode::Variant, TypeNode::Variant) => true,
        (TypeNode::Array(element), TypeNode::Array(other)) => is_same(element, other),
        (TypeNode::Dict(key, value), TypeNode::Dict(other_key, other)) => key == other_key
            && is_same(value, other),
        (TypeNode::Struct(fields), TypeNode::Struct(others)) => are_same(fields, others),
        _ => false,
    }
}
