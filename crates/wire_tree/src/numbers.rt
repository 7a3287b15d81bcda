//! Numbers of a fixed type that lie packed, one behind the other.
ghost use Rattle.std.specs.Prelude.{◌≡◌, ◌<◌, ◌≤◌, ◌↔◌, [], IfNone, IfOk, IfSome, IsTrue, get_or, length, map};
ghost use Rattle.wire_tree.specs.Datum.{FixedType, bound, num, num_type, width};
ghost use Rattle.wire_tree.specs.DatumView.{datum_of};
ghost use Rattle.wire_tree.specs.Packed.{fixed_type, number_in, numbers_bits, numbers_data, numbers_type, type16, type32, type64};

use crate::tree::Tree;
use std::alloc::{AllocError, Global};
use wire_signature::BasicType;

/// The fixed types of two bytes (D-Bus Specification, "Fixed types").
#[derive(Clone, Copy, Debug, PartialEq, Eq)]
pub enum Fixed16 {
    Int16,
    Uint16,
}

/// The fixed types of four bytes but for booleans, which are 0 or 1 (D-Bus Specification, "Fixed types").
#[derive(Clone, Copy, Debug, PartialEq, Eq)]
pub enum Fixed32 {
    Int32,
    Uint32,
    /// The index of a file descriptor in its message's list.
    UnixFd,
}

/// The fixed types of eight bytes (D-Bus Specification, "Fixed types").
#[derive(Clone, Copy, Debug, PartialEq, Eq)]
pub enum Fixed64 {
    Int64,
    Uint64,
    Double,
}

/// A fixed type, by how its numbers lie (D-Bus Specification, "Fixed types").
#[derive(Clone, Copy, Debug, PartialEq, Eq)]
pub enum Fixed {
    Byte,
    Boolean,
    Of16(Fixed16),
    Of32(Fixed32),
    Of64(Fixed64),
}

/// Numbers of one fixed type in their order, each by its bits: signed ones in two's complement, a double by its 64 raw bits
/// (D-Bus Specification, "Fixed types"). They take as many bytes of memory as in a message, booleans a quarter of that.
pub enum Numbers {
    Bytes(Vec<u8>),
    Booleans(Vec<bool>),
    Of16(Fixed16, Vec<u16>),
    Of32(Fixed32, Vec<u32>),
    Of64(Fixed64, Vec<u64>),
}

impl Drop for Numbers {
    fn drop(self) {
        match self {
            Numbers::Bytes(_) => {}
            Numbers::Booleans(_) => {}
            Numbers::Of16(_, _) => {}
            Numbers::Of32(_, _) => {}
            Numbers::Of64(_, _) => {}
        }
    }
}

impl Fixed16 {
    /// The basic type that this fixed type is.
    pub fn basic(self) -> BasicType
        ensures { result ≡ num_type (type16 self) }
    {
        match self {
            Fixed16::Int16 => BasicType::Int16,
            Fixed16::Uint16 => BasicType::Uint16,
        }
    }
}

impl Fixed32 {
    /// The basic type that this fixed type is.
    pub fn basic(self) -> BasicType
        ensures { result ≡ num_type (type32 self) }
    {
        match self {
            Fixed32::Int32 => BasicType::Int32,
            Fixed32::Uint32 => BasicType::Uint32,
            Fixed32::UnixFd => BasicType::UnixFd,
        }
    }
}

impl Fixed64 {
    /// The basic type that this fixed type is.
    pub fn basic(self) -> BasicType
        ensures { result ≡ num_type (type64 self) }
    {
        match self {
            Fixed64::Int64 => BasicType::Int64,
            Fixed64::Uint64 => BasicType::Uint64,
            Fixed64::Double => BasicType::Double,
        }
    }
}

impl Fixed {
    /// The fixed type, exactly where the basic type is one.
    pub fn of(basic: BasicType) -> Option<Fixed>
        ensures some { IfSome result (λ fixed. basic ≡ num_type (fixed_type fixed)) }
        ensures none { IfNone result ((n : FixedType) → basic ≡ num_type n → ⊥) }
    {
        match basic {
            BasicType::Byte => Some(Fixed::Byte),
            BasicType::Boolean => Some(Fixed::Boolean),
            BasicType::Int16 => Some(Fixed::Of16(Fixed16::Int16)),
            BasicType::Uint16 => Some(Fixed::Of16(Fixed16::Uint16)),
            BasicType::Int32 => Some(Fixed::Of32(Fixed32::Int32)),
            BasicType::Uint32 => Some(Fixed::Of32(Fixed32::Uint32)),
            BasicType::UnixFd => Some(Fixed::Of32(Fixed32::UnixFd)),
            BasicType::Int64 => Some(Fixed::Of64(Fixed64::Int64)),
            BasicType::Uint64 => Some(Fixed::Of64(Fixed64::Uint64)),
            BasicType::Double => Some(Fixed::Of64(Fixed64::Double)),
            BasicType::String | BasicType::ObjectPath | BasicType::Signature => None,
        }
    }

    /// The basic type that this fixed type is.
    pub fn basic(self) -> BasicType
        ensures { result ≡ num_type (fixed_type self) }
    {
        match self {
            Fixed::Byte => BasicType::Byte,
            Fixed::Boolean => BasicType::Boolean,
            Fixed::Of16(fixed) => fixed.basic(),
            Fixed::Of32(fixed) => fixed.basic(),
            Fixed::Of64(fixed) => fixed.basic(),
        }
    }

    /// How many bytes a number takes (D-Bus Specification, "Summary of D-Bus marshaling").
    pub fn width(self) -> usize
        ensures exact { result ≡ width (fixed_type self) }
        ensures some { 1 ≤ result }
        ensures small { result ≤ 8 }
    {
        match self {
            Fixed::Byte => 1,
            Fixed::Of16(_) => 2,
            Fixed::Boolean | Fixed::Of32(_) => 4,
            Fixed::Of64(_) => 8,
        }
    }

    /// The number of the type with these bits as a tree.
    #[tactic(auto, using(crate::proofs::Signs::signs))]
    pub fn tree(self, bits: u64) -> Tree
        requires { bits < bound (fixed_type self) }
        ensures { datum_of result ≡ num (fixed_type self) bits }
    {
        match self {
            Fixed::Byte => Tree::U8(bits as u8),
            Fixed::Boolean => Tree::Bool(bits == 1),
            Fixed::Of16(Fixed16::Int16) => Tree::I16((bits as u16).cast_signed()),
            Fixed::Of16(Fixed16::Uint16) => Tree::U16(bits as u16),
            Fixed::Of32(Fixed32::Int32) => Tree::I32((bits as u32).cast_signed()),
            Fixed::Of32(Fixed32::Uint32) => Tree::U32(bits as u32),
            Fixed::Of32(Fixed32::UnixFd) => Tree::Fd(bits as u32),
            Fixed::Of64(Fixed64::Int64) => Tree::I64(bits.cast_signed()),
            Fixed::Of64(Fixed64::Uint64) => Tree::U64(bits),
            Fixed::Of64(Fixed64::Double) => Tree::F64(bits),
        }
    }
}

/// The type and the bits of a number; none where the tree is no number.
pub fn number_of(tree: &Tree) -> Option<(BasicType, u64)>
    ensures { result ≡ number_in (datum_of tree.now) }
{
    match tree {
        Tree::U8(x) => Some((BasicType::Byte, u64::from(*x))),
        Tree::Bool(x) => Some((BasicType::Boolean, u64::from(*x))),
        Tree::I16(x) => Some((BasicType::Int16, u64::from(x.cast_unsigned()))),
        Tree::U16(x) => Some((BasicType::Uint16, u64::from(*x))),
        Tree::I32(x) => Some((BasicType::Int32, u64::from(x.cast_unsigned()))),
        Tree::U32(x) => Some((BasicType::Uint32, u64::from(*x))),
        Tree::I64(x) => Some((BasicType::Int64, x.cast_unsigned())),
        Tree::U64(x) => Some((BasicType::Uint64, *x)),
        Tree::F64(x) => Some((BasicType::Double, *x)),
        Tree::Fd(x) => Some((BasicType::UnixFd, u64::from(*x))),
        _ => None,
    }
}

impl Numbers {
    /// The type of all of them, by how they lie.
    pub fn fixed(&self) -> Fixed
        ensures { fixed_type result ≡ numbers_type self.now }
    {
        match self {
            Numbers::Bytes(_) => Fixed::Byte,
            Numbers::Booleans(_) => Fixed::Boolean,
            Numbers::Of16(fixed, _) => Fixed::Of16(*fixed),
            Numbers::Of32(fixed, _) => Fixed::Of32(*fixed),
            Numbers::Of64(fixed, _) => Fixed::Of64(*fixed),
        }
    }

    /// The type of all of them.
    pub fn basic(&self) -> BasicType
        ensures { result ≡ num_type (numbers_type self.now) }
    {
        self.fixed().basic()
    }

    /// How many there are.
    pub fn len(&self) -> usize
        ensures { result ≡ length (numbers_bits self.now) }
    {
        match self {
            Numbers::Bytes(items) => items.len(),
            Numbers::Booleans(items) => items.len(),
            Numbers::Of16(_, items) => items.len(),
            Numbers::Of32(_, items) => items.len(),
            Numbers::Of64(_, items) => items.len(),
        }
    }

    /// Whether there are none.
    pub fn is_empty(&self) -> bool
        ensures { IsTrue result ↔ (numbers_bits self.now ≡ []) }
    {
        self.len() == 0
    }

    /// The bits of the one at that place.
    pub fn bits(&self, index: usize) -> u64
        requires { index < length (numbers_bits self.now) }
        ensures value { result ≡ get_or (numbers_bits self.now) index 0 }
        ensures within { result < bound (numbers_type self.now) }
    {
        match self {
            Numbers::Bytes(items) => u64::from(items[index]),
            Numbers::Booleans(items) => u64::from(items[index]),
            Numbers::Of16(_, items) => u64::from(items[index]),
            Numbers::Of32(_, items) => u64::from(items[index]),
            Numbers::Of64(_, items) => items[index],
        }
    }

    /// The one at that place as a tree.
    pub fn tree(&self, index: usize) -> Tree
        requires { index < length (numbers_bits self.now) }
        ensures { datum_of result ≡ num (numbers_type self.now) (get_or (numbers_bits self.now) index 0) }
    {
        self.fixed().tree(self.bits(index))
    }

    /// A tree for each of them.
    ///
    /// # Errors
    ///
    /// AllocError for want of memory.
    pub fn trees(&self, alloc: Global) -> Result<Vec<Tree>, AllocError>
        ensures { IfOk result (λ trees. map datum_of trees.items ≡ numbers_data self.now) }
    {
        let mut trees = Vec::new(alloc);
        for index in 0..self.len() {
            trees.push(self.tree(index))?;
        }
        Ok(trees)
    }
}
