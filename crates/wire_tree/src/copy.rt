//! Copies of trees.
ghost use Rattle.std.specs.Prelude.{◌≡◌, IfOk, map};
ghost use Rattle.wire_tree.specs.DatumView.{datum_of, pair_of};
ghost use Rattle.wire_tree.specs.Packed.{numbers_bits, numbers_type};

use crate::numbers::Numbers;
use crate::tree::{Entries, Inner, Tree, Trees};
use std::alloc::{AllocError, Global};

impl Numbers {
    /// A copy.
    ///
    /// # Errors
    ///
    /// AllocError for want of memory.
    pub fn try_clone(&self, alloc: Global) -> Result<Numbers, AllocError>
        ensures type_kept { IfOk result (λ copy. numbers_type copy ≡ numbers_type self.now) }
        ensures bits_kept { IfOk result (λ copy. numbers_bits copy ≡ numbers_bits self.now) }
    {
        Ok(match self {
            Numbers::Bytes(items) => Numbers::Bytes(Vec::from_slice(alloc, items.as_slice())?),
            Numbers::Booleans(items) => Numbers::Booleans(Vec::from_slice(
                alloc,
                items.as_slice(),
            )?),
            Numbers::Of16(fixed, items) => Numbers::Of16(
                *fixed,
                Vec::from_slice(alloc, items.as_slice())?,
            ),
            Numbers::Of32(fixed, items) => Numbers::Of32(
                *fixed,
                Vec::from_slice(alloc, items.as_slice())?,
            ),
            Numbers::Of64(fixed, items) => Numbers::Of64(
                *fixed,
                Vec::from_slice(alloc, items.as_slice())?,
            ),
        })
    }
}

/// Copies of trees, in their order.
#[cycle(copies)]
fn copies_of(alloc: Global, trees: &[Tree]) -> Result<Vec<Tree>, AllocError>
    ensures { IfOk result (λ copies. map datum_of copies.items ≡ map datum_of trees.now) }
{
    let mut copies = Vec::new(alloc);
    for each in trees {
        copies.push(copy_of(alloc, each)?)?;
    }
    Ok(copies)
}

/// Copies of keys and values, in their order.
#[cycle(copies)]
fn copies_of_pairs(alloc: Global, pairs: &[(Tree, Tree)]) -> Result<Vec<(Tree, Tree)>, AllocError>
    ensures { IfOk result (λ copies. map pair_of copies.items ≡ map pair_of pairs.now) }
{
    let mut copies = Vec::new(alloc);
    for each in pairs {
        copies.push((copy_of(alloc, &each.0)?, copy_of(alloc, &each.1)?))?;
    }
    Ok(copies)
}

#[cycle(copies)]
pub(crate) fn copy_of(alloc: Global, tree: &Tree) -> Result<Tree, AllocError>
    ensures { IfOk result (λ copy. datum_of copy ≡ datum_of tree.now) }
{
    Ok(match tree {
        Tree::U8(x) => Tree::U8(*x),
        Tree::Bool(x) => Tree::Bool(*x),
        Tree::I16(x) => Tree::I16(*x),
        Tree::U16(x) => Tree::U16(*x),
        Tree::I32(x) => Tree::I32(*x),
        Tree::U32(x) => Tree::U32(*x),
        Tree::I64(x) => Tree::I64(*x),
        Tree::U64(x) => Tree::U64(*x),
        Tree::F64(x) => Tree::F64(*x),
        Tree::Str(text) => Tree::Str(text.try_clone(alloc)?),
        Tree::Path(text) => Tree::Path(text.try_clone(alloc)?),
        Tree::Sig(text) => Tree::Sig(text.try_clone(alloc)?),
        Tree::Fd(x) => Tree::Fd(*x),
        Tree::Array(element, elements) => Tree::Array(
            element.try_clone(alloc)?,
            Trees::from_vec(copies_of(alloc, elements.as_slice())?),
        ),
        Tree::Numbers(numbers) => Tree::Numbers(numbers.try_clone(alloc)?),
        Tree::Dict(key, value, entries) => Tree::Dict(
            *key,
            value.try_clone(alloc)?,
            Entries::from_vec(copies_of_pairs(alloc, entries.as_slice())?),
        ),
        Tree::Struct(fields) => Tree::Struct(Trees::from_vec(copies_of(alloc, fields.as_slice())?)),
        Tree::Variant(inner) => Tree::Variant(Inner::new(alloc, copy_of(alloc, inner.as_tree())?)?),
    })
}
