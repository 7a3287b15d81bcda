//! Values that a message may hold.
ghost use Rattle.std.specs.Prelude.{◌≡◌, ◌↔◌, IfErr, IfOk, IsTrue};
ghost use Rattle.std.specs.Cmp.{decided, partial_equiv_from_equiv};
ghost use Rattle.std.specs.Hash.{same_Alike};
ghost use Rattle.wire_tree.specs.Check.{TellsValid};
ghost use Rattle.wire_tree.specs.Datum.{IsValid, type_of};
ghost use Rattle.wire_tree.specs.DatumView.{datum_of};
ghost use Rattle.wire_tree.specs.Equal.{same, writes};
ghost use Rattle.wire_tree.specs.EqualTells.{same_decides};

use crate::copy::copy_of;
use crate::hash::feed;
use crate::same::is_same;
use crate::tree::Tree;
use crate::typed::type_of;
use crate::well_typed::is_well_typed;
use std::alloc::{AllocError, Global};
use std::hash::{Hash, Hasher};
use std::marker::Model;
use wire_signature::{ValueType, VariantError};

/// A value that a message may hold: a tree that keeps the rules of its type (D-Bus Specification, "Type System").
///
/// Drop recurses with the tree: one that is made by hand, millions of levels deep, exhausts the stack.
pub struct Value {
    tree: Tree,
}

// Written out: a derived one is taken apart again wherever a type that holds a value ends.
impl Drop for Value {
    fn drop(self) {
        let Value { tree: _ } = self;
    }
}

impl Model for Value {
    ghost use Rattle.wire_tree.specs.Datum.{Datum, IsValid};
    ghost use Rattle.wire_tree.specs.DatumCode.{datum_code};

    ghost Value = { Datum };

    ghost coded = { datum_code };

    ghost use Rattle.wire_tree.specs.DatumView.{datum_of};

    ghost view = { λ v. datum_of v.tree };

    ghost invariant = { λ v. IsValid (datum_of v.tree) };
}

/// Whether a tree is a value that a message may hold.
fn is_valid(alloc: Global, tree: &Tree) -> Result<bool, AllocError>
    ensures { IfOk result (λ valid. IsTrue valid ↔ IsValid (datum_of tree.now)) }
{
    Ok(type_of(alloc, tree)?.is_some() && is_well_typed(alloc, tree)?)
}

impl Value {
    ghost use Rattle.wire_tree.specs.DatumView.{datum_of};

    /// The value that a tree is. It takes memory for the texts of types while it looks, and recurses with the tree: one
    /// that is made by hand, millions of levels deep, exhausts the stack.
    ///
    /// # Errors
    ///
    /// On a refusal the tree is given up. [`VariantError::Malformed`] exactly where
    /// - an element, key or value is not of its array's or dict's type,
    /// - a text holds a 0 byte, or a text or path has more than 4,294,967,295 bytes,
    /// - a signature or path is outside its grammar (D-Bus Specification, "Valid Signatures", "Valid Object Paths"),
    /// - a struct has no fields, or the tree's type, or that of what a variant in it holds, passes the limits of a
    ///   signature: 255 bytes, 32 arrays and 32 structs in one another.
    ///
    /// [`VariantError::Memory`] for want of memory.
    pub fn from_tree(alloc: Global, tree: Tree) -> Result<Value, VariantError>
        ensures { TellsValid result (datum_of tree) }
    {
        match is_valid(alloc, &tree) {
            Ok(true) => Ok(Value { tree }),
            Ok(false) => Err(VariantError::Malformed),
            Err(_) => Err(VariantError::Memory),
        }
    }

    /// The value that a tree is, which is known to be one.
    pub fn from_valid(tree: Tree) -> Value
        requires { IsValid (datum_of tree) }
        ensures { result ≡ datum_of tree }
    {
        Value { tree }
    }

    /// The value as a tree, lent.
    pub fn tree(&self) -> &Tree
        ensures tree { datum_of result.now ≡ self.now }
        ensures valid { IsValid self.now }
    {
        &self.tree
    }

    /// Gives the tree back.
    pub fn into_tree(self) -> Tree
        ensures tree { datum_of result ≡ self }
        ensures valid { IsValid self }
    {
        let Value { tree } = self;
        tree
    }

    /// The type of the value.
    ///
    /// # Errors
    ///
    /// [`VariantError::Memory`] for want of memory, and no other.
    pub fn ty(&self, alloc: Global) -> Result<ValueType, VariantError>
        ensures value { IfOk result (λ t. t ≡ type_of self.now) }
        ensures error { IfErr result (λ e. e ≡ VariantError.Memory) }
    {
        type_of(alloc, &self.tree)?.ok_or(VariantError::Malformed)
    }

    /// A copy.
    ///
    /// # Errors
    ///
    /// [`AllocError`] for want of memory.
    pub fn try_clone(&self, alloc: Global) -> Result<Value, AllocError>
        ensures { IfOk result (λ copy. copy ≡ self.now) }
    {
        let tree = copy_of(alloc, &self.tree)?;
        Ok(Value { tree })
    }
}

/// Values are equal where they are of one type and of one form; doubles by their bits.
impl PartialEq for Value {
    ghost eq = { same };

    ghost laws = { partial_equiv_from_equiv (decided same same_decides) };

    fn eq(&self, other: &Value) -> bool {
        is_same(&self.tree, &other.tree)
    }
}

impl Eq for Value {
    ghost laws = { decided same same_decides };
}

impl Hash for Value {
    ghost hash_input = { writes };

    ghost respects_eq = { (same_Alike writes same_decides).fed };

    fn hash<H: Hasher>(&self, state: &mut H) {
        feed(&self.tree, state);
    }
}
