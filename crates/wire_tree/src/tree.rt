//! Values as trees.
use crate::numbers::Numbers;
use std::alloc::{AllocError, Global};
use std::marker::Model;
use wire_names::Text;
use wire_signature::{BasicType, TypeNode, ValueType};

/// A value as a caller makes it, of any of the types (D-Bus Specification, "Type System"). Whether a message may hold it
/// is for [`crate::Value::from_tree`] to say.
///
/// Drop recurses with the tree: one that is made by hand, millions of levels deep, exhausts the stack.
#[cycle(tree)]
pub enum Tree {
    U8(u8),
    Bool(bool),
    I16(i16),
    U16(u16),
    I32(i32),
    U32(u32),
    I64(i64),
    U64(u64),
    /// The 64 raw bits of a double.
    F64(u64),
    Str(Text),
    /// An object path.
    Path(Text),
    /// A signature.
    Sig(Text),
    /// The index of a file descriptor in its message's list.
    Fd(u32),
    /// An array of elements of this type.
    Array(ValueType, Trees),
    /// An array of numbers of a fixed type, which lie packed; so it is where a message was read.
    Numbers(Numbers),
    /// An array of dict entries of these types of keys and values.
    Dict(BasicType, ValueType, Entries),
    Struct(Trees),
    /// A value with its type.
    Variant(Inner),
}

impl Drop for Tree {
    #[cycle(tree)]
    fn drop(self) {
        match self {
            Tree::U8(_) => {}
            Tree::Bool(_) => {}
            Tree::I16(_) => {}
            Tree::U16(_) => {}
            Tree::I32(_) => {}
            Tree::U32(_) => {}
            Tree::I64(_) => {}
            Tree::U64(_) => {}
            Tree::F64(_) => {}
            Tree::Str(_) => {}
            Tree::Path(_) => {}
            Tree::Sig(_) => {}
            Tree::Fd(_) => {}
            Tree::Array(_, _) => {}
            Tree::Numbers(_) => {}
            Tree::Dict(_, _, _) => {}
            Tree::Struct(_) => {}
            Tree::Variant(_) => {}
        }
    }
}

/// Trees in their order.
#[cycle(tree)]
pub struct Trees {
    items: Vec<Tree>,
}

impl Drop for Trees {
    #[cycle(tree)]
    fn drop(self) {
        let Trees { items: _ } = self;
    }
}

/// Keys and values in their order.
#[cycle(tree)]
pub struct Entries {
    pairs: Vec<(Tree, Tree)>,
}

impl Drop for Entries {
    #[cycle(tree)]
    fn drop(self) {
        let Entries { pairs: _ } = self;
    }
}

/// The tree that a variant holds.
#[cycle(tree)]
pub struct Inner {
    tree: Box<Tree>,
}

impl Drop for Inner {
    #[cycle(tree)]
    fn drop(self) {
        let Inner { tree: _ } = self;
    }
}

impl Model for Trees {
    ghost use Rattle.std.specs.Prelude.{List, map};
    ghost use Rattle.std.specs.Coded.{coded_list};
    ghost use Rattle.wire_tree.specs.Datum.{Datum, data_of, sizes_of};
    ghost use Rattle.wire_tree.specs.DatumCode.{datum_code};

    ghost Value = { List Datum };

    ghost coded = { coded_list datum_code };

    ghost use Rattle.wire_tree.specs.DatumView.{datum_of};

    ghost view = { λ t. map datum_of t.items.items };

    ghost size = { λ ds. sizes_of (data_of ds) };

    ghost use Rattle.wire_tree.specs.DatumFalls.{most_le-sizes_of};

    ghost size_decreases = { λ a h. most_le-sizes_of a.items.items };
}

impl Model for Entries {
    ghost use Rattle.std.specs.Prelude.{List, map};
    ghost use Rattle.std.specs.Coded.{coded_list, coded×};
    ghost use Rattle.wire_tree.specs.Datum.{Datum, entries_of, sizes_of};
    ghost use Rattle.wire_tree.specs.DatumCode.{datum_code};

    ghost Value = { List (Datum × Datum) };

    ghost coded = { coded_list (coded× datum_code datum_code) };

    ghost use Rattle.wire_tree.specs.DatumView.{pair_of};

    ghost view = { λ t. map pair_of t.pairs.items };

    ghost size = { λ es. sizes_of (entries_of es) };

    ghost use Rattle.wire_tree.specs.DatumFalls.{pairs_le-sizes_of};

    ghost size_decreases = { λ a h. pairs_le-sizes_of a.pairs.items };
}

impl Model for Inner {
    ghost use Rattle.wire_tree.specs.Datum.{Datum, size_of};
    ghost use Rattle.wire_tree.specs.DatumCode.{datum_code};

    ghost Value = { Datum };

    ghost coded = { datum_code };

    ghost use Rattle.wire_tree.specs.DatumView.{datum_of};

    ghost view = { λ t. datum_of t.tree.value };

    ghost size = { size_of };

    ghost use Rattle.wire_tree.specs.DatumFalls.{deep_le-size_of};

    ghost size_decreases = { λ a h. deep_le-size_of a.tree.value };
}

impl Tree {
    ghost use Rattle.std.specs.Prelude.{◌≡◌, IfNone, IfOk, IfSome};
    ghost use Rattle.wire_signature.specs.SingleType.{SingleType, array as array_of, basic, dict as dict_of, variant as any};
    ghost use Rattle.wire_signature.specs.declared.basic.BasicType.{BasicType};
    ghost use Rattle.wire_signature.specs.declared.basic.BasicType.TheVariants as basics;
    ghost use Rattle.wire_tree.specs.Datum.{array, data_of, dict, entries_of, string, text, type_of, variant};
    ghost use Rattle.wire_tree.specs.DatumView.{datum_of};

    /// The text, exactly where the tree is a string.
    pub fn into_str(self) -> Option<Text>
        ensures some { IfSome result (λ bytes. datum_of self ≡ text string bytes) }
        ensures none { IfNone result (type_of (datum_of self) ≡ basic basics.String → ⊥) }
    {
        match self {
            Tree::Str(text) => Some(text),
            _ => None,
        }
    }

    /// The elements and their type, exactly where the tree is an array. It takes memory for those that lie packed.
    ///
    /// # Errors
    ///
    /// AllocError for want of memory. Then the tree is given up.
    pub fn into_array(self, alloc: Global) -> Result<Option<(ValueType, Trees)>, AllocError>
        ensures some { IfOk result (λ found. IfSome found (λ it. datum_of self ≡ array it.0 (data_of it.1))) }
        ensures none { IfOk result (λ found. IfNone found ((t : SingleType) → type_of (datum_of self) ≡ array_of t → ⊥)) }
    {
        match self {
            Tree::Array(element, elements) => Ok(Some((element, elements))),
            Tree::Numbers(numbers) => {
                let elements = Trees::from_vec(numbers.trees(alloc)?);
                let element = ValueType::from_node(TypeNode::Basic(numbers.basic()));
                Ok(Some((element, elements)))
            }
            _ => Ok(None),
        }
    }

    /// The entries and the types of their keys and values, exactly where the tree is a dict.
    pub fn into_dict(self) -> Option<(BasicType, ValueType, Entries)>
        ensures some { IfSome result (λ it. datum_of self ≡ dict it.0 it.1 (entries_of it.2)) }
        ensures none { IfNone result ((k : BasicType) (v : SingleType) → type_of (datum_of self) ≡ dict_of k v → ⊥) }
    {
        match self {
            Tree::Dict(key, value, entries) => Some((key, value, entries)),
            _ => None,
        }
    }

    /// What the tree holds, exactly where it is a variant.
    pub fn into_variant(self) -> Option<Inner>
        ensures some { IfSome result (λ inner. datum_of self ≡ variant inner) }
        ensures none { IfNone result (type_of (datum_of self) ≡ any → ⊥) }
    {
        match self {
            Tree::Variant(inner) => Some(inner),
            _ => None,
        }
    }
}

impl Trees {
    ghost use Rattle.std.specs.Prelude.{◌≡◌, map};
    ghost use Rattle.wire_tree.specs.DatumView.{datum_of};

    /// Takes the `Vec` itself, with no memory of its own.
    pub fn from_vec(items: Vec<Tree>) -> Trees
        ensures { result ≡ map datum_of items.items }
    {
        Trees { items }
    }

    /// The values in their order, lent.
    pub fn as_slice(&self) -> &[Tree]
        ensures { map datum_of result.now ≡ self.now }
    {
        self.items.as_slice()
    }

    /// Gives the `Vec` back.
    pub fn into_vec(self) -> Vec<Tree>
        ensures { map datum_of result.items ≡ self }
    {
        let Trees { items } = self;
        items
    }
}

impl Entries {
    ghost use Rattle.std.specs.Prelude.{◌≡◌, map};
    ghost use Rattle.wire_tree.specs.DatumView.{datum_of, pair_of};

    /// Takes the `Vec` itself, with no memory of its own.
    pub fn from_vec(pairs: Vec<(Tree, Tree)>) -> Entries
        ensures { result ≡ map pair_of pairs.items }
    {
        Entries { pairs }
    }

    /// The keys and values in their order, lent.
    pub fn as_slice(&self) -> &[(Tree, Tree)]
        ensures { map pair_of result.now ≡ self.now }
    {
        self.pairs.as_slice()
    }

    /// Gives the `Vec` back.
    pub fn into_vec(self) -> Vec<(Tree, Tree)>
        ensures { map pair_of result.items ≡ self }
    {
        let Entries { pairs } = self;
        pairs
    }
}

impl Inner {
    ghost use Rattle.std.specs.Prelude.{◌≡◌, IfOk};
    ghost use Rattle.wire_tree.specs.DatumView.{datum_of};

    /// Moves the tree to the heap.
    ///
    /// # Errors
    ///
    /// AllocError for want of memory. Then the tree is given up.
    pub fn new(alloc: Global, tree: Tree) -> Result<Inner, AllocError>
        ensures { IfOk result (λ inner. inner ≡ datum_of tree) }
    {
        let tree = Box::new(alloc, tree)?;
        Ok(Inner { tree })
    }

    /// The tree, lent.
    pub fn as_tree(&self) -> &Tree
        ensures { datum_of result.now ≡ self.now }
    {
        &self.tree
    }

    /// Gives the tree back.
    pub fn into_tree(self) -> Tree
        ensures { datum_of result ≡ self }
    {
        let Inner { tree } = self;
        Box::into_inner(tree)
    }
}
