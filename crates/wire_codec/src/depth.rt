//! How many containers are open at once in a tree. `room` is how many may be.
ghost use Rattle.std.specs.Prelude.{◌≤◌, ◌↔◌, ◌+◌, IsTrue, map, max};
ghost use Rattle.wire_tree.specs.Datum.{data_of, entries_of};
ghost use Rattle.wire_tree.specs.DatumView.{datum_of, pair_of};
ghost use Rattle.wire_encoding.specs.Encoding.{depth, depths};

use wire_tree::Tree;

/// Whether no more than so many containers are open at once in a tree. The recursion goes no deeper than that.
#[cycle(within)]
pub fn is_within(room: usize, tree: &Tree) -> bool
    ensures { IsTrue result ↔ (depth (datum_of tree.now) ≤ room) }
{
    match tree {
        Tree::U8(_)
        | Tree::Bool(_)
        | Tree::I16(_)
        | Tree::U16(_)
        | Tree::I32(_)
        | Tree::U32(_)
        | Tree::I64(_)
        | Tree::U64(_)
        | Tree::F64(_)
        | Tree::Str(_)
        | Tree::Path(_)
        | Tree::Sig(_)
        | Tree::Fd(_) => true,
        Tree::Array(_, elements) => room > 0 && are_within(room - 1, elements.as_slice()),
        Tree::Numbers(_) => room > 0,
        Tree::Dict(_, _, entries) => room > 0 && pairs_within(room - 1, entries.as_slice()),
        Tree::Struct(fields) => room > 0 && are_within(room - 1, fields.as_slice()),
        Tree::Variant(inner) => room > 0 && is_within(room - 1, inner.as_tree()),
    }
}

#[cycle(within)]
fn are_within(room: usize, trees: &[Tree]) -> bool
    ensures { IsTrue result ↔ (depths (data_of (map datum_of trees.now)) ≤ room) }
{
    for each in trees {
        if !is_within(room, each) {
            return false;
        }
    }
    true
}

#[cycle(within)]
fn pairs_within(room: usize, pairs: &[(Tree, Tree)]) -> bool
    ensures { IsTrue result ↔ (depths (entries_of (map pair_of pairs.now)) ≤ room) }
{
    for each in pairs {
        if !pair_within(room, &each.0, &each.1) {
            return false;
        }
    }
    true
}

/// The same of a dict entry, which counts as a container.
#[cycle(within)]
fn pair_within(room: usize, key: &Tree, value: &Tree) -> bool
    ensures { IsTrue result ↔ (max (depth (datum_of key.now)) (depth (datum_of value.now)) + 1 ≤ room) }
{
    room > 0 && is_within(room - 1, key) && is_within(room - 1, value)
}
