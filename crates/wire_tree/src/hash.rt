//! What a tree feeds a hasher.
ghost use Rattle.std.specs.Prelude.{◌≡◌, ◌++◌, map, fold};
ghost use Rattle.std.specs.Hash as fed;
ghost use Rattle.wire_tree.specs.Datum.{data_of, entries_of};
ghost use Rattle.wire_tree.specs.DatumView.{datum_of, pair_of};
ghost use Rattle.wire_tree.specs.Equal.{writes, writes_in, writes_of};
ghost use Rattle.wire_tree.specs.Packed.{numbers_data};

use crate::numbers::Numbers;
use crate::tree::Tree;
use std::hash::{Hash, Hasher};
use wire_names::Text;

#[cycle(feeding)]
fn feed_all<H: Hasher>(trees: &[Tree], state: &mut H)
    ensures { state.new ≡ fold H.write state.old (writes_of (data_of (map datum_of trees.now))) }
{
    for each in trees {
        feed(each, state);
    }
}

#[cycle(feeding)]
fn feed_pairs<H: Hasher>(pairs: &[(Tree, Tree)], state: &mut H)
    ensures { state.new ≡ fold H.write state.old (writes_in (entries_of (map pair_of pairs.now))) }
{
    for each in pairs {
        feed(&each.0, state);
        feed(&each.1, state);
    }
}

/// Feeds a number: the letter of its type, and its bits.
fn feed_number<H: Hasher>(letter: u8, number: u64, state: &mut H)
    ensures { state.new ≡ fold H.write state.old (fed.u8 letter ++ fed.u64 number) }
{
    state.write_u8(letter);
    state.write_u64(number);
}

/// Feeds each of the numbers.
fn feed_numbers<H: Hasher>(numbers: &Numbers, state: &mut H)
    ensures { state.new ≡ fold H.write state.old (writes_of (data_of (numbers_data numbers.now))) }
{
    let letter = numbers.basic().letter();
    for i in 0..numbers.len() {
        feed_number(letter, numbers.bits(i), state);
    }
}

fn feed_text<H: Hasher>(letter: u8, text: &Text, state: &mut H)
    ensures { state.new ≡ fold H.write state.old (fed.u8 letter ++ fed.str text.now) }
{
    state.write_u8(letter);
    text.as_str().hash(state);
}

/// Feeds a leaf's type and itself, or the kind of a container and what it holds.
#[cycle(feeding)]
pub(crate) fn feed<H: Hasher>(tree: &Tree, state: &mut H)
    ensures { state.new ≡ fold H.write state.old (writes (datum_of tree.now)) }
{
    match tree {
        Tree::U8(x) => feed_number(b'y', u64::from(*x), state),
        Tree::Bool(x) => feed_number(b'b', u64::from(*x), state),
        Tree::I16(x) => feed_number(b'n', u64::from(x.cast_unsigned()), state),
        Tree::U16(x) => feed_number(b'q', u64::from(*x), state),
        Tree::I32(x) => feed_number(b'i', u64::from(x.cast_unsigned()), state),
        Tree::U32(x) => feed_number(b'u', u64::from(*x), state),
        Tree::I64(x) => feed_number(b'x', x.cast_unsigned(), state),
        Tree::U64(x) => feed_number(b't', *x, state),
        Tree::F64(x) => feed_number(b'd', *x, state),
        Tree::Str(text) => feed_text(b's', text, state),
        Tree::Path(text) => feed_text(b'o', text, state),
        Tree::Sig(text) => feed_text(b'g', text, state),
        Tree::Fd(x) => feed_number(b'h', u64::from(*x), state),
        Tree::Array(_, elements) => {
            state.write_u8(b'a');
            let elements = elements.as_slice();
            state.write_usize(elements.len());
            feed_all(elements, state);
        }
        Tree::Numbers(numbers) => {
            state.write_u8(b'a');
            state.write_usize(numbers.len());
            feed_numbers(numbers, state);
        }
        Tree::Dict(_, _, entries) => {
            state.write_u8(b'{');
            let entries = entries.as_slice();
            state.write_usize(entries.len());
            feed_pairs(entries, state);
        }
        Tree::Struct(fields) => {
            state.write_u8(b'(');
            feed_all(fields.as_slice(), state);
        }
        Tree::Variant(inner) => {
            state.write_u8(b'v');
            feed(inner.as_tree(), state);
        }
    }
}
