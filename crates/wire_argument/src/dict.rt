//! Dicts as arguments.
ghost use Rattle.std.specs.Prelude.{◌≡◌, ◌↔◌, ◌+◌, ◌∷◌, [], IfErr, IfOk, IsTrue, length, map, refl};
ghost use Rattle.wire_signature.specs.SingleType.{IsType, dict as dict_of};
ghost use Rattle.wire_signature.specs.declared.error.VariantError.TheVariants.{Memory};
ghost use Rattle.wire_tree.specs.Datum.{AreElements, AreWellTyped, WellTyped, dict, entries_of, entry, entry_type};
ghost use Rattle.wire_tree.specs.DatumView.{datum_of, pair_of};
ghost use Rattle.wire_number.specs.Reading.{made};
ghost use Rattle.wire_number.specs.ReaderView.{cursor_of};
ghost use Rattle.wire_encoding.specs.Encoding.{depth};
ghost use Rattle.wire_encoding.specs.Reading.{many_at, value_at};
ghost use Rattle.wire_encoding.specs.ReaderView.{Gives};
ghost use Rattle.wire_codec.specs.Writing.{WritesAll, WritesValue};
ghost use Rattle.wire_argument.specs.Arguments.{Checks, TellsRead};
ghost use Rattle.wire_argument.specs.Entries.{pair_at};
ghost use Rattle.wire_argument.specs.Kinds.{both, entries_in};

use crate::argument::Argument;
use crate::buffer::SignatureBuffer;
use crate::key::Key;
use crate::kind::{is_kind, value_type};
use std::alloc::Global;
use std::marker::Model;
use wire_codec::{EncodeError, Encoder, close_array, open_array};
use wire_encoding::elements;
use wire_number::{Endian, Reader};
use wire_signature::{BasicType, ValueType, VariantError};
use wire_tree::{Entries, Tree};

/// Keys and values in their order, which are one argument (D-Bus Specification, "Container types"). Of keys that are
/// there twice nothing is asked.
pub struct Dict<K, V> {
    entries: Vec<(K, V)>,
}

impl<K: Drop, V: Drop> Drop for Dict<K, V> {
    fn drop(self) {
        let Dict { entries: _ } = self;
    }
}

impl<K, V> Model for Dict<K, V> {
    ghost use Rattle.std.specs.Prelude.{List};

    ghost Value = { List (K × V) };

    ghost view = { λ d. d.entries.items };
}

impl<K, V> Dict<K, V> {
    /// Takes the `Vec` itself, with no memory of its own.
    pub fn from_vec(entries: Vec<(K, V)>) -> Dict<K, V>
        ensures { result ≡ entries.items }
    {
        Dict { entries }
    }

    /// The keys and values in their order, lent.
    pub fn as_slice(&self) -> &[(K, V)]
        ensures { result.now ≡ self.now }
    {
        self.entries.as_slice()
    }

    /// Gives the `Vec` back.
    pub fn into_vec(self) -> Vec<(K, V)>
        ensures { result.items ≡ self }
    {
        let Dict { entries } = self;
        entries
    }
}

impl<K: Key, V: Argument> Argument for Dict<K, V> {
    ghost kind = { dict_of K.basic V.kind };

    ghost datum = { λ es. dict K.basic V.kind (entries_of (map (both K.datum V.datum) es)) };

    ghost read = { λ d. map (both K.read V.read) (entries_in d) };

    ghost has_fields = { V.has_fields };

    ghost of_kind = { λ x. refl };

    fn write_kind(out: &mut SignatureBuffer) -> Result<(), VariantError> {
        out.push(b'a')?;
        out.push(b'{')?;
        out.push(K::basic().letter())?;
        V::write_kind(out)?;
        out.push(b'}')
    }

    fn alignment() -> usize {
        4
    }

    fn check(&self, room: usize) -> Result<(), VariantError> {
        let inner = room.saturating_sub(1);
        // an entry that is no value goes before one that is too deep
        let mut deep = room == 0;
        for each in self.as_slice() {
            if let Err(error) = check_entry(&each.0, &each.1, inner) {
                if error != VariantError::Depth {
                    return Err(error);
                }
                deep = true;
            }
        }
        if deep {
            Err(VariantError::Depth)
        } else {
            Ok(())
        }
    }

    fn encode(&self, encoder: &mut Encoder) -> Result<(), EncodeError> {
        let array = open_array(encoder, 8)?;
        let written = encode_entries(encoder, self.as_slice());
        close_array(encoder, array);
        written
    }

    fn decode<'a>(
        alloc: Global,
        order: Endian,
        room: usize,
        reader: Reader<'a>,
    ) -> Result<(Dict<K, V>, Reader<'a>), VariantError> {
        if room == 0 {
            return Err(VariantError::Malformed);
        }
        let Some((elements, after)) = elements(order, 8, reader) else {
            return Err(VariantError::Malformed);
        };
        let entries = decode_entries(alloc, order, room - 1, elements)?;
        Ok((Dict::from_vec(entries), after))
    }

    fn into_tree(self, alloc: Global) -> Result<Tree, VariantError> {
        let trees = trees_of(alloc, self.into_vec())?;
        let value = value_type::<V>(alloc)?;
        Ok(Tree::Dict(K::basic(), value, Entries::from_vec(trees)))
    }

    fn from_tree(alloc: Global, tree: Tree) -> Result<Dict<K, V>, VariantError> {
        match tree.into_dict() {
            Some((key, value, entries)) => dict_of_kind(alloc, key, &value, entries),
            None => Err(VariantError::SignatureMismatch),
        }
    }
}

/// Whether a message may hold a dict entry, which counts as a container.
fn check_entry<K: Key, V: Argument>(key: &K, value: &V, room: usize) -> Result<(), VariantError>
    ensures told { Checks result (WellTyped (entry (K.datum key.now, V.datum value.now))) (depth (entry (K.datum key.now, V.datum value.now))) room }
    ensures round { IfOk result (λ _. both K.read V.read (both K.datum V.datum (key.now, value.now)) ≡ (key.now, value.now)) }
{
    // a key opens no container
    key.check(room)?;
    value.check(room.saturating_sub(1))?;
    if room == 0 {
        Err(VariantError::Depth)
    } else {
        Ok(())
    }
}

/// Appends dict entries one behind the other.
fn encode_entries<K: Key, V: Argument>(
    encoder: &mut Encoder,
    entries: &[(K, V)],
) -> Result<(), EncodeError>
    requires well_typed { AreWellTyped (entries_of (map (both K.datum V.datum) entries.now)) }
    ensures { WritesAll result (entries_of (map (both K.datum V.datum) entries.now)) encoder.old encoder.new }
{
    for each in entries {
        encode_entry(encoder, &each.0, &each.1)?;
    }
    Ok(())
}

/// Appends a dict entry.
fn encode_entry<K: Key, V: Argument>(
    encoder: &mut Encoder,
    key: &K,
    value: &V,
) -> Result<(), EncodeError>
    requires key { WellTyped (K.datum key.now) }
    requires value { WellTyped (V.datum value.now) }
    ensures { WritesValue result (entry (K.datum key.now, V.datum value.now)) encoder.old encoder.new }
{
    encoder.pad(8)?;
    key.encode(encoder)?;
    value.encode(encoder)
}

/// Dict entries, which fill their bytes.
fn decode_entries<'a, K: Key, V: Argument>(
    alloc: Global,
    order: Endian,
    room: usize,
    elements: Reader<'a>,
) -> Result<Vec<(K, V)>, VariantError>
    ensures { Gives (λ v. v.items) result (many_at (length elements.entry.rest.now) (λ c. made (both K.read V.read) (pair_at room order K.basic V.kind c)) (cursor_of elements.entry)) }
{
    let mut entries = Vec::new(alloc);
    let mut left = elements;
    for _ in 0..elements.rest.len() {
        if left.rest.is_empty() {
            return Ok(entries);
        }
        let (entry, after) = decode_entry(alloc, order, room, left)?;
        entries.push(entry)?;
        left = after;
    }
    if left.rest.is_empty() {
        Ok(entries)
    } else {
        Err(VariantError::Malformed)
    }
}

/// A dict entry, which counts as a container.
fn decode_entry<'a, K: Key, V: Argument>(
    alloc: Global,
    order: Endian,
    room: usize,
    reader: Reader<'a>,
) -> Result<((K, V), Reader<'a>), VariantError>
    ensures { Gives (λ x. (x.0, cursor_of x.1)) result (made (both K.read V.read) (pair_at room order K.basic V.kind (cursor_of reader.entry))) }
{
    if room == 0 {
        return Err(VariantError::Malformed);
    }
    let Some(first) = reader.align(8) else {
        return Err(VariantError::Malformed);
    };
    let (key, middle) = K::decode(alloc, order, room - 1, first)?;
    let (value, after) = V::decode(alloc, order, room - 1, middle)?;
    Ok(((key, value), after))
}

/// The dict of these entries, which are of these types.
fn dict_of_kind<K: Key, V: Argument>(
    alloc: Global,
    key: BasicType,
    value: &ValueType,
    entries: Entries,
) -> Result<Dict<K, V>, VariantError>
    requires { AreElements (entry_type key value.now) (entries_of entries) }
    ensures { TellsRead (λ x. x) result (map (both K.read V.read) entries) (dict_of key value.now) (dict_of K.basic V.kind) }
{
    if key != K::basic() {
        return Err(VariantError::SignatureMismatch);
    }
    if is_kind::<V>(value) {
        Ok(Dict::from_vec(entries_read(alloc, entries.into_vec())?))
    } else {
        Err(VariantError::SignatureMismatch)
    }
}

fn trees_of<K: Key, V: Argument>(
    alloc: Global,
    entries: Vec<(K, V)>,
) -> Result<Vec<(Tree, Tree)>, VariantError>
    requires key { IsType K.kind }
    requires value { IsType V.kind }
    ensures value { IfOk result (λ trees. map pair_of trees.items ≡ map (both K.datum V.datum) entries.items) }
    ensures round { IfOk result (λ trees. map (both K.read V.read) (map (both K.datum V.datum) entries.items) ≡ entries.items) }
    ensures error { IfErr result (λ e. e ≡ Memory) }
{
    let mut trees = Vec::new(alloc);
    for entry in entries {
        trees.push(trees_of_entry(alloc, entry)?)?;
    }
    Ok(trees)
}

fn trees_of_entry<K: Key, V: Argument>(
    alloc: Global,
    entry: (K, V),
) -> Result<(Tree, Tree), VariantError>
    requires key { IsType K.kind }
    requires value { IsType V.kind }
    ensures value { IfOk result (λ trees. pair_of trees ≡ both K.datum V.datum entry) }
    ensures round { IfOk result (λ trees. both K.read V.read (both K.datum V.datum entry) ≡ entry) }
    ensures error { IfErr result (λ e. e ≡ Memory) }
{
    let (key, value) = entry;
    let key = key.into_tree(alloc)?;
    Ok((key, value.into_tree(alloc)?))
}

fn entries_read<K: Key, V: Argument>(
    alloc: Global,
    trees: Vec<(Tree, Tree)>,
) -> Result<Vec<(K, V)>, VariantError>
    requires { AreElements (entry_type K.basic V.kind) (entries_of (map pair_of trees.items)) }
    ensures value { IfOk result (λ entries. entries.items ≡ map (both K.read V.read) (map pair_of trees.items)) }
    ensures error { IfErr result (λ e. e ≡ Memory) }
{
    let mut entries = Vec::new(alloc);
    for each in trees {
        entries.push(entry_read(alloc, each)?)?;
    }
    Ok(entries)
}

fn entry_read<K: Key, V: Argument>(
    alloc: Global,
    trees: (Tree, Tree),
) -> Result<(K, V), VariantError>
    requires { AreElements (entry_type K.basic V.kind) (entries_of (map pair_of (trees ∷ []))) }
    ensures value { IfOk result (λ entry. entry ≡ both K.read V.read (pair_of trees)) }
    ensures error { IfErr result (λ e. e ≡ Memory) }
{
    let (key, value) = trees;
    let key = K::from_tree(alloc, key)?;
    Ok((key, V::from_tree(alloc, value)?))
}
