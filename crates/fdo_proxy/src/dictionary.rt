//! What the keys of a dictionary `a{sv}` say.
ghost use Rattle.std.specs.Prelude.{◌≡◌, ◌↔◌, IfOk, IsTrue, bytes_eq, map, option_map};
ghost use Rattle.std.specs.List.{list_any};
ghost use Rattle.wire_signature.specs.SingleType.{array, basic};
ghost use Rattle.wire_signature.specs.declared.basic.BasicType.TheVariants as basics;
ghost use Rattle.wire_argument.specs.Kinds.{bits_in};
ghost use Rattle.fdo_proxy.specs.Dictionary.{AreOf, TellsField};
ghost use Rattle.fdo_proxy.specs.Dictionary.{count_of, count_under, last_under, numbers_in, others, seen};

use std::alloc::{AllocError, Global};
use wire_message::Error;
use wire_value::{Argument, Array, Dict, Fd, Text, Tree, Value};

/// What a key says, as an argument: the value of its last entry. It answers `SignatureMismatch` if and only if an entry
/// of the key is of another type, and `Memory` for want of memory.
pub(crate) fn field<T: Argument>(
    alloc: Global,
    entries: &[(Text, Value)],
    key: &str,
) -> Result<Option<T>, Error>
    ensures { TellsField T.read T.kind entries.now key.now result }
{
    let mut found = None;
    for (name, value) in entries {
        if name.as_str() == key {
            let tree = value.try_clone(alloc)?.into_tree();
            found = Some(T::from_tree(alloc, tree)?);
        }
    }
    Ok(found)
}

/// The same of the index of a file descriptor.
pub(crate) fn descriptor(
    alloc: Global,
    entries: &[(Text, Value)],
    key: &str,
) -> Result<Option<u32>, Error>
    ensures { TellsField bits_in (basic basics.UnixFd) entries.now key.now result }
{
    match field::<Fd>(alloc, entries, key)? {
        Some(descriptor) => Ok(Some(descriptor.index)),
        None => Ok(None),
    }
}

/// The same of a list of numbers.
pub(crate) fn numbers(
    alloc: Global,
    entries: &[(Text, Value)],
    key: &str,
) -> Result<Option<Vec<u32>>, Error>
    ensures { TellsField numbers_in (array (basic basics.Uint32)) entries.now key.now (seen (λ v. v.items) result) }
{
    match field::<Array<u32>>(alloc, entries, key)? {
        Some(numbers) => Ok(Some(numbers.into_vec())),
        None => Ok(None),
    }
}

/// Whether a text is one of the keys.
fn is_one_of(keys: &[&'static str], text: &str) -> bool
    ensures { result ≡ list_any (bytes_eq text.now) (map (λ key. key.now) keys.now) }
{
    for key in keys {
        if text == *key {
            return true;
        }
    }
    false
}

/// The number, if the value is a `UINT32`.
fn count_in(value: &Value) -> Option<u32>
    ensures { result ≡ count_of value.now }
{
    match value.tree() {
        Tree::U32(count) => Some(*count),
        _ => None,
    }
}

/// Whether each entry of these keys is a `UINT32`.
pub(crate) fn are_counts(entries: &[(Text, Value)], keys: &[&'static str]) -> bool
    ensures { IsTrue result ↔ AreOf (basic basics.Uint32) (map (λ key. key.now) keys.now) entries.now }
{
    for (name, value) in entries {
        if is_one_of(keys, name.as_str()) && count_in(value).is_none() {
            return false;
        }
    }
    true
}

/// The value of the last entry of a key.
fn last<'a>(entries: &'a [(Text, Value)], key: &str) -> Option<&'a Value>
    ensures { option_map (λ value. value.now) result ≡ last_under key.now entries.now }
{
    let mut found = None;
    for (name, value) in entries {
        if name.as_str() == key {
            found = Some(value);
        }
    }
    found
}

/// The number of a key: the value of its last entry, if that is a `UINT32`.
pub(crate) fn count(entries: &[(Text, Value)], key: &str) -> Option<u32>
    ensures { result ≡ count_under key.now entries.now }
{
    count_in(last(entries, key)?)
}

/// The entries that have none of the keys, in their order.
pub(crate) fn others(
    alloc: Global,
    dict: Dict<Text, Value>,
    keys: &[&'static str],
) -> Result<Vec<(Text, Value)>, AllocError>
    ensures { IfOk result (λ rest. rest.items ≡ others (map (λ key. key.now) keys.now) dict) }
{
    let mut rest = Vec::new(alloc);
    for entry in dict.into_vec() {
        if !is_one_of(keys, entry.0.as_str()) {
            rest.push(entry)?;
        }
    }
    Ok(rest)
}
