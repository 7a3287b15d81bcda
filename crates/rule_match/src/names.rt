//! What a rule does with a name of any kind.
ghost use Rattle.std.specs.Prelude.{◌≡◌, ◌↔◌, IfOk, IfSome, IsTrue, Some, option_map};

use std::alloc::{AllocError, Global};
use wire_value::{Name, NameKind, OwnedName, Text};

pub(crate) fn same_text(text: &str, other: &str) -> bool
    ensures { IsTrue result ↔ (text.now ≡ other.now) }
{
    text == other
}

/// The text of a name that is there.
pub(crate) fn text_of<K: NameKind>(name: &Option<OwnedName<K>>) -> Option<&str>
    ensures { option_map (λ text. text.now) result ≡ name.now }
{
    match name {
        Some(name) => Some(name.as_str()),
        None => None,
    }
}

/// The text of a namespace that is there.
pub(crate) fn namespace_of(name: &Option<Text>) -> Option<&str>
    ensures { option_map (λ text. text.now) result ≡ name.now }
{
    match name {
        Some(name) => Some(name.as_str()),
        None => None,
    }
}

pub(crate) fn copy_of<K: NameKind>(
    alloc: Global,
    name: &Option<OwnedName<K>>,
) -> Result<Option<OwnedName<K>>, AllocError>
    ensures { IfOk result (λ copy. copy ≡ name.now) }
{
    match name {
        Some(name) => Ok(Some(name.try_clone(alloc)?)),
        None => Ok(None),
    }
}

pub(crate) fn owned_of<K: NameKind>(
    alloc: Global,
    name: Option<Name<'_, K>>,
) -> Result<Option<OwnedName<K>>, AllocError>
    ensures { IfOk result (λ owned. owned ≡ name.entry) }
{
    match name {
        Some(name) => Ok(Some(name.to_owned(alloc)?)),
        None => Ok(None),
    }
}

/// Whether a name is the one that is wanted.
pub(crate) fn is_wanted<K: NameKind>(
    wanted: &Option<OwnedName<K>>,
    found: Option<Name<'_, K>>,
) -> bool
    ensures { IsTrue result ↔ IfSome wanted.now (λ name. found.entry ≡ Some name) }
{
    match (wanted, found) {
        (Some(wanted), Some(found)) => same_text(found.as_str(), wanted.as_str()),
        (Some(_), None) => false,
        (None, _) => true,
    }
}

/// A name is in the grammar of its kind.
pub(crate) fn holds<K: NameKind>(name: &Option<OwnedName<K>>)
    ensures { IfSome name.now (λ text. IsTrue (K.is_name text)) }
{
    if let Some(name) = name {
        let _ = name.as_str();
    }
}
