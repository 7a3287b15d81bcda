//! The names that the words of a command are.
ghost use Rattle.std.specs.Prelude.{◌≡◌, IfOk, IfErr, Some, true, false, unwrap_or, []};
ghost use Rattle.wire_names.specs.Names.{is_interface_name};
ghost use Rattle.wire_names.specs.declared.error.NamesError.TheVariants as names;
ghost use Rattle.wire_message.specs.declared.error.Error.TheVariants as errors;

use wire_message::{Error, Result};
use wire_value::{Bytes, InterfaceName, Name, NameKind, NamesError};

/// The name of a word.
pub(crate) fn name<'a, K: NameKind>(word: &'a Bytes) -> Result<Name<'a, K>>
    ensures ok { IfOk result (λ name. (name ≡ word.now) × (K.is_name word.now ≡ true)) }
    ensures err { IfErr result (λ e. (e ≡ errors.Names K.refusal) × (K.is_name word.now ≡ false)) }
{
    match Name::try_from_bytes(word.as_slice()) {
        Ok(name) => Ok(name),
        Err(error) => Err(Error::Names(error)),
    }
}

/// The interface name of a word that must be there.
pub(crate) fn interface_name(word: &Option<Bytes>) -> Result<InterfaceName<'_>>
    ensures ok { IfOk result (λ name. (word.now ≡ Some name) × (is_interface_name name ≡ true)) }
    ensures err { IfErr result (λ e. (e ≡ errors.Names names.Interface) × (is_interface_name (unwrap_or word.now []) ≡ false)) }
{
    match word {
        None => Err(Error::Names(NamesError::Interface)),
        Some(word) => name(word),
    }
}
