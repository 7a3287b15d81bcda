//! Errors that answer the calls of a service's objects (D-Bus Specification, "Types of messages", "Errors").
ghost use Rattle.std.specs.Prelude.{◌≡◌, IfOk};
ghost use Rattle.wire_message.specs.declared.fdo.Error.TheVariants.{Std};
ghost use Rattle.object_interface.specs.Errors.{fails, invalid, missing, unknown, unknown_interface, unknown_method, unknown_object};
ghost use Rattle.object_interface.specs.Sending.{IsSendableError};

use crate::answer::DispatchResult2;
use std::alloc::{AllocError, Global};
use wire_message::fdo::{self, Kind, StandardError};
use wire_value::{InterfaceName, MemberName, ObjectPath, Text};

/// Makes a standard error with that text.
///
/// # Errors
///
/// AllocError if out of memory.
pub fn standard_error(alloc: Global, kind: Kind, text: &str) -> Result<fdo::Error, AllocError>
    ensures { IfOk result (λ error. error ≡ Std (record { kind = kind; text = text.now })) }
{
    let text = Text::from_str(alloc, text)?;
    Ok(fdo::Error::Std(StandardError { kind, text }))
}

/// Makes the error of a call that lacks what every call of an object's method has to have.
///
/// # Errors
///
/// AllocError if out of memory.
pub fn missing(alloc: Global, what: &str) -> Result<fdo::Error, AllocError>
    ensures { IfOk result (λ error. error ≡ missing what.now) }
{
    let text = format!(in alloc; "Missing {what}")?;
    Ok(fdo::Error::Std(StandardError {
        kind: Kind::Failed,
        text: Text::from_string(text),
    }))
}

/// Makes the error of a call that names what isn't there: `what` says which kind of thing it is.
///
/// # Errors
///
/// AllocError if out of memory.
pub fn unknown(alloc: Global, kind: Kind, what: &str, name: &str) -> Result<fdo::Error, AllocError>
    ensures { IfOk result (λ error. error ≡ unknown kind what.now name.now) }
{
    let text = format!(in alloc; "Unknown {what} '{name}'")?;
    Ok(fdo::Error::Std(StandardError {
        kind,
        text: Text::from_string(text),
    }))
}

/// Makes the error of a call to a path that no object has.
///
/// # Errors
///
/// AllocError if out of memory.
pub fn unknown_object(alloc: Global, path: &ObjectPath<'_>) -> Result<fdo::Error, AllocError>
    ensures told { IfOk result (λ error. error ≡ unknown_object path.now) }
    ensures sendable { IfOk result IsSendableError }
{
    unknown(alloc, Kind::UnknownObject, "object", path.as_str())
}

/// Makes the error of a call to an interface that the object doesn't have.
///
/// # Errors
///
/// AllocError if out of memory.
pub fn unknown_interface(alloc: Global, name: &InterfaceName<'_>) -> Result<fdo::Error, AllocError>
    ensures told { IfOk result (λ error. error ≡ unknown_interface name.now) }
    ensures sendable { IfOk result IsSendableError }
{
    unknown(alloc, Kind::UnknownInterface, "interface", name.as_str())
}

/// Makes the error of a call to a method that the interface doesn't have.
///
/// # Errors
///
/// AllocError if out of memory.
pub fn unknown_method(alloc: Global, member: &MemberName<'_>) -> Result<fdo::Error, AllocError>
    ensures told { IfOk result (λ error. error ≡ unknown_method member.now) }
    ensures sendable { IfOk result IsSendableError }
{
    unknown(alloc, Kind::UnknownMethod, "method", member.as_str())
}

/// Makes the answer that is a standard error with that text.
///
/// # Errors
///
/// AllocError if out of memory.
pub fn fails(alloc: Global, kind: Kind, text: &str) -> Result<DispatchResult2, AllocError>
    ensures { IfOk result (λ answer. answer ≡ fails kind text.now) }
{
    let error = standard_error(alloc, kind, text)?;
    Ok(DispatchResult2::alone(alloc, Err(error)))
}

/// Makes the answer to a call whose arguments aren't those of the method.
///
/// # Errors
///
/// AllocError if out of memory.
pub fn invalid_arguments(alloc: Global) -> Result<DispatchResult2, AllocError>
    ensures { IfOk result (λ answer. answer ≡ invalid) }
{
    fails(alloc, Kind::InvalidArgs, "Invalid arguments")
}
