//! Errors that are copied.
use crate::test_support::holds;
use std::alloc::Global;
use wire_message::fdo::{self, Kind, StandardError};
use wire_message::{ClosingError, Error, Result, equal_errors_are_the_same};
use wire_value::{Guid, Text};

fn failed(alloc: Global) -> Result<fdo::Error> {
    let text = Text::from_str(alloc, "x")?;
    let kind = Kind::Failed;
    Ok(fdo::Error::Std(StandardError { kind, text }))
}

/// A copy of the error, given by a method, is equal to it.
fn copy_is_equal(alloc: Global, error: &fdo::Error) -> Result<bool> {
    let copy = error.try_clone(alloc)?;
    Ok(copy == *error)
}

fn copies_are_equal(alloc: Global) -> Result<bool> {
    copy_is_equal(alloc, &failed(alloc)?)
}

/// Whether an error that closes a peer is given again.
fn closes_as(error: &Error) -> bool {
    match ClosingError::of(error) {
        Some(closing) => equal_errors_are_the_same(&Error::from(closing), error),
        None => false,
    }
}

/// The GUID of some digits.
fn guid_of(digits: &'static str) -> Result<Guid<'static>> {
    Ok(Guid::from_static_str(digits)?)
}

/// Whether a text that is no GUID is refused as one.
fn no_guid_is_refused() -> bool {
    matches!(&guid_of("0123"), Err(Error::InvalidGUID))
}

#[test]
fn refusals_of_guids_are_errors(rt: HostRuntime) {
    assert!(rt; no_guid_is_refused() && guid_of("0123456789abcdef0123456789abcdef").is_ok());
}

#[test]
fn errors_are_copied(rt: HostRuntime) {
    assert!(rt; holds(copies_are_equal(rt.alloc())) && closes_as(&Error::ExcessData));
}
