//! The kinds of names.
ghost use Rattle.wire_names.specs.declared.error.NamesError.TheVariants as refusals;
ghost use Rattle.wire_names.specs.Ascii.{error_is_utf8, interface_is_utf8, member_is_utf8, path_is_utf8, unique_is_utf8, well_known_is_utf8};
ghost use Rattle.wire_names.specs.Names.{is_error_name, is_interface_name, is_member_name, is_object_path, is_unique_name, is_well_known_name};

use crate::error::NamesError;
use crate::grammar::{
    BUS, IN_INTERFACE_NAME, IN_PATH, IN_WELL_KNOWN_NAME, LONGEST_NAME, each_is_element,
    is_connection, is_dotted, is_element,
};
use crate::name::{Name, NameKind, OwnedName};

/// The unique name of a connection, as `:1.42`, or that of the bus itself, `org.freedesktop.DBus` (D-Bus
/// Specification, "Valid Names", "Bus names"): `:`, and two or more elements of letters, digits, `_` and `-` joined by `.`, at
/// most 255 bytes.
pub type UniqueName<'a> = Name<'a, Unique>;

/// [`UniqueName`] that owns its text.
pub type OwnedUniqueName = OwnedName<Unique>;

/// The kind of [`UniqueName`].
#[derive(Drop)]
pub struct Unique;

impl NameKind for Unique {
    ghost is_name = { is_unique_name };

    ghost refusal = { refusals.Unique };

    ghost is_text = { unique_is_utf8 };

    #[tactic(auto, unfolding(crate::specs::Names::is_unique_name))]
    fn is_name(text: &[u8]) -> bool {
        text.len() <= LONGEST_NAME && (text == BUS || is_connection(text))
    }

    fn refusal() -> NamesError {
        NamesError::Unique
    }
}

/// A well-known bus name, as `org.example.Clock-1` (D-Bus Specification, "Valid Names", "Bus names"):
/// two or more elements of letters, digits, `_` and `-` joined by `.`, none with a digit in front, at most 255 bytes.
pub type WellKnownName<'a> = Name<'a, WellKnown>;

/// [`WellKnownName`] that owns its text.
pub type OwnedWellKnownName = OwnedName<WellKnown>;

/// The kind of [`WellKnownName`].
#[derive(Drop)]
pub struct WellKnown;

impl NameKind for WellKnown {
    ghost is_name = { is_well_known_name };

    ghost refusal = { refusals.WellKnown };

    ghost is_text = { well_known_is_utf8 };

    #[tactic(auto, unfolding(crate::specs::Names::is_well_known_name))]
    fn is_name(text: &[u8]) -> bool {
        text.len() <= LONGEST_NAME && is_dotted(text, IN_WELL_KNOWN_NAME)
    }

    fn refusal() -> NamesError {
        NamesError::WellKnown
    }
}

/// The name of an interface, as `org.example.Clock` (D-Bus Specification, "Valid Names", "Interface names"):
/// two or more elements of letters, digits and `_` joined by `.`, none with a digit in front, at most 255 bytes.
pub type InterfaceName<'a> = Name<'a, Interface>;

/// [`InterfaceName`] that owns its text.
pub type OwnedInterfaceName = OwnedName<Interface>;

/// The kind of [`InterfaceName`].
#[derive(Drop)]
pub struct Interface;

impl NameKind for Interface {
    ghost is_name = { is_interface_name };

    ghost refusal = { refusals.Interface };

    ghost is_text = { interface_is_utf8 };

    #[tactic(auto, unfolding(crate::specs::Names::is_interface_name))]
    fn is_name(text: &[u8]) -> bool {
        text.len() <= LONGEST_NAME && is_dotted(text, IN_INTERFACE_NAME)
    }

    fn refusal() -> NamesError {
        NamesError::Interface
    }
}

/// The name of a method or signal, as `GetAll` (D-Bus Specification, "Valid Names", "Member names"):
/// one element of letters, digits and `_`, without a digit in front, at most 255 bytes.
pub type MemberName<'a> = Name<'a, Member>;

/// [`MemberName`] that owns its text.
pub type OwnedMemberName = OwnedName<Member>;

/// The kind of [`MemberName`].
#[derive(Drop)]
pub struct Member;

impl NameKind for Member {
    ghost is_name = { is_member_name };

    ghost refusal = { refusals.Member };

    ghost is_text = { member_is_utf8 };

    #[tactic(auto, unfolding(crate::specs::Names::is_member_name))]
    fn is_name(text: &[u8]) -> bool {
        text.len() <= LONGEST_NAME && is_element(text, IN_INTERFACE_NAME)
    }

    fn refusal() -> NamesError {
        NamesError::Member
    }
}

/// The name of an error, as `org.example.Error.Late` (D-Bus Specification, "Valid Names", "Error names"):
/// the grammar is that of an interface name, with its limit of 255 bytes.
pub type ErrorName<'a> = Name<'a, Error>;

/// [`ErrorName`] that owns its text.
pub type OwnedErrorName = OwnedName<Error>;

/// The kind of [`ErrorName`].
#[derive(Drop)]
pub struct Error;

impl NameKind for Error {
    ghost is_name = { is_error_name };

    ghost refusal = { refusals.Error };

    ghost is_text = { error_is_utf8 };

    #[tactic(auto, unfolding(crate::specs::Names::is_error_name))]
    fn is_name(text: &[u8]) -> bool {
        Interface::is_name(text)
    }

    fn refusal() -> NamesError {
        NamesError::Error
    }
}

/// An object path, as `/org/example/a` (D-Bus Specification, "Valid Object Paths"):
/// `/`, or `/` and elements of letters, digits and `_` joined by `/`, without a limit of length.
pub type ObjectPath<'a> = Name<'a, Path>;

/// [`ObjectPath`] that owns its text.
pub type OwnedObjectPath = OwnedName<Path>;

/// The kind of [`ObjectPath`].
#[derive(Drop)]
pub struct Path;

impl NameKind for Path {
    ghost is_name = { is_object_path };

    ghost refusal = { refusals.Path };

    ghost is_text = { path_is_utf8 };

    #[tactic(auto, unfolding(crate::specs::Names::is_object_path))]
    fn is_name(text: &[u8]) -> bool {
        match text {
            [b'/', rest @ ..] => rest.is_empty() || each_is_element(rest, b'/', IN_PATH),
            _ => false,
        }
    }

    fn refusal() -> NamesError {
        NamesError::Path
    }
}
