//! What is printed of errors.
ghost use Rattle.std.specs.Prelude.{◌≡◌, Some, option_map};
ghost use Rattle.wire_message.specs.ErrorTexts.{bare_text, io_text, names_text, variant_text, place, error_text, description as description_of};

use crate::error::{Error, IoKind};
use std::fmt;
use wire_names::NamesError;
use wire_signature::VariantError;

impl IoKind {
    /// The kind's name, as it is printed: `Ended`, `Fault`, `Closed`, `WriteFault` or `TimedOut`.
    pub fn as_str(self) -> &'static str
        ensures { result.now ≡ io_text self }
    {
        match self {
            IoKind::Ended => "Ended",
            IoKind::Fault => "Fault",
            IoKind::Closed => "Closed",
            IoKind::WriteFault => "WriteFault",
            IoKind::TimedOut => "TimedOut",
        }
    }
}

/// The kind's name.
impl fmt::Display for IoKind {
    ghost output = { λ k. Some (io_text k) };

    fn fmt<W: fmt::Write>(&self, f: &mut fmt::Formatter<W>) -> fmt::Result {
        f.write_str(self.as_str())
    }
}

/// The name of a fault of values.
fn variant_name(kind: VariantError) -> &'static str
    ensures { result.now ≡ variant_text kind }
{
    match kind {
        VariantError::Signature => "Signature",
        VariantError::Depth => "Depth",
        VariantError::Malformed => "Malformed",
        VariantError::SignatureMismatch => "SignatureMismatch",
        VariantError::Memory => "Memory",
    }
}

/// The name of the grammar that a text is outside of.
fn names_name(kind: NamesError) -> &'static str
    ensures { result.now ≡ names_text kind }
{
    match kind {
        NamesError::Unique => "Unique",
        NamesError::WellKnown => "WellKnown",
        NamesError::Bus => "Bus",
        NamesError::Interface => "Interface",
        NamesError::Member => "Member",
        NamesError::Error => "Error",
        NamesError::Path => "Path",
        NamesError::Memory => "Memory",
    }
}

/// Where an interface stands already, from the end of its name on.
#[derive(Clone, Copy)]
struct Place<'a>(&'a str);

impl<'a> fmt::Display for Place<'a> {
    ghost output = { λ p. Some (place p.0.now) };

    #[tactic(auto, unfolding(crate::specs::ErrorTexts::place))]
    fn fmt<W: fmt::Write>(&self, f: &mut fmt::Formatter<W>) -> fmt::Result {
        write!(f, "` already exists at `{}`", self.0)
    }
}

/// What is printed of an error that holds nothing beside its kind.
fn text_of_bare(error: &Error) -> &'static str
    ensures { result.now ≡ bare_text error.now }
{
    match error {
        Error::InterfaceNotFound => "Interface not found",
        Error::InvalidField => "invalid message field",
        Error::ExcessData => "excess data",
        Error::IncorrectEndian => "incorrect endian",
        Error::InvalidReply => "Invalid D-Bus method reply",
        Error::MissingField => "A required field is missing from message headers",
        Error::InvalidGUID => "Invalid GUID",
        Error::Unsupported => "Connection support is lacking",
        Error::NameTaken => "name already taken on the bus",
        Error::InvalidMatchRule => "Invalid match rule string",
        Error::Memory => "Memory",
        Error::SerialsSpent => "SerialsSpent",
        Error::UnknownHandle => "UnknownHandle",
        Error::Busy => "Busy",
        _ => "",
    }
}

/// What went wrong, with what the error holds beside its kind; of a method's error its name and its detail.
impl fmt::Display for Error {
    ghost output = { λ e. Some (error_text e) };

    fn fmt<W: fmt::Write>(&self, f: &mut fmt::Formatter<W>) -> fmt::Result {
        match self {
            Error::InputOutput(kind) => write!(f, "I/O error: {kind}"),
            Error::Variant(kind) => write!(f, "variant error: {}", variant_name(*kind)),
            Error::Names(kind) => write!(f, "invalid {}", names_name(*kind)),
            Error::MethodError(name, Some(detail), _) => {
                write!(f, "{}: {}", name.as_str(), detail.as_str())
            }
            Error::MethodError(name, None, _) => write!(f, "{}: no details", name.as_str()),
            Error::FDO(error) => write!(f, "{error}"),
            Error::Failure(text) => f.write_str(text.as_str()),
            Error::MissingParameter(name) => {
                write!(f, "Parameter `{name}` was not specified but it is required")
            }
            Error::InterfaceExists(name, path) => {
                let (name, place) = (name.as_str(), Place(path.as_str()));
                write!(f, "Interface `{name}{place}")
            }
            error => f.write_str(text_of_bare(error)),
        }
    }
}

impl std::error::Error for Error {}

impl Error {
    /// What went wrong, in general; of a method's error its detail, and of another failure its text. There is none of
    /// want of memory, of spent serials, of an unknown number and of a busy peer.
    pub fn description(&self) -> Option<&str>
        ensures { option_map (λ t. t.now) result ≡ description_of self.now }
    {
        match self {
            Error::InterfaceNotFound => Some("interface not found"),
            Error::InputOutput(_) => Some("i/o error"),
            Error::InvalidField => Some("invalid field"),
            Error::ExcessData => Some("excess data"),
            Error::Variant(_) => Some("variant error"),
            Error::Names(_) => Some("names error"),
            Error::IncorrectEndian => Some("incorrect endian"),
            Error::InvalidReply => Some("invalid reply"),
            Error::MethodError(_, Some(detail), _) => Some(detail.as_str()),
            Error::MissingField => Some("a required field is missing from message headers"),
            Error::InvalidGUID => Some("invalid GUID"),
            Error::Unsupported => Some("connection support is lacking"),
            Error::FDO(_) => Some("FDO error"),
            Error::NameTaken => Some("name already taken on the bus"),
            Error::InvalidMatchRule => Some("invalid match rule string"),
            Error::Failure(text) => Some(text.as_str()),
            Error::MissingParameter(_) => Some("A required parameter is missing"),
            Error::InterfaceExists(_, _) => Some("interface already exists"),
            Error::MethodError(_, None, _)
            | Error::Memory
            | Error::SerialsSpent
            | Error::UnknownHandle
            | Error::Busy => None,
        }
    }
}
