//! The flags of RequestName, and the replies to RequestName, ReleaseName and StartServiceByName (D-Bus Specification,
//! "Message Bus Messages").
ghost use Rattle.std.specs.Prelude.{◌≡◌, ⊤, [], ◌∷◌, Some, codes};
ghost use Rattle.fdo_proxy.specs.Names.{TellsReply, release_code, request_code, start_code};
ghost use Rattle.fdo_proxy.specs.Names.{release_text, request_text, start_text};

use bitflags::{Flag, Flags, bitflag_items};
use std::fmt;
use wire_message::Error;

/// What the caller of RequestName wants where a name has an owner, or gets another one later (D-Bus Specification,
/// "org.freedesktop.DBus.RequestName").
///
/// - `AllowReplacement`: another connection that gives `ReplaceExisting` may take the name over.
/// - `ReplaceExisting`: takes the name over, if its owner gave `AllowReplacement`.
/// - `DoNotQueue`: doesn't wait in the queue of the name, neither where it has an owner nor where it is taken over.
///
/// By default a set has all three.
#[derive(Clone, Copy, PartialEq, Eq, Debug)]
pub struct RequestNameFlags(pub(crate) u32);

bitflag_items! {
    impl RequestNameFlags: u32 {
        const AllowReplacement = 1;
        const ReplaceExisting = 2;
        const DoNotQueue = 4;
    }
}

impl Flags for RequestNameFlags {
    type Bits = u32;

    ghost exact = { ⊤ };

    ghost table = { (codes "AllowReplacement", 1) ∷ (codes "ReplaceExisting", 2) ∷ (codes "DoNotQueue", 4) ∷ [] };

    ghost set_of = { λ flags. flags.0 };

    fn flags<'a>() -> &'a [Flag<RequestNameFlags>] {
        RequestNameFlags::FLAGS
    }

    fn bits(&self) -> u32 {
        self.0
    }

    fn from_bits_retain(bits: u32) -> RequestNameFlags {
        RequestNameFlags(bits)
    }
}

/// All three.
impl Default for RequestNameFlags {
    ghost is_default = { λ flags. flags.0 ≡ 7 };

    fn default() -> RequestNameFlags {
        RequestNameFlags(7)
    }
}

/// What a bus replies to RequestName (D-Bus Specification, "org.freedesktop.DBus.RequestName").
#[derive(Clone, Copy, Debug, PartialEq, Eq)]
pub enum RequestNameReply {
    /// 1: the caller is the name's primary owner now.
    PrimaryOwner,
    /// 2: the name has another owner, and the caller waits in its queue.
    InQueue,
    /// 3: the name has another owner, and the caller doesn't wait.
    Exists,
    /// 4: the caller was the name's primary owner already.
    AlreadyOwner,
}

/// What a bus replies to ReleaseName (D-Bus Specification, "org.freedesktop.DBus.ReleaseName").
#[derive(Clone, Copy, Debug, PartialEq, Eq)]
pub enum ReleaseNameReply {
    /// 1: the caller owned the name or waited in its queue, and does so no more.
    Released,
    /// 2: nobody owns the name.
    NonExistent,
    /// 3: the caller neither owns the name nor waits in its queue.
    NotOwner,
}

/// What a bus replies to StartServiceByName (D-Bus Specification, "org.freedesktop.DBus.StartServiceByName").
#[derive(Clone, Copy, Debug, PartialEq, Eq)]
pub enum StartServiceReply {
    /// 1: the service was started.
    Success,
    /// 2: a connection owns the name already.
    AlreadyRunning,
}

impl RequestNameReply {
    /// The variant's name.
    pub fn as_str(self) -> &'static str
        ensures { result.now ≡ request_text self }
    {
        match self {
            RequestNameReply::PrimaryOwner => "PrimaryOwner",
            RequestNameReply::InQueue => "InQueue",
            RequestNameReply::Exists => "Exists",
            RequestNameReply::AlreadyOwner => "AlreadyOwner",
        }
    }
}

impl ReleaseNameReply {
    /// The variant's name.
    pub fn as_str(self) -> &'static str
        ensures { result.now ≡ release_text self }
    {
        match self {
            ReleaseNameReply::Released => "Released",
            ReleaseNameReply::NonExistent => "NonExistent",
            ReleaseNameReply::NotOwner => "NotOwner",
        }
    }
}

impl StartServiceReply {
    /// The variant's name.
    pub fn as_str(self) -> &'static str
        ensures { result.now ≡ start_text self }
    {
        match self {
            StartServiceReply::Success => "Success",
            StartServiceReply::AlreadyRunning => "AlreadyRunning",
        }
    }
}

/// The reply that a number is; `InvalidReply` exactly of a number other than 1 to 4.
impl TryFrom<u32> for RequestNameReply {
    type Error = Error;

    ghost try_from_gives = { TellsReply request_code };

    fn try_from(code: u32) -> Result<RequestNameReply, Error> {
        match code {
            1 => Ok(RequestNameReply::PrimaryOwner),
            2 => Ok(RequestNameReply::InQueue),
            3 => Ok(RequestNameReply::Exists),
            4 => Ok(RequestNameReply::AlreadyOwner),
            _ => Err(Error::InvalidReply),
        }
    }
}

/// The reply that a number is; `InvalidReply` exactly of a number other than 1 to 3.
impl TryFrom<u32> for ReleaseNameReply {
    type Error = Error;

    ghost try_from_gives = { TellsReply release_code };

    fn try_from(code: u32) -> Result<ReleaseNameReply, Error> {
        match code {
            1 => Ok(ReleaseNameReply::Released),
            2 => Ok(ReleaseNameReply::NonExistent),
            3 => Ok(ReleaseNameReply::NotOwner),
            _ => Err(Error::InvalidReply),
        }
    }
}

/// The reply that a number is; `InvalidReply` exactly of a number other than 1 and 2.
impl TryFrom<u32> for StartServiceReply {
    type Error = Error;

    ghost try_from_gives = { TellsReply start_code };

    fn try_from(code: u32) -> Result<StartServiceReply, Error> {
        match code {
            1 => Ok(StartServiceReply::Success),
            2 => Ok(StartServiceReply::AlreadyRunning),
            _ => Err(Error::InvalidReply),
        }
    }
}

/// The variant's name.
impl fmt::Display for RequestNameReply {
    ghost output = { λ reply. Some (request_text reply) };

    fn fmt<W: fmt::Write>(&self, f: &mut fmt::Formatter<W>) -> fmt::Result {
        f.write_str(self.as_str())
    }
}

/// The variant's name.
impl fmt::Display for ReleaseNameReply {
    ghost output = { λ reply. Some (release_text reply) };

    fn fmt<W: fmt::Write>(&self, f: &mut fmt::Formatter<W>) -> fmt::Result {
        f.write_str(self.as_str())
    }
}

/// The variant's name.
impl fmt::Display for StartServiceReply {
    ghost output = { λ reply. Some (start_text reply) };

    fn fmt<W: fmt::Write>(&self, f: &mut fmt::Formatter<W>) -> fmt::Result {
        f.write_str(self.as_str())
    }
}
