//! The byte order that a message names (D-Bus Specification, "Message Format").
ghost use Rattle.std.specs.Prelude.{◌≡◌};
ghost use Rattle.wire_message.specs.Primary.{TellsSig, order_of, sig_code, sig_of};

use crate::error::{Error, Result};
use wire_number::Endian;

/// The byte order that a message's first byte names (D-Bus Specification, "Message Format").
#[derive(Clone, Copy, PartialEq, Eq, Hash, Debug)]
pub enum EndianSig {
    /// `B`
    Big,
    /// `l`
    Little,
}

/// The byte order that messages are written in where nothing else is asked for.
pub const NATIVE_ENDIAN_SIG: EndianSig = EndianSig::Little;

impl EndianSig {
    /// The byte order that a byte names.
    ///
    /// # Errors
    ///
    /// IncorrectEndian exactly where it is neither `B` nor `l`.
    pub fn try_from(byte: u8) -> Result<EndianSig>
        ensures { TellsSig result byte }
    {
        match byte {
            b'B' => Ok(EndianSig::Big),
            b'l' => Ok(EndianSig::Little),
            _ => Err(Error::IncorrectEndian),
        }
    }

    /// The byte that names it.
    pub fn byte(self) -> u8
        ensures { result ≡ sig_code self }
    {
        match self {
            EndianSig::Big => b'B',
            EndianSig::Little => b'l',
        }
    }
}

impl From<Endian> for EndianSig {
    ghost from_gives = { λ order sig. sig ≡ sig_of order };

    fn from(order: Endian) -> EndianSig {
        match order {
            Endian::Big => EndianSig::Big,
            Endian::Little => EndianSig::Little,
        }
    }
}

impl From<EndianSig> for Endian {
    ghost from_gives = { λ sig order. order ≡ order_of sig };

    fn from(sig: EndianSig) -> Endian {
        match sig {
            EndianSig::Big => Endian::Big,
            EndianSig::Little => Endian::Little,
        }
    }
}
