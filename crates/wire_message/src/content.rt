//! What a message's body is, as it is written behind the header.
ghost use Rattle.std.specs.Prelude.{◌%◌, ◌≡◌, ◌≤◌, ◌⊎◌, List, ℕ, length};
ghost use Rattle.wire_number.specs.Limits.{message_limit};
ghost use Rattle.wire_number.specs.declared.endian.Endian.{Endian};
ghost use Rattle.wire_message.specs.Content.{AppendsBody};

use crate::error::{Error, Result};
use crate::front::MESSAGE_LIMIT;
use wire_body::{BodyValues, ToBody, append_arguments, append_body};
use wire_codec::EncodeError;
use wire_number::Endian;

/// What is written as a message's body.
pub(crate) trait Content: Drop {
    /// what was found out about it before
    ghost sound: { Self → Type 0 };

    /// its bytes
    ghost text: { Endian → Self → List ℕ };

    /// the elements of each array take at most 67,108,864 bytes
    ghost fits: { Endian → Self → Type 0 };

    /// For how many bytes room is made at once.
    fn room(&self) -> usize
        ensures { result ≤ message_limit };

    /// Appends its bytes to a header, which ends on a multiple of 8.
    fn append(&self, order: Endian, out: &mut Vec<u8>) -> Result<()>
        requires sound { sound self.now }
        requires placed { length out.old.items % 8 ≡ 0 }
        ensures { AppendsBody result (text order self.now) (fits order self.now) out.old.items out.new.items };

    ghost decided: { (order : Endian) (content : Self) → (Self.fits order content → ⊥) ⊎ Self.fits order content };
}

/// How much room is made for the values of a body, as most take no more: so a small message is written into one piece
/// of memory.
const SMALL_BODY: usize = 256;

/// Bytes that are put as they are.
#[derive(Clone, Copy)]
pub(crate) struct Raw<'a> {
    pub(crate) bytes: &'a [u8],
}

impl<'a> Content for Raw<'a> {
    ghost use Rattle.std.proofs.Common.{inr};

    ghost sound = { λ raw. Unit {0} };

    ghost text = { λ order raw. raw.bytes.now };

    ghost fits = { λ order raw. Unit {0} };

    ghost decided = { λ order raw. inr tt };

    fn room(&self) -> usize {
        self.bytes.len().min(MESSAGE_LIMIT)
    }

    fn append(&self, _order: Endian, out: &mut Vec<u8>) -> Result<()> {
        if self.bytes.len() > MESSAGE_LIMIT {
            return Err(Error::ExcessData);
        }
        out.extend_from_slice(self.bytes)?;
        Ok(())
    }
}

/// Values, none of which opens more than 64 containers at once.
#[derive(Clone, Copy)]
pub(crate) struct Values<'a> {
    pub(crate) body: &'a BodyValues,
}

impl<'a> Content for Values<'a> {
    ghost use Rattle.wire_tree.specs.Datum.{data_of};
    ghost use Rattle.wire_encoding.specs.Encoding.{AllFit, depths};
    ghost use Rattle.wire_codec.proofs.Fits.{all_decided};
    ghost use Rattle.wire_message.specs.Bodies.{body_text};

    ghost sound = { λ values. depths (data_of values.body.now) ≤ 64 };

    ghost text = { λ order values. body_text order values.body.now };

    ghost fits = { λ order values. AllFit order 0 (data_of values.body.now) };

    ghost decided = { λ order values. all_decided order 0 (data_of values.body.now) };

    fn room(&self) -> usize {
        SMALL_BODY
    }

    fn append(&self, order: Endian, out: &mut Vec<u8>) -> Result<()> {
        match append_body(order, self.body, out) {
            Ok(()) => Ok(()),
            Err(EncodeError::ExcessData) => Err(Error::ExcessData),
            Err(EncodeError::Memory) => Err(Error::Memory),
            // How deep the values are was asked before.
            Err(EncodeError::Variant(_)) => unreachable!(),
        }
    }
}

/// Arguments that a message may hold.
#[derive(Drop)]
pub(crate) struct Typed<'a, B> {
    pub(crate) arguments: &'a B,
}

impl<'a, B: ToBody> Content for Typed<'a, B> {
    ghost use Rattle.wire_tree.specs.Datum.{data_of};
    ghost use Rattle.wire_encoding.specs.Encoding.{AllFit, depths};
    ghost use Rattle.wire_codec.proofs.Fits.{all_decided};
    ghost use Rattle.wire_body.specs.Arguments.{AreAllWellTyped};
    ghost use Rattle.wire_message.specs.Bodies.{body_text};

    ghost sound = { λ typed. AreAllWellTyped (B.datums typed.arguments.now) × (depths (data_of (B.datums typed.arguments.now)) ≤ 64) };

    ghost text = { λ order typed. body_text order (B.datums typed.arguments.now) };

    ghost fits = { λ order typed. AllFit order 0 (data_of (B.datums typed.arguments.now)) };

    ghost decided = { λ order typed. all_decided order 0 (data_of (B.datums typed.arguments.now)) };

    fn room(&self) -> usize {
        SMALL_BODY
    }

    fn append(&self, order: Endian, out: &mut Vec<u8>) -> Result<()> {
        match append_arguments(order, self.arguments, out) {
            Ok(()) => Ok(()),
            Err(EncodeError::ExcessData) => Err(Error::ExcessData),
            Err(EncodeError::Memory) => Err(Error::Memory),
            // How deep the values are was asked before.
            Err(EncodeError::Variant(_)) => unreachable!(),
        }
    }
}
