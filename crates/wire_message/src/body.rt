//! Reading the bodies of messages.
ghost use Rattle.std.specs.Prelude.{◌≡◌, ◌==◌, IfErr, IfOk, length};
ghost use Rattle.wire_message.specs.Front.{body_bytes};
ghost use Rattle.wire_message.specs.BodyReading.{HasTypes, ReadsAs, ReadsBody, ReadsValues, TellsBegun};
ghost use Rattle.wire_message.specs.declared.error.Error.TheVariants.{Memory};

use crate::bodies::signature_str;
use crate::error::{Error, Result};
use crate::message::Message;
use std::alloc::Global;
use std::marker::Model;
use wire_argument::SignatureBuffer;
use wire_body::{BodyValues, FromBody, decode_arguments, decode_body, put_signature};
use wire_number::Endian;
use wire_signature::{Signature, VariantError};

/// The body of a message (D-Bus Specification, "Message Format").
pub struct Body<'a> {
    message: &'a Message,
}

impl<'a> Model for Body<'a> {
    ghost use Rattle.wire_message.specs.Front.{MessageView};

    ghost Value = { MessageView };

    ghost view = { λ b. b.message.now };
}

impl<'a> Drop for Body<'a> {
    fn drop(self) {
        let Body { message: _ } = self;
    }
}

/// The arguments that a front of a body's bytes encodes.
#[tactic(auto, using(crate::proofs::BodyFound::found_bodies), unfolding(crate::specs::BodyReading::BeginsNoBody))]
fn begun<T: FromBody>(
    alloc: Global,
    order: Endian,
    bytes: &[u8],
) -> std::result::Result<T, VariantError>
    ensures { TellsBegun result T.read order T.kinds bytes.now }
{
    let mut kinds = SignatureBuffer::new();
    match put_signature::<T>(&mut kinds) {
        Ok(()) => decode_arguments(alloc, order, bytes),
        Err(_) => Err(VariantError::Malformed),
    }
}

impl Message {
    /// The message's body.
    pub fn body(&self) -> Body<'_>
        ensures { result ≡ self.now }
    {
        Body { message: self }
    }
}

impl<'a> Body<'a> {
    /// The message that it belongs to.
    pub fn message(&self) -> &'a Message
        ensures { result.now ≡ self.now }
    {
        self.message
    }

    /// Its bytes.
    pub fn data(&self) -> &'a [u8]
        ensures { result.now ≡ body_bytes self.now.bytes }
    {
        self.message.body_bytes()
    }

    /// The count of its bytes.
    pub fn len(&self) -> usize
        ensures { result ≡ length (body_bytes self.now.bytes) }
    {
        self.data().len()
    }

    /// Whether it has no bytes.
    pub fn is_empty(&self) -> bool
        ensures { result ≡ (length (body_bytes self.now.bytes) == 0) }
    {
        self.data().is_empty()
    }

    /// The types of its values, as the header names them (D-Bus Specification, "Header Fields", `SIGNATURE`): no types
    /// where the header names none.
    ///
    /// # Errors
    ///
    /// Memory for want of memory, and no other.
    pub fn signature(&self, alloc: Global) -> Result<Signature>
        ensures types { IfOk result (λ types. HasTypes self.now types) }
        ensures error { IfErr result (λ e. e ≡ Memory) }
    {
        let text = signature_str(self.message.signature_text());
        match Signature::try_from(alloc, text) {
            Ok(types) => Ok(types),
            Err(VariantError::Memory) => Err(Error::Memory),
            // What a header has as its signature is one.
            Err(_) => unreachable!(),
        }
    }

    /// All that the body holds by the header's signature, as values: what a front of it encodes in the message's byte
    /// order (D-Bus Specification, "Message Format", "Marshaling (Wire Format)"). A header without a signature has the
    /// empty one. Of bytes behind the values nothing is asked.
    ///
    /// # Errors
    ///
    /// Variant of `Malformed` exactly where no front of the body encodes a value of each of the signature's types.
    /// Memory for want of memory.
    ///
    /// # Examples
    ///
    /// ```
    /// use wire_message::{Message, NonePending, Serials};
    /// use wire_value::{MemberName, ObjectPath};
    /// let call = Message::method_call(&ObjectPath::try_from("/a")?, &MemberName::try_from("Add")?);
    /// let call = call.build_uncounted(rt.alloc(), &mut Serials::new(), &NonePending, &(2u32, 3u32))?;
    /// let body = call.body().values(rt.alloc())?;
    /// assert!(rt; body.values().len() == 2);
    /// Ok(())
    /// ```
    pub fn values(&self, alloc: Global) -> Result<BodyValues>
        ensures { ReadsValues result self.now }
    {
        let types = self.signature(alloc)?;
        let message = self.message;
        match decode_body(alloc, message.order(), &types, message.body_bytes()) {
            Ok((values, _count)) => Ok(BodyValues::from_parts(values, types)),
            Err(VariantError::Malformed) => Err(Error::Variant(VariantError::Malformed)),
            Err(VariantError::Memory) => Err(Error::Memory),
            Err(_) => unreachable!(),
        }
    }

    /// The arguments that a front of the body encodes in the message's byte order, as values of the target's types,
    /// whatever the header's signature says (D-Bus Specification, "Marshaling (Wire Format)"). Of what stands behind
    /// them nothing is asked.
    ///
    /// # Errors
    ///
    /// Variant of `Malformed` exactly where no front of the body encodes a value of each of the target's types, or
    /// where these types together are no signature, so that no body has them. Memory for want of memory.
    pub fn deserialize_unchecked<T: FromBody>(&self, alloc: Global) -> Result<T>
        ensures { ReadsAs result T.read T.kinds self.now }
    {
        let message = self.message;
        match begun(alloc, message.order(), message.body_bytes()) {
            Ok(arguments) => Ok(arguments),
            Err(VariantError::Malformed) => Err(Error::Variant(VariantError::Malformed)),
            Err(VariantError::Memory) => Err(Error::Memory),
            Err(_) => unreachable!(),
        }
    }

    /// The arguments of the body, where the header's signature is that of the target's types: what a front of the body
    /// encodes in the message's byte order (D-Bus Specification, "Message Format", "Marshaling (Wire Format)"). A
    /// header without a signature has the empty one. Of bytes behind the arguments nothing is asked.
    ///
    /// # Errors
    ///
    /// Variant of `SignatureMismatch` exactly where the header's signature is not that of the target's types; else
    /// Variant of `Malformed` exactly where no front of the body encodes a value of each type. Memory for want of
    /// memory.
    ///
    /// # Examples
    ///
    /// ```
    /// use wire_message::{Message, NonePending, Serials};
    /// use wire_value::{MemberName, ObjectPath};
    /// let call = Message::method_call(&ObjectPath::try_from("/a")?, &MemberName::try_from("Add")?);
    /// let call = call.build_uncounted(rt.alloc(), &mut Serials::new(), &NonePending, &(2u32, 3u32))?;
    /// let sum = call.body().deserialize::<(u32, u32)>(rt.alloc())?;
    /// assert!(rt; sum == (2, 3));
    /// Ok(())
    /// ```
    #[tactic(auto, using(crate::proofs::BodyFound::own_types))]
    pub fn deserialize<T: FromBody>(&self, alloc: Global) -> Result<T>
        ensures { ReadsBody result T.read T.kinds self.now }
    {
        let mut kinds = SignatureBuffer::new();
        // Types whose text is too long for a signature are no header's.
        let fits = T::write_kinds(&mut kinds).is_ok();
        if fits && kinds.as_bytes() == self.message.signature_text() {
            self.deserialize_unchecked(alloc)
        } else {
            Err(Error::Variant(VariantError::SignatureMismatch))
        }
    }
}
