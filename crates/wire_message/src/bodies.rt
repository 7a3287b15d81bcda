//! Messages whose bodies are arguments, values, or bytes.
ghost use Rattle.std.specs.Prelude.{◌≡◌, [], ◌+◌, ◌*◌, ◌<◌, ◌≤◌, ◌^◌, Err, IfErr, IfOk, IfSome, IsTrue, List, length, map};
ghost use Rattle.wire_number.specs.Limits.{greatest_serial};
ghost use Rattle.wire_signature.specs.SingleType.{SignatureText, SingleType};
ghost use Rattle.wire_tree.specs.Datum.{Datum, type_of};
ghost use Rattle.wire_body.specs.Arguments.{TellsTo};
ghost use Rattle.wire_message.specs.Bodies.{BuildsBody, BuildsOf, BuildsValues, IsReady, IsRefusedAs};
ghost use Rattle.wire_message.specs.SerialOrder.{looked_for, taken_among};
ghost use Rattle.wire_message.specs.BuilderView.{BuildsWith, ReadsAgain};
ghost use Rattle.wire_message.specs.Field.{is_text};
ghost use Rattle.wire_message.specs.Signed.{counted, signature_field, signed};
ghost use Rattle.wire_message.specs.declared.field.FieldCode.TheVariants as codes;

use crate::builder::Builder;
use crate::content::{Content, Raw, Typed, Values};
use crate::error::{Error, Result};
use crate::header_text::HeaderText;
use crate::message::Message;
use crate::serials::{Serials, Taken};
use crate::steps::{Counts, Steps, Uncounted};
use std::alloc::Global;
use std::sync::ledger::Ledger;
use wire_argument::SignatureBuffer;
use wire_body::{BodyValues, ToBody, is_shallow, put_signature};
use wire_encoding::MAX_DEPTH;
use wire_signature::{Signature, VariantError};

/// The text of a signature as a header field, where it isn't the empty one.
#[tactic(auto, using(crate::proofs::Valid::signature_fields))]
fn field_of(text: &str) -> Option<HeaderText<'_>>
    requires { (types : List SingleType) × SignatureText types text.now }
    ensures text { (types : List SingleType) → SignatureText types text.now → result ≡ signature_field types }
    ensures valid { IfSome result (λ t. IsTrue (is_text codes.Signature t)) }
{
    if text.is_empty() {
        None
    } else {
        Some(HeaderText::borrowed(text))
    }
}

/// The text of a signature, which is ASCII and so UTF-8.
pub(crate) fn signature_str(bytes: &[u8]) -> &str
    requires { (types : List SingleType) × SignatureText types bytes.now }
    ensures { result.now ≡ bytes.now }
{
    unsafe { str::from_utf8_unchecked(bytes) }
}

/// The signature of the arguments, and whether a message may hold them. `Signature` comes exactly where their types
/// together are none; else `Malformed` or `Depth` as of [`ToBody::check`].
fn ready<B: ToBody>(
    body: &B,
    signature: &mut SignatureBuffer,
) -> std::result::Result<(), VariantError>
    requires { signature.old ≡ [] }
    ensures told { IsReady result B.kinds (B.datums body.now) signature.new }
    ensures round { IfOk result (λ _. B.read (B.datums body.now) ≡ body.now) }
{
    put_signature::<B>(signature)?;
    body.check(MAX_DEPTH)
}

impl<'a> Builder<'a> {
    /// With the signature of this text (D-Bus Specification, "Header Fields", `SIGNATURE`).
    fn with_signature(self, text: &'a str) -> Builder<'a>
        requires { (types : List SingleType) × SignatureText types text.now }
        ensures { (types : List SingleType) → SignatureText types text.now → result ≡ signed self.entry types }
    {
        self.with_body_type(field_of(text))
    }

    /// With the count of those descriptors (D-Bus Specification, "Header Fields", `UNIX_FDS`); without one where there
    /// are none.
    fn with_count(self, fds: &[u32]) -> Builder<'a>
        requires { length fds.now < 2 ^ 32 }
        ensures { result ≡ counted self.entry fds.now }
    {
        self.with_unix_fds(if fds.is_empty() {
            None
        } else {
            Some(fds.len() as u32)
        })
    }

    /// The message with that content and the signature of this text, and with these descriptors.
    fn build_signed<C: Content, T: Taken, S: Counts>(
        self,
        alloc: Global,
        serials: &mut Serials,
        taken: &T,
        content: &C,
        text: &str,
        fds: &[u32],
        steps: &mut S,
    ) -> Result<Message>
        requires signature { (types : List SingleType) × SignatureText types text.now }
        requires sound { C.sound content.now }
        ensures built { (types : List SingleType) → SignatureText types text.now → BuildsOf (T.is_taken taken.now) (signed self.entry types) (C.text self.entry.order content.now) (C.sound content.now) (C.fits self.entry.order content.now) fds.now serials.old serials.new result }
        ensures again { IfOk result ReadsAgain }
        ensures cost { S.counted steps.new ≤ S.counted steps.old + taken_among (T.is_taken taken.now) greatest_serial + 2 }
        ensures exact { IfOk result (λ m. S.counted steps.new ≡ S.counted steps.old + looked_for self.entry.serial serials.old m.serial * S.weight) }
        ensures spent { result ≡ Err Error.SerialsSpent → S.counted steps.new ≡ S.counted steps.old }
    {
        let builder = self.with_signature(text);
        builder.build_of(alloc, serials, taken, content, fds, steps)
    }

    /// That there is no serial is told first, then why no message can be made. No serial is kept.
    fn refused<T: Taken, S: Counts>(
        self,
        serials: &Serials,
        taken: &T,
        kind: VariantError,
        steps: &mut S,
    ) -> Result<Message>
        ensures told { IsRefusedAs (T.is_taken taken.now) self.entry.serial serials.now kind result }
        ensures cost { S.counted steps.new ≤ S.counted steps.old + taken_among (T.is_taken taken.now) greatest_serial + 2 }
        ensures spent { result ≡ Err Error.SerialsSpent → S.counted steps.new ≡ S.counted steps.old }
    {
        let mut drawn = Serials::after(serials.last());
        self.own_or_next(&mut drawn, taken, steps)?;
        Err(Error::from(kind))
    }

    /// As `build`, for each way to count.
    fn build_typed<B: ToBody, T: Taken, S: Counts>(
        self,
        alloc: Global,
        serials: &mut Serials,
        taken: &T,
        body: &B,
        steps: &mut S,
    ) -> Result<Message>
        ensures built { BuildsBody (T.is_taken taken.now) self.entry (B.datums body.now) serials.old serials.new result }
        ensures round { IfOk result (λ _. B.read (B.datums body.now) ≡ body.now) }
        ensures again { IfOk result ReadsAgain }
        ensures cost { S.counted steps.new ≤ S.counted steps.old + taken_among (T.is_taken taken.now) greatest_serial + 2 }
        ensures exact { IfOk result (λ m. S.counted steps.new ≡ S.counted steps.old + looked_for self.entry.serial serials.old m.serial * S.weight) }
        ensures spent { result ≡ Err Error.SerialsSpent → S.counted steps.new ≡ S.counted steps.old }
    {
        let mut signature = SignatureBuffer::new();
        match ready(body, &mut signature) {
            Ok(()) => {
                let content = Typed { arguments: body };
                let text = signature_str(signature.as_bytes());
                self.build_signed(alloc, serials, taken, &content, text, &[], steps)
            }
            Err(kind) => self.refused(serials, taken, kind, steps),
        }
    }

    /// As `build_body`, for each way to count.
    fn build_values<T: Taken, S: Counts>(
        self,
        alloc: Global,
        serials: &mut Serials,
        taken: &T,
        body: &BodyValues,
        fds: &[u32],
        steps: &mut S,
    ) -> Result<Message>
        ensures built { BuildsValues (T.is_taken taken.now) self.entry body.now fds.now serials.old serials.new result }
        ensures again { IfOk result ReadsAgain }
        ensures cost { S.counted steps.new ≤ S.counted steps.old + taken_among (T.is_taken taken.now) greatest_serial + 2 }
        ensures exact { IfOk result (λ m. S.counted steps.new ≡ S.counted steps.old + looked_for self.entry.serial serials.old m.serial * S.weight) }
        ensures spent { result ≡ Err Error.SerialsSpent → S.counted steps.new ≡ S.counted steps.old }
    {
        if !is_shallow(body) {
            return self.refused(serials, taken, VariantError::Depth, steps);
        }
        let text = body.signature().to_text(alloc)?;
        let content = Values { body };
        self.build_signed(alloc, serials, taken, &content, text.as_str(), fds, steps)
    }

    /// As `build`, with what `to` made of the arguments.
    pub(crate) fn build_to<T: Taken, S: Counts>(
        self,
        alloc: Global,
        serials: &mut Serials,
        taken: &T,
        body: std::result::Result<BodyValues, VariantError>,
        steps: &mut S,
    ) -> Result<Message>
        ensures built { (values : List Datum) → TellsTo body (map type_of values) values → BuildsBody (T.is_taken taken.now) self.entry values serials.old serials.new result }
        ensures only { IfOk result (λ _. IfErr body (λ _. ⊥)) }
        ensures again { IfOk result ReadsAgain }
        ensures cost { S.counted steps.new ≤ S.counted steps.old + taken_among (T.is_taken taken.now) greatest_serial + 2 }
        ensures exact { IfOk result (λ m. S.counted steps.new ≡ S.counted steps.old + looked_for self.entry.serial serials.old m.serial * S.weight) }
        ensures spent { result ≡ Err Error.SerialsSpent → S.counted steps.new ≡ S.counted steps.old }
    {
        match body {
            Ok(body) => self.build_values(alloc, serials, taken, &body, &[], steps),
            Err(kind) => self.refused(serials, taken, kind, steps),
        }
    }

    /// The message with these arguments as its body, and with the serial that was set, else with the next (D-Bus
    /// Specification, "Message Format", "Marshaling (Wire Format)"). Their signature is a header field, and left out
    /// where there are no arguments.
    ///
    /// A serial is drawn only with the message, and only where none was set. A step is a serial that is looked at: for
    /// a message that is made, those of its draw; none at SerialsSpent.
    ///
    /// # Errors
    ///
    /// The first that holds: SerialsSpent exactly where no serial was set and each is pending; Variant of `Signature`
    /// exactly where the types together are no signature; Variant of `Malformed` exactly where a text holds a 0 byte,
    /// or a text or path is longer than 4,294,967,295 bytes; Variant of `Depth` exactly where a value opens more than
    /// 64 containers at once; ExcessData exactly where the elements of an array would take more than 67,108,864 bytes,
    /// or the message more than 134,217,728. Memory for want of memory.
    pub fn build<B: ToBody, T: Taken, L: Ledger>(
        self,
        alloc: Global,
        serials: &mut Serials,
        taken: &T,
        body: &B,
        steps: &mut Steps<L>,
    ) -> Result<Message>
        ensures built { BuildsBody (T.is_taken taken.now) self.entry (B.datums body.now) serials.old serials.new result }
        ensures round { IfOk result (λ _. B.read (B.datums body.now) ≡ body.now) }
        ensures again { IfOk result ReadsAgain }
        ensures cost { steps.new ≤ steps.old + taken_among (T.is_taken taken.now) greatest_serial + 2 }
        ensures exact { IfOk result (λ m. steps.new ≡ steps.old + looked_for self.entry.serial serials.old m.serial) }
        ensures spent { result ≡ Err Error.SerialsSpent → steps.new ≡ steps.old }
    {
        self.build_typed(alloc, serials, taken, body, steps)
    }

    /// As `build`, for a caller that counts no steps.
    ///
    /// # Errors
    ///
    /// Those of `build`, exactly where it has them. A refusal draws no serial.
    pub fn build_uncounted<B: ToBody, T: Taken>(
        self,
        alloc: Global,
        serials: &mut Serials,
        taken: &T,
        body: &B,
    ) -> Result<Message>
        ensures built { BuildsBody (T.is_taken taken.now) self.entry (B.datums body.now) serials.old serials.new result }
        ensures round { IfOk result (λ _. B.read (B.datums body.now) ≡ body.now) }
        ensures again { IfOk result ReadsAgain }
    {
        self.build_typed(alloc, serials, taken, body, &mut Uncounted)
    }

    /// As `build`, with the values of that body, and with these descriptors, which go with the message; their count is
    /// written as its `UNIX_FDS` exactly where there are some. The values' signature is left out where there are none.
    ///
    /// # Errors
    ///
    /// The first that holds: SerialsSpent exactly where no serial was set and each is pending; Variant of `Depth`
    /// exactly where a value opens more than 64 containers at once; ExcessData exactly where the elements of an array
    /// would take more than 67,108,864 bytes, or the message more than 134,217,728. Memory for want of memory. A
    /// refusal draws no serial.
    pub fn build_body<T: Taken, L: Ledger>(
        self,
        alloc: Global,
        serials: &mut Serials,
        taken: &T,
        body: &BodyValues,
        fds: &[u32],
        steps: &mut Steps<L>,
    ) -> Result<Message>
        requires { length fds.now < 2 ^ 32 }
        ensures built { BuildsValues (T.is_taken taken.now) (counted self.entry fds.now) body.now fds.now serials.old serials.new result }
        ensures again { IfOk result ReadsAgain }
        ensures cost { steps.new ≤ steps.old + taken_among (T.is_taken taken.now) greatest_serial + 2 }
        ensures exact { IfOk result (λ m. steps.new ≡ steps.old + looked_for self.entry.serial serials.old m.serial) }
        ensures spent { result ≡ Err Error.SerialsSpent → steps.new ≡ steps.old }
    {
        let builder = self.with_count(fds);
        builder.build_values(alloc, serials, taken, body, fds, steps)
    }

    /// As `build_body`, for a caller that counts no steps.
    ///
    /// # Errors
    ///
    /// Those of `build_body`, exactly where it has them. A refusal draws no serial.
    pub fn build_body_uncounted<T: Taken>(
        self,
        alloc: Global,
        serials: &mut Serials,
        taken: &T,
        body: &BodyValues,
        fds: &[u32],
    ) -> Result<Message>
        requires { length fds.now < 2 ^ 32 }
        ensures built { BuildsValues (T.is_taken taken.now) (counted self.entry fds.now) body.now fds.now serials.old serials.new result }
        ensures again { IfOk result ReadsAgain }
    {
        let builder = self.with_count(fds);
        builder.build_values(alloc, serials, taken, body, fds, &mut Uncounted)
    }

    /// As `build_empty`, with these bytes as the body, that signature, and these descriptors. The bytes are put as they
    /// are, and not compared with the signature: what they encode is for the caller to know. An empty signature is left
    /// out. The descriptors go with the message; their count is written as its `UNIX_FDS` exactly where there are some.
    ///
    /// # Errors
    ///
    /// The first that holds: SerialsSpent exactly where no serial was set and each is pending; ExcessData exactly where
    /// the message would take more than 134,217,728 bytes. Memory for want of memory. A refusal draws no serial.
    pub fn build_raw_body<T: Taken, L: Ledger>(
        self,
        alloc: Global,
        serials: &mut Serials,
        taken: &T,
        body: &[u8],
        signature: &Signature,
        fds: &[u32],
        steps: &mut Steps<L>,
    ) -> Result<Message>
        requires { length fds.now < 2 ^ 32 }
        ensures built { BuildsWith (T.is_taken taken.now) (counted (signed self.entry signature.now) fds.now) body.now fds.now serials.old serials.new result }
        ensures again { IfOk result ReadsAgain }
        ensures cost { steps.new ≤ steps.old + taken_among (T.is_taken taken.now) greatest_serial + 2 }
        ensures exact { IfOk result (λ m. steps.new ≡ steps.old + looked_for self.entry.serial serials.old m.serial) }
        ensures spent { result ≡ Err Error.SerialsSpent → steps.new ≡ steps.old }
    {
        let text = signature.to_text(alloc)?;
        let content = Raw { bytes: body };
        let builder = self.with_count(fds);
        builder.build_signed(alloc, serials, taken, &content, text.as_str(), fds, steps)
    }

    /// As `build_raw_body`, for a caller that counts no steps.
    ///
    /// # Errors
    ///
    /// Those of `build_raw_body`, exactly where it has them. A refusal draws no serial.
    pub fn build_raw_body_uncounted<T: Taken>(
        self,
        alloc: Global,
        serials: &mut Serials,
        taken: &T,
        body: &[u8],
        signature: &Signature,
        fds: &[u32],
    ) -> Result<Message>
        requires { length fds.now < 2 ^ 32 }
        ensures built { BuildsWith (T.is_taken taken.now) (counted (signed self.entry signature.now) fds.now) body.now fds.now serials.old serials.new result }
        ensures again { IfOk result ReadsAgain }
    {
        let text = signature.to_text(alloc)?;
        let (content, steps) = (Raw { bytes: body }, &mut Uncounted);
        let builder = self.with_count(fds);
        builder.build_signed(alloc, serials, taken, &content, text.as_str(), fds, steps)
    }
}
