//! Laws of the header grammar, of bodies and of errors.
ghost use Rattle.std.specs.Prelude.{◌≡◌, ◌<◌, ◌≤◌, ◌^◌, ◌++◌, ℕ, Bool, List, Ok, Err, Result, length, slice_index, ◌↔◌, IsTrue};
ghost use Rattle.wire_number.specs.Limits.{greatest_serial, message_limit};
ghost use Rattle.std.specs.List.{AllByRecursion};
ghost use Rattle.wire_number.specs.declared.endian.Endian.{Endian};
ghost use Rattle.wire_number.specs.Number.{padding};
ghost use Rattle.wire_signature.specs.SingleType.{IsSignature};
ghost use Rattle.wire_encoding.specs.Encoding.{encoding, encodings};
ghost use Rattle.wire_body.specs.Arguments.{AreAllWellTyped};
ghost use Rattle.wire_message.specs.Bodies.{BuildsBody, BuildsValues};
ghost use Rattle.wire_message.specs.BuilderView.{BuilderView, IsBuilder, ReadsAgain, built, message_text};
ghost use Rattle.wire_message.specs.Field.{Field, IsField, field_text, fields_text};
ghost use Rattle.wire_message.specs.Front.{MessageView, Front, fields_of, total};
ghost use Rattle.wire_message.specs.Header.{IsHeader, field_data, field_datum};
ghost use Rattle.wire_message.specs.Outcome.{IsUnplaced, StandsOn, Tells, front_outcome};
ghost use Rattle.wire_message.specs.declared.received.Received.{Received};
ghost use Rattle.wire_message.specs.Refusal.{IsRefused};
ghost use Rattle.wire_message.specs.SerialOrder.{AllTaken, IsNearest, IsNext};
ghost use Rattle.wire_message.specs.declared.error.IoKind.TheVariants.{Ended};
ghost use Rattle.wire_message.specs.BodyReading.{ReadsBody};
ghost use Rattle.wire_message.specs.SameError.{Same};
ghost use Rattle.wire_message.specs.StandardNames.{kind_name};
ghost use Rattle.wire_message.specs.declared.error.Error.{Error};
ghost use Rattle.wire_message.specs.declared.fdo_kind.Kind.{Kind};

use crate::error::Error;
use wire_body::FromBody;

/// What is built of a builder stands on its own bytes, whatever follows them, with exactly the fields that were set
/// (D-Bus Specification, "Message Format", "Header Fields").
#[tactic(auto, unfolding(crate::specs::BuilderView::built))]
pub fn built_messages_are_read_again()
    ensures again { (builder : BuilderView) (serial : ℕ) (body : List ℕ) → IsBuilder builder → 0 < serial → serial < 2 ^ 32 → length (message_text builder serial body) ≤ message_limit → ReadsAgain (built builder serial body) }
    ensures fields { (builder : BuilderView) (serial : ℕ) (body : List ℕ) → fields_of (built builder serial body) ≡ builder.fields }
    ensures bytes { (builder : BuilderView) (serial : ℕ) (body : List ℕ) → (built builder serial body).bytes ≡ message_text builder serial body }
{}

/// A header's field is a value of type `(yv)`, and fields are such values one behind the other (D-Bus Specification,
/// "Message Format", "Marshaling (Wire Format)").
#[tactic(auto, using(crate::proofs::HeaderValue::field_encoded, crate::proofs::HeaderValue::fields_encoded))]
pub fn fields_are_values()
    ensures one { (order : Endian) (place : ℕ) (field : Field) → IsField field → padding place 8 ++ field_text order field ≡ encoding order place (field_datum field) }
    ensures all { (order : Endian) (place : ℕ) (fields : List Field) → AllByRecursion IsField fields → fields_text order place fields ≡ encodings order place (field_data fields) }
{}

/// The first 16 bytes of a message and the fields behind them are the encoding of a value of types `yyyyuua(yv)` (D-Bus
/// Specification, "Message Format").
#[tactic(auto, using(crate::proofs::HeaderValue::header_is))]
pub fn headers_are_values()
    ensures { (bytes : List ℕ) (m : MessageView) (n : ℕ) → ((i : ℕ) → slice_index bytes i < 256) → Front bytes m n → IsHeader bytes m }
{}

/// What a reader finds at the front of bytes is the message, or the front to be ignored, that stands there by the
/// header grammar, and what it refuses is stated in the grammar's terms (D-Bus Specification, "Message Format").
pub fn fronts_are_the_header_grammar()
    ensures front { (bytes : List ℕ) (r : Received) → ((i : ℕ) → slice_index bytes i < 256) → (front_outcome bytes Ended ≡ Ok r) ↔ (StandsOn bytes r (total bytes) × IsUnplaced r) }
    ensures refusal { (bytes : List ℕ) (error : Error) → ((i : ℕ) → slice_index bytes i < 256) → (front_outcome bytes Ended ≡ Err error) ↔ IsRefused bytes error }
{}

/// The next serial is the free one that is nearest behind the last one drawn, in cyclic order from 1 to 4,294,967,295;
/// there is none exactly where each is pending.
pub fn next_serials_are_the_nearest_free()
    ensures next { (taken : ℕ → Bool) (last serial : ℕ) → last ≤ greatest_serial → IsNext taken last serial ↔ IsNearest taken last serial }
    ensures none { (taken : ℕ → Bool) (last : ℕ) → last ≤ greatest_serial → ((serial : ℕ) → IsNext taken last serial → ⊥) ↔ AllTaken taken }
{}

/// At most one message and one length stand on the front of given bytes, but for the message's position (D-Bus
/// Specification, "Message Format").
#[tactic(auto, using(crate::proofs::Grammar::one_message))]
pub fn one_message()
    ensures { (bytes : List ℕ) (m other : MessageView) (n len : ℕ) → Front bytes m n → Front bytes other len → m.position ≡ other.position → (m ≡ other) × (n ≡ len) }
{}

/// What a message was built of is read back from its body, in either byte order, where nothing but memory is missing:
/// of arguments that [`crate::Builder::build`] took, and of those that were made a body by [`wire_body::to`] and given
/// to [`crate::Builder::build_body`]. The last premise of each is what [`crate::Body::deserialize`] promises of its
/// answer (D-Bus Specification, "Message Format", "Marshaling (Wire Format)").
#[tactic(auto, using(crate::proofs::BodyAgain::values_again))]
pub fn built_bodies_are_read_again<T: FromBody>()
    ensures arguments { (taken : ℕ → Bool) (builder : BuilderView) (old new : ℕ) (m : MessageView) (x : T) (r : Result T Error) → BuildsBody taken builder (T.datums x) old new (Ok m) → ReadsAgain m → T.read (T.datums x) ≡ x → ReadsBody r T.read T.kinds m → Tells (λ y. y) r (Ok x) }
    ensures values { (taken : ℕ → Bool) (builder : BuilderView) (fds : List ℕ) (old new : ℕ) (m : MessageView) (x : T) (r : Result T Error) → IsSignature T.kinds → AreAllWellTyped (T.datums x) → BuildsValues taken builder (T.datums x) fds old new (Ok m) → ReadsAgain m → T.read (T.datums x) ≡ x → ReadsBody r T.read T.kinds m → Tells (λ y. y) r (Ok x) }
{}

/// Two errors are equal exactly where they are the same.
#[tactic(auto, using(crate::proofs::Equal::equal))]
pub fn equal_errors_are_the_same(error: &Error, other: &Error) -> bool
    ensures { IsTrue result ↔ Same error.now other.now }
{
    error == other
}

/// Each error is the same as itself.
pub fn each_error_is_itself()
    ensures { (error : Error) → Same error error }
{}

/// Two kinds of standard errors have two names.
pub fn two_kinds_have_two_names()
    ensures { (a : Kind) → (b : Kind) → kind_name a ≡ kind_name b → a ≡ b }
{}
