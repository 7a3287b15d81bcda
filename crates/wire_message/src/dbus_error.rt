//! Errors as answers to calls (D-Bus Specification, "Types of messages", "Errors").
ghost use Rattle.std.specs.Prelude.{◌≡◌, ◌+◌, ◌≤◌, Err, IfOk, List, ℕ, Option, map, option_map};
ghost use Rattle.wire_number.specs.Limits.{greatest_serial};
ghost use Rattle.wire_tree.specs.Datum.{Datum, type_of};
ghost use Rattle.wire_body.specs.Arguments.{TellsTo};
ghost use Rattle.wire_message.specs.Bodies.{BuildsBody};
ghost use Rattle.wire_message.specs.SerialOrder.{looked_for, taken_among};
ghost use Rattle.wire_message.specs.declared.error.Error.TheVariants.{SerialsSpent};
ghost use Rattle.wire_message.specs.BuilderView.{ReadsAgain};
ghost use Rattle.wire_message.specs.NewBuilders.{error_builder};
ghost use Rattle.wire_message.specs.FdoErrors.{fdo_name, fdo_description, reply_text, one_string};

use crate::error::Result;
use crate::fdo;
use crate::header::Header;
use crate::message::Message;
use crate::serials::{Serials, Taken};
use crate::steps::{Steps, Uncounted};
use std::alloc::{AllocError, Global};
use std::sync::ledger::Ledger;
use wire_body::{BodyValues, to};
use wire_names::{ErrorName, Text};
use wire_signature::VariantError;

/// An error that can answer a call.
pub trait DBusError {
    /// its name in the reply's header
    ghost named: { Self → List ℕ };

    /// what it says
    ghost described: { Self → Option (List ℕ) };

    /// the values that the reply's arguments are
    ghost replied: { Self → List Datum };

    /// The name of the error in a reply's header (D-Bus Specification, "Valid Names", "Error names").
    fn name(&self) -> ErrorName<'_>
        ensures { result ≡ named self.now };

    /// What the error says.
    fn description(&self) -> Option<&str>
        ensures { option_map (λ t. t.now) result ≡ described self.now };

    /// The arguments of its reply, as [`wire_body::to`] makes them a body, or refuses them.
    fn reply(&self, alloc: Global) -> std::result::Result<BodyValues, VariantError>
        ensures { TellsTo result (map type_of (replied self.now)) (replied self.now) };

    /// The reply to a call of this header that is this error: as [`Message::error`] begins it and `build` gives it its
    /// body. A step is a serial that is looked at.
    ///
    /// # Errors
    ///
    /// Those of `build`, exactly where they come there: SerialsSpent where each serial is pending; Variant where the
    /// arguments are no body, as where a text holds a 0 byte; ExcessData where an array or the message would pass its
    /// limit. Memory for want of memory. A refusal draws no serial.
    fn create_reply<T: Taken, L: Ledger>(
        &self,
        alloc: Global,
        call: &Header<'_>,
        serials: &mut Serials,
        taken: &T,
        steps: &mut Steps<L>,
    ) -> Result<Message>
        ensures built { BuildsBody (T.is_taken taken.now) (error_builder call.now (named self.now)) (replied self.now) serials.old serials.new result }
        ensures again { IfOk result ReadsAgain }
        ensures cost { steps.new ≤ steps.old + taken_among (T.is_taken taken.now) greatest_serial + 2 }
        ensures exact { IfOk result (λ m. steps.new ≡ steps.old + looked_for (error_builder call.now (named self.now)).serial serials.old m.serial) }
        ensures spent { result ≡ Err SerialsSpent → steps.new ≡ steps.old }
    {
        let reply = self.reply(alloc);
        let name = self.name();
        Message::error(call, &name).build_to(alloc, serials, taken, reply, steps)
    }

    /// As `create_reply`, for a caller that counts no steps.
    fn create_reply_uncounted<T: Taken>(
        &self,
        alloc: Global,
        call: &Header<'_>,
        serials: &mut Serials,
        taken: &T,
    ) -> Result<Message>
        ensures built { BuildsBody (T.is_taken taken.now) (error_builder call.now (named self.now)) (replied self.now) serials.old serials.new result }
        ensures again { IfOk result ReadsAgain }
    {
        let reply = self.reply(alloc);
        let name = self.name();
        Message::error(call, &name).build_to(alloc, serials, taken, reply, &mut Uncounted)
    }
}

/// The text of an error's name.
fn name_text(error: &fdo::Error) -> &'static str
    ensures { result.now ≡ fdo_name error.now }
{
    match error {
        fdo::Error::ZBus(_) => "org.freedesktop.zbus.Error",
        fdo::Error::Std(error) => error.kind.name(),
    }
}

/// What the body of its reply says.
fn said(alloc: Global, error: &fdo::Error) -> std::result::Result<Text, AllocError>
    ensures { IfOk result (λ text. text ≡ reply_text error.now) }
{
    match error {
        fdo::Error::ZBus(error) => Ok(Text::from_string(error.to_string(alloc)?)),
        fdo::Error::Std(error) => error.text.try_clone(alloc),
    }
}

/// A standard error has its kind's name and says its text; another has the name `org.freedesktop.zbus.Error`, and is
/// described as it is by itself. The body of a reply is one string: the text of a standard error, of another what is
/// printed of it.
impl DBusError for fdo::Error {
    ghost named = { fdo_name };

    ghost described = { fdo_description };

    ghost replied = { λ error. one_string (reply_text error) };

    #[tactic(auto, using(crate::proofs::ErrorNames::fdo_name_valid))]
    fn name(&self) -> ErrorName<'_> {
        ErrorName::try_from(name_text(self)).unwrap()
    }

    fn description(&self) -> Option<&str> {
        match self {
            fdo::Error::ZBus(error) => error.description(),
            fdo::Error::Std(error) => Some(error.text.as_str()),
        }
    }

    fn reply(&self, alloc: Global) -> std::result::Result<BodyValues, VariantError> {
        to(alloc, (said(alloc, self)?,))
    }
}
