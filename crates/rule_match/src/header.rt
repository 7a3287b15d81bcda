//! The rule of a header.
ghost use Rattle.std.specs.Prelude.{◌≡◌, IfOk, option_map};
ghost use Rattle.wire_names.specs.declared.bus.OwnedBusName.TheVariants.{Unique};
ghost use Rattle.rule_match.specs.declared.place.PathSpec.TheVariants as places;
ghost use Rattle.rule_match.specs.Matching.{header_rule, unique_only};

use crate::arguments::Arguments;
use crate::building::Builder;
use crate::names::owned_of;
use crate::place::PathSpec;
use crate::rule::MatchRule;
use crate::sender::Sender;
use std::alloc::{AllocError, Global};
use wire_message::Header;
use wire_value::{BusName, OwnedBusName, OwnedUniqueName};

fn sender_of(alloc: Global, header: &Header<'_>) -> Result<Option<Sender>, AllocError>
    ensures { IfOk result (λ name. name ≡ option_map Unique header.now.fields.sender) }
{
    match header.sender() {
        Some(name) => {
            let name = OwnedBusName::Unique(name.to_owned(alloc)?);
            Ok(Some(Sender::new(name)))
        }
        None => Ok(None),
    }
}

fn place_of(alloc: Global, header: &Header<'_>) -> Result<Option<PathSpec>, AllocError>
    ensures { IfOk result (λ place. place ≡ option_map places.Path header.now.fields.path) }
{
    match header.path() {
        Some(path) => Ok(Some(PathSpec::Path(path.to_owned(alloc)?))),
        None => Ok(None),
    }
}

fn destination_of(alloc: Global, header: &Header<'_>) -> Result<Option<OwnedUniqueName>, AllocError>
    ensures { IfOk result (λ name. name ≡ unique_only header.now.fields.destination) }
{
    match header.destination() {
        Some(BusName::Unique(name)) => Ok(Some(name.to_owned(alloc)?)),
        Some(BusName::WellKnown(_)) | None => Ok(None),
    }
}

impl Builder {
    /// A builder for the rule of a header: its type, sender, interface, member and path, and its destination where that
    /// is a unique name.
    ///
    /// # Errors
    ///
    /// AllocError for want of memory.
    #[tactic(auto, unfolding(crate::specs::Matching::header_rule))]
    pub fn from(alloc: Global, header: &Header<'_>) -> Result<Builder, AllocError>
        ensures { IfOk result (λ b. b ≡ header_rule header.now) }
    {
        let rule = MatchRule {
            kind: Some(header.message_type()),
            sender: sender_of(alloc, header)?,
            interface: owned_of(alloc, header.interface())?,
            member: owned_of(alloc, header.member())?,
            path: place_of(alloc, header)?,
            destination: destination_of(alloc, header)?,
            args: Arguments::new(alloc),
            arg_paths: Arguments::new(alloc),
            arg0ns: None,
        };
        Ok(Builder::of(rule))
    }
}
