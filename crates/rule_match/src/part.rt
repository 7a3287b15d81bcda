//! What one component of a rule's text says.
use crate::arguments::Argument;
use crate::building::Builder;
use std::alloc::AllocError;
use wire_message::MessageType;
use wire_value::{
    OwnedBusName, OwnedInterfaceName, OwnedMemberName, OwnedObjectPath, OwnedUniqueName, Text,
};

/// A part of a rule with its value.
pub(crate) enum Part {
    Kind(MessageType),
    Sender(OwnedBusName),
    Interface(OwnedInterfaceName),
    Member(OwnedMemberName),
    Path(OwnedObjectPath),
    PathNamespace(OwnedObjectPath),
    Destination(OwnedUniqueName),
    Arg(Argument),
    ArgPath(Argument),
    Arg0Namespace(Text),
}

impl Drop for Part {
    fn drop(self) {
        match self {
            Part::Kind(_) => {}
            Part::Sender(_) => {}
            Part::Interface(_) => {}
            Part::Member(_) => {}
            Part::Path(_) => {}
            Part::PathNamespace(_) => {}
            Part::Destination(_) => {}
            Part::Arg(_) => {}
            Part::ArgPath(_) => {}
            Part::Arg0Namespace(_) => {}
        }
    }
}

impl Part {
    ghost use Rattle.std.specs.Prelude.{◌≡◌, IfOk};
    ghost use Rattle.rule_match.specs.Building.{with_part, IsPart};

    /// The rule with this part more.
    #[tactic(auto, unfolding(crate::specs::Building::with_part))]
    pub(crate) fn put_into(self, builder: Builder) -> Result<Builder, AllocError>
        requires { IsPart self }
        ensures { IfOk result (λ b. b ≡ with_part self builder) }
    {
        match self {
            Part::Kind(kind) => Ok(builder.msg_type(kind)),
            Part::Sender(name) => Ok(builder.sender(name)),
            Part::Interface(name) => Ok(builder.interface(name)),
            Part::Member(name) => Ok(builder.member(name)),
            Part::Path(path) => Ok(builder.path(path)),
            Part::PathNamespace(path) => Ok(builder.path_namespace(path)),
            Part::Destination(name) => Ok(builder.destination(name)),
            Part::Arg(argument) => builder.put_arg(argument),
            Part::ArgPath(argument) => builder.put_arg_path(argument),
            Part::Arg0Namespace(name) => Ok(builder.set_namespace(name)),
        }
    }
}
