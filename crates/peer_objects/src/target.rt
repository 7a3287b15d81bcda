//! What a path and an interface's name reach.
ghost use Rattle.std.specs.Prelude.{◌≡◌, IfOk, IfErr, IsTrue, Some};
ghost use Rattle.object_interface.specs.Errors.{missing};
ghost use Rattle.object_interface.specs.Sending.{IsSendableError};
ghost use Rattle.object_tree.specs.Objects.{Objects};
ghost use Rattle.object_tree.specs.Standard.{standard_named};
ghost use Rattle.peer_objects.specs.Dispatching.{Nothing, at_path, reached, target};
ghost use Rattle.peer_objects.specs.Reaching.{IsSayable, is_held, target_of};

use crate::server::ObjectServer;
use object_interface::{Interface, unknown_interface, unknown_object};
use object_tree::StandardInterface;
use std::alloc::AllocError;
use wire_message::{Message, fdo};
use wire_value::{InterfaceName, MemberName, ObjectPath};

/// What a path and an interface's name reach.
#[derive(Drop)]
pub(crate) enum Target {
    /// Nothing, for that reason.
    Nothing(fdo::Error),
    /// A standard interface.
    Standard(StandardInterface),
    /// The interface that is kept in that slot.
    Slot(u64),
}

/// The path, the interface and the member of a call; or what is missing, the first of them.
#[tactic(auto, unfolding(crate::specs::Dispatching::target))]
pub(crate) fn names(
    message: &Message,
) -> Result<(ObjectPath<'_>, InterfaceName<'_>, MemberName<'_>), &'static str>
    ensures named { IfOk result (λ n. (message.now.path ≡ Some n.0) × (message.now.interface ≡ Some n.1) × (message.now.member ≡ Some n.2)) }
    ensures missing { IfErr result (λ what. (objects : Objects) → target objects message.now ≡ Nothing (missing what.now)) }
    ensures sendable { IfErr result (λ what. IsSendableError (missing what.now)) }
{
    let header = message.header();
    let Some(path) = header.path() else {
        return Err("object path");
    };
    let Some(interface) = header.interface() else {
        return Err("interface");
    };
    let Some(member) = header.member() else {
        return Err("member");
    };
    Ok((path, interface, member))
}

impl<B: Interface> ObjectServer<B> {
    /// What an interface's name reaches at a path that is known, or not. It fails only if memory ran out.
    #[tactic(auto, unfolding(crate::specs::Dispatching::reached))]
    pub(crate) fn reach(
        &self,
        path: &ObjectPath<'_>,
        interface: &InterfaceName<'_>,
    ) -> Result<Target, AllocError>
        ensures found { IfOk result (λ t. target_of t ≡ reached self.now.0 path.now interface.now) }
        ensures sayable { IfOk result IsSayable }
        ensures held { IfOk result (λ t. IsTrue (is_held self.now.1 t)) }
    {
        let standard = StandardInterface::named(interface.as_str());
        if let Some(StandardInterface::Peer) = standard {
            return Ok(Target::Standard(StandardInterface::Peer));
        }
        if !self.tree.has_path(path) {
            return Ok(Target::Nothing(unknown_object(self.alloc, path)?));
        }
        match (standard, self.tree.slot(path, interface)) {
            (Some(StandardInterface::ObjectManager), None) | (None, None) => {
                let error = unknown_interface(self.alloc, interface)?;
                Ok(Target::Nothing(error))
            }
            (Some(standard), _) => Ok(Target::Standard(standard)),
            (None, Some(slot)) => Ok(Target::Slot(slot)),
        }
    }
}
