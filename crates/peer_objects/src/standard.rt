//! What the standard interfaces answer.
ghost use Rattle.std.specs.Prelude.{◌≡◌, ◌⊎◌, ℕ, IfOk, OnErr, Some};
ghost use Rattle.object_interface.specs.Sending.{HasSendableError};
ghost use Rattle.object_standard.specs.Method.{method_named};
ghost use Rattle.peer_objects.specs.Dispatching.{Reaches};
ghost use Rattle.peer_objects.specs.Standard.{StandardAnswers, SetsIn};

use crate::server::ObjectServer;
use object_interface::{DispatchResult2, Interface};
use object_standard::{StandardMethod, answer_of_peer};
use object_tree::StandardInterface;
use std::alloc::AllocError;
use wire_message::Message;
use wire_value::{Guid, MemberName};

impl<B: Interface> ObjectServer<B> {
    /// Answers a call of a standard interface. It fails only if memory ran out, or where a text of the answer can't stand in a
    /// message: nothing is changed, or only the interface whose property is set.
    pub(crate) fn answer_standard(
        &mut self,
        interface: StandardInterface,
        message: &Message,
        member: &MemberName<'_>,
        machine_id: Option<Guid<'_>>,
    ) -> Result<DispatchResult2, AllocError>
        requires member { message.now.member ≡ Some member.now }
        ensures tree { self.new.0 ≡ self.old.0 }
        ensures notified { self.new.2 ≡ self.old.2 }
        ensures answers { IfOk result (λ a. StandardAnswers B.meaning B.state machine_id.entry self.old.0 (method_named interface member.now) message.now self.old.1 self.new.1 a) }
        ensures law { IfOk result HasSendableError }
        ensures disturbed { OnErr result ((self.new.1 ≡ self.old.1) ⊎ ((slot : ℕ) × SetsIn self.old.0 interface message.now slot × Reaches B.meaning B.state slot self.old.1 self.new.1)) }
    {
        match StandardMethod::named(interface, member.as_str()) {
            None => Ok(DispatchResult2::NotFound),
            Some(StandardMethod::Peer(method)) => {
                answer_of_peer(self.alloc, method, message, machine_id)
            }
            Some(StandardMethod::Introspect) => self.introspected(message),
            Some(StandardMethod::Get) => self.got(message),
            Some(StandardMethod::Set) => self.set_by(message),
            Some(StandardMethod::GetAll) => self.got_all(message),
            Some(StandardMethod::GetManagedObjects) => self.managed(message),
        }
    }
}
