//! Method calls that come to a service's objects.
ghost use Rattle.std.specs.Prelude.{◌≡◌, ◌<◌, ◌^◌, IfOk, OnErr, Some, length};
ghost use Rattle.std.specs.List.{AllByRecursion};
ghost use Rattle.peer_objects.specs.Notifying.{awaiting};
ghost use Rattle.peer_objects.specs.Served.{Serves, Disturbs};

use crate::server::ObjectServer;
use crate::target::{Target, names};
use object_interface::{Answered, Interface, missing};
use std::alloc::AllocError;
use wire_message::Message;
use wire_value::{Guid, InterfaceName, MemberName, ObjectPath};

impl<B: Interface> ObjectServer<B> {
    /// Answers a call that has all that it has to have, without room for the answer's number. It fails only if memory ran out.
    fn answer<'a>(
        &mut self,
        message: &'a Message,
        path: &ObjectPath<'_>,
        interface: &InterfaceName<'_>,
        member: &MemberName<'_>,
        machine_id: Option<Guid<'_>>,
    ) -> Result<Answered<'a>, AllocError>
        requires path { message.now.path ≡ Some path.now }
        requires interface { message.now.interface ≡ Some interface.now }
        requires member { message.now.member ≡ Some member.now }
        ensures served { IfOk result (λ a. Serves B.meaning B.state machine_id.entry (self.old.0, self.old.1) (self.new.0, self.new.1) message.now a.messages.items a.notifier) }
        ensures few { IfOk result (λ a. AllByRecursion (λ p. length p.fds < 2 ^ 32) a.messages.items) }
        ensures notified { self.new.2 ≡ self.old.2 }
        ensures disturbed { OnErr result (Disturbs B.meaning B.state (self.old.0, self.old.1) (self.new.0, self.new.1) message.now) }
    {
        match self.reach(path, interface)? {
            Target::Nothing(error) => Answered::refused(self.alloc, message, &error),
            Target::Standard(standard) => {
                let answer = self.answer_standard(standard, message, member, machine_id)?;
                Answered::new(self.alloc, message, member, answer)
            }
            Target::Slot(slot) => {
                let answer = self.call(slot, message, member)?;
                Answered::new(self.alloc, message, member, answer)
            }
        }
    }

    /// Answers a message, without room for the answer's number. It fails only if memory ran out.
    fn answer_any<'a>(
        &mut self,
        message: &'a Message,
        machine_id: Option<Guid<'_>>,
    ) -> Result<Answered<'a>, AllocError>
        ensures served { IfOk result (λ a. Serves B.meaning B.state machine_id.entry (self.old.0, self.old.1) (self.new.0, self.new.1) message.now a.messages.items a.notifier) }
        ensures few { IfOk result (λ a. AllByRecursion (λ p. length p.fds < 2 ^ 32) a.messages.items) }
        ensures notified { self.new.2 ≡ self.old.2 }
        ensures disturbed { OnErr result (Disturbs B.meaning B.state (self.old.0, self.old.1) (self.new.0, self.new.1) message.now) }
    {
        match names(message) {
            Ok((path, interface, member)) => {
                self.answer(message, &path, &interface, &member, machine_id)
            }
            Err(what) => { Answered::refused(self.alloc, message, &missing(self.alloc, what)?) }
        }
    }

    /// Answers a message. What its path, interface and member reach is called, first by the call that may change nothing, then,
    /// where that asks for it, by the one that may. The standard interfaces are answered by the server itself: of the machine's
    /// id, which `GetMachineId` answers, is told here (D-Bus Specification, "Standard Interfaces"). What goes out isn't put yet;
    /// once the reply was, [`ObjectServer::set_dispatched`] records that for the answer's number, for which there is room then.
    ///
    /// # Errors
    ///
    /// AllocError if out of memory, and where no message may hold the text of introspection or a property's name, since it has
    /// a 0 byte or more than 4,294,967,295 bytes. Nothing is changed, but that an interface that was called, or whose property
    /// was set, is then in any state.
    ///
    /// # Examples
    ///
    /// ```
    /// use peer_boxes::Greeter;
    /// use peer_objects::ObjectServer;
    /// use wire_message::{Message, NonePending, Serials};
    /// use wire_value::{MemberName, ObjectPath, Text};
    /// let mut server = ObjectServer::new(rt.alloc())?;
    /// let path = ObjectPath::try_from("/org/zbus/MyGreeter")?;
    /// assert!(rt; server.at(&path, Greeter::new()).is_ok());
    /// let call = Message::method_call(&path, &MemberName::try_from("SayHello")?);
    /// let name = (Text::from_str(rt.alloc(), "Maria")?,);
    /// let call = call.build_uncounted(rt.alloc(), &mut Serials::new(), &NonePending, &name)?;
    /// let answered = server.dispatch(&call, None)?;
    /// assert!(rt; answered.messages.len() == 1);
    /// Ok(())
    /// ```
    pub fn dispatch<'a>(
        &mut self,
        message: &'a Message,
        machine_id: Option<Guid<'_>>,
    ) -> Result<Answered<'a>, AllocError>
        ensures served { IfOk result (λ a. Serves B.meaning B.state machine_id.entry (self.old.0, self.old.1) (self.new.0, self.new.1) message.now a.messages.items a.notifier) }
        ensures few { IfOk result (λ a. AllByRecursion (λ p. length p.fds < 2 ^ 32) a.messages.items) }
        ensures notified { IfOk result (λ a. self.new.2 ≡ awaiting a.notifier self.old.2) }
        ensures disturbed { OnErr result (Disturbs B.meaning B.state (self.old.0, self.old.1) (self.new.0, self.new.1) message.now) }
        ensures unnotified { OnErr result (self.new.2 ≡ self.old.2) }
    {
        let answered = self.answer_any(message, machine_id)?;
        self.await_reply(answered.notifier)?;
        Ok(answered)
    }
}
