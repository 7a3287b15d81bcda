//! The messages of one command are put in the outbox all or none.
ghost use Rattle.std.specs.Prelude.{◌≡◌, ◌<◌, ◌^◌, length, map, OnOk, OnErr};
ghost use Rattle.std.specs.List.{AllByRecursion};
ghost use Rattle.wire_message.specs.Outgoing.{sent_by};
ghost use Rattle.peer_calls.specs.Placing.{posts};
ghost use Rattle.peer_core.specs.History.{Past};
ghost use Rattle.peer_core.specs.Issuing.{IssuesAll};
ghost use Rattle.peer_core.specs.Refinement.{RouteView, Refines};
ghost use Rattle.peer_core.specs.Placing.{PutsAll, RefinesPosts, IsMore, mark_of};

use crate::route::Route;
use peer_calls::{Issued, draw_each, is_some_deep, post_each};
use wire_message::{Error, OutgoingMessage, Result, Serials};
use wire_value::VariantError;

/// How much was made, drawn and placed before a command's messages: what a refusal goes back to.
#[derive(Clone, Copy)]
pub(crate) struct Mark {
    pub(crate) calls: usize,
    /// The last that was drawn.
    pub(crate) serials: u32,
    pub(crate) outbox: usize,
    pub(crate) places: usize,
}

impl Route {
    /// Puts the messages of one command in the outbox, all or none, in this order. Each gets the next serial, also where its
    /// builder has one. Its sender is the peer's unique name, and none where the peer has no name, whatever the builder has; where
    /// the list is `served` by a call, an error has none. A method call waits for its reply, but where its flags have
    /// NoReplyExpected. The descriptors' count is written as the message's `UNIX_FDS` exactly where there are some (D-Bus
    /// Specification, "Header Fields").
    ///
    /// # Errors
    ///
    /// The first that holds, each asked of all messages before the next: Variant of `Depth` exactly where a value opens more than
    /// 64 containers at once; SerialsSpent exactly where some message finds each of the 4,294,967,295 serials pending, once those
    /// before it have theirs; ExcessData exactly where the elements of an array would take more than 67,108,864 bytes, or a
    /// message more than 134,217,728; InputOutput(WriteFault) exactly where a write failed before the peer was closed,
    /// InputOutput(Closed) exactly where it was closed before. Memory for want of memory. An error changes nothing, and draws no
    /// serial. An empty list has none.
    ///
    /// # Examples
    ///
    /// ```
    /// use peer_core::Route;
    /// use wire_message::{Message, OutgoingMessage};
    /// use wire_value::{MemberName, ObjectPath, to};
    /// let call = Message::method_call(&ObjectPath::try_from("/a")?, &MemberName::try_from("Ping")?);
    /// let mut list = Vec::new(rt.alloc());
    /// list.push(OutgoingMessage::new(call, to(rt.alloc(), ())?, Vec::new(rt.alloc())))?;
    /// let mut route = Route::new(rt.alloc());
    /// let issued = route.issue(list, false)?;
    /// assert!(rt; issued.as_slice().first().and_then(|issued| issued.call) == Some(0));
    /// assert!(rt;
    ///     route
    ///         .outbox(0)
    ///         .is_some_and(|message| message.serial_num() == 1)
    /// );
    /// Ok(())
    /// ```
    pub fn issue(&mut self, list: Vec<OutgoingMessage<'_>>, served: bool) -> Result<Vec<Issued>>
        requires { AllByRecursion (λ p. length p.fds < 2 ^ 32) list.items }
        ensures issues { (p : Past) → Refines self.old p
            → IssuesAll (λ issued. issued.items) self.old self.new (map (sent_by self.old.name served) list.entry.items) p result }
    {
        self.put(list, served, false)
    }

    /// How much is there now.
    pub(crate) fn mark(&self) -> Mark
        ensures { result ≡ mark_of self.now }
    {
        Mark {
            calls: self.calls.len(),
            serials: self.serials.last(),
            outbox: self.outbox.len(),
            places: self.places.len(),
        }
    }

    /// Puts messages as `issue` does, a lane's or the peer's own.
    pub(crate) fn put(
        &mut self,
        list: Vec<OutgoingMessage<'_>>,
        served: bool,
        internal: bool,
    ) -> Result<Vec<Issued>>
        requires { AllByRecursion (λ p. length p.fds < 2 ^ 32) list.items }
        ensures puts { (p : Past) → RefinesPosts self.old p
            → PutsAll (λ issued. issued.items) self.new (posts internal self.old.name served list.entry.items) p result }
        ensures more { OnOk result (IsMore self.old self.new) }
        ensures same { OnErr result (self.new ≡ self.old) }
    {
        let mark = self.mark();
        match self.put_all(list, served, internal) {
            Ok(issued) => Ok(issued),
            Err(error) => {
                self.take_back(mark);
                Err(error)
            }
        }
    }

    /// Puts messages as `put` does; where it is refused, some of it may have been done.
    pub(crate) fn put_all(
        &mut self,
        list: Vec<OutgoingMessage<'_>>,
        served: bool,
        internal: bool,
    ) -> Result<Vec<Issued>>
        requires { AllByRecursion (λ p. length p.fds < 2 ^ 32) list.items }
        ensures puts { (p : Past) → RefinesPosts self.old p
            → PutsAll (λ issued. issued.items) self.new (posts internal self.old.name served list.entry.items) p result }
        ensures more { IsMore self.old self.new }
    {
        if list.is_empty() {
            return Ok(Vec::new(self.alloc));
        }
        if is_some_deep(list.as_slice()) {
            return Err(Error::Variant(VariantError::Depth));
        }
        let serials = draw_each(
            self.alloc,
            &mut self.calls,
            &mut self.serials,
            list.as_slice(),
            internal,
        )?;
        let issued = post_each(
            self.alloc,
            &mut self.outbox,
            &mut self.places,
            &self.name,
            served,
            list,
            serials.as_slice(),
        )?;
        match self.writer.bars() {
            None => Ok(issued),
            Some(error) => Err(error),
        }
    }

    /// Takes back what was made, drawn and placed since the mark.
    pub(crate) fn take_back(&mut self, mark: Mark)
        ensures { (v : RouteView) → mark ≡ mark_of v → IsMore v self.old → self.new ≡ v }
    {
        self.calls.take_back(mark.calls);
        self.serials = Serials::after(mark.serials);
        self.outbox.truncate(mark.outbox);
        self.places.truncate(mark.places);
    }
}
