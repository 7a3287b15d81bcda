//! What is kept of each call, by its number: the serial to which it waits for a reply, or the reply; nothing once it is over.
ghost use Rattle.std.specs.Prelude.{◌≡◌, ◌<◌, ◌-◌, ◌++◌, ◌∷◌, [], ℕ, length, get_or, slice_set, take, is_some, OnOk, OnErr, if◌then◌else◌};
ghost use Rattle.std.specs.List.{list_any};
ghost use Rattle.wire_message.specs.Replying.{is_serial};
ghost use Rattle.peer_calls.specs.Refinement.{is_waiting, is_empty_slot, is_internal_slot, reply_in};

use std::alloc::{AllocError, Global};
use std::collections::BTreeMap;
use std::marker::Model;
use wire_message::Message;

/// What is kept of a call.
pub enum Slot {
    /// Its answer was given, or its message failed: nothing is stored of it.
    Gone,
    /// It waits for a reply.
    Waiting {
        /// To this serial.
        serial: u32,
        /// Whether it is one of the peer's own, an AddMatch or a RemoveMatch, which nobody polls.
        internal: bool,
    },
    /// Its reply came.
    Replied(Message),
}

impl Drop for Slot {
    fn drop(self) {
        match self {
            Slot::Gone => {}
            Slot::Waiting {
                serial: _,
                internal: _,
            } => {}
            Slot::Replied(_) => {}
        }
    }
}

impl Slot {
    /// The serial that it waits for, if it waits.
    pub fn serial(&self) -> Option<u32>
        ensures { (serial : ℕ) → is_waiting serial self.now ≡ is_serial result serial }
    {
        match self {
            Slot::Waiting { serial, .. } => Some(*serial),
            Slot::Gone | Slot::Replied(_) => None,
        }
    }

    /// Whether nothing is kept that a poll could give.
    fn is_empty(&self) -> bool
        ensures { result ≡ is_empty_slot self.now }
    {
        match self {
            Slot::Gone => true,
            Slot::Waiting { internal, .. } => *internal,
            Slot::Replied(_) => false,
        }
    }

    /// Whether the reply came.
    fn is_replied(&self) -> bool
        ensures { result ≡ is_some (reply_in self.now) }
    {
        matches!(self, Slot::Replied(_))
    }

    /// Whether one of the peer's own calls waits.
    fn is_internal(&self) -> bool
        ensures { result ≡ is_internal_slot self.now }
    {
        match self {
            Slot::Waiting { internal, .. } => *internal,
            Slot::Gone | Slot::Replied(_) => false,
        }
    }

    /// The reply, if it came.
    fn into_reply(self) -> Option<Message>
        ensures { result ≡ reply_in self }
    {
        match self {
            Slot::Gone => None,
            Slot::Waiting {
                serial: _,
                internal: _,
            } => None,
            Slot::Replied(message) => Some(message),
        }
    }
}

/// What is kept of each call, by its number, from 0 on. Of one that is over nothing is stored, so it costs nothing. Fewer than
/// 2^64 are made.
pub struct SlotTable {
    /// How many calls were made.
    made: u64,
    /// The slots of those that aren't over.
    kept: BTreeMap<u64, Slot>,
    /// How many of the peer's own wait.
    internal: u64,
}

impl Drop for SlotTable {
    fn drop(self) {
        let SlotTable {
            made: _,
            kept: _,
            internal: _,
        } = self;
    }
}

impl Model for SlotTable {
    ghost use Rattle.std.specs.Prelude.{List};
    ghost use Rattle.peer_calls.specs.Names.{Slot};
    ghost use Rattle.peer_calls.specs.Keeping.{slots_of, IsKept};

    ghost Value = { List Slot };

    ghost view = { λ t. slots_of t.made t.kept };

    ghost invariant = { λ t. IsKept t.made t.kept t.internal };
}

impl SlotTable {
    /// No calls.
    pub fn new(alloc: Global) -> SlotTable
        ensures { result ≡ [] }
    {
        SlotTable {
            made: 0,
            kept: BTreeMap::new(alloc),
            internal: 0,
        }
    }

    /// How many calls were made.
    pub fn len(&self) -> u64
        ensures { result ≡ length self.now }
    {
        self.made
    }

    /// Whether nothing is kept of the call that a poll could give.
    pub fn is_empty(&self, call: u64) -> bool
        ensures { result ≡ is_empty_slot (get_or self.now call Slot.Gone) }
    {
        match self.kept.get(&call) {
            None => true,
            Some(slot) => slot.is_empty(),
        }
    }

    /// Whether the call's reply came.
    fn is_replied(&self, call: u64) -> bool
        ensures { result ≡ is_some (reply_in (get_or self.now call Slot.Gone)) }
    {
        match self.kept.get(&call) {
            None => false,
            Some(slot) => slot.is_replied(),
        }
    }

    /// Whether one of the peer's own calls waits.
    pub fn has_internal(&self) -> bool
        ensures { result ≡ list_any is_internal_slot self.now }
    {
        self.internal > 0
    }

    /// A call more, which waits for a reply to this serial, one of the peer's own or another's.
    ///
    /// # Errors
    ///
    /// AllocError for want of memory, and where 2^64 - 1 calls were made. An error changes nothing.
    pub fn push(&mut self, serial: u32, internal: bool) -> Result<(), AllocError>
        ensures ok { OnOk result (self.new ≡ self.old ++ Slot.Waiting serial internal ∷ []) }
        ensures err { OnErr result (self.new ≡ self.old) }
    {
        // No peer comes to 2^64 calls, in any time; to one that did this is want of room.
        let Some(made) = self.made.checked_add(1) else {
            return Err(AllocError);
        };
        self.kept
            .insert(self.made, Slot::Waiting { serial, internal })?;
        self.made = made;
        self.internal += internal as u64;
        Ok(())
    }

    /// Takes the last call back, as if it had not been made; and what was kept of it.
    pub fn pop(&mut self) -> Slot
        requires { 0 < length self.old }
        ensures value { result ≡ get_or self.old (length self.old - 1) Slot.Gone }
        ensures rest { self.new ≡ take (length self.old - 1) self.old }
    {
        let last = self.made - 1;
        let slot = self.take(last);
        self.made = last;
        slot
    }

    /// What was kept of the call, of which nothing is from now on. Nothing changes where no such call was made.
    pub fn take(&mut self, call: u64) -> Slot
        ensures value { result ≡ get_or self.old call Slot.Gone }
        ensures rest { self.new ≡ slice_set self.old call Slot.Gone }
    {
        let slot = self.kept.remove(&call).unwrap_or(Slot::Gone);
        self.internal -= slot.is_internal() as u64;
        slot
    }

    /// The call's reply, if it came, of which nothing is kept from now on; else nothing changes.
    pub fn take_reply(&mut self, call: u64) -> Option<Message>
        ensures value { result ≡ reply_in (get_or self.old call Slot.Gone) }
        ensures rest { self.new ≡ (if is_some result then slice_set self.old call Slot.Gone else self.old) }
    {
        if !self.is_replied(call) {
            return None;
        }
        self.take(call).into_reply()
    }

    /// The call's reply came. It is kept where a poll could give it; else nothing is kept of the call.
    pub fn put_reply(&mut self, call: u64, message: Message)
        ensures { self.new ≡ slice_set self.old call (if is_empty_slot (get_or self.old call Slot.Gone) then Slot.Gone else Slot.Replied message) }
    {
        if self.is_empty(call) {
            let _ = self.take(call);
        } else if let Some(slot) = self.kept.get_mut(&call) {
            *slot = Slot::Replied(message);
        }
    }
}
