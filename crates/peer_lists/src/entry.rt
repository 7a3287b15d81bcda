//! A message of a shared list, in one copy for each stream that holds it.
ghost use Rattle.std.specs.Prelude.{◌≡◌, ◌==◌, ◌+◌, ◌-◌, ◌<◌, ◌^◌, Option, Some, None, if◌then◌else◌, IfOk, OnOk, OnErr};

use std::alloc::{AllocError, Global};
use std::marker::Model;
use wire_message::Message;

/// A message of the list, in one copy for each stream that has not passed it. Copies share their bytes.
pub struct Entry {
    message: Message,
    others: Vec<Message>,
}

impl Model for Entry {
    ghost use Rattle.std.specs.Prelude.{length};
    ghost use Rattle.peer_lists.specs.Entries.{Kept, AreCopies};

    ghost Value = { Kept };

    ghost view = { λ e. record { message = e.message; others = length e.others.items } };

    ghost invariant = { λ e. AreCopies e.message e.others.items };
}

impl Drop for Entry {
    fn drop(self) {
        let Entry {
            message: _,
            others: _,
        } = self;
    }
}

impl Entry {
    /// The message, in so many copies beside one. Copies share their bytes.
    ///
    /// # Errors
    ///
    /// AllocError for want of memory.
    pub fn new(alloc: Global, message: &Message, others: usize) -> Result<Entry, AllocError>
        ensures { IfOk result (λ e. e ≡ record { message = message.now; others = others }) }
    {
        let mut copies = Vec::new(alloc);
        for _ in 0..others {
            copies.push(message.clone()?)?;
        }
        Ok(Entry {
            message: message.clone()?,
            others: copies,
        })
    }

    /// The message.
    pub fn message(&self) -> &Message
        ensures { result.now ≡ self.now.message }
    {
        &self.message
    }

    /// In how many copies beside one: fewer than 2^63.
    pub fn others(&self) -> usize
        ensures count { result ≡ self.now.others }
        ensures fits { result < 2 ^ 63 }
    {
        self.others.len()
    }

    /// Takes a copy, where one stays.
    pub fn take_other(&mut self) -> Option<Message>
        ensures gives { result ≡ (if self.old.others == 0 then None else Some self.old.message) }
        ensures left { self.new ≡ record self.old { others = self.old.others - 1 } }
    {
        self.others.pop()
    }

    /// A copy more.
    ///
    /// # Errors
    ///
    /// AllocError for want of memory. An error changes nothing.
    pub fn put_other(&mut self) -> Result<(), AllocError>
        ensures err { OnErr result (self.new ≡ self.old) }
        ensures ok { OnOk result (self.new ≡ record self.old { others = self.old.others + 1 }) }
    {
        let copy = self.message.clone()?;
        self.others.push(copy)?;
        Ok(())
    }

    /// The message, without its other copies.
    pub fn into_message(self) -> Message
        ensures { result ≡ self.message }
    {
        let Entry { message, others: _ } = self;
        message
    }
}
