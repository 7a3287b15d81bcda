//! The list itself: its messages, oldest first, and for each stream how many of them are behind it.
ghost use Rattle.std.specs.Prelude.{◌≡◌, ◌≢◌, ◌<◌, ◌≤◌, ◌+◌, ◌==◌, ◌||◌, true, false, not, ℕ, List, [], length, drop, Option, Some, None, IsSome, option_map, OnOk, OnErr, if◌then◌else◌};
ghost use Rattle.std.specs.List.{list_any};
ghost use Rattle.std.specs.Ordering.{nat_cmp};
ghost use Rattle.std.specs.BTreeMap.{WritesThrough};
ghost use Rattle.wire_message.specs.Front.{MessageView};
ghost use Rattle.wire_message.specs.Replying.{is_serial};
ghost use Rattle.peer_lists.specs.Holdings.{Holdings, held_by, with_message, without_first, begun, first_by, most_of};

use crate::entry::Entry;
use std::alloc::{AllocError, Global};
use std::collections::{BTreeMap, VecDeque};
use std::marker::Model;
use wire_message::Message;

/// A list of messages for several streams, which are named by their numbers. Each holds those that came since it began, until it
/// takes them. A message that all have taken is gone. Those that it holds and those that are gone are at most 2^64 - 1.
pub struct SharedList {
    alloc: Global,
    /// The messages that some stream holds, oldest first.
    entries: VecDeque<Entry>,
    /// How many went before the first of them.
    passed: u64,
    /// For each stream that has begun how many messages are behind it, counted from the list's very first; None for one that waits.
    cursors: BTreeMap<u64, Option<u64>>,
    /// How many have begun.
    begun: usize,
}

impl Drop for SharedList {
    fn drop(self) {
        let SharedList {
            alloc: _,
            entries: _,
            passed: _,
            cursors: _,
            begun: _,
        } = self;
    }
}

impl Model for SharedList {
    ghost use Rattle.peer_lists.specs.Holdings.{Holdings};
    ghost use Rattle.peer_lists.specs.Cursors.{holdings, AreShared};

    ghost Value = { Holdings };

    ghost view = { λ l. holdings l.passed l.entries.items l.cursors };

    ghost invariant = { λ l. AreShared l.passed l.entries.items l.cursors l.begun };
}

impl SharedList {
    /// A list without a stream.
    pub fn new(alloc: Global) -> SharedList
        ensures { result ≡ [] }
    {
        SharedList {
            alloc,
            entries: VecDeque::new(alloc),
            passed: 0,
            cursors: BTreeMap::new(alloc),
            begun: 0,
        }
    }

    /// The most messages that one stream holds; 0 without a stream.
    pub fn most(&self) -> usize
        ensures most { result ≡ most_of self.now }
        ensures within { (k : ℕ) (ms : List MessageView) → held_by self.now k ≡ Some (Some ms) → length ms ≤ result }
        ensures reached { 0 < result → (k : ℕ) × (ms : List MessageView) × (held_by self.now k ≡ Some (Some ms)) × (length ms ≡ result) }
    {
        self.entries.len()
    }

    /// Whether there is no stream.
    pub fn is_empty(&self) -> bool
        ensures count { result ≡ (length self.now == 0) }
        ensures used { result ≡ false → (k : ℕ) × IsSome (held_by self.now k) }
        ensures unused { result ≡ true → (k : ℕ) → held_by self.now k ≡ None }
    {
        self.cursors.is_empty()
    }

    /// Whether there is a stream but for these.
    pub fn has_other(&self, one: Option<u64>, before: Option<u64>) -> bool
        ensures any { result ≡ list_any (λ e. not (is_serial one e.0 || is_serial before e.0)) self.now }
        ensures other { result ≡ true → (k : ℕ) × IsSome (held_by self.now k) × ((is_serial one k || is_serial before k) ≡ false) }
        ensures no_other { result ≡ false → (k : ℕ) → IsSome (held_by self.now k) → (is_serial one k || is_serial before k) ≡ true }
    {
        self.cursors
            .keys()
            .any(|stream| !is_either(one, before, *stream))
    }

    /// The first message that the stream holds.
    pub fn first(&self, stream: u64) -> Option<&Message>
        ensures { option_map (λ m. m.now) result ≡ first_by self.now stream }
    {
        let cursor = (*self.cursors.get(&stream)?)?;
        let entry = self.entries.get((cursor - self.passed) as usize)?;
        Some(entry.message())
    }

    /// A stream more, of which the list knew nothing, and which holds what comes from now on.
    ///
    /// # Errors
    ///
    /// AllocError for want of memory. An error changes nothing.
    pub fn open(&mut self, stream: u64) -> Result<(), AllocError>
        ensures err { OnErr result (self.new ≡ self.old) }
        ensures ok { OnOk result (held_by self.old stream ≡ None → (k : ℕ) → held_by self.new k ≡ (if stream == k then Some (Some []) else held_by self.old k)) }
    {
        self.reserve(stream)?;
        self.begin(stream);
        Ok(())
    }

    /// A stream more, of which the list knew nothing. It holds nothing until it begins.
    ///
    /// # Errors
    ///
    /// AllocError for want of memory. An error changes nothing.
    pub fn reserve(&mut self, stream: u64) -> Result<(), AllocError>
        ensures err { OnErr result (self.new ≡ self.old) }
        ensures stay { length self.old ≢ 0 → length self.new ≢ 0 }
        ensures ok { OnOk result (held_by self.old stream ≡ None → (k : ℕ) → held_by self.new k ≡ (if stream == k then Some None else held_by self.old k)) }
    {
        if !self.cursors.contains_key(&stream) {
            self.cursors.insert(stream, None)?;
        }
        Ok(())
    }

    /// The stream that waited holds what comes from now on.
    pub fn begin(&mut self, stream: u64)
        ensures { (k : ℕ) → held_by self.new k ≡ (if stream == k then option_map begun (held_by self.old k) else held_by self.old k) }
    {
        let end = self.passed + self.entries.len() as u64;
        let Some(cursor) = self.cursors.get(&stream).copied() else {
            return;
        };
        if cursor.is_some() {
            return;
        }
        // The streams that have begun are some of all.
        let streams = self.cursors.len();
        prove!(self.begun < streams);
        set_cursor(&mut self.cursors, stream, end);
        self.begun += 1;
    }

    /// A message more, for each stream that has begun. Where none has, nothing changes.
    ///
    /// # Errors
    ///
    /// AllocError for want of memory, and where the messages that the list holds and those that are gone are 2^64 - 1. An error
    /// changes nothing.
    pub fn push(&mut self, message: &Message) -> Result<(), AllocError>
        ensures err { OnErr result (self.new ≡ self.old) }
        ensures ok { OnOk result ((k : ℕ) → held_by self.new k ≡ option_map (with_message message.now) (held_by self.old k)) }
    {
        if self.begun == 0 {
            return Ok(());
        }
        // No list comes to 2^64 messages, in any time; to one that did this is want of room.
        if self.passed + self.entries.len() as u64 == u64::MAX {
            return Err(AllocError);
        }
        let entry = Entry::new(self.alloc, message, self.begun - 1)?;
        self.entries.push_back(entry)?;
        Ok(())
    }

    /// Takes back the message that was pushed last.
    pub fn take_back(&mut self)
        ensures { (v : Holdings) (m : MessageView) → ((k : ℕ) → held_by self.old k ≡ option_map (with_message m) (held_by v k)) → (k : ℕ) → held_by self.new k ≡ held_by v k }
    {
        let Some(entry) = self.entries.back() else {
            return;
        };
        // All that have begun hold it, as none took it since.
        if entry.others() + 1 != self.begun {
            return;
        }
        self.entries.truncate(self.entries.len() - 1);
    }

    /// Takes the first message that the stream holds.
    pub fn take(&mut self, stream: u64) -> Option<Message>
        ensures gives { result ≡ first_by self.old stream }
        ensures left { (k : ℕ) → held_by self.new k ≡ (if stream == k then option_map without_first (held_by self.old k) else held_by self.old k) }
    {
        let cursor = (*self.cursors.get(&stream)?)?;
        let entry = self.entries.get_mut((cursor - self.passed) as usize)?;
        set_cursor(&mut self.cursors, stream, cursor + 1);
        if let Some(message) = entry.take_other() {
            return Some(message);
        }
        // Who holds a message before it holds this one too, so with its last copy it is the first.
        let first = self.entries.pop_front()?;
        self.passed += 1;
        Some(first.into_message())
    }

    /// The stream holds the message before its first again. Nothing changes where there is none, or where memory is wanted.
    fn give_back(&mut self, stream: u64) -> Result<(), AllocError>
        ensures err { OnErr result ((k : ℕ) → held_by self.new k ≡ held_by self.old k) }
        ensures ok { OnOk result ((other j : ℕ) (ms : List MessageView) → held_by self.old other ≡ Some (Some ms) → j < length ms → held_by self.old stream ≡ Some (Some (drop (j + 1) ms)) → (k : ℕ) → held_by self.new k ≡ (if stream == k then Some (Some (drop j ms)) else held_by self.old k)) }
    {
        let Some(cursor) = self.cursors.get(&stream).copied() else {
            return Ok(());
        };
        let Some(cursor) = cursor else {
            return Ok(());
        };
        if cursor == self.passed {
            return Ok(());
        }
        let before = cursor - 1;
        let Some(entry) = self.entries.get_mut((before - self.passed) as usize) else {
            return Ok(());
        };
        entry.put_other()?;
        set_cursor(&mut self.cursors, stream, before);
        Ok(())
    }

    /// A stream more, of which the list knew nothing, and which holds what the original holds. Nothing changes where there is no
    /// original.
    ///
    /// # Errors
    ///
    /// AllocError for want of memory. What the list knows of each stream is then as it was.
    pub fn open_clone(&mut self, original: u64, stream: u64) -> Result<(), AllocError>
        ensures err { OnErr result (held_by self.old stream ≡ None → (k : ℕ) → held_by self.new k ≡ held_by self.old k) }
        ensures ok { OnOk result (held_by self.old stream ≡ None → (k : ℕ) → held_by self.new k ≡ (if stream == k then held_by self.old original else held_by self.old k)) }
    {
        let Some(cursor) = self.cursors.get(&original).copied() else {
            return Ok(());
        };
        let Some(cursor) = cursor else {
            return self.reserve(stream);
        };
        let held = self.passed + self.entries.len() as u64 - cursor;
        self.open(stream)?;
        for _ in 0..held {
            if self.give_back(stream).is_err() {
                self.close(stream);
                return Err(AllocError);
            }
        }
        Ok(())
    }

    /// The stream is gone, with what it holds.
    pub fn close(&mut self, stream: u64)
        ensures { (k : ℕ) → held_by self.new k ≡ (if stream == k then None else held_by self.old k) }
    {
        while self.take(stream).is_some() {}
        let Some(cursor) = self.cursors.remove(&stream) else {
            return;
        };
        if cursor.is_some() {
            self.begun -= 1;
        }
    }
}

/// Moves the stream's cursor, where the stream is there.
fn set_cursor(cursors: &mut BTreeMap<u64, Option<u64>>, stream: u64, cursor: u64)
    ensures { WritesThrough nat_cmp (nat_cmp stream) cursors.old (Some cursor) cursors.new }
{
    if let Some(place) = cursors.get_mut(&stream) {
        *place = Some(cursor);
    }
}

/// Whether the stream is one of two.
fn is_either(one: Option<u64>, before: Option<u64>, stream: u64) -> bool
    ensures { result ≡ (is_serial one stream || is_serial before stream) }
{
    is_number(one, stream) || is_number(before, stream)
}

/// Whether the number is there and is this.
fn is_number(number: Option<u64>, stream: u64) -> bool
    ensures { result ≡ is_serial number stream }
{
    match number {
        Some(number) => number == stream,
        None => false,
    }
}
