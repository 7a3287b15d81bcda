//! What streams hold: those without a rule, and those of each rule.
ghost use Rattle.std.specs.Prelude.{◌≡◌, ◌==◌, ◌<◌, ◌≤◌, ◌+◌, ◌&&◌, not, IsSome, [], ℕ, List, length, option_map, if◌then◌else◌, Option, Some, None, OnOk, OnErr, true, false};
ghost use Rattle.std.specs.Option.{option_eq};
ghost use Rattle.wire_message.specs.Front.{MessageView};
ghost use Rattle.peer_lists.specs.Holdings.{with_message, without_first, begun};
ghost use Rattle.peer_streams.specs.Names.{Rule};
ghost use Rattle.peer_streams.specs.Rules.{is_same};
ghost use Rattle.peer_streams.specs.Subscriptions.{limit_in, held_in, limit_asked, has_other_in, AreDistinct};
ghost use Rattle.peer_streams.specs.Keeping.{held_of, first_of, limit_at, takes};

use crate::subscriptions::Subscriptions;
use peer_lists::SharedList;
use rule_match::{MatchRule, OwnedMatchRule};
use std::alloc::{AllocError, Global};
use std::sync::ledger::Ledger;
use wire_message::{Message, Steps};

/// The lists of a peer's streams: one of those without a rule, and one for each rule that is subscribed.
pub struct Lists {
    pub(crate) plain: SharedList,
    pub(crate) rules: Subscriptions,
}

impl Drop for Lists {
    fn drop(self) {
        let Lists { plain: _, rules: _ } = self;
    }
}

impl Lists {
    /// No streams.
    pub(crate) fn new(alloc: Global) -> Lists
        ensures held { (o : Option Rule) (k : ℕ) → held_of result o k ≡ None }
    {
        Lists {
            plain: SharedList::new(alloc),
            rules: Subscriptions::new(alloc),
        }
    }

    /// A stream without a rule more, of which nothing was known; it takes messages from now on. Want of memory changes nothing.
    pub(crate) fn open(&mut self, stream: u64) -> Result<(), AllocError>
        ensures err { OnErr result (self.new ≡ self.old) }
        ensures rules { self.new.rules ≡ self.old.rules }
        ensures held { OnOk result (held_of self.old None stream ≡ None → (o : Option Rule) (k : ℕ) → held_of self.new o k ≡ (if option_eq is_same None o && stream == k then Some (Some []) else held_of self.old o k)) }
    {
        self.plain.open(stream)
    }

    /// A stream of the rule more, of which nothing was known; it waits to begin. Where it asks for more than the rule's streams may
    /// hold, they may hold it too. Want of memory changes nothing.
    pub(crate) fn reserve(
        &mut self,
        rule: &MatchRule,
        asked: Option<u64>,
        stream: u64,
    ) -> Result<(), AllocError>
        ensures err { OnErr result (self.new ≡ self.old) }
        ensures used { IsSome (limit_in self.old.rules rule.now) → (k : ℕ) × IsSome (held_of self.old (Some rule.now) k) }
        ensures limits { OnOk result ((r : Rule) → limit_in self.new.rules r ≡ (if is_same rule.now r then Some (limit_asked (limit_in self.old.rules rule.now) rule.now asked) else limit_in self.old.rules r)) }
        ensures held { OnOk result (held_of self.old (Some rule.now) stream ≡ None → (o : Option Rule) (k : ℕ) → held_of self.new o k ≡ (if option_eq is_same (Some rule.now) o && stream == k then Some None else held_of self.old o k)) }
    {
        self.rules.reserve(rule, asked, stream)
    }

    /// The stream that waited takes messages from now on.
    pub(crate) fn begin(&mut self, rule: &Option<OwnedMatchRule>, stream: u64)
        ensures limits { (r : Rule) → limit_in self.new.rules r ≡ limit_in self.old.rules r }
        ensures held { (o : Option Rule) (k : ℕ) → held_of self.new o k ≡ (if option_eq is_same rule.now o && stream == k then option_map begun (held_of self.old o k) else held_of self.old o k) }
    {
        match rule {
            Some(rule) => self.rules.begin(rule.inner(), stream),
            None => self.plain.begin(stream),
        }
    }

    /// A stream more, of which nothing was known, holds what the original holds. Nothing changes where memory is wanted.
    pub(crate) fn open_clone(
        &mut self,
        rule: &Option<OwnedMatchRule>,
        original: u64,
        stream: u64,
    ) -> Result<(), AllocError>
        ensures limits { (r : Rule) → limit_in self.new.rules r ≡ limit_in self.old.rules r }
        ensures err { OnErr result (held_of self.old rule.now stream ≡ None → (o : Option Rule) (k : ℕ) → held_of self.new o k ≡ held_of self.old o k) }
        ensures ok { OnOk result (held_of self.old rule.now stream ≡ None → (o : Option Rule) (k : ℕ) → held_of self.new o k ≡ (if option_eq is_same rule.now o && stream == k then held_of self.old o original else held_of self.old o k)) }
    {
        match rule {
            Some(rule) => self.rules.open_clone(rule.inner(), original, stream),
            None => self.plain.open_clone(original, stream),
        }
    }

    /// Gives the message to each stream that has begun: those without a rule, and those of each rule that accepts it. Each rule is
    /// asked once. Want of memory changes nothing.
    pub(crate) fn push<L: Ledger>(
        &mut self,
        message: &Message,
        steps: &mut Steps<L>,
    ) -> Result<(), AllocError>
        // One step for each rule at most: they are distinct, and each has a stream.
        ensures steps { (count : ℕ) → (AreDistinct self.old.rules → ((r : Rule) → IsSome (limit_in self.old.rules r) → (k : ℕ) × IsSome (held_in self.old.rules r k)) → length self.old.rules ≤ count) → steps.new ≤ steps.old + count }
        ensures limits { (r : Rule) → limit_in self.new.rules r ≡ limit_in self.old.rules r }
        ensures err { OnErr result ((o : Option Rule) (k : ℕ) → held_of self.new o k ≡ held_of self.old o k) }
        ensures ok { OnOk result ((o : Option Rule) (k : ℕ) → held_of self.new o k ≡ (if takes o message.now then option_map (with_message message.now) (held_of self.old o k) else held_of self.old o k)) }
    {
        self.plain.push(message)?;
        let pushed = self.rules.push(message, steps);
        if pushed.is_err() {
            self.plain.take_back();
        }
        pushed
    }

    /// The first message that the stream holds.
    pub(crate) fn first(&self, rule: &Option<OwnedMatchRule>, stream: u64) -> Option<&Message>
        ensures { option_map (λ m. m.now) result ≡ first_of self.now rule.now stream }
    {
        match rule {
            Some(rule) => self.rules.first(rule.inner(), stream),
            None => self.plain.first(stream),
        }
    }

    /// Takes the first message that the stream holds.
    pub(crate) fn take(&mut self, rule: &Option<OwnedMatchRule>, stream: u64) -> Option<Message>
        ensures gives { result ≡ first_of self.old rule.now stream }
        ensures limits { (r : Rule) → limit_in self.new.rules r ≡ limit_in self.old.rules r }
        ensures held { (o : Option Rule) (k : ℕ) → held_of self.new o k ≡ (if option_eq is_same rule.now o && stream == k then option_map without_first (held_of self.old o k) else held_of self.old o k) }
    {
        match rule {
            Some(rule) => self.rules.take(rule.inner(), stream),
            None => self.plain.take(stream),
        }
    }

    /// The stream is gone, with what it holds; and with the last one of its rule the rule's capacity.
    pub(crate) fn close(&mut self, rule: &Option<OwnedMatchRule>, stream: u64)
        ensures limits { (r : Rule) → limit_in self.new.rules r ≡ (if option_eq is_same rule.now (Some r) && not (has_other_in self.old.rules r (Some stream) None) then None else limit_in self.old.rules r) }
        ensures held { (o : Option Rule) (k : ℕ) → held_of self.new o k ≡ (if option_eq is_same rule.now o && stream == k then None else held_of self.old o k) }
    {
        match rule {
            Some(rule) => self.rules.close(rule.inner(), stream),
            None => self.plain.close(stream),
        }
    }

    /// Whether some stream holds more messages than it may; one without a rule may hold so many.
    pub(crate) fn is_over(&self, main: u64) -> bool
        ensures over { result ≡ true → (o : Option Rule) × (k : ℕ) × (ms : List MessageView) × (held_of self.now o k ≡ Some (Some ms)) × (limit_at self.now main o < length ms) }
        ensures within { result ≡ false → (o : Option Rule) (k : ℕ) (ms : List MessageView) → held_of self.now o k ≡ Some (Some ms) → length ms ≤ limit_at self.now main o }
    {
        self.plain.most() as u64 > main || self.rules.is_full()
    }

    /// The most messages that one stream of the rule holds, or one without a rule; 0 without one.
    pub(crate) fn most(&self, rule: Option<&MatchRule>) -> usize
        ensures within { (k : ℕ) (ms : List MessageView) → held_of self.now (option_map (λ r. r.now) rule.entry) k ≡ Some (Some ms) → length ms ≤ result }
        ensures reached { 0 < result → (k : ℕ) × (ms : List MessageView) × (held_of self.now (option_map (λ r. r.now) rule.entry) k ≡ Some (Some ms)) × (length ms ≡ result) }
    {
        match rule {
            Some(rule) => self.rules.most(rule),
            None => self.plain.most(),
        }
    }
}
