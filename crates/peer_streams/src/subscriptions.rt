//! The rules that are subscribed, each with the capacity of its streams and with what they hold.
ghost use Rattle.std.specs.Prelude.{◌≡◌, ◌==◌, ◌&&◌, ◌||◌, ◌+◌, ◌<◌, ◌≤◌, not, true, false, Bool, IsSome, List, [], ℕ, length, is_some, is_none, max, option_map, unwrap_or, if◌then◌else◌, Option, Some, None, IfOk, IfErr, OnOk, OnErr};
ghost use Rattle.std.specs.Int.{from_bool};
ghost use Rattle.std.specs.List.{list_any, count_by, AllZip, AllByRecursion};
ghost use Rattle.wire_message.specs.Front.{MessageView};
ghost use Rattle.wire_message.specs.Replying.{is_serial};
ghost use Rattle.peer_lists.specs.Holdings.{held_by, with_message, without_first, begun};
ghost use Rattle.peer_streams.specs.History.{raised};
ghost use Rattle.peer_streams.specs.Names.{accepts, Rule};
ghost use Rattle.peer_streams.specs.Rules.{is_same, default_capacity};
ghost use Rattle.peer_streams.specs.Subscriptions.{Subscribed, limit_in, held_in, first_in, has_other_in, is_full_one, limit_asked, AreDistinct, MostIsHeld, HasTaken, HasTakenBy, IsAsBefore, IsAsBeforeBy, FirstAndRest};

use crate::default_capacity::default_capacity;
use crate::testing::{Tested, test};
use indexmap::IndexMap;
use peer_lists::SharedList;
use rule_match::{Candidate, MatchRule};
use std::alloc::{AllocError, Global};
use std::marker::Model;
use std::sync::ledger::Ledger;
use wire_message::{Message, Steps};

/// What is kept of a rule that is subscribed.
pub struct Subscription {
    /// How many messages each of its streams may hold before reads wait.
    limit: u64,
    /// What its streams hold.
    list: SharedList,
    /// Whether it accepted the message that is being given.
    accepted: bool,
}

impl Drop for Subscription {
    fn drop(self) {
        let Subscription {
            limit: _,
            list: _,
            accepted: _,
        } = self;
    }
}

impl Subscription {
    /// Whether a stream of it holds more than it may.
    fn is_full(&self) -> bool
        ensures full { result ≡ is_full_one self.now }
        ensures most { MostIsHeld self.now.list }
    {
        self.list.most() as u64 > self.limit
    }

    /// Gives the message to its streams where its rule was tested and accepts it. Want of memory changes nothing.
    fn push(&mut self, tested: Tested, message: &Message) -> Result<(), AllocError>
        ensures err { OnErr result (self.new ≡ self.old) }
        ensures ok { OnOk result (HasTaken tested message.now self.old self.new) }
    {
        if tested.accepts() {
            self.list.push(message)?;
        }
        self.accepted = tested.accepts();
        Ok(())
    }

    /// Takes back the message that it was given last.
    fn take_back(&mut self)
        ensures { (yes : Bool) (m : MessageView) (s : Subscription) → HasTaken yes m s self.old → IsAsBefore s self.new }
    {
        if self.accepted {
            self.list.take_back();
        }
    }
}

/// The subscription of a rule whose first stream waits to begin.
fn first_subscription(
    alloc: Global,
    rule: &MatchRule,
    asked: Option<u64>,
    stream: u64,
) -> Result<Subscription, AllocError>
    ensures limit { IfOk result (λ s. s.limit ≡ limit_asked None rule.now asked) }
    ensures held { IfOk result (λ s. (k : ℕ) → held_by s.list k ≡ (if stream == k then Some None else None)) }
{
    let mut list = SharedList::new(alloc);
    list.reserve(stream)?;
    let limit = asked.unwrap_or(default_capacity(rule));
    Ok(Subscription {
        limit,
        list,
        accepted: false,
    })
}

/// The larger of a capacity and the one that is asked for, if one is.
fn raised(asked: Option<u64>, limit: u64) -> u64
    ensures { result ≡ raised asked limit }
{
    match asked {
        Some(asked) => limit.max(asked),
        None => limit,
    }
}

/// How many of the rules have a stream that holds more than it may, where one of them was counted or not before it changed.
fn recount(
    rules: &IndexMap<MatchRule, Subscription>,
    full: usize,
    was_full: bool,
    is_full: bool,
) -> usize
    requires { full + from_bool is_full ≡ count_by (λ e. is_full_one e.1) rules.now.entries + from_bool was_full }
    ensures { result ≡ count_by (λ e. is_full_one e.1) rules.now.entries }
{
    // No map has so many rules that a count could wrap.
    let len = rules.len();
    prove!(len < 1 << 63);
    full + is_full as usize - was_full as usize
}

/// How many of the rules have a stream that holds more than it may.
fn count_full(rules: &IndexMap<MatchRule, Subscription>) -> usize
    ensures count { result ≡ count_by (λ e. is_full_one e.1) rules.now.entries }
    ensures most { AllByRecursion (λ e. MostIsHeld e.1.list) rules.now.entries }
    ensures distinct { AreDistinct rules.now.entries }
{
    let mut count = 0;
    for index in 0..rules.len() {
        count += rules[index].is_full() as usize;
    }
    count
}

/// Gives the message to the streams of one rule after another, where the rule accepts it: each rule is tested once. For want of
/// memory it ends early, and says how many rules were passed.
fn push_each<L: Ledger>(
    rules: &mut IndexMap<MatchRule, Subscription>,
    message: &Message,
    steps: &mut Steps<L>,
) -> Result<(), usize>
    ensures steps { steps.new ≤ steps.old + length rules.old.entries }
    ensures each { OnOk result (steps.new ≡ steps.old + length rules.old.entries) }
    ensures within { IfErr result (λ count. count ≤ length rules.new.entries) }
    ensures err { IfErr result (λ count. FirstAndRest (HasTakenBy message.now) IsAsBeforeBy count rules.old.entries rules.new.entries) }
    ensures ok { OnOk result (AllZip (HasTakenBy message.now) rules.old.entries rules.new.entries) }
{
    let mut candidate = Candidate::new(message);
    for index in 0..rules.len() {
        let (rule, found) = rules.pair_mut(index);
        let tested = test(rule, &mut candidate, steps);
        if found.push(tested, message).is_err() {
            return Err(index);
        }
    }
    Ok(())
}

/// Takes the message that was given last back from the streams of the first `count` rules.
fn take_back_each(rules: &mut IndexMap<MatchRule, Subscription>, count: usize)
    requires { count ≤ length rules.old.entries }
    ensures { (v : Subscribed) (m : MessageView) → FirstAndRest (HasTakenBy m) IsAsBeforeBy count v rules.old.entries → AllZip IsAsBeforeBy v rules.new.entries }
{
    let mut left = count;
    while left > 0 {
        left -= 1;
        let (_, found) = rules.pair_mut(left);
        found.take_back();
    }
}

/// Gives the message to the streams of each rule that accepts it. Want of memory changes nothing that shows.
fn push_all<L: Ledger>(
    rules: &mut IndexMap<MatchRule, Subscription>,
    message: &Message,
    steps: &mut Steps<L>,
) -> Result<(), AllocError>
    ensures steps { steps.new ≤ steps.old + length rules.old.entries }
    ensures err { OnErr result (AllZip IsAsBeforeBy rules.old.entries rules.new.entries) }
    ensures ok { OnOk result (AllZip (HasTakenBy message.now) rules.old.entries rules.new.entries) }
{
    match push_each(rules, message, steps) {
        Ok(()) => Ok(()),
        Err(count) => {
            take_back_each(rules, count);
            Err(AllocError)
        }
    }
}

/// The rules that are subscribed: those of the streams that are open, or wait to be opened.
pub(crate) struct Subscriptions {
    alloc: Global,
    rules: IndexMap<MatchRule, Subscription>,
    /// How many of them have a stream that holds more than it may.
    full: usize,
}

impl Drop for Subscriptions {
    fn drop(self) {
        let Subscriptions {
            alloc: _,
            rules: _,
            full: _,
        } = self;
    }
}

impl Model for Subscriptions {
    ghost use Rattle.peer_streams.specs.Subscriptions.{Subscribed, AreSubscribed};

    ghost Value = { Subscribed };

    ghost view = { λ s. s.rules.entries };

    ghost invariant = { λ s. AreSubscribed s.rules.entries s.full };
}

impl Subscriptions {
    /// No rule is subscribed.
    pub(crate) fn new(alloc: Global) -> Subscriptions
        ensures { result ≡ [] }
    {
        Subscriptions {
            alloc,
            rules: IndexMap::new(alloc),
            full: 0,
        }
    }

    /// Whether the rule is subscribed.
    pub(crate) fn has(&self, rule: &MatchRule) -> bool
        ensures has { result ≡ is_some (limit_in self.now rule.now) }
        ensures used { result ≡ true → (k : ℕ) × IsSome (held_in self.now rule.now k) }
    {
        self.rules.contains_key(rule)
    }

    /// How many messages each stream of the rule may hold; 0 where it isn't subscribed.
    pub(crate) fn limit(&self, rule: &MatchRule) -> u64
        ensures { result ≡ unwrap_or (limit_in self.now rule.now) 0 }
    {
        match self.rules.get(rule) {
            Some(found) => found.limit,
            None => 0,
        }
    }

    /// The most messages that one stream of the rule holds; 0 where it isn't subscribed.
    pub(crate) fn most(&self, rule: &MatchRule) -> usize
        ensures within { (k : ℕ) (ms : List MessageView) → held_in self.now rule.now k ≡ Some (Some ms) → length ms ≤ result }
        ensures reached { 0 < result → (k : ℕ) × (ms : List MessageView) × (held_in self.now rule.now k ≡ Some (Some ms)) × (length ms ≡ result) }
    {
        match self.rules.get(rule) {
            Some(found) => found.list.most(),
            None => 0,
        }
    }

    /// The first message that the rule's stream holds.
    pub(crate) fn first(&self, rule: &MatchRule, stream: u64) -> Option<&Message>
        ensures { option_map (λ m. m.now) result ≡ first_in self.now rule.now stream }
    {
        self.rules.get(rule)?.list.first(stream)
    }

    /// Whether a stream of the rule is there but for these.
    pub(crate) fn has_other(&self, rule: &MatchRule, one: Option<u64>, before: Option<u64>) -> bool
        ensures any { result ≡ has_other_in self.now rule.now one before }
        ensures other { result ≡ true → (k : ℕ) × IsSome (held_in self.now rule.now k) × ((is_serial one k || is_serial before k) ≡ false) }
        ensures no_other { result ≡ false → (k : ℕ) → IsSome (held_in self.now rule.now k) → (is_serial one k || is_serial before k) ≡ true }
    {
        match self.rules.get(rule) {
            Some(found) => found.list.has_other(one, before),
            None => false,
        }
    }

    /// Whether some stream holds more messages than it may.
    pub(crate) fn is_full(&self) -> bool
        ensures over { result ≡ true → (r : Rule) × (k : ℕ) × (ms : List MessageView) × (held_in self.now r k ≡ Some (Some ms)) × (unwrap_or (limit_in self.now r) 0 < length ms) }
        ensures within { result ≡ false → (r : Rule) (k : ℕ) (ms : List MessageView) → held_in self.now r k ≡ Some (Some ms) → length ms ≤ unwrap_or (limit_in self.now r) 0 }
    {
        self.full > 0
    }

    /// A stream of the rule more, of which nothing was known; it waits to begin. The rule's first has the capacity that is asked
    /// for, or the default; one that asks for more raises it. Want of memory changes nothing.
    pub(crate) fn reserve(
        &mut self,
        rule: &MatchRule,
        asked: Option<u64>,
        stream: u64,
    ) -> Result<(), AllocError>
        ensures err { OnErr result (self.new ≡ self.old) }
        ensures used { IsSome (limit_in self.old rule.now) → (k : ℕ) × IsSome (held_in self.old rule.now k) }
        ensures limits { OnOk result ((r : Rule) → limit_in self.new r ≡ (if is_same rule.now r then Some (limit_asked (limit_in self.old rule.now) rule.now asked) else limit_in self.old r)) }
        ensures held { OnOk result (held_in self.old rule.now stream ≡ None → (r : Rule) (k : ℕ) → held_in self.new r k ≡ (if is_same rule.now r && stream == k then Some None else held_in self.old r k)) }
    {
        let Some(found) = self.rules.get_mut(rule) else {
            return self.subscribe(rule, asked, stream);
        };
        let was_full = found.is_full();
        found.list.reserve(stream)?;
        found.limit = raised(asked, found.limit);
        let is_full = found.is_full();
        self.full = recount(&self.rules, self.full, was_full, is_full);
        Ok(())
    }

    /// The rule's first stream, which waits to begin. Want of memory changes nothing.
    fn subscribe(
        &mut self,
        rule: &MatchRule,
        asked: Option<u64>,
        stream: u64,
    ) -> Result<(), AllocError>
        requires { limit_in self.old rule.now ≡ None }
        ensures err { OnErr result (self.new ≡ self.old) }
        ensures limits { OnOk result ((r : Rule) → limit_in self.new r ≡ (if is_same rule.now r then Some (limit_asked None rule.now asked) else limit_in self.old r)) }
        ensures held { OnOk result ((r : Rule) (k : ℕ) → held_in self.new r k ≡ (if is_same rule.now r && stream == k then Some None else held_in self.old r k)) }
    {
        let first = first_subscription(self.alloc, rule, asked, stream)?;
        let is_full = first.is_full();
        let key = rule.to_owned(self.alloc)?;
        self.rules.insert(key, first)?;
        self.full = recount(&self.rules, self.full, false, is_full);
        Ok(())
    }

    /// The rule's stream that waited takes messages from now on.
    pub(crate) fn begin(&mut self, rule: &MatchRule, stream: u64)
        ensures limits { (r : Rule) → limit_in self.new r ≡ limit_in self.old r }
        ensures held { (r : Rule) (k : ℕ) → held_in self.new r k ≡ (if is_same rule.now r && stream == k then option_map begun (held_in self.old r k) else held_in self.old r k) }
    {
        let Some(found) = self.rules.get_mut(rule) else {
            return;
        };
        let was_full = found.is_full();
        found.list.begin(stream);
        let is_full = found.is_full();
        self.full = recount(&self.rules, self.full, was_full, is_full);
    }

    /// A stream of the rule asks for more. Nothing changes where the rule isn't subscribed.
    pub(crate) fn raise(&mut self, rule: &MatchRule, asked: u64)
        ensures limits { (r : Rule) → limit_in self.new r ≡ (if is_same rule.now r then option_map (max asked) (limit_in self.old r) else limit_in self.old r) }
        ensures held { (r : Rule) (k : ℕ) → held_in self.new r k ≡ held_in self.old r k }
    {
        let Some(found) = self.rules.get_mut(rule) else {
            return;
        };
        let was_full = found.is_full();
        found.limit = found.limit.max(asked);
        let is_full = found.is_full();
        self.full = recount(&self.rules, self.full, was_full, is_full);
    }

    /// A stream of the rule more, of which nothing was known, and which holds what the original holds. Nothing changes where there
    /// is no original, or where memory is wanted.
    pub(crate) fn open_clone(
        &mut self,
        rule: &MatchRule,
        original: u64,
        stream: u64,
    ) -> Result<(), AllocError>
        ensures limits { (r : Rule) → limit_in self.new r ≡ limit_in self.old r }
        ensures err { OnErr result (held_in self.old rule.now stream ≡ None → (r : Rule) (k : ℕ) → held_in self.new r k ≡ held_in self.old r k) }
        ensures ok { OnOk result (held_in self.old rule.now stream ≡ None → (r : Rule) (k : ℕ) → held_in self.new r k ≡ (if is_same rule.now r && stream == k then held_in self.old r original else held_in self.old r k)) }
    {
        let Some(found) = self.rules.get_mut(rule) else {
            return Ok(());
        };
        // Without another stream there is no original.
        if !found.list.has_other(Some(stream), None) {
            return Ok(());
        }
        let was_full = found.is_full();
        // What was known of the stream's number, if anything was, is gone.
        found.list.close(stream);
        let cloned = found.list.open_clone(original, stream);
        let is_full = found.is_full();
        self.full = recount(&self.rules, self.full, was_full, is_full);
        cloned
    }

    /// Gives the message to the streams of each rule that accepts it: each rule is asked once. Want of memory changes nothing.
    pub(crate) fn push<L: Ledger>(
        &mut self,
        message: &Message,
        steps: &mut Steps<L>,
    ) -> Result<(), AllocError>
        ensures steps { steps.new ≤ steps.old + length self.old }
        ensures distinct { AreDistinct self.old }
        ensures used { (r : Rule) → IsSome (limit_in self.old r) → (k : ℕ) × IsSome (held_in self.old r k) }
        ensures limits { (r : Rule) → limit_in self.new r ≡ limit_in self.old r }
        ensures err { OnErr result ((r : Rule) (k : ℕ) → held_in self.new r k ≡ held_in self.old r k) }
        ensures ok { OnOk result ((r : Rule) (k : ℕ) → held_in self.new r k ≡ (if accepts r message.now then option_map (with_message message.now) (held_in self.old r k) else held_in self.old r k)) }
    {
        let pushed = push_all(&mut self.rules, message, steps);
        self.full = count_full(&self.rules);
        pushed
    }

    /// Takes the first message that the rule's stream holds.
    pub(crate) fn take(&mut self, rule: &MatchRule, stream: u64) -> Option<Message>
        ensures gives { result ≡ first_in self.old rule.now stream }
        ensures limits { (r : Rule) → limit_in self.new r ≡ limit_in self.old r }
        ensures held { (r : Rule) (k : ℕ) → held_in self.new r k ≡ (if is_same rule.now r && stream == k then option_map without_first (held_in self.old r k) else held_in self.old r k) }
    {
        let found = self.rules.get_mut(rule)?;
        let was_full = found.is_full();
        let message = found.list.take(stream);
        let is_full = found.is_full();
        self.full = recount(&self.rules, self.full, was_full, is_full);
        message
    }

    /// The rule's stream is gone, with what it holds; and with the last one of the rule its capacity.
    pub(crate) fn close(&mut self, rule: &MatchRule, stream: u64)
        ensures limits { (r : Rule) → limit_in self.new r ≡ (if is_same rule.now r && not (has_other_in self.old r (Some stream) None) then None else limit_in self.old r) }
        ensures held { (r : Rule) (k : ℕ) → held_in self.new r k ≡ (if is_same rule.now r && stream == k then None else held_in self.old r k) }
    {
        let Some(found) = self.rules.get_mut(rule) else {
            return;
        };
        let was_full = found.is_full();
        let has_other = found.list.has_other(Some(stream), None);
        found.list.close(stream);
        let is_full = found.is_full();
        self.full = recount(&self.rules, self.full, was_full, is_full);
        if !has_other {
            drop(self.rules.swap_remove(rule));
        }
    }
}
