//! Commands on objects: who keeps these says what is answered, and the peer keeps that, with the object server's stream.
ghost use Rattle.std.specs.Prelude.{ℕ, ◌≡◌, true, false, [], ◌∷◌, if◌then◌else◌, option_map, Some, None, IfOk, OnErr};
ghost use Rattle.std.specs.List.{AllByRecursion};
ghost use Rattle.wire_message.specs.Front.{MessageView};
ghost use Rattle.wire_message.specs.Outgoing.{expects};
ghost use Rattle.peer_words.specs.declared.words.Words.TheVariants as words;
ghost use Rattle.peer_words.specs.declared.words.ObjectOp.TheVariants as ops;
ghost use Rattle.peer_core.specs.History.{Past, Did, after_all};
ghost use Rattle.peer_streams.specs.History.{Gave};
ghost use Rattle.peer_route.specs.Replay.{Replay};
ghost use Rattle.peer_route.specs.Plan as plans;
ghost use Rattle.peer_route.specs.Plan.{server_events, next_call, call_answer};
ghost use Rattle.peer_route.specs.Entries as entries;
ghost use Rattle.peer_route.specs.Entries.{IsLater, Delivers, is_of_objects, gave_next, unless_refused};
ghost use Rattle.peer_conn.specs.Invariant.{Keeps, StateInvariant, SameOwners, IsToldOf, Untaken, made_by, makes_by};
ghost use Rattle.peer_conn.specs.Going.{Going, IsOnObjects};

use crate::acting::{Acted, Makes};
use crate::answers::unsent;
use crate::handles::{StreamHandle, open_stream};
use crate::state::{PeerState, RunError};
use crate::steps::quiet;
use peer_route::{Answer, Command, Entry, Issued};
use rule_match::{MatchRule, OwnedMatchRule};
use std::alloc::{AllocError, Global};
use wire_message::{Message, MessageType, OutgoingMessage};
use wire_value::OwnedUniqueName;

/// The rule of the object server's stream: method calls, and where the peer has a unique name, those that are for it.
fn server_rule(alloc: Global, name: Option<&OwnedUniqueName>) -> Result<OwnedMatchRule, AllocError>
    ensures { IfOk result (λ rule. rule ≡ plans.server_rule (option_map (λ name. name.now) name.entry)) }
{
    let calls = MatchRule::builder(alloc).msg_type(MessageType::MethodCall);
    let Some(name) = name else {
        return Ok(OwnedMatchRule::from(calls.build()));
    };
    let name = name.try_clone(alloc)?;
    Ok(OwnedMatchRule::from(calls.destination(name).build()))
}

/// Whether a command is refused.
fn is_refused(answer: &Answer) -> bool
    ensures { result ≡ entries.is_refused answer.now }
{
    matches!(answer, Answer::Refused(_))
}

/// What is answered where the messages of whoever keeps the objects were put, or couldn't be.
fn delivered(issued: wire_message::Result<Vec<Issued>>, answer: Answer) -> Result<Answer, RunError>
    ensures { IsToldOf issued answer result }
{
    match issued {
        Ok(_) => Ok(answer),
        Err(error) => {
            let Acted { answer, makes: _ } = unsent(error)?;
            Ok(answer)
        }
    }
}

impl PeerState {
    /// Makes the object server's stream, where there is none yet.
    fn begin_serving(&mut self, alloc: Global) -> Result<Makes, RunError>
        ensures keeps { IfOk result (λ made. (p : Past) → Keeps self.old p → Keeps self.new (after_all (server_events p.name self.old.server) p)) }
        ensures made { IfOk result (λ made. made ≡ made_by self.old.server) }
        ensures rest { SameOwners self.old self.new }
    {
        if self.server.is_some() {
            return Ok(Makes::Nothing);
        }
        let rule = server_rule(alloc, self.route.unique_name())?;
        let stream = self.route.open_unasked(rule, None)?;
        self.handles.push(StreamHandle::Open(stream))?;
        self.given.push(None)?;
        Ok(Makes::Server)
    }

    /// Makes the object server's stream, where there is none yet, unless the command is refused.
    fn begin_unless_refused(&mut self, alloc: Global, answer: &Answer) -> Result<Makes, RunError>
        ensures keeps { IfOk result (λ made. (p : Past) → Keeps self.old p → Keeps self.new (after_all (if entries.is_refused answer.now then [] else server_events p.name self.old.server) p)) }
        ensures made { IfOk result (λ made. made ≡ makes_by (entries.is_refused answer.now) self.old.server) }
        ensures rest { SameOwners self.old self.new }
    {
        if is_refused(answer) {
            return Ok(Makes::Nothing);
        }
        self.begin_serving(alloc)
    }

    /// The next method call that came for the objects, which `serve` takes. None where none waits, or the object server's stream isn't
    /// made yet.
    pub fn next_call(&self) -> Option<&Message>
        ensures { (p : Past) → Keeps self.now p → option_map (λ m. m.now) result ≡ next_call p self.now.server }
    {
        let server = self.server?;
        let stream = open_stream(self.handles.as_slice(), server)?;
        self.route.next_message(stream)
    }

    /// Keeps what a command on objects was answered by whoever keeps them, who wants these messages sent with it; it doesn't ask for the
    /// next call. All of them are put, in order, or none, and wait; none is written yet. Where they can't be put, why is the answer, in place
    /// of the one that is given. Unless the command is refused, be it for that, the object server's stream is made, where there is none yet:
    /// of method calls, and where the peer has a unique name, of those that are for it. It is open at once, whatever is in flight, and
    /// nobody's.
    ///
    /// # Errors
    ///
    /// Memory for want of memory; the state is then one that no command may go on with.
    pub fn begin_objects(
        &mut self,
        alloc: Global,
        command: &Command,
        answer: Answer,
        list: Vec<OutgoingMessage<'_>>,
    ) -> Result<Entry, RunError>
        requires objects { IsOnObjects command.now.words }
        requires answer { is_of_objects answer ≡ true }
        requires none { entries.is_refused answer ≡ true → list.items ≡ [] }
        requires unawaited { AllByRecursion (λ p. expects p ≡ false) list.items }
        requires bare { AllByRecursion (λ p. p.fds ≡ []) list.items }
        ensures command { IfOk result (λ e. (e.lane ≡ command.now.lane) × (e.words ≡ command.now.words)) }
        ensures unwritten { IfOk result IsLater }
        ensures delivers { IfOk result (λ e. (p : Past) → Keeps self.old p → Delivers false p (unless_refused answer (server_events p.name self.old.server)) list.entry.items answer e) }
        ensures going { IfOk result (λ e. (t : Replay) → StateInvariant self.old t → Going self.new t e) }
    {
        let words = command.words.try_clone(alloc)?;
        let before = self.route.outbox_len();
        let issued = self.route.issue(list, false);
        let answer = delivered(issued, answer)?;
        let put = self.put_since(alloc, before)?;
        let makes = self.begin_unless_refused(alloc, &answer)?;
        self.makes = makes;
        Ok(Entry {
            lane: command.lane,
            words,
            answer,
            read: None,
            put,
            written: 0,
            failed: false,
        })
    }

    /// Keeps that there is no next call: the answer is Empty on an open peer, else Ended. The object server's stream is made, where there
    /// is none yet.
    ///
    /// # Errors
    ///
    /// Memory for want of memory; the state is then one that no command may go on with.
    pub fn begin_uncalled(&mut self, alloc: Global, command: &Command) -> Result<Entry, RunError>
        requires serves { command.now.words ≡ words.Objects ops.Serve }
        requires uncalled { (p : Past) → Keeps self.old p → next_call p self.old.server ≡ None }
        ensures command { IfOk result (λ e. (e.lane ≡ command.now.lane) × (e.words ≡ command.now.words)) }
        ensures unwritten { IfOk result IsLater }
        ensures going { IfOk result (λ e. (t : Replay) → StateInvariant self.old t → Going self.new t e) }
    {
        let words = command.words.try_clone(alloc)?;
        let answer = match self.route.closing() {
            None => Answer::Empty,
            Some(_) => Answer::Ended,
        };
        let makes = self.begin_serving(alloc)?;
        self.makes = makes;
        Ok(quiet(alloc, command.lane, words, answer, None))
    }

    /// Takes the next call.
    fn take_call(&mut self)
        ensures keeps { (p : Past) (k : ℕ) (m : MessageView) → Keeps self.old p → self.old.server ≡ Some k → next_call p (Some k) ≡ Some m → Keeps self.new (gave_next k p) }
        ensures rest { SameOwners self.old self.new }
    {
        if let Some(server) = self.server {
            self.take(server);
        }
    }

    /// Takes the next call, to which these messages are the answer of whoever keeps the objects: all are put, in order, or none, and
    /// wait; none is written yet. An error that answers the call has no sender, every other message the peer's name.
    ///
    /// # Errors
    ///
    /// Memory for want of memory; the call isn't taken then, and the state is one that no command may go on with.
    pub fn begin_called(
        &mut self,
        alloc: Global,
        command: &Command,
        call: &Message,
        answer: Answer,
        list: Vec<OutgoingMessage<'_>>,
    ) -> Result<Entry, RunError>
        requires serves { command.now.words ≡ words.Objects ops.Serve }
        requires next { (p : Past) → Keeps self.old p → next_call p self.old.server ≡ Some call.now }
        requires answer { answer ≡ call_answer call.now }
        requires unawaited { AllByRecursion (λ p. expects p ≡ false) list.items }
        requires bare { AllByRecursion (λ p. p.fds ≡ []) list.items }
        ensures command { IfOk result (λ e. (e.lane ≡ command.now.lane) × (e.words ≡ command.now.words)) }
        ensures unwritten { IfOk result IsLater }
        ensures delivers { IfOk result (λ e. (p : Past) (k : ℕ) → Keeps self.old p → self.old.server ≡ Some k → Delivers true p (Did k Gave ∷ []) list.entry.items answer e) }
        ensures going { IfOk result (λ e. (t : Replay) → StateInvariant self.old t → Going self.new t e) }
        ensures untaken { OnErr result (Untaken self.old self.new) }
    {
        let words = command.words.try_clone(alloc)?;
        let before = self.route.outbox_len();
        let issued = self.route.issue(list, true);
        let answer = delivered(issued, answer)?;
        let put = self.put_since(alloc, before)?;
        self.take_call();
        self.makes = Makes::Nothing;
        Ok(Entry {
            lane: command.lane,
            words,
            answer,
            read: None,
            put,
            written: 0,
            failed: false,
        })
    }
}
