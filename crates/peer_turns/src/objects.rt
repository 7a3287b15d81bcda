//! Commands on objects: the service of the interfaces that were handed in says what is answered.
ghost use Rattle.std.specs.Prelude.{ℕ, ◌≡◌, ◌≢◌, true, false, Some, IfOk, IfSome};
ghost use Rattle.wire_message.specs.declared.error.Error.TheVariants as errors;
ghost use Rattle.peer_words.specs.OfRun.{IsOfRun};
ghost use Rattle.peer_words.specs.declared.words.Words.TheVariants as words;
ghost use Rattle.peer_words.specs.declared.words.ObjectOp.TheVariants as ops;
ghost use Rattle.peer_core.specs.History.{Past};
ghost use Rattle.peer_route.specs.Replay.{Replay};
ghost use Rattle.peer_route.specs.Plan as plans;
ghost use Rattle.peer_route.specs.Plan.{plan};
ghost use Rattle.peer_route.specs.StreamLaws.{is_serve};
ghost use Rattle.peer_route.specs.Entries.{IsLater};
ghost use Rattle.peer_conn.specs.Invariant.{Keeps, StateInvariant};
ghost use Rattle.peer_conn.specs.Going.{Going};
ghost use Rattle.peer_objects.specs.Notifying.{is_known};
ghost use Rattle.peer_turns.specs.Objects.{is_replied, noted, MayBeSaid, Refuses, IsPerformed, Asks, AnswersCall, Turns};

use object_interface::Interface;
use peer_conn::{PeerState, RunError};
use peer_objects::Adding;
use peer_route::{Answer, Command, Entry, ObjectOp, Words};
use peer_service::{Registry, Service};
use std::alloc::Global;
use wire_message::{Error, Message, OutgoingMessage};
use wire_value::Bytes;

/// The answer of a command that is refused so; want of memory is none.
fn refused(error: Error) -> Result<Answer, RunError>
    ensures { Refuses error result }
{
    match &error {
        Error::Memory => Err(RunError::Memory),
        _ => Ok(Answer::Refused(error)),
    }
}

/// Places the interface of that number. What is said, and the messages that announce it.
fn place<B: Interface, R: Registry>(
    alloc: Global,
    service: &mut Service<B, R>,
    path: &Bytes,
    number: u64,
) -> Result<(Answer, Vec<OutgoingMessage<'static>>), RunError>
    ensures asks { IfOk result (λ said. Asks R.meanings (ops.At path.now number) said.0 said.1.items service.old service.new) }
    ensures may { IfOk result (λ said. MayBeSaid said.0 said.1.items) }
{
    match service.at(path, number) {
        Ok(Adding::Added(announced)) => Ok((Answer::Added, announced)),
        Ok(Adding::Exists(())) => Ok((Answer::Exists, Vec::new(alloc))),
        Err(error) => Ok((refused(error)?, Vec::new(alloc))),
    }
}

/// Removes the interface of that name. What is said, and the messages that announce it.
fn remove<B: Interface, R: Registry>(
    alloc: Global,
    service: &mut Service<B, R>,
    path: &Bytes,
    interface: &Option<Bytes>,
) -> Result<(Answer, Vec<OutgoingMessage<'static>>), RunError>
    ensures asks { IfOk result (λ said. Asks R.meanings (ops.Remove path.now interface.now) said.0 said.1.items service.old service.new) }
    ensures may { IfOk result (λ said. MayBeSaid said.0 said.1.items) }
{
    match service.remove(path, interface) {
        Ok((destroyed, announced)) => Ok((Answer::Removed(destroyed), announced)),
        Err(error) => Ok((refused(error)?, Vec::new(alloc))),
    }
}

/// Asks the service. What is said, and the messages that announce it.
fn ask<B: Interface, R: Registry>(
    alloc: Global,
    service: &mut Service<B, R>,
    op: &ObjectOp,
) -> Result<(Answer, Vec<OutgoingMessage<'static>>), RunError>
    requires other { is_serve op.now ≡ false }
    ensures asks { IfOk result (λ said. Asks R.meanings op.now said.0 said.1.items service.old service.new) }
    ensures may { IfOk result (λ said. MayBeSaid said.0 said.1.items) }
{
    match op {
        ObjectOp::At { path, number } => place(alloc, service, path, *number),
        ObjectOp::Remove { path, interface } => remove(alloc, service, path, interface),
        ObjectOp::Interface { path, interface } => match service.interface(path, interface) {
            Ok(slot) => Ok((Answer::Slot(slot), Vec::new(alloc))),
            Err(error) => Ok((Answer::Refused(error), Vec::new(alloc))),
        },
        ObjectOp::Serve => unreachable!(),
    }
}

/// The next call that came for the objects.
fn next_call(state: &PeerState) -> Result<Option<Message>, RunError>
    ensures { IfOk result (λ call. (p : Past) → Keeps state.now p → call ≡ plans.next_call p state.now.server) }
{
    match state.next_call() {
        Some(call) => Ok(Some(call.clone()?)),
        None => Ok(None),
    }
}

/// What is answered of a call once it was answered: that it was, or that its sender waits for no reply.
fn call_answer(call: &Message) -> Answer
    ensures { result ≡ plans.call_answer call.now }
{
    let position = call.recv_position();
    if call.expects_reply() {
        Answer::Served(position)
    } else {
        Answer::Silent(position)
    }
}

/// Whether the reply to a call was put, which its sender waits for: all messages of an answer are put, or none.
fn is_replied(call: &Message, entry: &Entry) -> bool
    ensures { result ≡ is_replied call.now entry.now.put }
{
    call.expects_reply() && !entry.put.0.is_empty()
}

/// Records that the reply of an answer with that number, if it had one, was put, where it was.
fn note<B: Interface, R: Registry>(service: &mut Service<B, R>, is_put: bool, notifier: Option<u64>)
    requires { IfSome notifier (λ number. is_known service.old.notified number ≡ true) }
    ensures { service.new ≡ record service.old { notified = noted is_put notifier service.old.notified } }
{
    if let (true, Some(number)) = (is_put, notifier) {
        service.set_dispatched(number);
    }
}

/// Begins the entry of `serve` where there is a call: the service answers it, and the number that the answer had says from then on
/// whether the reply was put.
fn answer_call<B: Interface, R: Registry>(
    alloc: Global,
    state: &mut PeerState,
    service: &mut Service<B, R>,
    command: &Command,
    call: &Message,
) -> Result<Entry, RunError>
    requires serves { command.now.words ≡ words.Objects ops.Serve }
    requires next { (p : Past) → Keeps state.old p → plans.next_call p state.old.server ≡ Some call.now }
    ensures command { IfOk result (λ e. (e.lane ≡ command.now.lane) × (e.words ≡ command.now.words)) }
    ensures unwritten { IfOk result IsLater }
    ensures going { IfOk result (λ e. (t : Replay) → StateInvariant state.old t → Going state.new t e) }
    ensures answers { IfOk result (λ e. (p : Past) (k : ℕ) → Keeps state.old p → state.old.server ≡ Some k → AnswersCall R.meanings p k call.now e service.old service.new) }
{
    let (messages, notifier) = service.dispatch(call)?.into_parts();
    let entry = state.begin_called(alloc, command, call, call_answer(call), messages)?;
    note(service, is_replied(call, &entry), notifier);
    Ok(entry)
}

/// Begins the entry of `serve`.
fn serve<B: Interface, R: Registry>(
    alloc: Global,
    state: &mut PeerState,
    service: &mut Service<B, R>,
    command: &Command,
) -> Result<Entry, RunError>
    requires serves { command.now.words ≡ words.Objects ops.Serve }
    ensures command { IfOk result (λ e. (e.lane ≡ command.now.lane) × (e.words ≡ command.now.words)) }
    ensures unwritten { IfOk result IsLater }
    ensures going { IfOk result (λ e. (t : Replay) → StateInvariant state.old t → Going state.new t e) }
    ensures objects { IfOk result (λ e. (t : Replay) → StateInvariant state.old t → Turns R.meanings t.past (plan t e.lane e.words) e service.old service.new) }
{
    match next_call(state)? {
        Some(call) => answer_call(alloc, state, service, command, &call),
        None => state.begin_uncalled(alloc, command),
    }
}

/// Begins the entry of a command on objects that doesn't ask for the next call: the service says what is answered.
fn asked<B: Interface, R: Registry>(
    alloc: Global,
    state: &mut PeerState,
    service: &mut Service<B, R>,
    command: &Command,
    op: &ObjectOp,
) -> Result<Entry, RunError>
    requires asks { command.now.words ≡ words.Objects op.now }
    requires other { is_serve op.now ≡ false }
    ensures command { IfOk result (λ e. (e.lane ≡ command.now.lane) × (e.words ≡ command.now.words)) }
    ensures unwritten { IfOk result IsLater }
    ensures going { IfOk result (λ e. (t : Replay) → StateInvariant state.old t → Going state.new t e) }
    ensures objects { IfOk result (λ e. (t : Replay) → StateInvariant state.old t → Turns R.meanings t.past (plan t e.lane e.words) e service.old service.new) }
{
    let (answer, announced) = ask(alloc, service, op)?;
    state.begin_objects(alloc, command, answer, announced)
}

/// Begins the entry of a command that is no read and no `close`: what the command asks of objects, the service answers (D-Bus
/// Specification, "Interfaces", "Standard Interfaces").
///
/// `takes_fds` says whether the sink takes file descriptors. The command is one that a script of `run` may hold. The entry's messages are
/// put, in order, and none is written yet: the caller writes them, tells the state what was written (`PeerState::wrote`,
/// `PeerState::write_failed`), and ends the entry (`PeerState::finish`) before it begins another.
///
/// # Errors
///
/// Memory if out of memory. The state and the service are then in any state.
pub fn begin<B: Interface, R: Registry>(
    alloc: Global,
    state: &mut PeerState,
    service: &mut Service<B, R>,
    takes_fds: bool,
    command: &Command,
) -> Result<Entry, RunError>
    requires runs { IsOfRun command.now.words }
    requires performed { IsPerformed command.now.words }
    ensures command { IfOk result (λ e. (e.lane ≡ command.now.lane) × (e.words ≡ command.now.words)) }
    ensures unwritten { IfOk result IsLater }
    ensures going { IfOk result (λ e. (t : Replay) → StateInvariant state.old t → t.setting.takes_fds ≡ takes_fds → t.past.closing ≢ Some errors.UnknownHandle → Going state.new t e) }
    ensures objects { IfOk result (λ e. (t : Replay) → StateInvariant state.old t → Turns R.meanings t.past (plan t e.lane e.words) e service.old service.new) }
{
    match &command.words {
        Words::Objects(ObjectOp::Serve) => serve(alloc, state, service, command),
        Words::Objects(op) => asked(alloc, state, service, command, op),
        _ => state.begin(alloc, takes_fds, command),
    }
}
