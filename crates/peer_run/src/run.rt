//! A run: commands, one after another, over a source and a sink.
ghost use Rattle.std.specs.Prelude.{ℕ, ◌≡◌, ◌≢◌, ◌≤◌, ◌-◌, ◌^◌, ◌<◌, length, List, [], ◌∷◌, IfOk, option_map, Some};
ghost use Rattle.std.specs.List.{AllByRecursion};
ghost use Rattle.peer_words.specs.declared.answer.Entry.{Entry};
ghost use Rattle.peer_words.specs.declared.words.Command.{Command};
ghost use Rattle.peer_words.specs.OfRun.{IsOfRun};
ghost use Rattle.peer_route.specs.Replay.{Setting, Replay};
ghost use Rattle.peer_script.specs.Script.{is_bus, name_of};
ghost use Rattle.peer_conn.specs.Invariant.{StateInvariant};
ghost use Rattle.object_interface.specs.Meaning.{Same};
ghost use Rattle.peer_service.specs.Service.{meaning_at, first_service, with_machine};
ghost use Rattle.peer_route.specs.Plan.{plan};
ghost use Rattle.peer_turns.specs.Objects.{IsPerformed, Turns, handed, on_machine};
ghost use Rattle.wire_framing.specs.Views.{SourceView, SinkView};
ghost use Rattle.peer_run.specs.Runs.{Begins, Running, Runs};
ghost use Rattle.peer_script.specs.Again.{command_of};

use crate::reading::{close, read};
use crate::writing::write_each;
use object_interface::Interface;
use peer_conn::{PeerState, RunError};
use peer_route::{Command, Entry, Words};
use peer_script::{Setup, Transcript};
use peer_service::{Registry, Service};
use peer_turns::begin;
use std::alloc::{AllocError, Global};
use std::marker::Brand;
use wire_framing::{ReadHalf, Sink, Source, WriteHalf};
use wire_message::Error;
use wire_value::{OwnedGuid, OwnedUniqueName};

/// The entry of a lane's command that is no read and no `close`: its messages are put, and written.
fn perform<W: Sink, B: Interface, R: Registry>(
    alloc: Global,
    state: &mut PeerState,
    service: &mut Service<B, R>,
    writer: &mut WriteHalf<W>,
    command: &Command,
) -> Result<Entry, RunError>
    requires runs { IsOfRun command.now.words }
    requires performed { IsPerformed command.now.words }
    requires written { state.old.core.done ≡ length state.old.core.outbox }
    requires stands { (t : Replay) × StateInvariant state.old t × (t.setting.takes_fds ≡ W.takes writer.old.sink) × (t.past.closing ≢ Some Error.UnknownHandle) }
    ensures command { IfOk result (λ e. command_of e ≡ command.now) }
    ensures running { IfOk result (λ e. (setting : Setting) (start_in now_in : SourceView) (start_out : SinkView) (es : List Entry)
        → setting.takes_fds ≡ W.takes writer.old.sink
        → Running setting start_in start_out state.old now_in (W.view writer.old.sink) writer.old.writing es
        → Running setting start_in start_out state.new now_in (W.view writer.new.sink) writer.new.writing (e ∷ es)) }
    ensures objects { IfOk result (λ e. (t : Replay) → StateInvariant state.old t → t.setting.takes_fds ≡ W.takes writer.old.sink → t.past.closing ≢ Some Error.UnknownHandle → Turns R.meanings t.past (plan t e.lane e.words) e service.old service.new) }
    ensures same_sink { W.lent writer.new.sink ≡ W.lent writer.old.sink }
    ensures takes { W.takes writer.new.sink ≡ W.takes writer.old.sink }
    ensures sink_grows { (W.view writer.old.sink).faults ≤ (W.view writer.new.sink).faults }
{
    let mut entry = begin(alloc, state, service, writer.can_pass_unix_fd(), command)?;
    write_each(state, writer, &mut entry)?;
    state.finish(&entry)?;
    Ok(entry)
}

/// One command's entry.
fn step<S: Source, W: Sink, B: Interface, R: Registry>(
    alloc: Global,
    state: &mut PeerState,
    service: &mut Service<B, R>,
    reader: &mut ReadHalf<S>,
    kept: &mut Vec<u8>,
    writer: &mut WriteHalf<W>,
    command: &Command,
) -> Result<Entry, RunError>
    requires runs { IsOfRun command.now.words }
    requires within { state.old.core.read ≤ 2 ^ 64 - 2 }
    requires empty { kept.old.items ≡ [] }
    requires written { state.old.core.done ≡ length state.old.core.outbox }
    requires stands { (t : Replay) × StateInvariant state.old t × (t.setting.takes_fds ≡ W.takes writer.old.sink) × (t.past.closing ≢ Some Error.UnknownHandle) }
    ensures command { IfOk result (λ e. command_of e ≡ command.now) }
    ensures running { IfOk result (λ e. (setting : Setting) (start_in : SourceView) (start_out : SinkView) (es : List Entry)
        → setting.takes_fds ≡ W.takes writer.old.sink
        → Running setting start_in start_out state.old (S.view reader.old.source) (W.view writer.old.sink) writer.old.writing es
        → Running setting start_in start_out state.new (S.view reader.new.source) (W.view writer.new.sink) writer.new.writing (e ∷ es)) }
    ensures objects { IfOk result (λ e. (t : Replay) → StateInvariant state.old t → t.setting.takes_fds ≡ W.takes writer.old.sink → t.past.closing ≢ Some Error.UnknownHandle → Turns R.meanings t.past (plan t e.lane e.words) e service.old service.new) }
    ensures empty { IfOk result (λ x. kept.new.items ≡ []) }
    ensures same_source { S.lent reader.new.source ≡ S.lent reader.old.source }
    ensures same_sink { W.lent writer.new.sink ≡ W.lent writer.old.sink }
    ensures takes { W.takes writer.new.sink ≡ W.takes writer.old.sink }
    ensures source_grows { (S.view reader.old.source).faults ≤ (S.view reader.new.source).faults }
    ensures sink_grows { (W.view writer.old.sink).faults ≤ (W.view writer.new.sink).faults }
{
    match &command.words {
        Words::Read => read(alloc, state, reader, kept, command.lane),
        Words::Close => Ok(close(alloc, state, writer, command.lane)),
        _ => perform(alloc, state, service, writer, command),
    }
}

/// A copy of a name, if there is one.
fn copied_name(
    alloc: Global,
    name: Option<&OwnedUniqueName>,
) -> Result<Option<OwnedUniqueName>, AllocError>
    ensures { IfOk result (λ copy. copy ≡ option_map (λ name. name.now) name.entry) }
{
    match name {
        Some(name) => Ok(Some(name.try_clone(alloc)?)),
        None => Ok(None),
    }
}

/// The id of the setup's machine, if it has one.
fn machine_of(alloc: Global, setup: &Setup) -> Result<Option<OwnedGuid>, AllocError>
    ensures { IfOk result (λ machine. machine ≡ setup.now.machine) }
{
    match &setup.machine {
        Some(id) => Ok(Some(id.try_clone(alloc)?)),
        None => Ok(None),
    }
}

/// Runs the commands, one after another, by a peer before its first command, and returns their entries.
fn run_each<S: Source, W: Sink, B: Interface, R: Registry>(
    alloc: Global,
    state: &mut PeerState,
    service: &mut Service<B, R>,
    reader: &mut ReadHalf<S>,
    writer: &mut WriteHalf<W>,
    commands: &[Command],
) -> Result<Vec<Entry>, RunError>
    requires runs { AllByRecursion (λ (c : Command). IsOfRun c.words) commands.now }
    requires begins { (setting : Setting) × Begins setting state.old (W.takes writer.old.sink) writer.old.writing }
    ensures run { IfOk result (λ entries. (setting : Setting) → Begins setting state.old (W.takes writer.old.sink) writer.old.writing → Runs (record { meanings = R.meanings; first = service.old }) setting
        (S.view reader.old.source) (W.view writer.old.sink) (S.view reader.new.source) (W.view writer.new.sink)
        commands.now entries.items) }
    ensures same_source { S.lent reader.new.source ≡ S.lent reader.old.source }
    ensures same_sink { W.lent writer.new.sink ≡ W.lent writer.old.sink }
    ensures source_grows { (S.view reader.old.source).faults ≤ (S.view reader.new.source).faults }
    ensures sink_grows { (W.view writer.old.sink).faults ≤ (W.view writer.new.sink).faults }
{
    let mut kept = Vec::new(alloc);
    let mut entries = Vec::new(alloc);
    for command in commands {
        let entry = step(alloc, state, service, reader, &mut kept, writer, command)?;
        entries.push(entry)?;
    }
    Ok(entries)
}

/// Runs the commands, as `run_peer` does, with boxes of one type; what these mean is told.
fn run_with<S: Source, W: Sink, B: Interface, R: Registry>(
    alloc: Global,
    setup: &Setup,
    source: &mut S,
    sink: &mut W,
    boxes: Vec<B>,
    commands: &[Command],
) -> Result<Transcript, RunError>
    requires runs { AllByRecursion (λ (c : Command). IsOfRun c.words) commands.now }
    requires means { (n : ℕ) → Same (meaning_at B.meaning boxes.items n) (R.meanings n) }
    ensures run { IfOk result (λ t. Runs (record { meanings = R.meanings; first = with_machine setup.now.machine (first_service B.state boxes.items) }) (record { bus = is_bus setup.now.kind; name = name_of setup.now.kind; takes_fds = W.takes sink.old; queue = setup.now.queue })
        (S.view source.old) (W.view sink.old) (S.view source.new) (W.view sink.new)
        commands.now t.entries.items) }
    ensures source_grows { (S.view source.old).faults ≤ (S.view source.new).faults }
    ensures sink_grows { (W.view sink.old).faults ≤ (W.view sink.new).faults }
{
    let name = copied_name(alloc, setup.kind.name())?;
    let mut state = PeerState::new(alloc, setup.kind.is_bus(), name, setup.queue);
    let mut service: Service<B, R> = Service::new(alloc, boxes, machine_of(alloc, setup)?)?;
    let mut reader = ReadHalf::new(source);
    let mut writer = WriteHalf::new(sink);
    let entries = run_each(
        alloc,
        &mut state,
        &mut service,
        &mut reader,
        &mut writer,
        commands,
    )?;
    Ok(Transcript { entries })
}

/// Runs the commands, as `run_peer` does, with boxes of one type.
pub(crate) fn run_peer_of<S: Source, W: Sink, B: Interface>(
    alloc: Global,
    setup: &Setup,
    source: &mut S,
    sink: &mut W,
    boxes: Vec<B>,
    commands: &[Command],
) -> Result<Transcript, RunError>
    requires runs { AllByRecursion (λ (c : Command). IsOfRun c.words) commands.now }
    requires few { length boxes.items < 2 ^ 32 }
    ensures run { IfOk result (λ t. Runs (on_machine setup.now.machine (handed B.meaning B.state boxes.items)) (record { bus = is_bus setup.now.kind; name = name_of setup.now.kind; takes_fds = W.takes sink.old; queue = setup.now.queue })
        (S.view source.old) (W.view sink.old) (S.view source.new) (W.view sink.new)
        commands.now t.entries.items) }
    ensures source_grows { (S.view source.old).faults ≤ (S.view source.new).faults }
    ensures sink_grows { (W.view sink.old).faults ≤ (W.view sink.new).faults }
{
    run_with::<S, W, B, Brand>(alloc, setup, source, sink, boxes, commands)
}

/// Runs the commands over a source and a sink, as the peer of the setup's kind, and gives their entries: a legal history of
/// the commands of a peer of that kind, that name and that capacity, whose sink takes file descriptors where it says so, each once and in order, whose
/// reads are what stands at the front of the source's bytes and whose messages are what the sink got, up to its first fault. Each
/// entry's messages are written within it, up to that fault. What is asked of objects is answered by what the boxes mean and by the
/// commands before.
/// All reads go through one half over the source, all sends through one over the sink.
///
/// The boxes are the interfaces that commands may place at objects (D-Bus Specification, "Interfaces"), by their numbers in the
/// list, from 0 on; they are fewer than 2^32. One stands at one object at most, and can be placed again once it was removed, with
/// its state, but not once it went with an object that was destroyed.
///
/// The commands are those that a script may hold: none is one of `Live`, which only lanes have that run at once.
///
/// # Errors
///
/// Memory for want of memory, and for nothing else. The source and the sink are then in any state, but that their counts of
/// faults don't fall.
pub fn run_peer<S: Source, W: Sink>(
    alloc: Global,
    setup: &Setup,
    source: &mut S,
    sink: &mut W,
    boxes: Vec<Box<dyn Interface>>,
    commands: &[Command],
) -> Result<Transcript, RunError>
    requires runs { AllByRecursion (λ (c : Command). IsOfRun c.words) commands.now }
    requires few { length boxes.items < 2 ^ 32 }
    ensures run { IfOk result (λ t. Runs (on_machine setup.now.machine (handed meaning state boxes.items)) (record { bus = is_bus setup.now.kind; name = name_of setup.now.kind; takes_fds = W.takes sink.old; queue = setup.now.queue })
        (S.view source.old) (W.view sink.old) (S.view source.new) (W.view sink.new)
        commands.now t.entries.items) }
    ensures source_grows { (S.view source.old).faults ≤ (S.view source.new).faults }
    ensures sink_grows { (W.view sink.old).faults ≤ (W.view sink.new).faults }
{
    run_peer_of(alloc, setup, source, sink, boxes, commands)
}
