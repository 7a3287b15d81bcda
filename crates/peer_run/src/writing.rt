//! Writing what a command put.
ghost use Rattle.std.specs.Prelude.{◌≡◌, ◌≤◌, ◌≢◌, if◌then◌else◌, slice_get, Err, is_ok, IfOk, OnOk};
ghost use Rattle.std.specs.Option.{option_copied};
ghost use Rattle.peer_route.specs.Replay.{Replay};
ghost use Rattle.peer_route.specs.Plan.{plan};
ghost use Rattle.peer_route.specs.Entries.{IsLater, IsAtOnce, past_after, write_fault};
ghost use Rattle.peer_conn.specs.Going.{Going, NoneWaits};
ghost use Rattle.wire_framing.specs.Views.{SinkView};
ghost use Rattle.peer_run.specs.Runs.{Sinks, Flushed, IsFine, IsUnfailed};

use peer_conn::{PeerState, RunError};
use peer_route::{Entry, Posts};
use wire_framing::{Sink, WriteHalf};
use wire_message::{Error, Message};

/// Whether a message was written, or its write failed.
fn went_out(sent: wire_message::Result<()>) -> Result<bool, RunError>
    ensures { IfOk result (λ went. (went ≡ is_ok sent) × (sent ≢ Err Error.Memory)) }
{
    match &sent {
        Ok(()) => Ok(true),
        Err(Error::Memory) => Err(RunError::Memory),
        Err(_) => Ok(false),
    }
}

/// The message that was put at this place of its command, from 0 on.
fn message_at(put: &Posts, index: u64) -> Option<&Message>
    ensures { option_copied result ≡ slice_get put.now index }
{
    put.0.get(index as usize)
}

/// Writes the messages of an entry that was begun, in order, up to one whose write fails.
pub(crate) fn write_each<W: Sink>(
    state: &mut PeerState,
    half: &mut WriteHalf<W>,
    entry: &mut Entry,
) -> Result<(), RunError>
    requires later { IsLater entry.old }
    requires goes { (t : Replay) × Going state.old t entry.old × NoneWaits t.past × (t.setting.takes_fds ≡ W.takes half.old.sink) }
    ensures entry { OnOk result (entry.new ≡ record entry.old { written = entry.new.written; failed = entry.new.failed; answer = if entry.new.failed then write_fault else entry.old.answer }) }
    ensures goes { OnOk result ((t : Replay) → Going state.old t entry.old → NoneWaits t.past → Going state.new t entry.new) }
    ensures once { OnOk result (IsAtOnce entry.new) }
    ensures flushed { OnOk result ((start : SinkView) (t : Replay) → Going state.old t entry.old → NoneWaits t.past → t.setting.takes_fds ≡ W.takes half.old.sink
        → IsUnfailed t.past.outbox → IsFine t.past.outbox.writer half.old.writing → Sinks start (W.view half.old.sink) t.past.outbox
        → Flushed start (W.view half.old.sink) (W.view half.new.sink)
        (past_after (plan t entry.old.lane entry.old.words) entry.new t.past).outbox entry.new.failed half.new.writing) }
    ensures grows { (W.view half.old.sink).faults ≤ (W.view half.new.sink).faults }
    ensures takes { W.takes half.new.sink ≡ W.takes half.old.sink }
    ensures uncounted { (W.view half.new.sink).closes ≡ (W.view half.old.sink).closes }
    ensures same { W.lent half.new.sink ≡ W.lent half.old.sink }
{
    while let Some(message) = message_at(&entry.put, entry.written) {
        if !went_out(half.send_message(message))? {
            state.write_failed(entry);
            return Ok(());
        }
        state.wrote(entry);
    }
    Ok(())
}
