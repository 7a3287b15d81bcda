//! A read, and the closing: what a source and a sink tell a peer's state.
ghost use Rattle.std.specs.Prelude.{◌≡◌, ◌≢◌, ◌≤◌, ◌<◌, ◌-◌, ◌^◌, List, [], ◌∷◌, IfSome, IfOk, IfErr, Some, None, Err};
ghost use Rattle.peer_words.specs.declared.answer.Entry.{Entry};
ghost use Rattle.peer_words.specs.declared.words.Words.TheVariants as words;
ghost use Rattle.peer_route.specs.Replay.{Setting};
ghost use Rattle.peer_conn.specs.Going.{quiet};
ghost use Rattle.peer_run.specs.Runs.{Takes, Reads, SourceMoves, IsRest, Shuts, RunInvariant};
ghost use Rattle.wire_framing.specs.Writing.{closed};
ghost use Rattle.wire_framing.specs.Views.{SourceView, SinkView};
ghost use Rattle.wire_framing.specs.Receive.{Receives};
ghost use Rattle.wire_message.specs.declared.error.IoKind.TheVariants.{Ended};

use peer_conn::{PeerState, RunError};
use peer_route::Entry;
use std::alloc::Global;
use wire_framing::{ReadHalf, Sink, Source, WriteHalf};
use wire_message::{Error, Received};

/// Takes one message, the `seq`-th, or one front that is ignored, and no byte more, by a half that kept nothing (D-Bus
/// Specification, "Message Protocol"). The half then keeps nothing again, unless there is no memory.
fn receive<S: Source>(
    alloc: Global,
    half: &mut ReadHalf<S>,
    kept: &mut Vec<u8>,
    seq: u64,
) -> wire_message::Result<Received>
    requires first { 0 < seq }
    requires empty { kept.old.items ≡ [] }
    ensures told { IfSome (S.view half.old.source).left (λ bytes. Receives (S.view half.old.source).stop (seq - 1) bytes result) }
    ensures takes { Takes seq result (S.view half.old.source) (S.view half.new.source) }
    ensures last { seq ≡ 2 ^ 64 - 1 → result ≡ Err (Error.InputOutput Ended) }
    ensures rest { IfErr result (λ e. e ≢ Error.Memory → IfSome (S.view half.old.source).left (λ bytes. IsRest (Some e) (seq - 1) bytes (S.view half.old.source).stop (S.view half.new.source))) }
    ensures ended { result ≢ Err Error.Memory → kept.new.items ≡ [] }
    ensures same { S.lent half.new.source ≡ S.lent half.old.source }
{
    half.receive_message(alloc, seq, kept)
}

/// The entry of a lane's read, which takes the next message, or the next ignored front, from the source. Where the peer is closed, it
/// has its first closing error again; else, where a stream is full, it takes nothing.
pub(crate) fn read<S: Source>(
    alloc: Global,
    state: &mut PeerState,
    half: &mut ReadHalf<S>,
    kept: &mut Vec<u8>,
    lane: u32,
) -> Result<Entry, RunError>
    requires within { state.old.core.read ≤ 2 ^ 64 - 2 }
    requires empty { kept.old.items ≡ [] }
    ensures entry { IfOk result (λ e. e ≡ quiet lane words.Read e.answer e.read) }
    ensures follows { IfOk result (λ e. (setting : Setting) (es : List Entry) → RunInvariant setting state.old es → RunInvariant setting state.new (e ∷ es)) }
    ensures reads { IfOk result (λ e. (setting : Setting) (start : SourceView) (es : List Entry) → RunInvariant setting state.old es
        → Reads setting start (S.view half.old.source) es
        → Reads setting start (S.view half.new.source) (e ∷ es)) }
    ensures moves { IfOk result (λ e. SourceMoves words.Read state.old.core.calls.closing e.answer (S.view half.old.source).faults (S.view half.new.source).faults) }
    ensures grows { (S.view half.old.source).faults ≤ (S.view half.new.source).faults }
    ensures empty { IfOk result (λ e. kept.new.items ≡ []) }
    ensures same { S.lent half.new.source ≡ S.lent half.old.source }
{
    if let Some(entry) = state.read_refusal(alloc, lane) {
        return Ok(entry);
    }
    let found = receive(alloc, half, kept, state.received() + 1);
    state.read(alloc, lane, found)
}

/// The entry of a lane's `close`: the peer is closed also where the sink's `close` fails.
pub(crate) fn close<W: Sink>(
    alloc: Global,
    state: &mut PeerState,
    half: &mut WriteHalf<W>,
    lane: u32,
) -> Entry
    ensures entry { result ≡ quiet lane words.Close result.answer None }
    ensures follows { (setting : Setting) (es : List Entry) → RunInvariant setting state.old es → RunInvariant setting state.new (result ∷ es) }
    ensures fine { half.new.writing ≡ closed half.old.writing }
    ensures closed { Shuts result.answer (W.view half.old.sink) (W.view half.new.sink) }
    ensures grows { (W.view half.old.sink).faults ≤ (W.view half.new.sink).faults }
    ensures takes { W.takes half.new.sink ≡ W.takes half.old.sink }
    ensures same { W.lent half.new.sink ≡ W.lent half.old.sink }
{
    let failed = half.close().is_err();
    state.close(alloc, lane, failed)
}
