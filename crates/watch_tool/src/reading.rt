//! One read of recorded traffic.
ghost use Rattle.std.specs.Prelude.{◌≡◌, ◌≢◌, ◌≤◌, ◌<◌, ◌-◌, ◌^◌, [], Err, IfSome, IfErr};
ghost use Rattle.wire_framing.specs.Receive.{HasCause};
ghost use Rattle.wire_framing.specs.Source.{Widens};
ghost use Rattle.wire_message.specs.Outcome.{IsReadRefusal};
ghost use Rattle.watch_tool.specs.Reading.{Finds};
ghost use Rattle.wire_message.specs.declared.error.Error.TheVariants as errors;

use std::alloc::Global;
use wire_framing::{ReadHalf, Source};
use wire_message::{Received, Result};

/// For how many bytes a read has memory from the start. Most messages are shorter.
const ROOM: usize = 512;

/// Takes the next message, or the next front that is ignored, by a half that kept nothing; `count` messages were read
/// before. Unless it runs out of memory, the half again keeps nothing.
pub(crate) fn read_front<S: Source>(
    alloc: Global,
    half: &mut ReadHalf<S>,
    kept: &mut Vec<u8>,
    count: u64,
) -> Result<Received>
    requires few { count < 2 ^ 64 - 2 }
    requires empty { kept.old.items ≡ [] }
    ensures finds { IfSome (S.view half.old.source).left
        (λ bytes. Finds result count bytes (S.view half.old.source) (S.view half.new.source)) }
    ensures empty { result ≢ Err errors.Memory → kept.new.items ≡ [] }
    ensures error { IfErr result (λ e. IsReadRefusal e × HasCause e (S.view half.old.source) (S.view half.new.source)) }
    ensures grows { (S.view half.old.source).faults ≤ (S.view half.new.source).faults }
    ensures width { Widens (S.view half.old.source) (S.view half.new.source) 65536 }
    ensures same { S.lent half.new.source ≡ S.lent half.old.source }
{
    // If there is no memory for that, the read asks for what it needs.
    let _ = kept.reserve(ROOM);
    half.receive_message(alloc, count + 1, kept)
}
