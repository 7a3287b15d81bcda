//! The header lines of a transcript.
ghost use Rattle.std.specs.Prelude.{◌≡◌, ◌++◌, OnOk};
ghost use Rattle.peer_script.specs.Transcript.{capacity_text, fds_text, machine_text, outfault_text, peer_text};

use crate::kind::PeerKind;
use crate::text::{put, put_text};
use crate::transcript::put_with_number;
use std::alloc::AllocError;
use wire_value::OwnedGuid;

#[tactic(auto, unfolding(crate::specs::Transcript::capacity_text))]
pub(crate) fn put_capacity(text: &mut Vec<u8>, limit: Option<u64>) -> Result<(), AllocError>
    ensures { OnOk result (text.new.items ≡ text.old.items ++ capacity_text limit) }
{
    match limit {
        None => Ok(()),
        Some(limit) => {
            put_with_number(text, b"queue ", limit)?;
            put(text, b"\n")
        }
    }
}

#[tactic(auto, unfolding(crate::specs::Transcript::machine_text))]
pub(crate) fn put_machine(text: &mut Vec<u8>, machine: &Option<OwnedGuid>) -> Result<(), AllocError>
    ensures { OnOk result (text.new.items ≡ text.old.items ++ machine_text machine.now) }
{
    match machine {
        None => Ok(()),
        Some(id) => {
            put(text, b"machine ")?;
            put(text, id.as_str().as_bytes())?;
            put(text, b"\n")
        }
    }
}

#[tactic(auto, unfolding(crate::specs::Transcript::fds_text))]
pub(crate) fn put_fds(text: &mut Vec<u8>, fds: bool) -> Result<(), AllocError>
    ensures { OnOk result (text.new.items ≡ text.old.items ++ fds_text fds) }
{
    if fds { put(text, b"fds\n") } else { Ok(()) }
}

#[tactic(auto, unfolding(crate::specs::Transcript::outfault_text))]
pub(crate) fn put_outfault(text: &mut Vec<u8>, count: Option<u64>) -> Result<(), AllocError>
    ensures { OnOk result (text.new.items ≡ text.old.items ++ outfault_text count) }
{
    match count {
        None => Ok(()),
        Some(count) => {
            put_with_number(text, b"outfault ", count)?;
            put(text, b"\n")
        }
    }
}

#[tactic(auto, unfolding(crate::specs::Transcript::peer_text))]
pub(crate) fn put_peer(text: &mut Vec<u8>, kind: &PeerKind) -> Result<(), AllocError>
    ensures { OnOk result (text.new.items ≡ text.old.items ++ peer_text kind.now) }
{
    match kind {
        PeerKind::Direct(None) => put(text, b"direct\n"),
        PeerKind::Direct(Some(name)) => {
            put(text, b"direct ")?;
            put_text(text, name.as_str().as_bytes())?;
            put(text, b"\n")
        }
        PeerKind::Bus(name) => {
            put(text, b"bus ")?;
            put_text(text, name.as_str().as_bytes())?;
            put(text, b"\n")
        }
    }
}
