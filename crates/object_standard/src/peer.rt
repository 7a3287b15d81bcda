//! `org.freedesktop.DBus.Peer` (D-Bus Specification, "Standard Interfaces", "org.freedesktop.DBus.Peer").
ghost use Rattle.std.specs.Prelude.{◌≡◌, IfOk};
ghost use Rattle.object_standard.specs.Arguments.{TakesNone};
ghost use Rattle.object_standard.specs.Peer.{get_machine_id, peer_answer, machine_answer, peer_description, peer_method_named};

use crate::arguments::has_no_arguments;
use object_interface::{
    DescribedArgument, DescribedMethod, Description, DispatchResult2, Items, basic_type, body_of,
    fails, invalid_arguments,
};
use std::alloc::{AllocError, Global};
use wire_message::Message;
use wire_message::fdo::Kind;
use wire_value::{BasicType, Guid, Text};

/// A method of `org.freedesktop.DBus.Peer`.
#[derive(Clone, Copy, Debug, PartialEq, Eq)]
pub enum PeerMethod {
    /// Answers with an empty reply.
    Ping,
    /// Answers with the id of the machine that the service runs on.
    GetMachineId,
}

impl PeerMethod {
    /// Returns the method of that name.
    pub fn named(member: &str) -> Option<PeerMethod>
        ensures { result ≡ peer_method_named member.now }
    {
        if member == "Ping" {
            Some(PeerMethod::Ping)
        } else if member == "GetMachineId" {
            Some(PeerMethod::GetMachineId)
        } else {
            None
        }
    }
}

/// Answers with the machine's id if it is known, else that there is none. It fails only if memory ran out.
fn machine_answer(
    alloc: Global,
    machine_id: Option<Guid<'_>>,
) -> Result<DispatchResult2, AllocError>
    ensures { IfOk result (λ a. a ≡ machine_answer machine_id.entry) }
{
    match machine_id {
        Some(id) => {
            let body = body_of(alloc, (Text::from_str(alloc, id.as_str())?,))?;
            Ok(DispatchResult2::alone(alloc, Ok(body)))
        }
        None => fails(alloc, Kind::NotSupported, "No machine id"),
    }
}

/// What a method answers that was called without arguments. It fails only if memory ran out.
fn answer(
    alloc: Global,
    method: PeerMethod,
    machine_id: Option<Guid<'_>>,
) -> Result<DispatchResult2, AllocError>
    ensures { IfOk result (λ a. a ≡ peer_answer machine_id.entry method) }
{
    match method {
        PeerMethod::Ping => Ok(DispatchResult2::alone(alloc, Ok(body_of(alloc, ())?))),
        PeerMethod::GetMachineId => machine_answer(alloc, machine_id),
    }
}

/// Answers a call of a method of `org.freedesktop.DBus.Peer`, none of which takes arguments.
///
/// # Errors
///
/// AllocError if out of memory.
pub fn answer_of_peer(
    alloc: Global,
    method: PeerMethod,
    message: &Message,
    machine_id: Option<Guid<'_>>,
) -> Result<DispatchResult2, AllocError>
    ensures { IfOk result (λ a. TakesNone message.now (λ a. a ≡ peer_answer machine_id.entry method) a) }
{
    if !has_no_arguments(alloc, message)? {
        return invalid_arguments(alloc);
    }
    answer(alloc, method, machine_id)
}

/// Describes `GetMachineId`. It fails only if memory ran out.
#[tactic(auto, unfolding(wire_names::specs::Names::is_member_name, wire_names::specs::Names::is_element))]
fn get_machine_id(alloc: Global) -> Result<DescribedMethod, AllocError>
    ensures { IfOk result (λ m. m ≡ get_machine_id) }
{
    let id = DescribedArgument::new(alloc, "machine_uuid", basic_type(BasicType::String))?;
    DescribedMethod::new(
        alloc,
        "GetMachineId",
        Items::new(alloc),
        Items::one(alloc, id)?,
    )
}

/// Describes the interface. It fails only if memory ran out.
#[tactic(auto, unfolding(wire_names::specs::Names::is_member_name, wire_names::specs::Names::is_element, crate::specs::Peer::peer_description))]
pub(crate) fn peer_description(alloc: Global) -> Result<Description, AllocError>
    ensures { IfOk result (λ d. d ≡ peer_description) }
{
    let ping = DescribedMethod::new(alloc, "Ping", Items::new(alloc), Items::new(alloc))?;
    let mut methods = Items::one(alloc, ping)?;
    methods.push(get_machine_id(alloc)?)?;
    Ok(Description {
        methods,
        signals: Items::new(alloc),
        properties: Items::new(alloc),
    })
}
