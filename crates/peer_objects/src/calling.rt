//! The call of an interface that is kept.
ghost use Rattle.std.specs.Prelude.{◌≡◌, IfOk, OnErr, slice_get, true};
ghost use Rattle.object_interface.specs.Meaning.{Same};
ghost use Rattle.object_interface.specs.Sending.{IsSendable};
ghost use Rattle.peer_objects.specs.Dispatching.{ComesTo, Called, CallsMut, SetsMut, Reaches};
ghost use Rattle.peer_objects.specs.Reaching.{is_kept};

use crate::server::ObjectServer;
use object_interface::{DispatchResult2, Interface};
use std::alloc::{AllocError, Global};
use wire_message::Message;
use wire_value::{MemberName, Value};

/// What an interface answers: first by the call that may change nothing, then, where that asks for it, by the one that may. It
/// fails only for want of memory, and is then in any state.
fn call<B: Interface>(
    object: &mut B,
    alloc: Global,
    message: &Message,
    member: &MemberName<'_>,
) -> Result<DispatchResult2, AllocError>
    ensures same { Same (B.meaning object.new) (B.meaning object.old) }
    ensures comes { IfOk result (λ a. ComesTo (B.meaning object.old) (B.state object.old) message.now member.now a (B.state object.new)) }
    ensures law { IfOk result (λ a. IsSendable a) }
{
    let answer = object.call(alloc, message, member)?;
    if let DispatchResult2::RequiresMut = &answer {
        return object.call_mut(alloc, message, member);
    }
    Ok(answer)
}

/// Calls the interface in a slot that keeps one. It fails only for want of memory.
fn call_at<B: Interface>(
    slots: &mut Vec<Option<B>>,
    slot: usize,
    alloc: Global,
    message: &Message,
    member: &MemberName<'_>,
) -> Result<DispatchResult2, AllocError>
    requires { is_kept (slice_get slots.old.items slot) ≡ true }
    ensures called { IfOk result (λ a. Called B.meaning B.state slot message.now member.now slots.old.items slots.new.items a) }
    ensures reached { OnErr result (Reaches B.meaning B.state slot slots.old.items slots.new.items) }
{
    match &mut slots[slot] {
        Some(object) => call(object, alloc, message, member),
        None => unreachable!(),
    }
}

/// Calls it by the call that may change it. It fails only for want of memory.
fn call_mut_at<B: Interface>(
    slots: &mut Vec<Option<B>>,
    slot: usize,
    alloc: Global,
    message: &Message,
    member: &MemberName<'_>,
) -> Result<DispatchResult2, AllocError>
    requires { is_kept (slice_get slots.old.items slot) ≡ true }
    ensures called { IfOk result (λ a. CallsMut B.meaning B.state slot message.now member.now slots.old.items slots.new.items a) }
    ensures reached { OnErr result (Reaches B.meaning B.state slot slots.old.items slots.new.items) }
{
    match &mut slots[slot] {
        Some(object) => object.call_mut(alloc, message, member),
        None => unreachable!(),
    }
}

/// Sets a property: by the call that may change nothing, then, where that asks for it, by the one that may. It fails only for
/// want of memory, and is then in any state.
fn set<B: Interface>(
    object: &mut B,
    alloc: Global,
    property: &str,
    value: &Value,
) -> Result<DispatchResult2, AllocError>
    ensures same { Same (B.meaning object.new) (B.meaning object.old) }
    ensures told { IfOk result (λ a. (B.meaning object.old).sets (B.state object.old) property.now value.now a (B.state object.new)) }
    ensures law { IfOk result (λ a. IsSendable a) }
{
    let answer = object.set(alloc, property, value)?;
    if let DispatchResult2::RequiresMut = &answer {
        return object.set_mut(alloc, property, value);
    }
    Ok(answer)
}

/// Sets a property of the interface in a slot that keeps one. It fails only for want of memory.
fn set_at<B: Interface>(
    slots: &mut Vec<Option<B>>,
    slot: usize,
    alloc: Global,
    property: &str,
    value: &Value,
) -> Result<DispatchResult2, AllocError>
    requires { is_kept (slice_get slots.old.items slot) ≡ true }
    ensures set { IfOk result (λ a. SetsMut B.meaning B.state slot property.now value.now slots.old.items slots.new.items a) }
    ensures reached { OnErr result (Reaches B.meaning B.state slot slots.old.items slots.new.items) }
{
    match &mut slots[slot] {
        Some(object) => set(object, alloc, property, value),
        None => unreachable!(),
    }
}

/// Sets a property of it by the call that may change it. It fails only for want of memory.
fn set_mut_at<B: Interface>(
    slots: &mut Vec<Option<B>>,
    slot: usize,
    alloc: Global,
    property: &str,
    value: &Value,
) -> Result<DispatchResult2, AllocError>
    requires { is_kept (slice_get slots.old.items slot) ≡ true }
    ensures called { IfOk result (λ a. SetsMut B.meaning B.state slot property.now value.now slots.old.items slots.new.items a) }
    ensures reached { OnErr result (Reaches B.meaning B.state slot slots.old.items slots.new.items) }
{
    match &mut slots[slot] {
        Some(object) => object.set_mut(alloc, property, value),
        None => unreachable!(),
    }
}

impl<B: Interface> ObjectServer<B> {
    /// Calls the interface in a slot that keeps one. It fails only for want of memory.
    pub(crate) fn call(
        &mut self,
        slot: u64,
        message: &Message,
        member: &MemberName<'_>,
    ) -> Result<DispatchResult2, AllocError>
        requires { is_kept (slice_get self.old.1 slot) ≡ true }
        ensures tree { self.new.0 ≡ self.old.0 }
        ensures notified { self.new.2 ≡ self.old.2 }
        ensures called { IfOk result (λ a. Called B.meaning B.state slot message.now member.now self.old.1 self.new.1 a) }
        ensures reached { OnErr result (Reaches B.meaning B.state slot self.old.1 self.new.1) }
    {
        call_at(&mut self.slots, slot as usize, self.alloc, message, member)
    }

    /// Calls the interface in a slot that keeps one by the call that may change it. It fails only for want of memory.
    pub(crate) fn call_mut(
        &mut self,
        slot: u64,
        alloc: Global,
        message: &Message,
        member: &MemberName<'_>,
    ) -> Result<DispatchResult2, AllocError>
        requires { is_kept (slice_get self.old.1 slot) ≡ true }
        ensures tree { self.new.0 ≡ self.old.0 }
        ensures notified { self.new.2 ≡ self.old.2 }
        ensures called { IfOk result (λ a. CallsMut B.meaning B.state slot message.now member.now self.old.1 self.new.1 a) }
        ensures reached { OnErr result (Reaches B.meaning B.state slot self.old.1 self.new.1) }
    {
        call_mut_at(&mut self.slots, slot as usize, alloc, message, member)
    }

    /// Sets a property of the interface in a slot that keeps one: by the call that may change nothing, then, where that asks for it, by
    /// the one that may. It fails only for want of memory.
    pub(crate) fn set(
        &mut self,
        slot: u64,
        property: &str,
        value: &Value,
    ) -> Result<DispatchResult2, AllocError>
        requires { is_kept (slice_get self.old.1 slot) ≡ true }
        ensures tree { self.new.0 ≡ self.old.0 }
        ensures notified { self.new.2 ≡ self.old.2 }
        ensures set { IfOk result (λ a. SetsMut B.meaning B.state slot property.now value.now self.old.1 self.new.1 a) }
        ensures reached { OnErr result (Reaches B.meaning B.state slot self.old.1 self.new.1) }
    {
        set_at(&mut self.slots, slot as usize, self.alloc, property, value)
    }

    /// Sets a property of the interface in a slot that keeps one by the call that may change it. It fails only for want of memory.
    pub(crate) fn set_mut(
        &mut self,
        slot: u64,
        alloc: Global,
        property: &str,
        value: &Value,
    ) -> Result<DispatchResult2, AllocError>
        requires { is_kept (slice_get self.old.1 slot) ≡ true }
        ensures tree { self.new.0 ≡ self.old.0 }
        ensures notified { self.new.2 ≡ self.old.2 }
        ensures called { IfOk result (λ a. SetsMut B.meaning B.state slot property.now value.now self.old.1 self.new.1 a) }
        ensures reached { OnErr result (Reaches B.meaning B.state slot self.old.1 self.new.1) }
    {
        set_mut_at(&mut self.slots, slot as usize, alloc, property, value)
    }
}
