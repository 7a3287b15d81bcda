//! Whether replies were put.
ghost use Rattle.std.specs.Prelude.{◌≡◌, OnOk, OnErr, true};
ghost use Rattle.peer_objects.specs.Notifying.{awaiting, is_dispatched, is_known, put_for};

use crate::server::ObjectServer;
use object_interface::Interface;
use std::alloc::AllocError;
use std::collections::BTreeMap;

/// A response with the number by which whoever gave it asks whether its reply was put.
#[derive(Drop)]
pub struct ResponseDispatchNotifier<R> {
    number: u64,
    response: R,
}

impl<R> ResponseDispatchNotifier<R> {
    /// The response with this number.
    pub fn new(number: u64, response: R) -> ResponseDispatchNotifier<R>
        ensures number { result.number ≡ number }
        ensures response { result.response ≡ response }
    {
        ResponseDispatchNotifier { number, response }
    }

    /// The response.
    pub fn response(&self) -> &R
        ensures { result.now ≡ self.now.response }
    {
        &self.response
    }

    /// The number.
    pub fn number(&self) -> u64
        ensures { result ≡ self.now.number }
    {
        self.number
    }
}

/// Makes room for the number of an answer, if it has one. Without memory nothing is changed.
fn make_room(notified: &mut BTreeMap<u64, bool>, number: Option<u64>) -> Result<(), AllocError>
    ensures done { OnOk result (notified.new.entries ≡ awaiting number notified.old.entries) }
    ensures rest { OnErr result (notified.new.entries ≡ notified.old.entries) }
{
    let Some(number) = number else {
        return Ok(());
    };
    if notified.contains_key(&number) {
        return Ok(());
    }
    notified.insert(number, false)?;
    Ok(())
}

impl<B: Interface> ObjectServer<B> {
    /// An answer with that number, if it has one, is given: a number that no answer had is there with no reply put; one that an
    /// answer had stays as it is, also where its reply was put. Without memory nothing is changed.
    pub(crate) fn await_reply(&mut self, number: Option<u64>) -> Result<(), AllocError>
        ensures tree { self.new.0 ≡ self.old.0 }
        ensures slots { self.new.1 ≡ self.old.1 }
        ensures done { OnOk result (self.new.2 ≡ awaiting number self.old.2) }
        ensures rest { OnErr result (self.new.2 ≡ self.old.2) }
    {
        make_room(&mut self.notified, number)
    }

    /// Records that the reply of an answer of [`ObjectServer::dispatch`] with that number was put. It takes no memory.
    pub fn set_dispatched(&mut self, number: u64)
        requires { is_known self.old.2 number ≡ true }
        ensures { self.new ≡ (self.old.0, self.old.1, put_for number self.old.2) }
    {
        if let Some(put) = self.notified.get_mut(&number) {
            *put = true;
        }
    }

    /// Whether the reply of an answer of [`ObjectServer::dispatch`] with that number was put, as
    /// [`ObjectServer::set_dispatched`] recorded.
    pub fn dispatched(&self, number: u64) -> bool
        ensures { result ≡ is_dispatched self.now.2 number }
    {
        match self.notified.get(&number) {
            Some(put) => *put,
            None => false,
        }
    }
}
