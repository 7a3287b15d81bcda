//! Drawing serials, none of which is 0 or pending (D-Bus Specification, "Message Format").
ghost use Rattle.std.specs.Prelude.{ℕ, ◌≡◌, ◌+◌, ◌*◌, ◌<◌, ◌≤◌, ◌%◌, Bool, not, IfSome, IfNone, false};
ghost use Rattle.wire_number.specs.Limits.{greatest_serial};
ghost use Rattle.wire_message.specs.SerialOrder.{Draws, IsNext, AllTaken, distance, looked_at, taken_among};

use crate::error::{Error, Result};
use crate::steps::{Counts, Steps, Uncounted};
use std::marker::Model;
use std::sync::ledger::Ledger;

/// Which serials are pending, so that none of them is drawn.
pub trait Taken {
    ghost is_taken: { Self → ℕ → Bool };

    /// Whether the serial is pending.
    fn taken(&self, serial: u32) -> bool
        ensures { result ≡ is_taken self.now serial };

    /// How many of the serials from 1 to 4,294,967,295 are pending.
    fn count(&self) -> u64
        ensures { result ≡ taken_among (is_taken self.now) greatest_serial };
}

/// No serial is pending.
#[derive(Clone, Copy, Debug)]
pub struct NonePending;

impl Taken for NonePending {
    ghost is_taken = { λ _ _. false };

    fn taken(&self, _serial: u32) -> bool {
        false
    }

    #[tactic(auto, using(crate::proofs::SerialOrder::among_none))]
    fn count(&self) -> u64 {
        0
    }
}

/// Draws serials: each is the first after the last one drawn, in cyclic order from 1 to 4,294,967,295, that isn't
/// pending (D-Bus Specification, "Message Format").
#[derive(Debug)]
pub struct Serials {
    last: u32,
}

impl Model for Serials {
    ghost Value = { ℕ };

    ghost view = { λ s. s.last };

    ghost inverse = { λ n. record { last = n } };
}

impl Drop for Serials {
    fn drop(self) {
        let Serials { last: _ } = self;
    }
}

impl Serials {
    /// No serial was drawn: the first is 1.
    pub fn new() -> Serials
        ensures { result ≡ 0 }
    {
        Serials { last: 0 }
    }

    /// That serial was the last that was drawn; 0 where none was. Serials that were drawn after it are drawn again.
    pub fn after(last: u32) -> Serials
        ensures { result ≡ last }
    {
        Serials { last }
    }

    /// The last serial that was drawn; 0 where none was.
    pub fn last(&self) -> u32
        ensures { result ≡ self.now }
    {
        self.last
    }

    /// Draws the next serial. A step is a serial that is looked at: those from the one after the last drawn on, in
    /// cyclic order, up to the one that is drawn. They are at most two more than the serials that are pending.
    ///
    /// # Errors
    ///
    /// SerialsSpent if and only if each of the 4,294,967,295 is pending. Then nothing was drawn, and no step was taken.
    pub fn next<T: Taken, L: Ledger>(&mut self, taken: &T, steps: &mut Steps<L>) -> Result<u32>
        ensures drawn { Draws (T.is_taken taken.now) self.old self.new result }
        ensures cost { steps.new ≤ steps.old + taken_among (T.is_taken taken.now) greatest_serial + 2 }
        ensures exact { steps.new ≡ steps.old + looked_at self.old result }
    {
        self.draw(taken, steps)
    }

    /// As `next`, for a caller that counts no steps.
    ///
    /// # Errors
    ///
    /// SerialsSpent exactly where each of the 4,294,967,295 is pending; then nothing was drawn.
    pub fn next_uncounted<T: Taken>(&mut self, taken: &T) -> Result<u32>
        ensures { Draws (T.is_taken taken.now) self.old self.new result }
    {
        self.draw(taken, &mut Uncounted)
    }

    pub(crate) fn draw<T: Taken, S: Counts>(&mut self, taken: &T, steps: &mut S) -> Result<u32>
        ensures drawn { Draws (T.is_taken taken.now) self.old self.new result }
        ensures cost { S.counted steps.new ≤ S.counted steps.old + taken_among (T.is_taken taken.now) greatest_serial + 2 }
        ensures exact { S.counted steps.new ≡ S.counted steps.old + looked_at self.old result * S.weight }
    {
        match next_after(self.last, taken, steps) {
            Some(serial) => {
                self.last = serial;
                Ok(serial)
            }
            None => Err(Error::SerialsSpent),
        }
    }
}

/// The serial after this one in cyclic order; 1 after nothing, which is 0.
fn after(serial: u32) -> u32
    ensures { result ≡ serial % greatest_serial + 1 }
{
    if serial == u32::MAX { 1 } else { serial + 1 }
}

/// Whether the serial isn't pending. To look at it is one step: no other function looks at a serial or counts a step of
/// a draw.
fn is_free<T: Taken, S: Counts>(serial: u32, taken: &T, steps: &mut S) -> bool
    ensures free { T.is_taken taken.now serial ≡ not result }
    ensures step { S.counted steps.new ≡ S.counted steps.old + S.weight }
    ensures light { S.weight ≤ 1 }
{
    steps.count();
    !taken.taken(serial)
}

/// The first serial after the last one drawn that isn't pending.
#[tactic(auto, using(crate::proofs::SerialOrder::round))]
fn next_after<T: Taken, S: Counts>(last: u32, taken: &T, steps: &mut S) -> Option<u32>
    ensures next { IfSome result (IsNext (T.is_taken taken.now) last) }
    ensures none { IfNone result (AllTaken (T.is_taken taken.now)) }
    ensures cost { S.counted steps.new ≤ S.counted steps.old + taken_among (T.is_taken taken.now) greatest_serial + 2 }
    ensures drawn { IfSome result (λ serial. S.counted steps.new ≡ S.counted steps.old + distance last serial * S.weight) }
    ensures spent { IfNone result (S.counted steps.new ≡ S.counted steps.old) }
{
    if taken.count() == u64::from(u32::MAX) {
        return None;
    }
    let mut candidate = last;
    for _ in 0..u32::MAX {
        candidate = after(candidate);
        if is_free(candidate, taken, steps) {
            return Some(candidate);
        }
    }
    unreachable!()
}
