//! What is known of one stream that was not closed.
ghost use Rattle.std.specs.Prelude.{◌≡◌, ◌&&◌, IfOk, Some, None, true, false};
ghost use Rattle.peer_streams.specs.Keeping.{is_active, waits, refusal_of};

use crate::progress::{OpenState, Progress};
use rule_match::OwnedMatchRule;
use std::alloc::{AllocError, Global};

/// What is known of a stream that was not closed: its rule, if it has one; how far it is opened; whether it gave the closing error;
/// and whether who asked for it was told that it is open. What it holds stands in the list of its rule.
pub struct StreamState {
    pub(crate) rule: Option<OwnedMatchRule>,
    pub(crate) progress: Progress,
    pub(crate) closing_delivered: bool,
    pub(crate) open_reported: bool,
}

impl Drop for StreamState {
    fn drop(self) {
        let StreamState {
            rule: _,
            progress: _,
            closing_delivered: _,
            open_reported: _,
        } = self;
    }
}

impl StreamState {
    /// A stream that takes messages, and whose making is known to who asked for it.
    pub(crate) fn active(rule: Option<OwnedMatchRule>, closing_delivered: bool) -> StreamState
        ensures { result ≡ record { rule = rule; progress = Progress.Active; closing_delivered = closing_delivered; open_reported = true } }
    {
        StreamState {
            rule,
            progress: Progress::Active,
            closing_delivered,
            open_reported: true,
        }
    }

    /// A stream that waits for the return to its AddMatch, which has this serial and this place in the outbox.
    pub(crate) fn asking(rule: OwnedMatchRule, serial: u32, index: u64) -> StreamState
        ensures { result ≡ record { rule = Some rule; progress = Progress.AwaitingReply serial index None; closing_delivered = false; open_reported = false } }
    {
        StreamState {
            rule: Some(rule),
            progress: Progress::AwaitingReply {
                serial,
                index,
                denial: None,
            },
            closing_delivered: false,
            open_reported: false,
        }
    }

    /// Whether it takes messages.
    pub(crate) fn is_active(&self) -> bool
        ensures { result ≡ is_active self.now.progress }
    {
        matches!(self.progress, Progress::Active)
    }

    /// Whether it waits for the return to its AddMatch.
    pub(crate) fn waits(&self) -> bool
        ensures { result ≡ waits self.now.progress }
    {
        matches!(self.progress, Progress::AwaitingReply { .. })
    }

    /// Whether it is open: it takes messages, and who asked for it was told so.
    pub(crate) fn is_usable(&self) -> bool
        ensures { result ≡ (self.now.open_reported && is_active self.now.progress) }
    {
        self.open_reported && self.is_active()
    }

    /// A copy of what is known of a stream that takes messages.
    pub(crate) fn try_clone(&self, alloc: Global) -> Result<StreamState, AllocError>
        ensures { IfOk result (λ copy. copy ≡ record self.now { progress = Progress.Active }) }
    {
        let rule = match &self.rule {
            Some(rule) => Some(OwnedMatchRule::from(rule.inner().to_owned(alloc)?)),
            None => None,
        };
        Ok(StreamState {
            rule,
            progress: Progress::Active,
            closing_delivered: self.closing_delivered,
            open_reported: self.open_reported,
        })
    }

    /// What who asked for it is told of one that was denied; any other is unknown.
    pub(crate) fn into_refusal(self) -> OpenState
        ensures { result ≡ refusal_of self.progress }
    {
        let StreamState {
            progress,
            rule: _,
            closing_delivered: _,
            open_reported: _,
        } = self;
        progress.into_refusal()
    }
}
