//! What a poll of a call or of a stream gives.
ghost use Rattle.std.specs.Prelude.{◌≡◌};
ghost use Rattle.wire_message.specs.Polls as answers;

use crate::error::{Error, Result};
use crate::message::Message;

/// What a poll of a call or of a stream gives.
#[derive(Drop)]
pub enum Polled<T> {
    /// What was waited for.
    Now(T),
    /// Nothing yet.
    NotYet,
    /// Nothing yet, where the poll names a position.
    NoneBefore,
    /// The error that closed the peer.
    Closed(Error),
    /// No more: the stream gave all, and the closing error.
    Ended,
}

/// What a poll that names a position gives: NoneBefore in place of NotYet.
///
/// # Errors
///
/// The error that it was handed.
pub fn by_position(polled: Result<Polled<Message>>) -> Result<Polled<Message>>
    ensures { result ≡ answers.by_position polled }
{
    match polled? {
        Polled::NotYet => Ok(Polled::NoneBefore),
        polled => Ok(polled),
    }
}
