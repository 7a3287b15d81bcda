//! What the core gave, as answers.
ghost use Rattle.std.specs.Prelude.{◌≡◌, ◌≢◌};
ghost use Rattle.wire_message.specs.declared.error.Error.TheVariants as errors;
ghost use Rattle.peer_core.specs.declared.subscribe.Opened.{Opened};
ghost use Rattle.peer_core.specs.Handles.{OpeningView};
ghost use Rattle.peer_streams.specs.declared.progress.OpenState.{OpenState};
ghost use Rattle.peer_streams.specs.declared.progress.OpenState.TheVariants as states;
ghost use Rattle.peer_core.specs.Bus.{IsShownAs};
ghost use Rattle.peer_route.specs.Entries.{unsent};
ghost use Rattle.peer_route.specs.Answers as shows;
ghost use Rattle.peer_conn.specs.Invariant.{Answers, undone_answer, unopened_answer};

use crate::acting::{Acted, plainly};
use crate::state::RunError;
use peer_route::{Answer, Polled};
use wire_message::{Error, IoKind, Message, MessageType};

/// What is shown of an error reply: the error, where it has a name, or its position.
pub(crate) fn answer_of_error(message: Message) -> Answer
    ensures { result ≡ shows.error_answer message message.error_name }
{
    if message.header().error_name().is_some() {
        Answer::MethodError(message)
    } else {
        Answer::InvalidReply(message.recv_position())
    }
}

/// What is shown of a reply: its position, and the name of an error that has one.
fn answer_of_reply(message: Message) -> Answer
    ensures { result ≡ shows.reply_answer message }
{
    match message.message_type() {
        MessageType::MethodReturn => Answer::Reply(message.recv_position()),
        MessageType::Error => answer_of_error(message),
        MessageType::MethodCall | MessageType::Signal => {
            Answer::InvalidReply(message.recv_position())
        }
    }
}

/// What is shown of a poll.
pub(crate) fn answer_of_poll(polled: wire_message::Result<Polled<Message>>) -> Answer
    ensures { result ≡ shows.answer_of_poll polled }
{
    match polled {
        Ok(Polled::Now(message)) => answer_of_reply(message),
        Ok(Polled::NotYet) => Answer::NotYet,
        Ok(Polled::NoneBefore) => Answer::NoneBefore,
        Ok(Polled::Closed(error)) => Answer::Closed(error),
        Ok(Polled::Ended) => Answer::Ended,
        Err(error) => Answer::Refused(error),
    }
}

/// What is shown of a drop.
pub(crate) fn answer_of_drop(dropped: wire_message::Result<()>) -> Answer
    ensures { result ≡ shows.answer_of_drop dropped }
{
    match dropped {
        Ok(()) => Answer::Dropped,
        Err(error) => Answer::Refused(error),
    }
}

/// What is answered where a command's words are refused.
pub(crate) fn refused(error: Error) -> Result<Acted, RunError>
    ensures { Answers Answer.Refused error result }
{
    match &error {
        Error::Memory => Err(RunError::Memory),
        _ => Ok(plainly(Answer::Refused(error))),
    }
}

/// What is answered where messages can't be put.
pub(crate) fn unsent(error: Error) -> Result<Acted, RunError>
    ensures { Answers unsent error result }
{
    match &error {
        Error::Memory => Err(RunError::Memory),
        Error::InputOutput(_) => Ok(plainly(Answer::SendFailed(error))),
        _ => Ok(plainly(Answer::Refused(error))),
    }
}

/// What is answered where the core did nothing, or couldn't put a message.
pub(crate) fn undone(error: Error) -> Result<Acted, RunError>
    ensures { Answers undone_answer error result }
{
    match &error {
        Error::Busy => Ok(plainly(Answer::Busy)),
        _ => unsent(error),
    }
}

/// What is answered where it opened no stream of a rule.
pub(crate) fn unopened(error: Error) -> Result<Acted, RunError>
    ensures { Answers unopened_answer error result }
{
    match &error {
        Error::InputOutput(IoKind::Closed) => Ok(plainly(Answer::Refused(error))),
        _ => undone(error),
    }
}

/// What is shown where a stream will not be open, or isn't one for which the bus was asked.
pub(crate) fn answer_of_over(error: Error) -> Answer
    ensures { (o : OpeningView) (state : OpenState) → IsShownAs o state (Opened.Over error) → state ≢ states.Over errors.UnknownHandle → result ≡ shows.answer_of_opening state }
{
    match &error {
        Error::UnknownHandle => Answer::Refused(error),
        _ => Answer::Closed(error),
    }
}
