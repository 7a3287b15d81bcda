//! The streams of a peer: what each holds and gives, how many messages it may hold, and which rules are subscribed.
#![tactic(auto)]

mod arriving;
mod default_capacity;
mod lists;
mod progress;
mod stream_state;
mod streams;
mod subscriptions;
mod taking;
mod testing;

pub use progress::OpenState;
pub use streams::{MessageStream, Streams};
