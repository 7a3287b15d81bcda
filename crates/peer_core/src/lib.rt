//! The core of a peer: which call a reply answers, what its streams hold, what closes it, and what is to be sent.
#![tactic(auto)]

mod issuing;
mod route;
mod route_streams;
mod subscribe;
mod unsubscribe;

pub use peer_calls::{Issued, PendingMethodCalls};
pub use peer_streams::MessageStream;
pub use route::Route;
pub use subscribe::{Opened, Opening, Opens};
pub use unsubscribe::Spent;
pub use wire_message::Polled;
