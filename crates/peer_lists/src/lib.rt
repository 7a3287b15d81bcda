//! One list of messages for several streams: each message is there once, with a cursor for each stream.
#![tactic(auto)]

mod entry;
mod shared_list;

pub use shared_list::SharedList;
