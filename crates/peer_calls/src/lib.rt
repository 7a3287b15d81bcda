//! The calls of a peer and its outbox: which call a reply answers, which serials are pending, and how messages are put.
#![tactic(auto)]

mod calls;
mod laws;
mod posting;
mod slot_table;
mod writer;

pub use calls::PendingMethodCalls;
pub use laws::drawn_serials_are_the_nearest_free;
pub use posting::{Issued, draw_each, is_some_deep, post_each};
pub use writer::Writer;
