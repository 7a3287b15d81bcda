//! The commands of a peer, what they are answered, and the messages that their words ask for.
#![tactic(auto)]

mod answer;
mod body_word;
mod call_words;
mod hex;
mod words;

pub use answer::{Answer, Entry, Posts};
pub use body_word::{body_words_are_read, read_body};
pub use call_words::{error_message, outgoing_message, reply_message};
pub use hex::{hex_byte, read_hex};
pub use words::{
    CallFlags, CallOp, Command, Live, ObjectOp, Outgoing, OutgoingKind, StreamOp, Words,
};
