//! A script's commands, run over a source and a sink; and the program around it.
#![tactic(auto)]

mod generated;
mod laws;
mod main_call;
mod monitored;
mod own;
mod reading;
mod request;
mod run;
mod saying;
mod scripted;
mod writing;

pub use laws::one_transcript;
pub use main_call::peer_main;
pub use object_interface::Interface;
pub use own::program_main;
pub use peer_conn::RunError;
pub use peer_route::{
    Answer, CallFlags, CallOp, Command, Entry, Live, ObjectOp, Outgoing, OutgoingKind, Posts,
    StreamOp, Words,
};
pub use peer_script::{
    PeerKind, ScriptError, Setup, Transcript, Word, read_script, write_transcript,
};
pub use peer_service::Registry;
pub use peer_turns::{a_call_changes_one_object, each_call_is_answered_once, one_history};
pub use run::run_peer;
pub use wire_framing::{
    Failed, MemorySink, MemorySource, Piece, Refusal, Sink, Source, StdSink, StdSource,
};
pub use wire_message::fdo::StandardError;
pub use wire_message::{Error, IoKind, Message};
pub use wire_value::{
    Bytes, NamesError, OwnedErrorName, OwnedInterfaceName, OwnedObjectPath, OwnedUniqueName, Text,
    VariantError,
};
