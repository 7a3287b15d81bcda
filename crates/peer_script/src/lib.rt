//! Script text in, transcript text out.
#![tactic(auto)]

mod command;
mod command_text;
mod error;
mod head;
mod kind;
mod laws;
mod line;
mod reading;
mod script;
mod text;
mod transcript;
mod word;

pub use error::ScriptError;
pub use kind::PeerKind;
pub use laws::{first_lines_outside_are_found, script_texts_are_read, transcripts_are_read_again};
pub use script::{Setup, Word, read_script};
pub use text::put_number;
pub use transcript::{Transcript, put_error, put_shown, write_transcript};
pub use word::number_of;
