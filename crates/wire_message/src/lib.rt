//! D-Bus messages: errors, the header, the message on its own bytes, serials, the builder
//! (D-Bus Specification, "Message Protocol").
#![tactic(auto)]

mod bodies;
mod body;
mod builder;
mod closing;
mod content;
mod dbus_error;
mod display;
mod endian_sig;
mod error;
mod error_texts;
/// The standard errors, and what a call of an object's method gives where it fails.
pub mod fdo;
mod fdo_kind;
mod field;
mod field_offsets;
mod flags;
mod from_message;
mod front;
mod header;
mod header_text;
mod kind;
mod laws;
mod message;
mod outgoing;
mod outgoing_body;
mod owned;
mod polled;
mod primary;
mod reading;
mod received;
mod replies;
mod sequence;
mod serials;
mod shared;
mod steps;
mod whole;
mod writing;

pub use body::Body;
pub use builder::Builder;
pub use closing::ClosingError;
pub use dbus_error::DBusError;
pub use display::type_name;
pub use endian_sig::{EndianSig, NATIVE_ENDIAN_SIG};
pub use error::{Error, IoKind, Result};
pub use flags::Flags;
pub use front::{header_front, message_of, remove_front, take_front, total_of};
pub use header::Header;
pub use kind::MessageType;
pub use laws::{
    built_bodies_are_read_again, built_messages_are_read_again, each_error_is_itself,
    equal_errors_are_the_same, fields_are_values, fronts_are_the_header_grammar,
    headers_are_values, next_serials_are_the_nearest_free, one_message, two_kinds_have_two_names,
};
pub use message::Message;
pub use outgoing::OutgoingMessage;
pub use outgoing_body::{LongText, OutgoingBody};
pub use polled::{Polled, by_position};
pub use primary::PrimaryHeader;
pub use received::Received;
pub use sequence::{Sequence, none_is_behind_the_last};
pub use serials::{NonePending, Serials, Taken};
pub use steps::Steps;
