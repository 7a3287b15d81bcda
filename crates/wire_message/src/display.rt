//! What is printed of a message.
ghost use Rattle.std.specs.Prelude.{◌≡◌, Some, option_map};
ghost use Rattle.wire_message.specs.Front.{body_bytes};
ghost use Rattle.wire_message.specs.Texts.{kind_text, part_text, name_by, first_string as string_found, begins_with_string, first_argument as argument_found, detail_by, message_line};

use crate::front::header_len;
use crate::kind::MessageType;
use crate::message::Message;
use crate::shared::Shared;
use std::fmt;
use wire_encoding::string;
use wire_number::{Endian, Reader};

/// A part of a message's line, left out where it is absent.
#[derive(Clone, Copy)]
struct Part<'a> {
    before: &'static str,
    text: Option<&'a str>,
}

impl<'a> fmt::Display for Part<'a> {
    ghost output = { λ p. Some (part_text p.before.now (option_map (λ t. t.now) p.text)) };

    fn fmt<W: fmt::Write>(&self, f: &mut fmt::Formatter<W>) -> fmt::Result {
        match self.text {
            Some(text) => write!(f, "{}{}", self.before, text),
            None => Ok(()),
        }
    }
}

/// The words for a message type: `Method call`, `Method return`, `Error`, `Signal` (D-Bus Specification, "Message
/// Format").
pub fn type_name(kind: MessageType) -> &'static str
    ensures { result.now ≡ kind_text kind }
{
    match kind {
        MessageType::MethodCall => "Method call",
        MessageType::MethodReturn => "Method return",
        MessageType::Error => "Error",
        MessageType::Signal => "Signal",
    }
}

/// The string at the front of some bytes.
#[tactic(auto, unfolding(crate::specs::Texts::first_string))]
fn first_string(order: Endian, bytes: &[u8]) -> Option<&str>
    ensures { option_map (λ t. t.now) result ≡ string_found order bytes.now }
{
    let (text, _) = string(order, Reader::new(0, bytes))?;
    Some(text)
}

impl Message {
    /// The name that the message's line shows: the member of a call or a signal, the name of an error.
    pub fn shown_name(&self) -> Option<&str>
        ensures { option_map (λ t. t.now) result ≡ name_by self.now.kind self.now }
    {
        let header = self.header();
        match header.message_type() {
            MessageType::MethodCall | MessageType::Signal => Some(header.member()?.as_str()),
            MessageType::Error => Some(header.error_name()?.as_str()),
            MessageType::MethodReturn => None,
        }
    }

    /// The bytes of the message's body, as [`crate::Body::data`].
    pub fn body_bytes(&self) -> &[u8]
        ensures { result.now ≡ body_bytes self.now.bytes }
    {
        let shared: &Shared = &self.shared;
        let bytes = shared.bytes.as_slice();
        &bytes[header_len(bytes)..]
    }

    /// Whether the signature's first type is a string.
    fn begins_with_string(&self) -> bool
        ensures { result ≡ begins_with_string self.now.signature }
    {
        match self.header().signature() {
            Some([letter, ..]) => *letter == b's',
            _ => false,
        }
    }

    /// The first argument, where it is a string and can be read.
    #[tactic(auto, unfolding(crate::specs::Texts::first_argument))]
    pub(crate) fn first_argument(&self) -> Option<&str>
        ensures { option_map (λ t. t.now) result ≡ argument_found self.now }
    {
        if self.begins_with_string() {
            first_string(self.order(), self.body_bytes())
        } else {
            None
        }
    }

    /// What an error says beside its name: its first argument, where that is a string that can be read.
    pub fn detail(&self) -> Option<&str>
        ensures { option_map (λ t. t.now) result ≡ detail_by self.now.kind self.now }
    {
        match self.message_type() {
            MessageType::Error => self.first_argument(),
            _ => None,
        }
    }

    /// The sender that the message's line shows.
    pub fn shown_sender(&self) -> Option<&str>
        ensures { option_map (λ t. t.now) result ≡ self.now.sender }
    {
        Some(self.header().sender()?.as_str())
    }
}

/// `Method call M from S`, `Method return from S`, `Error N: D from S`, `Signal M from S`, each part left out where it
/// is absent; D is the first argument where it is a string that can be read.
impl fmt::Display for Message {
    ghost output = { λ m. Some (message_line m) };

    #[tactic(auto, unfolding(crate::specs::Texts::message_line))]
    fn fmt<W: fmt::Write>(&self, f: &mut fmt::Formatter<W>) -> fmt::Result {
        let name = Part {
            before: " ",
            text: self.shown_name(),
        };
        let detail = Part {
            before: ": ",
            text: self.detail(),
        };
        let sender = Part {
            before: " from ",
            text: self.shown_sender(),
        };
        let kind = type_name(self.message_type());
        write!(f, "{kind}{name}{detail}{sender}")
    }
}

/// The same line.
impl fmt::Debug for Message {
    fn fmt<W: fmt::Write>(&self, f: &mut fmt::Formatter<W>) -> fmt::Result {
        write!(f, "{self}")
    }
}
