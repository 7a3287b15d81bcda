//! The lines that a monitor prints.
ghost use Rattle.std.specs.Prelude.{◌≡◌, ◌++◌, ◌∷◌, [], ◌||◌, true, map, option_map, decimal, OnOk, IfOk};
ghost use Rattle.std.specs.List.{join_with_byte};
ghost use Rattle.rule_match.specs.Accepting.{accepts};
ghost use Rattle.wire_message.specs.Texts.{kind_text, part_text};
ghost use Rattle.peer_script.specs.Transcript.{shown_text};
ghost use Rattle.watch_tool.specs.Report.{matching, is_any, is_shown, rules_word, index_word};
ghost use Rattle.watch_tool.specs.Report.{place_words, display_words, message_entry, end_line};

use peer_script::{put_error, put_number, put_shown};
use rule_match::{Candidate, OwnedMatchRule};
use std::alloc::AllocError;
use wire_message::{Error, Message, MessageType, type_name};

/// Appends one byte.
fn put_byte(text: &mut Vec<u8>, byte: u8) -> Result<(), AllocError>
    ensures { OnOk result (text.new.items ≡ text.old.items ++ byte ∷ []) }
{
    Ok(text.push(byte)?)
}

/// Appends the index of a rule that matches, after a comma if another index is before it. Returns whether an index is
/// there now.
fn put_index(
    text: &mut Vec<u8>,
    any: bool,
    index: u64,
    rule: &OwnedMatchRule,
    candidate: &mut Candidate<'_>,
) -> Result<bool, AllocError>
    ensures text { OnOk result
        (text.new.items ≡ text.old.items ++ index_word any index (accepts rule.now candidate.old)) }
    ensures any { IfOk result (λ now. now ≡ (any || accepts rule.now candidate.old)) }
    ensures same { candidate.new ≡ candidate.old }
{
    if !rule.inner().matches_candidate(candidate) {
        return Ok(any);
    }
    if any {
        put_byte(text, b',')?;
    }
    put_number(text, index)?;
    Ok(true)
}

/// Appends the indices of the rules that match the message, with commas between them. Returns whether there is one.
fn put_indices(
    text: &mut Vec<u8>,
    rules: &[OwnedMatchRule],
    message: &Message,
) -> Result<bool, AllocError>
    ensures text { OnOk result
        (text.new.items ≡ text.old.items ++ join_with_byte 44 (map decimal (matching rules.now message.now))) }
    ensures any { IfOk result (λ any. any ≡ is_any (matching rules.now message.now)) }
{
    let mut candidate = Candidate::new(message);
    let mut any = false;
    for (index, rule) in rules.iter().enumerate() {
        any = put_index(text, any, index as u64, rule, &mut candidate)?;
    }
    Ok(any)
}

/// Appends the word for the rules that match the message. Returns whether the message is printed.
fn put_rules(
    text: &mut Vec<u8>,
    rules: &[OwnedMatchRule],
    message: &Message,
) -> Result<bool, AllocError>
    ensures text { OnOk result (text.new.items ≡ text.old.items ++ rules_word rules.now message.now) }
    ensures shown { IfOk result (λ shown. shown ≡ is_shown rules.now message.now) }
{
    if rules.is_empty() {
        put_byte(text, b'-')?;
        return Ok(true);
    }
    put_indices(text, rules, message)
}

/// Appends a message's position and its length, each with a space after it.
fn put_place(text: &mut Vec<u8>, message: &Message) -> Result<(), AllocError>
    ensures { OnOk result (text.new.items ≡ text.old.items ++ place_words message.now) }
{
    put_number(text, message.recv_position())?;
    put_byte(text, b' ')?;
    put_number(text, message.data().len() as u64)?;
    put_byte(text, b' ')
}

/// Appends a part of what is displayed of a message, after some plain text, if there is such a part.
fn put_part(text: &mut Vec<u8>, before: &str, part: Option<&str>) -> Result<(), AllocError>
    requires plain { shown_text before.now ≡ before.now }
    ensures { OnOk result (text.new.items
        ≡ text.old.items ++ shown_text (part_text before.now (option_map (λ t. t.now) part.entry))) }
{
    match part {
        Some(part) => {
            text.extend_from_slice(before.as_bytes())?;
            put_shown(text, part.as_bytes())
        }
        None => Ok(()),
    }
}

/// Appends the words for a message type, which have no byte that is shown otherwise.
#[tactic(auto, using(crate::proofs::Displayed::kind_shown))]
fn put_kind(text: &mut Vec<u8>, kind: MessageType) -> Result<(), AllocError>
    ensures { OnOk result (text.new.items ≡ text.old.items ++ shown_text (kind_text kind)) }
{
    text.extend_from_slice(type_name(kind).as_bytes())
}

/// Appends what is displayed of a message, after a space, and the end of the line.
#[tactic(auto, unfolding(wire_message::specs::Texts::message_line))]
fn put_display(text: &mut Vec<u8>, message: &Message) -> Result<(), AllocError>
    ensures { OnOk result (text.new.items ≡ text.old.items ++ display_words message.now) }
{
    put_byte(text, b' ')?;
    put_kind(text, message.message_type())?;
    put_part(text, " ", message.shown_name())?;
    put_part(text, ": ", message.detail())?;
    put_part(text, " from ", message.shown_sender())?;
    put_byte(text, b'\n')
}

/// Puts the line of a message in the place of the text, if the message is printed. Returns whether it is.
#[tactic(auto, unfolding(crate::specs::Report::message_entry))]
pub(crate) fn put_line(
    text: &mut Vec<u8>,
    rules: &[OwnedMatchRule],
    message: &Message,
) -> Result<bool, AllocError>
    ensures shown { IfOk result (λ shown. shown ≡ is_shown rules.now message.now) }
    ensures text { IfOk result (λ shown. shown ≡ true → text.new.items ≡ message_entry rules.now message.now) }
{
    text.clear();
    put_place(text, message)?;
    let shown = put_rules(text, rules, message)?;
    if shown {
        put_display(text, message)?;
    }
    Ok(shown)
}

/// Puts the last line in the place of the text.
#[tactic(auto, unfolding(crate::specs::Report::end_line))]
pub(crate) fn put_end(text: &mut Vec<u8>, error: &Error) -> Result<(), AllocError>
    ensures { OnOk result (text.new.items ≡ end_line error.now) }
{
    text.clear();
    text.extend_from_slice(b"end ")?;
    put_error(text, error)?;
    text.extend_from_slice(b"\n")
}
