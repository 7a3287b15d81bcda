//! Reading a rule's text, component by component.
ghost use Rattle.std.specs.Prelude.{◌≡◌, ◌⊎◌, ◌<◌, ◌==◌, false, length, map, IfOk, IfErr, IsTrue, IsUtf8, option_map};
ghost use Rattle.std.specs.List.{position_or_len, before_first, after_first};
ghost use Rattle.std.specs.Option.{MatchOption};
ghost use Rattle.rule_match.specs.Arguments.{is_plain};
ghost use Rattle.rule_match.specs.Namespace.{has_namespace_elements, is_namespace};
ghost use Rattle.rule_match.specs.Key.{same};
ghost use Rattle.rule_match.specs.Part.{argument, kind_of, part_of};
ghost use Rattle.rule_match.specs.Text.{components, before_quote, between_quotes, component, made, rule_in};
ghost use Rattle.rule_match.specs.Bytes.{utf8_wanted, said_in_bytes, rule_in_bytes};
ghost use Rattle.rule_match.specs.Building.{IsPart, IsKey, Gives};

use crate::arguments::Argument;
use crate::key::{Key, key_of, same};
use crate::part::Part;
use crate::rule::MatchRule;
use std::alloc::{AllocError, Global};
use wire_message::{Error, MessageType};
use wire_value::{BusName, Name, NameKind, OwnedName, Text, are_bus_name_elements};

/// The most bytes of a namespace.
const LONGEST_NAMESPACE: usize = 255;

fn has_namespace_elements(text: &[u8]) -> bool
    ensures { result ≡ has_namespace_elements text.now }
{
    match text {
        [b':', rest @ ..] => are_bus_name_elements(rest, true),
        [] => false,
        _ => are_bus_name_elements(text, false),
    }
}

/// Whether a text is a bus name, but for the need of a second element.
#[tactic(auto, unfolding(crate::specs::Namespace::is_namespace))]
pub(crate) fn is_namespace(text: &str) -> bool
    ensures { result ≡ is_namespace text.now }
{
    text.len() <= LONGEST_NAMESPACE && has_namespace_elements(text.as_bytes())
}

/// Whether a text has no 0 byte.
pub(crate) fn is_plain(text: &str) -> bool
    ensures { result ≡ is_plain text.now }
{
    text.as_bytes().iter().all(|byte| *byte != 0)
}

fn kind_of(word: &[u8]) -> Option<MessageType>
    ensures { result ≡ kind_of word.now }
{
    if same(word, b"signal") {
        Some(MessageType::Signal)
    } else if same(word, b"method_call") {
        Some(MessageType::MethodCall)
    } else if same(word, b"method_return") {
        Some(MessageType::MethodReturn)
    } else if same(word, b"error") {
        Some(MessageType::Error)
    } else {
        None
    }
}

#[tactic(auto, unfolding(crate::specs::Part::part_of))]
fn kind_part(value: &[u8]) -> Result<Part, Error>
    ensures part { result ≡ utf8_wanted (part_of Key.Type value.now) }
    ensures valid { IfOk result IsPart }
{
    match kind_of(value) {
        Some(kind) => Ok(Part::Kind(kind)),
        None => Err(Error::InvalidMatchRule),
    }
}

#[tactic(auto, unfolding(crate::specs::Part::part_of))]
fn sender_part(alloc: Global, value: &[u8]) -> Result<Part, Error>
    ensures part { Gives result (utf8_wanted (part_of Key.Sender value.now)) }
    ensures valid { IfOk result IsPart }
{
    match BusName::try_from_bytes(value) {
        Ok(name) => Ok(Part::Sender(name.to_owned(alloc)?)),
        Err(e) => Err(Error::Names(e)),
    }
}

/// The name that a value is to be.
fn name_in<K: NameKind>(alloc: Global, value: &[u8]) -> Result<OwnedName<K>, Error>
    ensures name { IfOk result (λ name. (name ≡ value.now) × IsTrue (K.is_name value.now)) }
    ensures fault { IfErr result (λ e. (e ≡ Error.Memory) ⊎ ((e ≡ Error.Names K.refusal) × ¬ IsTrue (K.is_name value.now))) }
{
    match Name::try_from_bytes(value) {
        Ok(name) => Ok(name.to_owned(alloc)?),
        Err(e) => Err(Error::Names(e)),
    }
}

#[tactic(auto, unfolding(crate::specs::Part::part_of))]
fn namespace_part(alloc: Global, value: &[u8]) -> Result<Part, Error>
    ensures part { Gives result (utf8_wanted (part_of Key.Arg0Namespace value.now)) }
    ensures valid { IfOk result IsPart }
{
    match str::from_utf8(value) {
        Ok(text) => {
            if is_namespace(text) {
                Ok(Part::Arg0Namespace(Text::from_str(alloc, text)?))
            } else {
                Err(Error::InvalidMatchRule)
            }
        }
        Err(_) => Err(Error::InvalidMatchRule),
    }
}

/// The argument of an index and a value, which is to be UTF-8 without a 0 byte.
fn argument_in(alloc: Global, index: u8, value: &[u8]) -> Result<Argument, Error>
    ensures argument { IfOk result (λ a. (a ≡ argument index value.now) × IsTrue (is_plain value.now) × IsUtf8 value.now) }
    ensures fault { IfErr result (λ e. (e ≡ Error.Memory) ⊎ ((e ≡ Error.InvalidMatchRule) × ((is_plain value.now ≡ false) ⊎ ¬ IsUtf8 value.now))) }
{
    let Ok(text) = str::from_utf8(value) else {
        return Err(Error::InvalidMatchRule);
    };
    if !is_plain(text) {
        return Err(Error::InvalidMatchRule);
    }
    let text = Text::from_str(alloc, text)?;
    Ok(Argument { index, text })
}

fn arg_part(alloc: Global, index: u8, value: &[u8]) -> Result<Part, Error>
    requires { index < 64 }
    ensures part { Gives result (utf8_wanted (part_of (Key.Argument index) value.now)) }
    ensures valid { IfOk result IsPart }
{
    match argument_in(alloc, index, value) {
        Ok(argument) => Ok(Part::Arg(argument)),
        Err(e) => Err(e),
    }
}

fn arg_path_part(alloc: Global, index: u8, value: &[u8]) -> Result<Part, Error>
    requires { index < 64 }
    ensures part { Gives result (utf8_wanted (part_of (Key.ArgumentPath index) value.now)) }
    ensures valid { IfOk result IsPart }
{
    match argument_in(alloc, index, value) {
        Ok(argument) => Ok(Part::ArgPath(argument)),
        Err(e) => Err(e),
    }
}

/// What a value is under its key.
#[tactic(auto, unfolding(crate::specs::Part::part_of))]
fn part_of(alloc: Global, key: Key, value: &[u8]) -> Result<Part, Error>
    requires { IsKey key }
    ensures part { Gives result (utf8_wanted (part_of key value.now)) }
    ensures valid { IfOk result IsPart }
{
    match key {
        Key::Type => kind_part(value),
        Key::Sender => sender_part(alloc, value),
        Key::Interface => Ok(Part::Interface(name_in(alloc, value)?)),
        Key::Member => Ok(Part::Member(name_in(alloc, value)?)),
        Key::Path => Ok(Part::Path(name_in(alloc, value)?)),
        Key::PathNamespace => Ok(Part::PathNamespace(name_in(alloc, value)?)),
        Key::Destination => Ok(Part::Destination(name_in(alloc, value)?)),
        Key::Arg0Namespace => namespace_part(alloc, value),
        Key::Argument(index) => arg_part(alloc, index, value),
        Key::ArgumentPath(index) => arg_path_part(alloc, index, value),
    }
}

/// What stands in front of a quote at the end.
fn before_quote(text: &[u8]) -> Option<&[u8]>
    ensures { option_map (λ t. t.now) result ≡ before_quote text.now }
{
    text.strip_suffix(b"'")
}

/// What stands between a quote in front and a quote at the end.
fn between_quotes(text: &[u8]) -> Option<&[u8]>
    ensures { option_map (λ t. t.now) result ≡ between_quotes text.now }
{
    match text {
        [b'\'', rest @ ..] => before_quote(rest),
        _ => None,
    }
}

/// What stands before and after the first `=`.
fn split_once(text: &[u8]) -> Option<(&[u8], &[u8])>
    ensures { MatchOption result (position_or_len (λ b. b == 61) text.now ≡ length text.now) (λ x. (position_or_len (λ b. b == 61) text.now < length text.now) × (x.0.now ≡ before_first (λ b. b == 61) text.now) × (x.1.now ≡ after_first (λ b. b == 61) text.now)) }
{
    let at = text.iter().position(|byte| *byte == b'=')?;
    Some((&text[..at], &text[at + 1..]))
}

#[tactic(auto, unfolding(crate::specs::Text::component))]
fn component(alloc: Global, text: &[u8]) -> Result<Part, Error>
    ensures part { Gives result (utf8_wanted (component text.now)) }
    ensures valid { IfOk result IsPart }
{
    let Some((key, value)) = split_once(text) else {
        return Err(Error::InvalidMatchRule);
    };
    match (key_of(key), between_quotes(value)) {
        (Some(key), Some(value)) => part_of(alloc, key, value),
        _ => Err(Error::InvalidMatchRule),
    }
}

/// What stands before, between and after the commas.
fn components(alloc: Global, text: &[u8]) -> Result<Vec<&[u8]>, AllocError>
    ensures { IfOk result (λ parts. map (λ part. part.now) parts.items ≡ components text.now) }
{
    text.split(|byte| *byte == b',').collect(alloc)
}

/// The rule that components make.
fn rule_of(alloc: Global, parts: &[&[u8]]) -> Result<MatchRule, Error>
    ensures { Gives result (made (said_in_bytes (map (λ part. part.now) parts.now))) }
{
    let mut builder = MatchRule::builder(alloc);
    for part in parts {
        builder = builder.with(component(alloc, part)?)?;
    }
    Ok(builder.build())
}

/// The rule that bytes are.
#[tactic(auto, unfolding(crate::specs::Bytes::rule_in_bytes))]
pub(crate) fn rule_in_bytes(alloc: Global, text: &[u8]) -> Result<MatchRule, Error>
    ensures { Gives result (rule_in_bytes text.now) }
{
    let parts = components(alloc, text)?;
    rule_of(alloc, parts.as_slice())
}

/// The rule that a text is.
pub(crate) fn rule_in(alloc: Global, text: &str) -> Result<MatchRule, Error>
    ensures { Gives result (rule_in text.now) }
{
    rule_in_bytes(alloc, text.as_bytes())
}
