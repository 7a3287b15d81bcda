//! What is printed of match rules.
use crate::read::{message_of, rule_of};
use crate::row::{Written, split};
use rule_match::{Builder, Candidate, MatchRule};
use std::alloc::{AllocError, Global};
use wire_message::Message;

/// Writes the rule as it is printed.
pub(crate) fn write_rule(alloc: Global, out: &mut String, digits: &str) -> Written {
    match rule_of(alloc, out, digits) {
        Ok(Some(rule)) => write!(out, "{rule}"),
        Ok(None) => Ok(()),
        Err(error) => Err(error),
    }
}

fn word_of(is_match: bool) -> &'static str {
    if is_match { "yes" } else { "no" }
}

/// Whether the rule matches the message; `differs` where it isn't so of a candidate, which is asked twice.
fn answer(rule: &MatchRule, message: &Message) -> &'static str {
    let is_match = rule.matches(message);
    let mut candidate = Candidate::new(message);
    let first = rule.matches_candidate(&mut candidate);
    let second = rule.matches_candidate(&mut candidate);
    if first == is_match && second == is_match {
        word_of(is_match)
    } else {
        "differs"
    }
}

fn write_answer(alloc: Global, out: &mut String, rule: &MatchRule, digits: &str) -> Written {
    match message_of(alloc, out, digits) {
        Ok(Some(message)) => out.push_str(answer(rule, &message)),
        Ok(None) => Ok(()),
        Err(error) => Err(error),
    }
}

/// Writes `yes` where the rule matches the message, else `no`.
pub(crate) fn write_match(alloc: Global, out: &mut String, digits: &str) -> Written {
    let (rule, message) = split(digits);
    match rule_of(alloc, out, rule) {
        Ok(Some(rule)) => write_answer(alloc, out, &rule, message),
        Ok(None) => Ok(()),
        Err(error) => Err(error),
    }
}

/// Writes whether the rule matches a message, and then another to which the candidate turns.
fn write_answers<'m>(
    out: &mut String,
    rule: &MatchRule,
    first: &'m Message,
    second: &'m Message,
) -> Written {
    let mut candidate = Candidate::new(first);
    let before = word_of(rule.matches_candidate(&mut candidate));
    candidate.turn_to(second);
    let after = word_of(rule.matches_candidate(&mut candidate));
    write!(out, "{before} {after}")
}

fn turn_to(
    alloc: Global,
    out: &mut String,
    rule: &MatchRule,
    first: &Message,
    digits: &str,
) -> Written {
    match message_of(alloc, out, digits) {
        Ok(Some(second)) => write_answers(out, rule, first, &second),
        Ok(None) => Ok(()),
        Err(error) => Err(error),
    }
}

fn turn(alloc: Global, out: &mut String, rule: &MatchRule, digits: &str) -> Written {
    let (first, second) = split(digits);
    match message_of(alloc, out, first) {
        Ok(Some(first)) => turn_to(alloc, out, rule, &first, second),
        Ok(None) => Ok(()),
        Err(error) => Err(error),
    }
}

/// Writes the same of two messages, one after the other.
pub(crate) fn write_turned(alloc: Global, out: &mut String, digits: &str) -> Written {
    let (rule, messages) = split(digits);
    match rule_of(alloc, out, rule) {
        Ok(Some(rule)) => turn(alloc, out, &rule, messages),
        Ok(None) => Ok(()),
        Err(error) => Err(error),
    }
}

/// The rule of the message's header.
fn header_rule(alloc: Global, message: &Message) -> Result<MatchRule, AllocError> {
    let header = message.header();
    Ok(Builder::from(alloc, &header)?.build())
}

/// Writes a line with the rule of the message's header.
pub(crate) fn write_header_rule(alloc: Global, out: &mut String, message: &Message) -> Written {
    match header_rule(alloc, message) {
        Ok(rule) => write!(out, "\n  {rule}"),
        Err(error) => Err(error),
    }
}
