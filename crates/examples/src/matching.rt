//! Tests messages against match rules.
//!
//! Each line of the input is a message in hexadecimal, a blank, and the text of a rule. For each line the example prints the rule,
//! and whether the message matches it. Where there is no such message or no such rule, it prints `refused` and why.

use rule_match::MatchRule;
use std::alloc::Global;
use wire_message::message_of;

/// Whether the message of these hexadecimal digits matches the rule.
fn is_match(alloc: Global, rule: &MatchRule, digits: &str) -> anyhow::Result<bool> {
    let bytes = hex::decode(alloc, digits)?;
    let message = message_of(alloc, bytes)?;
    Ok(rule.matches(&message))
}

/// Prints the rule that the text is, and whether the message matches it.
fn print_match(rt: &HostRuntime, digits: &str, text: &str) -> anyhow::Result<()> {
    let rule = MatchRule::try_from(rt.alloc(), text)?;
    if is_match(rt.alloc(), &rule, digits)? {
        println!(rt; "{rule}: matches")?;
    } else {
        println!(rt; "{rule}: doesn't match")?;
    }
    Ok(())
}

/// Tests the message of each line against the line's rule.
pub(crate) fn run(rt: &HostRuntime, lines: &[String]) -> anyhow::Result<()> {
    for line in lines {
        let (digits, text) = line.as_str().split_once(' ').unwrap_or((line.as_str(), ""));
        if let Err(error) = print_match(rt, digits, text) {
            println!(rt; "refused: {error}")?;
        }
    }
    Ok(())
}
