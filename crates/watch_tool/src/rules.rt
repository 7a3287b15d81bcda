//! The match rules that a monitor is given as texts.
ghost use Rattle.std.specs.Prelude.{◌≡◌, map, string_bytes};
ghost use Rattle.watch_tool.specs.Rules.{rules_in, TellsRules, TellsRule, refusal_of};

use rule_match::OwnedMatchRule;
use std::alloc::Global;
use wire_message::Error;

/// Why some texts have no rules.
#[derive(Clone, Copy, PartialEq, Eq, Debug)]
pub enum RulesError {
    /// Memory ran out.
    Memory,
    /// The text with this index, from 0 on, is no match rule, and the texts before it are.
    Rule(usize),
}

/// What an error of reading a text, which has this index, says of the texts.
fn refusal_of(error: &Error, index: usize) -> RulesError
    ensures { result ≡ refusal_of error.now index }
{
    match error {
        Error::Memory => RulesError::Memory,
        _ => RulesError::Rule(index),
    }
}

/// Appends the rule of a text, which has this index.
fn push_rule(
    alloc: Global,
    rules: &mut Vec<OwnedMatchRule>,
    text: &str,
    index: usize,
) -> Result<(), RulesError>
    ensures { TellsRule result text.now index rules.old.items rules.new.items }
{
    let rule = match OwnedMatchRule::try_from(alloc, text) {
        Ok(rule) => rule,
        Err(error) => return Err(refusal_of(&error, index)),
    };
    match rules.push(rule) {
        Ok(()) => Ok(()),
        Err(_) => Err(RulesError::Memory),
    }
}

/// Reads the match rules of some texts, in order (D-Bus Specification, "Match Rules").
///
/// # Errors
///
/// - `Rule` with the index of the first text that is no match rule, from 0 on, if there is one.
/// - `Memory` if out of memory.
pub fn rules_of(alloc: Global, texts: &[String]) -> Result<Vec<OwnedMatchRule>, RulesError>
    ensures { TellsRules (λ rules. rules.items) result (rules_in (map (λ text. string_bytes text) texts.now)) }
{
    let mut rules = Vec::new(alloc);
    for (index, text) in texts.iter().enumerate() {
        push_rule(alloc, &mut rules, text, index)?;
    }
    Ok(rules)
}
