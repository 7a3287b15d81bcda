//! Recorded traffic is read, and the report of it printed.
ghost use Rattle.std.specs.Prelude.{ℕ, ◌≡◌, ◌⊎◌, List, map, string_bytes, Ok};
ghost use Rattle.watch_tool.specs.Rules.{rules_in};
ghost use Rattle.peer_run.specs.Program.{memory_text, rule_text, Reports, EndsInTime, Ends, Says};

use crate::saying::{DONE, INPUT, OUTPUT, USAGE, say, say_memory};
use rule_match::OwnedMatchRule;
use std::alloc::Global;
use watch_tool::{RulesError, WatchError, monitor, rules_of};
use wire_framing::{Sink, Source};

/// Says which text is the first that is no match rule.
fn say_rule<O: Sink>(alloc: Global, output: &mut O, index: usize) -> u8
    ensures { Says 2 (rule_text index) (O.view output.old) (O.view output.new) result
        ⊎ Says 1 memory_text (O.view output.old) (O.view output.new) result }
{
    match format!(in alloc; "rule {index}\n") {
        Ok(text) => say(output, text.as_bytes(), USAGE),
        Err(_) => say_memory(output),
    }
}

/// Prints the report of the input's traffic by these rules.
fn report<I: Source, O: Sink>(
    alloc: Global,
    rules: &[OwnedMatchRule],
    input: &mut I,
    output: &mut O,
) -> u8
    ensures ends { (texts : List (List ℕ)) → rules_in texts ≡ Ok rules.now
        → Ends (Reports texts (I.view input.old) (I.view input.new)) (O.view output.old) (O.view output.new) result }
    ensures in_time { result ≡ 0 → EndsInTime (I.view input.old) }
{
    match monitor(alloc, rules, input, output) {
        Ok(_closing) => DONE,
        Err(WatchError::Memory) => say_memory(output),
        Err(WatchError::ReadFault) => say(output, b"input fault\n", INPUT),
        Err(WatchError::WriteFault) => OUTPUT,
    }
}

/// Prints the report of the input's traffic by the rules of these texts.
pub(crate) fn run_monitor<I: Source, O: Sink>(
    alloc: Global,
    texts: &[String],
    input: &mut I,
    output: &mut O,
) -> u8
    ensures ends { Ends (Reports (map (λ text. string_bytes text) texts.now) (I.view input.old) (I.view input.new)) (O.view output.old) (O.view output.new) result }
    ensures in_time { result ≡ 0 → EndsInTime (I.view input.old) }
{
    match rules_of(alloc, texts) {
        Ok(rules) => report(alloc, rules.as_slice(), input, output),
        Err(RulesError::Memory) => say_memory(output),
        Err(RulesError::Rule(index)) => say_rule(alloc, output, index),
    }
}
