//! How many messages the streams of a rule may hold where nothing is asked for.
ghost use Rattle.std.specs.Prelude.{◌≡◌, ◌&&◌, [], option_map};
ghost use Rattle.std.specs.Cmp.Lexicographic.{pointwise};
ghost use Rattle.std.specs.Option.{option_eq};
ghost use Rattle.rule_match.specs.SameArgument.{same_argument};
ghost use Rattle.rule_match.specs.ArgumentTests.{same};
ghost use Rattle.peer_streams.specs.Rules.{is_same, same_kind, same_name, same_place, is_first_alone, owner_changes, default_capacity};

use rule_match::{Argument, MatchRule, PathSpec};
use wire_message::MessageType;
use wire_value::{OwnedBusName, OwnedInterfaceName, OwnedMemberName, OwnedUniqueName, Text};

/// The bus's name, which is its interface's name too (D-Bus Specification, "Message Bus Messages").
const BUS: &str = "org.freedesktop.DBus";

#[tactic(auto, unfolding(rule_match::specs::Rule::bus_signal))]
fn is_signal(kind: Option<MessageType>) -> bool
    ensures { result ≡ option_eq same_kind kind owner_changes.kind }
{
    matches!(kind, Some(MessageType::Signal))
}

#[tactic(auto, unfolding(rule_match::specs::Rule::bus_signal))]
fn is_bus(name: Option<&OwnedBusName>) -> bool
    ensures { result ≡ option_eq same_name (option_map (λ n. n.now) name.entry) owner_changes.sender }
{
    match name {
        Some(OwnedBusName::Unique(name)) => name.as_str() == BUS,
        _ => false,
    }
}

#[tactic(auto, unfolding(rule_match::specs::Rule::bus_signal))]
fn is_bus_interface(name: Option<&OwnedInterfaceName>) -> bool
    ensures { result ≡ option_eq same (option_map (λ n. n.now) name.entry) owner_changes.interface }
{
    match name {
        Some(name) => name.as_str() == BUS,
        None => false,
    }
}

#[tactic(auto, unfolding(rule_match::specs::Rule::bus_signal))]
fn is_owner_changed(name: Option<&OwnedMemberName>) -> bool
    ensures { result ≡ option_eq same (option_map (λ n. n.now) name.entry) owner_changes.member }
{
    match name {
        Some(name) => name.as_str() == "NameOwnerChanged",
        None => false,
    }
}

#[tactic(auto, unfolding(rule_match::specs::Rule::bus_signal))]
fn is_bus_path(place: Option<&PathSpec>) -> bool
    ensures { result ≡ option_eq same_place (option_map (λ p. p.now) place.entry) owner_changes.path }
{
    match place {
        Some(PathSpec::Path(path)) => path.as_str() == "/org/freedesktop/DBus",
        _ => false,
    }
}

/// Whether one argument is wanted, the first.
fn is_first_alone(args: &[Argument]) -> bool
    ensures { result ≡ is_first_alone args.now }
{
    match args {
        [argument] => argument.index == 0,
        _ => false,
    }
}

fn are_none(args: &[Argument]) -> bool
    ensures { result ≡ pointwise same_argument args.now [] }
{
    args.is_empty()
}

#[tactic(auto, unfolding(rule_match::specs::Rule::bus_signal))]
fn is_for_all(destination: Option<&OwnedUniqueName>) -> bool
    ensures { result ≡ option_eq same (option_map (λ n. n.now) destination.entry) owner_changes.destination }
{
    destination.is_none()
}

#[tactic(auto, unfolding(rule_match::specs::Rule::bus_signal))]
fn is_in_no_namespace(namespace: Option<&Text>) -> bool
    ensures { result ≡ option_eq same (option_map (λ n. n.now) namespace.entry) owner_changes.arg0ns }
{
    namespace.is_none()
}

/// Whether the rule is one of an owner's changes: the bus's own signals NameOwnerChanged, at its path, of one name, and it
/// has no other part.
#[tactic(auto, unfolding(crate::specs::Rules::is_same, rule_match::specs::Rule::bus_signal))]
fn is_owner_rule(rule: &MatchRule) -> bool
    ensures { result ≡ (is_first_alone rule.now.args && is_same (record rule.now { args = [] }) owner_changes) }
{
    is_first_alone(rule.args())
        && is_signal(rule.msg_type())
        && is_bus(rule.sender())
        && is_bus_interface(rule.interface())
        && is_owner_changed(rule.member())
        && is_bus_path(rule.path_spec())
        && is_for_all(rule.destination())
        && are_none(rule.arg_paths())
        && is_in_no_namespace(rule.arg0ns())
}

/// How many messages the streams of this rule may hold where nothing else is asked for: 8 where the rule is one of an owner's
/// changes, else 64.
#[tactic(auto, unfolding(crate::specs::Rules::default_capacity))]
pub(crate) fn default_capacity(rule: &MatchRule) -> u64
    ensures { result ≡ default_capacity rule.now }
{
    if is_owner_rule(rule) { 8 } else { 64 }
}
